//! Why a build root has no plan.
ghost use Rattle.std.specs.Prelude.{◌≡◌};
ghost use Rattle.root_plan.specs.declared.plan_err.PlanErr.TheVariants.{Tree as tree, NoMemory as no_memory};

use dw_base::{NoMemory, Refusal};
use file_tree::{Text, TreeErr};
use root_paths::PathErr;
use std::alloc::{AllocError, AllocFailed};
use thiserror::Error;

/// Why a build root has no plan. A path is that of the tree, and begins with the root.
#[derive(Drop, Debug, Error)]
pub enum PlanErr {
    /// Nothing lies below the root.
    #[error("nothing lies below the root")]
    Absent,
    /// Too many paths lie below the root.
    #[error("too many paths lie below the root")]
    Entries,
    /// A file, or a path that the run would make, has too long a path.
    #[error("a path is too long")]
    PathTooLong(Text),
    /// A file has this many bytes, more than may be read.
    #[error("a file has {size} bytes, more than may be read")]
    FileTooLarge { path: Text, size: u64 },
    /// The text of the plan would be too long.
    #[error("the plan is too long")]
    PlanTooLarge,
    /// A file is refused.
    #[error("a file is refused")]
    Refused { path: Text, refusal: Refusal },
    /// A path that the run would make is there, or lies below a file or a link, or has something below it.
    #[error("a path that the run would make is taken")]
    Taken(Text),
    /// The tree's count of faults rose.
    #[error("a call of the tree failed")]
    Tree,
    /// There was not enough memory.
    #[error("there was not enough memory")]
    NoMemory,
}

impl From<AllocError> for PlanErr {
    ghost from_gives = { λ _ e. e ≡ no_memory };

    fn from(_e: AllocError) -> PlanErr {
        PlanErr::NoMemory
    }
}

impl<T: Drop> From<AllocFailed<T>> for PlanErr {
    ghost from_gives = { λ _ e. e ≡ no_memory };

    fn from(_e: AllocFailed<T>) -> PlanErr {
        PlanErr::NoMemory
    }
}

impl From<NoMemory> for PlanErr {
    ghost from_gives = { λ _ e. e ≡ no_memory };

    fn from(_e: NoMemory) -> PlanErr {
        PlanErr::NoMemory
    }
}

impl From<TreeErr> for PlanErr {
    ghost use Rattle.root_plan.specs.Errors.{tree_ends};

    ghost from_gives = { λ t e. e ≡ tree_ends t };

    fn from(e: TreeErr) -> PlanErr {
        match e {
            TreeErr::Failed => PlanErr::Tree,
            TreeErr::NoMemory => PlanErr::NoMemory,
        }
    }
}

impl From<PathErr> for PlanErr {
    ghost use Rattle.root_plan.specs.Errors.{path_ends};

    ghost from_gives = { λ p e. e ≡ path_ends p };

    fn from(e: PathErr) -> PlanErr {
        match e {
            PathErr::Absent => PlanErr::Absent,
            PathErr::Entries => PlanErr::Entries,
            PathErr::PathTooLong(path) => PlanErr::PathTooLong(path),
            PathErr::Taken(path) => PlanErr::Taken(path),
            PathErr::Tree => PlanErr::Tree,
            PathErr::NoMemory => PlanErr::NoMemory,
        }
    }
}
