//! Why a gather gives no report.
ghost use Rattle.std.specs.Prelude.{◌≡◌};
ghost use Rattle.src_gather.specs.declared.gather_err.GatherErr.TheVariants.{NoMemory as no_memory};

use dw_base::NoMemory;
use file_tree::{Text, TreeErr};
use std::alloc::{AllocError, AllocFailed};
use thiserror::Error;
use work_journal::JournalErr;

/// Why a gather gives no report. A path is that of the tree.
#[derive(Drop, Debug, Error)]
pub enum GatherErr {
    /// Nothing lies below the root, or a file of the run over it isn't there.
    #[error("a root or a file of its run isn't there")]
    Absent(Text),
    /// Too many paths lie below the root.
    #[error("too many paths lie below the root")]
    Entries,
    /// A source or its copy has too long a path.
    #[error("a path is too long")]
    PathTooLong(Text),
    /// The list of sources or a source has this many bytes, more than may be read.
    #[error("a file has {size} bytes, more than may be read")]
    FileTooLarge { path: Text, size: u64 },
    /// The text of the plan would be too long.
    #[error("the plan is too long")]
    PlanTooLarge,
    /// A copy can't be made, since its path is taken.
    #[error("the path of a copy is taken")]
    Taken(Text),
    /// A text of the work folder is bad or of another run, or a source isn't the planned one.
    #[error("the gather can't be taken up")]
    Journal(JournalErr),
    /// The tree's count of faults rose.
    #[error("a call of the tree failed")]
    Tree,
    /// There was not enough memory.
    #[error("there was not enough memory")]
    NoMemory,
}

impl From<AllocError> for GatherErr {
    ghost from_gives = { λ _ e. e ≡ no_memory };

    fn from(_e: AllocError) -> GatherErr {
        GatherErr::NoMemory
    }
}

impl<T: Drop> From<AllocFailed<T>> for GatherErr {
    ghost from_gives = { λ _ e. e ≡ no_memory };

    fn from(_e: AllocFailed<T>) -> GatherErr {
        GatherErr::NoMemory
    }
}

impl From<NoMemory> for GatherErr {
    ghost from_gives = { λ _ e. e ≡ no_memory };

    fn from(_e: NoMemory) -> GatherErr {
        GatherErr::NoMemory
    }
}

impl From<TreeErr> for GatherErr {
    ghost use Rattle.src_gather.specs.Errors.{tree_ends};

    ghost from_gives = { λ t e. e ≡ tree_ends t };

    fn from(e: TreeErr) -> GatherErr {
        match e {
            TreeErr::Failed => GatherErr::Tree,
            TreeErr::NoMemory => GatherErr::NoMemory,
        }
    }
}

impl From<JournalErr> for GatherErr {
    ghost use Rattle.src_gather.specs.Errors.{journal_ends};

    ghost from_gives = { λ j e. e ≡ journal_ends j };

    fn from(e: JournalErr) -> GatherErr {
        match e {
            JournalErr::OtherRun { field, kept, given } => {
                GatherErr::Journal(JournalErr::OtherRun { field, kept, given })
            }
            JournalErr::PlanText { file, at } => {
                GatherErr::Journal(JournalErr::PlanText { file, at })
            }
            JournalErr::Changed {
                path,
                planned,
                found,
            } => GatherErr::Journal(JournalErr::Changed {
                path,
                planned,
                found,
            }),
            JournalErr::Refused { path, refusal } => {
                GatherErr::Journal(JournalErr::Refused { path, refusal })
            }
            JournalErr::Tree => GatherErr::Tree,
            JournalErr::NoMemory => GatherErr::NoMemory,
        }
    }
}
