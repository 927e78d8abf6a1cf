//! Why the paths of a build root aren't told, or new ones can't be made.
ghost use Rattle.std.specs.Prelude.{◌≡◌};
ghost use Rattle.root_paths.specs.declared.path_err.PathErr.TheVariants.{NoMemory as no_memory};

use file_tree::{Text, TreeErr};
use std::alloc::AllocError;
use thiserror::Error;

/// Why the paths of a build root aren't told, or new ones can't be made. A path is that of the tree, and
/// begins with the root.
#[derive(Drop, Debug, Error)]
pub enum PathErr {
    /// Nothing lies below the root.
    #[error("nothing lies below the root")]
    Absent,
    /// Too many paths lie below the root.
    #[error("too many paths lie below the root")]
    Entries,
    /// A path is too long.
    #[error("a path is too long")]
    PathTooLong(Text),
    /// A new path is there, or lies below a path that is there or is new, or has such a one below it.
    #[error("a new path is taken")]
    Taken(Text),
    /// The tree's count of faults rose.
    #[error("a call of the tree failed")]
    Tree,
    /// There was not enough memory.
    #[error("there was not enough memory")]
    NoMemory,
}

impl From<AllocError> for PathErr {
    ghost from_gives = { λ _ e. e ≡ no_memory };

    fn from(_e: AllocError) -> PathErr {
        PathErr::NoMemory
    }
}

impl From<TreeErr> for PathErr {
    ghost use Rattle.root_paths.specs.Errors.{tree_ends};

    ghost from_gives = { λ t e. e ≡ tree_ends t };

    fn from(e: TreeErr) -> PathErr {
        match e {
            TreeErr::Failed => PathErr::Tree,
            TreeErr::NoMemory => PathErr::NoMemory,
        }
    }
}
