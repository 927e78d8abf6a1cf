//! What a tree holds, what a read or a list of it answers, and its errors.
ghost use Rattle.std.specs.Prelude.{◌≡◌, IfOk};

use crate::text::{Blob, Paths, Text};
use std::alloc::{AllocError, AllocFailed, Global};

/// What stands at a path of a tree.
#[derive(Drop, Debug)]
pub enum Node {
    /// A file with these bytes and these 12 bits of mode.
    File { bytes: Blob, mode: u32 },
    /// A symbolic link that leads to this text.
    Link { target: Text },
}

impl Node {
    /// A copy.
    pub fn copied(&self, alloc: Global) -> Result<Node, AllocError>
        ensures value { IfOk result (λ n. n ≡ self.now) }
    {
        match self {
            Node::File { bytes, mode } => {
                let bytes = bytes.copied(alloc)?;
                Ok(Node::File { bytes, mode: *mode })
            }
            Node::Link { target } => {
                let target = target.copied(alloc)?;
                Ok(Node::Link { target })
            }
        }
    }
}

/// What a read finds at a path.
#[derive(Drop, Debug)]
pub enum Found {
    /// Nothing is at the path or below it.
    Absent,
    /// Nothing is at the path, and something below it.
    Folder,
    /// A file, whole.
    File { bytes: Blob, mode: u32 },
    /// A symbolic link.
    Link { target: Text },
    /// A file of this many bytes, more than the limit.
    TooLarge { size: u64 },
}

/// What a list finds below a folder.
#[derive(Drop, Debug)]
pub enum Listed {
    /// All paths below the folder, in byte order.
    Paths(Paths),
    /// There are more than the limit.
    TooMany,
}

/// Why a call of a tree fails.
#[derive(Clone, Copy, Debug, PartialEq, Eq)]
pub enum TreeErr {
    /// The tree's count of faults rose.
    Failed,
    /// No memory was left, and nothing changed.
    NoMemory,
}

impl From<AllocError> for TreeErr {
    ghost use Rattle.file_tree.specs.declared.node.TreeErr.TheVariants.{NoMemory};

    ghost from_gives = { λ _ e. e ≡ NoMemory };

    fn from(_e: AllocError) -> TreeErr {
        TreeErr::NoMemory
    }
}

impl<T: Drop> From<AllocFailed<T>> for TreeErr {
    ghost use Rattle.file_tree.specs.declared.node.TreeErr.TheVariants.{NoMemory};

    ghost from_gives = { λ _ e. e ≡ NoMemory };

    fn from(_e: AllocFailed<T>) -> TreeErr {
        TreeErr::NoMemory
    }
}
