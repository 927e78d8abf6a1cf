//! Why a step of the journal gives no answer.
ghost use Rattle.std.specs.Prelude.{◌≡◌};
ghost use Rattle.work_texts.specs.declared.journal_err.JournalErr.TheVariants.{NoMemory as no_memory};

use dw_base::Refusal;
use file_tree::{Blob, Text};
use std::alloc::{AllocError, AllocFailed};
use thiserror::Error;

/// A text of the work folder.
#[derive(Clone, Copy, Debug, PartialEq, Eq)]
pub enum WorkFile {
    /// What the run does.
    Plan,
    /// That the run is done.
    Finished,
}

/// Why a step of the journal gives no answer.
#[derive(Drop, Debug, Error)]
pub enum JournalErr {
    /// The work folder is of a run with another key: the number of the first part that differs, as
    /// it was kept and as it was given.
    #[error("the work folder is of another run: option {field} differs")]
    OtherRun {
        field: u8,
        kept: Blob,
        given: Blob,
    },
    /// The text isn't one that this program reads: the place of its first bad field, in bytes from
    /// its start.
    #[error("the text {file:?} of the work folder has a bad field at {at}")]
    PlanText {
        file: WorkFile,
        at: u64,
    },
    /// A file isn't the one that was planned, by its digest; `None` where no file of the allowed
    /// length is there.
    #[error("a file has changed since the run was planned")]
    Changed {
        path: Text,
        planned: [u8; 20],
        found: Option<[u8; 20]>,
    },
    /// A file is refused.
    #[error("a file is refused")]
    Refused {
        path: Text,
        refusal: Refusal,
    },
    /// The tree's count of faults rose.
    #[error("a call of the tree failed")]
    Tree,
    /// There was not enough memory.
    #[error("there was not enough memory")]
    NoMemory,
}

impl From<AllocError> for JournalErr {
    ghost from_gives = { λ _ e. e ≡ no_memory };

    fn from(_e: AllocError) -> JournalErr {
        JournalErr::NoMemory
    }
}

impl<T: Drop> From<AllocFailed<T>> for JournalErr {
    ghost from_gives = { λ _ e. e ≡ no_memory };

    fn from(_e: AllocFailed<T>) -> JournalErr {
        JournalErr::NoMemory
    }
}
