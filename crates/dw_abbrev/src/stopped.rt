//! Why a step through a table of abbreviations gives nothing.

ghost use Rattle.std.specs.Prelude.{◌≡◌};
ghost use Rattle.dw_abbrev.specs.declared.stopped.Stopped.TheVariants.{NoMemory as no_memory};

use std::alloc::{AllocError, AllocFailed};

/// Why a step gives nothing.
#[derive(Clone, Copy, Debug, PartialEq, Eq)]
pub(crate) enum Stopped {
    /// No abbreviation stands there, and not the end of the table.
    Unspelled,
    /// There was not enough memory.
    NoMemory,
}

impl From<AllocError> for Stopped {
    ghost from_gives = { λ _ s. s ≡ no_memory };

    fn from(_e: AllocError) -> Stopped {
        Stopped::NoMemory
    }
}

impl<T: Drop> From<AllocFailed<T>> for Stopped {
    ghost from_gives = { λ _ s. s ≡ no_memory };

    fn from(_e: AllocFailed<T>) -> Stopped {
        Stopped::NoMemory
    }
}
