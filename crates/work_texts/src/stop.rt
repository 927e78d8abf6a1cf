//! Why the reading of a text ends.
ghost use Rattle.std.specs.Prelude.{◌≡◌};
ghost use Rattle.work_texts.specs.declared.stop.Stop.TheVariants.{NoMemory as no_memory};

use dw_base::NoMemory;
use std::alloc::{AllocError, AllocFailed};

/// Why the reading of a text ends.
#[derive(Drop, Debug)]
pub(crate) enum Stop {
    /// The field from which so many bytes are left is bad, or isn't there.
    Field { left: usize },
    /// There was not enough memory.
    NoMemory,
}

impl From<AllocError> for Stop {
    ghost from_gives = { λ _ e. e ≡ no_memory };

    fn from(_e: AllocError) -> Stop {
        Stop::NoMemory
    }
}

impl From<NoMemory> for Stop {
    ghost from_gives = { λ _ e. e ≡ no_memory };

    fn from(_e: NoMemory) -> Stop {
        Stop::NoMemory
    }
}

impl<T: Drop> From<AllocFailed<T>> for Stop {
    ghost from_gives = { λ _ e. e ≡ no_memory };

    fn from(_e: AllocFailed<T>) -> Stop {
        Stop::NoMemory
    }
}
