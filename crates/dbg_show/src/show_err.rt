//! Why `show` doesn't come to its end.

ghost use Rattle.std.specs.Prelude.{◌≡◌};
ghost use Rattle.dw_base.specs.declared.fault.Fault.TheVariants.{NoMemory as no_memory};
ghost use Rattle.dbg_show.specs.declared.show_err.ShowErr.TheVariants as err;

use dw_base::{Fault, NoMemory};
use file_tree::SinkErr;
use std::alloc::AllocError;

/// Why the text of a file isn't printed, or not to its end.
#[derive(Clone, Copy, Debug, PartialEq, Eq)]
pub enum ShowErr {
    /// The file is refused, or there was not enough memory.
    Fault(Fault),
    /// A write to the sink failed.
    Sink,
}

impl From<Fault> for ShowErr {
    ghost from_gives = { λ f e. e ≡ err.Fault f };

    fn from(fault: Fault) -> ShowErr {
        ShowErr::Fault(fault)
    }
}

impl From<AllocError> for ShowErr {
    ghost from_gives = { λ _ e. e ≡ err.Fault no_memory };

    fn from(_e: AllocError) -> ShowErr {
        ShowErr::Fault(Fault::NoMemory)
    }
}

impl From<NoMemory> for ShowErr {
    ghost from_gives = { λ _ e. e ≡ err.Fault no_memory };

    fn from(_e: NoMemory) -> ShowErr {
        ShowErr::Fault(Fault::NoMemory)
    }
}

impl From<SinkErr> for ShowErr {
    ghost from_gives = { λ _ e. e ≡ err.Sink };

    fn from(_e: SinkErr) -> ShowErr {
        ShowErr::Sink
    }
}
