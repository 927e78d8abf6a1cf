//! Why a stripped file and a debug file aren't joined.

ghost use Rattle.std.specs.Prelude.{◌≡◌};
ghost use Rattle.dbg_unstrip.specs.UnstripFails.{of_fault};

use dw_base::{Fault, Refusal};
use dw_view::Mismatch;

/// Why there is no file of a stripped file and a debug file.
#[derive(Debug, Drop)]
pub enum UnstripErr {
    /// The two aren't a pair.
    NotAPair(Mismatch),
    /// Their sections don't match: the first place, counted from 0, at which the kept sections of the debug file and the sections of
    /// the stripped file differ; 0, too, where the files differ as a whole.
    Unmatched { place: u32 },
    /// The stripped file is refused.
    Refused(Refusal),
    /// There was not enough memory.
    NoMemory,
}

impl From<Fault> for UnstripErr {
    ghost from_gives = { λ f e. e ≡ of_fault f };

    fn from(fault: Fault) -> UnstripErr {
        match fault {
            Fault::Refused(refusal) => UnstripErr::Refused(refusal),
            Fault::NoMemory => UnstripErr::NoMemory,
        }
    }
}
