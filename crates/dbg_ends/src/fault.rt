//! The end of a fault.
ghost use Rattle.dbg_ends.specs.Steps.{FaultEnds};

use crate::end::End;
use dw_base::Fault;
use file_tree::Text;
use std::alloc::Global;

/// The end of a fault of the file at the path: its refusal with the path, or want of memory.
#[tactic(auto, using(crate::proofs::Rows::fault_rows))]
pub fn fault_end(alloc: Global, path: &str, fault: Fault) -> End
    ensures end { FaultEnds path.now fault result }
{
    let Fault::Refused(refusal) = fault else {
        return End::NoMemory;
    };
    let Ok(path) = Text::copy_of(alloc, path) else {
        return End::NoMemory;
    };
    End::Refused { path, refusal }
}
