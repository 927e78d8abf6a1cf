//! The last step of every call: an end becomes a status and a line.
ghost use Rattle.std.specs.Prelude.{◌≡◌, ◌⊎◌};
ghost use Rattle.dbg_ends.specs.Ends.{status_of};
ghost use Rattle.dbg_ends.specs.Told.{Told};

use crate::end::{End, status};
use crate::line::{line, no_memory_line, output_fault_line};
use file_tree::Sink;
use std::alloc::Global;

/// The status of the end. Its line goes to the error sink by one write; a fault of that sink changes nothing. The line of a
/// fault of the output takes no memory.
#[tactic(auto, using(crate::proofs::Rows::told_rows), unfolding(crate::specs::Ends::line_of))]
pub fn tell<E: Sink>(alloc: Global, end: &End, err: &mut E) -> u8
    ensures told { Told end.now (E.heard err.old) (E.heard err.new) result }
    ensures status { (result ≡ status_of end.now) ⊎ (result ≡ 13) }
    ensures quiet { result ≡ 0 → E.heard err.new ≡ E.heard err.old }
{
    if let End::Done = end {
        return 0;
    }
    if let End::OutputFault = end {
        let _ = err.write(output_fault_line().as_bytes());
        return status(end);
    }
    match line(alloc, end) {
        Ok(text) => {
            let _ = err.write(text.as_bytes());
            status(end)
        }
        Err(_) => {
            let _ = err.write(no_memory_line().as_bytes());
            status(&End::NoMemory)
        }
    }
}
