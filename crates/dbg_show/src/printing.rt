//! A buffer in front of a sink.

ghost use Rattle.std.specs.Prelude.{◌≡◌, [], IfErr, OnOk};
ghost use Rattle.std.specs.String.{string_bytes};
ghost use Rattle.dbg_show.specs.Printing.{Cut, Printed};

use crate::show_err::ShowErr;
use file_tree::Sink;

/// From how many bytes on a buffer is written.
const FULL: usize = 0x1000;

/// Writes the bytes of the buffer.
#[tactic(auto, using(crate::proofs::PrintingLaws::write_laws))]
pub(crate) fn write_all<O: Sink>(text: &mut String, out: &mut O) -> Result<(), ShowErr>
    ensures done { OnOk result (Printed [] (string_bytes text.old) (O.heard out.old) (O.heard out.new) (string_bytes text.new)) }
    ensures none { OnOk result (string_bytes text.new ≡ []) }
    ensures cut { IfErr result (Cut (string_bytes text.old) (O.heard out.old) (O.heard out.new)) }
{
    if out.write(text.as_bytes()).is_err() {
        return Err(ShowErr::Sink);
    }
    text.clear();
    Ok(())
}

/// Writes the bytes of the buffer where it is full.
#[tactic(auto, using(crate::proofs::PrintingLaws::write_laws))]
pub(crate) fn write_full<O: Sink>(text: &mut String, out: &mut O) -> Result<(), ShowErr>
    ensures done { OnOk result (Printed [] (string_bytes text.old) (O.heard out.old) (O.heard out.new) (string_bytes text.new)) }
    ensures cut { IfErr result (Cut (string_bytes text.old) (O.heard out.old) (O.heard out.new)) }
{
    if text.len() < FULL {
        return Ok(());
    }
    write_all(text, out)
}
