//! A sink over a real writer, as the standard output: it tells nothing.
//!
//! This layer promises: a write fails only where its count of faults rose, and the writer is given the
//! piece: all of it, or after a failure a first part. What the system does with the bytes isn't proved.
ghost use Rattle.std.specs.Prelude.{◌≡◌, None, OnOk, OnErr, IsTrue, is_some};
ghost use Rattle.std.specs.Io.KnownBytes.{Appends};
ghost use Rattle.os_tree.specs.Written.{WroteFront, only_faults};

use file_tree::{Sink, SinkErr};
use std::io::{ErrorKind, Write};

/// A sink that hands its pieces to a writer.
#[derive(Drop)]
pub struct OsSink<W> {
    writer: W,
    faults: u64,
}

impl<W: Write> OsSink<W> {
    /// A sink over the writer.
    pub fn new(writer: W) -> OsSink<W>
        ensures heard { ⟦<OsSink<W> as Sink>⟧.heard result ≡ record { bytes = None; faults = 0 } }
        ensures writer { result.writer ≡ writer }
    {
        OsSink { writer, faults: 0 }
    }
}

/// Writes all of the piece, or answers that some of it can't be written.
#[tactic(auto, using(crate::proofs::WriteLaws::write_laws))]
fn write_whole<W: Write>(writer: &mut W, piece: &[u8]) -> bool
    ensures whole { IsTrue result → Appends (W.contents writer.old) (W.contents writer.new) piece.now }
    ensures front { WroteFront piece.now (W.contents writer.old) (W.contents writer.new) }
{
    let mut rest = piece;
    for _ in 0..u64::MAX {
        if rest.is_empty() {
            return true;
        }
        match writer.write(rest) {
            Ok(0) => return false,
            Ok(n) => rest = &rest[n..],
            Err(e) => {
                if e.kind() != ErrorKind::Interrupted {
                    return false;
                }
            }
        }
    }
    false
}

#[tactic(auto, using(crate::proofs::Sayings::said_nothing))]
impl<W: Write> Sink for OsSink<W> {
    ghost use Rattle.file_tree.specs.Heard.{grown, Said};
    ghost use Rattle.file_tree.specs.Causes.{Rose};

    ghost heard = { λ s. only_faults s.faults };

    fn write(&mut self, piece: &[u8]) -> Result<(), SinkErr>
        ensures done { OnOk result ((only_faults self.new.faults).bytes ≡ grown (only_faults self.old.faults).bytes piece.now) }
        ensures said { Said piece.now (only_faults self.old.faults) (only_faults self.new.faults) }
        ensures cause { OnErr result (Rose self.old.faults self.new.faults) }
        ensures tells { is_some (only_faults self.new.faults).bytes ≡ is_some (only_faults self.old.faults).bytes }

        // The writer is given the piece, and after a failure a first part of it.
        ensures well { OnOk result (self.new.faults ≡ self.old.faults) }
        ensures whole { OnOk result (Appends (W.contents self.old.writer) (W.contents self.new.writer) piece.now) }
        ensures front { WroteFront piece.now (W.contents self.old.writer) (W.contents self.new.writer) }
    {
        if write_whole(&mut self.writer, piece) {
            return Ok(());
        }
        self.faults = self.faults.saturating_add(1);
        Err(SinkErr::Failed)
    }
}
