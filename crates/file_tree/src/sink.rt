//! The trait of sinks: where a program's output and its error lines go.
//!
//! This layer promises: what went out is the pieces in order, a first part of a piece where a write
//! fails, and a write fails only where the sink's count of faults rose.
//! Read first: `specs/Heard.antt`.
ghost use Rattle.std.specs.Prelude.{◌≡◌, OnOk, OnErr, is_some};
ghost use Rattle.file_tree.specs.Heard.{Heard, grown, Said};
ghost use Rattle.file_tree.specs.Causes.{Rose};

/// Why a write to a sink fails.
#[derive(Clone, Copy, Debug, PartialEq, Eq)]
pub enum SinkErr {
    /// The sink's count of faults rose.
    Failed,
}

/// Takes bytes, in order.
pub trait Sink {
    ghost heard: { Self → Heard };

    /// Writes the piece behind what went out before. After `Failed` a first part of it went out.
    fn write(&mut self, piece: &[u8]) -> Result<(), SinkErr>
        ensures done { OnOk result ((heard self.new).bytes ≡ grown (heard self.old).bytes piece.now) }
        ensures said { Said piece.now (heard self.old) (heard self.new) }
        ensures cause { OnErr result (Rose (heard self.old).faults (heard self.new).faults) }
        ensures tells { is_some (heard self.new).bytes ≡ is_some (heard self.old).bytes };
}
