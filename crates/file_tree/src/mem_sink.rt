//! A sink in memory, for tests: it tells what went out, and fails where it is told to.
//!
//! Read first: `specs/Heard.antt`, `specs/Sinks.antt`.
ghost use Rattle.std.specs.Prelude.{◌≡◌, ◌+◌, ◌-◌, ◌^◌, ◌≤◌, ◌↔◌, min, length, vec_capacity, [], IfOk, OnOk, OnErr, IsOk, IsOkUnless, IsTrue, is_some};
ghost use Rattle.file_tree.specs.Heard.{grown, Said};
ghost use Rattle.file_tree.specs.Causes.{Rose};

use crate::node::TreeErr;
use crate::sink::{Sink, SinkErr};
use std::alloc::Global;

/// A sink that keeps the bytes in memory.
#[derive(Drop)]
pub struct MemSink {
    bytes: Vec<u8>,
    room: u64,
    fail_from: Option<u64>,
    calls: u64,
    faults: u64,
    ghost within: { length bytes.items ≤ room },
    ghost is_there: { room ≤ vec_capacity bytes },
}

impl MemSink {
    ghost use Rattle.file_tree.specs.Sinks.{limits_of, heard_of, is_before};

    /// A sink with room for this many bytes, whose writes fail from this one on, counted from 0.
    pub fn new(alloc: Global, room: u64, fail_from: Option<u64>) -> Result<MemSink, TreeErr>
        ensures heard { IfOk result (λ s. heard_of s ≡ record { bytes = Some []; faults = 0 }) }
        ensures limits { IfOk result (λ s. limits_of s ≡ record { room = room; fail_from = fail_from; calls = 0 }) }
        ensures memory { IsOkUnless result TreeErr.NoMemory }
    {
        let bytes = Vec::with_capacity(alloc, room as usize)?;
        Ok(MemSink {
            bytes,
            room,
            fail_from,
            calls: 0,
            faults: 0,
        })
    }

    /// What went out so far.
    pub fn bytes(&self) -> &[u8]
        ensures value { (heard_of self.now).bytes ≡ Some result.now }
    {
        self.bytes.as_slice()
    }

    /// Whether the next write is before the first that fails.
    fn is_before_failing(&self) -> bool
        ensures value { result ≡ is_before self.now.calls self.now.fail_from }
    {
        match self.fail_from {
            None => true,
            Some(first) => self.calls < first,
        }
    }
}

impl Sink for MemSink {
    ghost use Rattle.file_tree.specs.Sinks.{limits_of, heard_of, takes};

    ghost heard = { heard_of };

    fn write(&mut self, piece: &[u8]) -> Result<(), SinkErr>
        ensures done { OnOk result ((heard_of self.new).bytes ≡ grown (heard_of self.old).bytes piece.now) }
        ensures said { Said piece.now (heard_of self.old) (heard_of self.new) }
        ensures cause { OnErr result (Rose (heard_of self.old).faults (heard_of self.new).faults) }
        ensures tells { is_some (heard_of self.new).bytes ≡ is_some (heard_of self.old).bytes }

        // It fails exactly where it is set to, takes nothing then, and counts its calls and faults.
        ensures exact { IsOk result ↔ IsTrue (takes self.old piece.now) }
        ensures kept { OnErr result ((heard_of self.new).bytes ≡ (heard_of self.old).bytes) }
        ensures faults { OnOk result ((heard_of self.new).faults ≡ (heard_of self.old).faults) }
        ensures limits { limits_of self.new ≡ record (limits_of self.old) { calls = min ((limits_of self.old).calls + 1) (2 ^ 64 - 1) } }
    {
        let taken = self.is_before_failing()
            && piece.len() as u64 <= self.room - self.bytes.len() as u64;
        self.calls = self.calls.saturating_add(1);
        if !taken {
            self.faults = self.faults.saturating_add(1);
            return Err(SinkErr::Failed);
        }
        match self.bytes.extend_from_slice(piece) {
            Ok(()) => Ok(()),
            Err(_) => unreachable!(),
        }
    }
}
