//! Which slots of string offsets values name: a byte for each byte of the section.
//!
//! This file promises: exactly the slots that were marked are, each as one that a path names or that another
//! value does. Marking takes constant time and no memory.

ghost use Rattle.std.specs.Prelude.{◌≡◌, ◌<◌, List, ℕ, length, replicate, IfOk};
ghost use Rattle.dw_offsets.specs.SlotMarks.{IsMarkWith, IsMarked, has_mark, marked};

use std::alloc::{AllocError, Global};
use std::marker::Model;

/// The slots of the section of string offsets that are named, by their places in bytes from its start.
#[derive(Drop, Debug)]
pub struct SlotMarks {
    marks: Vec<u8>,
}

impl Model for SlotMarks {
    ghost Value = { List ℕ };

    ghost view = { λ m. m.marks.items };
}

impl SlotMarks {
    /// No slot of a section of `len` bytes is marked.
    pub fn new(alloc: Global, len: u64) -> Result<SlotMarks, AllocError>
        ensures none { IfOk result (λ m. m ≡ replicate len 0) }
    {
        let mut marks = Vec::new(alloc);
        marks.resize(len as usize, 0)?;
        Ok(SlotMarks { marks })
    }

    /// Marks the slot at a place, as one that a path names or that another value does.
    pub fn mark(&mut self, place: u64, path: bool)
        requires inside { place < length self.old }
        ensures marked { IsMarked self.old self.new path place }
    {
        put_mark(&mut self.marks, place, path);
    }

    /// The slot at a place is marked so. None is past the end.
    #[tactic(auto, using(crate::proofs::SlotMarkLaws::past_laws))]
    pub fn is_marked(&self, place: u64, path: bool) -> bool
        ensures marked { result ≡ marked path self.now place }
    {
        if place >= self.marks.len() as u64 {
            return false;
        }
        has_mark(self.marks[place as usize], path)
    }
}

/// Puts a mark at a place.
#[tactic(auto, using(crate::proofs::SlotMarkLaws::put_laws))]
fn put_mark(marks: &mut [u8], place: u64, path: bool)
    requires inside { place < length marks.old }
    ensures marked { IsMarked marks.old marks.new path place }
{
    marks[place as usize] = with_mark(marks[place as usize], path);
}

/// A mark is one of a path, or of another value.
fn has_mark(mark: u8, path: bool) -> bool
    ensures { result ≡ has_mark path mark }
{
    if path {
        mark % 2 == 1
    } else {
        mark / 2 % 2 == 1
    }
}

/// A mark that is one more.
#[tactic(auto, using(crate::proofs::SlotMarkLaws::mark_laws))]
fn with_mark(mark: u8, path: bool) -> u8
    ensures { IsMarkWith mark result path }
{
    if has_mark(mark, path) {
        mark
    } else if path {
        mark + 1
    } else {
        mark + 2
    }
}
