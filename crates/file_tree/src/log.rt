//! The calls of a tree in memory, each with what it did.
//!
//! Read first: `specs/Logs.antt`.
ghost use Rattle.std.specs.Prelude.{◌≡◌, List, ◌<◌, [], ◌∷◌, ◌++◌, length, vec_len, vec_capacity, OnOk};

use crate::call::{Call, Effect};
use std::alloc::{AllocError, Global};

/// Calls and effects, side by side.
#[derive(Drop)]
pub struct Log {
    pub calls: Vec<Call>,
    pub effects: Vec<Effect>,
    ghost even: { length calls.items ≡ length effects.items },
}

impl Log {
    ghost use Rattle.file_tree.specs.Seen.{adds, after_effect, map_now};
    ghost use Rattle.file_tree.specs.Logs.{Place, past_with};

    /// No calls.
    pub fn new(alloc: Global) -> Log
        ensures calls { result.calls.items ≡ [] }
        ensures effects { result.effects.items ≡ [] }
    {
        Log {
            calls: Vec::new(alloc),
            effects: Vec::new(alloc),
        }
    }

    /// Makes room for one call more.
    pub fn make_room(&mut self) -> Result<(), AllocError>
        ensures calls { self.new.calls.items ≡ self.old.calls.items }
        ensures effects { self.new.effects.items ≡ self.old.effects.items }
        ensures for_calls { OnOk result (vec_len self.new.calls < vec_capacity self.new.calls) }
        ensures for_effects { OnOk result (vec_len self.new.effects < vec_capacity self.new.effects) }
    {
        self.calls.reserve(1)?;
        self.effects.reserve(1)?;
        Ok(())
    }

    /// One call more, with what it did.
    #[tactic(auto, using(crate::proofs::PastLaws::past_more, crate::proofs::PastLaws::now_with))]
    pub fn add(&mut self, call: Call, effect: Effect)
        requires for_calls { vec_len self.old.calls < vec_capacity self.old.calls }
        requires for_effects { vec_len self.old.effects < vec_capacity self.old.effects }
        ensures calls { self.new.calls.items ≡ self.old.calls.items ++ call ∷ [] }
        ensures effects { self.new.effects.items ≡ self.old.effects.items ++ effect ∷ [] }
        ensures past { (first : List Place) → past_with first self.new.calls.items self.new.effects.items ≡ adds (past_with first self.old.calls.items self.old.effects.items) call effect }
        ensures now { (first : List Place) → map_now (past_with first self.new.calls.items self.new.effects.items) ≡ after_effect (map_now (past_with first self.old.calls.items self.old.effects.items)) effect }
    {
        match self.calls.push(call) {
            Ok(()) => {}
            Err(_) => unreachable!(),
        }
        match self.effects.push(effect) {
            Ok(()) => {}
            Err(_) => unreachable!(),
        }
    }
}
