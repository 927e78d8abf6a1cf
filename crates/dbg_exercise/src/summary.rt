//! What is told of an exercise.

ghost use Rattle.std.specs.Prelude.{◌≡◌, IfOk};
ghost use Rattle.std.specs.String.{string_bytes};
ghost use Rattle.dbg_exercise.specs.Exercises.{summary_text};

use crate::counts::Counts;
use std::alloc::{AllocError, Global};

/// How much the output means, and how long both files are.
#[derive(Clone, Copy)]
pub struct Summary {
    /// The counts of what the output means.
    pub counts: Counts,
    /// How many bytes the generated file has.
    pub before: u64,
    /// How many bytes the output has.
    pub after: u64,
}

impl Summary {
    /// Its text: one line, with the line end.
    #[tactic(auto, unfolding(crate::specs::Exercises::summary_text))]
    pub fn text(&self, alloc: Global) -> Result<String, AllocError>
        ensures text { IfOk result (λ text. string_bytes text ≡ summary_text self.now) }
    {
        let Counts {
            units,
            entries,
            rows,
        } = self.counts;
        let before = self.before;
        let after = self.after;
        format!(in alloc; "units {units} entries {entries} rows {rows} in {before} out {after}\n")
    }
}
