//! A generated file, its output, and what that means.
//!
//! Read first: `specs/Exercises.antt`.

ghost use Rattle.std.specs.Prelude.{◌<◌, ◌≤◌, IfOk};
ghost use Rattle.dbg_exercise.specs.Exercises.{IsExercise};

use crate::output::{exercise_map, output_of};
use crate::reading::file_counts;
use crate::summary::Summary;
use dbg_gen::generate;
use dw_base::NoMemory;
use std::alloc::Global;

/// Generates the file of a seed and so many units, rewrites it, reads the output, and counts what that means. Only memory can be
/// wanting: an edit takes every generated file, and what it writes can be read.
#[tactic(auto, using(crate::proofs::ExerciseLaws::exercise_laws))]
pub fn exercise(alloc: Global, seed: u64, units: u32) -> Result<Summary, NoMemory>
    requires some { 0 < units }
    requires few { units ≤ 10000 }
    ensures exercise { IfOk result (λ s. IsExercise seed units s) }
{
    let maps = exercise_map(alloc)?;
    let file = generate(alloc, seed, units)?;
    let out = output_of(alloc, file.as_slice(), &maps)?;
    let counts = file_counts(alloc, out.as_slice())?;
    Ok(Summary {
        counts,
        before: file.len() as u64,
        after: out.len() as u64,
    })
}
