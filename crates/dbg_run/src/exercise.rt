//! The command `exercise`: a generated file is rewritten, and what the output means is counted.
ghost use Rattle.std.specs.Prelude.{◌≡◌, ◌≢◌, ◌⊎◌, ◌<◌, ◌≤◌, IfOk};
ghost use Rattle.std.specs.String.{string_bytes};
ghost use Rattle.file_tree.specs.Causes.{Rose};
ghost use Rattle.dbg_ends.specs.Ends.{status_of};
ghost use Rattle.dbg_run.specs.Exercises.{ExerciseCut, ExerciseDone, ExerciseEnds, TellsExercise};
ghost use Rattle.dbg_run.specs.Roots.{IsReported, ReportEnds};

use dbg_ends::End;
use dbg_exercise::exercise as exercised;
use dw_base::NoMemory;
use file_tree::Sink;
use std::alloc::Global;

/// The text of what is told of the exercise of a seed and so many units.
fn exercise_text(alloc: Global, seed: u64, units: u32) -> Result<String, NoMemory>
    requires some { 0 < units }
    requires few { units ≤ 10000 }
    ensures tells { IfOk result (λ text. TellsExercise seed units (string_bytes text)) }
{
    let summary = exercised(alloc, seed, units)?;
    let text = summary.text(alloc)?;
    Ok(text)
}

/// Writes a text, by one call.
#[tactic(auto, using(crate::proofs::RootLaws::report_rows))]
fn write_text<O: Sink>(text: &str, out: &mut O) -> End
    ensures ends { ReportEnds text.now (O.heard out.old) (O.heard out.new) result }
{
    match out.write(text.as_bytes()) {
        Ok(()) => End::Done,
        Err(_) => End::OutputFault,
    }
}

/// How the exercise of a seed and so many units ends. Its text goes to the output by one write; no memory is taken behind it.
pub fn exercise<O: Sink>(alloc: Global, seed: u64, units: u32, out: &mut O) -> End
    requires some { 0 < units }
    requires few { units ≤ 10000 }
    ensures ends { ExerciseEnds seed units (O.heard out.old) (O.heard out.new) result }
    ensures done { 0 ≡ status_of result → ExerciseDone seed units (O.heard out.old) (O.heard out.new) }
    ensures due { (status_of result ≡ 0) ⊎ ExerciseCut (status_of result) }
    ensures not_usage { 2 ≢ status_of result }
    ensures not_tree { 6 ≢ status_of result }
    ensures output_fault { status_of result ≡ 7 → Rose (O.heard out.old).faults (O.heard out.new).faults }
    ensures silent { (IsReported (status_of result) → ⊥) → O.heard out.new ≡ O.heard out.old }
{
    match exercise_text(alloc, seed, units) {
        Ok(text) => write_text(text.as_str(), out),
        Err(_) => End::NoMemory,
    }
}
