//! The end of a run of which a call of the tree failed.
ghost use Rattle.std.specs.Prelude.{◌≡◌, ◌==◌};
ghost use Rattle.root_run.specs.RunEnds.{run_status};

use root_plan::PlanErr;
use root_run::RunErr;
use work_texts::JournalErr;

/// Whether a run gives no report since a call of the tree failed.
pub fn is_tree_fault(e: &RunErr) -> bool
    ensures value { result ≡ (run_status e.now == 6) }
{
    match e {
        RunErr::Plan(PlanErr::Tree) => true,
        RunErr::Journal(JournalErr::Tree) => true,
        _ => false,
    }
}
