//! The paths of a work folder.
//!
//! Read first: `specs/Work.antt`.
ghost use Rattle.std.specs.Prelude.{◌≡◌, ◌<◌, IfOk};
ghost use Rattle.std.specs.String.{string_bytes};
ghost use Rattle.journal_core.specs.Names.{plan_new, plan, temp, commit, fresh, final};
ghost use Rattle.work_journal.specs.Work.{work_path};

use std::alloc::{AllocError, Global};

/// The path of the plan that isn't adopted yet.
#[tactic(auto, unfolding(crate::specs::Work::work_path))]
pub(crate) fn plan_new_path(alloc: Global, work: &str) -> Result<String, AllocError>
    ensures path { IfOk result (λ s. string_bytes s ≡ work_path work.now plan_new) }
{
    format!(in alloc; "{work}/plan.new")
}

/// The path of the plan.
#[tactic(auto, unfolding(crate::specs::Work::work_path))]
pub(crate) fn plan_path(alloc: Global, work: &str) -> Result<String, AllocError>
    ensures path { IfOk result (λ s. string_bytes s ≡ work_path work.now plan) }
{
    format!(in alloc; "{work}/plan")
}

/// The path of the temporary name of a step.
#[tactic(auto, unfolding(crate::specs::Work::work_path))]
pub(crate) fn temp_path(alloc: Global, work: &str, job: u32, step: u8) -> Result<String, AllocError>
    ensures path { IfOk result (λ s. string_bytes s ≡ work_path work.now (temp job step)) }
{
    format!(in alloc; "{work}/t.{job}.{step}")
}

/// The path of the commit mark of a job.
#[tactic(auto, unfolding(crate::specs::Work::work_path))]
pub(crate) fn commit_path(alloc: Global, work: &str, job: u32) -> Result<String, AllocError>
    ensures path { IfOk result (λ s. string_bytes s ≡ work_path work.now (commit job)) }
{
    format!(in alloc; "{work}/c.{job}")
}

/// The path of one of the three lists (0 to 2), or of the finished text (3).
#[tactic(auto, unfolding(crate::specs::Work::work_path))]
pub(crate) fn final_path(alloc: Global, work: &str, part: u8) -> Result<String, AllocError>
    requires { part < 4 }
    ensures path { IfOk result (λ s. string_bytes s ≡ work_path work.now (final part)) }
{
    match part {
        0 => format!(in alloc; "{work}/sources"),
        1 => format!(in alloc; "{work}/debugfiles"),
        2 => format!(in alloc; "{work}/links"),
        _ => format!(in alloc; "{work}/finished"),
    }
}

/// The path under which one of these four is put first.
#[tactic(auto, unfolding(crate::specs::Work::work_path))]
pub(crate) fn fresh_path(alloc: Global, work: &str, part: u8) -> Result<String, AllocError>
    requires { part < 4 }
    ensures path { IfOk result (λ s. string_bytes s ≡ work_path work.now (fresh part)) }
{
    match part {
        0 => format!(in alloc; "{work}/sources.new"),
        1 => format!(in alloc; "{work}/debugfiles.new"),
        2 => format!(in alloc; "{work}/links.new"),
        _ => format!(in alloc; "{work}/finished.new"),
    }
}
