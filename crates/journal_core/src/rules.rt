//! The tests and the next states that the table of events is made of, each by its row.
//!
//! Read first: `specs/Table.antt`, whose words these functions compute.

ghost use Rattle.std.specs.Prelude.{◌≡◌, ◌<◌, ◌+◌, map};
ghost use Rattle.journal_core.specs.Table.{is_fresh, is_going, all_done, may_finish, may_close, may_renew, may_replace, staged_next, moved_next, settled_job, settled_phase, closed_next};
ghost use Rattle.journal_core.specs.Span.{SpanHas, SpanCovers};

use crate::event::{JobState, Phase};

/// Whether so many steps of a job are staged, and no more.
pub fn stands_fresh(state: JobState, step: u8) -> bool
    ensures { result ≡ is_fresh state step }
{
    matches!(state, JobState::Fresh { staged } if staged == step)
}

/// Whether so many steps of a job are moved, and no more.
pub fn stands_going(state: JobState, step: u8) -> bool
    ensures { result ≡ is_going state step }
{
    matches!(state, JobState::Going { moved } if moved == step)
}

/// Whether each job is done.
pub fn are_done(states: &[JobState]) -> bool
    ensures { result ≡ all_done states.now }
{
    states.iter().all(|state| matches!(state, JobState::Done))
}

/// Whether a text of the end may be put.
pub fn allows_finish(phase: Phase, done: bool, part: u8) -> bool
    ensures { result ≡ may_finish phase done part }
{
    match phase {
        Phase::Running => part == 0 && done,
        Phase::Finishing { put, settled: _ } => part > 0 && part < 4 && put == part,
        _ => false,
    }
}

/// Whether a text of the end may be renamed to its name.
pub fn allows_close(phase: Phase, part: u8) -> bool
    ensures { result ≡ may_close phase part }
{
    match phase {
        Phase::Finishing { put: _, settled } => part == 0 && settled,
        Phase::Closing { moved } => part > 0 && part < 4 && moved == part,
        _ => false,
    }
}

/// Whether the finished text may be put anew.
pub fn allows_renew(phase: Phase) -> bool
    ensures { result ≡ may_renew phase }
{
    matches!(phase, Phase::Renewing { .. })
}

/// Whether the new finished text may take the place of the earlier one.
pub fn allows_replace(phase: Phase) -> bool
    ensures { result ≡ may_replace phase }
{
    match phase {
        Phase::Renewing { put, settled } => put && settled,
        _ => false,
    }
}

/// A job of `steps` steps after it staged one more.
pub fn after_stage(step: u8, steps: u8) -> JobState
    requires { step < steps }
    ensures { result ≡ staged_next step steps }
{
    if step + 1 == steps {
        JobState::Staged
    } else {
        JobState::Fresh { staged: step + 1 }
    }
}

/// A job of `steps` steps after it moved one more.
pub fn after_move(step: u8, steps: u8) -> JobState
    requires { step < steps }
    ensures { result ≡ moved_next step steps }
{
    if step + 1 == steps {
        JobState::Done
    } else {
        JobState::Going { moved: step + 1 }
    }
}

/// The phase after a text of the end came to its name.
pub fn after_close(part: u8) -> Phase
    requires { part < 4 }
    ensures { result ≡ closed_next part }
{
    if part == 3 {
        Phase::Closed
    } else {
        Phase::Closing { moved: part + 1 }
    }
}

/// A job after a settle.
pub fn settle_job(state: JobState) -> JobState
    ensures { result ≡ settled_job state }
{
    if state == JobState::Staged {
        JobState::Ready
    } else {
        state
    }
}

/// The phase after a settle.
pub fn settle_phase(phase: Phase) -> Phase
    ensures { result ≡ settled_phase phase }
{
    match phase {
        Phase::Proposed { settled: _ } => Phase::Proposed { settled: true },
        Phase::Finishing { put, settled } => Phase::Finishing {
            put,
            settled: put == 4 || settled,
        },
        Phase::Renewing { put, settled } => Phase::Renewing {
            put,
            settled: put || settled,
        },
        _ => phase,
    }
}

/// The span that has another one and one job more.
pub fn widened(first: usize, end: usize, job: u32) -> (usize, usize)
    ensures { SpanCovers first end job result.0 result.1 }
{
    let job = job as usize;
    if first >= end {
        return (job, job + 1);
    }
    (first.min(job), end.max(job + 1))
}

/// All jobs after a settle, where those that are staged lie in a span.
pub fn settle_jobs(states: &mut Vec<JobState>, first: usize, end: usize)
    requires { SpanHas first end states.old.items }
    ensures { states.new.items ≡ map settled_job states.old.items }
{
    for i in first..end {
        states[i] = settle_job(states[i]);
    }
}
