//! Groups of jobs that share a settle: once it is made, each is committed and moved.
//!
//! Read first: `specs/Groups.antt`, `specs/Runs.antt`.
ghost use Rattle.std.specs.Prelude.{◌≡◌, ◌≤◌, ◌<◌, OnOk, IsTrue, length};
ghost use Rattle.file_tree.specs.declared.node.TreeErr.TheVariants.{Failed};
ghost use Rattle.journal_core.specs.declared.event.JobState.TheVariants.{Done};
ghost use Rattle.journal_core.specs.Table.{with_state, state_of};
ghost use Rattle.journal_core.specs.Cores.{core_of};
ghost use Rattle.work_journal.specs.Groups.{is_settled, IsUnder, IsGroup, IsMade};
ghost use Rattle.work_journal.specs.Spares.{IsHit};
ghost use Rattle.work_journal.specs.Rounds.{AreLater};
ghost use Rattle.work_journal.specs.Runs.{Came};

use crate::desk::Desk;
use crate::jobs::move_job;
use crate::maker::Maker;
use crate::steps::commit_step;
use file_tree::{Tree, TreeErr};
use journal_core::JobState;
use std::alloc::Global;

/// Commits and moves a job that is ready; one that is done stays.
fn flush_job<T: Tree, M: Maker>(
    alloc: Global,
    desk: &mut Desk<T>,
    work: &str,
    maker: &M,
    job: u32,
) -> Result<(), TreeErr>
    requires there { job < length (M.view maker.now).steps }
    requires under { IsUnder (M.view maker.now) (core_of desk.old.core) }
    requires settled { IsTrue (is_settled (state_of (core_of desk.old.core) job)) }
    ensures same_tree { desk.new.tree.ghost_name ≡ desk.old.tree.ghost_name }
    ensures core { OnOk result (core_of desk.new.core ≡ with_state (core_of desk.old.core) job Done) }
    ensures came { Came Failed (IsHit work.now (M.view maker.now) (λ j. j ≡ job)) 0 work.now (λ w. IsMade w (M.view maker.now)) (core_of desk.old.core) (T.seen desk.old.tree.now) (core_of desk.new.core) (T.seen desk.new.tree.now) result }
{
    let is_ready = desk.core().job(job) == JobState::Ready;
    if !is_ready {
        return Ok(());
    }
    commit_step(alloc, desk, work, job)?;
    move_job(alloc, desk, work, maker, job, 0)?;
    Ok(())
}

/// Settles, and commits and moves each job of the group.
pub(crate) fn flush_group<T: Tree, M: Maker>(
    alloc: Global,
    desk: &mut Desk<T>,
    work: &str,
    maker: &M,
    first: u32,
    last: u32,
) -> Result<(), TreeErr>
    requires order { first ≤ last }
    requires there { last ≤ length (M.view maker.now).steps }
    requires group { IsGroup (M.view maker.now) (core_of desk.old.core) first last }
    ensures same_tree { desk.new.tree.ghost_name ≡ desk.old.tree.ghost_name }
    ensures group { OnOk result (IsGroup (M.view maker.now) (core_of desk.new.core) last last) }
    ensures later { OnOk result (AreLater (core_of desk.old.core) (core_of desk.new.core) last) }
    ensures came { Came Failed (IsHit work.now (M.view maker.now) (λ j. j < last)) 1 work.now (λ w. IsMade w (M.view maker.now)) (core_of desk.old.core) (T.seen desk.old.tree.now) (core_of desk.new.core) (T.seen desk.new.tree.now) result }
{
    desk.settle()?;
    for job in first..last {
        flush_job(alloc, desk, work, maker, job)?;
    }
    Ok(())
}
