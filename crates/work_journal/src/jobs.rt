//! One job of a run: all its steps staged, or all moved.
//!
//! Read first: `specs/Jobs.antt`, `specs/Runs.antt`.
ghost use Rattle.file_tree.specs.declared.node.TreeErr.TheVariants.{Failed};
ghost use Rattle.std.specs.Prelude.{◌≡◌, ◌≤◌, ◌<◌, OnOk, length, get_or};
ghost use Rattle.journal_core.specs.declared.event.JobState.TheVariants.{Staged, Done};
ghost use Rattle.journal_core.specs.Table.{with_state};
ghost use Rattle.journal_core.specs.Cores.{core_of};
ghost use Rattle.work_journal.specs.Jobs.{MayStage, MayMove, AreNodes, AreTargets};
ghost use Rattle.work_journal.specs.Spares.{InWork, IsHit};
ghost use Rattle.work_journal.specs.Runs.{Came};

use crate::desk::Desk;
use crate::maker::Maker;
use crate::steps::{move_step, stage_step};
use file_tree::{Node, Tree, TreeErr};
use std::alloc::Global;

/// Puts all nodes of a job under their temporary names, one a step.
pub(crate) fn stage_job<T: Tree>(
    alloc: Global,
    desk: &mut Desk<T>,
    work: &str,
    job: u32,
    nodes: &Vec<Node>,
) -> Result<(), TreeErr>
    requires may { MayStage (core_of desk.old.core) job (length nodes.now.items) }
    requires few { length nodes.now.items ≤ 4 }
    ensures same_tree { desk.new.tree.ghost_name ≡ desk.old.tree.ghost_name }
    ensures core { OnOk result (core_of desk.new.core ≡ with_state (core_of desk.old.core) job Staged) }
    ensures came { Came Failed (InWork work.now) 0 work.now (λ w. AreNodes w job nodes.now.items) (core_of desk.old.core) (T.seen desk.old.tree.now) (core_of desk.new.core) (T.seen desk.new.tree.now) result }
{
    for step in 0..nodes.len() {
        stage_step(alloc, desk, work, job, step as u8, &nodes[step])?;
    }
    Ok(())
}

/// Renames the steps of a committed job to their targets, from this one on.
pub(crate) fn move_job<T: Tree, M: Maker>(
    alloc: Global,
    desk: &mut Desk<T>,
    work: &str,
    maker: &M,
    job: u32,
    first: u8,
) -> Result<(), TreeErr>
    requires there { job < length (M.view maker.now).steps }
    requires may { MayMove (core_of desk.old.core) job first (get_or (M.view maker.now).steps job 0) }
    ensures same_tree { desk.new.tree.ghost_name ≡ desk.old.tree.ghost_name }
    ensures core { OnOk result (core_of desk.new.core ≡ with_state (core_of desk.old.core) job Done) }
    ensures came { Came Failed (IsHit work.now (M.view maker.now) (λ j. j ≡ job)) 0 work.now (λ w. AreTargets w (M.view maker.now) job) (core_of desk.old.core) (T.seen desk.old.tree.now) (core_of desk.new.core) (T.seen desk.new.tree.now) result }
{
    for step in first..maker.steps(job) {
        let to = maker.target(alloc, job, step)?;
        move_step(alloc, desk, work, job, step, to.as_str())?;
    }
    Ok(())
}
