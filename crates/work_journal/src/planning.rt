//! The plan of a run, put so that a stop leaves a whole one or none.
//!
//! Read first: `specs/Runs.antt`.
ghost use Rattle.std.specs.Prelude.{◌≡◌, map, option_map, IfErr, IfOk, OnOk, IsTrue, ⊤};
ghost use Rattle.std.specs.String.{string_bytes};
ghost use Rattle.file_tree.specs.Trees.{with_node, moved};
ghost use Rattle.file_tree.specs.Seen.{now_of};
ghost use Rattle.work_texts.specs.declared.journal_err.JournalErr.TheVariants.{Tree as tree_fault, NoMemory as no_memory};
ghost use Rattle.work_journal.specs.Blames.{is_mild_run};
ghost use Rattle.work_journal.specs.Finishing.{plan_node};
ghost use Rattle.file_tree.specs.declared.node.TreeErr.TheVariants.{Failed};
ghost use Rattle.journal_core.specs.declared.event.Phase.TheVariants.{Empty};
ghost use Rattle.journal_core.specs.Cores.{core_of};
ghost use Rattle.journal_core.specs.Names.{plan_new, plan as plan_name};
ghost use Rattle.work_journal.specs.Work.{work_path};
ghost use Rattle.work_journal.specs.Clearing.{AreAll};
ghost use Rattle.journal_core.specs.Table.{allows, after};
ghost use Rattle.work_journal.specs.Spares.{InWork};
ghost use Rattle.work_journal.specs.Runs.{Came};
ghost use Rattle.work_journal.specs.Settling.{Keeping, HasPlanAlone};

use crate::desk::Desk;
use crate::job_err::stopped;
use crate::names::{plan_new_path, plan_path};
use crate::steps::text_node;
use crate::sweeping::sweep_all;
use file_tree::{Node, Tree, TreeErr};
use journal_core::Event;
use std::alloc::Global;
use work_texts::{JournalErr, PlanData, write_plan};

/// Puts the plan under its temporary name.
fn propose<T: Tree>(
    alloc: Global,
    desk: &mut Desk<T>,
    work: &str,
    plan: &Node,
) -> Result<(), TreeErr>
    requires allowed { IsTrue (allows (core_of desk.old.core) Event.Propose) }
    ensures same_tree { desk.new.tree.ghost_name ≡ desk.old.tree.ghost_name }
    ensures core { OnOk result (core_of desk.new.core ≡ after (core_of desk.old.core) Event.Propose) }
    ensures puts { OnOk result (now_of (T.seen desk.new.tree.now) ≡ option_map (with_node (work_path work.now plan_new) plan.now) (now_of (T.seen desk.old.tree.now))) }
    ensures came { Came Failed (InWork work.now) 0 work.now (λ w. w.node plan_new ≡ plan.now) (core_of desk.old.core) (T.seen desk.old.tree.now) (core_of desk.new.core) (T.seen desk.new.tree.now) result }
{
    let path = plan_new_path(alloc, work)?;
    desk.put(Event::Propose, path.as_str(), plan)
}

/// Renames the plan to its name.
fn adopt<T: Tree>(alloc: Global, desk: &mut Desk<T>, work: &str) -> Result<(), TreeErr>
    requires allowed { IsTrue (allows (core_of desk.old.core) Event.Adopt) }
    ensures same_tree { desk.new.tree.ghost_name ≡ desk.old.tree.ghost_name }
    ensures core { OnOk result (core_of desk.new.core ≡ after (core_of desk.old.core) Event.Adopt) }
    ensures moves { OnOk result (now_of (T.seen desk.new.tree.now) ≡ option_map (moved (work_path work.now plan_new) (work_path work.now plan_name)) (now_of (T.seen desk.old.tree.now))) }
    ensures came { Came Failed (InWork work.now) 0 work.now (λ w. ⊤) (core_of desk.old.core) (T.seen desk.old.tree.now) (core_of desk.new.core) (T.seen desk.new.tree.now) result }
{
    let from = plan_new_path(alloc, work)?;
    let to = plan_path(alloc, work)?;
    desk.rename(Event::Adopt, from.as_str(), to.as_str())
}

/// The plan's text is put: under another name first, then settled, then at its own.
fn put_plan<T: Tree>(
    alloc: Global,
    desk: &mut Desk<T>,
    work: &str,
    present: &[String],
    plan: &Node,
) -> Result<(), TreeErr>
    requires phase { (core_of desk.old.core).phase ≡ Empty }
    ensures same_tree { desk.new.tree.ghost_name ≡ desk.old.tree.ghost_name }
    ensures core { OnOk result (Keeping (core_of desk.old.core) (core_of desk.new.core)) }
    ensures alone { OnOk result (AreAll work.now (map string_bytes present.now) (T.seen desk.old.tree.now) → HasPlanAlone work.now plan.now (T.seen desk.new.tree.now)) }
    ensures came { Came Failed (InWork work.now) 1 work.now (λ w. w.node plan_new ≡ plan.now) (core_of desk.old.core) (T.seen desk.old.tree.now) (core_of desk.new.core) (T.seen desk.new.tree.now) result }
{
    sweep_all(alloc, desk, work, present)?;
    propose(alloc, desk, work, plan)?;
    desk.settle()?;
    adopt(alloc, desk, work)?;
    Ok(())
}

/// The same, with the error of a run.
pub(crate) fn put_node<T: Tree>(
    alloc: Global,
    desk: &mut Desk<T>,
    work: &str,
    present: &[String],
    plan: &Node,
) -> Result<(), JournalErr>
    requires phase { (core_of desk.old.core).phase ≡ Empty }
    ensures same_tree { desk.new.tree.ghost_name ≡ desk.old.tree.ghost_name }
    ensures core { OnOk result (Keeping (core_of desk.old.core) (core_of desk.new.core)) }
    ensures alone { OnOk result (AreAll work.now (map string_bytes present.now) (T.seen desk.old.tree.now) → HasPlanAlone work.now plan.now (T.seen desk.new.tree.now)) }
    ensures mild { IfErr result (λ e. IsTrue (is_mild_run e)) }
    ensures came { Came tree_fault (InWork work.now) 1 work.now (λ w. w.node plan_new ≡ plan.now) (core_of desk.old.core) (T.seen desk.old.tree.now) (core_of desk.new.core) (T.seen desk.new.tree.now) result }
{
    match put_plan(alloc, desk, work, present, plan) {
        Ok(()) => Ok(()),
        Err(e) => Err(stopped(e)),
    }
}

/// The plan's text as a file; the only error is want of memory.
fn node_of(alloc: Global, plan: &PlanData) -> Result<Node, JournalErr>
    ensures node { IfOk result (λ n. n ≡ plan_node plan.now) }
    ensures memory { IfErr result (λ e. e ≡ no_memory) }
{
    match write_plan(alloc, plan) {
        Ok(text) => Ok(text_node(text)),
        Err(_) => Err(JournalErr::NoMemory),
    }
}

/// Clears the work folder of these paths, and puts the plan there: its text is put under another name
/// first, then settled, then renamed to its own. Where these are all paths below the folder, nothing but
/// the plan lies there then. `Tree` comes only where the tree's count of faults rose.
pub fn commit_plan<T: Tree>(
    alloc: Global,
    desk: &mut Desk<T>,
    work: &str,
    present: &[String],
    plan: &PlanData,
) -> Result<(), JournalErr>
    requires phase { (core_of desk.old.core).phase ≡ Empty }
    ensures same_tree { desk.new.tree.ghost_name ≡ desk.old.tree.ghost_name }
    ensures core { OnOk result (Keeping (core_of desk.old.core) (core_of desk.new.core)) }
    ensures alone { OnOk result (AreAll work.now (map string_bytes present.now) (T.seen desk.old.tree.now) → HasPlanAlone work.now (plan_node plan.now) (T.seen desk.new.tree.now)) }
    ensures mild { IfErr result (λ e. IsTrue (is_mild_run e)) }
    ensures came { Came tree_fault (InWork work.now) 1 work.now (λ w. w.node plan_new ≡ plan_node plan.now) (core_of desk.old.core) (T.seen desk.old.tree.now) (core_of desk.new.core) (T.seen desk.new.tree.now) result }
{
    let node = node_of(alloc, plan)?;
    put_node(alloc, desk, work, present, &node)?;
    Ok(())
}
