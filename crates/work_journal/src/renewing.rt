//! The finished text of a run that an earlier program ended, put anew so that a stop leaves the one or the other whole.
//!
//! Read first: `specs/Runs.antt`.
ghost use Rattle.std.specs.Prelude.{◌≡◌, IfErr, IfOk, OnOk, IsTrue, true, false, ⊤};
ghost use Rattle.work_texts.specs.declared.journal_err.JournalErr.TheVariants.{Tree as tree_fault, NoMemory as no_memory};
ghost use Rattle.file_tree.specs.declared.node.TreeErr.TheVariants.{Failed};
ghost use Rattle.journal_core.specs.declared.event.Phase.TheVariants.{Closed, Renewing};
ghost use Rattle.journal_core.specs.Cores.{core_of};
ghost use Rattle.journal_core.specs.Names.{fresh};
ghost use Rattle.journal_core.specs.Table.{allows, after};
ghost use Rattle.work_journal.specs.Blames.{is_mild_run};
ghost use Rattle.work_journal.specs.Ending.{text_file};
ghost use Rattle.work_journal.specs.Spares.{InWork};
ghost use Rattle.work_journal.specs.Runs.{Came};

use crate::desk::Desk;
use crate::job_err::stopped;
use crate::names::{final_path, fresh_path};
use crate::steps::text_node;
use file_tree::{Node, Tree, TreeErr};
use journal_core::Event;
use std::alloc::Global;
use work_texts::JournalErr;

/// Puts the text under its temporary name.
fn put_again<T: Tree>(
    alloc: Global,
    desk: &mut Desk<T>,
    work: &str,
    text: &Node,
) -> Result<(), TreeErr>
    requires allowed { IsTrue (allows (core_of desk.old.core) Event.Renew) }
    ensures same_tree { desk.new.tree.ghost_name ≡ desk.old.tree.ghost_name }
    ensures core { OnOk result (core_of desk.new.core ≡ after (core_of desk.old.core) Event.Renew) }
    ensures came { Came Failed (InWork work.now) 0 work.now (λ w. w.node (fresh 3) ≡ text.now) (core_of desk.old.core) (T.seen desk.old.tree.now) (core_of desk.new.core) (T.seen desk.new.tree.now) result }
{
    let path = fresh_path(alloc, work, 3)?;
    desk.put(Event::Renew, path.as_str(), text)
}

/// Renames it to its name, where the earlier one goes.
fn replace<T: Tree>(alloc: Global, desk: &mut Desk<T>, work: &str) -> Result<(), TreeErr>
    requires allowed { IsTrue (allows (core_of desk.old.core) Event.Replace) }
    ensures same_tree { desk.new.tree.ghost_name ≡ desk.old.tree.ghost_name }
    ensures core { OnOk result (core_of desk.new.core ≡ after (core_of desk.old.core) Event.Replace) }
    ensures came { Came Failed (InWork work.now) 0 work.now (λ w. ⊤) (core_of desk.old.core) (T.seen desk.old.tree.now) (core_of desk.new.core) (T.seen desk.new.tree.now) result }
{
    let from = fresh_path(alloc, work, 3)?;
    let to = final_path(alloc, work, 3)?;
    desk.rename(Event::Replace, from.as_str(), to.as_str())
}

/// The text is put: under another name first, then settled, then at its own.
fn put_over<T: Tree>(
    alloc: Global,
    desk: &mut Desk<T>,
    work: &str,
    text: &Node,
) -> Result<(), TreeErr>
    requires phase { (core_of desk.old.core).phase ≡ Renewing false false }
    ensures same_tree { desk.new.tree.ghost_name ≡ desk.old.tree.ghost_name }
    ensures closed { OnOk result ((core_of desk.new.core).phase ≡ Closed) }
    ensures came { Came Failed (InWork work.now) 1 work.now (λ w. w.node (fresh 3) ≡ text.now) (core_of desk.old.core) (T.seen desk.old.tree.now) (core_of desk.new.core) (T.seen desk.new.tree.now) result }
{
    put_again(alloc, desk, work, text)?;
    desk.settle()?;
    replace(alloc, desk, work)?;
    Ok(())
}

/// The same, with the error of a run.
pub(crate) fn put_node_over<T: Tree>(
    alloc: Global,
    desk: &mut Desk<T>,
    work: &str,
    text: &Node,
) -> Result<(), JournalErr>
    requires phase { (core_of desk.old.core).phase ≡ Renewing false false }
    ensures same_tree { desk.new.tree.ghost_name ≡ desk.old.tree.ghost_name }
    ensures closed { OnOk result ((core_of desk.new.core).phase ≡ Closed) }
    ensures mild { IfErr result (λ e. IsTrue (is_mild_run e)) }
    ensures came { Came tree_fault (InWork work.now) 1 work.now (λ w. w.node (fresh 3) ≡ text.now) (core_of desk.old.core) (T.seen desk.old.tree.now) (core_of desk.new.core) (T.seen desk.new.tree.now) result }
{
    match put_over(alloc, desk, work, text) {
        Ok(()) => Ok(()),
        Err(e) => Err(stopped(e)),
    }
}

/// The text as a file; the only error is want of memory.
fn node_of(alloc: Global, finished: &[u8]) -> Result<Node, JournalErr>
    ensures node { IfOk result (λ n. n ≡ text_file finished.now) }
    ensures memory { IfErr result (λ e. e ≡ no_memory) }
{
    let text = Vec::from_slice(alloc, finished)?;
    Ok(text_node(text))
}

/// Replaces the finished text of a run that an earlier program ended, by the core of such a run: the new one is put
/// under another name first, then settled, then renamed. At `Ok` the run is over. `Tree` comes only where the tree's
/// count of faults rose.
pub fn renew<T: Tree>(
    alloc: Global,
    desk: &mut Desk<T>,
    work: &str,
    finished: &[u8],
) -> Result<(), JournalErr>
    requires phase { (core_of desk.old.core).phase ≡ Renewing false false }
    ensures same_tree { desk.new.tree.ghost_name ≡ desk.old.tree.ghost_name }
    ensures closed { OnOk result ((core_of desk.new.core).phase ≡ Closed) }
    ensures mild { IfErr result (λ e. IsTrue (is_mild_run e)) }
    ensures came { Came tree_fault (InWork work.now) 1 work.now (λ w. w.node (fresh 3) ≡ text_file finished.now) (core_of desk.old.core) (T.seen desk.old.tree.now) (core_of desk.new.core) (T.seen desk.new.tree.now) result }
{
    let node = node_of(alloc, finished)?;
    put_node_over(alloc, desk, work, &node)?;
    Ok(())
}
