//! The end of a run: its lists and its finished text, put so that a stop leaves all of them or none.
//!
//! Read first: `specs/Ending.antt`, `specs/Runs.antt`.
ghost use Rattle.std.specs.Prelude.{◌≡◌, ◌<◌, IfOk, IfErr, OnOk, IsTrue, map, true, false, ⊤};
ghost use Rattle.file_tree.specs.declared.node.TreeErr.TheVariants.{Failed};
ghost use Rattle.journal_core.specs.declared.event.Phase.TheVariants.{Finishing, Closed};
ghost use Rattle.journal_core.specs.Cores.{core_of};
ghost use Rattle.journal_core.specs.Names.{fresh};
ghost use Rattle.journal_core.specs.Table.{allows, after, in_phase};
ghost use Rattle.work_journal.specs.Spares.{InWork};
ghost use Rattle.work_journal.specs.Runs.{Came};
ghost use Rattle.work_journal.specs.Ending.{AreTexts, IsEnding, end_nodes};
ghost use Rattle.work_texts.specs.Lists.{bytes_of};
ghost use Rattle.work_texts.specs.declared.journal_err.JournalErr.TheVariants.{NoMemory as no_memory};

use crate::desk::Desk;
use crate::names::{final_path, fresh_path};
use crate::steps::text_node;
use file_tree::{Node, Tree, TreeErr};
use journal_core::Event;
use std::alloc::Global;
use work_texts::JournalErr;

/// The lists of sources, of debug files and of links, and the finished text, as files; the only error is
/// want of memory.
pub(crate) fn end_nodes(
    alloc: Global,
    lists: [Vec<u8>; 3],
    finished: &[u8],
) -> Result<[Node; 4], JournalErr>
    ensures nodes { IfOk result (λ ns. ns ≡ end_nodes (map bytes_of lists) finished.now) }
    ensures memory { IfErr result (λ e. e ≡ no_memory) }
{
    let finished = Vec::from_slice(alloc, finished)?;
    let [sources, debug_files, links] = lists;
    Ok([
        text_node(sources),
        text_node(debug_files),
        text_node(links),
        text_node(finished),
    ])
}

/// Puts one of the four texts under its temporary name.
fn put_text<T: Tree>(
    alloc: Global,
    desk: &mut Desk<T>,
    work: &str,
    part: u8,
    text: &Node,
) -> Result<(), TreeErr>
    requires part { part < 4 }
    requires allowed { IsTrue (allows (core_of desk.old.core) (Event.Finish part)) }
    ensures same_tree { desk.new.tree.ghost_name ≡ desk.old.tree.ghost_name }
    ensures core { OnOk result (core_of desk.new.core ≡ after (core_of desk.old.core) (Event.Finish part)) }
    ensures came { Came Failed (InWork work.now) 0 work.now (λ w. w.node (fresh part) ≡ text.now) (core_of desk.old.core) (T.seen desk.old.tree.now) (core_of desk.new.core) (T.seen desk.new.tree.now) result }
{
    let path = fresh_path(alloc, work, part)?;
    desk.put(Event::Finish { part }, path.as_str(), text)
}

/// Renames one of the four texts to its name.
fn close_text<T: Tree>(
    alloc: Global,
    desk: &mut Desk<T>,
    work: &str,
    part: u8,
) -> Result<(), TreeErr>
    requires part { part < 4 }
    requires allowed { IsTrue (allows (core_of desk.old.core) (Event.Close part)) }
    ensures same_tree { desk.new.tree.ghost_name ≡ desk.old.tree.ghost_name }
    ensures core { OnOk result (core_of desk.new.core ≡ after (core_of desk.old.core) (Event.Close part)) }
    ensures came { Came Failed (InWork work.now) 0 work.now (λ w. ⊤) (core_of desk.old.core) (T.seen desk.old.tree.now) (core_of desk.new.core) (T.seen desk.new.tree.now) result }
{
    let from = fresh_path(alloc, work, part)?;
    let to = final_path(alloc, work, part)?;
    desk.rename(Event::Close { part }, from.as_str(), to.as_str())
}

/// Puts all four.
fn put_texts<T: Tree>(
    alloc: Global,
    desk: &mut Desk<T>,
    work: &str,
    texts: &[Node; 4],
) -> Result<(), TreeErr>
    requires ending { IsEnding (core_of desk.old.core) }
    ensures same_tree { desk.new.tree.ghost_name ≡ desk.old.tree.ghost_name }
    ensures core { OnOk result (core_of desk.new.core ≡ in_phase (core_of desk.old.core) (Finishing 4 false)) }
    ensures came { Came Failed (InWork work.now) 0 work.now (λ w. AreTexts w texts.now) (core_of desk.old.core) (T.seen desk.old.tree.now) (core_of desk.new.core) (T.seen desk.new.tree.now) result }
{
    for part in 0..4u8 {
        put_text(alloc, desk, work, part, &texts[part as usize])?;
    }
    Ok(())
}

/// Renames all four.
fn close_texts<T: Tree>(alloc: Global, desk: &mut Desk<T>, work: &str) -> Result<(), TreeErr>
    requires phase { (core_of desk.old.core).phase ≡ Finishing 4 true }
    ensures same_tree { desk.new.tree.ghost_name ≡ desk.old.tree.ghost_name }
    ensures core { OnOk result (core_of desk.new.core ≡ in_phase (core_of desk.old.core) Closed) }
    ensures came { Came Failed (InWork work.now) 0 work.now (λ w. ⊤) (core_of desk.old.core) (T.seen desk.old.tree.now) (core_of desk.new.core) (T.seen desk.new.tree.now) result }
{
    for part in 0..4u8 {
        close_text(alloc, desk, work, part)?;
    }
    Ok(())
}

/// Ends a run whose jobs are all done: the three lists and the finished text are put under temporary names,
/// settled, and renamed, the finished text last.
pub(crate) fn close_run<T: Tree>(
    alloc: Global,
    desk: &mut Desk<T>,
    work: &str,
    texts: &[Node; 4],
) -> Result<(), TreeErr>
    requires ending { IsEnding (core_of desk.old.core) }
    ensures same_tree { desk.new.tree.ghost_name ≡ desk.old.tree.ghost_name }
    ensures closed { OnOk result ((core_of desk.new.core).phase ≡ Closed) }
    ensures came { Came Failed (InWork work.now) 1 work.now (λ w. AreTexts w texts.now) (core_of desk.old.core) (T.seen desk.old.tree.now) (core_of desk.new.core) (T.seen desk.new.tree.now) result }
{
    put_texts(alloc, desk, work, texts)?;
    desk.settle()?;
    close_texts(alloc, desk, work)?;
    Ok(())
}
