//! The single steps of a run: one event each, on a path of the work folder.
//!
//! This layer promises: each is one step of the core and one call of the tree, and keeps the run partway.
//! Read first: `specs/Runs.antt`.
ghost use Rattle.std.specs.Prelude.{◌≡◌, OnOk, IsTrue, []};
ghost use Rattle.file_tree.specs.declared.node.TreeErr.TheVariants.{Failed};
ghost use Rattle.file_tree.specs.declared.node.Node.TheVariants as node;
ghost use Rattle.journal_core.specs.Names.{temp, commit};
ghost use Rattle.journal_core.specs.Table.{allows, after};
ghost use Rattle.journal_core.specs.Cores.{core_of};
ghost use Rattle.journal_core.specs.Relation.{IsNear};
ghost use Rattle.work_journal.specs.Spares.{InWork, InWorkOr};
ghost use Rattle.work_journal.specs.Runs.{Came};

use crate::desk::Desk;
use crate::names::{commit_path, temp_path};
use file_tree::{Blob, Node, Tree, TreeErr};
use journal_core::Event;
use std::alloc::Global;

/// The mode of the texts and marks of the work folder.
pub(crate) const TEXT_MODE: u32 = 0o644;

/// A text of the work folder as a file.
pub(crate) fn text_node(text: Vec<u8>) -> Node
    ensures node { result ≡ node.File text.items 420 }
{
    let bytes = Blob::new(text);
    Node::File {
        bytes,
        mode: TEXT_MODE,
    }
}

/// Puts the node of a step under its temporary name.
pub(crate) fn stage_step<T: Tree>(
    alloc: Global,
    desk: &mut Desk<T>,
    work: &str,
    job: u32,
    step: u8,
    node: &Node,
) -> Result<(), TreeErr>
    requires allowed { IsTrue (allows (core_of desk.old.core) (Event.Stage job step)) }
    requires near { IsNear (core_of desk.old.core) (Event.Stage job step) }
    ensures same_tree { desk.new.tree.ghost_name ≡ desk.old.tree.ghost_name }
    ensures core { OnOk result (core_of desk.new.core ≡ after (core_of desk.old.core) (Event.Stage job step)) }
    ensures came { Came Failed (InWork work.now) 0 work.now (λ w. w.node (temp job step) ≡ node.now) (core_of desk.old.core) (T.seen desk.old.tree.now) (core_of desk.new.core) (T.seen desk.new.tree.now) result }
{
    let path = temp_path(alloc, work, job, step)?;
    desk.put(Event::Stage { job, step }, path.as_str(), node)
}

/// Puts the mark that commits a job: an empty file.
pub(crate) fn commit_step<T: Tree>(
    alloc: Global,
    desk: &mut Desk<T>,
    work: &str,
    job: u32,
) -> Result<(), TreeErr>
    requires allowed { IsTrue (allows (core_of desk.old.core) (Event.Commit job)) }
    ensures same_tree { desk.new.tree.ghost_name ≡ desk.old.tree.ghost_name }
    ensures core { OnOk result (core_of desk.new.core ≡ after (core_of desk.old.core) (Event.Commit job)) }
    ensures came { Came Failed (InWork work.now) 0 work.now (λ w. w.node (commit job) ≡ node.File [] 420) (core_of desk.old.core) (T.seen desk.old.tree.now) (core_of desk.new.core) (T.seen desk.new.tree.now) result }
{
    let path = commit_path(alloc, work, job)?;
    let bytes = Blob::new(Vec::new(alloc));
    let mark = Node::File {
        bytes,
        mode: TEXT_MODE,
    };
    desk.put(Event::Commit { job }, path.as_str(), &mark)
}

/// Renames a step from its temporary name to its target.
pub(crate) fn move_step<T: Tree>(
    alloc: Global,
    desk: &mut Desk<T>,
    work: &str,
    job: u32,
    step: u8,
    to: &str,
) -> Result<(), TreeErr>
    requires allowed { IsTrue (allows (core_of desk.old.core) (Event.Move job step)) }
    ensures same_tree { desk.new.tree.ghost_name ≡ desk.old.tree.ghost_name }
    ensures core { OnOk result (core_of desk.new.core ≡ after (core_of desk.old.core) (Event.Move job step)) }
    ensures came { Came Failed (InWorkOr work.now to.now) 0 work.now (λ w. w.output job step ≡ to.now) (core_of desk.old.core) (T.seen desk.old.tree.now) (core_of desk.new.core) (T.seen desk.new.tree.now) result }
{
    let from = temp_path(alloc, work, job, step)?;
    desk.rename(Event::Move { job, step }, from.as_str(), to)
}
