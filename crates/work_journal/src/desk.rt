//! A tree that is changed only by the events of a core.
//!
//! This layer promises: each put, rename and settle is an event that the core allows, and one call of
//! the tree; the core goes on by the event, also where the tree's call fails. A caller gets its tree
//! back by `into_tree`, with all that was done to it.
ghost use Rattle.std.specs.Prelude.{◌≡◌, true, IfOk, OnOk, IsErrOf, IsTrue, option_map};
ghost use Rattle.file_tree.specs.Trees.{with_node, without, moved};
ghost use Rattle.file_tree.specs.Seen.{adds, now_of};
ghost use Rattle.file_tree.specs.Causes.{HasCause, Stood, Lay, IsWithin, IsListed, OnlyAt, MadeOrNot, Fails, PutFails, MoveFails, TakeFails};
ghost use Rattle.file_tree.specs.declared.call.Call.TheVariants as call;
ghost use Rattle.file_tree.specs.declared.call.Change.TheVariants as change;
ghost use Rattle.file_tree.specs.declared.call.Effect.TheVariants as effect;
ghost use Rattle.file_tree.specs.declared.node.TreeErr.TheVariants.{Failed};
ghost use Rattle.journal_core.specs.declared.event.Event.TheVariants.{Settle};
ghost use Rattle.journal_core.specs.Table.{allows, after};
ghost use Rattle.journal_core.specs.Cores.{core_of};
ghost use Rattle.work_journal.specs.Events.{is_put, is_move, may_sweep};

use file_tree::{Found, Listed, Node, Tree, TreeErr};
use journal_core::{Core, Event};

/// A lent tree, and the core of the run that changes it.
#[derive(Drop)]
pub struct Desk<'a, T: Tree> {
    tree: &'a mut T,
    core: Core,
}

impl<'a, T: Tree> Desk<'a, T> {
    /// A desk over the tree.
    pub fn new(tree: &'a mut T, core: Core) -> Desk<'a, T>
        ensures same_tree { result.tree.ghost_name ≡ tree.entry.ghost_name }
        ensures seen { T.seen result.tree.now ≡ T.seen tree.old }
        ensures core { core_of result.core ≡ core_of core }
    {
        Desk { tree, core }
    }

    /// The core.
    pub fn core(&self) -> &Core
        ensures core { core_of result.now ≡ core_of self.now.core }
    {
        &self.core
    }

    /// The tree, given back.
    pub fn into_tree(self) -> &'a mut T
        ensures same_tree { result.ghost_name ≡ self.entry.tree.ghost_name }
        ensures seen { T.seen result.now ≡ T.seen self.entry.tree.now }
    {
        let Desk { tree, core } = self;
        let _ = core;
        tree
    }

    /// The tree's list. The core stays as it is.
    pub fn list(&mut self, folder: &str, limit: u64) -> Result<Listed, TreeErr>
        ensures same_tree { self.new.tree.ghost_name ≡ self.old.tree.ghost_name }
        ensures core { core_of self.new.core ≡ core_of self.old.core }
        ensures done { (T.seen self.old.tree.now).tells ≡ true → OnOk result ((T.seen self.new.tree.now).past ≡ adds (T.seen self.old.tree.now).past (call.List folder.now) effect.Same) }
        ensures failed { (T.seen self.old.tree.now).tells ≡ true → IsErrOf result Failed → (T.seen self.new.tree.now).past ≡ adds (T.seen self.old.tree.now).past (call.List folder.now) effect.Same }
        ensures now { now_of (T.seen self.new.tree.now) ≡ now_of (T.seen self.old.tree.now) }
        ensures told { IfOk result (Lay (now_of (T.seen self.old.tree.now)) folder.now limit) }
        ensures order { IfOk result (IsListed limit) }
        ensures cause { HasCause (T.seen self.old.tree.now) (T.seen self.new.tree.now) result }
        ensures tells { (T.seen self.new.tree.now).tells ≡ (T.seen self.old.tree.now).tells }
    {
        self.tree.list(folder, limit)
    }

    /// The tree's read. The core stays as it is.
    pub fn read(&mut self, path: &str, limit: u64) -> Result<Found, TreeErr>
        ensures same_tree { self.new.tree.ghost_name ≡ self.old.tree.ghost_name }
        ensures core { core_of self.new.core ≡ core_of self.old.core }
        ensures done { (T.seen self.old.tree.now).tells ≡ true → OnOk result ((T.seen self.new.tree.now).past ≡ adds (T.seen self.old.tree.now).past (call.Read path.now) effect.Same) }
        ensures failed { (T.seen self.old.tree.now).tells ≡ true → IsErrOf result Failed → (T.seen self.new.tree.now).past ≡ adds (T.seen self.old.tree.now).past (call.Read path.now) effect.Same }
        ensures now { now_of (T.seen self.new.tree.now) ≡ now_of (T.seen self.old.tree.now) }
        ensures told { IfOk result (Stood (now_of (T.seen self.old.tree.now)) path.now limit) }
        ensures within { IfOk result (IsWithin limit) }
        ensures cause { HasCause (T.seen self.old.tree.now) (T.seen self.new.tree.now) result }
        ensures tells { (T.seen self.new.tree.now).tells ≡ (T.seen self.old.tree.now).tells }
    {
        self.tree.read(path, limit)
    }

    /// An event that puts a node: the tree's put.
    pub fn put(&mut self, event: Event, path: &str, node: &Node) -> Result<(), TreeErr>
        requires kind { IsTrue (is_put event) }
        requires allowed { IsTrue (allows (core_of self.old.core) event) }
        ensures same_tree { self.new.tree.ghost_name ≡ self.old.tree.ghost_name }
        ensures core { core_of self.new.core ≡ after (core_of self.old.core) event }
        ensures done { (T.seen self.old.tree.now).tells ≡ true → OnOk result ((T.seen self.new.tree.now).past ≡ adds (T.seen self.old.tree.now).past (call.Put path.now) (effect.Changed (change.Put path.now node.now))) }
        ensures failed { (T.seen self.old.tree.now).tells ≡ true → IsErrOf result Failed → Fails (T.seen self.old.tree.now).past (T.seen self.new.tree.now).past (call.Put path.now) (PutFails path.now) }
        ensures now { OnOk result (now_of (T.seen self.new.tree.now) ≡ option_map (with_node path.now node.now) (now_of (T.seen self.old.tree.now))) }
        ensures others { OnlyAt path.now (now_of (T.seen self.old.tree.now)) (now_of (T.seen self.new.tree.now)) }
        ensures cause { HasCause (T.seen self.old.tree.now) (T.seen self.new.tree.now) result }
        ensures tells { (T.seen self.new.tree.now).tells ≡ (T.seen self.old.tree.now).tells }
    {
        self.core.step(event);
        self.tree.put(path, node)
    }

    /// An event that renames a path: the tree's rename.
    pub fn rename(&mut self, event: Event, from: &str, to: &str) -> Result<(), TreeErr>
        requires kind { IsTrue (is_move event) }
        requires allowed { IsTrue (allows (core_of self.old.core) event) }
        ensures same_tree { self.new.tree.ghost_name ≡ self.old.tree.ghost_name }
        ensures core { core_of self.new.core ≡ after (core_of self.old.core) event }
        ensures done { (T.seen self.old.tree.now).tells ≡ true → OnOk result ((T.seen self.new.tree.now).past ≡ adds (T.seen self.old.tree.now).past (call.Rename from.now to.now) (effect.Changed (change.Move from.now to.now))) }
        ensures failed { (T.seen self.old.tree.now).tells ≡ true → IsErrOf result Failed → Fails (T.seen self.old.tree.now).past (T.seen self.new.tree.now).past (call.Rename from.now to.now) (MoveFails from.now to.now) }
        ensures now { OnOk result (now_of (T.seen self.new.tree.now) ≡ option_map (moved from.now to.now) (now_of (T.seen self.old.tree.now))) }
        ensures others { MadeOrNot (moved from.now to.now) (now_of (T.seen self.old.tree.now)) (now_of (T.seen self.new.tree.now)) }
        ensures cause { HasCause (T.seen self.old.tree.now) (T.seen self.new.tree.now) result }
        ensures tells { (T.seen self.new.tree.now).tells ≡ (T.seen self.old.tree.now).tells }
    {
        self.core.step(event);
        self.tree.rename(from, to)
    }

    /// The event of settling: the tree's settle.
    pub fn settle(&mut self) -> Result<(), TreeErr>
        ensures same_tree { self.new.tree.ghost_name ≡ self.old.tree.ghost_name }
        ensures core { core_of self.new.core ≡ after (core_of self.old.core) Settle }
        ensures done { (T.seen self.old.tree.now).tells ≡ true → OnOk result ((T.seen self.new.tree.now).past ≡ adds (T.seen self.old.tree.now).past call.Settle effect.Settled) }
        ensures failed { (T.seen self.old.tree.now).tells ≡ true → IsErrOf result Failed → (T.seen self.new.tree.now).past ≡ adds (T.seen self.old.tree.now).past call.Settle effect.Same }
        ensures now { now_of (T.seen self.new.tree.now) ≡ now_of (T.seen self.old.tree.now) }
        ensures cause { HasCause (T.seen self.old.tree.now) (T.seen self.new.tree.now) result }
        ensures tells { (T.seen self.new.tree.now).tells ≡ (T.seen self.old.tree.now).tells }
    {
        self.core.step(Event::Settle);
        self.tree.settle()
    }

    /// Takes a path of the work folder away, before there is a plan or at the end of the run: the tree's
    /// remove. The core stays as it is.
    pub fn sweep(&mut self, path: &str) -> Result<(), TreeErr>
        requires phase { IsTrue (may_sweep (core_of self.old.core).phase) }
        ensures same_tree { self.new.tree.ghost_name ≡ self.old.tree.ghost_name }
        ensures core { core_of self.new.core ≡ core_of self.old.core }
        ensures done { (T.seen self.old.tree.now).tells ≡ true → OnOk result ((T.seen self.new.tree.now).past ≡ adds (T.seen self.old.tree.now).past (call.Remove path.now) (effect.Changed (change.Take path.now))) }
        ensures failed { (T.seen self.old.tree.now).tells ≡ true → IsErrOf result Failed → Fails (T.seen self.old.tree.now).past (T.seen self.new.tree.now).past (call.Remove path.now) (TakeFails path.now) }
        ensures now { OnOk result (now_of (T.seen self.new.tree.now) ≡ option_map (without path.now) (now_of (T.seen self.old.tree.now))) }
        ensures others { MadeOrNot (without path.now) (now_of (T.seen self.old.tree.now)) (now_of (T.seen self.new.tree.now)) }
        ensures cause { HasCause (T.seen self.old.tree.now) (T.seen self.new.tree.now) result }
        ensures tells { (T.seen self.new.tree.now).tells ≡ (T.seen self.old.tree.now).tells }
    {
        self.tree.remove(path)
    }
}
