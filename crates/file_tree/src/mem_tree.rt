//! A tree in memory, for tests: it tells all that it holds, and fails where it is set to.
//!
//! This layer promises: the meanings of `Tree` in full; a call fails only where it is set to.
//! Read first: `specs/Logs.antt`, `specs/MemTrees.antt`.
ghost use Rattle.std.specs.Prelude.{◌≡◌, ◌+◌, ◌-◌, ◌^◌, ◌<◌, ◌≤◌, true, [], min, flat_map, vec_len, vec_capacity, Some, None, IfOk, OnOk, IsErrOf, IsOkUnless, option_map};
ghost use Rattle.file_tree.specs.declared.node.Node.TheVariants as node;
ghost use Rattle.file_tree.specs.Trees.{with_node, without, moved};
ghost use Rattle.file_tree.specs.Seen.{now_of, map_now, adds, calls_of, settles_of};
ghost use Rattle.file_tree.specs.Images.{Image, state_of, image_at};
ghost use Rattle.file_tree.specs.Causes.{Rose, HasCause, Stood, Lay, IsWithin, IsListed, OnlyAt, MadeOrNot, Fails, PutFails, MoveFails, TakeFails};
ghost use Rattle.file_tree.specs.Logs.{tree_of, are_sorted, past_with, is_due, entries_of};
ghost use Rattle.file_tree.specs.Codes.{same_tree_once};
ghost use Rattle.std.specs.String.{string_bytes};
ghost use Rattle.std.specs.FinMap as fin;

use crate::call::{Call, Change, Effect, settles_in};
use crate::log::Log;
use crate::looks::{list_in, look};
use crate::node::{Found, Listed, Node, TreeErr};
use crate::places::{move_node, put_node, take_node};
use crate::sorts::{copies, sorted};
use crate::stops::leave;
use crate::text::{Blob, Text};
use crate::tree::Tree;
use std::alloc::{AllocError, Global};

/// Of a put: the call, the change, and the path and the node that are put.
fn put_parts(
    alloc: Global,
    path: &str,
    node: &Node,
) -> Result<(Call, Change, String, Node), AllocError>
    ensures call { IfOk result (λ p. p.0 ≡ Call.Put path.now) }
    ensures change { IfOk result (λ p. p.1 ≡ Change.Put path.now node.now) }
    ensures place { IfOk result (λ p. string_bytes p.2 ≡ path.now) }
    ensures copy { IfOk result (λ p. p.3 ≡ node.now) }
{
    let call = Call::Put(Text::copy_of(alloc, path)?);
    let change = Change::put(alloc, path, node)?;
    let place = String::from_str(alloc, path)?;
    let node = node.copied(alloc)?;
    Ok((call, change, place, node))
}

/// Of a rename: the call, the change, and the new path.
fn move_parts(alloc: Global, from: &str, to: &str) -> Result<(Call, Change, String), AllocError>
    ensures call { IfOk result (λ p. p.0 ≡ Call.Rename from.now to.now) }
    ensures change { IfOk result (λ p. p.1 ≡ Change.Move from.now to.now) }
    ensures place { IfOk result (λ p. string_bytes p.2 ≡ to.now) }
{
    let call = Call::Rename {
        from: Text::copy_of(alloc, from)?,
        to: Text::copy_of(alloc, to)?,
    };
    let change = Change::Move {
        from: Text::copy_of(alloc, from)?,
        to: Text::copy_of(alloc, to)?,
    };
    let place = String::from_str(alloc, to)?;
    Ok((call, change, place))
}

/// A tree in memory.
#[derive(Drop)]
pub struct MemTree {
    alloc: Global,
    nodes: Vec<(String, Node)>,
    first: Vec<(String, Node)>,
    log: Log,
    listed: Vec<u64>,
    stop: Option<u64>,
    faults: u64,
    ghost in_order: { are_sorted nodes.items ≡ true },
    ghost began_in_order: { are_sorted first.items ≡ true },
    ghost is_now: { tree_of nodes.items ≡ map_now (past_with first.items log.calls.items log.effects.items) } by { same_tree_once _ _ },
}

impl MemTree {
    ghost use Rattle.file_tree.specs.MemTrees.{seen_of, to_fail_of, number_of};

    /// A tree of these nodes, settled, with no calls and nothing that is to fail. Of a path that stands
    /// twice it has the first node.
    pub fn new(alloc: Global, nodes: Vec<(String, Node)>) -> Result<MemTree, TreeErr>
        ensures seen { IfOk result (λ m. seen_of m ≡ record { tells = true; past = record { first = tree_of nodes.items; log = [] }; faults = 0 }) }
        ensures set { IfOk result (λ m. to_fail_of m ≡ record { listed = []; from = None }) }
        ensures memory { IsOkUnless result TreeErr.NoMemory }
    {
        let nodes = sorted(alloc, nodes)?;
        let tree = MemTree::from_places(alloc, nodes)?;
        Ok(tree)
    }

    /// The same of nodes in byte order of their paths.
    #[tactic(auto, using(crate::proofs::PastLaws::now_first, crate::proofs::PastLaws::past_first))]
    fn from_places(alloc: Global, nodes: Vec<(String, Node)>) -> Result<MemTree, AllocError>
        requires { are_sorted nodes.items ≡ true }
        ensures seen { IfOk result (λ m. seen_of m ≡ record { tells = true; past = record { first = tree_of nodes.items; log = [] }; faults = 0 }) }
        ensures set { IfOk result (λ m. to_fail_of m ≡ record { listed = []; from = None }) }
    {
        let first = copies(alloc, &nodes)?;
        Ok(MemTree {
            alloc,
            nodes,
            first,
            log: Log::new(alloc),
            listed: Vec::new(alloc),
            stop: None,
            faults: 0,
        })
    }

    /// This many more calls may pass, and all later ones fail.
    pub fn stop_after(&mut self, calls: u64)
        ensures set { to_fail_of self.new ≡ record { listed = (to_fail_of self.old).listed; from = Some (min (number_of self.old + calls) (2 ^ 64 - 1)) } }
        ensures seen { seen_of self.new ≡ seen_of self.old }
    {
        let number = self.log.calls.len() as u64;
        self.stop = Some(number.saturating_add(calls));
    }

    /// What a stop leaves of the tree that keeps the first `kept` of the changes that aren't stored, all
    /// where there are fewer; each file that was put since the last settle holds the bytes `torn`, and
    /// keeps its mode. The new tree has no calls and nothing that is to fail.
    #[tactic(auto, using(crate::proofs::ImageLaws::stop_laws))]
    pub fn stopped(self, kept: u64, torn: &[u8]) -> Result<MemTree, TreeErr>
        ensures seen { IfOk result (λ m. seen_of m ≡ record { tells = true; past = record { first = image_at (state_of (seen_of self).past) kept torn.now; log = [] }; faults = 0 }) }
        ensures image { Image (state_of (seen_of self).past) (image_at (state_of (seen_of self).past) kept torn.now) }
        ensures set { IfOk result (λ m. to_fail_of m ≡ record { listed = []; from = None }) }
        ensures memory { IsOkUnless result TreeErr.NoMemory }
    {
        let MemTree {
            alloc,
            nodes: _,
            first,
            log,
            listed: _,
            stop: _,
            faults: _,
        } = self;
        let mut places = first;
        leave(alloc, &mut places, &log.effects, kept, torn)?;
        let tree = MemTree::from_places(alloc, places)?;
        Ok(tree)
    }

    /// The calls with these numbers fail, counted from 0 over all calls so far. They take the place of
    /// those that were listed before.
    pub fn fail_calls(&mut self, calls: Vec<u64>)
        ensures set { to_fail_of self.new ≡ record { listed = calls.items; from = (to_fail_of self.old).from } }
        ensures seen { seen_of self.new ≡ seen_of self.old }
    {
        self.listed = calls;
    }

    /// The map, in byte order of paths.
    #[tactic(auto, using(crate::proofs::PastLaws::entries_now))]
    pub fn nodes(&self) -> &[(String, Node)]
        ensures value { entries_of result.now ≡ fin.entries (map_now (seen_of self.now).past) }
    {
        self.nodes.as_slice()
    }

    /// The calls so far, in order, failed ones too.
    pub fn calls(&self) -> &[Call]
        ensures value { result.now ≡ calls_of (seen_of self.now).past }
    {
        self.log.calls.as_slice()
    }

    /// How often the tree was asked to settle.
    pub fn settle_count(&self) -> u64
        ensures value { result ≡ settles_of (seen_of self.now).past }
    {
        settles_in(&self.log.calls) as u64
    }

    /// Whether the next call is to fail.
    fn is_due(&self) -> bool
        ensures value { result ≡ is_due (to_fail_of self.now) (number_of self.now) }
    {
        let number = self.log.calls.len() as u64;
        let stopped = match self.stop {
            None => false,
            Some(first) => first <= number,
        };
        self.listed.contains(&number) || stopped
    }

    /// A call that fails, and does nothing.
    #[tactic(auto, using(crate::proofs::PastLaws::now_more))]
    fn add_fault(&mut self, failed: Call)
        requires for_calls { vec_len self.old.log.calls < vec_capacity self.old.log.calls }
        requires for_effects { vec_len self.old.log.effects < vec_capacity self.old.log.effects }
        ensures past { (seen_of self.new).past ≡ adds (seen_of self.old).past failed Effect.Same }
        ensures now { map_now (seen_of self.new).past ≡ map_now (seen_of self.old).past }
        ensures faults { (seen_of self.new).faults ≡ min ((seen_of self.old).faults + 1) (2 ^ 64 - 1) }
        ensures later { (seen_of self.old).faults ≤ (seen_of self.new).faults }
        ensures rose { Rose (seen_of self.old).faults (seen_of self.new).faults }
        ensures set { to_fail_of self.new ≡ to_fail_of self.old }
    {
        self.log.add(failed, Effect::Same);
        self.faults = self.faults.saturating_add(1);
    }
}

#[tactic(auto, using(crate::proofs::CauseLaws::cause_laws))]
impl Tree for MemTree {
    ghost use Rattle.file_tree.specs.MemTrees.{seen_of, FailsAsSet};

    ghost seen = { seen_of };

    fn list(&mut self, folder: &str, limit: u64) -> Result<Listed, TreeErr>
        ensures done { (seen_of self.old).tells ≡ true → OnOk result ((seen_of self.new).past ≡ adds (seen_of self.old).past (Call.List folder.now) Effect.Same) }
        ensures failed { (seen_of self.old).tells ≡ true → IsErrOf result TreeErr.Failed → (seen_of self.new).past ≡ adds (seen_of self.old).past (Call.List folder.now) Effect.Same }
        ensures now { now_of (seen_of self.new) ≡ now_of (seen_of self.old) }
        ensures told { IfOk result (Lay (now_of (seen_of self.old)) folder.now limit) }
        ensures order { IfOk result (IsListed limit) }
        ensures cause { HasCause (seen_of self.old) (seen_of self.new) result }
        ensures tells { (seen_of self.new).tells ≡ (seen_of self.old).tells }
        ensures set { FailsAsSet self.old self.new result }
    {
        let call = Call::List(Text::copy_of(self.alloc, folder)?);
        self.log.make_room()?;
        if self.is_due() {
            self.add_fault(call);
            return Err(TreeErr::Failed);
        }
        let listed = list_in(self.alloc, &self.nodes, folder, limit)?;
        self.log.add(call, Effect::Same);
        Ok(listed)
    }

    fn read(&mut self, path: &str, limit: u64) -> Result<Found, TreeErr>
        ensures done { (seen_of self.old).tells ≡ true → OnOk result ((seen_of self.new).past ≡ adds (seen_of self.old).past (Call.Read path.now) Effect.Same) }
        ensures failed { (seen_of self.old).tells ≡ true → IsErrOf result TreeErr.Failed → (seen_of self.new).past ≡ adds (seen_of self.old).past (Call.Read path.now) Effect.Same }
        ensures now { now_of (seen_of self.new) ≡ now_of (seen_of self.old) }
        ensures told { IfOk result (Stood (now_of (seen_of self.old)) path.now limit) }
        ensures within { IfOk result (IsWithin limit) }
        ensures cause { HasCause (seen_of self.old) (seen_of self.new) result }
        ensures tells { (seen_of self.new).tells ≡ (seen_of self.old).tells }
        ensures set { FailsAsSet self.old self.new result }
    {
        let call = Call::Read(Text::copy_of(self.alloc, path)?);
        self.log.make_room()?;
        if self.is_due() {
            self.add_fault(call);
            return Err(TreeErr::Failed);
        }
        let found = look(self.alloc, &self.nodes, path, limit)?;
        self.log.add(call, Effect::Same);
        Ok(found)
    }

    fn put(&mut self, path: &str, node: &Node) -> Result<(), TreeErr>
        ensures done { (seen_of self.old).tells ≡ true → OnOk result ((seen_of self.new).past ≡ adds (seen_of self.old).past (Call.Put path.now) (Effect.Changed (Change.Put path.now node.now))) }
        ensures failed { (seen_of self.old).tells ≡ true → IsErrOf result TreeErr.Failed → Fails (seen_of self.old).past (seen_of self.new).past (Call.Put path.now) (PutFails path.now) }
        ensures now { OnOk result (now_of (seen_of self.new) ≡ option_map (with_node path.now node.now) (now_of (seen_of self.old))) }
        ensures others { OnlyAt path.now (now_of (seen_of self.old)) (now_of (seen_of self.new)) }
        ensures cause { HasCause (seen_of self.old) (seen_of self.new) result }
        ensures tells { (seen_of self.new).tells ≡ (seen_of self.old).tells }
        ensures set { FailsAsSet self.old self.new result }
    {
        let (call, change, place, node) = put_parts(self.alloc, path, node)?;
        self.log.make_room()?;
        self.nodes.reserve(1)?;
        if self.is_due() {
            self.add_fault(call);
            return Err(TreeErr::Failed);
        }
        put_node(&mut self.nodes, place, node);
        self.log.add(call, Effect::Changed(change));
        Ok(())
    }

    fn put_pieces(&mut self, path: &str, pieces: &[&[u8]], mode: u32) -> Result<(), TreeErr>
        ensures done { (seen_of self.old).tells ≡ true → OnOk result ((seen_of self.new).past ≡ adds (seen_of self.old).past (Call.Put path.now) (Effect.Changed (Change.Put path.now (node.File (flat_map (λ piece. piece.now) pieces.now) mode)))) }
        ensures failed { (seen_of self.old).tells ≡ true → IsErrOf result TreeErr.Failed → Fails (seen_of self.old).past (seen_of self.new).past (Call.Put path.now) (PutFails path.now) }
        ensures now { OnOk result (now_of (seen_of self.new) ≡ option_map (with_node path.now (node.File (flat_map (λ piece. piece.now) pieces.now) mode)) (now_of (seen_of self.old))) }
        ensures others { OnlyAt path.now (now_of (seen_of self.old)) (now_of (seen_of self.new)) }
        ensures cause { HasCause (seen_of self.old) (seen_of self.new) result }
        ensures tells { (seen_of self.new).tells ≡ (seen_of self.old).tells }
        ensures set { FailsAsSet self.old self.new result }
    {
        let bytes = Blob::joined(self.alloc, pieces)?;
        self.put(path, &Node::File { bytes, mode })?;
        Ok(())
    }

    fn rename(&mut self, from: &str, to: &str) -> Result<(), TreeErr>
        ensures done { (seen_of self.old).tells ≡ true → OnOk result ((seen_of self.new).past ≡ adds (seen_of self.old).past (Call.Rename from.now to.now) (Effect.Changed (Change.Move from.now to.now))) }
        ensures failed { (seen_of self.old).tells ≡ true → IsErrOf result TreeErr.Failed → Fails (seen_of self.old).past (seen_of self.new).past (Call.Rename from.now to.now) (MoveFails from.now to.now) }
        ensures now { OnOk result (now_of (seen_of self.new) ≡ option_map (moved from.now to.now) (now_of (seen_of self.old))) }
        ensures others { MadeOrNot (moved from.now to.now) (now_of (seen_of self.old)) (now_of (seen_of self.new)) }
        ensures cause { HasCause (seen_of self.old) (seen_of self.new) result }
        ensures tells { (seen_of self.new).tells ≡ (seen_of self.old).tells }
        ensures set { FailsAsSet self.old self.new result }
    {
        let (call, change, place) = move_parts(self.alloc, from, to)?;
        self.log.make_room()?;
        if self.is_due() {
            self.add_fault(call);
            return Err(TreeErr::Failed);
        }
        move_node(&mut self.nodes, from, place);
        self.log.add(call, Effect::Changed(change));
        Ok(())
    }

    fn remove(&mut self, path: &str) -> Result<(), TreeErr>
        ensures done { (seen_of self.old).tells ≡ true → OnOk result ((seen_of self.new).past ≡ adds (seen_of self.old).past (Call.Remove path.now) (Effect.Changed (Change.Take path.now))) }
        ensures failed { (seen_of self.old).tells ≡ true → IsErrOf result TreeErr.Failed → Fails (seen_of self.old).past (seen_of self.new).past (Call.Remove path.now) (TakeFails path.now) }
        ensures now { OnOk result (now_of (seen_of self.new) ≡ option_map (without path.now) (now_of (seen_of self.old))) }
        ensures others { MadeOrNot (without path.now) (now_of (seen_of self.old)) (now_of (seen_of self.new)) }
        ensures cause { HasCause (seen_of self.old) (seen_of self.new) result }
        ensures tells { (seen_of self.new).tells ≡ (seen_of self.old).tells }
        ensures set { FailsAsSet self.old self.new result }
    {
        let call = Call::Remove(Text::copy_of(self.alloc, path)?);
        let change = Change::Take {
            path: Text::copy_of(self.alloc, path)?,
        };
        self.log.make_room()?;
        if self.is_due() {
            self.add_fault(call);
            return Err(TreeErr::Failed);
        }
        let _ = take_node(&mut self.nodes, path);
        self.log.add(call, Effect::Changed(change));
        Ok(())
    }

    fn settle(&mut self) -> Result<(), TreeErr>
        ensures done { (seen_of self.old).tells ≡ true → OnOk result ((seen_of self.new).past ≡ adds (seen_of self.old).past Call.Settle Effect.Settled) }
        ensures failed { (seen_of self.old).tells ≡ true → IsErrOf result TreeErr.Failed → (seen_of self.new).past ≡ adds (seen_of self.old).past Call.Settle Effect.Same }
        ensures now { now_of (seen_of self.new) ≡ now_of (seen_of self.old) }
        ensures cause { HasCause (seen_of self.old) (seen_of self.new) result }
        ensures tells { (seen_of self.new).tells ≡ (seen_of self.old).tells }
        ensures set { FailsAsSet self.old self.new result }
    {
        let call = Call::Settle;
        self.log.make_room()?;
        if self.is_due() {
            self.add_fault(call);
            return Err(TreeErr::Failed);
        }
        self.log.add(call, Effect::Settled);
        Ok(())
    }
}
