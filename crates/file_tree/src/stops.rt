//! What a stop may leave of a tree in memory: its calls replayed, the last ones torn.
//!
//! Read first: `specs/Images.antt`, `specs/Pending.antt`.
ghost use Rattle.std.specs.Prelude.{◌≡◌, true, map, take, OnOk, IfOk};
ghost use Rattle.file_tree.specs.Trees.{after_change, after_changes};
ghost use Rattle.file_tree.specs.Images.{image_at, state_after, settled_state, torn_change};
ghost use Rattle.file_tree.specs.Pending.{states_by, pending_state};
ghost use Rattle.file_tree.specs.Logs.{tree_of, are_sorted};

use crate::call::{Change, Effect};
use crate::node::Node;
use crate::places::{move_node, put_node, take_node};
use crate::text::Blob;
use std::alloc::{AllocError, Global};

/// Makes the change again.
pub(crate) fn apply(
    alloc: Global,
    places: &mut Vec<(String, Node)>,
    change: &Change,
) -> Result<(), AllocError>
    requires { are_sorted places.old.items ≡ true }
    ensures tree { OnOk result (tree_of places.new.items ≡ after_change (tree_of places.old.items) change.now) }
    ensures sorted { are_sorted places.new.items ≡ true }
{
    match change {
        Change::Put { path, node } => {
            let path = String::from_str(alloc, path.as_str())?;
            let node = node.copied(alloc)?;
            places.reserve(1)?;
            put_node(places, path, node);
        }
        Change::Move { from, to } => {
            let to = String::from_str(alloc, to.as_str())?;
            move_node(places, from.as_str(), to);
        }
        Change::Take { path } => {
            let _ = take_node(places, path.as_str());
        }
    }
    Ok(())
}

/// Makes the change again, with other bytes in a file that it puts.
fn apply_torn(
    alloc: Global,
    places: &mut Vec<(String, Node)>,
    change: &Change,
    torn: &[u8],
) -> Result<(), AllocError>
    requires { are_sorted places.old.items ≡ true }
    ensures tree { OnOk result (tree_of places.new.items ≡ after_change (tree_of places.old.items) (torn_change torn.now change.now)) }
    ensures sorted { are_sorted places.new.items ≡ true }
{
    match change {
        Change::Put {
            path,
            node: Node::File { bytes: _, mode },
        } => {
            let path = String::from_str(alloc, path.as_str())?;
            let bytes = Blob::from_slice(alloc, torn)?;
            places.reserve(1)?;
            put_node(places, path, Node::File { bytes, mode: *mode });
            Ok(())
        }
        Change::Put {
            path: _,
            node: Node::Link { target: _ },
        } => apply(alloc, places, change),
        Change::Move { from: _, to: _ } => apply(alloc, places, change),
        Change::Take { path: _ } => apply(alloc, places, change),
    }
}

/// Makes all of the changes again.
fn apply_all(
    alloc: Global,
    places: &mut Vec<(String, Node)>,
    changes: &Vec<&Change>,
) -> Result<(), AllocError>
    requires { are_sorted places.old.items ≡ true }
    ensures tree { OnOk result (tree_of places.new.items ≡ after_changes (tree_of places.old.items) (map (λ c. c.now) changes.now.items)) }
    ensures sorted { are_sorted places.new.items ≡ true }
{
    for i in 0..changes.len() {
        apply(alloc, places, changes[i])?;
    }
    Ok(())
}

/// Makes all of these changes again, with other bytes in the files that they put.
fn apply_each_torn(
    alloc: Global,
    places: &mut Vec<(String, Node)>,
    changes: &[&Change],
    torn: &[u8],
) -> Result<(), AllocError>
    requires { are_sorted places.old.items ≡ true }
    ensures tree { OnOk result (tree_of places.new.items ≡ after_changes (tree_of places.old.items) (map (torn_change torn.now) (map (λ c. c.now) changes.now))) }
    ensures sorted { are_sorted places.new.items ≡ true }
{
    for i in 0..changes.len() {
        apply_torn(alloc, places, changes[i], torn)?;
    }
    Ok(())
}

/// The first of the changes, at most this many.
#[tactic(auto, using(crate::proofs::ImageLaws::first_laws))]
fn first_changes<'a, 'b>(changes: &'b Vec<&'a Change>, kept: u64) -> &'b [&'a Change]
    ensures { map (λ c. c.now) result.now ≡ take kept (map (λ c. c.now) changes.now.items) }
{
    let changes = changes.as_slice();
    if kept >= changes.len() as u64 {
        return changes;
    }
    &changes[..kept as usize]
}

/// Does again what a call did.
fn step<'a>(
    alloc: Global,
    places: &mut Vec<(String, Node)>,
    pending: &mut Vec<&'a Change>,
    effect: &'a Effect,
) -> Result<(), AllocError>
    requires { are_sorted places.old.items ≡ true }
    ensures state { OnOk result (pending_state (tree_of places.new.items) (map (λ c. c.now) pending.new.items) ≡ state_after (pending_state (tree_of places.old.items) (map (λ c. c.now) pending.old.items)) effect.now) }
    ensures sorted { are_sorted places.new.items ≡ true }
{
    match effect {
        Effect::Same => {}
        Effect::Changed(change) => pending.push(change)?,
        Effect::Settled => {
            apply_all(alloc, places, pending)?;
            pending.clear();
        }
    }
    Ok(())
}

/// Brings the places to the last settled map, and gives the changes made since then.
fn pending_of<'a>(
    alloc: Global,
    places: &mut Vec<(String, Node)>,
    effects: &'a Vec<Effect>,
) -> Result<Vec<&'a Change>, AllocError>
    requires { are_sorted places.old.items ≡ true }
    ensures state { IfOk result (λ p. states_by (settled_state (tree_of places.old.items)) effects.now.items ≡ pending_state (tree_of places.new.items) (map (λ c. c.now) p.items)) }
    ensures sorted { are_sorted places.new.items ≡ true }
{
    let mut pending = Vec::new(alloc);
    for i in 0..effects.len() {
        step(alloc, places, &mut pending, &effects[i])?;
    }
    Ok(pending)
}

/// Brings the places to what a stop leaves: the last settled map, with the first `kept` of the changes
/// made since and the bytes `torn` in the files that they put.
#[tactic(auto, using(crate::proofs::ImageLaws::left_at))]
pub(crate) fn leave(
    alloc: Global,
    places: &mut Vec<(String, Node)>,
    effects: &Vec<Effect>,
    kept: u64,
    torn: &[u8],
) -> Result<(), AllocError>
    requires { are_sorted places.old.items ≡ true }
    ensures left { OnOk result (tree_of places.new.items ≡ image_at (states_by (settled_state (tree_of places.old.items)) effects.now.items) kept torn.now) }
    ensures sorted { are_sorted places.new.items ≡ true }
{
    let pending = pending_of(alloc, places, effects)?;
    apply_each_torn(alloc, places, first_changes(&pending, kept), torn)?;
    Ok(())
}
