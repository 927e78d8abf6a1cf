//! What a read or a list of a tree in memory gives.
//!
//! Read first: `specs/Trees.antt`, `specs/Logs.antt`.
ghost use Rattle.std.specs.Prelude.{◌≡◌, [], ◌∷◌, ◌++◌, map, true, IfOk, Bool, Some, filter};
ghost use Rattle.std.specs.String.{string_bytes};
ghost use Rattle.std.specs.List.{list_any};
ghost use Rattle.file_tree.specs.Trees.{is_below, found_of, stands_at, listed_at};
ghost use Rattle.file_tree.specs.Causes.{IsWithin, IsListed};
ghost use Rattle.file_tree.specs.Logs.{paths_of, tree_of, are_sorted};

use crate::node::{Found, Listed, Node};
use crate::places::node_at;
use crate::text::Paths;
use std::alloc::{AllocError, Global};

/// What a read gives of a node.
fn found_in(alloc: Global, node: &Node, limit: u64) -> Result<Found, AllocError>
    ensures found { IfOk result (λ f. (below : Bool) → f ≡ found_of (Some node.now) below limit) }
    ensures within { IfOk result (IsWithin limit) }
{
    match node {
        Node::File { bytes, mode } => {
            if bytes.len() as u64 <= limit {
                let bytes = bytes.copied(alloc)?;
                Ok(Found::File { bytes, mode: *mode })
            } else {
                let size = bytes.len() as u64;
                Ok(Found::TooLarge { size })
            }
        }
        Node::Link { target } => {
            let target = target.copied(alloc)?;
            Ok(Found::Link { target })
        }
    }
}

/// The folder and a slash.
fn with_slash(alloc: Global, folder: &str) -> Result<String, AllocError>
    ensures { IfOk result (λ s. string_bytes s ≡ folder.now ++ 47 ∷ []) }
{
    let mut below = String::from_str(alloc, folder)?;
    below.push_str("/")?;
    Ok(below)
}

/// Whether one of the paths lies below the folder.
fn has_below(alloc: Global, places: &Vec<(String, Node)>, folder: &str) -> Result<bool, AllocError>
    ensures { IfOk result (λ b. b ≡ list_any (is_below folder.now) (paths_of places.now.items)) }
{
    let below = with_slash(alloc, folder)?;
    for i in 0..places.len() {
        let path = places[i].0.as_bytes();
        if path.starts_with(below.as_bytes()) {
            return Ok(true);
        }
    }
    Ok(false)
}

/// The paths below the folder, in their order.
fn paths_below(
    alloc: Global,
    places: &Vec<(String, Node)>,
    folder: &str,
) -> Result<Vec<String>, AllocError>
    ensures { IfOk result (λ v. map string_bytes v.items ≡ filter (is_below folder.now) (paths_of places.now.items)) }
{
    let below = with_slash(alloc, folder)?;
    let mut paths = Vec::new(alloc);
    for i in 0..places.len() {
        let path = places[i].0.as_bytes();
        if path.starts_with(below.as_bytes()) {
            let path = places[i].0.clone()?;
            paths.push(path)?;
        }
    }
    Ok(paths)
}

/// What a read gives of the path.
#[tactic(auto, using(crate::proofs::LookLaws::stands_tree, crate::proofs::LookLaws::stands_found))]
pub(crate) fn look(
    alloc: Global,
    places: &Vec<(String, Node)>,
    path: &str,
    limit: u64,
) -> Result<Found, AllocError>
    requires { are_sorted places.now.items ≡ true }
    ensures stands { IfOk result (λ f. stands_at (tree_of places.now.items) path.now limit ≡ f) }
    ensures within { IfOk result (IsWithin limit) }
{
    match node_at(places, path) {
        Some(node) => {
            let found = found_in(alloc, node, limit)?;
            Ok(found)
        }
        None => {
            let below = has_below(alloc, places, path)?;
            if below {
                Ok(Found::Folder)
            } else {
                Ok(Found::Absent)
            }
        }
    }
}

/// What a list gives of the folder.
#[tactic(auto, using(crate::proofs::LookLaws::listed_few, crate::proofs::LookLaws::listed_many, crate::proofs::LookLaws::listed_in_order))]
pub(crate) fn list_in(
    alloc: Global,
    places: &Vec<(String, Node)>,
    folder: &str,
    limit: u64,
) -> Result<Listed, AllocError>
    requires { are_sorted places.now.items ≡ true }
    ensures lists { IfOk result (λ l. listed_at (tree_of places.now.items) folder.now limit ≡ l) }
    ensures order { IfOk result (IsListed limit) }
{
    let paths = Paths::new(paths_below(alloc, places, folder)?);
    if paths.len() as u64 <= limit {
        Ok(Listed::Paths(paths))
    } else {
        Ok(Listed::TooMany)
    }
}
