//! Nodes brought into byte order of their paths, and copies of them.
//!
//! Read first: `specs/Logs.antt`.
ghost use Rattle.std.specs.Prelude.{◌≡◌, true, IfOk};
ghost use Rattle.file_tree.specs.Logs.{entries_of, tree_of, are_sorted};

use crate::node::Node;
use crate::places::put_node;
use std::alloc::{AllocError, Global};

/// The nodes in byte order of their paths; of a path that stands twice, the first.
#[tactic(auto, using(crate::proofs::SortLaws::sort_laws))]
pub(crate) fn sorted(
    alloc: Global,
    mut nodes: Vec<(String, Node)>,
) -> Result<Vec<(String, Node)>, AllocError>
    ensures tree { IfOk result (λ v. tree_of v.items ≡ tree_of nodes.items) }
    ensures order { IfOk result (λ v. are_sorted v.items ≡ true) }
{
    let mut places = Vec::new(alloc);
    while let Some((path, node)) = nodes.pop() {
        places.reserve(1)?;
        put_node(&mut places, path, node);
    }
    Ok(places)
}

/// A copy.
pub(crate) fn copies(
    alloc: Global,
    places: &Vec<(String, Node)>,
) -> Result<Vec<(String, Node)>, AllocError>
    ensures { IfOk result (λ v. entries_of v.items ≡ entries_of places.now.items) }
{
    let mut copy = Vec::new(alloc);
    for i in 0..places.len() {
        let path = places[i].0.clone()?;
        let node = places[i].1.copied(alloc)?;
        copy.push((path, node))?;
    }
    Ok(copy)
}
