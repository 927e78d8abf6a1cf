//! The links of nodes to their first children and next siblings, from the last node to the first.
//!
//! Read first: `specs/LinkedNodes.antt`, `specs/NextNodes.antt`.

ghost use Rattle.std.specs.Prelude.{◌≡◌, ◌+◌, ◌<◌, ◌≤◌, ◌^◌, length, slice_set, IfOk};
ghost use Rattle.entry_arena.specs.LinkedNodes.{linked_from, linked_nodes, with_links};
ghost use Rattle.entry_arena.specs.NextNodes.{next_known, with_next};
ghost use Rattle.entry_arena.specs.Shapes.{node_at};

use crate::arena::EntryNode;
use crate::scanning::ScannedNodes;
use std::alloc::{AllocError, Global};

/// The node that comes next in a depth, where one does.
fn next_known(next: &[Option<u32>], depth: usize) -> Option<u32>
    ensures known { result ≡ next_known next.now depth }
{
    if depth < next.len() {
        return next[depth];
    }
    None
}

/// What comes next in front of a node: itself in its depth, and nothing in deeper ones.
#[tactic(auto, using(crate::proofs::KnownLaws::known_laws))]
fn with_next(
    mut next: Vec<Option<u32>>,
    depth: usize,
    number: u32,
) -> Result<Vec<Option<u32>>, AllocError>
    ensures next { IfOk result (λ v. v.items ≡ with_next number depth next.items) }
{
    next.truncate(depth);
    'room: while next.len() < depth {
        next.push(None)?;
    }
    next.push(Some(number))?;
    Ok(next)
}

/// A node with links.
fn with_links(node: &EntryNode, first_child: Option<u32>, next_sibling: Option<u32>) -> EntryNode
    ensures links { result ≡ with_links node.now first_child next_sibling }
{
    EntryNode {
        offset: node.offset,
        tag: node.tag,
        code: node.code,
        parent: node.parent,
        first_child,
        next_sibling,
    }
}

/// Links the node of a number.
fn link_node(nodes: &mut [EntryNode], number: usize, next: &[Option<u32>], depth: u32)
    requires inside { number < length nodes.old }
    ensures linked { nodes.new ≡ slice_set nodes.old number (with_links (node_at nodes.old number) (next_known next.now (depth + 1)) (next_known next.now depth)) }
{
    let depth = depth as usize;
    let first_child = next_known(next, depth + 1);
    let next_sibling = next_known(next, depth);
    nodes[number] = with_links(&nodes[number], first_child, next_sibling);
}

/// The nodes with their links.
#[tactic(auto, using(crate::proofs::NextLaws::link_laws))]
fn link_all(
    alloc: Global,
    mut nodes: Vec<EntryNode>,
    mut depths: Vec<u32>,
) -> Result<Vec<EntryNode>, AllocError>
    requires same { length nodes.items ≡ length depths.items }
    requires few { length nodes.items ≤ 2 ^ 31 }
    ensures linked { IfOk result (λ v. v.items ≡ linked_from 0 nodes.items depths.items) }
{
    let mut next: Vec<Option<u32>> = Vec::new(alloc);
    'nodes: while let Some(depth) = depths.pop() {
        let number = depths.len();
        link_node(&mut nodes, number, next.as_slice(), depth);
        next = with_next(next, depth as usize, number as u32)?;
    }
    Ok(nodes)
}

/// The same, of nodes that know their parents.
pub(crate) fn linked_nodes(
    alloc: Global,
    scanned: ScannedNodes,
) -> Result<Vec<EntryNode>, AllocError>
    requires same { length scanned.nodes ≡ length scanned.depths }
    requires few { length scanned.nodes ≤ 2 ^ 31 }
    ensures linked { IfOk result (λ v. v.items ≡ linked_nodes scanned) }
{
    let ScannedNodes {
        nodes,
        depths,
        above: _,
    } = scanned;
    link_all(alloc, nodes, depths)
}
