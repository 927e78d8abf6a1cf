//! The calls of a tree, and what a call did, as values.
//!
//! What a tree tells of its past is a list of these: `specs/Seen.antt`.
ghost use Rattle.std.specs.Prelude.{◌≡◌, IfOk, count_by};
ghost use Rattle.file_tree.specs.Seen.{is_settle};

use crate::node::Node;
use crate::text::Text;
use std::alloc::{AllocError, Global};

/// A call of a tree.
#[derive(Drop, Debug)]
pub enum Call {
    List(Text),
    Read(Text),
    Put(Text),
    Rename { from: Text, to: Text },
    Remove(Text),
    Settle,
}

/// One change of the map from paths to nodes.
#[derive(Drop, Debug)]
pub enum Change {
    /// The path holds the node.
    Put { path: Text, node: Node },
    /// The node at `from` stands at `to`, in place of what was there. Nothing where `from` isn't there.
    Move { from: Text, to: Text },
    /// The path isn't there.
    Take { path: Text },
}

impl Call {
    /// Whether it asks the tree to settle.
    pub fn is_settle(&self) -> bool
        ensures value { result ≡ is_settle self.now }
    {
        matches!(self, Call::Settle)
    }
}

/// How many of the calls ask the tree to settle.
pub(crate) fn settles_in(calls: &Vec<Call>) -> usize
    ensures { result ≡ count_by is_settle calls.now.items }
{
    calls.iter().filter(|call| call.is_settle()).count()
}

impl Change {
    /// The path holds a copy of the node.
    pub fn put(alloc: Global, path: &str, node: &Node) -> Result<Change, AllocError>
        ensures value { IfOk result (λ c. c ≡ Change.Put path.now node.now) }
    {
        let path = Text::copy_of(alloc, path)?;
        let node = node.copied(alloc)?;
        Ok(Change::Put { path, node })
    }
}

/// What a call did to a tree.
#[derive(Drop, Debug)]
pub enum Effect {
    /// Nothing.
    Same,
    /// One change, which isn't stored yet.
    Changed(Change),
    /// All changes made so far are stored.
    Settled,
}
