//! The real file system as a tree, and a real writer as a sink.
//!
//! This layer promises: a call fails only where its count of faults rose, want of memory is no fault, and what is found is
//! within the limits and in order.
//! It does not promise: what the system keeps. A tree and a sink of this crate tell nothing of what they hold.
//!
//! ```
//! let mut tree = OsTree::new(&rt);
//! let mut out = OsSink::new(rt.stdout());
//! ```
//!
//! Read first: `src/tree.rt`, then `src/looks.rt` and `src/changes.rt`.
#![tactic(auto)]

mod changes;
mod folders;
mod looks;
mod sink;
mod stores;
mod tree;

pub use sink::OsSink;
pub use tree::OsTree;
