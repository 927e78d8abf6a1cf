//! The outside of the program: trees of files, and sinks for what it prints.
//!
//! This layer promises: what each call of a tree or a sink does and why it may fail (`Tree`, `Sink`),
//! kept in full by `MemTree` and `MemSink`, which tell what they hold.
//! It does not promise: what a tree or a sink holds that tells nothing of it.
//!
//! ```
//! let mut tree = MemTree::new(alloc, Vec::new(alloc))?;
//! let bytes = Blob::from_slice(alloc, b"text")?;
//! tree.put("folder/file", &Node::File { bytes, mode: 0o644 })?;
//! tree.settle()?;
//! let found = tree.read("folder/file", 100)?;
//! // found is Found::File with these bytes and this mode, and tree.calls() are three
//! ```
//!
//! Read first: `specs/Seen.antt`, then `src/tree.rt`; for stops `specs/Images.antt`, `specs/Moments.antt`.
#![tactic(auto)]

mod call;
mod laws;
mod log;
mod looks;
mod mem_sink;
mod mem_tree;
mod node;
mod places;
mod sink;
mod sorts;
mod stops;
mod text;
mod tree;

pub use call::{Call, Change, Effect};
pub use laws::{image_laws, moment_laws};
pub use mem_sink::MemSink;
pub use mem_tree::MemTree;
pub use node::{Found, Listed, Node, TreeErr};
pub use sink::{Sink, SinkErr};
pub use text::{Blob, Paths, Text};
pub use tree::Tree;
