//! The commands of the program, over any tree and any sinks.
//!
//! This layer promises: `run_words` returns for every list of words; each status comes exactly where
//! it is due, with its one line; at status 0 the command is done, and at every other status what was
//! written is said.
//! It does not promise: what a real file system or terminal does (`file_tree`).
//! Read first: `specs/Built.antt`, `specs/Edits.antt`, `specs/Splits.antt`, `specs/Shows.antt`,
//! `specs/Unstrips.antt`, `specs/Runs.antt`.
//!
//! # Example
//!
//! ```
//! // What `show in` prints of the file `in` of a tree in memory, and the status of that.
//! let mut tree = MemTree::new(alloc, nodes)?;
//! let mut out = MemSink::new(alloc, 1000, None)?;
//! let mut err = MemSink::new(alloc, 1000, None)?;
//! let status = run_words(alloc, &words, &mut tree, &mut out, &mut err);
//! ```
#![tactic(auto)]

pub mod built;
pub mod edit;
pub mod exercise;
pub mod gather;
pub mod run;
pub mod run_root;
pub mod show;
mod sources;
pub mod split;
pub mod unstrip;
mod views;

pub use run::run_words;
