//! Files with mapped source paths: what an edit makes of a file.
//!
//! This layer promises: a file of either class and byte order is refused only by a condition that holds
//! in it, at its place; want of memory aside, every other file is rewritten, and the output is the
//! defined one, byte for byte. It means what the file means, with each source path mapped once, and what
//! is loaded of it is as it was.
//! It does not promise: anything of how the file came from disk, or goes back to it.
//! Read first: `dw_meaning/specs/EditRows.antt`, `dw_meaning/specs/FileMeanings.antt` and
//! `dw_meaning/specs/DataOutput.antt`.
//!
//! # Example
//!
//! ```
//! // The prefix of the build's paths, and the one where the sources are installed.
//! if let Some(maps) = Maps::new(alloc, b"/build/p", b"/usr/src/debug/p")? {
//!     let Rewritten { file, .. } = rewrite(alloc, &bytes, &maps)?;
//!     // One slice behind another.
//!     let slices = file.slices(alloc)?;
//! }
//! ```
#![tactic(auto)]

mod bodies;
mod change;
mod file;
mod inline;
mod line_records;
mod lines;
mod loaded_sections;
mod new_offsets;
mod new_places;
mod new_sections;
mod records;
mod refusal;
mod sources;
mod starts;
mod tables;

pub use file::{Rewritten, rewrite};
