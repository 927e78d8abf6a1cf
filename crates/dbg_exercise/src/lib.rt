//! Exercises: a generated file is rewritten, and what the output means is counted. This project's profile.
//!
//! This layer promises: the counts of units, entries and rows that are told of a seed and a number of units are those of what the output
//! of the generated file means, which is read anew for that, and the lengths are those of both files; only memory can be wanting.
//! It does not promise: how long it takes.
//! Read first: `specs/Exercises.antt`, then `specs/ViewCounts.antt`.
//!
//! # Example
//!
//! ```
//! // The same seed and number of units say the same.
//! let summary = exercise(alloc, 0, 1)?;
//! let text = summary.text(alloc)?;
//! ```
#![tactic(auto)]

mod counting;
mod counts;
mod exercising;
mod output;
mod reading;
mod summary;

pub use counts::Counts;
pub use exercising::exercise;
pub use summary::Summary;
