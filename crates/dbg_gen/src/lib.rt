//! Files of debug data, made from a seed: a whole program's input, without a compiler. This project's profile.
//!
//! This layer promises: a file that is generated is the defined one, byte for byte.
//! It does not promise: anything of what its units describe; no code stands in it.
//! Read first: `specs/GeneratedFiles.antt`.
//!
//! ```rust
//! // The same seed and number of units give the same file.
//! let file = generate(alloc, 7, 100)?;
//! ```
#![tactic(auto)]

mod counts;
mod file;
mod lines;
mod texts;
mod units;

pub use file::generate;
