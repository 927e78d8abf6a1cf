//! A run over a build root as a whole, from a start to its report (this project's profile).
//!
//! **This layer promises**, of `run_root`, over any tree and any judge: whatever it answers, at every moment of the call a
//! stop leaves the run partway; where it gives a report the run is done, and the tree is one that knows of no stops; and each
//! end has its cause.
//! It does not promise: what a judge says of a file.
//! Read first: `specs/Wholes.antt`, `specs/Partways.antt`, `specs/Finals.antt`, `specs/RunEnds.antt`.
//!
//! ```
//! let report = run_root(alloc, &mut tree, "root", &options, judge, 16)?;
//! ```
#![tactic(auto)]

mod run_err;
mod running;
mod starting;
mod ways;

pub use run_err::RunErr;
pub use running::run_root;
pub use ways::{Texts, clear_finished, first_core, renew_finished, texts_of};
