//! The sources that a run over a build root listed, copied into the root (this project's profile).
//!
//! **This layer promises**: whatever `gather` answers, at every moment of the call a stop leaves the gather partway; at `Ok` each
//! listed name that is a file below the folder of sources has its copy, and all other paths but the work folder's are as before. Each
//! end has its cause, and comes wherever its cause holds.
//! It does not promise: that a list is of the run whose root it lies in.
//! Read first: `specs/Listed.antt`, `specs/Gathering.antt`, `specs/GatherEnds.antt`, `specs/Partways.antt`.
#![tactic(auto)]

mod copying;
mod gather_err;
mod gathering;
mod names;
mod noting;
mod path_ends;
mod planning;
mod starting;

pub use gather_err::GatherErr;
pub use gathering::gather;
