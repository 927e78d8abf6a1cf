//! A small judge of files, by which whole runs are tried.
//!
//! This layer promises: a file says by its first bytes what becomes of it, so the layer above any judge is tried at this one. The
//! tests are those of `run_cases`; what words, files and a status alone say of a plan stands in `cases/`.
//! Read first: `toy.rt`.
#![tactic(auto)]

mod toy;

pub use toy::Toy;
