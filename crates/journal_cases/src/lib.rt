//! Worked cases of trees, of the core of a run, of the texts of a work folder, and of runs over trees in memory that are stopped after
//! each call.
//!
//! This layer promises: each case ends as it says, by values that were written by hand from the rules. It is a crate of its own, so
//! that the functions of `file_tree`, `journal_core`, `work_texts` and `work_journal` aren't proved a second time with their tests.
//! Read first: `runs.rt`.
#![tactic(auto)]

#[cfg(test)]
mod events;
#[cfg(test)]
mod odd_files;
#[cfg(test)]
mod runs;
#[cfg(test)]
mod texts;
mod toy;
#[cfg(test)]
mod trees;

pub use toy::Toy;
