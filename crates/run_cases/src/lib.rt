//! Runs over a small build root in memory by a toy judge: stopped at each call, and started again.
//!
//! This layer promises: each run ends as its case says, by values of another program that was written from the same rules. It is a crate
//! of its own, so that the functions of `root_run` aren't proved a second time with their tests.
//! Read first: `roots.rt`, `stops.rt`.
#![tactic(auto)]

mod ends;
#[cfg(test)]
mod renewals;
#[cfg(test)]
mod roots;
#[cfg(test)]
mod runs;
#[cfg(test)]
mod stops;

pub use ends::is_tree_fault;
