//! Worked cases of the commands: words, files that are edited, split, joined and shown by calls, and whole runs over trees in memory,
//! also such as a call that fails ends.
//!
//! This layer promises: each case ends as it says, by the rules and the expected values of other programs. It is a crate of its own, so
//! that the functions of the commands' crates aren't proved a second time with their tests. What words, files and a status alone say
//! of a command stands in `cases/`.
//! Read first: `runs.rt`.
#![tactic(auto)]

ghost use Rattle.std.specs.Prelude.{◌≤◌, length, OnOk};
ghost use Rattle.dw_base.specs.Layout.{output_limit};

use dbg_job::{Options, Outcome, outcome};
use dw_base::{Fault, OUTPUT_LIMIT};
use std::alloc::Global;

#[cfg(test)]
mod edits;
#[cfg(test)]
mod gathers;
#[cfg(test)]
mod outcomes;
#[cfg(test)]
mod output_order;
#[cfg(test)]
mod pairs;
#[cfg(test)]
mod runs;
#[cfg(test)]
mod shows;
#[cfg(test)]
mod words;

/// What becomes of a file, of which the debug file has this name; no memory where the file is longer than any that is written.
pub fn become_of(
    alloc: Global,
    bytes: &[u8],
    options: &Options,
    name: &[u8],
) -> Result<Outcome, Fault>
    ensures small { OnOk result (length bytes.now ≤ output_limit) }
{
    if bytes.len() as u64 > OUTPUT_LIMIT {
        return Err(Fault::NoMemory);
    }
    outcome(alloc, bytes, options, name)
}
