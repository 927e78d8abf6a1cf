//! The texts of the work folder, by which a run over a build root survives any stop: `plan`, what the
//! run does, and `finished`, that it is done (this project's profile).
//!
//! **This layer promises**: a plan is written as its text, of version 2; bytes are read exactly where
//! they are the text, of version 1 or 2, of a value that meets the rules, and then as that value; else
//! the answer has the place of the first bad field. Of two keys it names the first part that differs.
//! It does not promise: where the texts lie, and when they are put there; the crates above say that.
//! Read first: `specs/Fields.antt`, `specs/Rules.antt`, `specs/BadFields.antt`.
//!
//! ```rust
//! let text = write_plan(alloc, &plan)?;
//! let kept = read_plan(alloc, &text)?;
//! check_key(alloc, &kept.key, &plan.key)?;
//! ```
#![tactic(auto)]

mod compare;
mod digits;
mod fields;
mod journal_err;
mod key;
mod laws;
mod numbers;
mod paths;
mod plan;
mod read;
mod reading;
mod stop;
mod writing;

pub use compare::check_key;
pub use journal_err::{JournalErr, WorkFile};
pub use key::RunKey;
pub use laws::{
    finished_places, finished_shorter, finished_values, plan_places, plan_texts, plan_values,
};
pub use plan::{FinishedData, JobLine, Jobs, PlanData, PlannedSources};
pub use read::{read_finished, read_plan};
pub use reading::TEXT_LIMIT;
pub use writing::{write_finished, write_plan};
