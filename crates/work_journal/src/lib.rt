//! The journal of a run over a build root: a run that may be stopped at any moment and started again,
//! over any tree and any maker of files.
//!
//! This layer promises: a desk changes its tree only by events that the core of the run allows, one call
//! an event; and whatever calls keep to that, also one that failed, leave the run partway at every moment,
//! with each output as it was or whole.
//! It does not promise: what a maker makes, or what a real disk keeps.
//!
//! ```
//! let mut desk = Desk::new(&mut tree, Core::new(alloc, steps)?);
//! desk.put(Event::Propose, "root/.dbgwork/plan.new", &node)?;
//! desk.settle()?;
//! let tree = desk.into_tree();
//! ```
//!
//! Read first: `specs/Wanted.antt`, `specs/Keeps.antt`, `specs/Runs.antt`.
#![tactic(auto)]

mod clearing;
mod closing;
mod desk;
mod finishing;
mod groups;
mod job_err;
mod jobs;
mod law;
mod maker;
mod names;
mod opening;
mod planning;
mod renewing;
mod rounds;
mod running;
mod starting;
mod steps;
mod sweeping;
mod taking;

pub use clearing::clear;
pub use desk::Desk;
pub use finishing::{finish, resume};
pub use law::bridge_laws;
pub use maker::{MakeErr, Maker};
pub use opening::{Opened, open_work};
pub use planning::commit_plan;
pub use renewing::renew;
pub use running::run_jobs;
pub use starting::{shown, start_core};
pub use work_texts::JournalErr;
