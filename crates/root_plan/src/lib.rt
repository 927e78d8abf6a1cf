//! The plan of a run over a build root: its files, what becomes of each, and where the outputs come to
//! stand (this project's profile).
//!
//! **This layer promises**: `walk` answers all paths below a root, or why it has no plan. Over any judge of
//! files: `make_plan` answers the plan of a root, path by path in byte order, or at which path and why there
//! is none, and `RootMaker` is a maker of a journal whose jobs are a plan's, with its lists.
//! It does not promise: what a judge says.
//! Read first: `root_paths/specs/Roots.antt`, `specs/Tallies.antt`, `specs/Targets.antt`, `specs/Plans.antt`.
//!
//! ```
//! let paths = walk(&mut tree, "root")?;
//! let plan = make_plan(alloc, &mut tree, "root", &paths, &options, &judge)?;
//! let maker = RootMaker::new(alloc, "root", plan, judge)?;
//! ```
#![tactic(auto)]

mod judge;
mod lists;
mod nodes;
mod noting;
mod plan_err;
mod planning;
mod refused;
mod report;
mod root_maker;
mod survey;
mod surveying;
mod targets;
mod walking;

pub use judge::{Judge, Parts};
pub use lists::source_list;
pub use nodes::{digest_of, has_digest};
pub use plan_err::PlanErr;
pub use planning::{in_order, make_plan, run_key};
pub use root_maker::{RootMaker, job_of};
pub use root_paths::work_folder;
pub use survey::edited_job;
pub use walking::walk;
