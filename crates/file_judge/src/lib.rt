//! The judge of the files of a build root: what a plan says of them, and what its jobs make of them, by the edit and the split
//! of one file.
//!
//! This layer promises: it says of a file what becomes of it, refuses only by a row that holds, and makes what it says: the edited
//! file, and the pair that this is split into. Of each file it says and makes one thing alone. The nodes that a job makes mean what
//! its file means, with each source path mapped, and keep what is loaded of it.
//! It does not promise: which files are judged, and where outputs come to stand (`root_plan`).
//! Read first: `specs/FileJudges.antt`, then `specs/KeptNodes.antt`.
//!
//! ```
//! let judge = FileJudge::new(&options);
//! let plan = make_plan(alloc, &mut tree, "root", &paths, &options, &judge)?;
//! ```
#![tactic(auto)]

mod judge;
mod laws;

pub use judge::FileJudge;
pub use laws::judge_laws;
