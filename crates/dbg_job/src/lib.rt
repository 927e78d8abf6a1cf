//! One file's job: the edited file by all options, and what becomes of a file of a build root.
//!
//! This layer promises: the edited file is the defined one, with mapped paths and, where it is asked for, a new
//! build-id; a file is left exactly where a rule says so, and else edited, and split where it is one that is
//! loaded; it is refused only by a row that holds, at its place, and never where none does, want of memory
//! aside. The outputs mean what the file means, with each source path mapped once, and what is loaded is kept. Beside an
//! edited file stand the line tables that were read for it, of which the list of its sources is made. What becomes of a
//! file is said without making it, too (`verdict`).
//! It does not promise: that an id tells two files apart.
//! Read first: `specs/EditedFiles.antt`, `specs/NewIds.antt`, then `specs/Leaving.antt`, `specs/Outcomes.antt`.
//!
//! ```
//! // bytes.len() as u64 <= OUTPUT_LIMIT
//! match outcome(alloc, &bytes, &options, b"prog.debug")? {
//!     Outcome::Left(why) => skip(why),
//!     Outcome::Edited { bytes, .. } => put(bytes),
//!     Outcome::Split { stripped, debug, .. } => put_both(stripped, debug),
//! }
//! ```
#![tactic(auto)]

mod editing;
mod judging;
mod laws;
mod leaving;
mod naming;
mod new_ids;
mod outcomes;

pub use dw_rewrite::Rewritten;
pub use editing::edited;
pub use job_types::{LeftWhy, Options, Outcome, Sources, Verdict};
pub use laws::outcome_laws;
pub use naming::source_names;
pub use outcomes::{outcome, verdict};
