//! The types of a job: the options that a user gives, and what becomes of one file.
//!
//! This layer has the words that the commands over one file and over a build root share: the options, why a
//! file is left, what a job makes of one and what is said of it before, the mode of a debug file, and how a
//! kind of refusal is printed. It promises of options that their map is one, and that their limit on files is
//! within the most that may be asked for. It makes nothing; `dbg_job` does, and what needs these words alone
//! doesn't wait for that.
//! Read first: `specs/Settings.antt`.
//!
//! ```
//! let maps = Maps::new(alloc, b"/build/p", b"/usr/src/debug/p")?.ok_or("no map")?;
//! let options = Options {
//!     maps,
//!     build_id: false,
//!     seed: Blob::new(Vec::new(alloc)),
//!     skip: false,
//!     max_file: MOST_FILE,
//! };
//! ```
#![tactic(auto)]

mod kinds;
mod modes;
mod options;
mod outcome;

pub use kinds::kind_name;
pub use modes::not_executable;
pub use options::{MOST_FILE, Options};
pub use outcome::{LeftWhy, Outcome, Sources, Verdict};
