//! How a command ends: its status, its line on the error sink, and the steps that commands share.
//!
//! This layer promises: each end has one status and one line; the line goes to the error sink, and at
//! status 0 that sink isn't called; files are read and written as the trait `Tree` says, and each end
//! of a step has its cause.
//! It does not promise: when a command comes to an end, which `dbg_run` states; that a line goes out in
//! one call of `write`.
//! Read first: `specs/Ends.antt`, `specs/Steps.antt`, `specs/Due.antt`.
//!
//! # Example
//!
//! ```
//! // The steps of a command that copies a file; each ends it where it can't be done.
//! fn copied<T: Tree>(alloc: Global, limit: u64, tree: &mut T) -> Result<(), End> {
//!     let (bytes, mode) = read_input(alloc, "in", limit, tree)?;
//!     free_output(alloc, "out", tree)?;
//!     write_in_pieces("out", &[bytes.as_slice()], mode, tree)?;
//!     Ok(())
//! }
//!
//! // Its status; the line of its end goes to the error sink.
//! let end = match copied(alloc, limit, &mut tree) {
//!     Ok(()) => End::Done,
//!     Err(end) => end,
//! };
//! let status = tell(alloc, &end, &mut err);
//! ```
#![tactic(auto)]

pub mod end;
pub mod fault;
pub mod input;
pub mod line;
mod looking;
pub mod output;
pub mod telling;

pub use end::End;
pub use fault::fault_end;
pub use input::read_input;
pub use output::{free_output, write_in_pieces, write_pieces};
pub use telling::tell;
