//! A stripped file and its debug file joined to one (GNU debugging information in separate files; this
//! project's profile of it).
//!
//! This layer promises: the file is the defined one, byte for byte: it has the sections of the debug file, with
//! their numbers and names, and those that the stripped file has kept have its bytes; what is loaded stays where the
//! stripped file has it. The two aren't joined exactly where they are no pair, the stripped file isn't of type EXEC or
//! DYN, they don't match, or the file would be too long, and then the answer says so; want of memory aside. A file that
//! was split comes back: its sections, but for their places, its meaning, and what is loaded of it.
//! It does not promise: that two files that were made by other programs match.
//! Read first: `specs/Matching.antt`, then `Joined.antt`, `UnstripFails.antt`, `Rejoined.antt`.
//!
//! ```rust
//! // Segments of the stripped file end in it after `read`; those of a debug file count for nothing.
//! let stripped = ElfFile::read(alloc, stripped_bytes)?;
//! let debug = ElfFile::read_debug(alloc, debug_bytes)?;
//! let file = unstrip(alloc, &stripped, &debug, b"prog.debug")?;
//! // file.slices(alloc)? are the bytes of the file, one slice behind another
//! ```
#![tactic(auto)]

mod joining;
mod kept;
mod matching;
mod pairing;
mod unstrip_err;
mod unstripping;

pub use dw_base::{Kind, Refusal};
pub use dw_view::Mismatch;
pub use elf_layout::Pieces;
pub use unstrip_err::UnstripErr;
pub use unstripping::unstrip;
