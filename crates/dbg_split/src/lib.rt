//! A file split in two: one without debug data and symbols that still runs, and a debug file to which it
//! links (GNU debugging information in separate files; this project's profile of it).
//!
//! This layer promises: the stripped file and the debug file are the defined ones, byte for byte; both read
//! back, with their sections by number, name and contents, and together have the sections of the file and
//! mean what it means; what is loaded is kept; a file is refused only by a row that holds, at its place, and
//! split where none does, want of memory aside. Whether a file can be split is said without making the two (`check_split`).
//! `droppable` takes no memory.
//! It does not promise: what another program makes of the two.
//! Read first: `specs/Droppable.antt`, then `StrippedFile.antt`, `DebugFile.antt`, `StrippedReads.antt`,
//! `DebugFileReads.antt`, `PairViews.antt`, `PairMeanings.antt`, `SplitFails.antt`.
//!
//! ```rust
//! // bytes.len() as u64 <= OUTPUT_LIMIT
//! let pair = split(alloc, bytes, b"prog.debug")?;
//! // pair.debug.slices(alloc)? are the bytes of the debug file, one slice behind another
//! ```
#![tactic(auto)]

mod debug_file;
mod dropping;
mod judging;
mod marking;
mod measuring;
mod names;
mod read_names;
mod splitting;
mod stripping;

pub use dropping::droppable;
pub use elf_layout::Pieces;
pub use marking::droppables;
pub use names::{is_named, is_named_from};
pub use splitting::{Pair, check_split, split};
