//! The source files that the debug data of a file name (DWARF 5, 3.1.1 and 6.2.4).
//!
//! This layer promises: the names are those of the paths of all units and of the files in the headers of their
//! line tables, of those below a base of a prefix map, with the longest such base cut off, in byte order and each once, none with a NUL; it is refused only
//! where the units, their abbreviations, the string offsets or the line tables can't be read.
//! It does not promise: that the files are there. A value that names no text, no slot or no line table, or whose
//! offset a relocation refuses, is passed over; whether there is one is for the crates that read a file whole.
//! Read first: `specs/Sources.antt`, `specs/UnitPaths.antt`, then `specs/KeptNames.antt`.
//!
//! # Example
//!
//! ```
//! let elf = ElfFile::read(alloc, &bytes)?;
//! let view = View::one(&elf)?;
//! let maps = Maps::new(alloc, b"/build/p", b"/usr/src/debug/p")?.ok_or("no map")?;
//! for name in sources(alloc, &view, &maps)? {
//!     // the name of a source below /build/p, without that and a slash
//! }
//! ```
#![tactic(auto)]

mod fronts;
mod laws;
mod listing;
mod name_set;
mod names;
mod offsets;
mod paths;
mod roots;
mod tables;
mod texts;
mod units;

pub use dw_base::{Fault, Kind, Refusal};
pub use laws::source_laws;
pub use listing::{sources, sources_by_tables};
