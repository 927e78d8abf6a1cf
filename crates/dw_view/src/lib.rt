//! The view of a file: the sections from which its debug data are read, by number and by name (gABI ch. 4
//! "Sections"; DWARF 5, Appendix B); and that of a stripped file and its debug file (GNU debugging information
//! in separate files).
//!
//! This layer promises: a file has a view only where its type, the names and flags of its sections, and the
//! relocations of those that are read are ones that are handled, and then its sections, their names and their
//! bytes are the file's, and a field or an address is what its bytes and the relocation at it say; it is refused
//! only by a condition of the kinds `Compressed`, `Supplementary`, `SplitDwarf`, `UnknownDebug`, `Twice`,
//! `FileType` and `Relocation` that holds, at its place. A section of a name is the first that has it and bytes, and the
//! sections of a name that is read are all that do. A pair has a view only where the link has the debug file's name
//! and sum, and where it hasn't that is the answer.
//! It does not promise: anything of what the sections hold.
//! Read first: `dw_base/specs/ViewFails.antt`, then `dw_base/specs/FileViews.antt`,
//! `specs/PairViews.antt`, `specs/Pairs.antt`.
//!
//! # Example
//!
//! ```
//! let elf = ElfFile::read(alloc, bytes)?;
//! let view = View::one(&elf)?;
//! if let Some(section) = view.first(DebugSection::Info) {
//!     let units = view.bytes(section);
//! }
//! ```
#![tactic(auto)]

mod fields;
mod firsts;
mod found;
mod fronts;
mod kept;
mod kinds;
mod mismatch;
mod names;
mod pairing;
mod partly;
mod places;
mod relocation_sources;
mod relocations;
mod repeats;
mod search;
mod section_bytes;
mod sections;
mod source;
mod standing;
mod text_numbers;
mod view;

pub use dw_base::{DebugSection, Fault, Field, Kind, Order, Refusal};
pub use fields::Relocation;
pub use mismatch::{Mismatch, PairErr};
pub use relocation_sources::RelocationSources;
pub use section_bytes::SectionBytes;
pub use view::View;
