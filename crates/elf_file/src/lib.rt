//! The records of an ELF file (gABI ch. 4 "Object Files", ch. 5 "Program Header").
//!
//! This layer promises: a file is read only where no condition of the kinds `Header` and `Range`
//! holds, then each record is what the bytes spell, in both classes and byte orders and with
//! extended numbering; it is refused only where such a condition holds, at its place.
//! It does not promise: anything of what the sections hold.
//! Read first: `dw_base/specs/Elf.antt`, then `dw_base/specs/ElfFails.antt`.
//!
//! ```rust
//! // bytes.len() as u64 <= OUTPUT_LIMIT
//! let elf = ElfFile::read(alloc, bytes)?;
//! for section in 0..elf.section_count() {
//!     if elf.section_name(section) == b".debug_info" {
//!         return Ok(elf.contents(section).len());
//!     }
//! }
//! ```
#![tactic(auto)]

mod elf;
mod fixed;
mod header;
mod names;
mod records;
mod sections;
mod segments;
mod slots;
mod tables;

pub use dw_base::{Class, Fault, FileKind, Kind, NoMemory, Order, Refusal, Section, Segment};
pub use elf::ElfFile;
