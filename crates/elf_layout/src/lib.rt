//! ELF files written with new section bodies, and ELF files written from parts: this project's profile
//! of the layout, over the records of gABI ch. 4 "Sections".
//!
//! This layer promises: a file that is written is byte for byte the defined layout, and its sections
//! read back as those that were given; a section that must stay is refused as `Fixed` and a file over
//! the limit as `TooLarge`, each only where its condition holds, and nothing else is refused. A file
//! with new bodies reads where its names end; a file of parts where its front reads, its alignments
//! are such, and its names end. The tests of what may stay (`lies_across`,
//! `begins_in_header`) are the defined ones, for further layouts; `lay_lent` and `join_table` are the steps of
//! writing for a file in pieces (`Pieces`), of which another file lends bytes. A file with new bodies comes in pieces.
//! It does not promise: anything of what the bodies mean, and which bytes of a file in pieces are lent.
//! Read first: `dw_base/specs/Layout.antt`, then `LayoutFails.antt`, `LayoutReads.antt`, `Parts.antt`.
//!
//! ```rust
//! let elf = ElfFile::read(alloc, bytes)?;
//! // One item for each section: a new body, or none where it keeps its own.
//! let mut contents = Vec::new(alloc);
//! for section in 0..elf.section_count() {
//!     contents.push(if section == 3 { Some(NewBody::whole(Vec::from_slice(alloc, b"a.c\0")?)) } else { None })?;
//! }
//! let file = emit(alloc, &elf, contents)?;
//! // One slice behind another.
//! let slices = file.slices(alloc)?;
//! ```
#![tactic(auto)]

mod bodies;
mod fixed;
mod in_pieces;
mod laying;
mod new_body;
mod part;
mod parts;
mod patch;
mod patched;
mod pieces;
mod section_headers;

pub use bodies::emit;
pub use fixed::{begins_in_header, lies_across};
pub use in_pieces::{join_table, lay_lent};
pub use new_body::NewBody;
pub use part::Part;
pub use parts::write_parts;
pub use patch::{Patch, put_patches};
pub use pieces::Pieces;
