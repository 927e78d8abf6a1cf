//! The build-id of an ELF file: where it stands, and what it is (gABI ch. 5 "Note Section"; the GNU
//! build-id note).
//!
//! This layer promises: the place of an id is that of the first note of its kind, none exactly where no
//! section may have it, and refused exactly where the note doesn't fit, its size is none of an id, or
//! its bytes belong to something else too; an id that is put is the digest of seed and file with the
//! id's bytes as zeros.
//! It does not promise: that an id tells two files apart.
//! Read first: `dw_base/specs/Notes.antt`, then `specs/IdFails.antt` and `specs/Ids.antt`.
//!
//! ```
//! let place = find_id(&ElfFile::read(alloc, &bytes)?)?.ok_or("no note")?;
//! set_id(&mut bytes, place, b"seed");
//! let start = place.at as usize;
//! let digits = id_text(alloc, &bytes[start..start + usize::from(place.len)])?;
//! ```
#![tactic(auto)]

mod digest;
mod notes;
mod own;
mod place;

pub use digest::{digest_of_pieces, id_text, set_id};
pub use dw_base::{Kind, NoMemory, Refusal};
pub use place::{IdPlace, SectionId, find_id, section_id};
