//! Where texts are named outside of entries: the contributions of string offsets (DWARF 5, 7.26), and
//! name tables (DWARF 5, 6.1.1.4).
//!
//! This layer promises: contributions are given only where they fill `.debug_str_offsets`, and are refused
//! only where one of them can't be read, at that contribution; the place of a slot is given exactly where
//! a contribution with the base has the slot. Name tables are given only where they fill `.debug_names`
//! and each of their string offsets names a text, and are refused only where one can't be read, at that
//! table, or where a string offset names no text, at its field. The fields of their string offsets are given
//! in the order of their places.
//! It does not promise: that a slot names a text; anything of what a name table says of its names.
//! Read first: in `dw_base/specs`, `StringOffsets.antt`, then `NameTables.antt`, and the two files of their refusals.
//!
//! # Example
//!
//! ```
//! let view = View::one(&elf)?;
//! let list = contributions(alloc, &view)?;
//! if let Some(place) = slot_place(&list, base, index) {
//!     // the offset of the text of a value by `DW_FORM_strx` stands there
//! }
//! ```
#![tactic(auto)]

mod fields;
mod name_headers;
mod name_lists;
mod name_strings;
mod name_texts;
mod shared_slots;
mod slot_fields;
mod slot_marks;
mod slots;
mod string_offsets;
mod widths;

pub use dw_base::{Contribution, Fault, Kind, NameTable, Refusal, Width};
pub use fields::OffsetField;
pub use name_lists::{NameTableList, name_tables};
pub use name_strings::name_fields;
pub use shared_slots::check_shared;
pub use slot_fields::{all_slots, first_bytes};
pub use slot_marks::SlotMarks;
pub use slots::{slot_place, with_base};
pub use string_offsets::{ContributionList, contributions};
