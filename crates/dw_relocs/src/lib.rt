//! The relocations that may stand on the fields of sections that are read (gABI ch. 4 "Relocation"; this project's profile).
//!
//! This layer promises: where its one call is Ok, no relocation of units, string offsets, name tables, macro units and line tables is one
//! that may not stand there. Each offset into another section is a number or gives a place; none begins inside a number that is meant as it
//! stands; in the header of a line table none stands but on offsets of texts, and none reaches into it; and whatever else names a place in
//! a table of texts or in the line tables stands on such an offset. It is refused as `Relocation` only where one is, at that relocation or
//! at the offset that it gives no place.
//! It does not promise: that an offset names something. What entries and macro units are refused for is a refusal here, too, where a section
//! of them has relocations, since they are read once more.
//! Read first: `dw_base/specs/RelocationRows.antt`, then `specs/FieldWalks.antt` and `specs/FieldRefusals.antt`.
//!
//! # Example
//!
//! ```
//! let units = read_units(alloc, &view)?;
//! let list = contributions(alloc, &view)?;
//! let names = name_tables(alloc, &view)?;
//! let tables = line_tables(alloc, &view)?;
//! check_fields(alloc, &view, &units, list.as_slice(), names.as_slice(), tables.as_slice())?;
//! ```
#![tactic(auto)]

mod entries;
mod forms;
mod lines;
mod macros;
mod marks;
mod relocations;
mod rows;
mod sections;
mod slots;
mod units;
mod values;

pub use dw_base::{Contribution, Fault, Kind, NameTable, Refusal};
pub use sections::check_fields;
