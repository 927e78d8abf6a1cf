//! The units of a section, and the entries of a unit (DWARF 5, 7.5.1 to 7.5.3; for versions 2 to 4 the
//! standards' own).
//!
//! This layer promises: the unit sections of a view are all that it has, in order; the units that are given
//! fill their section, with the headers that stand there, in 32-bit and 64-bit DWARF of versions 2 to 5; the
//! entries that a pass gives are those of the unit, in the order of their places, each with its depth, and by
//! `CodedScan` with the number of its abbreviation and the place where its values begin; units and entries are
//! refused only where one can't be read, at its place, or where the offset of a unit's abbreviations can't, for
//! its relocation. A pass takes no memory, and it ends without an error only where all
//! lists of children are closed at the unit's end.
//! It does not promise: anything of tags, and of attributes no more than that their values can be read.
//! Read first: `dw_base/specs/UnitHeaders.antt`, `dw_base/specs/EntryScans.antt`, then
//! `specs/ScanStates.antt`.
//!
//! ```
//! use dw_entries::{abbreviations_at, table_offset, unit_headers, unit_sections, EntryScan};
//!
//! for section in unit_sections(alloc, &view)?.as_slice() {
//!     let units = unit_headers(alloc, &view, *section)?;
//!     for unit in units.as_slice() {
//!         let table = abbreviations_at(alloc, &view, table_offset(&view, unit)?)?;
//!         for entry in EntryScan::new(&view, unit, &table) {
//!             let entry = entry?;
//!             let code = entry.code;
//!         }
//!     }
//! }
//! ```
#![tactic(auto)]

mod entry_values;
mod front;
mod header;
mod headers;
mod nulls;
mod places;
mod plain;
mod scan;
mod sections;
mod step;
mod tables;
mod unit_kinds;
mod values;

pub use dw_base::{Fault, Kind, NoMemory, Params, Refusal, Scanned, Spec, UnitHeader, Value};
pub use headers::{UnitHeaders, table_offset, unit_headers};
pub use plain::plain_len;
pub use scan::{Coded, CodedScan, EntryScan};
pub use sections::unit_sections;
pub use tables::abbreviations_at;
pub use values::EntryValues;
