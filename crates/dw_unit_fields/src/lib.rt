//! What the unit sections of a view say of texts and source paths, in one pass over their entries (DWARF 5, 7.5 and 3.1.1).
//!
//! This layer promises: where units are taken, each of their entries can be read, each offset of a text names one, each value by
//! index a slot, and each that is to say where a line table or a macro unit starts says it; exactly the slots that are named are
//! marked; and what was found of texts and paths is what the values say. They are refused only by a condition that holds in
//! them, at its place.
//! It does not promise: anything of line tables, macro units, name tables and string offsets themselves, nor of what paths are mapped to.
//! Read first: `specs/SectionFields.antt`, then `specs/TextPlaces.antt`, `specs/UnitTexts.antt` and `specs/IndexedTexts.antt`.
//!
//! # Example
//!
//! ```
//! let units = read_units(alloc, &view)?;
//! let tables = TextTables {
//!     str: TextTable::new(view.located(DebugSection::Str)),
//!     line_str: TextTable::new(view.located(DebugSection::LineStr)),
//! };
//! let mut slots = NamedSlots::new(&contributions, marks);
//! let found = unit_fields(alloc, &view, &units, &tables, starts, &places, &mut slots)?;
//! let fields = found[0].given(alloc)?;
//! let paths = fields.fields(DebugSection::LineStr);
//! ```
#![tactic(auto)]

mod all_sections;
mod field_list;
mod field_offsets;
mod fields;
mod found;
mod scan_table;
mod sections;
mod slots;
mod starts;
mod texts;
mod units;
mod unread;

pub use all_sections::unit_fields;
pub use field_offsets::plain_bytes;
pub use fields::InlinePath;
pub use found::{FoundFields, SectionFields, TextTable, TextTables};
pub use slots::NamedSlots;
