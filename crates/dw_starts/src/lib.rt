//! Where the line tables and macro units of a view start, and which one an offset names (DWARF 5, 3.1.1, 6.2.4 and 6.3).
//!
//! This layer promises: the starts that are given are those of the line tables and macro units that were read, in order; which
//! one starts at a place is found exactly where one does; the macro units of all sections are given, or refused only where those
//! of one can't be read, at the unit or the operation; and where they are taken, each of their offsets of a line table and of
//! another unit names one, while it is refused, as `Stray`, at an offset that names none.
//! It does not promise: anything of units and their entries, nor that an offset of a text names one.
//! Read first: `specs/LineStarts.antt`, then `specs/MacroSections.antt`, `specs/UnitPlaces.antt` and `specs/MacroNames.antt`.
//!
//! # Example
//!
//! ```
//! let lines = line_tables(alloc, &view)?;
//! let macros = macro_sections(alloc, &view)?;
//! let starts = starts_of(alloc, lines.as_slice())?;
//! let places = UnitPlaces::new(alloc, &view, macros.as_slice())?;
//! macros_name(&view, starts.as_slice(), &places, macros.as_slice())?;
//! let table = start_number(starts.as_slice(), offset);
//! ```
#![tactic(auto)]

mod macros;
mod starts;
mod tables;
mod unit_places;

pub use macros::{MacroSection, macro_sections, macros_name, number_of, units_of};
pub use starts::{start_number, starts_of, stray, with_start};
pub use tables::{table_number, table_texts};
pub use unit_places::{UnitPlaces, place_key, start_key};
