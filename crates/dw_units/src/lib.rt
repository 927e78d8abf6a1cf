//! The units of a file with their tables of abbreviations, read once (DWARF 5, 7.5.1 and 7.5.3).
//!
//! This layer promises: the units that are given are those of all sections of units, in order, each with its header and its table; they are
//! refused only where a unit, the offset of its abbreviations or its table can't be read, at the place; of tables no more is kept than a small
//! multiple of the section of abbreviations: one beyond that is read again where it's wanted, and then only memory can be wanting.
//! It does not promise: anything of entries.
//! Read first: `specs/UnitLists.antt`, then `specs/PlacedTables.antt`.
//!
//! ```
//! use dw_units::read_units;
//!
//! let units = read_units(alloc, &view)?;
//! for (number, unit) in units.all().iter().enumerate() {
//!     let table = units.table(alloc, number)?;
//!     let found = table.get().get(code);
//! }
//! ```
#![tactic(auto)]

mod listed_unit;
mod placed_table;
mod reading;
mod section_headers;
mod stretches;
mod unit_table;
mod units;

pub use dw_base::{Fault, NoMemory, UnitHeader};
pub use listed_unit::ListedUnit;
pub use reading::read_units;
pub use stretches::stretch_end;
pub use unit_table::UnitTable;
pub use units::Units;
