//! Abbreviation tables (DWARF 5, 7.5.3): what an entry of a code has.
//!
//! This layer promises: a table is read only where the bytes spell one, and then it has their
//! abbreviations in order; it is refused only where a number passes the section's end, a flag for
//! children is neither 0 nor 1, a pair has one zero, or a code stands twice. What is found
//! for a code is its abbreviation: at its number where codes count from 1, else by its hash.
//! Tables that are kept share what they have in common at their ends.
//! It does not promise: anything of tags, names and forms, any number is taken; how long a search is.
//! Read first: `dw_base/specs/AbbreviationTables.antt`, then `dw_base/specs/AbbreviationFails.antt`.
//!
//! ```
//! use dw_abbrev::AbbrevTable;
//!
//! // A compilation unit with children, with a name by an offset of `.debug_str`; then the end of the table.
//! let bytes = [0x01, 0x11, 0x01, 0x03, 0x0e, 0x00, 0x00, 0x00];
//! let table = AbbrevTable::read(rt.alloc(), 2, &bytes, 0)?;
//! if let Some(unit) = table.get(1) {
//!     assert_eq!(rt; unit.tag, 0x11);
//!     assert_eq!(rt; unit.specs.as_slice().len(), 1);
//! }
//! ```
#![tactic(auto)]

mod abbrev;
mod attributes;
mod front;
mod keeping;
mod opening;
mod quiet;
mod rest;
mod rests;
mod run;
mod shared_specs;
mod spelled;
mod spots;
mod stopped;
mod table;
mod tails;

pub use abbrev::Abbrev;
pub use attributes::Specs;
pub use dw_base::{Fault, Kind, NoMemory, Refusal, Spec};
pub use keeping::{KeptTable, tables_at};
pub use quiet::is_text_form;
pub use table::AbbrevTable;
