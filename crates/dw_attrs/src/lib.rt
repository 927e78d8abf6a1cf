//! What values of attributes say (DWARF 5, 7.5.5): the texts, entries, line tables and macro units that they name.
//!
//! This layer promises: what is said of a value is what it means, but for how a text is held, whether it is a source path, and relocations among
//! bytes; the entry that a reference names is the one that starts at its place, in the unit itself or in any other; the base of a unit's texts by
//! index is the one that its first entry says.
//! It does not promise: that a value can be read; who asks has read all debug data before.
//! Read first: `specs/Sayings.antt`, then `specs/UnitValues.antt` and `specs/EntryIndexes.antt`.
#![tactic(auto)]

mod entry_index;
mod fields;
mod parts;
mod said_unit;
mod saying;
mod sayings;
mod starts;
mod unit_bases;
mod unit_source;

pub use entry_index::EntryIndex;
pub use parts::part;
pub use said_unit::SaidUnit;
pub use saying::said;
pub use sayings::Said;
pub use starts::{started, unit_number};
pub use unit_bases::value_in;
pub use unit_source::UnitSource;
