//! What a value says, with its bytes and texts lent.
//!
//! Read first: `specs/Sayings.antt`.

use dw_base::{Field, ValueClass};

/// What a value says.
#[derive(Debug, Drop)]
pub enum Said<'v> {
    /// A text.
    Text(&'v [u8]),
    /// An entry.
    Entry {
        /// The number of its unit.
        unit: u64,
        /// Its number in the unit.
        number: u64,
    },
    /// An offset at which no entry and no line table starts.
    Stray(u64),
    /// The line table of a number.
    Lines(u64),
    /// The macro unit of a number.
    Macros(u64),
    /// Bytes.
    Bytes(&'v [u8]),
    /// A signed number.
    Signed(i64),
    /// A field of a class.
    Field {
        /// Of what it says a number.
        class: ValueClass,
        /// What it reads as.
        field: Field,
    },
}
