//! Units and their entries as values (DWARF 5, 7.5.1 to 7.5.3).

use crate::shared::Params;

/// The header of a unit (DWARF 5, 7.5.1), with all places in bytes from the section's start.
#[derive(Clone, Copy, Debug, PartialEq, Eq)]
pub struct UnitHeader {
    /// The number of the unit's section.
    pub section: u32,
    /// Where the unit starts.
    pub start: u64,
    /// Where it ends.
    pub end: u64,
    /// What its values depend on.
    pub params: Params,
    /// Its unit type, `DW_UT_..`; before version 5 `DW_UT_compile`, and in `.debug_types` `DW_UT_type`.
    pub kind: u8,
    /// Where its abbreviations start in `.debug_abbrev`: the offset that its field says.
    pub abbrevs: u64,
    /// That offset is one into another section, where no abbreviations stand: a relocation makes it so.
    pub elsewhere: bool,
    /// The signature of a type unit, else 0.
    pub signature: u64,
    /// The place of a type unit's type, in bytes from the unit's start, else 0.
    pub type_offset: u64,
    /// Where its entries start.
    pub first: u64,
}

/// An entry as a pass over a unit meets it (DWARF 5, 7.5.3).
#[derive(Clone, Copy, Debug, PartialEq, Eq)]
pub struct Scanned {
    /// Where it starts, in bytes from the section's start.
    pub offset: u64,
    /// In how many lists of children it stands.
    pub depth: u32,
    /// The code of its abbreviation.
    pub code: u64,
    /// Where its values end, in bytes from the section's start.
    pub after: u64,
}
