//! Name tables as values (DWARF 5, 6.1.1.4).

use crate::shared::Width;

/// The counts of a name table (DWARF 5, 6.1.1.4.1); the last two are sizes, in bytes.
#[derive(Clone, Copy, Debug, PartialEq, Eq)]
pub struct NameCounts {
    /// How many units it has.
    pub units: u64,
    /// How many type units of this file.
    pub local: u64,
    /// How many type units of other files.
    pub foreign: u64,
    /// How many buckets.
    pub buckets: u64,
    /// How many names.
    pub names: u64,
    /// The size of its abbreviations.
    pub abbrevs: u64,
    /// The size of its augmentation.
    pub augmentation: u64,
}

/// A name table, with all places in bytes from the section's start.
#[derive(Clone, Copy, Debug, PartialEq, Eq, Drop)]
pub struct NameTable {
    /// Where it starts.
    pub start: u64,
    /// Where it ends.
    pub end: u64,
    /// How wide its offsets are.
    pub width: Width,
    /// How many names it has.
    pub names: u64,
    /// Where the string offsets of its names stand, one for each.
    pub strings: u64,
}
