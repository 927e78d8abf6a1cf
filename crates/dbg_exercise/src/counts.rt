//! How much debug data mean.

/// How many units, entries and rows there are.
#[derive(Clone, Copy)]
pub struct Counts {
    /// The units of all sections.
    pub units: u64,
    /// Their entries.
    pub entries: u64,
    /// The rows of all line tables.
    pub rows: u64,
}
