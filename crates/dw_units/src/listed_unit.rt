//! A unit among all units of a file.

use dw_base::UnitHeader;

/// A unit, and the number of its table of abbreviations among those of the file.
#[derive(Clone, Copy, Debug, PartialEq, Eq)]
pub struct ListedUnit {
    /// The unit.
    pub header: UnitHeader,
    /// The number of its table.
    pub table: usize,
}
