//! The two tables of texts of a file (DWARF 5, 7.26), each apart.

use crate::pool::Pool;

/// The tables of texts of a file, of which each grows apart: an offset into one says nothing of the other.
#[derive(Drop)]
pub struct Pools {
    /// `.debug_str`.
    pub text: Pool,
    /// `.debug_line_str`.
    pub line: Pool,
}
