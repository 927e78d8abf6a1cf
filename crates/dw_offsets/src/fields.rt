//! Fields that hold offsets (DWARF 5, 7.5.5, 7.26, 6.1.1.4 and 6.3).

/// A field that holds an offset: that of a text, or where a line table or a macro unit starts.
#[derive(Clone, Copy, Debug, PartialEq, Eq, Drop)]
pub struct OffsetField {
    /// Where it stands, in bytes from the section's start.
    pub at: u64,
    /// How many bytes it has: 4 or 8.
    pub size: u8,
    /// It names a path.
    pub path: bool,
}
