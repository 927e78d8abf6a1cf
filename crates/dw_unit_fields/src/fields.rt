//! What a section says of texts, line tables and macro units: the fields that hold offsets of source paths, or say where line
//! tables or macro units start, the paths that stand in their values, and the values that name texts by index (DWARF 5, 7.5.5,
//! class string, and 3.1.1).

use dw_offsets::OffsetField;

/// A path that stands in its value.
#[derive(Clone, Copy)]
pub struct InlinePath {
    /// Where it stands, in bytes from the section's start.
    pub at: u64,
    /// How many bytes it has before its NUL.
    pub len: u64,
}

/// The base of a unit's texts by index (DWARF 5, 3.1.1).
#[derive(Clone, Copy)]
pub(crate) enum TextBase {
    /// A number.
    Number(u64),
    /// The field of an offset into the section of string offsets.
    Field(OffsetField),
}

/// A value that names a text by index.
#[derive(Clone, Copy)]
pub(crate) struct TextIndex {
    /// Where it stands, its form with it where that stands in front; in bytes from the section's start.
    pub place: u64,
    /// It holds a path.
    pub path: bool,
    /// The index.
    pub index: u64,
}
