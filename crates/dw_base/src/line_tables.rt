//! What is read of a line table (DWARF 5, 6.2.4; for versions 2 to 4 the standards' own). All places are in bytes from
//! the start of its section.

use crate::shared::Width;

/// Where a text stands.
#[derive(Clone, Copy, Debug, PartialEq, Eq)]
pub struct TextPlace {
    /// The number of its section.
    pub section: u32,
    /// Where it begins, in bytes from that section's start.
    pub at: u64,
    /// How many bytes it has before its NUL.
    pub len: u64,
    /// The place of the offset that names it, in bytes from the start of the section that mentions it; the
    /// same as `at` where the text stands inline.
    pub field: u64,
}

/// A text of a line table's directories and files.
#[derive(Clone, Copy, Debug, PartialEq, Eq)]
pub struct LineText {
    /// Where it stands.
    pub place: TextPlace,
    /// Whether it is the path of its entry.
    pub path: bool,
}

/// A file of a line table.
#[derive(Clone, Copy, Debug, PartialEq, Eq)]
pub struct FilePlace {
    /// Its path.
    pub text: TextPlace,
    /// The number of its directory.
    pub dir: u64,
}

/// The numbers at the front of a table's header, with all places in bytes from the section's start.
#[derive(Clone, Copy, Debug, PartialEq, Eq)]
pub struct LineHeader {
    /// Where the table starts.
    pub start: u64,
    /// Where it ends.
    pub end: u64,
    /// Its version, 2 to 5.
    pub version: u16,
    /// How wide its offsets are.
    pub width: Width,
    /// The size of an address, in bytes; 0 before version 5, which has none.
    pub address: u8,
    /// Where the program starts.
    pub program: u64,
    /// The size of the smallest instruction, in bytes.
    pub min_length: u8,
    /// How many operations an instruction has at most; 1 before version 4.
    pub max_ops: u8,
    /// Whether rows begin statements at first.
    pub default_stmt: bool,
    /// The smallest line advance of a special opcode.
    pub line_base: i8,
    /// How many line advances special opcodes have.
    pub line_range: u8,
    /// The first special opcode.
    pub opcode_base: u8,
    /// Where the operand counts of the standard opcodes stand, one byte each.
    pub operands: u64,
    /// Where the lists of directories and files start.
    pub lists: u64,
}

/// The value of a column.
#[derive(Clone, Copy)]
pub struct Column {
    /// Its text, where it is one.
    pub text: Option<TextPlace>,
    /// Its number, 0 of a text or a block.
    pub number: u64,
    /// The place behind it.
    pub next: u64,
}

/// What was read of an entry.
#[derive(Clone, Copy)]
pub struct Entry {
    /// Its path.
    pub text: Option<TextPlace>,
    /// The number of its directory.
    pub dir: Option<u64>,
    /// The place behind what was read.
    pub next: u64,
}

/// An opcode of a program.
#[derive(Clone, Copy)]
pub struct Opcode {
    /// Where the next one stands.
    pub next: u64,
    /// The file that it defines.
    pub file: Option<FilePlace>,
}
