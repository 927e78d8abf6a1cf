//! What is read of a macro unit (DWARF 5, 6.3). All places are in bytes from the start of its section.

use crate::line_tables::TextPlace;
use crate::shared::Width;

/// The header of a macro unit (6.3.1).
#[derive(Clone, Copy)]
pub struct MacroHeader {
    /// Its version, 4 or 5.
    pub version: u16,
    /// How wide its offsets are.
    pub width: Width,
    /// Whether it has the offset of a line table.
    pub has_line: bool,
    /// Where that stands; 0 where it has none.
    pub line_field: u64,
    /// Where the unit's first operation stands.
    pub first: u64,
}

/// An operation as it stands in the bytes (6.3.2).
#[derive(Clone, Copy)]
pub enum MacroOperation {
    /// Ends the unit.
    End,
    /// A definition, or its end, whose text stands inline.
    Inline {
        /// Whether it is a definition.
        defines: bool,
        /// The line in its file.
        line: u64,
        /// Where the text begins.
        at: u64,
        /// How many bytes the text has before its NUL.
        len: u64,
    },
    /// A definition, or its end, whose text an offset names.
    Named {
        /// Whether it is a definition.
        defines: bool,
        /// The line in its file.
        line: u64,
        /// Where the offset stands.
        field: u64,
    },
    /// A file begins.
    Enter {
        /// The line that includes it.
        line: u64,
        /// Its number in the line table.
        file: u64,
    },
    /// A file ends.
    Leave,
    /// The operations of another unit.
    Bring {
        /// Where the offset stands that names it.
        field: u64,
    },
    /// One that refers to a supplementary file.
    Foreign,
}

/// An event of a macro unit.
#[derive(Clone, Copy, Debug, PartialEq, Eq)]
pub enum MacroEvent {
    /// A macro is defined (`DW_MACRO_define`, `DW_MACRO_define_strp`).
    Define {
        /// The line of the definition in its file.
        line: u64,
        /// The macro's name, its parameters and what it stands for.
        text: TextPlace,
    },
    /// A macro is defined no longer (`DW_MACRO_undef`, `DW_MACRO_undef_strp`).
    Undef {
        /// The line in its file.
        line: u64,
        /// The macro's name.
        text: TextPlace,
    },
    /// A file begins (`DW_MACRO_start_file`).
    StartFile {
        /// The line that includes it.
        line: u64,
        /// Its number in the line table.
        file: u64,
    },
    /// The file that began last ends (`DW_MACRO_end_file`).
    EndFile,
    /// The events of another unit (`DW_MACRO_import`).
    Import {
        /// The number of that unit's section.
        section: u32,
        /// What is named as that unit's start, in bytes from that section's start.
        offset: u64,
        /// Where the offset stands, in bytes from the start of the section of the unit that has it.
        field: u64,
    },
}

/// A macro unit, with all places in bytes from its section's start.
#[derive(Clone, Copy, Debug, PartialEq, Eq, Drop)]
pub struct MacroUnit {
    /// The number of its section.
    pub section: u32,
    /// Where it starts.
    pub start: u64,
    /// Where it ends.
    pub end: u64,
    /// Its version, 4 or 5.
    pub version: u16,
    /// How wide its offsets are.
    pub width: Width,
    /// What it names as the start of its line table, in bytes from that section's start.
    pub line: Option<u64>,
    /// Where that offset stands; 0 where there is none.
    pub line_field: u64,
    /// Where its first operation stands.
    pub first: u64,
}
