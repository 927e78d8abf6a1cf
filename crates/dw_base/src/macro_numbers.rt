//! The numbers of macro units, in the standard's own spelling (DWARF 5, 6.3.1 and 7.23).

/// Bit 0 of a unit's flags: its offsets have 8 bytes (6.3.1, item 2).
pub const OFFSET_SIZE_FLAG: u8 = 0x01;
/// Bit 1: the header has the offset of a line table.
pub const DEBUG_LINE_OFFSET_FLAG: u8 = 0x02;
/// Bit 2: the header has a table of the operands of further operations.
pub const OPCODE_OPERANDS_TABLE_FLAG: u8 = 0x04;

/// Ends a unit (7.23).
pub const MACRO_END: u8 = 0x00;
/// A definition whose text stands inline (table 7.28).
pub const DW_MACRO_define: u8 = 0x01;
/// The end of a definition, its text inline.
pub const DW_MACRO_undef: u8 = 0x02;
/// A file begins.
pub const DW_MACRO_start_file: u8 = 0x03;
/// A file ends.
pub const DW_MACRO_end_file: u8 = 0x04;
/// A definition whose text an offset into `.debug_str` names.
pub const DW_MACRO_define_strp: u8 = 0x05;
/// The end of a definition, its text by such an offset.
pub const DW_MACRO_undef_strp: u8 = 0x06;
/// The operations of another unit.
pub const DW_MACRO_import: u8 = 0x07;
/// A definition whose text stands in the supplementary file.
pub const DW_MACRO_define_sup: u8 = 0x08;
/// The end of a definition, its text there.
pub const DW_MACRO_undef_sup: u8 = 0x09;
/// The operations of a unit of the supplementary file.
pub const DW_MACRO_import_sup: u8 = 0x0a;
