//! The numbers of line tables, in the standard's own spelling (DWARF 5, 7.22).

/// Gives a row (table 7.25).
pub const DW_LNS_copy: u8 = 0x01;
/// Advances the address by operations (table 7.25).
pub const DW_LNS_advance_pc: u8 = 0x02;
/// Adds a signed number to the line (table 7.25).
pub const DW_LNS_advance_line: u8 = 0x03;
/// Sets the file (table 7.25).
pub const DW_LNS_set_file: u8 = 0x04;
/// Sets the column (table 7.25).
pub const DW_LNS_set_column: u8 = 0x05;
/// Turns round whether rows begin statements (table 7.25).
pub const DW_LNS_negate_stmt: u8 = 0x06;
/// The next row begins a basic block (table 7.25).
pub const DW_LNS_set_basic_block: u8 = 0x07;
/// Advances the address as the special opcode 255 does (table 7.25).
pub const DW_LNS_const_add_pc: u8 = 0x08;
/// Adds a number of 2 bytes to the address (table 7.25).
pub const DW_LNS_fixed_advance_pc: u8 = 0x09;
/// The next row is where a function's prologue ends (table 7.25).
pub const DW_LNS_set_prologue_end: u8 = 0x0a;
/// The next row is where a function's epilogue begins (table 7.25).
pub const DW_LNS_set_epilogue_begin: u8 = 0x0b;
/// Sets the instruction set (table 7.25).
pub const DW_LNS_set_isa: u8 = 0x0c;

/// Ends a sequence (table 7.26).
pub const DW_LNE_end_sequence: u8 = 0x01;
/// Sets the address (table 7.26).
pub const DW_LNE_set_address: u8 = 0x02;
/// Sets the discriminator (table 7.26).
pub const DW_LNE_set_discriminator: u8 = 0x04;
/// A column that is a path (table 7.27).
pub const DW_LNCT_path: u64 = 0x1;
/// A column that is the number of a directory (table 7.27).
pub const DW_LNCT_directory_index: u64 = 0x2;
/// A column that is a time (table 7.27).
pub const DW_LNCT_timestamp: u64 = 0x3;
/// A column that is a size (table 7.27).
pub const DW_LNCT_size: u64 = 0x4;
/// Defines a file (DWARF 4, figure 43).
pub const DW_LNE_define_file: u8 = 0x03;
