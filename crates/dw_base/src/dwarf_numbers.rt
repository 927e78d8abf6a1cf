//! The numbers of DWARF, in the standard's own spelling (DWARF 5, 7.5.1 to 7.5.6; GNU's own numbers
//! as binutils' `dwarf2.def` has them).

/// A unit of a compilation (table 7.2).
pub const DW_UT_compile: u64 = 0x01;
/// A unit of a type (table 7.2).
pub const DW_UT_type: u64 = 0x02;
/// A unit that others import (table 7.2).
pub const DW_UT_partial: u64 = 0x03;
/// A skeleton unit of split DWARF (table 7.2).
pub const DW_UT_skeleton: u64 = 0x04;
/// A compilation's unit of split DWARF (table 7.2).
pub const DW_UT_split_compile: u64 = 0x05;
/// A type's unit of split DWARF (table 7.2).
pub const DW_UT_split_type: u64 = 0x06;

/// The tag of a normal compilation unit (table 7.3).
pub const DW_TAG_compile_unit: u64 = 0x11;
/// The tag of a variable (table 7.3).
pub const DW_TAG_variable: u64 = 0x34;
/// The tag of a partial unit (table 7.3).
pub const DW_TAG_partial_unit: u64 = 0x3c;
/// The tag of a type unit (table 7.3).
pub const DW_TAG_type_unit: u64 = 0x41;
/// The tag of a skeleton unit (table 7.3).
pub const DW_TAG_skeleton_unit: u64 = 0x4a;

/// An entry's name (table 7.5).
pub const DW_AT_name: u64 = 0x03;
/// The place of a unit's line table in `.debug_line` (table 7.5).
pub const DW_AT_stmt_list: u64 = 0x10;
/// The directory in which a unit was compiled (table 7.5).
pub const DW_AT_comp_dir: u64 = 0x1b;
/// Where the string offsets of a unit begin (table 7.5).
pub const DW_AT_str_offsets_base: u64 = 0x72;
/// The file of a skeleton unit (table 7.5).
pub const DW_AT_dwo_name: u64 = 0x76;
/// The place of a unit's macros in `.debug_macro` (table 7.5).
pub const DW_AT_macros: u64 = 0x79;
/// The same before version 5 (GNU).
pub const DW_AT_GNU_macros: u64 = 0x2119;
/// The file of a skeleton unit before version 5 (GNU).
pub const DW_AT_GNU_dwo_name: u64 = 0x2130;

/// An address (table 7.6).
pub const DW_FORM_addr: u64 = 0x01;
/// A block behind a count of 2 bytes (table 7.6).
pub const DW_FORM_block2: u64 = 0x03;
/// A block behind a count of 4 bytes (table 7.6).
pub const DW_FORM_block4: u64 = 0x04;
/// 2 bytes (table 7.6).
pub const DW_FORM_data2: u64 = 0x05;
/// 4 bytes (table 7.6).
pub const DW_FORM_data4: u64 = 0x06;
/// 8 bytes (table 7.6).
pub const DW_FORM_data8: u64 = 0x07;
/// A text that stands in the value (table 7.6).
pub const DW_FORM_string: u64 = 0x08;
/// A block behind a count by LEB128 (table 7.6).
pub const DW_FORM_block: u64 = 0x09;
/// A block behind a count of 1 byte (table 7.6).
pub const DW_FORM_block1: u64 = 0x0a;
/// 1 byte (table 7.6).
pub const DW_FORM_data1: u64 = 0x0b;
/// A flag of 1 byte (table 7.6).
pub const DW_FORM_flag: u64 = 0x0c;
/// A signed LEB128 number (table 7.6).
pub const DW_FORM_sdata: u64 = 0x0d;
/// An offset into `.debug_str` (table 7.6).
pub const DW_FORM_strp: u64 = 0x0e;
/// An unsigned LEB128 number (table 7.6).
pub const DW_FORM_udata: u64 = 0x0f;
/// A reference into `.debug_info` (table 7.6).
pub const DW_FORM_ref_addr: u64 = 0x10;
/// A reference of 1 byte into the unit (table 7.6).
pub const DW_FORM_ref1: u64 = 0x11;
/// A reference of 2 bytes into the unit (table 7.6).
pub const DW_FORM_ref2: u64 = 0x12;
/// A reference of 4 bytes into the unit (table 7.6).
pub const DW_FORM_ref4: u64 = 0x13;
/// A reference of 8 bytes into the unit (table 7.6).
pub const DW_FORM_ref8: u64 = 0x14;
/// A reference by LEB128 into the unit (table 7.6).
pub const DW_FORM_ref_udata: u64 = 0x15;
/// A value whose form stands in front of it (table 7.6).
pub const DW_FORM_indirect: u64 = 0x16;
/// An offset into another section (table 7.6).
pub const DW_FORM_sec_offset: u64 = 0x17;
/// An expression, behind its length by LEB128 (table 7.6).
pub const DW_FORM_exprloc: u64 = 0x18;
/// A flag that is set, without bytes (table 7.6).
pub const DW_FORM_flag_present: u64 = 0x19;
/// The number of a string offset, by LEB128 (table 7.6).
pub const DW_FORM_strx: u64 = 0x1a;
/// The number of an address, by LEB128 (table 7.6).
pub const DW_FORM_addrx: u64 = 0x1b;
/// A reference of 4 bytes into a supplementary file (table 7.6).
pub const DW_FORM_ref_sup4: u64 = 0x1c;
/// An offset of a text in a supplementary file (table 7.6).
pub const DW_FORM_strp_sup: u64 = 0x1d;
/// 16 bytes (table 7.6).
pub const DW_FORM_data16: u64 = 0x1e;
/// An offset into `.debug_line_str` (table 7.6).
pub const DW_FORM_line_strp: u64 = 0x1f;
/// The signature of a type unit (table 7.6).
pub const DW_FORM_ref_sig8: u64 = 0x20;
/// A number that stands in the abbreviation (table 7.6).
pub const DW_FORM_implicit_const: u64 = 0x21;
/// The number of a location list, by LEB128 (table 7.6).
pub const DW_FORM_loclistx: u64 = 0x22;
/// The number of a range list, by LEB128 (table 7.6).
pub const DW_FORM_rnglistx: u64 = 0x23;
/// A reference of 8 bytes into a supplementary file (table 7.6).
pub const DW_FORM_ref_sup8: u64 = 0x24;
/// The number of a string offset, in 1 byte (table 7.6).
pub const DW_FORM_strx1: u64 = 0x25;
/// The number of a string offset, in 2 bytes (table 7.6).
pub const DW_FORM_strx2: u64 = 0x26;
/// The number of a string offset, in 3 bytes (table 7.6).
pub const DW_FORM_strx3: u64 = 0x27;
/// The number of a string offset, in 4 bytes (table 7.6).
pub const DW_FORM_strx4: u64 = 0x28;
/// The number of an address, in 1 byte (table 7.6).
pub const DW_FORM_addrx1: u64 = 0x29;
/// The number of an address, in 2 bytes (table 7.6).
pub const DW_FORM_addrx2: u64 = 0x2a;
/// The number of an address, in 3 bytes (table 7.6).
pub const DW_FORM_addrx3: u64 = 0x2b;
/// The number of an address, in 4 bytes (table 7.6).
pub const DW_FORM_addrx4: u64 = 0x2c;
/// A reference into a supplementary file, before version 5 (GNU).
pub const DW_FORM_GNU_ref_alt: u64 = 0x1f20;
/// An offset of a text in a supplementary file, before version 5 (GNU).
pub const DW_FORM_GNU_strp_alt: u64 = 0x1f21;
