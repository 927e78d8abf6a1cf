//! The sources of a unit and its line table, as another program that was written from the same rules lists them.

use crate::files::{Piece, Row, file_of};
use dw_paths::Maps;
use dw_sources::sources;
use dw_view::View;
use elf_file::ElfFile;
use std::test::Fail;

/// A unit of version 4 of the name `a.c`, compiled in `/build/p` (DWARF 4, 7.5.1).
const UNIT: Row = (
    b".debug_info",
    &[
        Piece::Field("unit_length", 4, 25),
        Piece::Field("version", 2, 4),
        Piece::Field("debug_abbrev_offset", 4, 0),
        Piece::Field("address_size", 1, 8),
        Piece::Field("abbreviation code", 1, 1),
        Piece::Text(b"a.c"),
        Piece::Text(b"/build/p"),
        Piece::Field("DW_AT_stmt_list", 4, 0),
    ],
);

const ABBREVIATIONS: Row = (
    b".debug_abbrev",
    &[
        Piece::Field("abbreviation code", 1, 1),
        Piece::Field("DW_TAG_compile_unit", 1, 0x11),
        Piece::Field("DW_CHILDREN_no", 1, 0),
        Piece::Field("DW_AT_name", 1, 0x03),
        Piece::Field("DW_FORM_string", 1, 0x08),
        Piece::Field("DW_AT_comp_dir", 1, 0x1b),
        Piece::Field("DW_FORM_string", 1, 0x08),
        Piece::Field("DW_AT_stmt_list", 1, 0x10),
        Piece::Field("DW_FORM_sec_offset", 1, 0x17),
        Piece::Zeros(3),
    ],
);

/// Its table: a directory and a file in it, a name that is no file's, and the unit's own (DWARF 4, 6.2.4).
const LINES: Row = (
    b".debug_line",
    &[
        Piece::Field("unit_length", 4, 68),
        Piece::Field("version", 2, 4),
        Piece::Field("header_length", 4, 59),
        Piece::Field("minimum_instruction_length", 1, 1),
        Piece::Field("maximum_operations_per_instruction", 1, 1),
        Piece::Field("default_is_stmt", 1, 1),
        Piece::Field("line_base", 1, 0xfb),
        Piece::Field("line_range", 1, 14),
        Piece::Field("opcode_base", 1, 13),
        Piece::Bytes(b"\0\x01\x01\x01\x01\0\0\0\x01\0\0\x01"),
        Piece::Text(b"../p/inc"),
        Piece::Zeros(1),
        Piece::Text(b"./x.h"),
        Piece::Bytes(b"\x01\0\0"),
        Piece::Text(b"<built-in>"),
        Piece::Zeros(3),
        Piece::Text(b"a.c"),
        Piece::Zeros(3),
        Piece::Zeros(1),
        Piece::Bytes(b"\0\x01\x01"),
    ],
);

#[test]
fn the_sources_are_those_of_units_and_files(rt: HostRuntime) -> Result<(), Fail> {
    let maps = Maps::new(rt.alloc(), b"/build/p", b"/d")?.ok_or("no map")?;
    let file = file_of(rt.alloc(), &[UNIT, ABBREVIATIONS, LINES])?;
    assert!(rt; file.len() <= 0x8000_0000);
    let elf = ElfFile::read(rt.alloc(), &file)?;
    let view = View::one(&elf)?;
    let names = sources(rt.alloc(), &view, &maps)?;
    assert!(rt; names.len() == 2);
    assert_eq!(rt; names[0].as_slice(), b"a.c".as_slice());
    assert_eq!(rt; names[1].as_slice(), b"inc/x.h".as_slice());
    Ok(())
}
