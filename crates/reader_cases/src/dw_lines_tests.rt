//! A line table of version 5 that is read, and written with other offsets.

use crate::files::{Piece, Row, file_of};
use dw_lines::{Fault, FilePlace, LineTable, NewTexts, TextPlace, TextPlaces, Width, WrittenTable};
use dw_paths::Maps;
use dw_view::View;
use elf_file::ElfFile;
use std::alloc::Global;
use std::process::Abort;
use std::test::Fail;

/// A table of version 5 with a directory and a file in `.debug_line_str` (DWARF 5, 6.2.4).
const NEW: Row = (
    b".debug_line",
    &[
        Piece::Field("unit_length", 4, 0x2a),
        Piece::Field("version", 2, 5),
        Piece::Field("address_size", 1, 8),
        Piece::Field("segment_selector_size", 1, 0),
        Piece::Field("header_length", 4, 0x22),
        Piece::Field("minimum_instruction_length", 1, 1),
        Piece::Field("maximum_operations_per_instruction", 1, 1),
        Piece::Field("default_is_stmt", 1, 1),
        Piece::Field("line_base", 1, 0xfb),
        Piece::Field("line_range", 1, 14),
        Piece::Field("opcode_base", 1, 13),
        Piece::Bytes(b"\0\x01\x01\x01\x01\0\0\0\x01\0\0\x01"),
        Piece::Field("directory_entry_format_count", 1, 1),
        Piece::Field("DW_LNCT_path", 1, 1),
        Piece::Field("DW_FORM_line_strp", 1, 0x1f),
        Piece::Field("directories_count", 1, 1),
        Piece::Field("directory 0", 4, 0),
        Piece::Field("file_name_entry_format_count", 1, 1),
        Piece::Field("DW_LNCT_path", 1, 1),
        Piece::Field("DW_FORM_line_strp", 1, 0x1f),
        Piece::Field("file_names_count", 1, 1),
        Piece::Field("file 0", 4, 9),
    ],
);

/// Its texts, at 0 and 9.
const LINE_TEXTS: Row = (
    b".debug_line_str",
    &[Piece::Text(b"/build/p"), Piece::Text(b"a.c")],
);

/// A text of `.debug_line_str` at a place, with the place of its offset.
fn text(at: u64, len: u64, field: u64) -> TextPlace {
    let section = 2;
    TextPlace {
        section,
        at,
        len,
        field,
    }
}

/// The table of a file, read, and written with mapped paths; no memory where there is no map.
fn read_and_written(
    rt: &impl Abort,
    alloc: Global,
    file: &[u8],
) -> Result<(LineTable, WrittenTable), Fault> {
    assert!(rt; file.len() <= 0x8000_0000);
    let elf = ElfFile::read(alloc, file)?;
    let view = View::one(&elf)?;
    assert!(rt; 1 < view.section_count());
    let table = LineTable::read(alloc, &view, 1, 0)?;
    assert!(rt; table.section == 1);
    assert!(rt; table.start == 0);
    let Some(maps) = Maps::new(alloc, b"/build/p", b"/usr/src/debug/p")? else {
        return Err(Fault::NoMemory);
    };
    let mut places = TextPlaces::new(alloc);
    places.add(true, 0, 0)?;
    places.add(true, 9, 17)?;
    let texts = NewTexts::new(TextPlaces::new(alloc), places);
    let written = table.write_mapped(alloc, &view, &maps, &texts)?;
    Ok((table, written))
}

#[test]
fn a_table_is_read_and_gets_its_new_offsets(rt: HostRuntime) -> Result<(), Fail> {
    let file = file_of(rt.alloc(), &[NEW, LINE_TEXTS])?;
    let (table, written) = read_and_written(&rt, rt.alloc(), &file)?;
    assert_eq!(rt;
        (table.version, table.width, table.end),
        (5, Width::W32, 46)
    );
    assert_eq!(rt; table.dirs.as_slice(), [text(0, 8, 34)].as_slice());
    let file = FilePlace {
        text: text(9, 3, 42),
        dir: 0,
    };
    assert_eq!(rt; table.files.as_slice(), [file].as_slice());
    assert_eq!(rt; written.bytes.len(), 46);
    assert_eq!(rt; written.bytes.get(34).copied(), Some(0));
    assert_eq!(rt; written.bytes.get(42).copied(), Some(17));
    Ok(())
}
