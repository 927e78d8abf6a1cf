//! The units of all sections in one list, with their tables of abbreviations.

use crate::files::{ABBREVIATIONS, Piece, Row, TEXTS, UNIT, file_of};
use dw_base::NoMemory;
use dw_units::{Units, read_units};
use dw_view::View;
use elf_file::ElfFile;
use std::alloc::{AllocError, Global};
use std::test::Fail;

/// A unit of a type without entries, which names the table of the other.
const TYPE_UNIT: Row = (
    b".debug_types",
    &[
        Piece::Field("unit_length", 4, 19),
        Piece::Field("version", 2, 4),
        Piece::Field("debug_abbrev_offset", 4, 0),
        Piece::Field("address_size", 1, 8),
        Piece::Field("type_signature", 8, 7),
        Piece::Field("type_offset", 4, 0),
    ],
);

/// The section, the start and the number of the table of each unit.
fn rows_of(alloc: Global, units: &Units) -> Result<Vec<(u32, u64, usize)>, AllocError> {
    let mut rows = Vec::new(alloc);
    for unit in units.all() {
        rows.push((unit.header.section, unit.header.start, unit.table))?;
    }
    Ok(rows)
}

/// How many abbreviations the unit of a number has, none where there is no such unit.
fn count_of(alloc: Global, units: &Units, unit: usize) -> Result<usize, NoMemory> {
    if unit < units.all().len() {
        return Ok(units.table(alloc, unit)?.get().len());
    }
    Ok(0)
}

#[test]
fn units_of_two_sections_share_a_table(rt: HostRuntime) -> Result<(), Fail> {
    let file = file_of(rt.alloc(), &[UNIT, TYPE_UNIT, ABBREVIATIONS, TEXTS])?;
    assert!(rt; file.len() <= 0x8000_0000);
    let elf = ElfFile::read(rt.alloc(), &file)?;
    let view = View::one(&elf)?;
    let units = read_units(rt.alloc(), &view)?;
    let rows = rows_of(rt.alloc(), &units)?;
    assert_eq!(rt; rows.as_slice(), [(1, 0, 0), (2, 0, 0)].as_slice());
    assert_eq!(rt; count_of(rt.alloc(), &units, 1)?, 1);
    Ok(())
}
