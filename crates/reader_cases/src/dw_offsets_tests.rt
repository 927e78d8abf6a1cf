//! Contributions to `.debug_str_offsets` with their slots, and a name table.

use crate::files::{Piece, Row, TEXTS, file_of};
use crate::records;
use dw_offsets::{Contribution, NameTable, Width, contributions, name_tables, slot_place};
use dw_view::View;
use std::test::Fail;

/// Two contributions: of two slots of 4 bytes, and of one of 8 bytes (DWARF 5, 7.26).
const SLOTS: Row = (
    b".debug_str_offsets",
    &[
        Piece::Field("unit_length", 4, 12),
        Piece::Field("version", 2, 5),
        Piece::Field("padding", 2, 0),
        Piece::Field("slot 0", 4, 0),
        Piece::Field("slot 1", 4, 13),
        Piece::Field("64-bit DWARF", 4, 0xffff_ffff),
        Piece::Field("unit_length", 8, 12),
        Piece::Field("version", 2, 5),
        Piece::Field("padding", 2, 0),
        Piece::Field("slot 0", 8, 0),
    ],
);

/// A table of one unit and one name without buckets, and an abbreviation of one byte (DWARF 5, 6.1.1).
const NAMES: Row = (
    b".debug_names",
    &[
        Piece::Field("unit_length", 4, 46),
        Piece::Field("version", 2, 5),
        Piece::Field("padding", 2, 0),
        Piece::Field("comp_unit_count", 4, 1),
        Piece::Field("local_type_unit_count", 4, 0),
        Piece::Field("foreign_type_unit_count", 4, 0),
        Piece::Field("bucket_count", 4, 0),
        Piece::Field("name_count", 4, 1),
        Piece::Field("abbrev_table_size", 4, 1),
        Piece::Field("augmentation_string_size", 4, 0),
        Piece::Field("unit 0", 4, 0),
        Piece::Field("string offset 0", 4, 13),
        Piece::Field("entry offset 0", 4, 0),
        Piece::Zeros(2),
    ],
);

#[test]
fn contributions_slots_and_name_tables_are_those_of_the_sections(
    rt: HostRuntime,
) -> Result<(), Fail> {
    let file = file_of(rt.alloc(), &[TEXTS, SLOTS, NAMES])?;
    let elf = records(rt.alloc(), &file)?;
    let view = View::one(&elf)?;
    let list = contributions(rt.alloc(), &view)?;
    let first = Contribution {
        start: 0,
        base: 8,
        end: 16,
        width: Width::W32,
    };
    let second = Contribution {
        start: 16,
        base: 32,
        end: 40,
        width: Width::W64,
    };
    assert_eq!(rt; list.as_slice(), [first, second].as_slice());
    assert_eq!(rt; slot_place(&list, 8, 1), Some(12));
    let tables = name_tables(rt.alloc(), &view)?;
    let table = NameTable {
        start: 0,
        end: 50,
        width: Width::W32,
        names: 1,
        strings: 40,
    };
    assert_eq!(rt; tables.as_slice(), [table].as_slice());
    Ok(())
}
