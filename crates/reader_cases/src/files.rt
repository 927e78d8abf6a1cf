//! Files of a few sections, in pieces whose fields have the names that the standards give them.

use dw_base::elf_numbers::{SHT_PROGBITS, SHT_STRTAB};
use std::alloc::{AllocError, Global};

/// A piece of a section.
pub enum Piece {
    /// Bytes as they are.
    Bytes(&'static [u8]),
    /// So many zeros.
    Zeros(usize),
    /// A field: its name in the standard or the attribute that it is the value of, its size in bytes, and its number.
    Field(&'static str, usize, u64),
    /// A text, with its NUL behind it.
    Text(&'static [u8]),
}

/// Appends a number of `size` bytes, the lowest first.
fn push_number(file: &mut Vec<u8>, size: usize, value: u64) -> Result<(), AllocError> {
    for byte in value.to_le_bytes().iter().take(size) {
        file.push(*byte)?;
    }
    Ok(())
}

/// Appends numbers, each of the size that stands at its number.
fn push_numbers(file: &mut Vec<u8>, sizes: &[usize], numbers: &[u64]) -> Result<(), AllocError> {
    for (size, value) in sizes.iter().zip(numbers.iter()) {
        push_number(file, *size, *value)?;
    }
    Ok(())
}

/// The sizes of the fields of a file header of 64 bits, behind its first seven bytes.
const HEADER_SIZES: [usize; 15] = [8, 1, 2, 2, 4, 8, 8, 8, 4, 2, 2, 2, 2, 2, 2];

/// Those of a section header.
const SECTION_SIZES: [usize; 10] = [4, 4, 8, 8, 8, 8, 4, 4, 8, 8];

/// Appends a piece.
fn push_piece(file: &mut Vec<u8>, piece: &Piece) -> Result<(), AllocError> {
    match piece {
        Piece::Bytes(bytes) => file.extend_from_slice(bytes),
        Piece::Zeros(count) => {
            for _ in 0..*count {
                file.push(0)?;
            }
            Ok(())
        }
        Piece::Field(_, size, value) => push_number(file, *size, *value),
        Piece::Text(text) => {
            file.extend_from_slice(text)?;
            file.push(0)?;
            Ok(())
        }
    }
}

/// A section: its name and what it is made of.
pub type Row = (&'static [u8], &'static [Piece]);

/// The sections of a file so far: their bytes, their names and their headers.
#[derive(Drop)]
struct Sections {
    bytes: Vec<u8>,
    names: Vec<u8>,
    headers: Vec<u8>,
}

/// Appends the name of a section and its header, where its bytes begin behind so many others.
fn push_named(
    sections: &mut Sections,
    name: &[u8],
    kind: u32,
    before: usize,
    size: u64,
) -> Result<(), AllocError> {
    let at = sections.names.len() as u64;
    // behind a file header of 64 bytes
    let place = (before as u64).saturating_add(64);
    let numbers = [at, u64::from(kind), 0, 0, place, size, 0, 0, 1, 0];
    push_numbers(&mut sections.headers, &SECTION_SIZES, &numbers)?;
    sections.names.extend_from_slice(name)?;
    sections.names.push(0)?;
    Ok(())
}

/// Appends a section.
fn push_row(sections: &mut Sections, row: &Row) -> Result<(), AllocError> {
    let (name, pieces) = *row;
    let before = sections.bytes.len();
    for piece in pieces {
        push_piece(&mut sections.bytes, piece)?;
    }
    let size = sections.bytes.len().saturating_sub(before) as u64;
    push_named(sections, name, SHT_PROGBITS, before, size)
}

/// An executable file of 64 bits for x86-64, the lowest byte first: its sections from number 1 on, and behind them the section name
/// table.
pub fn file_of(alloc: Global, rows: &[Row]) -> Result<Vec<u8>, AllocError> {
    // section 0 is unnamed
    let mut sections = Sections {
        bytes: Vec::new(alloc),
        names: Vec::from_slice(alloc, b"\0")?,
        headers: Vec::from_slice(alloc, &[0; 64])?,
    };
    for row in rows {
        push_row(&mut sections, row)?;
    }
    let before = sections.bytes.len();
    let size = (sections.names.len() as u64).saturating_add(10);
    push_named(&mut sections, b".shstrtab", SHT_STRTAB, before, size)?;
    sections.bytes.extend_from_slice(&sections.names)?;
    let count = rows.len() as u64 + 2;
    let place = (sections.bytes.len() as u64).saturating_add(64);
    let mut file = Vec::from_slice(alloc, b"\x7fELF\x02\x01\x01")?;
    let numbers = [
        0,
        0,
        2,
        62,
        1,
        0,
        0,
        place,
        0,
        64,
        0,
        0,
        64,
        count,
        count - 1,
    ];
    push_numbers(&mut file, &HEADER_SIZES, &numbers)?;
    file.extend_from_slice(&sections.bytes)?;
    file.extend_from_slice(&sections.headers)?;
    Ok(file)
}

/// A unit of version 4 with one entry, its name and its directory (DWARF 5, 7.5).
pub const UNIT: Row = (
    b".debug_info",
    &[
        Piece::Field("unit_length", 4, 16),
        Piece::Field("version", 2, 4),
        Piece::Field("debug_abbrev_offset", 4, 0),
        Piece::Field("address_size", 1, 8),
        Piece::Field("abbreviation code", 1, 1),
        Piece::Field("DW_AT_name", 4, 0),
        Piece::Field("DW_AT_comp_dir", 4, 13),
    ],
);

/// Its abbreviation.
pub const ABBREVIATIONS: Row = (
    b".debug_abbrev",
    &[
        Piece::Field("abbreviation code", 1, 1),
        Piece::Field("DW_TAG_compile_unit", 1, 0x11),
        Piece::Field("DW_CHILDREN_no", 1, 0),
        Piece::Field("DW_AT_name", 1, 0x03),
        Piece::Field("form: strp", 1, 0x0e),
        Piece::Field("DW_AT_comp_dir", 1, 0x1b),
        Piece::Field("form: strp", 1, 0x0e),
        Piece::Zeros(3),
    ],
);

/// Their texts, at 0 and 13.
pub const TEXTS: Row = (
    b".debug_str",
    &[Piece::Text(b"/build/p/a.c"), Piece::Text(b"/build/p")],
);
