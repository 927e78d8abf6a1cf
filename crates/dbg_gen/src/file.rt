//! The file (gABI ch. 4 "ELF Header", "Sections").

ghost use Rattle.std.specs.Prelude.{◌≡◌, ◌<◌, ◌≤◌, [], false, true, length, vec_len, IfOk};
ghost use Rattle.dw_base.specs.Elf.{is_empty_kind};
ghost use Rattle.dw_base.specs.Layout.{output_limit};
ghost use Rattle.dw_base.specs.declared.shared.Class.TheVariants.{C64};
ghost use Rattle.dw_base.specs.declared.shared.Order.TheVariants.{Little};
ghost use Rattle.elf_layout.specs.Given.{part};
ghost use Rattle.elf_layout.specs.PartsGiven.{part_given, parts_given};
ghost use Rattle.dbg_gen.specs.GeneratedFiles.{file_header, file_with, generated, head_of, null_part, parts_with};

use crate::counts::variable_counts;
use crate::texts::texts_of;
use crate::units::units_of;
use dw_base::elf_numbers::{SHT_NULL, SHT_PROGBITS, SHT_STRTAB};
use dw_base::{Fault, NoMemory, Section};
use elf_file::ElfFile;
use elf_layout::{Part, write_parts};
use std::alloc::{AllocError, Global};

/// The file header, but for the place of the section headers.
#[rattlefmt::skip]
const HEADER: [u8; 64] = [
    // `e_ident`: 64 bits, lowest byte first
    0x7f, b'E', b'L', b'F', 2, 1, 1, 0, 0, 0, 0, 0, 0, 0, 0, 0,
    // `e_type` EXEC, `e_machine` x86-64, `e_version`
    2, 0, 62, 0, 1, 0, 0, 0,
    // `e_entry`, `e_phoff`, `e_shoff`
    0, 0, 0, 0, 0, 0, 0, 0,
    0, 0, 0, 0, 0, 0, 0, 0,
    0, 0, 0, 0, 0, 0, 0, 0,
    // `e_flags`, `e_ehsize`, `e_phentsize`, `e_phnum`
    0, 0, 0, 0, 64, 0, 0, 0, 0, 0,
    // `e_shentsize`, `e_shnum`, `e_shstrndx`
    64, 0, 6, 0, 5, 0,
];

/// The abbreviations (DWARF 4, 7.5.3).
#[rattlefmt::skip]
const ABBREVIATIONS: [u8; 19] = [
    // 1: a compilation unit with children; its name and its directory by offsets of texts, and its line table
    1, 17, 1, 3, 14, 27, 14, 16, 23, 0, 0,
    // 2: a variable; its name by an offset of a text
    2, 52, 0, 3, 14, 0, 0,
    // the end
    0,
];

/// The section name table: an empty name, and the name of each section behind section 0.
const NAMES: &[u8] = b"\0.debug_info\0.debug_abbrev\0.debug_str\0.debug_line\0.shstrtab\0";

/// Section 0.
fn null_part() -> Part
    ensures { part_given result ≡ null_part }
{
    Part {
        head: head_of(SHT_NULL, 0, 0),
        body: None,
        kept: false,
    }
}

/// A header of a type, whose name stands at a place of the section name table.
fn head_of(kind: u32, name: u32, align: u64) -> Section
    ensures { result ≡ head_of kind name align }
{
    Section {
        name,
        kind,
        flags: 0,
        addr: 0,
        offset: 0,
        size: 0,
        link: 0,
        info: 0,
        align,
        entry_size: 0,
    }
}

/// A section of a type, whose name stands at a place of the section name table.
fn section_part(kind: u32, name: u32, body: Vec<u8>) -> Part
    requires full { is_empty_kind (head_of kind name 1) ≡ false }
    ensures { part_given result ≡ part (head_of kind name 1) true body.items }
{
    Part {
        head: head_of(kind, name, 1),
        body: Some(body),
        kept: false,
    }
}

/// The sections of a file with these units, texts and line tables.
fn parts_with(
    alloc: Global,
    units: Vec<u8>,
    texts: Vec<u8>,
    lines: Vec<u8>,
) -> Result<Vec<Part>, AllocError>
    ensures parts { IfOk result (λ parts. parts_given parts.items ≡ parts_with units.items texts.items lines.items) }
{
    let mut parts = Vec::with_capacity(alloc, 6)?;
    parts.push(null_part())?;
    parts.push(section_part(SHT_PROGBITS, 1, units))?;
    parts.push(section_part(SHT_PROGBITS, 13, Vec::from_slice(alloc, &ABBREVIATIONS)?))?;
    parts.push(section_part(SHT_PROGBITS, 27, texts))?;
    parts.push(section_part(SHT_PROGBITS, 38, lines))?;
    parts.push(section_part(SHT_STRTAB, 50, Vec::from_slice(alloc, NAMES)?))?;
    Ok(parts)
}

/// The file header, as a file without sections.
#[tactic(auto, using(crate::proofs::FileLaws::header_laws))]
fn header_file(alloc: Global, header: &[u8]) -> Result<ElfFile<'_>, NoMemory>
    requires is { header.now ≡ file_header }
    ensures class { IfOk result (λ file. file.class ≡ C64) }
    ensures order { IfOk result (λ file. file.order ≡ Little) }
{
    match ElfFile::read(alloc, header) {
        Ok(file) => Ok(file),
        Err(Fault::NoMemory) => Err(NoMemory),
        Err(Fault::Refused(_)) => unreachable!(),
    }
}

/// The file of these units, texts and line tables.
#[tactic(auto, using(crate::proofs::FileLaws::file_laws))]
fn file_with(
    alloc: Global,
    units: Vec<u8>,
    texts: Vec<u8>,
    lines: Vec<u8>,
) -> Result<Vec<u8>, NoMemory>
    requires small { length (file_with units.items texts.items lines.items) ≤ output_limit }
    ensures file { IfOk result (λ file. file.items ≡ file_with units.items texts.items lines.items) }
{
    let parts = parts_with(alloc, units, texts, lines)?;
    let elf = header_file(alloc, &HEADER)?;
    match write_parts(alloc, &elf, &HEADER, &parts, 5) {
        Ok(file) => Ok(file),
        Err(Fault::NoMemory) => Err(NoMemory),
        Err(Fault::Refused(_)) => unreachable!(),
    }
}

/// The generated file of a seed and so many units.
#[tactic(auto, using(crate::proofs::GeneratedLaws::generated_laws))]
pub fn generate(alloc: Global, seed: u64, units: u32) -> Result<Vec<u8>, NoMemory>
    requires some { 0 < units }
    requires few { units ≤ 10000 }
    ensures file { IfOk result (λ file. file.items ≡ generated seed units) }
{
    let counts = variable_counts(alloc, seed, units)?;
    let texts = texts_of(alloc, &counts, units)?;
    let (info, lines) = units_of(alloc, &texts, &counts, units)?;
    let file = file_with(alloc, info, texts.into_bytes(), lines)?;
    Ok(file)
}
