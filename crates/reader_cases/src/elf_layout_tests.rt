//! A file with a new body, and a file of parts. The expected sums are those of zlib, of files that another program makes.

ghost use Rattle.std.specs.Prelude.{◌≡◌, true, None, IfOk};
ghost use Rattle.dw_base.specs.Elf.{is_empty_kind};
ghost use Rattle.elf_layout.specs.Given.{AreContents};

use crate::files::{ABBREVIATIONS, TEXTS, UNIT, file_of};
use debug_link::crc32;
use dw_base::elf_numbers::SHT_NULL;
use dw_base::{Fault, OUTPUT_LIMIT, Section};
use elf_file::ElfFile;
use elf_layout::{NewBody, Part, emit, write_parts};
use std::alloc::{AllocError, Global};
use std::test::Fail;

/// The item of a section: a body, where it takes room and one is given.
fn item_for<'a>(
    alloc: Global,
    head: &Section,
    given: bool,
    body: &[u8],
) -> Result<Option<NewBody<'a>>, AllocError>
    ensures none { IfOk result (λ item. is_empty_kind head.now ≡ true → item ≡ None) }
{
    if head.takes_no_room() {
        return Ok(None);
    }
    if !given {
        return Ok(None);
    }
    let bytes = Vec::from_slice(alloc, body)?;
    Ok(Some(NewBody::whole(bytes)))
}

/// The items of all sections, of which one is given a body.
fn contents_with<'a>(
    alloc: Global,
    elf: &ElfFile,
    changed: u32,
    body: &[u8],
) -> Result<Vec<Option<NewBody<'a>>>, AllocError>
    ensures items { IfOk result (λ items. AreContents elf.now.bytes.now items.items) }
{
    let mut items = Vec::new(alloc);
    for section in 0..elf.section_count() {
        items.push(item_for(alloc, &elf.section(section), section == changed, body)?)?;
    }
    Ok(items)
}

/// The file with a new body for one section.
fn emitted(alloc: Global, bytes: &[u8], changed: u32, body: &[u8]) -> Result<Vec<u8>, Fault> {
    if bytes.len() as u64 > OUTPUT_LIMIT {
        return Err(Fault::NoMemory);
    }
    let elf = ElfFile::read(alloc, bytes)?;
    let contents = contents_with(alloc, &elf, changed, body)?;
    let file = emit(alloc, &elf, contents)?;
    Ok(file.joined(alloc)?)
}

/// A file of parts, in the class and order of another; no memory where they are none.
fn of_parts(
    alloc: Global,
    bytes: &[u8],
    front: &[u8],
    parts: &[Part],
    names: u32,
) -> Result<Vec<u8>, Fault> {
    if bytes.len() as u64 > OUTPUT_LIMIT || front.len() < 64 || parts.is_empty() {
        return Err(Fault::NoMemory);
    }
    if parts[0].head.kind != SHT_NULL {
        return Err(Fault::NoMemory);
    }
    let elf = ElfFile::read(alloc, bytes)?;
    write_parts(alloc, &elf, front, parts, names)
}

/// The 64 bytes of a file's header; all bytes, where there are fewer.
fn header_of(bytes: &[u8]) -> &[u8] {
    if bytes.len() < 64 {
        return bytes;
    }
    &bytes[..64]
}

/// A section header of a name, a type, a place, a size and an alignment.
fn head(name: u32, kind: u32, offset: u64, size: u64, align: u64) -> Section {
    Section {
        name,
        kind,
        flags: 0,
        addr: 0,
        offset,
        size,
        link: 0,
        info: 0,
        align,
        entry_size: 0,
    }
}

/// The texts get others of 38 bytes, and what stands behind them moves.
#[test]
fn a_file_is_written_with_a_new_body(rt: HostRuntime) -> Result<(), Fail> {
    let input = file_of(rt.alloc(), &[UNIT, ABBREVIATIONS, TEXTS])?;
    let body = b"/usr/src/debug/p/a.c\0/usr/src/debug/p\0";
    let file = emitted(rt.alloc(), &input, 3, body)?;
    assert_eq!(rt; file.len(), 504);
    assert_eq!(rt; crc32(&file), 2_032_432_274);
    Ok(())
}

/// A part that isn't kept and has no body, one with three bytes, and one that is kept.
fn parts(alloc: Global) -> Result<Vec<Part>, AllocError> {
    let mut parts = Vec::new(alloc);
    parts.push(Part {
        head: head(0, 0, 7, 9, 0),
        body: None,
        kept: false,
    })?;
    parts.push(Part {
        head: head(1, 1, 99, 99, 8),
        body: Some(Vec::from_slice(alloc, b"abc")?),
        kept: false,
    })?;
    parts.push(Part {
        head: head(4, 3, 64, 14, 1),
        body: None,
        kept: true,
    })?;
    Ok(parts)
}

#[test]
fn parts_are_kept_or_laid_out(rt: HostRuntime) -> Result<(), Fail> {
    let like = file_of(rt.alloc(), &[TEXTS])?;
    let mut front = Vec::from_slice(rt.alloc(), header_of(&like))?;
    front.extend_from_slice(b"\0.d\0.shstrtab\0")?;
    let file = of_parts(rt.alloc(), &like, &front, &parts(rt.alloc())?, 2)?;
    assert_eq!(rt; file.len(), 280);
    assert_eq!(rt; crc32(&file), 3_781_186_621);
    Ok(())
}
