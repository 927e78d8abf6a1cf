//! The stripped file: the sections that aren't droppable, with new numbers, and a link to the debug file
//! (gABI ch. 4 "Sections"; this project's profile).

ghost use Rattle.std.specs.Prelude.{◌≡◌, ◌≢◌, ◌+◌, ◌^◌, ◌<◌, ◌≤◌, ◌&&◌, not, [], if◌then◌else◌, length, take, IfOk, OnOk, IfErr};
ghost use Rattle.dw_base.specs.Elf.{is_empty_kind, name_index, section_count};
ghost use Rattle.dw_base.specs.Layout.{fixed_end, output_limit};
ghost use Rattle.dw_base.specs.ElfFails.{ElfReads, SegmentsRead};
ghost use Rattle.dw_base.specs.LayoutFails.{TooLong};
ghost use Rattle.dw_base.specs.Lists.{tabulate};
ghost use Rattle.dw_base.specs.Refusals.{Blames};
ghost use Rattle.dw_base.specs.declared.fault.Refusal.{Refusal};
ghost use Rattle.elf_layout.specs.Given.{part};
ghost use Rattle.elf_layout.specs.PartsGiven.{ArePartsFor, part_given, parts_given};
ghost use Rattle.dbg_split.specs.Droppable.{is_droppable};
ghost use Rattle.dbg_split.specs.StrippedFile.{info_is_number, kept_before, kept_parts, link_head, link_part, new_number, stripped_body, stripped_head, stripped_part, stripped_parts, stripped_with};

use crate::dropping::is_relocations;
use crate::measuring::check_parts;
use dw_base::elf_numbers::{SHF_INFO_LINK, SHT_PROGBITS};
use dw_base::{Fault, NoMemory, Section};
use elf_file::ElfFile;
use elf_layout::{Part, write_parts};
use std::alloc::{AllocError, Global};

/// The name of the link to a debug file, as the section name table has it.
const LINK_NAME: &[u8] = b".gnu_debuglink\0";

/// How many sections before each one are kept.
#[tactic(auto, using(crate::proofs::StrippedLaws::size_laws))]
fn kept_before(alloc: Global, elf: &ElfFile, dropped: &[bool]) -> Result<Vec<u32>, AllocError>
    requires dropped { dropped.now ≡ tabulate (is_droppable elf.now.bytes.now) (section_count elf.now.bytes.now) }
    ensures counts { IfOk result (λ counts. counts.items ≡ tabulate (kept_before elf.now.bytes.now) (section_count elf.now.bytes.now)) }
{
    let mut counts = Vec::with_capacity(alloc, dropped.len())?;
    let mut kept = 0_u32;
    for section in 0..elf.section_count() {
        counts.push(kept)?;
        kept = counted(kept, dropped[section as usize]);
    }
    Ok(counts)
}

/// A count of kept sections with one section more.
fn counted(kept: u32, dropped: bool) -> u32
    requires few { kept + 1 < 2 ^ 32 }
    ensures value { result ≡ (if dropped then kept else kept + 1) }
    ensures few { result ≤ kept + 1 }
{
    if dropped { kept } else { kept + 1 }
}

/// The new number of a section: 0 of one that is dropped; a number that names no section stays.
#[tactic(auto, using(crate::proofs::StrippedLaws::size_laws))]
fn new_number(elf: &ElfFile, dropped: &[bool], counts: &[u32], number: u32) -> u32
    requires dropped { dropped.now ≡ tabulate (is_droppable elf.now.bytes.now) (section_count elf.now.bytes.now) }
    requires counts { counts.now ≡ tabulate (kept_before elf.now.bytes.now) (section_count elf.now.bytes.now) }
    ensures { result ≡ new_number elf.now.bytes.now number }
{
    if number >= elf.section_count() {
        return number;
    }
    if dropped[number as usize] {
        return 0;
    }
    counts[number as usize]
}

/// The info field of a header is the number of a section.
fn info_is_number(head: &Section) -> bool
    ensures { result ≡ info_is_number head.now }
{
    is_relocations(head) || head.flags & SHF_INFO_LINK != 0
}

/// The header of a kept section, with the new numbers.
#[tactic(auto, unfolding(crate::specs::StrippedFile::stripped_head))]
fn stripped_head(elf: &ElfFile, dropped: &[bool], counts: &[u32], head: &Section) -> Section
    requires dropped { dropped.now ≡ tabulate (is_droppable elf.now.bytes.now) (section_count elf.now.bytes.now) }
    requires counts { counts.now ≡ tabulate (kept_before elf.now.bytes.now) (section_count elf.now.bytes.now) }
    ensures { result ≡ stripped_head elf.now.bytes.now head.now }
{
    let info = if info_is_number(head) {
        new_number(elf, dropped, counts, head.info)
    } else {
        head.info
    };
    Section {
        link: new_number(elf, dropped, counts, head.link),
        info,
        ..*head
    }
}

/// The contents of a kept section, with the name of the link behind those of the section name table.
#[tactic(auto, unfolding(crate::specs::StrippedFile::stripped_body))]
fn stripped_body(alloc: Global, elf: &ElfFile, section: u32) -> Result<Vec<u8>, AllocError>
    requires there { section < section_count elf.now.bytes.now }
    ensures body { IfOk result (λ body. body.items ≡ stripped_body elf.now.bytes.now section) }
{
    let mut body = Vec::from_slice(alloc, elf.contents(section))?;
    if section == elf.names {
        body.extend_from_slice(LINK_NAME)?;
    }
    Ok(body)
}

/// A part that isn't laid out.
fn without_body(head: Section, kept: bool) -> Part
    ensures { part_given result ≡ part head (not kept && not (is_empty_kind head)) [] }
{
    Part {
        head,
        body: None,
        kept,
    }
}

/// A part with a body.
fn with_body(head: Section, kept: bool, body: Vec<u8>) -> Part
    ensures { part_given result ≡ part head (not kept && not (is_empty_kind head)) body.items }
{
    Part {
        head,
        body: Some(body),
        kept,
    }
}

/// A kept section; its bytes where it moves.
fn stripped_part(
    alloc: Global,
    elf: &ElfFile,
    end: u64,
    dropped: &[bool],
    counts: &[u32],
    section: u32,
) -> Result<Part, AllocError>
    requires end { end ≡ fixed_end elf.now.bytes.now }
    requires dropped { dropped.now ≡ tabulate (is_droppable elf.now.bytes.now) (section_count elf.now.bytes.now) }
    requires counts { counts.now ≡ tabulate (kept_before elf.now.bytes.now) (section_count elf.now.bytes.now) }
    requires there { section < section_count elf.now.bytes.now }
    ensures part { IfOk result (λ part. part_given part ≡ stripped_part elf.now.bytes.now section) }
{
    let own = elf.section(section);
    let head = stripped_head(elf, dropped, counts, &own);
    let kept = elf.is_fixed_by(section, end);
    if kept {
        return Ok(without_body(head, kept));
    }
    if own.takes_no_room() {
        return Ok(without_body(head, kept));
    }
    let body = stripped_body(alloc, elf, section)?;
    Ok(with_body(head, kept, body))
}

/// The kept sections.
#[tactic(auto, using(crate::proofs::StrippedLaws::part_laws))]
fn kept_parts(
    alloc: Global,
    elf: &ElfFile,
    end: u64,
    dropped: &[bool],
    counts: &[u32],
) -> Result<Vec<Part>, AllocError>
    requires end { end ≡ fixed_end elf.now.bytes.now }
    requires dropped { dropped.now ≡ tabulate (is_droppable elf.now.bytes.now) (section_count elf.now.bytes.now) }
    requires counts { counts.now ≡ tabulate (kept_before elf.now.bytes.now) (section_count elf.now.bytes.now) }
    ensures parts { IfOk result (λ parts. parts_given parts.items ≡ kept_parts elf.now.bytes.now (section_count elf.now.bytes.now)) }
{
    let mut parts = Vec::new(alloc);
    for section in 0..elf.section_count() {
        if !dropped[section as usize] {
            parts.push(stripped_part(alloc, elf, end, dropped, counts, section)?)?;
        }
    }
    Ok(parts)
}

/// The header of the link.
#[tactic(auto, unfolding(crate::specs::StrippedFile::link_head), using(crate::proofs::StrippedLaws::link_laws))]
fn link_head(elf: &ElfFile) -> Section
    requires named { name_index elf.now.bytes.now ≢ 0 }
    ensures { result ≡ link_head elf.now.bytes.now }
{
    Section {
        name: elf.contents(elf.names).len() as u32,
        kind: SHT_PROGBITS,
        flags: 0,
        addr: 0,
        offset: 0,
        size: 0,
        link: 0,
        info: 0,
        align: 4,
        entry_size: 0,
    }
}

/// The link.
#[tactic(auto, unfolding(crate::specs::StrippedFile::link_head))]
fn link_of(elf: &ElfFile, link: Vec<u8>) -> Part
    requires named { name_index elf.now.bytes.now ≢ 0 }
    ensures { part_given result ≡ link_part elf.now.bytes.now link.items }
{
    Part {
        head: link_head(elf),
        body: Some(link),
        kept: false,
    }
}

/// All sections of the stripped file.
fn stripped_parts(
    alloc: Global,
    elf: &ElfFile,
    end: u64,
    dropped: &[bool],
    counts: &[u32],
    link: Vec<u8>,
) -> Result<Vec<Part>, NoMemory>
    requires segments { SegmentsRead elf.now.bytes.now }
    requires named { name_index elf.now.bytes.now ≢ 0 }
    requires end { end ≡ fixed_end elf.now.bytes.now }
    requires dropped { dropped.now ≡ tabulate (is_droppable elf.now.bytes.now) (section_count elf.now.bytes.now) }
    requires counts { counts.now ≡ tabulate (kept_before elf.now.bytes.now) (section_count elf.now.bytes.now) }
    ensures parts { IfOk result (λ parts. parts_given parts.items ≡ stripped_parts elf.now.bytes.now link.items) }
    ensures fit { IfOk result (λ parts. ArePartsFor elf.now.class (take end elf.now.bytes.now) parts.items) }
{
    let mut parts = kept_parts(alloc, elf, end, dropped, counts)?;
    parts.push(link_of(elf, link))?;
    Ok(parts)
}

/// The part of the file that stays.
fn fixed_part<'a>(elf: &'a ElfFile, end: u64) -> &'a [u8]
    requires within { end ≤ length elf.now.bytes.now }
    ensures { result.now ≡ take end elf.now.bytes.now }
{
    &elf.bytes[..end as usize]
}

/// The stripped file with a link of these contents; `dropped` says which sections it doesn't keep.
/// Refused as `TooLarge` only where it would pass the limit.
#[tactic(auto, unfolding(crate::specs::StrippedFile::stripped_with), using(crate::proofs::StrippedLaws::whole_laws))]
pub fn stripped_file(
    alloc: Global,
    elf: &ElfFile,
    end: u64,
    dropped: &[bool],
    link: Vec<u8>,
) -> Result<Vec<u8>, Fault>
    requires segments { SegmentsRead elf.now.bytes.now }
    requires named { name_index elf.now.bytes.now ≢ 0 }
    requires end { end ≡ fixed_end elf.now.bytes.now }
    requires within { end ≤ length elf.now.bytes.now }
    requires dropped { dropped.now ≡ tabulate (is_droppable elf.now.bytes.now) (section_count elf.now.bytes.now) }
    ensures file { IfOk result (λ file. file.items ≡ stripped_with elf.now.bytes.now link.items) }
    ensures none { OnOk result ((r : Refusal) → TooLong (length (stripped_with elf.now.bytes.now link.items)) r → ⊥) }
    ensures refused { IfErr result (Blames (TooLong (length (stripped_with elf.now.bytes.now link.items)))) }
{
    let counts = kept_before(alloc, elf, dropped)?;
    let names = new_number(elf, dropped, &counts, elf.names);
    let parts = stripped_parts(alloc, elf, end, dropped, &counts, link)?;
    write_parts(alloc, elf, fixed_part(elf, end), &parts, names)
}

/// The stripped file with a link of these contents isn't too long; `dropped` says which sections it doesn't keep.
/// Refused as `TooLarge` exactly where it is.
pub fn check_stripped(
    alloc: Global,
    elf: &ElfFile,
    end: u64,
    dropped: &[bool],
    link: Vec<u8>,
) -> Result<(), Fault>
    requires reads { ElfReads elf.now.bytes.now }
    requires small { length elf.now.bytes.now ≤ output_limit }
    requires named { name_index elf.now.bytes.now ≢ 0 }
    requires end { end ≡ fixed_end elf.now.bytes.now }
    requires dropped { dropped.now ≡ tabulate (is_droppable elf.now.bytes.now) (section_count elf.now.bytes.now) }
    ensures none { OnOk result ((r : Refusal) → TooLong (length (stripped_with elf.now.bytes.now link.items)) r → ⊥) }
    ensures refused { IfErr result (Blames (TooLong (length (stripped_with elf.now.bytes.now link.items)))) }
{
    let counts = kept_before(alloc, elf, dropped)?;
    let parts = stripped_parts(alloc, elf, end, dropped, &counts, link)?;
    check_parts(alloc, elf, end, &parts)?;
    Ok(())
}
