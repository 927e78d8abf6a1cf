//! The sections: each lies in the file, has an alignment, and a name that ends
//! (gABI ch. 4 "Sections", "String Table").

ghost use Rattle.std.specs.Prelude.{◌≡◌, ◌≢◌, ◌+◌, ◌≤◌, ◌<◌, ◌^◌, ◌↔◌, false, length, IsTrue, IfOk, OnOk, IfErr};
ghost use Rattle.dw_base.specs.Elf.{contents_at, is_empty_kind, name_index, name_table, nth_section, section_count, sections_of};
ghost use Rattle.dw_base.specs.ElfFails.{PlaceFails, PlaceReads, SectionFails, SectionReads, SectionsFail, SectionsRead, TableReads, IndexReads, NameTableReads};
ghost use Rattle.dw_base.specs.Layout.{output_limit};
ghost use Rattle.dw_base.specs.Refusals.{Blames};
ghost use Rattle.elf_file.specs.FileHeader.{file_header};
ghost use Rattle.dw_base.specs.Texts.{IsNulEnd};

use crate::records::FileHeader;
use crate::tables::nth_section_in;
use dw_base::{Fault, Kind, Refusal, Section, nul_end};
use std::alloc::Global;

/// `size` bytes from `offset` lie in a file of `len` bytes.
pub fn lies_within(offset: u64, size: u64, len: u64) -> bool
    ensures { IsTrue result ↔ (offset + size ≤ len) }
{
    offset <= len && size <= len - offset
}

/// The bytes of a section, none of type NULL and NOBITS.
#[tactic(auto, using(crate::proofs::SectionLaws::contents_laws), unfolding(dw_base::specs::Elf::contents_at))]
pub fn contents_in<'a>(bytes: &'a [u8], section: &Section) -> &'a [u8]
    requires { is_empty_kind section.now ≡ false → section.now.size ≢ 0 → section.now.offset + section.now.size ≤ length bytes.now }
    ensures { result.now ≡ contents_at bytes.now section.now }
{
    if section.takes_no_room() {
        return &bytes[..0];
    }
    if section.size == 0 {
        return &bytes[..0];
    }
    &bytes[section.offset as usize..(section.offset + section.size) as usize]
}

/// The section lies in the file and has an alignment. Refused as `Range` at (its number, 0) exactly
/// where it passes the end, or its alignment is neither 0 nor a power of two.
#[tactic(auto, using(crate::proofs::Rows::place_rows))]
fn place_fits(bytes: &[u8], section: &Section, index: u32) -> Result<(), Refusal>
    ensures reads { OnOk result (PlaceReads bytes.now section.now) }
    ensures refused { IfErr result (PlaceFails bytes.now section.now index) }
{
    let len = bytes.len() as u64;
    if !section.takes_no_room()
        && section.size != 0
        && !lies_within(section.offset, section.size, len)
    {
        return Err(Refusal::at(Kind::Range, index, 0));
    }
    if section.align != 0 && !section.align.is_power_of_two() {
        return Err(Refusal::at(Kind::Range, index, 0));
    }
    Ok(())
}

/// The place behind the last NUL of the section name table, 0 where there is no table.
/// Refused as `Range` exactly where the table's section doesn't lie in the file, or has no alignment.
#[tactic(auto, using(crate::proofs::Rows::section_rows, crate::proofs::SectionLaws::name_table_laws), unfolding(dw_base::specs::Elf::name_table, dw_base::specs::Elf::contents_of))]
pub fn names_end(bytes: &[u8], header: &FileHeader, names: u32) -> Result<usize, Refusal>
    requires is { header.now ≡ file_header bytes.now }
    requires small { length bytes.now ≤ output_limit }
    requires table { TableReads bytes.now }
    requires names { names ≡ name_index bytes.now }
    requires index { IndexReads bytes.now }
    ensures value { IfOk result (IsNulEnd (name_table bytes.now)) }
    ensures reads { OnOk result (NameTableReads bytes.now) }
    ensures refused { IfErr result (SectionsFail bytes.now) }
{
    if names == 0 {
        return Ok(nul_end(&bytes[..0]));
    }
    let table = nth_section_in(bytes, header, names);
    place_fits(bytes, &table, names)?;
    Ok(nul_end(contents_in(bytes, &table)))
}

/// The section of a number. Refused as `Range`: at (its number, 0) where `place_fits` refuses it, at
/// (its number, `sh_name`) where no NUL follows its name, with `end` behind the last NUL of the table.
#[tactic(auto, using(crate::proofs::Rows::section_rows, crate::proofs::SectionLaws::end_laws))]
fn section_of(
    bytes: &[u8],
    header: &FileHeader,
    names: u32,
    end: usize,
    index: u32,
) -> Result<Section, Refusal>
    requires is { header.now ≡ file_header bytes.now }
    requires small { length bytes.now ≤ output_limit }
    requires table { TableReads bytes.now }
    requires names { names ≡ name_index bytes.now }
    requires named { NameTableReads bytes.now }
    requires end { IsNulEnd (name_table bytes.now) end }
    requires there { index < section_count bytes.now }
    ensures value { IfOk result (λ section. section ≡ nth_section bytes.now index) }
    ensures reads { OnOk result (SectionReads bytes.now (nth_section bytes.now index)) }
    ensures refused { IfErr result (SectionsFail bytes.now) }
{
    let section = nth_section_in(bytes, header, index);
    place_fits(bytes, &section, index)?;
    if names != 0 && section.name as usize >= end {
        return Err(Refusal::at(Kind::Range, index, u64::from(section.name)));
    }
    Ok(section)
}

/// All sections, in order. Refused as `Range` exactly where one of them is.
#[tactic(auto, using(crate::proofs::Rows::section_rows), unfolding(dw_base::specs::Elf::sections_of))]
pub fn sections_in(
    alloc: Global,
    bytes: &[u8],
    header: &FileHeader,
    count: u32,
    names: u32,
    end: usize,
) -> Result<Vec<Section>, Fault>
    requires is { header.now ≡ file_header bytes.now }
    requires small { length bytes.now ≤ output_limit }
    requires table { TableReads bytes.now }
    requires count { count ≡ section_count bytes.now }
    requires names { names ≡ name_index bytes.now }
    requires named { NameTableReads bytes.now }
    requires end { IsNulEnd (name_table bytes.now) end }
    ensures value { IfOk result (λ sections. sections.items ≡ sections_of bytes.now) }
    ensures reads { OnOk result (SectionsRead bytes.now) }
    ensures refused { IfErr result (Blames (SectionsFail bytes.now)) }
{
    let mut sections = Vec::with_capacity(alloc, count as usize)?;
    for index in 0..count {
        let section = section_of(bytes, header, names, end, index)?;
        sections.push(section)?;
    }
    Ok(sections)
}
