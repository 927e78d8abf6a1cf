//! Where the two tables lie, how many sections there are, and which holds their names
//! (gABI ch. 4 "ELF Header", "Sections"; ch. 5 "Program Header").

ghost use Rattle.std.specs.Prelude.{◌≡◌, ◌≢◌, ◌+◌, ◌*◌, ◌≤◌, ◌<◌, ◌^◌, length, IfOk, OnOk, IfErr};
ghost use Rattle.dw_base.specs.Elf.{class_of, e_shoff, e_phnum, shdr_size, name_index, nth_section, nth_segment, section_count};
ghost use Rattle.dw_base.specs.ElfFails.{SegmentTableFails, SegmentTableReads, TableFails, TableReads, IndexFails, IndexReads};
ghost use Rattle.dw_base.specs.Layout.{output_limit};
ghost use Rattle.elf_file.specs.FileHeader.{file_header};

use crate::records::FileHeader;
use crate::slots::{section_in, segment_in};
use dw_base::elf_numbers::{SHN_XINDEX, SHT_NULL, SHT_STRTAB};
use dw_base::{Kind, Refusal, Section, Segment};

/// The program header table lies in the file. Refused as `Range` at (0, `e_phoff`) exactly where it doesn't.
#[tactic(auto, using(crate::proofs::Rows::segment_table_rows), unfolding(crate::specs::FileHeader::file_header))]
pub fn segment_table_lies(bytes: &[u8], header: &FileHeader) -> Result<(), Refusal>
    requires { header.now ≡ file_header bytes.now }
    ensures reads { OnOk result (SegmentTableReads bytes.now) }
    ensures refused { IfErr result (SegmentTableFails bytes.now) }
{
    if header.phnum == 0 {
        return Ok(());
    }
    if !header
        .class
        .holds_program_headers(header.phoff, u64::from(header.phnum), bytes.len() as u64)
    {
        return Err(Refusal::at(Kind::Range, 0, header.phoff));
    }
    Ok(())
}

/// How many sections the table has that begins at `e_shoff`: as many as section 0 says where `e_shnum` is 0.
#[tactic(auto, using(crate::proofs::Rows::table_laws), unfolding(crate::specs::FileHeader::file_header, dw_base::specs::Elf::section_count, dw_base::specs::Elf::nth_section))]
fn count_in(bytes: &[u8], header: &FileHeader) -> u64
    requires is { header.now ≡ file_header bytes.now }
    requires there { e_shoff bytes.now ≢ 0 }
    requires inside { e_shoff bytes.now + shdr_size (class_of bytes.now) ≤ length bytes.now }
    ensures { result ≡ section_count bytes.now }
{
    if header.shnum != 0 {
        return u64::from(header.shnum);
    }
    section_in(header.class, header.order, bytes, header.shoff).size
}

/// How many sections there are. Refused as `Range` at (0, `e_shoff`) exactly where the section header
/// table passes the end of the file.
#[tactic(auto, using(crate::proofs::Rows::table_rows), unfolding(crate::specs::FileHeader::file_header))]
pub fn counted(bytes: &[u8], header: &FileHeader) -> Result<u32, Refusal>
    requires is { header.now ≡ file_header bytes.now }
    requires small { length bytes.now ≤ output_limit }
    ensures value { IfOk result (λ count. count ≡ section_count bytes.now) }
    ensures reads { OnOk result (TableReads bytes.now) }
    ensures refused { IfErr result (TableFails bytes.now) }
{
    if header.shoff == 0 {
        return Ok(0);
    }
    let len = bytes.len() as u64;
    if !header.class.holds_section_headers(header.shoff, 1, len) {
        return Err(Refusal::at(Kind::Range, 0, header.shoff));
    }
    let count = count_in(bytes, header);
    if !header.class.holds_section_headers(header.shoff, count, len) {
        return Err(Refusal::at(Kind::Range, 0, header.shoff));
    }
    Ok(count as u32)
}

/// The section of a number.
#[tactic(auto, using(crate::proofs::Rows::table_laws), unfolding(crate::specs::FileHeader::file_header, dw_base::specs::Elf::nth_section))]
pub fn nth_section_in(bytes: &[u8], header: &FileHeader, index: u32) -> Section
    requires is { header.now ≡ file_header bytes.now }
    requires small { length bytes.now ≤ output_limit }
    requires table { TableReads bytes.now }
    requires there { index < section_count bytes.now }
    ensures { result ≡ nth_section bytes.now index }
{
    let place = header
        .class
        .section_header_place(header.shoff, u64::from(index));
    section_in(header.class, header.order, bytes, place)
}

/// The segment of a number.
#[tactic(auto, using(crate::proofs::Rows::table_laws), unfolding(crate::specs::FileHeader::file_header, dw_base::specs::Elf::nth_segment))]
pub fn nth_segment_in(bytes: &[u8], header: &FileHeader, index: u16) -> Segment
    requires is { header.now ≡ file_header bytes.now }
    requires small { length bytes.now ≤ output_limit }
    requires table { SegmentTableReads bytes.now }
    requires there { index < e_phnum bytes.now }
    ensures { result ≡ nth_segment bytes.now index }
{
    let place = header
        .class
        .program_header_place(header.phoff, u64::from(index));
    segment_in(header.class, header.order, bytes, place)
}

/// The number of the section name table of a file with sections, 0 where there is none.
#[tactic(auto, unfolding(crate::specs::FileHeader::file_header, dw_base::specs::Elf::name_index))]
fn name_index_in(header: &FileHeader, first: &Section, bytes: &[u8]) -> u32
    requires is { header.now ≡ file_header bytes.now }
    requires first { first.now ≡ nth_section bytes.now 0 }
    requires there { e_shoff bytes.now ≢ 0 }
    ensures { result ≡ name_index bytes.now }
{
    if header.shstrndx == SHN_XINDEX {
        return first.link;
    }
    u32::from(header.shstrndx)
}

/// The number of the section name table, 0 where there is none. Refused as `Header`: at `e_shnum` where the
/// table has no section, at `e_shoff` where section 0 isn't of type NULL, at `e_shstrndx` where the number is
/// that of no string table.
#[tactic(auto, using(crate::proofs::Rows::index_rows), unfolding(crate::specs::FileHeader::file_header))]
pub fn indexed(bytes: &[u8], header: &FileHeader, count: u32) -> Result<u32, Refusal>
    requires is { header.now ≡ file_header bytes.now }
    requires small { length bytes.now ≤ output_limit }
    requires table { TableReads bytes.now }
    requires count { count ≡ section_count bytes.now }
    ensures value { IfOk result (λ names. names ≡ name_index bytes.now) }
    ensures reads { OnOk result (IndexReads bytes.now) }
    ensures refused { IfErr result (IndexFails bytes.now) }
{
    if header.shoff == 0 {
        return Ok(0);
    }
    if count == 0 {
        return Err(Refusal::at(Kind::Header, 0, header.class.shnum_place()));
    }
    let first = nth_section_in(bytes, header, 0);
    if first.kind != SHT_NULL {
        return Err(Refusal::at(Kind::Header, 0, header.class.shoff_place()));
    }
    let names = name_index_in(header, &first, bytes);
    if names == 0 {
        return Ok(0);
    }
    if names >= count {
        return Err(Refusal::at(Kind::Header, 0, header.class.shstrndx_place()));
    }
    let table = nth_section_in(bytes, header, names);
    if table.kind != SHT_STRTAB {
        return Err(Refusal::at(Kind::Header, 0, header.class.shstrndx_place()));
    }
    Ok(names)
}
