//! A file that was read.

ghost use Rattle.std.specs.Prelude.{◌≡◌, ◌≢◌, ◌≤◌, ◌<◌, length, IfOk, OnOk, IfErr};
ghost use Rattle.dw_base.specs.Elf.{e_type, file_kind, contents_of, nth_section, section_count, section_name};
ghost use Rattle.dw_base.specs.ElfFails.{DebugFails, DebugReads, ElfFails, ElfReads, HeaderReads};
ghost use Rattle.dw_base.specs.Layout.{is_loaded_kind, output_limit};
ghost use Rattle.dw_base.specs.Numbers.{spelled};
ghost use Rattle.dw_base.specs.Refusals.{Blames, at};
ghost use Rattle.dw_base.specs.declared.fault.Refusal.{Refusal};
ghost use Rattle.elf_file.specs.FileHeader.{file_header};
ghost use Rattle.elf_file.specs.IsElf.{IsElf};

use crate::header::{checked_header, shape_fits};
use crate::names::text_in;
use crate::records::FileHeader;
use crate::sections::{contents_in, names_end, sections_in};
use crate::segments::{segments_in, segments_lie};
use crate::tables::{counted, indexed, segment_table_lies};
use dw_base::elf_numbers::{ELFMAG, ET_DYN, ET_EXEC, ET_REL};
use dw_base::{Class, Fault, FileKind, Kind, Order, Section, Segment};
use std::alloc::Global;

/// An ELF file: its bytes, and the records that they spell.
#[derive(Debug, Drop)]
pub struct ElfFile<'a> {
    /// The whole file.
    pub bytes: &'a [u8],
    /// `e_ident[EI_CLASS]`.
    pub class: Class,
    /// `e_ident[EI_DATA]`.
    pub order: Order,
    /// `e_type`.
    pub kind: FileKind,
    /// `e_machine`.
    pub machine: u16,
    /// The number of the section name table, 0 where there is none.
    pub names: u32,
    /// The sections, in order; section 0 is the first.
    pub sections: Vec<Section>,
    /// The segments, in order.
    pub segments: Vec<Segment>,
    pub ghost is_elf: { IsElf bytes.now class order kind machine names sections.items segments.items },
}

/// What a file is, by its `e_type`.
#[tactic(auto, unfolding(dw_base::specs::Elf::file_kind))]
fn kind_of(bytes: &[u8], number: u16) -> FileKind
    requires { number ≡ e_type bytes.now }
    ensures { result ≡ file_kind bytes.now }
{
    match number {
        ET_REL => FileKind::Rel,
        ET_EXEC => FileKind::Exec,
        ET_DYN => FileKind::Dyn,
        _ => FileKind::Other(number),
    }
}

/// The file of a file header that was read.
#[tactic(auto, using(crate::proofs::Rows::debug_rows, crate::proofs::ElfFileLaws::count_laws), unfolding(crate::specs::FileHeader::file_header))]
fn file_of<'a>(alloc: Global, bytes: &'a [u8], header: &FileHeader) -> Result<ElfFile<'a>, Fault>
    requires is { header.now ≡ file_header bytes.now }
    requires small { length bytes.now ≤ output_limit }
    requires header { HeaderReads bytes.now }
    ensures bytes { IfOk result (λ file. file.bytes.now ≡ bytes.now) }
    ensures value { IfOk result (λ file. IsElf bytes.now file.class file.order file.kind file.machine file.names file.sections.items file.segments.items) }
    ensures reads { OnOk result (DebugReads bytes.now) }
    ensures refused { IfErr result (Blames (DebugFails bytes.now)) }
{
    shape_fits(bytes, header)?;
    segment_table_lies(bytes, header)?;
    let count = counted(bytes, header)?;
    let names = indexed(bytes, header, count)?;
    let end = names_end(bytes, header, names)?;
    let sections = sections_in(alloc, bytes, header, count, names, end)?;
    let segments = segments_in(alloc, bytes, header)?;
    Ok(ElfFile {
        bytes,
        class: header.class,
        order: header.order,
        kind: kind_of(bytes, header.kind),
        machine: header.machine,
        names,
        sections,
        segments,
    })
}

impl<'a> ElfFile<'a> {
    /// How many sections there are.
    #[tactic(auto, using(crate::proofs::ElfFileLaws::number_laws))]
    pub fn section_count(&self) -> u32
        ensures { result ≡ section_count self.now.bytes.now }
    {
        self.sections.len() as u32
    }

    /// The section of a number.
    #[tactic(auto, using(crate::proofs::ElfFileLaws::file_laws))]
    pub fn section(&self, section: u32) -> Section
        requires there { section < section_count self.now.bytes.now }
        ensures { result ≡ nth_section self.now.bytes.now section }
    {
        self.sections[section as usize]
    }

    /// The file is of type EXEC or DYN: one that is loaded as it stands.
    #[tactic(auto, unfolding(dw_base::specs::Elf::file_kind))]
    pub fn is_loaded_kind(&self) -> bool
        ensures { result ≡ is_loaded_kind self.now.bytes.now }
    {
        match self.kind {
            FileKind::Exec | FileKind::Dyn => true,
            FileKind::Rel | FileKind::Other(_) => false,
        }
    }

    /// The bytes of the section of a number, none of type NULL and NOBITS.
    #[tactic(auto, using(crate::proofs::ElfFileLaws::file_laws), unfolding(dw_base::specs::Elf::contents_of))]
    pub fn contents(&self, section: u32) -> &'a [u8]
        requires there { section < section_count self.now.bytes.now }
        ensures contents { result.now ≡ contents_of self.now.bytes.now section }
    {
        contents_in(self.bytes, &self.section(section))
    }

    /// The name of the section of a number, empty where the file has no section name table.
    #[tactic(auto, using(crate::proofs::ElfFileLaws::file_laws), unfolding(dw_base::specs::Elf::section_name, dw_base::specs::Elf::name_table))]
    pub fn section_name(&self, section: u32) -> &[u8]
        requires there { section < section_count self.now.bytes.now }
        ensures name { result.now ≡ section_name self.now.bytes.now section }
    {
        if self.names == 0 {
            return &self.bytes[..0];
        }
        text_in(
            self.contents(self.names),
            u64::from(self.section(section).name),
        )
    }

    /// Reads a file of debug data, whose segments may pass its end. Refused as `Header` or `Range`
    /// exactly where one of their conditions holds, the one on segments past the end aside.
    #[tactic(auto, using(crate::proofs::Rows::debug_rows, dw_base::proofs::ElfLaws::debug_excludes))]
    pub fn read_debug(alloc: Global, bytes: &[u8]) -> Result<ElfFile<'_>, Fault>
        requires small { length bytes.now ≤ output_limit }
        ensures reads { OnOk result (DebugReads bytes.now) }
        ensures none { OnOk result ((r : Refusal) → DebugFails bytes.now r → ⊥) }
        ensures bytes { IfOk result (λ file. file.bytes.now ≡ bytes.now) }
        ensures value { IfOk result (λ file. IsElf bytes.now file.class file.order file.kind file.machine file.names file.sections.items file.segments.items) }
        ensures refused { IfErr result (Blames (DebugFails bytes.now)) }

        // Other bytes at the front than ELF's are told before all else that is wrong.
        ensures magic { spelled Order.Little bytes.now 0 4 ≢ ELFMAG → IfErr result (λ fault. fault ≡ Fault.Refused (at Kind.Header 0 0)) }
    {
        let header = checked_header(bytes)?;
        file_of(alloc, bytes, &header)
    }

    /// Reads a file. Refused as `Header` or `Range` exactly where one of their conditions holds.
    #[tactic(auto, using(crate::proofs::Rows::elf_rows, dw_base::proofs::ElfLaws::elf_excludes))]
    pub fn read(alloc: Global, bytes: &[u8]) -> Result<ElfFile<'_>, Fault>
        requires small { length bytes.now ≤ output_limit }
        ensures reads { OnOk result (ElfReads bytes.now) }
        ensures none { OnOk result ((r : Refusal) → ElfFails bytes.now r → ⊥) }
        ensures bytes { IfOk result (λ file. file.bytes.now ≡ bytes.now) }
        ensures value { IfOk result (λ file. IsElf bytes.now file.class file.order file.kind file.machine file.names file.sections.items file.segments.items) }
        ensures refused { IfErr result (Blames (ElfFails bytes.now)) }

        // Other bytes at the front than ELF's are told before all else that is wrong.
        ensures magic { spelled Order.Little bytes.now 0 4 ≢ ELFMAG → IfErr result (λ fault. fault ≡ Fault.Refused (at Kind.Header 0 0)) }
    {
        let header = checked_header(bytes)?;
        let file = file_of(alloc, bytes, &header)?;
        segments_lie(bytes, &header)?;
        Ok(file)
    }
}
