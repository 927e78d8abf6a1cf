//! What keeps a file from being split: this project's profile.

ghost use Rattle.std.specs.Prelude.{◌≡◌, ◌≢◌, ◌<◌, ◌&&◌, ◌||◌, ℕ, true, false, IfOk, OnOk, IfErr};
ghost use Rattle.dw_base.specs.Elf.{section_count, name_index};
ghost use Rattle.dw_base.specs.ElfFails.{SegmentsRead};
ghost use Rattle.dw_base.specs.Layout.{fixed_end, is_loaded_kind};
ghost use Rattle.dw_base.specs.Lists.{tabulate};
ghost use Rattle.dw_base.specs.Refusals.{Blames};
ghost use Rattle.dw_base.specs.declared.fault.Refusal.{Refusal};
ghost use Rattle.dbg_split.specs.Droppable.{is_droppable};
ghost use Rattle.dbg_split.specs.SplitFails.{SectionBars, Unsplittable, drops_before, is_link, is_loaded_data};

use crate::marking::droppables;
use crate::names::is_named;
use crate::read_names::is_read;
use dw_base::{Fault, Kind, Refusal};
use elf_file::ElfFile;
use elf_layout::{begins_in_header, lies_across};
use std::alloc::Global;

/// The name of the link to a debug file.
pub const DEBUG_LINK: &[u8] = b".gnu_debuglink";
/// Where a file header has `e_type`, in bytes (gABI ch. 4 "ELF Header").
const TYPE_PLACE: u64 = 16;

/// The section is read for debug data, has bytes, and is in the image of the running program.
fn is_loaded_data(elf: &ElfFile, section: u32) -> bool
    requires there { section < section_count elf.now.bytes.now }
    ensures { result ≡ is_loaded_data elf.now.bytes.now section }
{
    let head = elf.section(section);
    head.is_alloc() && !head.takes_no_room() && is_read(elf, section)
}

/// The section is a link to a debug file.
#[tactic(auto, unfolding(crate::specs::SplitFails::is_link))]
fn is_link(elf: &ElfFile, section: u32) -> bool
    requires there { section < section_count elf.now.bytes.now }
    ensures { result ≡ is_link elf.now.bytes.now section }
{
    is_named(elf, section, DEBUG_LINK)
}

/// A section doesn't keep the file from being split; `behind` says that a droppable one stands before
/// it. Refused as `Fixed` or `Twice` at (its number, 0) exactly where a condition of these holds.
#[tactic(auto, using(crate::proofs::Rows::bar_rows))]
fn section_can_be_split(elf: &ElfFile, end: u64, section: u32, behind: bool) -> Result<(), Refusal>
    requires end { end ≡ fixed_end elf.now.bytes.now }
    requires there { section < section_count elf.now.bytes.now }
    requires behind { behind ≡ drops_before elf.now.bytes.now section }
    ensures none { OnOk result ((r : Refusal) → SectionBars elf.now.bytes.now section r → ⊥) }
    ensures refused { IfErr result (SectionBars elf.now.bytes.now section) }
{
    let head = elf.section(section);
    if lies_across(elf, end, &head) {
        return Err(Refusal::at(Kind::Fixed, section, 0));
    }
    if begins_in_header(elf, &head) {
        return Err(Refusal::at(Kind::Fixed, section, 0));
    }
    if is_loaded_data(elf, section) {
        return Err(Refusal::at(Kind::Fixed, section, 0));
    }
    if head.is_alloc() && behind {
        return Err(Refusal::at(Kind::Fixed, section, 0));
    }
    if is_link(elf, section) {
        return Err(Refusal::at(Kind::Twice, section, 0));
    }
    Ok(())
}

/// No section keeps the file from being split; `dropped` says which are droppable.
#[tactic(auto, using(crate::proofs::Rows::section_rows))]
fn sections_can_be_split(elf: &ElfFile, end: u64, dropped: &[bool]) -> Result<(), Refusal>
    requires end { end ≡ fixed_end elf.now.bytes.now }
    requires dropped { dropped.now ≡ tabulate (is_droppable elf.now.bytes.now) (section_count elf.now.bytes.now) }
    ensures none { OnOk result ((i : ℕ) (r : Refusal) → i < section_count elf.now.bytes.now → SectionBars elf.now.bytes.now i r → ⊥) }
    ensures refused { IfErr result (Unsplittable elf.now.bytes.now) }
{
    let mut behind = false;
    for section in 0..elf.section_count() {
        section_can_be_split(elf, end, section, behind)?;
        behind = behind || dropped[section as usize];
    }
    Ok(())
}

/// The file is one that is loaded, and has a section name table that may change. Refused as `FileType`,
/// `Header` or `Fixed` exactly where it isn't.
#[tactic(auto, using(crate::proofs::Rows::whole_rows))]
fn file_fits(elf: &ElfFile) -> Result<(), Refusal>
    requires segments { SegmentsRead elf.now.bytes.now }
    ensures loaded { OnOk result (is_loaded_kind elf.now.bytes.now ≡ true) }
    ensures named { OnOk result (name_index elf.now.bytes.now ≢ 0) }
    ensures refused { IfErr result (Unsplittable elf.now.bytes.now) }
{
    if !elf.is_loaded_kind() {
        return Err(Refusal::at(Kind::FileType, 0, TYPE_PLACE));
    }
    if elf.names == 0 {
        return Err(Refusal::at(Kind::Header, 0, elf.class.shstrndx_place()));
    }
    Ok(())
}

/// Nothing keeps a file that is loaded and has names from being split. Refused as `Fixed` or `Twice` at
/// (a section, 0) exactly where one does.
#[tactic(auto, using(crate::proofs::Rows::whole_rows))]
fn can_be_split(elf: &ElfFile, end: u64, dropped: &[bool]) -> Result<(), Refusal>
    requires loaded { is_loaded_kind elf.now.bytes.now ≡ true }
    requires named { name_index elf.now.bytes.now ≢ 0 }
    requires end { end ≡ fixed_end elf.now.bytes.now }
    requires dropped { dropped.now ≡ tabulate (is_droppable elf.now.bytes.now) (section_count elf.now.bytes.now) }
    ensures none { OnOk result ((r : Refusal) → Unsplittable elf.now.bytes.now r → ⊥) }
    ensures refused { IfErr result (Unsplittable elf.now.bytes.now) }
{
    if elf.is_fixed_by(elf.names, end) {
        return Err(Refusal::at(Kind::Fixed, elf.names, 0));
    }
    sections_can_be_split(elf, end, dropped)?;
    Ok(())
}

/// Which sections the stripped file of a file doesn't keep, by their numbers; nothing keeps the file from being split. Refused as
/// `FileType`, `Header`, `Fixed` or `Twice` exactly where something does.
#[tactic(auto, using(crate::proofs::Rows::shape_rows))]
pub fn dropped_sections(alloc: Global, elf: &ElfFile) -> Result<Vec<bool>, Fault>
    requires segments { SegmentsRead elf.now.bytes.now }
    ensures dropped { IfOk result (λ dropped. dropped.items ≡ tabulate (is_droppable elf.now.bytes.now) (section_count elf.now.bytes.now)) }
    ensures named { OnOk result (name_index elf.now.bytes.now ≢ 0) }
    ensures none { OnOk result ((r : Refusal) → Unsplittable elf.now.bytes.now r → ⊥) }
    ensures refused { IfErr result (Blames (Unsplittable elf.now.bytes.now)) }
{
    file_fits(elf)?;
    let dropped = droppables(alloc, elf)?;
    can_be_split(elf, elf.fixed_end(), &dropped)?;
    Ok(dropped)
}
