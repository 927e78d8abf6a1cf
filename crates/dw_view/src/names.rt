//! Whether the type of a file, and the names and flags of its sections, are ones that are handled (gABI
//! ch. 4 "ELF Header", "Sections"; DWARF 5, 7.3 and Appendix B).

ghost use Rattle.std.specs.Prelude.{false, ◌≡◌, ◌≢◌, ◌<◌, ◌==◌, ◌||◌, not, bit_and, length, take, IsTrue, IfErr, OnOk};
ghost use Rattle.dw_base.specs.DebugSections.{is_listed};
ghost use Rattle.dw_base.specs.DebugSectionFails.{DebugSectionsFail, NameFails, NameReads, is_active, is_debug_name, is_split_name, is_supplementary_name, is_zdebug_name};
ghost use Rattle.dw_base.specs.Elf.{e_type, name_index, nth_section, section_count, section_name};
ghost use Rattle.dw_base.specs.Layout.{is_loaded_kind};
ghost use Rattle.dw_base.specs.Refusals.{at};
ghost use Rattle.dw_view.specs.NamesFit.{FitsAt, NamesApart, NamesFit};

use crate::fronts::{is_active, name_front};
use dw_base::elf_numbers::{ET_REL, SHF_COMPRESSED};
use dw_base::{FileKind, Kind, LISTED_COUNT, Refusal, Section, listed_number};
use elf_file::ElfFile;

/// What the name of each section of debug data begins with.
const DEBUG_PREFIX: &[u8] = b".debug_";
/// What the name of a section of compressed debug data of the older kind begins with.
const ZDEBUG_PREFIX: &[u8] = b".zdebug_";
/// The link to a supplementary file.
const DEBUG_ALTLINK: &[u8] = b".gnu_debugaltlink";
/// What names a supplementary file.
const DEBUG_SUP: &[u8] = b".debug_sup";
/// What the name of a section of split debug data ends with.
const DWO_SUFFIX: &[u8] = b".dwo";
/// The index of compilation units of a package.
const DEBUG_CU_INDEX: &[u8] = b".debug_cu_index";
/// The index of type units of a package.
const DEBUG_TU_INDEX: &[u8] = b".debug_tu_index";
/// More bytes than any of the names has that are told apart by their first bytes.
pub const FRONT_SIZE: usize = 20;
/// Where a file header has `e_type`, in bytes (gABI ch. 4 "ELF Header").
const TYPE_PLACE: u64 = 16;

/// The file is relocatable, executable or a shared object.
#[tactic(auto, using(crate::proofs::KindLaws::kind_laws))]
pub fn kind_fits(elf: &ElfFile) -> Result<(), Refusal>
    ensures reads { OnOk result (IsTrue (e_type elf.now.bytes.now == ET_REL || is_loaded_kind elf.now.bytes.now)) }
    ensures refused { IfErr result (DebugSectionsFail elf.now.bytes.now) }
{
    match elf.kind {
        FileKind::Rel => Ok(()),
        FileKind::Exec => Ok(()),
        FileKind::Dyn => Ok(()),
        FileKind::Other(_) => Err(Refusal::at(Kind::FileType, 0, TYPE_PLACE)),
    }
}

/// Each section has a name and flags that are handled.
#[tactic(auto, using(crate::proofs::NameLaws::pass_laws))]
pub fn names_fit(elf: &ElfFile) -> Result<(), Refusal>
    ensures fit { OnOk result (NamesFit elf.now.bytes.now) }
    ensures refused { IfErr result (DebugSectionsFail elf.now.bytes.now) }
{
    let count = elf.section_count();
    for index in 0..count {
        section_fits(elf, index)?;
    }
    Ok(())
}

/// The section of a number is inactive, or has a name and flags that are handled.
#[tactic(auto, using(crate::proofs::NameLaws::section_laws))]
fn section_fits(elf: &ElfFile, index: u32) -> Result<(), Refusal>
    requires there { index < section_count elf.now.bytes.now }
    ensures fits { OnOk result (FitsAt elf.now.bytes.now index) }
    ensures refused { IfErr result (DebugSectionsFail elf.now.bytes.now) }
{
    if !is_active(&elf.section(index)) {
        return Ok(());
    }
    name_fits(elf, index)?;
    Ok(())
}

/// The section of a number has a name and flags that are handled.
fn name_fits(elf: &ElfFile, index: u32) -> Result<(), Refusal>
    requires there { index < section_count elf.now.bytes.now }
    ensures reads { OnOk result (NameReads (section_name elf.now.bytes.now index) (nth_section elf.now.bytes.now index)) }
    ensures refused { IfErr result (NameFails (section_name elf.now.bytes.now index) (nth_section elf.now.bytes.now index) index) }
{
    let front = name_front(elf, index, FRONT_SIZE);
    if is_zdebug_name(front) {
        return Err(Refusal::at(Kind::Compressed, index, 0));
    }
    if is_supplementary_name(front) {
        return Err(Refusal::at(Kind::Supplementary, index, 0));
    }
    if !is_debug_name(front) {
        return Ok(());
    }
    if is_compressed(&elf.section(index)) {
        return Err(Refusal::at(Kind::Compressed, index, 0));
    }
    if listed_number(front) < LISTED_COUNT {
        return Ok(());
    }
    if is_split_name(elf.section_name(index)) {
        return Err(Refusal::at(Kind::SplitDwarf, index, 0));
    }
    Err(Refusal::at(Kind::UnknownDebug, index, 0))
}

/// The name of a section of debug data.
fn is_debug_name(name: &[u8]) -> bool
    ensures { result ≡ is_debug_name name.now }
{
    name.starts_with(DEBUG_PREFIX)
}

/// The name of a section of compressed debug data of the older kind.
fn is_zdebug_name(name: &[u8]) -> bool
    ensures { result ≡ is_zdebug_name name.now }
{
    name.starts_with(ZDEBUG_PREFIX)
}

/// The name of a section that names a supplementary file, or links to one.
fn is_supplementary_name(name: &[u8]) -> bool
    ensures { result ≡ is_supplementary_name name.now }
{
    name == DEBUG_ALTLINK || name == DEBUG_SUP
}

/// The name of a section of split debug data, or of the index of a package of them.
fn is_split_name(name: &[u8]) -> bool
    ensures { result ≡ is_split_name name.now }
{
    is_debug_name(name)
        && (name.ends_with(DWO_SUFFIX) || name == DEBUG_CU_INDEX || name == DEBUG_TU_INDEX)
}

/// The section is compressed.
fn is_compressed(section: &Section) -> bool
    ensures { result ≡ not (bit_and section.now.flags SHF_COMPRESSED == 0) }
{
    section.flags & SHF_COMPRESSED != 0
}

/// The section name table is no section of debug data.
#[tactic(auto, using(crate::proofs::NameLaws::apart_laws))]
pub fn names_apart(elf: &ElfFile) -> Result<(), Refusal>
    ensures apart { OnOk result (NamesApart elf.now.bytes.now) }
    ensures refused { IfErr result (DebugSectionsFail elf.now.bytes.now) }
{
    if elf.names == 0 {
        return Ok(());
    }
    let front = name_front(elf, elf.names, FRONT_SIZE);
    if listed_number(front) < LISTED_COUNT {
        return Err(Refusal::at(Kind::Twice, elf.names, 0));
    }
    Ok(())
}
