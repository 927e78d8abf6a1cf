//! Whether a section of debug data is there twice: each listed name is that of one section, but for units
//! and macros of a relocatable file, which may stand in several groups (gABI ch. 4 "Section Groups").

ghost use Rattle.std.specs.Prelude.{◌≡◌, ◌+◌, ◌<◌, ◌==◌, length, IfErr, OnOk};
ghost use Rattle.dw_base.specs.DebugSections.{debug_section};
ghost use Rattle.dw_base.specs.DebugSectionFails.{DebugSectionsFail, may_repeat, repeats_by};
ghost use Rattle.dw_base.specs.Elf.{e_type, section_count};
ghost use Rattle.dw_view.specs.NamesFit.{IsNoted, NamesOnce};

use crate::fronts::{is_active, name_front};
use crate::names::FRONT_SIZE;
use dw_base::elf_numbers::ET_REL;
use dw_base::{DebugSection, FileKind, Kind, LISTED_COUNT, Refusal, listed_number};
use elf_file::ElfFile;

/// Each listed name is that of one section at most, where it isn't one that may stand several times. The
/// later one is refused. One pass: of each listed name the number of its section is kept.
#[tactic(auto, using(crate::proofs::RepeatLaws::pass_laws))]
pub fn names_once(elf: &ElfFile) -> Result<(), Refusal>
    ensures once { OnOk result (NamesOnce elf.now.bytes.now) }
    ensures refused { IfErr result (DebugSectionsFail elf.now.bytes.now) }
{
    let count = elf.section_count();
    let mut firsts = [0u32; LISTED_COUNT];
    for index in 0..count {
        note(elf, &mut firsts, index)?;
    }
    Ok(())
}

/// Notes the section of a number under its name, where it is of a listed name that only one may have.
fn note(elf: &ElfFile, firsts: &mut [u32], index: u32) -> Result<(), Refusal>
    requires there { index < section_count elf.now.bytes.now }
    requires size { length firsts.old ≡ LISTED_COUNT }
    requires noted { IsNoted elf.now.bytes.now index firsts.old }
    ensures noted { OnOk result (IsNoted elf.now.bytes.now (index + 1) firsts.new) }
    ensures refused { IfErr result (DebugSectionsFail elf.now.bytes.now) }
{
    if !is_active(&elf.section(index)) {
        return Ok(());
    }
    let front = name_front(elf, index, FRONT_SIZE);
    let number = listed_number(front);
    if number == LISTED_COUNT {
        return Ok(());
    }
    if may_repeat(elf, front) {
        return Ok(());
    }
    if firsts[number] != 0 {
        return Err(Refusal::at(Kind::Twice, index, 0));
    }
    firsts[number] = index;
    Ok(())
}

/// A file may have several sections of this name.
fn may_repeat(elf: &ElfFile, name: &[u8]) -> bool
    ensures { result ≡ may_repeat elf.now.bytes.now name.now }
{
    is_relocatable(elf) && repeats(name)
}

/// The file is relocatable.
#[tactic(auto, using(crate::proofs::KindLaws::kind_laws))]
pub fn is_relocatable(elf: &ElfFile) -> bool
    ensures { result ≡ (e_type elf.now.bytes.now == ET_REL) }
{
    match elf.kind {
        FileKind::Rel => true,
        FileKind::Exec => false,
        FileKind::Dyn => false,
        FileKind::Other(_) => false,
    }
}

/// A relocatable file may have several sections of this name.
fn repeats(name: &[u8]) -> bool
    ensures { result ≡ repeats_by (debug_section name.now) }
{
    match DebugSection::called(name) {
        Some(section) => section.row().repeats,
        None => false,
    }
}
