//! For each section the first that holds its relocations, and for each symbol table the first that holds the section numbers of its
//! symbols (gABI ch. 4 "Sections", `sh_link` and `sh_info`). Each section is looked at once.

ghost use Rattle.std.specs.Prelude.{◌≡◌, ◌+◌, ◌<◌, None, is_some, length, get_or, IfErr, IfOk, IfSome, MatchOption, OnOk};
ghost use Rattle.dw_base.specs.DebugSections.{debug_section};
ghost use Rattle.dw_base.specs.Elf.{contents_of, e_type, section_count, section_name};
ghost use Rattle.dw_base.specs.Refusals.{Blames};
ghost use Rattle.dw_base.specs.RelocationSectionFails.{RelocationSectionsFail, is_read_section};
ghost use Rattle.dw_base.specs.SectionRelocations.{extends, is_relocation_kind, relocates};
ghost use Rattle.dw_view.specs.Firsts.{AreFirsts, AreSingle, HasNoTarget, IsTarget};

use crate::fronts::name_front;
use crate::names::FRONT_SIZE;
use crate::standing::{no_next, put_next};
use dw_base::elf_numbers::{ET_REL, SHT_REL, SHT_RELA, SHT_SYMTAB_SHNDX};
use dw_base::{DebugSection, Fault, Kind, NoMemory, Refusal, Section};
use elf_file::ElfFile;

/// Which section that is read the one of a number is, by its name.
#[tactic(auto, using(crate::proofs::FirstLaws::kind_rules))]
pub fn kind_of(elf: &ElfFile, section: u32) -> Option<DebugSection>
    requires there { section < section_count elf.now.bytes.now }
    ensures kind { result ≡ debug_section (section_name elf.now.bytes.now section) }
{
    DebugSection::called(name_front(elf, section, FRONT_SIZE))
}

/// The section of a number is one that is read, by its name.
#[tactic(auto, using(crate::proofs::FirstLaws::read_rules))]
fn is_read(elf: &ElfFile, section: u32) -> bool
    requires there { section < section_count elf.now.bytes.now }
    ensures { result ≡ is_read_section elf.now.bytes.now section }
{
    kind_of(elf, section).is_some()
}

/// The section holds relocations.
pub fn is_relocation_kind(section: &Section) -> bool
    ensures { result ≡ is_relocation_kind section.now }
{
    section.kind == SHT_REL || section.kind == SHT_RELA
}

/// The section whose relocations that of a number holds.
#[tactic(auto, using(crate::proofs::FirstLaws::target_rules))]
fn relocated(elf: &ElfFile, section: u32) -> Option<u32>
    requires there { section < section_count elf.now.bytes.now }
    requires kind { e_type elf.now.bytes.now ≡ ET_REL }
    ensures target { MatchOption result (HasNoTarget (relocates elf.now.bytes.now) (section_count elf.now.bytes.now) section) (λ t. IsTarget (relocates elf.now.bytes.now) section t) }
    ensures there { IfSome result (λ t. t < section_count elf.now.bytes.now) }
{
    let head = elf.section(section);
    if !is_relocation_kind(&head) {
        return None;
    }
    if head.info >= elf.section_count() {
        return None;
    }
    Some(head.info)
}

/// The symbol table of whose symbols that of a number holds the section numbers.
#[tactic(auto, using(crate::proofs::FirstLaws::table_rules))]
fn extended(elf: &ElfFile, section: u32) -> Option<u32>
    requires there { section < section_count elf.now.bytes.now }
    ensures target { MatchOption result (HasNoTarget (extends elf.now.bytes.now) (section_count elf.now.bytes.now) section) (λ t. IsTarget (extends elf.now.bytes.now) section t) }
    ensures there { IfSome result (λ t. t < section_count elf.now.bytes.now) }
{
    let head = elf.section(section);
    if head.kind != SHT_SYMTAB_SHNDX {
        return None;
    }
    if head.link >= elf.section_count() {
        return None;
    }
    Some(head.link)
}

/// One is known for the section of a number.
#[tactic(auto, using(crate::proofs::FirstLaws::set_rules))]
fn is_set(firsts: &[Option<u32>], section: u32) -> bool
    requires there { section < length firsts.now }
    ensures { result ≡ is_some (get_or firsts.now section None) }
{
    firsts[section as usize].is_some()
}

/// Notes the section of a number, which holds relocations of another, as its first. Refused where the other is read and has a first.
#[tactic(auto, using(crate::proofs::FirstLaws::holder_rules))]
fn note_target(
    elf: &ElfFile,
    firsts: &mut Vec<Option<u32>>,
    target: u32,
    section: u32,
) -> Result<(), Refusal>
    requires there { section < section_count elf.now.bytes.now }
    requires target_there { target < section_count elf.now.bytes.now }
    requires target { IsTarget (relocates elf.now.bytes.now) section target }
    requires firsts { AreFirsts (relocates elf.now.bytes.now) (section_count elf.now.bytes.now) section firsts.old.items }
    requires single { AreSingle elf.now.bytes.now section }
    ensures firsts { OnOk result (AreFirsts (relocates elf.now.bytes.now) (section_count elf.now.bytes.now) (section + 1) firsts.new.items) }
    ensures single { OnOk result (AreSingle elf.now.bytes.now (section + 1)) }
    ensures refused { IfErr result (RelocationSectionsFail (contents_of elf.now.bytes.now) elf.now.bytes.now) }
{
    if is_set(firsts, target) {
        if is_read(elf, target) {
            return Err(Refusal::at(Kind::Relocation, target, 0));
        }
        return Ok(());
    }
    put_next(firsts, target, Some(section));
    Ok(())
}

/// Notes the section of a number, where it holds relocations.
#[tactic(auto, using(crate::proofs::FirstLaws::pass_rules))]
fn note_holder(elf: &ElfFile, firsts: &mut Vec<Option<u32>>, section: u32) -> Result<(), Refusal>
    requires there { section < section_count elf.now.bytes.now }
    requires kind { e_type elf.now.bytes.now ≡ ET_REL }
    requires firsts { AreFirsts (relocates elf.now.bytes.now) (section_count elf.now.bytes.now) section firsts.old.items }
    requires single { AreSingle elf.now.bytes.now section }
    ensures firsts { OnOk result (AreFirsts (relocates elf.now.bytes.now) (section_count elf.now.bytes.now) (section + 1) firsts.new.items) }
    ensures single { OnOk result (AreSingle elf.now.bytes.now (section + 1)) }
    ensures refused { IfErr result (RelocationSectionsFail (contents_of elf.now.bytes.now) elf.now.bytes.now) }
{
    match relocated(elf, section) {
        Some(target) => {
            note_target(elf, firsts, target, section)?;
            Ok(())
        }
        None => Ok(()),
    }
}

/// For each section of a relocatable file the first that holds its relocations. Refused where two hold those of one that is read.
pub fn holders_of(elf: &ElfFile) -> Result<Vec<Option<u32>>, Fault>
    requires kind { e_type elf.now.bytes.now ≡ ET_REL }
    ensures firsts { IfOk result (λ firsts. AreFirsts (relocates elf.now.bytes.now) (section_count elf.now.bytes.now) (section_count elf.now.bytes.now) firsts.items) }
    ensures single { OnOk result (AreSingle elf.now.bytes.now (section_count elf.now.bytes.now)) }
    ensures refused { IfErr result (Blames (RelocationSectionsFail (contents_of elf.now.bytes.now) elf.now.bytes.now)) }
{
    let count = elf.section_count();
    let mut firsts = no_next(*elf.sections.allocator(), count)?;
    for section in 0..count {
        note_holder(elf, &mut firsts, section)?;
    }
    Ok(firsts)
}

/// Notes the section of a number, which holds the section numbers of the symbols of another, as its first.
#[tactic(auto, using(crate::proofs::FirstLaws::put_rules))]
fn note_table(elf: &ElfFile, firsts: &mut Vec<Option<u32>>, target: u32, section: u32)
    requires there { section < section_count elf.now.bytes.now }
    requires target_there { target < section_count elf.now.bytes.now }
    requires target { IsTarget (extends elf.now.bytes.now) section target }
    requires firsts { AreFirsts (extends elf.now.bytes.now) (section_count elf.now.bytes.now) section firsts.old.items }
    ensures firsts { AreFirsts (extends elf.now.bytes.now) (section_count elf.now.bytes.now) (section + 1) firsts.new.items }
{
    if !is_set(firsts, target) {
        put_next(firsts, target, Some(section));
    }
}

/// Notes the section of a number, where it holds section numbers of symbols.
#[tactic(auto, using(crate::proofs::FirstLaws::pass_rules))]
fn note_extended(elf: &ElfFile, firsts: &mut Vec<Option<u32>>, section: u32)
    requires there { section < section_count elf.now.bytes.now }
    requires firsts { AreFirsts (extends elf.now.bytes.now) (section_count elf.now.bytes.now) section firsts.old.items }
    ensures firsts { AreFirsts (extends elf.now.bytes.now) (section_count elf.now.bytes.now) (section + 1) firsts.new.items }
{
    if let Some(target) = extended(elf, section) {
        note_table(elf, firsts, target, section);
    }
}

/// For each symbol table the first section that holds the section numbers of its symbols.
pub fn extended_of(elf: &ElfFile) -> Result<Vec<Option<u32>>, NoMemory>
    ensures firsts { IfOk result (λ firsts. AreFirsts (extends elf.now.bytes.now) (section_count elf.now.bytes.now) (section_count elf.now.bytes.now) firsts.items) }
{
    let count = elf.section_count();
    let mut firsts = no_next(*elf.sections.allocator(), count)?;
    for section in 0..count {
        note_extended(elf, &mut firsts, section);
    }
    Ok(firsts)
}
