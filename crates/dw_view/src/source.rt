//! What the relocations of a section are read from (gABI ch. 4 "Relocation", "Symbol Table").

ghost use Rattle.std.specs.Prelude.{◌≡◌, ◌<◌};
ghost use Rattle.dw_base.specs.Elf.{contents_of, section_count};
ghost use Rattle.dw_base.specs.SectionRelocations.{extends, is_symbol_table, relocation_source};
ghost use Rattle.dw_view.specs.Firsts.{AreFirsts};
ghost use Rattle.dw_view.specs.Places.{numbers_of, symbols_of};

use dw_base::elf_numbers::{SHT_RELA, SHT_SYMTAB};
use elf_file::ElfFile;
use elf_relocs::RelocSource;

/// The section of a number is there, and is a symbol table.
#[tactic(auto, using(crate::proofs::SourceLaws::table_rules))]
pub fn is_symbol_table(elf: &ElfFile, section: u32) -> bool
    ensures { result ≡ is_symbol_table elf.now.bytes.now section }
{
    if section >= elf.section_count() {
        return false;
    }
    elf.section(section).kind == SHT_SYMTAB
}

/// The symbols of the section of a number, none where it isn't a symbol table.
#[tactic(auto, using(crate::proofs::SourceLaws::symbol_rules))]
fn symbols<'a>(elf: &'a ElfFile<'a>, section: u32) -> &'a [u8]
    ensures { result.now ≡ symbols_of elf.now.bytes.now section }
{
    if !is_symbol_table(elf, section) {
        return &elf.bytes[..0];
    }
    elf.contents(section)
}

/// The section numbers of these symbols, none where no section holds them.
#[tactic(auto, using(crate::proofs::SourceLaws::number_rules))]
fn section_numbers<'a>(elf: &'a ElfFile<'a>, extended: &[Option<u32>], section: u32) -> &'a [u8]
    requires extended { AreFirsts (extends elf.now.bytes.now) (section_count elf.now.bytes.now) (section_count elf.now.bytes.now) extended.now }
    ensures { result.now ≡ numbers_of elf.now.bytes.now section }
{
    if !is_symbol_table(elf, section) {
        return &elf.bytes[..0];
    }
    match extended[section as usize] {
        Some(numbers) => elf.contents(numbers),
        None => &elf.bytes[..0],
    }
}

/// What the relocations in the section of a number are read from.
#[tactic(auto, using(crate::proofs::SourceLaws::source_rules))]
pub fn source_of<'a>(elf: &'a ElfFile<'a>, extended: &[Option<u32>], holder: u32) -> RelocSource<'a>
    requires there { holder < section_count elf.now.bytes.now }
    requires extended { AreFirsts (extends elf.now.bytes.now) (section_count elf.now.bytes.now) (section_count elf.now.bytes.now) extended.now }
    ensures { result ≡ relocation_source (contents_of elf.now.bytes.now) elf.now.bytes.now holder }
{
    let head = elf.section(holder);
    RelocSource {
        class: elf.class,
        order: elf.order,
        machine: elf.machine,
        rela: head.kind == SHT_RELA,
        table: elf.contents(holder),
        symbols: symbols(elf, head.link),
        extended: section_numbers(elf, extended, head.link),
    }
}
