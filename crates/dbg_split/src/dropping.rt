//! Which sections are in the debug file alone: this project's profile.

ghost use Rattle.std.specs.Prelude.{◌≡◌, ◌<◌, ◌==◌, ◌||◌, ◌&&◌, true, false};
ghost use Rattle.dw_base.specs.Elf.{nth_section, section_count, section_name};
ghost use Rattle.dbg_split.specs.Droppable.{drops_along, drops_itself, is_droppable, is_relocations, is_symbol_strings, links_symbols, may_drop, names_dropped, names_symbols};
ghost use Rattle.dw_base.specs.SectionNames.{is_debug_only_name};

use crate::names::{is_named, is_named_from};
use dw_base::Section;
use dw_base::elf_numbers::{SHT_REL, SHT_RELA, SHT_STRTAB, SHT_SYMTAB, SHT_SYMTAB_SHNDX};
use elf_file::ElfFile;

/// What the name of each section of debug data begins with.
const DEBUG_PREFIX: &[u8] = b".debug_";
/// The index of GDB.
const GDB_INDEX: &[u8] = b".gdb_index";

/// The name is that of a section of debug data, or of the index of GDB.
fn is_debug_only(elf: &ElfFile, section: u32) -> bool
    requires there { section < section_count elf.now.bytes.now }
    ensures { result ≡ is_debug_only_name (section_name elf.now.bytes.now section) }
{
    is_named_from(elf, section, DEBUG_PREFIX) || is_named(elf, section, GDB_INDEX)
}

/// The section isn't section 0, not ALLOC, and not the section name table.
fn may_drop(elf: &ElfFile, section: u32) -> bool
    requires there { section < section_count elf.now.bytes.now }
    ensures { result ≡ may_drop elf.now.bytes.now section }
{
    section != 0 && !elf.section(section).is_alloc() && section != elf.names
}

/// The header is that of a symbol table with this section as its string table.
pub fn links_symbols(section: u32, head: &Section) -> bool
    ensures { result ≡ links_symbols section head.now }
{
    head.kind == SHT_SYMTAB && head.link == section
}

/// A symbol table has this section as its string table.
#[tactic(auto, unfolding(crate::specs::Droppable::names_symbols), using(crate::proofs::DroppableLaws::any_laws))]
fn names_symbols(elf: &ElfFile, section: u32) -> bool
    ensures { result ≡ names_symbols elf.now.bytes.now section }
{
    for head in elf.sections.iter() {
        if links_symbols(section, head) {
            return true;
        }
    }
    false
}

/// The header is that of relocations.
pub fn is_relocations(head: &Section) -> bool
    ensures { result ≡ is_relocations head.now }
{
    head.kind == SHT_REL || head.kind == SHT_RELA
}

/// The section is the string table of a symbol table.
fn is_symbol_strings(elf: &ElfFile, section: u32) -> bool
    requires there { section < section_count elf.now.bytes.now }
    ensures { result ≡ is_symbol_strings elf.now.bytes.now section }
{
    elf.section(section).kind == SHT_STRTAB && names_symbols(elf, section)
}

/// The section is dropped for what it is; `strings` says that it is the string table of a symbol table.
#[tactic(auto, unfolding(crate::specs::Droppable::drops_itself))]
pub fn drops_itself(elf: &ElfFile, section: u32, strings: bool) -> bool
    requires there { section < section_count elf.now.bytes.now }
    requires strings { strings ≡ is_symbol_strings elf.now.bytes.now section }
    ensures { result ≡ drops_itself elf.now.bytes.now section }
{
    if !may_drop(elf, section) {
        return false;
    }
    if is_debug_only(elf, section) {
        return true;
    }
    elf.section(section).kind == SHT_SYMTAB || strings
}

/// The number names a section that is dropped for what it is.
#[tactic(auto, unfolding(crate::specs::Droppable::names_dropped))]
fn names_dropped(elf: &ElfFile, number: u32) -> bool
    ensures { result ≡ names_dropped elf.now.bytes.now number }
{
    if number >= elf.section_count() {
        return false;
    }
    drops_itself(elf, number, is_symbol_strings(elf, number))
}

/// The section is dropped with one that it links to or relocates; `link` and `info` say that these fields
/// of its header name a section that is dropped for what it is.
#[tactic(auto, unfolding(crate::specs::Droppable::drops_along))]
pub fn drops_along(elf: &ElfFile, section: u32, link: bool, info: bool) -> bool
    requires there { section < section_count elf.now.bytes.now }
    requires link { link ≡ names_dropped elf.now.bytes.now (nth_section elf.now.bytes.now section).link }
    requires info { info ≡ names_dropped elf.now.bytes.now (nth_section elf.now.bytes.now section).info }
    ensures { result ≡ drops_along elf.now.bytes.now section }
{
    if !may_drop(elf, section) {
        return false;
    }
    let head = elf.section(section);
    if is_relocations(&head) {
        return link || info;
    }
    head.kind == SHT_SYMTAB_SHNDX && link
}

/// The section is one of those that are in the debug file alone once the file is split: in a file of
/// type EXEC or DYN, debug data, symbol tables with their strings, and what relocates or extends these.
#[tactic(auto, unfolding(crate::specs::Droppable::is_droppable))]
pub fn droppable(elf: &ElfFile, section: u32) -> bool
    requires there { section < section_count elf.now.bytes.now }
    ensures droppable { result ≡ is_droppable elf.now.bytes.now section }
{
    if !elf.is_loaded_kind() {
        return false;
    }
    if drops_itself(elf, section, is_symbol_strings(elf, section)) {
        return true;
    }
    let head = elf.section(section);
    drops_along(
        elf,
        section,
        names_dropped(elf, head.link),
        names_dropped(elf, head.info),
    )
}
