//! The droppable sections of a file, all at once: this project's profile.

ghost use Rattle.std.specs.Prelude.{◌≡◌, ◌<◌, ◌||◌, ◌&&◌, ℕ, false, length, vec_len, replicate, slice_index_or, IfOk};
ghost use Rattle.std.specs.List.{list_any};
ghost use Rattle.dw_base.specs.Elf.{section_count};
ghost use Rattle.dw_base.specs.Lists.{tabulate};
ghost use Rattle.dbg_split.specs.Droppable.{drops_itself, is_droppable, is_symbol_strings, links_symbols, names_dropped, names_symbols};

use crate::dropping::{drops_along, drops_itself};
use dw_base::elf_numbers::{SHT_STRTAB, SHT_SYMTAB};
use dw_base::{NoMemory, Section};
use elf_file::ElfFile;
use std::alloc::{AllocError, Global};

/// Marks the string table of a symbol table.
#[tactic(auto, using(crate::proofs::MarkLaws::mark_laws))]
fn mark(marks: &mut [bool], head: &Section)
    ensures len { length marks.new ≡ length marks.old }
    ensures each { (i : ℕ) → i < length marks.old → slice_index_or marks.new i false ≡ (slice_index_or marks.old i false || links_symbols i head.now) }
{
    if head.kind != SHT_SYMTAB {
        return;
    }
    if head.link as usize >= marks.len() {
        return;
    }
    marks[head.link as usize] = true;
}

/// Marks the string tables of all symbol tables.
#[tactic(auto, using(crate::proofs::MarkLaws::all_laws))]
fn mark_all(marks: &mut [bool], heads: &[Section])
    ensures len { length marks.new ≡ length marks.old }
    ensures each { (i : ℕ) → i < length marks.old → slice_index_or marks.new i false ≡ (slice_index_or marks.old i false || list_any (links_symbols i) heads.now) }
{
    for head in heads {
        mark(marks, head);
    }
}

/// So many sections without a mark.
fn unmarked(alloc: Global, count: usize) -> Result<Vec<bool>, AllocError>
    ensures marks { IfOk result (λ marks. marks.items ≡ replicate count false) }
    ensures len { IfOk result (λ marks. vec_len marks ≡ count) }
{
    let mut marks = Vec::new(alloc);
    marks.resize(count, false)?;
    Ok(marks)
}

/// Which sections a symbol table has as its string table.
#[tactic(auto, using(crate::proofs::MarkLaws::marks_laws))]
fn names_symbols(alloc: Global, elf: &ElfFile) -> Result<Vec<bool>, AllocError>
    ensures marks { IfOk result (λ marks. marks.items ≡ tabulate (names_symbols elf.now.bytes.now) (section_count elf.now.bytes.now)) }
{
    let mut marks = unmarked(alloc, elf.section_count() as usize)?;
    mark_all(&mut marks, &elf.sections);
    Ok(marks)
}

/// The section is the string table of a symbol table.
#[tactic(auto, using(crate::proofs::Rows::section_rows))]
fn is_symbol_strings(elf: &ElfFile, marks: &[bool], section: u32) -> bool
    requires marks { marks.now ≡ tabulate (names_symbols elf.now.bytes.now) (section_count elf.now.bytes.now) }
    requires there { section < section_count elf.now.bytes.now }
    ensures { result ≡ is_symbol_strings elf.now.bytes.now section }
{
    elf.section(section).kind == SHT_STRTAB && marks[section as usize]
}

/// Which sections are dropped for what they are.
fn drop_themselves(alloc: Global, elf: &ElfFile, marks: &[bool]) -> Result<Vec<bool>, AllocError>
    requires marks { marks.now ≡ tabulate (names_symbols elf.now.bytes.now) (section_count elf.now.bytes.now) }
    ensures own { IfOk result (λ own. own.items ≡ tabulate (drops_itself elf.now.bytes.now) (section_count elf.now.bytes.now)) }
{
    let mut own = Vec::with_capacity(alloc, elf.sections.len())?;
    for section in 0..elf.section_count() {
        let strings = is_symbol_strings(elf, marks, section);
        own.push(drops_itself(elf, section, strings))?;
    }
    Ok(own)
}

/// The number names a section that is dropped for what it is.
#[tactic(auto, unfolding(crate::specs::Droppable::names_dropped), using(crate::proofs::Rows::section_rows))]
fn names_dropped(elf: &ElfFile, own: &[bool], number: u32) -> bool
    requires own { own.now ≡ tabulate (drops_itself elf.now.bytes.now) (section_count elf.now.bytes.now) }
    ensures { result ≡ names_dropped elf.now.bytes.now number }
{
    if number >= elf.section_count() {
        return false;
    }
    own[number as usize]
}

/// The section is droppable; `own` says which are dropped for what they are.
#[tactic(auto, unfolding(crate::specs::Droppable::is_droppable), using(crate::proofs::Rows::section_rows))]
fn is_dropped(elf: &ElfFile, own: &[bool], section: u32) -> bool
    requires own { own.now ≡ tabulate (drops_itself elf.now.bytes.now) (section_count elf.now.bytes.now) }
    requires there { section < section_count elf.now.bytes.now }
    ensures { result ≡ is_droppable elf.now.bytes.now section }
{
    if !elf.is_loaded_kind() {
        return false;
    }
    if own[section as usize] {
        return true;
    }
    let head = elf.section(section);
    drops_along(
        elf,
        section,
        names_dropped(elf, own, head.link),
        names_dropped(elf, own, head.info),
    )
}

/// Which sections of a file would be in the debug file alone once the file is split, by their numbers: for
/// each the answer of `droppable`, all in a time that grows with their number. Fails only for want of memory.
pub fn droppables(alloc: Global, elf: &ElfFile) -> Result<Vec<bool>, NoMemory>
    ensures dropped { IfOk result (λ dropped. dropped.items ≡ tabulate (is_droppable elf.now.bytes.now) (section_count elf.now.bytes.now)) }
{
    let marks = names_symbols(alloc, elf)?;
    let own = drop_themselves(alloc, elf, &marks)?;
    let mut dropped = Vec::with_capacity(alloc, elf.sections.len())?;
    for section in 0..elf.section_count() {
        dropped.push(is_dropped(elf, &own, section))?;
    }
    Ok(dropped)
}
