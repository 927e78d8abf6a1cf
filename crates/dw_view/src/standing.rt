//! The sections of a stripped file for which those of its debug file stand: the k-th of a name without bytes
//! for the k-th of that name (GNU debugging information in separate files; this project's profile). Names are told apart by their numbers.

ghost use Rattle.std.specs.Prelude.{◌≡◌, ◌<◌, ◌+◌, true, None, ℕ, get_or, length, replicate, IfOk, OnOk};
ghost use Rattle.dw_base.specs.Elf.{section_count};
ghost use Rattle.dw_base.specs.FileViews.{is_name_section};
ghost use Rattle.dw_base.specs.Lists.{tabulate};
ghost use Rattle.dw_view.specs.PairViews.{is_counted, is_elsewhere};
ghost use Rattle.dw_view.specs.SectionParts.{stands_of};
ghost use Rattle.dw_view.specs.Standing.{AreLeft, AreTaken, HeadSet, NextAre, PlaceSet, heads_of, stand_by};

use crate::text_numbers::name_numbers;
use dw_base::NoMemory;
use dw_base::elf_numbers::{SHT_NOBITS, SHT_NULL};
use elf_file::ElfFile;
use std::alloc::Global;
use std::collections::HashMap;

/// For the number of each name, the first section of the name that is left.
#[derive(Drop)]
struct Heads {
    heads: HashMap<u32, Option<u32>>,
}

impl Heads {
    /// No section is left of any name.
    #[tactic(auto, unfolding(crate::specs::Standing::heads_of))]
    fn new(alloc: Global) -> Heads
        ensures none { (name : ℕ) → heads_of result.heads name ≡ None }
    {
        Heads {
            heads: HashMap::new(alloc),
        }
    }

    /// The first section of a name that is left.
    #[tactic(auto, unfolding(crate::specs::Standing::heads_of))]
    fn head(&self, name: u32) -> Option<u32>
        ensures head { result ≡ heads_of self.now.heads name }
    {
        match self.heads.get(&name) {
            Some(head) => *head,
            None => None,
        }
    }

    /// Another section is the first of a name that is left.
    #[tactic(auto, using(crate::proofs::StandLaws::set_rules))]
    fn set(&mut self, name: u32, head: Option<u32>) -> Result<(), NoMemory>
        ensures set { OnOk result (HeadSet (heads_of self.old.heads) (heads_of self.new.heads) name head) }
    {
        self.heads.insert(name, head)?;
        Ok(())
    }
}

/// The section of a number is the section name table.
fn is_name_section(elf: &ElfFile, section: u32) -> bool
    ensures { result ≡ is_name_section elf.now.bytes.now section }
{
    elf.names != 0 && section == elf.names
}

/// The section of a number of a debug file stands for one of the stripped file.
fn is_elsewhere(debug: &ElfFile, section: u32) -> bool
    requires there { section < section_count debug.now.bytes.now }
    ensures { result ≡ is_elsewhere debug.now.bytes.now section }
{
    let head = debug.section(section);
    head.kind == SHT_NOBITS && !head.is_alloc() && !is_name_section(debug, section)
}

/// One may stand for the section of a number of a stripped file.
fn is_counted(stripped: &ElfFile, section: u32) -> bool
    requires there { section < section_count stripped.now.bytes.now }
    ensures { result ≡ is_counted stripped.now.bytes.now section }
{
    let head = stripped.section(section);
    !head.is_alloc() && head.kind != SHT_NULL && !is_name_section(stripped, section)
}

/// Puts one for the section of a number.
#[tactic(auto, using(crate::proofs::StandLaws::put_rules))]
pub fn put_next(next: &mut Vec<Option<u32>>, section: u32, head: Option<u32>)
    requires there { section < length next.old.items }
    ensures put { PlaceSet next.old.items next.new.items section head }
{
    next[section as usize] = head;
}

/// Notes a section for which one may stand as the first of its name; the one that was the first is the next.
#[tactic(auto, using(crate::proofs::StandLaws::counted_rules))]
fn note_counted(
    stripped: &ElfFile,
    names: &[u32],
    heads: &mut Heads,
    next: &mut Vec<Option<u32>>,
    section: u32,
) -> Result<(), NoMemory>
    requires names { length names.now ≡ section_count stripped.now.bytes.now }
    requires there { section < section_count stripped.now.bytes.now }
    requires counted { is_counted stripped.now.bytes.now section ≡ true }
    requires left { AreLeft stripped.now.bytes.now names.now (section + 1) (heads_of heads.old.heads) next.old.items }
    ensures left { OnOk result (AreLeft stripped.now.bytes.now names.now section (heads_of heads.new.heads) next.new.items) }
{
    let name = names[section as usize];
    put_next(next, section, heads.head(name));
    heads.set(name, Some(section))?;
    Ok(())
}

/// Notes a section, where one may stand for it.
#[tactic(auto, using(crate::proofs::StandLaws::note_rules))]
fn note(
    stripped: &ElfFile,
    names: &[u32],
    heads: &mut Heads,
    next: &mut Vec<Option<u32>>,
    section: u32,
) -> Result<(), NoMemory>
    requires names { length names.now ≡ section_count stripped.now.bytes.now }
    requires there { section < section_count stripped.now.bytes.now }
    requires left { AreLeft stripped.now.bytes.now names.now (section + 1) (heads_of heads.old.heads) next.old.items }
    ensures left { OnOk result (AreLeft stripped.now.bytes.now names.now section (heads_of heads.new.heads) next.new.items) }
{
    if is_counted(stripped, section) {
        note_counted(stripped, names, heads, next, section)?;
    }
    Ok(())
}

/// No section of so many has one yet.
pub fn no_next(alloc: Global, count: u32) -> Result<Vec<Option<u32>>, NoMemory>
    ensures next { IfOk result (λ next. next.items ≡ replicate count None) }
{
    let mut next = Vec::new(alloc);
    next.resize(count as usize, None)?;
    Ok(next)
}

/// Notes all sections for which one may stand: for each the next of its name; `heads` gets the first of each name.
fn note_all(
    alloc: Global,
    stripped: &ElfFile,
    names: &[u32],
    heads: &mut Heads,
) -> Result<Vec<Option<u32>>, NoMemory>
    requires names { length names.now ≡ section_count stripped.now.bytes.now }
    requires none { (name : ℕ) → heads_of heads.old.heads name ≡ None }
    ensures left { IfOk result (λ next. AreLeft stripped.now.bytes.now names.now 0 (heads_of heads.new.heads) next.items) }
{
    let count = stripped.section_count();
    let mut next = no_next(alloc, count)?;
    for passed in 0..count {
        note(stripped, names, heads, &mut next, count - 1 - passed)?;
    }
    Ok(next)
}

/// The section for which one stands: the first of its name that is left, which it takes.
#[tactic(auto, using(crate::proofs::StandLaws::head_rules))]
fn take_head(
    stripped: &ElfFile,
    debug: &ElfFile,
    names: &[u32],
    others: &[u32],
    heads: &mut Heads,
    next: &[Option<u32>],
    section: u32,
) -> Result<Option<u32>, NoMemory>
    requires others { length others.now ≡ section_count debug.now.bytes.now }
    requires there { section < section_count debug.now.bytes.now }
    requires elsewhere { is_elsewhere debug.now.bytes.now section ≡ true }
    requires next { NextAre stripped.now.bytes.now names.now next.now }
    requires taken { AreTaken debug.now.bytes.now stripped.now.bytes.now names.now others.now section (heads_of heads.old.heads) }
    ensures stand { IfOk result (λ stand. stand ≡ stand_by debug.now.bytes.now stripped.now.bytes.now names.now others.now section) }
    ensures taken { OnOk result (AreTaken debug.now.bytes.now stripped.now.bytes.now names.now others.now (section + 1) (heads_of heads.new.heads)) }
{
    let name = others[section as usize];
    match heads.head(name) {
        Some(first) => {
            heads.set(name, next[first as usize])?;
            Ok(Some(first))
        }
        None => Ok(None),
    }
}

/// The section for which that of a number of the debug file stands; none where its own bytes count.
#[tactic(auto, using(crate::proofs::StandLaws::take_rules))]
fn take(
    stripped: &ElfFile,
    debug: &ElfFile,
    names: &[u32],
    others: &[u32],
    heads: &mut Heads,
    next: &[Option<u32>],
    section: u32,
) -> Result<Option<u32>, NoMemory>
    requires others { length others.now ≡ section_count debug.now.bytes.now }
    requires there { section < section_count debug.now.bytes.now }
    requires next { NextAre stripped.now.bytes.now names.now next.now }
    requires taken { AreTaken debug.now.bytes.now stripped.now.bytes.now names.now others.now section (heads_of heads.old.heads) }
    ensures stand { IfOk result (λ stand. stand ≡ stand_by debug.now.bytes.now stripped.now.bytes.now names.now others.now section) }
    ensures taken { OnOk result (AreTaken debug.now.bytes.now stripped.now.bytes.now names.now others.now (section + 1) (heads_of heads.new.heads)) }
{
    if !is_elsewhere(debug, section) {
        return Ok(None);
    }
    let stand = take_head(stripped, debug, names, others, heads, next, section)?;
    Ok(stand)
}

/// The same for all sections of a debug file, by the numbers of names.
fn numbered_stands(
    stripped: &ElfFile,
    debug: &ElfFile,
    names: &[u32],
    others: &[u32],
) -> Result<Vec<Option<u32>>, NoMemory>
    requires names { length names.now ≡ section_count stripped.now.bytes.now }
    requires others { length others.now ≡ section_count debug.now.bytes.now }
    ensures stands { IfOk result (λ stands. stands.items ≡ tabulate (stand_by debug.now.bytes.now stripped.now.bytes.now names.now others.now) (section_count debug.now.bytes.now)) }
{
    let alloc = *debug.sections.allocator();
    let mut heads = Heads::new(alloc);
    let next = note_all(alloc, stripped, names, &mut heads)?;
    let mut stands = Vec::with_capacity(alloc, debug.sections.len())?;
    for section in 0..debug.section_count() {
        stands.push(take(stripped, debug, names, others, &mut heads, &next, section)?)?;
    }
    Ok(stands)
}

/// For each section of a debug file, that of the stripped file for which it stands; none where its own bytes
/// count. Each section of the two is looked at once.
#[tactic(auto, using(crate::proofs::StandLaws::over_rules))]
pub fn stands_of(stripped: &ElfFile, debug: &ElfFile) -> Result<Vec<Option<u32>>, NoMemory>
    ensures stands { IfOk result (λ stands. stands.items ≡ stands_of debug.now.bytes.now stripped.now.bytes.now) }
{
    let numbers = name_numbers(stripped, debug)?;
    let stands = numbered_stands(
        stripped,
        debug,
        numbers.stripped.as_slice(),
        numbers.debug.as_slice(),
    )?;
    Ok(stands)
}
