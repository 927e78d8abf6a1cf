//! The sections of a file that hold relocations, each found by the section of which they are (gABI ch. 4 "Sections", `sh_link` and
//! `sh_info`): for whoever writes their records anew. What fields read as by them says a view.

ghost use Rattle.std.specs.Prelude.{◌≡◌, ◌<◌, List, ℕ, option_map, IfErr, IfOk, IfSome};
ghost use Rattle.dw_base.specs.Elf.{contents_of, section_count};
ghost use Rattle.dw_base.specs.Refusals.{Blames};
ghost use Rattle.dw_base.specs.RelocationSectionFails.{RelocationSectionsFail};
ghost use Rattle.dw_base.specs.SectionRelocations.{extends, relocation_section};
ghost use Rattle.dw_view.specs.Firsts.{AreFirsts, HoldersAre, held_source};

use crate::firsts::{extended_of, holders_of};
use crate::repeats::is_relocatable;
use crate::source::source_of;
use dw_base::Fault;
use elf_file::ElfFile;
use elf_relocs::RelocSource;
use std::marker::Model;

/// What the relocations of each section of a file are read from, found once: memory and time grow with the sections.
#[derive(Drop)]
pub struct RelocationSources<'a> {
    /// The file.
    elf: &'a ElfFile<'a>,
    /// For each section the first that holds its relocations. Empty where the file isn't relocatable.
    holders: Vec<Option<u32>>,
    /// For each symbol table the first section that holds the section numbers of its symbols.
    extended: Vec<Option<u32>>,
}

impl<'a> Model for RelocationSources<'a> {
    ghost Value = { List ℕ };

    ghost view = { λ s. s.elf.now.bytes.now };

    ghost invariant = { λ s. HoldersAre s.elf.now.bytes.now s.holders.items × AreFirsts (extends s.elf.now.bytes.now) (section_count s.elf.now.bytes.now) (section_count s.elf.now.bytes.now) s.extended.items };
}

/// For each section of a file the first that holds its relocations.
#[tactic(auto, using(crate::proofs::RelocationSourceLaws::find_rules))]
fn found_holders(elf: &ElfFile) -> Result<Vec<Option<u32>>, Fault>
    ensures holders { IfOk result (λ holders. HoldersAre elf.now.bytes.now holders.items) }
    ensures refused { IfErr result (Blames (RelocationSectionsFail (contents_of elf.now.bytes.now) elf.now.bytes.now)) }
{
    if !is_relocatable(elf) {
        return Ok(Vec::new(*elf.sections.allocator()));
    }
    let holders = holders_of(elf)?;
    Ok(holders)
}

impl<'a> RelocationSources<'a> {
    /// Those of a file. Refused only where the relocations of a section that is read aren't handled (two sections hold them), at that one.
    pub fn read(elf: &'a ElfFile<'a>) -> Result<RelocationSources<'a>, Fault>
        ensures value { IfOk result (λ sections. sections ≡ elf.now.bytes.now) }
        ensures refused { IfErr result (Blames (RelocationSectionsFail (contents_of elf.now.bytes.now) elf.now.bytes.now)) }
    {
        let holders = found_holders(elf)?;
        let extended = extended_of(elf)?;
        Ok(RelocationSources {
            elf,
            holders,
            extended,
        })
    }

    /// The section that holds the relocations of the section of a number. None exactly where none does.
    pub fn holder(&self, section: u32) -> Option<u32>
        requires there { section < section_count self.now }
        ensures holder { result ≡ relocation_section self.now section }
        ensures inside { IfSome result (λ holder. holder < section_count self.now) }
    {
        self.found(section)
    }

    /// The same, from the list that is kept.
    #[tactic(auto, using(crate::proofs::RelocationSourceLaws::found_rules))]
    fn found(&self, section: u32) -> Option<u32>
        requires there { section < section_count self.now }
        ensures { result ≡ relocation_section self.now section }
    {
        let i = section as usize;
        if i >= self.holders.len() {
            return None;
        }
        self.holders[i]
    }

    /// The section that holds the relocations of the section of a number, and what they are read from. None exactly where none does.
    #[tactic(auto, using(crate::proofs::RelocationSourceLaws::source_rules))]
    pub fn of(&self, section: u32) -> Option<(u32, RelocSource<'a>)>
        requires there { section < section_count self.now }
        ensures { result ≡ option_map (held_source self.now) (relocation_section self.now section) }
    {
        let holder = self.holder(section)?;
        Some((holder, source_of(self.elf, &self.extended, holder)))
    }
}
