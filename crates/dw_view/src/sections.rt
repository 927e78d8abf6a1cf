//! The sections of a view: those of a file, or those of a debug file, of which some have the bytes of sections
//! of the stripped file (GNU debugging information in separate files; this project's profile).

ghost use Rattle.std.specs.Prelude.{◌≡◌, ◌<◌, ◌≤◌, ◌^◌, length, option_map, take, IfOk};
ghost use Rattle.dw_base.specs.Elf.{section_count};
ghost use Rattle.dw_base.specs.FileViews.{View as FileView, section_bytes, view_of};
ghost use Rattle.dw_view.specs.PairViews.{pair_view};
ghost use Rattle.dw_view.specs.SectionParts.{IsPlace, StandsAre, section_at, stands_of, view_by};

use crate::fronts::name_front;
use crate::standing::stands_of;
use dw_base::{NoMemory, Order};
use elf_file::ElfFile;
use std::alloc::Global;
use std::marker::Model;

/// The sections of a file, or of a pair.
#[derive(Drop)]
pub struct Sections<'a> {
    /// The file whose order, numbers and names count: of a pair the debug file.
    elf: &'a ElfFile<'a>,
    /// Of a pair, the stripped file.
    stripped: Option<&'a ElfFile<'a>>,
    /// Of a pair, for each section that of the stripped file whose bytes it has; none where its own count.
    stands: Vec<Option<u32>>,
}

impl<'a> Model for Sections<'a> {
    ghost Value = { FileView };

    ghost view = { λ v. view_by v.elf.now.bytes.now (option_map (λ s. s.now.bytes.now) v.stripped) };

    ghost invariant = { λ v. StandsAre v.elf.now.bytes.now (option_map (λ s. s.now.bytes.now) v.stripped) v.stands.items };
}

/// Of a pair, the file that has the bytes of a section, and its number there.
#[tactic(auto, using(crate::proofs::PartLaws::place_laws))]
fn place_in<'a>(
    stripped: &'a ElfFile<'a>,
    debug: &'a ElfFile<'a>,
    stands: &[Option<u32>],
    section: u32,
) -> (&'a ElfFile<'a>, u32)
    requires stands { stands.now ≡ stands_of debug.now.bytes.now stripped.now.bytes.now }
    requires there { section < section_count debug.now.bytes.now }
    ensures there { result.1 < section_count result.0.now.bytes.now }
    ensures small { length result.0.now.bytes.now ≤ 2 ^ 31 }
    ensures place { IsPlace (pair_view debug.now.bytes.now stripped.now.bytes.now) section result.0.now.bytes.now result.1 }
{
    match stands[section as usize] {
        Some(stand) => (stripped, stand),
        None => (debug, section),
    }
}

impl<'a> Sections<'a> {
    /// Those of one file.
    #[tactic(auto, using(crate::proofs::PartLaws::one_laws))]
    pub fn one(elf: &'a ElfFile<'a>) -> Sections<'a>
        ensures value { result ≡ view_of elf.now.bytes.now }
    {
        Sections {
            elf,
            stripped: None,
            stands: Vec::new(*elf.sections.allocator()),
        }
    }

    /// Those of a pair.
    #[tactic(auto, using(crate::proofs::PartLaws::pair_laws))]
    pub fn pair(stripped: &'a ElfFile<'a>, debug: &'a ElfFile<'a>) -> Result<Sections<'a>, NoMemory>
        ensures value { IfOk result (λ sections. sections ≡ pair_view debug.now.bytes.now stripped.now.bytes.now) }
    {
        let stands = stands_of(stripped, debug)?;
        Ok(Sections {
            elf: debug,
            stripped: Some(stripped),
            stands,
        })
    }

    /// Where the sections are allocated.
    pub fn allocator(&self) -> Global {
        *self.elf.sections.allocator()
    }

    /// The byte order.
    #[tactic(auto, using(crate::proofs::PartLaws::order_laws))]
    pub fn order(&self) -> Order
        ensures order { result ≡ self.now.order }
    {
        self.elf.order
    }

    /// How many sections there are.
    #[tactic(auto, using(crate::proofs::PartLaws::count_laws))]
    pub fn count(&self) -> u32
        ensures count { result ≡ length self.now.sections }
    {
        self.elf.section_count()
    }

    /// The first `size` bytes of the name of the section of a number.
    #[tactic(auto, using(crate::proofs::PartLaws::name_laws))]
    pub fn name_front(&self, section: u32, size: usize) -> &[u8]
        requires there { section < length self.now.sections }
        ensures name { result.now ≡ take size (section_at self.now section).name }
    {
        name_front(self.elf, section, size)
    }

    /// The file that has the bytes of the section of a number, and its number there.
    #[tactic(auto, using(crate::proofs::PartLaws::own_laws))]
    fn place(&self, section: u32) -> (&'a ElfFile<'a>, u32)
        requires there { section < length self.now.sections }
        ensures there { result.1 < section_count result.0.now.bytes.now }
        ensures small { length result.0.now.bytes.now ≤ 2 ^ 31 }
        ensures place { IsPlace self.now section result.0.now.bytes.now result.1 }
    {
        match self.stripped {
            Some(stripped) => place_in(stripped, self.elf, &self.stands, section),
            None => (self.elf, section),
        }
    }

    /// The section of a number has bytes in a file.
    #[tactic(auto, using(crate::proofs::PartLaws::byte_laws))]
    pub fn has_bytes(&self, section: u32) -> bool
        requires there { section < length self.now.sections }
        ensures bytes { result ≡ (section_at self.now section).has_bytes }
    {
        let (elf, number) = self.place(section);
        !elf.section(number).takes_no_room()
    }

    /// The bytes of the section of a number.
    #[tactic(auto, using(crate::proofs::PartLaws::byte_laws))]
    pub fn bytes(&self, section: u32) -> &[u8]
        requires there { section < length self.now.sections }
        ensures bytes { result.now ≡ section_bytes self.now section }
        ensures small { length result.now ≤ 2 ^ 31 }
    {
        let (elf, number) = self.place(section);
        elf.contents(number)
    }
}
