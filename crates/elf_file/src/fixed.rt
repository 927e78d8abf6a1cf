//! The part of a file that stays where it is when its sections are laid out anew: this project's profile.

ghost use Rattle.std.specs.Prelude.{◌≡◌, ◌≢◌, ◌+◌, ◌<◌, ◌≤◌, ◌^◌, true, [], ◌∷◌};
ghost use Rattle.dw_base.specs.Elf.{e_phoff, nth_section, section_count};
ghost use Rattle.dw_base.specs.ElfFails.{SegmentsRead};
ghost use Rattle.elf_file.specs.Fixed.{is_loaded_section};
ghost use Rattle.dw_base.specs.Layout.{alloc_ends, fixed_end, greatest, is_fixed, segment_ends, segment_table_end};

use crate::elf::ElfFile;
use crate::sections::lies_within;
use crate::slots::{off32_in, off64_in};
use dw_base::{Class, Section, Segment};

/// The end so far, or that of a segment with bytes in the file where it is greater.
fn with_segment(end: u64, segment: &Segment) -> u64
    requires { segment.now.filesz ≢ 0 → segment.now.offset + segment.now.filesz < 2 ^ 64 }
    ensures { result ≡ greatest end (segment_ends (segment.now ∷ [])) }
{
    if segment.filesz == 0 {
        return end;
    }
    end.max(segment.offset + segment.filesz)
}

/// The section is in the image of the running program, and has bytes in the file.
fn is_loaded_section(section: &Section) -> bool
    ensures { result ≡ is_loaded_section section.now }
{
    section.is_alloc() && !section.takes_no_room() && section.size != 0
}

/// The end so far, or that of an ALLOC section with bytes in the file where it is greater.
fn with_section(end: u64, section: &Section) -> u64
    requires { is_loaded_section section.now ≡ true → section.now.offset + section.now.size < 2 ^ 64 }
    ensures { result ≡ greatest end (alloc_ends (section.now ∷ [])) }
{
    if !is_loaded_section(section) {
        return end;
    }
    end.max(section.offset + section.size)
}

impl ElfFile<'_> {
    /// `e_phoff`: where the program header table begins, in bytes from the start of the file.
    #[tactic(auto, using(crate::proofs::FixedLaws::place_laws), unfolding(dw_base::specs::Elf::e_phoff))]
    fn phoff(&self) -> u64
        ensures { result ≡ e_phoff self.now.bytes.now }
    {
        match self.class {
            Class::C32 => off32_in(self.order, self.bytes, 28),
            Class::C64 => off64_in(self.order, self.bytes, 32),
        }
    }

    /// The end of the program header table, 0 where there is none.
    #[tactic(auto, using(crate::proofs::FixedLaws::place_laws))]
    fn segment_table_end(&self) -> u64
        ensures { result ≡ segment_table_end self.now.bytes.now }
    {
        if self.segments.is_empty() {
            return 0;
        }
        self.class
            .program_header_place(self.phoff(), self.segments.len() as u64)
    }

    /// The greatest of the end so far and the ends of the segments with bytes in the file.
    #[tactic(auto, using(crate::proofs::FixedLaws::segment_laws))]
    fn segments_end(&self, first: u64) -> u64
        requires { SegmentsRead self.now.bytes.now }
        ensures { result ≡ greatest first (segment_ends self.now.segments.items) }
    {
        let mut end = first;
        for segment in self.segments.iter() {
            end = with_segment(end, segment);
        }
        end
    }

    /// The greatest of the end so far and the ends of the ALLOC sections with bytes in the file.
    #[tactic(auto, using(crate::proofs::FixedLaws::alloc_laws))]
    fn allocs_end(&self, first: u64) -> u64
        ensures { result ≡ greatest first (alloc_ends self.now.sections.items) }
    {
        let mut end = first;
        for section in self.sections.iter() {
            end = with_section(end, section);
        }
        end
    }

    /// The end of the part of the file that stays: behind the headers and all that is loaded.
    #[tactic(auto, using(crate::proofs::FixedLaws::end_laws), unfolding(dw_base::specs::Layout::fixed_end))]
    pub fn fixed_end(&self) -> u64
        requires segments { SegmentsRead self.now.bytes.now }
        ensures end { result ≡ fixed_end self.now.bytes.now }
    {
        let end = self.class.file_header_size();
        if !self.is_loaded_kind() {
            return end;
        }
        self.allocs_end(self.segments_end(end.max(self.segment_table_end())))
    }

    /// The section stays at its place, in a file whose fixed end is `end`. Where many sections are asked
    /// about, this costs the pass over the file's records once.
    #[tactic(auto, unfolding(dw_base::specs::Layout::is_fixed))]
    pub fn is_fixed_by(&self, section: u32, end: u64) -> bool
        requires there { section < section_count self.now.bytes.now }
        requires end { end ≡ fixed_end self.now.bytes.now }
        ensures fixed { result ≡ is_fixed self.now.bytes.now (nth_section self.now.bytes.now section) }
    {
        if !self.is_loaded_kind() {
            return false;
        }
        let section = self.section(section);
        section.is_alloc() || lies_within(section.offset, section.size, end)
    }

    /// The section stays at its place: it is ALLOC, or ends at or before the fixed end, in a file of type
    /// EXEC or DYN.
    pub fn is_fixed(&self, section: u32) -> bool
        requires there { section < section_count self.now.bytes.now }
        requires segments { SegmentsRead self.now.bytes.now }
        ensures fixed { result ≡ is_fixed self.now.bytes.now (nth_section self.now.bytes.now section) }
    {
        self.is_fixed_by(section, self.fixed_end())
    }
}
