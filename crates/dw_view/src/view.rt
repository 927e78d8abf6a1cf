//! The view of one file, and of a pair.

ghost use Rattle.std.specs.Prelude.{true, ◌≡◌, ◌⊎◌, ℕ, ◌+◌, ◌<◌, ◌≤◌, ◌^◌, is_some, length, map, option_map, slice_index, IfErr, IfOk, IfSome, MatchOption, OnOk};
ghost use Rattle.dw_base.specs.DebugSections.{name_of};
ghost use Rattle.dw_base.specs.DebugSectionFails.{DebugSectionsFail, DebugSectionsRead};
ghost use Rattle.dw_base.specs.Elf.{contents_of};
ghost use Rattle.dw_base.specs.FileViews.{View as FileView, address_at, field_at, field_read, kind_at, section_after, section_bytes, section_named, sections_named, view_cells, view_of};
ghost use Rattle.dw_base.specs.Cells.{bytes_of, cells_at, is_placed};
ghost use Rattle.dw_base.specs.NewOffsets.{with_offset};
ghost use Rattle.dw_base.specs.Numbers.{number_bytes, spelled};
ghost use Rattle.dw_base.specs.Refusals.{Blames};
ghost use Rattle.dw_base.specs.RelocationFields.{relocation_at};
ghost use Rattle.dw_base.specs.RelocationSectionFails.{RelocationSectionsRead};
ghost use Rattle.dw_base.specs.ViewFails.{ViewFails};
ghost use Rattle.dw_base.specs.ViewOffsets.{offset_read};
ghost use Rattle.dw_base.specs.declared.fault.Refusal.{Refusal};
ghost use Rattle.dw_view.specs.Kept.{FieldFits, KindsAre, NumbersAre};
ghost use Rattle.dw_view.specs.PairViews.{pair_view};
ghost use Rattle.dw_view.specs.Pairs.{IsPaired, PairBlames, PairRefused};
ghost use Rattle.dw_view.specs.Relocations.{FileKeeps, HasNoNext, IsNextPlace, ViewKeeps, relocation_value, target_in};
ghost use Rattle.dw_view.specs.declared.mismatch.PairErr.{PairErr};
ghost use Rattle.dw_base.specs.ViewData.{located};

use crate::fields::{Relocation, address_by, field_by, is_placed};
use crate::found::{next_filled, numbers_of};
use crate::kept::{Kept, field_in, moved_in, next_in, relocation_in, target_in};
use crate::kinds::kinds_of;
use crate::mismatch::PairErr;
use crate::names::{kind_fits, names_apart, names_fit};
use crate::pairing::is_pair;
use crate::relocations::relocations_of;
use crate::repeats::names_once;
use crate::section_bytes::SectionBytes;
use crate::sections::Sections;
use dw_base::{
    DebugSection, Fault, Field, Kind, NoMemory, Order, READ_SECTIONS, Refusal, number_in,
};
use elf_file::ElfFile;
use std::marker::Model;

/// The view of a file, or of a pair: its sections by number and by name.
#[derive(Drop)]
pub struct View<'a> {
    /// The sections.
    sections: Sections<'a>,
    /// For each section that is read, in the order of the table, the numbers of all that have its name and bytes.
    numbers: Vec<Vec<u32>>,
    /// For each section, which one that is read it is.
    kinds: Vec<Option<DebugSection>>,
    /// For each section of a relocatable file what is kept of its relocations. Empty for another file.
    kept: Vec<Option<Kept<'a>>>,
}

impl<'a> Model for View<'a> {
    ghost Value = { FileView };

    ghost view = { λ v. v.sections };

    ghost invariant = { λ v. NumbersAre v.sections (map (λ l. l.items) v.numbers.items) × KindsAre v.sections v.kinds.items × ViewKeeps v.sections v.kept.items };
}

/// The type of a file, and the names and flags of its sections, are ones that are handled.
#[tactic(auto, using(crate::proofs::ViewLaws::one_laws))]
fn file_fits(elf: &ElfFile) -> Result<(), Refusal>
    ensures reads { OnOk result (DebugSectionsRead elf.now.bytes.now) }
    ensures none { OnOk result ((r : Refusal) → DebugSectionsFail elf.now.bytes.now r → ⊥) }
    ensures refused { IfErr result (DebugSectionsFail elf.now.bytes.now) }
{
    kind_fits(elf)?;
    names_fit(elf)?;
    names_once(elf)?;
    names_apart(elf)?;
    Ok(())
}

/// The same, and the relocations of its sections that are read are ones that are handled: what is kept of the relocations.
#[tactic(auto, using(crate::proofs::ViewLaws::read_laws))]
fn read_relocations<'a>(elf: &'a ElfFile<'a>) -> Result<Vec<Option<Kept<'a>>>, Fault>
    ensures keeps { IfOk result (λ kept. FileKeeps elf.now.bytes.now kept.items) }
    ensures sections { OnOk result (DebugSectionsRead elf.now.bytes.now) }
    ensures relocations { OnOk result (RelocationSectionsRead (contents_of elf.now.bytes.now) elf.now.bytes.now) }
    ensures none { OnOk result ((r : Refusal) → ViewFails elf.now.bytes.now r → ⊥) }
    ensures refused { IfErr result (Blames (ViewFails elf.now.bytes.now)) }
{
    file_fits(elf)?;
    let kept = relocations_of(elf)?;
    Ok(kept)
}

/// The view of sections, with what is kept of their relocations.
fn viewed<'a>(sections: Sections<'a>, kept: Vec<Option<Kept<'a>>>) -> Result<View<'a>, NoMemory>
    requires keeps { ViewKeeps sections kept.items }
    ensures value { IfOk result (λ view. view ≡ sections.entry) }
{
    let numbers = numbers_of(&sections, &READ_SECTIONS)?;
    let kinds = kinds_of(&sections)?;
    Ok(View {
        sections,
        numbers,
        kinds,
        kept,
    })
}

/// The view of two files that are a pair. Relocations are those of the debug file.
#[tactic(auto, using(crate::proofs::ViewRelocationLaws::keep_rules))]
fn joined<'a>(
    stripped: &'a ElfFile<'a>,
    debug: &'a ElfFile<'a>,
    kept: Vec<Option<Kept<'a>>>,
) -> Result<View<'a>, NoMemory>
    requires keeps { FileKeeps debug.now.bytes.now kept.items }
    ensures value { IfOk result (λ view. view ≡ pair_view debug.now.bytes.now stripped.now.bytes.now) }
{
    let sections = Sections::pair(stripped, debug)?;
    let view = viewed(sections, kept)?;
    Ok(view)
}

impl<'a> View<'a> {
    /// The view of one file. Refused exactly where a condition of `ViewFails` holds, at its place: by the type of the file as
    /// `FileType`, by the names and flags of its sections as `Compressed`, `Supplementary`, `SplitDwarf`, `UnknownDebug` and `Twice`, and
    /// by the relocations of those that are read as `Relocation`.
    #[tactic(auto, using(crate::proofs::ViewRelocationLaws::keep_rules))]
    pub fn one(elf: &'a ElfFile<'a>) -> Result<View<'a>, Fault>
        ensures reads { OnOk result (DebugSectionsRead elf.now.bytes.now) }
        ensures relocations { OnOk result (RelocationSectionsRead (contents_of elf.now.bytes.now) elf.now.bytes.now) }
        ensures none { OnOk result ((r : Refusal) → ViewFails elf.now.bytes.now r → ⊥) }
        ensures value { IfOk result (λ view. view ≡ view_of elf.now.bytes.now) }
        ensures refused { IfErr result (Blames (ViewFails elf.now.bytes.now)) }
    {
        let kept = read_relocations(elf)?;
        let view = viewed(Sections::one(elf), kept)?;
        Ok(view)
    }

    /// The view of a stripped file and the debug file that it names, whose base name is `name`: the sections have the
    /// numbers of the debug file, and the k-th of a name without bytes there has those of the k-th of that name in
    /// the stripped file. `NotAPair` exactly where the stripped file has no link that can be read, or the link has another
    /// name or another sum, with both values; else `Stripped` or `Debug` with a refusal exactly where a condition
    /// of `ViewFails` holds of that file, at its place; or for want of memory.
    #[tactic(auto, using(crate::proofs::PairingLaws::pair_laws))]
    pub fn pair(
        stripped: &'a ElfFile<'a>,
        debug: &'a ElfFile<'a>,
        name: &[u8],
    ) -> Result<View<'a>, PairErr>
        ensures paired { OnOk result (IsPaired stripped.now.bytes.now debug.now.bytes.now name.now) }
        ensures stripped_reads { OnOk result (DebugSectionsRead stripped.now.bytes.now) }
        ensures debug_reads { OnOk result (DebugSectionsRead debug.now.bytes.now) }
        ensures relocations { OnOk result (RelocationSectionsRead (contents_of debug.now.bytes.now) debug.now.bytes.now) }
        ensures none { OnOk result ((e : PairErr) → PairRefused stripped.now.bytes.now debug.now.bytes.now name.now e → ⊥) }
        ensures value { IfOk result (λ view. view ≡ pair_view debug.now.bytes.now stripped.now.bytes.now) }
        ensures refused { IfErr result (PairBlames stripped.now.bytes.now debug.now.bytes.now name.now) }
    {
        is_pair(stripped, debug, name)?;
        if let Err(fault) = read_relocations(stripped) {
            return Err(PairErr::Stripped(fault));
        }
        let kept = match read_relocations(debug) {
            Ok(kept) => kept,
            Err(fault) => return Err(PairErr::Debug(fault)),
        };
        let Ok(view) = joined(stripped, debug, kept) else {
            return Err(PairErr::Debug(Fault::NoMemory));
        };
        Ok(view)
    }

    /// The byte order of the file.
    pub fn order(&self) -> Order
        ensures order { result ≡ self.now.order }
    {
        self.sections.order()
    }

    /// How many sections there are.
    pub fn section_count(&self) -> u32
        ensures count { result ≡ length self.now.sections }
    {
        self.sections.count()
    }

    /// The first section of those that are read: the first of its name that has bytes in the file. None
    /// exactly where there is no such section. Takes the same time in every file.
    pub fn first(&self, section: DebugSection) -> Option<u32>
        ensures section { result ≡ section_named self.now (name_of section) }
        ensures there { IfSome result (λ section. section < length self.now.sections) }
    {
        self.all(section).first().copied()
    }

    /// The numbers of all sections of one that is read, in order: those of its name that have bytes in the file.
    /// Takes the same time in every file.
    pub fn all(&self, section: DebugSection) -> &[u32]
        ensures sections { result.now ≡ sections_named self.now (name_of section) }
    {
        self.numbers[section as usize].as_slice()
    }

    /// The first section above a number that has a name, and bytes in the file. None exactly where there
    /// is no such section.
    #[tactic(auto, using(crate::proofs::ViewLaws::section_laws))]
    pub fn section(&self, name: &[u8], after: u32) -> Option<u32>
        ensures section { result ≡ section_after self.now name.now after }
        ensures above { IfSome result (λ section. after < section) }
        ensures there { IfSome result (λ section. section < length self.now.sections) }
    {
        self.found(name, after)
    }

    /// The same: the list of all is kept for each section that is read.
    #[tactic(auto, using(crate::proofs::ViewLaws::found_laws))]
    fn found(&self, name: &[u8], after: u32) -> Option<u32>
        ensures { result ≡ section_after self.now name.now after }
    {
        if after == 0
            && let Some(section) = DebugSection::called(name)
        {
            return self.first(section);
        }
        next_filled(&self.sections, name, after)
    }

    /// Which section that is read the one of a number is, by its name; none exactly where its name is
    /// that of no such section. Takes the same time in every file.
    #[tactic(auto, using(crate::proofs::SectionKindLaws::kept_laws))]
    pub fn kind(&self, section: u32) -> Option<DebugSection>
        requires there { section < length self.now.sections }
        ensures kind { result ≡ kind_at self.now section }
    {
        self.kinds[section as usize]
    }

    /// The bytes of the section of a number, none where it has none in the file.
    pub fn bytes(&self, section: u32) -> &[u8]
        requires there { section < length self.now.sections }
        ensures bytes { result.now ≡ section_bytes self.now section }
        ensures small { length result.now ≤ 2 ^ 31 }
    {
        self.sections.bytes(section)
    }

    /// The first section of one that is read, as one that offsets are into: number 0 and no bytes where there is none. Takes the same
    /// time in every file.
    #[tactic(auto, unfolding(dw_base::specs::ViewData::located))]
    pub fn located<'v>(&'v self, section: DebugSection) -> SectionBytes<'v>
        ensures section { result ≡ located self.now section }
        ensures small { length result.bytes ≤ 2 ^ 31 }
    {
        match self.first(section) {
            Some(number) => SectionBytes {
                number,
                bytes: self.bytes(number),
            },
            None => SectionBytes {
                number: 0,
                bytes: &[],
            },
        }
    }

    /// What a field reads as: the `size` bytes from `at`, in bytes from the start of the section of a
    /// number. Refused as `Relocation` exactly where, in a section that is read, a relocation lies on the field
    /// only in part, at that relocation. In a section that is read it takes a time that doesn't grow with the number of its relocations.
    #[tactic(auto, using(crate::proofs::ViewRelocationLaws::field_rules))]
    pub fn field(&self, section: u32, at: u64, size: u8) -> Result<Field, Refusal>
        requires there { section < length self.now.sections }
        requires some { 0 < size }
        requires wide { size ≤ 8 }
        requires inside { at + size ≤ length (section_bytes self.now section) }
        ensures read { result ≡ field_read self.now section at size }
        ensures fits { IfOk result (FieldFits size) }
    {
        let number = self.number(section, at, size);
        field_in(&self.kept, section, at, size, number)
    }

    /// What a number reads as: as a field does, but a relocation that lies on it only in part isn't asked for.
    #[tactic(auto, using(crate::proofs::ViewRelocationLaws::value_rules))]
    pub fn value(&self, section: u32, at: u64, size: u8) -> Field
        requires there { section < length self.now.sections }
        requires some { 0 < size }
        requires wide { size ≤ 8 }
        requires inside { at + size ≤ length (section_bytes self.now section) }
        ensures { result ≡ field_at self.now section at size }
    {
        let number = self.number(section, at, size);
        field_by(relocation_in(&self.kept, section, at), size, number)
    }

    /// What the field of an offset reads as, a number or a place in a section: the `size` bytes from `at`, in bytes from the start of the
    /// section of a number. Refused as `Relocation` exactly where, in a section that is read, a relocation lies on the field only in part,
    /// at that relocation, or where the one that begins there gives no place, at the field. Takes the time of `field`.
    #[tactic(auto, using(crate::proofs::ViewRelocationLaws::offset_rules))]
    pub fn offset(&self, section: u32, at: u64, size: u8) -> Result<Field, Refusal>
        requires there { section < length self.now.sections }
        requires some { 0 < size }
        requires wide { size ≤ 8 }
        requires inside { at + size ≤ length (section_bytes self.now section) }
        ensures read { result ≡ offset_read self.now section at size }
        ensures placed { IfOk result (λ f. is_placed f ≡ true) }
        ensures fits { IfOk result (FieldFits size) }
    {
        let field = self.field(section, at, size)?;
        if !is_placed(field) {
            return Err(Refusal::at(Kind::Relocation, section, at));
        }
        Ok(field)
    }

    /// What an address reads as: the `size` bytes from `at`, in bytes from the start of the section of a
    /// number, or where a relocation begins at it, whatever its type, its symbol, type and addend.
    #[tactic(auto, using(crate::proofs::ViewRelocationLaws::address_rules))]
    pub fn address(&self, section: u32, at: u64, size: u8) -> Field
        requires there { section < length self.now.sections }
        requires some { 0 < size }
        requires wide { size ≤ 8 }
        requires inside { at + size ≤ length (section_bytes self.now section) }
        ensures { result ≡ address_at self.now section at size }
    {
        let number = self.number(section, at, size);
        address_by(relocation_in(&self.kept, section, at), number)
    }

    /// The relocation that begins at a place of the section of a number, in bytes from its start.
    #[tactic(auto, using(crate::proofs::ViewRelocationLaws::place_rules))]
    pub fn relocation(&self, section: u32, at: u64) -> Option<Relocation>
        requires there { section < length self.now.sections }
        requires inside { at < length (section_bytes self.now section) }
        ensures { option_map relocation_value result ≡ relocation_at (view_cells self.now section) at }
    {
        relocation_in(&self.kept, section, at)
    }

    /// Where the symbol of the relocation that begins at a place of the section of a number is defined, if one does and it is: the number of
    /// the section, and the symbol's value there.
    #[tactic(auto, using(crate::proofs::ViewRelocationLaws::target_rules))]
    pub fn target(&self, section: u32, at: u64) -> Option<(u32, u64)>
        requires there { section < length self.now.sections }
        requires inside { at < length (section_bytes self.now section) }
        ensures { result ≡ target_in (relocation_at (view_cells self.now section) at) }
    {
        target_in(&self.kept, section, at)
    }

    /// The first place from one on at which a relocation begins, in the section of a number that is read. None exactly where none does.
    #[tactic(auto, using(crate::proofs::ViewRelocationLaws::next_rules))]
    pub fn next_relocation(&self, section: u32, from: u64) -> Option<u64>
        requires there { section < length self.now.sections }
        requires read { is_some (kind_at self.now section) ≡ true }
        ensures next { MatchOption result (HasNoNext self.now section from) (IsNextPlace self.now section from) }
        ensures small { IfSome result (λ p. p < 2 ^ 31) }
    {
        if from >= self.bytes(section).len() as u64 {
            return None;
        }
        next_in(&self.kept, section, from)
    }

    /// The number with which a field says another offset, by the relocation that begins at it: the `size` bytes, 4 or 8, from `at`, in
    /// bytes from the start of the section of a number. It is the offset where none begins there, the number that stands there where the
    /// relocation's record has an addend, which then says the offset, and else the offset less the symbol's value.
    #[tactic(auto, using(crate::proofs::MovedLaws::moved_rules))]
    pub fn moved_number(&self, section: u32, at: u64, size: u8, offset: u64) -> u64
        requires there { section < length self.now.sections }
        requires size { (size ≡ 4) ⊎ (size ≡ 8) }
        requires inside { at + size ≤ length (section_bytes self.now section) }
        ensures bytes { number_bytes self.now.order size result ≡ bytes_of (with_offset self.now.order (cells_at (view_cells self.now section) at size) offset) }
    {
        let number = self.number(section, at, size);
        moved_in(&self.kept, section, at, size, number, offset)
    }

    /// The number that the bytes of a field spell.
    #[tactic(auto, using(crate::proofs::MovedLaws::byte_rules))]
    fn number(&self, section: u32, at: u64, size: u8) -> u64
        requires there { section < length self.now.sections }
        requires some { 0 < size }
        requires wide { size ≤ 8 }
        requires inside { at + size ≤ length (section_bytes self.now section) }
        ensures value { result ≡ spelled self.now.order (section_bytes self.now section) at size }
        ensures fits { result < 256 ^ size }
        ensures small { at + size < 2 ^ 63 }
        ensures bytes { (k : ℕ) → slice_index (section_bytes self.now section) k < 256 }
    {
        spelled_in(self.order(), self.bytes(section), at, size)
    }
}

/// The number that the bytes of a field spell; and that they are bytes.
fn spelled_in(order: Order, bytes: &[u8], at: u64, size: u8) -> u64
    requires some { 0 < size }
    requires wide { size ≤ 8 }
    requires inside { at + size ≤ length bytes.now }
    ensures value { result ≡ spelled order bytes.now at size }
    ensures fits { result < 256 ^ size }
    ensures bytes { (k : ℕ) → slice_index bytes.now k < 256 }
{
    number_in(order, bytes, at, size)
}
