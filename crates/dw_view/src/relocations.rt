//! The relocations of a file's sections, read once (gABI ch. 4 "Relocation"), and whether those of sections that are read are ones that are
//! handled (this project's profile).

ghost use Rattle.std.specs.Prelude.{true, false, ◌≡◌, ◌≢◌, ◌<◌, Some, length, IfErr, IfOk, OnOk};
ghost use Rattle.std.specs.Bool.{OnFalse, OnTrue};
ghost use Rattle.std.specs.List.Sorted.{IsNonDecreasingBy};
ghost use Rattle.dw_base.specs.DebugSections.{debug_section};
ghost use Rattle.dw_base.specs.Elf.{contents_of, e_type, section_count, section_name};
ghost use Rattle.dw_base.specs.Refusals.{Blames};
ghost use Rattle.dw_base.specs.RelocationSectionFails.{RelocationSectionsFail, RelocationSectionsRead, SectionReads, TableReads, holds_texts, is_own_kind, lies_in_moving};
ghost use Rattle.dw_base.specs.SectionRelocations.{extends, relocates, relocation_section, relocations_of};
ghost use Rattle.dw_base.specs.declared.debug_sections.DebugSection.TheVariants.{Abbrev};
ghost use Rattle.dw_view.specs.Firsts.{AreFirsts, AreSingle};
ghost use Rattle.dw_view.specs.Places.{Lists, PlacesRise, PlacesWithin};
ghost use Rattle.dw_view.specs.Relocations.{AbbrevMoves, FileKeeps, HasText, Keeps, KeepsAll, KeepsAt, ListFails, NoTexts, NoneMoves, NoneMovesUpTo, OneMoves, ReadsIf, is_moving, relocation_moves};

use crate::fields::relocation_of;
use crate::firsts::{extended_of, holders_of, is_relocation_kind, kind_of};
use crate::kept::Kept;
use crate::partly::index_of;
use crate::places::{PlacedRecord, check_places, place_at, placed_records};
use crate::repeats::is_relocatable;
use crate::search::PlaceIndex;
use crate::source::{is_symbol_table, source_of};
use dw_base::elf_numbers::{ET_REL, SHT_SYMTAB, SHT_SYMTAB_SHNDX};
use dw_base::{DebugSection, Fault, Kind, Refusal, Section, moves};
use elf_file::ElfFile;
use elf_relocs::RelocSource;

/// The section's type says something of relocations or symbols.
fn is_own_kind(section: &Section) -> bool
    ensures { result ≡ is_own_kind section.now }
{
    is_relocation_kind(section) || section.kind == SHT_SYMTAB || section.kind == SHT_SYMTAB_SHNDX
}

/// The section holds texts.
fn holds_texts(kind: DebugSection) -> bool
    ensures { result ≡ holds_texts (Some kind) }
{
    match kind {
        DebugSection::Str | DebugSection::LineStr => true,
        _ => false,
    }
}

/// The section holds abbreviations.
fn is_abbrev(kind: DebugSection) -> bool
    ensures abbrev { OnTrue result (kind ≡ Abbrev) }
    ensures other { OnFalse result (kind ≢ Abbrev) }
{
    match kind {
        DebugSection::Abbrev => true,
        _ => false,
    }
}

/// The section of a number is there, and its places change.
#[tactic(auto, using(crate::proofs::RelocationLaws::moving_rules))]
fn is_moving(elf: &ElfFile, section: u32) -> bool
    ensures { result ≡ is_moving elf.now.bytes.now section }
{
    if section >= elf.section_count() {
        return false;
    }
    moves(kind_of(elf, section))
}

/// The place of a symbol lies in such a section.
fn lies_in_moving(elf: &ElfFile, target: Option<(u32, u64)>) -> bool
    ensures { result ≡ lies_in_moving elf.now.bytes.now target }
{
    match target {
        Some((section, _)) => is_moving(elf, section),
        None => false,
    }
}

/// The symbol of the relocation of a number lies in a section whose places change.
#[tactic(auto, using(crate::proofs::RelocationLaws::move_rules))]
fn relocation_moves(elf: &ElfFile, source: &RelocSource, list: &[PlacedRecord], i: usize) -> bool
    requires lists { Lists source.now list.now }
    requires inside { i < length list.now }
    ensures { result ≡ relocation_moves elf.now.bytes.now source.now list.now i }
{
    let relocation = relocation_of(source, index_of(list, i));
    lies_in_moving(elf, relocation.target)
}

/// Refused at the first where the section of a number holds texts.
#[tactic(auto, using(crate::proofs::RelocationLaws::text_rules))]
fn check_texts(section: u32, kind: DebugSection, list: &[PlacedRecord]) -> Result<(), Refusal>
    ensures none { OnOk result (NoTexts kind list.now) }
    ensures refused { IfErr result (HasText section kind list.now) }
{
    if !holds_texts(kind) {
        return Ok(());
    }
    if list.len() == 0 {
        return Ok(());
    }
    Err(Refusal::at(Kind::Relocation, section, place_at(list, 0)))
}

/// Refused at the first whose symbol lies in a section whose places change.
fn check_moves(
    elf: &ElfFile,
    source: &RelocSource,
    section: u32,
    list: &[PlacedRecord],
) -> Result<(), Refusal>
    requires lists { Lists source.now list.now }
    ensures none { OnOk result (NoneMovesUpTo elf.now.bytes.now source.now (length list.now) list.now) }
    ensures refused { IfErr result (OneMoves elf.now.bytes.now source.now section list.now) }
{
    for i in 0..list.len() {
        if relocation_moves(elf, source, list, i) {
            return Err(Refusal::at(Kind::Relocation, section, place_at(list, i)));
        }
    }
    Ok(())
}

/// The same where the section holds abbreviations.
#[tactic(auto, using(crate::proofs::RelocationLaws::abbrev_rules))]
fn check_abbrevs(
    elf: &ElfFile,
    source: &RelocSource,
    section: u32,
    kind: DebugSection,
    list: &[PlacedRecord],
) -> Result<(), Refusal>
    requires lists { Lists source.now list.now }
    ensures none { OnOk result (NoneMoves elf.now.bytes.now source.now kind list.now) }
    ensures refused { IfErr result (AbbrevMoves elf.now.bytes.now source.now section kind list.now) }
{
    if !is_abbrev(kind) {
        return Ok(());
    }
    check_moves(elf, source, section, list)?;
    Ok(())
}

/// The relocations of the section of a number that is read are ones that are handled.
#[tactic(auto, using(crate::proofs::RelocationLaws::list_rules))]
fn check_list(
    elf: &ElfFile,
    source: &RelocSource,
    section: u32,
    kind: DebugSection,
    list: &[PlacedRecord],
) -> Result<(), Refusal>
    requires there { section < section_count elf.now.bytes.now }
    requires lists { Lists source.now list.now }
    requires sorted { IsNonDecreasingBy (λ e. e.place) list.now }
    ensures rise { OnOk result (PlacesRise list.now) }
    ensures within { OnOk result (PlacesWithin (length (contents_of elf.now.bytes.now section)) list.now) }
    ensures texts { OnOk result (NoTexts kind list.now) }
    ensures abbrevs { OnOk result (NoneMoves elf.now.bytes.now source.now kind list.now) }
    ensures refused { IfErr result (ListFails elf.now.bytes.now source.now section (length (contents_of elf.now.bytes.now section)) kind list.now) }
{
    check_places(section, elf.contents(section).len() as u64, list)?;
    check_texts(section, kind, list)?;
    check_abbrevs(elf, source, section, kind, list)?;
    Ok(())
}

/// What is kept of the relocations of the section of a number that is read, which another holds.
#[tactic(auto, using(crate::proofs::RelocationLaws::table_rules))]
fn keep_listed<'a>(
    elf: &'a ElfFile<'a>,
    extended: &[Option<u32>],
    section: u32,
    kind: DebugSection,
    holder: u32,
) -> Result<Kept<'a>, Fault>
    requires there { section < section_count elf.now.bytes.now }
    requires kind { debug_section (section_name elf.now.bytes.now section) ≡ Some kind }
    requires holder { relocation_section elf.now.bytes.now section ≡ Some holder }
    requires holder_there { holder < section_count elf.now.bytes.now }
    requires extended { AreFirsts (extends elf.now.bytes.now) (section_count elf.now.bytes.now) (section_count elf.now.bytes.now) extended.now }
    ensures keeps { IfOk result (Keeps (relocations_of (contents_of elf.now.bytes.now) elf.now.bytes.now section) true (length (contents_of elf.now.bytes.now section))) }
    ensures reads { OnOk result (TableReads (contents_of elf.now.bytes.now) elf.now.bytes.now section holder) }
    ensures refused { IfErr result (Blames (RelocationSectionsFail (contents_of elf.now.bytes.now) elf.now.bytes.now)) }
{
    if !is_symbol_table(elf, elf.section(holder).link) {
        return Err(Fault::Refused(Refusal::at(Kind::Relocation, section, 0)));
    }
    let source = source_of(elf, extended, holder);
    let alloc = *elf.sections.allocator();
    let list = placed_records(alloc, &source)?;
    check_list(elf, &source, section, kind, &list)?;
    let places = PlaceIndex::new(alloc, list)?;
    Ok(Kept::listed(source, places))
}

/// What is kept of the relocations of the section of a number that is read.
#[tactic(auto, using(crate::proofs::RelocationLaws::read_rules))]
fn keep_read<'a>(
    elf: &'a ElfFile<'a>,
    holders: &[Option<u32>],
    extended: &[Option<u32>],
    section: u32,
    kind: DebugSection,
) -> Result<Option<Kept<'a>>, Fault>
    requires there { section < section_count elf.now.bytes.now }
    requires rel { e_type elf.now.bytes.now ≡ ET_REL }
    requires kind { debug_section (section_name elf.now.bytes.now section) ≡ Some kind }
    requires holders { AreFirsts (relocates elf.now.bytes.now) (section_count elf.now.bytes.now) (section_count elf.now.bytes.now) holders.now }
    requires single { AreSingle elf.now.bytes.now (section_count elf.now.bytes.now) }
    requires extended { AreFirsts (extends elf.now.bytes.now) (section_count elf.now.bytes.now) (section_count elf.now.bytes.now) extended.now }
    ensures keeps { IfOk result (KeepsAll (relocations_of (contents_of elf.now.bytes.now) elf.now.bytes.now section) true (length (contents_of elf.now.bytes.now section))) }
    ensures reads { OnOk result (SectionReads (contents_of elf.now.bytes.now) elf.now.bytes.now section) }
    ensures refused { IfErr result (Blames (RelocationSectionsFail (contents_of elf.now.bytes.now) elf.now.bytes.now)) }
{
    if is_own_kind(&elf.section(section)) {
        return Err(Fault::Refused(Refusal::at(Kind::Relocation, section, 0)));
    }
    match holders[section as usize] {
        Some(holder) => {
            let kept = keep_listed(elf, extended, section, kind, holder)?;
            Ok(Some(kept))
        }
        None => Ok(None),
    }
}

/// What is kept of the relocations of the section of a number that isn't read.
#[tactic(auto, using(crate::proofs::RelocationLaws::other_rules))]
fn keep_other<'a>(
    elf: &'a ElfFile<'a>,
    holders: &[Option<u32>],
    extended: &[Option<u32>],
    section: u32,
) -> Option<Kept<'a>>
    requires there { section < section_count elf.now.bytes.now }
    requires holders { AreFirsts (relocates elf.now.bytes.now) (section_count elf.now.bytes.now) (section_count elf.now.bytes.now) holders.now }
    requires extended { AreFirsts (extends elf.now.bytes.now) (section_count elf.now.bytes.now) (section_count elf.now.bytes.now) extended.now }
    ensures keeps { KeepsAll (relocations_of (contents_of elf.now.bytes.now) elf.now.bytes.now section) false (length (contents_of elf.now.bytes.now section)) result }
{
    match holders[section as usize] {
        Some(holder) => Some(Kept::unread(
            *elf.sections.allocator(),
            source_of(elf, extended, holder),
        )),
        None => None,
    }
}

/// What is kept of the relocations of the section of a number.
#[tactic(auto, using(crate::proofs::RelocationLaws::keep_rules))]
fn keep<'a>(
    elf: &'a ElfFile<'a>,
    holders: &[Option<u32>],
    extended: &[Option<u32>],
    section: u32,
) -> Result<Option<Kept<'a>>, Fault>
    requires there { section < section_count elf.now.bytes.now }
    requires rel { e_type elf.now.bytes.now ≡ ET_REL }
    requires holders { AreFirsts (relocates elf.now.bytes.now) (section_count elf.now.bytes.now) (section_count elf.now.bytes.now) holders.now }
    requires single { AreSingle elf.now.bytes.now (section_count elf.now.bytes.now) }
    requires extended { AreFirsts (extends elf.now.bytes.now) (section_count elf.now.bytes.now) (section_count elf.now.bytes.now) extended.now }
    ensures keeps { IfOk result (KeepsAt elf.now.bytes.now section) }
    ensures reads { OnOk result (ReadsIf elf.now.bytes.now section) }
    ensures refused { IfErr result (Blames (RelocationSectionsFail (contents_of elf.now.bytes.now) elf.now.bytes.now)) }
{
    match kind_of(elf, section) {
        Some(kind) => {
            let kept = keep_read(elf, holders, extended, section, kind)?;
            Ok(kept)
        }
        None => Ok(keep_other(elf, holders, extended, section)),
    }
}

/// What is kept of the relocations of all sections of a relocatable file.
fn keep_all<'a>(elf: &'a ElfFile<'a>) -> Result<Vec<Option<Kept<'a>>>, Fault>
    requires rel { e_type elf.now.bytes.now ≡ ET_REL }
    ensures keeps { IfOk result (λ kept. FileKeeps elf.now.bytes.now kept.items) }
    ensures reads { OnOk result (RelocationSectionsRead (contents_of elf.now.bytes.now) elf.now.bytes.now) }
    ensures refused { IfErr result (Blames (RelocationSectionsFail (contents_of elf.now.bytes.now) elf.now.bytes.now)) }
{
    let holders = holders_of(elf)?;
    let extended = extended_of(elf)?;
    let count = elf.section_count();
    let mut all = Vec::with_capacity(*elf.sections.allocator(), count as usize)?;
    for section in 0..count {
        all.push(keep(elf, &holders, &extended, section)?)?;
    }
    Ok(all)
}

/// What is kept of the relocations of a file: for each section of a relocatable file what its fields read as by, nothing of another file.
/// Refused where those of a section that is read aren't handled. Takes a time that grows with the sections and the relocations of those
/// that are read, and with the logarithm of the latter where they don't stand in order of places.
#[tactic(auto, using(crate::proofs::RelocationLaws::file_rules))]
pub fn relocations_of<'a>(elf: &'a ElfFile<'a>) -> Result<Vec<Option<Kept<'a>>>, Fault>
    ensures keeps { IfOk result (λ kept. FileKeeps elf.now.bytes.now kept.items) }
    ensures reads { OnOk result (RelocationSectionsRead (contents_of elf.now.bytes.now) elf.now.bytes.now) }
    ensures refused { IfErr result (Blames (RelocationSectionsFail (contents_of elf.now.bytes.now) elf.now.bytes.now)) }
{
    if !is_relocatable(elf) {
        return Ok(Vec::new(*elf.sections.allocator()));
    }
    let all = keep_all(elf)?;
    Ok(all)
}
