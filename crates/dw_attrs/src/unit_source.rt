//! What units are read by again when they are printed, and the entries and texts that their values name.
//!
//! Read first: `specs/UnitValues.antt`.

ghost use Rattle.std.specs.Prelude.{◌≡◌, ◌<◌, ◌≤◌, ◌^◌, drop, length, option_map, IfOk};
ghost use Rattle.dw_base.specs.Texts.{text_in};
ghost use Rattle.dw_base.specs.ViewData.{debug_data, located};
ghost use Rattle.dw_base.specs.DebugSections.{name_of};
ghost use Rattle.dw_base.specs.declared.debug_sections.DebugSection.TheVariants.{Info, StrOffsets};
ghost use Rattle.dw_base.specs.DebugData.{info_numbers};
ghost use Rattle.dw_base.specs.FileViews.{section_named};
ghost use Rattle.dw_starts.specs.LineStarts.{Rises};
ghost use Rattle.dw_starts.specs.UnitPlaces.{place_key};
ghost use Rattle.dw_base.specs.TextIndexes.{holds_number};
ghost use Rattle.dw_offsets.specs.SlotSearch.{BasesRise};
ghost use Rattle.dw_attrs.specs.EntryIndexes.{AreBefore, entries_at, unit_number, unit_starts};
ghost use Rattle.dw_attrs.specs.UnitValues.{UnitSource as UnitSourceOf, index_text, info_section, lies_in, macro_named, first_macro, named_at, named_in, slot_field, slot_in, slot_size, slot_text};
ghost use Rattle.dw_attrs.specs.UnitReads.{SourceFits};
ghost use Rattle.dw_units.specs.UnitLists.{IsTableOf};
ghost use Rattle.dw_base.specs.StringOffsets.{slot_place};

use crate::entry_index::EntryIndex;
use crate::fields::has_room;
use crate::starts::unit_number;
use dw_base::{Contribution, DebugSection, Field, NoMemory, UnitHeader};
use dw_offsets::{ContributionList, slot_place, with_base};
use dw_starts::place_key;
use dw_strings::text_at;
use dw_units::{ListedUnit, UnitTable, Units};
use dw_view::View;
use std::alloc::Global;
use std::marker::Model;

/// No unit ends behind this place of its section.
const MOST_PLACE: u64 = 0x1_0000_0000;

/// The view, all its units in order with their tables of abbreviations, where they and their entries start, the contributions of string offsets,
/// where line tables start, and where macro units start, as `place_key` says.
#[derive(Drop)]
pub struct UnitSource<'v, 'f, 'u> {
    pub view: &'v View<'f>,
    pub list: &'u Units<'v>,
    pub index: &'u EntryIndex,
    pub contributions: &'u ContributionList,
    pub starts: &'u [u64],
    pub keys: &'u [u64],
}

impl<'v, 'f, 'u> Model for UnitSource<'v, 'f, 'u> {
    ghost Value = { UnitSourceOf };

    ghost view = { λ s. record { view = s.view.now; units = s.list.now.units; tables = s.list.now.tables; index = s.index.now; contributions = s.contributions.now; starts = s.starts.now; keys = s.keys.now } };
}

/// A place of a section lies in a unit.
#[tactic(auto)]
pub(crate) fn lies_in(unit: &UnitHeader, section: u32, place: u64) -> bool
    ensures { result ≡ lies_in unit.now section place }
{
    unit.section == section && unit.start <= place && place < unit.end
}

impl<'v, 'f, 'u> UnitSource<'v, 'f, 'u> {
    /// How many units start at a place of a section or in front of it.
    #[tactic(auto, using(crate::proofs::SourceLaws::before_laws))]
    fn units_before(&self, section: u32, place: u64) -> usize
        requires source { SourceFits self.now }
        requires small { place < 2 ^ 32 }
        ensures before { AreBefore (unit_starts self.now.units) (place_key section place) result }
        ensures inside { result ≤ length self.now.units }
    {
        let index = self.index;
        index.units_before(place_key(section, place))
    }

    /// The number of the entry of a unit that starts at a place.
    #[tactic(auto, using(crate::proofs::SourceLaws::number_laws))]
    fn number_in(&self, unit: usize, place: u64) -> Option<u64>
        requires source { SourceFits self.now }
        requires inside { unit < length self.now.units }
        requires small { place < 2 ^ 32 }
        ensures number { result ≡ unit_number self.now.view self.now.tables self.now.units unit place }
    {
        let index = self.index;
        index.number_in(unit, place)
    }

    /// The entry that starts at a place of a section: the number of its unit, and its number there.
    #[tactic(auto, using(crate::proofs::SourceLaws::named_laws))]
    pub(crate) fn entry(&self, section: u32, place: u64) -> Option<(u64, u64)>
        requires source { SourceFits self.now }
        ensures entry { result ≡ named_in self.now.view self.now.tables 0 self.now.units section place }
    {
        if place >= MOST_PLACE {
            return None;
        }
        let before = self.units_before(section, place);
        if before == 0 {
            return None;
        }
        let unit = before - 1;
        let units = self.units();
        if !lies_in(&units[unit].header, section, place) {
            return None;
        }
        match self.number_in(unit, place) {
            Some(number) => Some((unit as u64, number)),
            None => None,
        }
    }

    /// How many entries the unit of a number has.
    pub fn entry_count(&self, unit: u64) -> usize
        ensures count { result ≡ length (entries_at self.now.index.entries unit) }
    {
        let index = self.index;
        index.count_in(unit)
    }

    /// The table of abbreviations of the unit of a number.
    pub fn table(&self, alloc: Global, unit: usize) -> Result<UnitTable<'u>, NoMemory>
        requires there { unit < length self.now.units }
        ensures table { IfOk result (IsTableOf (record { units = self.now.units; tables = self.now.tables }) unit) }
    {
        let list = self.list;
        list.table(alloc, unit)
    }

    /// The units.
    pub fn units(&self) -> &'u [ListedUnit]
        ensures { result.now ≡ self.now.units }
    {
        let list = self.list;
        list.all()
    }

    /// Where line tables start.
    pub(crate) fn starts(&self) -> &'u [u64]
        ensures { result.now ≡ self.now.starts }
    {
        self.starts
    }

    /// The number of the macro unit that a field names: of the first section of macro units, or of the one that a relocation leads to.
    pub(crate) fn macro_unit(&self, field: Field) -> Option<u64>
        requires fits { SourceFits self.now }
        ensures number { result ≡ macro_named self.now field }
    {
        unit_named(self.view, self.keys, field)
    }

    /// The text of an index in the contribution of a base.
    pub(crate) fn indexed(&self, base: Option<u64>, index: u64) -> Option<&'v [u8]>
        ensures text { option_map (λ t. t.now) result ≡ index_text self.now.view self.now.contributions base index }
    {
        match base {
            Some(base) => based_text(self.view, self.contributions, base, index),
            None => None,
        }
    }
}

/// The text of an index in the contribution of a base.
fn based_text<'v>(
    view: &'v View,
    contributions: &ContributionList,
    base: u64,
    index: u64,
) -> Option<&'v [u8]>
    ensures text { option_map (λ t. t.now) result ≡ option_map (λ place. slot_text view.now place (slot_size contributions.now base)) (slot_place contributions.now base index) }
{
    match slot_place(contributions, base, index) {
        Some(place) => {
            let size = slot_size(contributions.as_slice(), base);
            Some(slot_text(view, place, size))
        }
        None => None,
    }
}

/// The number of the first section of the name `.debug_info`, or 0.
pub(crate) fn info_section(view: &View) -> u32
    ensures { result ≡ info_section view.now }
{
    match view.first(DebugSection::Info) {
        Some(section) => section,
        None => 0,
    }
}

/// A section is one of the name `.debug_info`, with bytes in the file. It is found in a time that grows with the logarithm of their number.
pub(crate) fn is_info(view: &View, section: u32) -> bool
    ensures { result ≡ holds_number (info_numbers ((debug_data view.now).found Info)) section }
{
    view.all(DebugSection::Info).binary_search(&section).is_ok()
}

/// The number of the first section of macro units, or 0.
fn first_macro(view: &View) -> u32
    ensures { result ≡ first_macro view.now }
{
    view.located(DebugSection::Macro).number
}

/// The number of the macro unit that a field names, among where they start.
fn unit_named(view: &View, keys: &[u64], field: Field) -> Option<u64>
    requires rises { Rises keys.now }
    ensures number { result ≡ named_at view.now keys.now field }
{
    match field {
        Field::Num(place) => unit_number(keys, first_macro(view), place),
        Field::Into { section, offset } => unit_number(keys, section, offset),
        Field::Sym { .. } => None,
    }
}

/// The bytes from a place on, as far as they are there.
#[tactic(auto, using(crate::proofs::PartLaws::part_laws))]
fn bytes_from(bytes: &[u8], at: u64) -> &[u8]
    ensures { result.now ≡ drop at bytes.now }
{
    let from = at.min(bytes.len() as u64);
    let (_, rest) = bytes.split_at(from as usize);
    rest
}

/// The bytes from a place on up to the first NUL, or all of them.
#[tactic(auto, using(crate::proofs::SourceLaws::text_laws))]
fn text_from(bytes: &[u8], at: u64) -> &[u8]
    ensures { result.now ≡ text_in bytes.now at }
{
    match text_at(0, bytes, at) {
        Ok(text) => text,
        Err(_) => bytes_from(bytes, at),
    }
}

/// The text at a place of a table of texts.
pub(crate) fn text_of<'v>(view: &'v View, table: DebugSection, at: u64) -> &'v [u8]
    ensures { result.now ≡ text_in (located view.now table).bytes at }
{
    text_from(view.located(table).bytes, at)
}

/// How many bytes the slots of the contribution of a base have.
#[tactic(auto, using(crate::proofs::SourceLaws::size_laws))]
fn slot_size(list: &[Contribution], base: u64) -> u8
    requires rising { BasesRise list.now }
    ensures size { result ≡ slot_size list.now base }
    ensures some { 0 < result }
    ensures wide { result ≤ 8 }
{
    match with_base(list, base) {
        Ok(at) => list[at].width.offset_size(),
        Err(_) => 4,
    }
}

/// What the slot at a place of a section reads as, of so many bytes.
#[tactic(auto, using(crate::proofs::SourceLaws::slot_laws))]
fn slot_in(view: &View, section: u32, place: u64, size: u8) -> Field
    requires there { section < length view.now.sections }
    requires some { 0 < size }
    requires wide { size ≤ 8 }
    ensures field { result ≡ slot_in view.now section place size }
{
    if !has_room(view.bytes(section), place, size as u64) {
        return Field::Num(0);
    }
    view.value(section, place, size)
}

/// The same, of the section of string offsets.
fn slot_field(view: &View, place: u64, size: u8) -> Field
    requires some { 0 < size }
    requires wide { size ≤ 8 }
    ensures field { result ≡ slot_field view.now (section_named view.now (name_of StrOffsets)) place size }
{
    match view.first(DebugSection::StrOffsets) {
        Some(section) => slot_in(view, section, place, size),
        None => Field::Num(0),
    }
}

/// The text of the slot that stands at a place, of so many bytes.
#[tactic(auto, unfolding(crate::specs::UnitValues::slot_text))]
fn slot_text<'v>(view: &'v View, place: u64, size: u8) -> &'v [u8]
    requires some { 0 < size }
    requires wide { size ≤ 8 }
    ensures { result.now ≡ slot_text view.now place size }
{
    let field = slot_field(view, place, size);
    text_of(
        view,
        DebugSection::Str,
        view.located(DebugSection::Str).offset(field),
    )
}
