//! Where the units of a view and their entries start, in order, so that the entry at a place is found by halving.
//!
//! Read first: `specs/EntryIndexes.antt`.

ghost use Rattle.std.specs.Prelude.{◌≡◌, ◌+◌, ◌<◌, ◌^◌, List, ℕ, length, IfErr, IfOk, Some};
ghost use Rattle.dw_base.specs.DebugData.{start_number};
ghost use Rattle.dw_base.specs.LineMeanings.{item_at};
ghost use Rattle.dw_starts.specs.LineStarts.{HasStart, IsStartGap, Rises};
ghost use Rattle.dw_starts.specs.UnitPlaces.{place_key};
ghost use Rattle.dw_attrs.specs.EntryIndexes.{AreBefore, EachRises, IsIndexed, entries_at, offsets_of, start_key, tabled_offsets};
ghost use Rattle.dw_attrs.specs.UnitValues.{EntryIndex as EntryIndexOf, unit_bytes, unit_entries};
ghost use Rattle.dw_attrs.specs.UnitReads.{AllCanRead, CanRead, EachReads};

use dw_abbrev::AbbrevTable;
use dw_base::{NoMemory, UnitHeader};
use dw_entries::EntryScan;
use dw_starts::{place_key, with_start};
use dw_units::{ListedUnit, Units};
use dw_view::View;
use std::alloc::Global;
use std::marker::Model;

/// Where the entries of a unit start in its section, in order. A section is shorter than 2^31 bytes.
#[derive(Drop)]
struct UnitEntries {
    places: Vec<u32>,
}

impl Model for UnitEntries {
    ghost Value = { List ℕ };

    ghost view = { λ e. e.places.items };
}

/// Where units start, as `place_key` says, and the entries of each.
#[derive(Drop)]
pub struct EntryIndex {
    starts: Vec<u64>,
    entries: Vec<UnitEntries>,
}

impl Model for EntryIndex {
    ghost Value = { EntryIndexOf };

    ghost view = { λ x. record { starts = x.starts.items; entries = x.entries.items } };
}

/// Where the entries of a unit start.
#[tactic(auto, using(crate::proofs::IndexEntryLaws::kept_laws))]
fn entry_places(
    alloc: Global,
    view: &View,
    unit: &UnitHeader,
    table: &AbbrevTable,
) -> Result<UnitEntries, NoMemory>
    requires reads { CanRead view.now unit.now table.now }
    ensures places { IfOk result (λ e. e ≡ offsets_of (unit_entries unit.now table.now (unit_bytes view.now unit.now))) }
{
    let mut places = Vec::new(alloc);
    for entry in EntryScan::new(view, unit, table) {
        match entry {
            Ok(entry) => places.push(entry.offset as u32)?,
            Err(_) => unreachable!(),
        }
    }
    Ok(UnitEntries { places })
}

/// The same, where the unit is that of a number.
fn listed_entries(
    alloc: Global,
    view: &View,
    units: &Units,
    number: usize,
    unit: &ListedUnit,
) -> Result<UnitEntries, NoMemory>
    requires unit { EachReads view.now units.now.tables unit.now }
    requires there { item_at units.now.units number ≡ Some unit.now }
    ensures places { IfOk result (λ e. e ≡ tabled_offsets view.now unit.now.header (item_at units.now.tables unit.now.table)) }
{
    let table = units.table(alloc, number)?;
    let found = entry_places(alloc, view, &unit.header, table.get())?;
    Ok(found)
}

/// Where a unit starts.
fn unit_start(unit: &ListedUnit) -> u64
    requires small { unit.now.header.start < 2 ^ 32 }
    ensures start { result ≡ start_key unit.now.header }
{
    place_key(unit.header.section, unit.header.start)
}

/// How many of these starts are at a place or in front of it.
#[tactic(auto, using(crate::proofs::IndexEntryLaws::count_laws))]
fn starts_before(starts: &[u64], key: u64) -> usize
    requires rises { Rises starts.now }
    ensures before { AreBefore starts.now key result }
{
    match with_start(starts, key) {
        Ok(at) => at + 1,
        Err(at) => at,
    }
}

/// Which of these places is one, or where it would stand.
fn with_place(places: &[u32], place: u32) -> Result<usize, usize>
    requires rises { Rises places.now }
    ensures found { IfOk result (HasStart places.now place) }
    ensures absent { IfErr result (IsStartGap places.now place) }
{
    places.binary_search(&place)
}

/// The number of the entry that starts at a place.
#[tactic(auto, using(dw_starts::proofs::StartSearchLaws::number_rules))]
fn entry_number(places: &[u32], place: u32) -> Option<u64>
    requires rises { Rises places.now }
    ensures number { result ≡ start_number 0 places.now place }
{
    match with_place(places, place) {
        Ok(number) => Some(number as u64),
        Err(_) => None,
    }
}

/// The index of units that can be read, of which this is the list.
#[tactic(auto, using(crate::proofs::IndexEntryLaws::index_laws))]
fn index_of(
    alloc: Global,
    view: &View,
    units: &Units,
    list: &[ListedUnit],
) -> Result<EntryIndex, NoMemory>
    requires units { AllCanRead view.now units.now.tables list.now }
    requires all { list.now ≡ units.now.units }
    ensures index { IfOk result (IsIndexed view.now units.now.tables list.now) }
{
    let mut starts = Vec::new(alloc);
    let mut entries = Vec::new(alloc);
    for (number, unit) in list.iter().enumerate() {
        starts.push(unit_start(unit))?;
        entries.push(listed_entries(alloc, view, units, number, unit)?)?;
    }
    Ok(EntryIndex { starts, entries })
}

impl EntryIndex {
    /// The index of units that can be read.
    pub fn read(alloc: Global, view: &View, units: &Units) -> Result<EntryIndex, NoMemory>
        requires units { AllCanRead view.now units.now.tables units.now.units }
        ensures index { IfOk result (IsIndexed view.now units.now.tables units.now.units) }
    {
        index_of(alloc, view, units, units.all())
    }

    /// How many units start at a place or in front of it.
    pub(crate) fn units_before(&self, key: u64) -> usize
        requires rises { Rises self.now.starts }
        ensures before { AreBefore self.now.starts key result }
    {
        starts_before(self.starts.as_slice(), key)
    }

    /// The number of the entry of a unit that starts at a place.
    #[tactic(auto, using(crate::proofs::IndexEntryLaws::there_laws))]
    pub(crate) fn number_in(&self, unit: usize, place: u64) -> Option<u64>
        requires inside { unit < length self.now.entries }
        requires rise { EachRises self.now.entries }
        requires small { place < 2 ^ 32 }
        ensures number { result ≡ start_number 0 (entries_at self.now.entries unit) place }
    {
        entry_number(self.entries[unit].places.as_slice(), place as u32)
    }

    /// How many entries the unit of a number has, none where there is no such unit.
    #[tactic(auto, using(crate::proofs::IndexEntryLaws::counted_laws))]
    pub(crate) fn count_in(&self, unit: u64) -> usize
        ensures count { result ≡ length (entries_at self.now.entries unit) }
    {
        if unit < self.entries.len() as u64 {
            return self.entries[unit as usize].places.len();
        }
        0
    }
}
