//! The units of a view and their tables of abbreviations, each read once.
//!
//! Read first: `specs/UnitLists.antt`.

ghost use Rattle.std.specs.Prelude.{◌≡◌, ◌++◌, ◌∷◌, [], false, length, map, nat_eq, IfErr, IfOk, OnOk};
ghost use Rattle.std.specs.HashMap.{get};
ghost use Rattle.dw_abbrev.specs.Kept.{AllKept};
ghost use Rattle.dw_base.specs.AbbreviationBytes.{abbreviations_at};
ghost use Rattle.dw_base.specs.AbbreviationFails.{AbbreviationFails};
ghost use Rattle.dw_base.specs.AbbreviationTables.{IsTable};
ghost use Rattle.dw_base.specs.EntryValues.{HasUnit};
ghost use Rattle.dw_base.specs.Refusals.{Blames};
ghost use Rattle.dw_base.specs.UnitHeaders.{AreUnits};
ghost use Rattle.dw_base.specs.ViewData.{debug_data};
ghost use Rattle.dw_base.specs.declared.debug_sections.DebugSection.TheVariants.{Info};
ghost use Rattle.dw_base.specs.declared.fault.Refusal.{Refusal as RefusalOf};
ghost use Rattle.dw_entries.specs.SectionOrder.{AreSections};
ghost use Rattle.dw_entries.specs.ViewUnits.{IsUnitSection, unit_section_at};
ghost use Rattle.dw_units.specs.PlacedTables.{AreKnown, tables_of};
ghost use Rattle.dw_units.specs.SectionHeaders.{AllHeaders, AllShort, HasHeaders, numbers_of};
ghost use Rattle.dw_units.specs.UnitLists.{Adds, AddsSection, Grows, HasTableAt, KeepsNumber, ListsAll, UnitListFails};

use crate::listed_unit::ListedUnit;
use crate::placed_table::PlacedTable;
use crate::section_headers::{SectionHeaders, all_headers, table_starts};
use crate::units::Units;
use dw_abbrev::{AbbrevTable, KeptTable, tables_at};
use dw_base::{DebugSection, Fault, NoMemory, UnitHeader};
use dw_entries::{abbreviations_at, table_offset, unit_sections};
use dw_view::View;
use std::alloc::{AllocError, Global};
use std::collections::HashMap;

/// The bytes of the view's section of abbreviations, none where it has no such section.
#[tactic(auto, using(crate::proofs::KeptLaws::bytes_rules))]
fn abbrevs_of<'v>(view: &'v View) -> &'v [u8]
    ensures bytes { result.now ≡ (debug_data view.now).base.abbrevs.bytes }
{
    view.located(DebugSection::Abbrev).bytes
}

/// Keeps the number of the table at an offset.
fn keep_number(numbers: &mut HashMap<u64, usize>, at: u64, number: usize) -> Result<(), AllocError>
    ensures kept { OnOk result (KeepsNumber (λ at. get nat_eq numbers.old at) (λ at. get nat_eq numbers.new at) at number) }
{
    numbers.insert(at, number)?;
    Ok(())
}

/// Puts a table behind others, and gives its number.
fn push_table(
    tables: &mut Vec<PlacedTable>,
    at: u64,
    kept: Option<AbbrevTable>,
) -> Result<usize, AllocError>
    ensures number { IfOk result (λ n. n ≡ length tables.old.items) }
    ensures tables { OnOk result (tables.new.items ≡ tables.old.items ++ record { at = at; kept = kept } ∷ []) }
{
    let number = tables.len();
    tables.push(PlacedTable { at, kept })?;
    Ok(number)
}

/// Reads the table of abbreviations at an offset, and doesn't keep it.
#[tactic(auto, using(crate::proofs::PlacedLaws::check_rules))]
fn check_table(alloc: Global, view: &View, at: u64) -> Result<(), Fault>
    ensures stands { OnOk result (IsTable (debug_data view.now).base.abbrevs.bytes at (abbreviations_at (debug_data view.now).base.abbrevs.bytes at)) }
    ensures refused { IfErr result (Blames (AbbreviationFails (debug_data view.now).base.abbrevs.bytes (debug_data view.now).base.abbrevs.number at)) }
{
    let _ = abbreviations_at(alloc, view, at)?;
    Ok(())
}

/// The number of the table of abbreviations at an offset, which is read if it wasn't before.
#[tactic(auto, using(crate::proofs::KnownLaws::number_rules))]
fn table_number(
    alloc: Global,
    view: &View,
    at: u64,
    numbers: &mut HashMap<u64, usize>,
    tables: &mut Vec<PlacedTable>,
) -> Result<usize, Fault>
    requires known { AreKnown (debug_data view.now) (λ at. get nat_eq numbers.old at) tables.old.items }
    ensures known { OnOk result (AreKnown (debug_data view.now) (λ at. get nat_eq numbers.new at) tables.new.items) }
    ensures number { IfOk result (HasTableAt (debug_data view.now) (tables_of (debug_data view.now).base.abbrevs.bytes tables.new.items) at) }
    ensures grows { OnOk result (Grows (tables_of (debug_data view.now).base.abbrevs.bytes tables.old.items) (tables_of (debug_data view.now).base.abbrevs.bytes tables.new.items)) }
    ensures refused { IfErr result (Blames (AbbreviationFails (debug_data view.now).base.abbrevs.bytes (debug_data view.now).base.abbrevs.number at)) }
{
    if let Some(number) = numbers.get(&at) {
        return Ok(*number);
    }
    check_table(alloc, view, at)?;
    let number = push_table(tables, at, None)?;
    keep_number(numbers, at, number)?;
    Ok(number)
}

/// Keeps a table behind others, and its number by its offset.
#[tactic(auto, using(crate::proofs::KnownLaws::number_rules))]
fn add_table(
    view: &View,
    at: u64,
    table: AbbrevTable,
    numbers: &mut HashMap<u64, usize>,
    tables: &mut Vec<PlacedTable>,
) -> Result<(), AllocError>
    requires table { IsTable (debug_data view.now).base.abbrevs.bytes at table }
    requires known { AreKnown (debug_data view.now) (λ at. get nat_eq numbers.old at) tables.old.items }
    ensures known { OnOk result (AreKnown (debug_data view.now) (λ at. get nat_eq numbers.new at) tables.new.items) }
{
    let number = push_table(tables, at, Some(table))?;
    keep_number(numbers, at, number)?;
    Ok(())
}

/// Keeps tables behind others, and their numbers.
#[tactic(auto, using(crate::proofs::KeptLaws::popped_rules))]
fn add_tables(
    view: &View,
    mut kept: Vec<KeptTable>,
    numbers: &mut HashMap<u64, usize>,
    tables: &mut Vec<PlacedTable>,
) -> Result<(), AllocError>
    requires kept { AllKept (debug_data view.now).base.abbrevs.bytes kept.items }
    requires known { AreKnown (debug_data view.now) (λ at. get nat_eq numbers.old at) tables.old.items }
    ensures known { OnOk result (AreKnown (debug_data view.now) (λ at. get nat_eq numbers.new at) tables.new.items) }
{
    while let Some(one) = kept.pop() {
        let KeptTable { at, table } = one;
        add_table(view, at, table, numbers, tables)?;
    }
    Ok(())
}

/// The tables of these units that can be read; those that overlap too often are left out.
#[tactic(auto, using(crate::proofs::KeptLaws::kept_rules))]
fn kept_tables(
    alloc: Global,
    view: &View,
    list: &[SectionHeaders],
) -> Result<Vec<KeptTable>, NoMemory>
    ensures kept { IfOk result (λ kept. AllKept (debug_data view.now).base.abbrevs.bytes kept.items) }
{
    let starts = table_starts(alloc, list)?;
    tables_at(alloc, abbrevs_of(view), starts.as_slice())
}

/// Keeps the tables of these units, as far as they can be read, so that those that end alike share it.
fn share_tables(
    alloc: Global,
    view: &View,
    list: &[SectionHeaders],
    numbers: &mut HashMap<u64, usize>,
    tables: &mut Vec<PlacedTable>,
) -> Result<(), NoMemory>
    requires known { AreKnown (debug_data view.now) (λ at. get nat_eq numbers.old at) tables.old.items }
    ensures known { OnOk result (AreKnown (debug_data view.now) (λ at. get nat_eq numbers.new at) tables.new.items) }
{
    let kept = kept_tables(alloc, view, list)?;
    add_tables(view, kept, numbers, tables)?;
    Ok(())
}

/// The number of the table of abbreviations of a unit.
#[tactic(auto, using(crate::proofs::ListedLaws::unit_rules))]
fn unit_table(
    alloc: Global,
    view: &View,
    unit: &UnitHeader,
    numbers: &mut HashMap<u64, usize>,
    tables: &mut Vec<PlacedTable>,
) -> Result<usize, Fault>
    requires unit { HasUnit (debug_data view.now) (unit_section_at view.now unit.now.section) unit.now }
    requires known { AreKnown (debug_data view.now) (λ at. get nat_eq numbers.old at) tables.old.items }
    ensures here { OnOk result (unit.now.elsewhere ≡ false) }
    ensures known { OnOk result (AreKnown (debug_data view.now) (λ at. get nat_eq numbers.new at) tables.new.items) }
    ensures number { IfOk result (HasTableAt (debug_data view.now) (tables_of (debug_data view.now).base.abbrevs.bytes tables.new.items) unit.now.abbrevs) }
    ensures grows { OnOk result (Grows (tables_of (debug_data view.now).base.abbrevs.bytes tables.old.items) (tables_of (debug_data view.now).base.abbrevs.bytes tables.new.items)) }
    ensures refused { IfErr result (Blames (UnitListFails (debug_data view.now))) }
{
    let at = table_offset(view, unit)?;
    let number = table_number(alloc, view, at, numbers, tables)?;
    Ok(number)
}

/// Puts units behind others, and reads their tables.
#[tactic(auto, using(crate::proofs::ListedLaws::push_rules))]
fn push_units(
    alloc: Global,
    view: &View,
    section: u32,
    headers: &[UnitHeader],
    numbers: &mut HashMap<u64, usize>,
    tables: &mut Vec<PlacedTable>,
    units: &mut Vec<ListedUnit>,
) -> Result<(), Fault>
    requires there { IsUnitSection view.now section }
    requires headers { AreUnits (debug_data view.now).base (unit_section_at view.now section) headers.now }
    requires short { AllShort headers.now }
    requires known { AreKnown (debug_data view.now) (λ at. get nat_eq numbers.old at) tables.old.items }
    ensures known { OnOk result (AreKnown (debug_data view.now) (λ at. get nat_eq numbers.new at) tables.new.items) }
    ensures grows { OnOk result (Grows (tables_of (debug_data view.now).base.abbrevs.bytes tables.old.items) (tables_of (debug_data view.now).base.abbrevs.bytes tables.new.items)) }
    ensures listed { OnOk result (Adds (debug_data view.now) (tables_of (debug_data view.now).base.abbrevs.bytes tables.new.items) headers.now units.old.items units.new.items) }
    ensures refused { IfErr result (Blames (UnitListFails (debug_data view.now))) }
{
    for header in headers {
        let table = unit_table(alloc, view, header, numbers, tables)?;
        units.push(ListedUnit {
            header: *header,
            table,
        })?;
    }
    Ok(())
}

/// The same of a section.
#[tactic(auto, using(crate::proofs::ListedLaws::section_rules))]
fn push_section(
    alloc: Global,
    view: &View,
    one: &SectionHeaders,
    numbers: &mut HashMap<u64, usize>,
    tables: &mut Vec<PlacedTable>,
    units: &mut Vec<ListedUnit>,
) -> Result<(), Fault>
    requires has { HasHeaders view.now one.now }
    requires known { AreKnown (debug_data view.now) (λ at. get nat_eq numbers.old at) tables.old.items }
    ensures known { OnOk result (AreKnown (debug_data view.now) (λ at. get nat_eq numbers.new at) tables.new.items) }
    ensures grows { OnOk result (Grows (tables_of (debug_data view.now).base.abbrevs.bytes tables.old.items) (tables_of (debug_data view.now).base.abbrevs.bytes tables.new.items)) }
    ensures listed { OnOk result (AddsSection (debug_data view.now) (tables_of (debug_data view.now).base.abbrevs.bytes tables.new.items) (unit_section_at view.now one.now.section) units.old.items units.new.items) }
    ensures refused { IfErr result (Blames (UnitListFails (debug_data view.now))) }
{
    let headers = one.headers.as_slice();
    push_units(alloc, view, one.section, headers, numbers, tables, units)?;
    Ok(())
}

/// The units of all sections, with their tables.
#[tactic(auto, using(crate::proofs::ListedLaws::all_rules))]
fn list_units(
    alloc: Global,
    view: &View,
    list: &[SectionHeaders],
    numbers: &mut HashMap<u64, usize>,
    tables: &mut Vec<PlacedTable>,
) -> Result<Vec<ListedUnit>, Fault>
    requires has { AllHeaders view.now list.now }
    requires known { AreKnown (debug_data view.now) (λ at. get nat_eq numbers.old at) tables.old.items }
    ensures known { OnOk result (AreKnown (debug_data view.now) (λ at. get nat_eq numbers.new at) tables.new.items) }
    ensures listed { IfOk result (λ units. ListsAll (debug_data view.now) (tables_of (debug_data view.now).base.abbrevs.bytes tables.new.items) (map (unit_section_at view.now) (numbers_of list.now)) units.items) }
    ensures refused { IfErr result (Blames (UnitListFails (debug_data view.now))) }
{
    let mut units = Vec::new(alloc);
    for one in list {
        push_section(alloc, view, one, numbers, tables, &mut units)?;
    }
    Ok(units)
}

/// The same, where these are all sections of the view.
#[tactic(auto, using(crate::proofs::ListedLaws::read_rules))]
fn read_listed<'v>(
    alloc: Global,
    view: &'v View,
    list: &[SectionHeaders],
) -> Result<Units<'v>, Fault>
    requires has { AllHeaders view.now list.now }
    requires sections { AreSections view.now (numbers_of list.now) }
    ensures read { IfOk result (λ units. ListsAll (debug_data view.now) units.tables ((debug_data view.now).found Info) units.units) }
    ensures refused { IfErr result (Blames (UnitListFails (debug_data view.now))) }
{
    let mut numbers = HashMap::new(alloc);
    let mut tables = Vec::new(alloc);
    share_tables(alloc, view, list, &mut numbers, &mut tables)?;
    let units = list_units(alloc, view, list, &mut numbers, &mut tables)?;
    Ok(Units {
        bytes: abbrevs_of(view),
        list: units,
        tables,
    })
}

/// Reads all units of a view and their tables of abbreviations. Refused where one can't be read, at its place: as `Unit` or `SplitDwarf` at
/// the unit, as `Relocation` where the offset of its abbreviations can't be read for its relocation, as `Abbreviation` at the table.
#[tactic(auto, using(crate::proofs::ListedLaws::read_rules))]
pub fn read_units<'v>(alloc: Global, view: &'v View) -> Result<Units<'v>, Fault>
    ensures read { IfOk result (λ units. ListsAll (debug_data view.now) units.tables ((debug_data view.now).found Info) units.units) }
    ensures none { OnOk result ((r : RefusalOf) → UnitListFails (debug_data view.now) r → ⊥) }
    ensures refused { IfErr result (Blames (UnitListFails (debug_data view.now))) }
{
    let sections = unit_sections(alloc, view)?;
    let list = all_headers(alloc, view, sections.as_slice())?;
    read_listed(alloc, view, list.as_slice())
}
