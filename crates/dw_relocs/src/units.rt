//! The relocations of units.
//!
//! Read first: `specs/UnitPasses.antt`.

ghost use Rattle.std.specs.Prelude.{◌≡◌, ◌≤◌, ◌^◌, length, IfErr, IfOk, OnOk, Some};
ghost use Rattle.dw_base.specs.EntryScans.{EntryFails};
ghost use Rattle.dw_base.specs.EntryValues.{HasUnit, bytes_up_to};
ghost use Rattle.dw_base.specs.FileViews.{section_bytes, view_cells};
ghost use Rattle.dw_base.specs.Refusals.{Blames};
ghost use Rattle.dw_base.specs.RelocationRows.{moving_sections};
ghost use Rattle.dw_base.specs.LineMeanings.{item_at};
ghost use Rattle.dw_base.specs.ViewData.{debug_data};
ghost use Rattle.dw_base.specs.declared.debug_sections.DebugSection.TheVariants.{Info};
ghost use Rattle.dw_entries.specs.SectionOrder.{AreSections};
ghost use Rattle.dw_entries.specs.ViewUnits.{IsUnitSection, unit_section_at};
ghost use Rattle.dw_units.specs.UnitLists.{IsListed, ListsAll};
ghost use Rattle.dw_units.specs.UnitStretches.{IsStretch};
ghost use Rattle.dw_relocs.specs.FieldRefusals.{FieldsRefuse};
ghost use Rattle.dw_relocs.specs.FieldWalks.{Goes, StandsAt, ground_of};
ghost use Rattle.dw_relocs.specs.UnitFields.{front_fields, offset_place};
ghost use Rattle.dw_relocs.specs.LeftChecks.{UnitsHold};
ghost use Rattle.dw_relocs.specs.UnitPasses.{OnePassed, SectionsHold, UnitPassed, UnitsPassed};

use crate::entries::pass_entries;
use crate::marks::{Marks, pass_end, pass_offset, pass_start};
use crate::slots::has_relocations;
use dw_abbrev::AbbrevTable;
use dw_base::{Fault, Refusal, UnitHeader, Width};
use dw_entries::{CodedScan, unit_sections};
use dw_units::{ListedUnit, Units, stretch_end};
use dw_view::View;
use std::alloc::Global;

/// Where the offset of abbreviations stands in a header (DWARF 5, 7.5.1; before version 5 it is the field behind the version).
fn offset_place(width: Width, version: u16) -> u64
    ensures place { result ≡ offset_place width version }
    ensures few { result ≤ 16 }
{
    let size = match width {
        Width::W32 => 4,
        Width::W64 => 12,
    };
    if version == 5 { size + 4 } else { size + 2 }
}

/// A pass over the field of a unit's header.
fn pass_front(
    view: &View,
    unit: &UnitHeader,
    pass: Result<Marks, Refusal>,
) -> Result<Marks, Refusal>
    requires unit { HasUnit (debug_data view.now) (unit_section_at view.now unit.now.section) unit.now }
    requires stands { StandsAt (view_cells view.now unit.now.section) unit.now.start pass }
    requires small { length (section_bytes view.now unit.now.section) ≤ 2 ^ 31 }
    ensures goes { Goes (ground_of view.now unit.now.section) unit.now.start unit.now.first (front_fields (debug_data view.now).base (unit_section_at view.now unit.now.section) unit.now.start) pass result }
{
    let place = unit.start + offset_place(unit.params.width, unit.params.version);
    let size = unit.params.width.offset_size();
    pass_offset(view, unit.section, pass, place, size)
}

/// A pass over the fields of a unit of the view, with its table of abbreviations. Refused where one of its entries can't be read.
fn pass_unit(
    view: &View,
    unit: &UnitHeader,
    table: &AbbrevTable,
    pass: Result<Marks, Refusal>,
) -> Result<Result<Marks, Refusal>, Refusal>
    requires unit { HasUnit (debug_data view.now) (unit_section_at view.now unit.now.section) unit.now }
    requires stands { StandsAt (view_cells view.now unit.now.section) unit.now.start pass }
    ensures passed { IfOk result (λ q. UnitPassed (ground_of view.now unit.now.section) (debug_data view.now).base (unit_section_at view.now unit.now.section) unit.now table.now pass q) }
    ensures refused { IfErr result (EntryFails unit.now table.now (bytes_up_to (unit_section_at view.now unit.now.section) unit.now)) }
{
    let bytes = &view.bytes(unit.section)[..unit.end as usize];
    let front = pass_front(view, unit, pass);
    let scan = CodedScan::new(view, unit, table);
    pass_entries(view, unit.section, front, unit, table, bytes, scan)
}

/// A pass over the fields of the unit of a number, with its table of abbreviations. Refused where an entry can't be read, or for want of
/// memory.
#[tactic(auto, using(crate::proofs::UnitListLaws::one_rules))]
fn pass_one(
    alloc: Global,
    view: &View,
    units: &Units,
    number: usize,
    unit: &ListedUnit,
    pass: Result<Marks, Refusal>,
) -> Result<Result<Marks, Refusal>, Fault>
    requires unit { HasUnit (debug_data view.now) (unit_section_at view.now unit.now.header.section) unit.now.header }
    requires there { item_at units.now.units number ≡ Some unit.now }
    requires listed { IsListed (debug_data view.now) units.now.tables unit.now.header unit.now }
    requires stands { StandsAt (view_cells view.now unit.now.header.section) unit.now.header.start pass }
    ensures passed { IfOk result (λ q. OnePassed (ground_of view.now unit.now.header.section) (debug_data view.now).base (unit_section_at view.now unit.now.header.section) unit.now.header pass q) }
    ensures refused { IfErr result (Blames (FieldsRefuse view.now)) }
{
    let table = units.table(alloc, number)?;
    let passed = pass_unit(view, &unit.header, table.get(), pass)?;
    Ok(passed)
}

/// A pass over the fields of all units of a unit section of the view: those from one number up to another.
#[tactic(auto, using(crate::proofs::UnitListLaws::list_rules))]
fn pass_units(
    alloc: Global,
    view: &View,
    section: u32,
    units: &Units,
    first: usize,
    end: usize,
    pass: Result<Marks, Refusal>,
) -> Result<Result<Marks, Refusal>, Fault>
    requires there { IsUnitSection view.now section }
    requires stretch { IsStretch (debug_data view.now) units.now (unit_section_at view.now section) first end }
    requires stands { StandsAt (view_cells view.now section) 0 pass }
    ensures passed { IfOk result (λ q. UnitsPassed (ground_of view.now section) (debug_data view.now).base (unit_section_at view.now section) pass q) }
    ensures refused { IfErr result (Blames (FieldsRefuse view.now)) }
{
    let list = units.all();
    let mut now = pass;
    for number in first..end {
        now = pass_one(alloc, view, units, number, &list[number], now)?;
    }
    Ok(now)
}

/// The relocations of a unit section of the view, whose units are those from one number up to another, are ones that may stand there.
/// Refused where one isn't, where an entry can't be read, or for want of memory.
#[tactic(auto, using(crate::proofs::UnitCheckLaws::section_rules))]
fn units_in(
    alloc: Global,
    view: &View,
    section: u32,
    units: &Units,
    first: usize,
    end: usize,
) -> Result<(), Fault>
    requires there { IsUnitSection view.now section }
    requires stretch { IsStretch (debug_data view.now) units.now (unit_section_at view.now section) first end }
    ensures holds { OnOk result (UnitsHold (debug_data view.now) (moving_sections view.now) (unit_section_at view.now section)) }
    ensures refused { IfErr result (Blames (FieldsRefuse view.now)) }
{
    if !has_relocations(view, section) {
        return Ok(());
    }
    let start = pass_start(view, section);
    let pass = pass_units(alloc, view, section, units, first, end, start)?;
    let len = view.bytes(section).len() as u64;
    pass_end(view, section, pass, len)?;
    Ok(())
}

/// The relocations of all unit sections of the view are ones that may stand there. Refused as `Relocation` where one isn't, at that
/// relocation or at the offset that gives no place; as an entry is that can't be read, where its section has relocations; or for want of
/// memory.
pub(crate) fn check_units(alloc: Global, view: &View, units: &Units) -> Result<(), Fault>
    requires units { ListsAll (debug_data view.now) units.now.tables ((debug_data view.now).found Info) units.now.units }
    ensures holds { OnOk result (SectionsHold (debug_data view.now) (moving_sections view.now) ((debug_data view.now).found Info)) }
    ensures refused { IfErr result (Blames (FieldsRefuse view.now)) }
{
    let sections = unit_sections(alloc, view)?;
    check_sections(alloc, view, units, sections.as_slice())
}

/// The same of the sections of these numbers, which are all unit sections of the view.
#[tactic(auto, using(crate::proofs::UnitCheckLaws::all_rules))]
fn check_sections(alloc: Global, view: &View, units: &Units, sections: &[u32]) -> Result<(), Fault>
    requires units { ListsAll (debug_data view.now) units.now.tables ((debug_data view.now).found Info) units.now.units }
    requires sections { AreSections view.now sections.now }
    ensures holds { OnOk result (SectionsHold (debug_data view.now) (moving_sections view.now) ((debug_data view.now).found Info)) }
    ensures refused { IfErr result (Blames (FieldsRefuse view.now)) }
{
    let list = units.all();
    let mut first = 0;
    for section in sections {
        let end = stretch_end(list, *section, first);
        units_in(alloc, view, *section, units, first, end)?;
        first = end;
    }
    Ok(())
}
