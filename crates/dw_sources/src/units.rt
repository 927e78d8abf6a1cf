//! The units of a view, whose paths are added to the names of sources (DWARF 5, 7.5.1).
//!
//! Read first: `specs/Sources.antt`.

ghost use Rattle.std.specs.Prelude.{◌≡◌, nat_eq, IfErr, OnOk, Some};
ghost use Rattle.std.specs.HashMap.{get};
ghost use Rattle.dw_base.specs.AbbreviationTables.{IsTable};
ghost use Rattle.dw_base.specs.EntryValues.{HasUnit};
ghost use Rattle.dw_base.specs.Refusals.{Blames};
ghost use Rattle.dw_base.specs.LineMeanings.{item_at};
ghost use Rattle.dw_base.specs.ViewData.{debug_data};
ghost use Rattle.dw_base.specs.declared.debug_sections.DebugSection.TheVariants.{Info};
ghost use Rattle.dw_entries.specs.SectionOrder.{AreSections};
ghost use Rattle.dw_entries.specs.ViewUnits.{IsUnitSection, unit_section_at};
ghost use Rattle.dw_units.specs.UnitLists.{IsListed, ListsAll};
ghost use Rattle.dw_units.specs.UnitStretches.{IsStretch};
ghost use Rattle.dw_sources.specs.JoinedFiles.{AreJoined};
ghost use Rattle.dw_sources.specs.KeptNames.{with_paths};
ghost use Rattle.dw_sources.specs.Sources.{AddsSection, AddsSections, SourcesFail};
ghost use Rattle.dw_sources.specs.UnitPaths.{unit_paths};

use crate::fronts::Fronts;
use crate::names::FoundNames;
use crate::paths::add_root;
use crate::roots::root_at;
use dw_abbrev::AbbrevTable;
use dw_base::{Fault, NoMemory, UnitHeader};
use dw_entries::unit_sections;
use dw_lines::LineTable;
use dw_offsets::ContributionList;
use dw_units::{ListedUnit, Units, read_units, stretch_end};
use dw_view::View;
use std::alloc::Global;
use std::collections::HashMap;

/// Adds the paths of a unit with its table of abbreviations.
#[tactic(auto, using(crate::proofs::UnitLaws::unit_rules))]
fn add_unit(
    alloc: Global,
    view: &View,
    list: &ContributionList,
    tables: &HashMap<u64, LineTable>,
    fronts: &Fronts,
    unit: &UnitHeader,
    abbrevs: &AbbrevTable,
    found: &mut FoundNames,
) -> Result<(), NoMemory>
    requires unit { HasUnit (debug_data view.now) (unit_section_at view.now unit.now.section) unit.now }
    requires table { IsTable (debug_data view.now).base.abbrevs.bytes unit.now.abbrevs abbrevs.now }
    requires joined { AreJoined (debug_data view.now) (λ at. get nat_eq tables.now at) fronts.now found.old.names found.old.joined.keys }
    ensures joined { OnOk result (AreJoined (debug_data view.now) (λ at. get nat_eq tables.now at) fronts.now found.new.names found.new.joined.keys) }
    ensures value { OnOk result (found.new.names ≡ with_paths fronts.now found.old.names (unit_paths (debug_data view.now) list.now (λ at. get nat_eq tables.now at) (unit_section_at view.now unit.now.section) unit.now)) }
{
    let bytes = &view.bytes(unit.section)[..unit.end as usize];
    let root = root_at(&unit.params, abbrevs, bytes, unit.first);
    add_root(
        alloc,
        view,
        list,
        tables,
        fronts,
        unit.section,
        bytes,
        root,
        found,
    )?;
    Ok(())
}

/// Adds the paths of the unit of a number.
fn one_unit(
    alloc: Global,
    view: &View,
    list: &ContributionList,
    tables: &HashMap<u64, LineTable>,
    fronts: &Fronts,
    units: &Units,
    number: usize,
    unit: &ListedUnit,
    found: &mut FoundNames,
) -> Result<(), NoMemory>
    requires unit { HasUnit (debug_data view.now) (unit_section_at view.now unit.now.header.section) unit.now.header }
    requires there { item_at units.now.units number ≡ Some unit.now }
    requires listed { IsListed (debug_data view.now) units.now.tables unit.now.header unit.now }
    requires joined { AreJoined (debug_data view.now) (λ at. get nat_eq tables.now at) fronts.now found.old.names found.old.joined.keys }
    ensures joined { OnOk result (AreJoined (debug_data view.now) (λ at. get nat_eq tables.now at) fronts.now found.new.names found.new.joined.keys) }
    ensures value { OnOk result (found.new.names ≡ with_paths fronts.now found.old.names (unit_paths (debug_data view.now) list.now (λ at. get nat_eq tables.now at) (unit_section_at view.now unit.now.header.section) unit.now.header)) }
{
    let abbrevs = units.table(alloc, number)?;
    add_unit(
        alloc,
        view,
        list,
        tables,
        fronts,
        &unit.header,
        abbrevs.get(),
        found,
    )?;
    Ok(())
}

/// Adds the paths of the units of a section, which are those from one number up to another.
#[tactic(auto, using(crate::proofs::UnitLaws::units_rules))]
fn add_section(
    alloc: Global,
    view: &View,
    list: &ContributionList,
    tables: &HashMap<u64, LineTable>,
    fronts: &Fronts,
    section: u32,
    units: &Units,
    first: usize,
    end: usize,
    found: &mut FoundNames,
) -> Result<(), NoMemory>
    requires there { IsUnitSection view.now section }
    requires stretch { IsStretch (debug_data view.now) units.now (unit_section_at view.now section) first end }
    requires joined { AreJoined (debug_data view.now) (λ at. get nat_eq tables.now at) fronts.now found.old.names found.old.joined.keys }
    ensures joined { OnOk result (AreJoined (debug_data view.now) (λ at. get nat_eq tables.now at) fronts.now found.new.names found.new.joined.keys) }
    ensures value { OnOk result (AddsSection (debug_data view.now) list.now (λ at. get nat_eq tables.now at) fronts.now (unit_section_at view.now section) found.old.names found.new.names) }
{
    let all = units.all();
    for number in first..end {
        one_unit(
            alloc,
            view,
            list,
            tables,
            fronts,
            units,
            number,
            &all[number],
            found,
        )?;
    }
    Ok(())
}

/// Adds the paths of the sections of these numbers, which are all unit sections of the view.
#[tactic(auto, using(crate::proofs::UnitLaws::all_rules))]
fn add_sections(
    alloc: Global,
    view: &View,
    list: &ContributionList,
    tables: &HashMap<u64, LineTable>,
    fronts: &Fronts,
    units: &Units,
    numbers: &[u32],
    found: &mut FoundNames,
) -> Result<(), NoMemory>
    requires listed { ListsAll (debug_data view.now) units.now.tables ((debug_data view.now).found Info) units.now.units }
    requires sections { AreSections view.now numbers.now }
    requires joined { AreJoined (debug_data view.now) (λ at. get nat_eq tables.now at) fronts.now found.old.names found.old.joined.keys }
    ensures joined { OnOk result (AreJoined (debug_data view.now) (λ at. get nat_eq tables.now at) fronts.now found.new.names found.new.joined.keys) }
    ensures value { OnOk result (AddsSections (debug_data view.now) list.now (λ at. get nat_eq tables.now at) fronts.now ((debug_data view.now).found Info) found.old.names found.new.names) }
{
    let all = units.all();
    let mut first = 0;
    for section in numbers {
        let end = stretch_end(all, *section, first);
        add_section(
            alloc, view, list, tables, fronts, *section, units, first, end, found,
        )?;
        first = end;
    }
    Ok(())
}

/// Adds the paths of all units of the view.
#[tactic(auto, using(crate::proofs::UnitLaws::list_rules))]
pub(crate) fn add_all(
    alloc: Global,
    view: &View,
    list: &ContributionList,
    tables: &HashMap<u64, LineTable>,
    fronts: &Fronts,
    found: &mut FoundNames,
) -> Result<(), Fault>
    requires joined { AreJoined (debug_data view.now) (λ at. get nat_eq tables.now at) fronts.now found.old.names found.old.joined.keys }
    ensures joined { OnOk result (AreJoined (debug_data view.now) (λ at. get nat_eq tables.now at) fronts.now found.new.names found.new.joined.keys) }
    ensures value { OnOk result (AddsSections (debug_data view.now) list.now (λ at. get nat_eq tables.now at) fronts.now ((debug_data view.now).found Info) found.old.names found.new.names) }
    ensures refused { IfErr result (Blames (SourcesFail (debug_data view.now))) }
{
    let units = read_units(alloc, view)?;
    let numbers = unit_sections(alloc, view)?;
    add_sections(alloc, view, list, tables, fronts, &units, &numbers, found)?;
    Ok(())
}
