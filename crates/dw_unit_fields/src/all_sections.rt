//! What all unit sections of a view say of paths, in the order of their numbers.

ghost use Rattle.std.specs.Prelude.{◌≡◌, IfErr, IfOk, OnOk, length};
ghost use Rattle.dw_base.specs.Refusals.{Blames};
ghost use Rattle.dw_base.specs.ViewData.{debug_data};
ghost use Rattle.dw_base.specs.declared.debug_sections.DebugSection.TheVariants.{Info};
ghost use Rattle.dw_entries.specs.SectionOrder.{AreSections};
ghost use Rattle.dw_units.specs.UnitLists.{ListsAll};
ghost use Rattle.dw_starts.specs.LineStarts.{TablesStart};
ghost use Rattle.dw_unit_fields.specs.IndexedTexts.{TextsIndexed, TextsRefuse};
ghost use Rattle.dw_starts.specs.UnitPlaces.{UnitsStart};
ghost use Rattle.dw_unit_fields.specs.NamedSlots.{no_slots};
ghost use Rattle.dw_unit_fields.specs.NamedStarts.{AllStarts};
ghost use Rattle.dw_unit_fields.specs.UnitTexts.{AllIndexed, AllTaken, UnitsRefuse, texts_of};

use crate::found::{FoundFields, TextTables};
use crate::sections::read_section;
use crate::slots::NamedSlots;
use crate::starts::all_start;
use dw_base::Fault;
use dw_entries::unit_sections;
use dw_starts::UnitPlaces;
use dw_units::{Units, stretch_end};
use dw_view::View;
use std::alloc::Global;

/// What the unit sections of the view say of texts and paths, section by section, where `listed` are its units (DWARF 5, 7.5); exactly
/// the slots that their values name by index are marked (7.26), each value that is to say where a line table starts names one of these
/// starts, and each that is to say where a macro unit starts one of these places (3.1.1). Refused where an entry can't be read or names
/// no text, and behind the last unit as `StringTable`, at the first value by index that names no slot, or as `Stray`, at a value that
/// names no line table or macro unit, or as `Relocation`, where the offset of one can't be read.
#[tactic(auto, using(crate::proofs::IndexedLaws::whole_rules))]
pub fn unit_fields(
    alloc: Global,
    view: &View,
    listed: &Units,
    tables: &TextTables,
    starts: &[u64],
    places: &UnitPlaces,
    slots: &mut NamedSlots,
) -> Result<Vec<FoundFields>, Fault>
    requires listed { ListsAll (debug_data view.now) listed.now.tables ((debug_data view.now).found Info) listed.now.units }
    requires tables { tables.now ≡ texts_of (debug_data view.now) }
    requires none { slots.old ≡ no_slots slots.old.list (length slots.old.marks) }
    requires starts { TablesStart (debug_data view.now) starts.now }
    requires units { UnitsStart (debug_data view.now) places.now }
    ensures taken { IfOk result (λ us. AllTaken (debug_data view.now) ((debug_data view.now).found Info) us.items) }
    ensures indexed { OnOk result (TextsIndexed (debug_data view.now) slots.old.list slots.new.marks) }
    ensures starts { IfOk result (λ us. AllStarts (debug_data view.now) starts.now places.now ((debug_data view.now).found Info) us.items) }
    ensures refused { IfErr result (Blames (TextsRefuse (debug_data view.now) slots.old.list)) }
{
    let found = read_all(alloc, view, listed, tables, slots)?;
    if let Some(refusal) = slots.missing() {
        return Err(refusal.into());
    }
    all_start(view, starts, places, found.as_slice())?;
    Ok(found)
}

/// What the unit sections of the view say of paths, with the slots that their values name.
fn read_all(
    alloc: Global,
    view: &View,
    listed: &Units,
    tables: &TextTables,
    slots: &mut NamedSlots,
) -> Result<Vec<FoundFields>, Fault>
    requires listed { ListsAll (debug_data view.now) listed.now.tables ((debug_data view.now).found Info) listed.now.units }
    requires tables { tables.now ≡ texts_of (debug_data view.now) }
    ensures taken { IfOk result (λ us. AllIndexed (debug_data view.now) ((debug_data view.now).found Info) us.items slots.old slots.new) }
    ensures refused { IfErr result (Blames (UnitsRefuse (debug_data view.now))) }
{
    let sections = unit_sections(alloc, view)?;
    read_sections(alloc, view, listed, tables, sections.as_slice(), slots)
}

/// The same of the sections of these numbers, which are all unit sections of the view.
#[tactic(auto, using(crate::proofs::SectionListLaws::all_rules))]
fn read_sections(
    alloc: Global,
    view: &View,
    listed: &Units,
    tables: &TextTables,
    sections: &[u32],
    slots: &mut NamedSlots,
) -> Result<Vec<FoundFields>, Fault>
    requires listed { ListsAll (debug_data view.now) listed.now.tables ((debug_data view.now).found Info) listed.now.units }
    requires tables { tables.now ≡ texts_of (debug_data view.now) }
    requires sections { AreSections view.now sections.now }
    ensures taken { IfOk result (λ us. AllIndexed (debug_data view.now) ((debug_data view.now).found Info) us.items slots.old slots.new) }
    ensures refused { IfErr result (Blames (UnitsRefuse (debug_data view.now))) }
{
    let list = listed.all();
    let mut first = 0;
    let mut found = Vec::new(alloc);
    for section in sections {
        let end = stretch_end(list, *section, first);
        let paths = read_section(alloc, view, tables, *section, listed, first, end, slots)?;
        found.push(paths)?;
        first = end;
    }
    Ok(found)
}
