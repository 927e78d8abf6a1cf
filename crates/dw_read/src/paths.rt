//! What the debug data of a view say of texts: its units, string offsets, line tables, macro units and name tables.
//!
//! Read first: `specs/FoundPaths.antt`.

ghost use Rattle.std.specs.Prelude.{◌≡◌, ◌++◌, length, replicate, IfErr, IfOk, OnOk};
ghost use Rattle.dw_base.specs.Refusals.{Blames};
ghost use Rattle.dw_base.specs.Slots.{slots_of};
ghost use Rattle.dw_base.specs.StringOffsets.{AreContributions};
ghost use Rattle.dw_base.specs.ViewData.{debug_data, string_offsets};
ghost use Rattle.dw_offsets.specs.NameFields.{fields_of_names};
ghost use Rattle.dw_offsets.specs.PathSlots.{SlotsRefuse, slots_in};
ghost use Rattle.dw_base.specs.declared.debug_sections.DebugSection.TheVariants.{Info};
ghost use Rattle.dw_lines.specs.ViewTables.{TablesFound};
ghost use Rattle.dw_units.specs.UnitLists.{ListsAll};
ghost use Rattle.dw_read.specs.FoundPaths.{FieldsFound, SlotsFound, UnitsFound, UnitsNamed};
ghost use Rattle.dw_starts.specs.LineStarts.{TablesStart, starts_of};
ghost use Rattle.dw_unit_fields.specs.IndexedTexts.{TextsIndexed, TextsRefuse};
ghost use Rattle.dw_starts.specs.UnitPlaces.{UnitsStart};
ghost use Rattle.dw_starts.specs.MacroSections.{UnitsFoundIn};
ghost use Rattle.dw_read.specs.NameSections.{names_of_view};
ghost use Rattle.dw_unit_fields.specs.NamedSlots.{no_slots};
ghost use Rattle.dw_read.specs.ReadData.{DataRefuses};
ghost use Rattle.dw_read.specs.SlotPaths.{slots_with};
ghost use Rattle.dw_unit_fields.specs.UnitTexts.{texts_of};

use crate::all_fields::FoundAll;
use crate::lines::push_lines;
use crate::macros::push_macros;
use dw_base::{DebugSection, Fault};
use dw_lines::LineTable;
use dw_offsets::{
    ContributionList, NameTableList, OffsetField, SlotMarks, all_slots, name_fields, name_tables,
};
use dw_relocs::check_fields;
use dw_starts::{MacroSection, UnitPlaces, macros_name};
use dw_unit_fields::{FoundFields, NamedSlots, SectionFields, TextTable, TextTables, unit_fields};
use dw_units::Units;
use dw_view::View;
use std::alloc::{AllocError, Global};

/// What the debug data of the view say of texts, kind by kind, and which slots values by index name; by its units, the contributions of its
/// string offsets, its line tables, which start at these places, and its macro units. Refused where an entry, a name table or a slot can't
/// be read or names no text, where what is to say where a line table or a macro unit starts names none, and where a relocation stands that
/// may not.
#[tactic(auto, using(crate::proofs::FoundPathLaws::found_rules))]
pub(crate) fn found_fields(
    alloc: Global,
    view: &View,
    listed: &Units,
    list: &ContributionList,
    starts: &[u64],
    tables: &[LineTable],
    macros: &[MacroSection],
) -> Result<(FoundAll, SlotMarks), Fault>
    requires listed { ListsAll (debug_data view.now) listed.now.tables ((debug_data view.now).found Info) listed.now.units }
    requires contributions { AreContributions view.now.order (string_offsets view.now) list.now }
    requires starts { starts.now ≡ starts_of tables.now }
    requires tables { TablesFound view.now tables.now }
    requires macros { UnitsFoundIn view.now macros.now }
    ensures found { IfOk result (λ found. FieldsFound view.now found.0 found.1 tables.now) }
    ensures refused { IfErr result (Blames (DataRefuses view.now)) }
{
    let names = name_tables(alloc, view)?;
    let (marks, units) = named_paths(alloc, view, listed, list, starts, macros)?;
    let mut slots = Vec::new(alloc);
    push_slots(alloc, view, list, &marks, &mut slots)?;
    let mut lines = Vec::new(alloc);
    push_lines(alloc, view, tables, &mut lines)?;
    let mut macro_fields = Vec::new(alloc);
    push_macros(alloc, view, macros, &mut macro_fields)?;
    let mut name_texts = Vec::new(alloc);
    push_names(alloc, view, &names, &mut name_texts)?;
    let named = names.as_slice();
    check_fields(alloc, view, listed, list.as_slice(), named, tables)?;
    let fields = FoundAll::new(units, slots, lines, macro_fields, name_texts);
    Ok((fields, marks))
}

/// What the unit sections say of paths, with the slots that their values name marked. What is to say where a line table
/// starts, in units and in macro units, names one of these starts.
#[tactic(auto, using(crate::proofs::FoundPathLaws::found_rules))]
fn named_paths(
    alloc: Global,
    view: &View,
    listed: &Units,
    list: &ContributionList,
    starts: &[u64],
    macros: &[MacroSection],
) -> Result<(SlotMarks, Vec<FoundFields>), Fault>
    requires listed { ListsAll (debug_data view.now) listed.now.tables ((debug_data view.now).found Info) listed.now.units }
    requires contributions { AreContributions view.now.order (string_offsets view.now) list.now }
    requires starts { TablesStart (debug_data view.now) starts.now }
    requires macros { UnitsFoundIn view.now macros.now }
    ensures named { IfOk result (λ found. UnitsNamed view.now list.now starts.now macros.now found.0 found.1.items) }
    ensures refused { IfErr result (Blames (DataRefuses view.now)) }
{
    let marks = no_marks(alloc, view)?;
    let mut slots = NamedSlots::new(list, marks);
    let places = UnitPlaces::new(alloc, view, macros)?;
    let paths = unit_paths(alloc, view, listed, starts, &places, &mut slots)?;
    macros_name(view, starts, &places, macros)?;
    Ok((slots.marks, paths))
}

/// No slot of the section of string offsets is marked.
fn no_marks(alloc: Global, view: &View) -> Result<SlotMarks, AllocError>
    ensures none { IfOk result (λ marks. marks ≡ replicate (length (string_offsets view.now).bytes) 0) }
{
    let marks = SlotMarks::new(alloc, offsets_bytes(view).len() as u64)?;
    Ok(marks)
}

/// The bytes of the section of string offsets, none where there is none.
#[tactic(auto, using(dw_offsets::proofs::PathSlotLaws::located_laws))]
fn offsets_bytes<'a>(view: &'a View) -> &'a [u8]
    ensures bytes { result.now ≡ (string_offsets view.now).bytes }
{
    view.located(DebugSection::StrOffsets).bytes
}

/// What the unit sections say of paths; exactly the slots that their values name are marked.
#[tactic(auto, using(crate::proofs::FoundUnitLaws::unit_rules))]
fn unit_paths(
    alloc: Global,
    view: &View,
    listed: &Units,
    starts: &[u64],
    places: &UnitPlaces,
    slots: &mut NamedSlots,
) -> Result<Vec<FoundFields>, Fault>
    requires listed { ListsAll (debug_data view.now) listed.now.tables ((debug_data view.now).found Info) listed.now.units }
    requires none { slots.old ≡ no_slots slots.old.list (length slots.old.marks) }
    requires starts { TablesStart (debug_data view.now) starts.now }
    requires units { UnitsStart (debug_data view.now) places.now }
    ensures found { IfOk result (λ us. UnitsFound (debug_data view.now) starts.now places.now us.items) }
    ensures indexed { OnOk result (TextsIndexed (debug_data view.now) slots.old.list slots.new.marks) }
    ensures refused { IfErr result (Blames (TextsRefuse (debug_data view.now) slots.old.list)) }
{
    let tables = text_tables(view);
    let paths = unit_fields(alloc, view, listed, &tables, starts, places, slots)?;
    Ok(paths)
}

/// The tables of texts of the view.
fn text_tables<'a>(view: &'a View) -> TextTables<'a>
    ensures { result ≡ texts_of (debug_data view.now) }
{
    TextTables {
        str: TextTable::new(view.located(DebugSection::Str)),
        line_str: TextTable::new(view.located(DebugSection::LineStr)),
    }
}

/// Puts what the string offsets say of texts behind what was found, where there are any.
#[tactic(auto, using(crate::proofs::SlotPathLaws::push_rules))]
fn push_slots(
    alloc: Global,
    view: &View,
    list: &ContributionList,
    marks: &SlotMarks,
    paths: &mut Vec<SectionFields>,
) -> Result<(), Fault>
    requires contributions { AreContributions view.now.order (string_offsets view.now) list.now }
    ensures found { OnOk result (SlotsFound view.now list.now marks.now paths.old.items paths.new.items) }
    ensures refused { IfErr result (Blames (SlotsRefuse (slots_in view.now) (slots_of list.now))) }
{
    let fields = all_slots(alloc, view, list, marks)?;
    if let Some(section) = view.first(DebugSection::StrOffsets) {
        paths.push(slots_with(alloc, section, fields))?;
    }
    Ok(())
}

/// Puts what the name tables say of texts behind what was found, where there is a section of them.
#[tactic(auto, using(crate::proofs::NameHaveLaws::names_rules))]
fn push_names(
    alloc: Global,
    view: &View,
    names: &NameTableList,
    paths: &mut Vec<SectionFields>,
) -> Result<(), AllocError>
    ensures { OnOk result (paths.new.items ≡ paths.old.items ++ names_of_view view.now (fields_of_names names.now)) }
{
    let fields = name_fields(alloc, names)?;
    if let Some(section) = view.first(DebugSection::Names) {
        paths.push(slots_with(alloc, section, fields))?;
    }
    Ok(())
}

/// What the section of string offsets, or that of name tables, says of texts, by these fields.
#[tactic(auto, using(crate::proofs::SlotPathLaws::with_rules))]
fn slots_with(alloc: Global, section: u32, fields: Vec<OffsetField>) -> SectionFields
    ensures paths { result ≡ slots_with section fields.items }
{
    let mut paths = SectionFields::new(alloc, section);
    paths.put(DebugSection::Str, fields);
    paths
}
