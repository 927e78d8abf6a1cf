//! The lines of units, printed one after another: each unit with its entries, each entry with its attributes.
//!
//! Read first: `specs/ShownUnits.antt`.

ghost use Rattle.std.specs.Prelude.{◌≡◌, ◌++◌, ◌+◌, ◌<◌, ◌≤◌, length, IfErr, IfOk, OnOk, Some};
ghost use Rattle.std.specs.String.{string_bytes};
ghost use Rattle.dw_base.specs.LineMeanings.{item_at};
ghost use Rattle.dbg_show.specs.Printing.{Cut, Printed};
ghost use Rattle.dw_attrs.specs.UnitValues.{said_unit, unit_bytes, unit_entries};
ghost use Rattle.dbg_show.specs.ShownUnits.{all_shown, entries_text, entry_text, header_line, one_shown, tabled_text, value_shown, values_shown};
ghost use Rattle.dw_attrs.specs.UnitReads.{AllCanRead, CanRead, EachReads, UnitFits, SourceFits};
ghost use Rattle.dbg_show.specs.UnitTexts.{attribute_line, entry_line, kind_name};
ghost use Rattle.entry_arena.specs.UnitArenas.{IsArenaOf};
ghost use Rattle.dw_attrs.specs.ArenaEntries.{IsNumbered, node_entry};
ghost use Rattle.dw_entries.specs.ViewUnits.{IsUnitSection, unit_section_at};

use crate::printing::write_full;
use crate::show_err::ShowErr;
use crate::unit_texts::{push_attribute_front, push_end, push_entry, push_unit};
use crate::value_texts::push_said;
use dw_abbrev::AbbrevTable;
use dw_attrs::{SaidUnit, UnitSource, said, value_in};
use dw_base::{DebugSection, Fault, Scanned, Spec, UnitHeader, Value, uleb_at};
use dw_units::ListedUnit;
use dw_view::View;
use entry_arena::{EntryArena, EntryNode, WalkStep};
use file_tree::Sink;
use std::alloc::{AllocError, Global};

/// Appends the attribute's value as it is said.
#[tactic(auto, using(crate::proofs::RowTextLaws::piece_laws))]
fn push_value(
    text: &mut String,
    unit: &SaidUnit,
    spec: &Spec,
    place: u64,
    value: &Value,
) -> Result<(), AllocError>
    requires fits { UnitFits unit.now }
    ensures text { OnOk result (string_bytes text.new ≡ string_bytes text.old ++ value_shown unit.now spec.now place value.now) }
{
    push_said(text, &said(unit, spec, place, value))
}

/// Appends an attribute with its value.
#[tactic(auto, using(crate::proofs::RowTextLaws::piece_laws))]
fn push_attribute(
    text: &mut String,
    unit: &SaidUnit,
    spec: &Spec,
    place: u64,
    value: &Value,
) -> Result<(), AllocError>
    requires fits { UnitFits unit.now }
    ensures text { OnOk result (string_bytes text.new ≡ string_bytes text.old ++ attribute_line spec.now.name (value_shown unit.now spec.now place value.now)) }
{
    push_attribute_front(text, spec.name)?;
    push_value(text, unit, spec, place, value)?;
    push_end(text)
}

/// Prints an attribute with its value.
#[tactic(auto, using(crate::proofs::PrintingLaws::line_laws))]
fn print_attribute<O: Sink>(
    text: &mut String,
    out: &mut O,
    unit: &SaidUnit,
    spec: &Spec,
    place: u64,
    value: &Value,
) -> Result<(), ShowErr>
    requires fits { UnitFits unit.now }
    ensures done { OnOk result (Printed (attribute_line spec.now.name (value_shown unit.now spec.now place value.now)) (string_bytes text.old) (O.heard out.old) (O.heard out.new) (string_bytes text.new)) }
    ensures cut { IfErr result (Cut (string_bytes text.old ++ (attribute_line spec.now.name (value_shown unit.now spec.now place value.now))) (O.heard out.old) (O.heard out.new)) }
{
    push_attribute(text, unit, spec, place, value)?;
    write_full(text, out)
}

/// Prints the attributes of an entry whose values stand from a place on.
#[tactic(auto, using(crate::proofs::ShownLaws::values_loop))]
fn print_values<O: Sink>(
    text: &mut String,
    out: &mut O,
    unit: &SaidUnit,
    specs: &[Spec],
    from: u64,
) -> Result<(), ShowErr>
    requires fits { UnitFits unit.now }
    requires inside { from ≤ length unit.now.bytes }
    ensures done { OnOk result (Printed (values_shown unit.now specs.now from) (string_bytes text.old) (O.heard out.old) (O.heard out.new) (string_bytes text.new)) }
    ensures cut { IfErr result (Cut (string_bytes text.old ++ (values_shown unit.now specs.now from)) (O.heard out.old) (O.heard out.new)) }
{
    let mut place = from;
    for spec in specs {
        match value_in(unit.header, unit.bytes, spec, place) {
            Some(value) => {
                match print_attribute(text, out, unit, spec, place, &value) {
                    Ok(()) => {}
                    Err(e) => return Err(e),
                }
                place += value.size;
            }
            None => return Ok(()),
        }
    }
    Ok(())
}

/// Prints the line of an entry.
#[tactic(auto, using(crate::proofs::PrintingLaws::line_laws))]
fn print_line<O: Sink>(
    text: &mut String,
    out: &mut O,
    number: u64,
    depth: u32,
    tag: u64,
) -> Result<(), ShowErr>
    ensures done { OnOk result (Printed (entry_line number depth tag) (string_bytes text.old) (O.heard out.old) (O.heard out.new) (string_bytes text.new)) }
    ensures cut { IfErr result (Cut (string_bytes text.old ++ (entry_line number depth tag)) (O.heard out.old) (O.heard out.new)) }
{
    push_entry(text, number, depth, tag)?;
    write_full(text, out)
}

/// Prints an entry of a number with its attributes.
#[tactic(auto, using(crate::proofs::PrintingLaws::then_laws, crate::proofs::EntryPrintLaws::entry_laws))]
fn print_entry<O: Sink>(
    text: &mut String,
    out: &mut O,
    unit: &SaidUnit,
    number: u64,
    entry: &Scanned,
) -> Result<(), ShowErr>
    requires fits { UnitFits unit.now }
    ensures done { OnOk result (Printed (entry_text unit.now number entry.now) (string_bytes text.old) (O.heard out.old) (O.heard out.new) (string_bytes text.new)) }
    ensures cut { IfErr result (Cut (string_bytes text.old ++ (entry_text unit.now number entry.now)) (O.heard out.old) (O.heard out.new)) }
{
    let Some((code, size)) = uleb_at(unit.bytes, entry.offset) else {
        return Ok(());
    };
    let Some(abbrev) = unit.table.get(code) else {
        return Ok(());
    };
    print_line(text, out, number, entry.depth, abbrev.tag)?;
    print_values(
        text,
        out,
        unit,
        abbrev.specs.as_slice(),
        entry.offset + size,
    )
}

/// Prints the entry of a node at a step of a walk.
fn print_node<O: Sink>(
    text: &mut String,
    out: &mut O,
    unit: &SaidUnit,
    step: WalkStep,
    node: &EntryNode,
) -> Result<(), ShowErr>
    requires fits { UnitFits unit.now }
    ensures done { OnOk result (Printed (entry_text unit.now step.number (node_entry node.now step.depth)) (string_bytes text.old) (O.heard out.old) (O.heard out.new) (string_bytes text.new)) }
    ensures cut { IfErr result (Cut (string_bytes text.old ++ (entry_text unit.now step.number (node_entry node.now step.depth))) (O.heard out.old) (O.heard out.new)) }
{
    let entry = Scanned {
        offset: node.offset,
        depth: step.depth,
        code: node.code,
        after: node.offset,
    };
    print_entry(text, out, unit, u64::from(step.number), &entry)
}

/// Prints the entries of a unit, as its arena has them.
#[tactic(auto, using(crate::proofs::ArenaTextLaws::walk_loop))]
fn print_entries<O: Sink>(text: &mut String, out: &mut O, unit: &SaidUnit) -> Result<(), ShowErr>
    requires fits { UnitFits unit.now }
    ensures done { OnOk result (Printed (entries_text unit.now 0 (unit_entries unit.now.header unit.now.table unit.now.bytes)) (string_bytes text.old) (O.heard out.old) (O.heard out.new) (string_bytes text.new)) }
    ensures cut { IfErr result (Cut (string_bytes text.old ++ (entries_text unit.now 0 (unit_entries unit.now.header unit.now.table unit.now.bytes))) (O.heard out.old) (O.heard out.new)) }
{
    let arena = unit.arena;
    for step in arena.steps() {
        match print_node(text, out, unit, step, arena.node(step.number)) {
            Ok(()) => {}
            Err(e) => return Err(e),
        }
    }
    Ok(())
}

/// The entries of a unit that can be read, so many, linked.
fn unit_arena(
    alloc: Global,
    view: &View,
    unit: &UnitHeader,
    table: &AbbrevTable,
    count: usize,
) -> Result<EntryArena, AllocError>
    requires reads { CanRead view.now unit.now table.now }
    ensures arena { IfOk result (IsArenaOf unit.now table.now (unit_bytes view.now unit.now)) }
{
    match EntryArena::read_counted(alloc, view, unit, table, count) {
        Ok(arena) => Ok(arena),
        Err(Fault::NoMemory) => Err(AllocError),
        Err(Fault::Refused(_)) => unreachable!(),
    }
}

/// The name of the section of a unit.
#[tactic(auto, using(crate::proofs::SectionNameLaws::name_laws))]
fn section_name(view: &View, section: u32) -> &'static str
    requires there { IsUnitSection view.now section }
    ensures name { result.now ≡ kind_name (unit_section_at view.now section).kind }
{
    match view.kind(section) {
        Some(DebugSection::Types) => ".debug_types",
        _ => ".debug_info",
    }
}

/// Prints the first line of a unit.
#[tactic(auto, using(crate::proofs::PrintingLaws::line_laws))]
fn print_head<O: Sink>(
    text: &mut String,
    out: &mut O,
    view: &View,
    number: u64,
    unit: &UnitHeader,
) -> Result<(), ShowErr>
    requires there { IsUnitSection view.now unit.now.section }
    ensures done { OnOk result (Printed (header_line view.now number unit.now) (string_bytes text.old) (O.heard out.old) (O.heard out.new) (string_bytes text.new)) }
    ensures cut { IfErr result (Cut (string_bytes text.old ++ (header_line view.now number unit.now)) (O.heard out.old) (O.heard out.new)) }
{
    push_unit(text, number, section_name(view, unit.section), unit)?;
    write_full(text, out)
}

/// Prints the entries of a unit with a table of abbreviations.
#[tactic(auto, using(crate::proofs::EntryPrintLaws::said_laws))]
fn print_with<O: Sink>(
    text: &mut String,
    out: &mut O,
    source: &UnitSource,
    number: u64,
    unit: &UnitHeader,
    table: &AbbrevTable,
    arena: &EntryArena,
) -> Result<(), ShowErr>
    requires fits { SourceFits source.now }
    requires reads { CanRead source.now.view unit.now table.now }
    requires numbered { IsNumbered source.now number unit.now table.now }
    requires arena { IsArenaOf unit.now table.now (unit_bytes source.now.view unit.now) arena.now }
    ensures done { OnOk result (Printed (entries_text (said_unit source.now number unit.now table.now) 0 (unit_entries unit.now table.now (unit_bytes source.now.view unit.now))) (string_bytes text.old) (O.heard out.old) (O.heard out.new) (string_bytes text.new)) }
    ensures cut { IfErr result (Cut (string_bytes text.old ++ entries_text (said_unit source.now number unit.now table.now) 0 (unit_entries unit.now table.now (unit_bytes source.now.view unit.now))) (O.heard out.old) (O.heard out.new)) }
{
    let shown = SaidUnit::new(source, number, unit, table, arena);
    print_entries(text, out, &shown)
}

/// The same, where the entries aren't linked yet: the arena is let go behind the unit.
#[tactic(auto, using(crate::proofs::PrintingLaws::line_laws))]
fn print_linked<O: Sink>(
    alloc: Global,
    text: &mut String,
    out: &mut O,
    source: &UnitSource,
    number: u64,
    unit: &UnitHeader,
    table: &AbbrevTable,
) -> Result<(), ShowErr>
    requires fits { SourceFits source.now }
    requires reads { CanRead source.now.view unit.now table.now }
    requires numbered { IsNumbered source.now number unit.now table.now }
    ensures done { OnOk result (Printed (entries_text (said_unit source.now number unit.now table.now) 0 (unit_entries unit.now table.now (unit_bytes source.now.view unit.now))) (string_bytes text.old) (O.heard out.old) (O.heard out.new) (string_bytes text.new)) }
    ensures cut { IfErr result (Cut (string_bytes text.old ++ entries_text (said_unit source.now number unit.now table.now) 0 (unit_entries unit.now table.now (unit_bytes source.now.view unit.now))) (O.heard out.old) (O.heard out.new)) }
{
    let arena = unit_arena(alloc, source.view, unit, table, source.entry_count(number))?;
    print_with(text, out, source, number, unit, table, &arena)
}

/// Prints the entries of a unit.
#[tactic(auto, using(crate::proofs::PrintingLaws::line_laws))]
fn print_tabled<O: Sink>(
    alloc: Global,
    text: &mut String,
    out: &mut O,
    source: &UnitSource,
    number: u64,
    unit: &ListedUnit,
) -> Result<(), ShowErr>
    requires fits { SourceFits source.now }
    requires unit { EachReads source.now.view source.now.tables unit.now }
    requires there { item_at source.now.units number ≡ Some unit.now }
    ensures done { OnOk result (Printed (tabled_text source.now number unit.now.header (item_at source.now.tables unit.now.table)) (string_bytes text.old) (O.heard out.old) (O.heard out.new) (string_bytes text.new)) }
    ensures cut { IfErr result (Cut (string_bytes text.old ++ tabled_text source.now number unit.now.header (item_at source.now.tables unit.now.table)) (O.heard out.old) (O.heard out.new)) }
{
    let table = source.table(alloc, number as usize)?;
    print_linked(alloc, text, out, source, number, &unit.header, table.get())
}

/// Prints a unit of a number.
#[tactic(auto, using(crate::proofs::EntryPrintLaws::unit_laws))]
fn print_unit<O: Sink>(
    alloc: Global,
    text: &mut String,
    out: &mut O,
    source: &UnitSource,
    number: u64,
    unit: &ListedUnit,
) -> Result<(), ShowErr>
    requires fits { SourceFits source.now }
    requires unit { EachReads source.now.view source.now.tables unit.now }
    requires there { item_at source.now.units number ≡ Some unit.now }
    ensures done { OnOk result (Printed (one_shown source.now number unit.now) (string_bytes text.old) (O.heard out.old) (O.heard out.new) (string_bytes text.new)) }
    ensures cut { IfErr result (Cut (string_bytes text.old ++ one_shown source.now number unit.now) (O.heard out.old) (O.heard out.new)) }
{
    print_head(text, out, source.view, number, &unit.header)?;
    print_tabled(alloc, text, out, source, number, unit)
}

/// Prints units, numbered from 0.
#[tactic(auto, using(crate::proofs::ShownLaws::units_loop))]
fn print_all<O: Sink>(
    alloc: Global,
    text: &mut String,
    out: &mut O,
    source: &UnitSource,
    units: &[ListedUnit],
) -> Result<(), ShowErr>
    requires fits { SourceFits source.now }
    requires units { AllCanRead source.now.view source.now.tables units.now }
    requires all { units.now ≡ source.now.units }
    ensures done { OnOk result (Printed (all_shown source.now 0 units.now) (string_bytes text.old) (O.heard out.old) (O.heard out.new) (string_bytes text.new)) }
    ensures cut { IfErr result (Cut (string_bytes text.old ++ all_shown source.now 0 units.now) (O.heard out.old) (O.heard out.new)) }
{
    for (number, unit) in units.iter().enumerate() {
        match print_unit(alloc, text, out, source, number as u64, unit) {
            Ok(()) => {}
            Err(e) => return Err(e),
        }
    }
    Ok(())
}

/// Prints the units of a source.
#[tactic(auto, using(crate::proofs::ShownLaws::source_laws))]
pub(crate) fn print_units<O: Sink>(
    alloc: Global,
    text: &mut String,
    out: &mut O,
    source: &UnitSource,
) -> Result<(), ShowErr>
    requires fits { SourceFits source.now }
    ensures done { OnOk result (Printed (all_shown source.now 0 source.now.units) (string_bytes text.old) (O.heard out.old) (O.heard out.new) (string_bytes text.new)) }
    ensures cut { IfErr result (Cut (string_bytes text.old ++ all_shown source.now 0 source.now.units) (O.heard out.old) (O.heard out.new)) }
{
    print_all(alloc, text, out, source, source.units())
}
