//! The debug data of a view, read whole (DWARF 5, 3.1.1, 6.1.1, 6.2.4, 6.3, 7.5 and 7.26).
//!
//! Read first: `specs/ReadData.antt`.

ghost use Rattle.std.specs.Prelude.{IfErr, IfOk, OnOk};
ghost use Rattle.dw_base.specs.Refusals.{Blames};
ghost use Rattle.dw_base.specs.ViewData.{debug_data};
ghost use Rattle.dw_base.specs.declared.debug_sections.DebugSection.TheVariants.{Info};
ghost use Rattle.dw_base.specs.declared.fault.Refusal.{Refusal as RefusalOf};
ghost use Rattle.dw_lines.specs.ViewTables.{TablesFound};
ghost use Rattle.dw_units.specs.UnitLists.{ListsAll};
ghost use Rattle.dw_read.specs.FoundPaths.{FieldsFound};
ghost use Rattle.dw_starts.specs.MacroSections.{UnitsFoundIn};
ghost use Rattle.dw_read.specs.ReadData.{DataRefuses, IsDebugData};

use crate::all_fields::{Fields, FoundAll};
use crate::paths::found_fields;
use dw_base::Fault;
use dw_lines::{LineTable, line_tables};
use dw_offsets::{ContributionList, SlotMarks, contributions};
use dw_starts::{MacroSection, macro_sections, starts_of};
use dw_units::{Units, read_units};
use dw_view::View;
use std::alloc::Global;

/// What was read of the debug data of a view.
#[derive(Drop)]
pub struct DebugData {
    /// The contributions of string offsets, in the order of their places.
    pub contributions: ContributionList,
    /// The line tables, in the order of their places.
    pub lines: Vec<LineTable>,
    /// Where they start.
    pub starts: Vec<u64>,
    /// The macro units, in the order of their sections.
    pub macros: Vec<MacroSection>,
}

/// Reads all debug data of a view: its units and their entries, string offsets, name tables, line tables and macro units; and gives
/// the units beside what else was read. Refused only where one of these can't be read, at its place: also where an offset or an index
/// names no text, where what is to say where a line table or a macro unit starts names none, and where a relocation stands that may
/// not. What was read excludes each of these refusals.
pub fn read_data<'v>(alloc: Global, view: &'v View) -> Result<(Units<'v>, DebugData), Fault>
    ensures units { IfOk result (λ r. ListsAll (debug_data view.now) r.0.tables ((debug_data view.now).found Info) r.0.units) }
    ensures data { IfOk result (λ r. IsDebugData view.now r.1) }
    ensures none { OnOk result ((r : RefusalOf) → DataRefuses view.now r → ⊥) }
    ensures refused { IfErr result (Blames (DataRefuses view.now)) }
{
    let (units, data, _fields, _marks) = read_all(alloc, view)?;
    Ok((units, data))
}

/// Reads the same, and gives what was read, what it says of texts, and which slots values by index name. Refused where `read_data` is.
pub fn read_fields(alloc: Global, view: &View) -> Result<(DebugData, Fields, SlotMarks), Fault>
    ensures data { IfOk result (λ r. IsDebugData view.now r.0) }
    ensures found { IfOk result (λ r. FieldsFound view.now r.1 r.2 r.0.lines.items) }
    ensures none { OnOk result ((r : RefusalOf) → DataRefuses view.now r → ⊥) }
    ensures refused { IfErr result (Blames (DataRefuses view.now)) }
{
    let (data, found, marks) = read_found(alloc, view)?;
    let fields = found.given(alloc)?;
    Ok((data, fields, marks))
}

/// Reads the same, and lets the units go.
fn read_found(alloc: Global, view: &View) -> Result<(DebugData, FoundAll, SlotMarks), Fault>
    ensures data { IfOk result (λ r. IsDebugData view.now r.0) }
    ensures found { IfOk result (λ r. FieldsFound view.now r.1 r.2 r.0.lines.items) }
    ensures refused { IfErr result (Blames (DataRefuses view.now)) }
{
    let (_units, data, found, marks) = read_all(alloc, view)?;
    Ok((data, found, marks))
}

/// Reads the same, and gives all of it.
#[tactic(auto, using(crate::proofs::ReadDataLaws::read_rules))]
fn read_all<'v>(
    alloc: Global,
    view: &'v View,
) -> Result<(Units<'v>, DebugData, FoundAll, SlotMarks), Fault>
    ensures units { IfOk result (λ r. ListsAll (debug_data view.now) r.0.tables ((debug_data view.now).found Info) r.0.units) }
    ensures data { IfOk result (λ r. IsDebugData view.now r.1) }
    ensures found { IfOk result (λ r. FieldsFound view.now r.2 r.3 r.1.lines.items) }
    ensures refused { IfErr result (Blames (DataRefuses view.now)) }
{
    let lines = line_tables(alloc, view)?;
    let macros = macro_sections(alloc, view)?;
    let units = read_units(alloc, view)?;
    let (data, fields, marks) = listed_data(alloc, view, &units, lines, macros)?;
    Ok((units, data, fields, marks))
}

/// The same, where line tables, macro units and units were read.
#[tactic(auto, using(crate::proofs::ReadDataLaws::read_rules))]
fn listed_data(
    alloc: Global,
    view: &View,
    listed: &Units,
    lines: Vec<LineTable>,
    macros: Vec<MacroSection>,
) -> Result<(DebugData, FoundAll, SlotMarks), Fault>
    requires listed { ListsAll (debug_data view.now) listed.now.tables ((debug_data view.now).found Info) listed.now.units }
    requires tables { TablesFound view.now lines.items }
    requires macros { UnitsFoundIn view.now macros.items }
    ensures data { IfOk result (λ r. IsDebugData view.now r.0) }
    ensures found { IfOk result (λ r. FieldsFound view.now r.1 r.2 r.0.lines.items) }
    ensures refused { IfErr result (Blames (DataRefuses view.now)) }
{
    let contributions = contributions(alloc, view)?;
    let tables = lines.as_slice();
    let starts = starts_of(alloc, tables)?;
    let sections = macros.as_slice();
    let (fields, marks) = found_fields(
        alloc,
        view,
        listed,
        &contributions,
        starts.as_slice(),
        tables,
        sections,
    )?;
    let data = DebugData {
        contributions,
        lines,
        starts,
        macros,
    };
    Ok((data, fields, marks))
}
