//! The text of a view, read first and then printed.

ghost use Rattle.std.specs.Prelude.{◌≡◌, ◌++◌, [], IfErr, OnOk};
ghost use Rattle.std.specs.String.{string_bytes};
ghost use Rattle.dw_base.specs.DebugData.{line_source};
ghost use Rattle.dw_base.specs.LineMeanings.{dir_texts, file_texts};
ghost use Rattle.dw_base.specs.ViewData.{debug_data};
ghost use Rattle.dw_base.specs.declared.debug_sections.DebugSection.TheVariants.{Info};
ghost use Rattle.dw_base.specs.declared.fault.Refusal.{Refusal as RefusalOf};
ghost use Rattle.dw_read.specs.ReadData.{IsDebugData};
ghost use Rattle.dw_rows.specs.TableRows.{IsTableIn, rows_left, table_rows};
ghost use Rattle.dbg_show.specs.LineTexts.{dirs_text, files_text, first_number};
ghost use Rattle.dbg_show.specs.Printing.{Cut, Printed};
ghost use Rattle.dbg_show.specs.ReadTables.{AllIn, all_read, lists_of, read_text};
ghost use Rattle.dbg_show.specs.Rows.{rows_text};
ghost use Rattle.dbg_show.specs.Shows.{IsShown, ShowEnds, ShowRefuses};
ghost use Rattle.dbg_show.specs.ShownMacros.{MacrosFit, units_shown};
ghost use Rattle.dbg_show.specs.TableLists.{listed_rows};
ghost use Rattle.dw_attrs.specs.UnitReads.{SourceFits};
ghost use Rattle.dw_units.specs.UnitLists.{ListsAll};
ghost use Rattle.dbg_show.specs.ViewSources.{AreSources, all_printed};

use crate::lists::TableLists;
use crate::macro_lines::print_macros;
use crate::macro_source::{MacroSource, macro_list};
use crate::printing::write_all;
use crate::show_err::ShowErr;
use crate::source::{LineSource, line_source};
use crate::table_lines::{print_dirs, print_files, print_row, print_start};
use crate::unit_lines::print_units;
use dw_attrs::{EntryIndex, UnitSource};
use dw_read::{DebugData, read_data};
use dw_rows::{LineTable, Rows};
use dw_units::Units;
use dw_view::View;
use file_tree::Sink;
use std::alloc::Global;

/// The lists of a table.
fn lists_of<'t>(source: &'t LineSource<'t>, table: &'t LineTable) -> TableLists<'t>
    ensures lists { result ≡ lists_of source.now table.now }
{
    TableLists {
        source,
        version: table.version,
        dirs: table.dirs.as_slice(),
        files: table.files.as_slice(),
        defined: table.defined.as_slice(),
    }
}

/// The version of a table.
fn version_of(table: &LineTable) -> u16
    ensures { result ≡ table.now.version }
{
    table.version
}

/// Prints the lines of rows.
#[tactic(auto, using(crate::proofs::LoopLaws::row_laws))]
fn print_rows<'v, 'f, O: Sink>(
    text: &mut String,
    out: &mut O,
    lists: &TableLists,
    rows: Rows<'v, 'f>,
) -> Result<(), ShowErr>
    ensures done { OnOk result (Printed (rows_text (listed_rows lists.now (rows_left rows.entry))) (string_bytes text.old) (O.heard out.old) (O.heard out.new) (string_bytes text.new)) }
    ensures cut { IfErr result (Cut (string_bytes text.old ++ rows_text (listed_rows lists.now (rows_left rows.entry))) (O.heard out.old) (O.heard out.new)) }
{
    for row in rows {
        match print_row(text, out, lists, &row) {
            Ok(()) => {}
            Err(e) => return Err(e),
        }
    }
    Ok(())
}

/// Prints the files of a table, and its rows.
#[tactic(auto, using(crate::proofs::PrintingLaws::then_laws))]
fn print_files_rows<'v, 'f, O: Sink>(
    text: &mut String,
    out: &mut O,
    lists: &TableLists,
    rows: Rows<'v, 'f>,
) -> Result<(), ShowErr>
    ensures done { OnOk result (Printed (files_text (first_number lists.now.version) (file_texts lists.now.source lists.now.files) ++ rows_text (listed_rows lists.now (rows_left rows.entry))) (string_bytes text.old) (O.heard out.old) (O.heard out.new) (string_bytes text.new)) }
    ensures cut { IfErr result (Cut (string_bytes text.old ++ (files_text (first_number lists.now.version) (file_texts lists.now.source lists.now.files) ++ rows_text (listed_rows lists.now (rows_left rows.entry)))) (O.heard out.old) (O.heard out.new)) }
{
    print_files(text, out, lists)?;
    print_rows(text, out, lists, rows)
}

/// Prints the directories of a table, its files and its rows.
#[tactic(auto, using(crate::proofs::PrintingLaws::then_laws))]
fn print_lists<'v, 'f, O: Sink>(
    text: &mut String,
    out: &mut O,
    lists: &TableLists,
    rows: Rows<'v, 'f>,
) -> Result<(), ShowErr>
    ensures done { OnOk result (Printed (dirs_text (first_number lists.now.version) (dir_texts lists.now.source lists.now.dirs) ++ (files_text (first_number lists.now.version) (file_texts lists.now.source lists.now.files) ++ rows_text (listed_rows lists.now (rows_left rows.entry)))) (string_bytes text.old) (O.heard out.old) (O.heard out.new) (string_bytes text.new)) }
    ensures cut { IfErr result (Cut (string_bytes text.old ++ (dirs_text (first_number lists.now.version) (dir_texts lists.now.source lists.now.dirs) ++ (files_text (first_number lists.now.version) (file_texts lists.now.source lists.now.files) ++ rows_text (listed_rows lists.now (rows_left rows.entry))))) (O.heard out.old) (O.heard out.new)) }
{
    print_dirs(text, out, lists)?;
    print_files_rows(text, out, lists, rows)
}

/// Prints the table of a number.
#[tactic(auto, using(crate::proofs::PrintingLaws::then_laws))]
fn print_table<O: Sink>(
    text: &mut String,
    out: &mut O,
    view: &View,
    source: &LineSource,
    number: u64,
    table: &LineTable,
) -> Result<(), ShowErr>
    requires table { IsTableIn view.now table.now }
    ensures done { OnOk result (Printed (read_text number source.now table.now (table_rows view.now table.now)) (string_bytes text.old) (O.heard out.old) (O.heard out.new) (string_bytes text.new)) }
    ensures cut { IfErr result (Cut (string_bytes text.old ++ read_text number source.now table.now (table_rows view.now table.now)) (O.heard out.old) (O.heard out.new)) }
{
    let lists = lists_of(source, table);
    print_start(text, out, number, version_of(table))?;
    print_lists(text, out, &lists, Rows::new(view, table))
}

/// Prints tables, numbered from 0.
#[tactic(auto, using(crate::proofs::ReadLaws::loop_laws))]
fn print_tables<O: Sink>(
    text: &mut String,
    out: &mut O,
    view: &View,
    source: &LineSource,
    tables: &[LineTable],
) -> Result<(), ShowErr>
    requires tables { AllIn view.now tables.now }
    ensures done { OnOk result (Printed (all_read view.now source.now 0 tables.now) (string_bytes text.old) (O.heard out.old) (O.heard out.new) (string_bytes text.new)) }
    ensures cut { IfErr result (Cut (string_bytes text.old ++ all_read view.now source.now 0 tables.now) (O.heard out.old) (O.heard out.new)) }
{
    for (number, table) in tables.iter().enumerate() {
        match print_table(text, out, view, source, number as u64, table) {
            Ok(()) => {}
            Err(e) => return Err(e),
        }
    }
    Ok(())
}

/// Prints tables, and macro units behind them.
#[tactic(auto, using(crate::proofs::PrintingLaws::then_laws))]
fn print_rest<O: Sink>(
    text: &mut String,
    out: &mut O,
    view: &View,
    tables: &[LineTable],
    macros: &MacroSource,
) -> Result<(), ShowErr>
    requires tables { AllIn view.now tables.now }
    requires macros { MacrosFit macros.now }
    ensures done { OnOk result (Printed (all_read view.now (line_source (debug_data view.now)) 0 tables.now ++ units_shown macros.now 0 macros.now.units) (string_bytes text.old) (O.heard out.old) (O.heard out.new) (string_bytes text.new)) }
    ensures cut { IfErr result (Cut (string_bytes text.old ++ (all_read view.now (line_source (debug_data view.now)) 0 tables.now ++ units_shown macros.now 0 macros.now.units)) (O.heard out.old) (O.heard out.new)) }
{
    let lines = line_source(view);
    print_tables(text, out, view, &lines, tables)?;
    print_macros(text, out, macros)
}

/// Prints units, tables and macro units, one behind another.
#[tactic(auto, using(crate::proofs::PrintingLaws::then_laws))]
fn print_view<O: Sink>(
    alloc: Global,
    text: &mut String,
    out: &mut O,
    view: &View,
    units: &UnitSource,
    tables: &[LineTable],
    macros: &MacroSource,
) -> Result<(), ShowErr>
    requires fits { SourceFits units.now }
    requires tables { AllIn view.now tables.now }
    requires macros { MacrosFit macros.now }
    ensures done { OnOk result (Printed (all_printed view.now units.now tables.now macros.now) (string_bytes text.old) (O.heard out.old) (O.heard out.new) (string_bytes text.new)) }
    ensures cut { IfErr result (Cut (string_bytes text.old ++ all_printed view.now units.now tables.now macros.now) (O.heard out.old) (O.heard out.new)) }
{
    print_units(alloc, text, out, units)?;
    print_rest(text, out, view, tables, macros)
}

/// Writes the text of units, of tables and of macro units.
#[tactic(auto, using(crate::proofs::ReadLaws::write_laws))]
fn write_view<O: Sink>(
    alloc: Global,
    view: &View,
    units: &UnitSource,
    tables: &[LineTable],
    macros: &MacroSource,
    out: &mut O,
) -> Result<(), ShowErr>
    requires fits { SourceFits units.now }
    requires tables { AllIn view.now tables.now }
    requires macros { MacrosFit macros.now }
    ensures done { OnOk result (Printed (all_printed view.now units.now tables.now macros.now) [] (O.heard out.old) (O.heard out.new) []) }
    ensures cut { IfErr result (Cut (all_printed view.now units.now tables.now macros.now) (O.heard out.old) (O.heard out.new)) }
{
    let mut text = String::new(alloc);
    print_view(alloc, &mut text, out, view, units, tables, macros)?;
    write_all(&mut text, out)
}

/// Writes the text of a view from what was read of it.
#[tactic(auto, using(crate::proofs::ReadLaws::shown_laws))]
fn write_shown<O: Sink>(
    alloc: Global,
    view: &View,
    units: &UnitSource,
    tables: &[LineTable],
    macros: &MacroSource,
    out: &mut O,
) -> Result<(), ShowErr>
    requires sources { AreSources view.now tables.now units.now macros.now }
    ensures shown { OnOk result (IsShown view.now (O.heard out.old) (O.heard out.new)) }
    ensures ends { IfErr result (ShowEnds view.now (O.heard out.old) (O.heard out.new)) }
{
    match write_view(alloc, view, units, tables, macros, out) {
        Ok(()) => Ok(()),
        Err(e) => Err(e),
    }
}

/// Writes the text of a view whose debug data were read.
#[tactic(auto, using(crate::proofs::ReadLaws::show_laws))]
fn show_data<'v, O: Sink>(
    alloc: Global,
    view: &'v View,
    units: &Units<'v>,
    read: &DebugData,
    out: &mut O,
) -> Result<(), ShowErr>
    requires units { ListsAll (debug_data view.now) units.now.tables ((debug_data view.now).found Info) units.now.units }
    requires read { IsDebugData view.now read.now }
    ensures shown { OnOk result (IsShown view.now (O.heard out.old) (O.heard out.new)) }
    ensures ends { IfErr result (ShowEnds view.now (O.heard out.old) (O.heard out.new)) }
{
    let index = EntryIndex::read(alloc, view, units)?;
    let found = macro_list(alloc, view, read.macros.as_slice())?;
    let lines = read.starts.as_slice();
    let keys = found.keys.as_slice();
    let source = UnitSource {
        view,
        list: units,
        index: &index,
        contributions: &read.contributions,
        starts: lines,
        keys,
    };
    let macro_source = MacroSource {
        view,
        lines,
        units: found.units.as_slice(),
        keys,
    };
    let tables = read.lines.as_slice();
    write_shown(alloc, view, &source, tables, &macro_source, out)
}

/// Writes the text of a view: its units, each with its entries and their attributes; its line tables, each with its directories, its files
/// and its rows; and its macro units, each with its events. Before the first byte is written all debug data are read: units and their
/// entries, string offsets, name tables, line tables and macro units. Refused where they can't be, at the place: also where an offset or an
/// index names no text, or a value no line table or no macro unit, or a relocation stands where none can be handled. Nothing was written then. The text goes out in pieces of a few thousand
/// bytes; where the sink fails or memory is wanting, a first part of it went out.
#[tactic(auto, using(crate::proofs::ReadLaws::show_laws))]
pub fn show<O: Sink>(alloc: Global, view: &View, out: &mut O) -> Result<(), ShowErr>
    ensures shown { OnOk result (IsShown view.now (O.heard out.old) (O.heard out.new)) }
    ensures none { OnOk result ((r : RefusalOf) → ShowRefuses view.now r → ⊥) }
    ensures ends { IfErr result (ShowEnds view.now (O.heard out.old) (O.heard out.new)) }
{
    let (units, data) = read_data(alloc, view)?;
    show_data(alloc, view, &units, &data, out)
}
