//! The line tables of a view, written with mapped paths (DWARF 5, 6.2.4).
//!
//! This file promises: the new tables are the defined ones, one after another. What can't be written is refused, by the
//! table's refusals.
//! Read first: `specs/NewLines.antt`.

ghost use Rattle.std.specs.Prelude.{◌≡◌, ◌++◌, ◌<◌, length, IfErr, IfOk, OnOk};
ghost use Rattle.dw_base.specs.DebugData.{line_source};
ghost use Rattle.dw_base.specs.TextWriteFails.{CanWriteTexts, TextWriteFails};
ghost use Rattle.dw_base.specs.Refusals.{Blames};
ghost use Rattle.dw_base.specs.ViewData.{debug_data};
ghost use Rattle.dw_base.specs.TextLineChanges.{table_by_texts};
ghost use Rattle.dw_base.specs.declared.debug_sections.DebugSection.TheVariants.{Str, LineStr};
ghost use Rattle.dw_lines.specs.ViewSources.{view_source};
ghost use Rattle.dw_lines.specs.ViewTables.{TablesFound};
ghost use Rattle.dw_rewrite.specs.NewLines.{AllStandIn, LinesRefuse, LinesWritten, StandsIn};
ghost use Rattle.dw_lines.specs.NewTexts.{text_known, texts_known};

use dw_base::{DebugSection, Fault};
use dw_lines::{LineTable, NewTexts};
use dw_paths::Maps;
use dw_view::View;
use std::alloc::Global;

/// Line tables with mapped paths, one after another.
#[derive(Drop)]
pub(crate) struct NewLines {
    /// Their bytes.
    pub bytes: Vec<u8>,
    /// Where each starts.
    pub starts: Vec<u64>,
}

/// The line tables of the view with mapped paths, from the new places of texts that are known by their old ones. Refused
/// where one can't be written.
#[tactic(auto, using(crate::proofs::LineWriteLaws::view_rules))]
pub(crate) fn new_lines(
    alloc: Global,
    view: &View,
    maps: &Maps,
    new_texts: &NewTexts,
    tables: &[LineTable],
) -> Result<NewLines, Fault>
    requires tables { TablesFound view.now tables.now }
    ensures written { IfOk result (λ n. LinesWritten maps.now (line_source (debug_data view.now)) (texts_known new_texts.now Str) (texts_known new_texts.now LineStr) tables.now n.bytes.items n.starts.items) }
    ensures refused { IfErr result (Blames (LinesRefuse maps.now (line_source (debug_data view.now)) (texts_known new_texts.now Str) (texts_known new_texts.now LineStr) tables.now)) }
{
    match view.first(DebugSection::Line) {
        Some(section) => written_tables(alloc, view, maps, new_texts, section, tables),
        None => Ok(NewLines {
            bytes: Vec::new(alloc),
            starts: Vec::new(alloc),
        }),
    }
}

/// The tables of the section of a number with mapped paths, from the new places of texts that are known by their old ones.
/// Refused where one can't be written.
fn written_tables(
    alloc: Global,
    view: &View,
    maps: &Maps,
    new_texts: &NewTexts,
    section: u32,
    tables: &[LineTable],
) -> Result<NewLines, Fault>
    requires there { section < length view.now.sections }
    requires stand { AllStandIn (view_source view.now section) tables.now }
    ensures written { IfOk result (λ n. LinesWritten maps.now (view_source view.now section) (texts_known new_texts.now Str) (texts_known new_texts.now LineStr) tables.now n.bytes.items n.starts.items) }
    ensures refused { IfErr result (Blames (LinesRefuse maps.now (view_source view.now section) (texts_known new_texts.now Str) (texts_known new_texts.now LineStr) tables.now)) }
{
    let mut bytes = Vec::with_capacity(alloc, view.bytes(section).len())?;
    let mut starts = Vec::with_capacity(alloc, tables.len())?;
    for table in tables {
        starts.push(bytes.len() as u64)?;
        write_table(alloc, view, maps, new_texts, section, table, &mut bytes)?;
    }
    Ok(NewLines { bytes, starts })
}

/// Appends a table with mapped paths.
#[tactic(auto, using(crate::proofs::LineWriteLaws::table_rules))]
fn write_table(
    alloc: Global,
    view: &View,
    maps: &Maps,
    new_texts: &NewTexts,
    section: u32,
    table: &LineTable,
    bytes: &mut Vec<u8>,
) -> Result<(), Fault>
    requires there { section < length view.now.sections }
    requires stands { StandsIn (view_source view.now section) table.now }
    ensures bytes { OnOk result (bytes.new.items ≡ bytes.old.items ++ table_by_texts (view_source view.now section) maps.now (text_known (view_source view.now section) (texts_known new_texts.now Str) (texts_known new_texts.now LineStr)) table.now) }
    ensures can { OnOk result (CanWriteTexts (view_source view.now section) maps.now (text_known (view_source view.now section) (texts_known new_texts.now Str) (texts_known new_texts.now LineStr)) table.now) }
    ensures refused { IfErr result (Blames (TextWriteFails (view_source view.now section) maps.now (text_known (view_source view.now section) (texts_known new_texts.now Str) (texts_known new_texts.now LineStr)) table.now)) }
{
    let written = table.write_mapped(alloc, view, maps, new_texts)?;
    bytes.extend_from_slice(&written.bytes)?;
    Ok(())
}
