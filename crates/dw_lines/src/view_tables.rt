//! The line tables of a view, read one after another (DWARF 5, 6.2.4).
//!
//! Read first: `specs/ViewTables.antt`.

ghost use Rattle.std.specs.Prelude.{◌≡◌, ◌<◌, Some, length, IfErr, IfOk, OnOk};
ghost use Rattle.dw_base.specs.DebugData.{line_source};
ghost use Rattle.dw_base.specs.DebugSections.{name_of};
ghost use Rattle.dw_base.specs.FileViews.{section_named};
ghost use Rattle.dw_base.specs.Refusals.{Blames};
ghost use Rattle.dw_base.specs.ViewData.{debug_data};
ghost use Rattle.dw_base.specs.declared.debug_sections.DebugSection.TheVariants.{Line};
ghost use Rattle.dw_base.specs.declared.fault.Refusal.{Refusal as RefusalOf};
ghost use Rattle.dw_meaning.specs.DataFails.{LinesFail};
ghost use Rattle.dw_lines.specs.ViewTables.{TablesFound};

use crate::table::LineTable;
use dw_base::{DebugSection, Fault};
use dw_view::View;
use std::alloc::Global;

/// The line tables of the view, in the order of their places; none where it has no section of them. They fill the section.
/// Refused at the first that can't be read: as `Line` at the table, as `StringOffset` at an offset that names no text, as
/// `Relocation` where a relocation lies on an offset only in part, at that relocation, or gives it no place, at the offset.
/// Tables that were read exclude each refusal.
#[tactic(auto, using(crate::proofs::ViewTableLaws::view_laws))]
pub fn line_tables(alloc: Global, view: &View) -> Result<Vec<LineTable>, Fault>
    ensures tables { IfOk result (λ tables. TablesFound view.now tables.items) }
    ensures none { OnOk result ((r : RefusalOf) → LinesFail (debug_data view.now) r → ⊥) }
    ensures refused { IfErr result (Blames (LinesFail (debug_data view.now))) }
{
    match view.first(DebugSection::Line) {
        Some(section) => tables_in(alloc, view, section),
        None => Ok(Vec::new(alloc)),
    }
}

/// Those of the section of a number, the view's section of line tables.
#[tactic(auto, using(crate::proofs::ViewTableLaws::table_laws))]
fn tables_in(alloc: Global, view: &View, section: u32) -> Result<Vec<LineTable>, Fault>
    requires first { Some section ≡ section_named view.now (name_of Line) }
    requires there { section < length view.now.sections }
    ensures tables { IfOk result (λ tables. TablesFound view.now tables.items) }
    ensures refused { IfErr result (Blames (LinesFail (debug_data view.now))) }
{
    let len = view.bytes(section).len() as u64;
    let mut tables = Vec::new(alloc);
    let mut start = 0;
    'tables: while start < len {
        let table = match LineTable::read(alloc, view, section, start) {
            Ok(table) => table,
            Err(fault) => return Err(fault),
        };
        start = end_of(&table);
        tables.push(table)?;
    }
    Ok(tables)
}

/// Where a table ends.
fn end_of(table: &LineTable) -> u64
    ensures end { result ≡ table.now.end }
{
    table.end
}
