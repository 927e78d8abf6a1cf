//! The line tables of a view, by the places where they start (DWARF 5, 6.2.4): each is read once.

ghost use Rattle.std.specs.Prelude.{◌≡◌, [], nat_eq, IfOk, OnOk};
ghost use Rattle.std.specs.HashMap.{get};
ghost use Rattle.dw_base.specs.ViewData.{debug_data};
ghost use Rattle.dw_lines.specs.ViewTables.{TablesFound};
ghost use Rattle.dw_sources.specs.Sources.{AreKept, KeepsOne, KeepsRest};

use dw_base::NoMemory;
use dw_lines::LineTable;
use dw_view::View;
use std::alloc::Global;
use std::collections::HashMap;

/// The line tables of the view, by the places where they start.
#[tactic(auto, using(crate::proofs::TableLaws::kept_rules))]
pub(crate) fn tables_by_start(
    alloc: Global,
    view: &View,
    tables: Vec<LineTable>,
) -> Result<HashMap<u64, LineTable>, NoMemory>
    requires tables { TablesFound view.now tables.items }
    ensures tables { IfOk result (λ m. AreKept (debug_data view.now) (λ at. get nat_eq m at)) }
{
    let kept = by_start(alloc, tables)?;
    Ok(kept)
}

/// Tables by the places where they start.
#[tactic(auto, using(crate::proofs::TableLaws::start_rules))]
fn by_start(alloc: Global, tables: Vec<LineTable>) -> Result<HashMap<u64, LineTable>, NoMemory>
    ensures kept { IfOk result (λ m. KeepsRest tables.items (λ at. get nat_eq m at) []) }
{
    let mut kept = HashMap::new(alloc);
    for table in tables {
        let start = start_of(&table);
        keep_table(&mut kept, start, table)?;
    }
    Ok(kept)
}

/// Where a table starts.
fn start_of(table: &LineTable) -> u64
    ensures start { result ≡ table.now.start }
{
    table.start
}

/// Keeps a table by the place where it starts.
#[tactic(auto, using(crate::proofs::TableLaws::keep_rules))]
fn keep_table(
    tables: &mut HashMap<u64, LineTable>,
    start: u64,
    table: LineTable,
) -> Result<(), NoMemory>
    ensures kept { OnOk result (KeepsOne (λ at. get nat_eq tables.old at) (λ at. get nat_eq tables.new at) start table) }
{
    tables.insert(start, table)?;
    Ok(())
}
