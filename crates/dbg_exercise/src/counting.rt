//! How many entries units have, and how many rows line tables (DWARF 5, 7.5.3 and 6.2.2).
//!
//! Read first: `specs/ViewCounts.antt`.

ghost use Rattle.std.specs.Prelude.{◌≡◌, ◌<◌, ◌^◌, length, IfOk, Some};
ghost use Rattle.dw_base.specs.LineMeanings.{item_at};
ghost use Rattle.dw_rows.specs.TableRows.{IsTableIn, table_rows};
ghost use Rattle.dbg_show.specs.ReadTables.{AllIn};
ghost use Rattle.dw_attrs.specs.UnitValues.{unit_bytes, unit_entries};
ghost use Rattle.dw_attrs.specs.UnitReads.{AllCanRead, CanRead, EachReads};
ghost use Rattle.dbg_exercise.specs.ViewCounts.{entries_listed, rows_listed, tabled_count};

use dw_abbrev::AbbrevTable;
use dw_base::{NoMemory, UnitHeader};
use dw_entries::EntryScan;
use dw_rows::{LineTable, Rows};
use dw_units::{ListedUnit, Units};
use dw_view::View;
use std::alloc::Global;

/// How many entries a unit has.
fn unit_count(view: &View, unit: &UnitHeader, table: &AbbrevTable) -> u64
    requires reads { CanRead view.now unit.now table.now }
    requires few { length (unit_entries unit.now table.now (unit_bytes view.now unit.now)) < 2 ^ 64 }
    ensures count { result ≡ length (unit_entries unit.now table.now (unit_bytes view.now unit.now)) }
{
    let mut count = 0;
    for entry in EntryScan::new(view, unit, table) {
        match entry {
            Ok(_) => count += 1,
            Err(_) => unreachable!(),
        }
    }
    count
}

/// The same, where the unit is that of a number.
fn listed_count(
    alloc: Global,
    view: &View,
    units: &Units,
    number: usize,
    unit: &ListedUnit,
) -> Result<u64, NoMemory>
    requires unit { EachReads view.now units.now.tables unit.now }
    requires there { item_at units.now.units number ≡ Some unit.now }
    requires few { tabled_count view.now unit.now.header (item_at units.now.tables unit.now.table) < 2 ^ 64 }
    ensures count { IfOk result (λ n. n ≡ tabled_count view.now unit.now.header (item_at units.now.tables unit.now.table)) }
{
    let table = units.table(alloc, number)?;
    Ok(unit_count(view, &unit.header, table.get()))
}

/// How many entries these units have.
#[tactic(auto, using(crate::proofs::CountLoopLaws::entry_laws))]
pub(crate) fn entry_count(
    alloc: Global,
    view: &View,
    units: &Units,
    list: &[ListedUnit],
) -> Result<u64, NoMemory>
    requires units { AllCanRead view.now units.now.tables list.now }
    requires all { list.now ≡ units.now.units }
    requires few { entries_listed view.now units.now.tables list.now < 2 ^ 64 }
    ensures count { IfOk result (λ n. n ≡ entries_listed view.now units.now.tables list.now) }
{
    let mut count = 0;
    for (number, unit) in list.iter().enumerate() {
        count += listed_count(alloc, view, units, number, unit)?;
    }
    Ok(count)
}

/// How many rows a table has.
#[tactic(auto, using(crate::proofs::CountLoopLaws::row_laws))]
fn table_count(view: &View, table: &LineTable) -> u64
    requires table { IsTableIn view.now table.now }
    requires few { length (table_rows view.now table.now) < 2 ^ 64 }
    ensures count { result ≡ length (table_rows view.now table.now) }
{
    let mut count = 0;
    for _row in Rows::new(view, table) {
        count += 1;
    }
    count
}

/// How many rows these tables have.
#[tactic(auto, using(crate::proofs::CountLoopLaws::table_laws))]
pub(crate) fn row_count(view: &View, tables: &[LineTable]) -> u64
    requires tables { AllIn view.now tables.now }
    requires few { rows_listed view.now tables.now < 2 ^ 64 }
    ensures count { result ≡ rows_listed view.now tables.now }
{
    let mut count = 0;
    for table in tables {
        count += table_count(view, table);
    }
    count
}
