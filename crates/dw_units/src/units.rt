//! The units of a file, and their tables of abbreviations (DWARF 5, 7.5.1 and 7.5.3).
//!
//! Read first: `specs/UnitLists.antt`.

ghost use Rattle.std.specs.Prelude.{◌≡◌, ◌<◌, length, IfOk, Some};
ghost use Rattle.dw_base.specs.LineMeanings.{item_at};
ghost use Rattle.dw_units.specs.PlacedTables.{AllPlaced, UnitsFit, tables_of};
ghost use Rattle.dw_units.specs.UnitLists.{IsTableOf, Units as UnitsOf};

use crate::listed_unit::ListedUnit;
use crate::placed_table::{PlacedTable, table_of};
use crate::unit_table::UnitTable;
use dw_base::NoMemory;
use std::alloc::Global;
use std::marker::Model;

/// All units of a file in order, numbered from 0, and the tables of abbreviations that they name.
#[derive(Drop)]
pub struct Units<'v> {
    /// The bytes of the section of abbreviations.
    pub(crate) bytes: &'v [u8],
    /// The units.
    pub(crate) list: Vec<ListedUnit>,
    /// The tables, by their numbers.
    pub(crate) tables: Vec<PlacedTable>,
}

impl<'v> Model for Units<'v> {
    ghost Value = { UnitsOf };

    ghost view = { λ u. record { units = u.list.items; tables = tables_of u.bytes.now u.tables.items } };

    ghost invariant = { λ u. UnitsFit u.bytes.now u.list.items u.tables.items };
}

/// The table of a number among these.
#[tactic(auto, using(crate::proofs::PlacedLaws::nth_rules))]
fn nth_table<'u>(
    alloc: Global,
    bytes: &[u8],
    tables: &'u [PlacedTable],
    number: usize,
) -> Result<UnitTable<'u>, NoMemory>
    requires placed { AllPlaced bytes.now tables.now }
    requires there { number < length tables.now }
    ensures table { IfOk result (λ t. item_at (tables_of bytes.now tables.now) number ≡ Some t) }
{
    let table = table_of(alloc, bytes, &tables[number])?;
    Ok(table)
}

impl<'v> Units<'v> {
    /// The units, in order.
    pub fn all(&self) -> &[ListedUnit]
        ensures units { result.now ≡ self.now.units }
    {
        self.list.as_slice()
    }

    /// The table of abbreviations of the unit of a number. One that isn't kept is read again: only memory can be wanting.
    #[tactic(auto, using(crate::proofs::PlacedLaws::unit_rules))]
    pub fn table(&self, alloc: Global, unit: usize) -> Result<UnitTable<'_>, NoMemory>
        requires there { unit < length self.now.units }
        ensures table { IfOk result (IsTableOf self.now unit) }
    {
        let number = self.list[unit].table;
        let table = nth_table(alloc, self.bytes, self.tables.as_slice(), number)?;
        Ok(table)
    }
}
