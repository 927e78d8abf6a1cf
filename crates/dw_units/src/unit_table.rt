//! The table of abbreviations of a unit, lent or its own.

ghost use Rattle.std.specs.Prelude.{◌≡◌, List};
ghost use Rattle.dw_base.specs.AbbreviationTables.{Abbreviation};
ghost use Rattle.dw_units.specs.LentTables.{table_in};

use dw_abbrev::AbbrevTable;
use std::marker::Model;

/// Where a table is.
#[derive(Drop)]
pub(crate) enum TableSource<'u> {
    /// It is kept.
    Kept(&'u AbbrevTable),
    /// It was read again.
    Read(AbbrevTable),
}

/// The table of a unit: one that is kept for all units that name it, or one that was read again.
#[derive(Drop)]
pub struct UnitTable<'u> {
    source: TableSource<'u>,
}

impl<'u> Model for UnitTable<'u> {
    ghost Value = { List Abbreviation };

    ghost view = { λ t. table_in t.source };
}

impl<'u> UnitTable<'u> {
    /// One that is kept.
    pub(crate) fn kept(table: &'u AbbrevTable) -> UnitTable<'u>
        ensures table { result ≡ table.now }
    {
        UnitTable {
            source: TableSource::Kept(table),
        }
    }

    /// One that was read again.
    pub(crate) fn read(table: AbbrevTable) -> UnitTable<'u>
        ensures table { result ≡ table }
    {
        UnitTable {
            source: TableSource::Read(table),
        }
    }

    /// The table.
    pub fn get(&self) -> &AbbrevTable
        ensures table { result.now ≡ self.now }
    {
        match &self.source {
            TableSource::Kept(table) => *table,
            TableSource::Read(table) => table,
        }
    }
}
