//! A table of abbreviations that units name, by its place (DWARF 5, 7.5.3).
//!
//! Read first: `specs/PlacedTables.antt`.

ghost use Rattle.std.specs.Prelude.{◌≡◌, IfOk};
ghost use Rattle.dw_base.specs.AbbreviationBytes.{abbreviations_at};
ghost use Rattle.dw_base.specs.AbbreviationTables.{IsTable};
ghost use Rattle.dw_units.specs.PlacedTables.{IsPlaced};

use crate::unit_table::UnitTable;
use dw_abbrev::AbbrevTable;
use dw_base::{Fault, NoMemory};
use std::alloc::Global;

/// A table: where it stands, and itself where it is kept.
#[derive(Drop)]
pub(crate) struct PlacedTable {
    /// In bytes from the section's start.
    pub at: u64,
    /// The table.
    pub kept: Option<AbbrevTable>,
}

/// Reads the table at a place of these bytes, where one could be read before.
#[tactic(auto, using(crate::proofs::PlacedLaws::again_rules))]
fn read_again(alloc: Global, bytes: &[u8], at: u64) -> Result<AbbrevTable, NoMemory>
    requires stands { IsTable bytes.now at (abbreviations_at bytes.now at) }
    ensures table { IfOk result (λ t. t ≡ abbreviations_at bytes.now at) }
{
    match AbbrevTable::read(alloc, 0, bytes, at) {
        Ok(table) => Ok(table),
        Err(Fault::NoMemory) => Err(NoMemory),
        Err(Fault::Refused(_)) => unreachable!(),
    }
}

/// The table at its place in these bytes: the one that is kept, or else read again.
#[tactic(auto, using(crate::proofs::PlacedLaws::table_rules))]
pub(crate) fn table_of<'u>(
    alloc: Global,
    bytes: &[u8],
    placed: &'u PlacedTable,
) -> Result<UnitTable<'u>, NoMemory>
    requires placed { IsPlaced bytes.now placed.now }
    ensures table { IfOk result (λ t. t ≡ abbreviations_at bytes.now placed.now.at) }
{
    match &placed.kept {
        Some(table) => Ok(UnitTable::kept(table)),
        None => Ok(UnitTable::read(read_again(alloc, bytes, placed.at)?)),
    }
}
