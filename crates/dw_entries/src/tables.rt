//! The tables of abbreviations of a view's units (DWARF 5, 7.5.3).
//!
//! This file promises: the table that is given is the one at the offset, and it is refused exactly where none can be read there.

ghost use Rattle.std.specs.Prelude.{IfOk, IfErr, OnOk};
ghost use Rattle.dw_base.specs.AbbreviationFails.{AbbreviationFails};
ghost use Rattle.dw_base.specs.AbbreviationTables.{IsTable};
ghost use Rattle.dw_base.specs.Refusals.{Blames};
ghost use Rattle.dw_base.specs.ViewData.{debug_data};
ghost use Rattle.dw_base.specs.declared.fault.Refusal.{Refusal};

use dw_abbrev::AbbrevTable;
use dw_base::{DebugSection, Fault};
use dw_view::View;
use std::alloc::Global;

/// The table of abbreviations at an offset of the view's `.debug_abbrev`. Refused as `Abbreviation` at that offset (in section 0
/// where there is no such section) exactly where none can be read there.
#[tactic(auto, using(crate::proofs::TableLaws::table_rules))]
pub fn abbreviations_at(alloc: Global, view: &View, at: u64) -> Result<AbbrevTable, Fault>
    ensures table { IfOk result (λ t. IsTable (debug_data view.now).base.abbrevs.bytes at t) }
    ensures none { OnOk result ((r : Refusal) → AbbreviationFails (debug_data view.now).base.abbrevs.bytes (debug_data view.now).base.abbrevs.number at r → ⊥) }
    ensures refused { IfErr result (Blames (AbbreviationFails (debug_data view.now).base.abbrevs.bytes (debug_data view.now).base.abbrevs.number at)) }
{
    let table = table_in(alloc, view, at)?;
    Ok(table)
}

/// The same, by the section.
#[tactic(auto, using(crate::proofs::TableLaws::section_rules))]
fn table_in(alloc: Global, view: &View, at: u64) -> Result<AbbrevTable, Fault>
    ensures table { IfOk result (λ t. IsTable (debug_data view.now).base.abbrevs.bytes at t) }
    ensures refused { IfErr result (Blames (AbbreviationFails (debug_data view.now).base.abbrevs.bytes (debug_data view.now).base.abbrevs.number at)) }
{
    match view.first(DebugSection::Abbrev) {
        Some(section) => AbbrevTable::read(alloc, section, view.bytes(section), at),
        None => AbbrevTable::read(alloc, 0, b"", at),
    }
}
