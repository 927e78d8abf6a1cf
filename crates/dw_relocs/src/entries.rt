//! A pass over the fields of a unit's entries.
//!
//! Read first: `specs/UnitPasses.antt`.

ghost use Rattle.std.specs.Prelude.{◌≡◌, ◌<◌, ◌≤◌, ◌^◌, true, is_some, length, IfErr, IfOk, IsTrue};
ghost use Rattle.dw_base.specs.EntryScans.{EntryFails};
ghost use Rattle.dw_base.specs.FileViews.{kind_at, section_bytes, view_cells};
ghost use Rattle.dw_base.specs.UnitHeaders.{is_address_size};
ghost use Rattle.dw_entries.specs.CodedEntries.{HasCode};
ghost use Rattle.dw_entries.specs.ScanStates.{scan_start};
ghost use Rattle.dw_relocs.specs.FieldWalks.{Goes, StandsAt, ground_of};
ghost use Rattle.dw_relocs.specs.UnitFields.{entry_fields};
ghost use Rattle.dw_relocs.specs.UnitPasses.{EntriesPassed, IsGiven};

use crate::marks::Marks;
use crate::values::pass_values;
use dw_abbrev::{Abbrev, AbbrevTable};
use dw_base::{Params, Refusal, Spec, UnitHeader};
use dw_entries::{Coded, CodedScan};
use dw_view::View;

/// The tag of an abbreviation.
fn tag_of(abbreviation: &Abbrev) -> u64
    ensures value { result ≡ abbreviation.now.tag }
{
    abbreviation.tag
}

/// All attributes of an abbreviation.
fn specs_of(abbreviation: &Abbrev) -> &[Spec]
    ensures value { result.now ≡ abbreviation.now.specs }
{
    abbreviation.specs.as_slice()
}

/// A pass over the fields of an entry, entry `number` of its unit.
#[tactic(auto, using(crate::proofs::EntryPassLaws::entry_rules))]
fn pass_entry(
    view: &View,
    section: u32,
    pass: Result<Marks, Refusal>,
    params: &Params,
    table: &AbbrevTable,
    bytes: &[u8],
    number: u64,
    entry: &Coded,
) -> Result<Marks, Refusal>
    requires there { section < length view.now.sections }
    requires read { is_some (kind_at view.now section) ≡ true }
    requires stands { StandsAt (view_cells view.now section) entry.now.entry.offset pass }
    requires address { IsTrue (is_address_size params.now.address) }
    requires given { IsGiven params.now table.now bytes.now entry.now.entry }
    requires code { HasCode table.now bytes.now entry.now.entry entry.now.index entry.now.from }
    requires whole { length bytes.now ≤ length (section_bytes view.now section) }
    requires small { length (section_bytes view.now section) ≤ 2 ^ 31 }
    ensures goes { Goes (ground_of view.now section) entry.now.entry.offset entry.now.entry.after (entry_fields params.now table.now bytes.now number entry.now.entry) pass result }
{
    let abbrev = table.abbrev(entry.index);
    let tag = tag_of(abbrev);
    let specs = specs_of(abbrev);
    pass_values(
        view,
        section,
        pass,
        params,
        bytes,
        number,
        tag,
        specs,
        entry.from,
        entry.entry.after,
    )
}

/// A pass over the fields of the entries that a scan of a unit gives, from the first on. Refused where one can't be read.
#[tactic(auto, using(crate::proofs::EntryPassLaws::scan_rules))]
pub(crate) fn pass_entries(
    view: &View,
    section: u32,
    pass: Result<Marks, Refusal>,
    unit: &UnitHeader,
    table: &AbbrevTable,
    bytes: &[u8],
    scan: CodedScan,
) -> Result<Result<Marks, Refusal>, Refusal>
    requires there { section < length view.now.sections }
    requires read { is_some (kind_at view.now section) ≡ true }
    requires stands { StandsAt (view_cells view.now section) unit.now.first pass }
    requires address { IsTrue (is_address_size unit.now.params.address) }
    requires start { scan ≡ scan_start unit.now table.now bytes.now }
    requires first { unit.now.first ≤ length bytes.now }
    requires whole { length bytes.now ≤ length (section_bytes view.now section) }
    requires small { length (section_bytes view.now section) ≤ 2 ^ 31 }
    ensures passed { IfOk result (λ q. EntriesPassed (ground_of view.now section) unit.now table.now bytes.now pass q) }
    ensures refused { IfErr result (EntryFails unit.now table.now bytes.now) }
{
    let mut number = 0;
    let mut now = pass;
    for entry in scan {
        let entry = match entry {
            Ok(entry) => entry,
            Err(refusal) => return Err(refusal),
        };
        now = pass_entry(
            view,
            section,
            now,
            &unit.params,
            table,
            bytes,
            number,
            &entry,
        );
        number += 1;
    }
    Ok(now)
}
