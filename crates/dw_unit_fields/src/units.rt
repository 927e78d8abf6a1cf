//! The texts that the entries of a unit name, and the paths among them.
//!
//! Read first: `specs/UnitTexts.antt`.

ghost use Rattle.std.specs.Prelude.{◌≡◌, ◌≤◌, ◌^◌, length, IsTrue, IfErr, OnOk};
ghost use Rattle.dw_base.specs.EntryValues.{HasUnit, bytes_up_to};
ghost use Rattle.dw_base.specs.Refusals.{Blames};
ghost use Rattle.dw_base.specs.UnitHeaders.{is_address_size};
ghost use Rattle.dw_base.specs.ViewData.{debug_data};
ghost use Rattle.dw_entries.specs.CodedEntries.{HasCode};
ghost use Rattle.dw_entries.specs.ScanStates.{scan_start};
ghost use Rattle.dw_entries.specs.ViewUnits.{unit_section_at};
ghost use Rattle.dw_unit_fields.specs.EntryTexts.{with_places};
ghost use Rattle.dw_unit_fields.specs.TextPlaces.{entry_places};
ghost use Rattle.dw_unit_fields.specs.UnitTexts.{EntryRefuses, EntryTaken, ScanTaken, UnitRefuses, UnitTaken, tables_of};

use crate::found::{FoundTexts, SectionTexts};
use crate::scan_table::look;
use crate::texts::read_entry;
use dw_abbrev::AbbrevTable;
use dw_base::{Fault, UnitHeader};
use dw_entries::{Coded, CodedScan};
use dw_view::View;

/// Takes the entries of a unit of the view, with its table of abbreviations: the paths that they say are
/// noted. Refused where one can't be read, or names no text.
#[tactic(auto, using(crate::proofs::ScanTextLaws::unit_rules))]
pub(crate) fn read_unit(
    view: &View,
    texts: &SectionTexts,
    unit: &UnitHeader,
    table: &AbbrevTable,
    found: &mut FoundTexts,
) -> Result<(), Fault>
    requires unit { HasUnit (debug_data view.now) (unit_section_at view.now unit.now.section) unit.now }
    requires texts { texts.now ≡ tables_of (debug_data view.now) (unit_section_at view.now unit.now.section) }
    ensures taken { OnOk result (UnitTaken texts.now (unit_section_at view.now unit.now.section) unit.now table.now found.old found.new) }
    ensures refused { IfErr result (Blames (UnitRefuses texts.now unit.now table.now (bytes_up_to (unit_section_at view.now unit.now.section) unit.now))) }
{
    let scan = CodedScan::new(view, unit, table);
    let bytes = &view.bytes(unit.section)[..unit.end as usize];
    read_entries(texts, unit, table, bytes, scan, found)
}

/// Takes the entries that a pass gives, from the first on.
#[tactic(auto, using(crate::proofs::ScanTextLaws::scan_rules))]
fn read_entries(
    texts: &SectionTexts,
    unit: &UnitHeader,
    table: &AbbrevTable,
    bytes: &[u8],
    scan: CodedScan,
    found: &mut FoundTexts,
) -> Result<(), Fault>
    requires start { scan ≡ scan_start unit.now table.now bytes.now }
    requires address { IsTrue (is_address_size unit.now.params.address) }
    requires small { length bytes.now ≤ 2 ^ 31 }
    requires within { length bytes.now ≤ length texts.now.cells }
    requires inside { unit.now.first ≤ length bytes.now }
    ensures taken { OnOk result (ScanTaken texts.now unit.now table.now bytes.now found.old found.new) }
    ensures refused { IfErr result (Blames (UnitRefuses texts.now unit.now table.now bytes.now)) }
{
    let mut number = 0;
    for entry in scan {
        let entry = entry?;
        read_coded(texts, unit, table, bytes, number, &entry, found)?;
        number += 1;
    }
    Ok(())
}

/// Takes the values of an entry that a pass gave, the entry `number` of its unit, up to the last that may say something.
#[tactic(auto, using(crate::proofs::UnitTextLaws::given_rules))]
fn read_coded(
    texts: &SectionTexts,
    unit: &UnitHeader,
    table: &AbbrevTable,
    bytes: &[u8],
    number: u64,
    entry: &Coded,
    found: &mut FoundTexts,
) -> Result<(), Fault>
    requires address { IsTrue (is_address_size unit.now.params.address) }
    requires small { length bytes.now ≤ 2 ^ 31 }
    requires within { length bytes.now ≤ length texts.now.cells }
    requires given { HasCode table.now bytes.now entry.now.entry entry.now.index entry.now.from }
    ensures found { OnOk result (found.new ≡ with_places found.old (entry_places unit.now.params table.now bytes.now number entry.now.entry)) }
    ensures taken { OnOk result (EntryTaken texts.now unit.now.params table.now bytes.now entry.now.entry) }
    ensures refused { IfErr result (Blames (EntryRefuses texts.now unit.now.params table.now bytes.now unit.now.section entry.now.entry)) }
{
    let (tag, specs) = look(table, entry, number);
    read_entry(texts, unit, bytes, number, tag, specs, entry.from, found)
}
