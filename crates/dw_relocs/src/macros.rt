//! The relocations of macro units (DWARF 5, 6.3).
//!
//! Read first: `specs/MacroFields.antt`.

ghost use Rattle.std.specs.Prelude.{◌≡◌, ◌<◌, ◌≤◌, ◌^◌, true, is_some, length, IfErr, OnOk};
ghost use Rattle.dw_base.specs.FileViews.{kind_at, section_bytes, view_cells};
ghost use Rattle.dw_base.specs.MacroPieces.{at_operation, at_unit};
ghost use Rattle.dw_base.specs.MacroUnits.{AreMacroUnits, is_end};
ghost use Rattle.dw_base.specs.RelocationRows.{moving_sections};
ghost use Rattle.dw_relocs.specs.FieldWalks.{StandsAt, ground_of};
ghost use Rattle.dw_relocs.specs.MacroFields.{FieldGoes, FieldNext, MacrosFail, MacrosHold, OperationsLeft, PiecesPassed, UnitNext, UnitsLeft, line_place, more_at, operation_field};

use crate::marks::{Marks, pass_end, pass_offset, pass_start};
use crate::slots::has_relocations;
use dw_base::{MacroOperation, MacroUnit, Refusal, Width};
use dw_macros::operation_at;
use dw_view::View;

/// Where the offset of an operation stands, if it has one.
fn operation_field(operation: MacroOperation) -> Option<u64>
    ensures { result ≡ operation_field operation }
{
    match operation {
        MacroOperation::Named { field, .. } => Some(field),
        MacroOperation::Bring { field } => Some(field),
        _ => None,
    }
}

/// Where the offset of the line table of a unit stands, if it has one.
fn line_place(unit: &MacroUnit) -> Option<u64>
    ensures { result ≡ line_place unit.now }
{
    match unit.line {
        Some(_) => Some(unit.line_field),
        None => None,
    }
}

/// The operation ends its unit.
fn is_end(operation: MacroOperation) -> bool
    ensures { result ≡ is_end operation }
{
    match operation {
        MacroOperation::End => true,
        _ => false,
    }
}

/// The operation at a place, and the place behind it, where it doesn't end its unit.
#[tactic(auto, unfolding(crate::specs::MacroFields::more_at))]
fn more_in(bytes: &[u8], width: Width, place: u64) -> Option<(MacroOperation, u64)>
    requires small { length bytes.now ≤ 2 ^ 31 }
    ensures { result ≡ more_at bytes.now width place }
{
    match operation_at(bytes, width, place) {
        Some((operation, next)) => {
            if is_end(operation) {
                return None;
            }
            Some((operation, next))
        }
        None => None,
    }
}

/// The same of the section of a number.
fn more_at(view: &View, section: u32, width: Width, place: u64) -> Option<(MacroOperation, u64)>
    requires there { section < length view.now.sections }
    ensures { result ≡ more_at (section_bytes view.now section) width place }
{
    more_in(view.bytes(section), width, place)
}

/// A pass over the field of an offset, if there is one.
#[tactic(auto, using(crate::proofs::MacroPassLaws::field_rules))]
fn pass_field(
    view: &View,
    section: u32,
    pass: Result<Marks, Refusal>,
    width: Width,
    field: Option<u64>,
) -> Result<Marks, Refusal>
    requires there { section < length view.now.sections }
    requires read { is_some (kind_at view.now section) ≡ true }
    requires next { FieldNext (view_cells view.now section) (length (section_bytes view.now section)) width field pass }
    requires small { length (section_bytes view.now section) ≤ 2 ^ 31 }
    ensures goes { FieldGoes (ground_of view.now section) width field pass result }
{
    match field {
        Some(place) => pass_offset(view, section, pass, place, width.offset_size()),
        None => pass,
    }
}

/// A pass over the offsets of the operations of a unit.
fn pass_operations(
    view: &View,
    section: u32,
    pass: Result<Marks, Refusal>,
    unit: &MacroUnit,
) -> Result<Marks, Refusal>
    requires there { section < length view.now.sections }
    requires read { is_some (kind_at view.now section) ≡ true }
    requires left { OperationsLeft (section_bytes view.now section) unit.now.width unit.now.first unit.now.end }
    requires stands { StandsAt (view_cells view.now section) unit.now.first pass }
    requires small { length (section_bytes view.now section) ≤ 2 ^ 31 }
    ensures passed { PiecesPassed view.now.order (ground_of view.now section) unit.now.first (at_operation unit.now.width) unit.now.end at_unit pass result }
{
    let mut now = pass;
    let mut place = unit.first;
    'operations: while let Some((operation, next)) = more_at(view, section, unit.width, place) {
        now = pass_field(view, section, now, unit.width, operation_field(operation));
        place = next;
    }
    now
}

/// A pass over the offsets of a unit.
fn pass_unit(
    view: &View,
    section: u32,
    pass: Result<Marks, Refusal>,
    unit: &MacroUnit,
) -> Result<Marks, Refusal>
    requires there { section < length view.now.sections }
    requires read { is_some (kind_at view.now section) ≡ true }
    requires next { UnitNext view.now.order (section_bytes view.now section) (view_cells view.now section) unit.now pass }
    requires small { length (section_bytes view.now section) ≤ 2 ^ 31 }
    ensures passed { PiecesPassed view.now.order (ground_of view.now section) unit.now.start at_unit unit.now.end at_unit pass result }
{
    let line = pass_field(view, section, pass, unit.width, line_place(unit));
    pass_operations(view, section, line, unit)
}

/// A pass over the offsets of units that fill a section.
fn pass_units(
    view: &View,
    section: u32,
    pass: Result<Marks, Refusal>,
    units: &[MacroUnit],
) -> Result<Marks, Refusal>
    requires there { section < length view.now.sections }
    requires read { is_some (kind_at view.now section) ≡ true }
    requires left { UnitsLeft view.now.order (section_bytes view.now section) units.now 0 (length (section_bytes view.now section)) }
    requires stands { StandsAt (view_cells view.now section) 0 pass }
    requires small { length (section_bytes view.now section) ≤ 2 ^ 31 }
    ensures passed { PiecesPassed view.now.order (ground_of view.now section) 0 at_unit (length (section_bytes view.now section)) at_unit pass result }
{
    let mut now = pass;
    for unit in units {
        now = pass_unit(view, section, now, unit);
    }
    now
}

/// The relocations of the macro section of a number are ones that may stand there, where these are its units. Refused as `Relocation`
/// exactly where one isn't, at that relocation or at the offset that gives no place.
#[tactic(auto, using(crate::proofs::MacroPassLaws::check_rules))]
pub(crate) fn check_macros(view: &View, section: u32, units: &[MacroUnit]) -> Result<(), Refusal>
    requires there { section < length view.now.sections }
    requires read { is_some (kind_at view.now section) ≡ true }
    requires units { AreMacroUnits view.now section units.now }
    ensures holds { OnOk result (MacrosHold view.now.order (view_cells view.now section) (moving_sections view.now)) }
    ensures refused { IfErr result (MacrosFail view.now.order section (view_cells view.now section) (moving_sections view.now)) }
{
    if !has_relocations(view, section) {
        return Ok(());
    }
    let end = view.bytes(section).len() as u64;
    let start = pass_start(view, section);
    let pass = pass_units(view, section, start, units);
    match pass_end(view, section, pass, end) {
        Ok(()) => Ok(()),
        Err(refusal) => Err(refusal),
    }
}
