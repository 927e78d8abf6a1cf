//! The values that say where line tables and macro units start (DWARF 5, 3.1.1): that each names one.
//!
//! Read first: `specs/NamedStarts.antt`, then `specs/StartRows.antt`.

ghost use Rattle.std.specs.Prelude.{◌≡◌, ◌<◌, length, true, IfErr, IfOk, OnOk};
ghost use Rattle.dw_base.specs.Cells.{cells_at, field_of, is_placed};
ghost use Rattle.dw_base.specs.DebugData.{start_number};
ghost use Rattle.dw_base.specs.FileViews.{section_bytes, view_cells};
ghost use Rattle.dw_base.specs.Refusals.{at};
ghost use Rattle.dw_base.specs.RelocationRows.{OffsetFails, field_place, offset_field};
ghost use Rattle.dw_base.specs.ViewData.{debug_data, located};
ghost use Rattle.dw_base.specs.declared.debug_sections.DebugSection.TheVariants.{Info};
ghost use Rattle.dw_unit_fields.specs.Fields.{AreStartFields, IsStartField};
ghost use Rattle.dw_starts.specs.LineStarts.{TablesStart, Rises};
ghost use Rattle.dw_starts.specs.UnitPlaces.{UnitsStart};
ghost use Rattle.dw_unit_fields.specs.StartRows.{FieldStrays, SectionStrays, StartsRefuse};
ghost use Rattle.dw_unit_fields.specs.ViewFields.{HasPlaces};
ghost use Rattle.dw_unit_fields.specs.NamedStarts.{AllStarts, FieldsSay, SectionStarts, says_start, says_unit};
ghost use Rattle.dw_unit_fields.specs.UnitTexts.{AllTaken};

use crate::field_offsets::{cells_field, section_offset};
use crate::found::FoundFields;
use dw_base::{DebugSection, Refusal};
use dw_offsets::OffsetField;
use dw_starts::{UnitPlaces, start_number, stray};
use dw_view::View;

/// Tests that each value of all unit sections that is to say where a line table starts names one of these starts, and that
/// each that is to say where a macro unit starts names one of these places. Refused as `Stray`, at a value that has another
/// form or names none, and as `Relocation` where the offset of one can't be read.
#[tactic(auto, using(crate::proofs::StartLaws::all_rules))]
pub(crate) fn all_start(
    view: &View,
    starts: &[u64],
    places: &UnitPlaces,
    paths: &[FoundFields],
) -> Result<(), Refusal>
    requires taken { AllTaken (debug_data view.now) ((debug_data view.now).found Info) paths.now }
    requires tables { TablesStart (debug_data view.now) starts.now }
    requires units { UnitsStart (debug_data view.now) places.now }
    ensures starts { OnOk result (AllStarts (debug_data view.now) starts.now places.now ((debug_data view.now).found Info) paths.now) }
    ensures refused { IfErr result (StartsRefuse (debug_data view.now)) }
{
    for found in paths {
        section_starts(view, starts, places, found)?;
    }
    Ok(())
}

/// The same of one section.
#[tactic(auto, using(crate::proofs::StartLaws::section_rules))]
fn section_starts(
    view: &View,
    starts: &[u64],
    places: &UnitPlaces,
    found: &FoundFields,
) -> Result<(), Refusal>
    requires paths { HasPlaces view.now found.now }
    requires rises { Rises starts.now }
    ensures starts { OnOk result (SectionStarts view.now starts.now places.now found.now) }
    ensures refused { IfErr result (SectionStrays view.now starts.now places.now found.now) }
{
    if let Some(place) = found.stray {
        return Err(stray(found.section, place));
    }
    lines_start(view, found.section, starts, found.lines())?;
    units_start(view, found.section, places, found.macros())?;
    Ok(())
}

/// Tests that each of these fields of a section holds the start of a line table.
fn lines_start(
    view: &View,
    section: u32,
    starts: &[u64],
    fields: &[OffsetField],
) -> Result<(), Refusal>
    requires there { section < length view.now.sections }
    requires fields { AreStartFields (section_bytes view.now section) fields.now }
    requires rises { Rises starts.now }
    ensures starts { OnOk result (FieldsSay (says_start view.now.order (located view.now DebugSection.Line) starts.now) (view_cells view.now section) fields.now) }
    ensures refused { IfErr result (FieldStrays view.now.order section (view_cells view.now section) (says_start view.now.order (located view.now DebugSection.Line) starts.now) fields.now) }
{
    for field in fields {
        if !line_starts(view, section, starts, *field)? {
            return Err(stray(section, field.at));
        }
    }
    Ok(())
}

/// A field holds the start of a line table.
#[tactic(auto, using(crate::proofs::StartLaws::says_rules))]
fn line_starts(
    view: &View,
    section: u32,
    starts: &[u64],
    field: OffsetField,
) -> Result<bool, Refusal>
    requires there { section < length view.now.sections }
    requires field { IsStartField (section_bytes view.now section) field }
    requires rises { Rises starts.now }
    ensures says { IfOk result (λ says. says ≡ says_start view.now.order (located view.now DebugSection.Line) starts.now (cells_at (view_cells view.now section) field.at field.size)) }
    ensures placed { OnOk result (is_placed (field_of view.now.order (cells_at (view_cells view.now section) field.at field.size)) ≡ true) }
    ensures refused { IfErr result (OffsetFails view.now.order section (view_cells view.now section) (field_place field.at field.size offset_field)) }
{
    let start = section_offset(view, section, field, DebugSection::Line)?;
    match start_number(starts, start) {
        Some(_) => Ok(true),
        None => Ok(false),
    }
}

/// Tests that each of these fields of a section names a macro unit.
fn units_start(
    view: &View,
    section: u32,
    places: &UnitPlaces,
    fields: &[OffsetField],
) -> Result<(), Refusal>
    requires there { section < length view.now.sections }
    requires fields { AreStartFields (section_bytes view.now section) fields.now }
    ensures starts { OnOk result (FieldsSay (says_unit view.now.order places.now) (view_cells view.now section) fields.now) }
    ensures refused { IfErr result (FieldStrays view.now.order section (view_cells view.now section) (says_unit view.now.order places.now) fields.now) }
{
    for field in fields {
        if !unit_starts(view, section, places, *field)? {
            return Err(stray(section, field.at));
        }
    }
    Ok(())
}

/// A field names a macro unit.
fn unit_starts(
    view: &View,
    section: u32,
    places: &UnitPlaces,
    field: OffsetField,
) -> Result<bool, Refusal>
    requires there { section < length view.now.sections }
    requires field { IsStartField (section_bytes view.now section) field }
    ensures says { IfOk result (λ says. says ≡ says_unit view.now.order places.now (cells_at (view_cells view.now section) field.at field.size)) }
    ensures placed { OnOk result (is_placed (field_of view.now.order (cells_at (view_cells view.now section) field.at field.size)) ≡ true) }
    ensures refused { IfErr result (OffsetFails view.now.order section (view_cells view.now section) (field_place field.at field.size offset_field)) }
{
    let read = cells_field(view, section, field)?;
    Ok(places.names(read))
}
