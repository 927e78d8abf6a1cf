//! Whether a map can be applied to the paths that were found: each that stands in its value fits its room, and no slot is shared by a path whose
//! text changes and another value (DWARF 5, 7.5.5, class string, and 7.26).
//!
//! Read first: `specs/FoundPaths.antt`.

ghost use Rattle.std.specs.Prelude.{◌≡◌, IfErr, OnOk};
ghost use Rattle.dw_base.specs.Refusals.{Blames};
ghost use Rattle.dw_offsets.specs.PathSlots.{FieldsShared, FieldsStay, slots_in};
ghost use Rattle.dw_read.specs.FoundPaths.{FieldsFound, MapRefuses, PathsFound};
ghost use Rattle.dw_read.specs.SlotPaths.{AreSlots, first_fields};

use crate::all_fields::Fields;
use crate::rooms::all_rooms_fit;
use dw_base::{DebugSection, Fault};
use dw_lines::LineTable;
use dw_offsets::{OffsetField, SlotMarks, check_shared};
use dw_paths::Maps;
use dw_unit_fields::SectionFields;
use dw_view::View;
use std::alloc::Global;

/// Tests that a map can be applied to the paths that were found in the debug data of the view, whose line tables are these. Refused as
/// `InlineGrows` where a path that stands in its value would be longer, at it, and as `SharedIndex` at a slot that a path whose text changes
/// names, and another value too.
#[tactic(auto, using(crate::proofs::MapCheckLaws::check_rules))]
pub fn check_map(
    alloc: Global,
    view: &View,
    maps: &Maps,
    fields: &Fields,
    marks: &SlotMarks,
    tables: &[LineTable],
) -> Result<(), Fault>
    requires found { FieldsFound view.now fields.now marks.now tables.now }
    ensures found { OnOk result (PathsFound maps.now view.now fields.now tables.now) }
    ensures refused { IfErr result (Blames (MapRefuses maps.now view.now)) }
{
    all_rooms_fit(view, maps, fields.units())?;
    slots_stay(alloc, view, maps, fields.slots(), marks)?;
    Ok(())
}

/// Tests that no slot is shared, where this was found of the section of string offsets.
#[tactic(auto, using(crate::proofs::MapCheckLaws::slot_rules))]
fn slots_stay(
    alloc: Global,
    view: &View,
    maps: &Maps,
    found: &[SectionFields],
    marks: &SlotMarks,
) -> Result<(), Fault>
    requires slots { AreSlots view.now found.now }
    ensures stay { OnOk result (FieldsStay maps.now (slots_in view.now) marks.now (first_fields found.now)) }
    ensures refused { IfErr result (Blames (FieldsShared maps.now (slots_in view.now) marks.now (first_fields found.now))) }
{
    let Some(section) = view.first(DebugSection::StrOffsets) else {
        return Ok(());
    };
    check_shared(alloc, view, maps, section, first_fields(found), marks)
}

/// The fields of texts of the first of these sections, none where there is none.
#[tactic(auto, using(crate::proofs::MapCheckLaws::first_rules))]
fn first_fields(found: &[SectionFields]) -> &[OffsetField]
    ensures { result.now ≡ first_fields found.now }
{
    match found.first() {
        Some(section) => section.fields(DebugSection::Str),
        None => &[],
    }
}
