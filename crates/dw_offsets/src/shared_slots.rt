//! Slots that a path and another value share (DWARF 5, 7.26).
//!
//! This file promises: slots are refused exactly where a path whose text changes names one, and another value does too. One pass; a text is
//! read only where a path and another value name its slot.

ghost use Rattle.std.specs.Prelude.{◌≡◌, ◌<◌, Some, length, IfErr, OnOk};
ghost use Rattle.dw_base.specs.DebugSections.{name_of};
ghost use Rattle.dw_base.specs.FileViews.{section_named};
ghost use Rattle.dw_base.specs.Refusals.{Blames};
ghost use Rattle.dw_offsets.specs.PathSlots.{AreSlotFields, FieldShared, FieldStays, FieldsShared, FieldsStay, IsSlotField, slots_in};

use crate::fields::OffsetField;
use crate::slot_fields::{Table, table_of};
use crate::slot_marks::SlotMarks;
use dw_base::{DebugSection, Fault, Kind};
use dw_paths::Maps;
use dw_view::View;
use std::alloc::Global;

/// Tests that no slot is shared by a path whose text changes and another value. `fields` are those of slots of a view, whose section of
/// string offsets has this number, and `marks` says which slots other values than paths name. Refused as `SharedIndex` only at a slot that is
/// shared so.
#[tactic(auto, using(crate::proofs::SharedSlotLaws::shared_laws))]
pub fn check_shared(
    alloc: Global,
    view: &View,
    maps: &Maps,
    section: u32,
    fields: &[OffsetField],
    marks: &SlotMarks,
) -> Result<(), Fault>
    requires there { section < length view.now.sections }
    requires found { Some section ≡ section_named view.now (name_of DebugSection.StrOffsets) }
    requires fields { AreSlotFields (slots_in view.now) fields.now }
    ensures stay { OnOk result (FieldsStay maps.now (slots_in view.now) marks.now fields.now) }
    ensures refused { IfErr result (Blames (FieldsShared maps.now (slots_in view.now) marks.now fields.now)) }
{
    let table = table_of(view, section);
    fields_stay(alloc, &table, maps, fields, marks)
}

/// The same of the fields of a table.
#[tactic(auto, using(crate::proofs::SharedSlotLaws::fields_laws))]
fn fields_stay(
    alloc: Global,
    table: &Table,
    maps: &Maps,
    fields: &[OffsetField],
    marks: &SlotMarks,
) -> Result<(), Fault>
    requires fields { AreSlotFields table.now fields.now }
    ensures stay { OnOk result (FieldsStay maps.now table.now marks.now fields.now) }
    ensures refused { IfErr result (Blames (FieldsShared maps.now table.now marks.now fields.now)) }
{
    for field in fields {
        field_stays(alloc, table, maps, *field, marks)?;
    }
    Ok(())
}

/// The same of one field.
#[tactic(auto, using(crate::proofs::SharedSlotLaws::field_laws))]
fn field_stays(
    alloc: Global,
    table: &Table,
    maps: &Maps,
    field: OffsetField,
    marks: &SlotMarks,
) -> Result<(), Fault>
    requires field { IsSlotField table.now field }
    ensures stays { OnOk result (FieldStays maps.now table.now marks.now field) }
    ensures refused { IfErr result (Blames (FieldShared maps.now table.now marks.now field)) }
{
    if !field.path {
        return Ok(());
    }
    if !marks.is_marked(field.at, false) {
        return Ok(());
    }
    let value = table.value(field);
    if !table.stays(alloc, maps, value)? {
        return Err(table.refusal(Kind::SharedIndex, field.at).into());
    }
    Ok(())
}
