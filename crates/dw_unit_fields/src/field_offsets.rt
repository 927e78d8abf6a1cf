//! The offsets that fields of a view hold (gABI ch. 4 "Relocation"; DWARF 5, 7.4 and 7.5.5).
//!
//! Read first: `specs/FieldOffsets.antt`, then `specs/PlainSections.antt`.

ghost use Rattle.std.specs.Prelude.{◌≡◌, ◌⊎◌, ◌+◌, ◌<◌, ◌≤◌, true, length, IfErr, IfNone, IfOk, IfSome, OnOk};
ghost use Rattle.dw_base.specs.Cells.{cells_at, field_of, is_placed, offset_into, offset_of};
ghost use Rattle.dw_base.specs.FileViews.{field_at, section_bytes, view_cells};
ghost use Rattle.dw_base.specs.RelocationRows.{OffsetFails, field_place, offset_field};
ghost use Rattle.dw_base.specs.ViewData.{located};
ghost use Rattle.dw_unit_fields.specs.Fields.{IsStartField};
ghost use Rattle.dw_unit_fields.specs.PlainSections.{IsNotPlain, IsPlain};

use dw_base::{DebugSection, Field, Refusal};
use dw_offsets::OffsetField;
use dw_view::{SectionBytes, View};

/// The bytes of the section of a number, where it is one that is read and no relocation begins in it, as in all of a linked file: a field is
/// the number in them. None where it isn't read, or a relocation begins in it.
#[tactic(auto, using(crate::proofs::PlainLaws::plain_rules))]
pub fn plain_bytes<'v>(view: &'v View, section: u32) -> Option<&'v [u8]>
    requires there { section < length view.now.sections }
    ensures plain { IfSome result (λ b. IsPlain view.now section b.now) }
    ensures none { IfNone result (IsNotPlain view.now section) }
{
    match view.kind(section) {
        Some(_) => match view.next_relocation(section, 0) {
            Some(_) => None,
            None => Some(view.bytes(section)),
        },
        None => None,
    }
}

/// The offset that a field holds into a section: one into another section counts as past it. Refused as
/// `Relocation` where a relocation lies on the field only in part, at that, and where the one at it gives no place, at the field.
#[tactic(auto, using(crate::proofs::FieldOffsetLaws::field_rules))]
pub(crate) fn offset_at(
    view: &View,
    section: u32,
    at: u64,
    size: u8,
    into: &SectionBytes,
) -> Result<u64, Refusal>
    requires there { section < length view.now.sections }
    requires some { 0 < size }
    requires wide { size ≤ 8 }
    requires inside { at + size ≤ length (section_bytes view.now section) }
    ensures offset { IfOk result (λ n. n ≡ offset_into into.now (field_at view.now section at size)) }
    ensures placed { OnOk result (is_placed (field_at view.now section at size) ≡ true) }
    ensures refused { IfErr result (OffsetFails view.now.order section (view_cells view.now section) (field_place at size offset_field)) }
{
    let read = view.offset(section, at, size)?;
    Ok(into.offset(read))
}

/// The offset that a field of four or eight bytes holds, by the cells of its section.
#[tactic(auto, using(crate::proofs::FieldOffsetLaws::value_rules))]
pub(crate) fn cells_offset(
    view: &View,
    section: u32,
    at: u64,
    size: u8,
    into: &SectionBytes,
) -> Result<u64, Refusal>
    requires there { section < length view.now.sections }
    requires sized { (size ≡ 4) ⊎ (size ≡ 8) }
    requires lies { at + size ≤ length (view_cells view.now section) }
    ensures offset { IfOk result (λ n. n ≡ offset_of view.now.order into.now (cells_at (view_cells view.now section) at size)) }
    ensures placed { OnOk result (is_placed (field_of view.now.order (cells_at (view_cells view.now section) at size)) ≡ true) }
    ensures refused { IfErr result (OffsetFails view.now.order section (view_cells view.now section) (field_place at size offset_field)) }
{
    let offset = offset_at(view, section, at, size, into)?;
    Ok(offset)
}

/// The offset that a field holds into the first section of a name.
#[tactic(auto, using(crate::proofs::FieldOffsetLaws::section_rules))]
pub(crate) fn section_offset(
    view: &View,
    section: u32,
    field: OffsetField,
    of: DebugSection,
) -> Result<u64, Refusal>
    requires there { section < length view.now.sections }
    requires field { IsStartField (section_bytes view.now section) field }
    ensures offset { IfOk result (λ n. n ≡ offset_of view.now.order (located view.now of) (cells_at (view_cells view.now section) field.at field.size)) }
    ensures placed { OnOk result (is_placed (field_of view.now.order (cells_at (view_cells view.now section) field.at field.size)) ≡ true) }
    ensures refused { IfErr result (OffsetFails view.now.order section (view_cells view.now section) (field_place field.at field.size offset_field)) }
{
    let into = view.located(of);
    let offset = cells_offset(view, section, field.at, field.size, &into)?;
    Ok(offset)
}

/// What such a field reads as: a number or a place.
#[tactic(auto, using(crate::proofs::FieldOffsetLaws::read_rules))]
pub(crate) fn cells_field(view: &View, section: u32, field: OffsetField) -> Result<Field, Refusal>
    requires there { section < length view.now.sections }
    requires field { IsStartField (section_bytes view.now section) field }
    ensures field { IfOk result (λ f. f ≡ field_of view.now.order (cells_at (view_cells view.now section) field.at field.size)) }
    ensures placed { OnOk result (is_placed (field_of view.now.order (cells_at (view_cells view.now section) field.at field.size)) ≡ true) }
    ensures refused { IfErr result (OffsetFails view.now.order section (view_cells view.now section) (field_place field.at field.size offset_field)) }
{
    let read = view.offset(section, field.at, field.size)?;
    Ok(read)
}
