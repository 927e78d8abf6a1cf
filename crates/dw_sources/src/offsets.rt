//! The offsets that fields of units and slots hold into other sections (DWARF 5, 7.5.5 and 7.26; gABI ch. 4 "Relocation").
//!
//! Read first: `specs/FieldOffsets.antt`.

ghost use Rattle.std.specs.Prelude.{◌≡◌, ◌+◌, ◌≤◌, ◌<◌, true, length, is_some};
ghost use Rattle.dw_base.specs.FileViews.{kind_at, section_bytes, view_cells};
ghost use Rattle.dw_base.specs.RelocationFields.{field_in};
ghost use Rattle.dw_base.specs.ViewData.{located};
ghost use Rattle.dw_entries.specs.Fronts.{IsOfView};
ghost use Rattle.dw_entries.specs.ViewUnits.{unit_section_at};
ghost use Rattle.dw_sources.specs.FieldOffsets.{field_offset, lies_in, offset_with, root_offset, spelled_offset, value_offset};

use dw_base::{DebugSection, Field, Value, number_in};
use dw_offsets::first_bytes;
use dw_view::View;

/// The number of the first section of a kind, 0 where there is none.
#[tactic(auto, using(dw_offsets::proofs::PathSlotLaws::located_laws))]
pub(crate) fn first_number(view: &View, section: DebugSection) -> u32
    ensures number { result ≡ (located view.now section).number }
{
    match view.first(section) {
        Some(number) => number,
        None => 0,
    }
}

/// The offset into the section of a kind that a field holds from which a number was read.
#[tactic(auto, using(crate::proofs::OffsetLaws::with_rules))]
fn offset_with(view: &View, kind: DebugSection, number: u64, field: Field) -> u64
    ensures offset { result ≡ offset_with (located view.now kind) number field }
{
    let past = first_bytes(view, kind).len() as u64;
    match field {
        Field::Num(_) => number,
        Field::Into { section, offset } => {
            if section != first_number(view, kind) {
                return past;
            }
            offset
        }
        Field::Sym { .. } => past,
    }
}

/// The offset into the section of a kind that the field at a place of a section holds, from which a number was read; none
/// where a relocation lies on it only in part.
#[tactic(auto, using(crate::proofs::OffsetLaws::field_rules))]
pub(crate) fn field_offset(
    view: &View,
    section: u32,
    at: u64,
    size: u8,
    kind: DebugSection,
    number: u64,
) -> Option<u64>
    requires there { section < length view.now.sections }
    requires read { is_some (kind_at view.now section) ≡ true }
    requires some { 0 < size }
    requires wide { size ≤ 8 }
    requires inside { at + size ≤ length (section_bytes view.now section) }
    ensures value { result ≡ field_offset (located view.now kind) number (field_in view.now.order section (view_cells view.now section) at size) }
{
    match view.field(section, at, size) {
        Ok(field) => Some(offset_with(view, kind, number, field)),
        Err(_) => None,
    }
}

/// A value lies in the bytes up to its unit's end.
fn lies_in(bytes: &[u8], value: &Value) -> bool
    ensures value { result ≡ lies_in bytes.now value.now }
{
    let len = bytes.len() as u64;
    if value.len > len {
        return false;
    }
    value.at <= len - value.len
}

/// The offset that a value of `size` bytes holds into the section of a kind: that of its field, where these bytes spell its
/// number, and else the number.
#[tactic(auto, using(crate::proofs::OffsetLaws::spelled_rules))]
fn spelled_offset(
    view: &View,
    section: u32,
    kind: DebugSection,
    value: &Value,
    size: u8,
) -> Option<u64>
    requires unit { IsOfView view.now section (unit_section_at view.now section) }
    requires some { 0 < size }
    requires wide { size ≤ 8 }
    requires inside { value.now.at + size ≤ length (section_bytes view.now section) }
    ensures value { result ≡ spelled_offset view.now.order (unit_section_at view.now section) (located view.now kind) value.now size }
{
    let number = number_in(view.order(), view.bytes(section), value.at, size);
    if number != value.number {
        return Some(value.number);
    }
    field_offset(view, section, value.at, size, kind, value.number)
}

/// The offset that a value holds into the section of a kind, of a unit with these bytes up to its end.
#[tactic(auto, using(crate::proofs::OffsetLaws::value_rules))]
pub(crate) fn value_offset(
    view: &View,
    section: u32,
    bytes: &[u8],
    kind: DebugSection,
    value: &Value,
) -> Option<u64>
    requires unit { IsOfView view.now section (unit_section_at view.now section) }
    requires inside { length bytes.now ≤ length (section_bytes view.now section) }
    ensures value { result ≡ value_offset view.now.order (unit_section_at view.now section) (located view.now kind) bytes.now value.now }
{
    if !lies_in(bytes, value) {
        return Some(value.number);
    }
    if value.len == 4 {
        let offset = spelled_offset(view, section, kind, value, 4);
        return offset;
    }
    if value.len == 8 {
        let offset = spelled_offset(view, section, kind, value, 8);
        return offset;
    }
    Some(value.number)
}

/// The same, of a value that may be there.
pub(crate) fn root_offset(
    view: &View,
    section: u32,
    bytes: &[u8],
    kind: DebugSection,
    value: Option<Value>,
) -> Option<u64>
    requires unit { IsOfView view.now section (unit_section_at view.now section) }
    requires inside { length bytes.now ≤ length (section_bytes view.now section) }
    ensures value { result ≡ root_offset view.now.order (unit_section_at view.now section) (located view.now kind) bytes.now value }
{
    match value {
        Some(value) => value_offset(view, section, bytes, kind, &value),
        None => None,
    }
}
