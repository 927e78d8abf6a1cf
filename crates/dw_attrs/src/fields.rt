//! What fields of a view read as: those of values, and whether they are there.
//!
//! Read first: `specs/UnitValues.antt`.

ghost use Rattle.std.specs.Prelude.{◌≡◌, ◌+◌, ◌<◌, length, nat_le, true};
ghost use Rattle.dw_base.specs.FileViews.{address_at, field_at};
ghost use Rattle.dw_attrs.specs.UnitValues.{address_field, has_field, is_leb_form, number_field};
ghost use Rattle.dw_attrs.specs.UnitReads.{BytesFit};

use dw_base::dwarf_numbers::{
    DW_FORM_addrx, DW_FORM_loclistx, DW_FORM_ref_udata, DW_FORM_rnglistx, DW_FORM_strx,
    DW_FORM_udata,
};
use dw_base::{Field, Value};
use dw_view::View;

/// So many bytes at a place are there.
#[tactic(auto, using(crate::proofs::FieldPlaceLaws::room_laws))]
pub(crate) fn has_room(bytes: &[u8], at: u64, size: u64) -> bool
    ensures room { result ≡ nat_le (at + size) (length bytes.now) }
{
    let len = bytes.len() as u64;
    if at > len {
        return false;
    }
    size <= len - at
}

/// A value has 1 to 8 bytes, which stand in these.
#[tactic(auto, using(crate::proofs::FieldPlaceLaws::has_laws))]
fn has_field(bytes: &[u8], value: &Value) -> bool
    ensures field { result ≡ has_field bytes.now value.now }
{
    if value.len == 0 {
        return false;
    }
    if value.len > 8 {
        return false;
    }
    has_room(bytes, value.at, value.len)
}

/// A form of numbers in LEB128 (DWARF 5, 7.5.6).
fn is_leb_form(form: u64) -> bool
    ensures { result ≡ is_leb_form form }
{
    form == DW_FORM_udata
        || form == DW_FORM_ref_udata
        || form == DW_FORM_strx
        || form == DW_FORM_addrx
        || form == DW_FORM_loclistx
        || form == DW_FORM_rnglistx
}

/// What the field of a value reads as, which has one in these bytes.
#[tactic(auto, using(crate::proofs::FieldPlaceLaws::place_laws))]
fn field_of(view: &View, section: u32, bytes: &[u8], value: &Value) -> Field
    requires fits { BytesFit view.now section bytes.now }
    requires field { has_field bytes.now value.now ≡ true }
    ensures field { result ≡ field_at view.now section value.now.at value.now.len }
{
    view.value(section, value.at, value.len as u8)
}

/// What its address reads as.
#[tactic(auto, using(crate::proofs::FieldPlaceLaws::place_laws))]
fn address_of(view: &View, section: u32, bytes: &[u8], value: &Value) -> Field
    requires fits { BytesFit view.now section bytes.now }
    requires field { has_field bytes.now value.now ≡ true }
    ensures address { result ≡ address_at view.now section value.now.at value.now.len }
{
    view.address(section, value.at, value.len as u8)
}

/// What the number of a value of a form reads as: its field, but a number in LEB128 and a flag without bytes are no fields.
pub(crate) fn number_field(
    view: &View,
    section: u32,
    bytes: &[u8],
    form: u64,
    value: &Value,
) -> Field
    requires fits { BytesFit view.now section bytes.now }
    ensures field { result ≡ number_field view.now section bytes.now form value.now }
{
    if is_leb_form(form) {
        return Field::Num(value.number);
    }
    if !has_field(bytes, value) {
        return Field::Num(value.number);
    }
    field_of(view, section, bytes, value)
}

/// What the address of a value reads as.
pub(crate) fn address_field(view: &View, section: u32, bytes: &[u8], value: &Value) -> Field
    requires fits { BytesFit view.now section bytes.now }
    ensures field { result ≡ address_field view.now section bytes.now value.now }
{
    if !has_field(bytes, value) {
        return Field::Num(value.number);
    }
    address_of(view, section, bytes, value)
}
