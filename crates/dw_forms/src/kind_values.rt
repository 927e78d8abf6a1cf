//! The value of a kind at a place, one function for each way in which values stand
//! (DWARF 5, 7.5.5 and 7.5.6).

ghost use Rattle.std.specs.Prelude.{◌≡◌, ◌+◌, ◌<◌, ◌≤◌, length, IfSome, IsTrue};
ghost use Rattle.dw_base.specs.Forms.{width_size};
ghost use Rattle.dw_base.specs.Lebs.{sleb_at, uleb_at};
ghost use Rattle.dw_base.specs.Numbers.{number_at};
ghost use Rattle.dw_base.specs.Values.{bare_value, block_value, counted_leb_value, counted_value, leb_value_at, number_value, signed_bits, signed_value_at, text_value, value_of};
ghost use Rattle.dw_base.specs.UnitHeaders.{is_address_size};
ghost use Rattle.dw_forms.specs.Kinds.{as_kind, HasFields};

use crate::kinds::FormKind;
use dw_base::{Order, Params, Value, ValueClass, number_at, sleb_at, uleb_at};
use dw_strings::text_at;

/// A number of a class, in `size` bytes.
fn number_value(order: Order, class: ValueClass, bytes: &[u8], at: u64, size: u8) -> Option<Value>
    requires some { 0 < size }
    requires few { size ≤ 8 }
    ensures value { result ≡ number_value class at size (number_at order bytes.now at size) }
    ensures inside { IfSome result (λ v. at + v.size ≤ length bytes.now) }
{
    let number = number_at(order, bytes, at, size)?;
    let size = u64::from(size);
    Some(Value {
        class,
        number,
        at,
        len: size,
        size,
    })
}

/// An offset of a class.
fn offset_value(params: &Params, class: ValueClass, bytes: &[u8], at: u64) -> Option<Value>
    ensures value { result ≡ number_value class at (width_size params.now.width) (number_at params.now.order bytes.now at (width_size params.now.width)) }
    ensures inside { IfSome result (λ v. at + v.size ≤ length bytes.now) }
{
    number_value(params.order, class, bytes, at, params.width.offset_size())
}

/// A number of a class, in LEB128.
fn leb_value(class: ValueClass, bytes: &[u8], at: u64) -> Option<Value>
    ensures value { result ≡ leb_value_at class at (uleb_at bytes.now at) }
    ensures inside { IfSome result (λ v. at + v.size ≤ length bytes.now) }
{
    let (number, size) = uleb_at(bytes, at)?;
    Some(Value {
        class,
        number,
        at,
        len: size,
        size,
    })
}

/// A signed number, in LEB128.
fn signed_value(bytes: &[u8], at: u64) -> Option<Value>
    ensures value { result ≡ signed_value_at at (sleb_at bytes.now at) }
    ensures inside { IfSome result (λ v. at + v.size ≤ length bytes.now) }
{
    let (number, size) = sleb_at(bytes, at)?;
    Some(Value {
        class: ValueClass::Signed,
        number: number_of_signed(number),
        at,
        len: size,
        size,
    })
}

/// The 64-bit two's complement of a signed number.
fn number_of_signed(number: i64) -> u64
    ensures bits { result ≡ signed_bits number }
{
    number.cast_unsigned()
}

/// `len` bytes, behind their count of `front` bytes.
fn block_value(bytes: &[u8], at: u64, front: u64, len: u64) -> Option<Value>
    ensures value { result ≡ block_value bytes.now at front len }
    ensures inside { IfSome result (λ v. at + v.size ≤ length bytes.now) }
{
    let end = bytes.len() as u64;
    if at > end || front > end - at {
        return None;
    }
    if len > end - at - front {
        return None;
    }
    Some(Value {
        class: ValueClass::Bytes,
        number: 0,
        at: at + front,
        len,
        size: front + len,
    })
}

/// Bytes behind their count, which has `size` bytes.
fn counted_value(order: Order, bytes: &[u8], at: u64, size: u8) -> Option<Value>
    requires some { 0 < size }
    requires few { size ≤ 8 }
    ensures value { result ≡ counted_value bytes.now at size (number_at order bytes.now at size) }
    ensures inside { IfSome result (λ v. at + v.size ≤ length bytes.now) }
{
    match number_at(order, bytes, at, size) {
        Some(len) => block_value(bytes, at, u64::from(size), len),
        None => None,
    }
}

/// Bytes behind their count in LEB128.
fn counted_leb_value(bytes: &[u8], at: u64) -> Option<Value>
    ensures value { result ≡ counted_leb_value bytes.now at (uleb_at bytes.now at) }
    ensures inside { IfSome result (λ v. at + v.size ≤ length bytes.now) }
{
    match uleb_at(bytes, at) {
        Some((len, front)) => block_value(bytes, at, front, len),
        None => None,
    }
}

/// A text with its NUL.
#[tactic(auto, using(crate::proofs::ReadLaws::text_laws))]
fn text_value(bytes: &[u8], at: u64) -> Option<Value>
    ensures value { result ≡ text_value bytes.now at }
    ensures inside { IfSome result (λ v. at + v.size ≤ length bytes.now) }
{
    match text_at(0, bytes, at) {
        Ok(text) => Some(Value {
            class: ValueClass::InlineText,
            number: 0,
            at,
            len: text.len() as u64,
            size: text.len() as u64 + 1,
        }),
        Err(_) => None,
    }
}

/// A value without bytes.
fn bare_value(bytes: &[u8], at: u64, class: ValueClass, number: u64) -> Option<Value>
    ensures value { result ≡ bare_value bytes.now at class number }
    ensures inside { IfSome result (λ v. at + v.size ≤ length bytes.now) }
{
    if at > bytes.len() as u64 {
        return None;
    }
    Some(Value {
        class,
        number,
        at,
        len: 0,
        size: 0,
    })
}

/// The value of a kind at a place. `None` exactly where none ends in the bytes.
#[tactic(auto, unfolding(dw_base::specs::Values::value_of))]
pub(crate) fn value_of_kind(
    kind: FormKind,
    params: &Params,
    bytes: &[u8],
    at: u64,
    implicit: i64,
) -> Option<Value>
    requires address { IsTrue (is_address_size params.now.address) }
    requires fields { HasFields kind }
    ensures value { result ≡ value_of (as_kind params.now kind) params.now.order bytes.now at implicit }
    ensures inside { IfSome result (λ v. at + v.size ≤ length bytes.now) }
{
    match kind {
        FormKind::Number(class, size) => {
            number_value(params.order, class, bytes, at, size.bytes(params))
        }
        FormKind::LebNumber(class) => leb_value(class, bytes, at),
        FormKind::SignedLeb => signed_value(bytes, at),
        FormKind::Block(size) => block_value(bytes, at, 0, u64::from(size)),
        FormKind::Counted(size) => counted_value(params.order, bytes, at, size),
        FormKind::CountedLeb => counted_leb_value(bytes, at),
        FormKind::InlineText => text_value(bytes, at),
        FormKind::StrOffset => offset_value(params, ValueClass::StrOffset, bytes, at),
        FormKind::LineStrOffset => offset_value(params, ValueClass::LineStrOffset, bytes, at),
        FormKind::Present => bare_value(bytes, at, ValueClass::Flag, 1),
        FormKind::InAbbreviation => {
            bare_value(bytes, at, ValueClass::Signed, number_of_signed(implicit))
        }
        FormKind::FormInFront | FormKind::Supplementary | FormKind::Unlisted => None,
    }
}
