//! The size of a value of a kind at a place, without the value (DWARF 5, 7.5.5 and 7.5.6).

ghost use Rattle.std.specs.Prelude.{◌≡◌, ◌+◌, ◌<◌, ◌≤◌, length, IfSome, IsTrue};
ghost use Rattle.dw_base.specs.Lebs.{sleb_at, uleb_at};
ghost use Rattle.dw_base.specs.Numbers.{number_at};
ghost use Rattle.dw_base.specs.Values.{block_value, counted_leb_value, counted_value, text_value, value_of, value_size};
ghost use Rattle.dw_base.specs.UnitHeaders.{is_address_size};
ghost use Rattle.dw_forms.specs.Kinds.{as_kind, HasFields};
ghost use Rattle.dw_forms.specs.Reads.{read_length, room_size};

use crate::kinds::FormKind;
use dw_base::{Order, Params, number_at, sleb_at, uleb_at};
use dw_strings::text_at;

/// `size` bytes.
fn room_size(bytes: &[u8], at: u64, size: u8) -> Option<u64>
    ensures size { result ≡ room_size bytes.now at size }
    ensures inside { IfSome result (λ n. at + n ≤ length bytes.now) }
{
    let end = bytes.len() as u64;
    let size = u64::from(size);
    if at > end {
        return None;
    }
    if size > end - at {
        return None;
    }
    Some(size)
}

/// A number in LEB128.
fn leb_size(bytes: &[u8], at: u64) -> Option<u64>
    ensures size { result ≡ read_length (uleb_at bytes.now at) }
    ensures inside { IfSome result (λ n. at + n ≤ length bytes.now) }
{
    let (_, size) = uleb_at(bytes, at)?;
    Some(size)
}

/// A signed number in LEB128.
fn signed_size(bytes: &[u8], at: u64) -> Option<u64>
    ensures size { result ≡ read_length (sleb_at bytes.now at) }
    ensures inside { IfSome result (λ n. at + n ≤ length bytes.now) }
{
    let (_, size) = sleb_at(bytes, at)?;
    Some(size)
}

/// `len` bytes, behind their count of `front` bytes.
fn block_size(bytes: &[u8], at: u64, front: u64, len: u64) -> Option<u64>
    ensures size { result ≡ value_size (block_value bytes.now at front len) }
    ensures inside { IfSome result (λ n. at + n ≤ length bytes.now) }
{
    let end = bytes.len() as u64;
    if at > end || front > end - at {
        return None;
    }
    if len > end - at - front {
        return None;
    }
    Some(front + len)
}

/// Bytes behind their count, which has `size` bytes.
fn counted_size(order: Order, bytes: &[u8], at: u64, size: u8) -> Option<u64>
    requires some { 0 < size }
    requires few { size ≤ 8 }
    ensures size { result ≡ value_size (counted_value bytes.now at size (number_at order bytes.now at size)) }
    ensures inside { IfSome result (λ n. at + n ≤ length bytes.now) }
{
    match number_at(order, bytes, at, size) {
        Some(len) => block_size(bytes, at, u64::from(size), len),
        None => None,
    }
}

/// Bytes behind their count in LEB128.
fn counted_leb_size(bytes: &[u8], at: u64) -> Option<u64>
    ensures size { result ≡ value_size (counted_leb_value bytes.now at (uleb_at bytes.now at)) }
    ensures inside { IfSome result (λ n. at + n ≤ length bytes.now) }
{
    match uleb_at(bytes, at) {
        Some((len, front)) => block_size(bytes, at, front, len),
        None => None,
    }
}

/// A text with its NUL.
#[tactic(auto, using(crate::proofs::ReadLaws::text_laws))]
fn text_size(bytes: &[u8], at: u64) -> Option<u64>
    ensures size { result ≡ value_size (text_value bytes.now at) }
    ensures inside { IfSome result (λ n. at + n ≤ length bytes.now) }
{
    match text_at(0, bytes, at) {
        Ok(text) => Some(text.len() as u64 + 1),
        Err(_) => None,
    }
}

/// The size of the value of a kind at a place. `None` exactly where none ends in the bytes.
#[tactic(auto, using(crate::proofs::ReadLaws::size_laws), unfolding(dw_base::specs::Values::value_of))]
pub(crate) fn size_of_kind(
    kind: FormKind,
    params: &Params,
    bytes: &[u8],
    at: u64,
    implicit: i64,
) -> Option<u64>
    requires address { IsTrue (is_address_size params.now.address) }
    requires fields { HasFields kind }
    ensures size { result ≡ value_size (value_of (as_kind params.now kind) params.now.order bytes.now at implicit) }
    ensures inside { IfSome result (λ n. at + n ≤ length bytes.now) }
{
    match kind {
        FormKind::Number(_, size) => room_size(bytes, at, size.bytes(params)),
        FormKind::LebNumber(_) => leb_size(bytes, at),
        FormKind::SignedLeb => signed_size(bytes, at),
        FormKind::Block(size) => block_size(bytes, at, 0, u64::from(size)),
        FormKind::Counted(size) => counted_size(params.order, bytes, at, size),
        FormKind::CountedLeb => counted_leb_size(bytes, at),
        FormKind::InlineText => text_size(bytes, at),
        FormKind::StrOffset | FormKind::LineStrOffset => {
            room_size(bytes, at, params.width.offset_size())
        }
        FormKind::Present => room_size(bytes, at, 0),
        FormKind::InAbbreviation => room_size(bytes, at, 0),
        FormKind::FormInFront | FormKind::Supplementary | FormKind::Unlisted => None,
    }
}
