//! LEB128 numbers (DWARF 5, 7.6) and initial lengths (DWARF 5, 7.4) at a place.
//!
//! This layer promises: value and length are those that the bytes spell, longer spellings of a value
//! too, and `None` comes exactly where no number ends in the bytes or the value needs more than 64
//! bits. An unsigned number of one byte is given at once; the bytes of others are read twice: forward to the last one, and back.
//! Read first: `specs/Lebs.antt`.

ghost use Rattle.std.specs.Prelude.{◌≡◌, ◌<◌, ◌+◌, ◌%◌, ◌≤◌, pos, ◌+ℤ◌, ◌*ℤ◌, false, length, IfSome, MatchOption};
ghost use Rattle.dw_base.specs.Lebs.{uleb_at, uleb, uleb_within, sleb_at, sleb, sleb_within, sleb_last, fits_i64, initial_length_at, IsLast, HasNoLast, IsSized};

use crate::numbers::number_at;
use crate::shared::{Order, Width};

/// The first of the first words of an initial length that say no length themselves (DWARF 5, 7.4).
pub const FIRST_RESERVED_LENGTH: u64 = 0xffff_fff0;

/// The unsigned LEB128 number at `at`, in bytes from the front: its value, and how many bytes it has.
/// `None` exactly where no byte below 0x80 follows, or the value needs more than 64 bits.
#[tactic(auto, using(crate::proofs::LebLaws::byte_rules), unfolding(crate::specs::Lebs::uleb_at))]
pub fn uleb_at(bytes: &[u8], at: u64) -> Option<(u64, u64)>
    ensures value { result ≡ uleb_at bytes.now at }
    ensures some { IfSome result (λ read. 0 < read.1) }
    ensures inside { IfSome result (λ read. at + read.1 ≤ length bytes.now) }
{
    if at >= bytes.len() as u64 {
        return None;
    }
    let first = bytes[at as usize];
    if first < 0x80 {
        return Some((u64::from(first), 1));
    }
    uleb_of(&bytes[at as usize..])
}

/// The unsigned number at the front.
#[tactic(auto, using(crate::proofs::LebLaws::leb_rules))]
fn uleb_of(front: &[u8]) -> Option<(u64, u64)>
    ensures value { result ≡ uleb_within (uleb front.now) }
    ensures sized { IfSome result (IsSized (length front.now)) }
{
    match last_byte(front) {
        Some(last) => uleb_to(front, last),
        None => None,
    }
}

/// The unsigned number that ends with the byte `last`.
fn uleb_to(front: &[u8], last: usize) -> Option<(u64, u64)>
    requires found { IsLast front.now last }
    ensures value { result ≡ uleb_within (uleb front.now) }
    ensures sized { IfSome result (IsSized (length front.now)) }
{
    let mut value = u64::from(front[last]);
    let mut i = last;
    'bytes: while i > 0 {
        i -= 1;
        if value >= 1 << 57 {
            return None;
        }
        value = u64::from(front[i] % 128) + 128 * value;
    }
    Some((value, last as u64 + 1))
}

/// The signed LEB128 number at `at`, in bytes from the front: its value, and how many bytes it has.
/// `None` exactly where no byte below 0x80 follows, or the value needs more than 64 bits.
#[tactic(auto, unfolding(crate::specs::Lebs::sleb_at))]
pub fn sleb_at(bytes: &[u8], at: u64) -> Option<(i64, u64)>
    ensures value { result ≡ sleb_at bytes.now at }
    ensures some { IfSome result (λ read. 0 < read.1) }
    ensures inside { IfSome result (λ read. at + read.1 ≤ length bytes.now) }
{
    if at > bytes.len() as u64 {
        return None;
    }
    sleb_of(&bytes[at as usize..])
}

/// The signed number at the front.
#[tactic(auto, using(crate::proofs::LebLaws::leb_rules))]
fn sleb_of(front: &[u8]) -> Option<(i64, u64)>
    ensures value { result ≡ sleb_within (sleb front.now) }
    ensures sized { IfSome result (IsSized (length front.now)) }
{
    match last_byte(front) {
        Some(last) => sleb_to(front, last),
        None => None,
    }
}

/// The signed number that ends with the byte `last`.
fn sleb_to(front: &[u8], last: usize) -> Option<(i64, u64)>
    requires found { IsLast front.now last }
    ensures value { result ≡ sleb_within (sleb front.now) }
    ensures sized { IfSome result (IsSized (length front.now)) }
{
    let mut value = signed(front[last]);
    let mut i = last;
    'bytes: while i > 0 {
        i -= 1;
        match lengthened(front[i], value) {
            Some(longer) => value = longer,
            None => return None,
        }
    }
    Some((value, last as u64 + 1))
}

/// A signed number with the low seven bits of one more byte below it, where it fits 64 bits.
fn lengthened(b: u8, value: i64) -> Option<i64>
    ensures value { MatchOption result
        (fits_i64 (pos (b % 128) +ℤ pos 128 *ℤ value) ≡ false)
        (λ longer. longer ≡ pos (b % 128) +ℤ pos 128 *ℤ value) }
{
    if value >= 1 << 56 {
        return None;
    }
    if value < -(1 << 56) {
        return None;
    }
    Some(i64::from(b % 128) + 128 * value)
}

/// The last byte of a signed number as a number of seven bits.
fn signed(b: u8) -> i64
    requires low { b < 128 }
    ensures value { result ≡ sleb_last b }
{
    if b < 0x40 {
        i64::from(b)
    } else {
        i64::from(b) - 128
    }
}

/// The first byte below 0x80, which ends a number.
fn last_byte(front: &[u8]) -> Option<usize>
    ensures last { MatchOption result (HasNoLast front.now) (IsLast front.now) }
{
    for (i, b) in front.iter().enumerate() {
        if *b < 0x80 {
            return Some(i);
        }
    }
    None
}

/// The initial length at `at`, in bytes from the front: how wide the offsets are, the length, and how
/// many bytes the field has, 4 or 12. `None` exactly where the field passes the end, or its first word
/// is one of the reserved 0xfffffff0 to 0xfffffffe.
#[tactic(auto, unfolding(crate::specs::Lebs::initial_length_at, crate::specs::Numbers::number_at))]
pub fn initial_length_at(order: Order, bytes: &[u8], at: u64) -> Option<(Width, u64, u64)>
    ensures value { result ≡ initial_length_at order bytes.now at }
    ensures inside { IfSome result (λ read. at + read.2 ≤ length bytes.now) }
{
    let word = number_at(order, bytes, at, 4)?;
    if word < FIRST_RESERVED_LENGTH {
        return Some((Width::W32, word, 4));
    }
    if word != 0xffff_ffff {
        return None;
    }
    let length = number_at(order, bytes, at + 4, 8)?;
    Some((Width::W64, length, 12))
}
