//! Numbers of 1 to 8 bytes at a place, in either byte order (gABI ch. 4 "Data Representation").

ghost use Rattle.std.specs.Prelude.{◌≡◌, ◌<◌, ◌≤◌, ◌+◌, ◌++◌, ◌^◌, ◌↔◌, drop, length, IsTrue, IfSome, OnOk, OnSome};
ghost use Rattle.std.specs.Bool.{OnTrue, OnFalse};
ghost use Rattle.dw_base.specs.Numbers.{number_at, number_bytes, number_of, spelled, with_number, NumberFits};
ghost use Rattle.dw_base.specs.declared.shared.Order.TheVariants.{Little, Big};

use crate::shared::Order;
use byteorder::{BigEndian, ByteOrder, LittleEndian};
use std::alloc::AllocError;

/// The number that the `size` bytes from `at` spell, `at` in bytes from the front.
/// `None` exactly where these bytes pass the end.
#[tactic(auto, unfolding(crate::specs::Numbers::number_at, crate::specs::Numbers::spelled))]
pub fn number_at(order: Order, bytes: &[u8], at: u64, size: u8) -> Option<u64>
    requires some { 0 < size }
    requires wide { size ≤ 8 }
    ensures value { result ≡ number_at order bytes.now at size }
    ensures inside { OnSome result (at + size ≤ length bytes.now) }
    ensures fits { IfSome result (λ value. value < 256 ^ size) }
{
    let len = bytes.len() as u64;
    if at > len {
        return None;
    }
    if u64::from(size) > len - at {
        return None;
    }
    Some(number_in(order, bytes, at, size))
}

/// The number that the `size` bytes from `at` spell, where these bytes are there.
#[tactic(auto, using(crate::proofs::NumberLaws::number_rules), unfolding(crate::specs::Numbers::spelled))]
pub fn number_in(order: Order, bytes: &[u8], at: u64, size: u8) -> u64
    requires some { 0 < size }
    requires wide { size ≤ 8 }
    requires inside { at + size ≤ length bytes.now }
    ensures value { result ≡ spelled order bytes.now at size }
    ensures fits { result < 256 ^ size }
{
    let field = &bytes[at as usize..];
    match order {
        Order::Little => lowest_first(field, size),
        Order::Big => highest_first(field, size),
    }
}

/// The number that the first `size` bytes spell, the lowest first. The usual sizes are read at once.
fn lowest_first(field: &[u8], size: u8) -> u64
    requires some { 0 < size }
    requires wide { size ≤ 8 }
    requires inside { size ≤ length field.now }
    ensures value { result ≡ number_of Little size field.now }
{
    match size {
        1 => u64::from(field[0]),
        2 => u64::from(LittleEndian::read_u16(field)),
        4 => u64::from(LittleEndian::read_u32(field)),
        8 => LittleEndian::read_u64(field),
        _ => LittleEndian::read_uint(field, size as usize),
    }
}

/// The number that the first `size` bytes spell, the highest first. The usual sizes are read at once.
fn highest_first(field: &[u8], size: u8) -> u64
    requires some { 0 < size }
    requires wide { size ≤ 8 }
    requires inside { size ≤ length field.now }
    ensures value { result ≡ number_of Big size field.now }
{
    match size {
        1 => u64::from(field[0]),
        2 => u64::from(BigEndian::read_u16(field)),
        4 => u64::from(BigEndian::read_u32(field)),
        8 => BigEndian::read_u64(field),
        _ => BigEndian::read_uint(field, size as usize),
    }
}

/// Puts a number into the `size` bytes from `at`. `false` exactly where these bytes pass the end or
/// the number needs more; then nothing changes.
#[tactic(auto, unfolding(crate::specs::Numbers::with_number))]
pub fn put_number(order: Order, bytes: &mut [u8], at: u64, size: u8, value: u64) -> bool
    requires some { 0 < size }
    requires wide { size ≤ 8 }
    ensures fits { IsTrue result ↔ NumberFits bytes.old at size value }
    ensures put { OnTrue result (bytes.new ≡ with_number order bytes.old at size value) }
    ensures kept { OnFalse result (bytes.new ≡ bytes.old) }
{
    let len = bytes.len() as u64;
    if at > len {
        return false;
    }
    if u64::from(size) > len - at {
        return false;
    }
    if !fits_size(value, size) {
        return false;
    }
    let field = &mut bytes[at as usize..];
    match order {
        Order::Little => put_lowest_first(field, value, size),
        Order::Big => BigEndian::write_uint(field, value, size as usize),
    }
    true
}

/// Puts a number into the first `size` bytes, the lowest first. The usual sizes are put at once.
fn put_lowest_first(field: &mut [u8], value: u64, size: u8)
    requires some { 0 < size }
    requires wide { size ≤ 8 }
    requires inside { size ≤ length field.old }
    requires fits { value < 256 ^ size }
    ensures put { field.new ≡ number_bytes Little size value ++ drop size field.old }
{
    match size {
        4 => LittleEndian::write_u32(field, value as u32),
        8 => LittleEndian::write_u64(field, value),
        _ => LittleEndian::write_uint(field, value, size as usize),
    }
}

/// Whether a number fits `size` bytes.
pub fn fits_size(value: u64, size: u8) -> bool
    requires some { 0 < size }
    requires wide { size ≤ 8 }
    ensures fits { IsTrue result ↔ (value < 256 ^ size) }
{
    match size {
        1 => value < 0x100,
        2 => value < 0x1_0000,
        3 => value < 0x100_0000,
        4 => value < 0x1_0000_0000,
        5 => value < 0x100_0000_0000,
        6 => value < 0x1_0000_0000_0000,
        7 => value < 0x100_0000_0000_0000,
        _ => true,
    }
}

/// Appends the four bytes that spell a number, or its lowest four bytes where it has more.
pub fn push_word(out: &mut Vec<u8>, order: Order, value: u64) -> Result<(), AllocError>
    ensures bytes { OnOk result (out.new.items ≡ out.old.items ++ number_bytes order 4 value) }
{
    match order {
        Order::Little => out.extend_from_slice(&value.to_le_bytes()[..4]),
        Order::Big => out.extend_from_slice(&value.to_be_bytes()[4..]),
    }
}

/// Appends the eight bytes that spell a number.
pub fn push_long(out: &mut Vec<u8>, order: Order, value: u64) -> Result<(), AllocError>
    ensures bytes { OnOk result (out.new.items ≡ out.old.items ++ number_bytes order 8 value) }
{
    match order {
        Order::Little => out.extend_from_slice(&value.to_le_bytes()),
        Order::Big => out.extend_from_slice(&value.to_be_bytes()),
    }
}
