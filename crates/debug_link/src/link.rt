//! Debug links: the contents of `.gnu_debuglink` (GNU debugging information in separate files).
//!
//! `link_bytes` writes the defined bytes. `read_link` answers name and sum, and `None` exactly where the
//! bytes hold no link; it takes no memory.

ghost use Rattle.std.specs.Prelude.{◌≡◌, ◌↔◌, ◌+◌, ◌++◌, ◌<◌, ◌≤◌, false, true, length, ◌==◌, IsTrue, IsSome, IfOk, OnOk, IfSome, MatchOption};
ghost use Rattle.dw_base.specs.Layout.{padding};
ghost use Rattle.dw_base.specs.Numbers.{number_bytes};
ghost use Rattle.dw_base.specs.Texts.{has_nul, text};
ghost use Rattle.debug_link.specs.Links.{link_of, holds_link, IsLink};

use dw_base::{NoMemory, Order, nul_in, number_in};
use std::alloc::Global;

/// The contents of a link to a debug file of this base name and this CRC-32: the name, a NUL, zeros up
/// to a multiple of 4, and the sum in 4 bytes. A name without a NUL is read back, with its sum.
pub fn link_bytes(alloc: Global, order: Order, name: &[u8], sum: u32) -> Result<Vec<u8>, NoMemory>
    ensures value { IfOk result (λ bytes. bytes.items ≡ link_of order name.now sum) }
    ensures read_back { has_nul name.now ≡ false → IfOk result (λ bytes. IsLink order bytes.items name.now sum) }
{
    let bytes = link_contents(alloc, order, name, sum)?;
    Ok(bytes)
}

/// The bytes of a link.
#[tactic(auto, using(crate::proofs::LinkLaws::contents_rules), unfolding(crate::specs::Links::link_of))]
fn link_contents(alloc: Global, order: Order, name: &[u8], sum: u32) -> Result<Vec<u8>, NoMemory>
    ensures value { IfOk result (λ bytes. bytes.items ≡ link_of order name.now sum) }
{
    let mut bytes = Vec::from_slice(alloc, name)?;
    bytes.extend_from_slice(b"\0")?;
    let zeros = padding_at(bytes.len());
    bytes.resize(bytes.len() + zeros, 0)?;
    append_sum(&mut bytes, order, sum)?;
    Ok(bytes)
}

/// How many zeros lead from a place to the next multiple of 4.
#[tactic(auto, unfolding(dw_base::specs::Layout::padding))]
fn padding_at(place: usize) -> usize
    ensures value { result ≡ padding place 4 }
    ensures small { result ≤ 3 }
{
    let over = place % 4;
    if over == 0 { 0 } else { 4 - over }
}

/// Appends a sum in 4 bytes.
fn append_sum(bytes: &mut Vec<u8>, order: Order, sum: u32) -> Result<(), NoMemory>
    ensures value { OnOk result (bytes.new.items ≡ bytes.old.items ++ number_bytes order 4 sum) }
{
    let field = match order {
        Order::Little => sum.to_le_bytes(),
        Order::Big => sum.to_be_bytes(),
    };
    bytes.extend_from_slice(&field)?;
    Ok(())
}

/// The name and the sum of a link. `None` exactly where no NUL ends a name, or the sum behind it, at the
/// next multiple of 4, doesn't fit.
#[tactic(auto, using(crate::proofs::LinkLaws::read_rules))]
pub fn read_link(order: Order, bytes: &[u8]) -> Option<(&[u8], u32)>
    ensures some { IsSome result ↔ IsTrue (holds_link bytes.now) }
    ensures value { IfSome result (λ link. IsLink order bytes.now link.0.now link.1) }
{
    match name_len(bytes) {
        Some(len) => read_named(order, bytes, len),
        None => None,
    }
}

/// The name of this length and the sum behind it, where that fits.
#[tactic(auto, using(crate::proofs::LinkLaws::named_rules))]
fn read_named(order: Order, bytes: &[u8], len: usize) -> Option<(&[u8], u32)>
    requires ends { has_nul bytes.now ≡ true }
    requires len { len ≡ length (text bytes.now) }
    ensures some { IsSome result ↔ IsTrue (holds_link bytes.now) }
    ensures value { IfSome result (λ link. IsLink order bytes.now link.0.now link.1) }
{
    let behind = len + 1;
    let place = behind + padding_at(behind);
    if place + 4 > bytes.len() {
        return None;
    }
    let sum = number_in(order, bytes, place as u64, 4) as u32;
    Some((&bytes[..len], sum))
}

/// How long the name in front of the first NUL is.
#[tactic(auto, using(crate::proofs::LinkLaws::len_rules))]
fn name_len(bytes: &[u8]) -> Option<usize>
    ensures value { MatchOption result (has_nul bytes.now ≡ false) (λ len. (has_nul bytes.now ≡ true) × (len ≡ length (text bytes.now))) }
{
    match nul_in(bytes) {
        Some(len) => Some(len),
        None => None,
    }
}
