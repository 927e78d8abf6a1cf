//! The header of a macro unit (DWARF 5, 6.3.1).
//!
//! This file promises: a header that is given stands at the place, and none is given only where none that a
//! unit may have stands there.

ghost use Rattle.std.specs.Prelude.{◌≡◌, ◌+◌, ◌≤◌, ◌<◌, ◌^◌, length, IfSome};
ghost use Rattle.dw_base.specs.MacroHeaders.{has_flag, header_by, header_of, is_macro_version, macro_header, width_by};
ghost use Rattle.dw_macros.specs.HeaderRooms.{HasLineRoom};

use dw_base::macro_numbers::{
    DEBUG_LINE_OFFSET_FLAG, OFFSET_SIZE_FLAG, OPCODE_OPERANDS_TABLE_FLAG,
};
use dw_base::{MacroHeader, Order, Width, number_in};

/// The flags have a flag.
fn has_flag(flags: u8, flag: u8) -> bool
    ensures { result ≡ has_flag flags flag }
{
    flags & flag != 0
}

/// How wide offsets are.
fn width_by(wide: bool) -> Width
    ensures { result ≡ width_by wide }
{
    if wide { Width::W64 } else { Width::W32 }
}

/// A unit may have this version.
fn is_macro_version(version: u16) -> bool
    ensures { result ≡ is_macro_version version }
{
    version == 4 || version == 5
}

/// A header whose version and flags end at a place.
#[tactic(auto, unfolding(dw_base::specs::MacroHeaders::header_by))]
fn header_by(
    bytes: &[u8],
    version: u16,
    width: Width,
    has_line: bool,
    place: u64,
) -> Option<MacroHeader>
    requires inside { place ≤ length bytes.now }
    requires small { length bytes.now ≤ 2 ^ 31 }
    ensures header { result ≡ header_by bytes.now version width has_line place }
    ensures behind { IfSome result (λ h. place ≤ h.first) }
    ensures within { IfSome result (λ h. h.first ≤ length bytes.now) }
    ensures room { IfSome result (λ h. HasLineRoom bytes.now h) }
{
    if !has_line {
        return Some(MacroHeader {
            version,
            width,
            has_line,
            line_field: 0,
            first: place,
        });
    }
    let first = place + u64::from(width.offset_size());
    if first > bytes.len() as u64 {
        return None;
    }
    Some(MacroHeader {
        version,
        width,
        has_line,
        line_field: place,
        first,
    })
}

/// A header of a version and flags that end at a place.
#[tactic(auto, unfolding(dw_base::specs::MacroHeaders::header_of))]
fn header_of(bytes: &[u8], version: u16, flags: u8, place: u64) -> Option<MacroHeader>
    requires inside { place ≤ length bytes.now }
    requires small { length bytes.now ≤ 2 ^ 31 }
    ensures header { result ≡ header_of bytes.now version flags place }
    ensures behind { IfSome result (λ h. place ≤ h.first) }
    ensures within { IfSome result (λ h. h.first ≤ length bytes.now) }
    ensures room { IfSome result (λ h. HasLineRoom bytes.now h) }
{
    if !is_macro_version(version) {
        return None;
    }
    if has_flag(flags, OPCODE_OPERANDS_TABLE_FLAG) {
        return None;
    }
    let width = width_by(has_flag(flags, OFFSET_SIZE_FLAG));
    header_by(
        bytes,
        version,
        width,
        has_flag(flags, DEBUG_LINE_OFFSET_FLAG),
        place,
    )
}

/// The header at a place of a section. `None` exactly where none that a unit may have stands there.
#[tactic(auto, unfolding(dw_base::specs::MacroHeaders::macro_header))]
pub(crate) fn macro_header(order: Order, bytes: &[u8], start: u64) -> Option<MacroHeader>
    requires inside { start ≤ length bytes.now }
    requires small { length bytes.now ≤ 2 ^ 31 }
    ensures header { result ≡ macro_header order bytes.now start }
    ensures behind { IfSome result (λ h. start < h.first) }
    ensures within { IfSome result (λ h. h.first ≤ length bytes.now) }
    ensures room { IfSome result (λ h. HasLineRoom bytes.now h) }
{
    if start + 3 > bytes.len() as u64 {
        return None;
    }
    let version = number_in(order, bytes, start, 2) as u16;
    let flags = bytes[start as usize + 2];
    header_of(bytes, version, flags, start + 3)
}
