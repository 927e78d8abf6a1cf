//! The operation at a place of a macro section (DWARF 5, 6.3.2).
//!
//! This file promises: an operation that is given stands there, with the place behind it; none is given only
//! where none that a unit may have ends in the bytes.

ghost use Rattle.std.specs.Prelude.{◌≡◌, ◌+◌, ◌≤◌, ◌<◌, ◌^◌, length, IfSome};
ghost use Rattle.dw_base.specs.MacroOperations.{bring_operation, enter_behind, enter_operation, inline_behind, inline_operation, is_foreign, named_behind, named_operation, operation_at, operation_of, plain_operation};
ghost use Rattle.dw_macros.specs.OperationRooms.{HasRoom};

use dw_base::macro_numbers::{
    DW_MACRO_define, DW_MACRO_define_strp, DW_MACRO_define_sup, DW_MACRO_end_file, DW_MACRO_import,
    DW_MACRO_import_sup, DW_MACRO_start_file, DW_MACRO_undef, DW_MACRO_undef_strp,
    DW_MACRO_undef_sup, MACRO_END,
};
use dw_base::{MacroOperation, Width, uleb_at};
use dw_strings::text_at;

/// Behind the line of a definition, or of its end, the text. `None` exactly where no NUL follows.
#[tactic(auto, using(dw_forms::proofs::ReadLaws::text_laws), unfolding(dw_base::specs::MacroOperations::inline_behind))]
fn inline_behind(
    bytes: &[u8],
    defines: bool,
    line: u64,
    place: u64,
) -> Option<(MacroOperation, u64)>
    ensures operation { result ≡ inline_behind bytes.now defines line place }
    ensures behind { IfSome result (λ o. place < o.1) }
    ensures within { IfSome result (λ o. o.1 ≤ length bytes.now) }
{
    match text_at(0, bytes, place) {
        Ok(text) => {
            let len = text.len() as u64;
            let operation = MacroOperation::Inline {
                defines,
                line,
                at: place,
                len,
            };
            Some((operation, place + (len + 1)))
        }
        Err(_) => None,
    }
}

/// A definition, or its end, whose text stands inline.
#[tactic(auto, unfolding(dw_base::specs::MacroOperations::inline_operation))]
fn inline_operation(bytes: &[u8], defines: bool, place: u64) -> Option<(MacroOperation, u64)>
    ensures operation { result ≡ inline_operation bytes.now defines place }
    ensures behind { IfSome result (λ o. place < o.1) }
    ensures within { IfSome result (λ o. o.1 ≤ length bytes.now) }
{
    match uleb_at(bytes, place) {
        Some((line, size)) => inline_behind(bytes, defines, line, place + size),
        None => None,
    }
}

/// Behind the line the offset of the text. `None` exactly where it passes the end.
#[tactic(auto, unfolding(dw_base::specs::MacroOperations::named_behind))]
fn named_behind(
    bytes: &[u8],
    width: Width,
    defines: bool,
    line: u64,
    field: u64,
) -> Option<(MacroOperation, u64)>
    requires inside { field ≤ length bytes.now }
    requires small { length bytes.now ≤ 2 ^ 31 }
    ensures operation { result ≡ named_behind bytes.now width defines line field }
    ensures behind { IfSome result (λ o. field < o.1) }
    ensures within { IfSome result (λ o. o.1 ≤ length bytes.now) }
{
    let next = field + u64::from(width.offset_size());
    if next > bytes.len() as u64 {
        return None;
    }
    let operation = MacroOperation::Named {
        defines,
        line,
        field,
    };
    Some((operation, next))
}

/// A definition, or its end, whose text is named by an offset.
#[tactic(auto, unfolding(dw_base::specs::MacroOperations::named_operation))]
fn named_operation(
    bytes: &[u8],
    width: Width,
    defines: bool,
    place: u64,
) -> Option<(MacroOperation, u64)>
    requires small { length bytes.now ≤ 2 ^ 31 }
    ensures operation { result ≡ named_operation bytes.now width defines place }
    ensures behind { IfSome result (λ o. place < o.1) }
    ensures within { IfSome result (λ o. o.1 ≤ length bytes.now) }
{
    match uleb_at(bytes, place) {
        Some((line, size)) => named_behind(bytes, width, defines, line, place + size),
        None => None,
    }
}

/// Behind the line the number of the file. `None` exactly where it passes the end.
#[tactic(auto, unfolding(dw_base::specs::MacroOperations::enter_behind))]
fn enter_behind(bytes: &[u8], line: u64, place: u64) -> Option<(MacroOperation, u64)>
    ensures operation { result ≡ enter_behind bytes.now line place }
    ensures behind { IfSome result (λ o. place < o.1) }
    ensures within { IfSome result (λ o. o.1 ≤ length bytes.now) }
{
    match uleb_at(bytes, place) {
        Some((file, size)) => Some((MacroOperation::Enter { line, file }, place + size)),
        None => None,
    }
}

/// The beginning of a file.
#[tactic(auto, unfolding(dw_base::specs::MacroOperations::enter_operation))]
fn enter_operation(bytes: &[u8], place: u64) -> Option<(MacroOperation, u64)>
    ensures operation { result ≡ enter_operation bytes.now place }
    ensures behind { IfSome result (λ o. place < o.1) }
    ensures within { IfSome result (λ o. o.1 ≤ length bytes.now) }
{
    match uleb_at(bytes, place) {
        Some((line, size)) => enter_behind(bytes, line, place + size),
        None => None,
    }
}

/// The offset of a unit. `None` exactly where it passes the end.
#[tactic(auto, unfolding(dw_base::specs::MacroOperations::bring_operation))]
fn bring_operation(bytes: &[u8], width: Width, field: u64) -> Option<(MacroOperation, u64)>
    requires inside { field ≤ length bytes.now }
    requires small { length bytes.now ≤ 2 ^ 31 }
    ensures operation { result ≡ bring_operation bytes.now width field }
    ensures behind { IfSome result (λ o. field < o.1) }
    ensures within { IfSome result (λ o. o.1 ≤ length bytes.now) }
{
    let next = field + u64::from(width.offset_size());
    if next > bytes.len() as u64 {
        return None;
    }
    Some((MacroOperation::Bring { field }, next))
}

/// An operation that refers to a supplementary file.
#[tactic(auto, unfolding(dw_base::specs::MacroOperations::is_foreign))]
fn is_foreign(opcode: u8) -> bool
    ensures { result ≡ is_foreign opcode }
{
    opcode == DW_MACRO_define_sup || opcode == DW_MACRO_undef_sup || opcode == DW_MACRO_import_sup
}

/// An operation that has no text, its operands at a place. `None` exactly where they pass the end or it is
/// none that a unit may have.
#[tactic(auto, unfolding(dw_base::specs::MacroOperations::plain_operation))]
fn plain_operation(
    bytes: &[u8],
    width: Width,
    opcode: u8,
    place: u64,
) -> Option<(MacroOperation, u64)>
    requires inside { place ≤ length bytes.now }
    requires small { length bytes.now ≤ 2 ^ 31 }
    ensures operation { result ≡ plain_operation bytes.now width opcode place }
    ensures behind { IfSome result (λ o. place ≤ o.1) }
    ensures within { IfSome result (λ o. o.1 ≤ length bytes.now) }
{
    if opcode == MACRO_END {
        return Some((MacroOperation::End, place));
    }
    if opcode == DW_MACRO_start_file {
        return enter_operation(bytes, place);
    }
    if opcode == DW_MACRO_end_file {
        return Some((MacroOperation::Leave, place));
    }
    if opcode == DW_MACRO_import {
        return bring_operation(bytes, width, place);
    }
    if is_foreign(opcode) {
        return Some((MacroOperation::Foreign, place));
    }
    None
}

/// An operation whose operands stand at a place.
#[tactic(auto, unfolding(dw_base::specs::MacroOperations::operation_of))]
fn operation_of(bytes: &[u8], width: Width, opcode: u8, place: u64) -> Option<(MacroOperation, u64)>
    requires inside { place ≤ length bytes.now }
    requires small { length bytes.now ≤ 2 ^ 31 }
    ensures operation { result ≡ operation_of bytes.now width opcode place }
    ensures behind { IfSome result (λ o. place ≤ o.1) }
    ensures within { IfSome result (λ o. o.1 ≤ length bytes.now) }
{
    if opcode == DW_MACRO_define {
        return inline_operation(bytes, true, place);
    }
    if opcode == DW_MACRO_undef {
        return inline_operation(bytes, false, place);
    }
    if opcode == DW_MACRO_define_strp {
        return named_operation(bytes, width, true, place);
    }
    if opcode == DW_MACRO_undef_strp {
        return named_operation(bytes, width, false, place);
    }
    plain_operation(bytes, width, opcode, place)
}

/// The operation at a place of the bytes of a macro section, in a unit whose offsets are so wide, and the place behind it; both are
/// in bytes from the section's start. `None` exactly where none that a unit may have ends in the bytes (DWARF 5, 6.3.2).
#[tactic(auto, unfolding(dw_base::specs::MacroOperations::operation_at))]
pub fn operation_at(bytes: &[u8], width: Width, place: u64) -> Option<(MacroOperation, u64)>
    requires small { length bytes.now ≤ 2 ^ 31 }
    ensures operation { result ≡ operation_at bytes.now width place }
    ensures behind { IfSome result (λ o. place < o.1) }
    ensures within { IfSome result (λ o. o.1 ≤ length bytes.now) }
    ensures room { IfSome result (λ o. HasRoom bytes.now width o.0) }
{
    if place >= bytes.len() as u64 {
        return None;
    }
    operation_of(bytes, width, bytes[place as usize], place + 1)
}
