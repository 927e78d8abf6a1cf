//! The operation at the front of what is left of a line program (DWARF 5, 6.2.5).
//!
//! This file promises: an operation that is given stands there, with its size; none is given only where none
//! that a table may have ends in the bytes. An address is that of the relocation that begins at it, where one does.

ghost use Rattle.std.specs.Prelude.{true, false, ◌≡◌, ◌+◌, ◌-◌, ◌≤◌, ◌<◌, ◌^◌, length, option_map, IfNone, IfSome};
ghost use Rattle.dw_base.specs.Lebs.{uleb_at};
ghost use Rattle.dw_base.specs.LineTexts.{skip_lebs};
ghost use Rattle.dw_base.specs.UnitHeaders.{is_address_size};
ghost use Rattle.dw_base.specs.LineOperations.{const_operation, extended, extended_in, extended_operation, is_numbered, numbered, operation_in, special, special_operation, standard_operation, unnumbered};
ghost use Rattle.dw_base.specs.declared.line_rows.Operation.TheVariants.{SetDiscriminator};
ghost use Rattle.dw_rows.specs.ProgramPlaces.{StandsIn, cells_left, set_address};

use dw_base::line_numbers::{
    DW_LNE_end_sequence, DW_LNE_set_address, DW_LNE_set_discriminator, DW_LNS_advance_line,
    DW_LNS_advance_pc, DW_LNS_const_add_pc, DW_LNS_copy, DW_LNS_fixed_advance_pc,
    DW_LNS_negate_stmt, DW_LNS_set_basic_block, DW_LNS_set_column, DW_LNS_set_epilogue_begin,
    DW_LNS_set_file, DW_LNS_set_isa, DW_LNS_set_prologue_end,
};
use dw_base::{LineParams, Operation, number_at, sleb_at, uleb_at};
use dw_view::View;

/// What a special opcode does that is so far above the first.
fn special(params: &LineParams, above: u8) -> Operation
    requires some { 0 < params.now.line_range }
    ensures operation { result ≡ special params.now above }
{
    let advance = u64::from(above / params.line_range);
    let lines = i64::from(params.line_base) + i64::from(above % params.line_range);
    Operation::Special(advance, lines)
}

/// A special opcode. `None` exactly where the line range is 0.
#[tactic(auto, unfolding(dw_base::specs::LineOperations::special_operation))]
fn special_operation(params: &LineParams, opcode: u8) -> Option<(Operation, u64)>
    requires above { params.now.opcode_base ≤ opcode }
    ensures operation { result ≡ special_operation params.now opcode }
    ensures size { IfSome result (λ o. o.1 ≡ 1) }
{
    if params.line_range == 0 {
        return None;
    }
    Some((special(params, opcode - params.opcode_base), 1))
}

/// The advance of the special opcode 255. `None` exactly where the line range is 0.
#[tactic(auto, unfolding(dw_base::specs::LineOperations::const_operation))]
fn const_operation(params: &LineParams) -> Option<(Operation, u64)>
    ensures operation { result ≡ const_operation params.now }
    ensures size { IfSome result (λ o. o.1 ≡ 1) }
{
    if params.line_range == 0 {
        return None;
    }
    let advance = (255 - params.opcode_base) / params.line_range;
    Some((Operation::Advance(u64::from(advance)), 1))
}

/// Whether a standard opcode has one unsigned number.
#[tactic(auto, unfolding(dw_base::specs::LineOperations::is_numbered))]
fn is_numbered(opcode: u8) -> bool
    ensures { result ≡ is_numbered opcode }
{
    opcode == DW_LNS_advance_pc
        || opcode == DW_LNS_set_file
        || opcode == DW_LNS_set_column
        || opcode == DW_LNS_set_isa
}

/// What a standard opcode with one unsigned number does.
#[tactic(auto, unfolding(dw_base::specs::LineOperations::numbered))]
fn numbered(opcode: u8, number: u64) -> Operation
    ensures operation { result ≡ numbered opcode number }
{
    if opcode == DW_LNS_advance_pc {
        return Operation::Advance(number);
    }
    if opcode == DW_LNS_set_file {
        return Operation::SetFile(number);
    }
    if opcode == DW_LNS_set_column {
        return Operation::SetColumn(number);
    }
    Operation::SetIsa(number)
}

/// What a standard opcode does of which no number counts.
#[tactic(auto, unfolding(dw_base::specs::LineOperations::unnumbered))]
fn unnumbered(opcode: u8) -> Operation
    ensures operation { result ≡ unnumbered opcode }
{
    if opcode == DW_LNS_copy {
        return Operation::Copy;
    }
    if opcode == DW_LNS_negate_stmt {
        return Operation::NegateStmt;
    }
    if opcode == DW_LNS_set_basic_block {
        return Operation::BeginBlock;
    }
    if opcode == DW_LNS_set_prologue_end {
        return Operation::EndPrologue;
    }
    if opcode == DW_LNS_set_epilogue_begin {
        return Operation::BeginEpilogue;
    }
    Operation::Skip
}

/// The place behind so many unsigned numbers. `None` exactly where one of them passes the end.
#[tactic(auto, using(dw_lines::proofs::TextLaws::skip_laws))]
fn skip_lebs(count: u8, left: &[u8], start: u64) -> Option<u64>
    requires inside { start ≤ length left.now }
    ensures place { result ≡ skip_lebs count left.now start }
    ensures behind { IfSome result (λ next. start ≤ next) }
    ensures within { IfSome result (λ next. next ≤ length left.now) }
{
    let mut more = count;
    let mut place = start;
    'numbers: while more > 0 {
        let Some((_, size)) = uleb_at(left, place) else {
            return None;
        };
        place += size;
        more -= 1;
    }
    Some(place)
}

/// A standard opcode at the front. `None` exactly where its numbers pass the end, or it divides by a line
/// range of 0.
#[tactic(auto, unfolding(dw_base::specs::LineOperations::standard_operation))]
fn standard_operation(
    params: &LineParams,
    counts: &[u8],
    left: &[u8],
    opcode: u8,
) -> Option<(Operation, u64)>
    requires small { length left.now ≤ 2 ^ 31 }
    requires inside { 1 ≤ length left.now }
    requires counts { length counts.now ≡ params.now.opcode_base - 1 }
    requires some { 0 < opcode }
    requires below { opcode < params.now.opcode_base }
    ensures operation { result ≡ standard_operation params.now counts.now left.now opcode }
    ensures further { IfSome result (λ o. 0 < o.1) }
    ensures within { IfSome result (λ o. o.1 ≤ length left.now) }
{
    if opcode == DW_LNS_advance_line {
        return match sleb_at(left, 1) {
            Some((lines, size)) => Some((Operation::AddLine(lines), 1 + size)),
            None => None,
        };
    }
    if opcode == DW_LNS_const_add_pc {
        return const_operation(params);
    }
    if opcode == DW_LNS_fixed_advance_pc {
        return match number_at(params.order, left, 1, 2) {
            Some(bytes) => Some((Operation::AddAddress(bytes), 3)),
            None => None,
        };
    }
    if is_numbered(opcode) {
        return match uleb_at(left, 1) {
            Some((number, size)) => Some((numbered(opcode, number), 1 + size)),
            None => None,
        };
    }
    match skip_lebs(counts[usize::from(opcode - 1)], left, 1) {
        Some(next) => Some((unnumbered(opcode), next)),
        None => None,
    }
}

/// A size of addresses (DWARF 5, 6.2.5.3). `None` exactly where it is none.
fn address_size(size: u64) -> Option<u8>
    ensures size { IfSome result (λ n. n ≡ size) }
    ensures some { IfSome result (λ n. 0 < n) }
    ensures wide { IfSome result (λ n. n ≤ 8) }
    ensures is { IfSome result (λ n. is_address_size n ≡ true) }
    ensures none { IfNone result (is_address_size size ≡ false) }
{
    match size {
        2 => Some(2),
        4 => Some(4),
        8 => Some(8),
        _ => None,
    }
}

/// The operation that sets the address to the one from a place up to the end of an opcode's bytes, which stand at a
/// start in a section. `None` exactly where it has another size than 2, 4 or 8.
#[tactic(auto, using(crate::proofs::AddressLaws::address_laws))]
fn set_address(view: &View, section: u32, start: u64, body: &[u8], place: u64) -> Option<Operation>
    requires stands { StandsIn view.now section start body.now }
    requires inside { place ≤ length body.now }
    ensures operation { result ≡ set_address view.now.order (cells_left view.now section start body.now) place }
{
    let Some(size) = address_size(body.len() as u64 - place) else {
        return None;
    };
    let address = view.address(section, start + place, size);
    Some(Operation::SetAddress(address))
}

/// The operation that sets the discriminator to the number at a place. `None` exactly where that passes the end.
fn set_discriminator(body: &[u8], place: u64) -> Option<Operation>
    ensures operation { result ≡ option_map (λ n. SetDiscriminator n.0) (uleb_at body.now place) }
{
    match uleb_at(body, place) {
        Some((number, _)) => Some(Operation::SetDiscriminator(number)),
        None => None,
    }
}

/// What an extended opcode of a code does, its operands from a place on in the bytes up to its end, which stand at a
/// start in a section. `None` exactly where they pass that end, or an address has another size than 2, 4 or 8.
#[tactic(auto, using(crate::proofs::AddressLaws::code_laws))]
fn extended(
    view: &View,
    section: u32,
    start: u64,
    body: &[u8],
    code: u8,
    place: u64,
) -> Option<Operation>
    requires stands { StandsIn view.now section start body.now }
    requires inside { place ≤ length body.now }
    ensures operation { result ≡ extended view.now.order (cells_left view.now section start body.now) code place }
{
    if code == DW_LNE_end_sequence {
        return Some(Operation::EndSequence);
    }
    if code == DW_LNE_set_address {
        return set_address(view, section, start, body, place);
    }
    if code == DW_LNE_set_discriminator {
        return set_discriminator(body, place);
    }
    Some(Operation::Skip)
}

/// An extended opcode of so many bytes from a place on in the bytes that are left, its code the first of them.
#[tactic(auto, using(crate::proofs::AddressLaws::size_laws))]
fn extended_in(
    view: &View,
    section: u32,
    start: u64,
    left: &[u8],
    first: u64,
    size: u64,
) -> Option<(Operation, u64)>
    requires stands { StandsIn view.now section start left.now }
    requires inside { first ≤ length left.now }
    ensures operation { result ≡ extended_in view.now.order (cells_left view.now section start left.now) first size }
    ensures further { IfSome result (λ o. first < o.1) }
    ensures within { IfSome result (λ o. o.1 ≤ length left.now) }
{
    if size == 0 {
        return None;
    }
    if size > left.len() as u64 - first {
        return None;
    }
    let next = first + size;
    let code = left[first as usize];
    match extended(
        view,
        section,
        start,
        &left[..next as usize],
        code,
        first + 1,
    ) {
        Some(operation) => Some((operation, next)),
        None => None,
    }
}

/// An extended opcode at the front of the bytes that are left, which stand at a start in a section.
#[tactic(auto, using(crate::proofs::AddressLaws::front_laws))]
fn extended_operation(
    view: &View,
    section: u32,
    start: u64,
    left: &[u8],
) -> Option<(Operation, u64)>
    requires stands { StandsIn view.now section start left.now }
    ensures operation { result ≡ extended_operation view.now.order (cells_left view.now section start left.now) }
    ensures further { IfSome result (λ o. 0 < o.1) }
    ensures within { IfSome result (λ o. o.1 ≤ length left.now) }
{
    match uleb_at(left, 1) {
        Some((size, front)) => extended_in(view, section, start, left, 1 + front, size),
        None => None,
    }
}

/// The operation at the front of what is left of a program, which stands at a start in a section, and its size in
/// bytes. `None` exactly where none stands there that ends in the bytes and that a table may have.
#[tactic(auto, using(crate::proofs::AddressLaws::operation_laws))]
pub(crate) fn operation_in(
    view: &View,
    section: u32,
    start: u64,
    params: &LineParams,
    counts: &[u8],
    left: &[u8],
) -> Option<(Operation, u64)>
    requires stands { StandsIn view.now section start left.now }
    requires order { params.now.order ≡ view.now.order }
    requires counts { length counts.now ≡ params.now.opcode_base - 1 }
    ensures operation { result ≡ operation_in params.now counts.now (cells_left view.now section start left.now) }
    ensures further { IfSome result (λ o. 0 < o.1) }
    ensures within { IfSome result (λ o. o.1 ≤ length left.now) }
{
    if left.is_empty() {
        return None;
    }
    let opcode = left[0];
    if opcode >= params.opcode_base {
        return special_operation(params, opcode);
    }
    if opcode == 0 {
        return extended_operation(view, section, start, left);
    }
    standard_operation(params, counts, left, opcode)
}
