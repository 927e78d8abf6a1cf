//! The numbers at the front of a line table's header (DWARF 5, 6.2.4; for versions 2 to 4 the standards' own).
//!
//! This file promises: the numbers that are given are those of the table at the place; there are none exactly
//! where no table of a version from 2 to 5 begins there whose numbers fit one another.

ghost use Rattle.std.specs.Prelude.{◌≡◌, ◌+◌, ◌-◌, ◌≤◌, ◌<◌, ◌^◌, length, take, IfSome, IsTrue};
ghost use Rattle.std.specs.Bool.{OnTrue};
ghost use Rattle.dw_base.specs.Forms.{width_size};
ghost use Rattle.dw_base.specs.LineHeaders.{flags_place, has_standard_operands, header_at, header_in, header_of_length, header_of_version, header_with, HeaderFits, is_header, is_line_version, length_place, line_header};

use dw_base::{LineHeader, Order, Width, initial_length_at, number_at, number_in};

/// How many operands the standard opcodes from 1 on have (DWARF 5, 6.2.5.2).
const STANDARD_OPERANDS: [u8; 12] = [0, 1, 1, 1, 1, 0, 0, 0, 1, 0, 0, 1];

/// A version that a line table may have.
fn is_line_version(version: u64) -> bool
    ensures version { result ≡ is_line_version version }
{
    version == 2 || version == 3 || version == 4 || version == 5
}

/// Where the length of the header stands, for the version's place.
#[tactic(auto, unfolding(dw_base::specs::LineHeaders::length_place))]
pub(crate) fn length_place(version: u64, at: u64) -> u64
    requires small { at ≤ 2 ^ 32 }
    ensures place { result ≡ length_place version at }
    ensures behind { at + 2 ≤ result }
    ensures near { result ≤ at + 4 }
{
    if version == 5 { at + 4 } else { at + 2 }
}

/// Where the default of statements stands, for the place behind the length of the header.
#[tactic(auto, unfolding(dw_base::specs::LineHeaders::flags_place))]
fn flags_place(version: u64, first: u64) -> u64
    requires small { first ≤ 2 ^ 33 }
    ensures place { result ≡ flags_place version first }
    ensures behind { first < result }
    ensures near { result ≤ first + 2 }
{
    if version >= 4 { first + 2 } else { first + 1 }
}

/// The operand counts of the standard opcodes are the standard's.
#[tactic(auto, unfolding(dw_base::specs::LineHeaders::has_standard_operands))]
fn has_standard_operands(table: &[u8], header: &LineHeader) -> bool
    requires inside { header.now.operands + (header.now.opcode_base - 1) ≤ length table.now }
    requires some { 0 < header.now.opcode_base }
    ensures operands { result ≡ has_standard_operands table.now header.now }
{
    let count = usize::from(header.opcode_base - 1).min(12);
    let start = header.operands as usize;
    table[start..start + count] == STANDARD_OPERANDS[..count]
}

/// The numbers of a header, for the places of its version, of what stands behind its length, and of the default
/// of statements.
#[tactic(auto, unfolding(dw_base::specs::LineHeaders::header_with))]
fn header_with(
    table: &[u8],
    start: u64,
    width: Width,
    version: u64,
    at: u64,
    first: u64,
    flags: u64,
    header_length: u64,
) -> LineHeader
    requires version { version < 256 ^ 2 }
    requires small { length table.now ≤ 2 ^ 31 }
    requires further { start ≤ at }
    requires room { flags + 4 ≤ length table.now }
    requires apart { at + 4 ≤ first }
    requires behind { first < flags }
    requires program { first + header_length ≤ length table.now }
    ensures header { result ≡ header_with table.now start width version at first flags header_length }
    ensures start { result.start ≡ start }
    ensures end { result.end ≡ length table.now }
    ensures further { start < length table.now }
    ensures operands { result.lists ≡ result.operands + (result.opcode_base - 1) }
    ensures program { result.program ≤ result.end }
{
    let flags_at = flags as usize;
    let opcode_base = table[flags_at + 3];
    LineHeader {
        start,
        end: table.len() as u64,
        version: version as u16,
        width,
        address: if version == 5 {
            table[at as usize + 2]
        } else {
            0
        },
        program: first + header_length,
        min_length: table[first as usize],
        max_ops: if version >= 4 {
            table[first as usize + 1]
        } else {
            1
        },
        default_stmt: table[flags_at] != 0,
        line_base: table[flags_at + 1].cast_signed(),
        line_range: table[flags_at + 2],
        opcode_base,
        operands: flags + 4,
        lists: flags + 4 + u64::from(opcode_base.saturating_sub(1)),
    }
}

/// The numbers of a header are such that a table may have, and its operand counts lie in the table.
#[tactic(auto, unfolding(dw_base::specs::LineHeaders::is_header))]
fn is_header(table: &[u8], header: &LineHeader) -> bool
    requires end { header.now.end ≡ length table.now }
    requires lists { header.now.lists ≡ header.now.operands + (header.now.opcode_base - 1) }
    ensures fits { result ≡ is_header table.now header.now }
    ensures some { OnTrue result (0 < header.now.opcode_base) }
    ensures standard { OnTrue result (IsTrue (has_standard_operands table.now header.now)) }
    ensures lists { OnTrue result (header.now.lists ≤ header.now.end) }
{
    if header.opcode_base == 0 {
        return false;
    }
    if header.max_ops == 0 {
        return false;
    }
    if header.lists > header.end {
        return false;
    }
    has_standard_operands(table, header)
}

/// The header whose length was read.
#[tactic(auto, using(crate::proofs::HeaderLaws::header_laws), unfolding(dw_base::specs::LineHeaders::header_of_length))]
fn header_of_length(
    table: &[u8],
    start: u64,
    width: Width,
    version: u64,
    at: u64,
    first: u64,
    flags: u64,
    header_length: u64,
) -> Option<LineHeader>
    requires version { version < 256 ^ 2 }
    requires small { length table.now ≤ 2 ^ 31 }
    requires further { start ≤ at }
    requires room { flags + 4 ≤ length table.now }
    requires apart { at + 4 ≤ first }
    requires behind { first < flags }
    ensures header { result ≡ header_of_length table.now start width version at first flags header_length }
    ensures fits { IfSome result (HeaderFits start (length table.now)) }
    ensures standard { IfSome result (λ h. IsTrue (has_standard_operands table.now h)) }
{
    if header_length > table.len() as u64 - first {
        return None;
    }
    let header = header_with(
        table,
        start,
        width,
        version,
        at,
        first,
        flags,
        header_length,
    );
    if !is_header(table, &header) {
        return None;
    }
    Some(header)
}

/// The header for the places of its fields.
#[tactic(auto, unfolding(dw_base::specs::LineHeaders::header_at))]
fn header_at(
    order: Order,
    table: &[u8],
    start: u64,
    width: Width,
    version: u64,
    at: u64,
    place: u64,
    flags: u64,
) -> Option<LineHeader>
    requires version { version < 256 ^ 2 }
    requires small { length table.now ≤ 2 ^ 31 }
    requires further { start ≤ at }
    requires near { flags ≤ 2 ^ 34 }
    requires apart { at + 2 ≤ place }
    requires behind { place + width_size width < flags }
    ensures header { result ≡ header_at order table.now start width version at place flags }
    ensures fits { IfSome result (HeaderFits start (length table.now)) }
    ensures standard { IfSome result (λ h. IsTrue (has_standard_operands table.now h)) }
{
    if flags + 4 > table.len() as u64 {
        return None;
    }
    let size = width.offset_size();
    let header_length = number_in(order, table, place, size);
    header_of_length(
        table,
        start,
        width,
        version,
        at,
        place + u64::from(size),
        flags,
        header_length,
    )
}

/// The header of a version, which stands at a place.
#[tactic(auto, unfolding(dw_base::specs::LineHeaders::header_of_version))]
fn header_of_version(
    order: Order,
    table: &[u8],
    start: u64,
    width: Width,
    at: u64,
    version: u64,
) -> Option<LineHeader>
    requires version { version < 256 ^ 2 }
    requires small { length table.now ≤ 2 ^ 31 }
    requires further { start ≤ at }
    requires inside { at ≤ length table.now }
    ensures header { result ≡ header_of_version order table.now start width at version }
    ensures fits { IfSome result (HeaderFits start (length table.now)) }
    ensures standard { IfSome result (λ h. IsTrue (has_standard_operands table.now h)) }
{
    if !is_line_version(version) {
        return None;
    }
    let place = length_place(version, at);
    let flags = flags_place(version, place + u64::from(width.offset_size()));
    header_at(order, table, start, width, version, at, place, flags)
}

/// The header of the table that these bytes up to its end have, with its version at a place.
#[tactic(auto, unfolding(dw_base::specs::LineHeaders::header_in))]
fn header_in(order: Order, table: &[u8], start: u64, width: Width, at: u64) -> Option<LineHeader>
    requires small { length table.now ≤ 2 ^ 31 }
    requires further { start ≤ at }
    requires inside { at ≤ length table.now }
    ensures header { result ≡ header_in order table.now start width at }
    ensures fits { IfSome result (HeaderFits start (length table.now)) }
    ensures standard { IfSome result (λ h. IsTrue (has_standard_operands table.now h)) }
{
    match number_at(order, table, at, 2) {
        Some(version) => header_of_version(order, table, start, width, at, version),
        None => None,
    }
}

/// The numbers at the front of the table that starts at a place of a section.
#[tactic(auto, using(crate::proofs::HeaderLaws::line_laws), unfolding(dw_base::specs::LineHeaders::line_header))]
pub(crate) fn line_header(order: Order, bytes: &[u8], start: u64) -> Option<LineHeader>
    requires small { length bytes.now ≤ 2 ^ 31 }
    ensures header { result ≡ line_header order bytes.now start }
    ensures fits { IfSome result (λ h. HeaderFits start h.end h) }
    ensures standard { IfSome result (λ h. IsTrue (has_standard_operands (take h.end bytes.now) h)) }
    ensures further { IfSome result (λ h. start < h.end) }
    ensures within { IfSome result (λ h. h.end ≤ length bytes.now) }
{
    let Some((width, extent, size)) = initial_length_at(order, bytes, start) else {
        return None;
    };
    let at = start + size;
    if extent > bytes.len() as u64 - at {
        return None;
    }
    header_in(order, &bytes[..(at + extent) as usize], start, width, at)
}
