//! The opcodes of a line program (DWARF 5, 6.2.5): where each ends, and which file it defines.
//!
//! This file promises: an opcode that is given stands at the place, and none is given only where none that
//! a table may have ends in the bytes. A program isn't run.

ghost use Rattle.std.specs.Prelude.{◌≡◌, ◌≢◌, ◌+◌, ◌-◌, ◌≤◌, ◌<◌, ◌^◌, length, slice_index, IfSome, IsTrue};
ghost use Rattle.dw_lines.specs.PlainOpcodes.{has_leb, is_bare, IsPlain, IsShort};
ghost use Rattle.dw_base.specs.LineHeaders.{has_standard_operands};
ghost use Rattle.dw_base.specs.LinePrograms.{plain_opcode, defined_file, extended_at, extended_in, extended_operands, if_ranged, opcode_at, standard_end};

use crate::texts::{file_numbers, inline_text, skip_lebs};
use dw_base::line_numbers::{
    DW_LNE_define_file, DW_LNE_set_address, DW_LNE_set_discriminator, DW_LNS_advance_line,
    DW_LNS_advance_pc, DW_LNS_const_add_pc, DW_LNS_copy, DW_LNS_fixed_advance_pc,
    DW_LNS_negate_stmt, DW_LNS_set_basic_block, DW_LNS_set_column, DW_LNS_set_epilogue_begin,
    DW_LNS_set_file, DW_LNS_set_isa, DW_LNS_set_prologue_end,
};
use dw_base::line_tables::Opcode;
use dw_base::{FilePlace, LineHeader, sleb_at, uleb_at};

/// The place behind an opcode that divides by the line range. `None` exactly where that is 0.
#[tactic(auto, unfolding(dw_base::specs::LinePrograms::if_ranged))]
fn if_ranged(header: &LineHeader, next: u64) -> Option<u64>
    ensures next { result ≡ if_ranged header.now next }
    ensures same { IfSome result (λ n. n ≡ next) }
{
    if header.line_range == 0 {
        return None;
    }
    Some(next)
}

/// Where a standard opcode ends whose operands stand at a place. `None` exactly where they pass the end,
/// or it divides by a line range of 0.
#[tactic(auto, unfolding(dw_base::specs::LinePrograms::standard_end))]
fn standard_end(header: &LineHeader, table: &[u8], opcode: u8, place: u64) -> Option<u64>
    requires small { length table.now ≤ 2 ^ 31 }
    requires inside { place ≤ length table.now }
    requires some { 0 < opcode }
    requires below { opcode < header.now.opcode_base }
    requires operands { header.now.lists ≡ header.now.operands + (header.now.opcode_base - 1) }
    requires lists { header.now.lists ≤ length table.now }
    ensures end { result ≡ standard_end header.now table.now opcode place }
    ensures behind { IfSome result (λ next. place ≤ next) }
    ensures within { IfSome result (λ next. next ≤ length table.now) }
{
    if opcode == DW_LNS_advance_line {
        return match sleb_at(table, place) {
            Some((_, size)) => Some(place + size),
            None => None,
        };
    }
    if opcode == DW_LNS_const_add_pc {
        return if_ranged(header, place);
    }
    if opcode == DW_LNS_fixed_advance_pc {
        if place + 2 > table.len() as u64 {
            return None;
        }
        return Some(place + 2);
    }
    let count = table[header.operands as usize + usize::from(opcode - 1)];
    skip_lebs(count, table, place)
}

/// A file that an opcode defines, whose name stands at a place of the bytes up to the opcode's end. `None`
/// exactly where it passes that end.
#[tactic(auto, unfolding(dw_base::specs::LinePrograms::defined_file))]
fn defined_file(section: u32, body: &[u8], place: u64) -> Option<FilePlace>
    ensures file { result ≡ defined_file section body.now place }
{
    let Some(text) = inline_text(section, body, place) else {
        return None;
    };
    let Some((dir, _)) = file_numbers(body, place + text.len + 1) else {
        return None;
    };
    Some(FilePlace { text, dir })
}

/// The file that an extended opcode of a code defines, if any, its operands from a place on in the bytes up to
/// its end. `None` exactly where they pass that end, or an address has another size than 2, 4 or 8.
#[tactic(auto, unfolding(dw_base::specs::LinePrograms::extended_operands))]
fn extended_operands(section: u32, body: &[u8], code: u8, place: u64) -> Option<Option<FilePlace>>
    requires inside { place ≤ length body.now }
    ensures operands { result ≡ extended_operands section body.now code place }
{
    if code == DW_LNE_set_address {
        let size = body.len() as u64 - place;
        if size == 2 || size == 4 || size == 8 {
            return Some(None);
        }
        return None;
    }
    if code == DW_LNE_define_file {
        return match defined_file(section, body, place) {
            Some(file) => Some(Some(file)),
            None => None,
        };
    }
    if code == DW_LNE_set_discriminator {
        return match uleb_at(body, place) {
            Some(_) => Some(None),
            None => None,
        };
    }
    Some(None)
}

/// An extended opcode of so many bytes from a place on, its code the first of them.
#[tactic(auto, unfolding(dw_base::specs::LinePrograms::extended_in))]
fn extended_in(section: u32, table: &[u8], first: u64, size: u64) -> Option<Opcode>
    requires inside { first ≤ length table.now }
    ensures opcode { result ≡ extended_in section table.now first size }
    ensures behind { IfSome result (λ o. first < o.next) }
    ensures within { IfSome result (λ o. o.next ≤ length table.now) }
{
    if size == 0 {
        return None;
    }
    if size > table.len() as u64 - first {
        return None;
    }
    let next = first + size;
    let code = table[first as usize];
    match extended_operands(section, &table[..next as usize], code, first + 1) {
        Some(file) => Some(Opcode { next, file }),
        None => None,
    }
}

/// An extended opcode whose length stands at a place.
#[tactic(auto, unfolding(dw_base::specs::LinePrograms::extended_at))]
fn extended_at(section: u32, table: &[u8], place: u64) -> Option<Opcode>
    ensures opcode { result ≡ extended_at section table.now place }
    ensures behind { IfSome result (λ o. place < o.next) }
    ensures within { IfSome result (λ o. o.next ≤ length table.now) }
{
    match uleb_at(table, place) {
        Some((size, front)) => extended_in(section, table, place + front, size),
        None => None,
    }
}

/// An opcode that defines no file.
fn plain_opcode(next: Option<u64>) -> Option<Opcode>
    ensures opcode { result ≡ plain_opcode next }
{
    match next {
        Some(next) => Some(Opcode { next, file: None }),
        None => None,
    }
}

/// The opcode at a place. `None` exactly where none stands there that ends in the bytes and that a table may
/// have.
#[tactic(auto, unfolding(dw_base::specs::LinePrograms::opcode_at))]
pub(crate) fn opcode_at(
    section: u32,
    header: &LineHeader,
    table: &[u8],
    place: u64,
) -> Option<Opcode>
    requires small { length table.now ≤ 2 ^ 31 }
    requires inside { place < length table.now }
    requires operands { header.now.lists ≡ header.now.operands + (header.now.opcode_base - 1) }
    requires lists { header.now.lists ≤ length table.now }
    ensures opcode { result ≡ opcode_at section header.now table.now place }
    ensures behind { IfSome result (λ o. place < o.next) }
    ensures within { IfSome result (λ o. o.next ≤ length table.now) }
{
    let opcode = table[place as usize];
    if opcode >= header.opcode_base {
        return plain_opcode(if_ranged(header, place + 1));
    }
    if opcode == 0 {
        return extended_at(section, table, place + 1);
    }
    plain_opcode(standard_end(header, table, opcode, place + 1))
}

/// Whether an opcode has no operands in every table, and divides by nothing (DWARF 5, 6.2.5.2).
fn is_bare(opcode: u8) -> bool
    ensures { result ≡ is_bare opcode }
{
    opcode == DW_LNS_copy
        || opcode == DW_LNS_negate_stmt
        || opcode == DW_LNS_set_basic_block
        || opcode == DW_LNS_set_prologue_end
        || opcode == DW_LNS_set_epilogue_begin
}

/// Whether an opcode has one number of LEB128 in every table (DWARF 5, 6.2.5.2).
fn has_leb(opcode: u8) -> bool
    ensures { result ≡ has_leb opcode }
{
    opcode == DW_LNS_advance_pc
        || opcode == DW_LNS_advance_line
        || opcode == DW_LNS_set_file
        || opcode == DW_LNS_set_column
        || opcode == DW_LNS_set_isa
}

/// The place behind a number of LEB128 of one or two bytes. `None` where it has more, and where fewer than two bytes stand at its place.
#[tactic(auto, using(crate::proofs::ShortLaws::short_laws))]
fn behind_short(table: &[u8], place: u64) -> Option<u64>
    requires small { length table.now ≤ 2 ^ 31 }
    requires inside { place ≤ length table.now }
    ensures short { IfSome result (IsShort table.now place) }
    ensures behind { IfSome result (λ next. place < next) }
    ensures within { IfSome result (λ next. next ≤ length table.now) }
{
    if place + 2 > table.len() as u64 {
        return None;
    }
    if table[place as usize] < 128 {
        return Some(place + 1);
    }
    if table[place as usize + 1] < 128 {
        return Some(place + 2);
    }
    None
}

/// Where an opcode with one number of LEB128 ends, whose number stands at a place.
#[tactic(auto, using(crate::proofs::ShortLaws::leb_laws))]
fn behind_leb(header: &LineHeader, table: &[u8], opcode: u8, place: u64) -> Option<u64>
    requires small { length table.now ≤ 2 ^ 31 }
    requires inside { place ≤ length table.now }
    requires some { 0 < opcode }
    requires below { opcode < header.now.opcode_base }
    requires leb { IsTrue (has_leb opcode) }
    requires standard { IsTrue (has_standard_operands table.now header.now) }
    requires operands { header.now.lists ≡ header.now.operands + (header.now.opcode_base - 1) }
    requires lists { header.now.lists ≤ length table.now }
    ensures end { result ≡ standard_end header.now table.now opcode place }
    ensures behind { IfSome result (λ next. place ≤ next) }
    ensures within { IfSome result (λ next. next ≤ length table.now) }
{
    if let Some(next) = behind_short(table, place) {
        return Some(next);
    }
    standard_end(header, table, opcode, place)
}

/// The place behind an extended opcode at a place that sets the discriminator to a number of one byte (DWARF 5, 6.2.5.3).
#[tactic(auto, using(crate::proofs::DiscriminatorLaws::discriminator_laws))]
fn behind_discriminator(header: &LineHeader, table: &[u8], place: u64) -> Option<u64>
    requires small { length table.now ≤ 2 ^ 31 }
    requires inside { place < length table.now }
    requires extended { slice_index table.now place ≡ 0 }
    requires below { 0 < header.now.opcode_base }
    ensures plain { IfSome result (IsPlain header.now table.now place) }
    ensures behind { IfSome result (λ next. place < next) }
    ensures within { IfSome result (λ next. next ≤ length table.now) }
{
    if place + 4 > table.len() as u64 {
        return None;
    }
    if table[place as usize + 1] != 2 {
        return None;
    }
    if table[place as usize + 2] != DW_LNE_set_discriminator {
        return None;
    }
    if table[place as usize + 3] >= 128 {
        return None;
    }
    Some(place + 4)
}

/// The place behind a plain opcode at a place: a special one, a standard one, or one that sets a discriminator. `None` for
/// another extended one, and for one that can't be had. The standard opcodes that are met most are told by their numbers, since
/// the header gives each the operands of the standard.
#[tactic(auto, using(crate::proofs::PlainLaws::next_laws, crate::proofs::ShortLaws::bare_laws))]
pub(crate) fn plain_next(header: &LineHeader, table: &[u8], place: u64) -> Option<u64>
    requires small { length table.now ≤ 2 ^ 31 }
    requires inside { place < length table.now }
    requires ranged { header.now.line_range ≢ 0 }
    requires standard { IsTrue (has_standard_operands table.now header.now) }
    requires operands { header.now.lists ≡ header.now.operands + (header.now.opcode_base - 1) }
    requires lists { header.now.lists ≤ length table.now }
    ensures plain { IfSome result (IsPlain header.now table.now place) }
    ensures behind { IfSome result (λ next. place < next) }
    ensures within { IfSome result (λ next. next ≤ length table.now) }
{
    let opcode = table[place as usize];
    if opcode >= header.opcode_base {
        return Some(place + 1);
    }
    if is_bare(opcode) {
        return Some(place + 1);
    }
    if opcode == 0 {
        return behind_discriminator(header, table, place);
    }
    if has_leb(opcode) {
        return behind_leb(header, table, opcode, place + 1);
    }
    standard_end(header, table, opcode, place + 1)
}
