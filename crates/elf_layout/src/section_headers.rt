//! Section headers as bytes (gABI ch. 4 "Sections"), and their table behind the sections.

ghost use Rattle.std.specs.Prelude.{◌≡◌, ◌+◌, ◌≤◌, ◌++◌, length, vec_len, IfOk, IfErr, OnOk};
ghost use Rattle.dw_base.specs.Elf.{ehdr_size, shoff_place, word_size};
ghost use Rattle.dw_base.specs.Layout.{output_limit, padding, before_table, with_table, shdr_bytes, shdrs_bytes};
ghost use Rattle.dw_base.specs.LayoutFails.{TooLong};
ghost use Rattle.dw_base.specs.Refusals.{Blames};
ghost use Rattle.dw_base.specs.Numbers.{with_number};

use crate::laying::{padding_at, too_long};
use dw_base::{Class, Fault, OUTPUT_LIMIT, Order, Section, push_long, push_word, put_number};
use std::alloc::AllocError;

/// Appends a section header of 32 bits.
#[tactic(auto, using(crate::proofs::Rows::header_rules), unfolding(dw_base::specs::Layout::shdr_bytes))]
fn push_shdr_32(out: &mut Vec<u8>, order: Order, s: &Section) -> Result<(), AllocError>
    ensures bytes { OnOk result (out.new.items ≡ out.old.items ++ shdr_bytes Class.C32 order s.now) }
{
    push_word(out, order, u64::from(s.name))?;
    push_word(out, order, u64::from(s.kind))?;
    push_word(out, order, s.flags)?;
    push_word(out, order, s.addr)?;
    push_word(out, order, s.offset)?;
    push_word(out, order, s.size)?;
    push_word(out, order, u64::from(s.link))?;
    push_word(out, order, u64::from(s.info))?;
    push_word(out, order, s.align)?;
    push_word(out, order, s.entry_size)?;
    Ok(())
}

/// Appends a section header of 64 bits.
#[tactic(auto, using(crate::proofs::Rows::header_rules), unfolding(dw_base::specs::Layout::shdr_bytes))]
fn push_shdr_64(out: &mut Vec<u8>, order: Order, s: &Section) -> Result<(), AllocError>
    ensures bytes { OnOk result (out.new.items ≡ out.old.items ++ shdr_bytes Class.C64 order s.now) }
{
    push_word(out, order, u64::from(s.name))?;
    push_word(out, order, u64::from(s.kind))?;
    push_long(out, order, s.flags)?;
    push_long(out, order, s.addr)?;
    push_long(out, order, s.offset)?;
    push_long(out, order, s.size)?;
    push_word(out, order, u64::from(s.link))?;
    push_word(out, order, u64::from(s.info))?;
    push_long(out, order, s.align)?;
    push_long(out, order, s.entry_size)?;
    Ok(())
}

/// Appends a section header.
fn push_shdr(out: &mut Vec<u8>, class: Class, order: Order, s: &Section) -> Result<(), AllocError>
    ensures bytes { OnOk result (out.new.items ≡ out.old.items ++ shdr_bytes class order s.now) }
{
    match class {
        Class::C32 => push_shdr_32(out, order, s),
        Class::C64 => push_shdr_64(out, order, s),
    }
}

/// Appends section headers, one after another.
pub(crate) fn push_shdrs(
    out: &mut Vec<u8>,
    class: Class,
    order: Order,
    heads: &[Section],
) -> Result<(), AllocError>
    ensures bytes { OnOk result (out.new.items ≡ out.old.items ++ shdrs_bytes class order heads.now) }
{
    for head in heads {
        push_shdr(out, class, order, head)?;
    }
    Ok(())
}

/// Appends zeros up to the next multiple of the class's word. Refused as `TooLarge` only where that
/// passes the limit.
#[tactic(auto, using(crate::proofs::Rows::zeros_rows), unfolding(dw_base::specs::Layout::before_table))]
fn pad_to_word(out: &mut Vec<u8>, class: Class) -> Result<(), Fault>
    requires small { vec_len out.old ≤ output_limit }
    ensures padded { OnOk result (out.new.items ≡ before_table class out.old.items) }
    ensures len { OnOk result (vec_len out.new ≡ vec_len out.old + padding (vec_len out.old) (word_size class)) }
    ensures small { OnOk result (vec_len out.new ≤ output_limit) }
    ensures refused { IfErr result (Blames (TooLong (length (before_table class out.old.items)))) }
{
    let len = out.len() as u64;
    let zeros = padding_at(len, u64::from(class.word_size()));
    if zeros > OUTPUT_LIMIT - len {
        return Err(too_long());
    }
    out.resize(out.len() + zeros as usize, 0)?;
    Ok(())
}

/// Puts the place of the section headers into the file header.
pub(crate) fn put_shoff(file: &mut [u8], class: Class, order: Order, place: u64)
    requires header { ehdr_size class ≤ length file.old }
    requires small { place ≤ output_limit }
    ensures put { file.new ≡ with_number order file.old (shoff_place class) (word_size class) place }
{
    let fits = put_number(order, file, class.shoff_place(), class.word_size(), place);
    prove!(fits);
}

/// The file of the bytes laid so far and section headers: these stand behind, at the next multiple of
/// the size of an address in bytes, and their place is put into the file header (`e_shoff`; gABI ch. 4
/// "ELF Header", "Sections"). Refused as `TooLarge` only where it would pass the limit.
#[tactic(auto, using(crate::proofs::Rows::table_rows), unfolding(dw_base::specs::Layout::with_table))]
pub(crate) fn append_table(
    out: Vec<u8>,
    class: Class,
    order: Order,
    heads: &[Section],
) -> Result<Vec<u8>, Fault>
    requires header { ehdr_size class ≤ vec_len out }
    requires small { vec_len out ≤ output_limit }
    ensures file { IfOk result (λ file. file.items ≡ with_table class order out.items heads.now) }
    ensures small { IfOk result (λ file. vec_len file ≤ output_limit) }
    ensures refused { IfErr result (Blames (TooLong (length (with_table class order out.items heads.now)))) }
{
    let mut file = out;
    pad_to_word(&mut file, class)?;
    let place = file.len() as u64;
    if !class.holds_section_headers(place, heads.len() as u64, OUTPUT_LIMIT) {
        return Err(too_long());
    }
    push_shdrs(&mut file, class, order, heads)?;
    put_shoff(&mut file, class, order, place);
    Ok(file)
}
