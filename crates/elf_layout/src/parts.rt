//! Files written from a front and parts: this project's profile.

ghost use Rattle.std.specs.Prelude.{◌≡◌, ◌+◌, ◌^◌, ◌<◌, ◌≤◌, ◌++◌, ◌&&◌, not, [], ℕ, length, slice_index_or, vec_len, IfOk, OnOk, IfErr};
ghost use Rattle.dw_base.specs.Elf.{ehdr_size, is_empty_kind, shnum_place, shstrndx_place};
ghost use Rattle.dw_base.specs.Layout.{output_limit, extended, laid, new_head, new_heads};
ghost use Rattle.dw_base.specs.LayoutFails.{TooLong};
ghost use Rattle.dw_base.specs.Parts.{FitParts, PartsReadBack, in_header, in_section_0, numbered_first, numbered_front, numbered_head, parts_file};
ghost use Rattle.dw_base.specs.Refusals.{Blames};
ghost use Rattle.dw_base.specs.declared.fault.Refusal.{Refusal};
ghost use Rattle.dw_base.specs.declared.elf_numbers.TheConstants.{SHT_NULL};
ghost use Rattle.elf_layout.specs.declared.part.Part.{Part as GivenPart};
ghost use Rattle.elf_layout.specs.PartsGiven.{ArePartsFor, part_given, parts_given};

use crate::laying::{lay, too_long};
use crate::part::Part;
use crate::section_headers::append_table;
use dw_base::elf_numbers::{SHN_LORESERVE, SHN_XINDEX};
use dw_base::{Class, Fault, OUTPUT_LIMIT, Order, Section, put_number};
use elf_file::ElfFile;
use std::alloc::{AllocError, Global};

/// What section 0 has of a number: the number itself, where it is 0xff00 or more.
fn in_section_0(number: u64) -> u64
    ensures { result ≡ in_section_0 number }
{
    if number < u64::from(SHN_LORESERVE) {
        0
    } else {
        number
    }
}

/// What the file header has of a number; `elsewhere` stands there for one that is kept in section 0.
fn in_header(elsewhere: u16, number: u64) -> u64
    ensures value { result ≡ in_header elsewhere number }
    ensures fits { result < 256 ^ 2 }
{
    if number < u64::from(SHN_LORESERVE) {
        number
    } else {
        u64::from(elsewhere)
    }
}

/// Section 0 with the number of sections and that of the section name table.
fn numbered_head(head: &Section, count: u64, names: u32) -> Section
    ensures { result ≡ numbered_head count names head.now }
{
    let link = if u64::from(names) < u64::from(SHN_LORESERVE) {
        0
    } else {
        names
    };
    Section {
        size: in_section_0(count),
        link,
        ..*head
    }
}

/// Puts the number of sections and that of the section name table into the file header.
#[tactic(auto, unfolding(dw_base::specs::Parts::numbered_front))]
fn put_numbers(front: &mut [u8], class: Class, order: Order, count: u64, names: u32)
    requires header { ehdr_size class ≤ length front.old }
    ensures { front.new ≡ numbered_front class order front.old count names }
{
    let counted = put_number(order, front, class.shnum_place(), 2, in_header(0, count));
    prove!(counted);
    let named = put_number(
        order,
        front,
        class.shstrndx_place(),
        2,
        in_header(SHN_XINDEX, u64::from(names)),
    );
    prove!(named);
}

/// Lays out a part, where it is neither kept nor of type NULL or NOBITS; its new header.
fn lay_part(out: &mut Vec<u8>, part: &Part) -> Result<Section, Fault>
    requires small { vec_len out.old ≤ output_limit }
    ensures laid { OnOk result (out.new.items ≡ extended out.old.items (part_given part.now)) }
    ensures head { IfOk result (λ head. head ≡ new_head (length out.old.items) (part_given part.now)) }
    ensures small { OnOk result (vec_len out.new ≤ output_limit) }
    ensures longer { OnOk result (vec_len out.old ≤ vec_len out.new) }
    ensures refused { IfErr result (Blames (TooLong (length (extended out.old.items (part_given part.now))))) }
{
    let moves = !part.kept && !part.head.takes_no_room();
    match &part.body {
        Some(body) => lay(out, &part.head, moves, body.as_slice()),
        None => lay(out, &part.head, moves, &[]),
    }
}

/// Lays out parts; their new headers follow those that are there.
#[tactic(auto, using(crate::proofs::PartRows::part_rows))]
fn lay_parts(parts: &[Part], out: &mut Vec<u8>, heads: &mut Vec<Section>) -> Result<(), Fault>
    requires small { vec_len out.old ≤ output_limit }
    ensures laid { OnOk result (out.new.items ≡ laid out.old.items (parts_given parts.now)) }
    ensures heads { OnOk result (heads.new.items ≡ heads.old.items ++ new_heads out.old.items (parts_given parts.now)) }
    ensures small { OnOk result (vec_len out.new ≤ output_limit) }
    ensures longer { OnOk result (vec_len out.old ≤ vec_len out.new) }
    ensures refused { IfErr result (Blames (TooLong (length (laid out.old.items (parts_given parts.now))))) }
{
    for part in parts {
        heads.push(lay_part(out, part)?)?;
    }
    Ok(())
}

/// A front with the number of sections and that of the section name table in its file header.
fn numbered_front(
    alloc: Global,
    class: Class,
    order: Order,
    front: &[u8],
    count: u64,
    names: u32,
) -> Result<Vec<u8>, AllocError>
    requires header { ehdr_size class ≤ length front.now }
    ensures front { IfOk result (λ out. out.items ≡ numbered_front class order front.now count names) }
    ensures len { IfOk result (λ out. vec_len out ≡ length front.now) }
{
    let mut out = Vec::from_slice(alloc, front)?;
    put_numbers(&mut out, class, order, count, names);
    Ok(out)
}

/// Lays out parts, of which the first is section 0; the new headers of all.
#[tactic(auto, using(crate::proofs::PartRows::first_rows))]
fn lay_all(
    alloc: Global,
    parts: &[Part],
    names: u32,
    out: &mut Vec<u8>,
) -> Result<Vec<Section>, Fault>
    requires some { 0 < length parts.now }
    requires null { (d : GivenPart) → (slice_index_or parts.now 0 d).head.kind ≡ SHT_NULL }
    requires small { vec_len out.old ≤ output_limit }
    ensures laid { OnOk result (out.new.items ≡ laid out.old.items (numbered_first (length parts.now) names (parts_given parts.now))) }
    ensures heads { IfOk result (λ heads. heads.items ≡ new_heads out.old.items (numbered_first (length parts.now) names (parts_given parts.now))) }
    ensures small { OnOk result (vec_len out.new ≤ output_limit) }
    ensures longer { OnOk result (vec_len out.old ≤ vec_len out.new) }
    ensures refused { IfErr result (Blames (TooLong (length (laid out.old.items (numbered_first (length parts.now) names (parts_given parts.now)))))) }
{
    let mut heads = Vec::with_capacity(alloc, parts.len())?;
    heads.push(numbered_head(&parts[0].head, parts.len() as u64, names))?;
    lay_parts(&parts[1..], out, &mut heads)?;
    Ok(heads)
}

/// What `write_parts` gives, byte for byte.
#[tactic(auto, using(crate::proofs::PartRows::file_rows), unfolding(dw_base::specs::Parts::parts_file, dw_base::specs::Layout::laid_out))]
fn file_of_parts(
    alloc: Global,
    elf: &ElfFile,
    front: &[u8],
    parts: &[Part],
    names: u32,
) -> Result<Vec<u8>, Fault>
    requires parts { ArePartsFor elf.now.class front.now parts.now }
    ensures file { IfOk result (λ file. file.items ≡ parts_file elf.now.class elf.now.order front.now (parts_given parts.now) names) }
    ensures small { IfOk result (λ file. length file.items ≤ output_limit) }
    ensures none { OnOk result ((r : Refusal)
        → TooLong (length (parts_file elf.now.class elf.now.order front.now (parts_given parts.now) names)) r → ⊥) }
    ensures refused { IfErr result (Blames (TooLong (length (parts_file elf.now.class elf.now.order front.now (parts_given parts.now) names)))) }
{
    if front.len() as u64 > OUTPUT_LIMIT {
        return Err(too_long());
    }
    let count = parts.len() as u64;
    let mut out = numbered_front(alloc, elf.class, elf.order, front, count, names)?;
    let heads = lay_all(alloc, parts, names, &mut out)?;
    let file = append_table(out, elf.class, elf.order, &heads)?;
    Ok(file)
}

/// The file of a front and parts: the front, with the numbers of sections and of the section name table
/// in its file header, the parts that are neither kept nor of type NULL or NOBITS, and the headers of
/// all. Its sections read back as the parts, where these fit one another. Refused as `TooLarge` only
/// where it would pass the limit; else it is written, or memory is short.
pub fn write_parts(
    alloc: Global,
    elf: &ElfFile,
    front: &[u8],
    parts: &[Part],
    names: u32,
) -> Result<Vec<u8>, Fault>
    requires parts { ArePartsFor elf.now.class front.now parts.now }
    ensures file { IfOk result (λ file. file.items ≡ parts_file elf.now.class elf.now.order front.now (parts_given parts.now) names) }
    ensures reads_back { IfOk result (λ file. FitParts elf.now.class elf.now.order front.now (parts_given parts.now) names
        → PartsReadBack elf.now.class elf.now.order front.now (parts_given parts.now) names file.items) }
    ensures none { OnOk result ((r : Refusal)
        → TooLong (length (parts_file elf.now.class elf.now.order front.now (parts_given parts.now) names)) r → ⊥) }
    ensures refused { IfErr result (Blames (TooLong (length (parts_file elf.now.class elf.now.order front.now (parts_given parts.now) names)))) }
{
    let file = file_of_parts(alloc, elf, front, parts, names)?;
    Ok(file)
}
