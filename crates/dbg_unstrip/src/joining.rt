//! The file of a stripped file and its debug file (gABI ch. 4 "ELF Header", "Sections"; this project's profile
//! of the layout).

ghost use Rattle.std.specs.Prelude.{◌≡◌, ◌≢◌, ◌+◌, ◌*◌, ◌^◌, ◌++◌, ◌<◌, ◌≤◌, ◌==◌, ◌&&◌, not, ℕ, true, false, drop, take, length, vec_len, IfErr, IfOk, MatchOption, OnOk};
ghost use Rattle.dw_base.specs.Elf.{class_of, e_shnum, e_shstrndx, ehdr_size, section_count, shnum_place, shstrndx_place};
ghost use Rattle.dw_base.specs.ElfFails.{SegmentsRead};
ghost use Rattle.dw_base.specs.Layout.{extended, fixed_end, laid, new_head, new_heads, output_limit};
ghost use Rattle.dw_base.specs.LayoutFails.{TooLong};
ghost use Rattle.dw_base.specs.Lists.{tabulate};
ghost use Rattle.dw_base.specs.Numbers.{with_number};
ghost use Rattle.dw_base.specs.Refusals.{Blames};
ghost use Rattle.dw_base.specs.declared.fault.Refusal.{Refusal};
ghost use Rattle.dbg_unstrip.specs.Joined.{joined, joined_body, joined_front, joined_head, joined_header, joined_part, kept_place, partner_number, stays};
ghost use Rattle.dbg_unstrip.specs.Matching.{Differ, is_kept};

use crate::kept::is_kept;
use crate::matching::partner_at;
use dw_base::{Class, Fault, NoMemory, Order, Section, number_in, put_number};
use elf_file::ElfFile;
use elf_layout::{Pieces, join_table, lay_lent};
use std::alloc::{AllocError, Global};

/// The section of the stripped file that stands with a section of the debug file, whose place among the kept ones this is; `None` of
/// one that wasn't kept.
#[tactic(auto, using(crate::proofs::MatchLaws::joining_laws), unfolding(crate::specs::Joined::partner_number))]
fn partner_of(stripped: &ElfFile, debug: &ElfFile, place: u32, section: u32) -> Option<u32>
    requires there { section < section_count debug.now.bytes.now }
    requires place { place ≡ kept_place debug.now.bytes.now section }
    requires matched { (n : ℕ) → Differ stripped.now.bytes.now debug.now.bytes.now n → ⊥ }
    ensures partner { MatchOption result (is_kept debug.now.bytes.now section ≡ false) (λ j. (is_kept debug.now.bytes.now section ≡ true) × (j ≡ partner_number stripped.now.bytes.now debug.now.bytes.now section) × (j < section_count stripped.now.bytes.now)) }
{
    if !is_kept(debug, section) {
        return None;
    }
    partner_at(stripped, place)
}

/// A kept section stays where its partner is in the stripped file.
#[tactic(auto, unfolding(crate::specs::Joined::stays))]
fn stays(stripped: &ElfFile, debug: &ElfFile, end: u64, partner: u32, section: u32) -> bool
    requires end { end ≡ fixed_end stripped.now.bytes.now }
    requires kept { is_kept debug.now.bytes.now section ≡ true }
    requires partner { partner ≡ partner_number stripped.now.bytes.now debug.now.bytes.now section }
    requires there { partner < section_count stripped.now.bytes.now }
    ensures { result ≡ stays stripped.now.bytes.now debug.now.bytes.now section }
{
    section != debug.names && stripped.is_fixed_by(partner, end)
}

/// The header of a kept section, but for the place of one that moves; `fixed` says that it stays.
#[tactic(auto, unfolding(crate::specs::Joined::joined_head))]
fn kept_head(
    stripped: &ElfFile,
    debug: &ElfFile,
    partner: u32,
    section: u32,
    fixed: bool,
) -> Section
    requires section { section < section_count debug.now.bytes.now }
    requires kept { is_kept debug.now.bytes.now section ≡ true }
    requires partner { partner ≡ partner_number stripped.now.bytes.now debug.now.bytes.now section }
    requires there { partner < section_count stripped.now.bytes.now }
    requires fixed { fixed ≡ stays stripped.now.bytes.now debug.now.bytes.now section }
    ensures { result ≡ joined_head stripped.now.bytes.now debug.now.bytes.now section }
{
    let own = debug.section(section);
    let new = stripped.section(partner);
    Section {
        kind: new.kind,
        offset: if fixed { new.offset } else { own.offset },
        ..own
    }
}

/// The bytes of a kept section.
#[tactic(auto, unfolding(crate::specs::Joined::joined_body))]
fn kept_body<'a>(
    stripped: &ElfFile<'a>,
    debug: &ElfFile<'a>,
    partner: u32,
    section: u32,
) -> &'a [u8]
    requires section { section < section_count debug.now.bytes.now }
    requires kept { is_kept debug.now.bytes.now section ≡ true }
    requires partner { partner ≡ partner_number stripped.now.bytes.now debug.now.bytes.now section }
    requires there { partner < section_count stripped.now.bytes.now }
    ensures { result.now ≡ joined_body stripped.now.bytes.now debug.now.bytes.now section }
{
    if section == debug.names {
        return debug.contents(section);
    }
    stripped.contents(partner)
}

/// Lays out a kept section behind a front and the pieces so far, where it moves; its new header.
#[tactic(auto, unfolding(crate::specs::Joined::joined_part))]
fn lay_kept<'a>(
    alloc: Global,
    stripped: &ElfFile<'a>,
    debug: &ElfFile<'a>,
    end: u64,
    partner: u32,
    section: u32,
    front: &[u8],
    out: &mut Pieces<'a>,
) -> Result<Section, Fault>
    requires end { end ≡ fixed_end stripped.now.bytes.now }
    requires section { section < section_count debug.now.bytes.now }
    requires kept { is_kept debug.now.bytes.now section ≡ true }
    requires partner { partner ≡ partner_number stripped.now.bytes.now debug.now.bytes.now section }
    requires there { partner < section_count stripped.now.bytes.now }
    requires small { length front.now + length out.old ≤ output_limit }
    ensures laid { OnOk result (front.now ++ out.new ≡ extended (front.now ++ out.old) (joined_part stripped.now.bytes.now debug.now.bytes.now section)) }
    ensures head { IfOk result (λ head. head ≡ new_head (length (front.now ++ out.old)) (joined_part stripped.now.bytes.now debug.now.bytes.now section)) }
    ensures small { OnOk result (length front.now + length out.new ≤ output_limit) }
    ensures refused { IfErr result (Blames (TooLong (length (extended (front.now ++ out.old) (joined_part stripped.now.bytes.now debug.now.bytes.now section))))) }
{
    let fixed = stays(stripped, debug, end, partner, section);
    let head = kept_head(stripped, debug, partner, section, fixed);
    let moves = !head.takes_no_room() && !fixed;
    let body = kept_body(stripped, debug, partner, section);
    lay_lent(alloc, front, out, &head, moves, body)
}

/// Lays out a section of the debug file that wasn't kept behind a front and the pieces so far, where it has bytes; its new header.
#[tactic(auto, using(crate::proofs::JoinedLaws::own_laws))]
fn lay_own<'a>(
    alloc: Global,
    stripped: &ElfFile<'a>,
    debug: &ElfFile<'a>,
    section: u32,
    front: &[u8],
    out: &mut Pieces<'a>,
) -> Result<Section, Fault>
    requires section { section < section_count debug.now.bytes.now }
    requires dropped { is_kept debug.now.bytes.now section ≡ false }
    requires small { length front.now + length out.old ≤ output_limit }
    ensures laid { OnOk result (front.now ++ out.new ≡ extended (front.now ++ out.old) (joined_part stripped.now.bytes.now debug.now.bytes.now section)) }
    ensures head { IfOk result (λ head. head ≡ new_head (length (front.now ++ out.old)) (joined_part stripped.now.bytes.now debug.now.bytes.now section)) }
    ensures small { OnOk result (length front.now + length out.new ≤ output_limit) }
    ensures refused { IfErr result (Blames (TooLong (length (extended (front.now ++ out.old) (joined_part stripped.now.bytes.now debug.now.bytes.now section))))) }
{
    let head = debug.section(section);
    let moves = !head.takes_no_room();
    lay_lent(alloc, front, out, &head, moves, debug.contents(section))
}

/// Lays out a section behind a front and the pieces so far, where it moves; its new header. `partner` is the section of the stripped
/// file that stands with it, `None` where it wasn't kept.
fn lay_section<'a>(
    alloc: Global,
    stripped: &ElfFile<'a>,
    debug: &ElfFile<'a>,
    end: u64,
    partner: Option<u32>,
    section: u32,
    front: &[u8],
    out: &mut Pieces<'a>,
) -> Result<Section, Fault>
    requires end { end ≡ fixed_end stripped.now.bytes.now }
    requires section { section < section_count debug.now.bytes.now }
    requires partner { MatchOption partner (is_kept debug.now.bytes.now section ≡ false) (λ j. (is_kept debug.now.bytes.now section ≡ true) × (j ≡ partner_number stripped.now.bytes.now debug.now.bytes.now section) × (j < section_count stripped.now.bytes.now)) }
    requires small { length front.now + length out.old ≤ output_limit }
    ensures laid { OnOk result (front.now ++ out.new ≡ extended (front.now ++ out.old) (joined_part stripped.now.bytes.now debug.now.bytes.now section)) }
    ensures head { IfOk result (λ head. head ≡ new_head (length (front.now ++ out.old)) (joined_part stripped.now.bytes.now debug.now.bytes.now section)) }
    ensures small { OnOk result (length front.now + length out.new ≤ output_limit) }
    ensures refused { IfErr result (Blames (TooLong (length (extended (front.now ++ out.old) (joined_part stripped.now.bytes.now debug.now.bytes.now section))))) }
{
    match partner {
        Some(partner) => lay_kept(alloc, stripped, debug, end, partner, section, front, out),
        None => lay_own(alloc, stripped, debug, section, front, out),
    }
}

/// The place among the kept sections behind a section.
#[tactic(auto, using(crate::proofs::MatchLaws::joining_laws))]
fn place_behind(debug: &ElfFile, place: u32, section: u32, partner: Option<u32>) -> u32
    requires there { section < section_count debug.now.bytes.now }
    requires place { place ≡ kept_place debug.now.bytes.now section }
    requires partner { MatchOption partner (is_kept debug.now.bytes.now section ≡ false) (λ j. is_kept debug.now.bytes.now section ≡ true) }
    ensures { result ≡ kept_place debug.now.bytes.now (section + 1) }
{
    match partner {
        Some(_) => place + 1,
        None => place,
    }
}

/// The sections of the file, laid out behind a front of which the first part is given, and the pieces of its rest; and the new headers
/// of all.
#[tactic(auto)]
fn lay_sections<'a>(
    alloc: Global,
    stripped: &ElfFile<'a>,
    debug: &ElfFile<'a>,
    end: u64,
    header: &[u8],
    rest: Pieces<'a>,
) -> Result<(Pieces<'a>, Vec<Section>), Fault>
    requires end { end ≡ fixed_end stripped.now.bytes.now }
    requires matched { (n : ℕ) → Differ stripped.now.bytes.now debug.now.bytes.now n → ⊥ }
    requires front { header.now ++ rest ≡ joined_front stripped.now.bytes.now debug.now.bytes.now }
    requires small { length header.now + length rest ≤ output_limit }
    ensures laid { IfOk result (λ l. header.now ++ l.0 ≡ laid (joined_front stripped.now.bytes.now debug.now.bytes.now) (tabulate (joined_part stripped.now.bytes.now debug.now.bytes.now) (section_count debug.now.bytes.now))) }
    ensures heads { IfOk result (λ l. l.1.items ≡ new_heads (joined_front stripped.now.bytes.now debug.now.bytes.now) (tabulate (joined_part stripped.now.bytes.now debug.now.bytes.now) (section_count debug.now.bytes.now))) }
    ensures small { IfOk result (λ l. length header.now + length l.0 ≤ output_limit) }
    ensures refused { IfErr result (Blames (TooLong (length (laid (joined_front stripped.now.bytes.now debug.now.bytes.now) (tabulate (joined_part stripped.now.bytes.now debug.now.bytes.now) (section_count debug.now.bytes.now)))))) }
{
    let mut out = rest;
    let mut heads = Vec::with_capacity(alloc, debug.sections.len())?;
    let mut place = 0_u32;
    for section in 0..debug.section_count() {
        let partner = partner_of(stripped, debug, place, section);
        heads.push(lay_section(
            alloc, stripped, debug, end, partner, section, header, &mut out,
        )?)?;
        place = place_behind(debug, place, section, partner);
    }
    Ok((out, heads))
}

/// Puts the number of sections and that of the section name table into a file header, as they stand in another (`e_shnum`,
/// `e_shstrndx`).
fn put_numbers(header: &mut [u8], class: Class, order: Order, count: u64, names: u64)
    requires whole { ehdr_size class ≤ length header.old }
    requires count { count < 2 ^ 16 }
    requires names { names < 2 ^ 16 }
    ensures { header.new ≡ with_number order (with_number order header.old (shnum_place class) 2 count) (shstrndx_place class) 2 names }
{
    let fits = put_number(order, header, class.shnum_place(), 2, count);
    prove!(fits);
    let fits = put_number(order, header, class.shstrndx_place(), 2, names);
    prove!(fits);
}

/// `e_shnum`.
#[tactic(auto, using(crate::proofs::JoinedLaws::header_laws), unfolding(dw_base::specs::Elf::e_shnum))]
fn shnum(elf: &ElfFile) -> u64
    ensures value { result ≡ e_shnum elf.now.bytes.now }
    ensures small { result < 2 ^ 16 }
{
    number_in(elf.order, elf.bytes, elf.class.shnum_place(), 2)
}

/// `e_shstrndx`.
#[tactic(auto, using(crate::proofs::JoinedLaws::header_laws), unfolding(dw_base::specs::Elf::e_shstrndx))]
fn shstrndx(elf: &ElfFile) -> u64
    ensures value { result ≡ e_shstrndx elf.now.bytes.now }
    ensures small { result < 2 ^ 16 }
{
    number_in(elf.order, elf.bytes, elf.class.shstrndx_place(), 2)
}

/// The file header.
#[tactic(auto, unfolding(crate::specs::Joined::joined_header), using(crate::proofs::JoinedLaws::header_laws))]
fn joined_header(alloc: Global, stripped: &ElfFile, debug: &ElfFile) -> Result<Vec<u8>, AllocError>
    ensures header { IfOk result (λ header. header.items ≡ joined_header stripped.now.bytes.now debug.now.bytes.now) }
    ensures len { IfOk result (λ header. vec_len header ≡ ehdr_size stripped.now.class) }
{
    let size = stripped.class.file_header_size() as usize;
    let mut header = Vec::from_slice(alloc, &stripped.bytes[..size])?;
    put_numbers(
        &mut header,
        stripped.class,
        stripped.order,
        shnum(debug),
        shstrndx(debug),
    );
    Ok(header)
}

/// What stays of the stripped file behind its file header.
fn behind_header<'a>(
    alloc: Global,
    stripped: &ElfFile<'a>,
    end: u64,
) -> Result<Pieces<'a>, NoMemory>
    requires header { ehdr_size stripped.now.class ≤ end }
    requires within { end ≤ length stripped.now.bytes.now }
    ensures rest { IfOk result (λ rest. rest ≡ drop (ehdr_size stripped.now.class) (take end stripped.now.bytes.now)) }
{
    let size = stripped.class.file_header_size() as usize;
    let mut rest = Pieces::new(alloc);
    rest.push(Vec::new(alloc), &stripped.bytes[size..end as usize])?;
    Ok(rest)
}

/// The file of the two, of which both lend their bytes. Refused as `TooLarge` only where it would pass the limit.
#[tactic(auto, unfolding(crate::specs::Joined::joined, dw_base::specs::Layout::laid_out), using(crate::proofs::JoinedLaws::file_laws))]
pub fn joined<'a>(
    alloc: Global,
    stripped: &ElfFile<'a>,
    debug: &ElfFile<'a>,
) -> Result<Pieces<'a>, Fault>
    requires segments { SegmentsRead stripped.now.bytes.now }
    requires matched { (n : ℕ) → Differ stripped.now.bytes.now debug.now.bytes.now n → ⊥ }
    ensures file { IfOk result (λ file. file ≡ joined stripped.now.bytes.now debug.now.bytes.now) }
    ensures small { IfOk result (λ file. length file ≤ output_limit) }
    ensures none { OnOk result ((r : Refusal) → TooLong (length (joined stripped.now.bytes.now debug.now.bytes.now)) r → ⊥) }
    ensures refused { IfErr result (Blames (TooLong (length (joined stripped.now.bytes.now debug.now.bytes.now)))) }
{
    let end = stripped.fixed_end();
    let header = joined_header(alloc, stripped, debug)?;
    let rest = behind_header(alloc, stripped, end)?;
    let (behind, heads) = lay_sections(alloc, stripped, debug, end, &header, rest)?;
    let file = join_table(
        alloc,
        header,
        behind,
        stripped.class,
        stripped.order,
        &heads,
    )?;
    Ok(file)
}
