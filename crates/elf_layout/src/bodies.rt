//! Files written with new section bodies: this project's profile.

ghost use Rattle.std.specs.Prelude.{◌≡◌, ◌↔◌, ◌+◌, ◌-◌, ◌<◌, ◌≤◌, ◌++◌, ◌&&◌, ℕ, length, replicate, slice_index, take, IsTrue, OnOk, IfOk, IfErr};
ghost use Rattle.dw_base.specs.ElfFails.{SegmentsRead};
ghost use Rattle.dw_base.specs.Elf.{ehdr_size, section_count};
ghost use Rattle.dw_base.specs.Layout.{output_limit, extended, fixed_end, laid, laid_out, new_head, new_heads, part_of, with_bodies};
ghost use Rattle.dw_base.specs.LayoutFails.{Changes, LayoutFails, SectionStays, TooLong};
ghost use Rattle.dw_base.specs.LayoutReads.{ReadsBack};
ghost use Rattle.dw_base.specs.Lists.{tabulate};
ghost use Rattle.dw_base.specs.Refusals.{Blames};
ghost use Rattle.dw_base.specs.declared.fault.Refusal.{Refusal};
ghost use Rattle.elf_layout.specs.Given.{AreContents, body_bytes, body_given, part, part_with, parts_with};

use crate::fixed::{begins_in_header, lies_across};
use crate::in_pieces::{join_table, lay_lent, zeros_of};
use crate::laying::{padding_at, too_long};
use crate::new_body::NewBody;
use crate::pieces::Pieces;
use dw_base::{Fault, Kind, NoMemory, OUTPUT_LIMIT, Refusal, Section};
use elf_file::ElfFile;
use std::alloc::{AllocError, Global};

/// A section that stays is given other bytes than it has.
#[tactic(auto, unfolding(crate::specs::Given::body_given))]
fn changes(
    alloc: Global,
    elf: &ElfFile,
    end: u64,
    contents: &[Option<NewBody>],
    section: u32,
) -> Result<bool, AllocError>
    requires end { end ≡ fixed_end elf.now.bytes.now }
    requires there { section < section_count elf.now.bytes.now }
    requires contents { AreContents elf.now.bytes.now contents.now }
    ensures { IfOk result (λ changes. IsTrue changes ↔ Changes elf.now.bytes.now (body_given elf.now.bytes.now contents.now) section) }
{
    match &contents[section as usize] {
        Some(body) => {
            if !elf.is_fixed_by(section, end) {
                return Ok(false);
            }
            let bytes = body.to_vec(alloc)?;
            Ok(bytes.as_slice() != elf.contents(section))
        }
        None => Ok(false),
    }
}

/// A section can be written. Refused as `Fixed` at (its number, 0) exactly where it lies across the
/// fixed end, begins in the file header, or stays and is given other bytes than it has.
#[tactic(auto, using(crate::proofs::Rows::stays_rows))]
fn can_be_written(
    alloc: Global,
    elf: &ElfFile,
    end: u64,
    contents: &[Option<NewBody>],
    section: u32,
) -> Result<(), Fault>
    requires end { end ≡ fixed_end elf.now.bytes.now }
    requires there { section < section_count elf.now.bytes.now }
    requires contents { AreContents elf.now.bytes.now contents.now }
    ensures none { OnOk result ((r : Refusal)
        → SectionStays elf.now.bytes.now (body_given elf.now.bytes.now contents.now) section r → ⊥) }
    ensures refused { IfErr result (Blames (SectionStays elf.now.bytes.now (body_given elf.now.bytes.now contents.now) section)) }
{
    let head = elf.section(section);
    if lies_across(elf, end, &head) {
        return Err(Refusal::at(Kind::Fixed, section, 0).into());
    }
    if begins_in_header(elf, &head) {
        return Err(Refusal::at(Kind::Fixed, section, 0).into());
    }
    let changed = changes(alloc, elf, end, contents, section)?;
    if changed {
        return Err(Refusal::at(Kind::Fixed, section, 0).into());
    }
    Ok(())
}

/// Each section can be written. Refused as `Fixed` exactly where one can't.
#[tactic(auto, using(crate::proofs::Rows::stays_rows))]
fn all_can_be_written(
    alloc: Global,
    elf: &ElfFile,
    end: u64,
    contents: &[Option<NewBody>],
) -> Result<(), Fault>
    requires end { end ≡ fixed_end elf.now.bytes.now }
    requires contents { AreContents elf.now.bytes.now contents.now }
    ensures none { OnOk result ((i : ℕ) (r : Refusal) → i < section_count elf.now.bytes.now
        → SectionStays elf.now.bytes.now (body_given elf.now.bytes.now contents.now) i r → ⊥) }
    ensures refused { IfErr result (Blames (LayoutFails elf.now.bytes.now (body_given elf.now.bytes.now contents.now))) }
{
    for section in 0..elf.section_count() {
        can_be_written(alloc, elf, end, contents, section)?;
    }
    Ok(())
}

/// Appends zeros, and a body behind them, to the pieces of a file that has `place` bytes so far. Refused as `TooLarge` only
/// where that passes the limit.
#[tactic(auto, using(crate::proofs::PieceLaws::long_rules))]
fn push_body<'a>(
    alloc: Global,
    out: &mut Pieces<'a>,
    place: u64,
    zeros: u64,
    body: NewBody<'a>,
) -> Result<(), Fault>
    requires small { place ≤ output_limit }
    requires within { length out.old ≤ place }
    ensures pushed { OnOk result (out.new ≡ out.old ++ (replicate zeros 0 ++ body_bytes body.entry)) }
    ensures small { OnOk result (place + zeros + length (body_bytes body.entry) ≤ output_limit) }
    ensures refused { IfErr result (Blames (TooLong (place + zeros + length (body_bytes body.entry)))) }
{
    let room = OUTPUT_LIMIT - place;
    if zeros > room {
        return Err(too_long());
    }
    if body.len() > room - zeros {
        return Err(too_long());
    }
    let made = zeros_of(alloc, zeros as usize)?;
    body.push_onto(alloc, made, out)?;
    Ok(())
}

/// Lays out a section with a new body behind a front and the pieces laid so far, where it moves; its new header.
#[tactic(auto, using(crate::proofs::PieceLaws::lay_rules), unfolding(dw_base::specs::Layout::placed, dw_base::specs::Layout::new_head))]
fn lay_body<'a>(
    alloc: Global,
    front: &[u8],
    out: &mut Pieces<'a>,
    head: &Section,
    moves: bool,
    body: NewBody<'a>,
) -> Result<Section, Fault>
    requires small { length front.now + length out.old ≤ output_limit }
    ensures laid { OnOk result (front.now ++ out.new ≡ extended (front.now ++ out.old) (part head.now moves (body_bytes body.entry))) }
    ensures head { IfOk result (λ h. h ≡ new_head (length (front.now ++ out.old)) (part head.now moves (body_bytes body.entry))) }
    ensures small { OnOk result (length front.now + length out.new ≤ output_limit) }
    ensures refused { IfErr result (Blames (TooLong (length (extended (front.now ++ out.old) (part head.now moves (body_bytes body.entry)))))) }
{
    if !moves {
        return Ok(*head);
    }
    let place = front.len() as u64 + out.len();
    let zeros = padding_at(place, head.align);
    let size = body.len();
    push_body(alloc, out, place, zeros, body)?;
    Ok(Section {
        offset: place + zeros,
        size,
        ..*head
    })
}

/// Lays out a section with the item that is given for it behind a front and the pieces laid so far, where it moves; its new header.
fn lay_section<'a>(
    alloc: Global,
    elf: &ElfFile<'a>,
    end: u64,
    front: &[u8],
    given: Option<NewBody<'a>>,
    section: u32,
    out: &mut Pieces<'a>,
) -> Result<Section, Fault>
    requires end { end ≡ fixed_end elf.now.bytes.now }
    requires there { section < section_count elf.now.bytes.now }
    requires small { length front.now + length out.old ≤ output_limit }
    ensures laid { OnOk result (front.now ++ out.new ≡ extended (front.now ++ out.old) (part_with elf.now.bytes.now section given.entry)) }
    ensures head { IfOk result (λ head. head ≡ new_head (length (front.now ++ out.old)) (part_with elf.now.bytes.now section given.entry)) }
    ensures small { OnOk result (length front.now + length out.new ≤ output_limit) }
    ensures refused { IfErr result (Blames (TooLong (length (extended (front.now ++ out.old) (part_with elf.now.bytes.now section given.entry))))) }
{
    let head = elf.section(section);
    let moves = !head.takes_no_room() && !elf.is_fixed_by(section, end);
    match given {
        Some(body) => lay_body(alloc, front, out, &head, moves, body),
        None => lay_lent(alloc, front, out, &head, moves, elf.contents(section)),
    }
}

/// Lays out the sections that move behind a front; the new headers of all.
#[tactic(auto, using(crate::proofs::GivenPartLaws::laid_rules))]
fn lay_sections<'a>(
    alloc: Global,
    elf: &ElfFile<'a>,
    end: u64,
    contents: Vec<Option<NewBody<'a>>>,
    front: &[u8],
) -> Result<(Pieces<'a>, Vec<Section>), Fault>
    requires end { end ≡ fixed_end elf.now.bytes.now }
    requires each { length contents.items ≡ section_count elf.now.bytes.now }
    requires small { length front.now ≤ output_limit }
    ensures laid { IfOk result (λ l. front.now ++ l.0 ≡ laid front.now (parts_with elf.now.bytes.now 0 contents.entry.items)) }
    ensures heads { IfOk result (λ l. l.1.items ≡ new_heads front.now (parts_with elf.now.bytes.now 0 contents.entry.items)) }
    ensures small { IfOk result (λ l. length front.now + length l.0 ≤ output_limit) }
    ensures refused { IfErr result (Blames (TooLong (length (laid front.now (parts_with elf.now.bytes.now 0 contents.entry.items))))) }
{
    let count = elf.section_count();
    let mut out = Pieces::new(alloc);
    let mut heads = Vec::with_capacity(alloc, count as usize)?;
    let mut section = 0;
    for given in contents {
        prove!(section < count);
        heads.push(lay_section(alloc, elf, end, front, given, section, &mut out)?)?;
        section += 1;
    }
    Ok((out, heads))
}

/// The file of the front up to the fixed end, the sections that move, and the new headers.
#[tactic(auto, using(crate::proofs::Rows::file_rows, crate::proofs::GivenPartLaws::file_rules), unfolding(dw_base::specs::Layout::laid_out))]
fn lay_out<'a>(
    alloc: Global,
    elf: &ElfFile<'a>,
    end: u64,
    contents: Vec<Option<NewBody<'a>>>,
) -> Result<Pieces<'a>, Fault>
    requires end { end ≡ fixed_end elf.now.bytes.now }
    requires header { ehdr_size elf.now.class ≤ end }
    requires within { end ≤ length elf.now.bytes.now }
    requires contents { AreContents elf.now.bytes.now contents.items }
    ensures file { IfOk result (λ file. file ≡ laid_out elf.now.class elf.now.order (take end elf.now.bytes.now)
        (tabulate (part_of elf.now.bytes.now (body_given elf.now.bytes.now contents.entry.items)) (section_count elf.now.bytes.now))) }
    ensures small { IfOk result (λ file. length file ≤ output_limit) }
    ensures refused { IfErr result (Blames (TooLong (length (laid_out elf.now.class elf.now.order (take end elf.now.bytes.now)
        (tabulate (part_of elf.now.bytes.now (body_given elf.now.bytes.now contents.entry.items)) (section_count elf.now.bytes.now)))))) }
{
    let front = Vec::from_slice(alloc, &elf.bytes[..end as usize])?;
    let (behind, heads) = lay_sections(alloc, elf, end, contents, &front)?;
    let file = join_table(alloc, front, behind, elf.class, elf.order, &heads)?;
    Ok(file)
}

/// Each section can be written, by the items of a vector.
#[tactic(auto, using(crate::proofs::GivenPartLaws::lent_rules))]
fn all_fit(
    alloc: Global,
    elf: &ElfFile,
    end: u64,
    contents: &Vec<Option<NewBody>>,
) -> Result<(), Fault>
    requires end { end ≡ fixed_end elf.now.bytes.now }
    requires contents { AreContents elf.now.bytes.now contents.now.items }
    ensures none { OnOk result ((i : ℕ) (r : Refusal) → i < section_count elf.now.bytes.now
        → SectionStays elf.now.bytes.now (body_given elf.now.bytes.now contents.now.items) i r → ⊥) }
    ensures refused { IfErr result (Blames (LayoutFails elf.now.bytes.now (body_given elf.now.bytes.now contents.now.items))) }
{
    all_can_be_written(alloc, elf, end, contents.as_slice())?;
    Ok(())
}

/// The pieces of a file as it is.
fn kept<'a>(alloc: Global, bytes: &'a [u8]) -> Result<Pieces<'a>, NoMemory>
    requires small { length bytes.now ≤ output_limit }
    ensures value { IfOk result (λ file. file ≡ bytes.now) }
{
    let mut file = Pieces::new(alloc);
    file.push(Vec::new(alloc), bytes)?;
    Ok(file)
}

/// What `emit` gives, for a file of these bytes.
#[tactic(auto, using(crate::proofs::Rows::emit_rows), unfolding(dw_base::specs::Layout::with_bodies))]
fn with_new_bodies<'a>(
    alloc: Global,
    bytes: &'a [u8],
    elf: &ElfFile<'a>,
    contents: Vec<Option<NewBody<'a>>>,
) -> Result<Pieces<'a>, Fault>
    requires bytes { bytes.now ≡ elf.now.bytes.now }
    requires segments { SegmentsRead bytes.now }
    requires contents { AreContents bytes.now contents.items }
    ensures file { IfOk result (λ file. file ≡ with_bodies bytes.now (body_given bytes.now contents.entry.items)) }
    ensures bytes { OnOk result ((k : ℕ) → slice_index bytes.now k < 256) }
    ensures none { OnOk result ((r : Refusal) → LayoutFails bytes.now (body_given bytes.now contents.entry.items) r → ⊥) }
    ensures refused { IfErr result (Blames (LayoutFails bytes.now (body_given bytes.now contents.entry.items))) }
{
    let end = elf.fixed_end();
    all_fit(alloc, elf, end, &contents)?;
    if elf.sections.is_empty() {
        return Ok(kept(alloc, bytes)?);
    }
    let file = lay_out(alloc, elf, end, contents)?;
    Ok(file)
}

/// The file with new section bodies, in pieces, one item for each section: its new body, or none where it keeps
/// its own. What stays of it behind the fixed end, and what new bodies have of old bytes far from new numbers, is lent. Its sections read back as they were, but for place, size and these bodies. Refused as
/// `Fixed` at (a section, 0) only where that section lies across the fixed end, begins in the file
/// header, or stays and is given other bytes than it has; as `TooLarge` only where the file would pass
/// the limit. Where none of these holds it is written, or memory is short.
pub fn emit<'a>(
    alloc: Global,
    elf: &ElfFile<'a>,
    contents: Vec<Option<NewBody<'a>>>,
) -> Result<Pieces<'a>, Fault>
    requires segments { SegmentsRead elf.now.bytes.now }
    requires contents { AreContents elf.now.bytes.now contents.items }
    ensures file { IfOk result (λ file. file ≡ with_bodies elf.now.bytes.now (body_given elf.now.bytes.now contents.entry.items)) }
    ensures reads_back { IfOk result (λ file. ReadsBack elf.now.bytes.now (body_given elf.now.bytes.now contents.entry.items) file) }
    ensures none { OnOk result ((r : Refusal) → LayoutFails elf.now.bytes.now (body_given elf.now.bytes.now contents.entry.items) r → ⊥) }
    ensures refused { IfErr result (Blames (LayoutFails elf.now.bytes.now (body_given elf.now.bytes.now contents.entry.items))) }
{
    let file = with_new_bodies(alloc, elf.bytes, elf, contents)?;
    Ok(file)
}
