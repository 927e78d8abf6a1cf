//! Files that are laid out in pieces, without a copy of what stays: this project's profile.

ghost use Rattle.std.specs.Prelude.{◌≡◌, ◌+◌, ◌*◌, ◌≤◌, ◌++◌, length, vec_len, replicate, OnOk, IfOk, IfErr};
ghost use Rattle.dw_base.specs.Elf.{ehdr_size, shdr_size, word_size};
ghost use Rattle.dw_base.specs.Layout.{output_limit, padding, extended, new_head, shdrs_bytes, with_table};
ghost use Rattle.dw_base.specs.LayoutFails.{TooLong};
ghost use Rattle.dw_base.specs.Refusals.{Blames};
ghost use Rattle.elf_layout.specs.Given.{part};

use crate::laying::{padding_at, too_long};
use crate::pieces::Pieces;
use crate::section_headers::{push_shdrs, put_shoff};
use dw_base::{Class, Fault, OUTPUT_LIMIT, Order, Section};
use std::alloc::{AllocError, Global};

/// So many zeros.
pub(crate) fn zeros_of(alloc: Global, count: usize) -> Result<Vec<u8>, AllocError>
    ensures value { IfOk result (λ zeros. zeros.items ≡ replicate count 0) }
    ensures len { IfOk result (λ zeros. vec_len zeros ≡ count) }
{
    let mut zeros = Vec::new(alloc);
    zeros.resize(count, 0)?;
    Ok(zeros)
}

/// Appends zeros, and a body behind them, to the pieces of a file that has `place` bytes so far. Refused as `TooLarge` only
/// where that passes the limit.
#[tactic(auto, using(crate::proofs::PieceLaws::long_rules))]
fn push_padded<'a>(
    alloc: Global,
    out: &mut Pieces<'a>,
    place: u64,
    zeros: u64,
    body: &'a [u8],
) -> Result<(), Fault>
    requires small { place ≤ output_limit }
    requires within { length out.old ≤ place }
    ensures pushed { OnOk result (out.new ≡ out.old ++ (replicate zeros 0 ++ body.now)) }
    ensures small { OnOk result (place + zeros + length body.now ≤ output_limit) }
    ensures refused { IfErr result (Blames (TooLong (place + zeros + length body.now))) }
{
    let room = OUTPUT_LIMIT - place;
    if zeros > room {
        return Err(too_long());
    }
    if body.len() as u64 > room - zeros {
        return Err(too_long());
    }
    let made = zeros_of(alloc, zeros as usize)?;
    out.push(made, body)?;
    Ok(())
}

/// Lays out a section behind a front and the pieces laid so far, where it moves, as `lay` does: its body stays where it
/// is lent. Its header, of one that moves with its new place and size. Refused as `TooLarge` only where the bytes would pass the
/// limit. After an error nothing is known of the pieces.
#[tactic(auto, using(crate::proofs::PieceLaws::lay_rules), unfolding(dw_base::specs::Layout::placed, dw_base::specs::Layout::new_head))]
pub fn lay_lent<'a>(
    alloc: Global,
    front: &[u8],
    out: &mut Pieces<'a>,
    head: &Section,
    moves: bool,
    body: &'a [u8],
) -> Result<Section, Fault>
    requires small { length front.now + length out.old ≤ output_limit }
    ensures laid { OnOk result (front.now ++ out.new ≡ extended (front.now ++ out.old) (part head.now moves body.now)) }
    ensures head { IfOk result (λ h. h ≡ new_head (length (front.now ++ out.old)) (part head.now moves body.now)) }
    ensures small { OnOk result (length front.now + length out.new ≤ output_limit) }
    ensures refused { IfErr result (Blames (TooLong (length (extended (front.now ++ out.old) (part head.now moves body.now))))) }
{
    if !moves {
        return Ok(*head);
    }
    let place = front.len() as u64 + out.len();
    let zeros = padding_at(place, head.align);
    push_padded(alloc, out, place, zeros, body)?;
    Ok(Section {
        offset: place + zeros,
        size: body.len() as u64,
        ..*head
    })
}

/// What stands behind so many bytes of a file: zeros up to the next multiple of the class's word, and section headers. Refused
/// as `TooLarge` only where that passes the limit.
#[tactic(auto, using(crate::proofs::PieceLaws::table_rules))]
fn table_behind(
    alloc: Global,
    len: u64,
    class: Class,
    order: Order,
    heads: &[Section],
) -> Result<Vec<u8>, Fault>
    requires small { len ≤ output_limit }
    ensures table { IfOk result (λ table. table.items ≡ replicate (padding len (word_size class)) 0 ++ shdrs_bytes class order heads.now) }
    ensures small { IfOk result (λ table. len + vec_len table ≤ output_limit) }
    ensures place { OnOk result (len + padding len (word_size class) ≤ output_limit) }
    ensures refused { IfErr result (Blames (TooLong (len + padding len (word_size class) + length heads.now * shdr_size class))) }
{
    let zeros = padding_at(len, u64::from(class.word_size()));
    if zeros > OUTPUT_LIMIT - len {
        return Err(too_long());
    }
    if !class.holds_section_headers(len + zeros, heads.len() as u64, OUTPUT_LIMIT) {
        return Err(too_long());
    }
    let mut table = zeros_of(alloc, zeros as usize)?;
    push_shdrs(&mut table, class, order, heads)?;
    Ok(table)
}

/// The file of a front, what is laid behind it, and section headers, as `append_table` makes it: the place of these is put into
/// the front. Refused as `TooLarge` only where it would pass the limit.
#[tactic(auto, using(crate::proofs::PieceLaws::join_rules))]
pub fn join_table<'a>(
    alloc: Global,
    front: Vec<u8>,
    behind: Pieces<'a>,
    class: Class,
    order: Order,
    heads: &[Section],
) -> Result<Pieces<'a>, Fault>
    requires header { ehdr_size class ≤ vec_len front }
    requires small { vec_len front + length behind ≤ output_limit }
    ensures file { IfOk result (λ file. file ≡ with_table class order (front.items ++ behind.entry) heads.now) }
    ensures small { IfOk result (λ file. length file ≤ output_limit) }
    ensures refused { IfErr result (Blames (TooLong (length (with_table class order (front.items ++ behind.entry) heads.now)))) }
{
    let mut front = front;
    let mut file = behind;
    let len = front.len() as u64 + file.len();
    let table = table_behind(alloc, len, class, order, heads)?;
    let place = len + padding_at(len, u64::from(class.word_size()));
    put_shoff(&mut front, class, order, place);
    file.push(table, &[])?;
    file.put_front(front)?;
    Ok(file)
}
