//! Sections laid out one after another behind the front of a file: this project's profile.

ghost use Rattle.std.specs.Prelude.{◌≡◌, ◌+◌, ◌≤◌, ◌++◌, length, vec_len, replicate, OnOk, IfOk, IfErr};
ghost use Rattle.dw_base.specs.Layout.{output_limit, padding, extended, new_head};
ghost use Rattle.dw_base.specs.LayoutFails.{TooLong};
ghost use Rattle.dw_base.specs.Refusals.{Blames};
ghost use Rattle.elf_layout.specs.Given.{part, refused_length};

use dw_base::{Fault, Kind, OUTPUT_LIMIT, Refusal, Section};

/// The refusal of a file that would be too long.
pub(crate) fn too_long() -> Fault
    ensures { result ≡ refused_length }
{
    Fault::Refused(Refusal::of_file(Kind::TooLarge))
}

/// How many zeros lead from a place to the next multiple of an alignment; none for alignment 0.
#[tactic(auto, unfolding(dw_base::specs::Layout::padding))]
pub(crate) fn padding_at(place: u64, align: u64) -> u64
    ensures { result ≡ padding place align }
{
    if align == 0 {
        return 0;
    }
    let over = place % align;
    if over == 0 { 0 } else { align - over }
}

/// Appends zeros, and a body behind them. Refused as `TooLarge` only where that passes the limit.
#[tactic(auto, using(crate::proofs::Rows::padded_rows))]
pub(crate) fn append_padded(out: &mut Vec<u8>, zeros: u64, body: &[u8]) -> Result<(), Fault>
    requires small { vec_len out.old ≤ output_limit }
    ensures laid { OnOk result (out.new.items ≡ out.old.items ++ (replicate zeros 0 ++ body.now)) }
    ensures small { OnOk result (vec_len out.new ≤ output_limit) }
    ensures longer { OnOk result (vec_len out.old ≤ vec_len out.new) }
    ensures refused { IfErr result (Blames (TooLong (length (out.old.items ++ (replicate zeros 0 ++ body.now))))) }
{
    let room = OUTPUT_LIMIT - out.len() as u64;
    if zeros > room {
        return Err(too_long());
    }
    if body.len() as u64 > room - zeros {
        return Err(too_long());
    }
    out.resize(out.len() + zeros as usize, 0)?;
    out.extend_from_slice(body)?;
    Ok(())
}

/// Lays out a section behind the bytes laid so far, where it moves: zeros up to the next multiple of its
/// alignment, in bytes, then its body (this project's profile). Its header, of one that moves with its
/// new place and size. Refused as `TooLarge` only where the bytes would pass the limit; after an error
/// part of this may have been appended.
#[tactic(auto, using(crate::proofs::Rows::layout_rows), unfolding(dw_base::specs::Layout::placed, dw_base::specs::Layout::new_head))]
pub(crate) fn lay(
    out: &mut Vec<u8>,
    head: &Section,
    moves: bool,
    body: &[u8],
) -> Result<Section, Fault>
    requires small { vec_len out.old ≤ output_limit }
    ensures laid { OnOk result (out.new.items ≡ extended out.old.items (part head.now moves body.now)) }
    ensures head { IfOk result (λ h. h ≡ new_head (length out.old.items) (part head.now moves body.now)) }
    ensures small { OnOk result (vec_len out.new ≤ output_limit) }
    ensures longer { OnOk result (vec_len out.old ≤ vec_len out.new) }
    ensures refused { IfErr result (Blames (TooLong (length (extended out.old.items (part head.now moves body.now))))) }
{
    if !moves {
        return Ok(*head);
    }
    let place = out.len() as u64;
    let zeros = padding_at(place, head.align);
    append_padded(out, zeros, body)?;
    Ok(Section {
        offset: place + zeros,
        size: body.len() as u64,
        ..*head
    })
}
