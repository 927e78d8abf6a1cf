//! Parts of the bytes of a section, and numbers that are appended to bytes.

ghost use Rattle.std.specs.Prelude.{◌≡◌, ◌++◌, OnOk};
ghost use Rattle.dw_base.specs.Forms.{width_size};
ghost use Rattle.dw_base.specs.Numbers.{number_bytes};
ghost use Rattle.dw_base.specs.WrittenLines.{bytes_at, length_bytes, part};

use dw_base::{Order, Width, push_long, push_word};
use std::alloc::AllocError;

/// The bytes from a place up to another, as far as they are there.
#[tactic(auto, using(crate::proofs::PartLaws::part_laws))]
pub(crate) fn part(bytes: &[u8], from: u64, end: u64) -> &[u8]
    ensures bytes { result.now ≡ part bytes.now from end }
{
    let stop = end.min(bytes.len() as u64);
    if from >= stop {
        return &bytes[..0];
    }
    &bytes[from as usize..stop as usize]
}

/// So many bytes at a place, as far as they are there.
#[tactic(auto, using(crate::proofs::PartLaws::bytes_laws))]
pub(crate) fn bytes_at(bytes: &[u8], at: u64, n: u64) -> &[u8]
    ensures bytes { result.now ≡ bytes_at bytes.now at n }
{
    let rest = part(bytes, at, bytes.len() as u64);
    let stop = n.min(rest.len() as u64);
    &rest[..stop as usize]
}

/// Appends the bytes that spell an offset or the length of a header.
pub(crate) fn push_number(
    out: &mut Vec<u8>,
    order: Order,
    width: Width,
    value: u64,
) -> Result<(), AllocError>
    ensures bytes { OnOk result (out.new.items ≡ out.old.items ++ number_bytes order (width_size width) value) }
{
    match width {
        Width::W32 => push_word(out, order, value),
        Width::W64 => push_long(out, order, value),
    }
}

/// Appends the length of a table (DWARF 5, 7.4).
#[tactic(auto, using(crate::proofs::PartLaws::length_laws))]
pub(crate) fn push_length(
    out: &mut Vec<u8>,
    order: Order,
    width: Width,
    value: u64,
) -> Result<(), AllocError>
    ensures bytes { OnOk result (out.new.items ≡ out.old.items ++ length_bytes order width value) }
{
    match width {
        Width::W32 => push_word(out, order, value),
        Width::W64 => {
            push_word(out, order, 0xffff_ffff)?;
            push_long(out, order, value)
        }
    }
}
