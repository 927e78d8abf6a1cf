//! Old bytes with new numbers in some of their fields, as pieces: what lies between two fields is lent where it is long, and else copied.
//!
//! This file promises: a field takes a few steps once all are in order, and bytes far from all fields aren't copied.

ghost use Rattle.std.specs.Prelude.{◌≡◌, ◌+◌, ◌-◌, ◌++◌, ◌^◌, ◌<◌, ◌≤◌, drop, length, replicate, take, vec_len, IfOk, OnOk};
ghost use Rattle.std.specs.List.Sorted.{IsNonDecreasingBy, IsPermutation};
ghost use Rattle.dw_base.specs.Layout.{output_limit};
ghost use Rattle.dw_base.specs.Numbers.{number_bytes};
ghost use Rattle.elf_layout.specs.Patched.{AreInOrder, PatchFits, PatchesFit, field_start, patched_from, with_patches};

use crate::patch::Patch;
use crate::pieces::Pieces;
use dw_base::{NoMemory, Order, put_number};
use std::alloc::{AllocError, Global};

/// So many old bytes between two fields are lent. Fewer are copied: a piece more costs more than their copy.
const LEAST_LENT: usize = 4096;

/// Appends bytes that were made, and behind them old bytes with the new numbers of fields.
pub(crate) fn push_patched<'a>(
    alloc: Global,
    out: &mut Pieces<'a>,
    made: Vec<u8>,
    old: &'a [u8],
    order: Order,
    mut fields: Vec<Patch>,
) -> Result<(), NoMemory>
    requires fit { PatchesFit (length old.now) fields.items }
    requires room { length out.old + vec_len made + length old.now ≤ output_limit }
    ensures pushed { OnOk result (out.new ≡ out.old ++ (made.items ++ with_patches order old.now fields.items)) }
{
    sort(&mut fields)?;
    push_sorted(alloc, out, made, old, order, &fields)?;
    Ok(())
}

/// Puts fields in order of their places. They come kind by kind, each kind in order: such stretches are kept, and put
/// together in one pass.
fn sort(list: &mut Vec<Patch>) -> Result<(), AllocError>
    ensures permutation { IsPermutation list.old.items list.new.items }
    ensures sorted { OnOk result (IsNonDecreasingBy field_start list.new.items) }
{
    list.sort_by_key(|f| f.at)?;
    Ok(())
}

/// The same of fields that stand in order.
#[tactic(auto, using(crate::proofs::PatchedPieceLaws::sorted_rules))]
fn push_sorted<'a>(
    alloc: Global,
    out: &mut Pieces<'a>,
    made: Vec<u8>,
    old: &'a [u8],
    order: Order,
    fields: &[Patch],
) -> Result<(), NoMemory>
    requires fields { AreInOrder (length old.now) 0 fields.now }
    requires room { length out.old + vec_len made + length old.now ≤ output_limit }
    ensures pushed { OnOk result (out.new ≡ out.old ++ (made.items ++ patched_from order old.now 0 fields.now)) }
{
    let mut made = made;
    let mut done = 0;
    for field in fields {
        made = push_field(alloc, out, made, old, done, order, field)?;
        done = field.at + u64::from(field.size);
    }
    out.push(made, &old[done as usize..])?;
    Ok(())
}

/// The bytes that were made, and behind them old ones from `done` on up to a field, and its new number. What isn't lent and made for
/// pieces is answered.
#[tactic(auto, using(crate::proofs::PatchedPieceLaws::field_rules))]
fn push_field<'a>(
    alloc: Global,
    out: &mut Pieces<'a>,
    made: Vec<u8>,
    old: &'a [u8],
    done: u64,
    order: Order,
    field: &Patch,
) -> Result<Vec<u8>, NoMemory>
    requires fits { PatchFits (length old.now) field.now }
    requires behind { done ≤ field.now.at }
    requires room { length out.old + vec_len made + field.now.at ≤ output_limit + done }
    ensures pushed { IfOk result (λ more. out.new ++ more.items ≡ (out.old ++ made.items) ++ (take (field.now.at - done) (drop done old.now) ++ number_bytes order field.now.size field.now.value)) }
    ensures long { IfOk result (λ more. length out.new + vec_len more + done ≡ length out.old + vec_len made + (field.now.at + field.now.size)) }
{
    let gap = &old[done as usize..field.at as usize];
    let near = push_gap(alloc, out, made, gap)?;
    let more = with_number_behind(near, order, field)?;
    Ok(more)
}

/// The bytes that were made, and old ones behind them: many are lent, and few are made, too.
#[tactic(auto, using(crate::proofs::PatchedPieceLaws::gap_rules))]
fn push_gap<'a>(
    alloc: Global,
    out: &mut Pieces<'a>,
    made: Vec<u8>,
    gap: &'a [u8],
) -> Result<Vec<u8>, NoMemory>
    requires room { length out.old + vec_len made + length gap.now ≤ output_limit }
    ensures pushed { IfOk result (λ more. out.new ++ more.items ≡ out.old ++ (made.items ++ gap.now)) }
    ensures long { IfOk result (λ more. length out.new + vec_len more ≡ length out.old + vec_len made + length gap.now) }
{
    if gap.len() >= LEAST_LENT {
        out.push(made, gap)?;
        return Ok(Vec::new(alloc));
    }
    let mut more = made;
    more.extend_from_slice(gap)?;
    Ok(more)
}

/// Bytes, and the new number of a field behind them.
#[tactic(auto, using(crate::proofs::PatchedPieceLaws::number_rules))]
fn with_number_behind(made: Vec<u8>, order: Order, field: &Patch) -> Result<Vec<u8>, AllocError>
    requires some { 0 < field.now.size }
    requires wide { field.now.size ≤ 8 }
    requires fits { field.now.value < 256 ^ field.now.size }
    ensures number { IfOk result (λ more. more.items ≡ made.items ++ number_bytes order field.now.size field.now.value) }
    ensures long { IfOk result (λ more. vec_len more ≡ vec_len made + field.now.size) }
{
    let mut more = with_zeros(made, usize::from(field.size))?;
    put_last(&mut more, order, field);
    Ok(more)
}

/// Bytes, and so many zeros behind them.
fn with_zeros(made: Vec<u8>, count: usize) -> Result<Vec<u8>, AllocError>
    requires few { count ≤ 8 }
    ensures zeros { IfOk result (λ more. more.items ≡ made.items ++ replicate count 0) }
    ensures long { IfOk result (λ more. vec_len more ≡ vec_len made + count) }
{
    let mut more = made;
    more.resize(more.len() + count, 0)?;
    Ok(more)
}

/// Puts the new number of a field into the last bytes.
#[tactic(auto, using(crate::proofs::PatchedPieceLaws::last_rules))]
fn put_last(bytes: &mut [u8], order: Order, field: &Patch)
    requires some { 0 < field.now.size }
    requires wide { field.now.size ≤ 8 }
    requires fits { field.now.value < 256 ^ field.now.size }
    requires there { field.now.size ≤ length bytes.old }
    ensures put { bytes.new ≡ take (length bytes.old - field.now.size) bytes.old ++ number_bytes order field.now.size field.now.value }
    ensures long { length bytes.new ≡ length bytes.old }
{
    let Patch { size, value, .. } = *field;
    let place = bytes.len() as u64 - u64::from(size);
    let fits = put_number(order, bytes, place, size, value);
    prove!(fits);
}
