//! Where the values of an entry end (DWARF 5, 7.5.3 to 7.5.6).
//!
//! This file promises: the values of an entry's attributes stand one after another up to the place that is
//! given; they are refused only where one of them can't be read, at that value. Where the abbreviation
//! has the size of its values, no value is looked at, unless they pass the unit's end.

ghost use Rattle.std.specs.Prelude.{◌≤◌, ◌+◌, length, IfOk, IfErr, IsTrue};
ghost use Rattle.dw_base.specs.EntryScans.{SpellsValues, ValuesFail};
ghost use Rattle.dw_base.specs.FormFails.{FormFails};
ghost use Rattle.dw_base.specs.UnitHeaders.{is_address_size};
ghost use Rattle.dw_entries.specs.Passes.{HasSize};

use crate::plain::plain_len;
use dw_abbrev::Specs;
use dw_base::{Params, Refusal, Spec};
use dw_forms::size_at;

/// The place behind the values of attributes that begin at a place of the bytes up to the unit's end.
#[tactic(auto, using(crate::proofs::SizedLaws::sized_rules))]
pub(crate) fn values_end(
    params: &Params,
    section: u32,
    bytes: &[u8],
    specs: &Specs,
    from: u64,
) -> Result<u64, Refusal>
    requires address { IsTrue (is_address_size params.now.address) }
    requires inside { from ≤ length bytes.now }
    ensures values { IfOk result (SpellsValues params.now bytes.now from specs.now) }
    ensures further { IfOk result (λ end. from ≤ end) }
    ensures within { IfOk result (λ end. end ≤ length bytes.now) }
    ensures refused { IfErr result (ValuesFail params.now bytes.now section from specs.now) }
{
    if let Some(size) = specs.values_size(params) {
        if size <= bytes.len() as u64 - from {
            return Ok(from + size);
        }
    }
    let end = walked_end(params, section, bytes, specs.as_slice(), from)?;
    Ok(end)
}

/// The same place, found value by value.
#[inline(never)]
#[tactic(auto, using(crate::proofs::ValueLaws::value_rules))]
fn walked_end(
    params: &Params,
    section: u32,
    bytes: &[u8],
    specs: &[Spec],
    from: u64,
) -> Result<u64, Refusal>
    requires address { IsTrue (is_address_size params.now.address) }
    requires inside { from ≤ length bytes.now }
    ensures values { IfOk result (SpellsValues params.now bytes.now from specs.now) }
    ensures further { IfOk result (λ end. from ≤ end) }
    ensures within { IfOk result (λ end. end ≤ length bytes.now) }
    ensures refused { IfErr result (ValuesFail params.now bytes.now section from specs.now) }
{
    let mut place = from;
    for spec in specs {
        place += value_len(params, section, bytes, spec, place)?;
    }
    Ok(place)
}

/// How many bytes the value at a place takes.
#[tactic(auto, using(crate::proofs::ValueLaws::size_rules))]
fn value_len(
    params: &Params,
    section: u32,
    bytes: &[u8],
    spec: &Spec,
    place: u64,
) -> Result<u64, Refusal>
    requires address { IsTrue (is_address_size params.now.address) }
    requires inside { place ≤ length bytes.now }
    ensures value { IfOk result (HasSize params.now spec.now bytes.now place) }
    ensures within { IfOk result (λ size. place + size ≤ length bytes.now) }
    ensures refused { IfErr result (FormFails params.now spec.now bytes.now section place) }
{
    if let Some(size) = plain_len(params, bytes, spec, place) {
        return Ok(size);
    }
    let size = size_at(spec, params, section, bytes, place, bytes.len() as u64)?;
    Ok(size)
}
