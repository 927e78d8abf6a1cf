//! What stands at a place of a table of abbreviations: a pair, attributes, an abbreviation
//! (DWARF 5, 7.5.3).
//!
//! This file promises, of each step: what it gives stands there, and it gives nothing only where
//! nothing of its kind stands there.

ghost use Rattle.std.specs.HashMap.{get};
ghost use Rattle.std.specs.Prelude.{◌≡◌, ◌≢◌, ◌+◌, ◌<◌, ◌≤◌, [], Some, length, nat_eq, IfSome, IfNone, IfOk, IfErr};
ghost use Rattle.dw_base.specs.AbbreviationTables.{HeadsAbbreviation, SpellsPair, SpellsSpec, SpellsAbbreviation};
ghost use Rattle.dw_base.specs.AbbreviationFails.{DeclarationFails, SpecFails};
ghost use Rattle.dw_base.specs.Lebs.{uleb_at};
ghost use Rattle.dw_abbrev.specs.Spelled.{SpecsEnd, SpecsFail, StopsFor};
ghost use Rattle.dw_abbrev.specs.Spots.{AreSpots};

use crate::abbrev::Abbrev;
use crate::attributes::Specs;
use crate::spots::{Spot, spot_at};
use crate::stopped::Stopped;
use dw_base::dwarf_numbers::DW_FORM_implicit_const;
use dw_base::{Spec, sleb_at, uleb_at};
use std::alloc::{AllocError, Global};
use std::collections::HashMap;

/// The name and the form of an attribute, and the place behind them.
#[derive(Clone, Copy)]
pub(crate) struct Pair {
    pub name: u64,
    pub form: u64,
    pub next: u64,
}

/// The pair at a place. `None` only where one of its numbers passes the end.
#[tactic(auto, using(crate::proofs::Rows::pair_rows))]
pub(crate) fn pair_at(bytes: &[u8], at: u64) -> Option<Pair>
    ensures found { IfSome result (λ p. SpellsPair bytes.now at p.name p.form p.next) }
    ensures further { IfSome result (λ p. at < p.next) }
    ensures within { IfSome result (λ p. p.next ≤ length bytes.now) }
    ensures none { IfNone result (SpecFails bytes.now at) }
{
    let Some((name, name_size)) = uleb_at(bytes, at) else {
        return None;
    };
    let Some((form, form_size)) = uleb_at(bytes, at + name_size) else {
        return None;
    };
    Some(Pair {
        name,
        form,
        next: at + name_size + form_size,
    })
}

/// The attribute of a pair, and the place behind it: behind `DW_FORM_implicit_const` stands its value.
/// `None` only where the name or the form is 0, or the value passes the end.
#[tactic(auto, using(crate::proofs::Rows::spec_rows))]
pub(crate) fn spec_of(bytes: &[u8], at: u64, pair: &Pair) -> Option<(Spec, u64)>
    requires pair { SpellsPair bytes.now at pair.now.name pair.now.form pair.now.next }
    requires further { at < pair.now.next }
    requires within { pair.now.next ≤ length bytes.now }
    requires named { pair.now.name ≡ 0 → pair.now.form ≢ 0 }
    ensures found { IfSome result (λ s. SpellsSpec bytes.now at s.0 s.1) }
    ensures further { IfSome result (λ s. at < s.1) }
    ensures within { IfSome result (λ s. s.1 ≤ length bytes.now) }
    ensures none { IfNone result (SpecFails bytes.now at) }
{
    let name = pair.name;
    let form = pair.form;
    if name == 0 {
        return None;
    }
    if form == 0 {
        return None;
    }
    if form != DW_FORM_implicit_const {
        let spec = Spec {
            name,
            form,
            implicit: 0,
        };
        return Some((spec, pair.next));
    }
    let Some((implicit, size)) = sleb_at(bytes, pair.next) else {
        return None;
    };
    let spec = Spec {
        name,
        form,
        implicit,
    };
    Some((spec, pair.next + size))
}

/// A copy of attributes, with room for no more.
fn copied(alloc: Global, specs: &[Spec]) -> Result<Vec<Spec>, AllocError>
    ensures copied { IfOk result (λ copy. copy.items ≡ specs.now) }
{
    let mut copy = Vec::with_capacity(alloc, specs.len())?;
    copy.extend_from_slice(specs)?;
    Ok(copy)
}

/// The attributes at a place, up to behind the pair of zeros that ends them. Stopped only where none
/// stands behind some of them, or for want of memory. They are read into a vector that serves all abbreviations, and are
/// copied once their number is known.
#[tactic(auto, using(crate::proofs::Rows::specs_rows))]
fn specs_at(
    alloc: Global,
    bytes: &[u8],
    at: u64,
    specs: &mut Vec<Spec>,
) -> Result<(Specs, u64), Stopped>
    requires inside { at ≤ length bytes.now }
    ensures found { IfOk result (λ s. SpecsEnd bytes.now at s.0 s.1) }
    ensures further { IfOk result (λ s. at < s.1) }
    ensures within { IfOk result (λ s. s.1 ≤ length bytes.now) }
    ensures stopped { IfErr result (StopsFor (SpecsFail bytes.now at)) }
{
    specs.clear();
    let mut place = at;
    'specs: loop {
        let Some(pair) = pair_at(bytes, place) else {
            return Err(Stopped::Unspelled);
        };
        if pair.name == 0 && pair.form == 0 {
            let specs = copied(alloc, specs)?;
            return Ok((Specs::new(specs), pair.next));
        }
        let Some((spec, next)) = spec_of(bytes, place, &pair) else {
            return Err(Stopped::Unspelled);
        };
        specs.push(spec)?;
        place = next;
    }
}

/// The attributes at a place, and the place behind the pair that ends them: those that are kept there, or else they are read. Stopped
/// only where none stands behind some of them, or for want of memory.
#[tactic(auto, using(crate::proofs::SpotLaws::list_rules))]
fn list_at(
    alloc: Global,
    bytes: &[u8],
    at: u64,
    spots: &HashMap<u64, Spot>,
    scratch: &mut Vec<Spec>,
) -> Result<(Specs, u64), Stopped>
    requires inside { at ≤ length bytes.now }
    requires spots { AreSpots bytes.now (λ o. get nat_eq spots.now o) }
    ensures found { IfOk result (λ s. SpecsEnd bytes.now at s.0 s.1) }
    ensures further { IfOk result (λ s. at < s.1) }
    ensures within { IfOk result (λ s. s.1 ≤ length bytes.now) }
    ensures stopped { IfErr result (StopsFor (SpecsFail bytes.now at)) }
{
    if let Some(spot) = spot_at(bytes, spots, at) {
        let specs = spot.specs.again()?;
        return Ok((Specs::sharing(alloc, specs), spot.next));
    }
    let list = specs_at(alloc, bytes, at, scratch)?;
    Ok(list)
}

/// What stands in front of an abbreviation's attributes.
#[derive(Clone, Copy)]
pub(crate) struct Head {
    pub tag: u64,
    pub flag: u8,
    pub next: u64,
}

/// The tag and the flag for children, behind a code that was read. `None` only where they pass the end.
#[tactic(auto, using(crate::proofs::Rows::head_rows))]
pub(crate) fn head_at(bytes: &[u8], at: u64, code: u64, size: u64) -> Option<Head>
    requires code { uleb_at bytes.now at ≡ Some (code, size) }
    requires inside { at + size ≤ length bytes.now }
    requires declares { code ≢ 0 }
    ensures found { IfSome result (λ h. HeadsAbbreviation bytes.now at code h.tag h.flag h.next) }
    ensures further { IfSome result (λ h. at < h.next) }
    ensures within { IfSome result (λ h. h.next ≤ length bytes.now) }
    ensures none { IfNone result (DeclarationFails bytes.now [] at) }
{
    let Some((tag, tag_size)) = uleb_at(bytes, at + size) else {
        return None;
    };
    let place = at + size + tag_size;
    if place >= bytes.len() as u64 {
        return None;
    }
    Some(Head {
        tag,
        flag: bytes[place as usize],
        next: place + 1,
    })
}

/// The abbreviation whose code was read at a place, and the place behind it. Stopped only where none
/// stands there, or for want of memory. Attributes are read into `scratch`.
#[tactic(auto, using(crate::proofs::Rows::abbrev_rows))]
pub(crate) fn abbrev_at(
    alloc: Global,
    bytes: &[u8],
    at: u64,
    code: u64,
    size: u64,
    spots: &HashMap<u64, Spot>,
    scratch: &mut Vec<Spec>,
) -> Result<(Abbrev, u64), Stopped>
    requires spots { AreSpots bytes.now (λ o. get nat_eq spots.now o) }
    requires code { uleb_at bytes.now at ≡ Some (code, size) }
    requires inside { at + size ≤ length bytes.now }
    requires declares { code ≢ 0 }
    ensures found { IfOk result (λ a. SpellsAbbreviation bytes.now at a.0 a.1) }
    ensures code { IfOk result (λ a. a.0.code ≡ code) }
    ensures further { IfOk result (λ a. at < a.1) }
    ensures within { IfOk result (λ a. a.1 ≤ length bytes.now) }
    ensures stopped { IfErr result (StopsFor (DeclarationFails bytes.now [] at)) }
{
    let Some(head) = head_at(bytes, at, code, size) else {
        return Err(Stopped::Unspelled);
    };
    if head.flag > 1 {
        return Err(Stopped::Unspelled);
    }
    let (specs, next) = list_at(alloc, bytes, head.next, spots, scratch)?;
    let abbrev = Abbrev {
        code,
        tag: head.tag,
        children: head.flag == 1,
        specs,
    };
    Ok((abbrev, next))
}
