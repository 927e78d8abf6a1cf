//! Attributes of abbreviations that were read, kept by their places so that other abbreviations have them, too (DWARF 5, 7.5.3).
//!
//! This file promises: what is kept at a place are the attributes that stand there, up to the pair that ends them.

ghost use Rattle.std.specs.HashMap.{get};
ghost use Rattle.std.specs.Prelude.{◌≤◌, drop, length, nat_eq, IfNone, IfOk, IfSome, OnOk};
ghost use Rattle.dw_forms.specs.Fixed.{HasNoSize, IsSizeOf};
ghost use Rattle.dw_abbrev.specs.Spots.{ArePlaced, AreSpots, StandsUpTo};

use crate::shared_specs::SharedSpecs;
use crate::spelled::{head_at, pair_at, spec_of};
use crate::spots::Spot;
use crate::stopped::Stopped;
use dw_base::{NoMemory, Spec, uleb_at};
use dw_forms::FixedSize;
use std::alloc::{AllocError, Global};
use std::collections::HashMap;
use std::rc::Rc;

/// Attributes one behind another, and where each stands.
#[derive(Drop)]
struct Placed {
    specs: Vec<Spec>,
    places: Vec<u64>,
    /// The place behind the pair that ends them.
    next: u64,
}

/// The attributes at a place, with their places. Stopped where none stands behind some of them, or for want of memory.
#[tactic(auto, using(crate::proofs::SpotLaws::placed_rules))]
fn placed_at(alloc: Global, bytes: &[u8], at: u64) -> Result<Placed, Stopped>
    requires inside { at ≤ length bytes.now }
    ensures placed { IfOk result (λ p. ArePlaced bytes.now p.places.items p.specs.items p.next) }
{
    let mut specs = Vec::new(alloc);
    let mut places = Vec::new(alloc);
    let mut place = at;
    'specs: loop {
        let Some(pair) = pair_at(bytes, place) else {
            return Err(Stopped::Unspelled);
        };
        if pair.name == 0 && pair.form == 0 {
            return Ok(Placed {
                specs,
                places,
                next: pair.next,
            });
        }
        let Some((spec, next)) = spec_of(bytes, place, &pair) else {
            return Err(Stopped::Unspelled);
        };
        places.push(place)?;
        specs.push(spec)?;
        place = next;
    }
}

/// Keeps the attributes of a list from one on, at its place.
fn keep_rest(
    bytes: &[u8],
    list: &Rc<Vec<Spec>>,
    from: usize,
    size: Option<FixedSize>,
    place: u64,
    next: u64,
    spots: &mut HashMap<u64, Spot>,
) -> Result<(), AllocError>
    requires inside { from ≤ length list.now.value.items }
    requires size { IfSome size (IsSizeOf (drop from list.now.value.items)) }
    requires none { IfNone size (HasNoSize (drop from list.now.value.items)) }
    requires there { StandsUpTo bytes.now place (drop from list.now.value.items) next }
    requires spots { AreSpots bytes.now (λ o. get nat_eq spots.old o) }
    ensures spots { OnOk result (AreSpots bytes.now (λ o. get nat_eq spots.new o)) }
{
    let specs = SharedSpecs::of(list, from, size)?;
    spots.insert(place, Spot { specs, next })?;
    Ok(())
}

/// How many bytes the values of attributes behind the last take.
fn no_size(list: &[Spec]) -> Option<FixedSize>
    ensures size { IfSome result (IsSizeOf (drop (length list.now) list.now)) }
    ensures none { IfNone result (HasNoSize (drop (length list.now) list.now)) }
{
    let (_, none) = list.split_at(list.len());
    FixedSize::of(none)
}

/// Keeps the attributes of a list from each on, at its place.
#[tactic(auto, using(crate::proofs::SpotLaws::rest_rules))]
fn keep_rests(
    bytes: &[u8],
    list: &Rc<Vec<Spec>>,
    places: &[u64],
    next: u64,
    spots: &mut HashMap<u64, Spot>,
) -> Result<(), AllocError>
    requires placed { ArePlaced bytes.now places.now list.now.value.items next }
    requires spots { AreSpots bytes.now (λ o. get nat_eq spots.old o) }
    ensures spots { OnOk result (AreSpots bytes.now (λ o. get nat_eq spots.new o)) }
{
    let mut from = places.len();
    let mut size = no_size(list.as_ref().as_slice());
    'rests: while from > 0 {
        from -= 1;
        size = FixedSize::before(list.as_ref().as_slice(), from, size);
        keep_rest(bytes, list, from, size, places[from], next, spots)?;
    }
    Ok(())
}

/// Keeps the attributes of an abbreviation by their places; none where none can be read.
fn open_list(
    alloc: Global,
    bytes: &[u8],
    at: u64,
    spots: &mut HashMap<u64, Spot>,
) -> Result<(), NoMemory>
    requires inside { at ≤ length bytes.now }
    requires spots { AreSpots bytes.now (λ o. get nat_eq spots.old o) }
    ensures spots { OnOk result (AreSpots bytes.now (λ o. get nat_eq spots.new o)) }
{
    match placed_at(alloc, bytes, at) {
        Ok(placed) => {
            let Placed {
                specs,
                places,
                next,
            } = placed;
            let list = Rc::new(alloc, specs)?;
            keep_rests(bytes, &list, places.as_slice(), next, spots)?;
            Ok(())
        }
        Err(Stopped::Unspelled) => Ok(()),
        Err(Stopped::NoMemory) => Err(NoMemory),
    }
}

/// Keeps the attributes of the abbreviation at a place, if they aren't kept.
fn open_at(
    alloc: Global,
    bytes: &[u8],
    at: u64,
    spots: &mut HashMap<u64, Spot>,
) -> Result<(), NoMemory>
    requires spots { AreSpots bytes.now (λ o. get nat_eq spots.old o) }
    ensures spots { OnOk result (AreSpots bytes.now (λ o. get nat_eq spots.new o)) }
{
    let Some((code, size)) = uleb_at(bytes, at) else {
        return Ok(());
    };
    if code == 0 {
        return Ok(());
    }
    let Some(head) = head_at(bytes, at, code, size) else {
        return Ok(());
    };
    if spots.contains_key(&head.next) {
        return Ok(());
    }
    open_list(alloc, bytes, head.next, spots)
}

/// Keeps the attributes of the abbreviations at these places.
pub(crate) fn open_all(
    alloc: Global,
    bytes: &[u8],
    places: &[u64],
    spots: &mut HashMap<u64, Spot>,
) -> Result<(), NoMemory>
    requires spots { AreSpots bytes.now (λ o. get nat_eq spots.old o) }
    ensures spots { OnOk result (AreSpots bytes.now (λ o. get nat_eq spots.new o)) }
{
    for place in places {
        open_at(alloc, bytes, *place, spots)?;
    }
    Ok(())
}
