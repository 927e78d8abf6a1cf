//! Relocations found by their places, in a time that doesn't grow with their number.

ghost use Rattle.std.specs.Prelude.{◌≡◌, ◌≢◌, ◌+◌, ◌<◌, List, [], length, IfErr, IfOk, MatchOption, OnOk, Contains};
ghost use Rattle.dw_view.specs.Places.{BeginBefore, BeginFrom, HasPlace, IndexedUpTo, IsIndexed, IsPlaceGap, PlacesRise, place_at};
ghost use Rattle.dw_view.specs.declared.places.PlacedRecord.{PlacedRecord};

use crate::places::{PlacedRecord, place_at};
use dw_base::NoMemory;
use std::alloc::Global;
use std::marker::Model;

/// How many bytes of a section share a number of the index. Relocations of 4 and 8 bytes stand side by side at most, so few begin in
/// so many bytes.
const STRETCH: u64 = 64;

/// The relocations of a section in order of places, with an index of where they stand in that order.
#[derive(Drop)]
pub struct PlaceIndex {
    list: Vec<PlacedRecord>,
    /// Of each stretch, up to the last in which one begins, the number of the first that begins in it or behind it.
    firsts: Vec<usize>,
}

impl Model for PlaceIndex {
    ghost Value = { List PlacedRecord };

    ghost view = { λ x. x.list.items };

    ghost invariant = { λ x. IsIndexed x.list.items x.firsts.items };
}

/// Adds the number of a relocation for each stretch up to the one in which it begins that has none yet.
#[tactic(auto, using(crate::proofs::IndexLaws::push_rules))]
fn push_firsts(firsts: &mut Vec<usize>, list: &[PlacedRecord], i: usize) -> Result<(), NoMemory>
    requires inside { i < length list.now }
    requires indexed { IndexedUpTo list.now i firsts.old.items }
    ensures indexed { OnOk result (IndexedUpTo list.now (i + 1) firsts.new.items) }
{
    let stretch = place_at(list, i) / STRETCH;
    'stretches: while firsts.len() as u64 <= stretch {
        firsts.push(i)?;
    }
    Ok(())
}

/// The numbers of an index.
#[tactic(auto, using(crate::proofs::IndexLaws::first_rules))]
fn stretch_firsts(alloc: Global, list: &[PlacedRecord]) -> Result<Vec<usize>, NoMemory>
    requires rise { PlacesRise list.now }
    ensures { IfOk result (λ firsts. IsIndexed list.now firsts.items) }
{
    let mut firsts = Vec::new(alloc);
    for i in 0..list.len() {
        push_firsts(&mut firsts, list, i)?;
    }
    Ok(firsts)
}

impl PlaceIndex {
    /// The index of relocations in order of places.
    pub fn new(alloc: Global, list: Vec<PlacedRecord>) -> Result<PlaceIndex, NoMemory>
        requires rise { PlacesRise list.items }
        ensures value { IfOk result (λ x. x ≡ list.items) }
    {
        let firsts = stretch_firsts(alloc, &list)?;
        Ok(PlaceIndex { list, firsts })
    }

    /// That of none.
    #[tactic(auto, using(crate::proofs::IndexLaws::none_rules))]
    pub fn none(alloc: Global) -> PlaceIndex
        ensures value { result ≡ [] }
    {
        PlaceIndex {
            list: Vec::new(alloc),
            firsts: Vec::new(alloc),
        }
    }

    /// The relocations in order.
    pub fn list(&self) -> &[PlacedRecord]
        ensures value { result.now ≡ self.now }
    {
        &self.list
    }

    /// The number of one near a place, before which none begins there or behind.
    #[tactic(auto, using(crate::proofs::IndexLaws::near_rules))]
    fn near(&self, place: u64) -> usize
        ensures before { BeginBefore self.now place result }
    {
        let stretch = place / STRETCH;
        if stretch >= self.firsts.len() as u64 {
            return self.list.len();
        }
        self.firsts[stretch as usize]
    }
}

/// The number of the first of a list that begins at a place or behind it, from one on before which none does.
#[tactic(auto, using(crate::proofs::IndexLaws::from_rules))]
fn first_among(list: &[PlacedRecord], near: usize, place: u64) -> usize
    requires rise { PlacesRise list.now }
    requires before { BeginBefore list.now place near }
    ensures before { BeginBefore list.now place result }
    ensures behind { BeginFrom list.now place result }
{
    for i in near..list.len() {
        if place_at(list, i) >= place {
            return i;
        }
    }
    list.len()
}

/// The number of the first that begins at a place or behind it.
pub fn first_from(places: &PlaceIndex, place: u64) -> usize
    requires rise { PlacesRise places.now }
    ensures before { BeginBefore places.now place result }
    ensures behind { BeginFrom places.now place result }
{
    first_among(places.list(), places.near(place), place)
}

/// Which of them begins at a place, or where it would stand.
#[tactic(auto, using(crate::proofs::IndexLaws::with_rules))]
fn with_place(list: &[PlacedRecord], first: usize, place: u64) -> Result<usize, usize>
    requires rise { PlacesRise list.now }
    requires before { BeginBefore list.now place first }
    requires behind { BeginFrom list.now place first }
    ensures found { IfOk result (HasPlace list.now place) }
    ensures absent { IfErr result (IsPlaceGap list.now place) }
{
    if first < list.len() && place_at(list, first) == place {
        return Ok(first);
    }
    Err(first)
}

/// The number of the record of the relocation that begins at a place. `None` exactly where none does.
#[tactic(auto, using(crate::proofs::PlaceLaws::index_rules))]
pub fn index_at(places: &PlaceIndex, place: u64) -> Option<u64>
    requires rise { PlacesRise places.now }
    ensures index { MatchOption result ((e : PlacedRecord) → Contains places.now e → e.place ≢ place)
        (λ index. Contains places.now (record { place = place; index = index })) }
{
    let list = places.list();
    match with_place(list, first_from(places, place), place) {
        Ok(at) => Some(list[at].index),
        Err(_) => None,
    }
}
