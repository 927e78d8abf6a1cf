//! The relocations of a section by their places, in order.

ghost use Rattle.std.specs.Prelude.{◌≡◌, ◌≤◌, ◌<◌, ◌+◌, ◌↔◌, length, IfErr, IfOk, IsTrue, OnOk};
ghost use Rattle.std.specs.Bool.{OnTrue};
ghost use Rattle.std.specs.List.Sorted.{IsNonDecreasingBy, IsPermutation};
ghost use Rattle.dw_base.specs.SectionRelocations.{records_in};
ghost use Rattle.dw_view.specs.Places.{IsSecondAt, Lists, ListsUpTo, PlacesFail, PlacesRise, PlacesWithin, place_at};

use dw_base::{Kind, NoMemory, Refusal};
use elf_relocs::{RelocSource, is_none_type, record, record_count};
use std::alloc::Global;

/// A relocation: where it begins, and the number of its record.
#[derive(Clone, Copy, Debug, PartialEq, Eq, Drop)]
pub struct PlacedRecord {
    /// In bytes from the start of the section that it changes.
    pub place: u64,
    /// Counted from 0.
    pub index: u64,
}

/// The relocations of a section in order of places.
#[tactic(auto, using(crate::proofs::PlaceLaws::list_rules))]
pub fn placed_records(alloc: Global, source: &RelocSource) -> Result<Vec<PlacedRecord>, NoMemory>
    ensures lists { IfOk result (λ list. Lists source.now list.items) }
    ensures sorted { IfOk result (λ list. IsNonDecreasingBy (λ e. e.place) list.items) }
{
    let mut list = all_records(alloc, source)?;
    put_in_order(&mut list);
    Ok(list)
}

/// All of them in the order of their records.
#[tactic(auto, using(crate::proofs::PlaceLaws::all_rules))]
fn all_records(alloc: Global, source: &RelocSource) -> Result<Vec<PlacedRecord>, NoMemory>
    ensures lists { IfOk result (λ list. Lists source.now list.items) }
{
    let mut list = Vec::new(alloc);
    for index in 0..record_count(source) {
        add_record(&mut list, source, index)?;
    }
    Ok(list)
}

/// Adds the relocation of a record, where it is one.
#[tactic(auto, using(crate::proofs::PlaceLaws::add_rules))]
fn add_record(
    list: &mut Vec<PlacedRecord>,
    source: &RelocSource,
    index: u64,
) -> Result<(), NoMemory>
    requires there { index < length (records_in source.now) }
    requires lists { ListsUpTo source.now index list.old.items }
    ensures lists { OnOk result (ListsUpTo source.now (index + 1) list.new.items) }
{
    match record(source, index) {
        Some(reloc) => {
            if is_none_type(source, reloc.kind) {
                return Ok(());
            }
            list.push(PlacedRecord {
                place: reloc.offset,
                index,
            })?;
            Ok(())
        }
        None => Ok(()),
    }
}

/// Puts them in order of places, where they aren't.
#[tactic(auto, using(crate::proofs::PlaceLaws::order_rules))]
fn put_in_order(list: &mut Vec<PlacedRecord>)
    ensures permutation { IsPermutation list.old.items list.new.items }
    ensures sorted { IsNonDecreasingBy (λ e. e.place) list.new.items }
{
    if !rise(list) {
        sort(list);
    }
}

/// Puts them in order of places.
fn sort(list: &mut Vec<PlacedRecord>)
    ensures permutation { IsPermutation list.old.items list.new.items }
    ensures sorted { IsNonDecreasingBy (λ e. e.place) list.new.items }
{
    list.sort_unstable_by_key(|e| e.place);
}

/// Whether none begins before the one before it, as records mostly stand.
#[tactic(auto, using(crate::proofs::PlaceLaws::rise_rules))]
fn rise(list: &[PlacedRecord]) -> bool
    ensures sorted { OnTrue result (IsNonDecreasingBy (λ e. e.place) list.now) }
{
    for i in 1..list.len() {
        if place_at(list, i - 1) > place_at(list, i) {
            return false;
        }
    }
    true
}

/// Tests that each begins in the `size` bytes of the section of a number, and no two at one place.
/// Refused as `Relocation` at one that doesn't.
pub fn check_places(section: u32, size: u64, list: &[PlacedRecord]) -> Result<(), Refusal>
    requires sorted { IsNonDecreasingBy (λ e. e.place) list.now }
    ensures rise { OnOk result (PlacesRise list.now) }
    ensures within { OnOk result (PlacesWithin size list.now) }
    ensures refused { IfErr result (PlacesFail section size list.now) }
{
    for i in 0..list.len() {
        let place = place_at(list, i);
        if place >= size {
            return Err(Refusal::at(Kind::Relocation, section, place));
        }
        if is_second(list, i, place) {
            return Err(Refusal::at(Kind::Relocation, section, place));
        }
    }
    Ok(())
}

/// Where the relocation of a number begins.
#[tactic(auto, using(crate::proofs::PlaceLaws::place_rules))]
pub fn place_at(list: &[PlacedRecord], i: usize) -> u64
    requires inside { i < length list.now }
    ensures place { result ≡ place_at list.now i }
{
    list[i].place
}

/// Whether the one before the one of a number begins at this place.
fn is_second(list: &[PlacedRecord], i: usize, place: u64) -> bool
    requires inside { i < length list.now }
    ensures second { IsTrue result ↔ IsSecondAt list.now place i }
{
    if i == 0 {
        return false;
    }
    place_at(list, i - 1) == place
}
