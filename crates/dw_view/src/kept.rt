//! The relocations of one section: found by their places, and what fields and addresses read as by them.

ghost use Rattle.std.specs.Prelude.{true, false, [], ◌≡◌, ◌⊎◌, ◌+◌, ◌<◌, ◌^◌, get_or, length, option_copied, option_map, None, IfSome, MatchOption};
ghost use Rattle.dw_base.specs.Cells.{field_by};
ghost use Rattle.dw_base.specs.RelocationFields.{field_unless};
ghost use Rattle.dw_base.specs.SectionRelocations.{records_in, relocation_in, relocation_of, relocations_in};
ghost use Rattle.elf_relocs.specs.FieldOffsets.{field_number};
ghost use Rattle.dw_view.specs.Moved.{number_put};
ghost use Rattle.dw_view.specs.Places.{IsNextAmong, LeftAmong, Lists, NoneFrom, PlacesRise, counts_at, record_of};
ghost use Rattle.dw_view.specs.Relocations.{IsKept, KeptRelocations, NextKept, field_kept, kept_of, partly_kept, relocation_kept, relocation_value, target_in};

use crate::fields::{Relocation, field_by, relocation_of, target_by};
use crate::partly::partly_at;
use crate::places::place_at;
use crate::search::{PlaceIndex, first_from, index_at};
use dw_base::{Field, Kind, Refusal};
use elf_relocs::{RelocSource, field_number, is_none_type, record, record_count};
use std::alloc::Global;
use std::marker::Model;

/// The relocations of a section.
#[derive(Drop)]
pub struct Kept<'a> {
    /// What they are read from.
    source: RelocSource<'a>,
    /// The section is one that is read.
    read: bool,
    /// Of a section that is read, where they begin, in order.
    places: PlaceIndex,
}

impl<'a> Model for Kept<'a> {
    ghost Value = { KeptRelocations };

    ghost view = { λ k. kept_of k.source k.read k.places };

    ghost invariant = { λ k. IsKept (kept_of k.source k.read k.places) };
}

/// Whether the record of a number stands for a relocation at a place.
#[tactic(auto, using(crate::proofs::KeptLaws::begin_rules))]
fn begins_at(source: &RelocSource, index: u64, place: u64) -> bool
    requires there { index < length (records_in source.now) }
    ensures { result ≡ counts_at source.now place (record_of source.now index) }
{
    match record(source, index) {
        Some(reloc) => !is_none_type(source, reloc.kind) && reloc.offset == place,
        None => false,
    }
}

/// The number of the record of the relocation that begins at a place, by all records.
#[tactic(auto, using(crate::proofs::KeptLaws::scan_rules))]
fn scanned_at(source: &RelocSource, place: u64) -> Option<u64>
    ensures there { IfSome result (λ i. i < length (records_in source.now)) }
    ensures is { option_map (λ i. relocation_of source.now (record_of source.now i)) result ≡ relocation_in (relocations_in source.now) place }
{
    for index in 0..record_count(source) {
        if begins_at(source, index, place) {
            return Some(index);
        }
    }
    None
}

/// The same by places in order.
#[tactic(auto, using(crate::proofs::KeptLaws::listed_rules))]
fn listed_at(source: &RelocSource, places: &PlaceIndex, place: u64) -> Option<u64>
    requires lists { Lists source.now places.now }
    requires rise { PlacesRise places.now }
    ensures there { IfSome result (λ i. i < length (records_in source.now)) }
    ensures is { option_map (λ i. relocation_of source.now (record_of source.now i)) result ≡ relocation_in (relocations_in source.now) place }
{
    index_at(places, place)
}

/// The number of the record of the relocation that begins at a place.
#[tactic(auto, using(crate::proofs::KeptLaws::kept_rules))]
fn index_in(source: &RelocSource, read: bool, places: &PlaceIndex, place: u64) -> Option<u64>
    requires kept { IsKept (kept_of source.now read places.now) }
    ensures there { IfSome result (λ i. i < length (records_in source.now)) }
    ensures is { option_map (λ i. relocation_of source.now (record_of source.now i)) result ≡ relocation_in (relocations_in source.now) place }
{
    if read {
        return listed_at(source, places, place);
    }
    scanned_at(source, place)
}

/// The relocation that begins at a place.
#[tactic(auto, using(crate::proofs::KeptLaws::place_rules))]
fn relocation_found(
    source: &RelocSource,
    read: bool,
    places: &PlaceIndex,
    place: u64,
) -> Option<Relocation>
    requires kept { IsKept (kept_of source.now read places.now) }
    ensures value { option_map relocation_value result ≡ relocation_in (relocations_in source.now) place }
    ensures sizes { IfSome result (λ r. IfSome r.size (λ n. (n ≡ 4) ⊎ (n ≡ 8))) }
{
    match index_in(source, read, places, place) {
        Some(index) => Some(relocation_of(source, index)),
        None => None,
    }
}

/// Where the symbol of the relocation that begins at a place is defined.
#[tactic(auto, using(crate::proofs::KeptLaws::target_rules))]
fn target_found(
    source: &RelocSource,
    read: bool,
    places: &PlaceIndex,
    place: u64,
) -> Option<(u32, u64)>
    requires kept { IsKept (kept_of source.now read places.now) }
    ensures { result ≡ target_in (relocation_in (relocations_in source.now) place) }
{
    match index_in(source, read, places, place) {
        Some(index) => target_by(source, index),
        None => None,
    }
}

/// Where the first relocation begins that lies on a field only in part, where the section is read.
#[tactic(auto, using(crate::proofs::KeptLaws::part_rules))]
fn part_in(
    source: &RelocSource,
    read: bool,
    places: &PlaceIndex,
    place: u64,
    size: u8,
) -> Option<u64>
    requires kept { IsKept (kept_of source.now read places.now) }
    requires small { place + size < 2 ^ 63 }
    ensures { result ≡ partly_kept (kept_of source.now read places.now) place size }
{
    if !read {
        return None;
    }
    partly_at(source, places, place, size)
}

/// What a field with a number in it reads as.
#[tactic(auto, using(crate::proofs::KeptLaws::field_rules))]
fn field_read(
    source: &RelocSource,
    read: bool,
    places: &PlaceIndex,
    section: u32,
    place: u64,
    size: u8,
    number: u64,
) -> Result<Field, Refusal>
    requires kept { IsKept (kept_of source.now read places.now) }
    requires small { place + size < 2 ^ 63 }
    ensures value { result ≡ field_unless (partly_kept (kept_of source.now read places.now) place size) section (field_by (relocation_in (relocations_in source.now) place) size number) }
{
    if let Some(part) = part_in(source, read, places, place, size) {
        return Err(Refusal::at(Kind::Relocation, section, part));
    }
    let relocation = relocation_found(source, read, places, place);
    Ok(field_by(relocation, size, number))
}

/// The number with which a field of `size` bytes, 4 or 8, in which another stands, says an offset by the relocation of a record.
#[tactic(auto, using(crate::proofs::MovedLaws::record_rules))]
fn number_by(source: &RelocSource, index: u64, size: u8, number: u64, offset: u64) -> u64
    requires there { index < length (records_in source.now) }
    requires size { (size ≡ 4) ⊎ (size ≡ 8) }
    ensures { result ≡ field_number (relocation_of source.now (record_of source.now index)) size number offset }
{
    match record(source, index) {
        Some(reloc) => field_number(source, &reloc, size, number, offset),
        None => number,
    }
}

/// The same by the relocation that begins at the field, if any.
#[tactic(auto, using(crate::proofs::MovedLaws::number_rules))]
fn number_moved(
    source: &RelocSource,
    read: bool,
    places: &PlaceIndex,
    place: u64,
    size: u8,
    number: u64,
    offset: u64,
) -> u64
    requires kept { IsKept (kept_of source.now read places.now) }
    requires size { (size ≡ 4) ⊎ (size ≡ 8) }
    ensures { result ≡ number_put (relocation_in (relocations_in source.now) place) size number offset }
{
    match index_in(source, read, places, place) {
        Some(index) => number_by(source, index, size, number, offset),
        None => offset,
    }
}

/// The first place from one on at which a relocation begins.
#[tactic(auto, using(crate::proofs::KeptLaws::next_rules))]
fn next_listed(places: &PlaceIndex, from: u64) -> Option<u64>
    requires rise { PlacesRise places.now }
    ensures next { MatchOption result (NoneFrom places.now from) (IsNextAmong places.now from) }
{
    let list = places.list();
    let i = first_from(places, from);
    if i >= list.len() {
        return None;
    }
    Some(place_at(list, i))
}

impl<'a> Kept<'a> {
    /// Those of a section that is read.
    #[tactic(auto, using(crate::proofs::KeptLaws::made_rules))]
    pub fn listed(source: RelocSource<'a>, places: PlaceIndex) -> Kept<'a>
        requires lists { Lists source places }
        requires rise { PlacesRise places }
        ensures value { result ≡ kept_of source.entry true places }
    {
        Kept {
            source,
            read: true,
            places,
        }
    }

    /// Those of another section.
    #[tactic(auto, using(crate::proofs::KeptLaws::made_rules))]
    pub fn unread(alloc: Global, source: RelocSource<'a>) -> Kept<'a>
        ensures value { result ≡ kept_of source.entry false [] }
    {
        Kept {
            source,
            read: false,
            places: PlaceIndex::none(alloc),
        }
    }

    /// The relocation that begins at a place.
    pub fn relocation(&self, place: u64) -> Option<Relocation>
        ensures value { option_map relocation_value result ≡ relocation_in (relocations_in self.now.source) place }
        ensures sizes { IfSome result (λ r. IfSome r.size (λ n. (n ≡ 4) ⊎ (n ≡ 8))) }
    {
        relocation_found(&self.source, self.read, &self.places, place)
    }

    /// Where the symbol of the relocation that begins at a place is defined.
    pub fn target(&self, place: u64) -> Option<(u32, u64)>
        ensures { result ≡ target_in (relocation_in (relocations_in self.now.source) place) }
    {
        target_found(&self.source, self.read, &self.places, place)
    }

    /// What a field with a number in it reads as.
    pub fn field(&self, section: u32, place: u64, size: u8, number: u64) -> Result<Field, Refusal>
        requires small { place + size < 2 ^ 63 }
        ensures value { result ≡ field_unless (partly_kept self.now place size) section (field_by (relocation_in (relocations_in self.now.source) place) size number) }
    {
        field_read(
            &self.source,
            self.read,
            &self.places,
            section,
            place,
            size,
            number,
        )
    }

    /// The number with which a field of `size` bytes, 4 or 8, in which another stands, says an offset.
    pub fn moved_number(&self, place: u64, size: u8, number: u64, offset: u64) -> u64
        requires size { (size ≡ 4) ⊎ (size ≡ 8) }
        ensures { result ≡ number_put (relocation_in (relocations_in self.now.source) place) size number offset }
    {
        number_moved(
            &self.source,
            self.read,
            &self.places,
            place,
            size,
            number,
            offset,
        )
    }

    /// The first place from one on that is listed.
    #[tactic(auto, using(crate::proofs::KeptLaws::rise_rules))]
    pub fn next_place(&self, from: u64) -> Option<u64>
        ensures next { MatchOption result (NoneFrom self.now.places from) (IsNextAmong self.now.places from) }
    {
        next_listed(&self.places, from)
    }
}

/// What is kept of the section of a number.
#[tactic(auto, using(crate::proofs::ViewRelocationLaws::entry_rules))]
fn entry<'v, 'a>(kept: &'v [Option<Kept<'a>>], section: u32) -> Option<&'v Kept<'a>>
    ensures { option_copied result ≡ get_or kept.now section None }
{
    let i = section as usize;
    if i >= kept.len() {
        return None;
    }
    kept[i].as_ref()
}

/// What a field with a number in it reads as, in the section of a number.
#[tactic(auto, using(crate::proofs::ViewRelocationLaws::by_rules))]
pub fn field_in(
    kept: &[Option<Kept>],
    section: u32,
    place: u64,
    size: u8,
    number: u64,
) -> Result<Field, Refusal>
    requires small { place + size < 2 ^ 63 }
    ensures value { result ≡ field_kept (get_or kept.now section None) section place size number }
{
    match entry(kept, section) {
        Some(kept) => kept.field(section, place, size, number),
        None => Ok(Field::Num(number)),
    }
}

/// The relocation that begins at a place of the section of a number.
#[tactic(auto, using(crate::proofs::ViewRelocationLaws::by_rules))]
pub fn relocation_in(kept: &[Option<Kept>], section: u32, place: u64) -> Option<Relocation>
    ensures value { option_map relocation_value result ≡ relocation_kept (get_or kept.now section None) place }
    ensures sizes { IfSome result (λ r. IfSome r.size (λ n. (n ≡ 4) ⊎ (n ≡ 8))) }
{
    match entry(kept, section) {
        Some(kept) => kept.relocation(place),
        None => None,
    }
}

/// Where the symbol of the relocation that begins at a place of the section of a number is defined.
#[tactic(auto, using(crate::proofs::ViewRelocationLaws::by_rules))]
pub fn target_in(kept: &[Option<Kept>], section: u32, place: u64) -> Option<(u32, u64)>
    ensures { result ≡ target_in (relocation_kept (get_or kept.now section None) place) }
{
    match entry(kept, section) {
        Some(kept) => kept.target(place),
        None => None,
    }
}

/// The first place from one on that is listed of the section of a number.
#[tactic(auto, using(crate::proofs::ViewRelocationLaws::by_rules))]
pub fn next_in(kept: &[Option<Kept>], section: u32, from: u64) -> Option<u64>
    ensures next { NextKept (get_or kept.now section None) from result }
{
    match entry(kept, section) {
        Some(kept) => kept.next_place(from),
        None => None,
    }
}

/// The number with which a field of `size` bytes, 4 or 8, in which another stands, says an offset, in the section of a number.
#[tactic(auto, using(crate::proofs::MovedLaws::by_rules))]
pub fn moved_in(
    kept: &[Option<Kept>],
    section: u32,
    place: u64,
    size: u8,
    number: u64,
    offset: u64,
) -> u64
    requires size { (size ≡ 4) ⊎ (size ≡ 8) }
    ensures { result ≡ number_put (relocation_kept (get_or kept.now section None) place) size number offset }
{
    match entry(kept, section) {
        Some(kept) => kept.moved_number(place, size, number, offset),
        None => offset,
    }
}
