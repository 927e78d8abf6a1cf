//! Relocations that lie on a field only in part.

ghost use Rattle.std.specs.Prelude.{◌≡◌, ◌+◌, ◌-◌, ◌<◌, ◌≤◌, ◌^◌, length, unwrap_or};
ghost use Rattle.dw_base.specs.AbsoluteTypes.{absolute_size};
ghost use Rattle.dw_base.specs.RelocationFields.{reach_of};
ghost use Rattle.dw_base.specs.SectionRelocations.{records_in, relocations_in};
ghost use Rattle.dw_view.specs.Places.{BeginBefore, Lists, PlacesRise, index_of, partly_among, place_at, reaches_over, relocation_at_number};

use crate::places::{PlacedRecord, place_at};
use crate::search::{PlaceIndex, first_from};
use elf_relocs::{RelocSource, absolute_size, record};

/// How many bytes before a field a relocation may begin that has a byte of it: the greatest field of an absolute type has 8.
const REACH: u64 = 7;

/// Where the first relocation begins that lies on the field of `size` bytes at a place only in part. `None` exactly where none does. It is
/// found in a time that doesn't grow with their number.
pub fn partly_at(source: &RelocSource, places: &PlaceIndex, place: u64, size: u8) -> Option<u64>
    requires lists { Lists source.now places.now }
    requires rise { PlacesRise places.now }
    requires small { place + size < 2 ^ 63 }
    ensures place { result ≡ partly_among (relocations_in source.now) place size }
{
    let first = first_from(places, place.saturating_sub(REACH));
    partly_from(source, places.list(), first, place, size)
}

/// The same from the first on that may reach the field.
#[tactic(auto, using(crate::proofs::PartlyLaws::partly_rules))]
fn partly_from(
    source: &RelocSource,
    list: &[PlacedRecord],
    first: usize,
    place: u64,
    size: u8,
) -> Option<u64>
    requires lists { Lists source.now list.now }
    requires rise { PlacesRise list.now }
    requires before { BeginBefore list.now (place - 7) first }
    requires small { place + size < 2 ^ 63 }
    ensures place { result ≡ partly_among (relocations_in source.now) place size }
{
    let end = place + u64::from(size);
    for i in first..list.len() {
        let at = place_at(list, i);
        if at >= end {
            return None;
        }
        if reaches_over(source, list, i, place) {
            return Some(at);
        }
    }
    None
}

/// Whether the relocation of a number has a byte behind a place, and begins elsewhere.
#[tactic(auto, using(crate::proofs::PartlyLaws::over_rules))]
fn reaches_over(source: &RelocSource, list: &[PlacedRecord], i: usize, place: u64) -> bool
    requires lists { Lists source.now list.now }
    requires inside { i < length list.now }
    requires small { place_at list.now i < 2 ^ 63 }
    ensures over { result ≡ reaches_over source.now list.now i place }
{
    let at = place_at(list, i);
    if at == place {
        return false;
    }
    let reach = reach_of(source, list, i);
    place < at + u64::from(reach)
}

/// How many bytes the relocation of a number changes.
#[tactic(auto, using(crate::proofs::PartlyLaws::reach_rules))]
fn reach_of(source: &RelocSource, list: &[PlacedRecord], i: usize) -> u8
    requires lists { Lists source.now list.now }
    requires inside { i < length list.now }
    ensures reach { result ≡ reach_of (relocation_at_number source.now list.now i) }
{
    match record(source, index_of(list, i)) {
        Some(reloc) => size_or_one(source.machine, reloc.kind),
        None => 1,
    }
}

/// The size of the field of a type, 1 where it isn't an absolute one.
fn size_or_one(machine: u16, kind: u32) -> u8
    ensures size { result ≡ unwrap_or (absolute_size machine kind) 1 }
{
    absolute_size(machine, kind).unwrap_or(1)
}

/// The number of the record of the relocation of a number.
#[tactic(auto, using(crate::proofs::PartlyLaws::index_rules))]
pub fn index_of(list: &[PlacedRecord], i: usize) -> u64
    requires inside { i < length list.now }
    ensures index { result ≡ index_of list.now i }
{
    list[i].index
}
