//! The header of a name table: its counts, and where the parts that they count stand (DWARF 5, 6.1.1.4.1).
//!
//! This file promises: the table that is given stands at the place and all its parts fit; it is refused only
//! where no table can be read there.

ghost use Rattle.std.specs.Prelude.{◌≡◌, ◌+◌, ◌*◌, ◌≤◌, ◌<◌, ◌^◌, length, IfOk, IfErr};
ghost use Rattle.dw_base.specs.Forms.{width_size};
ghost use Rattle.dw_base.specs.NameTables.{IsNameTable};
ghost use Rattle.dw_base.specs.NameHeaders.{CountsFit, before_strings, from_strings, hashes_size, name_counts};
ghost use Rattle.dw_base.specs.NameTableFails.{TableFails};

use dw_base::{Kind, NameCounts, NameTable, Order, Refusal, Width, initial_length_at, number_in};

/// The version of a name table (DWARF 5, 6.1.1.4.1).
const NAMES_VERSION: u64 = 5;
/// How many bytes the version, the padding and the counts have.
const COUNTS_SIZE: u64 = 32;

/// The counts of a table whose version stands at a place.
#[tactic(auto, using(crate::proofs::NameHeaderLaws::count_laws), unfolding(dw_base::specs::NameHeaders::name_counts))]
fn counts_at(order: Order, bytes: &[u8], place: u64) -> NameCounts
    requires inside { place + 32 ≤ length bytes.now }
    ensures counts { result ≡ name_counts order bytes.now place }
    ensures fit { CountsFit result }
{
    NameCounts {
        units: number_in(order, bytes, place + 4, 4),
        local: number_in(order, bytes, place + 8, 4),
        foreign: number_in(order, bytes, place + 12, 4),
        buckets: number_in(order, bytes, place + 16, 4),
        names: number_in(order, bytes, place + 20, 4),
        abbrevs: number_in(order, bytes, place + 24, 4),
        augmentation: number_in(order, bytes, place + 28, 4),
    }
}

/// How many bytes so many offsets have.
#[tactic(auto, using(crate::proofs::NameHeaderLaws::width_laws))]
fn offsets_size(width: Width, count: u64) -> u64
    requires small { count ≤ 2 ^ 33 }
    ensures size { result ≡ count * width_size width }
    ensures small { result ≤ 2 ^ 36 }
{
    match width {
        Width::W32 => count * 4,
        Width::W64 => count * 8,
    }
}

/// How many bytes the hashes have: there are none where there are no buckets.
fn hashes_size(counts: &NameCounts) -> u64
    requires fit { CountsFit counts.now }
    ensures size { result ≡ hashes_size counts.now }
    ensures small { result ≤ 2 ^ 34 }
{
    if counts.buckets == 0 {
        0
    } else {
        4 * counts.names
    }
}

/// How many bytes stand between the counts and the string offsets.
#[tactic(auto, unfolding(dw_base::specs::NameHeaders::before_strings))]
fn before_strings(width: Width, counts: &NameCounts) -> u64
    requires fit { CountsFit counts.now }
    ensures size { result ≡ before_strings width counts.now }
    ensures small { result ≤ 2 ^ 40 }
{
    let offsets = offsets_size(width, counts.units + counts.local);
    let hashes = hashes_size(counts);
    (counts.augmentation + 3) / 4 * 4 + offsets + 8 * counts.foreign + 4 * counts.buckets + hashes
}

/// How many bytes the string offsets, the offsets of entries and the abbreviations have.
#[tactic(auto, unfolding(dw_base::specs::NameHeaders::from_strings))]
fn from_strings(width: Width, counts: &NameCounts) -> u64
    requires fit { CountsFit counts.now }
    ensures size { result ≡ from_strings width counts.now }
    ensures small { result ≤ 2 ^ 40 }
{
    offsets_size(width, 2 * counts.names) + counts.abbrevs
}

/// The table that starts at a place of a section.
#[tactic(auto, using(crate::proofs::NameHeaderLaws::table_laws))]
pub(crate) fn table_at(
    order: Order,
    section: u32,
    bytes: &[u8],
    start: u64,
) -> Result<NameTable, Refusal>
    ensures read { IfOk result (IsNameTable order bytes.now start) }
    ensures further { IfOk result (λ t. start < t.end) }
    ensures within { IfOk result (λ t. t.end ≤ length bytes.now) }
    ensures strings { IfOk result (λ t. t.strings + t.names * width_size t.width ≤ t.end) }
    ensures refused { IfErr result (TableFails order bytes.now section start) }
{
    let Some((width, extent, size)) = initial_length_at(order, bytes, start) else {
        return Err(Refusal::at(Kind::NameTable, section, start));
    };
    if extent > bytes.len() as u64 - start - size {
        return Err(Refusal::at(Kind::NameTable, section, start));
    }
    if extent < COUNTS_SIZE {
        return Err(Refusal::at(Kind::NameTable, section, start));
    }
    if number_in(order, bytes, start + size, 2) != NAMES_VERSION {
        return Err(Refusal::at(Kind::NameTable, section, start));
    }
    let counts = counts_at(order, bytes, start + size);
    let before = before_strings(width, &counts);
    if extent < COUNTS_SIZE + before + from_strings(width, &counts) {
        return Err(Refusal::at(Kind::NameTable, section, start));
    }
    Ok(NameTable {
        start,
        end: start + size + extent,
        width,
        names: counts.names,
        strings: start + size + COUNTS_SIZE + before,
    })
}
