//! A step through the entries of a unit (DWARF 5, 7.5.2 and 7.5.3).
//!
//! This file promises: behind any entries up to a place, a step finds the one that comes next, or that
//! they are all of the unit's, and is refused only where the unit can't be read further, at that place.

ghost use Rattle.std.specs.Prelude.{◌≡◌, ◌≤◌, ◌<◌, ◌+◌, ◌^◌, length, IfOk, IfErr, IfSome, IfNone, IsTrue, Some, None};
ghost use Rattle.dw_abbrev.specs.Coded.{index_of_code};
ghost use Rattle.dw_base.specs.AbbreviationTables.{abbreviation_of};
ghost use Rattle.dw_base.specs.EntryScans.{depth_behind, has_attribute, is_split_entry, is_split_root};
ghost use Rattle.dw_base.specs.Refusals.{at};
ghost use Rattle.dw_base.specs.UnitHeaders.{is_address_size};
ghost use Rattle.dw_entries.specs.CodedEntries.{HasCode};
ghost use Rattle.dw_entries.specs.Passes.{ComesNext, IsCode, IsWhole, StandsHere, StopsHere};

use crate::entry_values::values_end;
use crate::nulls::behind_nulls;
use crate::scan::Coded;
use dw_abbrev::{Abbrev, AbbrevTable};
use dw_base::dwarf_numbers::{DW_AT_GNU_dwo_name, DW_AT_dwo_name, DW_TAG_skeleton_unit};
use dw_base::{Kind, Refusal, Scanned, Spec, UnitHeader};

/// Where a pass stands: a place, how many lists of children are open there, and how many entries are
/// before it.
#[derive(Clone, Copy)]
pub(crate) struct Stand {
    /// In bytes from the section's start.
    pub place: u64,
    /// How many lists are open.
    pub depth: u32,
    /// How many entries are before it.
    pub number: u64,
}

/// An entry, and how many lists of children are open behind it.
#[derive(Clone, Copy)]
pub(crate) struct Step {
    /// The entry, with what was read of its code.
    pub coded: Coded,
    /// How many lists are open behind it.
    pub depth: u32,
}

/// Whether one of the attributes has a name.
fn has_attribute(specs: &[Spec], name: u64) -> bool
    ensures { result ≡ has_attribute specs.now name }
{
    for spec in specs {
        if spec.name == name {
            return true;
        }
    }
    false
}

/// Whether an entry of the abbreviation stands for one in another file (DWARF 5, 3.1.2).
fn is_split_entry(abbreviation: &Abbrev) -> bool
    ensures { result ≡ is_split_entry abbreviation.now }
{
    let specs = abbreviation.specs.as_slice();
    abbreviation.tag == DW_TAG_skeleton_unit
        || has_attribute(specs, DW_AT_dwo_name)
        || has_attribute(specs, DW_AT_GNU_dwo_name)
}

/// Whether the entry of a number is a unit's first, and stands for one in another file.
fn is_split_root(number: u64, abbreviation: &Abbrev) -> bool
    ensures { result ≡ is_split_root number abbreviation.now }
{
    number == 0 && is_split_entry(abbreviation)
}

/// A refusal at a place of the unit's section.
fn refused(kind: Kind, unit: &UnitHeader, place: u64) -> Refusal
    ensures { result ≡ at kind unit.now.section place }
{
    Refusal::at(kind, unit.section, place)
}

/// How many lists are open behind an entry.
fn depth_behind(abbreviation: &Abbrev, depth: u32) -> u32
    requires small { depth < 2 ^ 31 }
    ensures { result ≡ depth_behind abbreviation.now depth }
{
    if abbreviation.children {
        depth + 1
    } else {
        depth
    }
}

/// The number of the abbreviation of a code in the table, and the abbreviation. `None` exactly where the table hasn't the code.
#[tactic(auto, using(crate::proofs::CodeLaws::listed_rules))]
fn listed(table: &AbbrevTable, code: u64) -> Option<(usize, &Abbrev)>
    ensures number { IfSome result (λ l. index_of_code table.now code ≡ Some l.0) }
    ensures value { IfSome result (λ l. Some l.1.now ≡ abbreviation_of table.now code) }
    ensures none { IfNone result (None ≡ abbreviation_of table.now code) }
{
    let Some(index) = table.index_of(code) else {
        return None;
    };
    Some((index, table.abbrev(index)))
}

/// The entry whose code was read at a place.
#[tactic(auto, using(crate::proofs::CodeLaws::entry_rules))]
fn entry_at(
    unit: &UnitHeader,
    table: &AbbrevTable,
    bytes: &[u8],
    here: Stand,
    code: u64,
    size: u64,
) -> Result<Step, Refusal>
    requires address { IsTrue (is_address_size unit.now.params.address) }
    requires code { IsCode bytes.now here.place (code, size) }
    requires some { 0 < size }
    requires room { here.place + size ≤ length bytes.now }
    requires depth { here.depth ≤ here.place }
    requires small { length bytes.now ≤ 2 ^ 31 }
    ensures item { IfOk result (λ s. StandsHere unit.now table.now bytes.now here.number s.coded.entry s.depth) }
    ensures place { IfOk result (λ s. s.coded.entry.offset ≡ here.place) }
    ensures depth { IfOk result (λ s. s.coded.entry.depth ≡ here.depth) }
    ensures code { IfOk result (λ s. HasCode table.now bytes.now s.coded.entry s.coded.index s.coded.from) }
    ensures further { IfOk result (λ s. here.place < s.coded.entry.after) }
    ensures within { IfOk result (λ s. s.coded.entry.after ≤ length bytes.now) }
    ensures deep { IfOk result (λ s. s.depth ≤ here.depth + 1) }
    ensures refused { IfErr result (StopsHere unit.now table.now bytes.now here.place here.depth here.number) }
{
    let Some((index, abbrev)) = listed(table, code) else {
        return Err(refused(Kind::Entry, unit, here.place));
    };
    if is_split_root(here.number, abbrev) {
        return Err(refused(Kind::SplitDwarf, unit, here.place));
    }
    let from = here.place + size;
    let after = values_end(&unit.params, unit.section, bytes, &abbrev.specs, from)?;
    let entry = Scanned {
        offset: here.place,
        depth: here.depth,
        code,
        after,
    };
    let coded = Coded { entry, index, from };
    Ok(Step {
        coded,
        depth: depth_behind(abbrev, here.depth),
    })
}

/// The entry that comes next, none where the unit ends.
#[inline(always)]
#[tactic(auto, using(crate::proofs::StepLaws::step_rules))]
pub(crate) fn next_step(
    unit: &UnitHeader,
    table: &AbbrevTable,
    bytes: &[u8],
    here: Stand,
) -> Result<Option<Step>, Refusal>
    requires end { unit.now.end ≡ length bytes.now }
    requires address { IsTrue (is_address_size unit.now.params.address) }
    requires inside { here.place ≤ length bytes.now }
    requires depth { here.depth ≤ here.place }
    requires small { length bytes.now ≤ 2 ^ 31 }
    ensures item { IfOk result (λ o. IfSome o (λ s. ComesNext unit.now table.now bytes.now here.place here.depth here.number s.coded.entry s.depth)) }
    ensures whole { IfOk result (λ o. IfNone o (IsWhole unit.now table.now bytes.now here.place here.depth)) }
    ensures code { IfOk result (λ o. IfSome o (λ s. HasCode table.now bytes.now s.coded.entry s.coded.index s.coded.from)) }
    ensures further { IfOk result (λ o. IfSome o (λ s. here.place < s.coded.entry.after)) }
    ensures within { IfOk result (λ o. IfSome o (λ s. s.coded.entry.after ≤ length bytes.now)) }
    ensures deep { IfOk result (λ o. IfSome o (λ s. s.depth ≤ here.depth + 1)) }
    ensures refused { IfErr result (StopsHere unit.now table.now bytes.now here.place here.depth here.number) }
{
    let found = behind_nulls(bytes, here.place, here.depth);
    let Some((code, size)) = found.code else {
        if found.place != unit.end {
            return Err(refused(Kind::Entry, unit, found.place));
        }
        if found.depth != 0 {
            return Err(refused(Kind::Entry, unit, found.place));
        }
        return Ok(None);
    };
    let there = Stand {
        place: found.place,
        depth: found.depth,
        number: here.number,
    };
    let next = entry_at(unit, table, bytes, there, code, size)?;
    Ok(Some(next))
}
