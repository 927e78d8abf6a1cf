//! The contributions of string offsets (DWARF 5, 7.26).
//!
//! This file promises: the contributions that are given fill the section, in the order of their places,
//! and they are refused only where one of them can't be read, at that contribution.

ghost use Rattle.std.specs.Prelude.{◌≡◌, ◌≤◌, ◌<◌, List, length, IfOk, IfErr, OnOk};
ghost use Rattle.dw_base.specs.Refusals.{Blames};
ghost use Rattle.dw_base.specs.declared.fault.Refusal.{Refusal as RefusalOf};
ghost use Rattle.dw_base.specs.StringOffsets.{AreContributions, ContributionsUpTo, IsContribution};
ghost use Rattle.dw_base.specs.ViewData.{string_offsets};
ghost use Rattle.dw_offsets.specs.SlotSearch.{BasesRise};
ghost use Rattle.dw_base.specs.StringOffsetFails.{ContributionFails, ContributionsFail, SectionFails};
ghost use Rattle.dw_base.specs.declared.string_offsets.Contribution.{Contribution as ContributionOf};

use crate::widths::are_whole;
use dw_base::{
    Contribution, DebugSection, Fault, Kind, Order, Refusal, Width, initial_length_at, number_in,
};
use dw_view::View;
use std::alloc::Global;
use std::marker::Model;

/// The version of a contribution (DWARF 5, 7.26).
const CONTRIBUTION_VERSION: u64 = 5;
/// How many bytes the version and the padding of a contribution have.
const VERSION_SIZE: u64 = 4;

/// The contributions of a file, in the order of their places: so their bases rise.
#[derive(Drop, Debug)]
pub struct ContributionList {
    list: Vec<Contribution>,
}

impl Model for ContributionList {
    ghost Value = { List ContributionOf };

    ghost view = { λ c. c.list.items };

    ghost invariant = { λ c. BasesRise c.list.items };
}

impl ContributionList {
    /// The contributions.
    pub fn as_slice(&self) -> &[Contribution]
        ensures value { result.now ≡ self.now }
        ensures rising { BasesRise result.now }
    {
        self.list.as_slice()
    }
}

/// The contributions of `.debug_str_offsets`; none where there is no such section. Refused as
/// `StringTable` exactly where they don't fill it, at the first contribution that can't be read: its
/// length can't be read or passes the section's end, its version isn't 5, or its slots aren't whole.
#[tactic(auto, using(crate::proofs::ContributionLaws::section_laws))]
pub fn contributions(alloc: Global, view: &View) -> Result<ContributionList, Fault>
    ensures read { IfOk result (AreContributions view.now.order (string_offsets view.now)) }
    ensures none { OnOk result ((r : RefusalOf) → ContributionsFail view.now.order (string_offsets view.now) r → ⊥) }
    ensures refused { IfErr result (Blames (ContributionsFail view.now.order (string_offsets view.now))) }
{
    let Some(section) = view.first(DebugSection::StrOffsets) else {
        return Ok(ContributionList {
            list: Vec::new(alloc),
        });
    };
    let list = contributions_in(alloc, view.order(), section, view.bytes(section))?;
    Ok(ContributionList { list })
}

/// The contributions that fill the bytes of the section of a number.
#[tactic(auto, using(crate::proofs::ContributionLaws::list_laws))]
fn contributions_in(
    alloc: Global,
    order: Order,
    section: u32,
    bytes: &[u8],
) -> Result<Vec<Contribution>, Fault>
    ensures read { IfOk result (λ list. ContributionsUpTo order bytes.now list.items (length bytes.now)) }
    ensures refused { IfErr result (Blames (SectionFails order bytes.now section)) }
{
    let len = bytes.len() as u64;
    let mut list = Vec::new(alloc);
    let mut start = 0;
    'contributions: while start < len {
        let contribution = contribution_at(order, section, bytes, start)?;
        start = contribution.end;
        list.push(contribution)?;
    }
    Ok(list)
}

/// The contribution that starts at a place.
#[tactic(auto, using(crate::proofs::ContributionLaws::contribution_laws))]
fn contribution_at(
    order: Order,
    section: u32,
    bytes: &[u8],
    start: u64,
) -> Result<Contribution, Refusal>
    ensures read { IfOk result (IsContribution order bytes.now start) }
    ensures further { IfOk result (λ c. start < c.end) }
    ensures within { IfOk result (λ c. c.end ≤ length bytes.now) }
    ensures refused { IfErr result (ContributionFails order bytes.now section start) }
{
    let Some((width, extent, size)) = initial_length_at(order, bytes, start) else {
        return Err(Refusal::at(Kind::StringTable, section, start));
    };
    if extent > bytes.len() as u64 - start - size {
        return Err(Refusal::at(Kind::StringTable, section, start));
    }
    if extent < VERSION_SIZE {
        return Err(Refusal::at(Kind::StringTable, section, start));
    }
    if number_in(order, bytes, start + size, 2) != CONTRIBUTION_VERSION {
        return Err(Refusal::at(Kind::StringTable, section, start));
    }
    if !are_whole(width, extent - VERSION_SIZE) {
        return Err(Refusal::at(Kind::StringTable, section, start));
    }
    Ok(Contribution {
        start,
        base: start + size + VERSION_SIZE,
        end: start + size + extent,
        width,
    })
}
