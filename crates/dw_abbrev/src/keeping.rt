//! The tables of abbreviations that units name, by their places (DWARF 5, 7.5.3).
//!
//! This file promises: each table that is given is the one that stands at its place. What they take together is no more than a small
//! multiple of the section: tables that end alike share what they have in common, abbreviations that end alike share their attributes, and
//! where tables overlap otherwise, and too often, the further ones aren't given.

ghost use Rattle.std.specs.Bool.{OnTrue};
ghost use Rattle.std.specs.HashMap.{get};
ghost use Rattle.std.specs.Prelude.{◌++◌, nat_eq, IfOk, OnOk};
ghost use Rattle.dw_base.specs.AbbreviationTables.{IsTable};
ghost use Rattle.dw_abbrev.specs.Fronts.{GoesOn};
ghost use Rattle.dw_abbrev.specs.Kept.{AllKept, AreKept};
ghost use Rattle.dw_abbrev.specs.Rests.{AreApart, AreTails};
ghost use Rattle.dw_abbrev.specs.Spots.{AreSpots};

use crate::abbrev::Abbrev;
use crate::front::{Front, front_at};
use crate::opening::open_all;
use crate::rests::Rests;
use crate::run::Run;
use crate::spots::{Spot, no_spots};
use crate::stopped::Stopped;
use crate::table::{AbbrevTable, joined};
use crate::tails::{keep_tails, no_tails};
use dw_base::NoMemory;
use std::alloc::Global;
use std::collections::HashMap;
use std::rc::Rc;

/// How many times as many bytes as the section has are read at most.
const MOST_TIMES: u64 = 8;

/// A table, and where it stands.
#[derive(Drop)]
pub struct KeptTable {
    /// In bytes from the section's start.
    pub at: u64,
    /// The table.
    pub table: AbbrevTable,
}

/// No code of these is one of those.
#[tactic(auto, using(crate::proofs::JoinLaws::apart_rules))]
fn are_apart(own: &[Abbrev], others: &Rests) -> bool
    ensures apart { OnTrue result (AreApart own.now others.now) }
{
    for abbrev in own {
        if others.index_of(abbrev.code).is_some() {
            return false;
        }
    }
    true
}

/// Puts a table behind the others.
#[tactic(auto, using(crate::proofs::KeptLaws::kept_rules))]
fn keep(
    bytes: &[u8],
    at: u64,
    table: AbbrevTable,
    kept: &mut Vec<KeptTable>,
) -> Result<(), NoMemory>
    requires table { IsTable bytes.now at table }
    requires kept { AllKept bytes.now kept.old.items }
    ensures kept { OnOk result (AllKept bytes.now kept.new.items) }
{
    kept.push(KeptTable { at, table })?;
    Ok(())
}

/// Keeps a table, and the tables from each of its own abbreviations on for others to share.
#[tactic(auto, using(crate::proofs::JoinLaws::opened_rules))]
fn keep_opened(
    alloc: Global,
    bytes: &[u8],
    at: u64,
    own: Run,
    behind: &Rests,
    places: &[u64],
    tails: &mut HashMap<u64, Rests>,
    kept: &mut Vec<KeptTable>,
) -> Result<(), NoMemory>
    requires table { IsTable bytes.now at (own ++ behind.now) }
    requires parts { AreTails bytes.now places.now own behind.now }
    requires tails { AreKept bytes.now (λ o. get nat_eq tails.old o) }
    requires kept { AllKept bytes.now kept.old.items }
    ensures tails { OnOk result (AreKept bytes.now (λ o. get nat_eq tails.new o)) }
    ensures kept { OnOk result (AllKept bytes.now kept.new.items) }
{
    let own = Rc::new(alloc, own)?;
    let Some(all) = behind.behind(alloc, &own, 0)? else {
        return Ok(());
    };
    keep(bytes, at, joined(Run::empty(alloc), all), kept)?;
    keep_tails(alloc, bytes, &own, behind, places, tails)?;
    Ok(())
}

/// How many bytes an abbreviation takes at least, and an attribute.
const LEAST_ABBREV: u64 = 5;

const LEAST_SPEC: u64 = 2;

/// How many bytes abbreviations take at least, but for attributes that they share.
fn least_size(own: &[Abbrev]) -> u64 {
    let mut size = 0u64;
    for abbrev in own {
        let specs = (abbrev.specs.own_len() as u64).saturating_mul(LEAST_SPEC);
        size = size.saturating_add(specs).saturating_add(LEAST_ABBREV);
    }
    size
}

/// A place is there, and in front of another.
fn is_before(place: Option<u64>, end: u64) -> bool {
    match place {
        Some(place) => place < end,
        None => false,
    }
}

/// Keeps a table that was read up to its end, or up to where it goes on as another; `next` is the next place at which one is wanted.
fn keep_front(
    alloc: Global,
    bytes: &[u8],
    at: u64,
    front: Front,
    places: &[u64],
    next: Option<u64>,
    tails: &mut HashMap<u64, Rests>,
    spots: &mut HashMap<u64, Spot>,
    kept: &mut Vec<KeptTable>,
) -> Result<(), NoMemory>
    requires goes_on { GoesOn bytes.now at places.now front.run front.behind }
    requires tails { AreKept bytes.now (λ o. get nat_eq tails.old o) }
    requires spots { AreSpots bytes.now (λ o. get nat_eq spots.old o) }
    requires kept { AllKept bytes.now kept.old.items }
    ensures tails { OnOk result (AreKept bytes.now (λ o. get nat_eq tails.new o)) }
    ensures spots { OnOk result (AreSpots bytes.now (λ o. get nat_eq spots.new o)) }
    ensures kept { OnOk result (AllKept bytes.now kept.new.items) }
{
    let Front { run, behind, end } = front;
    if !are_apart(run.as_slice(), &behind) {
        return Ok(());
    }
    if !is_before(next, end) {
        return keep(bytes, at, joined(run, behind), kept);
    }
    open_all(alloc, bytes, places, spots)?;
    keep_opened(alloc, bytes, at, run, &behind, places, tails, kept)
}

/// What was read of a table.
#[derive(Clone, Copy)]
struct Taken {
    /// How many bytes at least.
    size: u64,
    /// Where it ended.
    end: u64,
}

/// Keeps the table at a place, and tells what was read for it; where none can be read it is left out, and all bytes count.
fn keep_one(
    alloc: Global,
    bytes: &[u8],
    at: u64,
    next: Option<u64>,
    tails: &mut HashMap<u64, Rests>,
    spots: &mut HashMap<u64, Spot>,
    kept: &mut Vec<KeptTable>,
) -> Result<Taken, NoMemory>
    requires tails { AreKept bytes.now (λ o. get nat_eq tails.old o) }
    requires spots { AreSpots bytes.now (λ o. get nat_eq spots.old o) }
    requires kept { AllKept bytes.now kept.old.items }
    ensures tails { OnOk result (AreKept bytes.now (λ o. get nat_eq tails.new o)) }
    ensures spots { OnOk result (AreSpots bytes.now (λ o. get nat_eq spots.new o)) }
    ensures kept { OnOk result (AllKept bytes.now kept.new.items) }
{
    let mut places = Vec::new(alloc);
    match front_at(alloc, bytes, at, tails, spots, &mut places) {
        Ok(front) => {
            let taken = Taken {
                size: least_size(front.run.as_slice()),
                end: front.end,
            };
            keep_front(
                alloc,
                bytes,
                at,
                front,
                places.as_slice(),
                next,
                tails,
                spots,
                kept,
            )?;
            Ok(taken)
        }
        Err(Stopped::Unspelled) => Ok(Taken {
            size: bytes.len() as u64,
            end: at,
        }),
        Err(Stopped::NoMemory) => Err(NoMemory),
    }
}

/// Forgets what is kept for others to share, where the next table stands behind all that were read.
fn close_before(
    alloc: Global,
    bytes: &[u8],
    at: u64,
    end: u64,
    tails: &mut HashMap<u64, Rests>,
    spots: &mut HashMap<u64, Spot>,
)
    requires tails { AreKept bytes.now (λ o. get nat_eq tails.old o) }
    requires spots { AreSpots bytes.now (λ o. get nat_eq spots.old o) }
    ensures tails { AreKept bytes.now (λ o. get nat_eq tails.new o) }
    ensures spots { AreSpots bytes.now (λ o. get nat_eq spots.new o) }
{
    if at < end || tails.is_empty() {
        return;
    }
    *tails = no_tails(alloc, bytes);
    *spots = no_spots(alloc, bytes);
}

/// The tables at places of these bytes, which rise. One that can't be read is left out, and where tables overlap so much that more than
/// a multiple of all bytes were read, all further ones are.
#[tactic(auto, using(crate::proofs::KeptLaws::all_rules))]
pub fn tables_at(alloc: Global, bytes: &[u8], starts: &[u64]) -> Result<Vec<KeptTable>, NoMemory>
    ensures kept { IfOk result (λ kept. AllKept bytes.now kept.items) }
{
    let mut kept = Vec::new(alloc);
    let mut tails = no_tails(alloc, bytes);
    let mut spots = no_spots(alloc, bytes);
    let mut end = 0;
    let mut room = (bytes.len() as u64).saturating_mul(MOST_TIMES);
    for (index, start) in starts.iter().enumerate() {
        let next = starts.get(index + 1).copied();
        close_before(alloc, bytes, *start, end, &mut tails, &mut spots);
        let taken = keep_one(
            alloc, bytes, *start, next, &mut tails, &mut spots, &mut kept,
        )?;
        if taken.size > room {
            return Ok(kept);
        }
        room -= taken.size;
        end = end.max(taken.end);
    }
    Ok(kept)
}
