//! Abbreviations one behind another, up to the end of their table (DWARF 5, 7.5.3).
//!
//! This file promises: what is read from a place on is the table there; a code is found among the abbreviations from one on exactly
//! where one of them has it.

ghost use Rattle.std.specs.HashMap.{get};
ghost use Rattle.std.specs.Prelude.{◌≡◌, ◌≢◌, ◌+◌, ◌<◌, ◌≤◌, List, [], drop, length, nat_eq, IfSome, IfOk, IfErr, OnOk};
ghost use Rattle.dw_base.specs.AbbreviationTables.{Abbreviation, IsTable};
ghost use Rattle.dw_base.specs.AbbreviationFails.{DeclarationFails};
ghost use Rattle.dw_base.specs.Lebs.{uleb_at};
ghost use Rattle.dw_abbrev.specs.Coded.{index_of_code, IsCoded};
ghost use Rattle.dw_abbrev.specs.Spelled.{DeclaresOne, StopsFor, TableFails};
ghost use Rattle.dw_abbrev.specs.Spots.{AreSpots};

use crate::abbrev::Abbrev;
use crate::spelled::abbrev_at;
use crate::spots::{Spot, no_spots};
use crate::stopped::Stopped;
use dw_base::{Spec, uleb_at};
use indexmap::IndexSet;
use std::alloc::Global;
use std::collections::HashMap;
use std::marker::Model;

/// Abbreviations, in the order in which they stand.
#[derive(Drop)]
pub(crate) struct Run {
    /// The abbreviations.
    list: Vec<Abbrev>,
    /// Their codes, in the same order.
    codes: IndexSet<u64>,
}

impl Model for Run {
    ghost Value = { List Abbreviation };

    ghost view = { λ r. r.list.items };

    ghost invariant = { λ r. IsCoded r.codes.keys r.list.items };
}

/// Appends the abbreviation whose code was read at a place, and gives the place behind it. Stopped only
/// where none stands there, its code is one of the list, or for want of memory. Attributes are read into `scratch`.
#[tactic(auto, using(crate::proofs::Rows::declare_rows, crate::proofs::CodedLaws::coded_laws))]
pub(crate) fn declare(
    alloc: Global,
    bytes: &[u8],
    at: u64,
    code: u64,
    size: u64,
    spots: &HashMap<u64, Spot>,
    list: &mut Vec<Abbrev>,
    codes: &mut IndexSet<u64>,
    scratch: &mut Vec<Spec>,
) -> Result<u64, Stopped>
    requires spots { AreSpots bytes.now (λ o. get nat_eq spots.now o) }
    requires code { uleb_at bytes.now at ≡ Some (code, size) }
    requires inside { at + size ≤ length bytes.now }
    requires declares { code ≢ 0 }
    requires coded { IsCoded codes.old.keys list.old.items }
    ensures found { IfOk result (DeclaresOne bytes.now at list.old.items list.new.items) }
    ensures coded { OnOk result (IsCoded codes.new.keys list.new.items) }
    ensures further { IfOk result (λ next. at < next) }
    ensures within { IfOk result (λ next. next ≤ length bytes.now) }
    ensures stopped { IfErr result (StopsFor (DeclarationFails bytes.now list.old.items at)) }
{
    let (_, added) = codes.insert_full(code)?;
    if !added {
        return Err(Stopped::Unspelled);
    }
    let (abbrev, next) = abbrev_at(alloc, bytes, at, code, size, spots, scratch)?;
    list.push(abbrev)?;
    Ok(next)
}

/// The abbreviations of the table at a place. Stopped only where something else than an abbreviation or the end stands behind
/// some of them, or for want of memory.
#[tactic(auto, using(crate::proofs::Rows::table_rows, crate::proofs::CodedLaws::coded_start))]
pub(crate) fn run_at(alloc: Global, bytes: &[u8], at: u64) -> Result<Run, Stopped>
    ensures table { IfOk result (IsTable bytes.now at) }
    ensures stopped { IfErr result (StopsFor (TableFails bytes.now at)) }
{
    let spots = no_spots(alloc, bytes);
    let mut list = Vec::new(alloc);
    let mut codes = IndexSet::new(alloc);
    let mut scratch = Vec::new(alloc);
    let mut place = at;
    'table: loop {
        let Some((code, size)) = uleb_at(bytes, place) else {
            return Err(Stopped::Unspelled);
        };
        if code == 0 {
            return Ok(Run { list, codes });
        }
        place = declare(
            alloc,
            bytes,
            place,
            code,
            size,
            &spots,
            &mut list,
            &mut codes,
            &mut scratch,
        )?;
    }
}

impl Run {
    /// These abbreviations, with their codes.
    pub(crate) fn of(list: Vec<Abbrev>, codes: IndexSet<u64>) -> Run
        requires coded { IsCoded codes.keys list.items }
        ensures value { result ≡ list.items }
    {
        Run { list, codes }
    }

    /// No abbreviation.
    #[tactic(auto, using(crate::proofs::CodedLaws::coded_start))]
    pub(crate) fn empty(alloc: Global) -> Run
        ensures value { result ≡ [] }
    {
        Run {
            list: Vec::new(alloc),
            codes: IndexSet::new(alloc),
        }
    }

    /// The abbreviations.
    pub(crate) fn as_slice(&self) -> &[Abbrev]
        ensures value { result.now ≡ self.now }
    {
        self.list.as_slice()
    }

    /// Where the abbreviation of a code stands among them, from 0 on. `None` exactly where none has the code. The first look goes
    /// to the place that it has where codes count from 1.
    #[tactic(auto, using(crate::proofs::CodedLaws::index_laws))]
    pub(crate) fn index_of(&self, code: u64) -> Option<usize>
        ensures value { result ≡ index_of_code self.now code }
        ensures within { IfSome result (λ i. i < length self.now) }
    {
        if code != 0 {
            let index = code as usize - 1;
            if let Some(abbrev) = self.list.get(index) {
                if abbrev.code == code {
                    return Some(index);
                }
            }
        }
        self.codes.get_index_of(&code)
    }

    /// Where the abbreviation of a code stands among those from one on, counted from that one. `None` exactly where none of them has
    /// the code.
    #[tactic(auto, using(crate::proofs::RestLaws::rest_rules))]
    pub(crate) fn index_behind(&self, from: usize, code: u64) -> Option<usize>
        requires inside { from ≤ length self.now }
        ensures value { result ≡ index_of_code (drop from self.now) code }
        ensures within { IfSome result (λ i. i < length (drop from self.now)) }
    {
        let _ = &self.codes;
        let Some(index) = self.index_of(code) else {
            return None;
        };
        if index < from {
            return None;
        }
        Some(index - from)
    }
}
