//! The places of abbreviations that were read once, from where other tables may go on as the same (DWARF 5, 7.5.3).
//!
//! This file promises: what is kept at a place is the table that stands there.

ghost use Rattle.std.specs.HashMap.{get};
ghost use Rattle.std.specs.Prelude.{◌++◌, ◌≤◌, drop, length, nat_eq, IfSome, OnOk};
ghost use Rattle.dw_base.specs.AbbreviationTables.{IsTable};
ghost use Rattle.dw_abbrev.specs.Kept.{AreKept};
ghost use Rattle.dw_abbrev.specs.Rests.{AreTails};

use crate::rests::Rests;
use crate::run::Run;
use std::alloc::{AllocError, Global};
use std::collections::HashMap;
use std::rc::Rc;

/// No table is kept.
#[tactic(auto, using(crate::proofs::TailLaws::none_rules))]
pub(crate) fn no_tails(alloc: Global, bytes: &[u8]) -> HashMap<u64, Rests>
    ensures tails { AreKept bytes.now (λ o. get nat_eq result o) }
{
    HashMap::new(alloc)
}

/// The table that is kept at a place.
#[tactic(auto, using(crate::proofs::TailLaws::at_rules))]
pub(crate) fn tail_at<'t>(
    bytes: &[u8],
    tails: &'t HashMap<u64, Rests>,
    at: u64,
) -> Option<&'t Rests>
    requires tails { AreKept bytes.now (λ o. get nat_eq tails.now o) }
    ensures table { IfSome result (λ t. IsTable bytes.now at t.now) }
{
    if tails.is_empty() {
        return None;
    }
    tails.get(&at)
}

/// Keeps the table of the abbreviations of a run from one on, and of those behind them, at its place.
#[tactic(auto, using(crate::proofs::TailLaws::keep_rules))]
fn keep_tail(
    alloc: Global,
    bytes: &[u8],
    run: &Rc<Run>,
    from: usize,
    behind: &Rests,
    place: u64,
    tails: &mut HashMap<u64, Rests>,
) -> Result<(), AllocError>
    requires inside { from ≤ length run.now.value }
    requires table { IsTable bytes.now place (drop from run.now.value ++ behind.now) }
    requires tails { AreKept bytes.now (λ o. get nat_eq tails.old o) }
    ensures tails { OnOk result (AreKept bytes.now (λ o. get nat_eq tails.new o)) }
{
    let Some(tail) = behind.behind(alloc, run, from)? else {
        return Ok(());
    };
    tails.insert(place, tail)?;
    Ok(())
}

/// Keeps the tables of the abbreviations of a run from each on, and of those behind them, at their places.
#[tactic(auto, using(crate::proofs::TailLaws::all_rules))]
pub(crate) fn keep_tails(
    alloc: Global,
    bytes: &[u8],
    run: &Rc<Run>,
    behind: &Rests,
    places: &[u64],
    tails: &mut HashMap<u64, Rests>,
) -> Result<(), AllocError>
    requires parts { AreTails bytes.now places.now run.now.value behind.now }
    requires tails { AreKept bytes.now (λ o. get nat_eq tails.old o) }
    ensures tails { OnOk result (AreKept bytes.now (λ o. get nat_eq tails.new o)) }
{
    for (from, place) in places.iter().enumerate() {
        keep_tail(alloc, bytes, run, from, behind, *place, tails)?;
    }
    Ok(())
}
