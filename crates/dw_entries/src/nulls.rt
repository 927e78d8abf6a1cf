//! The codes of 0 between the entries of a unit, and the code behind them (DWARF 5, 7.5.2 and 7.5.3).
//!
//! This file promises: all codes of 0 from a place on are passed, each closes the list that is open, and
//! behind them a code of an entry is found exactly where one stands there.

ghost use Rattle.std.specs.Prelude.{◌≡◌, ◌≤◌, ◌<◌, ◌+◌, ◌-◌, None, length, IfSome, IfNone};
ghost use Rattle.dw_base.specs.Lebs.{uleb_at};
ghost use Rattle.dw_entries.specs.Passes.{IsCode, Nulls};

use dw_base::uleb_at;

/// What stands behind codes of 0.
#[derive(Clone, Copy)]
pub(crate) struct BehindNulls {
    /// Where it stands.
    pub place: u64,
    /// How many lists of children are open there.
    pub depth: u32,
    /// The code of an entry, and how many bytes it takes.
    pub code: Option<(u64, u64)>,
}

/// What stands behind the codes of 0 from a place on.
#[tactic(auto, using(crate::proofs::PassLaws::null_rules))]
pub(crate) fn behind_nulls(bytes: &[u8], from: u64, depth: u32) -> BehindNulls
    requires inside { from ≤ length bytes.now }
    ensures nulls { Nulls bytes.now from depth result.place result.depth }
    ensures code { IfSome result.code (IsCode bytes.now result.place) }
    ensures none { IfNone result.code (uleb_at bytes.now result.place ≡ None) }
    ensures some { IfSome result.code (λ code. 0 < code.1) }
    ensures room { IfSome result.code (λ code. result.place + code.1 ≤ length bytes.now) }
    ensures further { from ≤ result.place }
    ensures within { result.place ≤ length bytes.now }
    ensures depth { result.depth ≤ depth }
{
    let mut place = from;
    let mut lists = depth;
    'nulls: while place < bytes.len() as u64 {
        let Some((code, size)) = uleb_at(bytes, place) else {
            return found_at(place, lists, None);
        };
        if code != 0 {
            return found_at(place, lists, Some((code, size)));
        }
        place += size;
        lists = closed(lists);
    }
    found_at(place, lists, None)
}

/// What was found.
fn found_at(place: u64, depth: u32, code: Option<(u64, u64)>) -> BehindNulls
    ensures { result ≡ record { place = place; depth = depth; code = code } }
{
    BehindNulls { place, depth, code }
}

/// How many lists are open once one is closed.
fn closed(lists: u32) -> u32
    ensures { result ≡ lists - 1 }
{
    if lists > 0 { lists - 1 } else { 0 }
}
