//! The front of a table of abbreviations, up to where it goes on as another that was read before (DWARF 5, 7.5.3).
//!
//! This file promises: what is read from a place on, with the places of its abbreviations, is the front of the table there, and what is
//! given behind it is the table at the place where it ends.

ghost use Rattle.std.specs.HashMap.{get};
ghost use Rattle.std.specs.Prelude.{◌≡◌, [], nat_eq, IfOk};
ghost use Rattle.dw_abbrev.specs.Fronts.{GoesOn};
ghost use Rattle.dw_abbrev.specs.Kept.{AreKept};
ghost use Rattle.dw_abbrev.specs.Spots.{AreSpots};

use crate::rests::Rests;
use crate::run::{Run, declare};
use crate::spots::Spot;
use crate::stopped::Stopped;
use crate::tails::tail_at;
use dw_base::uleb_at;
use indexmap::IndexSet;
use std::alloc::Global;
use std::collections::HashMap;

/// Abbreviations that begin a table, and those behind them, which others have, too.
#[derive(Drop)]
pub(crate) struct Front {
    /// The abbreviations.
    pub run: Run,
    /// Those behind them.
    pub behind: Rests,
    /// Where those behind them stand.
    pub end: u64,
}

/// Reads abbreviations from a place on up to one from which the table goes on as one of these, or up to the table's end. Where each stands
/// is put into `places`. None where no table can be read; of such a one it may also give what stands in front of the other.
#[tactic(auto, using(crate::proofs::CodedLaws::coded_start, crate::proofs::RestLaws::front_rules))]
pub(crate) fn front_at(
    alloc: Global,
    bytes: &[u8],
    at: u64,
    tails: &HashMap<u64, Rests>,
    spots: &HashMap<u64, Spot>,
    places: &mut Vec<u64>,
) -> Result<Front, Stopped>
    requires none { places.old.items ≡ [] }
    requires tails { AreKept bytes.now (λ o. get nat_eq tails.now o) }
    requires spots { AreSpots bytes.now (λ o. get nat_eq spots.now o) }
    ensures goes_on { IfOk result (λ f. GoesOn bytes.now at places.new.items f.run f.behind) }
{
    let mut list = Vec::new(alloc);
    let mut codes = IndexSet::new(alloc);
    let mut scratch = Vec::new(alloc);
    let mut place = at;
    'front: loop {
        if let Some(tail) = tail_at(bytes, tails, place) {
            let behind = tail.again(alloc)?;
            return Ok(Front {
                run: Run::of(list, codes),
                behind,
                end: place,
            });
        }
        let Some((code, size)) = uleb_at(bytes, place) else {
            return Err(Stopped::Unspelled);
        };
        if code == 0 {
            return Ok(Front {
                run: Run::of(list, codes),
                behind: Rests::none(alloc),
                end: place,
            });
        }
        places.push(place)?;
        place = declare(
            alloc,
            bytes,
            place,
            code,
            size,
            spots,
            &mut list,
            &mut codes,
            &mut scratch,
        )?;
    }
}
