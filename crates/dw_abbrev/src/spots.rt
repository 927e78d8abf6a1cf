//! The places of attributes that were read once, so that other abbreviations have them, too (DWARF 5, 7.5.3).
//!
//! This file promises: what is kept at a place are the attributes that stand there, up to the pair that ends them.

ghost use Rattle.std.specs.HashMap.{get};
ghost use Rattle.std.specs.Prelude.{nat_eq, IfSome};
ghost use Rattle.dw_abbrev.specs.Spots.{AreSpots, StandsUpTo};

use crate::shared_specs::SharedSpecs;
use std::alloc::Global;
use std::collections::HashMap;

/// Attributes that stand at a place.
#[derive(Drop)]
pub(crate) struct Spot {
    /// The attributes.
    pub specs: SharedSpecs,
    /// The place behind the pair that ends them.
    pub next: u64,
}

/// Attributes are kept at no place.
#[tactic(auto, using(crate::proofs::SpotLaws::none_rules))]
pub(crate) fn no_spots(alloc: Global, bytes: &[u8]) -> HashMap<u64, Spot>
    ensures spots { AreSpots bytes.now (λ at. get nat_eq result at) }
{
    HashMap::new(alloc)
}

/// The attributes that are kept at a place.
#[tactic(auto, using(crate::proofs::SpotLaws::at_rules))]
pub(crate) fn spot_at<'s>(bytes: &[u8], spots: &'s HashMap<u64, Spot>, at: u64) -> Option<&'s Spot>
    requires spots { AreSpots bytes.now (λ o. get nat_eq spots.now o) }
    ensures there { IfSome result (λ s. StandsUpTo bytes.now at s.now.specs s.now.next) }
{
    if spots.is_empty() {
        return None;
    }
    spots.get(&at)
}
