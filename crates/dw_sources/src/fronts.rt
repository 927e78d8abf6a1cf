//! What the paths of sources begin with: the cleaned bases of a prefix map, each with a slash behind it.
//!
//! They are made once a call; of those that a path begins with the longest is cut off.

ghost use Rattle.std.specs.Prelude.{◌≡◌, ◌≤◌, ℕ, List, Some, length, map, IfOk, IfSome};
ghost use Rattle.std.specs.List.{starts_with};
ghost use Rattle.dw_sources.specs.KeptNames.{bytes_of, front_len, front_of, fronts_of};
ghost use Rattle.dw_sources.specs.LongestFronts.{greatest, length_with};

use dw_base::NoMemory;
use dw_paths::{MapPair, Maps, clean_path};
use std::alloc::Global;
use std::marker::Model;

/// The fronts of a prefix map, in the order of its pairs.
#[derive(Drop)]
pub(crate) struct Fronts {
    fronts: Vec<Vec<u8>>,
}

impl Model for Fronts {
    ghost Value = { List (List ℕ) };

    ghost view = { λ f. map bytes_of f.fronts.items };
}

/// What the paths below a base begin with.
fn front_of(alloc: Global, base: &[u8]) -> Result<Vec<u8>, NoMemory>
    ensures value { IfOk result (λ front. front.items ≡ front_of base.now) }
{
    let mut front = clean_path(alloc, base)?;
    front.push(b'/')?;
    Ok(front)
}

/// The same of a pair.
fn pair_front(alloc: Global, pair: &MapPair) -> Result<Vec<u8>, NoMemory>
    ensures value { IfOk result (λ front. front.items ≡ front_of pair.now.base) }
{
    front_of(alloc, &pair.base)
}

/// The same of each pair.
#[tactic(auto, using(crate::proofs::FrontLaws::front_rules))]
fn fronts_below(alloc: Global, pairs: &[MapPair]) -> Result<Vec<Vec<u8>>, NoMemory>
    ensures value { IfOk result (λ fronts. map bytes_of fronts.items ≡ map (λ p. front_of p.base) pairs.now) }
{
    let mut fronts = Vec::new(alloc);
    for pair in pairs {
        let front = pair_front(alloc, pair)?;
        fronts.push(front)?;
    }
    Ok(fronts)
}

/// Of a number that may be there and another the greater.
fn greatest(found: Option<usize>, len: usize) -> Option<usize>
    ensures value { result ≡ greatest found (Some len) }
{
    match found {
        Some(most) => {
            if most < len {
                return Some(len);
            }
            Some(most)
        }
        None => Some(len),
    }
}

/// How long the longest front is that the path begins with, with one front more behind those that were
/// looked at.
fn length_with(found: Option<usize>, front: &[u8], path: &[u8]) -> Option<usize>
    ensures value { result ≡ length_with found front.now path.now }
{
    if !path.starts_with(front) {
        return found;
    }
    greatest(found, front.len())
}

/// The same of some fronts.
#[tactic(auto, using(crate::proofs::FrontLaws::length_rules))]
fn longest(fronts: &[Vec<u8>], path: &[u8]) -> Option<usize>
    ensures value { result ≡ front_len (map bytes_of fronts.now) path.now }
{
    let mut found = None;
    for front in fronts {
        found = length_with(found, front, path);
    }
    found
}

impl Fronts {
    /// Those of a prefix map.
    pub(crate) fn new(alloc: Global, maps: &Maps) -> Result<Fronts, NoMemory>
        ensures value { IfOk result (λ fronts. fronts ≡ fronts_of maps.now) }
    {
        let fronts = fronts_below(alloc, &maps.pairs)?;
        Ok(Fronts { fronts })
    }

    /// How long the longest front is that the path begins with. `None` exactly where it begins with none.
    #[tactic(auto, using(crate::proofs::FrontLaws::within_rules))]
    pub(crate) fn len_in(&self, path: &[u8]) -> Option<usize>
        ensures value { result ≡ front_len self.now path.now }
        ensures within { IfSome result (λ n. n ≤ length path.now) }
    {
        match longest(&self.fronts, path) {
            Some(len) => Some(len),
            None => None,
        }
    }
}
