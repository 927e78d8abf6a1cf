//! A prefix map: its pairs, the one that counts for a path, and what becomes of the path.

ghost use Rattle.std.specs.Prelude.{◌≡◌, ◌&&◌, ◌↔◌, ◌≤◌, ◌+◌, ◌++◌, ◌∷◌, [], false, drop, if◌then◌else◌, length, nat_lt, not, option_map, IsTrue, IfOk, IfSome, IsSome, OnErr, OnOk, Some};
ghost use Rattle.dw_base.specs.Paths.{MapPair as PairOf, PathMap, IsPathMap, first_pair, has_base, is_prefix, longer, mapped_path, matching, may_add, most_pairs, pair_of, path_map, with_pair, without_end_slashes};
ghost use Rattle.dw_base.specs.Texts.{has_nul, same_text};
ghost use Rattle.dw_paths.specs.CountingPairs.{counted_with, longest_of};

use crate::prefix::{is_prefix, lies_under, without_slashes};
use dw_base::NoMemory;
use std::alloc::{AllocError, Global};
use std::marker::Model;

/// The most pairs of a map.
const MOST_PAIRS: usize = 64;

/// A base that is looked for, and the destination that takes its place.
#[derive(Drop, Debug)]
pub struct MapPair {
    /// A folder of the build, with no slash at its end.
    pub base: Vec<u8>,
    /// Where its sources are installed, with no slash at its end.
    pub dest: Vec<u8>,
}

impl Model for MapPair {
    ghost Value = { PairOf };

    ghost view = { λ p. record { base = p.base.items; dest = p.dest.items } };
}

/// A prefix map: 1 to 64 pairs, of which no two have one base.
#[derive(Drop, Debug)]
pub struct Maps {
    /// The pairs, in the order in which they were added.
    pub pairs: Vec<MapPair>,
}

impl Model for Maps {
    ghost Value = { PathMap };

    ghost view = { λ m. record { pairs = m.pairs.items } };

    ghost invariant = { λ m. IsPathMap (record { pairs = m.pairs.items }) };
}

/// The pair of two words, of which the slashes at their ends are cut off.
fn pair_of(alloc: Global, base: &[u8], dest: &[u8]) -> Result<MapPair, NoMemory>
    ensures value { IfOk result (λ p. p ≡ pair_of base.now dest.now) }
{
    let base = Vec::from_slice(alloc, without_slashes(base))?;
    let dest = Vec::from_slice(alloc, without_slashes(dest))?;
    Ok(MapPair { base, dest })
}

/// Appends the pair of two words.
fn push_pair(
    alloc: Global,
    pairs: &mut Vec<MapPair>,
    base: &[u8],
    dest: &[u8],
) -> Result<(), NoMemory>
    ensures value { OnOk result (pairs.new.items ≡ pairs.old.items ++ pair_of base.now dest.now ∷ []) }
    ensures kept { OnErr result (pairs.new.items ≡ pairs.old.items) }
{
    let pair = pair_of(alloc, base, dest)?;
    pairs.push(pair)?;
    Ok(())
}

/// Whether the pair has the base.
fn is_of(pair: &MapPair, base: &[u8]) -> bool
    ensures value { result ≡ same_text pair.now.base base.now }
{
    pair.base.as_slice() == base
}

/// Whether a pair has the base.
fn has_base(pairs: &[MapPair], base: &[u8]) -> bool
    ensures value { result ≡ has_base pairs.now base.now }
{
    'pairs: for pair in pairs {
        if is_of(pair, base) {
            return true;
        }
    }
    false
}

/// Whether the pair of two words may be added to some pairs.
fn may_add(pairs: &[MapPair], base: &[u8], dest: &[u8]) -> bool
    ensures value { result ≡ (is_prefix base.now && is_prefix dest.now && not (has_base pairs.now (without_end_slashes base.now)) && nat_lt (length pairs.now) most_pairs) }
{
    is_prefix(base)
        && is_prefix(dest)
        && !has_base(pairs, without_slashes(base))
        && pairs.len() < MOST_PAIRS
}

impl Maps {
    /// The map of the pair of two words, of which the slashes at their ends are cut off. `None` exactly
    /// where one of them may not be a base or a destination.
    #[tactic(auto, using(crate::proofs::Rules::map_rules), unfolding(dw_base::specs::Paths::path_map))]
    pub fn new(alloc: Global, base: &[u8], dest: &[u8]) -> Result<Option<Maps>, NoMemory>
        ensures some { IfOk result (λ o. IsSome o ↔ IsTrue (is_prefix base.now && is_prefix dest.now)) }
        ensures value { IfOk result (λ o. IfSome o (λ m. m ≡ path_map base.now dest.now)) }
    {
        if !is_prefix(base) || !is_prefix(dest) {
            return Ok(None);
        }
        let pair = pair_of(alloc, base, dest)?;
        let mut pairs = Vec::new(alloc);
        pairs.push(pair)?;
        Ok(Some(Maps { pairs }))
    }

    /// Adds the pair of two words, of which the slashes at their ends are cut off, behind the others.
    /// `false` exactly where one of them may not be a base or a destination, a pair has the base already,
    /// or there are 64 pairs. After `false` or want of memory the map is as it was.
    #[tactic(auto, using(crate::proofs::Rules::add_rules), unfolding(dw_base::specs::Paths::may_add, dw_base::specs::Paths::with_pair))]
    pub fn add(&mut self, alloc: Global, base: &[u8], dest: &[u8]) -> Result<bool, NoMemory>
        ensures added { IfOk result (λ added. added ≡ may_add self.old base.now dest.now) }
        ensures pairs { IfOk result (λ added. self.new ≡ (if added then with_pair self.old base.now dest.now else self.old)) }
        ensures kept { OnErr result (self.new ≡ self.old) }
    {
        if !may_add(&self.pairs, base, dest) {
            return Ok(false);
        }
        push_pair(alloc, &mut self.pairs, base, dest)?;
        Ok(true)
    }

    /// The pair that was added first.
    #[tactic(auto, using(crate::proofs::Rules::first_rules))]
    pub fn first(&self) -> &MapPair
        ensures value { result.now ≡ first_pair self.now }
        ensures map { IsPathMap self.now }
    {
        let pairs = self.pairs.as_slice();
        &pairs[0]
    }

    /// The base of the pair that was added first.
    pub fn base(&self) -> &[u8]
        ensures value { result.now ≡ (first_pair self.now).base }
        ensures map { IsPathMap self.now }
    {
        self.first().base.as_slice()
    }

    /// The destination of the pair that was added first.
    pub fn dest(&self) -> &[u8]
        ensures value { result.now ≡ (first_pair self.now).dest }
    {
        self.first().dest.as_slice()
    }

    /// The pairs behind the first.
    #[tactic(auto, using(crate::proofs::Rules::first_rules))]
    pub fn more(&self) -> &[MapPair]
        ensures value { result.now ≡ drop 1 self.now.pairs }
    {
        let pairs = self.pairs.as_slice();
        &pairs[1..]
    }

    /// A copy.
    #[tactic(auto, using(crate::proofs::Rules::first_rules))]
    pub fn copied(&self, alloc: Global) -> Result<Maps, AllocError>
        ensures value { IfOk result (λ m. m ≡ self.now) }
    {
        let pairs = copied_pairs(alloc, &self.pairs)?;
        Ok(Maps { pairs })
    }
}

/// A copy of a pair.
fn copied_pair(alloc: Global, pair: &MapPair) -> Result<MapPair, AllocError>
    ensures value { IfOk result (λ p. p ≡ pair.now) }
{
    let base = Vec::from_slice(alloc, &pair.base)?;
    let dest = Vec::from_slice(alloc, &pair.dest)?;
    Ok(MapPair { base, dest })
}

/// A copy of some pairs.
fn copied_pairs(alloc: Global, pairs: &[MapPair]) -> Result<Vec<MapPair>, AllocError>
    ensures value { IfOk result (λ v. v.items ≡ pairs.now) }
{
    let mut copies = Vec::new(alloc);
    'pairs: for pair in pairs {
        let copy = copied_pair(alloc, pair)?;
        copies.push(copy)?;
    }
    Ok(copies)
}

/// Of two pairs the one with the longer base, the first where they have one length.
fn longer<'m>(first: &'m MapPair, second: &'m MapPair) -> Option<&'m MapPair>
    ensures value { option_map (λ p. p.now) result ≡ longer first.now (Some second.now) }
{
    if first.base.len() < second.base.len() {
        return Some(second);
    }
    Some(first)
}

/// Of a pair that may be there and another the one with the longer base, the first where they have one
/// length.
pub fn longest_of<'m>(found: Option<&'m MapPair>, pair: &'m MapPair) -> Option<&'m MapPair>
    ensures value { option_map (λ p. p.now) result ≡ longest_of (option_map (λ p. p.now) found.entry) (Some pair.now) }
{
    match found {
        Some(best) => longer(best, pair),
        None => Some(pair),
    }
}

/// The pair that counts for a path, with one pair more behind those that were looked at.
fn counted_with<'m>(
    found: Option<&'m MapPair>,
    pair: &'m MapPair,
    text: &[u8],
) -> Option<&'m MapPair>
    ensures value { option_map (λ p. p.now) result ≡ counted_with (option_map (λ p. p.now) found.entry) pair.now text.now }
{
    if !lies_under(&pair.base, text) {
        return found;
    }
    longest_of(found, pair)
}

/// Of some pairs the one that counts for a path.
#[tactic(auto, using(crate::proofs::CountingLaws::pair_rules))]
fn counting_of<'m>(pairs: &'m [MapPair], text: &[u8]) -> Option<&'m MapPair>
    ensures value { option_map (λ p. p.now) result ≡ matching pairs.now text.now }
{
    let mut found = None;
    'pairs: for pair in pairs {
        found = counted_with(found, pair, text);
    }
    found
}

/// The pair that counts for a path: of those under whose base it lies the one with the longest. `None`
/// exactly where it lies under none.
#[tactic(auto, using(crate::proofs::CountingLaws::counts_rules))]
pub fn counting<'m>(maps: &'m Maps, text: &[u8]) -> Option<&'m MapPair>
    ensures value { option_map (λ p. p.now) result ≡ matching maps.now.pairs text.now }
    ensures base { IfSome result (λ p. length p.now.base ≤ length text.now) }
    ensures dest { IfSome result (λ p. length p.now.dest ≤ 4096) }
{
    match counting_of(&maps.pairs, text) {
        Some(pair) => Some(pair),
        None => None,
    }
}

/// The length of a path with the destination of a pair in the place of its base, in bytes.
pub(crate) fn len_with(pair: &MapPair, text: &[u8]) -> u64
    requires base { length pair.now.base ≤ length text.now }
    requires dest { length pair.now.dest ≤ 4096 }
    ensures value { result ≡ length (pair.now.dest ++ drop (length pair.now.base) text.now) }
{
    let rest = &text[pair.base.len()..];
    pair.dest.len() as u64 + rest.len() as u64
}

/// The length of the mapped path, in bytes.
#[tactic(auto, unfolding(dw_base::specs::Paths::mapped_path))]
pub fn map_len(maps: &Maps, text: &[u8]) -> u64
    ensures value { result ≡ length (mapped_path maps.now text.now) }
{
    match counting(maps, text) {
        Some(pair) => len_with(pair, text),
        None => text.len() as u64,
    }
}

/// The mapped path: the destination of the pair that counts and what follows its base in it; the path
/// itself where none does.
#[tactic(auto, using(crate::proofs::Rules::path_rules))]
pub fn map_path(alloc: Global, maps: &Maps, text: &[u8]) -> Result<Vec<u8>, NoMemory>
    ensures value { IfOk result (λ path. path.items ≡ mapped_path maps.now text.now) }
    ensures no_nul { has_nul text.now ≡ false → IfOk result (λ path. has_nul path.items ≡ false) }
    ensures within { IfOk result (λ path. length path.items ≤ 4096 + length text.now) }
{
    // a look at a field brings in what holds of every map
    let _ = &maps.pairs;
    mapped(alloc, maps, text)
}

/// A path with the destination of a pair in the place of its base.
fn with_dest(alloc: Global, pair: &MapPair, text: &[u8]) -> Result<Vec<u8>, NoMemory>
    requires base { length pair.now.base ≤ length text.now }
    requires dest { length pair.now.dest ≤ 4096 }
    ensures value { IfOk result (λ path. path.items ≡ pair.now.dest ++ drop (length pair.now.base) text.now) }
{
    let rest = &text[pair.base.len()..];
    let mut path = Vec::with_capacity(alloc, pair.dest.len() + rest.len())?;
    path.extend_from_slice(&pair.dest)?;
    path.extend_from_slice(rest)?;
    Ok(path)
}

/// The mapped path.
#[tactic(auto, unfolding(dw_base::specs::Paths::mapped_path))]
fn mapped(alloc: Global, maps: &Maps, text: &[u8]) -> Result<Vec<u8>, NoMemory>
    ensures value { IfOk result (λ path. path.items ≡ mapped_path maps.now text.now) }
{
    match counting(maps, text) {
        Some(pair) => with_dest(alloc, pair, text),
        None => Ok(Vec::from_slice(alloc, text)?),
    }
}
