//! Paths that are held inline (DWARF 5, 7.5.5, class string, `DW_FORM_string`): the mapped path takes
//! the room of the old one, so that nothing behind it moves (this project's profile).
//!
//! `map_inline` answers the definition's path, and `None` exactly where it would be longer.

ghost use Rattle.std.specs.Prelude.{◌≡◌, ◌≤◌, ◌-◌, ◌++◌, drop, false, length, option_map, IsTrue, IfOk, IfSome};
ghost use Rattle.dw_base.specs.Texts.{has_nul};
ghost use Rattle.dw_base.specs.InlinePaths.{inline_fits, inline_path, mapped_inline, slashes};

use crate::maps::{MapPair, Maps, counting, len_with, map_len};
use dw_base::NoMemory;
use std::alloc::Global;

/// The mapped path in the room of the old one, and as long as it: the destination of the pair that
/// counts, slashes that fill the room, and what follows its base. A path for which no pair counts stays.
/// `None` exactly where the mapped path is longer than the old one.
#[tactic(auto, using(crate::proofs::Rules::inline_rules))]
pub fn map_inline(alloc: Global, maps: &Maps, text: &[u8]) -> Result<Option<Vec<u8>>, NoMemory>
    ensures value { IfOk result (λ o. option_map (λ path. path.items) o ≡ inline_path maps.now text.now) }
    ensures len { IfOk result (λ o. IfSome o (λ path. length path.items ≡ length text.now)) }
    ensures no_nul { has_nul text.now ≡ false → IfOk result (λ o. IfSome o (λ path. has_nul path.items ≡ false)) }
{
    // a look at a field brings in what holds of every map
    let _ = &maps.pairs;
    if map_len(maps, text) > text.len() as u64 {
        return Ok(None);
    }
    let path = fitted(alloc, maps, text)?;
    Ok(Some(path))
}

/// A path with the destination of a pair in the place of its base, and slashes behind that which fill the
/// room of the path.
fn with_room(alloc: Global, pair: &MapPair, text: &[u8]) -> Result<Vec<u8>, NoMemory>
    requires base { length pair.now.base ≤ length text.now }
    requires dest { length pair.now.dest ≤ 4096 }
    requires fits { length (pair.now.dest ++ drop (length pair.now.base) text.now) ≤ length text.now }
    ensures value { IfOk result (λ path. path.items ≡ pair.now.dest ++ slashes (length text.now - length (pair.now.dest ++ drop (length pair.now.base) text.now)) ++ drop (length pair.now.base) text.now) }
{
    let room = text.len() - len_with(pair, text) as usize;
    let rest = &text[pair.base.len()..];
    let mut path = Vec::with_capacity(alloc, text.len())?;
    path.extend_from_slice(&pair.dest)?;
    path.resize(path.len() + room, b'/')?;
    path.extend_from_slice(rest)?;
    Ok(path)
}

/// The mapped path in the room of the old one.
#[tactic(auto, using(crate::proofs::Rules::fitted_rules), unfolding(dw_base::specs::InlinePaths::mapped_inline))]
fn fitted(alloc: Global, maps: &Maps, text: &[u8]) -> Result<Vec<u8>, NoMemory>
    requires fits { IsTrue (inline_fits maps.now text.now) }
    ensures value { IfOk result (λ path. path.items ≡ mapped_inline maps.now text.now) }
{
    match counting(maps, text) {
        Some(pair) => with_room(alloc, pair, text),
        None => Ok(Vec::from_slice(alloc, text)?),
    }
}
