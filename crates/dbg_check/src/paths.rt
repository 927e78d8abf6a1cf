//! Whether a text is another with a prefix map applied, told without memory. This project's profile.

ghost use Rattle.std.specs.Prelude.{◌≡◌, ◌≤◌, ◌-◌, ◌++◌, ◌&&◌, drop, length, option_map, replicate, IsTrue};
ghost use Rattle.dw_base.specs.InlinePaths.{inline_fits, mapped_inline, slashes};
ghost use Rattle.dw_base.specs.Paths.{mapped_path};
ghost use Rattle.dw_base.specs.Texts.{same_text};
ghost use Rattle.dbg_check.specs.Slashes.{only_slashes};

use dw_paths::{MapPair, Maps, counting, map_len};

/// Whether two texts are two others.
fn are_both(begin: &[u8], front: &[u8], behind: &[u8], rest: &[u8]) -> bool
    ensures value { result ≡ (same_text begin.now front.now && same_text behind.now rest.now) }
{
    begin == front && behind == rest
}

/// Whether a text is two others, one behind the other.
#[tactic(auto, using(crate::proofs::TextLaws::joined_laws))]
fn is_joined(front: &[u8], rest: &[u8], text: &[u8]) -> bool
    ensures value { result ≡ same_text (front.now ++ rest.now) text.now }
{
    if text.len() < front.len() {
        return false;
    }
    let (begin, behind) = text.split_at(front.len());
    are_both(begin, front, behind, rest)
}

/// Whether bytes are slashes.
fn are_slashes(bytes: &[u8]) -> bool
    ensures value { result ≡ only_slashes bytes.now }
{
    'bytes: for byte in bytes {
        if *byte != b'/' {
            return false;
        }
    }
    true
}

/// Whether bytes are slashes, and a text is another.
fn are_filled(begin: &[u8], behind: &[u8], rest: &[u8]) -> bool
    ensures value { result ≡ (only_slashes begin.now && same_text behind.now rest.now) }
{
    are_slashes(begin) && behind == rest
}

/// Whether a text is so many slashes and another behind them.
#[tactic(auto, using(crate::proofs::TextLaws::filled_laws))]
fn is_filled(room: usize, rest: &[u8], text: &[u8]) -> bool
    ensures value { result ≡ same_text (slashes room ++ rest.now) text.now }
{
    if text.len() < room {
        return false;
    }
    let (begin, behind) = text.split_at(room);
    are_filled(begin, behind, rest)
}

/// Whether a text is another, and a second one is so many slashes and a third behind them.
fn are_spread(begin: &[u8], front: &[u8], room: usize, rest: &[u8], behind: &[u8]) -> bool
    ensures value { result ≡ (same_text begin.now front.now && same_text (slashes room ++ rest.now) behind.now) }
{
    begin == front && is_filled(room, rest, behind)
}

/// Whether a text is two others, with so many slashes between them.
#[tactic(auto, using(crate::proofs::TextLaws::spread_laws))]
fn is_spread(front: &[u8], room: usize, rest: &[u8], text: &[u8]) -> bool
    ensures value { result ≡ same_text (front.now ++ slashes room ++ rest.now) text.now }
{
    if text.len() < front.len() {
        return false;
    }
    let (begin, behind) = text.split_at(front.len());
    are_spread(begin, front, room, rest, behind)
}

/// Whether a text is another, a path that is held by an offset or by a slot, with the map applied.
#[tactic(auto, unfolding(dw_base::specs::Paths::mapped_path))]
pub fn is_mapped(maps: &Maps, old: &[u8], new: &[u8]) -> bool
    ensures value { result ≡ same_text (mapped_path maps.now old.now) new.now }
{
    match counting(maps, old) {
        Some(pair) => has_dest(pair, old, new),
        None => old == new,
    }
}

/// Whether a text is another with the destination of a pair in the place of its base.
fn has_dest(pair: &MapPair, old: &[u8], new: &[u8]) -> bool
    requires base { length pair.now.base ≤ length old.now }
    ensures value { result ≡ same_text (pair.now.dest ++ drop (length pair.now.base) old.now) new.now }
{
    let rest = &old[pair.base.len()..];
    is_joined(&pair.dest, rest, new)
}

/// Whether a path that stands in its value fits the room when it is mapped, and a text is the mapped path in that room.
#[tactic(auto, using(crate::proofs::TextLaws::room_laws))]
pub fn is_mapped_inline(maps: &Maps, old: &[u8], new: &[u8]) -> bool
    ensures value { result ≡ (inline_fits maps.now old.now && same_text (mapped_inline maps.now old.now) new.now) }
{
    if map_len(maps, old) > old.len() as u64 {
        return false;
    }
    is_fitted(maps, old, new)
}

/// Whether a text is a path in its room, with the map applied.
#[tactic(auto, unfolding(dw_base::specs::InlinePaths::mapped_inline))]
fn is_fitted(maps: &Maps, old: &[u8], new: &[u8]) -> bool
    ensures value { result ≡ same_text (mapped_inline maps.now old.now) new.now }
{
    match counting(maps, old) {
        Some(pair) => has_room(pair, old, new),
        None => old == new,
    }
}

/// Whether a text is another with the destination of a pair in the place of its base, and slashes behind that which fill its room.
#[tactic(auto, using(crate::proofs::TextLaws::room_laws))]
fn has_room(pair: &MapPair, old: &[u8], new: &[u8]) -> bool
    requires base { length pair.now.base ≤ length old.now }
    requires dest { length pair.now.dest ≤ 4096 }
    ensures value { result ≡ same_text (pair.now.dest ++ slashes (length old.now - length (pair.now.dest ++ drop (length pair.now.base) old.now)) ++ drop (length pair.now.base) old.now) new.now }
{
    let rest = &old[pair.base.len()..];
    let room = old.len().saturating_sub(pair.dest.len() + rest.len());
    is_spread(&pair.dest, room, rest, new)
}
