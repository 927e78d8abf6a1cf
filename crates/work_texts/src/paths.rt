//! Paths as fields: the sides of a prefix map, paths of jobs, names of sources (this project's profile).
//!
//! Read first: `specs/Rules.antt`, `specs/Reading.antt`.
ghost use Rattle.std.specs.Prelude.{◌≡◌, ◌&&◌, not, true, false, IfOk, IsTrue, MatchOption, map};
ghost use Rattle.std.specs.Str.{is_utf8};
ghost use Rattle.dw_base.specs.Paths.{has_base, is_prefix, without_end_slashes};
ghost use Rattle.dw_base.specs.Texts.{same_text};
ghost use Rattle.work_texts.specs.Lists.{bytes_of};
ghost use Rattle.work_texts.specs.Rules.{comes_after, path_of};
ghost use Rattle.work_texts.specs.Reading.{Gives, value_at, base_in, side_in, path_in, source_at, last_text, itself};

use crate::fields::field;
use crate::plan::JobLine;
use crate::stop::Stop;
use dw_paths::{Maps, is_plain, is_prefix};
use file_tree::{Blob, Text};
use std::alloc::Global;
use std::cmp::Ordering;

/// A field that is a base or a destination, with no slash at its end.
#[tactic(auto, unfolding(crate::specs::Reading::value_at))]
pub(crate) fn side(alloc: Global, bytes: &[u8]) -> Result<(Blob, &[u8]), Stop>
    ensures value { Gives (λ r. (r.0, r.1.now)) result (value_at side_in bytes.now) }
    ensures fit { IfOk result (λ r. IsTrue (is_prefix r.0)) }
{
    let (text, rest) = field(bytes)?;
    if !is_side(text) {
        return Err(Stop::Field { left: bytes.len() });
    }
    let side = Blob::from_slice(alloc, text)?;
    Ok((side, rest))
}

/// A field that is the base of a pair behind those of this map: it is the base of none of them.
#[tactic(auto, unfolding(crate::specs::Reading::value_at))]
pub(crate) fn base_behind<'a>(
    alloc: Global,
    maps: &Maps,
    bytes: &'a [u8],
) -> Result<(Blob, &'a [u8]), Stop>
    ensures value { Gives (λ r. (r.0, r.1.now)) result (value_at (base_in maps.now.pairs) bytes.now) }
    ensures fit { IfOk result (λ r. IsTrue (is_prefix r.0)) }
    ensures apart { IfOk result (λ r. has_base maps.now.pairs (without_end_slashes r.0) ≡ false) }
{
    let (text, rest) = field(bytes)?;
    if !is_side(text) || has_base(maps, text) {
        return Err(Stop::Field { left: bytes.len() });
    }
    let base = Blob::from_slice(alloc, text)?;
    Ok((base, rest))
}

/// Whether a pair of a map has the base.
fn has_base(maps: &Maps, base: &[u8]) -> bool
    ensures value { result ≡ has_base maps.now.pairs base.now }
{
    maps.pairs.iter().any(|pair| pair.base.as_slice() == base)
}

/// Whether a text is a base or a destination with no slash at its end.
#[tactic(auto, using(crate::proofs::SlashRules::side_rules))]
fn is_side(text: &[u8]) -> bool
    ensures value { result ≡ (is_prefix text.now && same_text (without_end_slashes text.now) text.now) }
    ensures fit { IsTrue result → IsTrue (is_prefix text.now) }
    ensures cut { IsTrue result → without_end_slashes text.now ≡ text.now }
{
    is_prefix(text) && !ends_in_slash(text)
}

/// Whether a slash stands at the end, which a map would cut off.
#[tactic(auto, using(crate::proofs::SlashRules::slash_rules))]
fn ends_in_slash(text: &[u8]) -> bool
    ensures value { result ≡ not (same_text (without_end_slashes text.now) text.now) }
{
    let len = text.len();
    if len == 0 {
        return false;
    }
    text[len - 1] == b'/'
}

/// A field that is the path of a job behind these jobs.
#[tactic(auto, unfolding(crate::specs::Reading::value_at))]
pub(crate) fn path<'a>(
    alloc: Global,
    before: &[JobLine],
    bytes: &'a [u8],
) -> Result<(Text, &'a [u8]), Stop>
    ensures value { Gives (λ r. (r.0, r.1.now)) result (value_at (path_in (last_text path_of before.now)) bytes.now) }
{
    let (text, rest) = field(bytes)?;
    let Some(path) = utf8(text) else {
        return Err(Stop::Field { left: bytes.len() });
    };
    if !is_plain(text) || !is_behind_jobs(before, text) {
        return Err(Stop::Field { left: bytes.len() });
    }
    let path = Text::copy_of(alloc, path)?;
    Ok((path, rest))
}

/// A field that is the name of a source behind these names.
#[tactic(auto, unfolding(crate::specs::Reading::value_at))]
pub(crate) fn source<'a>(
    alloc: Global,
    before: &[Vec<u8>],
    bytes: &'a [u8],
) -> Result<(Vec<u8>, &'a [u8]), Stop>
    ensures value { Gives (λ r. (r.0.items, r.1.now)) result (source_at (last_text itself (map bytes_of before.now)) bytes.now) }
{
    let (text, rest) = field(bytes)?;
    if !is_behind_sources(before, text) {
        return Err(Stop::Field { left: bytes.len() });
    }
    let name = Vec::from_slice(alloc, text)?;
    Ok((name, rest))
}

/// The field as a text, where it is UTF-8.
#[tactic(auto, using(crate::proofs::PathRules::utf8_rules))]
fn utf8(text: &[u8]) -> Option<&str>
    ensures value { MatchOption result (is_utf8 text.now ≡ false) (λ s. (s.now ≡ text.now) × (is_utf8 text.now ≡ true)) }
{
    match str::from_utf8(text) {
        Ok(text) => Some(text),
        Err(_) => None,
    }
}

/// Whether a path comes behind those of these jobs.
fn is_behind_jobs(before: &[JobLine], path: &[u8]) -> bool
    ensures value { result ≡ comes_after (last_text path_of before.now) path.now }
{
    match before.last() {
        Some(job) => is_less(job.path.as_str().as_bytes(), path),
        None => true,
    }
}

/// Whether a name comes behind these.
#[tactic(auto, using(crate::proofs::PathRules::last_rules))]
fn is_behind_sources(before: &[Vec<u8>], name: &[u8]) -> bool
    ensures value { result ≡ comes_after (last_text itself (map bytes_of before.now)) name.now }
{
    match before.last() {
        Some(last) => is_less(last, name),
        None => true,
    }
}

/// Whether a text is less than another in byte order.
fn is_less(a: &[u8], b: &[u8]) -> bool
    ensures value { result ≡ comes_after (Some a.now) b.now }
{
    match a.cmp(&b) {
        Ordering::Less => true,
        _ => false,
    }
}
