//! Whether new paths can be made where paths stand.
//!
//! Read first: `specs/NewPaths.antt`, `specs/Searches.antt`.
ghost use Rattle.std.specs.Prelude.{◌≡◌, ◌≢◌, ◌≤◌, ◌<◌, ◌+◌, ◌++◌, ◌∷◌, [], map, true, false, length, get_or, IfOk, IfErr, OnOk, Contains, MatchOption};
ghost use Rattle.std.specs.String.{string_bytes};
ghost use Rattle.root_paths.specs.declared.path_err.PathErr.TheVariants as err;
ghost use Rattle.root_paths.specs.Roots.{longest_path};
ghost use Rattle.root_paths.specs.NewPaths.{IsTooLong, AreShort, CanBeMade, NewEnds};
ghost use Rattle.root_paths.specs.Searches.{IsPlace, Lacks, BeginsAt, BeginsNot, IsBelowAt, NoneBelow, IsClear, AllFree, NoneBelowAny, IsApartAt, AreApart, FreeInOrder, FreeAmong, ClearEnds, BelowEnds, TakenEnds, TwiceEnds, LongEnds};

use crate::names::begins;
use crate::path_err::PathErr;
use file_tree::Text;
use std::alloc::{AllocError, Global};

/// The longest path, in bytes.
const LONGEST_PATH: usize = 4096;

/// What paths below a folder begin with.
fn front(alloc: Global, folder: &str) -> Result<String, AllocError>
    ensures value { IfOk result (λ s. string_bytes s ≡ folder.now ++ 47 ∷ []) }
{
    format!(in alloc; "{folder}/")
}

/// The place of a path among paths in byte order.
#[tactic(auto, using(crate::proofs::PlaceLaws::place_rules))]
fn place(paths: &[String], path: &String) -> usize
    ensures place { IsPlace (map string_bytes paths.now) (string_bytes path.now) result }
{
    match paths.binary_search(path) {
        Ok(at) => at,
        Err(at) => at,
    }
}

/// Whether a path stands at a place.
fn is_at(paths: &[String], at: usize, path: &String) -> bool
    ensures there { result ≡ true → (at < length paths.now) × (get_or (map string_bytes paths.now) at [] ≡ string_bytes path.now) }
    ensures not { result ≡ false → at < length paths.now → get_or (map string_bytes paths.now) at [] ≢ string_bytes path.now }
{
    if at >= paths.len() {
        return false;
    }
    paths[at] == *path
}

/// Whether a path stands among paths in byte order.
#[tactic(auto, using(crate::proofs::PlaceLaws::stand_rules))]
fn stands_in(paths: &[String], path: &String) -> bool
    ensures stands { result ≡ true → Contains (map string_bytes paths.now) (string_bytes path.now) }
    ensures lacks { result ≡ false → Lacks (map string_bytes paths.now) (string_bytes path.now) }
{
    let at = place(paths, path);
    is_at(paths, at, path)
}

/// Whether the path at a place begins with a front.
#[tactic(auto, using(crate::proofs::PlaceLaws::begin_rules))]
fn begins_at(front: &str, paths: &[String], at: usize) -> bool
    ensures there { result ≡ true → BeginsAt (map string_bytes paths.now) front.now at }
    ensures not { result ≡ false → BeginsNot (map string_bytes paths.now) front.now at }
{
    if at >= paths.len() {
        return false;
    }
    begins(front, paths[at].as_str())
}

/// The place of a path that lies below a folder, if there is one, among paths in byte order.
#[tactic(auto, using(crate::proofs::PlaceLaws::below_rules))]
fn below(alloc: Global, paths: &[String], folder: &str) -> Result<Option<usize>, AllocError>
    ensures value { IfOk result (λ o. MatchOption o (NoneBelow (map string_bytes paths.now) folder.now) (IsBelowAt (map string_bytes paths.now) folder.now)) }
{
    let front = front(alloc, folder)?;
    let at = place(paths, &front);
    if begins_at(front.as_str(), paths, at) {
        return Ok(Some(at));
    }
    Ok(None)
}

/// A path as one that is taken.
fn taken(alloc: Global, path: &str) -> Result<PathErr, AllocError>
    ensures value { IfOk result (λ e. e ≡ err.Taken path.now) }
{
    Ok(PathErr::Taken(Text::copy_of(alloc, path)?))
}

/// Whether neither a new path nor one below it stands among these paths.
#[tactic(auto, using(crate::proofs::TakenLaws::clear_rules))]
fn check_clear(alloc: Global, paths: &[String], path: &String) -> Result<(), PathErr>
    ensures clear { OnOk result (IsClear (map string_bytes paths.now) (string_bytes path.now)) }
    ensures ends { IfErr result (ClearEnds (map string_bytes paths.now) (string_bytes path.now)) }
{
    if stands_in(paths, path) {
        return Err(taken(alloc, path.as_str())?);
    }
    match below(alloc, paths, path.as_str())? {
        None => Ok(()),
        Some(_) => Err(taken(alloc, path.as_str())?),
    }
}

/// Whether none of the paths lies below a folder; else it is named.
#[tactic(auto, using(crate::proofs::TakenLaws::below_rules))]
fn check_below(alloc: Global, paths: &[String], folder: &str) -> Result<(), PathErr>
    ensures none { OnOk result (NoneBelow (map string_bytes paths.now) folder.now) }
    ensures ends { IfErr result (BelowEnds (map string_bytes paths.now) folder.now) }
{
    match below(alloc, paths, folder)? {
        None => Ok(()),
        Some(at) => Err(taken(alloc, paths[at].as_str())?),
    }
}

/// Whether a path differs from the next one.
#[tactic(auto, using(crate::proofs::TakenLaws::next_rules))]
fn check_next(alloc: Global, paths: &[String], i: usize) -> Result<(), PathErr>
    requires there { i < length paths.now }
    ensures apart { OnOk result (IsApartAt (map string_bytes paths.now) i) }
    ensures ends { IfErr result (TwiceEnds (map string_bytes paths.now)) }
{
    let path = &paths[i];
    if is_at(paths, i + 1, path) {
        return Err(taken(alloc, path.as_str())?);
    }
    Ok(())
}

/// Whether each path differs from the next one.
#[tactic(auto, using(crate::proofs::TakenLaws::twice_rules))]
fn check_twice(alloc: Global, paths: &[String]) -> Result<(), PathErr>
    ensures apart { OnOk result (AreApart (map string_bytes paths.now)) }
    ensures ends { IfErr result (TwiceEnds (map string_bytes paths.now)) }
{
    for i in 0..paths.len() {
        check_next(alloc, paths, i)?;
    }
    Ok(())
}

/// Whether each new path is clear of paths that stand, and of new ones below it.
#[tactic(auto, using(crate::proofs::TakenLaws::news_rules))]
fn check_news(alloc: Global, present: &[String], news: &[String]) -> Result<(), PathErr>
    ensures free { OnOk result (AllFree (map string_bytes present.now) (map string_bytes news.now)) }
    ensures ends { IfErr result (TakenEnds (map string_bytes present.now) (map string_bytes news.now)) }
{
    for path in news {
        check_clear(alloc, present, path)?;
        check_below(alloc, news, path.as_str())?;
    }
    Ok(())
}

/// Whether no new path lies below one that stands.
#[tactic(auto, using(crate::proofs::TakenLaws::present_rules))]
fn check_present(alloc: Global, present: &[String], news: &[String]) -> Result<(), PathErr>
    ensures none { OnOk result (NoneBelowAny (map string_bytes news.now) (map string_bytes present.now)) }
    ensures ends { IfErr result (TakenEnds (map string_bytes present.now) (map string_bytes news.now)) }
{
    for path in present {
        check_below(alloc, news, path.as_str())?;
    }
    Ok(())
}

/// Whether no new path, of those in byte order, is taken.
#[tactic(auto, using(crate::proofs::TakenLaws::order_rules))]
fn check_in_order(alloc: Global, present: &[String], news: &[String]) -> Result<(), PathErr>
    ensures free { OnOk result (FreeInOrder (map string_bytes present.now) (map string_bytes news.now)) }
    ensures ends { IfErr result (TakenEnds (map string_bytes present.now) (map string_bytes news.now)) }
{
    check_twice(alloc, news)?;
    check_news(alloc, present, news)?;
    check_present(alloc, present, news)?;
    Ok(())
}

/// Whether no new path is taken.
#[tactic(auto, using(crate::proofs::TakenLaws::taken_rules))]
fn check_taken(alloc: Global, present: &[String], mut news: Vec<String>) -> Result<(), PathErr>
    ensures free { OnOk result (FreeAmong (map string_bytes present.now) (map string_bytes news.items)) }
    ensures ends { IfErr result (TakenEnds (map string_bytes present.now) (map string_bytes news.items)) }
{
    news.sort_unstable();
    check_in_order(alloc, present, &news)?;
    Ok(())
}

/// Whether a path is within the limit on paths; else it is named.
#[tactic(auto, using(crate::proofs::TakenLaws::long_rules))]
pub fn check_length(alloc: Global, path: &str) -> Result<(), PathErr>
    ensures short { OnOk result (length path.now ≤ longest_path) }
    ensures long { IfErr result (IsTooLong path.now) }
{
    if path.len() > LONGEST_PATH {
        return Err(PathErr::PathTooLong(Text::copy_of(alloc, path)?));
    }
    Ok(())
}

/// Whether each path is within the limit on paths.
#[tactic(auto, using(crate::proofs::TakenLaws::short_rules))]
fn check_lengths(alloc: Global, paths: &[String]) -> Result<(), PathErr>
    ensures short { OnOk result (AreShort (map string_bytes paths.now)) }
    ensures ends { IfErr result (LongEnds (map string_bytes paths.now)) }
{
    for path in paths {
        check_length(alloc, path.as_str())?;
    }
    Ok(())
}

/// Whether new paths can be made where these paths stand.
#[tactic(auto, using(crate::proofs::TakenLaws::made_rules))]
pub fn check_made(alloc: Global, present: &[String], news: Vec<String>) -> Result<(), PathErr>
    ensures can { OnOk result (CanBeMade (map string_bytes present.now) (map string_bytes news.items)) }
    ensures ends { IfErr result (NewEnds (map string_bytes present.now) (map string_bytes news.items)) }
{
    check_lengths(alloc, &news)?;
    check_taken(alloc, present, news)?;
    Ok(())
}
