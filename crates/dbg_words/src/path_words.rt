//! Words that name paths, and their cleaned forms.
ghost use Rattle.std.specs.Prelude.{◌≡◌, ◌∷◌, IfOk, filter, map, if◌then◌else◌};
ghost use Rattle.std.specs.List.{list_any, join_with_byte};
ghost use Rattle.std.specs.String.{string_bytes};
ghost use Rattle.dw_base.specs.Paths.{slash};
ghost use Rattle.dbg_words.specs.PathWords.{components, is_kept, is_parent, path_named};
ghost use Rattle.dbg_words.specs.Words.{beside, other_path, two_paths};

use dw_base::NoMemory;
use file_tree::Text;
use std::alloc::{AllocError, Global};

/// The longest cleaned path, in bytes.
const PATH_WORD_LIMIT: usize = 4000;

/// Whether cleaning keeps the component: it isn't empty, and isn't `.`.
fn is_kept(part: &str) -> bool
    ensures value { result ≡ is_kept part.now }
{
    !part.is_empty() && part != "."
}

/// The components of a word: what stands between its slashes.
fn components<'a>(alloc: Global, word: &'a str) -> Result<Vec<&'a str>, AllocError>
    ensures value { IfOk result (λ v. map (λ part. part.now) v.items ≡ components word.now) }
{
    word.split('/').collect(alloc)
}

/// Whether the component leads to the folder above.
fn is_parent(part: &str) -> bool
    ensures value { result ≡ is_parent part.now }
{
    part == ".."
}

/// Whether a component leads to the folder above.
fn have_parent(parts: &[&str]) -> bool
    ensures value { result ≡ list_any is_parent (map (λ part. part.now) parts.now) }
{
    for part in parts {
        if is_parent(*part) {
            return true;
        }
    }
    false
}

/// The components that cleaning keeps.
fn kept<'a>(alloc: Global, parts: &[&'a str]) -> Result<Vec<&'a str>, AllocError>
    ensures value { IfOk result (λ v. map (λ part. part.now) v.items ≡ filter is_kept (map (λ part. part.now) parts.now)) }
{
    let mut kept = Vec::new(alloc);
    for part in parts {
        if is_kept(*part) {
            kept.push(*part)?;
        }
    }
    Ok(kept)
}

/// The components, with a slash between each two.
#[tactic(auto, using(crate::proofs::PathWordLaws::joined_bytes))]
fn joined(alloc: Global, parts: &[&str]) -> Result<String, AllocError>
    ensures value { IfOk result (λ path. string_bytes path ≡ join_with_byte slash (map (λ part. part.now) parts.now)) }
{
    parts.join(alloc, "/")
}

/// The components, with a slash between each two, and one in front where the path begins at the root.
fn path_of(alloc: Global, rooted: bool, parts: &[&str]) -> Result<String, AllocError>
    ensures value { IfOk result (λ path. string_bytes path ≡ (if rooted then slash ∷ join_with_byte slash (map (λ part. part.now) parts.now) else join_with_byte slash (map (λ part. part.now) parts.now))) }
{
    let rest = joined(alloc, parts)?;
    if !rooted {
        return Ok(rest);
    }
    let mut path = String::from_str(alloc, "/")?;
    path.push_str(rest.as_str())?;
    Ok(path)
}

/// The path that a word names, cleaned, if it names one.
#[tactic(auto, unfolding(crate::specs::PathWords::is_path_word, crate::specs::PathWords::cleaned))]
pub fn path_named(alloc: Global, word: &str) -> Result<Option<Text>, NoMemory>
    ensures value { IfOk result (λ path. path ≡ path_named word.now) }
{
    let parts = components(alloc, word)?;
    if have_parent(&parts) {
        return Ok(None);
    }
    let parts = kept(alloc, &parts)?;
    if parts.is_empty() {
        return Ok(None);
    }
    let path = path_of(alloc, word.as_bytes().starts_with(b"/"), &parts)?;
    if path.len() > PATH_WORD_LIMIT {
        return Ok(None);
    }
    Ok(Some(Text::new(path)))
}

/// The path that a word names, where it names one that differs from these two.
pub fn other_path(
    alloc: Global,
    first: &Text,
    second: &Text,
    word: &str,
) -> Result<Option<Text>, NoMemory>
    ensures value { IfOk result (λ path. path ≡ other_path first.now second.now word.now) }
{
    let Some(path) = path_named(alloc, word)? else {
        return Ok(None);
    };
    if path.as_str() == first.as_str() || path.as_str() == second.as_str() {
        return Ok(None);
    }
    Ok(Some(path))
}

/// The path, and the one that a word names, where it names another.
fn beside(alloc: Global, word: &str, path: Text) -> Result<Option<(Text, Text)>, NoMemory>
    ensures value { IfOk result (λ paths. paths ≡ beside word.now path) }
{
    match other_path(alloc, &path, &path, word)? {
        None => Ok(None),
        Some(other) => Ok(Some((path, other))),
    }
}

/// The paths that two words name, where they name two that differ.
pub fn two_paths(alloc: Global, first: &str, second: &str) -> Result<Option<(Text, Text)>, NoMemory>
    ensures value { IfOk result (λ paths. paths ≡ two_paths (first.now, second.now)) }
{
    match path_named(alloc, first)? {
        None => Ok(None),
        Some(path) => beside(alloc, second, path),
    }
}
