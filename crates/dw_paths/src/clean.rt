//! Cleaned paths: without empty components, `.`, and what a `..` takes away (this project's profile:
//! by the words of the path alone, without a look at links).
//!
//! `clean_path` answers the definition's path.

ghost use Rattle.std.specs.Prelude.{◌≡◌, ◌++◌, map, reverse, IfOk, OnOk};
ghost use Rattle.std.specs.List.{join_with_byte};
ghost use Rattle.dw_base.specs.Paths.{slash};
ghost use Rattle.dw_paths.specs.Components.{components, is_idle, is_parent};
ghost use Rattle.dw_paths.specs.CleanPaths.{ends_in_name, left_with, left_of, slashed, root, cleaned_path};

use dw_base::NoMemory;
use std::alloc::Global;

/// The cleaned path: empty components and `.` go, and `..` takes away the component before it; where
/// there is none, or only a `..` that stayed, it goes in a path that begins with a slash, and stays in
/// any other.
#[tactic(auto, using(crate::proofs::CleanLaws::clean_rules), unfolding(crate::specs::CleanPaths::cleaned_path))]
pub fn clean_path(alloc: Global, path: &[u8]) -> Result<Vec<u8>, NoMemory>
    ensures value { IfOk result (λ cleaned. cleaned.items ≡ cleaned_path path.now) }
{
    let rooted = path.starts_with(b"/");
    let parts = split_parts(alloc, path)?;
    let left = left_parts(alloc, rooted, &parts)?;
    let cleaned = joined(alloc, rooted, &left)?;
    Ok(cleaned)
}

/// The components of a path.
fn split_parts(alloc: Global, path: &[u8]) -> Result<Vec<&[u8]>, NoMemory>
    ensures value { IfOk result (λ parts. map (λ p. p.now) parts.items ≡ components path.now) }
{
    let parts: Vec<&[u8]> = path.split(|b| *b == b'/').collect(alloc)?;
    Ok(parts)
}

/// The components that are left of some.
#[tactic(auto, using(crate::proofs::CleanLaws::left_rules))]
fn left_parts<'a>(
    alloc: Global,
    rooted: bool,
    parts: &[&'a [u8]],
) -> Result<Vec<&'a [u8]>, NoMemory>
    ensures value { IfOk result (λ left. reverse (map (λ p. p.now) left.items) ≡ left_of rooted (reverse (map (λ p. p.now) parts.now))) }
{
    let mut left = Vec::new(alloc);
    'parts: for part in parts {
        add_part(&mut left, rooted, part)?;
    }
    Ok(left)
}

/// What is left with one component more.
#[tactic(auto, using(crate::proofs::CleanLaws::part_rules))]
fn add_part<'a>(left: &mut Vec<&'a [u8]>, rooted: bool, part: &'a [u8]) -> Result<(), NoMemory>
    ensures value { OnOk result (reverse (map (λ p. p.now) left.new.items) ≡ left_with rooted (reverse (map (λ p. p.now) left.old.items)) part.now) }
{
    if is_idle(part) {
        return Ok(());
    }
    if is_parent(part) && ends_in_name(left) {
        left.pop();
        return Ok(());
    }
    if is_parent(part) && rooted {
        return Ok(());
    }
    left.push(part).map_err(|_| NoMemory)?;
    Ok(())
}

/// Whether the last component that is left isn't a `..` that stayed.
#[tactic(auto, using(crate::proofs::CleanLaws::last_rules))]
fn ends_in_name(left: &[&[u8]]) -> bool
    ensures value { result ≡ ends_in_name (reverse (map (λ p. p.now) left.now)) }
{
    match left.last() {
        Some(part) => !is_parent(part),
        None => false,
    }
}

/// Whether the component is empty or `.`.
fn is_idle(part: &[u8]) -> bool
    ensures value { result ≡ is_idle part.now }
{
    part.is_empty() || part == b".".as_slice()
}

/// Whether the component is `..`.
fn is_parent(part: &[u8]) -> bool
    ensures value { result ≡ is_parent part.now }
{
    part == b"..".as_slice()
}

/// The components with slashes between them, behind a slash where the path begins with one.
#[tactic(auto, using(crate::proofs::CleanLaws::joined_rules))]
fn joined(alloc: Global, rooted: bool, parts: &[&[u8]]) -> Result<Vec<u8>, NoMemory>
    ensures value { IfOk result (λ path. path.items ≡ root rooted ++ join_with_byte slash (map (λ p. p.now) parts.now)) }
{
    let mut path = Vec::from_slice(alloc, root(rooted))?;
    append_joined(&mut path, parts)?;
    Ok(path)
}

/// The slash that a path begins with.
fn root(rooted: bool) -> &'static [u8]
    ensures value { result.now ≡ root rooted }
{
    if rooted { b"/" } else { b"" }
}

/// Appends the components with slashes between them.
#[tactic(auto, using(crate::proofs::CleanLaws::joined_rules))]
fn append_joined(path: &mut Vec<u8>, parts: &[&[u8]]) -> Result<(), NoMemory>
    ensures value { OnOk result (path.new.items ≡ path.old.items ++ join_with_byte slash (map (λ p. p.now) parts.now)) }
{
    if parts.is_empty() {
        return Ok(());
    }
    path.extend_from_slice(parts[0])?;
    append_slashed(path, &parts[1..])?;
    Ok(())
}

/// Appends a slash and the component, for each of some.
#[tactic(auto, using(crate::proofs::CleanLaws::slashed_rules))]
fn append_slashed(path: &mut Vec<u8>, parts: &[&[u8]]) -> Result<(), NoMemory>
    ensures value { OnOk result (path.new.items ≡ path.old.items ++ slashed (map (λ p. p.now) parts.now)) }
{
    'parts: for part in parts {
        path.extend_from_slice(b"/")?;
        path.extend_from_slice(part)?;
    }
    Ok(())
}
