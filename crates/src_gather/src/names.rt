//! The names of a list of sources.
//!
//! Read first: `specs/Listed.antt`.
ghost use Rattle.std.specs.Prelude.{◌≡◌, [], map, true, false, IfOk, OnOk, MatchOption};
ghost use Rattle.work_texts.specs.Lists.{bytes_of};
ghost use Rattle.src_gather.specs.Listed.{AreNames, is_fit, pieces, with_piece, with_pieces};

use dw_base::NoMemory;
use dw_paths::is_plain;
use root_plan::in_order;
use std::alloc::{AllocError, Global};
use std::collections::BTreeSet;

/// What stands between the NULs of a list, empty pieces too.
fn pieces(alloc: Global, list: &[u8]) -> Result<Vec<&[u8]>, NoMemory>
    ensures value { IfOk result (λ parts. map (λ p. p.now) parts.items ≡ pieces list.now) }
{
    let parts: Vec<&[u8]> = list.split(|b| *b == 0).collect(alloc)?;
    Ok(parts)
}

/// Adds a piece of the list, if it isn't empty.
#[tactic(auto, using(crate::proofs::PieceLaws::piece_rules))]
fn add_piece(alloc: Global, names: &mut BTreeSet<Vec<u8>>, piece: &[u8]) -> Result<(), AllocError>
    ensures value { OnOk result (map bytes_of names.new.keys ≡ with_piece (map bytes_of names.old.keys) piece.now) }
{
    if piece.is_empty() {
        return Ok(());
    }
    let name = Vec::from_slice(alloc, piece)?;
    names.insert(name)?;
    Ok(())
}

/// The pieces that aren't empty, each once.
#[tactic(auto, using(crate::proofs::PieceLaws::loop_rules))]
fn piece_set(alloc: Global, parts: &[&[u8]]) -> Result<BTreeSet<Vec<u8>>, AllocError>
    ensures value { IfOk result (λ names. map bytes_of names.keys ≡ with_pieces [] (map (λ p. p.now) parts.now)) }
{
    let mut names = BTreeSet::new(alloc);
    for part in parts {
        add_piece(alloc, &mut names, part)?;
    }
    Ok(names)
}

/// The names of a list, in byte order, each once.
pub(crate) fn listed_names(alloc: Global, list: &[u8]) -> Result<Vec<Vec<u8>>, NoMemory>
    ensures names { IfOk result (λ v. AreNames list.now (map bytes_of v.items)) }
{
    let parts = pieces(alloc, list)?;
    let names = piece_set(alloc, &parts)?;
    let names = in_order(alloc, names)?;
    Ok(names)
}

/// The name as a text, where a file could have it below a folder.
#[tactic(auto, using(crate::proofs::PieceLaws::fit_rules))]
pub(crate) fn fit(name: &[u8]) -> Option<&str>
    ensures value { MatchOption result (is_fit name.now ≡ false) (λ s. (s.now ≡ name.now) × (is_fit name.now ≡ true)) }
{
    if !is_plain(name) {
        return None;
    }
    match str::from_utf8(name) {
        Ok(text) => Some(text),
        Err(_) => None,
    }
}
