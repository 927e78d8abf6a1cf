//! Whether two keys are one, and else which field differs first.
//!
//! Read first: `specs/Keys.antt`.
ghost use Rattle.std.specs.Prelude.{◌≡◌, ◌↔◌, IsTrue, IsOk, IfErr, IfOk, OnOk};
ghost use Rattle.std.specs.Fmt.{decimal};
ghost use Rattle.work_texts.specs.Fields.{pair_fields, text_of};
ghost use Rattle.work_texts.specs.Keys.{IsOtherRun, KeyBlames};

use crate::journal_err::JournalErr;
use crate::key::RunKey;
use crate::writing::{flag, pairs_text};
use dw_paths::MapPair;
use file_tree::Blob;
use std::alloc::{AllocError, Global};

/// Whether the kept key is the given one. Else the answer is `OtherRun` with the number of the first
/// part that differs (0 base of the first pair, 1 its destination, 2 build-id, 3 seed, 4 skip, 5 max-file,
/// 6 the pairs behind the first) and both its texts, or want of memory.
#[tactic(auto, using(crate::proofs::KeyRules::key_rules))]
pub fn check_key(alloc: Global, kept: &RunKey, given: &RunKey) -> Result<(), JournalErr>
    ensures same { OnOk result (kept.now ≡ given.now) }
    ensures ok { kept.now ≡ given.now → IsOk result }
    ensures blame { IfErr result (λ e. KeyBlames kept.now given.now e) }
{
    let (ours, theirs) = (kept.maps.base(), given.maps.base());
    if !is_same(ours, theirs) {
        return Err(other_run(alloc, 0, ours, theirs));
    }
    let (ours, theirs) = (kept.maps.dest(), given.maps.dest());
    if !is_same(ours, theirs) {
        return Err(other_run(alloc, 1, ours, theirs));
    }
    if kept.build_id != given.build_id {
        return Err(other_run(alloc, 2, flag(kept.build_id), flag(given.build_id)));
    }
    let (ours, theirs) = (kept.seed.as_slice(), given.seed.as_slice());
    if !is_same(ours, theirs) {
        return Err(other_run(alloc, 3, ours, theirs));
    }
    if kept.skip != given.skip {
        return Err(other_run(alloc, 4, flag(kept.skip), flag(given.skip)));
    }
    if kept.max_file != given.max_file {
        return Err(other_limit(alloc, kept.max_file, given.max_file));
    }
    let (ours, theirs) = (kept.maps.more(), given.maps.more());
    if !are_same(ours, theirs) {
        return Err(other_pairs(alloc, ours, theirs));
    }
    Ok(())
}

/// Whether two texts have the same bytes.
fn is_same(a: &[u8], b: &[u8]) -> bool
    ensures value { IsTrue result ↔ (a.now ≡ b.now) }
{
    a == b
}

/// Whether two pairs have the same base and destination.
#[tactic(auto, using(crate::proofs::PairLaws::one_rules))]
fn is_one(a: &MapPair, b: &MapPair) -> bool
    ensures value { IsTrue result ↔ (a.now ≡ b.now) }
{
    if !is_same(&a.base, &b.base) {
        return false;
    }
    is_same(&a.dest, &b.dest)
}

/// Whether two lists have the same pairs.
#[tactic(auto, using(crate::proofs::PairLaws::pair_rules))]
fn are_same(a: &[MapPair], b: &[MapPair]) -> bool
    ensures value { IsTrue result ↔ (a.now ≡ b.now) }
{
    if a.len() != b.len() {
        return false;
    }
    let mut at = 0;
    'pairs: while at < a.len() {
        if !is_one(&a[at], &b[at]) {
            return false;
        }
        at += 1;
    }
    true
}

/// The answer that the pairs behind the first differ.
fn other_pairs(alloc: Global, kept: &[MapPair], given: &[MapPair]) -> JournalErr
    ensures value { IsOtherRun 6 (text_of (pair_fields kept.now)) (text_of (pair_fields given.now)) result }
{
    let Ok(kept) = pairs_text(alloc, kept) else {
        return JournalErr::NoMemory;
    };
    let Ok(given) = pairs_text(alloc, given) else {
        return JournalErr::NoMemory;
    };
    JournalErr::OtherRun {
        field: 6,
        kept,
        given,
    }
}

/// The answer that this field differs.
fn other_run(alloc: Global, field: u8, kept: &[u8], given: &[u8]) -> JournalErr
    ensures value { IsOtherRun field kept.now given.now result }
{
    let Ok(kept) = Blob::from_slice(alloc, kept) else {
        return JournalErr::NoMemory;
    };
    let Ok(given) = Blob::from_slice(alloc, given) else {
        return JournalErr::NoMemory;
    };
    JournalErr::OtherRun { field, kept, given }
}

/// The answer that the longest file differs.
fn other_limit(alloc: Global, kept: u64, given: u64) -> JournalErr
    ensures value { IsOtherRun 5 (decimal kept) (decimal given) result }
{
    let Ok(kept) = number_text(alloc, kept) else {
        return JournalErr::NoMemory;
    };
    let Ok(given) = number_text(alloc, given) else {
        return JournalErr::NoMemory;
    };
    JournalErr::OtherRun {
        field: 5,
        kept,
        given,
    }
}

/// A number as it is written.
fn number_text(alloc: Global, number: u64) -> Result<Blob, AllocError>
    ensures value { IfOk result (λ text. text ≡ decimal number) }
{
    let text = format!(in alloc; "{number}")?;
    Blob::from_slice(alloc, text.as_str().as_bytes())
}
