//! A small judge of files: a file says by its first three bytes what becomes of it.
//!
//! Read first: `specs/Toys.antt`.
ghost use Rattle.std.specs.Prelude.{◌≡◌, ◌++◌, Some, None, get_or, IfOk, IfErr};
ghost use Rattle.dw_base.specs.Refusals.{Blames};
ghost use Rattle.plan_cases.specs.Toys.{toy_names, toy_id, toy_verdict};

use dw_base::{Fault, Kind, Refusal};
use file_tree::Blob;
use job_types::{LeftWhy, Sources, Verdict};
use root_plan::{Judge, Parts};
use std::alloc::{AllocError, Global};

/// Says what the first bytes of a file say.
#[derive(Drop)]
pub struct Toy {}

/// The byte at a place, or 0.
fn byte_at(bytes: &[u8], at: usize) -> u8
    ensures value { result ≡ get_or bytes.now at 0 }
{
    bytes.get(at).copied().unwrap_or(0)
}

/// The names of the sources.
fn names(alloc: Global, name: u8) -> Result<Sources, AllocError>
    ensures value { IfOk result (λ s. s ≡ toy_names name) }
{
    let mut names = Vec::new(alloc);
    if name != 0 {
        names.push(Vec::from_slice(alloc, &[name])?)?;
    }
    Ok(Sources::new(names))
}

/// The build-id.
fn id(alloc: Global, id: u8) -> Result<Option<Blob>, AllocError>
    ensures value { IfOk result (λ o. o ≡ toy_id id) }
{
    if id == 0 {
        return Ok(None);
    }
    if id == 1 {
        let id = Blob::from_slice(alloc, &[171, 1])?;
        return Ok(Some(id));
    }
    let id = Blob::from_slice(alloc, &[171, 2])?;
    Ok(Some(id))
}

/// What is said of a file.
fn said(alloc: Global, bytes: &[u8]) -> Result<Verdict, Fault>
    ensures said { IfOk result (λ v. toy_verdict bytes.now ≡ Some v) }
    ensures refused { IfErr result (Blames (λ _. toy_verdict bytes.now ≡ None)) }
{
    let kind = byte_at(bytes, 0);
    if kind == 69 {
        let sources = names(alloc, byte_at(bytes, 1))?;
        return Ok(Verdict::Edited { sources });
    }
    if kind == 83 {
        let sources = names(alloc, byte_at(bytes, 1))?;
        let id = id(alloc, byte_at(bytes, 2))?;
        return Ok(Verdict::Split { id, sources });
    }
    if kind == 82 {
        return Err(Fault::Refused(Refusal::at(Kind::UnknownDebug, 4, 0)));
    }
    Ok(Verdict::Left(LeftWhy::NoElf))
}

/// Bytes, and others behind them.
fn followed(alloc: Global, bytes: &[u8], more: &[u8]) -> Result<Vec<u8>, AllocError>
    ensures value { IfOk result (λ v. v.items ≡ bytes.now ++ more.now) }
{
    let mut all = Vec::from_slice(alloc, bytes)?;
    all.extend_from_slice(more)?;
    Ok(all)
}

#[tactic(auto, using(crate::proofs::ToyLaws::toy_rules))]
impl Judge for Toy {
    ghost use Rattle.plan_cases.specs.Toys.{toy_view, toy_makes};

    ghost view = { λ j. toy_view };

    ghost fails = { λ j bytes name r. toy_verdict bytes ≡ None };

    ghost edit_fails = { λ j bytes r. ⊥ };

    ghost split_fails = { λ j bytes name r. ⊥ };

    fn verdict(&self, alloc: Global, bytes: &[u8], _debug_name: &[u8]) -> Result<Verdict, Fault> {
        said(alloc, bytes)
    }

    fn edited(&self, alloc: Global, bytes: &[u8]) -> Result<Vec<u8>, Fault> {
        let file = followed(alloc, bytes, b"e")?;
        Ok(file)
    }

    fn split(&self, alloc: Global, bytes: &[u8], debug_name: &[u8]) -> Result<Parts, Fault> {
        let stripped = followed(alloc, bytes, b"s")?;
        let debug = followed(alloc, bytes, debug_name)?;
        Ok(Parts { stripped, debug })
    }

    ghost makes = { λ j. toy_makes };
}
