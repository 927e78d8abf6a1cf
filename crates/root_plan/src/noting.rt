//! What one path of a build root comes to.
//!
//! Read first: `specs/Tallies.antt`.
ghost use Rattle.std.specs.Prelude.{◌≡◌, ◌≤◌, ◌<◌, ◌-◌, ◌^◌, ℕ, List, length, IfOk, IfErr, OnOk};
ghost use Rattle.file_tree.specs.Seen.{now_of};
ghost use Rattle.root_paths.specs.Looks.{Looked};
ghost use Rattle.dw_base.specs.Layout.{file_limit};
ghost use Rattle.file_tree.specs.declared.node.Found.TheVariants as file;
ghost use Rattle.root_paths.specs.Roots.{longest_path};
ghost use Rattle.root_plan.specs.Verdicts.{IsUnsaid};
ghost use Rattle.root_plan.specs.Tallies.{Noted, PathEnds, IsTooLong, FileNoted, FileEnds, CandidateNoted, CandidateEnds, LargeEnds, FoundNoted, FoundEnds};

use crate::judge::Judge;
use crate::plan_err::PlanErr;
use crate::survey::Survey;
use crate::targets::debug_name;
use dw_base::{Fault, Refusal};
use file_tree::{Found, Text, Tree};
use job_types::Options;
use root_paths::{Root, check_length, read};
use std::alloc::Global;

/// Whether a path is within the limit on paths; else it is named.
fn check_short(alloc: Global, path: &str) -> Result<(), PlanErr>
    ensures short { OnOk result (length path.now ≤ longest_path) }
    ensures long { IfErr result (IsTooLong path.now) }
{
    check_length(alloc, path)?;
    Ok(())
}

/// A refusal as the end of the plan, or the file passed over.
#[tactic(auto, using(crate::proofs::Rows::file_rows))]
fn note_refusal<J: Judge>(
    alloc: Global,
    path: &str,
    below: &str,
    bytes: &[u8],
    name: &[u8],
    refusal: Refusal,
    options: &Options,
    judge: &J,
    survey: Survey,
) -> Result<Survey, PlanErr>
    requires fails { J.fails judge.now bytes.now name.now refusal }
    requires unsaid { IsUnsaid (J.view judge.now) bytes.now name.now }
    ensures noted { IfOk result (FileNoted options.now (J.view judge.now) (J.fails judge.now) below.now bytes.now name.now survey) }
    ensures ends { IfErr result (FileEnds options.now (J.view judge.now) (J.fails judge.now) path.now bytes.now name.now) }
{
    if !options.skip {
        let path = Text::copy_of(alloc, path)?;
        return Err(PlanErr::Refused { path, refusal });
    }
    let survey = survey.with_skipped(alloc, below, refusal)?;
    Ok(survey)
}

/// A candidate's file, by its path below the root and its bytes.
#[tactic(auto, using(crate::proofs::Rows::file_rows))]
fn note_file<J: Judge>(
    alloc: Global,
    path: &str,
    below: &str,
    bytes: &[u8],
    name: &[u8],
    options: &Options,
    judge: &J,
    survey: Survey,
) -> Result<Survey, PlanErr>
    requires small { length bytes.now ≤ file_limit }
    requires few { length survey.jobs < 2 ^ 32 - 1 }
    requires few_left { survey.left < 2 ^ 32 }
    ensures noted { IfOk result (FileNoted options.now (J.view judge.now) (J.fails judge.now) below.now bytes.now name.now survey) }
    ensures ends { IfErr result (FileEnds options.now (J.view judge.now) (J.fails judge.now) path.now bytes.now name.now) }
{
    match judge.verdict(alloc, bytes, name) {
        Ok(verdict) => {
            let survey = survey.with_verdict(alloc, below, bytes, verdict)?;
            Ok(survey)
        }
        Err(Fault::Refused(refusal)) => {
            note_refusal(
                alloc, path, below, bytes, name, refusal, options, judge, survey,
            )
        }
        Err(Fault::NoMemory) => Err(PlanErr::NoMemory),
    }
}

/// A candidate, by its path in the tree and below the root, and by its bytes.
#[tactic(auto, using(crate::proofs::Rows::candidate_rows))]
fn note_candidate<J: Judge>(
    alloc: Global,
    path: &str,
    below: &str,
    bytes: &[u8],
    options: &Options,
    judge: &J,
    survey: Survey,
) -> Result<Survey, PlanErr>
    requires small { length bytes.now ≤ file_limit }
    requires few { length survey.jobs < 2 ^ 32 - 1 }
    requires few_left { survey.left < 2 ^ 32 }
    ensures noted { IfOk result (CandidateNoted options.now (J.view judge.now) (J.fails judge.now) path.now below.now bytes.now survey) }
    ensures ends { IfErr result (CandidateEnds options.now (J.view judge.now) (J.fails judge.now) path.now below.now bytes.now) }
{
    check_short(alloc, path)?;
    let name = debug_name(alloc, below.as_bytes())?;
    let survey = note_file(alloc, path, below, bytes, &name, options, judge, survey)?;
    Ok(survey)
}

/// A candidate that has more bytes than may be read.
#[tactic(auto, using(crate::proofs::Rows::candidate_rows))]
fn refuse_large(alloc: Global, path: &str, size: u64) -> Result<Survey, PlanErr>
    ensures never { IfOk result (λ _. ⊥) }
    ensures ends { IfErr result (LargeEnds path.now size) }
{
    check_short(alloc, path)?;
    let path = Text::copy_of(alloc, path)?;
    Err(PlanErr::FileTooLarge { path, size })
}

/// What is found at a candidate's path.
fn note_found<J: Judge>(
    alloc: Global,
    path: &str,
    below: &str,
    found: Found,
    options: &Options,
    judge: &J,
    survey: Survey,
) -> Result<Survey, PlanErr>
    requires small { (bytes : List ℕ) (mode : ℕ) → found ≡ file.File bytes mode → length bytes ≤ file_limit }
    requires few { length survey.jobs < 2 ^ 32 - 1 }
    requires few_left { survey.left < 2 ^ 32 }
    ensures noted { IfOk result (FoundNoted options.now (J.view judge.now) (J.fails judge.now) path.now below.now found survey) }
    ensures ends { IfErr result (FoundEnds options.now (J.view judge.now) (J.fails judge.now) path.now below.now found) }
{
    match found {
        Found::File { bytes, mode: _ } => {
            note_candidate(alloc, path, below, bytes.as_slice(), options, judge, survey)
        }
        Found::TooLarge { size } => refuse_large(alloc, path, size),
        Found::Absent => Ok(survey),
        Found::Folder => Ok(survey),
        Found::Link { .. } => Ok(survey),
    }
}

/// One path of the root: what is found there is added to the survey.
#[tactic(auto, using(crate::proofs::Rows::path_rows))]
pub(crate) fn note_path<T: Tree, J: Judge>(
    alloc: Global,
    tree: &mut T,
    root: &Root,
    path: &str,
    options: &Options,
    judge: &J,
    survey: Survey,
) -> Result<Survey, PlanErr>
    requires few { length survey.jobs < 2 ^ 32 - 1 }
    requires few_left { survey.left < 2 ^ 32 }
    ensures noted { IfOk result (Noted (now_of (T.seen tree.old)) root.now options.now (J.view judge.now) (J.fails judge.now) path.now survey) }
    ensures ends { IfErr result (PathEnds (T.seen tree.old) (T.seen tree.new) root.now options.now (J.view judge.now) (J.fails judge.now) path.now) }
    ensures looked { Looked (T.seen tree.old) (T.seen tree.new) }
{
    let Some(below) = root.candidate(path) else {
        return Ok(survey);
    };
    let found = read(tree, path, options.max_file)?;
    let survey = note_found(alloc, path, below, found, options, judge, survey)?;
    Ok(survey)
}
