//! What becomes of a file of a build root, with its outputs, and what is said of it before these are made (this project's
//! profile).
//!
//! Read first: `specs/Leaving.antt`, then `specs/Outcomes.antt`.

ghost use Rattle.std.specs.Prelude.{◌≡◌, ◌≤◌, length, IfErr, IfOk, OnOk};
ghost use Rattle.dw_base.specs.Layout.{output_limit};
ghost use Rattle.dw_base.specs.Refusals.{Blames};
ghost use Rattle.dw_base.specs.declared.fault.Refusal.{Refusal};
ghost use Rattle.dbg_split.specs.DebugFile.{debug_file};
ghost use Rattle.dbg_split.specs.SplitFails.{SplitFails};
ghost use Rattle.dbg_split.specs.StrippedFile.{stripped_file};
ghost use Rattle.job_types.specs.declared.outcome.Outcome.{Outcome as OutcomeOf};
ghost use Rattle.job_types.specs.declared.outcome.Outcome.TheVariants as outcome;
ghost use Rattle.job_types.specs.declared.outcome.Verdict.{Verdict as VerdictOf};
ghost use Rattle.dbg_job.specs.Outcomes.{IsMade, IsOutcome, IsSaid, IsSplitOf, OutcomeFails, OutcomeKeeps};

use crate::judging::{Judged, judge_file};
use dbg_split::{Pair, check_split, split};
use dw_base::{Fault, NoMemory};
use elf_layout::Pieces;
use file_tree::Blob;
use job_types::{Options, Outcome, Sources, Verdict};
use std::alloc::Global;

/// The outcome of an edited file that is not split.
fn edited_outcome(alloc: Global, file: Pieces, sources: Sources) -> Result<Outcome, NoMemory>
    ensures value { IfOk result (λ o. o ≡ outcome.Edited file.entry sources) }
{
    let bytes = Blob::new(file.joined(alloc)?);
    Ok(Outcome::Edited { bytes, sources })
}

/// The outcome of a pair.
fn pair_outcome(
    alloc: Global,
    pair: Pair,
    id: Option<Blob>,
    sources: Sources,
) -> Result<Outcome, NoMemory>
    ensures value { IfOk result (λ o. o ≡ outcome.Split pair.entry.stripped.items pair.entry.debug id sources) }
{
    let Pair { stripped, debug } = pair;
    let debug = debug.joined(alloc)?;
    Ok(Outcome::Split {
        stripped: Blob::new(stripped),
        debug: Blob::new(debug),
        id,
        sources,
    })
}

/// The outcome of an edited file that is split.
fn split_outcome(
    alloc: Global,
    file: &[u8],
    debug_name: &[u8],
    id: Option<Blob>,
    sources: Sources,
) -> Result<Outcome, Fault>
    requires small { length file.now ≤ output_limit }
    ensures value { IfOk result (λ o. o ≡ outcome.Split (stripped_file file.now debug_name.now) (debug_file file.now) id sources) }
    ensures splits { OnOk result (IsSplitOf file.now debug_name.now) }
    ensures refused { IfErr result (Blames (SplitFails file.now debug_name.now)) }
{
    let pair = split(alloc, file, debug_name)?;
    let outcome = pair_outcome(alloc, pair, id, sources)?;
    Ok(outcome)
}

/// What `outcome` gives.
#[tactic(auto, using(crate::proofs::JudgedLaws::made_rules))]
fn made_outcome(
    alloc: Global,
    bytes: &[u8],
    options: &Options,
    debug_name: &[u8],
) -> Result<Outcome, Fault>
    requires small { length bytes.now ≤ output_limit }
    ensures made { IfOk result (IsMade options.now bytes.now debug_name.now) }
    ensures refused { IfErr result (Blames (OutcomeFails options.now bytes.now debug_name.now)) }
{
    let judged = judge_file(alloc, bytes, options)?;
    match judged {
        Judged::Left(why) => Ok(Outcome::Left(why)),
        Judged::Edited { file, sources } => {
            let outcome = edited_outcome(alloc, file, sources)?;
            Ok(outcome)
        }
        Judged::Split { file, id, sources } => {
            let outcome = split_outcome(alloc, file.as_slice(), debug_name, id, sources)?;
            Ok(outcome)
        }
    }
}

/// What `verdict` gives.
#[tactic(auto, using(crate::proofs::JudgedLaws::said_rules))]
fn said_verdict(
    alloc: Global,
    bytes: &[u8],
    options: &Options,
    debug_name: &[u8],
) -> Result<Verdict, Fault>
    requires small { length bytes.now ≤ output_limit }
    ensures said { IfOk result (IsSaid options.now bytes.now debug_name.now) }
    ensures refused { IfErr result (Blames (OutcomeFails options.now bytes.now debug_name.now)) }
{
    let judged = judge_file(alloc, bytes, options)?;
    match judged {
        Judged::Left(why) => Ok(Verdict::Left(why)),
        Judged::Edited { file: _, sources } => Ok(Verdict::Edited { sources }),
        Judged::Split { file, id, sources } => {
            check_split(alloc, file.as_slice(), debug_name)?;
            Ok(Verdict::Split { id, sources })
        }
    }
}

/// What becomes of a file of a build root whose debug file has this base name. It is left where a rule applies, the
/// first that does: it doesn't begin as an ELF file does; its type is neither REL nor EXEC nor DYN; it has a link to
/// a debug file; or it has nothing for a job to do: of EXEC and DYN no section that a debug file takes, of REL none
/// of debug data. Else it is edited (`edited`), and one of type EXEC or DYN is split then (`dbg_split::split`);
/// beside the two files stand the build-id of the edited file, where it has one, and the names of the sources, as
/// they were before. Refused only by a condition that holds: where its records can't be read as `Header` or `Range`;
/// where it isn't left, by those of `edited`, and, of one that is split, by those of its build-id, by those that keep
/// the file from being split, or as `TooLarge` where one of the two files would pass the limit. Where none holds,
/// something becomes of it, or there was not enough memory. The outputs mean what the file means, with each source
/// path mapped, and what is loaded of it is as it was; a stripped file and its debug file are a pair.
#[tactic(auto, using(crate::proofs::JudgedLaws::outcome_rules))]
pub fn outcome(
    alloc: Global,
    bytes: &[u8],
    options: &Options,
    debug_name: &[u8],
) -> Result<Outcome, Fault>
    requires small { length bytes.now ≤ output_limit }
    ensures made { IfOk result (IsMade options.now bytes.now debug_name.now) }
    ensures outcome { IfOk result (IsOutcome options.now bytes.now debug_name.now) }
    ensures only { IfOk result (λ o. (p : OutcomeOf) → IsOutcome options.now bytes.now debug_name.now p → p ≡ o) }
    ensures keeps { IfOk result (OutcomeKeeps options.now.maps bytes.now debug_name.now) }
    ensures none { OnOk result ((r : Refusal) → OutcomeFails options.now bytes.now debug_name.now r → ⊥) }
    ensures refused { IfErr result (Blames (OutcomeFails options.now bytes.now debug_name.now)) }
{
    let outcome = made_outcome(alloc, bytes, options, debug_name)?;
    Ok(outcome)
}

/// What is said of a file of a build root whose debug file has this base name, before its outputs are made: that it is left,
/// and why; that it is edited, with the names of its sources; or that it is split, with its build-id, where it has one, and
/// these names. It is said exactly where `outcome` makes that of the file: refused only by a condition by which `outcome` refuses,
/// and where none holds something is said, or there was not enough memory. The outputs aren't made: a file that is edited isn't
/// joined, and of one that is split the edited file alone is, and no sum is taken.
#[tactic(auto, using(crate::proofs::JudgedLaws::verdict_rules))]
pub fn verdict(
    alloc: Global,
    bytes: &[u8],
    options: &Options,
    debug_name: &[u8],
) -> Result<Verdict, Fault>
    requires small { length bytes.now ≤ output_limit }
    ensures said { IfOk result (IsSaid options.now bytes.now debug_name.now) }
    ensures only { IfOk result (λ v. (w : VerdictOf) → IsSaid options.now bytes.now debug_name.now w → w ≡ v) }
    ensures none { OnOk result ((r : Refusal) → OutcomeFails options.now bytes.now debug_name.now r → ⊥) }
    ensures refused { IfErr result (Blames (OutcomeFails options.now bytes.now debug_name.now)) }
{
    let verdict = said_verdict(alloc, bytes, options, debug_name)?;
    Ok(verdict)
}
