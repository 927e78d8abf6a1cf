//! What becomes of a file of a build root, its edited file, and the pair of that.
//!
//! Read first: `specs/FileJudges.antt`.

ghost use Rattle.std.specs.Prelude.{◌≡◌, ◌≤◌, ℕ, List, length, IfErr, IfOk, IsOkUnless};
ghost use Rattle.dw_base.specs.Layout.{file_limit, output_limit};
ghost use Rattle.dw_base.specs.Refusals.{Blames};
ghost use Rattle.dw_base.specs.declared.fault.Fault.TheVariants as fault;
ghost use Rattle.dbg_job.specs.EditedFiles.{EditedFails, IsEditOf};
ghost use Rattle.dbg_job.specs.Outcomes.{IsSaid, OutcomeFails};
ghost use Rattle.dbg_split.specs.SplitFails.{SplitFails};
ghost use Rattle.job_types.specs.declared.outcome.Verdict.{Verdict as VerdictOf};
ghost use Rattle.root_plan.specs.Verdicts.{Pair as PairOf};
ghost use Rattle.file_judge.specs.FileJudges.{IsPairOf};

use dbg_job::{Rewritten, edited, verdict};
use dbg_split::{Pair, Pieces, split};
use dw_base::Fault;
use job_types::{Options, Verdict};
use root_plan::{Judge, Parts};
use std::alloc::Global;

/// The judge of files that goes by the options of a run.
#[derive(Drop)]
pub struct FileJudge<'a> {
    options: &'a Options,
}

impl<'a> FileJudge<'a> {
    /// The judge that goes by these options.
    pub fn new(options: &'a Options) -> FileJudge<'a>
        ensures value { result.options.now ≡ options.now }
    {
        FileJudge { options }
    }
}

/// What is said of a file.
fn verdict_of(
    alloc: Global,
    bytes: &[u8],
    options: &Options,
    debug_name: &[u8],
) -> Result<Verdict, Fault>
    requires small { length bytes.now ≤ file_limit }
    ensures said { IfOk result (IsSaid options.now bytes.now debug_name.now) }
    ensures refused { IfErr result (Blames (OutcomeFails options.now bytes.now debug_name.now)) }
    ensures whole { (x : VerdictOf) → IsSaid options.now bytes.now debug_name.now x → IsOkUnless result fault.NoMemory }
{
    match verdict(alloc, bytes, options, debug_name) {
        Ok(verdict) => Ok(verdict),
        Err(fault) => Err(fault),
    }
}

/// The edited file. Its line tables aren't held any longer.
fn without_tables(out: Rewritten<'_>) -> Pieces<'_>
    ensures value { result ≡ out.entry.file }
{
    let Rewritten { file, tables: _ } = out;
    file
}

/// The edited file, in one piece.
fn edited_file(alloc: Global, bytes: &[u8], options: &Options) -> Result<Vec<u8>, Fault>
    requires small { length bytes.now ≤ file_limit }
    ensures made { IfOk result (λ file. IsEditOf options.now bytes.now file.items) }
    ensures small { IfOk result (λ file. length file.items ≤ output_limit) }
    ensures refused { IfErr result (Blames (EditedFails options.now bytes.now)) }
{
    let out = edited(alloc, bytes, options)?;
    let file = without_tables(out).joined(alloc)?;
    Ok(file)
}

/// The two files of an edited file, each in one piece.
#[tactic(auto, using(crate::proofs::SaidLaws::split_rules))]
fn pair_of(alloc: Global, file: &[u8], debug_name: &[u8]) -> Result<Parts, Fault>
    requires small { length file.now ≤ output_limit }
    ensures made { IfOk result (λ p. IsPairOf file.now debug_name.now (record { stripped = p.stripped.items; debug = p.debug.items })) }
    ensures refused { IfErr result (Blames (SplitFails file.now debug_name.now)) }
{
    let pair = split(alloc, file, debug_name)?;
    let Pair { stripped, debug } = pair;
    let debug = debug.joined(alloc)?;
    Ok(Parts { stripped, debug })
}

#[tactic(auto, using(crate::proofs::SaidLaws::judge_rules))]
impl<'a> Judge for FileJudge<'a> {
    ghost use Rattle.dbg_job.specs.EditedFiles.{EditedFails};
    ghost use Rattle.dbg_job.specs.Outcomes.{OutcomeFails};
    ghost use Rattle.dbg_split.specs.SplitFails.{SplitFails};
    ghost use Rattle.file_judge.specs.FileJudges.{file_view};
    ghost use Rattle.file_judge.specs.FileMakes.{file_makes};

    ghost view = { λ j. file_view j.options.now };

    ghost fails = { λ j bytes name r. OutcomeFails j.options.now bytes name r };

    ghost edit_fails = { λ j bytes r. EditedFails j.options.now bytes r };

    ghost split_fails = { λ j bytes name r. SplitFails bytes name r };

    fn verdict(&self, alloc: Global, bytes: &[u8], debug_name: &[u8]) -> Result<Verdict, Fault> {
        verdict_of(alloc, bytes, self.options, debug_name)
    }

    fn edited(&self, alloc: Global, bytes: &[u8]) -> Result<Vec<u8>, Fault> {
        edited_file(alloc, bytes, self.options)
    }

    fn split(&self, alloc: Global, bytes: &[u8], debug_name: &[u8]) -> Result<Parts, Fault> {
        pair_of(alloc, bytes, debug_name)
    }

    ghost makes = { λ j. file_makes j.options.now };
}
