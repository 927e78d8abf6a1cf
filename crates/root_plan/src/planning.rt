//! The plan of a build root.
//!
//! Read first: `specs/Plans.antt`.
ghost use Rattle.std.specs.Prelude.{◌≡◌, ◌≤◌, map, length, IfOk, IfErr, OnOk};
ghost use Rattle.std.specs.String.{string_bytes};
ghost use Rattle.file_tree.specs.Seen.{now_of};
ghost use Rattle.work_texts.specs.Rules.{text_limit};
ghost use Rattle.root_paths.specs.Looks.{Looked, LookedAt, LookedLast};
ghost use Rattle.root_paths.specs.Roots.{in_root};
ghost use Rattle.root_plan.specs.Targets.{new_paths, new_paths_of};
ghost use Rattle.root_plan.specs.Reports.{report_text};
ghost use Rattle.root_plan.specs.Plans.{key_of, plan_of, plan_length, IsLongPlan, CanBeMade, NewEnds, LookEnds, IsTalliedPlan, IsPlanOf, IsRunPlan, PlanEnds, OnlyCut};
ghost use Rattle.root_plan.specs.Jobs.{Serves};

use crate::judge::Judge;
use crate::plan_err::PlanErr;
use crate::refused::Skipped;
use crate::report::report;
use crate::survey::Survey;
use crate::surveying::{check_count, survey_paths};
use crate::targets::{new_paths, push_paths};
use file_tree::{Blob, Tree};
use job_types::Options;
use root_paths::{Root, check_made, look_at_each};
use std::alloc::{AllocError, Global};
use std::collections::BTreeSet;
use work_texts::{JobLine, Jobs, PlanData, PlannedSources, RunKey, TEXT_LIMIT, write_plan};

/// The key of a run: the options that its outputs depend on.
pub fn run_key(alloc: Global, options: &Options) -> Result<RunKey, AllocError>
    ensures value { IfOk result (λ key. key ≡ key_of options.now) }
{
    let maps = options.maps.copied(alloc)?;
    let seed = options.seed.copied(alloc)?;
    Ok(RunKey {
        maps,
        build_id: options.build_id,
        seed,
        skip: options.skip,
        max_file: options.max_file,
    })
}

/// The names of a set, in byte order.
pub fn in_order(alloc: Global, names: BTreeSet<Vec<u8>>) -> Result<Vec<Vec<u8>>, AllocError>
    ensures value { IfOk result (λ v. v.items ≡ names.keys) }
{
    let mut list = Vec::new(alloc);
    for name in names {
        list.push(name)?;
    }
    Ok(list)
}

/// How many names there are.
fn name_count(names: &[Vec<u8>]) -> usize
    ensures value { result ≡ length names.now }
{
    names.len()
}

/// The report of a run over these files, as the plan keeps it.
fn kept_report(
    alloc: Global,
    jobs: &[JobLine],
    left: u64,
    skipped: &[Skipped],
    sources: usize,
) -> Result<Blob, AllocError>
    ensures text { IfOk result (λ b. b ≡ report_text jobs.now left skipped.now sources) }
{
    let text = report(alloc, jobs, left, skipped, sources)?;
    let kept = Blob::from_slice(alloc, text.as_str().as_bytes())?;
    Ok(kept)
}

/// The plan of a survey.
pub(crate) fn plan_of(
    alloc: Global,
    options: &Options,
    survey: Survey,
) -> Result<PlanData, AllocError>
    ensures value { IfOk result (λ plan. plan ≡ plan_of options.now survey) }
{
    let key = run_key(alloc, options)?;
    let Survey {
        jobs,
        left,
        skipped,
        sources,
        ..
    } = survey;
    let names = in_order(alloc, sources)?;
    let count = name_count(&names);
    let report = kept_report(alloc, &jobs, left, &skipped, count)?;
    Ok(PlanData {
        key,
        report,
        jobs: Jobs::new(jobs),
        sources: PlannedSources::new(names),
    })
}

/// Whether the text of a plan is within its limit.
#[tactic(auto, using(crate::proofs::PlanLaws::text_rules))]
pub(crate) fn check_text(alloc: Global, plan: &PlanData) -> Result<(), PlanErr>
    ensures within { OnOk result (plan_length plan.now ≤ text_limit) }
    ensures long { IfErr result (IsLongPlan plan.now) }
{
    let text = write_plan(alloc, plan)?;
    if text.len() as u64 > TEXT_LIMIT {
        return Err(PlanErr::PlanTooLarge);
    }
    Ok(())
}

/// Whether the new paths of a plan can be made where these paths stand.
#[tactic(auto, using(crate::proofs::MadeLaws::new_rules))]
fn check_new(alloc: Global, root: &str, present: &[String], plan: &PlanData) -> Result<(), PlanErr>
    ensures can { OnOk result (CanBeMade (map string_bytes present.now) (new_paths root.now plan.now.jobs)) }
    ensures ends { IfErr result (NewEnds (map string_bytes present.now) (new_paths root.now plan.now.jobs)) }
{
    let news = new_paths(alloc, root, plan.jobs.as_slice())?;
    check_made(alloc, present, news)?;
    Ok(())
}

/// Looks at each new path that a job makes.
#[tactic(auto, using(crate::proofs::MadeLaws::look_rules))]
fn look_at_job<T: Tree>(
    alloc: Global,
    tree: &mut T,
    root: &str,
    job: &JobLine,
) -> Result<(), PlanErr>
    ensures ends { IfErr result (LookEnds (T.seen tree.old) (T.seen tree.new)) }
    ensures looked { Looked (T.seen tree.old) (T.seen tree.new) }
    ensures each { OnOk result (LookedAt (T.seen tree.old) (T.seen tree.new) (map (in_root root.now) (new_paths_of job.now))) }
{
    let mut paths = Vec::new(alloc);
    push_paths(alloc, root, job, &mut paths)?;
    look_at_each(tree, &paths)?;
    Ok(())
}

/// Looks at each new path that these jobs make. A tree may tell a path that can't become a file only when it
/// is asked for it.
fn look_at_new<T: Tree>(
    alloc: Global,
    tree: &mut T,
    root: &str,
    jobs: &[JobLine],
) -> Result<(), PlanErr>
    ensures ends { IfErr result (LookEnds (T.seen tree.old) (T.seen tree.new)) }
    ensures looked { Looked (T.seen tree.old) (T.seen tree.new) }
    ensures each { OnOk result (LookedAt (T.seen tree.old) (T.seen tree.new) (new_paths root.now jobs.now)) }
{
    for job in jobs {
        look_at_job(alloc, tree, root, job)?;
    }
    Ok(())
}

/// The plan of all paths of a build root, whether it can be carried out or not.
fn tallied_plan<T: Tree, J: Judge>(
    alloc: Global,
    tree: &mut T,
    root: &str,
    present: &[String],
    options: &Options,
    judge: &J,
) -> Result<PlanData, PlanErr>
    ensures plan { IfOk result (IsTalliedPlan (now_of (T.seen tree.old)) root.now (map string_bytes present.now) options.now (J.view judge.now) (J.fails judge.now)) }
    ensures ends { IfErr result (PlanEnds (T.seen tree.old) (T.seen tree.new) root.now (map string_bytes present.now) options.now (J.view judge.now) (J.fails judge.now)) }
    ensures looked { Looked (T.seen tree.old) (T.seen tree.new) }
{
    let fronts = Root::new(alloc, root)?;
    check_count(&fronts, present)?;
    let survey = survey_paths(alloc, tree, &fronts, present, options, judge)?;
    let plan = plan_of(alloc, options, survey)?;
    Ok(plan)
}

/// The plan of a build root, step by step.
fn plan_root<T: Tree, J: Judge>(
    alloc: Global,
    tree: &mut T,
    root: &str,
    present: &[String],
    options: &Options,
    judge: &J,
) -> Result<PlanData, PlanErr>
    ensures plan { IfOk result (IsPlanOf (now_of (T.seen tree.old)) root.now (map string_bytes present.now) options.now (J.view judge.now) (J.fails judge.now)) }
    ensures ends { IfErr result (PlanEnds (T.seen tree.old) (T.seen tree.new) root.now (map string_bytes present.now) options.now (J.view judge.now) (J.fails judge.now)) }
    ensures looked { Looked (T.seen tree.old) (T.seen tree.new) }
    ensures last { IfOk result (λ plan. LookedLast (T.seen tree.old) (T.seen tree.new) (new_paths root.now plan.jobs)) }
{
    let plan = tallied_plan(alloc, tree, root, present, options, judge)?;
    check_new(alloc, root, present, &plan)?;
    check_text(alloc, &plan)?;
    look_at_new(alloc, tree, root, plan.jobs.as_slice())?;
    Ok(plan)
}

/// The plan of a build root: what becomes of its files, of which these are the paths in byte order, and all
/// that is made of them. It is refused where a limit is passed, where a file is refused that isn't to be
/// skipped, and where a path that is to be made is taken. Each path that is to be made is looked at in the end.
#[tactic(auto, using(crate::proofs::WholeLaws::serve_rules, crate::proofs::RunPlanLaws::run_rules))]
pub fn make_plan<T: Tree, J: Judge>(
    alloc: Global,
    tree: &mut T,
    root: &str,
    present: &[String],
    options: &Options,
    judge: &J,
) -> Result<PlanData, PlanErr>
    ensures plan { IfOk result (IsPlanOf (now_of (T.seen tree.old)) root.now (map string_bytes present.now) options.now (J.view judge.now) (J.fails judge.now)) }
    ensures carried { IfOk result (IsRunPlan (now_of (T.seen tree.old)) root.now (map string_bytes present.now) options.now (J.view judge.now) (J.fails judge.now)) }
    ensures ends { IfErr result (PlanEnds (T.seen tree.old) (T.seen tree.new) root.now (map string_bytes present.now) options.now (J.view judge.now) (J.fails judge.now)) }
    ensures looked { Looked (T.seen tree.old) (T.seen tree.new) }
    ensures whole { IfErr result (OnlyCut (T.seen tree.old) root.now (map string_bytes present.now) options.now (J.view judge.now) (J.fails judge.now)) }
    ensures serves { IfOk result (Serves (now_of (T.seen tree.old)) root.now (map string_bytes present.now) options.now (J.view judge.now)) }
    ensures last { IfOk result (λ plan. LookedLast (T.seen tree.old) (T.seen tree.new) (new_paths root.now plan.jobs)) }
{
    let plan = plan_root(alloc, tree, root, present, options, judge)?;
    Ok(plan)
}
