//! The command `run`: the files of a build root are edited, and split where they are programs or shared objects.
ghost use Rattle.std.specs.Prelude.{◌≡◌, ◌≢◌, ◌⊎◌, ◌<◌, ◌≤◌};
ghost use Rattle.std.specs.Option.{ForSome};
ghost use Rattle.file_tree.specs.Causes.{Rose};
ghost use Rattle.file_tree.specs.Seen.{now_of};
ghost use Rattle.job_types.specs.Settings.{HasKey};
ghost use Rattle.dbg_ends.specs.Due.{IsUnplanned};
ghost use Rattle.dbg_ends.specs.Ends.{status_of};
ghost use Rattle.dbg_run.specs.Roots.{IsReported, OnlyBelow, ReportEnds, RootCut, RootDone, RootDue, RootEnds, RootRan, RootStarts, journal_end, plan_end, run_end};

use dbg_ends::End;
use file_judge::FileJudge;
use file_tree::{Blob, Sink, Text, Tree};
use job_types::Options;
use root_plan::PlanErr;
use root_run::{RunErr, run_root};
use std::alloc::Global;
use work_texts::JournalErr;

/// The end of a root that has no plan.
fn plan_end(root: Text, failure: PlanErr) -> End
    ensures end { result ≡ plan_end root failure }
{
    match failure {
        PlanErr::Absent => End::Absent { path: root },
        PlanErr::Entries => End::Entries,
        PlanErr::PathTooLong(path) => End::LongPath { path },
        PlanErr::FileTooLarge { path, size } => End::Limit { path, size },
        PlanErr::PlanTooLarge => End::LongPlan,
        PlanErr::Refused { path, refusal } => End::Refused { path, refusal },
        PlanErr::Taken(path) => End::Taken { path },
        PlanErr::Tree => End::TreeFault,
        PlanErr::NoMemory => End::NoMemory,
    }
}

/// The end of a run that couldn't be taken up, or brought to its end.
pub(crate) fn journal_end(failure: JournalErr) -> End
    ensures end { result ≡ journal_end failure }
{
    match failure {
        JournalErr::Changed { path, .. } => End::Changed { path },
        JournalErr::Refused { path, refusal } => End::Refused { path, refusal },
        JournalErr::Tree => End::TreeFault,
        JournalErr::NoMemory => End::NoMemory,
        JournalErr::PlanText { file, at } => End::PlanText { file, at },
        JournalErr::OtherRun { field, .. } => End::OtherRun { field },
    }
}

/// The end of a run over the root that gives no report. It takes no memory.
fn run_end(root: Text, failure: RunErr) -> End
    ensures end { result ≡ run_end root failure }
{
    match failure {
        RunErr::Plan(failure) => plan_end(root, failure),
        RunErr::Journal(failure) => journal_end(failure),
    }
}

/// Runs over the root, with the judge of files that these options make.
fn root_answer<T: Tree>(
    alloc: Global,
    root: &str,
    options: &Options,
    jobs: u8,
    tree: &mut T,
) -> Result<Blob, RunErr>
    requires some { 0 < jobs }
    requires most { jobs ≤ 64 }
    requires key { HasKey options.now }
    ensures ran { RootRan root.now options.now jobs (T.seen tree.old) (T.seen tree.new) result }
{
    let judge = FileJudge::new(options);
    run_root(alloc, tree, root, options, judge, jobs)
}

/// Writes the report of a run that has come to its end, by one call.
#[tactic(auto, using(crate::proofs::RootLaws::report_rows))]
pub(crate) fn write_report<O: Sink>(report: &Blob, out: &mut O) -> End
    ensures ends { ReportEnds report.now (O.heard out.old) (O.heard out.new) result }
{
    match out.write(report.as_slice()) {
        Ok(()) => End::Done,
        Err(_) => End::OutputFault,
    }
}

/// Runs over the root, and writes the report. No memory is taken behind the run.
fn root_end<T: Tree, O: Sink>(
    alloc: Global,
    root: Text,
    options: &Options,
    jobs: u8,
    tree: &mut T,
    out: &mut O,
) -> End
    requires some { 0 < jobs }
    requires most { jobs ≤ 64 }
    requires key { HasKey options.now }
    ensures ends { RootEnds root options.now (T.seen tree.old) (T.seen tree.new) (O.heard out.old) (O.heard out.new) result }
    ensures starts { RootStarts root options.now jobs (T.seen tree.old) (T.seen tree.new) (O.heard out.old) (O.heard out.new) (status_of result) }
    ensures fault { status_of result ≡ 6 → Rose (T.seen tree.old).faults (T.seen tree.new).faults }
    ensures others { OnlyBelow root (now_of (T.seen tree.old)) (now_of (T.seen tree.new)) }
    ensures tells { (T.seen tree.new).tells ≡ (T.seen tree.old).tells }
{
    match root_answer(alloc, root.as_str(), options, jobs, tree) {
        Ok(report) => write_report(&report, out),
        Err(failure) => run_end(root, failure),
    }
}

/// How the run over the root ends. Its report goes to the output by one write, behind its last call of the tree.
pub fn run_over<T: Tree, O: Sink>(
    alloc: Global,
    root: Text,
    options: &Options,
    jobs: u8,
    tree: &mut T,
    out: &mut O,
) -> End
    requires some { 0 < jobs }
    requires most { jobs ≤ 64 }
    requires key { HasKey options.now }
    ensures ends { RootEnds root options.now (T.seen tree.old) (T.seen tree.new) (O.heard out.old) (O.heard out.new) result }
    ensures starts { RootStarts root options.now jobs (T.seen tree.old) (T.seen tree.new) (O.heard out.old) (O.heard out.new) (status_of result) }
    ensures done { 0 ≡ status_of result → RootDone root options.now (T.seen tree.old) (T.seen tree.new) (O.heard out.old) (O.heard out.new) }
    ensures due { ForSome (now_of (T.seen tree.old)) (λ t. RootDue root options.now t (status_of result) ⊎ RootCut root options.now t (status_of result)) }
    ensures not_usage { 2 ≢ status_of result }
    ensures fault { status_of result ≡ 6 → Rose (T.seen tree.old).faults (T.seen tree.new).faults }
    ensures output_fault { status_of result ≡ 7 → Rose (O.heard out.old).faults (O.heard out.new).faults }
    ensures silent { (IsReported (status_of result) → ⊥) → O.heard out.new ≡ O.heard out.old }
    ensures kept { IsUnplanned (status_of result) → now_of (T.seen tree.new) ≡ now_of (T.seen tree.old) }
    ensures others { OnlyBelow root (now_of (T.seen tree.old)) (now_of (T.seen tree.new)) }
    ensures tells { (T.seen tree.new).tells ≡ (T.seen tree.old).tells }
{
    root_end(alloc, root, options, jobs, tree, out)
}
