//! A run over a build root, from a start to its report.
//!
//! Read first: `specs/RootRuns.antt`, `specs/Finals.antt`, `specs/Cores.antt`.
ghost use Rattle.std.specs.FinMap as fin;
ghost use Rattle.std.specs.Prelude.{◌≡◌, ◌⊎◌, ◌<◌, ◌≤◌, ℕ, List, true, false, map, Some, IfOk, IfErr, IsTrue};
ghost use Rattle.std.specs.String.{string_bytes};
ghost use Rattle.dw_base.specs.Paths.{IsPathMap};
ghost use Rattle.file_tree.specs.Causes.{Rose};
ghost use Rattle.file_tree.specs.Seen.{map_now, now_of};
ghost use Rattle.file_tree.specs.Trees.{TreeMap, is_below};
ghost use Rattle.job_types.specs.Settings.{HasKey, IsWithin};
ghost use Rattle.journal_core.specs.Table.{CoreState};
ghost use Rattle.root_plan.specs.Roots.{work_folder};
ghost use Rattle.root_run.specs.Cores.{ShowsCore, LeadsTo, SettlesFew};
ghost use Rattle.root_run.specs.Dues.{RunCut, RunDue, IsResumed, IsUnopposed};
ghost use Rattle.root_run.specs.Finals.{IsDone};
ghost use Rattle.root_run.specs.RunEnds.{RunEnds, IsSame, leaves_tree, run_status, status_of};
ghost use Rattle.root_run.specs.RootRuns.{StaysPartway};
ghost use Rattle.root_run.specs.Starts.{FewJobs, OpenedWent, StartRan};
ghost use Rattle.root_run.specs.Underway.{IsUnderway, is_mild_end};

use crate::run_err::RunErr;
use crate::starting::{Start, open_root};
use crate::ways::{finished_run, new_run, run_plan};
use dw_paths::Maps;
use file_tree::{Blob, Tree};
use job_types::Options;
use root_plan::Judge;
use std::alloc::Global;
use work_journal::Opened;

/// Goes on from what a start found.
fn go_on<T: Tree, J: Judge + Drop>(
    alloc: Global,
    tree: &mut T,
    root: &str,
    options: &Options,
    judge: J,
    jobs: u8,
    found: Start,
) -> Result<Blob, RunErr>
    requires some { 0 < jobs }
    requires most { jobs ≤ 64 }
    requires few { FewJobs found.opened }
    ensures went { OpenedWent root.now (string_bytes found.work) options.now (J.view judge) (J.fails judge) (J.edit_fails judge) (J.split_fails judge) jobs (map string_bytes found.present.items) (T.seen tree.old) (T.seen tree.new) result found.opened }
{
    let Start {
        present,
        work,
        opened,
    } = found;
    let work = work.as_str();
    match opened {
        Opened::Finished { report, old } => finished_run(alloc, tree, work, options, report, old),
        Opened::Resumed(plan) => run_plan(
            alloc, tree, root, work, &present, false, plan, judge, jobs,
        ),
        Opened::Empty => new_run(alloc, tree, root, work, &present, options, judge, jobs),
    }
}

/// A start, by what it finds.
fn start_run<T: Tree, J: Judge + Drop>(
    alloc: Global,
    tree: &mut T,
    root: &str,
    options: &Options,
    judge: J,
    jobs: u8,
) -> Result<Blob, RunErr>
    requires some { 0 < jobs }
    requires most { jobs ≤ 64 }
    ensures ran { StartRan root.now options.now (J.view judge) (J.fails judge) (J.edit_fails judge) (J.split_fails judge) jobs (T.seen tree.old) (T.seen tree.new) result }
{
    let found = open_root(alloc, tree, root, options)?;
    go_on(alloc, tree, root, options, judge, jobs, found)
}

/// What a map obeys is known where one of its fields is used.
fn use_map(maps: &Maps)
    ensures map { IsPathMap maps.now }
{
    let _ = &maps.pairs;
}

/// And so is what options obey.
fn use_options(options: &Options)
    ensures map { IsPathMap options.now.maps }
    ensures within { IsWithin options.now.max_file }
{
    use_map(&options.maps);
}

/// Runs over a build root, or goes on with a run that was stopped: the report of the run.
///
/// Up to so many jobs, 1 to 64, are in flight between two settles. After an error the run is started again by the same words.
pub fn run_root<T: Tree, J: Judge + Drop>(
    alloc: Global,
    tree: &mut T,
    root: &str,
    options: &Options,
    judge: J,
    jobs: u8,
) -> Result<Blob, RunErr>
    requires some { 0 < jobs }
    requires most { jobs ≤ 64 }
    // over a run that is underway: what a stop leaves, what is done at `Ok`, the steps that are made, how often it is stored
    ensures images { (start : TreeMap) → IsUnderway start root.now (work_folder root.now) options.now (J.view judge) (J.fails judge) (T.seen tree.old) → StaysPartway start root.now (work_folder root.now) options.now (J.view judge) (J.fails judge) (T.seen tree.old) (T.seen tree.new) }
    ensures done { (start : TreeMap) → IsUnderway start root.now (work_folder root.now) options.now (J.view judge) (J.fails judge) (T.seen tree.old) → IfOk result (λ report. IsDone start root.now (work_folder root.now) options.now (J.view judge) (J.fails judge) report (T.seen tree.new)) }
    ensures steps { (start : TreeMap) → IsUnderway start root.now (work_folder root.now) options.now (J.view judge) (J.fails judge) (T.seen tree.old) → (c : CoreState) → ShowsCore start root.now (work_folder root.now) options.now (J.view judge) (J.fails judge) (map_now (T.seen tree.old).past) c → LeadsTo (work_folder root.now) c (T.seen tree.old).past (T.seen tree.new).past result }
    ensures settles { (start : TreeMap) → IsUnderway start root.now (work_folder root.now) options.now (J.view judge) (J.fails judge) (T.seen tree.old) → SettlesFew start root.now options.now (J.view judge) (J.fails judge) jobs (T.seen tree.old).past (T.seen tree.new).past }
    ensures mild { HasKey options.now → (start : TreeMap) → IsUnderway start root.now (work_folder root.now) options.now (J.view judge) (J.fails judge) (T.seen tree.old) → IfErr result (λ e. IsTrue (is_mild_end e)) }
    // why there is no report, and which exit status is due
    ensures ends { IfErr result (RunEnds root.now (work_folder root.now) options.now (J.view judge) (J.fails judge) (J.edit_fails judge) (J.split_fails judge) (T.seen tree.old) (T.seen tree.new)) }
    ensures due { (t : TreeMap) → now_of (T.seen tree.old) ≡ Some t → RunDue root.now (work_folder root.now) options.now (J.view judge) (J.fails judge) t (status_of result) ⊎ RunCut root.now (work_folder root.now) options.now (J.view judge) (J.fails judge) t (status_of result) }
    ensures exact { (t : TreeMap) (n : ℕ) → now_of (T.seen tree.old) ≡ Some t → RunDue root.now (work_folder root.now) options.now (J.view judge) (J.fails judge) t n → (status_of result ≡ n) ⊎ RunCut root.now (work_folder root.now) options.now (J.view judge) (J.fails judge) t (status_of result) }
    ensures fault { IfErr result (λ e. run_status e ≡ 6 → Rose (T.seen tree.old).faults (T.seen tree.new).faults) }
    ensures kept { IfErr result (λ e. IsTrue (leaves_tree (run_status e)) → IsSame (T.seen tree.old) (T.seen tree.new)) }
    ensures refused { (t : TreeMap) → now_of (T.seen tree.old) ≡ Some t → IfErr result (λ e. run_status e ≡ 3 → options.now.skip ≡ true → IsResumed root.now (work_folder root.now) options.now t) }
    ensures changed { (t : TreeMap) → now_of (T.seen tree.old) ≡ Some t → IfErr result (λ e. run_status e ≡ 10 → IsResumed root.now (work_folder root.now) options.now t) }
    ensures completes { HasKey options.now → (start : TreeMap) → IsUnderway start root.now (work_folder root.now) options.now (J.view judge) (J.fails judge) (T.seen tree.old) → IsUnopposed start root.now options.now (J.view judge) (J.fails judge) → (Rose (T.seen tree.old).faults (T.seen tree.new).faults → ⊥) → IfErr result (λ e. run_status e ≡ 13) }
    // what stays
    ensures tells { (T.seen tree.new).tells ≡ (T.seen tree.old).tells }
    ensures later { (T.seen tree.old).faults ≤ (T.seen tree.new).faults }
    ensures below { (T.seen tree.old).tells ≡ true → (q : List ℕ) → is_below root.now q ≡ false → fin.get (map_now (T.seen tree.new).past) q ≡ fin.get (map_now (T.seen tree.old).past) q }
{
    use_options(options);
    start_run(alloc, tree, root, options, judge, jobs)
}
