//! The command `gather`: the sources that a run over a build root listed are copied into it.
ghost use Rattle.std.specs.Prelude.{◌≡◌, ◌≢◌, ◌⊎◌, ◌<◌, ◌≤◌};
ghost use Rattle.std.specs.Option.{ForSome};
ghost use Rattle.file_tree.specs.Causes.{Rose};
ghost use Rattle.file_tree.specs.Seen.{now_of};
ghost use Rattle.src_gather.specs.Asked.{IsAsked};
ghost use Rattle.dbg_ends.specs.Due.{IsUnplanned};
ghost use Rattle.dbg_ends.specs.Ends.{status_of};
ghost use Rattle.dbg_run.specs.Gathers.{GatherCut, GatherDone, GatherDue, GatherRan, GatherStarts, GatherWays, gather_end};
ghost use Rattle.dbg_run.specs.Roots.{IsReported, OnlyBelow};

use crate::run_root::{journal_end, write_report};
use dbg_ends::End;
use file_tree::{Blob, Sink, Text, Tree};
use src_gather::{GatherErr, gather};
use std::alloc::Global;

/// The end of a gather that gives no report. It takes no memory.
fn gather_end(failure: GatherErr) -> End
    ensures end { result ≡ gather_end failure }
{
    match failure {
        GatherErr::Absent(path) => End::Absent { path },
        GatherErr::Entries => End::Entries,
        GatherErr::PathTooLong(path) => End::LongPath { path },
        GatherErr::FileTooLarge { path, size } => End::Limit { path, size },
        GatherErr::PlanTooLarge => End::LongPlan,
        GatherErr::Taken(path) => End::Taken { path },
        GatherErr::Journal(failure) => journal_end(failure),
        GatherErr::Tree => End::TreeFault,
        GatherErr::NoMemory => End::NoMemory,
    }
}

/// Gathers below the destination.
fn gathered<T: Tree>(
    alloc: Global,
    root: &Text,
    from: &Text,
    dest: &Text,
    jobs: u8,
    tree: &mut T,
) -> Result<Blob, GatherErr>
    requires some { 0 < jobs }
    requires most { jobs ≤ 64 }
    requires asked { IsAsked root.now from.now dest.now }
    ensures ran { GatherRan root.now from.now dest.now jobs (T.seen tree.old) (T.seen tree.new) result }
{
    gather(
        alloc,
        tree,
        root.as_str(),
        from.as_str(),
        dest.as_str(),
        jobs,
    )
}

/// Gathers, and writes the report. No memory is taken behind the gather.
fn gathered_end<T: Tree, O: Sink>(
    alloc: Global,
    root: &Text,
    from: &Text,
    dest: &Text,
    jobs: u8,
    tree: &mut T,
    out: &mut O,
) -> End
    requires some { 0 < jobs }
    requires most { jobs ≤ 64 }
    requires asked { IsAsked root.now from.now dest.now }
    ensures ends { GatherWays root.now from.now dest.now (T.seen tree.old) (T.seen tree.new) (O.heard out.old) (O.heard out.new) result }
    ensures starts { GatherStarts root.now from.now dest.now jobs (T.seen tree.old) (T.seen tree.new) (O.heard out.old) (O.heard out.new) (status_of result) }
    ensures fault { status_of result ≡ 6 → Rose (T.seen tree.old).faults (T.seen tree.new).faults }
    ensures others { OnlyBelow root.now (now_of (T.seen tree.old)) (now_of (T.seen tree.new)) }
    ensures tells { (T.seen tree.new).tells ≡ (T.seen tree.old).tells }
{
    match gathered(alloc, root, from, dest, jobs, tree) {
        Ok(report) => write_report(&report, out),
        Err(failure) => gather_end(failure),
    }
}

/// How the gather ends. Its report goes to the output by one write, behind its last call of the tree.
pub fn gather_into<T: Tree, O: Sink>(
    alloc: Global,
    root: &Text,
    from: &Text,
    dest: &Text,
    jobs: u8,
    tree: &mut T,
    out: &mut O,
) -> End
    requires some { 0 < jobs }
    requires most { jobs ≤ 64 }
    requires asked { IsAsked root.now from.now dest.now }
    ensures ends { GatherWays root.now from.now dest.now (T.seen tree.old) (T.seen tree.new) (O.heard out.old) (O.heard out.new) result }
    ensures starts { GatherStarts root.now from.now dest.now jobs (T.seen tree.old) (T.seen tree.new) (O.heard out.old) (O.heard out.new) (status_of result) }
    ensures done { 0 ≡ status_of result → GatherDone root.now from.now dest.now (T.seen tree.old) (T.seen tree.new) (O.heard out.old) (O.heard out.new) }
    ensures due { ForSome (now_of (T.seen tree.old)) (λ t. GatherDue root.now from.now dest.now t (status_of result) ⊎ GatherCut root.now from.now dest.now t (status_of result)) }
    ensures not_usage { 2 ≢ status_of result }
    ensures fault { status_of result ≡ 6 → Rose (T.seen tree.old).faults (T.seen tree.new).faults }
    ensures output_fault { status_of result ≡ 7 → Rose (O.heard out.old).faults (O.heard out.new).faults }
    ensures silent { (IsReported (status_of result) → ⊥) → O.heard out.new ≡ O.heard out.old }
    ensures kept { IsUnplanned (status_of result) → now_of (T.seen tree.new) ≡ now_of (T.seen tree.old) }
    ensures others { OnlyBelow root.now (now_of (T.seen tree.old)) (now_of (T.seen tree.new)) }
    ensures tells { (T.seen tree.new).tells ≡ (T.seen tree.old).tells }
{
    gathered_end(alloc, root, from, dest, jobs, tree, out)
}
