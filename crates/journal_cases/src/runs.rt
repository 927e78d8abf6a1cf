//! Runs of a small maker over a tree in memory: stopped after each call, and started again.
ghost use Rattle.std.specs.Prelude.{◌<◌, ◌≤◌};

use crate::toy::Toy;
use dw_paths::Maps;
use file_tree::{Blob, Listed, MemTree, Node, Tree};
use std::alloc::{AllocError, Global};
use std::process::Abort;
use std::test::Fail;
use work_journal::*;
use work_texts::{Jobs, PlanData, PlannedSources, RunKey, write_finished, write_plan};

/// How many jobs there are.
const JOBS: u32 = 3;

/// A tree of the jobs' files.
fn begun(alloc: Global) -> Result<MemTree, Fail> {
    let mut nodes = Vec::new(alloc);
    for job in 0..JOBS {
        let path = format!(in alloc; "r/{job}")?;
        let bytes = Blob::from_slice(alloc, b"file")?;
        nodes.push((path, Node::File { bytes, mode: 0o755 }))?;
    }
    Ok(MemTree::new(alloc, nodes)?)
}

/// The key of the small runs.
fn key(alloc: Global) -> Result<RunKey, Fail> {
    let maps = Maps::new(alloc, b"/b", b"/d")?.ok_or("no map")?;
    Ok(RunKey {
        maps,
        build_id: false,
        seed: Blob::from_slice(alloc, b"")?,
        skip: false,
        max_file: 100,
    })
}

/// The text of a plan of the small runs, which names no jobs.
fn plan_text(alloc: Global) -> Result<Vec<u8>, Fail> {
    let plan = PlanData {
        key: key(alloc)?,
        report: Blob::from_slice(alloc, b"done")?,
        jobs: Jobs::new(Vec::new(alloc)),
        sources: PlannedSources::new(Vec::new(alloc)),
    };
    Ok(write_plan(alloc, &plan)?)
}

/// The lists of the end of the small runs.
fn lists_of(alloc: Global) -> Result<[Vec<u8>; 3], AllocError> {
    let sources = Vec::from_slice(alloc, b"s")?;
    let debug_files = Vec::from_slice(alloc, b"d")?;
    let links = Vec::from_slice(alloc, b"l")?;
    Ok([sources, debug_files, links])
}

/// The paths of the tree once it is settled, unless a call fails.
fn paths_of(tree: &mut MemTree) -> Option<Vec<String>> {
    if tree.settle().is_err() {
        return None;
    }
    match tree.list("r", 100_000) {
        Ok(Listed::Paths(paths)) => Some(paths.into_vec()),
        _ => None,
    }
}

/// Brings a run from what its work folder holds to its end, and whether it came there.
fn finish_run(
    alloc: Global,
    tree: &mut MemTree,
    opened: &Opened,
    present: &[String],
    in_flight: u8,
) -> Result<bool, Fail>
    requires some { 0 < in_flight }
    requires most { in_flight ≤ 64 }
{
    let mut maker = Toy {
        jobs: JOBS,
        first: b'f',
    };
    let plan = plan_text(alloc)?;
    let lists = lists_of(alloc)?;
    let finished = write_finished(alloc, &key(alloc)?, b"done")?;
    let core = start_core(alloc, opened, "r/w", present, &maker)?;
    let ended = finish(
        alloc, tree, core, "r/w", present, &mut maker, in_flight, plan, lists, &finished,
    );
    Ok(ended.is_ok())
}

/// A start of a run, from wherever the tree is, and whether it came to the end.
fn start(alloc: Global, tree: &mut MemTree, in_flight: u8) -> Result<bool, Fail>
    requires some { 0 < in_flight }
    requires most { in_flight ≤ 64 }
{
    let key = key(alloc)?;
    let Some(present) = paths_of(tree) else {
        return Ok(false);
    };
    let Ok(opened) = open_work(alloc, tree, "r/w", &present, &key) else {
        return Ok(false);
    };
    finish_run(alloc, tree, &opened, &present, in_flight)
}

/// Whether two nodes are one.
fn is_same(a: &Node, b: &Node) -> bool {
    match (a, b) {
        (Node::File { bytes: x, mode: m }, Node::File { bytes: y, mode: n }) => {
            m == n && x.as_slice() == y.as_slice()
        }
        _ => false,
    }
}

/// Whether two trees hold the same.
fn are_same(a: &MemTree, b: &MemTree) -> bool {
    let (ours, theirs) = (a.nodes(), b.nodes());
    if ours.len() != theirs.len() {
        return false;
    }
    for i in 0..ours.len() {
        if ours[i].0 != theirs[i].0 || !is_same(&ours[i].1, &theirs[i].1) {
            return false;
        }
    }
    true
}

/// What a run with two jobs in flight leaves that nothing disturbs, which settles six times.
fn undisturbed(rt: &impl Abort, alloc: Global) -> Result<MemTree, Fail> {
    let mut tree = begun(alloc)?;
    assert!(rt; start(alloc, &mut tree, 2)?);
    assert_eq!(rt; tree.settle_count(), 6);
    Ok(tree)
}

/// A run that stops after so many calls, which leaves the first of its changes, as many as `kept`, with torn files; and the
/// next start, with one job in flight, ends as the undisturbed run.
fn stop_and_start(
    rt: &impl Abort,
    alloc: Global,
    calls: u64,
    kept: u64,
    whole: &MemTree,
) -> Result<(), Fail> {
    let mut tree = begun(alloc)?;
    tree.stop_after(calls);
    let ended = start(alloc, &mut tree, 2)?;
    assert!(rt; !ended, "stopped after {calls}, {kept} kept");
    let mut left = tree.stopped(kept, b"torn")?;
    let ended = start(alloc, &mut left, 1)?;
    assert!(rt;
        ended && are_same(&left, whole),
        "started after {calls}, {kept} kept"
    );
    Ok(())
}

#[test]
fn stopped_after_each_call_it_ends_as_if_it_were_not(rt: HostRuntime) -> Result<(), Fail> {
    let alloc = rt.alloc();
    let whole = undisturbed(&rt, alloc)?;
    for calls in 0..whole.calls().len() as u64 {
        // At most 13 changes aren't stored.
        for kept in 0..14u64 {
            stop_and_start(&rt, alloc, calls, kept, &whole)?;
        }
    }
    Ok(())
}

/// A run of which one call fails, and the next start.
fn fail_and_start(rt: &impl Abort, alloc: Global, call: u64, whole: &MemTree) -> Result<(), Fail> {
    let mut tree = begun(alloc)?;
    tree.fail_calls(vec![in alloc; call; 1]?);
    let ended = start(alloc, &mut tree, 2)?;
    assert!(rt; !ended, "call {call} failed");
    let ended = start(alloc, &mut tree, 3)?;
    assert!(rt;
        ended && are_same(&tree, whole),
        "started after call {call}"
    );
    Ok(())
}

#[test]
fn after_each_call_that_fails_the_next_start_ends(rt: HostRuntime) -> Result<(), Fail> {
    let alloc = rt.alloc();
    let whole = undisturbed(&rt, alloc)?;
    for call in 0..whole.calls().len() as u64 {
        fail_and_start(&rt, alloc, call, &whole)?;
    }
    Ok(())
}
