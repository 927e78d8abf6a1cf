//! Runs that are stopped at each call, or of which each call fails, and started again.
use crate::ends::is_tree_fault;
use crate::roots::{BEFORE, ends, is_change, start, tree_of};
use file_tree::{Call, MemTree};
use std::alloc::Global;
use std::process::Abort;
use std::test::Fail;

/// A start that is stopped.
#[derive(Clone, Copy, Debug)]
pub(crate) struct Stop {
    /// How many jobs it has in flight.
    pub(crate) jobs: u8,
    /// After how many calls it is stopped.
    pub(crate) calls: usize,
    /// How many of the changes that aren't stored are kept, all where there are fewer.
    pub(crate) kept: u64,
}

/// Whether a start with so many jobs in flight ends as a tree fault.
fn faults(alloc: Global, tree: &mut MemTree, jobs: u8) -> Result<bool, Fail> {
    match start(alloc, tree, jobs)? {
        Ok(_) => Ok(false),
        Err(e) => Ok(is_tree_fault(&e)),
    }
}

/// How many calls a start with so many jobs in flight makes, which nothing disturbs.
fn calls_of(rt: &impl Abort, alloc: Global, tree: MemTree, jobs: u8) -> Result<usize, Fail> {
    let mut tree = tree;
    assert!(rt; ends(alloc, &mut tree, jobs)?, "{jobs} jobs");
    Ok(tree.calls().len())
}

/// What a start that is stopped leaves of a tree: each file that isn't stored holds `x`.
pub(crate) fn left_by(
    rt: &impl Abort,
    alloc: Global,
    tree: MemTree,
    stop: Stop,
) -> Result<MemTree, Fail> {
    let mut tree = tree;
    tree.stop_after(stop.calls as u64);
    assert!(rt; faults(alloc, &mut tree, stop.jobs)?, "{stop:?}");
    Ok(tree.stopped(stop.kept, b"x")?)
}

/// What a run is left as that is stopped.
fn begun_by(rt: &impl Abort, alloc: Global, stop: Stop) -> Result<MemTree, Fail> {
    left_by(rt, alloc, tree_of(alloc, BEFORE)?, stop)
}

/// How many changes the calls make behind the last settle among them.
pub(crate) fn unstored(calls: &[Call]) -> u64 {
    calls
        .iter()
        .rev()
        .take_while(|call| !call.is_settle())
        .filter(|call| is_change(call))
        .count() as u64
}

/// Stops a run after these calls, with each number of changes that are kept, and starts it again with `next` jobs in flight.
fn stop_behind(
    rt: &impl Abort,
    alloc: Global,
    jobs: u8,
    passed: &[Call],
    next: u8,
) -> Result<(), Fail> {
    let calls = passed.len();
    for kept in 0..=unstored(passed) {
        let stop = Stop { jobs, calls, kept };
        let mut left = begun_by(rt, alloc, stop)?;
        assert!(rt; ends(alloc, &mut left, next)?, "{stop:?}, then {next} jobs");
    }
    Ok(())
}

/// The same behind each call of the whole run.
fn stop_each(rt: &impl Abort, alloc: Global, jobs: u8, next: u8) -> Result<(), Fail> {
    let mut whole = tree_of(alloc, BEFORE)?;
    assert!(rt; ends(alloc, &mut whole, jobs)?, "{jobs} jobs");
    let calls = whole.calls();
    for passed in 0..calls.len() {
        stop_behind(rt, alloc, jobs, &calls[..passed], next)?;
    }
    Ok(())
}

/// How many jobs are in flight at the start that is stopped, and at the next one.
const STARTS: [(u8, u8); 3] = [(1, 64), (2, 1), (64, 2)];

#[test]
fn stopped_at_each_call_it_ends_at_its_next_start(rt: HostRuntime) -> Result<(), Fail> {
    for (jobs, next) in STARTS {
        stop_each(&rt, rt.alloc(), jobs, next)?;
    }
    Ok(())
}

/// Stops the second start of a run that was stopped before, after each sixth call, and starts it a third time.
fn stop_second(rt: &impl Abort, alloc: Global, first: Stop, kept: u64) -> Result<(), Fail> {
    let calls = calls_of(rt, alloc, begun_by(rt, alloc, first)?, 64)?;
    for calls in (0..calls).step_by(6) {
        let jobs = 64;
        let second = Stop { jobs, calls, kept };
        let mut left = left_by(rt, alloc, begun_by(rt, alloc, first)?, second)?;
        assert!(rt; ends(alloc, &mut left, 1)?, "{first:?}, then {second:?}");
    }
    Ok(())
}

/// How many changes are kept at the first stop and at the second.
const KEPT: [(u64, u64); 4] = [(0, 1), (2, 3), (3, 100), (100, 0)];

#[test]
fn stopped_twice_it_ends_with_its_third_start(rt: HostRuntime) -> Result<(), Fail> {
    let alloc = rt.alloc();
    let calls = calls_of(&rt, alloc, tree_of(alloc, BEFORE)?, 2)?;
    for calls in (0..calls).step_by(5) {
        for (kept, then) in KEPT {
            let jobs = 2;
            stop_second(&rt, alloc, Stop { jobs, calls, kept }, then)?;
        }
    }
    Ok(())
}

/// Whether a run of which this call fails ends as a tree fault, and a start with `next` jobs in flight brings it to its end.
fn is_mended(alloc: Global, jobs: u8, call: u64, next: u8) -> Result<bool, Fail> {
    let mut tree = tree_of(alloc, BEFORE)?;
    tree.fail_calls(vec![in alloc; call; 1]?);
    if !faults(alloc, &mut tree, jobs)? {
        return Ok(false);
    }
    ends(alloc, &mut tree, next)
}

/// Lets each call of a run fail in turn.
fn fail_each(rt: &impl Abort, alloc: Global, jobs: u8, next: u8) -> Result<(), Fail> {
    let calls = calls_of(rt, alloc, tree_of(alloc, BEFORE)?, jobs)?;
    for call in 0..calls as u64 {
        assert!(rt;
            is_mended(alloc, jobs, call, next)?,
            "{jobs} jobs, call {call}"
        );
    }
    Ok(())
}

#[test]
fn after_each_call_that_fails_the_next_start_ends(rt: HostRuntime) -> Result<(), Fail> {
    for (jobs, next) in STARTS {
        fail_each(&rt, rt.alloc(), jobs, next)?;
    }
    Ok(())
}
