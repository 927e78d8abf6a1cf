//! Gathers over a build root in memory: stopped at each call, or of which each call fails, and started again.
use crate::runs::{assert_ran, run};
use file_tree::{Blob, Call, MemTree, Node};
use std::alloc::Global;
use std::process::Abort;
use std::test::Fail;

/// The words of a gather with one copy in flight.
const ONE: &str = "gather r s --dest-dir /usr/src/debug/p";
/// With two.
const TWO: &str = "gather r s --dest-dir /usr/src/debug/p --jobs 2";
/// With as many as there may be.
const MOST: &str = "gather r s --dest-dir /usr/src/debug/p --jobs 64";

/// The report: two of the three listed names are files.
const REPORT: &str = "gathered 2, missing 1\n";

/// A root behind its run, and the folder of its sources: each file's path, mode and text.
const BEFORE: [(&str, u32, &str); 5] = [
    ("r/.dbgwork/finished", 0o644, "dbgfinished 2\0"),
    ("r/.dbgwork/sources", 0o644, "lib.c\0main.c\0sub/gone.h\0"),
    ("r/usr/bin/prog", 0o755, "#!"),
    ("s/lib.c", 0o644, "ll"),
    ("s/main.c", 0o600, "m"),
];

/// The same behind the gather.
const AFTER: [(&str, u32, &str); 11] = [
    ("r/.dbgsrc/debugfiles", 0o644, ""),
    (
        "r/.dbgsrc/finished",
        0o644,
        "dbgfinished 2\0/usr/src/debug/p\0/usr/src/debug/p\x000\0s\x000\x001073741824\x000\0gathered 2, missing 1\n\0",
    ),
    ("r/.dbgsrc/links", 0o644, ""),
    ("r/.dbgsrc/sources", 0o644, "lib.c\0main.c\0"),
    ("r/.dbgwork/finished", 0o644, "dbgfinished 2\0"),
    ("r/.dbgwork/sources", 0o644, "lib.c\0main.c\0sub/gone.h\0"),
    ("r/usr/bin/prog", 0o755, "#!"),
    ("r/usr/src/debug/p/lib.c", 0o644, "ll"),
    ("r/usr/src/debug/p/main.c", 0o644, "m"),
    ("s/lib.c", 0o644, "ll"),
    ("s/main.c", 0o600, "m"),
];

/// A tree of these files, all of it stored.
fn tree_of(alloc: Global, files: &[(&'static str, u32, &'static str)]) -> Result<MemTree, Fail> {
    let mut nodes = Vec::new(alloc);
    for (path, mode, text) in files {
        let bytes = Blob::from_slice(alloc, text.as_bytes())?;
        let mode = *mode;
        nodes.push((String::from_str(alloc, path)?, Node::File { bytes, mode }))?;
    }
    Ok(MemTree::new(alloc, nodes)?)
}

/// Whether a node is a file with this mode and text.
fn stands(node: &Node, wanted_mode: u32, text: &str) -> bool {
    match node {
        Node::File { bytes, mode } => *mode == wanted_mode && bytes.as_slice() == text.as_bytes(),
        Node::Link { .. } => false,
    }
}

/// Whether these files stand in a tree, and nothing else.
fn holds(tree: &MemTree, files: &[(&'static str, u32, &'static str)]) -> bool {
    let nodes = tree.nodes();
    if nodes.len() != files.len() {
        return false;
    }
    for i in 0..files.len() {
        if nodes[i].0.as_str() != files[i].0 || !stands(&nodes[i].1, files[i].1, files[i].2) {
            return false;
        }
    }
    true
}

/// Whether a start by these words gives the report, and leaves what stands behind the gather.
fn ends(alloc: Global, tree: &mut MemTree, line: &str) -> Result<bool, Fail> {
    let ran = run(alloc, line, tree)?;
    Ok(ran.status == 0 && ran.output.bytes() == REPORT.as_bytes() && holds(tree, &AFTER))
}

/// The tree behind a gather that nothing disturbs; it tells its calls.
fn whole_tree(rt: &impl Abort, alloc: Global, line: &str) -> Result<MemTree, Fail> {
    let mut tree = tree_of(alloc, &BEFORE)?;
    assert!(rt; ends(alloc, &mut tree, line)?, "{line}");
    Ok(tree)
}

/// What a gather leaves that is stopped after so many calls, where so many of the changes that aren't stored are kept: each file that
/// isn't stored holds `x`.
fn left_by(
    rt: &impl Abort,
    alloc: Global,
    line: &str,
    calls: usize,
    kept: u64,
) -> Result<MemTree, Fail> {
    let mut tree = tree_of(alloc, &BEFORE)?;
    tree.stop_after(calls as u64);
    let ran = run(alloc, line, &mut tree)?;
    assert_ran(rt, &ran, 6, "", "tree fault\n");
    Ok(tree.stopped(kept, b"x")?)
}

/// How many calls come behind the last settle among them: no fewer than the changes that aren't stored.
fn behind_the_last_settle(calls: &[Call]) -> u64 {
    calls
        .iter()
        .rev()
        .take_while(|call| !call.is_settle())
        .count() as u64
}

/// Stops a gather after these calls, with each number of changes that are kept, and starts it again by the words `next`.
fn stop_behind(
    rt: &impl Abort,
    alloc: Global,
    line: &str,
    passed: &[Call],
    next: &str,
) -> Result<(), Fail> {
    let calls = passed.len();
    for kept in 0..=behind_the_last_settle(passed) {
        let mut left = left_by(rt, alloc, line, calls, kept)?;
        assert!(rt;
            ends(alloc, &mut left, next)?,
            "{line}: {calls} calls, {kept} kept, then {next}"
        );
    }
    Ok(())
}

/// The same behind each call of the whole gather.
fn stop_each(rt: &impl Abort, alloc: Global, line: &str, next: &str) -> Result<(), Fail> {
    let whole = whole_tree(rt, alloc, line)?;
    let calls = whole.calls();
    for passed in 0..calls.len() {
        stop_behind(rt, alloc, line, &calls[..passed], next)?;
    }
    Ok(())
}

#[test]
fn stopped_at_each_call_it_ends_with_another_number_in_flight(rt: HostRuntime) -> Result<(), Fail> {
    let alloc = rt.alloc();
    stop_each(&rt, alloc, ONE, MOST)?;
    stop_each(&rt, alloc, TWO, ONE)?;
    stop_each(&rt, alloc, MOST, TWO)
}

#[test]
fn after_each_call_that_fails_the_next_start_ends(rt: HostRuntime) -> Result<(), Fail> {
    let alloc = rt.alloc();
    let calls = whole_tree(&rt, alloc, TWO)?.calls().len();
    for call in 0..calls as u64 {
        let mut tree = tree_of(alloc, &BEFORE)?;
        tree.fail_calls(vec![in alloc; call; 1]?);
        let ran = run(alloc, TWO, &mut tree)?;
        assert_ran(&rt, &ran, 6, "", "tree fault\n");
        assert!(rt; ends(alloc, &mut tree, MOST)?, "call {call}");
    }
    Ok(())
}
