//! Build roots in memory, and what a run makes of them.
use dw_paths::Maps;
use file_tree::{Blob, Call, MemTree, Node, Text};
use job_types::Options;
use plan_cases::Toy;
use root_run::{RunErr, run_root};
use std::alloc::{AllocError, Global};
use std::test::Fail;

/// What stands at a path.
#[derive(Clone, Copy)]
pub(crate) enum Is {
    /// A file with this mode and these bytes.
    File(u32, &'static [u8]),
    /// A link that leads here.
    Link(&'static str),
}

/// A root with three files that are split, two of them with one build-id, one that is edited, one that is left, and a link.
pub(crate) const BEFORE: &[(&str, Is)] = &[
    ("r/usr/bin/a", Is::File(0o755, b"Sx\x01")),
    ("r/usr/bin/b", Is::File(0o755, b"Sx\x01")),
    ("r/usr/bin/script", Is::File(0o755, b"#!")),
    ("r/usr/lib/libc.so", Is::Link("libc.so.6")),
    ("r/usr/lib/libc.so.6", Is::File(0o644, b"Sy")),
    ("r/usr/lib/mod.o", Is::File(0o600, b"Ez")),
];

/// What stands there after the run.
const AFTER: &[(&str, Is)] = &[
    (
        "r/.dbgwork/debugfiles",
        Is::File(
            0o644,
            b"/usr/lib/debug/usr/bin/a.debug\0/usr/lib/debug/usr/bin/b.debug\0/usr/lib/debug/usr/lib/libc.so.6.debug\0",
        ),
    ),
    (
        "r/.dbgwork/finished",
        Is::File(
            0o644,
            b"dbgfinished 2\0/build/p\0/usr/src/debug/p\x000\0\x000\x0010\x000\0split 3, edited 1, left 1, skipped 0, links 4, sources 3\n\0",
        ),
    ),
    (
        "r/.dbgwork/links",
        Is::File(
            0o644,
            b"/usr/lib/debug/.build-id/ab/01\0../../../../../usr/bin/a\0/usr/lib/debug/.build-id/ab/01.debug\0../../../../../usr/lib/debug/usr/bin/a.debug\0/usr/lib/debug/.build-id/ab/01.1\0../../../../../usr/bin/b\0/usr/lib/debug/.build-id/ab/01.1.debug\0../../../../../usr/lib/debug/usr/bin/b.debug\0",
        ),
    ),
    ("r/.dbgwork/sources", Is::File(0o644, b"x\0y\0z\0")),
    ("r/usr/bin/a", Is::File(0o755, b"Sx\x01es")),
    ("r/usr/bin/b", Is::File(0o755, b"Sx\x01es")),
    ("r/usr/bin/script", Is::File(0o755, b"#!")),
    (
        "r/usr/lib/debug/.build-id/ab/01",
        Is::Link("../../../../../usr/bin/a"),
    ),
    (
        "r/usr/lib/debug/.build-id/ab/01.1",
        Is::Link("../../../../../usr/bin/b"),
    ),
    (
        "r/usr/lib/debug/.build-id/ab/01.1.debug",
        Is::Link("../../../../../usr/lib/debug/usr/bin/b.debug"),
    ),
    (
        "r/usr/lib/debug/.build-id/ab/01.debug",
        Is::Link("../../../../../usr/lib/debug/usr/bin/a.debug"),
    ),
    (
        "r/usr/lib/debug/usr/bin/a.debug",
        Is::File(0o644, b"Sx\x01ea.debug"),
    ),
    (
        "r/usr/lib/debug/usr/bin/b.debug",
        Is::File(0o644, b"Sx\x01eb.debug"),
    ),
    (
        "r/usr/lib/debug/usr/lib/libc.so.6.debug",
        Is::File(0o644, b"Syelibc.so.6.debug"),
    ),
    ("r/usr/lib/libc.so", Is::Link("libc.so.6")),
    ("r/usr/lib/libc.so.6", Is::File(0o644, b"Syes")),
    ("r/usr/lib/mod.o", Is::File(0o600, b"Eze")),
];

/// The report of the run.
const REPORT: &[u8] = b"split 3, edited 1, left 1, skipped 0, links 4, sources 3\n";

/// The node that stands so.
fn node_of(alloc: Global, is: Is) -> Result<Node, AllocError> {
    match is {
        Is::File(mode, bytes) => {
            let bytes = Blob::from_slice(alloc, bytes)?;
            Ok(Node::File { bytes, mode })
        }
        Is::Link(target) => {
            let target = Text::copy_of(alloc, target)?;
            Ok(Node::Link { target })
        }
    }
}

/// A tree in which this stands, all of it stored.
pub(crate) fn tree_of(alloc: Global, table: &[(&'static str, Is)]) -> Result<MemTree, Fail> {
    let mut nodes = Vec::new(alloc);
    for (path, is) in table {
        let path = String::from_str(alloc, path)?;
        nodes.push((path, node_of(alloc, *is)?))?;
    }
    Ok(MemTree::new(alloc, nodes)?)
}

/// The finished text of the small root, as version 1 wrote it.
const OLD_END: &[u8] =
    b"dbgfinished 1\0/build/p\0/usr/src/debug/p\x000\0\x000\x0010\0split 3, edited 1, left 1, skipped 0, links 4, sources 3\n\0";

/// What stands at a path of the small root once version 1 ended its run.
fn by_version_1(path: &str, is: Is) -> Is {
    if path == "r/.dbgwork/finished" {
        return Is::File(0o644, OLD_END);
    }
    is
}

/// The small root as version 1 left it, with all this of its work folder that isn't cleared.
pub(crate) fn old_tree(alloc: Global, left: &[(&'static str, Is)]) -> Result<MemTree, Fail> {
    let mut nodes = Vec::new(alloc);
    for (path, is) in AFTER {
        let name = String::from_str(alloc, path)?;
        nodes.push((name, node_of(alloc, by_version_1(path, *is))?))?;
    }
    for (path, is) in left {
        let name = String::from_str(alloc, path)?;
        nodes.push((name, node_of(alloc, *is)?))?;
    }
    Ok(MemTree::new(alloc, nodes)?)
}

/// Whether a node stands so.
fn stands(node: &Node, is: Is) -> bool {
    match (node, is) {
        (Node::File { bytes, mode }, Is::File(wanted_mode, wanted)) => {
            *mode == wanted_mode && bytes.as_slice() == wanted
        }
        (Node::Link { target }, Is::Link(wanted)) => target.as_str() == wanted,
        _ => false,
    }
}

/// Whether this stands in a tree, and nothing else.
fn holds(tree: &MemTree, table: &[(&'static str, Is)]) -> bool {
    let nodes = tree.nodes();
    if nodes.len() != table.len() {
        return false;
    }
    for i in 0..table.len() {
        if nodes[i].0.as_str() != table[i].0 || !stands(&nodes[i].1, table[i].1) {
            return false;
        }
    }
    true
}

/// The options of a run that reads files of at most ten bytes.
fn options(alloc: Global) -> Result<Options, Fail> {
    let maps = Maps::new(alloc, b"/build/p", b"/usr/src/debug/p")?.ok_or("no map")?;
    let seed = Blob::new(Vec::new(alloc));
    Ok(Options {
        maps,
        build_id: false,
        seed,
        skip: false,
        max_file: 10,
        grow_inline: false,
    })
}

/// What a start with so many jobs in flight, 1 to 64, answers.
pub(crate) fn start(
    alloc: Global,
    tree: &mut MemTree,
    jobs: u8,
) -> Result<Result<Blob, RunErr>, Fail> {
    if jobs == 0 || 64 < jobs {
        return Err(Fail::from("not 1 to 64 jobs"));
    }
    let options = options(alloc)?;
    Ok(run_root(alloc, tree, "r", &options, Toy {}, jobs))
}

/// Whether a start with so many jobs in flight gives the report, and leaves what stands after the run.
pub(crate) fn ends(alloc: Global, tree: &mut MemTree, jobs: u8) -> Result<bool, Fail> {
    match start(alloc, tree, jobs)? {
        Ok(report) => Ok(report.as_slice() == REPORT && holds(tree, AFTER)),
        Err(_) => Ok(false),
    }
}

/// Whether a call changes the tree.
pub(crate) fn is_change(call: &Call) -> bool {
    match call {
        Call::Put(_) | Call::Rename { from: _, to: _ } | Call::Remove(_) => true,
        Call::List(_) | Call::Read(_) | Call::Settle => false,
    }
}
