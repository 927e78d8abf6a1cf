//! Runs that aren't stopped: how often they settle, and a root of too many paths.
use crate::roots::{Is, start, tree_of};
use file_tree::{Blob, Call, MemTree, Node};
use root_plan::PlanErr;
use root_run::RunErr;
use std::alloc::Global;
use std::test::Fail;

/// A root with five files that are split.
const FIVE: &[(&str, Is)] = &[
    ("r/a", Is::File(0o755, b"Sa")),
    ("r/b", Is::File(0o755, b"Sb")),
    ("r/c", Is::File(0o755, b"Sc")),
    ("r/d", Is::File(0o755, b"Sd")),
    ("r/e", Is::File(0o755, b"Se")),
];

/// How often a run over the five files settles, where it comes to its end.
fn settles_of(alloc: Global, jobs: u8) -> Result<Option<u64>, Fail> {
    let mut tree = tree_of(alloc, FIVE)?;
    match start(alloc, &mut tree, jobs)? {
        Ok(_) => Ok(Some(tree.settle_count())),
        Err(_) => Ok(None),
    }
}

/// How often it is to settle, by how many jobs are in flight.
const SETTLES: [(u8, u64); 4] = [(1, 9), (2, 7), (3, 6), (8, 5)];

#[test]
fn five_files_share_their_settles(rt: HostRuntime) -> Result<(), Fail> {
    let alloc = rt.alloc();
    for (jobs, settles) in SETTLES {
        assert_eq!(rt; settles_of(alloc, jobs)?, Some(settles), "{jobs} jobs");
    }
    Ok(())
}

/// A tree of so many texts below `r`; it takes its nodes from the end, and so they are given in falling order.
fn tree_of_texts(alloc: Global, count: u32) -> Result<MemTree, Fail> {
    let mut nodes = Vec::new(alloc);
    for i in (0..count).rev() {
        let path = format!(in alloc; "r/{i:06}")?;
        let bytes = Blob::from_slice(alloc, b"#!")?;
        nodes.push((path, Node::File { bytes, mode: 0o644 }))?;
    }
    Ok(MemTree::new(alloc, nodes)?)
}

/// Whether a start finds too many paths, by a list of the root alone.
fn has_too_many(alloc: Global, tree: &mut MemTree) -> Result<bool, Fail> {
    let answer = start(alloc, tree, 64)?;
    let has_listed = matches!(tree.calls(), [Call::Settle, Call::List(_)]);
    Ok(has_listed && matches!(&answer, Err(RunErr::Plan(PlanErr::Entries))))
}

#[test]
fn a_root_of_too_many_paths_is_listed_and_left(rt: HostRuntime) -> Result<(), Fail> {
    let alloc = rt.alloc();
    let mut tree = tree_of_texts(alloc, 200_001)?;
    assert!(rt; has_too_many(alloc, &mut tree)?);
    assert_eq!(rt; tree.nodes().len(), 200_001);
    Ok(())
}
