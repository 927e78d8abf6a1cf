//! Starts over a root whose run version 1 ended: the finished text becomes one of version 2, and a stop leaves the one or the other.
use crate::roots::{Is, ends, old_tree};
use crate::stops::{Stop, left_by, unstored};
use file_tree::Call;
use std::alloc::Global;
use std::process::Abort;
use std::test::Fail;

/// What version 1 left of its work folder: nothing; commit marks of two jobs; these, and a part of a text that a start put since then.
const LEFT: [&[(&str, Is)]; 3] = [
    &[],
    &[
        ("r/.dbgwork/c.0", Is::File(0o644, b"")),
        ("r/.dbgwork/c.3", Is::File(0o644, b"x")),
    ],
    &[
        ("r/.dbgwork/c.0", Is::File(0o644, b"")),
        (
            "r/.dbgwork/finished.new",
            Is::File(0o644, b"dbgfinished 2\0/b"),
        ),
    ],
];

/// Stops such a start after these calls, with each number of changes that are kept, and starts it again.
fn stop_behind(
    rt: &impl Abort,
    alloc: Global,
    left: &[(&'static str, Is)],
    passed: &[Call],
) -> Result<(), Fail> {
    let calls = passed.len();
    for kept in 0..=unstored(passed) {
        let stop = Stop {
            jobs: 2,
            calls,
            kept,
        };
        let mut tree = left_by(rt, alloc, old_tree(alloc, left)?, stop)?;
        assert!(rt; ends(alloc, &mut tree, 1)?, "{stop:?}");
    }
    Ok(())
}

#[test]
fn stopped_at_each_call_it_gets_it_at_its_next_start(rt: HostRuntime) -> Result<(), Fail> {
    let alloc = rt.alloc();
    for left in LEFT {
        let mut whole = old_tree(alloc, left)?;
        assert!(rt; ends(alloc, &mut whole, 2)?);
        let calls = whole.calls();
        for passed in 0..calls.len() {
            stop_behind(&rt, alloc, left, &calls[..passed])?;
        }
    }
    Ok(())
}
