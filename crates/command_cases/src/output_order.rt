//! The order in which a command puts its outputs: what a stop between the two leaves is the first alone.
use crate::runs::{assert_ran, built_file, file_of, run, tree_with};
use file_tree::Call;
use std::alloc::Global;
use std::process::Abort;
use std::test::Fail;

/// The words of an edit with a list, whose path comes before the output's in byte order.
const LISTED: &str = "edit in out --base-dir /build/p --dest-dir /usr/src/debug/p --list-file list";

/// Asserts that a run over the worked file looks three times, and that then these two paths are put and all is stored.
fn assert_order(
    rt: &impl Abort,
    alloc: Global,
    line: &str,
    first: &str,
    second: &str,
) -> Result<(), Fail> {
    let mut tree = tree_with(alloc, "in", file_of(built_file(alloc)?))?;
    let ran = run(alloc, line, &mut tree)?;
    assert_ran(rt, &ran, 0, "", "");
    match tree.calls() {
        [
            Call::Read(_),
            Call::Read(_),
            Call::Read(_),
            Call::Put(one),
            Call::Put(two),
            Call::Settle,
        ] => {
            assert_eq!(rt; one.as_str(), first);
            assert_eq!(rt; two.as_str(), second);
        }
        _ => assert!(rt; false, "three looks, two puts and a settle"),
    }
    Ok(())
}

#[test]
fn the_output_is_put_before_the_list_and_the_debug_file_before_the_stripped_file(
    rt: HostRuntime,
) -> Result<(), Fail> {
    assert_order(&rt, rt.alloc(), LISTED, "out", "list")?;
    assert_order(&rt, rt.alloc(), "split in out a.debug", "a.debug", "out")
}
