//! Each call of the texts of the work folder once, against bytes that were written by hand from the rules.
use std::test::Fail;
use work_texts::{check_key, read_finished, read_plan, write_finished, write_plan};

/// A plan with one job that is edited and one that is split.
const PLAN: &[u8] =
    b"dbgplan 2\0/b\0/d\x001\0s\x000\x0099\x001\0/c\0/d\0done\x002\0E\0a\0a9993e364706816aba3e25717850c26c9cd0d89d\0\x000\0S\0b\0da39a3ee5e6b4b0d3255bfef95601890afd80709\x0000ff\x003\x001\0a.c\0end\0";

/// The end of its run.
const FINISHED: &[u8] = b"dbgfinished 2\0/b\0/d\x001\0s\x000\x0099\x001\0/c\0/d\0done\0";

#[test]
fn a_plan_and_its_end_are_read_and_written(rt: HostRuntime) -> Result<(), Fail> {
    let alloc = rt.alloc();
    let plan = read_plan(alloc, PLAN)?;
    assert_eq!(rt; write_plan(alloc, &plan)?.as_slice(), PLAN);
    let end = write_finished(alloc, &plan.key, plan.report.as_slice())?;
    assert_eq!(rt; end.as_slice(), FINISHED);
    let done = read_finished(alloc, FINISHED)?;
    assert!(rt; check_key(alloc, &done.key, &plan.key).is_ok());
    Ok(())
}
