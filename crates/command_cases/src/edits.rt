//! The worked file, rewritten and edited by calls.
use crate::outcomes::options;
use crate::runs::{built_file, installed_file};
use dbg_job::edited;
use dw_base::OUTPUT_LIMIT;
use dw_rewrite::rewrite;
use std::test::Fail;

#[test]
fn a_file_is_rewritten_and_edited_with_its_paths_mapped(rt: HostRuntime) -> Result<(), Fail> {
    let alloc = rt.alloc();
    let options = options(alloc)?;
    let file = built_file(alloc)?;
    assert!(rt; file.len() as u64 <= OUTPUT_LIMIT);
    let wanted = installed_file(alloc)?;
    let out = rewrite(alloc, &file, &options.maps)?;
    let bytes = out.file.joined(alloc)?;
    assert_eq!(rt; bytes.as_slice(), wanted.as_slice());
    let out = edited(alloc, &file, &options)?;
    let bytes = out.file.joined(alloc)?;
    assert_eq!(rt; bytes.as_slice(), wanted.as_slice());
    Ok(())
}
