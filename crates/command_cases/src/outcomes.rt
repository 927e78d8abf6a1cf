//! What becomes of a file of a build root. The sums are another program's.
use crate::become_of;
use crate::runs::built_file;
use dbg_job::{LeftWhy, Options, Outcome};
use debug_link::crc32;
use dw_paths::Maps;
use file_tree::Blob;
use job_types::MOST_FILE;
use std::alloc::Global;
use std::test::Fail;

/// The options of a run.
pub(crate) fn options(alloc: Global) -> Result<Options, Fail> {
    let maps = Maps::new(alloc, b"/build/p", b"/usr/src/debug/p")?.ok_or("no map")?;
    Ok(Options {
        maps,
        build_id: false,
        seed: Blob::new(Vec::new(alloc)),
        skip: false,
        max_file: MOST_FILE,
        grow_inline: false,
    })
}

#[test]
fn a_file_is_left_or_edited_and_split(rt: HostRuntime) -> Result<(), Fail> {
    let alloc = rt.alloc();
    let options = options(alloc)?;
    let outcome = become_of(alloc, &[], &options, b"a.debug")?;
    assert!(rt; matches!(&outcome, Outcome::Left(LeftWhy::NoElf)));
    let bytes = built_file(alloc)?;
    let outcome = become_of(alloc, &bytes, &options, b"a.debug")?;
    match &outcome {
        Outcome::Split {
            stripped,
            debug,
            id: None,
            sources,
        } => {
            assert_eq!(rt; crc32(stripped.as_slice()), 3_423_825_656);
            assert_eq!(rt; crc32(debug.as_slice()), 1_196_103_759);
            assert_eq!(rt; sources.as_slice().len(), 1);
        }
        _ => assert!(rt; false, "it is split"),
    }
    Ok(())
}
