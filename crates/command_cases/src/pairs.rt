//! The worked file, split and joined again. The sums of the two files are those of another program.
use crate::runs::built_file;
use dbg_split::split;
use dbg_unstrip::{UnstripErr, unstrip};
use debug_link::crc32;
use dw_base::OUTPUT_LIMIT;
use elf_file::ElfFile;
use std::alloc::Global;
use std::test::Fail;

/// The file of a stripped file and a debug file; no memory where one of them is longer than any that is written.
fn rejoined(alloc: Global, stripped: &[u8], debug: &[u8]) -> Result<Vec<u8>, UnstripErr> {
    if stripped.len() as u64 > OUTPUT_LIMIT {
        return Err(UnstripErr::NoMemory);
    }
    if debug.len() as u64 > OUTPUT_LIMIT {
        return Err(UnstripErr::NoMemory);
    }
    let stripped = ElfFile::read(alloc, stripped)?;
    let debug = ElfFile::read_debug(alloc, debug)?;
    let file = unstrip(alloc, &stripped, &debug, b"a.debug")?;
    let Ok(bytes) = file.joined(alloc) else {
        return Err(UnstripErr::NoMemory);
    };
    Ok(bytes)
}

#[test]
fn a_file_is_split_and_joined_again(rt: HostRuntime) -> Result<(), Fail> {
    let alloc = rt.alloc();
    let file = built_file(alloc)?;
    assert!(rt; file.len() as u64 <= OUTPUT_LIMIT);
    let pair = split(alloc, &file, b"a.debug")?;
    let debug = pair.debug.joined(alloc)?;
    assert_eq!(rt; crc32(pair.stripped.as_slice()), 77_528_912);
    assert_eq!(rt; crc32(debug.as_slice()), 2_178_367_710);
    match rejoined(alloc, &pair.stripped, &debug) {
        Ok(whole) => assert_eq!(rt; whole.as_slice(), file.as_slice()),
        Err(_) => return Err("refused".into()),
    }
    Ok(())
}
