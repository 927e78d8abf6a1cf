//! The text of a file, and runs that show it.
use crate::runs::{assert_ran, built_file, file_of, run_to, tree_with};
use dbg_show::show;
use dw_base::OUTPUT_LIMIT;
use dw_view::View;
use elf_file::ElfFile;
use file_tree::MemSink;
use std::test::Fail;

/// What is shown of the worked file.
const SHOWN: &str = "unit 0 .debug_info version 4 bits 32 address 8
entry 0 depth 0 tag 0x11
attr 0x3 text \"/build/p/a.c\"
attr 0x1b text \"/build/p\"
";

#[test]
fn a_unit_is_shown_with_its_entry_and_attributes(rt: HostRuntime) -> Result<(), Fail> {
    let file = built_file(rt.alloc())?;
    assert!(rt; file.len() as u64 <= OUTPUT_LIMIT);
    let elf = ElfFile::read(rt.alloc(), &file)?;
    let view = View::one(&elf)?;
    let mut out = MemSink::new(rt.alloc(), 1000, None)?;
    let answer = show(rt.alloc(), &view, &mut out);
    assert_eq!(rt; answer, Ok(()));
    assert_eq!(rt; out.bytes(), SHOWN.as_bytes());
    Ok(())
}

#[test]
fn an_output_that_fails_is_an_output_fault(rt: HostRuntime) -> Result<(), Fail> {
    let alloc = rt.alloc();
    let mut tree = tree_with(alloc, "in", file_of(built_file(alloc)?))?;
    let output = MemSink::new(alloc, 1000, Some(0))?;
    let ran = run_to(alloc, "show in", &mut tree, output)?;
    assert_ran(&rt, &ran, 7, "", "output fault\n");
    Ok(())
}
