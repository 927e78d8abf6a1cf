//! What is seen of a pair of a stripped file and a debug file.

use crate::files::{Piece, Row, TEXTS, file_of};
use dw_base::DebugSection;
use dw_view::View;
use elf_file::ElfFile;
use std::test::Fail;

/// A link to `a.debug`, with the sum of the file of the texts alone by zlib.
const LINK: Row = (
    b".gnu_debuglink",
    &[
        Piece::Text(b"a.debug"),
        Piece::Field("the sum", 4, 0x4dee_3a26),
    ],
);

#[test]
#[tactic(auto, using(dw_view::proofs::ViewLaws::view_laws))]
fn a_section_of_a_pair_has_the_bytes_of_the_debug_file(rt: HostRuntime) -> Result<(), Fail> {
    let debug = file_of(rt.alloc(), &[TEXTS])?;
    let stripped = file_of(rt.alloc(), &[LINK])?;
    assert!(rt; stripped.len() <= 0x8000_0000);
    assert!(rt; debug.len() <= 0x8000_0000);
    let stripped = ElfFile::read(rt.alloc(), &stripped)?;
    let debug = ElfFile::read_debug(rt.alloc(), &debug)?;
    let view = View::pair(&stripped, &debug, b"a.debug").map_err(|_| "no pair")?;
    assert_eq!(rt; view.first(DebugSection::Str), Some(1));
    assert!(rt; debug.section_count() > 1);
    assert_eq!(rt; view.bytes(1), b"/build/p/a.c\0/build/p\0".as_slice());
    Ok(())
}
