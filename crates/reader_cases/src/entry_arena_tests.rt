//! The entries of units linked by their numbers.

ghost use Rattle.dw_entries.specs.ViewUnits.{IsUnitSection};

use crate::files::{Piece, Row, file_of};
use dw_abbrev::AbbrevTable;
use dw_base::{DebugSection, Fault};
use dw_entries::unit_headers;
use dw_view::View;
use elf_file::ElfFile;
use entry_arena::EntryArena;
use std::alloc::{AllocError, Global};
use std::process::Abort;
use std::test::Fail;

/// A unit whose root has two children, a and c; b stands below a.
const TREE: Row = (
    b".debug_info",
    &[
        Piece::Field("unit_length", 4, 13),
        Piece::Field("version", 2, 4),
        Piece::Field("debug_abbrev_offset", 4, 0),
        Piece::Field("address_size", 1, 8),
        Piece::Field("the root", 1, 1),
        Piece::Field("a", 1, 1),
        Piece::Field("b", 1, 2),
        Piece::Field("the end of a's children", 1, 0),
        Piece::Field("c", 1, 2),
        Piece::Field("the end of the root's children", 1, 0),
    ],
);

/// An entry with children, and one without, neither with attributes.
const BARE: Row = (
    b".debug_abbrev",
    &[
        Piece::Field("abbreviation code", 1, 1),
        Piece::Field("DW_TAG_compile_unit", 1, 0x11),
        Piece::Field("DW_CHILDREN_yes", 1, 1),
        Piece::Zeros(2),
        Piece::Field("abbreviation code", 1, 2),
        Piece::Field("DW_TAG_variable", 1, 0x34),
        Piece::Field("DW_CHILDREN_no", 1, 0),
        Piece::Zeros(3),
    ],
);

/// A node: its tag, and the numbers of its parent, its first child and its next sibling.
type Node = (u64, Option<u32>, Option<u32>, Option<u32>);

/// The arenas of the units of a section.
#[tactic(auto, using(dw_entries::proofs::CallerLaws::caller_laws))]
fn arenas_of(
    alloc: Global,
    view: &View,
    section: u32,
    abbrevs: &[u8],
) -> Result<Vec<EntryArena>, Fault>
    requires there { IsUnitSection view.now section }
{
    let mut arenas = Vec::new(alloc);
    let units = unit_headers(alloc, view, section)?;
    for unit in units.as_slice() {
        let table = AbbrevTable::read(alloc, 2, abbrevs, unit.abbrevs)?;
        arenas.push(EntryArena::read(alloc, view, unit, &table)?)?;
    }
    Ok(arenas)
}

/// The arenas of the units of the file.
#[tactic(auto, using(dw_entries::proofs::CallerLaws::caller_laws))]
fn arenas_in(rt: &impl Abort, alloc: Global) -> Result<Vec<EntryArena>, Fail> {
    let file = file_of(alloc, &[TREE, BARE])?;
    assert!(rt; file.len() <= 0x8000_0000);
    let elf = ElfFile::read(alloc, &file)?;
    let view = View::one(&elf)?;
    let info = view.first(DebugSection::Info).ok_or("no units")?;
    let abbrevs = view.first(DebugSection::Abbrev).ok_or("no abbreviations")?;
    Ok(arenas_of(alloc, &view, info, view.bytes(abbrevs))?)
}

/// The nodes of an arena, in the order of a walk.
fn nodes_of(alloc: Global, arena: &EntryArena) -> Result<Vec<Node>, AllocError> {
    let mut nodes = Vec::new(alloc);
    for number in arena.walk() {
        if number < arena.len() {
            let node = arena.node(number);
            nodes.push((node.tag, node.parent, node.first_child, node.next_sibling))?;
        }
    }
    Ok(nodes)
}

/// The depths of the steps of a walk.
fn depths_of(alloc: Global, arena: &EntryArena) -> Result<Vec<(u32, u32)>, AllocError> {
    let mut depths = Vec::new(alloc);
    for step in arena.steps() {
        depths.push((step.number, step.depth))?;
    }
    Ok(depths)
}

#[test]
fn nodes_are_linked_as_their_entries_stand(rt: HostRuntime) -> Result<(), Fail> {
    let arenas = arenas_in(&rt, rt.alloc())?;
    assert!(rt; arenas.len() == 1);
    let nodes = nodes_of(rt.alloc(), &arenas[0])?;
    assert_eq!(rt;
        nodes.as_slice(),
        [
            (0x11, None, Some(1), None),
            (0x11, Some(0), Some(2), Some(3)),
            (0x34, Some(1), None, None),
            (0x34, Some(0), None, None),
        ]
        .as_slice()
    );
    let depths = depths_of(rt.alloc(), &arenas[0])?;
    assert_eq!(rt;
        depths.as_slice(),
        [(0, 0), (1, 1), (2, 2), (3, 1)].as_slice()
    );
    assert_eq!(rt; arenas[0].number_of(15), Some(3));
    assert_eq!(rt; arenas[0].number_of(14), None);
    Ok(())
}
