//! Texts, with a map applied and compared; and bytes of which some are left out.

ghost use Rattle.std.specs.Prelude.{◌<◌};
ghost use Rattle.dbg_check.specs.Images.{AreSmall};

use crate::holes::{Hole, Holes, same_bytes};
use crate::paths::{is_mapped, is_mapped_inline};
use dw_paths::Maps;
use std::test::Fail;

#[test]
fn a_mapped_path_is_told_from_others(rt: HostRuntime) -> Result<(), Fail> {
    let maps = Maps::new(rt.alloc(), b"/build/p", b"/usr/src/debug/p")?.ok_or("no map")?;
    assert!(rt; is_mapped(&maps, b"/build/p/a.c", b"/usr/src/debug/p/a.c"));
    assert!(rt; !is_mapped(&maps, b"/build/p/a.c", b"/usr/src/debug/p/a.h"));
    assert!(rt; !is_mapped(&maps, b"/build/p/a.c", b"/usr/src/debug/p/a.cc"));
    assert!(rt; !is_mapped(&maps, b"/build/p/a.c", b"/build/p/a.c"));
    assert!(rt; !is_mapped(&maps, b"/build/p/a.c", b"/usr"));
    Ok(())
}

#[test]
fn a_path_below_no_base_stays(rt: HostRuntime) -> Result<(), Fail> {
    let maps = Maps::new(rt.alloc(), b"/build/p", b"/usr/src/debug/p")?.ok_or("no map")?;
    assert!(rt; is_mapped(&maps, b"/build/pq/a.c", b"/build/pq/a.c"));
    assert!(rt; is_mapped_inline(&maps, b"a.c", b"a.c"));
    assert!(rt; !is_mapped_inline(&maps, b"a.c", b"a.h"));
    Ok(())
}

#[test]
fn a_path_in_its_room_has_slashes_behind_the_destination(rt: HostRuntime) -> Result<(), Fail> {
    let maps = Maps::new(rt.alloc(), b"/build/p", b"/d")?.ok_or("no map")?;
    assert!(rt; is_mapped_inline(&maps, b"/build/p/a.c", b"/d///////a.c"));
    assert!(rt; !is_mapped_inline(&maps, b"/build/p/a.c", b"/d/a.c"));
    assert!(rt; !is_mapped_inline(&maps, b"/build/p/a.c", b"/d//.////a.c"));
    Ok(())
}

#[test]
fn a_path_that_grows_fits_no_room(rt: HostRuntime) -> Result<(), Fail> {
    let maps = Maps::new(rt.alloc(), b"/b", b"/long")?.ok_or("no map")?;
    assert!(rt; !is_mapped_inline(&maps, b"/b/a.c", b"/long/a.c"));
    assert!(rt; !is_mapped_inline(&maps, b"/b/a.c", b"/b/a.c"));
    Ok(())
}

/// Two bytes from the places 2, 4 and 6, and one from a place.
fn holes_with(id: u64) -> Holes
    requires small { id < 100 }
    ensures small { AreSmall result }
{
    Holes {
        shoff: Hole { at: 2, len: 2 },
        shnum: Hole { at: 4, len: 2 },
        shstrndx: Hole { at: 6, len: 2 },
        id: Hole { at: id, len: 1 },
    }
}

#[test]
fn bytes_that_are_left_out_of_both_may_differ(rt: HostRuntime) -> Result<(), Fail> {
    let holes = holes_with(9);
    assert!(rt; same_bytes(b"ab......c.", b"ab????!!c?", &holes, &holes, 0, 10));
    assert!(rt; !same_bytes(b"ab......c.", b"aX......c.", &holes, &holes, 0, 10));
    assert!(rt; !same_bytes(b"ab......c.", b"ab......X.", &holes, &holes, 0, 10));
    assert!(rt; same_bytes(b"ab......c.", b"aX......X.", &holes, &holes, 2, 8));
    Ok(())
}

#[test]
fn bytes_that_are_left_out_of_one_differ(rt: HostRuntime) -> Result<(), Fail> {
    let (holes, others) = (holes_with(9), holes_with(8));
    assert!(rt; !same_bytes(b"ab......cd", b"ab......cd", &holes, &others, 0, 10));
    assert!(rt; same_bytes(b"ab......cd", b"ab......cd", &holes, &others, 0, 8));
    Ok(())
}
