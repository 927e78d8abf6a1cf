//! Maps of paths, and paths that are joined and cleaned.

use dw_paths::{Maps, clean_path, join_path, map_inline, map_len, map_path};
use std::test::Fail;

#[test]
fn a_path_at_or_below_the_longest_base_is_mapped(rt: HostRuntime) -> Result<(), Fail> {
    let alloc = rt.alloc();
    let mut maps = Maps::new(alloc, b"/build/p/", b"/usr/src/debug/p//")?.ok_or("no map")?;
    let mapped = map_path(alloc, &maps, b"/build/pq/a.c")?;
    assert_eq!(rt; mapped.as_slice(), b"/build/pq/a.c".as_slice());
    let mapped = map_path(alloc, &maps, b"/build/p")?;
    assert_eq!(rt; mapped.as_slice(), b"/usr/src/debug/p".as_slice());
    let mapped = map_path(alloc, &maps, b"/build/p//x")?;
    assert_eq!(rt; mapped.as_slice(), b"/usr/src/debug/p//x".as_slice());
    assert!(rt; maps.add(alloc, b"/build/p/gen/", b"/g")?);
    assert_eq!(rt; map_len(&maps, b"/build/p/gen/x.c"), 6);
    Ok(())
}

#[test]
fn a_path_fills_its_room_and_one_is_joined_and_cleaned(rt: HostRuntime) -> Result<(), Fail> {
    let alloc = rt.alloc();
    let maps = Maps::new(alloc, b"/build/package-1.0", b"/usr/src/debug")?.ok_or("no map")?;
    let kept = map_inline(alloc, &maps, b"/build/package-1.0/a.c")?.ok_or("it fits")?;
    assert_eq!(rt; kept.as_slice(), b"/usr/src/debug/////a.c".as_slice());
    let joined = join_path(alloc, b"/build/p", b"../p/inc")?;
    assert_eq!(rt; joined.as_slice(), b"/build/p/../p/inc".as_slice());
    let cleaned = clean_path(alloc, b"/build/p/../p/inc/./x.h")?;
    assert_eq!(rt; cleaned.as_slice(), b"/build/p/inc/x.h".as_slice());
    Ok(())
}
