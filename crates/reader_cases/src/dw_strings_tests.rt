//! Tables of texts that grow.

use dw_strings::Pool;
use std::test::Fail;

#[test]
fn each_new_text_is_appended_once_with_its_nul(rt: HostRuntime) -> Result<(), Fail> {
    let mut pool = Pool::new(rt.alloc(), b"/build/p/a.c\0/build/p\0")?;
    assert_eq!(rt; pool.add(b"/usr/src/debug/p/a.c")?, 22);
    assert_eq!(rt; pool.add(b"/usr/src/debug/p")?, 43);
    assert_eq!(rt; pool.add(b"/usr/src/debug/p/a.c")?, 22);
    let bytes = b"/build/p/a.c\0/build/p\0/usr/src/debug/p/a.c\0/usr/src/debug/p\0";
    assert_eq!(rt; pool.bytes(), bytes.as_slice());
    Ok(())
}
