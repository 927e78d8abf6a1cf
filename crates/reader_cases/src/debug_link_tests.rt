//! A sum of bytes against that of zlib, and links that are written and read back.

use debug_link::{Order, crc32, link_bytes, read_link};
use std::test::Fail;

#[test]
fn links_are_written_and_read_back(rt: HostRuntime) -> Result<(), Fail> {
    // the check value of ITU-T V.42
    let sum = crc32(b"123456789");
    assert_eq!(rt; sum, 0xcbf4_3926);
    let little = link_bytes(rt.alloc(), Order::Little, b"abc", sum)?;
    assert_eq!(rt; little.as_slice(), b"abc\0\x26\x39\xf4\xcb".as_slice());
    let found = read_link(Order::Little, &little);
    assert_eq!(rt; found, Some((b"abc".as_slice(), sum)));
    let big = link_bytes(rt.alloc(), Order::Big, b"abcd", sum)?;
    assert_eq!(rt; big.as_slice(), b"abcd\0\0\0\0\xcb\xf4\x39\x26".as_slice());
    let found = read_link(Order::Big, &big);
    assert_eq!(rt; found, Some((b"abcd".as_slice(), sum)));
    Ok(())
}
