//! A build-id that is printed.

use build_ident::id_text;
use std::test::Fail;

#[test]
fn an_id_is_printed_in_hexadecimal(rt: HostRuntime) -> Result<(), Fail> {
    let digits = id_text(rt.alloc(), &[0xab, 0xcd, 0xef, 0x01, 0x23])?;
    assert_eq!(rt; digits.as_str(), "abcdef0123");
    Ok(())
}
