//! Tables of abbreviations.

use dw_abbrev::{AbbrevTable, tables_at};
use std::test::Fail;

/// A compilation unit with children, of a name by `DW_FORM_strp` and a language by `DW_FORM_implicit_const` -2; code 0x4000, of
/// three bytes, for a variable without children and attributes.
const TABLE: &[u8] = b"\x01\x11\x01\x03\x0e\x13\x21\x7e\0\0\x80\x80\x01\x34\0\0\0\0";

#[test]
fn tables_have_what_their_bytes_spell(rt: HostRuntime) -> Result<(), Fail> {
    let table = AbbrevTable::read(rt.alloc(), 3, TABLE, 0)?;
    assert!(rt; table.len() == 2);
    let unit = table.abbrev(0);
    assert_eq!(rt; (unit.code, unit.tag, unit.children), (1, 0x11, true));
    assert_eq!(rt; unit.specs.len(), 2);
    // the second abbreviation stands at 10
    let tables = tables_at(rt.alloc(), TABLE, &[0, 10])?;
    assert!(rt; tables.len() == 2);
    let later = tables[1].table.get(0x4000).ok_or("no code")?;
    assert_eq!(rt; later.tag, 0x34);
    Ok(())
}
