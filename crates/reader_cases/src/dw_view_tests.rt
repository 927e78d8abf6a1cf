//! The records and the view of a file of a unit, its abbreviations and its texts.

use crate::files::{ABBREVIATIONS, TEXTS, UNIT, file_of};
use crate::records;
use dw_base::{DebugSection, Field, FileKind, Order};
use dw_view::View;
use std::test::Fail;

#[test]
fn sections_and_fields_are_those_of_the_file(rt: HostRuntime) -> Result<(), Fail> {
    let file = file_of(rt.alloc(), &[UNIT, ABBREVIATIONS, TEXTS])?;
    let elf = records(rt.alloc(), &file)?;
    assert_eq!(rt; (elf.kind, elf.machine, elf.names), (FileKind::Exec, 62, 4));
    let view = View::one(&elf)?;
    assert_eq!(rt; view.order(), Order::Little);
    assert_eq!(rt; view.first(DebugSection::Info), Some(1));
    assert_eq!(rt; view.first(DebugSection::Line), None);
    assert_eq!(rt; view.section(b".debug_str", 0), Some(3));
    assert!(rt; 1 < view.section_count());
    assert!(rt; view.bytes(1).len() == 20);
    assert_eq!(rt; view.field(1, 16, 4), Ok(Field::Num(13)));
    Ok(())
}
