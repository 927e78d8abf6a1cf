//! A macro unit and its events.

ghost use Rattle.std.specs.Prelude.{◌<◌, length};

use crate::files::{Piece, Row, TEXTS, file_of};
use dw_base::{DebugSection, TextPlace};
use dw_macros::{MacroEvent, MacroEvents, macro_units};
use dw_view::View;
use elf_file::ElfFile;
use std::test::Fail;

/// A unit of version 5 of the files of a line table: a file, in which a text of `.debug_str` is defined (DWARF 5, 6.3).
const UNIT: Row = (
    b".debug_macro",
    &[
        Piece::Field("version", 2, 5),
        Piece::Field("flags", 1, 2),
        Piece::Field("debug_line_offset", 4, 67),
        Piece::Field("DW_MACRO_start_file", 1, 3),
        Piece::Field("line", 1, 0),
        Piece::Field("file", 1, 1),
        Piece::Field("DW_MACRO_define_strp", 1, 5),
        Piece::Field("line", 1, 1),
        Piece::Field("text", 4, 13),
        Piece::Field("DW_MACRO_end_file", 1, 4),
        Piece::Zeros(1),
    ],
);

#[test]
#[tactic(auto, using(dw_macros::proofs::CallerLaws::caller_laws))]
fn a_unit_and_its_events_are_those_that_stand_there(rt: HostRuntime) -> Result<(), Fail> {
    let file = file_of(rt.alloc(), &[TEXTS, UNIT])?;
    assert!(rt; file.len() <= 0x8000_0000);
    let elf = ElfFile::read(rt.alloc(), &file)?;
    let view = View::one(&elf)?;
    let section = view.first(DebugSection::Macro).ok_or("no macro units")?;
    let units = macro_units(rt.alloc(), &view, section)?;
    assert!(rt; units.len() == 1);
    let unit = &units[0];
    assert_eq!(rt; (unit.start, unit.end, unit.version), (0, 18, 5));
    assert_eq!(rt; unit.line, Some(67));
    let mut events = MacroEvents::new(&view, unit);
    let start = MacroEvent::StartFile { line: 0, file: 1 };
    assert_eq!(rt; events.next(), Some(start));
    let text = TextPlace {
        section: 1,
        at: 13,
        len: 8,
        field: 12,
    };
    assert_eq!(rt; events.next(), Some(MacroEvent::Define { line: 1, text }));
    assert_eq!(rt; events.next(), Some(MacroEvent::EndFile));
    assert_eq!(rt; events.next(), None);
    Ok(())
}
