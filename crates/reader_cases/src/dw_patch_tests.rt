//! Fields of a made file that get new places, and one whose new place is too large.

use crate::files::{ABBREVIATIONS, TEXTS, UNIT, file_of};
use dw_base::{DebugSection, Fault, Kind, Refusal};
use dw_patch::{NewPlace, Patches};
use dw_view::View;
use elf_file::ElfFile;
use std::test::Fail;

#[test]
#[tactic(auto, using(dw_patch::proofs::PatchLaws::free_laws))]
fn fields_that_were_set_get_their_new_places(rt: HostRuntime) -> Result<(), Fail> {
    let file = file_of(rt.alloc(), &[UNIT, ABBREVIATIONS, TEXTS])?;
    assert!(rt; file.len() <= 0x8000_0000);
    let elf = ElfFile::read(rt.alloc(), &file)?;
    let view = View::one(&elf)?;
    let section = view.first(DebugSection::Info).ok_or("no units")?;
    assert!(rt; view.bytes(section).len() == 20);
    let mut patches = Patches::new(rt.alloc(), &view, section)?;
    let wide = Refusal::at(Kind::TooWide, section, 16);
    let answer = patches.set(16, 4, NewPlace::Offset(0x1_0000_0000));
    assert_eq!(rt; answer, Err(Fault::Refused(wide)));
    patches.set(12, 4, NewPlace::Offset(22))?;
    patches.set(16, 4, NewPlace::Offset(0xffff_ffff))?;
    let mut bytes = [0; 20];
    patches.apply(&mut bytes);
    let wanted = [
        0, 0, 0, 0, 0, 0, 0, 0, 0, 0, 0, 0, 22, 0, 0, 0, 0xff, 0xff, 0xff, 0xff,
    ];
    assert_eq!(rt; bytes, wanted);
    Ok(())
}
