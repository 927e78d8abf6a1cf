//! Sections whose bytes are read for debug data, by name (DWARF 5, Appendix B).

ghost use Rattle.std.specs.Prelude.{◌≡◌, ◌<◌};
ghost use Rattle.dw_base.specs.Elf.{section_count, section_name};
ghost use Rattle.dbg_split.specs.ReadNames.{has_name_of, is_one_of, is_read_name};

use crate::names::is_named;
use dw_base::{DebugSection, READ_SECTIONS};
use elf_file::ElfFile;

/// The section has the name of this one.
#[tactic(auto, using(crate::proofs::ReadNameLaws::plain_laws))]
fn has_name_of(elf: &ElfFile, section: u32, read: DebugSection) -> bool
    requires there { section < section_count elf.now.bytes.now }
    ensures { result ≡ has_name_of (section_name elf.now.bytes.now section) read }
{
    is_named(elf, section, read.name())
}

/// The section has the name of one of these.
fn is_one_of(elf: &ElfFile, section: u32, sections: &[DebugSection]) -> bool
    requires there { section < section_count elf.now.bytes.now }
    ensures { result ≡ is_one_of sections.now (section_name elf.now.bytes.now section) }
{
    for read in sections {
        if has_name_of(elf, section, *read) {
            return true;
        }
    }
    false
}

/// The section has the name of one that is read.
#[tactic(auto, unfolding(crate::specs::ReadNames::is_read_name))]
pub fn is_read(elf: &ElfFile, section: u32) -> bool
    requires there { section < section_count elf.now.bytes.now }
    ensures { result ≡ is_read_name (section_name elf.now.bytes.now section) }
{
    is_one_of(elf, section, &READ_SECTIONS)
}
