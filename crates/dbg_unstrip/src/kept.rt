//! Which sections of a debug file were kept in the stripped file (gABI ch. 4 "Sections"; this project's profile).

ghost use Rattle.std.specs.Prelude.{◌≡◌, ◌<◌};
ghost use Rattle.dw_base.specs.Elf.{section_count, section_name};
ghost use Rattle.dbg_unstrip.specs.Matching.{is_kept};
ghost use Rattle.dw_base.specs.SectionNames.{is_debug_only_name};

use dbg_split::{is_named, is_named_from};
use elf_file::ElfFile;

/// What the name of each section of debug data begins with.
const DEBUG_PREFIX: &[u8] = b".debug_";
/// The index of GDB.
const GDB_INDEX: &[u8] = b".gdb_index";

/// The name is that of a section of debug data, or of the index of GDB.
fn is_debug_only(debug: &ElfFile, section: u32) -> bool
    requires there { section < section_count debug.now.bytes.now }
    ensures { result ≡ is_debug_only_name (section_name debug.now.bytes.now section) }
{
    is_named_from(debug, section, DEBUG_PREFIX) || is_named(debug, section, GDB_INDEX)
}

/// A section of a debug file was kept in the stripped file: it isn't section 0, and is ALLOC, or the section name
/// table, or takes no room and has no name of debug data.
#[tactic(auto, unfolding(crate::specs::Matching::is_kept))]
pub fn is_kept(debug: &ElfFile, section: u32) -> bool
    requires there { section < section_count debug.now.bytes.now }
    ensures { result ≡ is_kept debug.now.bytes.now section }
{
    if section == 0 {
        return false;
    }
    let head = debug.section(section);
    if head.is_alloc() {
        return true;
    }
    if section == debug.names {
        return true;
    }
    head.takes_no_room() && !is_debug_only(debug, section)
}
