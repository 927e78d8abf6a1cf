//! Sections at the edges of the part of a file that stays: this project's profile.

ghost use Rattle.std.specs.Prelude.{◌≡◌, ◌↔◌, IsTrue};
ghost use Rattle.dw_base.specs.Layout.{fixed_end};
ghost use Rattle.dw_base.specs.LayoutFails.{BeginsInHeader, LiesAcross};

use dw_base::Section;
use elf_file::ElfFile;

/// A section with bytes in the file isn't ALLOC, and begins before the fixed end and ends behind it, all
/// in bytes of the file (this project's profile). Such a file can't be written.
pub fn lies_across(elf: &ElfFile, end: u64, section: &Section) -> bool
    requires end { end ≡ fixed_end elf.now.bytes.now }
    ensures across { IsTrue result ↔ LiesAcross elf.now.bytes.now section.now }
{
    if section.takes_no_room() {
        return false;
    }
    if section.is_alloc() {
        return false;
    }
    section.offset < end && section.size > end - section.offset
}

/// A section of a file of type EXEC or DYN has bytes in the file, and begins in the file header (this
/// project's profile). Such a file can't be written.
pub fn begins_in_header(elf: &ElfFile, section: &Section) -> bool
    ensures in_header { IsTrue result ↔ BeginsInHeader elf.now.bytes.now section.now }
{
    if !elf.is_loaded_kind() {
        return false;
    }
    if section.takes_no_room() {
        return false;
    }
    section.size != 0 && section.offset < elf.class.file_header_size()
}
