//! The first bytes of the names of sections: so many of a name tell whether it is a shorter one, however
//! long it is (gABI ch. 4 "String Table").

ghost use Rattle.std.specs.Prelude.{◌≡◌, ◌<◌, ◌≤◌, length, take};
ghost use Rattle.dw_base.specs.Elf.{section_count, section_name};
ghost use Rattle.dw_base.specs.DebugSectionFails.{is_active};
ghost use Rattle.dw_base.specs.Texts.{text, text_in};

use dw_base::Section;
use dw_base::elf_numbers::SHT_NULL;
use elf_file::ElfFile;

/// The section's header isn't inactive.
pub fn is_active(section: &Section) -> bool
    ensures { result ≡ is_active section.now }
{
    section.kind != SHT_NULL
}

/// The first `size` bytes of the name of the section of a number, all of it where it has no more.
#[tactic(auto, using(crate::proofs::FrontLaws::name_laws))]
pub fn name_front<'a>(elf: &'a ElfFile, index: u32, size: usize) -> &'a [u8]
    requires there { index < section_count elf.now.bytes.now }
    ensures { result.now ≡ take size (section_name elf.now.bytes.now index) }
{
    front_at(
        elf.contents(elf.names),
        u64::from(elf.section(index).name),
        size,
    )
}

/// The first `size` bytes of the text at a place, in bytes from the start of a string table.
#[tactic(auto, using(crate::proofs::FrontLaws::front_laws), unfolding(dw_base::specs::Texts::text_in))]
fn front_at(table: &[u8], place: u64, size: usize) -> &[u8]
    ensures { result.now ≡ take size (text_in table.now place) }
{
    if place >= table.len() as u64 {
        return &table[..0];
    }
    let rest = &table[place as usize..];
    &rest[..front_len(rest, size)]
}

/// How many of the first `size` bytes stand before a NUL.
#[tactic(auto, using(crate::proofs::FrontLaws::front_laws))]
fn front_len(bytes: &[u8], size: usize) -> usize
    ensures short { result ≤ length bytes.now }
    ensures front { take result bytes.now ≡ take size (text bytes.now) }
{
    let end = bytes.len().min(size);
    for i in 0..end {
        if bytes[i] == 0 {
            return i;
        }
    }
    end
}
