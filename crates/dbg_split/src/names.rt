//! Tests of section names that look no further than the name that is asked for (gABI ch. 4 "String
//! Table").

ghost use Rattle.std.specs.Prelude.{◌≡◌, ◌<◌, ◌==◌, false, nat_eq, slice_index};
ghost use Rattle.std.specs.List.{starts_with};
ghost use Rattle.dw_base.specs.Elf.{section_count, section_name};
ghost use Rattle.dw_base.specs.Texts.{has_nul, same_text, text};

use elf_file::ElfFile;

/// What stands in the section name table from the name of a section on, nothing where there is no table.
#[tactic(auto, using(crate::proofs::NameLaws::rest_laws))]
fn from_name<'a>(elf: &'a ElfFile, section: u32) -> &'a [u8]
    requires there { section < section_count elf.now.bytes.now }
    ensures name { text result.now ≡ section_name elf.now.bytes.now section }
{
    let table = elf.contents(elf.names);
    let place = elf.section(section).name as usize;
    if place >= table.len() {
        return &table[..0];
    }
    &table[place..]
}

/// The bytes end before a place, or a NUL stands there.
fn ends_at(bytes: &[u8], place: usize) -> bool
    ensures { result ≡ (slice_index bytes.now place == 0) }
{
    if place >= bytes.len() {
        return true;
    }
    bytes[place] == 0
}

/// The text in front of the bytes is this one, which has no NUL.
#[tactic(auto, using(crate::proofs::NameLaws::same_laws))]
fn is_text(bytes: &[u8], name: &[u8]) -> bool
    requires plain { has_nul name.now ≡ false }
    ensures { result ≡ same_text (text bytes.now) name.now }
{
    bytes.starts_with(name) && ends_at(bytes, name.len())
}

/// The text in front of the bytes begins with this one, which has no NUL.
#[tactic(auto, using(crate::proofs::NameLaws::prefix_laws))]
fn begins_with(bytes: &[u8], prefix: &[u8]) -> bool
    requires plain { has_nul prefix.now ≡ false }
    ensures { result ≡ starts_with nat_eq (text bytes.now) prefix.now }
{
    bytes.starts_with(prefix)
}

/// The name of a section is this one, which has no NUL.
pub fn is_named(elf: &ElfFile, section: u32, name: &[u8]) -> bool
    requires there { section < section_count elf.now.bytes.now }
    requires plain { has_nul name.now ≡ false }
    ensures named { result ≡ same_text (section_name elf.now.bytes.now section) name.now }
{
    is_text(from_name(elf, section), name)
}

/// The name of a section begins with this one, which has no NUL.
pub fn is_named_from(elf: &ElfFile, section: u32, prefix: &[u8]) -> bool
    requires there { section < section_count elf.now.bytes.now }
    requires plain { has_nul prefix.now ≡ false }
    ensures named { result ≡ starts_with nat_eq (section_name elf.now.bytes.now section) prefix.now }
{
    begins_with(from_name(elf, section), prefix)
}
