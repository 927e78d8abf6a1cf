//! Whether a stripped file and a debug file are a pair (GNU debugging information in separate files).

ghost use Rattle.std.specs.Prelude.{◌≡◌, ◌<◌, length, IfErr, OnOk};
ghost use Rattle.dw_base.specs.Elf.{section_count, section_name};
ghost use Rattle.dw_base.specs.SectionNames.{contents_called};
ghost use Rattle.dw_base.specs.Texts.{same_text};
ghost use Rattle.dw_view.specs.Pairs.{IsPaired, NamesOther, PairBlames, link_in};

use crate::fronts::name_front;
use crate::mismatch::{Mismatch, PairErr};
use debug_link::{crc32, read_link};
use dw_base::Fault;
use elf_file::ElfFile;

/// The name of the link to a debug file.
const DEBUG_LINK: &[u8] = b".gnu_debuglink";

/// The section of a number has this name.
#[tactic(auto, using(crate::proofs::PairingLaws::named_laws))]
fn is_named(elf: &ElfFile, section: u32, name: &[u8]) -> bool
    requires there { section < section_count elf.now.bytes.now }
    ensures { result ≡ same_text (section_name elf.now.bytes.now section) name.now }
{
    name_front(elf, section, name.len() + 1) == name
}

/// The bytes of the first section of a name; none where there is none.
#[tactic(auto, using(crate::proofs::PairingLaws::called_laws))]
fn contents_called<'a>(elf: &'a ElfFile, name: &[u8]) -> &'a [u8]
    ensures { result.now ≡ contents_called elf.now.bytes.now name.now }
{
    let count = elf.section_count();
    for section in 0..count {
        if is_named(elf, section, name) {
            return elf.contents(section);
        }
    }
    &elf.bytes[..0]
}

/// The link of a stripped file.
#[tactic(auto, unfolding(crate::specs::Pairs::link_in))]
fn link_in<'a>(stripped: &'a ElfFile) -> &'a [u8]
    ensures { result.now ≡ link_in stripped.now.bytes.now }
{
    contents_called(stripped, DEBUG_LINK)
}

/// The answer that the link has another name.
fn other_name(stripped: &ElfFile, named: &[u8], found: &[u8]) -> PairErr
    ensures other { NamesOther named.now found.now result }
{
    let alloc = *stripped.sections.allocator();
    let Ok(named) = Vec::from_slice(alloc, named) else {
        return PairErr::Stripped(Fault::NoMemory);
    };
    let Ok(found) = Vec::from_slice(alloc, found) else {
        return PairErr::Stripped(Fault::NoMemory);
    };
    PairErr::NotAPair(Mismatch::Name { named, found })
}

/// The link of the stripped file has this name, and the sum of the debug file.
#[tactic(auto, using(crate::proofs::PairingLaws::paired_laws))]
pub fn is_pair(stripped: &ElfFile, debug: &ElfFile, name: &[u8]) -> Result<(), PairErr>
    ensures paired { OnOk result (IsPaired stripped.now.bytes.now debug.now.bytes.now name.now) }
    ensures refused { IfErr result (PairBlames stripped.now.bytes.now debug.now.bytes.now name.now) }
{
    let Some((named, sum)) = read_link(stripped.order, link_in(stripped)) else {
        return Err(PairErr::NotAPair(Mismatch::NoLink));
    };
    if named != name {
        return Err(other_name(stripped, named, name));
    }
    let found = crc32(debug.bytes);
    if sum != found {
        return Err(PairErr::NotAPair(Mismatch::Sum { named: sum, found }));
    }
    Ok(())
}
