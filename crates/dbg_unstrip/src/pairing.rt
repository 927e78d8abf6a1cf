//! Whether a stripped file and a debug file are a pair (GNU debugging information in separate files).

ghost use Rattle.std.specs.Prelude.{◌≡◌, ◌<◌, false, IfErr, OnOk};
ghost use Rattle.dw_base.specs.Elf.{section_count};
ghost use Rattle.dw_base.specs.SectionNames.{contents_called};
ghost use Rattle.dw_base.specs.Texts.{has_nul};
ghost use Rattle.dw_view.specs.Pairs.{IsPaired, link_in};
ghost use Rattle.dbg_unstrip.specs.UnstripFails.{NamesOther, PairBlames};

use crate::unstrip_err::UnstripErr;
use dbg_split::is_named;
use debug_link::{crc32, read_link};
use dw_view::Mismatch;
use elf_file::ElfFile;
use std::alloc::Global;

/// The name of the link to a debug file.
pub const DEBUG_LINK: &[u8] = b".gnu_debuglink";

/// The bytes of the first section of a name without a NUL; none where there is none.
#[tactic(auto, using(dw_view::proofs::PairingLaws::called_laws))]
fn contents_called<'a>(elf: &'a ElfFile, name: &[u8]) -> &'a [u8]
    requires plain { has_nul name.now ≡ false }
    ensures { result.now ≡ contents_called elf.now.bytes.now name.now }
{
    let count = elf.section_count();
    for section in 0..count {
        if is_named(elf, section, name) {
            return elf.contents(section);
        }
    }
    &elf.bytes[..0]
}

/// The link of a stripped file.
#[tactic(auto, unfolding(dw_view::specs::Pairs::link_in))]
fn link_in<'a>(stripped: &'a ElfFile) -> &'a [u8]
    ensures { result.now ≡ link_in stripped.now.bytes.now }
{
    contents_called(stripped, DEBUG_LINK)
}

/// The answer that the link has another name.
fn other_name(alloc: Global, named: &[u8], found: &[u8]) -> UnstripErr
    ensures other { NamesOther named.now found.now result }
{
    let Ok(named) = Vec::from_slice(alloc, named) else {
        return UnstripErr::NoMemory;
    };
    let Ok(found) = Vec::from_slice(alloc, found) else {
        return UnstripErr::NoMemory;
    };
    UnstripErr::NotAPair(Mismatch::Name { named, found })
}

/// The link of the stripped file has this name, and the sum of the debug file.
#[tactic(auto, using(crate::proofs::PairRows::pair_rows))]
pub fn is_pair(
    alloc: Global,
    stripped: &ElfFile,
    debug: &ElfFile,
    name: &[u8],
) -> Result<(), UnstripErr>
    ensures paired { OnOk result (IsPaired stripped.now.bytes.now debug.now.bytes.now name.now) }
    ensures refused { IfErr result (PairBlames stripped.now.bytes.now debug.now.bytes.now name.now) }
{
    let Some((named, sum)) = read_link(stripped.order, link_in(stripped)) else {
        return Err(UnstripErr::NotAPair(Mismatch::NoLink));
    };
    if named != name {
        return Err(other_name(alloc, named, name));
    }
    let found = crc32(debug.bytes);
    if sum != found {
        return Err(UnstripErr::NotAPair(Mismatch::Sum { named: sum, found }));
    }
    Ok(())
}
