//! What is loaded of two files compared.

ghost use Rattle.std.specs.Prelude.{◌≡◌, true, false, IsTrue};
ghost use Rattle.dw_base.specs.ElfFails.{ElfReads};
ghost use Rattle.dw_base.specs.Layout.{is_loaded_kind};
ghost use Rattle.dw_meaning.specs.Loaded.{loaded_bytes};
ghost use Rattle.dbg_check.specs.Loads.{AreOfTwoKinds, nothing};

use crate::allocs::{next_alloc, same_allocs};
use crate::left_out::file_holes;
use crate::segments::{same_loads, same_segments};
use build_ident::section_id;
use elf_file::ElfFile;

/// Whether nothing is loaded of a file.
#[tactic(auto, using(crate::proofs::LoadedLaws::nothing_laws))]
fn loads_nothing(elf: &ElfFile) -> bool
    ensures same { IsTrue result → loaded_bytes elf.now.bytes.now ≡ nothing }
    ensures other { result ≡ false → loaded_bytes elf.now.bytes.now ≡ nothing → ⊥ }
{
    if elf.is_loaded_kind() {
        if elf.segments.len() == 0 {
            return true;
        }
        return false;
    }
    match next_alloc(elf, 0) {
        Some(_) => false,
        None => true,
    }
}

/// Whether what is loaded of two files is the same, of which one is loaded as it stands and the other isn't.
#[tactic(auto, using(crate::proofs::LoadedLaws::kinds_laws))]
fn load_nothing(old: &ElfFile, new: &ElfFile) -> bool
    requires kinds { AreOfTwoKinds old.now.bytes.now new.now.bytes.now }
    ensures same { IsTrue result → loaded_bytes new.now.bytes.now ≡ loaded_bytes old.now.bytes.now }
    ensures other { result ≡ false → loaded_bytes new.now.bytes.now ≡ loaded_bytes old.now.bytes.now → ⊥ }
{
    if !loads_nothing(old) {
        return false;
    }
    loads_nothing(new)
}

/// The same of two files that are loaded as they stand.
#[tactic(auto, using(crate::proofs::LoadedLaws::image_laws, crate::proofs::SegmentLaws::lie_laws))]
fn same_images(old: &ElfFile, new: &ElfFile) -> bool
    requires old { ElfReads old.now.bytes.now }
    requires new { ElfReads new.now.bytes.now }
    requires kind { is_loaded_kind old.now.bytes.now ≡ true }
    requires kind_there { is_loaded_kind new.now.bytes.now ≡ true }
    ensures same { IsTrue result → loaded_bytes new.now.bytes.now ≡ loaded_bytes old.now.bytes.now }
    ensures other { result ≡ false → loaded_bytes new.now.bytes.now ≡ loaded_bytes old.now.bytes.now → ⊥ }
{
    if !same_segments(&old.segments, &new.segments) {
        return false;
    }
    let holes = file_holes(old);
    let others = file_holes(new);
    same_loads(old.bytes, new.bytes, &holes, &others, &old.segments)
}

/// The same of two files that aren't.
#[tactic(auto, using(crate::proofs::LoadedLaws::section_laws, crate::proofs::LeftOutLaws::both_laws))]
fn same_sections(old: &ElfFile, new: &ElfFile) -> bool
    requires kind { is_loaded_kind old.now.bytes.now ≡ false }
    requires kind_there { is_loaded_kind new.now.bytes.now ≡ false }
    ensures same { IsTrue result → loaded_bytes new.now.bytes.now ≡ loaded_bytes old.now.bytes.now }
    ensures other { result ≡ false → loaded_bytes new.now.bytes.now ≡ loaded_bytes old.now.bytes.now → ⊥ }
{
    let id = section_id(old);
    let other = section_id(new);
    same_allocs(old, new, id, other)
}

/// Whether what is loaded of two files is the same.
#[tactic(auto, using(crate::proofs::LoadedLaws::loaded_laws))]
pub fn same_loaded(old: &ElfFile, new: &ElfFile) -> bool
    requires old { ElfReads old.now.bytes.now }
    requires new { ElfReads new.now.bytes.now }
    ensures same { IsTrue result → loaded_bytes new.now.bytes.now ≡ loaded_bytes old.now.bytes.now }
    ensures other { result ≡ false → loaded_bytes new.now.bytes.now ≡ loaded_bytes old.now.bytes.now → ⊥ }
{
    let kind = old.is_loaded_kind();
    let there = new.is_loaded_kind();
    if kind {
        if there {
            return same_images(old, new);
        }
        return load_nothing(old, new);
    }
    if there {
        return load_nothing(old, new);
    }
    same_sections(old, new)
}
