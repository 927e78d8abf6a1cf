//! What is loaded of two relocatable files compared: their ALLOC sections one by one, whatever their numbers are.

ghost use Rattle.std.specs.Prelude.{◌≡◌, ◌+◌, ◌<◌, ◌≤◌, ◌^◌, ◌∷◌, [], false, length, IfNone, IfSome, IsTrue, MatchOption};
ghost use Rattle.dw_base.specs.Elf.{section_count};
ghost use Rattle.dw_base.specs.Notes.{build_id_of};
ghost use Rattle.dw_meaning.specs.Loaded.{is_alloc_number, section_image};
ghost use Rattle.dbg_check.specs.Images.{image_of, lone_hole};
ghost use Rattle.dbg_check.specs.Loads.{AllocsAgree, SameBehind, allocs_from, as_id};

use crate::holes::{Hole, same_bytes};
use crate::left_out::{lone_hole, own_hole};
use build_ident::SectionId;
use elf_file::ElfFile;

/// Whether the bytes of two sections are the same, but for their holes.
#[tactic(auto, using(crate::proofs::AllocLaws::contents_laws))]
fn same_contents(old: &[u8], new: &[u8], hole: Hole, other: Hole) -> bool
    requires small { hole.at + hole.len < 2 ^ 64 }
    requires others { other.at + other.len < 2 ^ 64 }
    ensures same { IsTrue result → image_of new.now (lone_hole other) 0 (length new.now) ≡ image_of old.now (lone_hole hole) 0 (length old.now) }
    ensures other { result ≡ false → image_of new.now (lone_hole other) 0 (length new.now) ≡ image_of old.now (lone_hole hole) 0 (length old.now) → ⊥ }
{
    if old.len() != new.len() {
        return false;
    }
    let holes = lone_hole(hole);
    let others = lone_hole(other);
    same_bytes(old, new, &holes, &others, 0, old.len() as u64)
}

/// Whether the sections of two numbers have the same bytes in two files, but for the build-ids.
fn same_section(
    old: &ElfFile,
    new: &ElfFile,
    id: Option<SectionId>,
    other: Option<SectionId>,
    number: u32,
    there: u32,
) -> bool
    requires id { as_id id ≡ build_id_of old.now.bytes.now }
    requires other { as_id other ≡ build_id_of new.now.bytes.now }
    requires small { IfSome id (λ f. f.place + f.size < 2 ^ 64) }
    requires small_there { IfSome other (λ f. f.place + f.size < 2 ^ 64) }
    requires number { number < section_count old.now.bytes.now }
    requires there { there < section_count new.now.bytes.now }
    ensures same { IsTrue result → section_image new.now.bytes.now there ≡ section_image old.now.bytes.now number }
    ensures other { result ≡ false → section_image new.now.bytes.now there ≡ section_image old.now.bytes.now number → ⊥ }
{
    let hole = own_hole(id, number);
    let gap = own_hole(other, there);
    same_contents(old.contents(number), new.contents(there), hole, gap)
}

/// Whether the section of a number is ALLOC.
fn is_alloc(elf: &ElfFile, number: u32) -> bool
    requires there { number < section_count elf.now.bytes.now }
    ensures value { result ≡ is_alloc_number elf.now.bytes.now number }
{
    elf.section(number).is_alloc()
}

/// The first ALLOC section from a number on.
#[tactic(auto, using(crate::proofs::AllocLaws::next_laws))]
pub(crate) fn next_alloc(elf: &ElfFile, from: u32) -> Option<u32>
    requires within { from ≤ section_count elf.now.bytes.now }
    ensures value { MatchOption result (allocs_from elf.now.bytes.now from ≡ []) (λ i. allocs_from elf.now.bytes.now from ≡ section_image elf.now.bytes.now i ∷ allocs_from elf.now.bytes.now (i + 1)) }
    ensures there { IfSome result (λ i. i < section_count elf.now.bytes.now) }
    ensures fits { IfSome result (λ i. i + 1 < 2 ^ 32) }
{
    let count = elf.section_count();
    for index in from..count {
        if is_alloc(elf, index) {
            return Some(index);
        }
    }
    None
}

/// The number behind the next ALLOC section of one file, where the section of a number of the other is ALLOC and both have the same bytes; the
/// number itself where it isn't ALLOC.
#[tactic(auto, using(crate::proofs::AllocLaws::step_laws))]
fn behind_same(
    old: &ElfFile,
    new: &ElfFile,
    id: Option<SectionId>,
    other: Option<SectionId>,
    number: u32,
    from: u32,
) -> Option<u32>
    requires id { as_id id ≡ build_id_of old.now.bytes.now }
    requires other { as_id other ≡ build_id_of new.now.bytes.now }
    requires small { IfSome id (λ f. f.place + f.size < 2 ^ 64) }
    requires small_there { IfSome other (λ f. f.place + f.size < 2 ^ 64) }
    requires number { number < section_count old.now.bytes.now }
    requires from { from ≤ section_count new.now.bytes.now }
    ensures same { IfSome result (λ k. SameBehind old.now.bytes.now new.now.bytes.now number from (number + 1) k) }
    ensures other { IfNone result (AllocsAgree old.now.bytes.now new.now.bytes.now number from → ⊥) }
    ensures within { IfSome result (λ k. k ≤ section_count new.now.bytes.now) }
{
    if !is_alloc(old, number) {
        return Some(from);
    }
    let Some(there) = next_alloc(new, from) else {
        return None;
    };
    if !same_section(old, new, id, other, number, there) {
        return None;
    }
    Some(there + 1)
}

/// Whether the ALLOC sections of two files have the same bytes, one by one, but for the build-ids.
#[tactic(auto, using(crate::proofs::AllocLaws::allocs_laws))]
pub(crate) fn same_allocs(
    old: &ElfFile,
    new: &ElfFile,
    id: Option<SectionId>,
    other: Option<SectionId>,
) -> bool
    requires id { as_id id ≡ build_id_of old.now.bytes.now }
    requires other { as_id other ≡ build_id_of new.now.bytes.now }
    requires small { IfSome id (λ f. f.place + f.size < 2 ^ 64) }
    requires small_there { IfSome other (λ f. f.place + f.size < 2 ^ 64) }
    ensures same { IsTrue result → AllocsAgree old.now.bytes.now new.now.bytes.now 0 0 }
    ensures other { result ≡ false → AllocsAgree old.now.bytes.now new.now.bytes.now 0 0 → ⊥ }
{
    let count = old.section_count();
    let mut from = 0;
    for number in 0..count {
        let Some(behind) = behind_same(old, new, id, other, number, from) else {
            return false;
        };
        from = behind;
    }
    match next_alloc(new, from) {
        Some(_) => false,
        None => true,
    }
}
