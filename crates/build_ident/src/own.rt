//! That the bytes of a build-id belong to nothing else: neither to the file header nor to the program
//! headers nor to another section (gABI ch. 4 "ELF Header", "Sections"; ch. 5 "Program Header").

ghost use Rattle.std.specs.Prelude.{◌≡◌, ◌≢◌, ◌≤◌, ◌<◌, ◌+◌, ◌*◌, ◌^◌, ◌&&◌, true, false, length, IfErr, IfSome, IsNone, OnOk};
ghost use Rattle.dw_base.specs.Elf.{class_of, ehdr_size, phdr_size, e_phoff, e_phnum, nth_section, section_count};
ghost use Rattle.std.specs.Bool.{OnTrue, OnFalse};
ghost use Rattle.build_ident.specs.IdFails.{id_place, overlap, has_bytes, shares, IdFails, IsId, IsOwn, IsShared};
ghost use Rattle.build_ident.specs.Searches.{NoneShared};

use crate::notes::Field;
use dw_base::elf_numbers::{SHT_NOBITS, SHT_NULL};
use dw_base::{Class, Kind, Refusal, Section, number_in};
use elf_file::ElfFile;

/// The bytes of the id, which begin at `place` in the file, belong to nothing else. Refused as `BuildId`
/// at (the section, 0) exactly where they do.
#[tactic(auto, using(crate::proofs::OwnLaws::own_rules))]
pub(crate) fn own_bytes(
    elf: &ElfFile,
    section: u32,
    field: Field,
    place: u64,
) -> Result<(), Refusal>
    requires is { IsId elf.now.bytes.now section (record { place = field.place; size = field.size }) }
    requires place { place ≡ id_place elf.now.bytes.now section (record { place = field.place; size = field.size }) }
    requires inside { place + field.size ≤ length elf.now.bytes.now }
    ensures own { OnOk result (IsOwn elf.now.bytes.now section (record { place = field.place; size = field.size })) }
    ensures refused { IfErr result (IdFails elf.now.bytes.now) }
{
    if place < header_size(elf.class) {
        return Err(Refusal::at(Kind::BuildId, section, 0));
    }
    if shares_segments(elf, place, field.size) {
        return Err(Refusal::at(Kind::BuildId, section, 0));
    }
    match sharing_section(elf, section, field, place) {
        Some(_) => Err(Refusal::at(Kind::BuildId, section, 0)),
        None => Ok(()),
    }
}

/// The size of the file header, in bytes.
fn header_size(class: Class) -> u64
    ensures value { result ≡ ehdr_size class }
{
    match class {
        Class::C32 => 52,
        Class::C64 => 64,
    }
}

/// Whether so many bytes from a place and so many from another have some in common; of neither there
/// are none.
fn overlap(place: u64, size: u64, other: u64, other_size: u64) -> bool
    requires fits { place + size < 2 ^ 64 }
    requires other_fits { other + other_size < 2 ^ 64 }
    ensures value { result ≡ overlap place size other other_size }
{
    place < other + other_size && other < place + size
}

/// Where the program headers begin (`e_phoff`).
#[tactic(auto, using(crate::proofs::OwnLaws::header_rules), unfolding(dw_base::specs::Elf::e_phoff))]
fn segments_place(elf: &ElfFile) -> u64
    ensures value { result ≡ e_phoff elf.now.bytes.now }
{
    match elf.class {
        Class::C32 => number_in(elf.order, elf.bytes, 28, 4),
        Class::C64 => number_in(elf.order, elf.bytes, 32, 8),
    }
}

/// How many bytes the program headers have, where there are so many.
fn segments_size(class: Class, count: u64) -> u64
    requires small { count * phdr_size class < 2 ^ 64 }
    ensures value { result ≡ count * phdr_size class }
{
    match class {
        Class::C32 => count * 32,
        Class::C64 => count * 56,
    }
}

/// Whether these bytes and the program headers have some in common.
#[tactic(auto, using(crate::proofs::OwnLaws::segment_rules))]
fn shares_segments(elf: &ElfFile, place: u64, size: u64) -> bool
    requires inside { place + size ≤ length elf.now.bytes.now }
    ensures some { OnTrue result (e_phnum elf.now.bytes.now ≢ 0) }
    ensures shares { OnTrue result (overlap place size (e_phoff elf.now.bytes.now) (e_phnum elf.now.bytes.now * phdr_size (class_of elf.now.bytes.now)) ≡ true) }
    ensures apart { OnFalse result (e_phnum elf.now.bytes.now ≢ 0 → overlap place size (e_phoff elf.now.bytes.now) (e_phnum elf.now.bytes.now * phdr_size (class_of elf.now.bytes.now)) ≡ false) }
{
    let count = elf.segments.len() as u64;
    if count == 0 {
        return false;
    }
    overlap(
        place,
        size,
        segments_place(elf),
        segments_size(elf.class, count),
    )
}

/// A section but the own one that has bytes in common with the id, where there is one.
#[tactic(auto, using(crate::proofs::OwnLaws::shared_rules))]
fn sharing_section(elf: &ElfFile, section: u32, field: Field, place: u64) -> Option<u32>
    requires place { place ≡ id_place elf.now.bytes.now section (record { place = field.place; size = field.size }) }
    requires inside { place + field.size ≤ length elf.now.bytes.now }
    ensures found { IfSome result (IsShared elf.now.bytes.now section (record { place = field.place; size = field.size })) }
    ensures none { IsNone result → NoneShared elf.now.bytes.now section (record { place = field.place; size = field.size }) (section_count elf.now.bytes.now) }
{
    let count = elf.section_count();
    for index in 0..count {
        if is_shared(elf, section, index, field, place) {
            return Some(index);
        }
    }
    None
}

/// Whether the section of a number isn't the own one, and has bytes in common with the id.
fn is_shared(elf: &ElfFile, section: u32, index: u32, field: Field, place: u64) -> bool
    requires place { place ≡ id_place elf.now.bytes.now section (record { place = field.place; size = field.size }) }
    requires inside { place + field.size ≤ length elf.now.bytes.now }
    requires there { index < section_count elf.now.bytes.now }
    ensures shared { OnTrue result (IsShared elf.now.bytes.now section (record { place = field.place; size = field.size }) index) }
    ensures apart { OnFalse result (index ≢ section → shares elf.now.bytes.now section (record { place = field.place; size = field.size }) index ≡ false) }
{
    if index == section {
        return false;
    }
    shares(elf, index, place, field.size)
}

/// Whether these bytes and those of the section of a number have some in common.
#[tactic(auto, using(crate::proofs::OwnLaws::lies_rules))]
fn shares(elf: &ElfFile, index: u32, place: u64, size: u64) -> bool
    requires there { index < section_count elf.now.bytes.now }
    requires inside { place + size ≤ length elf.now.bytes.now }
    ensures value { result ≡ (has_bytes (nth_section elf.now.bytes.now index) && overlap place size (nth_section elf.now.bytes.now index).offset (nth_section elf.now.bytes.now index).size) }
{
    let section = elf.section(index);
    has_bytes(&section) && overlap(place, size, section.offset, section.size)
}

/// Whether a section has bytes in the file.
fn has_bytes(section: &Section) -> bool
    ensures value { result ≡ has_bytes section.now }
{
    section.kind != SHT_NULL && section.kind != SHT_NOBITS && section.size != 0
}
