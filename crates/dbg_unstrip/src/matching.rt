//! Whether the sections of a stripped file and of a debug file match: this project's profile.

ghost use Rattle.std.specs.Prelude.{◌≡◌, ◌≢◌, ◌↔◌, ◌+◌, ◌^◌, ◌<◌, ◌≤◌, ℕ, true, length, slice_index, IfErr, IfOk, IsTrue, MatchOption, OnOk};
ghost use Rattle.std.specs.Bool.{OnFalse, OnTrue};
ghost use Rattle.dw_base.specs.Elf.{class_of, e_type, nth_section, order_of, section_count, section_name};
ghost use Rattle.dw_base.specs.SectionNames.{debug_link};
ghost use Rattle.dbg_unstrip.specs.Joined.{kept_place};
ghost use Rattle.dbg_unstrip.specs.Matching.{Differ, DifferFirst, DontMatch, FilesDiffer, HidesHeader, InHeader, OtherKind, SectionsDiffer, is_kept, kept_sections, link_number, partner_sections};

use crate::kept::is_kept;
use crate::pairing::DEBUG_LINK;
use crate::unstripping::TYPE_PLACE;
use dbg_split::is_named;
use dw_base::{Class, Order, number_in};
use elf_file::ElfFile;

/// The two files are of one class.
fn same_class(stripped: &ElfFile, debug: &ElfFile) -> bool
    ensures same { OnTrue result (class_of stripped.now.bytes.now ≡ class_of debug.now.bytes.now) }
    ensures other { OnFalse result (class_of stripped.now.bytes.now ≢ class_of debug.now.bytes.now) }
{
    match (stripped.class, debug.class) {
        (Class::C32, Class::C32) | (Class::C64, Class::C64) => true,
        (Class::C32, Class::C64) | (Class::C64, Class::C32) => false,
    }
}

/// The two files are of one byte order.
fn same_order(stripped: &ElfFile, debug: &ElfFile) -> bool
    ensures same { OnTrue result (order_of stripped.now.bytes.now ≡ order_of debug.now.bytes.now) }
    ensures other { OnFalse result (order_of stripped.now.bytes.now ≢ order_of debug.now.bytes.now) }
{
    match (stripped.order, debug.order) {
        (Order::Little, Order::Little) | (Order::Big, Order::Big) => true,
        (Order::Little, Order::Big) | (Order::Big, Order::Little) => false,
    }
}

/// `e_type`.
#[tactic(auto, using(crate::proofs::JoinedLaws::header_laws), unfolding(dw_base::specs::Elf::e_type))]
fn type_of(elf: &ElfFile) -> u64
    ensures { result ≡ e_type elf.now.bytes.now }
{
    number_in(elf.order, elf.bytes, TYPE_PLACE, 2)
}

/// The two files are of one class, byte order, type and machine.
#[tactic(auto, using(crate::proofs::MatchRows::kind_rows))]
fn kinds_match(stripped: &ElfFile, debug: &ElfFile) -> bool
    ensures none { OnTrue result (OtherKind stripped.now.bytes.now debug.now.bytes.now → ⊥) }
    ensures some { OnFalse result (OtherKind stripped.now.bytes.now debug.now.bytes.now) }
{
    if !same_class(stripped, debug) {
        return false;
    }
    if !same_order(stripped, debug) {
        return false;
    }
    if type_of(stripped) != type_of(debug) {
        return false;
    }
    if stripped.machine != debug.machine {
        return false;
    }
    true
}

/// The number of the link to the debug file: the last section.
#[tactic(auto, unfolding(crate::specs::Matching::link_number))]
fn link_number(stripped: &ElfFile) -> u32
    ensures { result ≡ link_number stripped.now.bytes.now }
{
    stripped.section_count().saturating_sub(1)
}

/// The last section of a stripped file is a link to a debug file.
#[tactic(auto, using(crate::proofs::MatchRows::link_rows))]
fn has_link(stripped: &ElfFile) -> bool
    requires there { section_count stripped.now.bytes.now ≢ 0 }
    ensures none { OnTrue result (section_name stripped.now.bytes.now (link_number stripped.now.bytes.now) ≡ debug_link) }
    ensures some { OnFalse result (section_name stripped.now.bytes.now (link_number stripped.now.bytes.now) ≢ debug_link) }
{
    is_named(stripped, link_number(stripped), DEBUG_LINK)
}

/// The section has bytes in the file, and begins in the file header.
#[tactic(auto, using(crate::proofs::MatchRows::header_rows))]
fn is_in_header(elf: &ElfFile, section: u32) -> bool
    requires there { section < section_count elf.now.bytes.now }
    ensures in_header { IsTrue result ↔ InHeader elf.now.bytes.now (nth_section elf.now.bytes.now section) }
{
    let head = elf.section(section);
    if head.takes_no_room() {
        return false;
    }
    head.size != 0 && head.offset < elf.class.file_header_size()
}

/// Some section has bytes in the file, and begins in the file header.
#[tactic(auto, using(crate::proofs::MatchRows::header_rows))]
fn hides_header(elf: &ElfFile) -> bool
    ensures some { OnTrue result (HidesHeader elf.now.bytes.now) }
    ensures none { OnFalse result (HidesHeader elf.now.bytes.now → ⊥) }
{
    for section in 0..elf.section_count() {
        if is_in_header(elf, section) {
            return true;
        }
    }
    false
}

/// The two files match as a whole.
#[tactic(auto, using(crate::proofs::MatchRows::file_rows))]
fn files_match(stripped: &ElfFile, debug: &ElfFile) -> bool
    requires there { section_count stripped.now.bytes.now ≢ 0 }
    ensures none { OnTrue result (FilesDiffer stripped.now.bytes.now debug.now.bytes.now → ⊥) }
    ensures some { OnFalse result (FilesDiffer stripped.now.bytes.now debug.now.bytes.now) }
{
    if !kinds_match(stripped, debug) {
        return false;
    }
    if debug.section_count() == 0 {
        return false;
    }
    if !has_link(stripped) {
        return false;
    }
    if hides_header(stripped) {
        return false;
    }
    true
}

/// The section of a stripped file at a place among those that stand with kept sections of a debug file, `None` where there are
/// no more.
#[tactic(auto, using(crate::proofs::MatchLaws::partner_laws))]
pub fn partner_at(stripped: &ElfFile, place: u32) -> Option<u32>
    requires few { place + 1 < 2 ^ 32 }
    ensures partner { MatchOption result (length (partner_sections stripped.now.bytes.now) ≤ place) (λ j. (place < length (partner_sections stripped.now.bytes.now)) × (j ≡ slice_index (partner_sections stripped.now.bytes.now) place) × (j < section_count stripped.now.bytes.now)) }
{
    let partner = place + 1;
    if partner >= link_number(stripped) {
        return None;
    }
    Some(partner)
}

/// A section of the stripped file and one of the debug file have one name, the same flags and address, and, but for the section name
/// table, the same size.
#[tactic(auto, using(crate::proofs::MatchRows::section_rows))]
fn sections_match(stripped: &ElfFile, debug: &ElfFile, partner: u32, section: u32) -> bool
    requires partner { partner < section_count stripped.now.bytes.now }
    requires section { section < section_count debug.now.bytes.now }
    ensures none { OnTrue result (SectionsDiffer stripped.now.bytes.now debug.now.bytes.now partner section → ⊥) }
    ensures some { OnFalse result (SectionsDiffer stripped.now.bytes.now debug.now.bytes.now partner section) }
{
    let new = stripped.section(partner);
    let old = debug.section(section);
    if new.flags != old.flags {
        return false;
    }
    if new.addr != old.addr {
        return false;
    }
    if section != debug.names && new.size != old.size {
        return false;
    }
    stripped.section_name(partner) == debug.section_name(section)
}

/// A kept section of the debug file matches the one that stands with it, which is that of its place among the kept ones.
#[tactic(auto, using(crate::proofs::MatchLaws::place_laws))]
fn place_matches(stripped: &ElfFile, debug: &ElfFile, place: u32, section: u32) -> bool
    requires section { section < section_count debug.now.bytes.now }
    requires kept { is_kept debug.now.bytes.now section ≡ true }
    requires place { place ≡ kept_place debug.now.bytes.now section }
    ensures none { OnTrue result (Differ stripped.now.bytes.now debug.now.bytes.now place → ⊥) }
    ensures some { OnFalse result (Differ stripped.now.bytes.now debug.now.bytes.now place) }
{
    match partner_at(stripped, place) {
        Some(partner) => sections_match(stripped, debug, partner, section),
        None => false,
    }
}

/// The place behind a section of the debug file, where it matches or wasn't kept; else its place.
#[tactic(auto, using(crate::proofs::MatchLaws::step_laws))]
fn place_behind(stripped: &ElfFile, debug: &ElfFile, place: u32, section: u32) -> Result<u32, u32>
    requires section { section < section_count debug.now.bytes.now }
    requires place { place ≡ kept_place debug.now.bytes.now section }
    requires free { (n : ℕ) → n < place → Differ stripped.now.bytes.now debug.now.bytes.now n → ⊥ }
    ensures place { IfOk result (λ next. next ≡ kept_place debug.now.bytes.now (section + 1)) }
    ensures free { IfOk result (λ next. (n : ℕ) → n < next → Differ stripped.now.bytes.now debug.now.bytes.now n → ⊥) }
    ensures first { IfErr result (DifferFirst stripped.now.bytes.now debug.now.bytes.now) }
{
    if !is_kept(debug, section) {
        return Ok(place);
    }
    if !place_matches(stripped, debug, place, section) {
        return Err(place);
    }
    Ok(place + 1)
}

/// The kept sections of the debug file, in order, match the sections that stand with them; else the first place at which the two lists
/// differ.
#[tactic(auto, using(crate::proofs::MatchLaws::list_laws))]
fn lists_match(stripped: &ElfFile, debug: &ElfFile) -> Result<(), u32>
    ensures none { OnOk result ((n : ℕ) → Differ stripped.now.bytes.now debug.now.bytes.now n → ⊥) }
    ensures first { IfErr result (DifferFirst stripped.now.bytes.now debug.now.bytes.now) }
{
    let mut place = 0_u32;
    for section in 0..debug.section_count() {
        place = place_behind(stripped, debug, place, section)?;
    }
    match partner_at(stripped, place) {
        Some(_) => Err(place),
        None => Ok(()),
    }
}

/// The stripped file and the debug file match; else the place at which they don't.
#[tactic(auto, using(crate::proofs::MatchRows::whole_rows))]
pub fn match_all(stripped: &ElfFile, debug: &ElfFile) -> Result<(), u32>
    requires there { section_count stripped.now.bytes.now ≢ 0 }
    ensures none { OnOk result ((place : ℕ) → DontMatch stripped.now.bytes.now debug.now.bytes.now place → ⊥) }
    ensures lists { OnOk result ((n : ℕ) → Differ stripped.now.bytes.now debug.now.bytes.now n → ⊥) }
    ensures refused { IfErr result (DontMatch stripped.now.bytes.now debug.now.bytes.now) }
{
    if !files_match(stripped, debug) {
        return Err(0);
    }
    lists_match(stripped, debug)?;
    Ok(())
}
