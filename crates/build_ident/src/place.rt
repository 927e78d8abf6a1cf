//! Where the build-id of a file stands: in the first section `.note.gnu.build-id` of type NOTE (gABI
//! ch. 4 "Special Sections", ch. 5 "Note Section"; the GNU build-id note).

ghost use Rattle.std.specs.Prelude.{◌≡◌, ◌≤◌, ◌<◌, ◌+◌, false, length, IfErr, IfOk, IfNone, IfSome, OnOk, MatchOption};
ghost use Rattle.dw_base.specs.Elf.{nth_section, order_of, contents_of, section_count, name_table};
ghost use Rattle.dw_base.specs.Notes.{build_id_of, id_in, is_id_section};
ghost use Rattle.dw_base.specs.SectionNames.{note_build_id};
ghost use Rattle.dw_base.specs.Texts.{has_nul, same_text, text, text_in};
ghost use Rattle.dw_base.specs.declared.fault.Refusal.{Refusal};
ghost use Rattle.build_ident.specs.IdFails.{id_section, IdFails, IsIdPlace};

use crate::notes::{Field, id_in};
use crate::own::own_bytes;
use dw_base::elf_numbers::SHT_NOTE;
use dw_base::{Kind, Refusal};
use elf_file::ElfFile;

/// The name of the section with the note of the build-id.
const NOTE_BUILD_ID: &[u8] = b".note.gnu.build-id";

/// The place of a build-id in its file.
#[derive(Clone, Copy, Debug, PartialEq, Eq)]
pub struct IdPlace {
    /// In bytes from the start of the file.
    pub at: u64,
    /// How many bytes it has: 2 to 20.
    pub len: u8,
}

/// The build-id of a file by the section of its note.
#[derive(Clone, Copy, Debug, PartialEq, Eq)]
pub struct SectionId {
    /// The number of the section.
    pub section: u32,
    /// Where the id begins, in bytes from the section's start.
    pub place: u64,
    /// How many bytes it has: 2 to 20.
    pub size: u64,
}

/// The place of the build-id. `None` exactly where no section may have its note. Refused as `BuildId` at
/// (the section, 0) exactly where that section has no such note that fits, the id has not 2 to 20 bytes,
/// or they also belong to the file header, the program headers or another section.
#[tactic(auto, using(crate::proofs::IdLaws::find_rules))]
pub fn find_id(elf: &ElfFile) -> Result<Option<IdPlace>, Refusal>
    ensures absent { IfOk result (λ o. IfNone o (id_section elf.now.bytes.now ≡ None)) }
    ensures value { IfOk result (λ o. IfSome o (λ place. IsIdPlace elf.now.bytes.now place.at place.len)) }
    ensures none { OnOk result ((r : Refusal) → IdFails elf.now.bytes.now r → ⊥) }
    ensures refused { IfErr result (IdFails elf.now.bytes.now) }
    ensures inside { IfOk result (λ o. IfSome o (λ place. place.at + place.len ≤ length elf.now.bytes.now)) }
    ensures some { IfOk result (λ o. IfSome o (λ place. 2 ≤ place.len)) }
    ensures wide { IfOk result (λ o. IfSome o (λ place. place.len ≤ 20)) }
{
    let Some(section) = id_section(elf) else {
        return Ok(None);
    };
    let place = found(elf, section)?;
    Ok(Some(place))
}

/// The build-id of a file, whatever else its bytes belong to: that of the first section that may have it, `None` where that has none.
#[tactic(auto, using(crate::proofs::IdLaws::section_rules))]
pub fn section_id(elf: &ElfFile) -> Option<SectionId>
    ensures value { MatchOption result (build_id_of elf.now.bytes.now ≡ None) (λ id. build_id_of elf.now.bytes.now ≡ Some (record { section = id.section; descriptor = record { place = id.place; size = id.size } })) }
    ensures inside { IfSome result (λ id. (nth_section elf.now.bytes.now id.section).offset + (id.place + id.size) ≤ length elf.now.bytes.now) }
    ensures there { IfSome result (λ id. id.section < section_count elf.now.bytes.now) }
{
    let section = id_section(elf)?;
    let field = id_field(elf, section)?;
    Some(SectionId {
        section,
        place: field.place,
        size: field.size,
    })
}

/// The place of the build-id, whose note stands in this section.
#[tactic(auto, using(crate::proofs::IdLaws::found_rules))]
fn found(elf: &ElfFile, section: u32) -> Result<IdPlace, Refusal>
    requires is { id_section elf.now.bytes.now ≡ Some section }
    requires there { section < section_count elf.now.bytes.now }
    ensures value { IfOk result (λ place. IsIdPlace elf.now.bytes.now place.at place.len) }
    ensures none { OnOk result ((r : Refusal) → IdFails elf.now.bytes.now r → ⊥) }
    ensures refused { IfErr result (IdFails elf.now.bytes.now) }
    ensures inside { IfOk result (λ place. place.at + place.len ≤ length elf.now.bytes.now) }
    ensures some { IfOk result (λ place. 2 ≤ place.len) }
    ensures wide { IfOk result (λ place. place.len ≤ 20) }
{
    let Some(field) = id_field(elf, section) else {
        return Err(Refusal::at(Kind::BuildId, section, 0));
    };
    let place = elf.section(section).offset + field.place;
    own_bytes(elf, section, field, place)?;
    Ok(IdPlace {
        at: place,
        len: field.size as u8,
    })
}

/// The build-id in the section of a number, a section of notes.
#[tactic(auto, using(crate::proofs::IdLaws::field_rules))]
fn id_field(elf: &ElfFile, section: u32) -> Option<Field>
    requires there { section < section_count elf.now.bytes.now }
    ensures value { MatchOption result (id_in (order_of elf.now.bytes.now) (contents_of elf.now.bytes.now section) ≡ None) (λ d. id_in (order_of elf.now.bytes.now) (contents_of elf.now.bytes.now section) ≡ Some (record { place = d.place; size = d.size })) }
    ensures inside { IfSome result (λ d. (nth_section elf.now.bytes.now section).offset + (d.place + d.size) ≤ length elf.now.bytes.now) }
    ensures some { IfSome result (λ d. 2 ≤ d.size) }
    ensures wide { IfSome result (λ d. d.size ≤ 20) }
{
    let field = id_in(elf.order, elf.contents(section))?;
    Some(field)
}

/// The first section that may have the note of the build-id.
#[tactic(auto, using(crate::proofs::SectionLaws::search_rules), unfolding(crate::specs::IdFails::id_section))]
fn id_section(elf: &ElfFile) -> Option<u32>
    ensures value { MatchOption result (id_section elf.now.bytes.now ≡ None) (λ i. id_section elf.now.bytes.now ≡ Some i) }
    ensures there { IfSome result (λ i. i < section_count elf.now.bytes.now) }
{
    let count = elf.section_count();
    for index in 0..count {
        if is_id_section(elf, index) {
            return Some(index);
        }
    }
    None
}

/// Whether the section of a number is one of notes, with the name of that for the build-id.
#[tactic(auto, using(crate::proofs::SectionLaws::kind_rules), unfolding(dw_base::specs::Notes::is_id_section))]
fn is_id_section(elf: &ElfFile, index: u32) -> bool
    requires there { index < section_count elf.now.bytes.now }
    ensures value { result ≡ is_id_section elf.now.bytes.now index }
{
    let section = elf.section(index);
    if section.kind != SHT_NOTE {
        return false;
    }
    is_id_name(elf, section.name)
}

/// Whether the text at a place of the section name table is the name of the section for the build-id.
#[tactic(auto, using(crate::proofs::SectionLaws::name_rules), unfolding(dw_base::specs::Elf::name_table))]
fn is_id_name(elf: &ElfFile, name: u32) -> bool
    ensures value { result ≡ same_text (text_in (name_table elf.now.bytes.now) name) note_build_id }
{
    if elf.names == 0 {
        return false;
    }
    has_text(elf.contents(elf.names), u64::from(name), NOTE_BUILD_ID)
}

/// Whether a text stands at a place of a string table.
#[tactic(auto, using(crate::proofs::TextLaws::past_rules), unfolding(dw_base::specs::Texts::text_in))]
fn has_text(table: &[u8], place: u64, text: &[u8]) -> bool
    requires bare { has_nul text.now ≡ false }
    requires some { 0 < length text.now }
    ensures value { result ≡ same_text (text_in table.now place) text.now }
{
    if place >= table.len() as u64 {
        return false;
    }
    is_front_text(&table[place as usize..], text)
}

/// Whether a text stands in front of some bytes, with a NUL or their end behind it.
#[tactic(auto, using(crate::proofs::TextLaws::front_rules))]
fn is_front_text(bytes: &[u8], name: &[u8]) -> bool
    requires bare { has_nul name.now ≡ false }
    ensures value { result ≡ same_text (text bytes.now) name.now }
{
    if !bytes.starts_with(name) {
        return false;
    }
    if bytes.len() == name.len() {
        return true;
    }
    bytes[name.len()] == 0
}
