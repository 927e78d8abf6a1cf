//! The fields of slots (DWARF 5, 7.26).
//!
//! This file promises: the fields are given in the order of their places, each once, only where each slot can be read and
//! names a text; and they are refused only for a slot of which that doesn't hold.

ghost use Rattle.std.specs.Prelude.{◌≡◌, ◌↔◌, ◌+◌, ◌^◌, ◌≤◌, ◌<◌, ◌∷◌, [], true, Some, length, IsTrue, IfOk, IfErr, OnOk};
ghost use Rattle.dw_base.specs.Cells.{offset_into};
ghost use Rattle.dw_base.specs.DebugSections.{name_of};
ghost use Rattle.dw_base.specs.FileViews.{section_named};
ghost use Rattle.dw_base.specs.Forms.{width_size};
ghost use Rattle.dw_base.specs.Lists.{tabulate};
ghost use Rattle.dw_base.specs.Paths.{mapped_path};
ghost use Rattle.dw_base.specs.Refusals.{Blames};
ghost use Rattle.dw_base.specs.RelocationRows.{OffsetFails, OffsetReads};
ghost use Rattle.dw_base.specs.Slots.{slot_at, slot_total, slots_of};
ghost use Rattle.dw_base.specs.StringOffsets.{AreContributions};
ghost use Rattle.dw_base.specs.Texts.{ends_in, text_in};
ghost use Rattle.dw_base.specs.ViewData.{located, string_offsets};
ghost use Rattle.dw_offsets.specs.PathSlots.{AllLieIn, IsSlotField, LiesIn, SlotRefuses, SlotTable, SlotTaken, SlotsRefuse, SlotsTaken, slot_in, slot_offset, as_field, slots_in, table_in};
ghost use Rattle.dw_offsets.specs.SlotTables.{TableFits};

use crate::fields::OffsetField;
use crate::name_texts::{Texts, names_text, text_start, texts_of};
use crate::slot_marks::SlotMarks;
use crate::string_offsets::ContributionList;
use dw_base::{Contribution, DebugSection, Fault, Field, Kind, NoMemory, Refusal, Width};
use dw_paths::{Maps, map_path};
use dw_strings::text_at;
use dw_view::View;
use std::alloc::Global;
use std::marker::Model;

/// The section of string offsets, and the texts that they name.
#[derive(Drop)]
pub(crate) struct Table<'v, 'f> {
    /// The view.
    view: &'v View<'f>,
    /// The section's number.
    section: u32,
    /// The texts of `.debug_str`.
    texts: Texts,
    /// Its bytes.
    str: &'v [u8],
}

impl<'v, 'f> Model for Table<'v, 'f> {
    ghost Value = { SlotTable };

    ghost view = { λ t. table_in t.view.now t.section };

    ghost invariant = { λ t. TableFits t.view.now t.section t.texts t.str.now };
}

/// The fields of the slots, in the order of their places, each a path's where a path names the slot. `list` are the
/// contributions of the view, and `marks` says which slots paths name. Refused, for a slot of `.debug_str_offsets`: as
/// `Relocation` only at a relocation that lies on it only in part, or at the slot where its relocation gives no place; at
/// the slot as `StringOffset` only where no text that ends begins at its offset.
#[tactic(auto, using(crate::proofs::PathSlotLaws::pass_laws))]
pub fn all_slots(
    alloc: Global,
    view: &View,
    list: &ContributionList,
    marks: &SlotMarks,
) -> Result<Vec<OffsetField>, Fault>
    requires contributions { AreContributions view.now.order (string_offsets view.now) list.now }
    ensures taken { IfOk result (λ fields. SlotsTaken (slots_in view.now) marks.now (slots_of list.now) [] fields.items) }
    ensures refused { IfErr result (Blames (SlotsRefuse (slots_in view.now) (slots_of list.now))) }
{
    let Some(section) = view.first(DebugSection::StrOffsets) else {
        return Ok(Vec::new(alloc));
    };
    let table = table_of(view, section);
    all_fields(alloc, &table, list.as_slice(), marks)
}

/// The section of string offsets of a view, and the texts that they name.
#[tactic(auto, using(crate::proofs::PathSlotLaws::table_laws))]
pub(crate) fn table_of<'v, 'f>(view: &'v View<'f>, section: u32) -> Table<'v, 'f>
    requires there { section < length view.now.sections }
    requires found { Some section ≡ section_named view.now (name_of DebugSection.StrOffsets) }
    ensures table { result ≡ slots_in view.now }
{
    Table {
        view,
        section,
        texts: texts_of(view),
        str: first_bytes(view, DebugSection::Str),
    }
}

/// The bytes of the first section of a kind, none where there is none.
#[tactic(auto, using(crate::proofs::PathSlotLaws::located_laws))]
pub fn first_bytes<'v>(view: &'v View, section: DebugSection) -> &'v [u8]
    ensures bytes { result.now ≡ (located view.now section).bytes }
    ensures small { length result.now ≤ 2 ^ 31 }
{
    match view.first(section) {
        Some(number) => view.bytes(number),
        None => b"",
    }
}

/// The fields of contributions that lie in the section.
#[tactic(auto, using(crate::proofs::PathSlotLaws::all_laws))]
fn all_fields(
    alloc: Global,
    table: &Table,
    list: &[Contribution],
    marks: &SlotMarks,
) -> Result<Vec<OffsetField>, Fault>
    requires inside { AllLieIn (length table.now.cells) list.now }
    ensures taken { IfOk result (λ fields. SlotsTaken table.now marks.now (slots_of list.now) [] fields.items) }
    ensures refused { IfErr result (Blames (SlotsRefuse table.now (slots_of list.now))) }
{
    let mut fields = Vec::new(alloc);
    for contribution in list {
        push_fields(table, *contribution, marks, &mut fields)?;
    }
    Ok(fields)
}

/// Adds the fields of a contribution that lies in the section.
#[tactic(auto, using(crate::proofs::PathSlotLaws::contribution_laws))]
fn push_fields(
    table: &Table,
    contribution: Contribution,
    marks: &SlotMarks,
    fields: &mut Vec<OffsetField>,
) -> Result<(), Fault>
    requires inside { LiesIn (length table.now.cells) contribution }
    ensures taken { OnOk result (SlotsTaken table.now marks.now (tabulate (slot_at contribution) (slot_total contribution)) fields.old.items fields.new.items) }
    ensures refused { IfErr result (Blames (SlotsRefuse table.now (tabulate (slot_at contribution) (slot_total contribution)))) }
{
    let size = contribution.width.offset_size();
    for i in 0..slot_total(contribution) {
        let at = slot_start(contribution, i);
        push_field(table, at, size, marks, fields)?;
    }
    Ok(())
}

/// How many slots a contribution has.
#[tactic(auto, using(crate::proofs::PathSlotLaws::total_laws))]
fn slot_total(contribution: Contribution) -> u64
    requires header { contribution.base ≤ contribution.end }
    ensures total { result ≡ slot_total contribution }
{
    let room = contribution.end - contribution.base;
    match contribution.width {
        Width::W32 => room / 4,
        Width::W64 => room / 8,
    }
}

/// Where the slot of an index of a contribution starts.
#[tactic(auto, using(crate::proofs::PathSlotLaws::start_laws))]
fn slot_start(contribution: Contribution, i: u64) -> u64
    requires header { contribution.base ≤ contribution.end }
    requires below { i < slot_total contribution }
    ensures start { result ≡ (slot_at contribution i).place }
    ensures inside { result + width_size contribution.width ≤ contribution.end }
{
    match contribution.width {
        Width::W32 => contribution.base + i * 4,
        Width::W64 => contribution.base + i * 8,
    }
}

/// Adds the field of a slot.
#[tactic(auto, using(crate::proofs::PathSlotLaws::field_laws))]
fn push_field(
    table: &Table,
    at: u64,
    size: u8,
    marks: &SlotMarks,
    fields: &mut Vec<OffsetField>,
) -> Result<(), Fault>
    requires some { 0 < size }
    requires wide { size ≤ 8 }
    requires inside { at + size ≤ length table.now.cells }
    ensures taken { OnOk result (SlotsTaken table.now marks.now (record { place = at; size = size } ∷ []) fields.old.items fields.new.items) }
    ensures refused { IfErr result (Blames (SlotRefuses table.now (record { place = at; size = size }))) }
{
    check_slot(table, at, size)?;
    let path = marks.is_marked(at, true);
    fields.push(OffsetField { at, size, path })?;
    Ok(())
}

/// A slot can be taken.
#[tactic(auto, using(crate::proofs::PathSlotLaws::check_laws))]
fn check_slot(table: &Table, at: u64, size: u8) -> Result<(), Refusal>
    requires some { 0 < size }
    requires wide { size ≤ 8 }
    requires inside { at + size ≤ length table.now.cells }
    ensures taken { OnOk result (SlotTaken table.now (record { place = at; size = size })) }
    ensures refused { IfErr result (SlotRefuses table.now (record { place = at; size = size })) }
{
    let field = table.field(at, size)?;
    if !table.names_text(field) {
        return Err(table.refusal(Kind::StringOffset, at));
    }
    Ok(())
}

impl<'v, 'f> Table<'v, 'f> {
    /// The field of a slot.
    #[tactic(auto, using(crate::proofs::PathSlotLaws::slot_laws))]
    fn field(&self, at: u64, size: u8) -> Result<Field, Refusal>
        requires some { 0 < size }
        requires wide { size ≤ 8 }
        requires inside { at + size ≤ length self.now.cells }
        ensures offset { IfOk result (λ f. offset_into self.now.str f ≡ slot_offset self.now (record { place = at; size = size })) }
        ensures reads { OnOk result (OffsetReads self.now.order self.now.cells (as_field (record { place = at; size = size }))) }
        ensures refused { IfErr result (OffsetFails self.now.order self.now.number self.now.cells (as_field (record { place = at; size = size }))) }
    {
        self.view.offset(self.section, at, size)
    }

    /// A text that ends begins where a field says.
    fn names_text(&self, field: Field) -> bool
        ensures ends { result ≡ ends_in self.now.str.bytes (offset_into self.now.str field) }
    {
        names_text(self.view, &self.texts, field)
    }

    /// What the field of a slot that can be taken reads as.
    #[tactic(auto, using(crate::proofs::SharedSlotLaws::value_laws))]
    pub(crate) fn value(&self, field: OffsetField) -> Field
        requires field { IsSlotField self.now field }
        ensures offset { offset_into self.now.str result ≡ slot_offset self.now (slot_in field) }
    {
        self.view.value(self.section, field.at, field.size)
    }

    /// The text where a field says stays when it is mapped.
    pub(crate) fn stays(&self, alloc: Global, maps: &Maps, field: Field) -> Result<bool, NoMemory>
        requires ends { ends_in self.now.str.bytes (offset_into self.now.str field) ≡ true }
        ensures stays { IfOk result (λ b. IsTrue b ↔ (mapped_path maps.now (text_in self.now.str.bytes (offset_into self.now.str field)) ≡ text_in self.now.str.bytes (offset_into self.now.str field))) }
    {
        text_stays(alloc, maps, self.str, text_start(self.view, field))
    }

    /// What refuses a slot.
    pub(crate) fn refusal(&self, kind: Kind, at: u64) -> Refusal
        ensures refusal { result ≡ record { kind = kind; section = self.now.number; offset = at } }
    {
        Refusal::at(kind, self.section, at)
    }
}

/// The text at an offset of a table stays when it is mapped.
fn text_stays(alloc: Global, maps: &Maps, table: &[u8], offset: u64) -> Result<bool, NoMemory>
    requires ends { ends_in table.now offset ≡ true }
    ensures stays { IfOk result (λ b. IsTrue b ↔ (mapped_path maps.now (text_in table.now offset) ≡ text_in table.now offset)) }
{
    let text = match text_at(0, table, offset) {
        Ok(text) => text,
        Err(_) => unreachable!(),
    };
    let mapped = map_path(alloc, maps, text)?;
    Ok(mapped.as_slice() == text)
}
