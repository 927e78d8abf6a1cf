//! Where fields of a section hold offsets into a table: the offset that one holds, the number with which it says
//! another, and whether it can say that, by the relocation that begins at it (gABI ch. 4 "Relocation"; DWARF 5, 7.4).
//!
//! This file promises: relocations are looked for once in a section that has none, as all of a linked file, and not at each field.
//! Read first: `specs/Changes.antt`.

ghost use Rattle.std.specs.Bool.{OnFalse, OnTrue};
ghost use Rattle.std.specs.Prelude.{◌≡◌, ◌⊎◌, ◌+◌, ◌^◌, ◌<◌, ◌≤◌, length, IfSome, Some};
ghost use Rattle.dw_base.specs.Cells.{bytes_of, cells_at};
ghost use Rattle.dw_base.specs.FileViews.{view_cells};
ghost use Rattle.dw_base.specs.NewOffsets.{symbol_value, with_offset};
ghost use Rattle.dw_base.specs.Numbers.{number_bytes};
ghost use Rattle.dw_base.specs.RelocationFields.{relocation_at};
ghost use Rattle.dw_base.specs.declared.shared.Order.{Order as OrderOf};
ghost use Rattle.dw_meaning.specs.NewAddends.{Makes, Misses};
ghost use Rattle.dw_rewrite.specs.Changes.{FieldSource as SourceOf, offset_at, offset_bytes};
ghost use Rattle.dw_unit_fields.specs.PlainSections.{IsPlain};
ghost use Rattle.dw_view.specs.Relocations.{relocation_value};

use dw_base::number_in;
use dw_offsets::OffsetField;
use dw_unit_fields::plain_bytes;
use dw_view::{Relocation, SectionBytes, View};
use elf_relocs::addend_makes;
use std::marker::Model;

/// A section of a view whose fields hold offsets into a table.
#[derive(Drop)]
pub(crate) struct FieldSource<'v, 'f, 't> {
    /// The view.
    view: &'v View<'f>,
    /// The section's number.
    section: u32,
    /// Its bytes, where it is known that no relocation begins in it.
    plain: Option<&'v [u8]>,
    /// The number of the table's section; 0 where it isn't there.
    number: u32,
    /// The table.
    table: &'t [u8],
}

impl<'v, 'f, 't> Model for FieldSource<'v, 'f, 't> {
    ghost Value = { SourceOf };

    ghost view = { λ s. record { order = s.view.now.order; cells = view_cells s.view.now s.section; table = record { number = s.number; bytes = s.table.now } } };

    ghost invariant = { λ s. (s.section < length s.view.now.sections) × IfSome s.plain (λ b. IsPlain s.view.now s.section b.now) };
}

impl<'v, 'f, 't> FieldSource<'v, 'f, 't> {
    /// The fields of the section of a number, and the table of another.
    pub(crate) fn new(
        view: &'v View<'f>,
        section: u32,
        number: u32,
        table: &'t [u8],
    ) -> FieldSource<'v, 'f, 't>
        requires there { section < length view.now.sections }
        ensures { result ≡ record { order = view.now.order; cells = view_cells view.now section; table = record { number = number; bytes = table.now } } }
    {
        FieldSource {
            view,
            section,
            plain: plain_bytes(view, section),
            number,
            table,
        }
    }

    /// The table.
    pub(crate) fn table(&self) -> &'t [u8]
        ensures { result.now ≡ self.now.table.bytes }
    {
        self.table
    }

    /// The offset that a field holds.
    #[inline(always)]
    #[tactic(auto, using(crate::proofs::PlainLaws::offset_rules))]
    pub(crate) fn offset(&self, field: OffsetField) -> u64
        requires sized { (field.size ≡ 4) ⊎ (field.size ≡ 8) }
        requires inside { field.at + field.size ≤ length self.now.cells }
        ensures value { result ≡ offset_at self.now field }
    {
        match self.plain {
            Some(bytes) => number_in(self.view.order(), bytes, field.at, field.size),
            None => offset_there(self.view, self.section, self.number, self.table, field),
        }
    }

    /// The number with which a field says another offset.
    #[inline(always)]
    #[tactic(auto, using(crate::proofs::PlainLaws::number_rules))]
    pub(crate) fn number(&self, field: OffsetField, offset: u64) -> u64
        requires sized { (field.size ≡ 4) ⊎ (field.size ≡ 8) }
        requires inside { field.at + field.size ≤ length self.now.cells }
        ensures bytes { number_bytes self.now.order field.size result ≡ offset_bytes self.now field offset }
        ensures fits { result < 256 ^ field.size }
    {
        match self.plain {
            Some(_) => low_bytes(offset, field.size),
            None => number_there(self.view, self.section, field, offset),
        }
    }

    /// A field can say an offset: false where the relocation that begins at it has an addend of 32 bits, which
    /// doesn't make the offset in the eight bytes of the field.
    pub(crate) fn makes(&self, field: OffsetField, offset: u64) -> bool
        requires sized { (field.size ≡ 4) ⊎ (field.size ≡ 8) }
        requires inside { field.at + field.size ≤ length self.now.cells }
        ensures makes { OnTrue result (Makes (relocation_at self.now.cells field.at) field.size offset) }
        ensures misses { OnFalse result (Misses (relocation_at self.now.cells field.at) field.size offset) }
    {
        makes_there(self.view, self.section, field, offset)
    }
}

/// The offset that a field of the section of a number holds into a table.
#[inline(never)]
#[tactic(auto, using(crate::proofs::SourceLaws::offset_rules))]
fn offset_there(view: &View, section: u32, number: u32, table: &[u8], field: OffsetField) -> u64
    requires there { section < length view.now.sections }
    requires sized { (field.size ≡ 4) ⊎ (field.size ≡ 8) }
    requires inside { field.at + field.size ≤ length (view_cells view.now section) }
    ensures value { result ≡ offset_at (record { order = view.now.order; cells = view_cells view.now section; table = record { number = number; bytes = table.now } }) field }
{
    let value = view.value(section, field.at, field.size);
    let into = SectionBytes {
        number,
        bytes: table,
    };
    into.offset(value)
}

/// The number with which a field of the section of a number says another offset.
#[inline(never)]
#[tactic(auto, using(crate::proofs::SourceLaws::number_rules))]
fn number_there(view: &View, section: u32, field: OffsetField, offset: u64) -> u64
    requires there { section < length view.now.sections }
    requires sized { (field.size ≡ 4) ⊎ (field.size ≡ 8) }
    requires inside { field.at + field.size ≤ length (view_cells view.now section) }
    ensures bytes { number_bytes view.now.order field.size result ≡ bytes_of (with_offset view.now.order (cells_at (view_cells view.now section) field.at field.size) offset) }
    ensures fits { result < 256 ^ field.size }
{
    let number = view.moved_number(section, field.at, field.size, offset);
    low_bytes(number, field.size)
}

/// What four or eight bytes hold of a number.
#[tactic(auto, using(crate::proofs::SourceLaws::low_rules))]
fn low_bytes(number: u64, size: u8) -> u64
    requires sized { (size ≡ 4) ⊎ (size ≡ 8) }
    ensures same { (order : OrderOf) → number_bytes order size result ≡ number_bytes order size number }
    ensures fits { result < 256 ^ size }
{
    if size == 4 {
        return number % 0x1_0000_0000;
    }
    number
}

/// A field of the section of a number can say an offset.
#[tactic(auto, using(crate::proofs::SourceLaws::makes_rules))]
fn makes_there(view: &View, section: u32, field: OffsetField, offset: u64) -> bool
    requires there { section < length view.now.sections }
    requires sized { (field.size ≡ 4) ⊎ (field.size ≡ 8) }
    requires inside { field.at + field.size ≤ length (view_cells view.now section) }
    ensures makes { OnTrue result (Makes (relocation_at (view_cells view.now section) field.at) field.size offset) }
    ensures misses { OnFalse result (Misses (relocation_at (view_cells view.now section) field.at) field.size offset) }
{
    match view.relocation(section, field.at) {
        Some(relocation) => relocation_makes(relocation, field.size, offset),
        None => true,
    }
}

/// The field of a relocation can say an offset: by its addend, or where it has none by the number in the field, which
/// can be any.
#[tactic(auto, using(crate::proofs::SourceLaws::addend_rules))]
fn relocation_makes(relocation: Relocation, size: u8, offset: u64) -> bool
    requires sized { (size ≡ 4) ⊎ (size ≡ 8) }
    ensures makes { OnTrue result (Makes (Some (relocation_value relocation)) size offset) }
    ensures misses { OnFalse result (Misses (Some (relocation_value relocation)) size offset) }
{
    match relocation.addend {
        Some(_) => addend_makes(
            relocation.class,
            symbol_value(relocation.target),
            size,
            offset,
        ),
        None => true,
    }
}

/// The value of a symbol that is defined, by its place; 0 where it isn't.
fn symbol_value(target: Option<(u32, u64)>) -> u64
    ensures { result ≡ symbol_value target }
{
    match target {
        Some((_, value)) => value,
        None => 0,
    }
}
