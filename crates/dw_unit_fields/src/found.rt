//! What a pass over a unit section finds of paths, and of texts by index.

ghost use Rattle.std.specs.Prelude.{[], ◌∷◌, ◌≡◌, ◌⊎◌, ◌+◌, ◌≤◌, ◌<◌, length, map, true, IfErr, IfOk, IfSome, OnOk};
ghost use Rattle.dw_base.specs.Cells.{Located, cells_at, field_of, is_placed, offset_of};
ghost use Rattle.dw_base.specs.FileViews.{view_cells};
ghost use Rattle.dw_base.specs.RelocationRows.{OffsetFails};
ghost use Rattle.dw_base.specs.Texts.{IsNulEnd, ends_in};
ghost use Rattle.dw_unit_fields.specs.EntryTexts.{FoundTexts as FoundOf, Tables, TextTables as TablesOf, base_noted, index_noted, inline_noted, no_paths, none_found, noted, offset_in, stray_noted, value_field};
ghost use Rattle.dw_unit_fields.specs.PlainSections.{IsPlain};
ghost use Rattle.dw_unit_fields.specs.SectionFields.{SectionFields as PathsOf, fields_into, found_with, with_field, with_fields, with_inline, with_stray_at};

use crate::field_list::FieldList;
use crate::field_offsets::{offset_at, plain_bytes};
use crate::fields::{InlinePath, TextBase, TextIndex};
use dw_base::{DebugSection, Refusal, Value, nul_end, number_in};
use dw_offsets::OffsetField;
use dw_view::{SectionBytes, View};
use std::alloc::{AllocError, Global};
use std::marker::Model;

/// What a section says of texts, line tables and macro units (DWARF 5, 7.5.5 and 3.1.1).
#[derive(Drop)]
pub struct SectionFields {
    /// The section's number.
    pub section: u32,
    /// For each section of debug data, in the order of the table, the fields that hold offsets into it.
    fields: [Vec<OffsetField>; 9],
    /// The paths that stand in their values.
    pub inline: Vec<InlinePath>,
    /// Where the first value begins that is to say where a line table or a macro unit starts, and has a form that can't.
    pub stray: Option<u64>,
}

impl Model for SectionFields {
    ghost Value = { PathsOf };

    ghost view = { λ u. record { number = u.section; fields = map (λ l. l.items) u.fields; inline = u.inline.items; stray = u.stray } };
}

impl SectionFields {
    /// Nothing was found in a section yet.
    pub fn new(alloc: Global, section: u32) -> SectionFields
        ensures { result ≡ no_paths section }
    {
        SectionFields {
            section,
            fields: [
                Vec::new(alloc),
                Vec::new(alloc),
                Vec::new(alloc),
                Vec::new(alloc),
                Vec::new(alloc),
                Vec::new(alloc),
                Vec::new(alloc),
                Vec::new(alloc),
                Vec::new(alloc),
            ],
            inline: Vec::new(alloc),
            stray: None,
        }
    }

    /// The fields that hold offsets into a section of debug data: of paths into the tables of texts, and those that say where
    /// line tables and macro units start.
    pub fn fields(&self, into: DebugSection) -> &[OffsetField]
        ensures fields { result.now ≡ fields_into self.now into }
    {
        self.fields[into as usize].as_slice()
    }

    /// Puts these fields in the stead of those that hold offsets into a section.
    #[tactic(auto, using(crate::proofs::FieldListLaws::list_rules))]
    pub fn put(&mut self, into: DebugSection, fields: Vec<OffsetField>)
        ensures { self.new ≡ with_fields self.old into fields.items }
    {
        self.fields[into as usize] = fields;
    }
}

/// What a pass over a unit section found so far of paths, line tables and macro units. Most of it are the fields of texts, which take half
/// the space here.
#[derive(Drop)]
pub struct FoundFields {
    /// The section's number.
    pub section: u32,
    /// The fields that hold offsets into `.debug_str`.
    str: FieldList,
    /// Those that hold offsets into `.debug_line_str`.
    line_str: FieldList,
    /// Those that say where line tables start.
    lines: Vec<OffsetField>,
    /// Those that say where macro units start.
    macros: Vec<OffsetField>,
    /// The paths that stand in their values.
    inline: Vec<InlinePath>,
    /// Where the first value begins that is to say where a line table or a macro unit starts, and has a form that can't.
    pub stray: Option<u64>,
}

impl Model for FoundFields {
    ghost Value = { PathsOf };

    ghost view = { λ u. found_with u.section u.str u.line_str u.lines.items u.macros.items u.inline.items u.stray };
}

impl FoundFields {
    /// Nothing was found in a section yet.
    #[tactic(auto, using(crate::proofs::FoundFieldLaws::new_rules))]
    pub(crate) fn new(alloc: Global, section: u32) -> FoundFields
        ensures { result ≡ no_paths section }
    {
        FoundFields {
            section,
            str: FieldList::new(alloc),
            line_str: FieldList::new(alloc),
            lines: Vec::new(alloc),
            macros: Vec::new(alloc),
            inline: Vec::new(alloc),
            stray: None,
        }
    }

    /// The fields that say where line tables start.
    #[tactic(auto, using(crate::proofs::FoundFieldLaws::into_rules))]
    pub(crate) fn lines(&self) -> &[OffsetField]
        ensures fields { result.now ≡ fields_into self.now DebugSection.Line }
    {
        self.lines.as_slice()
    }

    /// The fields that say where macro units start.
    #[tactic(auto, using(crate::proofs::FoundFieldLaws::into_rules))]
    pub(crate) fn macros(&self) -> &[OffsetField]
        ensures fields { result.now ≡ fields_into self.now DebugSection.Macro }
    {
        self.macros.as_slice()
    }

    /// Adds a field that holds an offset into `.debug_str`.
    #[tactic(auto, using(crate::proofs::FoundFieldLaws::push_rules))]
    pub(crate) fn push_str(&mut self, field: OffsetField) -> Result<(), AllocError>
        ensures { OnOk result (self.new ≡ with_field self.old DebugSection.Str field) }
    {
        self.str.push(field)?;
        Ok(())
    }

    /// Adds a field that holds an offset into `.debug_line_str`.
    #[tactic(auto, using(crate::proofs::FoundFieldLaws::push_rules))]
    pub(crate) fn push_line_str(&mut self, field: OffsetField) -> Result<(), AllocError>
        ensures { OnOk result (self.new ≡ with_field self.old DebugSection.LineStr field) }
    {
        self.line_str.push(field)?;
        Ok(())
    }

    /// Adds a field that says where a line table starts.
    #[tactic(auto, using(crate::proofs::FoundFieldLaws::push_rules))]
    pub(crate) fn push_line(&mut self, field: OffsetField) -> Result<(), AllocError>
        ensures { OnOk result (self.new ≡ with_field self.old DebugSection.Line field) }
    {
        self.lines.push(field)?;
        Ok(())
    }

    /// Adds a field that says where a macro unit starts.
    #[tactic(auto, using(crate::proofs::FoundFieldLaws::push_rules))]
    pub(crate) fn push_macro(&mut self, field: OffsetField) -> Result<(), AllocError>
        ensures { OnOk result (self.new ≡ with_field self.old DebugSection.Macro field) }
    {
        self.macros.push(field)?;
        Ok(())
    }

    /// Adds a path that stands in its value.
    pub(crate) fn push_inline(&mut self, path: InlinePath) -> Result<(), AllocError>
        ensures { OnOk result (self.new ≡ with_inline self.old path) }
    {
        self.inline.push(path)?;
        Ok(())
    }

    /// Keeps where a value begins that is to say a start and can't, where none is kept yet.
    pub(crate) fn keep_stray(&mut self, place: u64)
        ensures { self.new ≡ with_stray_at self.old place }
    {
        if self.stray.is_none() {
            self.stray = Some(place);
        }
    }

    /// The same, as it is given.
    #[tactic(auto, using(crate::proofs::FoundFieldLaws::given_rules))]
    pub fn given(&self, alloc: Global) -> Result<SectionFields, AllocError>
        ensures { IfOk result (λ u. u ≡ self.now) }
    {
        let str = self.str.fields(alloc)?;
        let line_str = self.line_str.fields(alloc)?;
        let lines = copied(alloc, self.lines.as_slice())?;
        let macros = copied(alloc, self.macros.as_slice())?;
        let inline = copied_paths(alloc, self.inline.as_slice())?;
        Ok(with_lists(
            alloc,
            self.section,
            str,
            line_str,
            lines,
            macros,
            inline,
            self.stray,
        ))
    }
}

/// What a section says, by the lists of fields that units have.
fn with_lists(
    alloc: Global,
    section: u32,
    str: Vec<OffsetField>,
    line_str: Vec<OffsetField>,
    lines: Vec<OffsetField>,
    macros: Vec<OffsetField>,
    inline: Vec<InlinePath>,
    stray: Option<u64>,
) -> SectionFields
    ensures { result ≡ found_with section str.items line_str.items lines.items macros.items inline.items stray }
{
    SectionFields {
        section,
        fields: [
            Vec::new(alloc),
            Vec::new(alloc),
            Vec::new(alloc),
            str,
            line_str,
            Vec::new(alloc),
            lines,
            macros,
            Vec::new(alloc),
        ],
        inline,
        stray,
    }
}

/// A copy of these fields.
fn copied(alloc: Global, fields: &[OffsetField]) -> Result<Vec<OffsetField>, AllocError>
    ensures { IfOk result (λ all. all.items ≡ fields.now) }
{
    let mut all = Vec::new(alloc);
    all.extend_from_slice(fields)?;
    Ok(all)
}

/// A copy of these paths.
fn copied_paths(alloc: Global, paths: &[InlinePath]) -> Result<Vec<InlinePath>, AllocError>
    ensures { IfOk result (λ all. all.items ≡ paths.now) }
{
    let mut all = Vec::new(alloc);
    all.extend_from_slice(paths)?;
    Ok(all)
}

/// What a pass over a unit section found: of the units so far the paths, and of the unit where it is what
/// it says by index.
#[derive(Drop)]
pub(crate) struct FoundTexts {
    /// The paths.
    pub paths: FoundFields,
    /// The base of the unit, the first that its first entry says.
    pub base: Option<TextBase>,
    /// The values of the unit that name texts by index.
    pub indexes: Vec<TextIndex>,
}

impl Model for FoundTexts {
    ghost Value = { FoundOf };

    ghost view = { λ f. record { paths = f.paths; base = f.base; indexes = f.indexes.items } };
}

impl FoundTexts {
    /// Nothing was found in a section yet.
    pub(crate) fn new(alloc: Global, section: u32) -> FoundTexts
        ensures { result ≡ none_found (no_paths section) }
    {
        FoundTexts {
            paths: FoundFields::new(alloc, section),
            base: None,
            indexes: Vec::new(alloc),
        }
    }

    /// Adds a field that holds an offset into `.debug_str`.
    pub(crate) fn push_str(&mut self, field: OffsetField) -> Result<(), AllocError>
        ensures { OnOk result (self.new ≡ noted self.old DebugSection.Str field) }
    {
        self.paths.push_str(field)?;
        Ok(())
    }

    /// Adds a field that holds an offset into `.debug_line_str`.
    pub(crate) fn push_line_str(&mut self, field: OffsetField) -> Result<(), AllocError>
        ensures { OnOk result (self.new ≡ noted self.old DebugSection.LineStr field) }
    {
        self.paths.push_line_str(field)?;
        Ok(())
    }

    /// Adds a field that says where a line table starts.
    pub(crate) fn push_line(&mut self, field: OffsetField) -> Result<(), AllocError>
        ensures { OnOk result (self.new ≡ noted self.old DebugSection.Line field) }
    {
        self.paths.push_line(field)?;
        Ok(())
    }

    /// Adds a field that says where a macro unit starts.
    pub(crate) fn push_macro(&mut self, field: OffsetField) -> Result<(), AllocError>
        ensures { OnOk result (self.new ≡ noted self.old DebugSection.Macro field) }
    {
        self.paths.push_macro(field)?;
        Ok(())
    }

    /// Adds a path that stands in its value.
    pub(crate) fn push_inline(&mut self, path: InlinePath) -> Result<(), AllocError>
        ensures { OnOk result (self.new ≡ inline_noted self.old path) }
    {
        self.paths.push_inline(path)?;
        Ok(())
    }

    /// Adds a value that names a text by index.
    pub(crate) fn push_index(&mut self, index: TextIndex) -> Result<(), AllocError>
        ensures { OnOk result (self.new ≡ index_noted self.old index) }
    {
        self.indexes.push(index)?;
        Ok(())
    }

    /// Keeps the base of the unit, where none is kept yet.
    pub(crate) fn keep_base(&mut self, base: TextBase)
        ensures { self.new ≡ base_noted self.old base }
    {
        if self.base.is_none() {
            self.base = Some(base);
        }
    }

    /// Keeps where a value begins that is to say a start and can't, where none is kept yet.
    pub(crate) fn keep_stray(&mut self, place: u64)
        ensures { self.new ≡ stray_noted self.old place }
    {
        self.paths.keep_stray(place);
    }

    /// The unit ends: what it says by index is forgotten.
    pub(crate) fn end_unit(&mut self)
        ensures { self.new ≡ none_found self.old.paths }
    {
        self.base = None;
        self.indexes.clear();
    }
}

/// A table of texts (DWARF 5, 7.26), and where its last text ends.
#[derive(Drop)]
pub struct TextTable<'a> {
    /// Its section.
    pub section: SectionBytes<'a>,
    /// Where its last text ends, in bytes from its start: behind the last NUL.
    pub end: u64,
}

impl<'a> Model for TextTable<'a> {
    ghost Value = { Located };

    ghost view = { λ t. t.section };

    ghost invariant = { λ t. IsNulEnd t.section.bytes t.end };
}

impl<'a> TextTable<'a> {
    /// The table of a section; where its last text ends is looked up once.
    pub fn new(section: SectionBytes<'a>) -> TextTable<'a>
        ensures { result ≡ section.entry }
    {
        let end = nul_end(section.bytes) as u64;
        TextTable { section, end }
    }

    /// A text that ends begins at a place.
    #[tactic(auto, using(crate::proofs::EntryTextLaws::end_rules))]
    pub(crate) fn ends(&self, place: u64) -> bool
        ensures { result ≡ ends_in self.now.bytes place }
    {
        place < self.end
    }
}

/// The tables of texts of a view; one that isn't there has no bytes.
#[derive(Drop)]
pub struct TextTables<'a> {
    /// `.debug_str`.
    pub str: TextTable<'a>,
    /// `.debug_line_str`.
    pub line_str: TextTable<'a>,
}

impl<'a> Model for TextTables<'a> {
    ghost Value = { TablesOf };

    ghost view = { λ t. record { str = t.str; line_str = t.line_str } };
}

/// A section whose values name texts, with the tables of texts.
#[derive(Drop)]
pub(crate) struct SectionTexts<'v, 'f, 't, 'a> {
    /// The view.
    pub view: &'v View<'f>,
    /// The section's number.
    pub section: u32,
    /// Its bytes, where it is known that no relocation begins in it: relocations are looked for once in it, and not at each field.
    plain: Option<&'v [u8]>,
    /// The tables of texts.
    tables: &'t TextTables<'a>,
}

impl<'v, 'f, 't, 'a> Model for SectionTexts<'v, 'f, 't, 'a> {
    ghost Value = { Tables };

    ghost view = { λ s. record { order = s.view.now.order; number = s.section; cells = view_cells s.view.now s.section; str = s.tables.now.str; line_str = s.tables.now.line_str } };

    ghost invariant = { λ s. (s.section < length s.view.now.sections) × IfSome s.plain (λ b. IsPlain s.view.now s.section b.now) };
}

impl<'v, 'f, 't, 'a> SectionTexts<'v, 'f, 't, 'a> {
    /// The section of a number of a view.
    pub(crate) fn new(
        view: &'v View<'f>,
        section: u32,
        tables: &'t TextTables<'a>,
    ) -> SectionTexts<'v, 'f, 't, 'a>
        requires there { section < length view.now.sections }
        ensures { result ≡ record { order = view.now.order; number = section; cells = view_cells view.now section; str = tables.now.str; line_str = tables.now.line_str } }
    {
        SectionTexts {
            view,
            section,
            plain: plain_bytes(view, section),
            tables,
        }
    }

    /// `.debug_str`.
    pub(crate) fn str(&self) -> &TextTable<'a>
        ensures { result.now ≡ self.now.str }
    {
        let tables = self.tables;
        &tables.str
    }

    /// `.debug_line_str`.
    pub(crate) fn line_str(&self) -> &TextTable<'a>
        ensures { result.now ≡ self.now.line_str }
    {
        let tables = self.tables;
        &tables.line_str
    }

    /// The offset that a value's field holds into a table: one into another section counts as past it. Refused as `Relocation` where
    /// a relocation lies on the field only in part, at that, and where the one at it gives no place, at the field.
    #[inline(always)]
    #[tactic(auto, using(crate::proofs::PlainLaws::offset_rules))]
    pub(crate) fn offset(&self, value: &Value, table: &TextTable) -> Result<u64, Refusal>
        requires sized { (value.now.len ≡ 4) ⊎ (value.now.len ≡ 8) }
        requires lies { value.now.at + value.now.len ≤ length self.now.cells }
        ensures offset { IfOk result (λ n. n ≡ offset_in self.now table.now value.now) }
        ensures placed { OnOk result (is_placed (field_of self.now.order (cells_at self.now.cells value.now.at value.now.len)) ≡ true) }
        ensures refused { IfErr result (OffsetFails self.now.order self.now.number self.now.cells (value_field value.now)) }
    {
        if let Some(bytes) = self.plain {
            return Ok(number_in(self.view.order(), bytes, value.at, value.len as u8));
        }
        let offset = value_offset(self.view, self.section, value, table)?;
        Ok(offset)
    }
}

/// The same in the section of a number of a view.
#[inline(never)]
#[tactic(auto, using(crate::proofs::FieldOffsetLaws::value_rules))]
fn value_offset(view: &View, section: u32, value: &Value, table: &TextTable) -> Result<u64, Refusal>
    requires there { section < length view.now.sections }
    requires sized { (value.now.len ≡ 4) ⊎ (value.now.len ≡ 8) }
    requires lies { value.now.at + value.now.len ≤ length (view_cells view.now section) }
    ensures offset { IfOk result (λ n. n ≡ offset_of view.now.order table.now (cells_at (view_cells view.now section) value.now.at value.now.len)) }
    ensures placed { OnOk result (is_placed (field_of view.now.order (cells_at (view_cells view.now section) value.now.at value.now.len)) ≡ true) }
    ensures refused { IfErr result (OffsetFails view.now.order section (view_cells view.now section) (value_field value.now)) }
{
    let offset = offset_at(view, section, value.at, value.len as u8, &table.section)?;
    Ok(offset)
}
