//! What the line tables of a view say of texts by offsets (DWARF 5, 6.2.4): their fields are those of the tables, in order.
//!
//! Read first: `specs/ViewLines.antt`.

ghost use Rattle.std.specs.Prelude.{◌≡◌, ◌++◌, ◌<◌, IfOk, OnOk};
ghost use Rattle.dw_lines.specs.ViewSources.{view_source};
ghost use Rattle.dw_read.specs.ViewLines.{is_text_of, lines_of_view, lines_with, table_fields, text_field, text_fields};

use dw_base::{DebugSection, LineText, TextPlace, TextSection, Width};
use dw_lines::LineTable;
use dw_offsets::OffsetField;
use dw_starts::table_number;
use dw_unit_fields::SectionFields;
use dw_view::View;
use std::alloc::{AllocError, Global};

/// The texts of a table.
fn texts_of(table: &LineTable) -> &[LineText]
    ensures { result.now ≡ table.now.texts }
{
    &table.texts
}

/// How wide the offsets of a table are.
fn width_of(table: &LineTable) -> Width
    ensures { result ≡ table.now.width }
{
    table.width
}

/// Puts what the line tables say of texts behind what was found, where there are any.
#[tactic(auto, using(crate::proofs::LineFieldLaws::push_rules))]
pub(crate) fn push_lines(
    alloc: Global,
    view: &View,
    tables: &[LineTable],
    paths: &mut Vec<SectionFields>,
) -> Result<(), AllocError>
    ensures { OnOk result (paths.new.items ≡ paths.old.items ++ lines_of_view view.now tables.now) }
{
    if let Some(section) = view.first(DebugSection::Line) {
        paths.push(lines_with(alloc, view, section, tables)?)?;
    }
    Ok(())
}

/// What the line tables of the section of a number say of texts.
#[tactic(auto, using(crate::proofs::LineFieldLaws::with_rules))]
fn lines_with(
    alloc: Global,
    view: &View,
    section: u32,
    tables: &[LineTable],
) -> Result<SectionFields, AllocError>
    ensures { IfOk result (λ u. u ≡ lines_with (view_source view.now section) tables.now) }
{
    let first = table_number(view, TextSection::InStr);
    let str = table_fields(alloc, section, first, TextSection::InStr, tables)?;
    let line_str = table_fields(alloc, section, first, TextSection::InLineStr, tables)?;
    let mut paths = SectionFields::new(alloc, section);
    paths.put(DebugSection::Str, str);
    paths.put(DebugSection::LineStr, line_str);
    Ok(paths)
}

/// The fields of the tables' texts that lie in a table of texts.
#[tactic(auto, using(crate::proofs::LineFieldLaws::tables_rules))]
fn table_fields(
    alloc: Global,
    section: u32,
    str: u32,
    texts: TextSection,
    tables: &[LineTable],
) -> Result<Vec<OffsetField>, AllocError>
    ensures { IfOk result (λ fields. fields.items ≡ table_fields section str texts tables.now) }
{
    let mut fields = Vec::new(alloc);
    for table in tables {
        push_fields(section, str, texts, table, &mut fields)?;
    }
    Ok(fields)
}

/// Appends those of one table.
#[tactic(auto, using(crate::proofs::LineFieldLaws::table_rules))]
fn push_fields(
    section: u32,
    str: u32,
    texts: TextSection,
    table: &LineTable,
    fields: &mut Vec<OffsetField>,
) -> Result<(), AllocError>
    ensures { OnOk result (fields.new.items ≡ fields.old.items ++ text_fields section str texts table.now.width table.now.texts) }
{
    let width = width_of(table);
    push_texts(section, str, texts, width, texts_of(table), fields)?;
    Ok(())
}

/// Appends those of texts.
#[tactic(auto, using(crate::proofs::LineFieldLaws::texts_rules))]
fn push_texts(
    section: u32,
    str: u32,
    texts: TextSection,
    width: Width,
    all: &[LineText],
    fields: &mut Vec<OffsetField>,
) -> Result<(), AllocError>
    ensures { OnOk result (fields.new.items ≡ fields.old.items ++ text_fields section str texts width all.now) }
{
    for text in all {
        push_field(section, str, texts, width, *text, fields)?;
    }
    Ok(())
}

/// Appends the field of a text, where that lies in the table of texts.
#[tactic(auto, using(crate::proofs::LineFieldLaws::field_rules))]
fn push_field(
    section: u32,
    str: u32,
    texts: TextSection,
    width: Width,
    text: LineText,
    fields: &mut Vec<OffsetField>,
) -> Result<(), AllocError>
    ensures { OnOk result (fields.new.items ≡ fields.old.items ++ text_field section str texts width text) }
{
    if lies_in(section, str, texts, text.place) {
        fields.push(OffsetField {
            at: text.place.field,
            size: width.offset_size(),
            path: text.path,
        })?;
    }
    Ok(())
}

/// The text lies in the table of texts.
fn lies_in(section: u32, str: u32, texts: TextSection, text: TextPlace) -> bool
    ensures { result ≡ is_text_of section str texts text }
{
    if text.section == section {
        return false;
    }
    match texts {
        TextSection::InStr => text.section == str,
        TextSection::InLineStr => text.section != str,
    }
}
