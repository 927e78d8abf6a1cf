//! The columns of an entry of version 5 (DWARF 5, 6.2.4): what the value of each form is.
//!
//! This file promises: a column that is given stands at the place, and its text is there; it is refused as the
//! definition says: at the table where its value passes the end, at an offset that names no text, and where a
//! relocation doesn't let an offset be read.

ghost use Rattle.std.specs.Prelude.{◌≡◌, ◌+◌, ◌≤◌, ◌<◌, ◌==◌, ◌||◌, Some, Ok, Err, length, IfOk};
ghost use Rattle.dw_base.specs.FileViews.{section_bytes};
ghost use Rattle.dw_base.specs.ViewData.{located};
ghost use Rattle.dw_lines.specs.ViewSources.{view_source};
ghost use Rattle.dw_base.specs.Values.{value_at};
ghost use Rattle.dw_base.specs.LineFormats.{is_text_form};
ghost use Rattle.dw_base.specs.LineTexts.{inline_text};
ghost use Rattle.dw_base.specs.LineEntries.{bad_table, column_at, column_params, inline_column, offset_column, value_column};

use crate::texts::{inline_text, named_text};
use dw_base::dwarf_numbers::{DW_FORM_line_strp, DW_FORM_string, DW_FORM_strp};
use dw_base::line_tables::Column;
use dw_base::{DebugSection, Kind, LineHeader, Order, Params, Refusal, Spec};
use dw_forms::value_at;
use dw_view::View;

/// A form by which a path may stand.
pub(crate) fn is_text_form(form: u64) -> bool
    ensures form { result ≡ is_text_form form }
{
    form == DW_FORM_string || form == DW_FORM_strp || form == DW_FORM_line_strp
}

/// A form by which an offset of a text stands.
pub(crate) fn is_offset_form(form: u64) -> bool
    ensures form { result ≡ (form == DW_FORM_strp || form == DW_FORM_line_strp) }
{
    form == DW_FORM_strp || form == DW_FORM_line_strp
}

/// The refusal of a table.
pub(crate) fn bad_table(section: u32, header: &LineHeader) -> Refusal
    ensures { result ≡ bad_table section header.now }
{
    Refusal::at(Kind::Line, section, header.start)
}

/// A column whose text stands inline.
fn inline_column(
    section: u32,
    header: &LineHeader,
    table: &[u8],
    place: u64,
) -> Result<Column, Refusal>
    ensures column { result ≡ inline_column section header.now place (inline_text section table.now place) }
    ensures within { IfOk result (λ c. c.next ≤ length table.now) }
{
    match inline_text(section, table, place) {
        Some(text) => Ok(Column {
            text: Some(text),
            number: 0,
            next: place + text.len + 1,
        }),
        None => Err(bad_table(section, header)),
    }
}

/// A column whose text an offset names.
#[tactic(auto, unfolding(dw_base::specs::LineEntries::offset_column))]
fn offset_column(
    view: &View,
    section: u32,
    header: &LineHeader,
    table: &[u8],
    texts: DebugSection,
    place: u64,
) -> Result<Column, Refusal>
    requires there { section < length view.now.sections }
    requires within { length table.now ≤ length (section_bytes view.now section) }
    ensures column { result ≡ offset_column (view_source view.now section) header.now table.now (located view.now texts) place }
    ensures within { IfOk result (λ c. c.next ≤ length table.now) }
{
    let size = header.width.offset_size();
    let end = table.len() as u64;
    if place > end {
        return Err(bad_table(section, header));
    }
    if u64::from(size) > end - place {
        return Err(bad_table(section, header));
    }
    match named_text(view, texts, section, place, size) {
        Ok(text) => Ok(Column {
            text: Some(text),
            number: 0,
            next: place + u64::from(size),
        }),
        Err(refusal) => Err(refusal),
    }
}

/// What the values of columns depend on; none of their forms takes an address.
fn column_params(order: Order, header: &LineHeader) -> Params
    ensures params { result ≡ column_params order header.now }
{
    Params {
        order,
        width: header.width,
        version: header.version,
        address: 8,
    }
}

/// A column of another value.
#[tactic(auto, using(crate::proofs::EntryLaws::value_laws))]
fn value_column(
    order: Order,
    section: u32,
    header: &LineHeader,
    table: &[u8],
    spec: &Spec,
    place: u64,
) -> Result<Column, Refusal>
    ensures column { result ≡ value_column section header.now place (value_at (column_params order header.now) spec.now table.now place) }
{
    let params = column_params(order, header);
    match value_at(spec, &params, section, table, place, table.len() as u64) {
        Ok(value) => Ok(Column {
            text: None,
            number: value.number,
            next: place + value.size,
        }),
        Err(_) => Err(bad_table(section, header)),
    }
}

/// The value of a column at a place.
#[tactic(auto, unfolding(dw_base::specs::LineEntries::column_at))]
pub(crate) fn column_at(
    view: &View,
    section: u32,
    header: &LineHeader,
    table: &[u8],
    spec: &Spec,
    place: u64,
) -> Result<Column, Refusal>
    requires there { section < length view.now.sections }
    requires within { length table.now ≤ length (section_bytes view.now section) }
    ensures column { result ≡ column_at (view_source view.now section) header.now table.now spec.now place }
{
    if spec.form == DW_FORM_string {
        return inline_column(section, header, table, place);
    }
    if spec.form == DW_FORM_strp {
        return offset_column(view, section, header, table, DebugSection::Str, place);
    }
    if spec.form == DW_FORM_line_strp {
        return offset_column(view, section, header, table, DebugSection::LineStr, place);
    }
    value_column(view.order(), section, header, table, spec, place)
}
