//! The changes of a header, one after another, and whether new offsets fit their fields.
//!
//! Read first: `WrittenLines` in `dw_base/specs`, then `specs/ChangeSteps.antt`.

ghost use Rattle.std.specs.Prelude.{◌≡◌, ◌+◌, ◌≤◌, ◌<◌, ◌^◌, ◌==◌, ◌++◌, if◌then◌else◌, length, None, IfOk, IfErr, OnOk};
ghost use Rattle.dw_base.specs.Cells.{bytes_of, cells_at};
ghost use Rattle.dw_base.specs.FileViews.{section_bytes, view_cells};
ghost use Rattle.dw_base.specs.Forms.{width_size};
ghost use Rattle.dw_base.specs.NewOffsets.{with_offset};
ghost use Rattle.dw_base.specs.ViewData.{located};
ghost use Rattle.dw_base.specs.declared.debug_sections.DebugSection.TheVariants.{LineStr, Str};
ghost use Rattle.dw_lines.specs.NewTexts.{text_known, texts_known};
ghost use Rattle.dw_lines.specs.ViewSources.{view_source};
ghost use Rattle.dw_lines.specs.OffsetRooms.{AllHaveRoom, HasRoom};
ghost use Rattle.dw_lines.specs.ChangeSteps.{after_changes, fits_width, offset_fits, OffsetsFit};
ghost use Rattle.dw_base.specs.TextLineChanges.{text_changes, texts_changes};
ghost use Rattle.dw_base.specs.TextWriteFails.{WideText};
ghost use Rattle.dw_base.specs.WrittenLines.{bytes_at, part};

use crate::new_texts::NewTexts;
use crate::parts::{bytes_at, part, push_number};
use dw_base::{DebugSection, Kind, LineText, NoMemory, Refusal, TextPlace, Width};
use dw_paths::{Maps, map_path};
use dw_view::View;
use std::alloc::{AllocError, Global};

/// The number of `.debug_str`; 0 where there is none.
#[tactic(auto, unfolding(dw_base::specs::ViewData::located))]
fn str_section(view: &View) -> u32
    ensures number { result ≡ (located view.now Str).number }
{
    match view.first(DebugSection::Str) {
        Some(section) => section,
        None => 0,
    }
}

/// The new place of a text, of those that are known in `.debug_str` and in `.debug_line_str`.
pub(crate) fn new_place(view: &View, texts: &NewTexts, text: &LineText) -> Option<u64>
    ensures place { result ≡ (if text.now.place.section == (located view.now Str).number then texts_known texts.now Str text.now.path text.now.place.at else texts_known texts.now LineStr text.now.path text.now.place.at) }
{
    if text.place.section == str_section(view) {
        return texts.get(DebugSection::Str, text.path, text.place.at);
    }
    texts.get(DebugSection::LineStr, text.path, text.place.at)
}

/// A new offset, where there is one, fits its field.
fn fits_width(width: Width, place: Option<u64>) -> bool
    ensures fits { result ≡ fits_width width place }
{
    match place {
        Some(place) => match width {
            Width::W32 => place < 0x1_0000_0000,
            Width::W64 => true,
        },
        None => true,
    }
}

/// A text stands in the section of a number, or its new offset fits its field.
fn offset_fits(section: u32, width: Width, place: Option<u64>, text: &TextPlace) -> bool
    ensures fits { result ≡ offset_fits section width place text.now }
{
    if text.section == section {
        return true;
    }
    fits_width(width, place)
}

/// Refused as `TooWide` at a field whose new offset doesn't fit it.
#[tactic(auto, using(crate::proofs::ChangeLaws::fit_laws))]
pub(crate) fn check_offsets(
    view: &View,
    texts: &NewTexts,
    section: u32,
    width: Width,
    all: &[LineText],
) -> Result<(), Refusal>
    ensures fit { OnOk result (OffsetsFit section width (text_known (view_source view.now section) (texts_known texts.now Str) (texts_known texts.now LineStr)) all.now) }
    ensures refused { IfErr result (WideText section width (text_known (view_source view.now section) (texts_known texts.now Str) (texts_known texts.now LineStr)) all.now) }
{
    for text in all {
        let place = new_place(view, texts, text);
        if !offset_fits(section, width, place, &text.place) {
            return Err(Refusal::at(Kind::TooWide, section, text.place.field));
        }
    }
    Ok(())
}

/// Appends the bytes from a place up to another, and others behind them.
#[tactic(auto, using(crate::proofs::ChangeLaws::append_laws))]
fn push_change(
    out: &mut Vec<u8>,
    bytes: &[u8],
    from: u64,
    at: u64,
    new: &[u8],
) -> Result<(), AllocError>
    ensures out { OnOk result (out.new.items ≡ out.old.items ++ (part bytes.now from at ++ new.now)) }
{
    out.extend_from_slice(part(bytes, from, at))?;
    out.extend_from_slice(new)?;
    Ok(())
}

/// Appends the bytes from a place up to a field of a section, and the field's with a new offset in it.
#[tactic(auto, using(crate::proofs::ChangeLaws::offset_laws))]
fn push_offset(
    view: &View,
    out: &mut Vec<u8>,
    section: u32,
    bytes: &[u8],
    from: u64,
    field: u64,
    width: Width,
    place: u64,
) -> Result<(), AllocError>
    requires there { section < length view.now.sections }
    requires inside { field + width_size width ≤ length (section_bytes view.now section) }
    ensures out { OnOk result (out.new.items ≡ out.old.items ++ (part bytes.now from field ++ bytes_of (with_offset view.now.order (cells_at (view_cells view.now section) field (width_size width)) place))) }
{
    let number = view.moved_number(section, field, width.offset_size(), place);
    out.extend_from_slice(part(bytes, from, field))?;
    push_number(out, view.order(), width, number)?;
    Ok(())
}

/// The place behind so many bytes at a place, as far as they are there.
#[tactic(auto, using(crate::proofs::ChangeLaws::behind_laws))]
fn behind(bytes: &[u8], at: u64, n: u64) -> u64
    requires small { length bytes.now ≤ 2 ^ 31 }
    ensures place { result ≡ at + length (bytes_at bytes.now at n) }
{
    at + bytes_at(bytes, at, n).len() as u64
}

/// Appends the bytes from a place up to a text, and what becomes of the text; answers the place behind it.
#[tactic(auto, using(crate::proofs::ChangeLaws::put_laws))]
fn put_text(
    alloc: Global,
    view: &View,
    maps: &Maps,
    texts: &NewTexts,
    section: u32,
    width: Width,
    text: &LineText,
    from: u64,
    out: &mut Vec<u8>,
) -> Result<u64, NoMemory>
    requires there { section < length view.now.sections }
    requires room { HasRoom section width (length (section_bytes view.now section)) text.now.place }
    ensures put { IfOk result (λ next. (out.new.items, next) ≡ after_changes (section_bytes view.now section) (out.old.items, from) (text_changes (view_source view.now section) maps.now (text_known (view_source view.now section) (texts_known texts.now Str) (texts_known texts.now LineStr)) width text.now)) }
{
    let bytes = view.bytes(section);
    if text.place.section == section {
        if !text.path {
            return Ok(from);
        }
        let old = bytes_at(bytes, text.place.at, text.place.len);
        let mapped = map_path(alloc, maps, old)?;
        push_change(out, bytes, from, text.place.at, &mapped)?;
        return Ok(behind(bytes, text.place.at, text.place.len));
    }
    let Some(place) = new_place(view, texts, text) else {
        return Ok(from);
    };
    push_offset(
        view,
        out,
        section,
        bytes,
        from,
        text.place.field,
        width,
        place,
    )?;
    Ok(behind(bytes, text.place.field, u64::from(width.offset_size())))
}

/// Appends the bytes from a place up to the last of these texts, with what becomes of each; answers the place
/// behind them.
#[tactic(auto, using(crate::proofs::ChangeLaws::put_all_laws))]
pub(crate) fn put_texts(
    alloc: Global,
    view: &View,
    maps: &Maps,
    texts: &NewTexts,
    section: u32,
    width: Width,
    all: &[LineText],
    from: u64,
    out: &mut Vec<u8>,
) -> Result<u64, NoMemory>
    requires there { section < length view.now.sections }
    requires rooms { AllHaveRoom section width (length (section_bytes view.now section)) all.now }
    ensures put { IfOk result (λ next. (out.new.items, next) ≡ after_changes (section_bytes view.now section) (out.old.items, from) (texts_changes (view_source view.now section) maps.now (text_known (view_source view.now section) (texts_known texts.now Str) (texts_known texts.now LineStr)) width all.now)) }
{
    let mut place = from;
    for text in all {
        place = put_text(alloc, view, maps, texts, section, width, text, place, out)?;
    }
    Ok(place)
}
