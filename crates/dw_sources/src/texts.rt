//! The texts that values and line tables name (DWARF 5, 7.5.5, class string; 6.2.4; 7.26).

ghost use Rattle.std.specs.Prelude.{◌≡◌, ◌≤◌, ◌<◌, ◌^◌, Some, length, take, drop, option_map};
ghost use Rattle.dw_base.specs.DebugData.{line_source};
ghost use Rattle.dw_base.specs.DebugSections.{name_of};
ghost use Rattle.dw_base.specs.FileViews.{section_bytes, section_named};
ghost use Rattle.dw_base.specs.LineMeanings.{place_text, section_in};
ghost use Rattle.dw_base.specs.Numbers.{number_at};
ghost use Rattle.dw_base.specs.ViewData.{debug_data, located};
ghost use Rattle.dw_entries.specs.Fronts.{IsOfView};
ghost use Rattle.dw_entries.specs.ViewUnits.{unit_section_at};
ghost use Rattle.dw_sources.specs.FieldOffsets.{value_offset};
ghost use Rattle.dw_sources.specs.UnitPaths.{base_width, class_text, index_text, named_text, number_text, slot_offset, slot_text, value_text};

use crate::offsets::{field_offset, first_number, value_offset};
use dw_base::{Contribution, DebugSection, TextPlace, Value, ValueClass, Width, number_at};
use dw_offsets::{ContributionList, first_bytes, slot_place, with_base};
use dw_strings::text_at;
use dw_view::View;

/// The text at a place of a table; none where no NUL follows.
fn named_text(table: &[u8], at: u64) -> Option<&[u8]>
    ensures value { option_map (λ t. t.now) result ≡ named_text table.now at }
{
    match text_at(0, table, at) {
        Ok(text) => Some(text),
        Err(_) => None,
    }
}

/// The width of the contribution whose slots begin at a base.
#[tactic(auto, using(crate::proofs::BaseLaws::width_rules))]
fn base_width(list: &ContributionList, base: u64) -> Option<Width>
    ensures value { result ≡ base_width list.now base }
{
    let list = list.as_slice();
    match with_base(list, base) {
        Ok(at) => Some(list[at].width),
        Err(_) => None,
    }
}

/// The text of the slot of an index, in the contribution of a base.
#[tactic(auto, using(crate::proofs::TextLaws::slot_rules))]
fn slot_text<'v>(view: &'v View, list: &ContributionList, base: u64, index: u64) -> Option<&'v [u8]>
    ensures value { option_map (λ t. t.now) result ≡ slot_text (debug_data view.now) list.now base index }
{
    let Some(width) = base_width(list, base) else {
        return None;
    };
    let Some(place) = slot_place(list, base, index) else {
        return None;
    };
    let Some(section) = view.first(DebugSection::StrOffsets) else {
        return None;
    };
    let Some(offset) = slot_offset(view, section, place, width.offset_size()) else {
        return None;
    };
    named_text(first_bytes(view, DebugSection::Str), offset)
}

/// The offset in the slot at a place of the section of string offsets; none where it passes the end.
#[tactic(auto, using(crate::proofs::TextLaws::offset_rules))]
fn slot_offset(view: &View, section: u32, place: u64, size: u8) -> Option<u64>
    requires there { section < length view.now.sections }
    requires found { Some section ≡ section_named view.now (name_of DebugSection.StrOffsets) }
    requires some { 0 < size }
    requires wide { size ≤ 8 }
    ensures value { result ≡ slot_offset (debug_data view.now) place size (number_at view.now.order (section_bytes view.now section) place size) }
{
    let Some(number) = number_at(view.order(), view.bytes(section), place, size) else {
        return None;
    };
    field_offset(view, section, place, size, DebugSection::Str, number)
}

/// The text of an index in a unit of a base, where it has one.
fn index_text<'v>(
    view: &'v View,
    list: &ContributionList,
    base: Option<u64>,
    index: u64,
) -> Option<&'v [u8]>
    ensures value { option_map (λ t. t.now) result ≡ index_text (debug_data view.now) list.now base index }
{
    match base {
        Some(base) => slot_text(view, list, base, index),
        None => None,
    }
}

/// The text that the offset of a value names in the table of a kind.
#[tactic(auto, using(crate::proofs::TextLaws::named_rules))]
fn offset_text<'v>(
    view: &'v View,
    section: u32,
    bytes: &[u8],
    kind: DebugSection,
    value: &Value,
) -> Option<&'v [u8]>
    requires unit { IsOfView view.now section (unit_section_at view.now section) }
    requires inside { length bytes.now ≤ length (section_bytes view.now section) }
    ensures value { option_map (λ t. t.now) result ≡ number_text (located view.now kind).bytes (value_offset view.now.order (unit_section_at view.now section) (located view.now kind) bytes.now value.now) }
{
    match value_offset(view, section, bytes, kind, value) {
        Some(offset) => named_text(first_bytes(view, kind), offset),
        None => None,
    }
}

/// The text that a value holds in a unit of a section with these bytes up to its end and this base.
#[tactic(auto, using(crate::proofs::TextLaws::class_rules))]
fn class_text<'v>(
    view: &'v View,
    list: &ContributionList,
    section: u32,
    bytes: &'v [u8],
    base: Option<u64>,
    value: &Value,
) -> Option<&'v [u8]>
    requires unit { IsOfView view.now section (unit_section_at view.now section) }
    requires inside { length bytes.now ≤ length (section_bytes view.now section) }
    ensures value { option_map (λ t. t.now) result ≡ class_text value.now.class (debug_data view.now) list.now (unit_section_at view.now section) bytes.now base value.now }
{
    match value.class {
        ValueClass::InlineText => named_text(bytes, value.at),
        ValueClass::StrOffset => offset_text(view, section, bytes, DebugSection::Str, value),
        ValueClass::LineStrOffset => {
            offset_text(view, section, bytes, DebugSection::LineStr, value)
        }
        ValueClass::StrIndex => index_text(view, list, base, value.number),
        _ => None,
    }
}

/// The same, of a value that may be there.
pub(crate) fn value_text<'v>(
    view: &'v View,
    list: &ContributionList,
    section: u32,
    bytes: &'v [u8],
    base: Option<u64>,
    value: Option<Value>,
) -> Option<&'v [u8]>
    requires unit { IsOfView view.now section (unit_section_at view.now section) }
    requires inside { length bytes.now ≤ length (section_bytes view.now section) }
    ensures value { option_map (λ t. t.now) result ≡ value_text (debug_data view.now) list.now (unit_section_at view.now section) bytes.now base value }
{
    match value {
        Some(value) => class_text(view, list, section, bytes, base, &value),
        None => None,
    }
}

/// So many bytes from a place on, or those that there are.
#[tactic(auto, using(crate::proofs::TextLaws::part_rules))]
fn part_of(bytes: &[u8], at: u64, len: u64) -> &[u8]
    requires small { length bytes.now ≤ 2 ^ 31 }
    ensures value { result.now ≡ take len (drop at bytes.now) }
{
    if at > bytes.len() as u64 {
        return b"";
    }
    let rest = &bytes[at as usize..];
    if len > rest.len() as u64 {
        return rest;
    }
    &rest[..len as usize]
}

/// The bytes of the section of a number, of those that a line table's texts stand in.
#[tactic(auto, using(crate::proofs::TextLaws::section_rules))]
fn section_in<'v>(view: &'v View, section: u32) -> &'v [u8]
    ensures value { result.now ≡ section_in (line_source (debug_data view.now)) section }
    ensures small { length result.now ≤ 2 ^ 31 }
{
    if section == first_number(view, DebugSection::Line) {
        return first_bytes(view, DebugSection::Line);
    }
    if section == first_number(view, DebugSection::Str) {
        return first_bytes(view, DebugSection::Str);
    }
    first_bytes(view, DebugSection::LineStr)
}

/// The text at a place.
pub(crate) fn place_text<'v>(view: &'v View, place: &TextPlace) -> &'v [u8]
    ensures value { result.now ≡ place_text (line_source (debug_data view.now)) place.now }
{
    part_of(section_in(view, place.section), place.at, place.len)
}
