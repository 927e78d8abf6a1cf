//! The texts that the values of an entry name, the paths among them, and what they say by index (DWARF 5,
//! 7.5.4 to 7.5.6), and where they say that line tables and macro units start (3.1.1).
//!
//! Read first: `specs/TextPlaces.antt`, then `specs/EntryTexts.antt`.

ghost use Rattle.std.specs.Prelude.{◌≡◌, ◌⊎◌, ◌+◌, ◌^◌, ◌≤◌, ◌<◌, ◌==◌, ◌&&◌, true, false, length, IsTrue, IfErr, IfOk, OnOk, Some};
ghost use Rattle.dw_base.specs.FormFails.{FormFails};
ghost use Rattle.dw_base.specs.Values.{value_at};
ghost use Rattle.dw_base.specs.Refusals.{Blames, at};
ghost use Rattle.dw_base.specs.Roles.{is_macros, is_start_name};
ghost use Rattle.dw_base.specs.TableStarts.{is_start_form, own_form};
ghost use Rattle.dw_base.specs.Texts.{ends_in};
ghost use Rattle.dw_base.specs.UnitHeaders.{is_address_size};
ghost use Rattle.dw_base.specs.declared.dwarf_numbers.TheConstants.{DW_AT_stmt_list};
ghost use Rattle.dw_unit_fields.specs.EntryTexts.{AreTaken, OffsetLies, OffsetNames, OffsetRefuses, OffsetSized, OneRefuses, offset_in, StartSized, ValueRefuses, ValuesRefuse, ValueTaken, with_places};
ghost use Rattle.dw_unit_fields.specs.TextPlaces.{class_places, indexed_at, line_at, no_start, said_of, said_places, said_value, values_places};

use crate::fields::{InlinePath, TextBase, TextIndex};
use crate::found::{FoundTexts, SectionTexts, TextTable};
use crate::unread::later_len;
use dw_base::dwarf_numbers::DW_AT_stmt_list;
use dw_base::{
    Fault, Kind, Refusal, Spec, UnitHeader, Value, ValueClass, is_base, is_macros, is_path,
    is_start_form, is_start_name, own_form,
};
use dw_forms::value_at;
use dw_offsets::OffsetField;
use std::alloc::AllocError;

/// Takes the values of entry `number`, of a tag and with these attributes, which begin at a place of the
/// bytes up to the unit's end: the paths among them are noted. Refused where one can't be read or names no text.
#[tactic(auto, using(crate::proofs::EntryTextLaws::entry_rules))]
pub(crate) fn read_entry(
    texts: &SectionTexts,
    unit: &UnitHeader,
    bytes: &[u8],
    number: u64,
    tag: u64,
    specs: &[Spec],
    from: u64,
    found: &mut FoundTexts,
) -> Result<(), Fault>
    requires address { IsTrue (is_address_size unit.now.params.address) }
    requires small { length bytes.now ≤ 2 ^ 31 }
    requires inside { from ≤ length bytes.now }
    requires within { length bytes.now ≤ length texts.now.cells }
    ensures found { OnOk result (found.new ≡ with_places found.old (values_places unit.now.params bytes.now number tag specs.now from)) }
    ensures taken { OnOk result (AreTaken texts.now unit.now.params bytes.now specs.now from) }
    ensures refused { IfErr result (Blames (ValuesRefuse texts.now unit.now.params bytes.now unit.now.section from specs.now)) }
{
    let mut place = from;
    for spec in specs {
        place += read_value(texts, unit, bytes, number, tag, spec, place, found)?;
    }
    Ok(())
}

/// Takes the value of an attribute at a place, and gives its size.
#[tactic(auto, using(crate::proofs::LaterLaws::taken_rules))]
fn read_value(
    texts: &SectionTexts,
    unit: &UnitHeader,
    bytes: &[u8],
    number: u64,
    tag: u64,
    spec: &Spec,
    place: u64,
    found: &mut FoundTexts,
) -> Result<u64, Fault>
    requires address { IsTrue (is_address_size unit.now.params.address) }
    requires inside { place ≤ length bytes.now }
    requires small { length bytes.now ≤ 2 ^ 31 }
    requires within { length bytes.now ≤ length texts.now.cells }
    ensures taken { IfOk result (λ size. ValueTaken texts.now unit.now.params bytes.now number tag spec.now place size found.old found.new) }
    ensures within { IfOk result (λ size. place + size ≤ length bytes.now) }
    ensures refused { IfErr result (Blames (OneRefuses texts.now unit.now.params bytes.now unit.now.section place spec.now)) }
{
    if number == 0 {
        let size = noted_text(texts, unit, bytes, number, tag, spec, place, found)?;
        return Ok(size);
    }
    let later = later_len(texts, unit, bytes, spec, place, found)?;
    if let Some(size) = later {
        return Ok(size);
    }
    let size = noted_text(texts, unit, bytes, number, tag, spec, place, found)?;
    Ok(size)
}

/// Takes a value that is read: what it says is noted.
#[inline(never)]
#[tactic(auto, using(crate::proofs::EntryTextLaws::value_rules))]
fn noted_text(
    texts: &SectionTexts,
    unit: &UnitHeader,
    bytes: &[u8],
    number: u64,
    tag: u64,
    spec: &Spec,
    place: u64,
    found: &mut FoundTexts,
) -> Result<u64, Fault>
    requires address { IsTrue (is_address_size unit.now.params.address) }
    requires small { length bytes.now ≤ 2 ^ 31 }
    requires within { length bytes.now ≤ length texts.now.cells }
    ensures taken { IfOk result (λ size. ValueTaken texts.now unit.now.params bytes.now number tag spec.now place size found.old found.new) }
    ensures within { IfOk result (λ size. place + size ≤ length bytes.now) }
    ensures refused { IfErr result (Blames (OneRefuses texts.now unit.now.params bytes.now unit.now.section place spec.now)) }
{
    let value = value_in(unit, bytes, spec, place)?;
    let path = is_path(number, tag, spec.name);
    let base = is_base(number, spec.name);
    note_start(says_start(spec, bytes, place), &value, found)?;
    note_value(texts, spec, bytes, place, &value, path, base, found)?;
    note_said(spec, bytes, place, &value, found)?;
    Ok(value.size)
}

/// The value of an attribute at a place of the bytes up to the unit's end.
#[tactic(auto, using(crate::proofs::EntryTextLaws::read_rules))]
fn value_in(unit: &UnitHeader, bytes: &[u8], spec: &Spec, place: u64) -> Result<Value, Refusal>
    requires address { IsTrue (is_address_size unit.now.params.address) }
    ensures value { IfOk result (λ v. value_at unit.now.params spec.now bytes.now place ≡ Some v) }
    ensures sized { IfOk result (λ v. OffsetSized v.class v.len) }
    ensures lies { IfOk result (λ v. OffsetLies (length bytes.now) v.class v) }
    ensures start { IfOk result (λ v. StartSized (own_form spec.now bytes.now place) v.len) }
    ensures within { IfOk result (λ v. place + v.size ≤ length bytes.now) }
    ensures refused { IfErr result (FormFails unit.now.params spec.now bytes.now unit.now.section place) }
{
    value_at(
        spec,
        &unit.params,
        unit.section,
        bytes,
        place,
        bytes.len() as u64,
    )
}

/// An attribute that says where a line table starts (DWARF 5, 3.1.1).
fn is_line(spec: &Spec) -> bool
    ensures { result ≡ (spec.now.name == DW_AT_stmt_list) }
{
    spec.name == DW_AT_stmt_list
}

/// A value at a place says where a line table starts.
#[tactic(auto, using(crate::proofs::EntryTextLaws::says_rules))]
fn says_start(spec: &Spec, bytes: &[u8], place: u64) -> bool
    ensures { result ≡ ((spec.now.name == DW_AT_stmt_list) && is_start_form (own_form spec.now bytes.now place)) }
{
    if !is_line(spec) {
        return false;
    }
    is_start_form(own_form(spec, bytes, place))
}

/// Notes the field of a value that says where a line table starts.
#[tactic(auto, using(crate::proofs::EntryTextLaws::start_rules))]
fn note_start(says: bool, value: &Value, found: &mut FoundTexts) -> Result<(), AllocError>
    requires sized { says ≡ true → (value.now.len ≡ 4) ⊎ (value.now.len ≡ 8) }
    ensures found { OnOk result (found.new ≡ with_places found.old (line_at says value.now)) }
{
    if says {
        found.push_line(field_of(value, false))?;
    }
    Ok(())
}

/// Notes what a value at a place says of starts, where it is to say one: where it begins, where it has a form that can't, and
/// else its field, where it says where a macro unit starts.
#[tactic(auto, using(crate::proofs::EntryTextLaws::said_rules))]
fn note_said(
    spec: &Spec,
    bytes: &[u8],
    place: u64,
    value: &Value,
    found: &mut FoundTexts,
) -> Result<(), AllocError>
    requires sized { StartSized (own_form spec.now bytes.now place) value.now.len }
    ensures found { OnOk result (found.new ≡ with_places found.old (said_places (is_start_name spec.now.name) (is_macros spec.now.name) (own_form spec.now bytes.now place) place value.now)) }
{
    if !is_start_name(spec.name) {
        return Ok(());
    }
    if !is_start_form(own_form(spec, bytes, place)) {
        note_stray(place, found);
        return Ok(());
    }
    if is_macros(spec.name) {
        note_unit(value, found)?;
    }
    Ok(())
}

/// Notes where the first value begins that is to say a start, and has a form that can't.
#[tactic(auto, using(crate::proofs::EntryTextLaws::start_rules))]
fn note_stray(place: u64, found: &mut FoundTexts)
    ensures found { found.new ≡ with_places found.old (indexed_at place no_start) }
{
    found.keep_stray(place);
}

/// Notes the field of a value that says where a macro unit starts.
#[tactic(auto, using(crate::proofs::EntryTextLaws::start_rules))]
fn note_unit(value: &Value, found: &mut FoundTexts) -> Result<(), AllocError>
    requires sized { (value.now.len ≡ 4) ⊎ (value.now.len ≡ 8) }
    ensures found { OnOk result (found.new ≡ with_places found.old (said_value true true 0 value.now)) }
{
    found.push_macro(field_of(value, false))?;
    Ok(())
}

/// Notes what a value at a place says of a text, by offset or index, of a path that stands in it, or of a base.
#[tactic(auto, using(crate::proofs::EntryTextLaws::note_rules))]
fn note_value(
    texts: &SectionTexts,
    spec: &Spec,
    bytes: &[u8],
    place: u64,
    value: &Value,
    path: bool,
    base: bool,
    found: &mut FoundTexts,
) -> Result<(), Fault>
    requires sized { OffsetSized value.now.class value.now.len }
    requires start { StartSized (own_form spec.now bytes.now place) value.now.len }
    requires lies { OffsetLies (length texts.now.cells) value.now.class value.now }
    ensures found { OnOk result (found.new ≡ with_places found.old (class_places value.now.class path base (is_start_form (own_form spec.now bytes.now place)) place value.now)) }
    ensures names { OnOk result (OffsetNames texts.now value.now.class value.now) }
    ensures refused { IfErr result (Blames (ValueRefuses texts.now value.now)) }
{
    match value.class {
        ValueClass::StrOffset => {
            offset_names(texts, texts.str(), value)?;
            found.push_str(field_of(value, path))?;
        }
        ValueClass::LineStrOffset => {
            offset_names(texts, texts.line_str(), value)?;
            found.push_line_str(field_of(value, path))?;
        }
        ValueClass::InlineText => {
            if path {
                found.push_inline(InlinePath {
                    at: value.at,
                    len: value.len,
                })?;
            }
        }
        ValueClass::StrIndex => found.push_index(TextIndex {
            place,
            path,
            index: value.number,
        })?,
        ValueClass::Number | ValueClass::SecOffset => {
            if base {
                found.keep_base(text_base(is_start_form(own_form(spec, bytes, place)), value));
            }
        }
        _ => {}
    }
    Ok(())
}

/// The base that a value says: a field of an offset, or else a number.
#[tactic(auto, using(crate::proofs::EntryTextLaws::base_rules))]
fn text_base(field: bool, value: &Value) -> TextBase
    requires sized { field ≡ true → (value.now.len ≡ 4) ⊎ (value.now.len ≡ 8) }
    ensures { result ≡ said_of field value.now }
{
    if field {
        TextBase::Field(field_of(value, false))
    } else {
        TextBase::Number(value.number)
    }
}

/// The field of a value that is an offset, of a path or not.
#[tactic(auto, using(crate::proofs::EntryTextLaws::field_rules))]
pub(crate) fn field_of(value: &Value, path: bool) -> OffsetField
    requires sized { (value.now.len ≡ 4) ⊎ (value.now.len ≡ 8) }
    ensures { result ≡ record { at = value.now.at; size = value.now.len; path = path } }
{
    OffsetField {
        at: value.at,
        size: value.len as u8,
        path,
    }
}

/// Tests that the offset that a value is names a text of a table.
#[inline(always)]
#[tactic(auto, using(crate::proofs::EntryTextLaws::offset_rules))]
pub(crate) fn offset_names(
    texts: &SectionTexts,
    table: &TextTable,
    value: &Value,
) -> Result<(), Refusal>
    requires sized { (value.now.len ≡ 4) ⊎ (value.now.len ≡ 8) }
    requires lies { value.now.at + value.now.len ≤ length texts.now.cells }
    ensures names { OnOk result (IsTrue (ends_in table.now.bytes (offset_in texts.now table.now value.now))) }
    ensures refused { IfErr result (OffsetRefuses texts.now table.now value.now) }
{
    let offset = texts.offset(value, table)?;
    if !table.ends(offset) {
        return Err(no_text(texts.section, value.at));
    }
    Ok(())
}

/// An offset that names no text.
fn no_text(section: u32, field: u64) -> Refusal
    ensures { result ≡ at Kind.StringOffset section field }
{
    Refusal::at(Kind::StringOffset, section, field)
}
