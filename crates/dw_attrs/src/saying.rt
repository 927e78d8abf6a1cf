//! What a value at a place of a unit says.
//!
//! Read first: `specs/UnitValues.antt`.

ghost use Rattle.std.specs.Prelude.{◌≡◌, ◌+◌};
ghost use Rattle.dw_base.specs.DebugData.{start_number};
ghost use Rattle.dw_base.specs.Texts.{text_in};
ghost use Rattle.dw_base.specs.ViewData.{located};
ghost use Rattle.dw_base.specs.declared.view_fields.Field.TheVariants.{Into};
ghost use Rattle.dw_starts.specs.LineStarts.{Rises};
ghost use Rattle.dw_attrs.specs.Sayings.{said_text, saying};
ghost use Rattle.dw_attrs.specs.UnitReads.{SourceFits, UnitFits};
ghost use Rattle.dw_attrs.specs.UnitValues.{class_meant, entry_meant, entry_number, index_meant, lines_meant, macro_meant, named_in, offset_text, other_meant, place_meant, plain_meant, reference_meant, says_start, says_unit, start_meant, table_meant, unit_entries, value_address, value_bytes, value_field, value_meant, value_offset};

use crate::fields::{address_field, number_field};
use crate::parts::part;
use crate::said_unit::SaidUnit;
use crate::sayings::Said;
use crate::unit_source::{UnitSource, info_section, is_info, lies_in, text_of};
use dw_base::dwarf_numbers::{
    DW_AT_GNU_macros, DW_AT_macros, DW_AT_stmt_list, DW_FORM_implicit_const,
};
use dw_base::{DebugSection, Field, Spec, Value, ValueClass, is_start_form, own_form};
use dw_starts::start_number;

/// A value at a place says where a line table starts.
fn says_start(spec: &Spec, bytes: &[u8], place: u64) -> bool
    ensures { result ≡ says_start spec.now bytes.now place }
{
    if spec.name != DW_AT_stmt_list {
        return false;
    }
    is_start_form(own_form(spec, bytes, place))
}

/// A value at a place says where a macro unit starts.
fn says_unit(spec: &Spec, bytes: &[u8], place: u64) -> bool
    ensures { result ≡ says_unit spec.now bytes.now place }
{
    if spec.name != DW_AT_macros && spec.name != DW_AT_GNU_macros {
        return false;
    }
    is_start_form(own_form(spec, bytes, place))
}

/// The line table that starts where a value says, or the offset that names none.
#[tactic(auto, using(crate::proofs::SayingLaws::table_laws))]
fn said_lines<'v>(starts: &[u64], start: u64) -> Said<'v>
    requires rises { Rises starts.now }
    ensures said { saying result ≡ lines_meant (start_number 0 starts.now start) start }
{
    match start_number(starts, start) {
        Some(number) => Said::Lines(number as u64),
        None => Said::Stray(start),
    }
}

/// The same, of the starts of a source.
fn said_table<'v>(source: &UnitSource, start: u64) -> Said<'v>
    requires fits { SourceFits source.now }
    ensures said { saying result ≡ table_meant source.now start }
{
    said_lines(source.starts(), start)
}

/// The number of a macro unit, or what the field reads as that names none.
fn said_start<'v>(unit: Option<u64>, field: Field) -> Said<'v>
    ensures said { saying result ≡ start_meant unit field }
{
    match unit {
        Some(number) => Said::Macros(number),
        None => Said::Field {
            class: ValueClass::SecOffset,
            field,
        },
    }
}

/// What a field says that says where a macro unit starts.
fn said_macros<'v>(source: &UnitSource, field: Field) -> Said<'v>
    requires fits { SourceFits source.now }
    ensures said { saying result ≡ macro_meant source.now field }
{
    said_start(source.macro_unit(field), field)
}

/// The text of an index, or the bytes of the value where it names none.
#[tactic(auto, using(crate::proofs::SayingLaws::index_laws))]
fn said_index<'v, 'f, 'u, 's>(unit: &SaidUnit<'v, 'f, 'u, 's>, value: &Value) -> Said<'v>
    ensures said { saying result ≡ index_meant unit.now.source.view unit.now.source.contributions unit.now.base value.now.number (value_bytes unit.now value.now) }
{
    let source = unit.source;
    match source.indexed(unit.base, value.number) {
        Some(named) => Said::Text(named),
        None => Said::Bytes(part(unit.bytes, value.at, value.len)),
    }
}

/// The number of the entry of the unit that starts at a place.
fn own_number(unit: &SaidUnit, place: u64) -> Option<u64>
    ensures number { result ≡ entry_number 0 place (unit_entries unit.now.header unit.now.table unit.now.bytes) }
{
    match unit.arena.number_of(place) {
        Some(number) => Some(u64::from(number)),
        None => None,
    }
}

/// The entry that starts at a place of the unit's section: mostly one of the unit.
fn near_entry(unit: &SaidUnit, place: u64) -> Option<(u64, u64)>
    requires fits { UnitFits unit.now }
    ensures entry { result ≡ named_in unit.now.source.view unit.now.source.tables 0 unit.now.source.units unit.now.header.section place }
{
    let section = unit.header.section;
    if !lies_in(unit.header, section, place) {
        return unit.source.entry(section, place);
    }
    match own_number(unit, place) {
        Some(number) => Some((unit.number, number)),
        None => None,
    }
}

/// The entry that an offset names, or the offset where it names none.
fn said_place<'v>(entry: Option<(u64, u64)>, offset: u64) -> Said<'v>
    ensures said { saying result ≡ place_meant entry offset }
{
    match entry {
        Some((unit, number)) => Said::Entry { unit, number },
        None => Said::Stray(offset),
    }
}

/// A reference to an entry of the unit.
#[tactic(auto, using(crate::proofs::SayingLaws::reference_laws))]
fn said_local<'v, 'f, 'u, 's>(unit: &SaidUnit<'v, 'f, 'u, 's>, offset: u64) -> Said<'v>
    requires fits { UnitFits unit.now }
    ensures said { saying result ≡ entry_meant unit.now.source unit.now.header.section (unit.now.header.start + offset) offset }
{
    let Some(place) = unit.header.start.checked_add(offset) else {
        return Said::Stray(offset);
    };
    said_place(near_entry(unit, place), offset)
}

/// A reference to an entry that starts at a place of a section.
#[tactic(auto, using(crate::proofs::SayingLaws::reference_laws))]
fn said_entry<'v>(source: &UnitSource, section: u32, offset: u64) -> Said<'v>
    requires fits { SourceFits source.now }
    ensures said { saying result ≡ entry_meant source.now section offset offset }
{
    said_place(source.entry(section, offset), offset)
}

/// A reference to an entry of a section, which is one of units and is called `.debug_info`, or else the offset.
fn said_into<'v>(source: &UnitSource, section: u32, offset: u64) -> Said<'v>
    requires fits { SourceFits source.now }
    ensures said { saying result ≡ reference_meant source.now (Into section offset) }
{
    if !is_info(source.view, section) {
        return Said::Stray(offset);
    }
    said_entry(source, section, offset)
}

/// A reference to an entry of another unit.
fn said_global<'v>(source: &UnitSource, field: Field) -> Said<'v>
    requires fits { SourceFits source.now }
    ensures said { saying result ≡ reference_meant source.now field }
{
    match field {
        Field::Num(offset) => said_entry(source, info_section(source.view), offset),
        Field::Into { section, offset } => said_into(source, section, offset),
        Field::Sym { .. } => Said::Field {
            class: ValueClass::GlobalRef,
            field,
        },
    }
}

/// What the number of a value of a form reads as.
#[tactic(auto, using(crate::proofs::SayingLaws::field_laws))]
fn value_field(unit: &SaidUnit, form: u64, value: &Value) -> Field
    requires fits { UnitFits unit.now }
    ensures field { result ≡ value_field unit.now form value.now }
{
    let source = unit.source;
    number_field(source.view, unit.header.section, unit.bytes, form, value)
}

/// What the address of a value reads as.
#[tactic(auto, using(crate::proofs::SayingLaws::field_laws))]
fn value_address(unit: &SaidUnit, value: &Value) -> Field
    requires fits { UnitFits unit.now }
    ensures field { result ≡ value_address unit.now value.now }
{
    let source = unit.source;
    address_field(source.view, unit.header.section, unit.bytes, value)
}

/// The offset that a value of a form says into the section of a name.
fn value_offset(unit: &SaidUnit, name: DebugSection, form: u64, value: &Value) -> u64
    requires fits { UnitFits unit.now }
    ensures offset { result ≡ value_offset unit.now name form value.now }
{
    let field = value_field(unit, form, value);
    let source = unit.source;
    source.view.located(name).offset(field)
}

/// The text at a place of a table of texts.
fn said_named<'v, 'f, 'u>(source: &UnitSource<'v, 'f, 'u>, table: DebugSection, at: u64) -> Said<'v>
    ensures said { saying result ≡ said_text (text_in (located source.now.view table).bytes at) }
{
    Said::Text(text_of(source.view, table, at))
}

/// The text that the offset of a value of a form says.
fn said_offset<'v, 'f, 'u, 's>(
    unit: &SaidUnit<'v, 'f, 'u, 's>,
    table: DebugSection,
    form: u64,
    value: &Value,
) -> Said<'v>
    requires fits { UnitFits unit.now }
    ensures said { saying result ≡ said_text (offset_text unit.now table form value.now) }
{
    let at = value_offset(unit, table, form, value);
    said_named(unit.source, table, at)
}

/// What a value of a form says, by its class.
#[tactic(auto, unfolding(crate::specs::UnitValues::class_meant))]
fn said_class<'v, 'f, 'u, 's>(unit: &SaidUnit<'v, 'f, 'u, 's>, form: u64, value: &Value) -> Said<'v>
    requires fits { UnitFits unit.now }
    ensures said { saying result ≡ class_meant unit.now value.now.class form value.now }
{
    match value.class {
        ValueClass::Address => Said::Field {
            class: value.class,
            field: value_address(unit, value),
        },
        ValueClass::Signed => Said::Signed(value.number.cast_signed()),
        ValueClass::Bytes => Said::Bytes(part(unit.bytes, value.at, value.len)),
        ValueClass::InlineText => Said::Text(part(unit.bytes, value.at, value.len)),
        ValueClass::StrOffset => said_offset(unit, DebugSection::Str, form, value),
        ValueClass::LineStrOffset => said_offset(unit, DebugSection::LineStr, form, value),
        ValueClass::StrIndex => said_index(unit, value),
        ValueClass::LocalRef => said_local(unit, value.number),
        ValueClass::GlobalRef => said_global(unit.source, value_field(unit, form, value)),
        ValueClass::Number
        | ValueClass::Flag
        | ValueClass::AddrIndex
        | ValueClass::ListIndex
        | ValueClass::Signature
        | ValueClass::SecOffset => Said::Field {
            class: value.class,
            field: value_field(unit, form, value),
        },
    }
}

/// What a value of a form says that stands in its abbreviation, or by its class.
fn said_plain<'v, 'f, 'u, 's>(
    unit: &SaidUnit<'v, 'f, 'u, 's>,
    spec: &Spec,
    form: u64,
    value: &Value,
) -> Said<'v>
    requires fits { UnitFits unit.now }
    ensures said { saying result ≡ plain_meant unit.now spec.now form value.now }
{
    if spec.form == DW_FORM_implicit_const {
        return Said::Signed(spec.implicit);
    }
    said_class(unit, form, value)
}

/// What a value at a place says that says no start of a line table.
fn said_other<'v, 'f, 'u, 's>(
    unit: &SaidUnit<'v, 'f, 'u, 's>,
    spec: &Spec,
    place: u64,
    value: &Value,
) -> Said<'v>
    requires fits { UnitFits unit.now }
    ensures said { saying result ≡ other_meant unit.now spec.now place value.now }
{
    let form = own_form(spec, unit.bytes, place);
    if says_unit(spec, unit.bytes, place) {
        return said_macros(unit.source, value_field(unit, form, value));
    }
    said_plain(unit, spec, form, value)
}

/// What a value at a place of a unit says, of an attribute.
#[tactic(auto, unfolding(crate::specs::UnitValues::value_meant))]
pub fn said<'v, 'f, 'u, 's>(
    unit: &SaidUnit<'v, 'f, 'u, 's>,
    spec: &Spec,
    place: u64,
    value: &Value,
) -> Said<'v>
    requires fits { UnitFits unit.now }
    ensures said { saying result ≡ value_meant unit.now spec.now place value.now }
{
    if says_start(spec, unit.bytes, place) {
        let form = own_form(spec, unit.bytes, place);
        let start = value_offset(unit, DebugSection::Line, form, value);
        return said_table(unit.source, start);
    }
    said_other(unit, spec, place, value)
}
