//! The values of a unit's attributes, and the base of its texts by index.
//!
//! Read first: `specs/UnitValues.antt`.

ghost use Rattle.std.specs.Prelude.{◌≡◌, ◌+◌, ◌≤◌, ◌^◌, length, IfSome, IsTrue};
ghost use Rattle.dw_base.specs.UnitHeaders.{is_address_size};
ghost use Rattle.dw_base.specs.Values.{value_at};
ghost use Rattle.dw_attrs.specs.UnitValues.{base_number, entry_base, first_base, is_base_class, says_base, unit_bytes, unit_entries, values_base};
ghost use Rattle.dw_attrs.specs.UnitReads.{BytesFit, CanRead};

use crate::fields::number_field;
use dw_abbrev::AbbrevTable;
use dw_base::dwarf_numbers::DW_AT_str_offsets_base;
use dw_base::{
    DebugSection, Scanned, Spec, UnitHeader, Value, ValueClass, is_start_form, own_form, uleb_at,
};
use dw_entries::EntryScan;
use dw_forms::value_at;
use dw_view::View;

/// The value of an attribute at a place. `None` exactly where none can be read there.
#[tactic(auto, using(crate::proofs::SayingLaws::read_laws))]
pub fn value_in(unit: &UnitHeader, bytes: &[u8], spec: &Spec, place: u64) -> Option<Value>
    requires address { IsTrue (is_address_size unit.now.params.address) }
    ensures value { result ≡ value_at unit.now.params spec.now bytes.now place }
    ensures within { IfSome result (λ v. place + v.size ≤ length bytes.now) }
{
    match value_at(
        spec,
        &unit.params,
        unit.section,
        bytes,
        place,
        bytes.len() as u64,
    ) {
        Ok(value) => Some(value),
        Err(_) => None,
    }
}

/// A class of values that can say a base.
fn is_base_class(class: ValueClass) -> bool
    ensures { result ≡ is_base_class class }
{
    matches!(class, ValueClass::Number | ValueClass::SecOffset)
}

/// A value of an attribute says the base of the texts by index of its unit (DWARF 5, 3.1.1).
fn says_base(spec: &Spec, class: ValueClass) -> bool
    ensures { result ≡ says_base spec.now class }
{
    if spec.name != DW_AT_str_offsets_base {
        return false;
    }
    is_base_class(class)
}

/// The base that a value of a form says: as an offset where that can be one, else its number.
fn base_number(view: &View, unit: &UnitHeader, bytes: &[u8], form: u64, value: &Value) -> u64
    requires fits { BytesFit view.now unit.now.section bytes.now }
    ensures base { result ≡ base_number view.now unit.now bytes.now form value.now }
{
    if !is_start_form(form) {
        return value.number;
    }
    let field = number_field(view, unit.section, bytes, form, value);
    view.located(DebugSection::StrOffsets).offset(field)
}

/// The base of texts by index that values say from a place on.
#[tactic(auto, using(crate::proofs::BaseLaws::base_laws))]
fn values_base(
    view: &View,
    unit: &UnitHeader,
    bytes: &[u8],
    specs: &[Spec],
    from: u64,
) -> Option<u64>
    requires fits { BytesFit view.now unit.now.section bytes.now }
    requires address { IsTrue (is_address_size unit.now.params.address) }
    requires small { length bytes.now ≤ 2 ^ 31 }
    requires inside { from ≤ length bytes.now }
    ensures base { result ≡ values_base view.now unit.now bytes.now specs.now from }
{
    let mut place = from;
    for spec in specs {
        let value = match value_in(unit, bytes, spec, place) {
            Some(value) => value,
            None => return None,
        };
        if says_base(spec, value.class) {
            let form = own_form(spec, bytes, place);
            return Some(base_number(view, unit, bytes, form, &value));
        }
        place += value.size;
    }
    None
}

/// The base that an entry says.
#[tactic(auto, unfolding(crate::specs::UnitValues::entry_base))]
fn entry_base(
    view: &View,
    unit: &UnitHeader,
    table: &AbbrevTable,
    bytes: &[u8],
    entry: &Scanned,
) -> Option<u64>
    requires fits { BytesFit view.now unit.now.section bytes.now }
    requires address { IsTrue (is_address_size unit.now.params.address) }
    requires small { length bytes.now ≤ 2 ^ 31 }
    ensures base { result ≡ entry_base view.now unit.now table.now bytes.now entry.now }
{
    let (code, size) = uleb_at(bytes, entry.offset)?;
    let abbrev = table.get(code)?;
    values_base(
        view,
        unit,
        bytes,
        abbrev.specs.as_slice(),
        entry.offset + size,
    )
}

/// The base of the texts by index of a unit: that of its first entry.
#[tactic(auto, using(crate::proofs::BaseLaws::unit_laws))]
pub(crate) fn unit_base(
    view: &View,
    unit: &UnitHeader,
    table: &AbbrevTable,
    bytes: &[u8],
) -> Option<u64>
    requires reads { CanRead view.now unit.now table.now }
    requires fits { BytesFit view.now unit.now.section bytes.now }
    requires address { IsTrue (is_address_size unit.now.params.address) }
    requires small { length bytes.now ≤ 2 ^ 31 }
    requires bytes { bytes.now ≡ unit_bytes view.now unit.now }
    ensures base { result ≡ first_base view.now unit.now table.now bytes.now (unit_entries unit.now table.now bytes.now) }
{
    for entry in EntryScan::new(view, unit, table) {
        match entry {
            Ok(entry) => return entry_base(view, unit, table, bytes, &entry),
            Err(_) => unreachable!(),
        }
    }
    None
}
