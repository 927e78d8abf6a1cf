//! The header of a unit (DWARF 5, 7.5.1; for versions 2 to 4 the standards' own).
//!
//! This file promises: the header that is given is the one that stands at the place, of a unit that can be
//! read; it is refused only where no unit can be read there, or where its offset of abbreviations can't. The
//! offset is read last, by the view.

ghost use Rattle.std.specs.Prelude.{◌≡◌, ◌≤◌, ◌<◌, ◌+◌, ◌^◌, ◌==◌, if◌then◌else◌, length, drop, IfOk, IfErr, OnOk};
ghost use Rattle.dw_base.specs.Cells.{cells_at, field_of, is_elsewhere, said_offset};
ghost use Rattle.dw_base.specs.FileViews.{section_bytes};
ghost use Rattle.dw_base.specs.Forms.{width_size};
ghost use Rattle.dw_base.specs.Numbers.{spelled};
ghost use Rattle.dw_base.specs.RelocationRows.{OffsetFails, OffsetReads, field_place, offset_field};
ghost use Rattle.dw_base.specs.UnitFails.{bytes_from};
ghost use Rattle.dw_base.specs.UnitHeaders.{further_size, header_with, IsUnit};
ghost use Rattle.dw_base.specs.declared.dwarf_numbers.TheConstants.{DW_UT_type};
ghost use Rattle.dw_entries.specs.Fronts.{HasFront, IsOfView};
ghost use Rattle.dw_entries.specs.HeaderRows.{OffsetRead, UnitRefuses};
ghost use Rattle.dw_entries.specs.ViewUnits.{as_kind, unit_base, unit_section_at};

use crate::front::{Front, bytes_behind, front_at};
use crate::places::further_size;
use crate::unit_kinds::{UnitsOf, is_address_size};
use dw_base::dwarf_numbers::DW_UT_type;
use dw_base::{DebugSection, Field, Kind, Order, Params, Refusal, UnitHeader, Width, number_in};
use dw_view::View;

/// The number of the section of abbreviations, 0 where there is none.
pub(crate) fn abbrevs_number(view: &View) -> u32
    ensures number { result ≡ (unit_base view.now).abbrevs.number }
{
    match view.first(DebugSection::Abbrev) {
        Some(section) => section,
        None => 0,
    }
}

/// The offset that a field says, and whether it is one into another section than that of abbreviations.
fn said_by(view: &View, field: Field) -> (u64, bool)
    ensures offset { result.0 ≡ said_offset field }
    ensures elsewhere { result.1 ≡ is_elsewhere (unit_base view.now).abbrevs field }
{
    let number = abbrevs_number(view);
    match field {
        Field::Num(offset) => (offset, false),
        Field::Into { section, offset } => (offset, section != number),
        Field::Sym { .. } => (0, false),
    }
}

/// The offset of the abbreviations in the field at a place of a unit, and whether it is one into another section.
#[tactic(auto, using(crate::proofs::OffsetLaws::offset_rules))]
fn abbrevs_at(
    view: &View,
    section: u32,
    start: u64,
    at: u64,
    size: u8,
) -> Result<(u64, bool), Refusal>
    requires of_view { IsOfView view.now section (unit_section_at view.now section) }
    requires start { start ≤ 2 ^ 31 }
    requires near { at ≤ 24 }
    requires some { 0 < size }
    requires wide { size ≤ 8 }
    requires inside { start + at + size ≤ length (section_bytes view.now section) }
    ensures offset { IfOk result (λ s. s.0 ≡ said_offset (field_of (unit_base view.now).order (cells_at (drop start (unit_section_at view.now section).contents) at size))) }
    ensures elsewhere { IfOk result (λ s. s.1 ≡ is_elsewhere (unit_base view.now).abbrevs (field_of (unit_base view.now).order (cells_at (drop start (unit_section_at view.now section).contents) at size))) }
    ensures read { OnOk result (OffsetReads (unit_base view.now).order (unit_section_at view.now section).contents (field_place (start + at) size offset_field)) }
    ensures refused { IfErr result (OffsetFails (unit_base view.now).order (unit_section_at view.now section).number (unit_section_at view.now section).contents (field_place (start + at) size offset_field)) }
{
    let field = match view.offset(section, start + at, size) {
        Ok(field) => field,
        Err(refusal) => return Err(refusal),
    };
    Ok(said_by(view, field))
}

/// The signature and the place of the type of a type unit, both 0 of another.
fn type_fields(order: Order, rest: &[u8], width: Width, kind: u64, at: u64) -> (u64, u64)
    requires room { at + further_size width kind ≤ length rest.now }
    ensures signature { result.0 ≡ (if kind == DW_UT_type then spelled order rest.now at 8 else 0) }
    ensures type_offset { result.1 ≡ (if kind == DW_UT_type then spelled order rest.now (at + 8) (width_size width) else 0) }
{
    if kind != DW_UT_type {
        return (0, 0);
    }
    let signature = number_in(order, rest, at, 8);
    let type_offset = number_in(order, rest, at + 8, width.offset_size());
    (signature, type_offset)
}

/// The header of a unit whose first fields and address size were read.
#[tactic(auto, using(crate::proofs::OffsetLaws::header_rules))]
fn header_of(
    view: &View,
    section: u32,
    start: u64,
    rest: &[u8],
    front: &Front,
    address: u8,
) -> Result<UnitHeader, Refusal>
    requires of_view { IsOfView view.now section (unit_section_at view.now section) }
    requires start { start ≤ 2 ^ 31 }
    requires rest { rest.now ≡ bytes_from (unit_section_at view.now section) start }
    requires small { length rest.now ≤ 2 ^ 31 }
    requires within { start + length rest.now ≤ length (section_bytes view.now section) }
    requires front { HasFront (unit_base view.now) (unit_section_at view.now section) start front.now.width front.now.extent front.now.version front.now.kind (record { address = front.now.places.address; abbrevs = front.now.places.abbrevs; behind = front.now.places.behind }) }
    requires near { front.now.places.behind ≤ 24 }
    requires offset { front.now.places.abbrevs + width_size front.now.width ≤ front.now.places.behind }
    requires address { address ≡ spelled (unit_base view.now).order (bytes_from (unit_section_at view.now section) start) front.now.places.address 1 }
    ensures header { IfOk result (λ h. h ≡ header_with (unit_base view.now) (unit_section_at view.now section).number start (drop start (unit_section_at view.now section).contents) front.now.width front.now.extent front.now.version front.now.kind (record { address = front.now.places.address; abbrevs = front.now.places.abbrevs; behind = front.now.places.behind })) }
    ensures further { IfOk result (λ h. start < h.end) }
    ensures read { OnOk result (OffsetReads (unit_base view.now).order (unit_section_at view.now section).contents (field_place (start + front.now.places.abbrevs) (width_size front.now.width) offset_field)) }
    ensures refused { IfErr result (OffsetFails (unit_base view.now).order (unit_section_at view.now section).number (unit_section_at view.now section).contents (field_place (start + front.now.places.abbrevs) (width_size front.now.width) offset_field)) }
{
    let order = view.order();
    let places = front.places;
    let width = front.width;
    let kind = u64::from(front.kind);
    let offset = match abbrevs_at(view, section, start, places.abbrevs, width.offset_size()) {
        Ok(offset) => offset,
        Err(refusal) => return Err(refusal),
    };
    let (signature, type_offset) = type_fields(order, rest, width, kind, places.behind);
    let params = Params {
        order,
        width,
        version: front.version,
        address,
    };
    Ok(UnitHeader {
        section,
        start,
        end: start + front.extent,
        params,
        kind: front.kind,
        abbrevs: offset.0,
        elsewhere: offset.1,
        signature,
        type_offset,
        first: start + places.behind + further_size(width, kind),
    })
}

/// The header of the unit at a place of a section.
#[tactic(auto, using(crate::proofs::OffsetLaws::unit_rules))]
pub(crate) fn unit_at(
    view: &View,
    section: u32,
    kind: UnitsOf,
    start: u64,
) -> Result<UnitHeader, Refusal>
    requires of_view { IsOfView view.now section (unit_section_at view.now section) }
    requires kind { as_kind kind ≡ (unit_section_at view.now section).kind }
    requires inside { start ≤ length (section_bytes view.now section) }
    ensures unit { IfOk result (IsUnit (unit_base view.now) (unit_section_at view.now section) start) }
    ensures offset { OnOk result (OffsetRead (unit_base view.now) (unit_section_at view.now section) start) }
    ensures further { IfOk result (λ h. start < h.end) }
    ensures refused { IfErr result (UnitRefuses (unit_base view.now) (unit_section_at view.now section) start) }
{
    let rest = bytes_behind(view.bytes(section), start);
    let front = match front_at(view, section, kind, start, rest) {
        Ok(front) => front,
        Err(refusal) => return Err(refusal),
    };
    let address = number_in(view.order(), rest, front.places.address, 1);
    if !is_address_size(address) {
        return Err(Refusal::at(Kind::Unit, section, start));
    }
    match header_of(view, section, start, rest, &front, address as u8) {
        Ok(header) => Ok(header),
        Err(refusal) => Err(refusal),
    }
}
