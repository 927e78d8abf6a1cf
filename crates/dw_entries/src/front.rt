//! The first fields of a unit: its length, its version and its type (DWARF 5, 7.4 and 7.5.1).
//!
//! This file promises: the fields that are given stand at the place, are ones that a unit may have, and
//! leave room for the rest of the header; they are refused only where no unit can be read there.

ghost use Rattle.std.specs.Prelude.{◌≡◌, ◌≤◌, ◌<◌, ◌+◌, length, drop, IfOk, IfErr};
ghost use Rattle.dw_base.specs.Forms.{width_size};
ghost use Rattle.dw_base.specs.UnitFails.{bytes_from, HeaderFails};
ghost use Rattle.dw_base.specs.UnitHeaders.{unit_type};
ghost use Rattle.dw_entries.specs.Fronts.{HasFront, IsOfView};
ghost use Rattle.dw_entries.specs.ViewUnits.{as_kind, unit_base, unit_section_at};

use crate::places::{Places, further_size, places_of};
use crate::unit_kinds::{UnitsOf, is_split_type, is_unit_type, is_version, old_unit_type};
use dw_base::{Kind, Order, Refusal, Width, initial_length_at, number_in};
use dw_view::View;

/// The first fields of a unit.
#[derive(Clone, Copy)]
pub(crate) struct Front {
    /// How wide its offsets are.
    pub width: Width,
    /// Where it ends, from its start.
    pub extent: u64,
    /// Its version.
    pub version: u16,
    /// Its unit type.
    pub kind: u8,
    /// Where its further fields stand, from its start.
    pub places: Places,
}

/// The bytes from a place on.
pub(crate) fn bytes_behind(bytes: &[u8], start: u64) -> &[u8]
    requires inside { start ≤ length bytes.now }
    ensures behind { result.now ≡ drop start bytes.now }
{
    &bytes[start as usize..]
}

/// The unit type of a unit whose version stands at a place.
fn unit_type_at(order: Order, kind: UnitsOf, rest: &[u8], version: u64, at: u64) -> u64
    requires room { at + 3 ≤ length rest.now }
    ensures { result ≡ unit_type order (as_kind kind) rest.now version at }
{
    if version == 5 {
        number_in(order, rest, at + 2, 1)
    } else {
        old_unit_type(kind)
    }
}

/// The first fields of the unit that starts at a place, where the rest of the section is `rest`.
#[tactic(auto, using(crate::proofs::FrontLaws::front_rules))]
pub(crate) fn front_at(
    view: &View,
    section: u32,
    kind: UnitsOf,
    start: u64,
    rest: &[u8],
) -> Result<Front, Refusal>
    requires of_view { IsOfView view.now section (unit_section_at view.now section) }
    requires kind { as_kind kind ≡ (unit_section_at view.now section).kind }
    requires inside { start ≤ length (unit_section_at view.now section).contents }
    requires rest { rest.now ≡ bytes_from (unit_section_at view.now section) start }
    ensures front { IfOk result (λ f. HasFront (unit_base view.now) (unit_section_at view.now section) start f.width f.extent f.version f.kind (record { address = f.places.address; abbrevs = f.places.abbrevs; behind = f.places.behind })) }
    ensures near { IfOk result (λ f. f.places.behind ≤ 24) }
    ensures address { IfOk result (λ f. f.places.address + 1 ≤ length rest.now) }
    ensures offset { IfOk result (λ f. f.places.abbrevs + width_size f.width ≤ f.places.behind) }
    ensures refused { IfErr result (HeaderFails (unit_base view.now) (unit_section_at view.now section) start) }
{
    let order = view.order();
    let Some((width, size, at)) = initial_length_at(order, rest, 0) else {
        return Err(Refusal::at(Kind::Unit, section, start));
    };
    let left = rest.len() as u64 - at;
    if left < 3 {
        return Err(Refusal::at(Kind::Unit, section, start));
    }
    if left < size {
        return Err(Refusal::at(Kind::Unit, section, start));
    }
    let version = number_in(order, rest, at, 2);
    if !is_version(kind, version) {
        return Err(Refusal::at(Kind::Unit, section, start));
    }
    let unit_type = unit_type_at(order, kind, rest, version, at);
    if !is_unit_type(unit_type) {
        return Err(Refusal::at(Kind::Unit, section, start));
    }
    if is_split_type(unit_type) {
        return Err(Refusal::at(Kind::SplitDwarf, section, start));
    }
    let places = places_of(width, version, at);
    if at + size < places.behind + further_size(width, unit_type) {
        return Err(Refusal::at(Kind::Unit, section, start));
    }
    Ok(Front {
        width,
        extent: at + size,
        version: version as u16,
        kind: unit_type as u8,
        places,
    })
}
