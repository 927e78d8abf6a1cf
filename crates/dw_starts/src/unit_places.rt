//! Where the macro units of a view start (DWARF 5, 6.3). Whether one starts at a place is found in a time that grows with the logarithm of their number.
//!
//! Read first: `specs/UnitPlaces.antt`.

ghost use Rattle.std.specs.Prelude.{◌≡◌, ◌++◌, ◌<◌, ◌^◌, IfOk, OnOk};
ghost use Rattle.dw_base.specs.DebugData.{start_number};
ghost use Rattle.dw_base.specs.LineMeanings.{is_there};
ghost use Rattle.dw_base.specs.ViewData.{debug_data};
ghost use Rattle.dw_macros.specs.MacroEvents.{IsUnitIn};
ghost use Rattle.dw_starts.specs.UnitPlaces.{UnitsStart, AllBelow, UnitPlaces as UnitPlacesOf, all_units, has_unit, names_place, place_key, place_limit, unit_keys, unit_number};
ghost use Rattle.dw_starts.specs.LineStarts.{Rises};
ghost use Rattle.dw_starts.specs.MacroNames.{AllUnitsIn, AreUnitsIn};
ghost use Rattle.dw_starts.specs.MacroSections.{UnitsFoundIn, first_section};

use crate::macros::{MacroSection, number_of, units_of};
use crate::starts::start_number;
use dw_base::{Field, MacroUnit};
use dw_view::View;
use std::alloc::{AllocError, Global};
use std::marker::Model;

/// No section has as many bytes.
const PLACE_LIMIT: u64 = 0x1_0000_0000;

/// Where the macro units of a view start (DWARF 5, 6.3).
#[derive(Drop)]
pub struct UnitPlaces {
    /// Their first section; 0 where there is none.
    first: u32,
    /// Where those of all sections start, each as one number; these rise.
    keys: Vec<u64>,
}

impl Model for UnitPlaces {
    ghost Value = { UnitPlacesOf };

    ghost view = { λ p. record { first = p.first; keys = p.keys.items } };

    ghost invariant = { λ p. Rises p.keys.items };
}

impl UnitPlaces {
    /// Where these units of a view start, which are all that it has. Only memory can be wanting.
    #[tactic(auto, using(crate::proofs::UnitPlaceLaws::new_rules))]
    pub fn new(
        alloc: Global,
        view: &View,
        macros: &[MacroSection],
    ) -> Result<UnitPlaces, AllocError>
        requires macros { UnitsFoundIn view.now macros.now }
        ensures start { IfOk result (λ places. UnitsStart (debug_data view.now) places) }
    {
        let keys = unit_keys(alloc, view, macros)?;
        let first = first_section(macros);
        Ok(UnitPlaces { first, keys })
    }

    /// A unit starts at a place of a section, in bytes from its start.
    pub fn has(&self, section: u32, place: u64) -> bool
        ensures { result ≡ has_unit self.now section place }
    {
        has_key(self.keys.as_slice(), section, place)
    }

    /// A field names a unit: a number one of the first section, and a relocation one of the section that it leads to.
    pub fn names(&self, field: Field) -> bool
        ensures { result ≡ names_place self.now field }
    {
        match field {
            Field::Num(place) => self.has(self.first, place),
            Field::Into { section, offset } => self.has(section, offset),
            Field::Sym { .. } => false,
        }
    }
}

/// A unit starts at a place of a section, among where units start.
fn has_key(keys: &[u64], section: u32, place: u64) -> bool
    requires rises { Rises keys.now }
    ensures { result ≡ is_there (unit_number keys.now section place) }
{
    if place < PLACE_LIMIT {
        return has_start(keys, place_key(section, place));
    }
    false
}

/// One of these starts is this.
fn has_start(starts: &[u64], start: u64) -> bool
    requires rises { Rises starts.now }
    ensures { result ≡ is_there (start_number 0 starts.now start) }
{
    match start_number(starts, start) {
        Some(_) => true,
        None => false,
    }
}

/// One number for a place of a section, in bytes from its start, larger in a later section.
pub fn place_key(section: u32, place: u64) -> u64
    requires small { place < 2 ^ 32 }
    ensures key { result ≡ place_key section place }
{
    section as u64 * 0x1_0000_0000 + place
}

/// The number of the first section; 0 where there is none.
#[tactic(auto, using(crate::proofs::UnitPlaceLaws::first_rules))]
fn first_section(macros: &[MacroSection]) -> u32
    ensures { result ≡ first_section macros.now }
{
    if macros.is_empty() {
        return 0;
    }
    number_of(&macros[0])
}

/// Where the units of all sections start, each as one number.
#[tactic(auto, using(crate::proofs::UnitPlaceLaws::all_rules))]
fn unit_keys(alloc: Global, view: &View, macros: &[MacroSection]) -> Result<Vec<u64>, AllocError>
    requires macros { AllUnitsIn view.now macros.now }
    ensures keys { IfOk result (λ keys. keys.items ≡ unit_keys (all_units macros.now)) }
    ensures below { OnOk result (AllBelow (all_units macros.now)) }
{
    let mut keys = Vec::new(alloc);
    for section in macros {
        push_keys(view, units_of(section), &mut keys)?;
    }
    Ok(keys)
}

/// Appends those of units.
#[tactic(auto, using(crate::proofs::UnitPlaceLaws::keys_rules))]
fn push_keys(view: &View, units: &[MacroUnit], keys: &mut Vec<u64>) -> Result<(), AllocError>
    requires units { AreUnitsIn view.now units.now }
    ensures keys { OnOk result (keys.new.items ≡ keys.old.items ++ unit_keys units.now) }
    ensures below { OnOk result (AllBelow units.now) }
{
    for unit in units {
        keys.push(start_key(view, unit))?;
    }
    Ok(())
}

/// Where a unit starts, as one number.
#[tactic(auto, using(crate::proofs::UnitPlaceLaws::start_rules))]
pub fn start_key(view: &View, unit: &MacroUnit) -> u64
    requires unit { IsUnitIn view.now unit.now }
    ensures key { result ≡ place_key unit.now.section unit.now.start }
    ensures below { unit.now.start < place_limit }
{
    let _ = view.bytes(unit.section);
    place_key(unit.section, unit.start)
}
