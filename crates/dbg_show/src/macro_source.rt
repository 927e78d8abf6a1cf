//! The macro units of a view, where they start, and the texts and numbers that their events name (DWARF 5, 6.3).
//!
//! Read first: `specs/ShownMacros.antt`.

ghost use Rattle.std.specs.Prelude.{◌≡◌, ◌<◌, length, IfOk, OnOk};
ghost use Rattle.dw_starts.specs.LineStarts.{Rises};
ghost use Rattle.dw_starts.specs.MacroNames.{AllUnitsIn, AreUnitsIn};
ghost use Rattle.dw_starts.specs.UnitPlaces.{AllBelow, all_units, unit_keys, unit_number};
ghost use Rattle.dw_macros.specs.EventMeanings.{text_bytes};
ghost use Rattle.dbg_show.specs.ShownMacros.{AreMacros, MacroSource as MacroSourceOf, line_number};

use dw_attrs::{part, started, unit_number};
use dw_base::TextPlace;
use dw_macros::MacroUnit;
use dw_starts::{MacroSection, start_key, units_of};
use dw_view::View;
use std::alloc::{AllocError, Global};
use std::marker::Model;

/// All macro units of a view, and for each where it starts, as one number.
#[derive(Drop)]
pub(crate) struct MacroList {
    pub units: Vec<MacroUnit>,
    pub keys: Vec<u64>,
}

/// What macro units are printed from: the view, where its line tables start, and its macro units.
#[derive(Drop)]
pub(crate) struct MacroSource<'v, 'f, 'u> {
    pub view: &'v View<'f>,
    pub lines: &'u [u64],
    pub units: &'u [MacroUnit],
    pub keys: &'u [u64],
}

impl<'v, 'f, 'u> Model for MacroSource<'v, 'f, 'u> {
    ghost Value = { MacroSourceOf };

    ghost view = { λ s. record { view = s.view.now; lines = s.lines.now; units = s.units.now; keys = s.keys.now } };
}

/// The units of all sections.
#[tactic(auto, using(crate::proofs::MacroListLaws::unit_laws))]
fn all_units(alloc: Global, macros: &[MacroSection]) -> Result<Vec<MacroUnit>, AllocError>
    ensures { IfOk result (λ units. units.items ≡ all_units macros.now) }
{
    let mut units = Vec::new(alloc);
    for section in macros {
        units.extend_from_slice(units_of(section))?;
    }
    Ok(units)
}

/// Where units start, each as one number.
fn unit_keys(alloc: Global, view: &View, units: &[MacroUnit]) -> Result<Vec<u64>, AllocError>
    requires units { AreUnitsIn view.now units.now }
    ensures keys { IfOk result (λ keys. keys.items ≡ unit_keys units.now) }
    ensures below { OnOk result (AllBelow units.now) }
{
    let mut keys = Vec::with_capacity(alloc, units.len())?;
    for unit in units {
        keys.push(start_key(view, unit))?;
    }
    Ok(keys)
}

/// The macro units of the sections of a view.
#[tactic(auto, using(crate::proofs::MacroListLaws::list_laws))]
pub(crate) fn macro_list(
    alloc: Global,
    view: &View,
    macros: &[MacroSection],
) -> Result<MacroList, AllocError>
    requires macros { AllUnitsIn view.now macros.now }
    ensures list { IfOk result (λ list. AreMacros view.now macros.now list.units.items list.keys.items) }
{
    let units = all_units(alloc, macros)?;
    let keys = unit_keys(alloc, view, units.as_slice())?;
    Ok(MacroList { units, keys })
}

/// The number of the line table of a unit.
fn line_number(starts: &[u64], line: Option<u64>) -> Option<u64>
    requires rises { Rises starts.now }
    ensures { result ≡ line_number starts.now line }
{
    match line {
        Some(start) => started(starts, start),
        None => None,
    }
}

impl<'v, 'f, 'u> MacroSource<'v, 'f, 'u> {
    /// The units.
    pub(crate) fn units(&self) -> &'u [MacroUnit]
        ensures { result.now ≡ self.now.units }
    {
        self.units
    }

    /// The view.
    pub(crate) fn view(&self) -> &'v View<'f>
        ensures { result.now ≡ self.now.view }
    {
        self.view
    }

    /// The text at a place.
    pub(crate) fn text(&self, place: &TextPlace) -> &'v [u8]
        requires there { place.now.section < length self.now.view.sections }
        ensures { result.now ≡ text_bytes self.now.view place.now }
    {
        part(self.view.bytes(place.section), place.at, place.len)
    }

    /// The number of the line table of a unit.
    pub(crate) fn line(&self, line: Option<u64>) -> Option<u64>
        requires rises { Rises self.now.lines }
        ensures { result ≡ line_number self.now.lines line }
    {
        line_number(self.lines, line)
    }

    /// The number of the unit that starts at a place of a section.
    pub(crate) fn unit(&self, section: u32, place: u64) -> Option<u64>
        requires rises { Rises self.now.keys }
        ensures { result ≡ unit_number self.now.keys section place }
    {
        unit_number(self.keys, section, place)
    }
}
