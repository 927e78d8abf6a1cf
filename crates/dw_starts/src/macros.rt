//! The macro units of a view, read whole, and that each offset of a line table and each of another unit names one (DWARF 5, 6.3).
//!
//! Read first: `specs/MacroSections.antt`, then `specs/MacroNames.antt`.

ghost use Rattle.std.specs.Prelude.{◌≡◌, ◌<◌, length, IfErr, IfOk, OnOk};
ghost use Rattle.dw_base.specs.Refusals.{Blames};
ghost use Rattle.dw_base.specs.declared.fault.Refusal.{Refusal as RefusalOf};
ghost use Rattle.dw_macros.specs.MacroEvents.{IsUnitIn, events_left, unit_events};
ghost use Rattle.dw_base.specs.MacroOffsets.{AreReadUnits, UnitsRefuse};
ghost use Rattle.dw_starts.specs.LineStarts.{Rises};
ghost use Rattle.dw_starts.specs.MacroNames.{AllUnitsIn, AreUnitsIn, EventNames, EventStray, EventStrays, EventsName, LineNames, LineStrays, MacrosName, MacrosStray, UnitsName, UnitsStray};
ghost use Rattle.dw_starts.specs.MacroSections.{SectionUnits, UnitsFailIn, UnitsFoundIn};

use crate::starts::{start_number, stray};
use crate::unit_places::UnitPlaces;
use dw_base::{DebugSection, Fault, MacroEvent, MacroUnit, Refusal};
use dw_macros::{MacroEvents, macro_units};
use dw_view::View;
use std::alloc::Global;
use std::marker::Model;

/// The macro units of a section (DWARF 5, 6.3).
#[derive(Drop)]
pub struct MacroSection {
    /// The section's number.
    pub section: u32,
    /// Its units, in the order of their places.
    pub units: Vec<MacroUnit>,
}

impl Model for MacroSection {
    ghost Value = { SectionUnits };

    ghost view = { λ s. record { number = s.section; units = s.units.items } };
}

/// The macro units of all sections of a view, in the order of their numbers. Refused only where those of one can't be read, at
/// the unit or the operation, or one of their offsets can't, for its relocation.
#[tactic(auto, using(crate::proofs::MacroListLaws::sections_rules))]
pub fn macro_sections(alloc: Global, view: &View) -> Result<Vec<MacroSection>, Fault>
    ensures units { IfOk result (λ ss. UnitsFoundIn view.now ss.items) }
    ensures none { OnOk result ((r : RefusalOf) → UnitsFailIn view.now r → ⊥) }
    ensures refused { IfErr result (Blames (UnitsFailIn view.now)) }
{
    let mut found = Vec::new(alloc);
    for section in view.all(DebugSection::Macro) {
        found.push(section_units(alloc, view, *section)?)?;
    }
    Ok(found)
}

/// Those of the section of a number.
fn section_units(alloc: Global, view: &View, section: u32) -> Result<MacroSection, Fault>
    requires there { section < length view.now.sections }
    ensures number { IfOk result (λ s. s.number ≡ section) }
    ensures units { IfOk result (λ s. AreReadUnits view.now section s.units) }
    ensures refused { IfErr result (Blames (UnitsRefuse view.now section)) }
{
    let units = macro_units(alloc, view, section)?;
    Ok(MacroSection { section, units })
}

/// The units of a section, in the order of their places.
pub fn units_of(section: &MacroSection) -> &[MacroUnit]
    ensures { result.now ≡ section.now.units }
{
    section.units.as_slice()
}

/// The number of a section, as the view counts its sections.
pub fn number_of(section: &MacroSection) -> u32
    ensures { result ≡ section.now.number }
{
    section.section
}

/// Tests that each offset of a line table of all these units names one of these starts, and each of another unit one of these
/// places (DWARF 5, 6.3). Refused as `Stray`, at the field of an offset that names none, the first there is.
#[tactic(auto, using(crate::proofs::MacroLoopLaws::section_loop_rules))]
pub fn macros_name(
    view: &View,
    starts: &[u64],
    places: &UnitPlaces,
    macros: &[MacroSection],
) -> Result<(), Refusal>
    requires macros { AllUnitsIn view.now macros.now }
    requires starts { Rises starts.now }
    ensures named { OnOk result (MacrosName view.now starts.now places.now macros.now) }
    ensures refused { IfErr result (MacrosStray view.now starts.now places.now macros.now) }
{
    for section in macros {
        units_name(view, starts, places, units_of(section))?;
    }
    Ok(())
}

/// The same of the units of one section.
#[tactic(auto, using(crate::proofs::MacroLoopLaws::unit_loop_rules))]
fn units_name(
    view: &View,
    starts: &[u64],
    places: &UnitPlaces,
    units: &[MacroUnit],
) -> Result<(), Refusal>
    requires units { AreUnitsIn view.now units.now }
    requires starts { Rises starts.now }
    ensures named { OnOk result (UnitsName view.now starts.now places.now units.now) }
    ensures refused { IfErr result (UnitsStray view.now starts.now places.now units.now) }
{
    for unit in units {
        line_names(starts, unit)?;
        events_name(view, places, unit)?;
    }
    Ok(())
}

/// The same of the line table of one unit.
#[tactic(auto, using(crate::proofs::MacroNameLaws::line_rules))]
fn line_names(starts: &[u64], unit: &MacroUnit) -> Result<(), Refusal>
    requires starts { Rises starts.now }
    ensures named { OnOk result (LineNames starts.now unit.now.line) }
    ensures refused { IfErr result (LineStrays starts.now unit.now) }
{
    let Some(line) = unit.line else {
        return Ok(());
    };
    match start_number(starts, line) {
        Some(_) => Ok(()),
        None => Err(stray(unit.section, unit.line_field)),
    }
}

/// The same of the events of one unit.
fn events_name(view: &View, places: &UnitPlaces, unit: &MacroUnit) -> Result<(), Refusal>
    requires unit { IsUnitIn view.now unit.now }
    ensures named { OnOk result (EventsName places.now (unit_events view.now unit.now)) }
    ensures refused { IfErr result (EventStrays unit.now.section places.now (unit_events view.now unit.now)) }
{
    left_name(unit.section, places, MacroEvents::new(view, unit))
}

/// The same of events that are left.
#[tactic(auto, using(crate::proofs::MacroLoopLaws::event_loop_rules))]
fn left_name(section: u32, places: &UnitPlaces, events: MacroEvents) -> Result<(), Refusal>
    ensures named { OnOk result (EventsName places.now (events_left events.entry)) }
    ensures refused { IfErr result (EventStrays section places.now (events_left events.entry)) }
{
    for event in events {
        event_names(section, places, event)?;
    }
    Ok(())
}

/// The same of one event.
#[tactic(auto, using(crate::proofs::MacroNameLaws::event_rules))]
fn event_names(section: u32, places: &UnitPlaces, event: MacroEvent) -> Result<(), Refusal>
    ensures named { OnOk result (EventNames places.now event) }
    ensures refused { IfErr result (EventStray section places.now event) }
{
    match event {
        MacroEvent::Import {
            section: target,
            offset,
            field,
        } => {
            if places.has(target, offset) {
                return Ok(());
            }
            Err(stray(section, field))
        }
        _ => Ok(()),
    }
}
