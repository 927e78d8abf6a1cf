//! The lines of macro units, printed one after another: each unit with its events.
//!
//! Read first: `specs/ShownMacros.antt`.

ghost use Rattle.std.specs.Prelude.{◌≡◌, ◌++◌, IfErr, OnOk};
ghost use Rattle.std.specs.String.{string_bytes};
ghost use Rattle.dw_macros.specs.MacroEvents.{IsUnitIn, events_left, unit_events};
ghost use Rattle.dw_starts.specs.MacroNames.{AreUnitsIn};
ghost use Rattle.dbg_show.specs.MacroTexts.{macros_line};
ghost use Rattle.dbg_show.specs.Printing.{Cut, Printed};
ghost use Rattle.dbg_show.specs.ShownMacros.{EventThere, EventsThere, MacrosFit, event_shown, events_shown, unit_shown, units_shown};

use crate::macro_source::MacroSource;
use crate::macro_texts::{
    push_define, push_file_end, push_import, push_macros, push_start, push_undef,
};
use crate::printing::write_full;
use crate::show_err::ShowErr;
use dw_macros::{MacroEvent, MacroEvents, MacroUnit};
use file_tree::Sink;
use std::alloc::AllocError;

/// Appends the line of an event.
#[tactic(auto, unfolding(crate::specs::ShownMacros::event_shown))]
fn push_event(text: &mut String, source: &MacroSource, event: MacroEvent) -> Result<(), AllocError>
    requires fits { MacrosFit source.now }
    requires there { EventThere source.now.view event }
    ensures text { OnOk result (string_bytes text.new ≡ string_bytes text.old ++ event_shown source.now event) }
{
    match event {
        MacroEvent::Define { line, text: place } => push_define(text, line, source.text(&place)),
        MacroEvent::Undef { line, text: place } => push_undef(text, line, source.text(&place)),
        MacroEvent::StartFile { line, file } => push_start(text, line, file),
        MacroEvent::EndFile => push_file_end(text),
        MacroEvent::Import {
            section,
            offset,
            ..
        } => push_import(text, source.unit(section, offset)),
    }
}

/// Prints the line of an event.
#[tactic(auto, using(crate::proofs::PrintingLaws::line_laws))]
fn print_event<O: Sink>(
    text: &mut String,
    out: &mut O,
    source: &MacroSource,
    event: MacroEvent,
) -> Result<(), ShowErr>
    requires fits { MacrosFit source.now }
    requires there { EventThere source.now.view event }
    ensures done { OnOk result (Printed (event_shown source.now event) (string_bytes text.old) (O.heard out.old) (O.heard out.new) (string_bytes text.new)) }
    ensures cut { IfErr result (Cut (string_bytes text.old ++ event_shown source.now event) (O.heard out.old) (O.heard out.new)) }
{
    push_event(text, source, event)?;
    write_full(text, out)
}

/// Prints the lines of events.
#[tactic(auto, using(crate::proofs::MacroLoopLaws::event_laws))]
fn print_events<'v, 'f, O: Sink>(
    text: &mut String,
    out: &mut O,
    source: &MacroSource,
    events: MacroEvents<'v, 'f>,
) -> Result<(), ShowErr>
    requires fits { MacrosFit source.now }
    requires there { EventsThere source.now.view (events_left events) }
    ensures done { OnOk result (Printed (events_shown source.now (events_left events.entry)) (string_bytes text.old) (O.heard out.old) (O.heard out.new) (string_bytes text.new)) }
    ensures cut { IfErr result (Cut (string_bytes text.old ++ events_shown source.now (events_left events.entry)) (O.heard out.old) (O.heard out.new)) }
{
    for event in events {
        match print_event(text, out, source, event) {
            Ok(()) => {}
            Err(e) => return Err(e),
        }
    }
    Ok(())
}

/// Prints the first line of a unit of a number.
#[tactic(auto, using(crate::proofs::PrintingLaws::line_laws))]
fn print_front<O: Sink>(
    text: &mut String,
    out: &mut O,
    number: u64,
    version: u16,
    line: Option<u64>,
) -> Result<(), ShowErr>
    ensures done { OnOk result (Printed (macros_line number version line) (string_bytes text.old) (O.heard out.old) (O.heard out.new) (string_bytes text.new)) }
    ensures cut { IfErr result (Cut (string_bytes text.old ++ macros_line number version line) (O.heard out.old) (O.heard out.new)) }
{
    push_macros(text, number, version, line)?;
    write_full(text, out)
}

/// Prints the events of a unit.
#[tactic(auto, using(crate::proofs::MacroLoopLaws::unit_laws))]
fn print_all<O: Sink>(
    text: &mut String,
    out: &mut O,
    source: &MacroSource,
    unit: &MacroUnit,
) -> Result<(), ShowErr>
    requires fits { MacrosFit source.now }
    requires unit { IsUnitIn source.now.view unit.now }
    ensures done { OnOk result (Printed (events_shown source.now (unit_events source.now.view unit.now)) (string_bytes text.old) (O.heard out.old) (O.heard out.new) (string_bytes text.new)) }
    ensures cut { IfErr result (Cut (string_bytes text.old ++ events_shown source.now (unit_events source.now.view unit.now)) (O.heard out.old) (O.heard out.new)) }
{
    print_events(text, out, source, MacroEvents::new(source.view(), unit))
}

/// Prints a unit of a number.
#[tactic(auto, using(crate::proofs::PrintingLaws::then_laws))]
fn print_unit<O: Sink>(
    text: &mut String,
    out: &mut O,
    source: &MacroSource,
    number: u64,
    unit: &MacroUnit,
) -> Result<(), ShowErr>
    requires fits { MacrosFit source.now }
    requires unit { IsUnitIn source.now.view unit.now }
    ensures done { OnOk result (Printed (unit_shown source.now number unit.now) (string_bytes text.old) (O.heard out.old) (O.heard out.new) (string_bytes text.new)) }
    ensures cut { IfErr result (Cut (string_bytes text.old ++ unit_shown source.now number unit.now) (O.heard out.old) (O.heard out.new)) }
{
    print_front(text, out, number, unit.version, source.line(unit.line))?;
    print_all(text, out, source, unit)
}

/// Prints units, numbered from 0.
#[tactic(auto, using(crate::proofs::MacroLoopLaws::units_laws))]
fn print_units<O: Sink>(
    text: &mut String,
    out: &mut O,
    source: &MacroSource,
    units: &[MacroUnit],
) -> Result<(), ShowErr>
    requires fits { MacrosFit source.now }
    requires units { AreUnitsIn source.now.view units.now }
    ensures done { OnOk result (Printed (units_shown source.now 0 units.now) (string_bytes text.old) (O.heard out.old) (O.heard out.new) (string_bytes text.new)) }
    ensures cut { IfErr result (Cut (string_bytes text.old ++ units_shown source.now 0 units.now) (O.heard out.old) (O.heard out.new)) }
{
    for (number, unit) in units.iter().enumerate() {
        match print_unit(text, out, source, number as u64, unit) {
            Ok(()) => {}
            Err(e) => return Err(e),
        }
    }
    Ok(())
}

/// Prints the units of a source.
pub(crate) fn print_macros<O: Sink>(
    text: &mut String,
    out: &mut O,
    source: &MacroSource,
) -> Result<(), ShowErr>
    requires fits { MacrosFit source.now }
    ensures done { OnOk result (Printed (units_shown source.now 0 source.now.units) (string_bytes text.old) (O.heard out.old) (O.heard out.new) (string_bytes text.new)) }
    ensures cut { IfErr result (Cut (string_bytes text.old ++ units_shown source.now 0 source.now.units) (O.heard out.old) (O.heard out.new)) }
{
    print_units(text, out, source, source.units())
}
