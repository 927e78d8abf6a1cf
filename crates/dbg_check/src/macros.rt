//! Macro units of two views compared, event by event (DWARF 5, 6.3). No text of one is a path, so they are the same or differ as they are.
//!
//! Read first: `specs/MacroSides.antt`.

ghost use Rattle.std.specs.Prelude.{◌≡◌, ◌↔◌, ◌∷◌, [], false, length, option_and_then, IfNone, IfSome, IsTrue};
ghost use Rattle.dw_base.specs.DebugData.{start_number};
ghost use Rattle.dw_base.specs.MacroMeanings.{begun, brought, defined, ended, undefined};
ghost use Rattle.dw_macros.specs.EventMeanings.{text_bytes};
ghost use Rattle.dw_macros.specs.MacroEvents.{IsUnitIn, events_left, unit_events};
ghost use Rattle.dw_starts.specs.LineStarts.{Rises};
ghost use Rattle.dw_starts.specs.MacroNames.{AreUnitsIn};
ghost use Rattle.dw_starts.specs.UnitPlaces.{unit_number};
ghost use Rattle.dbg_check.specs.MacroSides.{MacroSide as MacroSideOf, HasOther, event_said, events_said, unit_said, units_said};
ghost use Rattle.dbg_check.specs.Parts.{AgreeAll, IsFirstApart, MacroAgrees};

use crate::texts::text_of;
use crate::values::same_number;
use dw_attrs::{started, unit_number};
use dw_macros::{MacroEvent, MacroEvents, MacroUnit, TextPlace};
use dw_view::View;
use std::marker::Model;

/// What macro units of a view are compared by: the view, where its line tables start, and where its macro units do (`place_key`).
#[derive(Drop)]
pub struct MacroSide<'v, 'f, 'u> {
    /// The view.
    view: &'v View<'f>,
    /// Where its line tables start, in bytes from the start of their section; these rise.
    lines: &'u [u64],
    /// Where its macro units start, each as one number; these rise.
    keys: &'u [u64],
}

impl<'v, 'f, 'u> Model for MacroSide<'v, 'f, 'u> {
    ghost Value = { MacroSideOf };

    ghost view = { λ s. record { view = s.view.now; lines = s.lines.now; keys = s.keys.now } };

    ghost invariant = { λ s. Rises s.lines.now × Rises s.keys.now };
}

/// The number of the line table that starts at a place, among where they start.
fn line_number(starts: &[u64], line: Option<u64>) -> Option<u64>
    requires rises { Rises starts.now }
    ensures number { result ≡ option_and_then (start_number 0 starts.now) line }
{
    match line {
        Some(start) => started(starts, start),
        None => None,
    }
}

impl<'v, 'f, 'u> MacroSide<'v, 'f, 'u> {
    /// That of a view, with where its line tables and its macro units start.
    pub fn new(view: &'v View<'f>, lines: &'u [u64], keys: &'u [u64]) -> MacroSide<'v, 'f, 'u>
        requires lines { Rises lines.now }
        requires keys { Rises keys.now }
        ensures value { result ≡ record { view = view.now; lines = lines.now; keys = keys.now } }
    {
        MacroSide { view, lines, keys }
    }

    /// The text at a place.
    fn text(&self, place: TextPlace) -> &'v [u8]
        ensures text { result.now ≡ text_bytes self.now.view place }
    {
        text_of(self.view, place)
    }

    /// The number of the line table that starts at a place.
    fn line(&self, line: Option<u64>) -> Option<u64>
        ensures number { result ≡ option_and_then (start_number 0 self.now.lines) line }
    {
        line_number(self.lines, line)
    }

    /// The events of a unit that was read.
    #[tactic(auto, using(crate::proofs::MacroLaws::walk_laws))]
    fn events(&self, unit: &MacroUnit) -> MacroEvents<'v, 'f>
        requires unit { IsUnitIn self.now.view unit.now }
        ensures events { events_left result ≡ unit_events self.now.view unit.now }
    {
        MacroEvents::new(self.view, unit)
    }

    /// The number of the macro unit that starts at a place of a section.
    fn unit(&self, section: u32, place: u64) -> Option<u64>
        ensures number { result ≡ unit_number self.now.keys section place }
    {
        unit_number(self.keys, section, place)
    }
}

/// Whether two numbers are the same, of which each may be none.
fn same_found(one: Option<u64>, other: Option<u64>) -> bool
    ensures value { IsTrue result ↔ (one ≡ other) }
{
    match (one, other) {
        (Some(one), Some(other)) => one == other,
        (None, None) => true,
        _ => false,
    }
}

/// Whether two texts are the same, and stand in lines of the same number.
#[tactic(auto, using(crate::proofs::MacroLaws::text_laws))]
fn same_lined(line: u64, text: &[u8], other: u64, bytes: &[u8]) -> bool
    ensures value { IsTrue result ↔ (defined line text.now ≡ defined other bytes.now) }
{
    if !same_number(line, other) {
        return false;
    }
    text == bytes
}

/// Whether an event is the definition of a text in a line.
#[tactic(auto, using(crate::proofs::MacroLaws::event_laws))]
fn is_define(new: &MacroSide, line: u64, text: &[u8], other: MacroEvent) -> bool
    ensures value { IsTrue result ↔ (defined line text.now ≡ event_said new.now other) }
{
    match other {
        MacroEvent::Define {
            line: number,
            text: place,
        } => same_lined(line, text, number, new.text(place)),
        _ => false,
    }
}

/// Whether an event is the end of the definition of a text.
#[tactic(auto, using(crate::proofs::MacroLaws::event_laws))]
fn is_undef(new: &MacroSide, line: u64, text: &[u8], other: MacroEvent) -> bool
    ensures value { IsTrue result ↔ (undefined line text.now ≡ event_said new.now other) }
{
    match other {
        MacroEvent::Undef {
            line: number,
            text: place,
        } => same_lined(line, text, number, new.text(place)),
        _ => false,
    }
}

/// Whether two files begin by the same lines, and have the same numbers.
#[tactic(auto, using(crate::proofs::MacroLaws::file_laws))]
fn same_file(line: u64, file: u64, other: u64, number: u64) -> bool
    ensures value { IsTrue result ↔ (begun line file ≡ begun other number) }
{
    if !same_number(line, other) {
        return false;
    }
    same_number(file, number)
}

/// Whether an event is the beginning of a file of a number, by a line.
#[tactic(auto, using(crate::proofs::MacroLaws::event_laws))]
fn is_start(new: &MacroSide, line: u64, file: u64, other: MacroEvent) -> bool
    ensures value { IsTrue result ↔ (begun line file ≡ event_said new.now other) }
{
    match other {
        MacroEvent::StartFile {
            line: by,
            file: number,
        } => same_file(line, file, by, number),
        _ => false,
    }
}

/// Whether an event is the end of a file.
#[tactic(auto, using(crate::proofs::MacroLaws::event_laws))]
fn is_file_end(new: &MacroSide, other: MacroEvent) -> bool
    ensures value { IsTrue result ↔ (ended ≡ event_said new.now other) }
{
    match other {
        MacroEvent::EndFile => true,
        _ => false,
    }
}

/// Whether an event is those of the unit of a number, or of none.
#[tactic(auto, using(crate::proofs::MacroLaws::event_laws))]
fn is_import(new: &MacroSide, unit: Option<u64>, other: MacroEvent) -> bool
    ensures value { IsTrue result ↔ (brought unit ≡ event_said new.now other) }
{
    match other {
        MacroEvent::Import {
            section,
            offset,
            ..
        } => same_found(unit, new.unit(section, offset)),
        _ => false,
    }
}

/// Whether two events mean the same.
#[tactic(auto, using(crate::proofs::MacroLaws::here_laws))]
fn same_event(old: &MacroSide, new: &MacroSide, event: MacroEvent, other: MacroEvent) -> bool
    ensures value { IsTrue result ↔ (event_said old.now event ≡ event_said new.now other) }
{
    match event {
        MacroEvent::Define { line, text } => is_define(new, line, old.text(text), other),
        MacroEvent::Undef { line, text } => is_undef(new, line, old.text(text), other),
        MacroEvent::StartFile { line, file } => is_start(new, line, file, other),
        MacroEvent::EndFile => is_file_end(new, other),
        MacroEvent::Import {
            section,
            offset,
            ..
        } => is_import(new, old.unit(section, offset), other),
    }
}

/// Whether the next event of a walk means what another does.
#[tactic(auto, using(crate::proofs::MacroLaws::next_laws))]
fn next_agrees<'w, 'g>(
    old: &MacroSide,
    new: &MacroSide,
    event: MacroEvent,
    others: &mut MacroEvents<'w, 'g>,
) -> bool
    ensures same { IsTrue result → events_said new.now (events_left others.old) ≡ event_said old.now event ∷ events_said new.now (events_left others.new) }
    ensures other { result ≡ false → HasOther (event_said old.now event) (events_said new.now (events_left others.old)) }
{
    match others.next() {
        Some(other) => same_event(old, new, event, other),
        None => false,
    }
}

/// Whether a walk has no event left.
#[tactic(auto, using(crate::proofs::MacroLaws::over_laws))]
fn is_over<'w, 'g>(new: &MacroSide, mut others: MacroEvents<'w, 'g>) -> bool
    ensures value { IsTrue result ↔ ([] ≡ events_said new.now (events_left others.entry)) }
{
    match others.next() {
        Some(_) => false,
        None => true,
    }
}

/// Whether the events that two walks have left mean the same.
#[tactic(auto, using(crate::proofs::MacroLaws::loop_laws))]
fn same_events<'v, 'f, 'w, 'g>(
    old: &MacroSide,
    new: &MacroSide,
    events: MacroEvents<'v, 'f>,
    mut others: MacroEvents<'w, 'g>,
) -> bool
    ensures value { IsTrue result ↔ (events_said old.now (events_left events.entry) ≡ events_said new.now (events_left others.entry)) }
{
    for event in events {
        if !next_agrees(old, new, event, &mut others) {
            return false;
        }
    }
    is_over(new, others)
}

/// Whether two macro units that were read mean the same: version, line table, and events.
#[tactic(auto, using(crate::proofs::MacroLaws::unit_laws))]
pub fn same_macro_unit(
    old: &MacroSide,
    new: &MacroSide,
    unit: &MacroUnit,
    other: &MacroUnit,
) -> bool
    requires unit { IsUnitIn old.now.view unit.now }
    requires unit_there { IsUnitIn new.now.view other.now }
    ensures value { IsTrue result ↔ MacroAgrees (unit_said old.now unit.now) (unit_said new.now other.now) }
{
    if unit.version != other.version {
        return false;
    }
    if !same_found(old.line(unit.line), new.line(other.line)) {
        return false;
    }
    same_events(old, new, old.events(unit), new.events(other))
}

/// The number of the first of two equally long lists of macro units that were read which means something else than the other of that number;
/// none exactly where all mean the same.
pub fn first_other_macro_unit(
    old: &MacroSide,
    new: &MacroSide,
    units: &[MacroUnit],
    others: &[MacroUnit],
) -> Option<usize>
    requires units { AreUnitsIn old.now.view units.now }
    requires units_there { AreUnitsIn new.now.view others.now }
    requires long { length units.now ≡ length others.now }
    ensures none { IfNone result (AgreeAll MacroAgrees (units_said old.now units.now) (units_said new.now others.now)) }
    ensures first { IfSome result (IsFirstApart MacroAgrees (units_said old.now units.now) (units_said new.now others.now)) }
{
    for (number, unit) in units.iter().enumerate() {
        if !same_macro_unit(old, new, unit, &others[number]) {
            return Some(number);
        }
    }
    None
}
