//! The events of a macro unit, as an iterator (DWARF 5, 6.3.2).
//!
//! This file promises: what a step gives is the first of the events that are left (`events_left` in
//! `specs/MacroEvents.antt`), and nothing where none is left. At the start those of the unit are left.

ghost use Rattle.std.specs.Prelude.{◌≡◌, ◌+◌, ◌≤◌, ◌<◌, ◌∷◌, [], length, IfNone, IfSome};
ghost use Rattle.std.specs.Iterator.{YieldsFirst, item_count};
ghost use Rattle.dw_base.specs.FileViews.{section_bytes};
ghost use Rattle.dw_base.specs.Forms.{width_size};
ghost use Rattle.dw_base.specs.MacroOffsets.{FieldReads, OperationReads, ReadsFrom};
ghost use Rattle.dw_macros.specs.MacroEvents.{EventsFit, EventsState, IsUnitIn, SpellsEvents, event_by, event_in, events_from, events_left, events_start, import_at, inline_place, named_place, text_event, unit_events};
ghost use Rattle.dw_macros.specs.OperationRooms.{HasRoom};

use crate::reading::operation_at;
use crate::texts::{macro_field, offset_at};
use dw_base::{DebugSection, Field, MacroEvent, MacroOperation, MacroUnit, TextPlace, Width};
use dw_strings::text_at;
use dw_view::View;
use std::marker::Model;

/// The events of a unit, in order: an iterator of `MacroEvent`.
#[derive(Drop)]
pub struct MacroEvents<'v, 'f> {
    /// The view.
    view: &'v View<'f>,
    /// The number of the unit's section.
    section: u32,
    /// How wide the unit's offsets are.
    width: Width,
    /// The place of the next operation.
    place: u64,
}

impl<'v, 'f> Model for MacroEvents<'v, 'f> {
    ghost Value = { EventsState };

    ghost view = { λ s. record { view = s.view.now; section = s.section; width = s.width; place = s.place } };

    ghost invariant = { λ s. EventsFit (record { view = s.view.now; section = s.section; width = s.width; place = s.place }) };
}

/// A definition, or its end.
fn text_event(defines: bool, line: u64, text: TextPlace) -> MacroEvent
    ensures event { result ≡ text_event defines line text }
{
    if defines {
        MacroEvent::Define { line, text }
    } else {
        MacroEvent::Undef { line, text }
    }
}

/// A text that stands inline.
fn inline_place(section: u32, at: u64, len: u64) -> TextPlace
    ensures text { result ≡ inline_place section at len }
{
    TextPlace {
        section,
        at,
        len,
        field: at,
    }
}

/// The text that the offset at a place of a section names, which can be read. `None` exactly where no text that ends
/// begins there.
#[tactic(auto, using(crate::proofs::EventLaws::named_laws), unfolding(crate::specs::MacroEvents::named_place))]
fn named_place(view: &View, section: u32, width: Width, field: u64) -> Option<TextPlace>
    requires there { section < length view.now.sections }
    requires inside { field + width_size width ≤ length (section_bytes view.now section) }
    requires reads { FieldReads view.now section width field }
    ensures text { result ≡ named_place view.now section width field }
{
    let at = match offset_at(view, DebugSection::Str, section, width, field) {
        Ok(at) => at,
        Err(_) => unreachable!(),
    };
    let Some(number) = view.first(DebugSection::Str) else {
        return None;
    };
    match text_at(number, view.bytes(number), at) {
        Ok(text) => Some(TextPlace {
            section: number,
            at,
            len: text.len() as u64,
            field,
        }),
        Err(_) => None,
    }
}

/// The unit that the offset at a place of a section names, which can be read.
#[tactic(auto, using(crate::proofs::EventLaws::import_laws))]
fn import_at(view: &View, section: u32, width: Width, field: u64) -> MacroEvent
    requires there { section < length view.now.sections }
    requires inside { field + width_size width ≤ length (section_bytes view.now section) }
    requires reads { FieldReads view.now section width field }
    ensures event { result ≡ import_at view.now section width field }
{
    let read = match macro_field(view, section, width, field) {
        Ok(read) => read,
        Err(_) => unreachable!(),
    };
    match read {
        Field::Num(offset) => MacroEvent::Import {
            section: view.located(DebugSection::Macro).number,
            offset,
            field,
        },
        Field::Into { section, offset } => MacroEvent::Import {
            section,
            offset,
            field,
        },
        Field::Sym { .. } => unreachable!(),
    }
}

/// What an operation is as an event, and the place behind it. `None` exactly where it ends its unit.
#[tactic(auto, using(crate::proofs::EventLaws::by_laws), unfolding(crate::specs::MacroEvents::event_by))]
fn event_by(
    view: &View,
    section: u32,
    width: Width,
    operation: MacroOperation,
    next: u64,
) -> Option<(MacroEvent, u64)>
    requires there { section < length view.now.sections }
    requires room { HasRoom (section_bytes view.now section) width operation }
    requires reads { OperationReads view.now section width operation }
    ensures event { result ≡ event_by view.now section width operation next }
    ensures behind { IfSome result (λ e. e.1 ≡ next) }
{
    match operation {
        MacroOperation::End => None,
        MacroOperation::Inline {
            defines,
            line,
            at,
            len,
        } => {
            let text = inline_place(section, at, len);
            Some((text_event(defines, line, text), next))
        }
        MacroOperation::Named {
            defines,
            line,
            field,
        } => match named_place(view, section, width, field) {
            Some(text) => Some((text_event(defines, line, text), next)),
            None => None,
        },
        MacroOperation::Enter { line, file } => Some((MacroEvent::StartFile { line, file }, next)),
        MacroOperation::Leave => Some((MacroEvent::EndFile, next)),
        MacroOperation::Bring { field } => Some((import_at(view, section, width, field), next)),
        MacroOperation::Foreign => None,
    }
}

/// The event at a place of a section from which on offsets can be read, and the place behind it. `None` exactly where
/// none stands there.
#[tactic(auto, using(crate::proofs::EventLaws::in_laws), unfolding(crate::specs::MacroEvents::event_in))]
fn event_in(view: &View, section: u32, width: Width, place: u64) -> Option<(MacroEvent, u64)>
    requires there { section < length view.now.sections }
    requires reads { ReadsFrom view.now section width place }
    ensures event { result ≡ event_in view.now section width place }
    ensures behind { IfSome result (λ e. place < e.1) }
    ensures reads { IfSome result (λ e. ReadsFrom view.now section width e.1) }
{
    match operation_at(view.bytes(section), width, place) {
        Some((operation, next)) => event_by(view, section, width, operation, next),
        None => None,
    }
}

/// The first event from a place on, and the place behind it. `None` exactly where none is left.
#[tactic(auto, using(crate::proofs::EventLaws::next_laws))]
fn next_event(view: &View, section: u32, width: Width, place: u64) -> Option<(MacroEvent, u64)>
    requires there { section < length view.now.sections }
    requires reads { ReadsFrom view.now section width place }
    ensures event { IfSome result (λ e. events_from view.now section width place ≡ e.0 ∷ events_from view.now section width e.1) }
    ensures none { IfNone result (events_from view.now section width place ≡ []) }
    ensures reads { IfSome result (λ e. ReadsFrom view.now section width e.1) }
{
    match event_in(view, section, width, place) {
        Some(read) => Some(read),
        None => None,
    }
}

impl<'v, 'f> MacroEvents<'v, 'f> {
    /// The events of a unit that was read in the view, before the first. No step of the walk can fail: the
    /// unit is events up to its end, and nothing else.
    #[tactic(auto, using(crate::proofs::EventLaws::start_laws))]
    pub fn new(view: &'v View<'f>, unit: &MacroUnit) -> MacroEvents<'v, 'f>
        requires unit { IsUnitIn view.now unit.now }
        ensures start { result ≡ events_start view.now unit.now }
        ensures whole { SpellsEvents view.now unit.now.section unit.now.width unit.now.first (unit_events view.now unit.now) unit.now.end }
    {
        MacroEvents {
            view,
            section: unit.section,
            width: unit.width,
            place: unit.first,
        }
    }
}

impl<'v, 'f> Iterator for MacroEvents<'v, 'f> {
    type Item = MacroEvent;

    ghost next_gives = { YieldsFirst events_left };

    ghost remaining = { item_count events_left };

    fn next(&mut self) -> Option<MacroEvent> {
        match next_event(self.view, self.section, self.width, self.place) {
            Some((event, next)) => {
                self.place = next;
                Some(event)
            }
            None => None,
        }
    }
}
