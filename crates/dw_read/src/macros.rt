//! What the macro units of a view say of line tables and texts: the fields of the offsets of their line tables and of texts
//! (DWARF 5, 6.3).
//!
//! Read first: `specs/MacroFields.antt`.

ghost use Rattle.std.specs.Prelude.{◌≡◌, ◌++◌, ◌<◌, IfOk, OnOk};
ghost use Rattle.dw_macros.specs.MacroEvents.{IsUnitIn, events_left, unit_events};
ghost use Rattle.dw_starts.specs.MacroNames.{AllUnitsIn, AreUnitsIn};
ghost use Rattle.dw_read.specs.MacroFields.{event_field, event_fields, line_fields, macros_of, macros_with, named_texts, place_field};

use dw_base::{DebugSection, MacroEvent, MacroUnit, TextPlace, Width};
use dw_macros::MacroEvents;
use dw_offsets::OffsetField;
use dw_starts::{MacroSection, number_of, units_of};
use dw_unit_fields::SectionFields;
use dw_view::View;
use std::alloc::{AllocError, Global};

/// Puts what the sections of macro units say of line tables and texts behind what was found.
#[tactic(auto, using(crate::proofs::MacroSectionLaws::push_rules))]
pub(crate) fn push_macros(
    alloc: Global,
    view: &View,
    macros: &[MacroSection],
    paths: &mut Vec<SectionFields>,
) -> Result<(), AllocError>
    requires macros { AllUnitsIn view.now macros.now }
    ensures { OnOk result (paths.new.items ≡ paths.old.items ++ macros_of view.now macros.now) }
{
    for section in macros {
        paths.push(macros_with(alloc, view, section)?)?;
    }
    Ok(())
}

/// What a section of macro units says of line tables and texts: where the first start, and the fields of the second.
#[tactic(auto, using(crate::proofs::MacroSectionLaws::with_rules))]
fn macros_with(
    alloc: Global,
    view: &View,
    section: &MacroSection,
) -> Result<SectionFields, AllocError>
    requires units { AreUnitsIn view.now section.now.units }
    ensures { IfOk result (λ u. u ≡ macros_with section.now.number (line_fields section.now.units) (named_texts view.now section.now.units)) }
{
    let starts = line_fields(alloc, units_of(section))?;
    let texts = named_texts(alloc, view, units_of(section))?;
    let mut paths = SectionFields::new(alloc, number_of(section));
    paths.put(DebugSection::Line, starts);
    paths.put(DebugSection::Str, texts);
    Ok(paths)
}

/// The fields of the offsets of texts that the events of units name.
fn named_texts(
    alloc: Global,
    view: &View,
    units: &[MacroUnit],
) -> Result<Vec<OffsetField>, AllocError>
    requires units { AreUnitsIn view.now units.now }
    ensures { IfOk result (λ fields. fields.items ≡ named_texts view.now units.now) }
{
    let mut fields = Vec::new(alloc);
    for unit in units {
        push_events(view, unit, &mut fields)?;
    }
    Ok(fields)
}

/// Appends those of one unit.
fn push_events(
    view: &View,
    unit: &MacroUnit,
    fields: &mut Vec<OffsetField>,
) -> Result<(), AllocError>
    requires unit { IsUnitIn view.now unit.now }
    ensures { OnOk result (fields.new.items ≡ fields.old.items ++ event_fields unit.now.section unit.now.width (unit_events view.now unit.now)) }
{
    push_left(
        unit.section,
        unit.width,
        MacroEvents::new(view, unit),
        fields,
    )
}

/// Appends those of events that are left.
#[tactic(auto, using(crate::proofs::MacroSectionLaws::left_rules))]
fn push_left(
    section: u32,
    width: Width,
    events: MacroEvents,
    fields: &mut Vec<OffsetField>,
) -> Result<(), AllocError>
    ensures { OnOk result (fields.new.items ≡ fields.old.items ++ event_fields section width (events_left events.entry)) }
{
    for event in events {
        push_event(section, width, event, fields)?;
    }
    Ok(())
}

/// Appends that of one event, where it names a text.
#[tactic(auto, using(crate::proofs::MacroSectionLaws::event_rules))]
fn push_event(
    section: u32,
    width: Width,
    event: MacroEvent,
    fields: &mut Vec<OffsetField>,
) -> Result<(), AllocError>
    ensures { OnOk result (fields.new.items ≡ fields.old.items ++ event_field section width event) }
{
    match event {
        MacroEvent::Define { text, .. } => push_text(section, width, text, fields),
        MacroEvent::Undef { text, .. } => push_text(section, width, text, fields),
        _ => Ok(()),
    }
}

/// Appends that of a text, where that stands in a table of texts.
#[tactic(auto, using(crate::proofs::MacroSectionLaws::text_rules))]
fn push_text(
    section: u32,
    width: Width,
    text: TextPlace,
    fields: &mut Vec<OffsetField>,
) -> Result<(), AllocError>
    ensures { OnOk result (fields.new.items ≡ fields.old.items ++ place_field section width text) }
{
    if text.section != section {
        fields.push(OffsetField {
            at: text.field,
            size: width.offset_size(),
            path: false,
        })?;
    }
    Ok(())
}

/// The fields of the offsets of the line tables of units.
#[tactic(auto, using(crate::proofs::MacroSectionLaws::fields_rules))]
fn line_fields(alloc: Global, units: &[MacroUnit]) -> Result<Vec<OffsetField>, AllocError>
    ensures { IfOk result (λ fields. fields.items ≡ line_fields units.now) }
{
    let mut fields = Vec::new(alloc);
    for unit in units {
        if let Some(_) = unit.line {
            fields.push(OffsetField {
                at: unit.line_field,
                size: unit.width.offset_size(),
                path: false,
            })?;
        }
    }
    Ok(fields)
}
