//! The macro units of a section (DWARF 5, 6.3).
//!
//! This file promises: the units that are given fill the section, in the order of their places; they are
//! refused only where one of them can't be read, at that unit, at its operation, or at the offset of a text, or where
//! a relocation refuses one of their offsets.

ghost use Rattle.std.specs.Prelude.{◌≡◌, ◌+◌, ◌≤◌, ◌<◌, ◌^◌, List, length, Ok, IfOk, IfErr, OnOk};
ghost use Rattle.dw_base.specs.FileViews.{section_bytes};
ghost use Rattle.dw_base.specs.Refusals.{Blames};
ghost use Rattle.dw_base.specs.ViewData.{located};
ghost use Rattle.dw_base.specs.declared.fault.Refusal.{Refusal as RefusalOf};
ghost use Rattle.dw_base.specs.MacroHeaders.{macro_header};
ghost use Rattle.dw_macros.specs.HeaderRooms.{HasLineRoom};
ghost use Rattle.dw_base.specs.MacroUnits.{AreMacroUnits, is_end, line_of, unit_operation, unit_with};
ghost use Rattle.dw_base.specs.MacroOffsets.{AreReadUnits, IsReadUnit, LineReads, LineRefuses, OperationFails, OperationReads, UnitRefuses, UnitsRefuse};
ghost use Rattle.dw_macros.specs.TextEnds.{IsTexts};
ghost use Rattle.dw_macros.specs.UnitEnds.{EndsAt, UnitBreaks};

use crate::header::macro_header;
use crate::reading::operation_at;
use crate::texts::{Texts, macro_field, names_text, offset_at, texts_of};
use dw_base::{DebugSection, Fault, Kind, MacroHeader, MacroOperation, MacroUnit, Refusal, Width};
use dw_view::View;
use std::alloc::Global;

/// The operation at a place of the unit that starts at a place, and the place behind it. Refused exactly
/// where there is none: as `Macro` at the unit, as `Supplementary` at the operation, as `StringOffset` at its
/// offset; and as `Relocation` where its offset can't be read.
#[tactic(auto, using(crate::proofs::UnitLaws::operation_laws))]
fn unit_operation(
    view: &View,
    texts: &Texts,
    section: u32,
    start: u64,
    width: Width,
    place: u64,
) -> Result<(MacroOperation, u64), Refusal>
    requires there { section < length view.now.sections }
    requires texts { IsTexts (located view.now DebugSection.Str) texts.now }
    ensures operation { IfOk result (λ o. Ok o ≡ unit_operation view.now section start width place) }
    ensures reads { IfOk result (λ o. OperationReads view.now section width o.0) }
    ensures behind { IfOk result (λ o. place < o.1) }
    ensures within { IfOk result (λ o. o.1 ≤ length (section_bytes view.now section)) }
    ensures refused { IfErr result (OperationFails view.now section start width place) }
{
    let Some((operation, next)) = operation_at(view.bytes(section), width, place) else {
        return Err(Refusal::at(Kind::Macro, section, start));
    };
    match operation {
        MacroOperation::Foreign => Err(Refusal::at(Kind::Supplementary, section, place)),
        MacroOperation::Named { field, .. } => {
            let named = match names_text(view, texts, section, width, field) {
                Ok(named) => named,
                Err(refusal) => return Err(refusal),
            };
            if !named {
                return Err(Refusal::at(Kind::StringOffset, section, field));
            }
            Ok((operation, next))
        }
        MacroOperation::Bring { field } => match macro_field(view, section, width, field) {
            Ok(_) => Ok((operation, next)),
            Err(refusal) => Err(refusal),
        },
        MacroOperation::End => Ok((operation, next)),
        MacroOperation::Inline { .. } => Ok((operation, next)),
        MacroOperation::Enter { .. } => Ok((operation, next)),
        MacroOperation::Leave => Ok((operation, next)),
    }
}

/// The operation ends its unit.
fn is_end(operation: MacroOperation) -> bool
    ensures { result ≡ is_end operation }
{
    match operation {
        MacroOperation::End => true,
        _ => false,
    }
}

/// Where the unit of a header ends that starts at a place. Refused exactly where one of its operations is.
#[tactic(auto, using(crate::proofs::UnitLaws::end_laws))]
fn unit_end(
    view: &View,
    texts: &Texts,
    section: u32,
    start: u64,
    header: &MacroHeader,
) -> Result<u64, Refusal>
    requires there { section < length view.now.sections }
    requires texts { IsTexts (located view.now DebugSection.Str) texts.now }
    requires within { header.now.first ≤ length (section_bytes view.now section) }
    ensures ends { IfOk result (EndsAt view.now section start header.now.width header.now.first) }
    ensures behind { IfOk result (λ end. header.now.first < end) }
    ensures within { IfOk result (λ end. end ≤ length (section_bytes view.now section)) }
    ensures refused { IfErr result (UnitBreaks view.now section start header.now.width header.now.first) }
{
    let mut place = header.first;
    'operations: loop {
        let (operation, next) = match unit_operation(
            view,
            texts,
            section,
            start,
            header.width,
            place,
        ) {
            Ok(read) => read,
            Err(refusal) => return Err(refusal),
        };
        if is_end(operation) {
            return Ok(next);
        }
        place = next;
    }
}

/// The offset of the line table of a header, where it has one.
#[tactic(auto, using(crate::proofs::UnitLaws::line_laws))]
fn line_of(view: &View, section: u32, header: &MacroHeader) -> Result<Option<u64>, Refusal>
    requires there { section < length view.now.sections }
    requires room { HasLineRoom (section_bytes view.now section) header.now }
    ensures line { IfOk result (λ l. l ≡ line_of view.now section header.now) }
    ensures reads { OnOk result (LineReads view.now section header.now) }
    ensures refused { IfErr result (LineRefuses view.now section header.now) }
{
    if !header.has_line {
        return Ok(None);
    }
    match offset_at(
        view,
        DebugSection::Line,
        section,
        header.width,
        header.line_field,
    ) {
        Ok(line) => Ok(Some(line)),
        Err(refusal) => Err(refusal),
    }
}

/// The unit of a header, with its end and its line table.
fn unit_with(
    section: u32,
    start: u64,
    header: &MacroHeader,
    end: u64,
    line: Option<u64>,
) -> MacroUnit
    ensures unit { result ≡ record { section = section; start = start; end = end; version = header.now.version; width = header.now.width; line = line; line_field = header.now.line_field; first = header.now.first } }
{
    MacroUnit {
        section,
        start,
        end,
        version: header.version,
        width: header.width,
        line,
        line_field: header.line_field,
        first: header.first,
    }
}

/// The unit that starts at a place.
#[tactic(auto, using(crate::proofs::UnitLaws::unit_laws))]
fn unit_at(view: &View, texts: &Texts, section: u32, start: u64) -> Result<MacroUnit, Refusal>
    requires there { section < length view.now.sections }
    requires texts { IsTexts (located view.now DebugSection.Str) texts.now }
    requires inside { start ≤ length (section_bytes view.now section) }
    ensures read { IfOk result (IsReadUnit view.now section start) }
    ensures further { IfOk result (λ u. start < u.end) }
    ensures within { IfOk result (λ u. u.end ≤ length (section_bytes view.now section)) }
    ensures refused { IfErr result (UnitRefuses view.now section start) }
{
    let Some(header) = macro_header(view.order(), view.bytes(section), start) else {
        return Err(Refusal::at(Kind::Macro, section, start));
    };
    let line = match line_of(view, section, &header) {
        Ok(line) => line,
        Err(refusal) => return Err(refusal),
    };
    let end = match unit_end(view, texts, section, start, &header) {
        Ok(end) => end,
        Err(refusal) => return Err(refusal),
    };
    Ok(unit_with(section, start, &header, end, line))
}

/// The macro units of the section of a number, in the order of their places. Refused exactly where they don't
/// fill it: as `Macro` at the first unit that can't be read, since its header doesn't fit, its version isn't 4
/// or 5, it has a table of operands, or an operation passes the section's end or isn't one that is listed; as
/// `Supplementary` at an operation that refers to a supplementary file; as `StringOffset` at an offset behind
/// which no text that ends begins in `.debug_str`; as `Relocation` at a relocation that lies only in part on the offset of
/// a line table, a text or a unit, or at such an offset whose relocation gives no place.
#[tactic(auto, using(crate::proofs::UnitListLaws::list_laws))]
pub fn macro_units(alloc: Global, view: &View, section: u32) -> Result<Vec<MacroUnit>, Fault>
    requires there { section < length view.now.sections }
    ensures read { IfOk result (λ units. AreMacroUnits view.now section units.items) }
    ensures offsets { IfOk result (λ units. AreReadUnits view.now section units.items) }
    ensures none { OnOk result ((r : RefusalOf) → UnitsRefuse view.now section r → ⊥) }
    ensures refused { IfErr result (Blames (UnitsRefuse view.now section)) }
{
    let texts = texts_of(view);
    let len = view.bytes(section).len() as u64;
    let mut units = Vec::new(alloc);
    let mut start = 0;
    'units: while start < len {
        let unit = unit_at(view, &texts, section, start)?;
        start = unit.end;
        units.push(unit)?;
    }
    Ok(units)
}
