//! What the units of a unit section of a view say of paths, and which slots they name by index.
//!
//! Read first: `specs/UnitTexts.antt`.

ghost use Rattle.std.specs.Prelude.{◌≡◌, ◌<◌, true, length, IfErr, IfOk, OnOk, None, Some};
ghost use Rattle.dw_base.specs.EntryValues.{HasUnit};
ghost use Rattle.dw_base.specs.FileViews.{section_bytes, view_cells};
ghost use Rattle.dw_base.specs.Refusals.{Blames};
ghost use Rattle.dw_base.specs.LineMeanings.{item_at};
ghost use Rattle.dw_base.specs.UnitTables.{IsUnitTable};
ghost use Rattle.dw_base.specs.ViewData.{debug_data};
ghost use Rattle.dw_entries.specs.ViewUnits.{IsUnitSection, unit_section_at};
ghost use Rattle.dw_units.specs.UnitLists.{IsListed};
ghost use Rattle.dw_units.specs.UnitStretches.{IsStretch};
ghost use Rattle.dw_unit_fields.specs.FieldOffsets.{BaseLies, BaseRefuses};
ghost use Rattle.dw_unit_fields.specs.TextPlaces.{base_source, number_said, said_placed};
ghost use Rattle.dw_unit_fields.specs.UnitTexts.{OneTaken, SectionIndexed, UnitsRefuse, tables_of, texts_of};

use crate::field_offsets::section_offset;
use crate::fields::TextBase;
use crate::found::{FoundFields, FoundTexts, SectionTexts, TextTables};
use crate::slots::NamedSlots;
use crate::units::read_unit;
use dw_abbrev::AbbrevTable;
use dw_base::{DebugSection, Fault, Refusal, UnitHeader};
use dw_units::{ListedUnit, Units};
use dw_view::View;
use std::alloc::Global;

/// What the units of a unit section of the view say of paths, which are those from one number up to another. Refused where an entry of
/// one can't be read, or names no text.
#[tactic(auto, using(crate::proofs::UnitRowLaws::units_rules))]
pub(crate) fn read_section(
    alloc: Global,
    view: &View,
    tables: &TextTables,
    section: u32,
    units: &Units,
    first: usize,
    end: usize,
    slots: &mut NamedSlots,
) -> Result<FoundFields, Fault>
    requires there { IsUnitSection view.now section }
    requires tables { tables.now ≡ texts_of (debug_data view.now) }
    requires stretch { IsStretch (debug_data view.now) units.now (unit_section_at view.now section) first end }
    ensures taken { IfOk result (λ u. SectionIndexed (debug_data view.now) (unit_section_at view.now section) u slots.old slots.new) }
    ensures refused { IfErr result (Blames (UnitsRefuse (debug_data view.now))) }
{
    let texts = SectionTexts::new(view, section, tables);
    let list = units.all();
    let mut found = FoundTexts::new(alloc, section);
    for number in first..end {
        numbered_unit(
            alloc,
            view,
            &texts,
            units,
            number,
            &list[number],
            &mut found,
            slots,
        )?;
    }
    Ok(found.paths)
}

/// Takes the unit of a number, with its table of abbreviations.
#[tactic(auto, using(crate::proofs::UnitRowLaws::one_rules))]
fn numbered_unit(
    alloc: Global,
    view: &View,
    texts: &SectionTexts,
    units: &Units,
    number: usize,
    unit: &ListedUnit,
    found: &mut FoundTexts,
    slots: &mut NamedSlots,
) -> Result<(), Fault>
    requires unit { HasUnit (debug_data view.now) (unit_section_at view.now unit.now.header.section) unit.now.header }
    requires there { item_at units.now.units number ≡ Some unit.now }
    requires listed { IsListed (debug_data view.now) units.now.tables unit.now.header unit.now }
    requires texts { texts.now ≡ tables_of (debug_data view.now) (unit_section_at view.now unit.now.header.section) }
    requires none { found.old.base ≡ None }
    ensures taken { OnOk result (OneTaken (debug_data view.now) (unit_section_at view.now unit.now.header.section) unit.now.header found.old found.new slots.old slots.new) }
    ensures refused { IfErr result (Blames (UnitsRefuse (debug_data view.now))) }
{
    let table = units.table(alloc, number)?;
    one_unit(view, texts, &unit.header, table.get(), found, slots)?;
    Ok(())
}

/// Takes a unit of the view; what it says by index goes to the slots, and is forgotten.
#[tactic(auto, using(crate::proofs::UnitRowLaws::one_rules))]
fn one_unit(
    view: &View,
    texts: &SectionTexts,
    unit: &UnitHeader,
    table: &AbbrevTable,
    found: &mut FoundTexts,
    slots: &mut NamedSlots,
) -> Result<(), Fault>
    requires unit { HasUnit (debug_data view.now) (unit_section_at view.now unit.now.section) unit.now }
    requires table { IsUnitTable (debug_data view.now).base unit.now table.now }
    requires texts { texts.now ≡ tables_of (debug_data view.now) (unit_section_at view.now unit.now.section) }
    requires none { found.old.base ≡ None }
    ensures taken { OnOk result (OneTaken (debug_data view.now) (unit_section_at view.now unit.now.section) unit.now found.old found.new slots.old slots.new) }
    ensures refused { IfErr result (Blames (UnitsRefuse (debug_data view.now))) }
{
    read_unit(view, texts, unit, table, found)?;
    let base = base_number(view, unit.section, found.base)?;
    slots.take(unit.section, base, found.indexes.as_slice());
    found.end_unit();
    Ok(())
}

/// The number of the base that a unit of a section says: a field holds an offset into the section of string offsets, and one into
/// another section counts as past it. Refused as `Relocation` where a relocation lies on the field only in part, at that, and where
/// the one at it gives no place, at the field.
#[tactic(auto, using(crate::proofs::BaseLaws::number_rules))]
fn base_number(view: &View, section: u32, base: Option<TextBase>) -> Result<Option<u64>, Refusal>
    requires there { section < length view.now.sections }
    requires field { BaseLies (section_bytes view.now section) base }
    ensures number { IfOk result (λ n. n ≡ number_said (base_source (debug_data view.now)) (view_cells view.now section) base) }
    ensures placed { OnOk result (said_placed (base_source (debug_data view.now)) (view_cells view.now section) base ≡ true) }
    ensures refused { IfErr result (BaseRefuses view.now.order section (view_cells view.now section) base) }
{
    match base {
        None => Ok(None),
        Some(TextBase::Number(number)) => Ok(Some(number)),
        Some(TextBase::Field(field)) => {
            let number = section_offset(view, section, field, DebugSection::StrOffsets)?;
            Ok(Some(number))
        }
    }
}
