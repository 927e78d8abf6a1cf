//! The relocations of all sections of macro units, and of all sections that are read.
//!
//! Read first: `specs/FieldRefusals.antt`.

ghost use Rattle.std.specs.Prelude.{◌≡◌, ◌<◌, true, is_some, length, IfErr, OnOk};
ghost use Rattle.dw_base.specs.FileViews.{kind_at, view_cells};
ghost use Rattle.dw_base.specs.MacroOffsets.{UnitsRefuse};
ghost use Rattle.dw_base.specs.NameTables.{AreNameTables};
ghost use Rattle.dw_base.specs.Refusals.{Blames};
ghost use Rattle.dw_base.specs.RelocationRows.{moving_sections};
ghost use Rattle.dw_base.specs.StringOffsets.{AreContributions};
ghost use Rattle.dw_base.specs.ViewData.{debug_data, string_offsets};
ghost use Rattle.dw_base.specs.declared.debug_sections.DebugSection.TheVariants.{Info, Macro};
ghost use Rattle.dw_units.specs.UnitLists.{ListsAll};
ghost use Rattle.dw_relocs.specs.FieldRefusals.{FieldsRefuse, MacroSectionRefuses, MacroSectionsHold};
ghost use Rattle.dw_relocs.specs.MacroFields.{MacrosHold};
ghost use Rattle.dw_lines.specs.ViewTables.{TablesFound};
ghost use Rattle.dw_meaning.specs.RelocationFails.{LeftRelocationsRead};

use crate::lines::check_lines;
use crate::macros::check_macros;
use crate::slots::{check_names, check_slots, has_relocations};
use crate::units::check_units;
use dw_base::{Contribution, DebugSection, Fault, NameTable};
use dw_lines::LineTable;
use dw_macros::macro_units;
use dw_units::Units;
use dw_view::View;
use std::alloc::Global;

/// The relocations of the macro section of a number are ones that may stand there. Refused as `Relocation` where one isn't; as its units
/// are where they can't be read; or for want of memory.
#[tactic(auto, using(crate::proofs::MacroCheckLaws::section_rules))]
fn macros_in(alloc: Global, view: &View, section: u32) -> Result<(), Fault>
    requires there { section < length view.now.sections }
    requires read { is_some (kind_at view.now section) ≡ true }
    ensures holds { OnOk result (MacrosHold view.now.order (view_cells view.now section) (moving_sections view.now)) }
    ensures refused { IfErr result (Blames (MacroSectionRefuses view.now section)) }
{
    if !has_relocations(view, section) {
        return Ok(());
    }
    let units = macro_units(alloc, view, section)?;
    check_macros(view, section, units.as_slice())?;
    Ok(())
}

/// The same of all macro sections of the view.
#[tactic(auto, using(crate::proofs::MacroCheckLaws::all_rules))]
fn macro_sections(alloc: Global, view: &View) -> Result<(), Fault>
    ensures holds { OnOk result (MacroSectionsHold view.now ((debug_data view.now).found Macro)) }
    ensures refused { IfErr result (Blames (FieldsRefuse view.now)) }
{
    for section in view.all(DebugSection::Macro) {
        macros_in(alloc, view, *section)?;
    }
    Ok(())
}

/// The relocations of all sections of the view that are read are ones that may stand there: of its units, and of its string offsets, name
/// tables, macro units and line tables. These were read: its units, contributions, name tables and line tables. Refused as `Relocation`
/// where a relocation may not stand where it does, at that relocation, or at the offset that it gives no place; as an entry or the macro
/// units of a section that has relocations are, where they can't be read; or for want of memory. Takes the time of reading the sections
/// that have relocations; a section without any takes no time.
#[tactic(auto, using(crate::proofs::FieldCheckLaws::check_rules))]
pub fn check_fields(
    alloc: Global,
    view: &View,
    units: &Units,
    contributions: &[Contribution],
    names: &[NameTable],
    lines: &[LineTable],
) -> Result<(), Fault>
    requires units { ListsAll (debug_data view.now) units.now.tables ((debug_data view.now).found Info) units.now.units }
    requires contributions { AreContributions view.now.order (string_offsets view.now) contributions.now }
    requires names { AreNameTables view.now names.now }
    requires lines { TablesFound view.now lines.now }
    ensures left { OnOk result (LeftRelocationsRead (debug_data view.now) (moving_sections view.now)) }
    ensures refused { IfErr result (Blames (FieldsRefuse view.now)) }
{
    check_slots(view, contributions)?;
    check_names(view, names)?;
    macro_sections(alloc, view)?;
    check_lines(alloc, view, lines)?;
    check_units(alloc, view, units)?;
    Ok(())
}
