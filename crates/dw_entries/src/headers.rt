//! The units of a section (DWARF 5, 7.5.1).
//!
//! This file promises: the units that are given fill the section, and it is refused only where one of them
//! can't be read, at that unit, or its offset of abbreviations can't, for its relocation. It takes one look at each header, and none at the entries.

ghost use Rattle.std.specs.Prelude.{true, false, ◌≡◌, List, length, IfOk, IfErr, OnOk};
ghost use Rattle.dw_base.specs.Refusals.{Blames};
ghost use Rattle.dw_base.specs.RelocationRows.{HeaderOffsetsRead};
ghost use Rattle.dw_base.specs.UnitHeaders.{AreUnits};
ghost use Rattle.dw_base.specs.UnitTables.{UnitTableFails};
ghost use Rattle.dw_base.specs.ViewData.{debug_data};
ghost use Rattle.dw_base.specs.declared.fault.Refusal.{Refusal as RefusalOf};
ghost use Rattle.dw_base.specs.declared.units.UnitHeader.{UnitHeader as HeaderOf};
ghost use Rattle.dw_entries.specs.HeaderRows.{HeadersRefuse};
ghost use Rattle.dw_entries.specs.ViewUnits.{as_kind, IsUnitSection, unit_base, unit_section_at};

use crate::header::{abbrevs_number, unit_at};
use crate::unit_kinds::UnitsOf;
use dw_base::{DebugSection, Fault, Kind, Refusal, UnitHeader};
use dw_view::View;
use std::alloc::Global;
use std::marker::Model;

/// The units of a section, in the order of their places.
#[derive(Drop, Debug)]
pub struct UnitHeaders {
    list: Vec<UnitHeader>,
}

impl Model for UnitHeaders {
    ghost Value = { List HeaderOf };

    ghost view = { λ u. u.list.items };
}

impl UnitHeaders {
    /// The units.
    pub fn as_slice(&self) -> &[UnitHeader]
        ensures value { result.now ≡ self.now }
    {
        self.list.as_slice()
    }

    /// The units, as a vector.
    pub fn into_vec(self) -> Vec<UnitHeader>
        ensures value { result.items ≡ self }
    {
        let UnitHeaders { list } = self;
        list
    }

    /// How many units there are.
    pub fn len(&self) -> usize
        ensures value { result ≡ length self.now }
    {
        self.list.len()
    }
}

/// Which of the two kinds a unit section is.
#[tactic(auto, using(crate::proofs::UnitSectionLaws::kind_laws))]
fn kind_of(view: &View, section: u32) -> UnitsOf
    requires there { IsUnitSection view.now section }
    ensures kind { as_kind result ≡ (unit_section_at view.now section).kind }
{
    match view.kind(section) {
        Some(DebugSection::Types) => UnitsOf::Types,
        _ => UnitsOf::Info,
    }
}

/// The units of the section of a number, a unit section of the view. Refused at the unit exactly where
/// the units don't fill the section: as `SplitDwarf` where one is of split DWARF, else as `Unit` where no
/// header that a unit may have stands behind the units so far, or its unit passes the section's end. And where
/// the offset of abbreviations of a unit can't be read, as `Relocation`: at the relocation that lies on it only in
/// part, or at the field whose relocation gives no place.
#[tactic(auto, using(crate::proofs::UnitListLaws::list_laws))]
pub fn unit_headers(alloc: Global, view: &View, section: u32) -> Result<UnitHeaders, Fault>
    requires there { IsUnitSection view.now section }
    ensures units { IfOk result (AreUnits (unit_base view.now) (unit_section_at view.now section)) }
    ensures offsets { OnOk result (HeaderOffsetsRead (unit_base view.now) (unit_section_at view.now section)) }
    ensures none { OnOk result ((r : RefusalOf) → HeadersRefuse (unit_base view.now) (unit_section_at view.now section) r → ⊥) }
    ensures refused { IfErr result (Blames (HeadersRefuse (unit_base view.now) (unit_section_at view.now section))) }
{
    let kind = kind_of(view, section);
    let len = view.bytes(section).len() as u64;
    let mut list = Vec::new(alloc);
    let mut start = 0;
    'units: while start < len {
        let unit = unit_at(view, section, kind, start)?;
        start = unit.end;
        list.push(unit)?;
    }
    Ok(UnitHeaders { list })
}

/// Where the abbreviations of a unit of the view start in `.debug_abbrev`. Refused as `Abbreviation`, at the offset
/// that its header says, exactly where that is one into another section.
pub fn table_offset(view: &View, unit: &UnitHeader) -> Result<u64, Refusal>
    ensures here { OnOk result (unit.now.elsewhere ≡ false) }
    ensures offset { IfOk result (λ at. at ≡ unit.now.abbrevs) }
    ensures elsewhere { IfErr result (λ _. unit.now.elsewhere ≡ true) }
    ensures refused { IfErr result (UnitTableFails (debug_data view.now).base unit.now) }
{
    if unit.elsewhere {
        let number = abbrevs_number(view);
        return Err(Refusal::at(Kind::Abbreviation, number, unit.abbrevs));
    }
    Ok(unit.abbrevs)
}
