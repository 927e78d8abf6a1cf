//! The headers of the units of all sections, section by section (DWARF 5, 7.5.1).
//!
//! Read first: `specs/SectionHeaders.antt`.

ghost use Rattle.std.specs.Prelude.{◌≡◌, IfErr, IfOk};
ghost use Rattle.dw_base.specs.Refusals.{Blames};
ghost use Rattle.dw_base.specs.ViewData.{debug_data};
ghost use Rattle.dw_entries.specs.SectionOrder.{EachSection};
ghost use Rattle.dw_entries.specs.ViewUnits.{IsUnitSection};
ghost use Rattle.dw_units.specs.SectionHeaders.{AllHeaders, HasHeaders, numbers_of};
ghost use Rattle.dw_units.specs.UnitLists.{UnitListFails};

use dw_base::{Fault, UnitHeader};
use dw_entries::{UnitHeaders, unit_headers};
use dw_view::View;
use std::alloc::{AllocError, Global};

/// A section of units, and their headers.
#[derive(Drop)]
pub(crate) struct SectionHeaders {
    /// The section's number.
    pub section: u32,
    /// The headers of its units.
    pub headers: UnitHeaders,
}

/// The headers of the units of a section.
#[tactic(auto, using(crate::proofs::HeaderListLaws::section_rules))]
fn section_headers(alloc: Global, view: &View, section: u32) -> Result<SectionHeaders, Fault>
    requires there { IsUnitSection view.now section }
    ensures number { IfOk result (λ s. s.section ≡ section) }
    ensures has { IfOk result (HasHeaders view.now) }
    ensures refused { IfErr result (Blames (UnitListFails (debug_data view.now))) }
{
    let _ = view.bytes(section);
    let headers = unit_headers(alloc, view, section)?;
    Ok(SectionHeaders { section, headers })
}

/// The headers of the units of the sections of these numbers.
#[tactic(auto, using(crate::proofs::HeaderListLaws::all_rules))]
pub(crate) fn all_headers(
    alloc: Global,
    view: &View,
    sections: &[u32],
) -> Result<Vec<SectionHeaders>, Fault>
    requires sections { EachSection view.now sections.now }
    ensures numbers { IfOk result (λ list. numbers_of list.items ≡ sections.now) }
    ensures has { IfOk result (λ list. AllHeaders view.now list.items) }
    ensures refused { IfErr result (Blames (UnitListFails (debug_data view.now))) }
{
    let mut list = Vec::new(alloc);
    for section in sections {
        let one = section_headers(alloc, view, *section)?;
        list.push(one)?;
    }
    Ok(list)
}

/// Puts where the tables of units start behind others, but those of tables in other sections.
fn push_starts(starts: &mut Vec<u64>, units: &[UnitHeader]) -> Result<(), AllocError> {
    for unit in units {
        if !unit.elsewhere {
            starts.push(unit.abbrevs)?;
        }
    }
    Ok(())
}

/// Where the tables of units start, in order, each once.
pub(crate) fn table_starts(alloc: Global, list: &[SectionHeaders]) -> Result<Vec<u64>, AllocError> {
    let mut starts = Vec::new(alloc);
    for one in list {
        push_starts(&mut starts, one.headers.as_slice())?;
    }
    starts.sort_unstable();
    starts.dedup();
    Ok(starts)
}
