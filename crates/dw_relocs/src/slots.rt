//! The relocations of string offsets and of name tables.

ghost use Rattle.std.specs.Prelude.{◌≡◌, ◌<◌, true, is_some, length, IfErr, OnOk, Some};
ghost use Rattle.std.specs.Bool.{OnFalse};
ghost use Rattle.dw_base.specs.DebugSections.{name_of};
ghost use Rattle.dw_base.specs.FileViews.{kind_at, section_named, view_cells};
ghost use Rattle.dw_base.specs.NameTables.{AreNameTables};
ghost use Rattle.dw_base.specs.RelocationRows.{moving_sections};
ghost use Rattle.dw_base.specs.StringOffsets.{AreContributions};
ghost use Rattle.dw_base.specs.ViewData.{debug_data, string_offsets};
ghost use Rattle.dw_base.specs.declared.debug_sections.DebugSection.TheVariants.{Names, StrOffsets};
ghost use Rattle.dw_relocs.specs.FieldWalks.{HasNone};
ghost use Rattle.dw_relocs.specs.LeftChecks.{NamesHold, SlotsHold};
ghost use Rattle.dw_meaning.specs.RelocationFails.{LeftRelocationsFail};

use crate::marks::{pass_end, pass_start};
use crate::relocations::next_relocation;
use crate::rows::{pass_names, pass_slots};
use dw_base::{Contribution, DebugSection, NameTable, Refusal};
use dw_view::View;

/// A relocation begins in the section of a number that is read.
#[tactic(auto, using(crate::proofs::QuietLaws::some_rules))]
pub(crate) fn has_relocations(view: &View, section: u32) -> bool
    requires there { section < length view.now.sections }
    requires read { is_some (kind_at view.now section) ≡ true }
    ensures none { OnFalse result (HasNone (view_cells view.now section) 0) }
{
    next_relocation(view, section, 0).is_some()
}

/// The relocations of `.debug_str_offsets` are ones that may stand there, where these are its contributions. Refused as
/// `Relocation` exactly where one isn't, at that relocation or at the slot that gives no place.
#[tactic(auto, using(crate::proofs::SlotFieldLaws::check_rules))]
pub(crate) fn check_slots(view: &View, list: &[Contribution]) -> Result<(), Refusal>
    requires contributions { AreContributions view.now.order (string_offsets view.now) list.now }
    ensures holds { OnOk result (SlotsHold (debug_data view.now) (moving_sections view.now)) }
    ensures refused { IfErr result (LeftRelocationsFail (debug_data view.now) (moving_sections view.now)) }
{
    match view.first(DebugSection::StrOffsets) {
        Some(section) => slots_in(view, section, list),
        None => Ok(()),
    }
}

/// The same of the section of a number.
#[tactic(auto, using(crate::proofs::SlotFieldLaws::slot_rules))]
fn slots_in(view: &View, section: u32, list: &[Contribution]) -> Result<(), Refusal>
    requires there { section < length view.now.sections }
    requires named { Some section ≡ section_named view.now (name_of StrOffsets) }
    requires contributions { AreContributions view.now.order (string_offsets view.now) list.now }
    ensures holds { OnOk result (SlotsHold (debug_data view.now) (moving_sections view.now)) }
    ensures refused { IfErr result (LeftRelocationsFail (debug_data view.now) (moving_sections view.now)) }
{
    if !has_relocations(view, section) {
        return Ok(());
    }
    let end = view.bytes(section).len() as u64;
    let start = pass_start(view, section);
    let pass = pass_slots(view, section, start, list);
    match pass_end(view, section, pass, end) {
        Ok(()) => Ok(()),
        Err(refusal) => Err(refusal),
    }
}

/// The relocations of `.debug_names` are ones that may stand there, where these are its tables. Refused as `Relocation` exactly where
/// one isn't, at that relocation or at the string offset that gives no place.
#[tactic(auto, using(crate::proofs::NameCheckLaws::check_rules))]
pub(crate) fn check_names(view: &View, list: &[NameTable]) -> Result<(), Refusal>
    requires tables { AreNameTables view.now list.now }
    ensures holds { OnOk result (NamesHold (debug_data view.now) (moving_sections view.now)) }
    ensures refused { IfErr result (LeftRelocationsFail (debug_data view.now) (moving_sections view.now)) }
{
    match view.first(DebugSection::Names) {
        Some(section) => names_in(view, section, list),
        None => Ok(()),
    }
}

/// The same of the section of a number.
#[tactic(auto, using(crate::proofs::NameCheckLaws::name_rules))]
fn names_in(view: &View, section: u32, list: &[NameTable]) -> Result<(), Refusal>
    requires there { section < length view.now.sections }
    requires named { Some section ≡ section_named view.now (name_of Names) }
    requires tables { AreNameTables view.now list.now }
    ensures holds { OnOk result (NamesHold (debug_data view.now) (moving_sections view.now)) }
    ensures refused { IfErr result (LeftRelocationsFail (debug_data view.now) (moving_sections view.now)) }
{
    if !has_relocations(view, section) {
        return Ok(());
    }
    let end = view.bytes(section).len() as u64;
    let start = pass_start(view, section);
    let pass = pass_names(view, section, start, list);
    match pass_end(view, section, pass, end) {
        Ok(()) => Ok(()),
        Err(refusal) => Err(refusal),
    }
}
