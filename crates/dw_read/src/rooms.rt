//! Paths that stand in their values, and whether they fit their rooms when they are mapped (DWARF 5, 7.5.5, class string).
//!
//! Read first: `specs/InlineRooms.antt`.

ghost use Rattle.std.specs.Prelude.{◌≡◌, ◌+◌, ◌≤◌, ◌<◌, length, OnOk, IfErr};
ghost use Rattle.dw_meaning.specs.DataFails.{InlineFails};
ghost use Rattle.dw_base.specs.InlinePaths.{inline_fits};
ghost use Rattle.dw_base.specs.ViewData.{debug_data};
ghost use Rattle.dw_base.specs.declared.debug_sections.DebugSection.TheVariants.{Info};
ghost use Rattle.dw_unit_fields.specs.InlineRooms.{AreRooms, Grows};
ghost use Rattle.dw_unit_fields.specs.ViewFields.{HasPlaces, info_of};
ghost use Rattle.dw_unit_fields.specs.TextPlaces.{AllFitRooms, AllPlaced, InlinesFit};
ghost use Rattle.dw_unit_fields.specs.SectionFields.{inline_text};

use dw_base::{Kind, Refusal};
use dw_paths::{Maps, map_len};
use dw_unit_fields::{InlinePath, SectionFields};
use dw_view::View;

/// Tests that each path of all unit sections that stands in its value fits its room when it is mapped.
/// Refused where one would be longer, at it.
#[tactic(auto, using(crate::proofs::RoomFitLaws::all_rules))]
pub(crate) fn all_rooms_fit(
    view: &View,
    maps: &Maps,
    paths: &[SectionFields],
) -> Result<(), Refusal>
    requires placed { AllPlaced (debug_data view.now) ((debug_data view.now).found Info) paths.now }
    ensures fits { OnOk result (AllFitRooms maps.now ((debug_data view.now).found Info) paths.now) }
    ensures refused { IfErr result (InlineFails maps.now (debug_data view.now)) }
{
    for found in paths {
        rooms_fit(view, maps, found)?;
    }
    Ok(())
}

/// The same of one section.
#[tactic(auto, using(crate::proofs::RoomFitLaws::section_rules))]
fn rooms_fit(view: &View, maps: &Maps, found: &SectionFields) -> Result<(), Refusal>
    requires paths { HasPlaces view.now found.now }
    ensures fits { OnOk result (InlinesFit maps.now (info_of view.now found.now) found.now.inline) }
    ensures refused { IfErr result (Grows maps.now found.now.number (info_of view.now found.now) found.now.inline) }
{
    let info = view.bytes(found.section);
    fit_rooms(maps, found.section, info, found.inline.as_slice())?;
    Ok(())
}

/// The same of these paths.
#[tactic(auto, using(crate::proofs::RoomFitLaws::rooms_rules))]
fn fit_rooms(maps: &Maps, section: u32, info: &[u8], paths: &[InlinePath]) -> Result<(), Refusal>
    requires rooms { AreRooms info.now paths.now }
    ensures fits { OnOk result (InlinesFit maps.now info.now paths.now) }
    ensures refused { IfErr result (Grows maps.now section info.now paths.now) }
{
    for path in paths {
        if !fits_room(maps, info, *path) {
            return Err(Refusal::at(Kind::InlineGrows, section, path.at));
        }
    }
    Ok(())
}

/// The mapped path isn't longer than the path.
#[tactic(auto, using(crate::proofs::RoomFitLaws::one_rules))]
fn fits_room(maps: &Maps, info: &[u8], path: InlinePath) -> bool
    requires inside { path.at + path.len ≤ length info.now }
    ensures { result ≡ inline_fits maps.now (inline_text info.now path) }
{
    let start = path.at as usize;
    let end = start + path.len as usize;
    let text = &info[start..end];
    map_len(maps, text) <= text.len() as u64
}
