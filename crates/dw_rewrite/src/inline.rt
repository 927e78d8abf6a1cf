//! Paths that stand in their values, mapped in their rooms (DWARF 5, 7.5.5, class string).
//!
//! Read first: `specs/UnitsAfter.antt`.

ghost use Rattle.std.specs.Prelude.{◌≡◌, ◌+◌, ◌≤◌, length, OnOk, IfErr};
ghost use Rattle.dw_base.specs.Refusals.{Blames};
ghost use Rattle.dw_unit_fields.specs.InlineRooms.{AreRooms, Grows, GrowsOne, RoomFits};
ghost use Rattle.dw_unit_fields.specs.TextPlaces.{InlinesFit};
ghost use Rattle.dw_rewrite.specs.UnitsAfter.{inlined, inlined_at};

use dw_base::{Fault, Kind, Refusal};
use dw_paths::{Maps, map_inline};
use dw_unit_fields::InlinePath;
use std::alloc::Global;

/// Maps the paths that stand at these places of a section. Refused where one would be longer, at it.
#[tactic(auto, using(crate::proofs::InlineRoomLaws::all_rules))]
pub(crate) fn map_rooms(
    alloc: Global,
    maps: &Maps,
    section: u32,
    info: &[u8],
    paths: &[InlinePath],
    out: &mut [u8],
) -> Result<(), Fault>
    requires rooms { AreRooms info.now paths.now }
    requires long { length out.old ≡ length info.now }
    ensures out { OnOk result (out.new ≡ inlined maps.now info.now out.old paths.now) }
    ensures long { OnOk result (length out.new ≡ length info.now) }
    ensures fits { OnOk result (InlinesFit maps.now info.now paths.now) }
    ensures refused { IfErr result (Blames (Grows maps.now section info.now paths.now)) }
{
    for path in paths {
        map_room(alloc, maps, section, info, *path, out)?;
    }
    Ok(())
}

/// Maps the path at a place.
#[tactic(auto, using(crate::proofs::InlineRoomLaws::one_rules))]
fn map_room(
    alloc: Global,
    maps: &Maps,
    section: u32,
    info: &[u8],
    path: InlinePath,
    out: &mut [u8],
) -> Result<(), Fault>
    requires inside { path.at + path.len ≤ length info.now }
    requires long { length out.old ≡ length info.now }
    ensures out { OnOk result (out.new ≡ inlined_at maps.now info.now out.old path) }
    ensures long { OnOk result (length out.new ≡ length info.now) }
    ensures fits { OnOk result (RoomFits maps.now info.now path) }
    ensures refused { IfErr result (Blames (GrowsOne maps.now section info.now path)) }
{
    let start = path.at as usize;
    let end = start + path.len as usize;
    let Some(mapped) = map_inline(alloc, maps, &info[start..end])? else {
        return Err(Refusal::at(Kind::InlineGrows, section, path.at).into());
    };
    out[start..end].copy_from_slice(&mapped);
    Ok(())
}
