//! Texts that stand at places of a view.

ghost use Rattle.std.specs.Prelude.{◌≡◌};
ghost use Rattle.dw_macros.specs.EventMeanings.{text_bytes};

use dw_attrs::part;
use dw_base::TextPlace;
use dw_view::View;

/// The text at a place of a view; of a section that it hasn't, none.
#[tactic(auto, using(crate::proofs::PlaceLaws::place_laws))]
pub(crate) fn text_of<'v>(view: &'v View, place: TextPlace) -> &'v [u8]
    ensures text { result.now ≡ text_bytes view.now place }
{
    if place.section >= view.section_count() {
        return &[];
    }
    part(view.bytes(place.section), place.at, place.len)
}
