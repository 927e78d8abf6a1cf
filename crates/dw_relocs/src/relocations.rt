//! The relocations of a section of a view, in the order of their places.

ghost use Rattle.std.specs.Prelude.{◌≡◌, ◌<◌, ◌^◌, true, is_some, length, IfSome, MatchOption};
ghost use Rattle.dw_base.specs.FileViews.{kind_at, section_bytes, view_cells};
ghost use Rattle.dw_base.specs.RelocationFields.{relocation_at};
ghost use Rattle.dw_base.specs.RelocationRows.{lies_in, moving_sections};
ghost use Rattle.dw_base.specs.TextIndexes.{holds_number};
ghost use Rattle.dw_relocs.specs.FieldWalks.{HasNone, IsNext, moves_to};

use dw_base::moves;
use dw_view::View;

/// The first place from one on at which a relocation begins, in the section of a number that is read. None exactly where none does.
#[tactic(auto, using(crate::proofs::RelocationLaws::next_rules))]
pub(crate) fn next_relocation(view: &View, section: u32, from: u64) -> Option<u64>
    requires there { section < length view.now.sections }
    requires read { is_some (kind_at view.now section) ≡ true }
    ensures next { MatchOption result (HasNone (view_cells view.now section) from) (IsNext (view_cells view.now section) from) }
    ensures small { IfSome result (λ p. p < 2 ^ 31) }
{
    view.next_relocation(section, from)
}

/// The places of the section of a number change; not of a number that no section has.
#[tactic(auto, using(crate::proofs::RelocationLaws::section_rules))]
fn section_moves(view: &View, section: u32) -> bool
    ensures { result ≡ holds_number (moving_sections view.now) section }
{
    if section >= view.section_count() {
        return false;
    }
    moves(view.kind(section))
}

/// A place, if it is one, lies in such a section.
fn lies_in_moving(view: &View, target: Option<(u32, u64)>) -> bool
    ensures { result ≡ lies_in (moving_sections view.now) target }
{
    match target {
        Some((section, _)) => section_moves(view, section),
        None => false,
    }
}

/// The symbol of the relocation at a place, if one begins there, lies in a section whose places change.
#[tactic(auto, using(crate::proofs::RelocationLaws::target_rules))]
pub(crate) fn relocation_moves(view: &View, section: u32, place: u64) -> bool
    requires there { section < length view.now.sections }
    requires inside { place < length (section_bytes view.now section) }
    ensures { result ≡ moves_to (moving_sections view.now) (relocation_at (view_cells view.now section) place) }
{
    lies_in_moving(view, view.target(section, place))
}
