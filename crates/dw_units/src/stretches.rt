//! The units of a section among all units: they stand together.
//!
//! Read first: `specs/UnitStretches.antt`.

ghost use Rattle.std.specs.Prelude.{◌≡◌, ◌+◌, ◌≤◌, drop, length};
ghost use Rattle.dw_units.specs.UnitStretches.{front_count, lies_first};

use crate::listed_unit::ListedUnit;

/// The unit of a number lies in a section.
#[tactic(auto, using(crate::proofs::StretchLaws::first_rules))]
fn lies_at(list: &[ListedUnit], section: u32, number: usize) -> bool
    ensures lies { result ≡ lies_first section (drop number list.now) }
{
    if number < list.len() {
        return list[number].header.section == section;
    }
    false
}

/// Where the units of a section end that stand together from a number on.
#[tactic(auto, using(crate::proofs::StretchLaws::end_rules))]
pub fn stretch_end(list: &[ListedUnit], section: u32, first: usize) -> usize
    requires inside { first ≤ length list.now }
    ensures end { result ≡ first + front_count section (drop first list.now) }
{
    let mut end = first;
    'units: while lies_at(list, section, end) {
        end += 1;
    }
    end
}
