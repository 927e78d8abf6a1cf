//! The place of a slot, of which a value by index names the number (DWARF 5, 7.5.5, class string).
//!
//! This file promises: the place is given exactly where a contribution with the base has such a slot, and
//! it is found in a time that grows with the logarithm of their number.

ghost use Rattle.std.specs.Prelude.{◌≡◌, IfOk, IfErr};
ghost use Rattle.dw_base.specs.StringOffsets.{slot_in, slot_place};
ghost use Rattle.dw_offsets.specs.SlotSearch.{BasesRise, HasBase, IsBaseGap};

use crate::string_offsets::ContributionList;
use crate::widths::slot_count;
use dw_base::Contribution;

/// The place of the slot of an index in the contribution whose slots begin at `base`, both places in
/// bytes from the section's start. `None` exactly where no contribution has that base, or the one that has
/// it has no such slot. Takes no memory.
#[tactic(auto, using(crate::proofs::SlotLaws::place_laws))]
pub fn slot_place(list: &ContributionList, base: u64, index: u64) -> Option<u64>
    ensures place { result ≡ slot_place list.now base index }
{
    let list = list.as_slice();
    match with_base(list, base) {
        Ok(at) => slot_in(&list[at], index),
        Err(_) => None,
    }
}

/// Which contribution has a base, or where it would stand. Their bases rise.
pub fn with_base(list: &[Contribution], base: u64) -> Result<usize, usize>
    requires rising { BasesRise list.now }
    ensures found { IfOk result (HasBase list.now base) }
    ensures absent { IfErr result (IsBaseGap list.now base) }
{
    list.binary_search_by_key(&base, |contribution| contribution.base)
}

/// The place of the slot of an index in a contribution. `None` exactly where it has no such slot.
#[tactic(auto, using(crate::proofs::SlotLaws::slot_laws))]
fn slot_in(contribution: &Contribution, index: u64) -> Option<u64>
    ensures place { result ≡ slot_in contribution.now index }
{
    let Contribution {
        base,
        end,
        width,
        ..
    } = *contribution;
    if end < base {
        return None;
    }
    if index >= slot_count(width, end - base) {
        return None;
    }
    Some(base + index * u64::from(width.offset_size()))
}
