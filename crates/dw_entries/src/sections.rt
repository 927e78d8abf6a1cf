//! The unit sections of a view, in the order of their numbers.
//!
//! Read first: `specs/SectionOrder.antt`.

ghost use Rattle.std.specs.Prelude.{◌≡◌, slice_get, IfOk};
ghost use Rattle.dw_entries.specs.SectionOrder.{AreSections, first_of, place_after};

use dw_base::{DebugSection, NoMemory};
use dw_view::View;
use std::alloc::Global;

/// The numbers of the unit sections of a view, in order (DWARF 5, 7.5.1; before version 5 `.debug_types` too). Only memory can be wanting.
#[tactic(auto, using(crate::proofs::SectionOrderLaws::all_rules))]
pub fn unit_sections(alloc: Global, view: &View) -> Result<Vec<u32>, NoMemory>
    ensures sections { IfOk result (λ list. AreSections view.now list.items) }
{
    let mut list = Vec::new(alloc);
    let infos = view.all(DebugSection::Info);
    let types = view.all(DebugSection::Types);
    let mut info = 0;
    let mut kind = 0;
    while let Some(section) = first_of(number_at(infos, info), number_at(types, kind)) {
        list.push(section)?;
        info = place_after(infos, info, section);
        kind = place_after(types, kind, section);
    }
    Ok(list)
}

/// The number at a place of a list, where it has one.
fn number_at(list: &[u32], place: usize) -> Option<u32>
    ensures { result ≡ slice_get list.now place }
{
    list.get(place).copied()
}

/// The smaller of two numbers, where there are any.
fn first_of(a: Option<u32>, b: Option<u32>) -> Option<u32>
    ensures { result ≡ first_of a b }
{
    match (a, b) {
        (Some(a), Some(b)) => Some(if a <= b { a } else { b }),
        (Some(a), None) => Some(a),
        (None, b) => b,
    }
}

/// The place behind the one of a list, where a section stands there.
fn place_after(list: &[u32], place: usize, section: u32) -> usize
    ensures { result ≡ place_after list.now place section }
{
    if place < list.len() && list[place] == section {
        return place + 1;
    }
    place
}
