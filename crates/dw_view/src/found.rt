//! Sections by name: the first that has a name and bytes (gABI ch. 4 "Sections", "Special Sections").

ghost use Rattle.std.specs.Prelude.{◌≡◌, ◌<◌, map, length, IfOk, OnOk};
ghost use Rattle.dw_base.specs.DebugSections.{name_of};
ghost use Rattle.dw_base.specs.FileViews.{is_filled, section_after, sections_named};
ghost use Rattle.dw_view.specs.SectionParts.{section_at, with_filled};

use crate::sections::Sections;
use dw_base::{DebugSection, NoMemory};

/// The section of a number has this name, and bytes in the file.
#[tactic(auto, using(crate::proofs::FoundLaws::filled_laws))]
fn is_filled(sections: &Sections, index: u32, name: &[u8]) -> bool
    requires there { index < length sections.now.sections }
    ensures { result ≡ is_filled name.now (section_at sections.now index) }
{
    sections.has_bytes(index) && sections.name_front(index, name.len() + 1) == name
}

/// The first section above a number that has a name and bytes; none exactly where there is none.
#[tactic(auto, using(crate::proofs::FoundLaws::next_laws), unfolding(dw_base::specs::FileViews::section_after))]
pub fn next_filled(sections: &Sections, name: &[u8], after: u32) -> Option<u32>
    ensures { result ≡ section_after sections.now name.now after }
{
    let count = sections.count();
    if after >= count {
        return None;
    }
    for index in after + 1..count {
        if is_filled(sections, index, name) {
            return Some(index);
        }
    }
    None
}

/// The numbers of the sections that have a name and bytes, in order.
#[tactic(auto, using(crate::proofs::FoundLaws::all_laws), unfolding(dw_base::specs::FileViews::sections_named))]
fn all_filled(sections: &Sections, name: &[u8]) -> Result<Vec<u32>, NoMemory>
    ensures numbers { IfOk result (λ numbers. numbers.items ≡ sections_named sections.now name.now) }
{
    let mut numbers = Vec::new(sections.allocator());
    for index in 1..sections.count() {
        push_filled(sections, index, name, &mut numbers)?;
    }
    Ok(numbers)
}

/// Adds the number of a section where it has a name and bytes.
fn push_filled(
    sections: &Sections,
    index: u32,
    name: &[u8],
    numbers: &mut Vec<u32>,
) -> Result<(), NoMemory>
    requires there { index < length sections.now.sections }
    ensures { OnOk result (numbers.new.items ≡ with_filled name.now index (section_at sections.now index) numbers.old.items) }
{
    if is_filled(sections, index, name) {
        numbers.push(index)?;
    }
    Ok(())
}

/// For each of these sections, the numbers of all that have its name and bytes, in order.
pub fn numbers_of(sections: &Sections, read: &[DebugSection]) -> Result<Vec<Vec<u32>>, NoMemory>
    ensures numbers { IfOk result (λ lists. map (λ l. l.items) lists.items ≡ map (λ s. sections_named sections.now (name_of s)) read.now) }
{
    let mut lists = Vec::with_capacity(sections.allocator(), read.len())?;
    for section in read {
        lists.push(all_filled(sections, section.name())?)?;
    }
    Ok(lists)
}
