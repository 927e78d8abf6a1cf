//! Which sections that are read those of a view are, by their names (DWARF 5, Appendix B), each looked up once.

ghost use Rattle.std.specs.Prelude.{◌≡◌, ◌<◌, length, IfOk};
ghost use Rattle.dw_base.specs.FileViews.{kind_at};
ghost use Rattle.dw_base.specs.Lists.{tabulate};

use crate::names::FRONT_SIZE;
use crate::sections::Sections;
use dw_base::{DebugSection, NoMemory};

/// Which section that is read the one of a number is, by its name; none exactly where its name is that of no such section. A name of any
/// length takes the same time.
#[tactic(auto, using(crate::proofs::ViewLaws::kind_laws))]
fn kind_named(sections: &Sections, section: u32) -> Option<DebugSection>
    requires there { section < length sections.now.sections }
    ensures kind { result ≡ kind_at sections.now section }
{
    DebugSection::called(sections.name_front(section, FRONT_SIZE))
}

/// The same of each section, in the order of their numbers.
pub fn kinds_of(sections: &Sections) -> Result<Vec<Option<DebugSection>>, NoMemory>
    ensures kinds { IfOk result (λ kinds. kinds.items ≡ tabulate (kind_at sections.now) (length sections.now.sections)) }
{
    let count = sections.count();
    let mut kinds = Vec::with_capacity(sections.allocator(), count as usize)?;
    for section in 0..count {
        kinds.push(kind_named(sections, section))?;
    }
    Ok(kinds)
}
