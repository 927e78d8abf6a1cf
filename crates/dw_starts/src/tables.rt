//! The tables of texts of a view.
//!
//! Read first: `specs/StringTables.antt`.

ghost use Rattle.std.specs.Prelude.{◌≡◌, ◌^◌, ◌≤◌, length};
ghost use Rattle.dw_base.specs.ViewData.{debug_data};
ghost use Rattle.dw_starts.specs.StringTables.{offsets_in, section_of, table_number};

use dw_base::{DebugSection, TextSection};
use dw_view::View;

/// The section that a table of texts is.
fn section_of(texts: TextSection) -> DebugSection
    ensures { result ≡ section_of texts }
{
    match texts {
        TextSection::InStr => DebugSection::Str,
        TextSection::InLineStr => DebugSection::LineStr,
    }
}

/// The number of the section of a table of texts; 0 where it isn't there.
#[tactic(auto, using(crate::proofs::TableLaws::located_rules))]
pub fn table_number(view: &View, texts: TextSection) -> u32
    ensures { result ≡ table_number (debug_data view.now) texts }
{
    view.located(section_of(texts)).number
}

/// Its bytes; none where it isn't there.
#[tactic(auto, using(crate::proofs::TableLaws::located_rules))]
pub fn table_texts<'a>(view: &'a View, texts: TextSection) -> &'a [u8]
    ensures bytes { result.now ≡ (offsets_in view.now texts).bytes }
    ensures small { length result.now ≤ 2 ^ 31 }
{
    view.located(section_of(texts)).bytes
}
