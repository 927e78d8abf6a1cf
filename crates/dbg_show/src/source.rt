//! What the texts of line tables stand in.

ghost use Rattle.std.specs.Prelude.{◌≡◌, true};
ghost use Rattle.dw_base.specs.LineMeanings.{place_text, section_in};
ghost use Rattle.dw_base.specs.DebugData.{line_source};
ghost use Rattle.dw_base.specs.LineSources.{LineSource as LineSourceOf};
ghost use Rattle.dw_base.specs.ViewData.{debug_data};
ghost use Rattle.dw_base.specs.declared.debug_sections.DebugSection.TheVariants.{Line};

use dw_attrs::part;
use dw_base::{DebugSection, Order, TextPlace};
use dw_view::View;
use std::marker::Model;

/// The section of line tables, and the two tables of texts, each with its number.
#[derive(Drop)]
pub(crate) struct LineSource<'v> {
    view: &'v View<'v>,
    order: Order,
    number: u32,
    bytes: &'v [u8],
    str_number: u32,
    str_bytes: &'v [u8],
    line_str_number: u32,
    line_str_bytes: &'v [u8],
}

impl<'v> Model for LineSource<'v> {
    ghost Value = { LineSourceOf };

    ghost view = { λ s. record { order = s.order; number = s.number; is_read = true; bytes = s.bytes.now; cells = ((debug_data s.view.now).found Line).contents; str = record { number = s.str_number; bytes = s.str_bytes.now }; line_str = record { number = s.line_str_number; bytes = s.line_str_bytes.now } } };
}

/// What the texts of the line tables of a view stand in.
#[tactic(auto, using(crate::proofs::ReadLaws::source_laws))]
pub(crate) fn line_source<'v>(view: &'v View<'v>) -> LineSource<'v>
    ensures source { result ≡ line_source (debug_data view.now) }
{
    let lines = view.located(DebugSection::Line);
    let texts = view.located(DebugSection::Str);
    let line_texts = view.located(DebugSection::LineStr);
    LineSource {
        view,
        order: view.order(),
        number: lines.number,
        bytes: lines.bytes,
        str_number: texts.number,
        str_bytes: texts.bytes,
        line_str_number: line_texts.number,
        line_str_bytes: line_texts.bytes,
    }
}

impl<'v> LineSource<'v> {
    /// The bytes of the section of a number.
    fn section(&self, number: u32) -> &'v [u8]
        ensures bytes { result.now ≡ section_in self.now number }
    {
        if number == self.number {
            return self.bytes;
        }
        if number == self.str_number {
            return self.str_bytes;
        }
        self.line_str_bytes
    }

    /// The text at a place.
    pub(crate) fn text(&self, place: &TextPlace) -> &'v [u8]
        ensures text { result.now ≡ place_text self.now place.now }
    {
        part(self.section(place.section), place.at, place.len)
    }
}
