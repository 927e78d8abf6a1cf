//! The texts that a line table mentions (DWARF 5, 6.2.4 and 7.26).

ghost use Rattle.std.specs.Prelude.{◌≡◌, ◌+◌, ◌≤◌, ◌<◌, ◌^◌, length, IfSome, IfOk, IfErr};
ghost use Rattle.dw_base.specs.FileViews.{section_bytes};
ghost use Rattle.dw_base.specs.ViewData.{located};
ghost use Rattle.dw_lines.specs.ViewSources.{view_source};
ghost use Rattle.dw_base.specs.LineTexts.{file_numbers, inline_text, named_text, skip_lebs, text_by, text_if};

use dw_base::{DebugSection, Field, Kind, Refusal, TextPlace, uleb_at};
use dw_strings::text_at;
use dw_view::View;

/// The text at a place of the bytes up to a table's end. `None` exactly where no NUL follows in them.
#[tactic(auto, using(crate::proofs::TextLaws::inline_laws), unfolding(dw_base::specs::LineTexts::inline_text))]
pub(crate) fn inline_text(section: u32, table: &[u8], place: u64) -> Option<TextPlace>
    ensures text { result ≡ inline_text section table.now place }
    ensures within { IfSome result (λ t. place + (t.len + 1) ≤ length table.now) }
{
    match text_at(section, table, place) {
        Ok(text) => Some(TextPlace {
            section,
            at: place,
            len: text.len() as u64,
            field: place,
        }),
        Err(_) => None,
    }
}

/// The place behind so many unsigned numbers. `None` exactly where one of them passes the end.
#[tactic(auto, using(crate::proofs::TextLaws::skip_laws))]
pub(crate) fn skip_lebs(count: u8, table: &[u8], start: u64) -> Option<u64>
    requires inside { start ≤ length table.now }
    ensures place { result ≡ skip_lebs count table.now start }
    ensures behind { IfSome result (λ next. start ≤ next) }
    ensures within { IfSome result (λ next. next ≤ length table.now) }
{
    let mut left = count;
    let mut place = start;
    'numbers: while left > 0 {
        let Some((_, size)) = uleb_at(table, place) else {
            return None;
        };
        place += size;
        left -= 1;
    }
    Some(place)
}

/// The directory of a file before version 5 whose name ends before a place, and the place behind its
/// numbers. `None` exactly where one of them passes the end.
#[tactic(auto, unfolding(dw_base::specs::LineTexts::file_numbers))]
pub(crate) fn file_numbers(table: &[u8], place: u64) -> Option<(u64, u64)>
    ensures numbers { result ≡ file_numbers table.now place }
    ensures behind { IfSome result (λ n. place ≤ n.1) }
    ensures within { IfSome result (λ n. n.1 ≤ length table.now) }
{
    let Some((dir, size)) = uleb_at(table, place) else {
        return None;
    };
    let Some(next) = skip_lebs(2, table, place + size) else {
        return None;
    };
    Some((dir, next))
}

/// The text at an offset of a section of texts, which a field at a place of a section names. Refused as `StringOffset` at the
/// field exactly where no text that ends begins there.
#[tactic(auto, using(crate::proofs::TextLaws::text_laws))]
fn text_if(
    view: &View,
    texts: DebugSection,
    section: u32,
    place: u64,
    offset: u64,
) -> Result<TextPlace, Refusal>
    ensures text { result ≡ text_if (located view.now texts) section place offset }
{
    let Some(number) = view.first(texts) else {
        return Err(Refusal::at(Kind::StringOffset, section, place));
    };
    match text_at(number, view.bytes(number), offset) {
        Ok(text) => Ok(TextPlace {
            section: number,
            at: offset,
            len: text.len() as u64,
            field: place,
        }),
        Err(_) => Err(Refusal::at(Kind::StringOffset, section, place)),
    }
}

/// The text that a field at a place of a section names in a section of texts. Refused at the field: as `Relocation` exactly
/// where it is a symbol that has no place, as `StringOffset` exactly where no text that ends begins there.
fn text_by(
    view: &View,
    texts: DebugSection,
    section: u32,
    place: u64,
    field: Field,
) -> Result<TextPlace, Refusal>
    ensures text { result ≡ text_by (located view.now texts) section place field }
{
    match field {
        Field::Num(offset) => text_if(view, texts, section, place, offset),
        Field::Into { .. } => {
            let at = view.located(texts).offset(field);
            text_if(view, texts, section, place, at)
        }
        Field::Sym { .. } => Err(Refusal::at(Kind::Relocation, section, place)),
    }
}

/// The text that an offset of `size` bytes at a place of a section names in a section of texts. Refused as
/// `Relocation` exactly where a relocation lies on the offset only in part, at that relocation, or gives no place, at the
/// offset; as `StringOffset` at the offset exactly where no text that ends begins there.
#[tactic(auto, using(crate::proofs::TextLaws::named_laws))]
pub(crate) fn named_text(
    view: &View,
    texts: DebugSection,
    section: u32,
    place: u64,
    size: u8,
) -> Result<TextPlace, Refusal>
    requires there { section < length view.now.sections }
    requires some { 0 < size }
    requires wide { size ≤ 8 }
    requires inside { place + size ≤ length (section_bytes view.now section) }
    ensures text { result ≡ named_text (view_source view.now section) (located view.now texts) place size }
{
    match view.field(section, place, size) {
        Ok(field) => text_by(view, texts, section, place, field),
        Err(refusal) => Err(refusal),
    }
}
