//! The texts and line tables that offsets of a macro section name (DWARF 5, 6.3.2.3 and 6.3.1).
//!
//! This file promises: whether an offset names a text of `.debug_str`, by one comparison, and which; the
//! offset that a field holds into a section. A field is refused only at a relocation that lies on it in part, or at itself
//! where the relocation that begins there gives no place.

ghost use Rattle.std.specs.Prelude.{◌≡◌, ◌+◌, ◌≤◌, ◌<◌, true, length, IfOk, IfErr, OnOk};
ghost use Rattle.dw_base.specs.Cells.{is_placed, offset_into};
ghost use Rattle.dw_base.specs.FileViews.{field_at, section_bytes};
ghost use Rattle.dw_base.specs.Forms.{width_size};
ghost use Rattle.dw_base.specs.Texts.{ends_in};
ghost use Rattle.dw_base.specs.ViewData.{located};
ghost use Rattle.dw_base.specs.MacroUnits.{names_text, offset_at};
ghost use Rattle.dw_base.specs.MacroOffsets.{FieldReads, FieldRefuses};
ghost use Rattle.dw_macros.specs.TextEnds.{IsTexts};

use dw_base::{DebugSection, Field, Refusal, Width, nul_end};
use dw_view::View;

/// The texts of `.debug_str`.
#[derive(Clone, Copy)]
pub(crate) struct Texts {
    /// The section's number, 0 where there is none.
    pub number: u32,
    /// The place behind the last NUL.
    pub end: u64,
}

/// The texts of a view.
#[tactic(auto, using(crate::proofs::TextLaws::texts_laws))]
pub(crate) fn texts_of(view: &View) -> Texts
    ensures texts { IsTexts (located view.now DebugSection.Str) result }
{
    match view.first(DebugSection::Str) {
        Some(section) => Texts {
            number: section,
            end: nul_end(view.bytes(section)) as u64,
        },
        None => Texts { number: 0, end: 0 },
    }
}

/// A text begins where a field says.
#[tactic(auto, using(crate::proofs::TextLaws::field_laws))]
fn is_text(view: &View, texts: &Texts, field: Field) -> bool
    requires texts { IsTexts (located view.now DebugSection.Str) texts.now }
    ensures ends { result ≡ ends_in (located view.now DebugSection.Str).bytes (offset_into (located view.now DebugSection.Str) field) }
{
    match field {
        Field::Num(offset) => offset < texts.end,
        Field::Into { section, offset } => {
            if section != texts.number {
                return false;
            }
            offset < texts.end
        }
        Field::Sym { .. } => false,
    }
}

/// The field of an offset of a macro section.
#[tactic(auto, using(crate::proofs::TextLaws::names_laws))]
pub(crate) fn macro_field(
    view: &View,
    section: u32,
    width: Width,
    field: u64,
) -> Result<Field, Refusal>
    requires there { section < length view.now.sections }
    requires inside { field + width_size width ≤ length (section_bytes view.now section) }
    ensures value { IfOk result (λ f. f ≡ field_at view.now section field (width_size width)) }
    ensures placed { IfOk result (λ f. is_placed f ≡ true) }
    ensures reads { OnOk result (FieldReads view.now section width field) }
    ensures refused { IfErr result (FieldRefuses view.now section width field) }
{
    let read = view.offset(section, field, width.offset_size())?;
    Ok(read)
}

/// A text begins where the offset at a place of a section says.
#[tactic(auto, using(crate::proofs::TextLaws::named_laws))]
pub(crate) fn names_text(
    view: &View,
    texts: &Texts,
    section: u32,
    width: Width,
    field: u64,
) -> Result<bool, Refusal>
    requires there { section < length view.now.sections }
    requires texts { IsTexts (located view.now DebugSection.Str) texts.now }
    requires inside { field + width_size width ≤ length (section_bytes view.now section) }
    ensures names { IfOk result (λ b. b ≡ names_text view.now section width field) }
    ensures reads { OnOk result (FieldReads view.now section width field) }
    ensures refused { IfErr result (FieldRefuses view.now section width field) }
{
    let read = macro_field(view, section, width, field)?;
    Ok(is_text(view, texts, read))
}

/// The offset at a place of a section, into a section of the view.
#[tactic(auto, using(crate::proofs::TextLaws::named_laws))]
pub(crate) fn offset_at(
    view: &View,
    kind: DebugSection,
    section: u32,
    width: Width,
    field: u64,
) -> Result<u64, Refusal>
    requires there { section < length view.now.sections }
    requires inside { field + width_size width ≤ length (section_bytes view.now section) }
    ensures offset { IfOk result (λ n. n ≡ offset_at view.now (located view.now kind) section field width) }
    ensures reads { OnOk result (FieldReads view.now section width field) }
    ensures refused { IfErr result (FieldRefuses view.now section width field) }
{
    let read = macro_field(view, section, width, field)?;
    Ok(view.located(kind).offset(read))
}
