//! The string offsets of a name table (DWARF 5, 6.1.1.4.6).
//!
//! This file promises: each string offset of the table that is given can be read and names a text of `.debug_str`; one
//! that can't be read is refused for its relocation, and one that names none at its field. One comparison an offset.

ghost use Rattle.std.specs.Prelude.{◌≡◌, ◌+◌, ◌*◌, ◌≤◌, ◌<◌, ◌^◌, true, length, IfOk, IfErr, OnOk};
ghost use Rattle.dw_base.specs.Cells.{offset_into};
ghost use Rattle.dw_base.specs.FileViews.{section_bytes};
ghost use Rattle.dw_base.specs.Forms.{width_size};
ghost use Rattle.dw_base.specs.Texts.{ends_in};
ghost use Rattle.dw_base.specs.NameTables.{IsNamedTable, NamesTexts, string_place, texts_in};
ghost use Rattle.dw_offsets.specs.TextEnds.{IsTexts};
ghost use Rattle.dw_base.specs.NameOffsets.{OffsetsRead, TableRefuses, TextRefuses};

use crate::name_headers::table_at;
use dw_base::{DebugSection, Field, Kind, NameTable, Refusal, Width, nul_end};
use dw_view::View;

/// The texts of `.debug_str`.
#[derive(Clone, Copy)]
pub(crate) struct Texts {
    /// The section's number, 0 where there is none.
    pub number: u32,
    /// The place behind the last NUL.
    pub end: u64,
}

/// The texts of a view.
#[tactic(auto, using(crate::proofs::NameTextLaws::texts_laws))]
pub(crate) fn texts_of(view: &View) -> Texts
    ensures texts { IsTexts (texts_in view.now) result }
{
    match view.first(DebugSection::Str) {
        Some(section) => Texts {
            number: section,
            end: nul_end(view.bytes(section)) as u64,
        },
        None => Texts { number: 0, end: 0 },
    }
}

/// A text begins where a field says.
#[tactic(auto, using(crate::proofs::NameTextLaws::field_laws))]
pub(crate) fn names_text(view: &View, texts: &Texts, field: Field) -> bool
    requires texts { IsTexts (texts_in view.now) texts.now }
    ensures ends { result ≡ ends_in (texts_in view.now).bytes (offset_into (texts_in view.now) field) }
{
    match field {
        Field::Num(offset) => offset < texts.end,
        Field::Into { section, offset } => {
            if section != texts.number {
                return false;
            }
            offset < texts.end
        }
        Field::Sym { .. } => false,
    }
}

/// The place of the text that begins where a field says.
#[tactic(auto, using(crate::proofs::NameTextLaws::start_laws))]
pub(crate) fn text_start(view: &View, field: Field) -> u64
    requires ends { ends_in (texts_in view.now).bytes (offset_into (texts_in view.now) field) ≡ true }
    ensures offset { result ≡ offset_into (texts_in view.now) field }
{
    match field {
        Field::Num(offset) => offset,
        Field::Into { offset, .. } => offset,
        Field::Sym { .. } => unreachable!(),
    }
}

/// The place of a string offset of a table.
#[tactic(auto, using(crate::proofs::NameTextLaws::place_laws))]
pub(crate) fn string_place(table: &NameTable, i: u64) -> u64
    requires below { i < table.now.names }
    requires small { table.now.strings + table.now.names * width_size table.now.width ≤ 2 ^ 31 }
    ensures place { result ≡ string_place table.now i }
    ensures inside { result + width_size table.now.width ≤ table.now.strings + table.now.names * width_size table.now.width }
{
    match table.width {
        Width::W32 => table.strings + i * 4,
        Width::W64 => table.strings + i * 8,
    }
}

/// Each string offset of a table can be read and names a text.
#[tactic(auto, using(crate::proofs::NameTextLaws::check_laws))]
fn check_texts(view: &View, section: u32, texts: &Texts, table: &NameTable) -> Result<(), Refusal>
    requires there { section < length view.now.sections }
    requires texts { IsTexts (texts_in view.now) texts.now }
    requires inside { table.now.strings + table.now.names * width_size table.now.width ≤ length (section_bytes view.now section) }
    requires small { length (section_bytes view.now section) ≤ 2 ^ 31 }
    ensures texts { OnOk result (NamesTexts view.now section table.now table.now.names) }
    ensures offsets { OnOk result (OffsetsRead view.now section table.now table.now.names) }
    ensures refused { IfErr result (TextRefuses view.now section table.now) }
{
    let size = table.width.offset_size();
    for i in 0..table.names {
        let place = string_place(table, i);
        let field = view.offset(section, place, size)?;
        if !names_text(view, texts, field) {
            return Err(Refusal::at(Kind::StringOffset, section, place));
        }
    }
    Ok(())
}

/// The table that starts at a place of a section, with its string offsets looked at.
#[tactic(auto, using(crate::proofs::NameTextLaws::table_laws))]
pub(crate) fn named_table_at(
    view: &View,
    section: u32,
    texts: &Texts,
    start: u64,
) -> Result<NameTable, Refusal>
    requires there { section < length view.now.sections }
    requires texts { IsTexts (texts_in view.now) texts.now }
    ensures read { IfOk result (IsNamedTable view.now section (section_bytes view.now section) start) }
    ensures offsets { IfOk result (λ t. OffsetsRead view.now section t t.names) }
    ensures further { IfOk result (λ t. start < t.end) }
    ensures within { IfOk result (λ t. t.end ≤ length (section_bytes view.now section)) }
    ensures fits { IfOk result (λ t. t.strings + t.names * width_size t.width ≤ length (section_bytes view.now section)) }
    ensures refused { IfErr result (TableRefuses view.now section (section_bytes view.now section) start) }
{
    let bytes = view.bytes(section);
    let table = table_at(view.order(), section, bytes, start)?;
    check_texts(view, section, texts, &table)?;
    Ok(table)
}
