//! Where the bytes of a line table come to stand in the one that is written of it, and which of its fields say other offsets: what the
//! records of its section's relocations are moved by (gABI ch. 4 "Relocation").
//!
//! This file promises: runs and offsets are those of the stretches of which the new table is made, in their order. The cost grows
//! with the number of texts.
//! Read first: `LineStretches` and `TextLineCells` in `dw_meaning/specs`, then `specs/TableMoves.antt`.

ghost use Rattle.std.specs.Prelude.{◌≡◌, ◌+◌, ◌-◌, ◌≤◌, ◌<◌, ◌^◌, ◌++◌, ◌∷◌, [], length, IfOk, OnOk};
ghost use Rattle.dw_base.specs.Forms.{width_size};
ghost use Rattle.dw_base.specs.LineTables.{IsLineTable};
ghost use Rattle.dw_base.specs.WrittenLines.{behind_lengths};
ghost use Rattle.dw_base.specs.declared.debug_sections.DebugSection.TheVariants.{LineStr, Str};
ghost use Rattle.dw_lines.specs.TableMoves.{InOrder, TextsInOrder, header_runs, header_start, kept_run, last_runs, new_end, offsets_from, passed, passed_runs, placed_offsets, runs_from};
ghost use Rattle.dw_lines.specs.NewTexts.{text_known, texts_known};
ghost use Rattle.dw_lines.specs.ViewSources.{view_source};
ghost use Rattle.dw_meaning.specs.TextLineCells.{table_stretches_by_texts, text_stretches, texts_stretches};

use crate::changes::new_place;
use crate::new_texts::NewTexts;
use crate::parts::bytes_at;
use crate::table::LineTable;
use crate::written::{header_length_place, header_of};
use dw_base::{LineHeader, LineText, Width};
use dw_paths::{Maps, map_len};
use dw_view::View;
use elf_relocs::Run;
use std::alloc::AllocError;

/// A field of a section, and the offset that it is to say.
#[derive(Clone, Copy, Debug, PartialEq, Eq, Drop)]
pub struct NewFieldOffset {
    /// Where it is, in bytes from the section's start.
    pub at: u64,
    /// How many bytes it has.
    pub size: u8,
    /// The offset.
    pub offset: u64,
}

/// Appends the run of so many bytes, where there are some.
fn push_run(runs: &mut Vec<Run>, old: u64, new: u64, len: u64) -> Result<(), AllocError>
    ensures run { OnOk result (runs.new.items ≡ runs.old.items ++ kept_run old new len) }
{
    if len > 0 {
        runs.push(Run { old, new })?;
    }
    Ok(())
}

/// Passes bytes at a place, in whose stead so many others come, and answers the run that begins behind them.
fn pass_other(
    at: Run,
    place: u64,
    len: u64,
    new_len: u64,
    runs: &mut Vec<Run>,
) -> Result<Run, AllocError>
    requires order { at.old ≤ place }
    requires near { place + len ≤ 2 ^ 31 }
    requires fits { at.new + (place - at.old) + new_len < 2 ^ 64 }
    ensures next { IfOk result (λ s. s ≡ record { old = place + len; new = at.new + (place - at.old) + new_len }) }
    ensures runs { OnOk result (runs.new.items ≡ runs.old.items ++ kept_run at.old at.new (place - at.old)) }
{
    let kept = place - at.old;
    push_run(runs, at.old, at.new, kept)?;
    Ok(Run {
        old: place + len,
        new: at.new + kept + new_len,
    })
}

/// Passes a field that gets an offset, and answers the run that begins behind it.
#[tactic(auto, using(crate::proofs::PathMoveLaws::field_laws))]
fn pass_offset(
    at: Run,
    field: u64,
    width: Width,
    offset: u64,
    runs: &mut Vec<Run>,
    offsets: &mut Vec<NewFieldOffset>,
) -> Result<Run, AllocError>
    requires order { at.old ≤ field }
    requires near { field + width_size width ≤ 2 ^ 31 }
    requires fits { at.new + (field - at.old) + width_size width < 2 ^ 64 }
    ensures next { IfOk result (λ s. s ≡ record { old = field + width_size width; new = at.new + (field - at.old) + width_size width }) }
    ensures runs { OnOk result (runs.new.items ≡ runs.old.items ++ (kept_run at.old at.new (field - at.old) ++ kept_run field (at.new + (field - at.old)) (width_size width))) }
    ensures offsets { OnOk result (offsets.new.items ≡ offsets.old.items ++ record { at = field; size = width_size width; offset = offset } ∷ []) }
{
    let size = width.offset_size();
    let kept = field - at.old;
    push_run(runs, at.old, at.new, kept)?;
    push_run(runs, field, at.new + kept, u64::from(size))?;
    offsets.push(NewFieldOffset {
        at: field,
        size,
        offset,
    })?;
    Ok(Run {
        old: field + u64::from(size),
        new: at.new + kept + u64::from(size),
    })
}

/// Passes the bytes up to a text, and what becomes of the text; answers the run that begins behind it.
#[tactic(auto, using(crate::proofs::PathMoveLaws::text_laws))]
fn pass_text(
    view: &View,
    maps: &Maps,
    texts: &NewTexts,
    section: u32,
    width: Width,
    text: &LineText,
    at: Run,
    runs: &mut Vec<Run>,
    offsets: &mut Vec<NewFieldOffset>,
) -> Result<Run, AllocError>
    requires there { section < length view.now.sections }
    requires order { InOrder at.old (2 ^ 31) (text_stretches (view_source view.now section) maps.now (text_known (view_source view.now section) (texts_known texts.now Str) (texts_known texts.now LineStr)) width text.now) }
    requires fits { (passed at (text_stretches (view_source view.now section) maps.now (text_known (view_source view.now section) (texts_known texts.now Str) (texts_known texts.now LineStr)) width text.now)).new < 2 ^ 64 }
    ensures next { IfOk result (λ s. s ≡ passed at (text_stretches (view_source view.now section) maps.now (text_known (view_source view.now section) (texts_known texts.now Str) (texts_known texts.now LineStr)) width text.now)) }
    ensures runs { OnOk result (runs.new.items ≡ runs.old.items ++ passed_runs at (text_stretches (view_source view.now section) maps.now (text_known (view_source view.now section) (texts_known texts.now Str) (texts_known texts.now LineStr)) width text.now)) }
    ensures offsets { OnOk result (offsets.new.items ≡ offsets.old.items ++ placed_offsets (text_stretches (view_source view.now section) maps.now (text_known (view_source view.now section) (texts_known texts.now Str) (texts_known texts.now LineStr)) width text.now)) }
{
    if text.place.section == section {
        if !text.path {
            return Ok(at);
        }
        let old = bytes_at(view.bytes(section), text.place.at, text.place.len);
        let len = map_len(maps, old);
        let next = pass_other(at, text.place.at, text.place.len, len, runs)?;
        return Ok(next);
    }
    let Some(place) = new_place(view, texts, text) else {
        return Ok(at);
    };
    let next = pass_offset(at, text.place.field, width, place, runs, offsets)?;
    Ok(next)
}

/// Passes the bytes up to the last of these texts, and what becomes of each; answers the run that begins behind them.
fn pass_texts(
    view: &View,
    maps: &Maps,
    texts: &NewTexts,
    section: u32,
    width: Width,
    all: &[LineText],
    start: Run,
    runs: &mut Vec<Run>,
    offsets: &mut Vec<NewFieldOffset>,
) -> Result<Run, AllocError>
    requires there { section < length view.now.sections }
    requires order { InOrder start.old (2 ^ 31) (texts_stretches (view_source view.now section) maps.now (text_known (view_source view.now section) (texts_known texts.now Str) (texts_known texts.now LineStr)) width all.now) }
    requires fits { (passed start (texts_stretches (view_source view.now section) maps.now (text_known (view_source view.now section) (texts_known texts.now Str) (texts_known texts.now LineStr)) width all.now)).new < 2 ^ 64 }
    ensures next { IfOk result (λ s. s ≡ passed start (texts_stretches (view_source view.now section) maps.now (text_known (view_source view.now section) (texts_known texts.now Str) (texts_known texts.now LineStr)) width all.now)) }
    ensures runs { OnOk result (runs.new.items ≡ runs.old.items ++ passed_runs start (texts_stretches (view_source view.now section) maps.now (text_known (view_source view.now section) (texts_known texts.now Str) (texts_known texts.now LineStr)) width all.now)) }
    ensures offsets { OnOk result (offsets.new.items ≡ offsets.old.items ++ placed_offsets (texts_stretches (view_source view.now section) maps.now (text_known (view_source view.now section) (texts_known texts.now Str) (texts_known texts.now LineStr)) width all.now)) }
{
    let mut at = start;
    for text in all {
        at = pass_text(view, maps, texts, section, width, text, at, runs, offsets)?;
    }
    Ok(at)
}

/// Appends the runs of the bytes up to the program, and of the program.
#[tactic(auto, using(crate::proofs::TableRunLaws::last_laws))]
fn push_last(header: &LineHeader, at: Run, runs: &mut Vec<Run>) -> Result<(), AllocError>
    requires order { at.old ≤ header.now.program }
    requires fits { at.new + (header.now.program - at.old) < 2 ^ 64 }
    ensures runs { OnOk result (runs.new.items ≡ runs.old.items ++ last_runs header.now at) }
{
    let kept = header.program - at.old;
    push_run(runs, at.old, at.new, kept)?;
    push_run(
        runs,
        header.program,
        at.new + kept,
        header.end.saturating_sub(header.program),
    )?;
    Ok(())
}

/// Appends the runs and offsets of the table of a header, whose new bytes begin at `new`.
#[tactic(auto, using(crate::proofs::TableRunLaws::header_laws))]
fn push_header(
    view: &View,
    maps: &Maps,
    texts: &NewTexts,
    section: u32,
    header: &LineHeader,
    all: &[LineText],
    new: u64,
    runs: &mut Vec<Run>,
    offsets: &mut Vec<NewFieldOffset>,
) -> Result<(), AllocError>
    requires there { section < length view.now.sections }
    requires small { header.now.start ≤ 2 ^ 31 }
    requires near { header.now.program ≤ 2 ^ 31 }
    requires order { InOrder (behind_lengths header.now.start header.now.width header.now.version) header.now.program (texts_stretches (view_source view.now section) maps.now (text_known (view_source view.now section) (texts_known texts.now Str) (texts_known texts.now LineStr)) header.now.width all.now) }
    requires fits { (passed (header_start header.now new) (texts_stretches (view_source view.now section) maps.now (text_known (view_source view.now section) (texts_known texts.now Str) (texts_known texts.now LineStr)) header.now.width all.now)).new + header.now.program < 2 ^ 64 }
    ensures runs { OnOk result (runs.new.items ≡ runs.old.items ++ header_runs header.now new (texts_stretches (view_source view.now section) maps.now (text_known (view_source view.now section) (texts_known texts.now Str) (texts_known texts.now LineStr)) header.now.width all.now)) }
    ensures offsets { OnOk result (offsets.new.items ≡ offsets.old.items ++ placed_offsets (texts_stretches (view_source view.now section) maps.now (text_known (view_source view.now section) (texts_known texts.now Str) (texts_known texts.now LineStr)) header.now.width all.now)) }
{
    let size = header.width.length_size();
    let number = header_length_place(header);
    let behind = number + u64::from(header.width.offset_size());
    let front = number - (header.start + size);
    push_run(runs, header.start + size, new + size, front)?;
    let start = Run {
        old: behind,
        new: new + (behind - header.start),
    };
    let last = pass_texts(
        view,
        maps,
        texts,
        section,
        header.width,
        all,
        start,
        runs,
        offsets,
    )?;
    push_last(header, last, runs)?;
    Ok(())
}

impl LineTable {
    /// Appends the runs by which the bytes of the table, which was read of the view, come to stand in the one that is written with mapped
    /// paths, whose bytes begin at `new`, and the offsets that its fields are to say, for the records of the section's relocations. The
    /// texts of the table stand in their order.
    #[tactic(auto, using(crate::proofs::TableRunLaws::table_laws))]
    pub fn push_moves(
        &self,
        view: &View,
        maps: &Maps,
        texts: &NewTexts,
        new: u64,
        runs: &mut Vec<Run>,
        offsets: &mut Vec<NewFieldOffset>,
    ) -> Result<(), AllocError>
        requires there { self.now.section < length view.now.sections }
        requires table { IsLineTable (view_source view.now self.now.section) self.now.start self.now }
        requires order { TextsInOrder (view_source view.now self.now.section) maps.now (text_known (view_source view.now self.now.section) (texts_known texts.now Str) (texts_known texts.now LineStr)) self.now }
        requires fits { new_end new (table_stretches_by_texts (view_source view.now self.now.section) maps.now (text_known (view_source view.now self.now.section) (texts_known texts.now Str) (texts_known texts.now LineStr)) self.now) < 2 ^ 63 }
        ensures runs { OnOk result (runs.new.items ≡ runs.old.items ++ runs_from self.now.start new (table_stretches_by_texts (view_source view.now self.now.section) maps.now (text_known (view_source view.now self.now.section) (texts_known texts.now Str) (texts_known texts.now LineStr)) self.now)) }
        ensures offsets { OnOk result (offsets.new.items ≡ offsets.old.items ++ offsets_from self.now.start (table_stretches_by_texts (view_source view.now self.now.section) maps.now (text_known (view_source view.now self.now.section) (texts_known texts.now Str) (texts_known texts.now LineStr)) self.now)) }
    {
        let section = self.section;
        let header = header_of(view, section, self.start);
        push_header(
            view,
            maps,
            texts,
            section,
            &header,
            &self.texts,
            new,
            runs,
            offsets,
        )?;
        Ok(())
    }
}
