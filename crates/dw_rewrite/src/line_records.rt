//! The section that holds the relocations of line tables when these are written anew (DWARF 5, 6.2.4; gABI ch. 4
//! "Relocation"): each record moves with the byte at which its relocation begins, and has the addend that makes the
//! offset of its field.
//!
//! This file promises: the records are moved by the runs and offsets of all tables. A file that has no relocations of
//! line tables pays for none of it. Read first: `specs/LineOffsets.antt`.

ghost use Rattle.std.specs.Bool.{OnFalse, OnTrue};
ghost use Rattle.std.specs.Prelude.{◌≡◌, ◌⊎◌, ◌+◌, ◌++◌, ◌<◌, ◌≤◌, ◌^◌, length, IfErr, IfOk, OnOk};
ghost use Rattle.dw_base.specs.DebugData.{line_source};
ghost use Rattle.dw_base.specs.DebugSections.{name_of};
ghost use Rattle.dw_base.specs.Elf.{contents_of};
ghost use Rattle.dw_base.specs.FileViews.{section_named, view_cells, view_of};
ghost use Rattle.dw_base.specs.Refusals.{Blames};
ghost use Rattle.dw_base.specs.RelocationFields.{relocation_at};
ghost use Rattle.dw_base.specs.RelocationRows.{moving_sections};
ghost use Rattle.dw_base.specs.RelocationSectionFails.{RelocationSectionsRead};
ghost use Rattle.dw_base.specs.SectionRelocations.{relocation_section};
ghost use Rattle.dw_base.specs.ViewData.{debug_data};
ghost use Rattle.dw_base.specs.declared.debug_sections.DebugSection.TheVariants.{Str, LineStr, Line};
ghost use Rattle.dw_lines.specs.TableMoves.{TextsInOrder, new_end, offsets_from, runs_from};
ghost use Rattle.dw_lines.specs.ViewSources.{view_source};
ghost use Rattle.dw_lines.specs.ViewTables.{TablesFound};
ghost use Rattle.dw_meaning.specs.TextLineCells.{table_stretches_by_texts};
ghost use Rattle.dw_meaning.specs.NewAddends.{Makes, Misses};
ghost use Rattle.dw_meaning.specs.RelocationFails.{LeftRelocationsRead};
ghost use Rattle.dw_patch.specs.RecordMoves.{PlacesFit, moved_table};
ghost use Rattle.dw_rewrite.specs.LineOffsets.{AllMove, LinesFit, OffsetMisses, OffsetsInside, OffsetsMake, OffsetsRise, OffsetsSized, StartsKnown, held_lines, line_offsets, line_record, line_runs, said_fields};
ghost use Rattle.dw_rewrite.specs.NewLines.{StandsIn};
ghost use Rattle.dw_lines.specs.NewTexts.{text_known, texts_known};

use crate::new_sections::Body;
use crate::sources::FieldSource;
use dw_base::{DebugSection, Fault, Kind, Refusal};
use dw_lines::{LineTable, NewFieldOffset, NewTexts, Run};
use dw_offsets::OffsetField;
use dw_patch::{Offsets, RelocSource};
use dw_paths::Maps;
use dw_view::{RelocationSources, View};
use elf_layout::NewBody;
use std::alloc::{AllocError, Global};

/// How line tables move when they are written anew.
#[derive(Drop)]
struct LineMoves {
    /// Where their bytes come to stand.
    runs: Vec<Run>,
    /// The offsets that their fields are to say, where these become others.
    offsets: Vec<NewFieldOffset>,
}

/// Appends the section that holds the relocations of the section of line tables, if one does, with its records as
/// they are when the tables, whose new places of texts are known by their old ones, start anew at these places.
/// Refused as `TooWide` where the addend of a record can't make the new offset of its field, at the field.
#[tactic(auto, using(crate::proofs::LineRecordLaws::record_rules))]
pub(crate) fn push_line_record(
    alloc: Global,
    view: &View,
    sources: &RelocationSources,
    maps: &Maps,
    new_texts: &NewTexts,
    starts: &[u64],
    tables: &[LineTable],
    bodies: &mut Vec<Body>,
) -> Result<(), Fault>
    requires view { view.now ≡ view_of sources.now }
    requires relocations { RelocationSectionsRead (contents_of sources.now) sources.now }
    requires left { LeftRelocationsRead (debug_data view.now) (moving_sections view.now) }
    requires tables { TablesFound view.now tables.now }
    requires starts { StartsKnown maps.now (line_source (debug_data view.now)) (texts_known new_texts.now Str) (texts_known new_texts.now LineStr) tables.now starts.now }
    ensures bodies { OnOk result (bodies.new.items ≡ bodies.old.items ++ line_record sources.now maps.now (line_source (debug_data view.now)) (texts_known new_texts.now Str) (texts_known new_texts.now LineStr) tables.now (section_named view.now (name_of Line))) }
    ensures makes { OnOk result (OffsetsMake (line_source (debug_data view.now)).cells (line_offsets maps.now (line_source (debug_data view.now)) (texts_known new_texts.now Str) (texts_known new_texts.now LineStr) tables.now)) }
    ensures refused { IfErr result (Blames (OffsetMisses (line_source (debug_data view.now)).number (line_source (debug_data view.now)).cells (line_offsets maps.now (line_source (debug_data view.now)) (texts_known new_texts.now Str) (texts_known new_texts.now LineStr) tables.now))) }
{
    if let Some(section) = view.first(DebugSection::Line) {
        push_held_lines(
            alloc, view, sources, maps, new_texts, starts, tables, section, bodies,
        )?;
    }
    Ok(())
}

/// The same of the section of a number, that of the line tables.
#[tactic(auto, using(crate::proofs::LineRecordLaws::held_rules))]
fn push_held_lines(
    alloc: Global,
    view: &View,
    sources: &RelocationSources,
    maps: &Maps,
    new_texts: &NewTexts,
    starts: &[u64],
    tables: &[LineTable],
    section: u32,
    bodies: &mut Vec<Body>,
) -> Result<(), Fault>
    requires there { section < length view.now.sections }
    requires view { view.now ≡ view_of sources.now }
    requires moves { AllMove maps.now (view_source view.now section) (texts_known new_texts.now Str) (texts_known new_texts.now LineStr) 0 0 tables.now starts.now }
    requires inside { OffsetsInside (length (view_cells view.now section)) (line_offsets maps.now (view_source view.now section) (texts_known new_texts.now Str) (texts_known new_texts.now LineStr) tables.now) }
    requires fit { LinesFit sources.now maps.now (view_source view.now section) (texts_known new_texts.now Str) (texts_known new_texts.now LineStr) tables.now section }
    ensures bodies { OnOk result (bodies.new.items ≡ bodies.old.items ++ held_lines sources.now maps.now (view_source view.now section) (texts_known new_texts.now Str) (texts_known new_texts.now LineStr) tables.now (relocation_section sources.now section)) }
    ensures makes { OnOk result (OffsetsMake (view_cells view.now section) (line_offsets maps.now (view_source view.now section) (texts_known new_texts.now Str) (texts_known new_texts.now LineStr) tables.now)) }
    ensures refused { IfErr result (Blames (OffsetMisses section (view_cells view.now section) (line_offsets maps.now (view_source view.now section) (texts_known new_texts.now Str) (texts_known new_texts.now LineStr) tables.now))) }
{
    if let Some((holder, source)) = sources.of(section) {
        let body = moved_body(
            alloc, view, maps, new_texts, starts, tables, section, holder, &source,
        )?;
        bodies.push(body)?;
    }
    Ok(())
}

/// The section of a number that holds the relocations of these line tables of another, with its records moved.
#[tactic(auto, using(crate::proofs::LineRecordLaws::body_rules))]
fn moved_body<'v>(
    alloc: Global,
    view: &View,
    maps: &Maps,
    new_texts: &NewTexts,
    starts: &[u64],
    tables: &[LineTable],
    section: u32,
    holder: u32,
    source: &RelocSource,
) -> Result<Body<'v>, Fault>
    requires there { section < length view.now.sections }
    requires moves { AllMove maps.now (view_source view.now section) (texts_known new_texts.now Str) (texts_known new_texts.now LineStr) 0 0 tables.now starts.now }
    requires inside { OffsetsInside (length (view_cells view.now section)) (line_offsets maps.now (view_source view.now section) (texts_known new_texts.now Str) (texts_known new_texts.now LineStr) tables.now) }
    requires fit { PlacesFit source.now (line_runs maps.now (view_source view.now section) (texts_known new_texts.now Str) (texts_known new_texts.now LineStr) tables.now) }
    ensures body { IfOk result (λ b. b ≡ record { number = holder; bytes = moved_table source.now (line_runs maps.now (view_source view.now section) (texts_known new_texts.now Str) (texts_known new_texts.now LineStr) tables.now) (said_fields (line_offsets maps.now (view_source view.now section) (texts_known new_texts.now Str) (texts_known new_texts.now LineStr) tables.now)) }) }
    ensures makes { OnOk result (OffsetsMake (view_cells view.now section) (line_offsets maps.now (view_source view.now section) (texts_known new_texts.now Str) (texts_known new_texts.now LineStr) tables.now)) }
    ensures refused { IfErr result (Blames (OffsetMisses section (view_cells view.now section) (line_offsets maps.now (view_source view.now section) (texts_known new_texts.now Str) (texts_known new_texts.now LineStr) tables.now))) }
{
    let moves = line_moves(alloc, view, maps, new_texts, starts, tables, section)?;
    let lines = FieldSource::new(view, section, section, view.bytes(section));
    let offsets = said_offsets(alloc, &lines, section, moves.offsets.as_slice())?;
    let mut bytes = Vec::from_slice(alloc, source.table)?;
    offsets.move_records(source, moves.runs.as_slice(), &mut bytes);
    Ok(Body {
        section: holder,
        bytes: NewBody::whole(bytes),
    })
}

/// How the line tables of the section of a number move.
fn line_moves(
    alloc: Global,
    view: &View,
    maps: &Maps,
    new_texts: &NewTexts,
    starts: &[u64],
    tables: &[LineTable],
    section: u32,
) -> Result<LineMoves, AllocError>
    requires there { section < length view.now.sections }
    requires moves { AllMove maps.now (view_source view.now section) (texts_known new_texts.now Str) (texts_known new_texts.now LineStr) 0 0 tables.now starts.now }
    ensures runs { IfOk result (λ l. l.runs.items ≡ line_runs maps.now (view_source view.now section) (texts_known new_texts.now Str) (texts_known new_texts.now LineStr) tables.now) }
    ensures offsets { IfOk result (λ l. l.offsets.items ≡ line_offsets maps.now (view_source view.now section) (texts_known new_texts.now Str) (texts_known new_texts.now LineStr) tables.now) }
{
    let mut runs = Vec::new(alloc);
    let mut offsets = Vec::new(alloc);
    for (i, table) in tables.iter().enumerate() {
        push_table(
            view,
            maps,
            new_texts,
            section,
            table,
            starts[i],
            &mut runs,
            &mut offsets,
        )?;
    }
    Ok(LineMoves { runs, offsets })
}

/// Appends the runs and offsets of a table of the section of a number, whose new bytes begin at `new`.
#[tactic(auto, using(crate::proofs::LineMoveLaws::table_rules))]
fn push_table(
    view: &View,
    maps: &Maps,
    new_texts: &NewTexts,
    section: u32,
    table: &LineTable,
    new: u64,
    runs: &mut Vec<Run>,
    offsets: &mut Vec<NewFieldOffset>,
) -> Result<(), AllocError>
    requires there { section < length view.now.sections }
    requires stands { StandsIn (view_source view.now section) table.now }
    requires order { TextsInOrder (view_source view.now section) maps.now (text_known (view_source view.now section) (texts_known new_texts.now Str) (texts_known new_texts.now LineStr)) table.now }
    requires fits { new_end new (table_stretches_by_texts (view_source view.now section) maps.now (text_known (view_source view.now section) (texts_known new_texts.now Str) (texts_known new_texts.now LineStr)) table.now) < 2 ^ 63 }
    ensures runs { OnOk result (runs.new.items ≡ runs.old.items ++ runs_from table.now.start new (table_stretches_by_texts (view_source view.now section) maps.now (text_known (view_source view.now section) (texts_known new_texts.now Str) (texts_known new_texts.now LineStr)) table.now)) }
    ensures offsets { OnOk result (offsets.new.items ≡ offsets.old.items ++ offsets_from table.now.start (table_stretches_by_texts (view_source view.now section) maps.now (text_known (view_source view.now section) (texts_known new_texts.now Str) (texts_known new_texts.now LineStr)) table.now)) }
{
    table.push_moves(view, maps, new_texts, new, runs, offsets)?;
    Ok(())
}

/// The offsets of fields of the section of a number, for its records. Refused as `TooWide`, at a field, where the
/// addend of its relocation can't make its offset.
#[tactic(auto, using(crate::proofs::LineOffsetLaws::said_rules))]
fn said_offsets(
    alloc: Global,
    lines: &FieldSource,
    section: u32,
    fields: &[NewFieldOffset],
) -> Result<Offsets, Fault>
    requires inside { OffsetsInside (length lines.now.cells) fields.now }
    requires sized { OffsetsSized fields.now }
    requires rise { OffsetsRise 0 fields.now }
    ensures offsets { IfOk result (λ o. o ≡ said_fields fields.now) }
    ensures makes { OnOk result (OffsetsMake lines.now.cells fields.now) }
    ensures refused { IfErr result (Blames (OffsetMisses section lines.now.cells fields.now)) }
{
    let mut offsets = Offsets::new(alloc);
    for field in fields {
        if !field_makes(lines, *field) {
            return Err(Fault::Refused(Refusal::at(Kind::TooWide, section, field.at)));
        }
        offsets.add(field.at, field.size, field.offset)?;
    }
    Ok(offsets)
}

/// The addend of the relocation at a field, if there is one, can make its offset.
fn field_makes(lines: &FieldSource, field: NewFieldOffset) -> bool
    requires sized { (field.size ≡ 4) ⊎ (field.size ≡ 8) }
    requires inside { field.at + field.size ≤ length lines.now.cells }
    ensures makes { OnTrue result (Makes (relocation_at lines.now.cells field.at) field.size field.offset) }
    ensures misses { OnFalse result (Misses (relocation_at lines.now.cells field.at) field.size field.offset) }
{
    let at = OffsetField {
        at: field.at,
        size: field.size,
        path: false,
    };
    lines.makes(at, field.offset)
}
