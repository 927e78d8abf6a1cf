//! The new bytes of the sections that an edit changes: the tables of texts, string offsets, line tables, macro units, and
//! the unit sections; and of those that hold relocations of them.
//!
//! Read first: `specs/Bodies.antt`.

ghost use Rattle.std.specs.Prelude.{[], ◌≡◌, ◌⊎◌, ◌∷◌, ◌++◌, ◌<◌, ◌≤◌, ℕ, length, slice_index, IfErr, IfOk, OnOk};
ghost use Rattle.dw_base.specs.DebugData.{line_source};
ghost use Rattle.dw_base.specs.DebugSections.{name_of};
ghost use Rattle.dw_base.specs.Elf.{contents_of};
ghost use Rattle.dw_base.specs.FileViews.{section_named, view_of};
ghost use Rattle.dw_base.specs.Layout.{output_limit};
ghost use Rattle.dw_base.specs.Refusals.{Blames, at};
ghost use Rattle.dw_base.specs.RelocationRows.{moving_sections};
ghost use Rattle.dw_base.specs.RelocationSectionFails.{RelocationSectionsRead};
ghost use Rattle.dw_base.specs.ViewData.{debug_data};
ghost use Rattle.dw_base.specs.declared.debug_sections.DebugSection.TheVariants.{Str, LineStr, Line};
ghost use Rattle.dw_base.specs.declared.fault.Fault.TheVariants.{NoMemory as no_memory};
ghost use Rattle.dw_base.specs.declared.texts.TextSection.TheVariants.{InLineStr, InStr};
ghost use Rattle.dw_lines.specs.NewTexts.{texts_known};
ghost use Rattle.dw_lines.specs.ViewTables.{TablesFound};
ghost use Rattle.dw_meaning.specs.RelocationFails.{LeftRelocationsRead};
ghost use Rattle.dw_unit_fields.specs.ViewFields.{AllHaveOffsets, AllHavePlaces, AllRoomsFit};
ghost use Rattle.dw_rewrite.specs.NewTables.{bodies_known, table_body_of};
ghost use Rattle.dw_rewrite.specs.Bodies.{BodiesRefuse, FileBodiesMade};
ghost use Rattle.dw_read.specs.AllFields.{standing};
ghost use Rattle.dw_read.specs.FoundPaths.{PathsFound};
ghost use Rattle.dw_starts.specs.LineStarts.{starts_of};
ghost use Rattle.dw_rewrite.specs.PushedBodies.{one_body, pushed_bodies};
ghost use Rattle.dw_rewrite.specs.NewLines.{LinesFail, LinesWritten};
ghost use Rattle.dw_rewrite.specs.LineOffsets.{OffsetMisses, OffsetsMake, StartsKnown, line_offsets, line_record};
ghost use Rattle.dw_rewrite.specs.NewOffsets.{AllPlacesFit, records_known};
ghost use Rattle.dw_rewrite.specs.OffsetAddends.{AllMake, AllMiss};
ghost use Rattle.dw_rewrite.specs.NewPlaces.{places_known};

use crate::line_records::push_line_record;
use crate::lines::{NewLines, new_lines};
use crate::new_places::NewPlaces;
use crate::new_sections::{Body, new_sections};
use crate::records::push_standing;
use crate::starts::NewStarts;
use crate::tables::{NewTables, new_tables};
use dw_base::{DebugSection, Fault, Kind, NoMemory, OUTPUT_LIMIT, Refusal, TextSection};
use dw_lines::{LineTable, NewTexts};
use dw_paths::Maps;
use dw_read::Fields;
use dw_starts::table_number;
use dw_strings::LentPool;
use dw_unit_fields::SectionFields;
use dw_view::{RelocationSources, View};
use elf_file::ElfFile;
use elf_layout::NewBody;
use std::alloc::Global;

/// The sections with new bytes, from the line tables of the view, where these start, and what was found of texts: the
/// tables of texts, string offsets, line tables and name tables, then the sections of macro units and the unit sections,
/// each in the order of their numbers, and those that hold relocations of them. Refused as `TooLarge`, at the section,
/// where a table of texts or the line tables would be longer than a file that is written, where a line table can't be
/// written, and as `TooWide` where the addend of a relocation can't make the new offset of its field, at the field.
#[tactic(auto, using(crate::proofs::MadeBodyLaws::body_rules, crate::proofs::FileMadeLaws::end_rules))]
pub(crate) fn new_bodies<'a>(
    alloc: Global,
    elf: &ElfFile<'a>,
    view: &View,
    sources: &RelocationSources,
    maps: &Maps,
    tables: &[LineTable],
    old: &[u64],
    paths: &Fields,
) -> Result<Vec<Body<'a>>, Fault>
    requires file { view.now ≡ view_of elf.now.bytes.now }
    requires view { view.now ≡ view_of sources.now }
    requires relocations { RelocationSectionsRead (contents_of sources.now) sources.now }
    requires bytes { (k : ℕ) → slice_index sources.now k < 256 }
    requires found { PathsFound maps.now view.now paths.now tables.now }
    requires starts { old.now ≡ starts_of tables.now }
    ensures made { IfOk result (λ bodies. FileBodiesMade maps.now sources.now bodies.items) }
    ensures refused { IfErr result (Blames (BodiesRefuse maps.now (debug_data view.now))) }
{
    let NewTables {
        pool,
        line_pool,
        texts,
    } = new_tables(alloc, view, maps, paths)?;
    let NewLines { bytes, starts: new } = limited_lines(alloc, view, maps, &texts, tables)?;
    let starts = NewStarts::new(old, new.as_slice());
    let places = NewPlaces { texts, starts };
    let mut bodies = table_bodies(alloc, view, pool, line_pool)?;
    let lines = lines_body(view, bytes);
    push_bodies(alloc, elf, view, maps, &places, lines, paths, &mut bodies)?;
    push_relocations(
        alloc,
        view,
        sources,
        maps,
        &places,
        new.as_slice(),
        tables,
        paths,
        &mut bodies,
    )?;
    Ok(bodies)
}

/// The line tables of the view with mapped paths, from the new places of texts that are known by their old ones. Refused
/// where one can't be written, and as `TooLarge`, at the section, where they would be longer than a file that is written.
fn limited_lines(
    alloc: Global,
    view: &View,
    maps: &Maps,
    new_texts: &NewTexts,
    tables: &[LineTable],
) -> Result<NewLines, Fault>
    requires tables { TablesFound view.now tables.now }
    ensures written { IfOk result (λ n. LinesWritten maps.now (line_source (debug_data view.now)) (texts_known new_texts.now Str) (texts_known new_texts.now LineStr) tables.now n.bytes.items n.starts.items) }
    ensures small { IfOk result (λ n. length n.bytes.items ≤ output_limit) }
    ensures refused { IfErr result (Blames (LinesFail maps.now (line_source (debug_data view.now)) (texts_known new_texts.now Str) (texts_known new_texts.now LineStr) tables.now)) }
{
    let lines = new_lines(alloc, view, maps, new_texts, tables)?;
    if lines.bytes.len() as u64 > OUTPUT_LIMIT {
        return Err(Fault::Refused(long_lines(view)));
    }
    Ok(lines)
}

/// The tables of texts with their new bytes.
fn table_bodies<'v>(
    alloc: Global,
    view: &View,
    pool: LentPool,
    line_pool: LentPool,
) -> Result<Vec<Body<'v>>, NoMemory>
    ensures bodies { IfOk result (λ b. b.items ≡ table_body_of view.now InStr pool.entry ∷ table_body_of view.now InLineStr line_pool.entry ∷ []) }
{
    let mut bodies = Vec::new(alloc);
    bodies.push(Body {
        section: table_number(view, TextSection::InStr),
        bytes: NewBody::whole(pool.into_bytes(alloc)?),
    })?;
    bodies.push(Body {
        section: table_number(view, TextSection::InLineStr),
        bytes: NewBody::whole(line_pool.into_bytes(alloc)?),
    })?;
    Ok(bodies)
}

/// The section of line tables with these bytes.
fn lines_body<'v>(view: &View, bytes: Vec<u8>) -> Body<'v>
    ensures { result ≡ record { number = ((debug_data view.now).found Line).number; bytes = bytes.items } }
{
    Body {
        section: lines_number(view),
        bytes: NewBody::whole(bytes),
    }
}

/// The number of the section of line tables; 0 where there is none.
#[tactic(auto, using(crate::proofs::LineReadLaws::number_rules))]
fn lines_number(view: &View) -> u32
    ensures { result ≡ ((debug_data view.now).found Line).number }
{
    match view.first(DebugSection::Line) {
        Some(section) => section,
        None => 0,
    }
}

/// What refuses line tables that are too long.
fn long_lines(view: &View) -> Refusal
    ensures { result ≡ at Kind.TooLarge ((debug_data view.now).found Line).number 0 }
{
    Refusal::at(Kind::TooLarge, lines_number(view), 0)
}

/// Appends string offsets, line tables, name tables, the sections of macro units and the unit sections with their new bytes,
/// from the new places of paths that are known of each table, and the starts of line tables.
#[tactic(auto, using(crate::proofs::StandingLaws::part_rules))]
fn push_bodies<'a>(
    alloc: Global,
    elf: &ElfFile<'a>,
    view: &View,
    maps: &Maps,
    new_places: &NewPlaces,
    lines: Body<'a>,
    paths: &Fields,
    bodies: &mut Vec<Body<'a>>,
) -> Result<(), Fault>
    requires file { view.now ≡ view_of elf.now.bytes.now }
    requires offsets { AllHaveOffsets view.now (standing paths.now) }
    requires places { AllHavePlaces view.now (standing paths.now) }
    requires rooms { AllRoomsFit maps.now view.now (standing paths.now) }
    ensures bodies { OnOk result (bodies.new.items ≡ bodies.old.items ++ pushed_bodies maps.now view.now (places_known new_places.now Str) (places_known new_places.now LineStr) (places_known new_places.now Line) lines.entry paths.now) }
    ensures only { IfErr result (λ f. f ≡ no_memory) }
{
    push_one(alloc, elf, view, maps, new_places, paths.slots(), bodies)?;
    bodies.push(lines)?;
    push_one(alloc, elf, view, maps, new_places, paths.names(), bodies)?;
    new_sections(alloc, elf, view, maps, new_places, paths.macros(), bodies)?;
    new_sections(alloc, elf, view, maps, new_places, paths.units(), bodies)?;
    Ok(())
}

/// Appends the sections that hold relocations of sections that say something of paths, and of line tables, with their
/// records as they are when these say their new offsets. Refused as `TooWide`, at the field, where the addend of a
/// field's relocation can't make its new offset.
fn push_relocations(
    alloc: Global,
    view: &View,
    sources: &RelocationSources,
    maps: &Maps,
    new_places: &NewPlaces,
    new: &[u64],
    tables: &[LineTable],
    paths: &Fields,
    bodies: &mut Vec<Body>,
) -> Result<(), Fault>
    requires view { view.now ≡ view_of sources.now }
    requires relocations { RelocationSectionsRead (contents_of sources.now) sources.now }
    requires left { LeftRelocationsRead (debug_data view.now) (moving_sections view.now) }
    requires offsets { AllHaveOffsets view.now (standing paths.now) }
    requires places { AllHavePlaces view.now (standing paths.now) }
    requires fit { AllPlacesFit sources.now }
    requires tables { TablesFound view.now tables.now }
    requires starts { StartsKnown maps.now (line_source (debug_data view.now)) (places_known new_places.now Str) (places_known new_places.now LineStr) tables.now new.now }
    ensures bodies { OnOk result (bodies.new.items ≡ (bodies.old.items ++ records_known sources.now view.now (places_known new_places.now Str) (places_known new_places.now LineStr) (places_known new_places.now Line) (standing paths.now)) ++ line_record sources.now maps.now (line_source (debug_data view.now)) (places_known new_places.now Str) (places_known new_places.now LineStr) tables.now (section_named view.now (name_of Line))) }
    ensures makes { OnOk result (AllMake view.now (places_known new_places.now Str) (places_known new_places.now LineStr) (places_known new_places.now Line) (standing paths.now)) }
    ensures line_makes { OnOk result (OffsetsMake (line_source (debug_data view.now)).cells (line_offsets maps.now (line_source (debug_data view.now)) (places_known new_places.now Str) (places_known new_places.now LineStr) tables.now)) }
    ensures refused { IfErr result (Blames (λ r. AllMiss view.now (places_known new_places.now Str) (places_known new_places.now LineStr) (places_known new_places.now Line) (standing paths.now) r ⊎ OffsetMisses (line_source (debug_data view.now)).number (line_source (debug_data view.now)).cells (line_offsets maps.now (line_source (debug_data view.now)) (places_known new_places.now Str) (places_known new_places.now LineStr) tables.now) r)) }
{
    push_standing(alloc, view, sources, new_places, paths, bodies)?;
    let new_texts = new_places.texts();
    push_line_record(alloc, view, sources, maps, new_texts, new, tables, bodies)?;
    Ok(())
}

/// Appends the section of string offsets, or that of name tables, with its new bytes; a body of no section where there is none.
#[tactic(auto, using(crate::proofs::PushLaws::one_rules))]
fn push_one<'a>(
    alloc: Global,
    elf: &ElfFile<'a>,
    view: &View,
    maps: &Maps,
    new_places: &NewPlaces,
    found: &[SectionFields],
    bodies: &mut Vec<Body<'a>>,
) -> Result<(), Fault>
    requires file { view.now ≡ view_of elf.now.bytes.now }
    requires offsets { AllHaveOffsets view.now found.now }
    requires places { AllHavePlaces view.now found.now }
    requires rooms { AllRoomsFit maps.now view.now found.now }
    ensures body { OnOk result (bodies.new.items ≡ bodies.old.items ++ one_body (bodies_known maps.now view.now (places_known new_places.now Str) (places_known new_places.now LineStr) (places_known new_places.now Line) found.now)) }
    ensures only { IfErr result (λ f. f ≡ no_memory) }
{
    if found.is_empty() {
        bodies.push(Body {
            section: 0,
            bytes: NewBody::whole(Vec::new(alloc)),
        })?;
        return Ok(());
    }
    new_sections(alloc, elf, view, maps, new_places, found, bodies)?;
    Ok(())
}
