//! The tables of texts as an edit makes them: each text that a field names after mapping, once, in the order of first mention.
//!
//! Read first: `specs/NewTables.antt`.

ghost use Rattle.std.specs.Prelude.{◌≡◌, ◌<◌, length, IfErr, IfOk, OnOk, []};
ghost use Rattle.dw_base.specs.LayoutFails.{TooLong};
ghost use Rattle.dw_base.specs.Refusals.{Blames};
ghost use Rattle.dw_base.specs.StringTables.{table_bytes};
ghost use Rattle.dw_base.specs.declared.debug_sections.DebugSection.TheVariants.{LineStr, Str};
ghost use Rattle.dw_base.specs.declared.texts.TextSection.TheVariants.{InLineStr, InStr};
ghost use Rattle.dw_read.specs.AllFields.{all_of};
ghost use Rattle.dw_unit_fields.specs.ViewFields.{AllHaveOffsets, HasOffsets, fields_of};
ghost use Rattle.dw_starts.specs.StringTables.{table_number};
ghost use Rattle.dw_lines.specs.NewTexts.{known_by, texts_known};
ghost use Rattle.dw_rewrite.specs.NewTables.{GrownBy, GrownByAll, Growing, LongTable, TableMade, TablesRefuse, all_texts_at, fault_at, section_texts_at, source_in, table_with};

use crate::change::note_fields;
use crate::sources::FieldSource;
use dw_base::{DebugSection, Fault, Refusal, TextSection};
use dw_lines::{NewTexts, TextPlaces};
use dw_offsets::OffsetField;
use dw_paths::Maps;
use dw_read::Fields;
use dw_starts::{table_number, table_texts};
use dw_strings::LentPool;
use dw_unit_fields::SectionFields;
use dw_view::View;
use std::alloc::Global;

/// The fields of offsets into a table of texts.
pub(crate) fn fields_of(paths: &SectionFields, texts: TextSection) -> &[OffsetField]
    ensures { result.now ≡ fields_of texts paths.now }
{
    match texts {
        TextSection::InStr => paths.fields(DebugSection::Str),
        TextSection::InLineStr => paths.fields(DebugSection::LineStr),
    }
}

/// Where the fields of the section of a number hold offsets into a table of texts.
#[tactic(auto, using(crate::proofs::GrowthLaws::source_rules))]
pub(crate) fn text_source<'v, 'f>(
    view: &'v View<'f>,
    texts: TextSection,
    section: u32,
) -> FieldSource<'v, 'f, 'v>
    requires there { section < length view.now.sections }
    ensures { result ≡ source_in view.now section texts }
{
    FieldSource::new(
        view,
        section,
        table_number(view, texts),
        table_texts(view, texts),
    )
}

/// Both tables of texts as they are built anew, and the new places of the texts in them by their old ones.
#[derive(Drop)]
pub(crate) struct NewTables<'t> {
    /// `.debug_str`.
    pub pool: LentPool<'t>,
    /// `.debug_line_str`.
    pub line_pool: LentPool<'t>,
    /// The new places.
    pub texts: NewTexts,
}

/// Both tables with the texts of all these sections. Refused as `TooLarge`, at its section, where one would be
/// longer than a file that is written.
pub(crate) fn new_tables<'t>(
    alloc: Global,
    view: &'t View,
    maps: &Maps,
    paths: &Fields,
) -> Result<NewTables<'t>, Fault>
    requires paths { AllHaveOffsets view.now (all_of paths.now) }
    ensures str { IfOk result (λ t. TableMade maps.now view.now InStr (all_of paths.now) t.pool (texts_known t.texts Str)) }
    ensures line_str { IfOk result (λ t. TableMade maps.now view.now InLineStr (all_of paths.now) t.line_pool (texts_known t.texts LineStr)) }
    ensures refused { IfErr result (Blames (TablesRefuse maps.now view.now (all_of paths.now))) }
{
    let NewTable { pool, known } = new_table(alloc, view, maps, TextSection::InStr, paths)?;
    let NewTable {
        pool: line_pool,
        known: line_known,
    } = new_table(alloc, view, maps, TextSection::InLineStr, paths)?;
    let texts = NewTexts::new(known, line_known);
    Ok(NewTables {
        pool,
        line_pool,
        texts,
    })
}

/// A table of texts that is built anew, and the new places of the texts in it by their old offsets.
#[derive(Drop)]
struct NewTable<'t> {
    /// The table.
    pool: LentPool<'t>,
    /// The new places.
    known: TextPlaces,
}

/// A table with the texts of all these sections. Refused as `TooLarge`, at its section, where it would
/// be longer than a file that is written.
#[tactic(auto, using(crate::proofs::GrowthLaws::table_rules))]
fn new_table<'t>(
    alloc: Global,
    view: &'t View,
    maps: &Maps,
    texts: TextSection,
    paths: &Fields,
) -> Result<NewTable<'t>, Fault>
    requires paths { AllHaveOffsets view.now (all_of paths.now) }
    ensures made { IfOk result (λ t. TableMade maps.now view.now texts (all_of paths.now) t.pool (known_by t.known)) }
    ensures refused { IfErr result (Blames (LongTable maps.now view.now texts (all_of paths.now))) }
{
    match grown_table(alloc, view, maps, texts, paths) {
        Ok(table) => Ok(table),
        Err(fault) => Err(fault_at(fault, table_number(view, texts))),
    }
}

/// The same, with a refusal at no section.
fn grown_table<'t>(
    alloc: Global,
    view: &'t View,
    maps: &Maps,
    texts: TextSection,
    paths: &Fields,
) -> Result<NewTable<'t>, Fault>
    requires paths { AllHaveOffsets view.now (all_of paths.now) }
    ensures made { IfOk result (λ t. TableMade maps.now view.now texts (all_of paths.now) t.pool (known_by t.known)) }
    ensures refused { IfErr result (Blames (TooLong (length (table_bytes (table_with (all_texts_at maps.now view.now texts [] (all_of paths.now))))))) }
{
    let mut pool = LentPool::new(alloc);
    let mut known = TextPlaces::new(alloc);
    note_lists(alloc, view, maps, texts, paths, &mut pool, &mut known)?;
    Ok(NewTable { pool, known })
}

/// Notes the new places of the texts of all sections, kind by kind.
#[tactic(auto, using(crate::proofs::ListGrowthLaws::list_rules))]
fn note_lists<'t>(
    alloc: Global,
    view: &'t View,
    maps: &Maps,
    texts: TextSection,
    paths: &Fields,
    pool: &mut LentPool<'t>,
    known: &mut TextPlaces,
) -> Result<(), Fault>
    requires paths { AllHaveOffsets view.now (all_of paths.now) }
    requires growing { Growing maps.now view.now texts pool.old (known_by known.old) }
    ensures grown { OnOk result (GrownByAll maps.now view.now texts (all_of paths.now) pool.old pool.new (known_by known.old) (known_by known.new)) }
    ensures refused { IfErr result (Blames (TooLong (length (table_bytes (table_with (all_texts_at maps.now view.now texts pool.old.texts (all_of paths.now))))))) }
{
    note_sections(alloc, view, maps, texts, paths.units(), pool, known)?;
    note_sections(alloc, view, maps, texts, paths.slots(), pool, known)?;
    note_sections(alloc, view, maps, texts, paths.lines(), pool, known)?;
    note_sections(alloc, view, maps, texts, paths.macros(), pool, known)?;
    note_sections(alloc, view, maps, texts, paths.names(), pool, known)?;
    Ok(())
}

/// Notes the new places of the texts of these sections.
fn note_sections<'t>(
    alloc: Global,
    view: &'t View,
    maps: &Maps,
    texts: TextSection,
    sections: &[SectionFields],
    pool: &mut LentPool<'t>,
    known: &mut TextPlaces,
) -> Result<(), Fault>
    requires sections { AllHaveOffsets view.now sections.now }
    requires growing { Growing maps.now view.now texts pool.old (known_by known.old) }
    ensures grown { OnOk result (GrownByAll maps.now view.now texts sections.now pool.old pool.new (known_by known.old) (known_by known.new)) }
    ensures refused { IfErr result (Blames (TooLong (length (table_bytes (table_with (all_texts_at maps.now view.now texts pool.old.texts sections.now)))))) }
{
    for found in sections {
        note_section(alloc, view, maps, texts, found, pool, known)?;
    }
    Ok(())
}

/// Notes the new places of the texts of a section.
#[tactic(auto, using(crate::proofs::GrowthLaws::section_rules))]
fn note_section<'t>(
    alloc: Global,
    view: &'t View,
    maps: &Maps,
    texts: TextSection,
    found: &SectionFields,
    pool: &mut LentPool<'t>,
    known: &mut TextPlaces,
) -> Result<(), Fault>
    requires paths { HasOffsets view.now found.now }
    requires growing { Growing maps.now view.now texts pool.old (known_by known.old) }
    ensures grown { OnOk result (GrownBy maps.now view.now texts found.now pool.old pool.new (known_by known.old) (known_by known.new)) }
    ensures refused { IfErr result (Blames (TooLong (length (table_bytes (table_with (section_texts_at maps.now view.now texts pool.old.texts found.now)))))) }
{
    let source = text_source(view, texts, found.section);
    let fields = fields_of(found, texts);
    note_fields(alloc, &source, maps, fields, pool, known)?;
    Ok(())
}

/// The fault of a section.
fn fault_at(fault: Fault, section: u32) -> Fault
    ensures { result ≡ fault_at fault section }
{
    match fault {
        Fault::NoMemory => Fault::NoMemory,
        Fault::Refused(refusal) => {
            Fault::Refused(Refusal::at(refusal.kind, section, refusal.offset))
        }
    }
}
