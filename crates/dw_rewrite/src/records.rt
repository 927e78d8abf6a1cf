//! The sections that hold relocations of sections whose fields say new offsets (gABI ch. 4 "Relocation"): each record
//! stays at its place, and has the addend that makes the offset of its field.
//!
//! Read first: `specs/NewOffsets.antt` and `specs/OffsetAddends.antt`.

ghost use Rattle.std.specs.Prelude.{[], ◌≡◌, ◌++◌, ◌<◌, length, IfErr, IfOk, None, OnOk};
ghost use Rattle.dw_base.specs.FileViews.{view_of};
ghost use Rattle.dw_base.specs.Refusals.{Blames};
ghost use Rattle.dw_base.specs.SectionRelocations.{relocation_section};
ghost use Rattle.dw_base.specs.declared.debug_sections.DebugSection.TheVariants.{Str, LineStr, Line};
ghost use Rattle.dw_read.specs.AllFields.{standing};
ghost use Rattle.dw_unit_fields.specs.ViewFields.{AllHaveOffsets, AllHavePlaces, HasOffsets, HasPlaces};
ghost use Rattle.dw_patch.specs.RecordMoves.{PlacesFit, moved_table, patch_for};
ghost use Rattle.dw_rewrite.specs.Changes.{AreFieldsOf, IsFieldOf};
ghost use Rattle.dw_rewrite.specs.NewOffsets.{AllPlacesFit, AreAbsent, NoneTogether, offset_by, offsets_in, offsets_known, record_body, records_known};
ghost use Rattle.dw_unit_fields.specs.SectionFields.{fields_into};
ghost use Rattle.dw_rewrite.specs.NewTables.{source_into};
ghost use Rattle.dw_rewrite.specs.OffsetAddends.{AllMake, AllMiss, FieldMakes, FieldMisses, FieldsMake, FieldsMiss, SectionMakes, SectionMisses};
ghost use Rattle.dw_rewrite.specs.NewPlaces.{places_known};

use crate::change::place_for;
use crate::new_places::NewPlaces;
use crate::new_sections::{Body, field_source};
use crate::sources::FieldSource;
use dw_base::{DebugSection, Fault, Kind, Refusal};
use dw_offsets::OffsetField;
use dw_patch::{Offsets, RelocSource};
use dw_read::Fields;
use dw_unit_fields::SectionFields;
use dw_view::{RelocationSources, View};
use elf_layout::NewBody;
use std::alloc::Global;

/// Appends the sections that hold relocations of units, string offsets, macro units and name tables, with their records as they are when the
/// sections' fields say their new offsets. Refused as `TooWide`, at the field, where the addend of a field's relocation can't
/// make its new offset.
#[tactic(auto, using(crate::proofs::StandingLaws::part_rules))]
pub(crate) fn push_standing(
    alloc: Global,
    view: &View,
    sources: &RelocationSources,
    new_places: &NewPlaces,
    paths: &Fields,
    bodies: &mut Vec<Body>,
) -> Result<(), Fault>
    requires view { view.now ≡ view_of sources.now }
    requires offsets { AllHaveOffsets view.now (standing paths.now) }
    requires places { AllHavePlaces view.now (standing paths.now) }
    requires fit { AllPlacesFit sources.now }
    ensures bodies { OnOk result (bodies.new.items ≡ bodies.old.items ++ records_known sources.now view.now (places_known new_places.now Str) (places_known new_places.now LineStr) (places_known new_places.now Line) (standing paths.now)) }
    ensures makes { OnOk result (AllMake view.now (places_known new_places.now Str) (places_known new_places.now LineStr) (places_known new_places.now Line) (standing paths.now)) }
    ensures refused { IfErr result (Blames (AllMiss view.now (places_known new_places.now Str) (places_known new_places.now LineStr) (places_known new_places.now Line) (standing paths.now))) }
{
    push_records(alloc, view, sources, new_places, paths.units(), bodies)?;
    push_records(alloc, view, sources, new_places, paths.slots(), bodies)?;
    push_records(alloc, view, sources, new_places, paths.macros(), bodies)?;
    push_records(alloc, view, sources, new_places, paths.names(), bodies)?;
    Ok(())
}

/// The same of these sections.
#[tactic(auto, using(crate::proofs::RecordPushLaws::all_rules))]
fn push_records(
    alloc: Global,
    view: &View,
    sources: &RelocationSources,
    new_places: &NewPlaces,
    paths: &[SectionFields],
    bodies: &mut Vec<Body>,
) -> Result<(), Fault>
    requires view { view.now ≡ view_of sources.now }
    requires offsets { AllHaveOffsets view.now paths.now }
    requires places { AllHavePlaces view.now paths.now }
    requires fit { AllPlacesFit sources.now }
    ensures bodies { OnOk result (bodies.new.items ≡ bodies.old.items ++ records_known sources.now view.now (places_known new_places.now Str) (places_known new_places.now LineStr) (places_known new_places.now Line) paths.now) }
    ensures makes { OnOk result (AllMake view.now (places_known new_places.now Str) (places_known new_places.now LineStr) (places_known new_places.now Line) paths.now) }
    ensures refused { IfErr result (Blames (AllMiss view.now (places_known new_places.now Str) (places_known new_places.now LineStr) (places_known new_places.now Line) paths.now)) }
{
    for found in paths {
        push_record(alloc, view, sources, new_places, found, bodies)?;
    }
    Ok(())
}

/// Appends the section that holds relocations of a section, if one does.
#[tactic(auto, using(crate::proofs::RecordPushLaws::one_rules))]
fn push_record(
    alloc: Global,
    view: &View,
    sources: &RelocationSources,
    new_places: &NewPlaces,
    found: &SectionFields,
    bodies: &mut Vec<Body>,
) -> Result<(), Fault>
    requires view { view.now ≡ view_of sources.now }
    requires offsets { HasOffsets view.now found.now }
    requires places { HasPlaces view.now found.now }
    requires fit { AllPlacesFit sources.now }
    ensures body { OnOk result (bodies.new.items ≡ bodies.old.items ++ record_body sources.now (offsets_in view.now (places_known new_places.now Str) (places_known new_places.now LineStr) (places_known new_places.now Line) found.now) (relocation_section sources.now found.now.number)) }
    ensures makes { OnOk result (SectionMakes view.now (places_known new_places.now Str) (places_known new_places.now LineStr) (places_known new_places.now Line) found.now) }
    ensures refused { IfErr result (Blames (SectionMisses view.now (places_known new_places.now Str) (places_known new_places.now LineStr) (places_known new_places.now Line) found.now)) }
{
    if let Some((holder, source)) = sources.of(found.section) {
        let body = records_body(alloc, view, new_places, found, holder, &source)?;
        bodies.push(body)?;
    }
    Ok(())
}

/// The section of a number that holds the relocations of a section, with its records as they are when the section's
/// fields say their new offsets.
#[tactic(auto, using(crate::proofs::OffsetAddLaws::body_rules))]
fn records_body<'v>(
    alloc: Global,
    view: &View,
    new_places: &NewPlaces,
    found: &SectionFields,
    holder: u32,
    source: &RelocSource,
) -> Result<Body<'v>, Fault>
    requires offsets { HasOffsets view.now found.now }
    requires places { HasPlaces view.now found.now }
    requires fit { PlacesFit source.now [] }
    ensures body { IfOk result (λ b. b ≡ record { number = holder; bytes = moved_table source.now [] (offsets_in view.now (places_known new_places.now Str) (places_known new_places.now LineStr) (places_known new_places.now Line) found.now) }) }
    ensures makes { OnOk result (SectionMakes view.now (places_known new_places.now Str) (places_known new_places.now LineStr) (places_known new_places.now Line) found.now) }
    ensures refused { IfErr result (Blames (SectionMisses view.now (places_known new_places.now Str) (places_known new_places.now LineStr) (places_known new_places.now Line) found.now)) }
{
    let offsets = section_offsets(alloc, view, new_places, found)?;
    let mut bytes = Vec::from_slice(alloc, source.table)?;
    offsets.move_records(source, &[], &mut bytes);
    Ok(Body {
        section: holder,
        bytes: NewBody::whole(bytes),
    })
}

/// The new offsets of the fields of a section.
#[tactic(auto, using(crate::proofs::OffsetAddLaws::section_rules))]
fn section_offsets(
    alloc: Global,
    view: &View,
    new_places: &NewPlaces,
    found: &SectionFields,
) -> Result<Offsets, Fault>
    requires offsets { HasOffsets view.now found.now }
    requires places { HasPlaces view.now found.now }
    ensures offsets { IfOk result (λ o. o ≡ offsets_in view.now (places_known new_places.now Str) (places_known new_places.now LineStr) (places_known new_places.now Line) found.now) }
    ensures makes { OnOk result (SectionMakes view.now (places_known new_places.now Str) (places_known new_places.now LineStr) (places_known new_places.now Line) found.now) }
    ensures refused { IfErr result (Blames (SectionMisses view.now (places_known new_places.now Str) (places_known new_places.now LineStr) (places_known new_places.now Line) found.now)) }
{
    let mut offsets = Offsets::new(alloc);
    add_section(view, DebugSection::Str, found, new_places, &mut offsets)?;
    add_section(view, DebugSection::LineStr, found, new_places, &mut offsets)?;
    add_section(view, DebugSection::Line, found, new_places, &mut offsets)?;
    Ok(offsets)
}

/// Adds the fields of a section that hold offsets into another, with the new places that are known of the old ones.
fn add_section(
    view: &View,
    into: DebugSection,
    found: &SectionFields,
    new_places: &NewPlaces,
    offsets: &mut Offsets,
) -> Result<(), Fault>
    requires there { found.now.number < length view.now.sections }
    requires fields { AreFieldsOf (source_into view.now found.now.number into) (fields_into found.now into) }
    requires apart { NoneTogether (fields_into found.now into) }
    requires absent { AreAbsent offsets.old (fields_into found.now into) }
    ensures added { OnOk result (offsets.new ≡ offsets.old ++ offsets_known (source_into view.now found.now.number into) (places_known new_places.now into) (fields_into found.now into)) }
    ensures makes { OnOk result (FieldsMake (source_into view.now found.now.number into) (places_known new_places.now into) (fields_into found.now into)) }
    ensures refused { IfErr result (Blames (FieldsMiss (source_into view.now found.now.number into) (places_known new_places.now into) found.now.number (fields_into found.now into))) }
{
    let source = field_source(view, into, found.section);
    let fields = found.fields(into);
    add_fields(&source, found.section, fields, into, new_places, offsets)?;
    Ok(())
}

/// Adds these fields of a section, which hold offsets into another, with the new places that are known of the old ones.
#[tactic(auto, using(crate::proofs::OffsetAddLaws::field_rules))]
fn add_fields(
    source: &FieldSource,
    section: u32,
    fields: &[OffsetField],
    into: DebugSection,
    new_places: &NewPlaces,
    offsets: &mut Offsets,
) -> Result<(), Fault>
    requires fields { AreFieldsOf source.now fields.now }
    requires apart { NoneTogether fields.now }
    requires absent { AreAbsent offsets.old fields.now }
    ensures added { OnOk result (offsets.new ≡ offsets.old ++ offsets_known source.now (places_known new_places.now into) fields.now) }
    ensures makes { OnOk result (FieldsMake source.now (places_known new_places.now into) fields.now) }
    ensures refused { IfErr result (Blames (FieldsMiss source.now (places_known new_places.now into) section fields.now)) }
{
    for at in fields {
        let new = place_for(source, *at, into, new_places);
        add_known(source, section, *at, new, offsets)?;
    }
    Ok(())
}

/// Adds a field of the section of a number with a new offset, where one is known. Refused as `TooWide`, at the field,
/// where the addend of its relocation can't make that.
#[tactic(auto, using(crate::proofs::OffsetAddLaws::known_rules))]
fn add_known(
    source: &FieldSource,
    section: u32,
    field: OffsetField,
    new: Option<u64>,
    offsets: &mut Offsets,
) -> Result<(), Fault>
    requires field { IsFieldOf source.now field }
    requires absent { patch_for offsets.old field.at ≡ None }
    ensures added { OnOk result (offsets.new ≡ offsets.old ++ offset_by field new) }
    ensures makes { OnOk result (FieldMakes source.now field new) }
    ensures refused { IfErr result (Blames (FieldMisses source.now section field new)) }
{
    if let Some(offset) = new {
        if !source.makes(field, offset) {
            return Err(Fault::Refused(Refusal::at(Kind::TooWide, section, field.at)));
        }
        offsets.add(field.at, field.size, offset)?;
    }
    Ok(())
}
