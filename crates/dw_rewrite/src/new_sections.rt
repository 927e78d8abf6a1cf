//! The sections of units and of macro units with new bytes: new offsets in the fields of paths, new starts of line tables,
//! and paths that stand in their values mapped in their rooms.
//!
//! Read first: `specs/NewTables.antt`.

ghost use Rattle.std.specs.Prelude.{[], ◌≡◌, ◌++◌, ◌<◌, length, IfErr, IfOk, OnOk};
ghost use Rattle.std.specs.Bool.{OnTrue};
ghost use Rattle.dw_meaning.specs.DataOutput.{Body as BodyOf};
ghost use Rattle.dw_base.specs.FileViews.{section_bytes, view_of};
ghost use Rattle.dw_base.specs.Refusals.{Blames};
ghost use Rattle.dw_base.specs.declared.debug_sections.DebugSection.TheVariants.{Str, LineStr, Line};
ghost use Rattle.dw_base.specs.declared.fault.Fault.TheVariants.{NoMemory};
ghost use Rattle.dw_rewrite.specs.Changes.{AreFieldsOf, AreFree, AreSet};
ghost use Rattle.elf_layout.specs.Given.{body_bytes};
ghost use Rattle.elf_layout.specs.Patched.{with_patches};
ghost use Rattle.dw_unit_fields.specs.Fields.{AllApart};
ghost use Rattle.dw_unit_fields.specs.InlineRooms.{Grows};
ghost use Rattle.dw_unit_fields.specs.ViewFields.{AllHaveOffsets, AllHavePlaces, AllRoomsFit, HasOffsets, HasPlaces, info_of};
ghost use Rattle.dw_unit_fields.specs.SectionFields.{fields_into};
ghost use Rattle.dw_rewrite.specs.NewTables.{bodies_known, body_known, fields_known, source_into};
ghost use Rattle.dw_rewrite.specs.UnitsAfter.{inlined};
ghost use Rattle.dw_rewrite.specs.NewPlaces.{places_known};

use crate::change::set_fields;
use crate::inline::map_rooms;
use crate::new_places::NewPlaces;
use crate::sources::FieldSource;
use dw_base::{DebugSection, Fault};
use dw_patch::Patches;
use dw_paths::Maps;
use dw_unit_fields::SectionFields;
use dw_view::View;
use elf_file::ElfFile;
use elf_layout::NewBody;
use std::alloc::Global;
use std::marker::Model;

/// A section and its new bytes.
#[derive(Drop)]
pub(crate) struct Body<'a> {
    /// The section's number; 0 for a table of texts that isn't there.
    pub section: u32,
    /// Its new bytes.
    pub bytes: NewBody<'a>,
}

impl<'a> Model for Body<'a> {
    ghost Value = { BodyOf };

    ghost view = { λ b. record { number = b.section; bytes = body_bytes b.bytes } };
}

/// Appends sections with their new bytes, from the new places of paths that are known of each table, and the new
/// starts of line tables.
#[tactic(auto, using(crate::proofs::SectionBytesLaws::all_rules))]
pub(crate) fn new_sections<'a>(
    alloc: Global,
    elf: &ElfFile<'a>,
    view: &View,
    maps: &Maps,
    new_places: &NewPlaces,
    paths: &[SectionFields],
    bodies: &mut Vec<Body<'a>>,
) -> Result<(), Fault>
    requires file { view.now ≡ view_of elf.now.bytes.now }
    requires offsets { AllHaveOffsets view.now paths.now }
    requires places { AllHavePlaces view.now paths.now }
    requires rooms { AllRoomsFit maps.now view.now paths.now }
    ensures bodies { OnOk result (bodies.new.items ≡ bodies.old.items ++ bodies_known maps.now view.now (places_known new_places.now Str) (places_known new_places.now LineStr) (places_known new_places.now Line) paths.now) }
    ensures only { IfErr result (λ f. f ≡ NoMemory) }
{
    for found in paths {
        let body = new_section(alloc, elf, view, maps, new_places, found)?;
        bodies.push(body)?;
    }
    Ok(())
}

/// A section with its new bytes: old ones with new numbers in their fields, where no path stands in its value.
#[tactic(auto, using(crate::proofs::SectionBytesLaws::one_rules))]
fn new_section<'a>(
    alloc: Global,
    elf: &ElfFile<'a>,
    view: &View,
    maps: &Maps,
    new_places: &NewPlaces,
    found: &SectionFields,
) -> Result<Body<'a>, Fault>
    requires file { view.now ≡ view_of elf.now.bytes.now }
    requires offsets { HasOffsets view.now found.now }
    requires places { HasPlaces view.now found.now }
    ensures body { IfOk result (λ b. b ≡ body_known maps.now view.now (places_known new_places.now Str) (places_known new_places.now LineStr) (places_known new_places.now Line) found.now) }
    ensures refused { IfErr result (Blames (Grows maps.now found.now.number (info_of view.now found.now) found.now.inline)) }
{
    let patches = new_fields(alloc, view, new_places, found)?;
    let old = old_bytes(elf, found.section);
    if has_no_rooms(found) {
        return Ok(patched_section(found.section, old, patches));
    }
    let mut bytes = Vec::from_slice(alloc, old)?;
    write_section(alloc, view, maps, &patches, found, &mut bytes)?;
    Ok(Body {
        section: found.section,
        bytes: NewBody::whole(bytes),
    })
}

/// The bytes of the section of a number, which the file lends.
#[tactic(auto, using(crate::proofs::SectionBytesLaws::lent_rules))]
fn old_bytes<'a>(elf: &ElfFile<'a>, section: u32) -> &'a [u8]
    requires there { section < length (view_of elf.now.bytes.now).sections }
    ensures bytes { result.now ≡ section_bytes (view_of elf.now.bytes.now) section }
{
    elf.contents(section)
}

/// No path of a section stands in its value.
#[tactic(auto, using(crate::proofs::SectionBytesLaws::room_rules))]
fn has_no_rooms(found: &SectionFields) -> bool
    ensures none { OnTrue result (found.now.inline ≡ []) }
{
    found.inline.as_slice().is_empty()
}

/// The section of a number with its old bytes and new numbers in their fields.
fn patched_section<'a>(section: u32, old: &'a [u8], patches: Patches) -> Body<'a>
    requires size { length old.now ≡ patches.size }
    ensures body { result ≡ record { number = section; bytes = with_patches patches.order old.now patches.list } }
{
    Body {
        section,
        bytes: patches.onto(old),
    }
}

/// Writes what is new into the bytes of a section.
#[tactic(auto, using(crate::proofs::SectionBytesLaws::one_rules))]
fn write_section(
    alloc: Global,
    view: &View,
    maps: &Maps,
    patches: &Patches,
    found: &SectionFields,
    out: &mut [u8],
) -> Result<(), Fault>
    requires places { HasPlaces view.now found.now }
    requires start { out.old ≡ info_of view.now found.now }
    requires size { patches.now.size ≡ length (info_of view.now found.now) }
    ensures out { OnOk result (out.new ≡ inlined maps.now (info_of view.now found.now) (with_patches patches.now.order (info_of view.now found.now) patches.now.list) found.now.inline) }
    ensures long { OnOk result (length out.new ≡ length (info_of view.now found.now)) }
    ensures refused { IfErr result (Blames (Grows maps.now found.now.number (info_of view.now found.now) found.now.inline)) }
{
    patches.apply(out);
    let info = view.bytes(found.section);
    map_rooms(
        alloc,
        maps,
        found.section,
        info,
        found.inline.as_slice(),
        out,
    )?;
    Ok(())
}

/// The new offsets of the fields of a section's paths, and the new starts of line tables.
#[tactic(auto, using(crate::proofs::SectionBytesLaws::one_rules))]
fn new_fields(
    alloc: Global,
    view: &View,
    new_places: &NewPlaces,
    found: &SectionFields,
) -> Result<Patches, Fault>
    requires offsets { HasOffsets view.now found.now }
    requires places { HasPlaces view.now found.now }
    ensures put { IfOk result (λ p. with_patches p.order (info_of view.now found.now) p.list ≡ fields_known view.now (places_known new_places.now Str) (places_known new_places.now LineStr) (places_known new_places.now Line) found.now (info_of view.now found.now)) }
    ensures size { IfOk result (λ p. p.size ≡ length (info_of view.now found.now)) }
    ensures only { IfErr result (λ f. f ≡ NoMemory) }
{
    let mut patches = Patches::new(alloc, view, found.section)?;
    set_section(view, DebugSection::Str, found, new_places, &mut patches)?;
    set_section(view, DebugSection::LineStr, found, new_places, &mut patches)?;
    set_section(view, DebugSection::Line, found, new_places, &mut patches)?;
    Ok(patches)
}

/// Sets the fields of a section that hold offsets into another to the new places that are known of the old ones.
fn set_section(
    view: &View,
    into: DebugSection,
    found: &SectionFields,
    new_places: &NewPlaces,
    patches: &mut Patches,
) -> Result<(), Fault>
    requires there { found.now.number < length view.now.sections }
    requires fields { AreFieldsOf (source_into view.now found.now.number into) (fields_into found.now into) }
    requires size { patches.old.size ≡ length (info_of view.now found.now) }
    requires apart { AllApart (fields_into found.now into) }
    requires free { AreFree patches.old.list (fields_into found.now into) }
    ensures set { OnOk result (AreSet (source_into view.now found.now.number into) (places_known new_places.now into) (fields_into found.now into) patches.old patches.new) }
    ensures only { IfErr result (λ f. f ≡ NoMemory) }
{
    let source = field_source(view, into, found.section);
    set_fields(&source, found.fields(into), into, new_places, patches)?;
    Ok(())
}

/// Where the fields of the section of a number hold offsets into a section of debug data.
#[tactic(auto, using(crate::proofs::GrowthLaws::into_rules))]
pub(crate) fn field_source<'v, 'f>(
    view: &'v View<'f>,
    into: DebugSection,
    section: u32,
) -> FieldSource<'v, 'f, 'v>
    requires there { section < length view.now.sections }
    ensures { result ≡ source_into view.now section into }
{
    match view.first(into) {
        Some(number) => FieldSource::new(view, section, number, view.bytes(number)),
        None => FieldSource::new(view, section, 0, b""),
    }
}
