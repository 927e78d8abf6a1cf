//! What becomes of the fields of texts, and of those that say where line tables start: the new places are noted, and the
//! fields are set to them.
//!
//! Read first: `specs/Changes.antt`.

ghost use Rattle.std.specs.Prelude.{[], ◌≡◌, ◌⊎◌, ◌+◌, ◌≤◌, length, OnOk, IfErr};
ghost use Rattle.dw_base.specs.Layout.{output_limit};
ghost use Rattle.dw_base.specs.LayoutFails.{TooLong};
ghost use Rattle.dw_base.specs.Refusals.{Blames};
ghost use Rattle.dw_base.specs.StringTables.{table_bytes};
ghost use Rattle.dw_base.specs.declared.fault.Fault.TheVariants.{NoMemory};
ghost use Rattle.dw_patch.specs.Patching.{IsFree};
ghost use Rattle.dw_unit_fields.specs.Fields.{AllApart, AreOffsetFields};
ghost use Rattle.dw_lines.specs.NewTexts.{known_by};
ghost use Rattle.dw_rewrite.specs.Changes.{AreFieldsOf, AreFree, AreNoted, AreSet, IsSet, Knows, Remembers, offset_at, texts_at};
ghost use Rattle.dw_rewrite.specs.NewPlaces.{places_known};

use crate::new_offsets::note_field;
use crate::new_places::NewPlaces;
use crate::sources::FieldSource;
use dw_base::{DebugSection, Fault};
use dw_lines::TextPlaces;
use dw_offsets::OffsetField;
use dw_patch::{NewPlace, Patches};
use dw_paths::Maps;
use dw_strings::LentPool;
use std::alloc::Global;

/// Notes the new places of the texts whose offsets these fields of a section hold.
pub(crate) fn note_fields<'t>(
    alloc: Global,
    source: &FieldSource<'_, '_, 't>,
    maps: &Maps,
    fields: &[OffsetField],
    pool: &mut LentPool<'t>,
    known: &mut TextPlaces,
) -> Result<(), Fault>
    requires texts { AreOffsetFields source.now.order source.now.table source.now.cells fields.now }
    requires kept { pool.old.kept ≡ [] }
    requires small { length (table_bytes pool.old) ≤ output_limit }
    requires knows { Knows maps.now source.now.table.bytes pool.old.texts (known_by known.old) }
    ensures kept { OnOk result (pool.new.kept ≡ []) }
    ensures texts { OnOk result (pool.new.texts ≡ texts_at maps.now source.now pool.old.texts fields.now) }
    ensures small { OnOk result (length (table_bytes pool.new) ≤ output_limit) }
    ensures knows { OnOk result (Knows maps.now source.now.table.bytes pool.new.texts (known_by known.new)) }
    ensures noted { OnOk result (AreNoted source.now fields.now (length fields.now) (known_by known.new)) }
    ensures remembers { OnOk result (Remembers (known_by known.old) (known_by known.new)) }
    ensures refused { IfErr result (Blames (TooLong (length (table_bytes (record { kept = []; texts = texts_at maps.now source.now pool.old.texts fields.now }))))) }
{
    for at in fields {
        note_field(alloc, source, maps, *at, pool, known)?;
    }
    Ok(())
}

/// Sets these fields of a section, which hold offsets into another, to the new places that are known of their old ones.
#[tactic(auto, using(crate::proofs::FieldSetLaws::set_rules))]
pub(crate) fn set_fields(
    source: &FieldSource,
    fields: &[OffsetField],
    into: DebugSection,
    new_places: &NewPlaces,
    patches: &mut Patches,
) -> Result<(), Fault>
    requires fields { AreFieldsOf source.now fields.now }
    requires size { patches.old.size ≡ length source.now.cells }
    requires apart { AllApart fields.now }
    requires free { AreFree patches.old.list fields.now }
    ensures set { OnOk result (AreSet source.now (places_known new_places.now into) fields.now patches.old patches.new) }
    ensures only { IfErr result (λ f. f ≡ NoMemory) }
{
    for at in fields {
        let new = place_for(source, *at, into, new_places);
        set_known(source, *at, new, patches)?;
    }
    Ok(())
}

/// The new place of what a field, which holds an offset into a section, says. `None` where none is known.
#[inline(always)]
pub(crate) fn place_for(
    source: &FieldSource,
    field: OffsetField,
    into: DebugSection,
    new_places: &NewPlaces,
) -> Option<u64>
    requires sized { (field.size ≡ 4) ⊎ (field.size ≡ 8) }
    requires inside { field.at + field.size ≤ length source.now.cells }
    ensures place { result ≡ places_known new_places.now into field.path (offset_at source.now field) }
{
    new_places.get(into, field.path, source.offset(field))
}

/// Sets a field to a new offset, where one is known.
#[tactic(auto, using(crate::proofs::FieldSetLaws::known_rules))]
fn set_known(
    source: &FieldSource,
    field: OffsetField,
    new: Option<u64>,
    patches: &mut Patches,
) -> Result<(), Fault>
    requires sized { (field.size ≡ 4) ⊎ (field.size ≡ 8) }
    requires inside { field.at + field.size ≤ length source.now.cells }
    requires size { patches.old.size ≡ length source.now.cells }
    requires free { IsFree patches.old.list field.at field.size }
    ensures set { OnOk result (IsSet source.now field new patches.old patches.new) }
    ensures only { IfErr result (λ f. f ≡ NoMemory) }
{
    if let Some(place) = new {
        let number = source.number(field, place);
        patches.set(field.at, field.size, NewPlace::Offset(number))?;
    }
    Ok(())
}
