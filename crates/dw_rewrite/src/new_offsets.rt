//! The new places of texts in a table of texts that is built anew, by their offsets in the old one.
//!
//! Each offset is looked at once as a path's and once as another text's: its text is read and added where it is first met,
//! mapped where a path names it.

ghost use Rattle.std.specs.Prelude.{[], ◌≡◌, ◌≤◌, true, is_some, length, OnOk, IfErr, IfOk};
ghost use Rattle.dw_base.specs.Layout.{output_limit};
ghost use Rattle.dw_base.specs.LayoutFails.{TooLong};
ghost use Rattle.dw_base.specs.Paths.{mapped_path};
ghost use Rattle.dw_base.specs.Refusals.{Blames};
ghost use Rattle.dw_base.specs.StringTables.{new_text, table_bytes, with_added, with_mention};
ghost use Rattle.dw_base.specs.Texts.{ends_in, text_in};
ghost use Rattle.dw_lines.specs.NewTexts.{AddsPlace, known_by};
ghost use Rattle.dw_rewrite.specs.Changes.{IsNoted, Knows, Remembers, field_mention, mention_as, offset_at, place_after};
ghost use Rattle.dw_unit_fields.specs.Fields.{IsOffsetField};

use crate::refusal::too_large;
use crate::sources::FieldSource;
use dw_base::{Fault, NoMemory, OUTPUT_LIMIT};
use dw_lines::TextPlaces;
use dw_offsets::OffsetField;
use dw_paths::{Maps, map_path};
use dw_strings::{LentPool, text_at};
use std::alloc::Global;

/// Notes the new place of the text whose offset a field holds: where the offset was met before nothing is done.
#[tactic(auto, using(crate::proofs::Rows::long_rows, crate::proofs::NewOffsetLaws::note_rules))]
pub(crate) fn note_field<'t>(
    alloc: Global,
    source: &FieldSource<'_, '_, 't>,
    maps: &Maps,
    field: OffsetField,
    pool: &mut LentPool<'t>,
    known: &mut TextPlaces,
) -> Result<(), Fault>
    requires field { IsOffsetField source.now.order source.now.table source.now.cells field }
    requires kept { pool.old.kept ≡ [] }
    requires small { length (table_bytes pool.old) ≤ output_limit }
    requires knows { Knows maps.now source.now.table.bytes pool.old.texts (known_by known.old) }
    ensures kept { OnOk result (pool.new.kept ≡ []) }
    ensures texts { OnOk result (pool.new.texts ≡ with_mention maps.now pool.old.texts (field_mention source.now field)) }
    ensures knows { OnOk result (Knows maps.now source.now.table.bytes pool.new.texts (known_by known.new)) }
    ensures noted { OnOk result (IsNoted (known_by known.new) field.path (offset_at source.now field)) }
    ensures small { OnOk result (length (table_bytes pool.new) ≤ output_limit) }
    ensures remembers { OnOk result (Remembers (known_by known.old) (known_by known.new)) }
    ensures refused { IfErr result (Blames (TooLong (length (table_bytes (record { kept = []; texts = with_mention maps.now pool.old.texts (field_mention source.now field) }))))) }
{
    let table = source.table();
    let offset = text_offset(source, field);
    if is_known(known, field.path, offset) {
        return Ok(());
    }
    add_text(alloc, table, maps, field.path, offset, pool, known)?;
    Ok(())
}

/// The offset that a field of a text holds.
fn text_offset(source: &FieldSource, field: OffsetField) -> u64
    requires field { IsOffsetField source.now.order source.now.table source.now.cells field }
    ensures value { result ≡ offset_at source.now field }
    ensures ends { ends_in source.now.table.bytes result ≡ true }
{
    source.offset(field)
}

/// The new place of the text at an offset is known, as a path or not.
fn is_known(known: &TextPlaces, path: bool, offset: u64) -> bool
    ensures { result ≡ is_some (known_by known.now path offset) }
{
    known.get(path, offset).is_some()
}

/// Adds the text at an offset, mapped where it is a path's, and notes its place.
#[tactic(auto, using(crate::proofs::Rows::long_rows))]
fn add_text<'t>(
    alloc: Global,
    table: &'t [u8],
    maps: &Maps,
    path: bool,
    offset: u64,
    pool: &mut LentPool<'t>,
    known: &mut TextPlaces,
) -> Result<(), Fault>
    requires ends { ends_in table.now offset ≡ true }
    requires small { length (table_bytes pool.old) ≤ output_limit }
    ensures pool { OnOk result (pool.new ≡ with_added pool.old (new_text maps.now (mention_as path table.now offset))) }
    ensures small { OnOk result (length (table_bytes pool.new) ≤ output_limit) }
    ensures added { OnOk result (AddsPlace (known_by known.old) (known_by known.new) path offset (place_after pool.old (new_text maps.now (mention_as path table.now offset)))) }
    ensures refused { IfErr result (Blames (TooLong (length (table_bytes (with_added pool.old (new_text maps.now (mention_as path table.now offset))))))) }
{
    let place = put_text(alloc, text_there(table, offset), maps, path, pool)?;
    known.add(path, offset, place)?;
    if pool.len() > OUTPUT_LIMIT {
        return Err(too_large().into());
    }
    Ok(())
}

/// The text at an offset at which one ends.
fn text_there(table: &[u8], offset: u64) -> &[u8]
    requires ends { ends_in table.now offset ≡ true }
    ensures text { result.now ≡ text_in table.now offset }
{
    match text_at(0, table, offset) {
        Ok(text) => text,
        Err(_) => unreachable!(),
    }
}

/// Adds a text, mapped where it is a path's, and gives its place.
#[tactic(auto, using(crate::proofs::NewOffsetLaws::text_rules))]
fn put_text<'t>(
    alloc: Global,
    text: &'t [u8],
    maps: &Maps,
    path: bool,
    pool: &mut LentPool<'t>,
) -> Result<u64, NoMemory>
    requires small { length (table_bytes pool.old) ≤ output_limit }
    ensures pool { OnOk result (pool.new ≡ with_added pool.old (new_text maps.now (record { path = path; text = text.now }))) }
    ensures place { IfOk result (λ at. at ≡ place_after pool.old (new_text maps.now (record { path = path; text = text.now }))) }
{
    if path {
        put_path(alloc, text, maps, pool)
    } else {
        put_other(text, pool)
    }
}

/// Adds a path, mapped.
#[tactic(auto, using(crate::proofs::NewOffsetLaws::put_rules))]
fn put_path(alloc: Global, text: &[u8], maps: &Maps, pool: &mut LentPool) -> Result<u64, NoMemory>
    requires small { length (table_bytes pool.old) ≤ output_limit }
    ensures pool { OnOk result (pool.new ≡ with_added pool.old (mapped_path maps.now text.now)) }
    ensures place { IfOk result (λ at. at ≡ place_after pool.old (mapped_path maps.now text.now)) }
{
    let mapped = map_path(alloc, maps, text)?;
    pool.add_owned(mapped)
}

/// Adds a text as it is.
#[tactic(auto, using(crate::proofs::NewOffsetLaws::put_rules))]
fn put_other<'t>(text: &'t [u8], pool: &mut LentPool<'t>) -> Result<u64, NoMemory>
    requires small { length (table_bytes pool.old) ≤ output_limit }
    ensures pool { OnOk result (pool.new ≡ with_added pool.old text.now) }
    ensures place { IfOk result (λ at. at ≡ place_after pool.old text.now) }
{
    pool.add_lent(text)
}
