//! The records of a section's relocations when the section's bytes move and its fields say other offsets (gABI ch. 4 "Relocation").
//!
//! This file promises: each record moves with the byte at which its relocation begins; one with an addend whose field is to say another
//! offset has the addend that makes it, where it hasn't already; symbols, types, and records of no relocation stay. The cost grows with the
//! number of records, and with the logarithms of those of runs and, where records aren't in order of places, of fields. No memory.
//! Read first: `specs/RecordMoves.antt`.

ghost use Rattle.std.specs.Prelude.{◌≡◌, ◌↔◌, ◌<◌, ◌^◌, length, IfErr, IfOk, IfSome, IsTrue, Some};
ghost use Rattle.std.specs.Int.RustNames.{FitsSigned};
ghost use Rattle.dw_base.specs.Elf.{word_size};
ghost use Rattle.dw_base.specs.RelocChanges.{with_reloc};
ghost use Rattle.dw_base.specs.Relocs.{word_width};
ghost use Rattle.dw_base.specs.SectionRelocations.{records_in};
ghost use Rattle.dw_patch.specs.RecordMoves.{AllSized, FieldsRise, HasKey, IsGap, OthersStay, PlacesFit, addend_after, field_start, moved_table, nth_record, patch_for, record_at, record_step};
ghost use Rattle.elf_relocs.specs.Runs.{RunsRise, place_by};

use crate::runs::place_by;
use dw_base::Reloc;
use elf_layout::Patch;
use elf_relocs::{RelocSource, Run, is_none_type, offset_addend, record, record_count, set_reloc};

/// Puts into `out`, which is a copy of the table of the relocations of a section, the records as they are when the bytes of the section
/// have moved by these runs, and these fields say the offsets that are their values. The fields are in order of their places, before the
/// move, and have 4 or 8 bytes.
#[tactic(auto, using(crate::proofs::RecordMoveLaws::table_rules))]
pub fn move_records(source: &RelocSource, runs: &[Run], fields: &[Patch], out: &mut [u8])
    requires start { out.old ≡ source.now.table }
    requires runs { RunsRise runs.now }
    requires fields { FieldsRise fields.now }
    requires sized { AllSized fields.now }
    requires places { PlacesFit source.now runs.now }
    ensures moved { out.new ≡ moved_table source.now runs.now fields.now }
{
    let mut near = 0;
    for index in 0..record_count(source) {
        near = move_record(source, runs, fields, near, index, out);
    }
}

/// Puts in the record of a number, and gives a field near its place: records mostly stand in the order of their places, so the search of
/// the next one begins there.
#[tactic(auto, using(crate::proofs::RecordMoveLaws::record_rules))]
fn move_record(
    source: &RelocSource,
    runs: &[Run],
    fields: &[Patch],
    near: usize,
    index: u64,
    out: &mut [u8],
) -> usize
    requires there { index < length (records_in source.now) }
    requires long { length out.old ≡ length source.now.table }
    requires runs { RunsRise runs.now }
    requires fields { FieldsRise fields.now }
    requires sized { AllSized fields.now }
    requires places { PlacesFit source.now runs.now }
    requires here { record_at source.now out.old index ≡ record_at source.now source.now.table index }
    ensures step { out.new ≡ record_step source.now runs.now fields.now index (nth_record source.now index) out.old }
    ensures long { length out.new ≡ length source.now.table }
    ensures others { OthersStay source.now index out.old out.new }
{
    match record(source, index) {
        Some(reloc) => {
            if is_none_type(source, reloc.kind) {
                return near;
            }
            put_record(source, runs, fields, near, index, &reloc, out);
            near_behind(fields, near, reloc.offset)
        }
        None => near,
    }
}

/// Puts in the record of a number, which is a relocation. Most of them stand as they are to be, and are left.
#[tactic(auto, using(crate::proofs::RecordMoveLaws::put_rules))]
fn put_record(
    source: &RelocSource,
    runs: &[Run],
    fields: &[Patch],
    near: usize,
    index: u64,
    reloc: &Reloc,
    out: &mut [u8],
)
    requires there { index < length (records_in source.now) }
    requires long { length out.old ≡ length source.now.table }
    requires runs { RunsRise runs.now }
    requires fields { FieldsRise fields.now }
    requires sized { AllSized fields.now }
    requires place { place_by runs.now reloc.now.offset < 256 ^ word_size source.now.class }
    requires fits { IfSome reloc.now.addend (FitsSigned (word_width source.now.class)) }
    requires here { record_at source.now out.old index ≡ Some reloc.now }
    ensures put { out.new ≡ with_reloc source.now.class source.now.order source.now.rela out.old index (place_by runs.now reloc.now.offset) (addend_after source.now fields.now reloc.now) }
    ensures long { length out.new ≡ length source.now.table }
    ensures others { OthersStay source.now index out.old out.new }
{
    let place = place_by(runs, reloc.offset);
    let addend = addend_after(source, fields, near, reloc);
    if has_both(reloc, place, addend) {
        return;
    }
    let _put = set_reloc(
        source.class,
        source.order,
        source.rela,
        out,
        index,
        place,
        addend,
    );
}

/// Whether a record has this place and this addend.
fn has_both(reloc: &Reloc, place: u64, addend: Option<i64>) -> bool
    ensures both { IsTrue result ↔ ((reloc.now.offset ≡ place) × (reloc.now.addend ≡ addend)) }
{
    reloc.offset == place && reloc.addend == addend
}

/// The addend of a record when the fields say their offsets.
#[tactic(auto, using(crate::proofs::RecordMoveLaws::addend_rules))]
fn addend_after(source: &RelocSource, fields: &[Patch], near: usize, reloc: &Reloc) -> Option<i64>
    requires fields { FieldsRise fields.now }
    requires sized { AllSized fields.now }
    requires fits { IfSome reloc.now.addend (FitsSigned (word_width source.now.class)) }
    ensures addend { result ≡ addend_after source.now fields.now reloc.now }
    ensures fits { IfSome result (FitsSigned (word_width source.now.class)) }
{
    match patch_for(fields, near, reloc.offset) {
        Some(field) => offset_addend(source, reloc, field.size, field.value),
        None => reloc.addend,
    }
}

/// The number of a field near the places behind one.
fn near_behind(fields: &[Patch], near: usize, place: u64) -> usize {
    if near < fields.len() && fields[near].at <= place {
        return near + 1;
    }
    near
}

/// The field at a place. `None` exactly where there is none.
#[tactic(auto, using(crate::proofs::RecordMoveLaws::field_rules))]
fn patch_for(fields: &[Patch], near: usize, place: u64) -> Option<Patch>
    requires fields { FieldsRise fields.now }
    ensures field { result ≡ patch_for fields.now place }
{
    match field_near(fields, near, place) {
        Ok(at) => Some(fields[at]),
        Err(_) => None,
    }
}

/// The same as `field_at`, by two comparisons where the one of a number begins there, or would stand in front of it.
#[tactic(auto, using(crate::proofs::RecordMoveLaws::near_rules))]
fn field_near(fields: &[Patch], near: usize, place: u64) -> Result<usize, usize>
    requires rise { FieldsRise fields.now }
    ensures found { IfOk result (HasKey field_start fields.now place) }
    ensures absent { IfErr result (IsGap field_start fields.now place) }
{
    if near >= fields.len() || fields[near].at < place {
        return field_at(fields, place);
    }
    if fields[near].at == place {
        return Ok(near);
    }
    if near > 0 && fields[near - 1].at >= place {
        return field_at(fields, place);
    }
    Err(near)
}

/// Which field begins at a place, or where it would stand.
fn field_at(fields: &[Patch], place: u64) -> Result<usize, usize>
    requires rise { FieldsRise fields.now }
    ensures found { IfOk result (HasKey field_start fields.now place) }
    ensures absent { IfErr result (IsGap field_start fields.now place) }
{
    fields.binary_search_by_key(&place, |f| f.at)
}
