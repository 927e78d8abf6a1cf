//! What values of attributes mean compared, with a map applied to those that are source paths (DWARF 5, 7.5.5).

ghost use Rattle.std.specs.Prelude.{◌≡◌, ◌↔◌, IsTrue};
ghost use Rattle.dw_base.specs.ValueMeanings.{entry_of, macro_number, of_class, raw, signed_number, stray, string, table_number};
ghost use Rattle.dbg_check.specs.Entries.{ValueAgrees};
ghost use Rattle.dbg_check.specs.MeantValues.{CellsStand, MeantStands, cells_meant, form_of, meaning_in, text_agrees};

use crate::cells::{CellPlace, same_cells};
use crate::paths::{is_mapped, is_mapped_inline};
use dw_base::{Field, ValueClass};
use dw_paths::Maps;
use dw_view::View;

/// How a text is held.
#[derive(Clone, Copy, Debug, PartialEq, Eq)]
pub enum TextHold {
    /// It stands in its value.
    Inline,
    /// By an offset into a table of texts.
    ByOffset,
    /// By the slot of a number.
    BySlot(u64),
}

/// So many cells of a section, from a place on.
#[derive(Clone, Copy, Debug, PartialEq, Eq)]
pub struct CellRun {
    /// Where they begin.
    pub place: CellPlace,
    /// How many there are.
    pub len: u64,
}

/// What a value of an attribute means.
#[derive(Debug, Drop)]
pub enum MeantValue<'v> {
    /// A text.
    Text {
        /// Whether it is a source path.
        path: bool,
        /// How it is held.
        hold: TextHold,
        /// Its bytes.
        text: &'v [u8],
    },
    /// An entry.
    Entry {
        /// The number of its unit.
        unit: u64,
        /// Its number in the unit.
        number: u64,
    },
    /// An offset at which no entry and no line table starts.
    Stray(u64),
    /// The line table of a number.
    Lines(u64),
    /// The macro unit of a number.
    Macros(u64),
    /// Cells.
    Cells(CellRun),
    /// A signed number.
    Signed(i64),
    /// A field of a class.
    Field {
        /// Of what it says a number.
        class: ValueClass,
        /// What it reads as.
        field: Field,
    },
}

/// Whether two texts are held in the same way.
fn same_hold(one: TextHold, other: TextHold) -> bool
    ensures value { IsTrue result ↔ (form_of one ≡ form_of other) }
{
    match (one, other) {
        (TextHold::Inline, TextHold::Inline) | (TextHold::ByOffset, TextHold::ByOffset) => true,
        (TextHold::BySlot(slot), TextHold::BySlot(another)) => slot == another,
        _ => false,
    }
}

/// Whether a text that is a source path or not, and is held so, is another with the map applied: one that stands in its value has to fit
/// its room.
fn is_text(maps: &Maps, path: bool, hold: TextHold, old: &[u8], new: &[u8]) -> bool
    ensures value { result ≡ text_agrees maps.now path (form_of hold) old.now new.now }
{
    if !path {
        return old == new;
    }
    match hold {
        TextHold::Inline => is_mapped_inline(maps, old, new),
        TextHold::ByOffset | TextHold::BySlot(_) => is_mapped(maps, old, new),
    }
}

/// Whether two numbers are the same.
pub(crate) fn same_number(one: u64, other: u64) -> bool
    ensures value { IsTrue result ↔ (one ≡ other) }
{
    one == other
}

/// Whether two signed numbers are the same.
fn same_signed(one: i64, other: i64) -> bool
    ensures value { IsTrue result ↔ (one ≡ other) }
{
    one == other
}

/// Whether two classes of values are the same.
fn same_kind(one: ValueClass, other: ValueClass) -> bool
    ensures value { IsTrue result ↔ (one ≡ other) }
{
    one == other
}

/// Whether two fields are the same.
fn same_field(one: Field, other: Field) -> bool
    ensures value { IsTrue result ↔ (one ≡ other) }
{
    match (one, other) {
        (Field::Num(number), Field::Num(another)) => number == another,
        (
            Field::Into { section, offset },
            Field::Into {
                section: number,
                offset: place,
            },
        ) => { section == number && offset == place }
        (
            Field::Sym {
                symbol,
                kind,
                addend,
            },
            Field::Sym {
                symbol: number,
                kind: type_number,
                addend: added,
            },
        ) => symbol == number && kind == type_number && addend == added,
        _ => false,
    }
}

/// Whether a text, held so, is another that is held otherwise or not, with the map applied to a path.
#[tactic(auto, using(crate::proofs::ValueLaws::text_laws))]
fn is_held_text(
    maps: &Maps,
    path: bool,
    holds: (TextHold, TextHold),
    old: &[u8],
    new: &[u8],
) -> bool
    ensures value { IsTrue result ↔ ValueAgrees maps.now (string path (form_of holds.0) old.now) (string path (form_of holds.1) new.now) }
{
    if !same_hold(holds.0, holds.1) {
        return false;
    }
    is_text(maps, path, holds.0, old, new)
}

/// Whether a text, which is a source path or not, agrees with a value.
#[tactic(auto, using(crate::proofs::ValueLaws::path_laws, crate::proofs::ValueLaws::apart_laws))]
fn text_value(
    maps: &Maps,
    new: &View,
    path: bool,
    hold: TextHold,
    text: &[u8],
    other: &MeantValue,
) -> bool
    ensures value { IsTrue result ↔ ValueAgrees maps.now (string path (form_of hold) text.now) (meaning_in new.now other.now) }
{
    match other {
        MeantValue::Text {
            path: is_path,
            hold: way,
            text: bytes,
        } => {
            if path != *is_path {
                return false;
            }
            is_held_text(maps, path, (hold, *way), text, bytes)
        }
        _ => false,
    }
}

/// Whether two entries are the same, by the numbers of their units and in these.
#[tactic(auto, using(crate::proofs::ValueLaws::entry_laws))]
fn same_entry(maps: &Maps, unit: u64, number: u64, other: u64, index: u64) -> bool
    ensures value { IsTrue result ↔ ValueAgrees maps.now (entry_of unit number) (entry_of other index) }
{
    if !same_number(unit, other) {
        return false;
    }
    same_number(number, index)
}

/// Whether an entry agrees with a value.
#[tactic(auto, using(crate::proofs::ValueLaws::apart_laws))]
fn entry_value(maps: &Maps, new: &View, unit: u64, number: u64, other: &MeantValue) -> bool
    ensures value { IsTrue result ↔ ValueAgrees maps.now (entry_of unit number) (meaning_in new.now other.now) }
{
    match other {
        MeantValue::Entry {
            unit: owner,
            number: index,
        } => same_entry(maps, unit, number, *owner, *index),
        _ => false,
    }
}

/// Whether an offset at which no entry and no line table starts agrees with a value.
#[tactic(auto, using(crate::proofs::ValueLaws::told_laws, crate::proofs::ValueLaws::apart_laws))]
fn stray_value(maps: &Maps, new: &View, number: u64, other: &MeantValue) -> bool
    ensures value { IsTrue result ↔ ValueAgrees maps.now (stray number) (meaning_in new.now other.now) }
{
    match other {
        MeantValue::Stray(another) => same_number(number, *another),
        _ => false,
    }
}

/// Whether the line table of a number agrees with a value.
#[tactic(auto, using(crate::proofs::ValueLaws::told_laws, crate::proofs::ValueLaws::apart_laws))]
fn lines_value(maps: &Maps, new: &View, number: u64, other: &MeantValue) -> bool
    ensures value { IsTrue result ↔ ValueAgrees maps.now (table_number number) (meaning_in new.now other.now) }
{
    match other {
        MeantValue::Lines(another) => same_number(number, *another),
        _ => false,
    }
}

/// Whether the macro unit of a number agrees with a value.
#[tactic(auto, using(crate::proofs::ValueLaws::told_laws, crate::proofs::ValueLaws::apart_laws))]
fn macros_value(maps: &Maps, new: &View, number: u64, other: &MeantValue) -> bool
    ensures value { IsTrue result ↔ ValueAgrees maps.now (macro_number number) (meaning_in new.now other.now) }
{
    match other {
        MeantValue::Macros(another) => same_number(number, *another),
        _ => false,
    }
}

/// Whether a signed number agrees with a value.
#[tactic(auto, using(crate::proofs::ValueLaws::told_laws, crate::proofs::ValueLaws::apart_laws))]
fn signed_value(maps: &Maps, new: &View, number: i64, other: &MeantValue) -> bool
    ensures value { IsTrue result ↔ ValueAgrees maps.now (signed_number number) (meaning_in new.now other.now) }
{
    match other {
        MeantValue::Signed(another) => same_signed(number, *another),
        _ => false,
    }
}

/// Whether two runs of cells that stand in two views are the same.
#[tactic(auto, using(crate::proofs::ValueLaws::run_laws))]
fn same_cell_runs(old: &View, new: &View, run: CellRun, other: CellRun) -> bool
    requires stands { CellsStand old.now run }
    requires stands_there { CellsStand new.now other }
    ensures value { IsTrue result ↔ (cells_meant old.now run ≡ cells_meant new.now other) }
{
    if run.len != other.len {
        return false;
    }
    same_cells(old, new, run.place, other.place, run.len)
}

/// Whether cells agree with a value.
#[tactic(auto, using(crate::proofs::ValueLaws::told_laws, crate::proofs::ValueLaws::apart_laws))]
fn cells_value(maps: &Maps, old: &View, new: &View, run: CellRun, other: &MeantValue) -> bool
    requires stands { CellsStand old.now run }
    requires stands_there { MeantStands new.now other.now }
    ensures value { IsTrue result ↔ ValueAgrees maps.now (raw (cells_meant old.now run)) (meaning_in new.now other.now) }
{
    match other {
        MeantValue::Cells(there) => same_cell_runs(old, new, run, *there),
        _ => false,
    }
}

/// Whether two fields are the same, each of a class.
#[tactic(auto, using(crate::proofs::ValueLaws::class_laws))]
fn same_classed(
    maps: &Maps,
    class: ValueClass,
    field: Field,
    other: ValueClass,
    read: Field,
) -> bool
    ensures value { IsTrue result ↔ ValueAgrees maps.now (of_class class field) (of_class other read) }
{
    if !same_kind(class, other) {
        return false;
    }
    same_field(field, read)
}

/// Whether a field of a class agrees with a value.
#[tactic(auto, using(crate::proofs::ValueLaws::apart_laws))]
fn field_value(maps: &Maps, new: &View, class: ValueClass, field: Field, other: &MeantValue) -> bool
    ensures value { IsTrue result ↔ ValueAgrees maps.now (of_class class field) (meaning_in new.now other.now) }
{
    match other {
        MeantValue::Field {
            class: kind,
            field: read,
        } => same_classed(maps, class, field, *kind, *read),
        _ => false,
    }
}

/// Whether what a value of a view means, with the map applied where it is a source path, is what another of another view means; one that stands
/// in its value has to fit its room.
pub fn value_agrees(
    maps: &Maps,
    old: &View,
    new: &View,
    value: &MeantValue,
    other: &MeantValue,
) -> bool
    requires stands { MeantStands old.now value.now }
    requires stands_there { MeantStands new.now other.now }
    ensures value { IsTrue result ↔ ValueAgrees maps.now (meaning_in old.now value.now) (meaning_in new.now other.now) }
{
    match value {
        MeantValue::Text { path, hold, text } => text_value(maps, new, *path, *hold, text, other),
        MeantValue::Entry { unit, number } => entry_value(maps, new, *unit, *number, other),
        MeantValue::Stray(offset) => stray_value(maps, new, *offset, other),
        MeantValue::Lines(number) => lines_value(maps, new, *number, other),
        MeantValue::Macros(number) => macros_value(maps, new, *number, other),
        MeantValue::Cells(run) => cells_value(maps, old, new, *run, other),
        MeantValue::Signed(number) => signed_value(maps, new, *number, other),
        MeantValue::Field { class, field } => field_value(maps, new, *class, *field, other),
    }
}
