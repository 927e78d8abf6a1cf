//! Offsets that stand one after another: the slots of string offsets (DWARF 5, 7.26), and the string offsets of name tables (6.1.1.4.6).
//!
//! Read first: `specs/FieldRows.antt`.

ghost use Rattle.std.specs.Prelude.{◌≡◌, ◌+◌, ◌*◌, ◌<◌, ◌≤◌, ◌^◌, true, is_some, length};
ghost use Rattle.dw_base.specs.FileViews.{kind_at, section_bytes, view_cells};
ghost use Rattle.dw_base.specs.Forms.{width_size};
ghost use Rattle.dw_base.specs.Slots.{slot_total};
ghost use Rattle.dw_relocs.specs.FieldRows.{ContributionNext, ContributionsFrom, TableNext, TablesFrom, contributions_fields, row_fields, tables_fields};
ghost use Rattle.dw_relocs.specs.FieldWalks.{Goes, StandsAt, ground_of};

use crate::marks::{Marks, pass_offset};
use dw_base::{Contribution, NameTable, Refusal, Width};
use dw_view::View;

/// The place of the offset of a number.
#[tactic(auto, using(crate::proofs::RowLaws::place_rules))]
fn place_in(start: u64, width: Width, i: u64, count: u64) -> u64
    requires below { i < count }
    requires small { start + count * width_size width ≤ 2 ^ 31 }
    ensures place { result ≡ start + i * width_size width }
    ensures inside { result + width_size width ≤ start + count * width_size width }
{
    match width {
        Width::W32 => start + i * 4,
        Width::W64 => start + i * 8,
    }
}

/// A pass over so many offsets of a width.
#[tactic(auto, using(crate::proofs::RowLaws::row_rules))]
pub(crate) fn pass_row(
    view: &View,
    section: u32,
    pass: Result<Marks, Refusal>,
    start: u64,
    width: Width,
    count: u64,
) -> Result<Marks, Refusal>
    requires there { section < length view.now.sections }
    requires read { is_some (kind_at view.now section) ≡ true }
    requires stands { StandsAt (view_cells view.now section) start pass }
    requires inside { start + count * width_size width ≤ length (section_bytes view.now section) }
    requires small { length (section_bytes view.now section) ≤ 2 ^ 31 }
    ensures goes { Goes (ground_of view.now section) start (start + count * width_size width) (row_fields start width count) pass result }
{
    let size = width.offset_size();
    let mut now = pass;
    for i in 0..count {
        let place = place_in(start, width, i, count);
        now = pass_offset(view, section, now, place, size);
    }
    now
}

/// How many slots a contribution has.
#[tactic(auto, unfolding(dw_base::specs::Forms::width_size))]
fn slot_count(item: &Contribution) -> u64
    requires rise { item.now.base ≤ item.now.end }
    ensures { result ≡ slot_total item.now }
{
    match item.width {
        Width::W32 => (item.end - item.base) / 4,
        Width::W64 => (item.end - item.base) / 8,
    }
}

/// A pass over the slots of a contribution.
#[tactic(auto, using(crate::proofs::RowListLaws::contribution_rules))]
fn pass_contribution(
    view: &View,
    section: u32,
    pass: Result<Marks, Refusal>,
    item: &Contribution,
) -> Result<Marks, Refusal>
    requires there { section < length view.now.sections }
    requires read { is_some (kind_at view.now section) ≡ true }
    requires next { ContributionNext (view_cells view.now section) (length (section_bytes view.now section)) item.now pass }
    requires small { length (section_bytes view.now section) ≤ 2 ^ 31 }
    ensures goes { Goes (ground_of view.now section) item.now.base item.now.end (row_fields item.now.base item.now.width (slot_total item.now)) pass result }
{
    let count = slot_count(item);
    pass_row(view, section, pass, item.base, item.width, count)
}

/// A pass over the slots of contributions that fill a section.
#[tactic(auto, using(crate::proofs::RowListLaws::slots_rules))]
pub(crate) fn pass_slots(
    view: &View,
    section: u32,
    pass: Result<Marks, Refusal>,
    list: &[Contribution],
) -> Result<Marks, Refusal>
    requires there { section < length view.now.sections }
    requires read { is_some (kind_at view.now section) ≡ true }
    requires stands { StandsAt (view_cells view.now section) 0 pass }
    requires from { ContributionsFrom (length (section_bytes view.now section)) list.now 0 (length (section_bytes view.now section)) }
    requires small { length (section_bytes view.now section) ≤ 2 ^ 31 }
    ensures goes { Goes (ground_of view.now section) 0 (length (section_bytes view.now section)) (contributions_fields list.now) pass result }
{
    let mut now = pass;
    for item in list {
        now = pass_contribution(view, section, now, item);
    }
    now
}

/// A pass over the string offsets of a name table.
#[tactic(auto, using(crate::proofs::RowListLaws::table_rules))]
fn pass_table(
    view: &View,
    section: u32,
    pass: Result<Marks, Refusal>,
    item: &NameTable,
) -> Result<Marks, Refusal>
    requires there { section < length view.now.sections }
    requires read { is_some (kind_at view.now section) ≡ true }
    requires next { TableNext (view_cells view.now section) (length (section_bytes view.now section)) item.now pass }
    requires small { length (section_bytes view.now section) ≤ 2 ^ 31 }
    ensures goes { Goes (ground_of view.now section) item.now.strings item.now.end (row_fields item.now.strings item.now.width item.now.names) pass result }
{
    pass_row(view, section, pass, item.strings, item.width, item.names)
}

/// A pass over the string offsets of name tables that fill a section.
#[tactic(auto, using(crate::proofs::RowListLaws::names_rules))]
pub(crate) fn pass_names(
    view: &View,
    section: u32,
    pass: Result<Marks, Refusal>,
    list: &[NameTable],
) -> Result<Marks, Refusal>
    requires there { section < length view.now.sections }
    requires read { is_some (kind_at view.now section) ≡ true }
    requires stands { StandsAt (view_cells view.now section) 0 pass }
    requires from { TablesFrom (length (section_bytes view.now section)) list.now 0 (length (section_bytes view.now section)) }
    requires small { length (section_bytes view.now section) ≤ 2 ^ 31 }
    ensures goes { Goes (ground_of view.now section) 0 (length (section_bytes view.now section)) (tables_fields list.now) pass result }
{
    let mut now = pass;
    for item in list {
        now = pass_table(view, section, now, item);
    }
    now
}
