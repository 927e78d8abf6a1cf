//! The relocations of line tables (DWARF 5, 6.2.4): of the offsets of texts in their headers, and of all else there.
//!
//! Read first: `specs/HeaderChecks.antt`, then `specs/LinePasses.antt`.

ghost use Rattle.std.specs.Prelude.{◌≡◌, ◌+◌, ◌<◌, ◌≤◌, ◌^◌, Some, true, is_some, length, IfErr, IfOk, OnOk};
ghost use Rattle.dw_base.specs.DebugSections.{name_of};
ghost use Rattle.dw_base.specs.FileViews.{kind_at, section_bytes, section_named, view_cells};
ghost use Rattle.dw_base.specs.Forms.{width_size};
ghost use Rattle.dw_base.specs.LineTables.{IsLineTable};
ghost use Rattle.dw_base.specs.Refusals.{Blames};
ghost use Rattle.dw_base.specs.RelocationRows.{HeaderFails, HeaderReads, moving_sections};
ghost use Rattle.dw_base.specs.ViewData.{debug_data};
ghost use Rattle.dw_base.specs.declared.debug_sections.DebugSection.TheVariants.{Line};
ghost use Rattle.dw_lines.specs.HeaderFields.{offsets_at};
ghost use Rattle.dw_lines.specs.ViewSources.{view_source};
ghost use Rattle.dw_lines.specs.ViewTables.{TablesFound, TablesUpTo};
ghost use Rattle.dw_relocs.specs.FieldWalks.{Goes, StandsAt, ground_of};
ghost use Rattle.dw_relocs.specs.HeaderChecks.{AreOwn, Climb, IsApart, IsOther, Reaches, Rises};
ghost use Rattle.dw_relocs.specs.LeftChecks.{LinesHold};
ghost use Rattle.dw_relocs.specs.LinePasses.{LinesPassed, LinesRefuse, TablePassed, TableRefuses};
ghost use Rattle.dw_meaning.specs.RelocationFails.{LeftRelocationsFail};

use crate::marks::{Marks, pass_end, pass_offset, pass_start, place_before};
use crate::relocations::next_relocation;
use crate::slots::has_relocations;
use dw_base::{DebugSection, Fault, Kind, Refusal, Width};
use dw_lines::LineTable;
use dw_view::View;
use std::alloc::Global;

/// No relocation that begins in front of a place reaches over it. Refused as `Relocation` exactly where one does, at that.
#[tactic(auto, using(crate::proofs::HeaderCheckLaws::apart_rules))]
fn apart(view: &View, section: u32, start: u64) -> Result<(), Refusal>
    requires there { section < length view.now.sections }
    requires read { is_some (kind_at view.now section) ≡ true }
    requires inside { start < length (section_bytes view.now section) }
    ensures apart { OnOk result (IsApart (view_cells view.now section) start) }
    ensures refused { IfErr result (Reaches section (view_cells view.now section) start) }
{
    match view.field(section, start, 1) {
        Ok(_) => Ok(()),
        Err(refusal) => Err(refusal),
    }
}

/// Between two places relocations begin at none but these, which rise. Refused as `Relocation` exactly where another does, at that.
#[tactic(auto, using(crate::proofs::HeaderCheckLaws::own_rules))]
fn own(view: &View, section: u32, start: u64, places: &[u64], to: u64) -> Result<(), Refusal>
    requires there { section < length view.now.sections }
    requires read { is_some (kind_at view.now section) ≡ true }
    requires climb { Climb start places.now to }
    requires small { to ≤ 2 ^ 31 }
    ensures own { OnOk result (AreOwn (view_cells view.now section) start to places.now) }
    ensures refused { IfErr result (IsOther section (view_cells view.now section) start to places.now) }
{
    let mut from = start;
    for place in places {
        if let Some(p) = place_before(next_relocation(view, section, from), *place) {
            return Err(Refusal::at(Kind::Relocation, section, p));
        }
        from = *place + 1;
    }
    if let Some(p) = place_before(next_relocation(view, section, from), to) {
        return Err(Refusal::at(Kind::Relocation, section, p));
    }
    Ok(())
}

/// In the header of a table relocations begin at offsets of texts alone, and none reaches into it. Refused as `Relocation` exactly
/// where one doesn't, or does, at that.
#[tactic(auto, using(crate::proofs::LinePassLaws::header_rules))]
fn header_fits(
    view: &View,
    section: u32,
    start: u64,
    width: Width,
    places: &[u64],
    behind: u64,
) -> Result<(), Refusal>
    requires there { section < length view.now.sections }
    requires read { is_some (kind_at view.now section) ≡ true }
    requires rise { Rises start (width_size width) places.now behind }
    requires inside { start < length (section_bytes view.now section) }
    requires within { behind ≤ length (section_bytes view.now section) }
    requires small { length (section_bytes view.now section) ≤ 2 ^ 31 }
    ensures fits { OnOk result (HeaderReads start behind (view_cells view.now section) (offsets_at width places.now)) }
    ensures refused { IfErr result (HeaderFails section start behind (view_cells view.now section) (offsets_at width places.now)) }
{
    apart(view, section, start)?;
    own(view, section, start, places, behind)?;
    Ok(())
}

/// A pass over offsets of a width at these places.
#[tactic(auto, using(crate::proofs::LinePassLaws::place_rules))]
fn pass_places(
    view: &View,
    section: u32,
    pass: Result<Marks, Refusal>,
    start: u64,
    width: Width,
    places: &[u64],
    behind: u64,
) -> Result<Marks, Refusal>
    requires there { section < length view.now.sections }
    requires read { is_some (kind_at view.now section) ≡ true }
    requires stands { StandsAt (view_cells view.now section) start pass }
    requires rise { Rises start (width_size width) places.now behind }
    requires within { behind ≤ length (section_bytes view.now section) }
    requires small { length (section_bytes view.now section) ≤ 2 ^ 31 }
    ensures goes { Goes (ground_of view.now section) start behind (offsets_at width places.now) pass result }
{
    let size = width.offset_size();
    let mut now = pass;
    for place in places {
        now = pass_offset(view, section, now, *place, size);
    }
    now
}

/// Where a table starts.
fn start_of(table: &LineTable) -> u64
    ensures { result ≡ table.now.start }
{
    table.start
}

/// How wide its offsets are.
fn width_of(table: &LineTable) -> Width
    ensures { result ≡ table.now.width }
{
    table.width
}

/// A pass over the offsets of a table, where its header is one that may have such relocations. Refused as `Relocation` exactly where it
/// isn't, or for want of memory.
#[tactic(auto, using(crate::proofs::LineTableLaws::table_rules))]
fn pass_table(
    alloc: Global,
    view: &View,
    section: u32,
    pass: Result<Marks, Refusal>,
    table: &LineTable,
) -> Result<Result<Marks, Refusal>, Fault>
    requires there { section < length view.now.sections }
    requires read { is_some (kind_at view.now section) ≡ true }
    requires own { table.now.section ≡ section }
    requires table { IsLineTable (view_source view.now section) table.now.start table.now }
    requires stands { StandsAt (view_cells view.now section) table.now.start pass }
    requires small { length (section_bytes view.now section) ≤ 2 ^ 31 }
    ensures passed { IfOk result (λ q. TablePassed (ground_of view.now section) (view_source view.now section) table.now pass q) }
    ensures refused { IfErr result (Blames (TableRefuses (view_source view.now section) table.now)) }
{
    let fields = table.header_fields(alloc, view)?;
    let start = start_of(table);
    let width = width_of(table);
    let places = fields.places.as_slice();
    header_fits(view, section, start, width, places, fields.behind)?;
    let passed = pass_places(view, section, pass, start, width, places, fields.behind);
    Ok(passed)
}

/// A pass over the tables of a section, which fill it.
#[tactic(auto, using(crate::proofs::LinePassLaws::list_rules))]
fn pass_tables(
    alloc: Global,
    view: &View,
    section: u32,
    pass: Result<Marks, Refusal>,
    tables: &[LineTable],
) -> Result<Result<Marks, Refusal>, Fault>
    requires there { section < length view.now.sections }
    requires read { is_some (kind_at view.now section) ≡ true }
    requires tables { TablesUpTo (view_source view.now section) tables.now (length (section_bytes view.now section)) }
    requires stands { StandsAt (view_cells view.now section) 0 pass }
    requires small { length (section_bytes view.now section) ≤ 2 ^ 31 }
    ensures passed { IfOk result (λ q. LinesPassed (ground_of view.now section) (view_source view.now section) pass q) }
    ensures refused { IfErr result (Blames (LinesRefuse (view_source view.now section))) }
{
    let mut now = pass;
    for table in tables {
        now = pass_table(alloc, view, section, now, table)?;
    }
    Ok(now)
}

/// The relocations of `.debug_line` are ones that may stand there, where these are its tables. Refused as `Relocation` exactly where
/// one isn't, at that relocation, or for want of memory.
#[tactic(auto, using(crate::proofs::LineCheckLaws::check_rules))]
pub(crate) fn check_lines(alloc: Global, view: &View, tables: &[LineTable]) -> Result<(), Fault>
    requires tables { TablesFound view.now tables.now }
    ensures holds { OnOk result (LinesHold (debug_data view.now) (moving_sections view.now)) }
    ensures refused { IfErr result (Blames (LeftRelocationsFail (debug_data view.now) (moving_sections view.now))) }
{
    match view.first(DebugSection::Line) {
        Some(section) => lines_in(alloc, view, section, tables),
        None => Ok(()),
    }
}

/// The same of the section of a number.
#[tactic(auto, using(crate::proofs::LineCheckLaws::line_rules))]
fn lines_in(alloc: Global, view: &View, section: u32, tables: &[LineTable]) -> Result<(), Fault>
    requires there { section < length view.now.sections }
    requires named { Some section ≡ section_named view.now (name_of Line) }
    requires tables { TablesFound view.now tables.now }
    ensures holds { OnOk result (LinesHold (debug_data view.now) (moving_sections view.now)) }
    ensures refused { IfErr result (Blames (LeftRelocationsFail (debug_data view.now) (moving_sections view.now))) }
{
    if !has_relocations(view, section) {
        return Ok(());
    }
    let end = view.bytes(section).len() as u64;
    let start = pass_start(view, section);
    let pass = pass_tables(alloc, view, section, start, tables)?;
    pass_end(view, section, pass, end)?;
    Ok(())
}
