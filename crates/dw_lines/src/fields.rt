//! Where the offsets of texts stand in the lists of a line table's header, and where the lists end (DWARF 5, 6.2.4).
//!
//! This file promises: the places are those of all offsets of texts in the lists of version 5, in order, of paths and of
//! other columns; before version 5 there are none, since all texts stand inline.
//! Read first: `LineFields` in `dw_base/specs`, then `specs/HeaderFields.antt`.

ghost use Rattle.std.specs.Prelude.{◌≡◌, ◌≢◌, ◌≤◌, ◌<◌, ◌++◌, [], Some, length, take, IsSome, IfOk, IfErr, OnOk, Err};
ghost use Rattle.dw_base.specs.FileViews.{section_bytes};
ghost use Rattle.dw_base.specs.Lebs.{uleb_at};
ghost use Rattle.dw_base.specs.LineEntries.{counted_entries, entries_at};
ghost use Rattle.dw_base.specs.LineFails.{ListsFail};
ghost use Rattle.dw_base.specs.LineFields.{entry_fields, fields_counted, list_fields};
ghost use Rattle.dw_base.specs.LineHeaders.{line_header};
ghost use Rattle.dw_base.specs.LineTables.{IsLineTable};
ghost use Rattle.dw_base.specs.Refusals.{Blames};
ghost use Rattle.dw_base.specs.declared.fault.Fault.TheVariants.{NoMemory};
ghost use Rattle.dw_lines.specs.HeaderFields.{AreHeaderFields, EntriesEnd, HasTable, HeaderHas, ListEnds, ListsEnd, header_fields, offset_places, offsets_at};
ghost use Rattle.dw_lines.specs.ViewSources.{view_source};

use crate::columns::{bad_table, column_at, is_offset_form};
use crate::entries::entry_at;
use crate::formats::format_at;
use crate::table::{LineTable, old_lists};
use crate::written::header_of;
use dw_base::{Fault, LineHeader, Spec, uleb_at};
use dw_view::View;
use std::alloc::{AllocError, Global};

/// Where the offsets of texts stand in the lists of a header, and where the lists end, in bytes from the section's
/// start.
#[derive(Drop)]
pub struct HeaderFields {
    /// The places of the offsets, in order; each is as wide as the offsets of the table.
    pub places: Vec<u64>,
    /// Where the lists end.
    pub behind: u64,
}

/// Appends the place of a column where an offset of a text stands there.
#[tactic(auto, using(crate::proofs::FieldLaws::place_laws))]
fn push_place(spec: &Spec, place: u64, places: &mut Vec<u64>) -> Result<(), AllocError>
    ensures places { OnOk result (places.new.items ≡ places.old.items ++ offset_places spec.now place) }
{
    if is_offset_form(spec.form) {
        places.push(place)?;
    }
    Ok(())
}

/// Appends those of the columns of the entry at a place, up to one that can't be read.
fn push_columns(
    view: &View,
    section: u32,
    header: &LineHeader,
    table: &[u8],
    specs: &[Spec],
    start: u64,
    places: &mut Vec<u64>,
) -> Result<(), AllocError>
    requires there { section < length view.now.sections }
    requires within { length table.now ≤ length (section_bytes view.now section) }
    ensures places { OnOk result (offsets_at header.now.width places.new.items ≡ offsets_at header.now.width places.old.items ++ entry_fields (view_source view.now section) header.now table.now specs.now start) }
{
    let mut place = start;
    for spec in specs {
        push_place(spec, place, places)?;
        match column_at(view, section, header, table, spec, place) {
            Ok(column) => place = column.next,
            Err(_) => return Ok(()),
        }
    }
    Ok(())
}

/// Appends those of the entries behind a format, by their count, and answers the place behind the entries.
#[tactic(auto, using(crate::proofs::FieldLaws::entry_laws, crate::proofs::EntryLaws::entry_laws))]
fn push_entries(
    alloc: Global,
    view: &View,
    section: u32,
    header: &LineHeader,
    table: &[u8],
    specs: &[Spec],
    place: u64,
    places: &mut Vec<u64>,
) -> Result<u64, Fault>
    requires there { section < length view.now.sections }
    requires within { length table.now ≤ length (section_bytes view.now section) }
    ensures places { OnOk result (offsets_at header.now.width places.new.items ≡ offsets_at header.now.width places.old.items ++ fields_counted (view_source view.now section) header.now table.now specs.now place (uleb_at table.now place)) }
    ensures end { IfOk result (EntriesEnd (view_source view.now section) header.now table.now specs.now place) }
    ensures refused { IfErr result (Blames (λ r. counted_entries (view_source view.now section) header.now table.now specs.now place (uleb_at table.now place) ≡ Err r)) }
{
    let Some((count, size)) = uleb_at(table, place) else {
        return Err(Fault::Refused(bad_table(section, header)));
    };
    let mut texts = Vec::new(alloc);
    let mut left = count;
    let mut next = place + size;
    'entries: while left > 0 {
        push_columns(view, section, header, table, specs, next, places)?;
        let (_, behind) = match entry_at(view, section, header, table, specs, next, &mut texts) {
            Ok(entry) => entry,
            Err(fault) => return Err(fault),
        };
        next = behind;
        left -= 1;
    }
    Ok(next)
}

/// Appends those of the list whose format stands at a place, and answers the place behind the list.
#[tactic(auto, using(crate::proofs::FieldLaws::list_laws, crate::proofs::EntryLaws::list_laws))]
fn push_list(
    alloc: Global,
    view: &View,
    section: u32,
    header: &LineHeader,
    table: &[u8],
    place: u64,
    places: &mut Vec<u64>,
) -> Result<u64, Fault>
    requires there { section < length view.now.sections }
    requires within { length table.now ≤ length (section_bytes view.now section) }
    ensures places { OnOk result (offsets_at header.now.width places.new.items ≡ offsets_at header.now.width places.old.items ++ list_fields (view_source view.now section) header.now table.now place) }
    ensures end { IfOk result (ListEnds (view_source view.now section) header.now table.now place) }
    ensures refused { IfErr result (Blames (λ r. entries_at (view_source view.now section) header.now table.now place ≡ Err r)) }
{
    let (specs, next) = format_at(alloc, table, place, bad_table(section, header))?;
    push_entries(alloc, view, section, header, table, &specs, next, places)
}

/// Those of the lists of version 5.
#[tactic(auto, using(crate::proofs::FieldLaws::both_laws))]
fn new_fields(
    alloc: Global,
    view: &View,
    section: u32,
    header: &LineHeader,
    table: &[u8],
) -> Result<HeaderFields, Fault>
    requires there { section < length view.now.sections }
    requires within { length table.now ≤ length (section_bytes view.now section) }
    requires version { header.now.version ≡ 5 }
    ensures fields { IfOk result (λ f. offsets_at header.now.width f.places.items ≡ header_fields (view_source view.now section) header.now table.now) }
    ensures end { IfOk result (λ f. ListsEnd (view_source view.now section) header.now table.now f.behind) }
    ensures refused { IfErr result (Blames (ListsFail (view_source view.now section) header.now table.now)) }
{
    let mut places = Vec::new(alloc);
    let place = match push_list(
        alloc,
        view,
        section,
        header,
        table,
        header.lists,
        &mut places,
    ) {
        Ok(place) => place,
        Err(fault) => return Err(fault),
    };
    let behind = match push_list(alloc, view, section, header, table, place, &mut places) {
        Ok(behind) => behind,
        Err(fault) => return Err(fault),
    };
    Ok(HeaderFields { places, behind })
}

/// Those of the lists of a header.
#[tactic(auto, using(crate::proofs::FieldLaws::both_laws))]
fn lists_fields(
    alloc: Global,
    view: &View,
    section: u32,
    header: &LineHeader,
    table: &[u8],
) -> Result<HeaderFields, Fault>
    requires there { section < length view.now.sections }
    requires within { length table.now ≤ length (section_bytes view.now section) }
    ensures fields { IfOk result (λ f. offsets_at header.now.width f.places.items ≡ header_fields (view_source view.now section) header.now table.now) }
    ensures end { IfOk result (λ f. ListsEnd (view_source view.now section) header.now table.now f.behind) }
    ensures refused { IfErr result (Blames (ListsFail (view_source view.now section) header.now table.now)) }
{
    if header.version == 5 {
        return new_fields(alloc, view, section, header, table);
    }
    let lists = match old_lists(alloc, view, section, header, table) {
        Ok(lists) => lists,
        Err(fault) => return Err(fault),
    };
    Ok(HeaderFields {
        places: Vec::new(alloc),
        behind: lists.behind,
    })
}

/// Those of the header of the table that starts at a place of a section, which has one.
#[tactic(auto, using(crate::proofs::FieldLaws::header_laws))]
fn fields_at(alloc: Global, view: &View, section: u32, start: u64) -> Result<HeaderFields, Fault>
    requires there { section < length view.now.sections }
    requires header { IsSome (line_header view.now.order (section_bytes view.now section) start) }
    requires table { HasTable (view_source view.now section) start }
    ensures fields { IfOk result (λ f. HeaderHas (view_source view.now section) start f.places.items f.behind) }
    ensures only { IfErr result (λ f. f ≡ NoMemory) }
{
    let header = header_of(view, section, start);
    let table = &view.bytes(section)[..header.end as usize];
    match lists_fields(alloc, view, section, &header, table) {
        Ok(fields) => Ok(fields),
        Err(fault) => Err(fault),
    }
}

impl LineTable {
    /// The places of the offsets of texts in the lists of the header, and where the lists end, of a table which was
    /// read of the view.
    pub fn header_fields(&self, alloc: Global, view: &View) -> Result<HeaderFields, Fault>
        requires there { self.now.section < length view.now.sections }
        requires table { IsLineTable (view_source view.now self.now.section) self.now.start self.now }
        ensures fields { IfOk result (λ f. AreHeaderFields (view_source view.now self.now.section) self.now f.places.items f.behind) }
        ensures only { IfErr result (λ f. f ≡ NoMemory) }
    {
        match fields_at(alloc, view, self.section, self.start) {
            Ok(fields) => Ok(fields),
            Err(fault) => Err(fault),
        }
    }
}
