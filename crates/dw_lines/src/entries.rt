//! The directories and files of version 5 (DWARF 5, 6.2.4): each is one value for each column of the format.
//!
//! This file promises: the entries that are given stand at the place, and each of their texts is there; all texts that
//! stand in them are given, in their order; they are refused as the definition says: at the table where a value passes
//! its end or an entry has no path, at an offset that names no text, and where a relocation doesn't let an offset be read.

ghost use Rattle.std.specs.Prelude.{◌≡◌, ◌+◌, ◌≤◌, ◌<◌, ◌++◌, None, Some, Ok, Err, length, take, IfOk, IfErr, OnOk};
ghost use Rattle.dw_base.specs.FileViews.{section_bytes};
ghost use Rattle.dw_lines.specs.ViewSources.{view_source};
ghost use Rattle.dw_base.specs.Refusals.{Blames};
ghost use Rattle.dw_base.specs.Lebs.{uleb_at};
ghost use Rattle.dw_base.specs.TableTexts.{column_text, column_texts, entry_texts, list_texts, takes_path, texts_counted};
ghost use Rattle.dw_base.specs.LineEntries.{counted_entries, first_of, bad_table, column_at, columns, entries_at, entries_behind, entry_at, file_of, next_column, with_column};

use crate::columns::{bad_table, column_at};
use crate::formats::format_at;
use dw_base::line_numbers::{DW_LNCT_directory_index, DW_LNCT_path};
use dw_base::line_tables::{Column, Entry};
use dw_base::{Fault, FilePlace, LineHeader, LineText, Spec, TextPlace, uleb_at};
use dw_view::View;
use std::alloc::{AllocError, Global};

/// The first of two texts that is there.
fn first_text(text: Option<TextPlace>, next: Option<TextPlace>) -> Option<TextPlace>
    ensures first { result ≡ first_of text next }
{
    match text {
        Some(text) => Some(text),
        None => next,
    }
}

/// The first of two numbers that is there.
fn first_number(number: Option<u64>, next: u64) -> Option<u64>
    ensures first { result ≡ first_of number (Some next) }
{
    match number {
        Some(number) => Some(number),
        None => Some(next),
    }
}

/// An entry with one more column: the first path is its text, and the first number of a directory its
/// directory.
fn with_column(spec: &Spec, entry: &Entry, column: &Column) -> Entry
    ensures entry { result ≡ with_column spec.now entry.now column.now }
{
    let text = if spec.name == DW_LNCT_path {
        first_text(entry.text, column.text)
    } else {
        entry.text
    };
    let dir = if spec.name == DW_LNCT_directory_index {
        first_number(entry.dir, column.number)
    } else {
        entry.dir
    };
    Entry {
        text,
        dir,
        next: column.next,
    }
}

/// A text of a column is the path of its entry: the column is one of paths, and the entry has none yet.
fn takes_path(spec: &Spec, entry: &Entry) -> bool
    ensures path { result ≡ takes_path spec.now entry.now }
{
    match entry.text {
        Some(_) => false,
        None => spec.name == DW_LNCT_path,
    }
}

/// Appends the text of a column behind what was read of its entry.
#[tactic(auto, using(crate::proofs::EntryTextLaws::text_laws))]
fn push_text(
    spec: &Spec,
    entry: &Entry,
    text: Option<TextPlace>,
    texts: &mut Vec<LineText>,
) -> Result<(), AllocError>
    ensures texts { OnOk result (texts.new.items ≡ texts.old.items ++ column_text spec.now entry.now text) }
{
    if let Some(place) = text {
        texts.push(LineText {
            place,
            path: takes_path(spec, entry),
        })?;
    }
    Ok(())
}

/// An entry with the value of one more column, whose text is appended.
#[tactic(auto, using(crate::proofs::EntryTextLaws::next_laws))]
fn next_column(
    view: &View,
    section: u32,
    header: &LineHeader,
    table: &[u8],
    spec: &Spec,
    entry: &Entry,
    texts: &mut Vec<LineText>,
) -> Result<Entry, Fault>
    requires there { section < length view.now.sections }
    requires within { length table.now ≤ length (section_bytes view.now section) }
    ensures entry { IfOk result (λ e. next_column (view_source view.now section) header.now table.now spec.now entry.now ≡ Ok e) }
    ensures texts { OnOk result (texts.new.items ≡ texts.old.items ++ column_texts spec.now entry.now (column_at (view_source view.now section) header.now table.now spec.now entry.now.next)) }
    ensures refused { IfErr result (Blames (λ r. next_column (view_source view.now section) header.now table.now spec.now entry.now ≡ Err r)) }
{
    let column = match column_at(view, section, header, table, spec, entry.next) {
        Ok(column) => column,
        Err(refusal) => return Err(Fault::Refused(refusal)),
    };
    push_text(spec, entry, column.text, texts)?;
    Ok(with_column(spec, entry, &column))
}

/// The values of all columns of an entry at a place; its texts are appended.
#[tactic(auto, using(crate::proofs::EntryTextLaws::column_laws))]
fn columns(
    view: &View,
    section: u32,
    header: &LineHeader,
    table: &[u8],
    specs: &[Spec],
    place: u64,
    texts: &mut Vec<LineText>,
) -> Result<Entry, Fault>
    requires there { section < length view.now.sections }
    requires within { length table.now ≤ length (section_bytes view.now section) }
    ensures entry { IfOk result (λ e. columns (view_source view.now section) header.now table.now specs.now (record { text = None; dir = None; next = place }) ≡ Ok e) }
    ensures texts { OnOk result (texts.new.items ≡ texts.old.items ++ entry_texts (view_source view.now section) header.now table.now specs.now (record { text = None; dir = None; next = place })) }
    ensures refused { IfErr result (Blames (λ r. columns (view_source view.now section) header.now table.now specs.now (record { text = None; dir = None; next = place }) ≡ Err r)) }
{
    let mut entry = Entry {
        text: None,
        dir: None,
        next: place,
    };
    for spec in specs {
        entry = next_column(view, section, header, table, spec, &entry, texts)?;
    }
    Ok(entry)
}

/// The entry at a place, and the place behind it; its texts are appended. Refused as its columns are, or at the table
/// where it has no path.
#[tactic(auto, using(crate::proofs::EntryTextLaws::file_laws))]
pub(crate) fn entry_at(
    view: &View,
    section: u32,
    header: &LineHeader,
    table: &[u8],
    specs: &[Spec],
    place: u64,
    texts: &mut Vec<LineText>,
) -> Result<(FilePlace, u64), Fault>
    requires there { section < length view.now.sections }
    requires within { length table.now ≤ length (section_bytes view.now section) }
    ensures entry { IfOk result (λ f. entry_at (view_source view.now section) header.now table.now specs.now place ≡ Ok (f.0, f.1)) }
    ensures texts { OnOk result (texts.new.items ≡ texts.old.items ++ entry_texts (view_source view.now section) header.now table.now specs.now (record { text = None; dir = None; next = place })) }
    ensures refused { IfErr result (Blames (λ r. entry_at (view_source view.now section) header.now table.now specs.now place ≡ Err r)) }
{
    let entry = match columns(view, section, header, table, specs, place, texts) {
        Ok(entry) => entry,
        Err(fault) => return Err(fault),
    };
    match entry.text {
        Some(text) => Ok((
            FilePlace {
                text,
                dir: entry.dir.unwrap_or(0),
            },
            entry.next,
        )),
        None => Err(Fault::Refused(bad_table(section, header))),
    }
}

/// The entries behind a format, by their count; their texts are appended.
#[tactic(auto, using(crate::proofs::EntryLaws::entry_laws, crate::proofs::EntryTextLaws::entries_laws))]
fn counted_entries(
    alloc: Global,
    view: &View,
    section: u32,
    header: &LineHeader,
    table: &[u8],
    specs: &[Spec],
    place: u64,
    texts: &mut Vec<LineText>,
) -> Result<(Vec<FilePlace>, u64), Fault>
    requires there { section < length view.now.sections }
    requires within { length table.now ≤ length (section_bytes view.now section) }
    ensures read { IfOk result (λ f. counted_entries (view_source view.now section) header.now table.now specs.now place (uleb_at table.now place) ≡ Ok (f.0.items, f.1)) }
    ensures texts { OnOk result (texts.new.items ≡ texts.old.items ++ texts_counted (view_source view.now section) header.now table.now specs.now place (uleb_at table.now place)) }
    ensures refused { IfErr result (Blames (λ r. counted_entries (view_source view.now section) header.now table.now specs.now place (uleb_at table.now place) ≡ Err r)) }
{
    let Some((count, size)) = uleb_at(table, place) else {
        return Err(Fault::Refused(bad_table(section, header)));
    };
    let mut files = Vec::new(alloc);
    let mut left = count;
    let mut next = place + size;
    'entries: while left > 0 {
        let (file, behind) = match entry_at(view, section, header, table, specs, next, texts) {
            Ok(entry) => entry,
            Err(fault) => return Err(fault),
        };
        files.push(file)?;
        next = behind;
        left -= 1;
    }
    Ok((files, next))
}

/// The entries from a place on: their format, their count, and as many of them; and the place behind them. Their texts
/// are appended.
#[tactic(auto, using(crate::proofs::EntryLaws::list_laws, crate::proofs::EntryTextLaws::formed_laws))]
pub(crate) fn entries_at(
    alloc: Global,
    view: &View,
    section: u32,
    header: &LineHeader,
    table: &[u8],
    place: u64,
    texts: &mut Vec<LineText>,
) -> Result<(Vec<FilePlace>, u64), Fault>
    requires there { section < length view.now.sections }
    requires within { length table.now ≤ length (section_bytes view.now section) }
    ensures read { IfOk result (λ f. entries_at (view_source view.now section) header.now table.now place ≡ Ok (f.0.items, f.1)) }
    ensures texts { OnOk result (texts.new.items ≡ texts.old.items ++ list_texts (view_source view.now section) header.now table.now place) }
    ensures refused { IfErr result (Blames (λ r. entries_at (view_source view.now section) header.now table.now place ≡ Err r)) }
{
    let (specs, next) = format_at(alloc, table, place, bad_table(section, header))?;
    counted_entries(alloc, view, section, header, table, &specs, next, texts)
}
