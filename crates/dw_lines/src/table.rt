//! A line table (DWARF 5, 6.2.4).

ghost use Rattle.std.specs.Prelude.{◌≡◌, ◌≢◌, ◌+◌, ◌-◌, ◌≤◌, ◌<◌, ◌^◌, ◌++◌, length, IfOk, IfErr, OnOk};
ghost use Rattle.dw_base.specs.FileViews.{section_bytes};
ghost use Rattle.dw_lines.specs.ViewSources.{view_source};
ghost use Rattle.dw_base.specs.Refusals.{Blames};
ghost use Rattle.dw_base.specs.declared.fault.Refusal.{Refusal as RefusalOf};
ghost use Rattle.dw_base.specs.LineTables.{HasLists, IsLineTable, LineTable as LineTableOf, table_made, texts_of};
ghost use Rattle.dw_base.specs.TableTexts.{as_paths, texts_by};
ghost use Rattle.dw_base.specs.LineFails.{LineFails, ListsFail};

use crate::columns::bad_table;
use crate::entries::entries_at;
use crate::header::line_header;
use crate::old_lists::{old_dirs, old_files};
use crate::program::defined_files;
use dw_base::{Fault, FilePlace, Kind, LineHeader, LineText, Refusal, TextPlace, Width};
use dw_view::View;
use std::alloc::{AllocError, Global};
use std::marker::Model;

/// A line table, with all places in bytes from its section's start.
#[derive(Drop, Debug)]
pub struct LineTable {
    /// The number of its section.
    pub section: u32,
    /// Where it starts.
    pub start: u64,
    /// Where it ends.
    pub end: u64,
    /// Its version, 2 to 5.
    pub version: u16,
    /// How wide its offsets are.
    pub width: Width,
    /// The size of an address, in bytes; 0 before version 5, which has none.
    pub address: u8,
    /// The size of the smallest instruction, in bytes.
    pub min_length: u8,
    /// How many operations an instruction has at most; 1 before version 4.
    pub max_ops: u8,
    /// Whether rows begin statements at first.
    pub default_stmt: bool,
    /// The smallest line advance of a special opcode.
    pub line_base: i8,
    /// How many line advances special opcodes have.
    pub line_range: u8,
    /// The first special opcode.
    pub opcode_base: u8,
    /// Where the program starts.
    pub program: u64,
    /// The directories of the header, in order.
    pub dirs: Vec<TextPlace>,
    /// The files of the header, in order.
    pub files: Vec<FilePlace>,
    /// The files that the program defines, in the order of their places.
    pub defined: Vec<FilePlace>,
    /// All texts of the directories and the files of the header, in the order of their places.
    pub texts: Vec<LineText>,
}

impl Model for LineTable {
    ghost Value = { LineTableOf };

    ghost view = { λ t. record { section = t.section; start = t.start; end = t.end; version = t.version; width = t.width; address = t.address; min_length = t.min_length; max_ops = t.max_ops; default_stmt = t.default_stmt; line_base = t.line_base; line_range = t.line_range; opcode_base = t.opcode_base; program = t.program; dirs = t.dirs.items; files = t.files.items; defined = t.defined.items; texts = t.texts.items } };
}

/// The directories and files of a header, all their texts, and the place behind them.
#[derive(Drop)]
pub(crate) struct Lists {
    pub(crate) dirs: Vec<TextPlace>,
    pub(crate) files: Vec<FilePlace>,
    pub(crate) texts: Vec<LineText>,
    pub(crate) behind: u64,
}

/// The texts of entries.
fn texts_of(alloc: Global, files: &[FilePlace]) -> Result<Vec<TextPlace>, AllocError>
    ensures texts { IfOk result (λ texts. texts.items ≡ texts_of files.now) }
{
    let mut texts = Vec::new(alloc);
    for file in files {
        texts.push(file.text)?;
    }
    Ok(texts)
}

/// Paths as texts.
fn as_paths(alloc: Global, paths: &[TextPlace]) -> Result<Vec<LineText>, AllocError>
    ensures texts { IfOk result (λ texts. texts.items ≡ as_paths paths.now) }
{
    let mut texts = Vec::new(alloc);
    for place in paths {
        texts.push(LineText {
            place: *place,
            path: true,
        })?;
    }
    Ok(texts)
}

/// The lists of version 5.
#[tactic(auto, using(crate::proofs::TableLaws::new_laws))]
fn new_lists(
    alloc: Global,
    view: &View,
    section: u32,
    header: &LineHeader,
    table: &[u8],
) -> Result<Lists, Fault>
    requires there { section < length view.now.sections }
    requires within { length table.now ≤ length (section_bytes view.now section) }
    requires version { header.now.version ≡ 5 }
    ensures read { IfOk result (λ l. HasLists (view_source view.now section) header.now table.now l.dirs.items l.files.items l.behind) }
    ensures texts { IfOk result (λ l. l.texts.items ≡ texts_by (view_source view.now section) header.now table.now (l.dirs.items ++ texts_of l.files.items)) }
    ensures refused { IfErr result (Blames (ListsFail (view_source view.now section) header.now table.now)) }
{
    let mut texts = Vec::new(alloc);
    let (dirs, place) = match entries_at(
        alloc,
        view,
        section,
        header,
        table,
        header.lists,
        &mut texts,
    ) {
        Ok(read) => read,
        Err(fault) => return Err(fault),
    };
    let (files, behind) = match entries_at(alloc, view, section, header, table, place, &mut texts) {
        Ok(read) => read,
        Err(fault) => return Err(fault),
    };
    let dirs = texts_of(alloc, &dirs)?;
    Ok(Lists {
        dirs,
        files,
        texts,
        behind,
    })
}

/// The paths of a header: of its directories, then of its files.
fn paths_of(
    alloc: Global,
    dirs: &[TextPlace],
    files: &[FilePlace],
) -> Result<Vec<TextPlace>, AllocError>
    ensures paths { IfOk result (λ paths. paths.items ≡ dirs.now ++ texts_of files.now) }
{
    let mut paths = Vec::from_slice(alloc, dirs)?;
    for file in files {
        paths.push(file.text)?;
    }
    Ok(paths)
}

/// The lists before version 5.
#[tactic(auto, using(crate::proofs::TableLaws::old_laws))]
pub(crate) fn old_lists(
    alloc: Global,
    view: &View,
    section: u32,
    header: &LineHeader,
    table: &[u8],
) -> Result<Lists, Fault>
    requires version { header.now.version ≢ 5 }
    ensures read { IfOk result (λ l. HasLists (view_source view.now section) header.now table.now l.dirs.items l.files.items l.behind) }
    ensures texts { IfOk result (λ l. l.texts.items ≡ texts_by (view_source view.now section) header.now table.now (l.dirs.items ++ texts_of l.files.items)) }
    ensures refused { IfErr result (Blames (ListsFail (view_source view.now section) header.now table.now)) }
{
    let refusal = bad_table(section, header);
    let (dirs, place) = match old_dirs(alloc, section, table, header.lists, refusal) {
        Ok(read) => read,
        Err(fault) => return Err(fault),
    };
    let (files, behind) = match old_files(alloc, section, table, place, refusal) {
        Ok(read) => read,
        Err(fault) => return Err(fault),
    };
    let paths = paths_of(alloc, &dirs, &files)?;
    let texts = as_paths(alloc, &paths)?;
    Ok(Lists {
        dirs,
        files,
        texts,
        behind,
    })
}

/// The lists of a header.
fn lists_at(
    alloc: Global,
    view: &View,
    section: u32,
    header: &LineHeader,
    table: &[u8],
) -> Result<Lists, Fault>
    requires there { section < length view.now.sections }
    requires within { length table.now ≤ length (section_bytes view.now section) }
    ensures read { IfOk result (λ l. HasLists (view_source view.now section) header.now table.now l.dirs.items l.files.items l.behind) }
    ensures texts { IfOk result (λ l. l.texts.items ≡ texts_by (view_source view.now section) header.now table.now (l.dirs.items ++ texts_of l.files.items)) }
    ensures refused { IfErr result (Blames (ListsFail (view_source view.now section) header.now table.now)) }
{
    if header.version == 5 {
        return new_lists(alloc, view, section, header, table);
    }
    old_lists(alloc, view, section, header, table)
}

/// The table of a header, with its lists and their texts.
fn table_made(section: u32, header: &LineHeader, lists: Lists, defined: Vec<FilePlace>) -> LineTable
    ensures table { result ≡ table_made section header.now lists.dirs.items lists.files.items defined.items lists.texts.items }
{
    let Lists {
        dirs,
        files,
        texts,
        ..
    } = lists;
    LineTable {
        section,
        start: header.start,
        end: header.end,
        version: header.version,
        width: header.width,
        address: header.address,
        min_length: header.min_length,
        max_ops: header.max_ops,
        default_stmt: header.default_stmt,
        line_base: header.line_base,
        line_range: header.line_range,
        opcode_base: header.opcode_base,
        program: header.program,
        dirs,
        files,
        defined,
        texts,
    }
}

impl LineTable {
    /// The table that starts at a place of the section of a number, in bytes from the section's start.
    /// Refused exactly where none can be read: as `Line` at the table, where its header, its lists or its
    /// program don't fit; as `StringOffset` at an offset in its header that names no text; as `Relocation` where, in a
    /// section that is read, a relocation lies on such an offset only in part, at that relocation, and where one gives
    /// it no place, at the offset.
    #[tactic(auto, using(crate::proofs::TableLaws::table_laws))]
    pub fn read(alloc: Global, view: &View, section: u32, at: u64) -> Result<LineTable, Fault>
        requires there { section < length view.now.sections }
        ensures read { IfOk result (IsLineTable (view_source view.now section) at) }
        ensures section { IfOk result (λ t. t.section ≡ section) }
        ensures start { IfOk result (λ t. t.start ≡ at) }
        ensures after { IfOk result (λ t. at < t.end) }
        ensures within { IfOk result (λ t. t.end ≤ length (section_bytes view.now section)) }
        ensures none { OnOk result ((r : RefusalOf) → LineFails (view_source view.now section) at r → ⊥) }
        ensures refused { IfErr result (Blames (LineFails (view_source view.now section) at)) }
    {
        let bytes = view.bytes(section);
        let Some(header) = line_header(view.order(), bytes, at) else {
            return Err(Fault::Refused(Refusal::at(Kind::Line, section, at)));
        };
        let table = &bytes[..header.end as usize];
        let lists = match lists_at(alloc, view, section, &header, table) {
            Ok(lists) => lists,
            Err(fault) => return Err(fault),
        };
        if lists.behind > header.program {
            return Err(Fault::Refused(Refusal::at(Kind::Line, section, at)));
        }
        let refusal = Refusal::at(Kind::Line, section, at);
        let defined = match defined_files(alloc, section, &header, table, refusal) {
            Ok(defined) => defined,
            Err(fault) => return Err(fault),
        };
        Ok(table_made(section, &header, lists, defined))
    }
}
