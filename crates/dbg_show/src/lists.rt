//! The lists of a line table, and the files of its rows.

ghost use Rattle.std.specs.Prelude.{◌≡◌, ◌++◌, OnOk, option_map};
ghost use Rattle.std.specs.String.{string_bytes};
ghost use Rattle.dw_base.specs.LineMeanings.{dir_numbered, dir_texts, file_numbered, file_text, item_at, named, place_text, shown_in, unnamed};
ghost use Rattle.dbg_show.specs.Rows.{row_text, shown_text};
ghost use Rattle.dbg_show.specs.TableLists.{TableLists as TableListsOf, all_files, listed_file, listed_row};

use crate::quoting::push_quoted;
use crate::row_texts::{push_back, push_front};
use crate::source::LineSource;
use dw_base::{FilePlace, Row, TextPlace};
use std::alloc::AllocError;
use std::marker::Model;

/// What the texts of a table stand in, its version, the directories and files of its header, and the files that its
/// program defines.
#[derive(Drop)]
pub(crate) struct TableLists<'t> {
    pub source: &'t LineSource<'t>,
    pub version: u16,
    pub dirs: &'t [TextPlace],
    pub files: &'t [FilePlace],
    pub defined: &'t [FilePlace],
}

impl<'t> Model for TableLists<'t> {
    ghost Value = { TableListsOf };

    ghost view = { λ t. record { source = t.source.now; version = t.version; dirs = t.dirs.now; files = t.files.now; defined = t.defined.now } };
}

impl<'t> TableLists<'t> {
    /// The file of a number, from 0.
    #[tactic(auto, using(crate::proofs::ListLaws::item_laws))]
    fn nth_file(&self, index: u64) -> Option<FilePlace>
        ensures file { option_map (file_text self.now.source) result ≡ item_at (all_files self.now) index }
    {
        let count = self.files.len() as u64;
        if index < count {
            return Some(self.files[index as usize]);
        }
        let rest = index - count;
        if rest < self.defined.len() as u64 {
            return Some(self.defined[rest as usize]);
        }
        None
    }

    /// The file of a number. Version 5 counts from 0, those before from 1.
    fn file(&self, number: u64) -> Option<FilePlace>
        ensures file { option_map (file_text self.now.source) result ≡ file_numbered self.now.version (all_files self.now) number }
    {
        if self.version == 5 {
            return self.nth_file(number);
        }
        if number == 0 {
            return None;
        }
        self.nth_file(number - 1)
    }

    /// The text of a directory of a number, from 0.
    #[tactic(auto, using(crate::proofs::ListLaws::item_laws))]
    fn nth_dir(&self, index: u64) -> Option<&'t [u8]>
        ensures text { option_map (λ s. s.now) result ≡ item_at (dir_texts self.now.source self.now.dirs) index }
    {
        if index < self.dirs.len() as u64 {
            return Some(self.source.text(&self.dirs[index as usize]));
        }
        None
    }

    /// The text of a directory of a number. Version 5 counts from 0; before, directories count from 1, and 0 is the
    /// empty text.
    fn dir(&self, number: u64) -> Option<&'t [u8]>
        ensures text { option_map (λ s. s.now) result ≡ dir_numbered self.now.version (dir_texts self.now.source self.now.dirs) number }
    {
        if self.version == 5 {
            return self.nth_dir(number);
        }
        if number == 0 {
            return Some(&[]);
        }
        self.nth_dir(number - 1)
    }
}

/// Appends the number of a file that isn't listed.
#[tactic(auto, unfolding(crate::specs::Rows::shown_text))]
fn push_unnamed(text: &mut String, number: u64) -> Result<(), AllocError>
    ensures text { OnOk result (string_bytes text.new ≡ string_bytes text.old ++ shown_text (unnamed number)) }
{
    write!(text, "#{number}")
}

/// Appends the texts of a directory and of a file.
#[tactic(auto, using(crate::proofs::RowTextLaws::piece_laws), unfolding(crate::specs::Rows::shown_text))]
fn push_named(text: &mut String, dir: &[u8], path: &[u8]) -> Result<(), AllocError>
    ensures text { OnOk result (string_bytes text.new ≡ string_bytes text.old ++ shown_text (named dir.now path.now)) }
{
    push_quoted(text, dir)?;
    push_str(text, " ")?;
    push_quoted(text, path)
}

/// Appends a text as it is.
fn push_str(text: &mut String, piece: &str) -> Result<(), AllocError>
    ensures text { OnOk result (string_bytes text.new ≡ string_bytes text.old ++ piece.now) }
{
    text.push_str(piece)
}

/// Appends what a row shows of a file that is listed under a number.
#[tactic(auto, using(crate::proofs::ListLaws::shown_laws))]
fn push_listed(
    text: &mut String,
    lists: &TableLists,
    number: u64,
    file: &FilePlace,
) -> Result<(), AllocError>
    ensures text { OnOk result (string_bytes text.new ≡ string_bytes text.old ++ shown_text (shown_in number (place_text lists.now.source file.now.text) (dir_numbered lists.now.version (dir_texts lists.now.source lists.now.dirs) file.now.dir))) }
{
    match lists.dir(file.dir) {
        Some(dir) => push_named(text, dir, lists.source.text(&file.text)),
        None => push_unnamed(text, number),
    }
}

/// Appends what a row shows of its file.
#[tactic(auto, using(crate::proofs::ListLaws::shown_laws), unfolding(crate::specs::TableLists::listed_file))]
fn push_shown(text: &mut String, lists: &TableLists, number: u64) -> Result<(), AllocError>
    ensures text { OnOk result (string_bytes text.new ≡ string_bytes text.old ++ shown_text (listed_file lists.now number)) }
{
    match lists.file(number) {
        Some(file) => push_listed(text, lists, number, &file),
        None => push_unnamed(text, number),
    }
}

/// Appends the line of a row.
pub(crate) fn push_row(text: &mut String, lists: &TableLists, row: &Row) -> Result<(), AllocError>
    ensures text { OnOk result (string_bytes text.new ≡ string_bytes text.old ++ row_text (listed_row lists.now row.now)) }
{
    push_front(text, row)?;
    push_shown(text, lists, row.file)?;
    push_back(text, row)
}
