//! The lines of a table, one after another, through a buffer to a sink.

ghost use Rattle.std.specs.Prelude.{◌≡◌, ◌≤◌, ◌++◌, IfErr, OnOk};
ghost use Rattle.std.specs.String.{string_bytes};
ghost use Rattle.dw_base.specs.LineMeanings.{dir_texts, file_texts};
ghost use Rattle.dbg_show.specs.LineTexts.{dir_line, dirs_text, file_front, files_text, first_number, path_line, table_line};
ghost use Rattle.dbg_show.specs.Printing.{Cut, Printed};
ghost use Rattle.dbg_show.specs.Rows.{row_text};
ghost use Rattle.dbg_show.specs.TableLists.{listed_row};

use crate::lists::{TableLists, push_row};
use crate::printing::write_full;
use crate::show_err::ShowErr;
use crate::table_texts::{push_dir, push_file, push_table};
use dw_base::Row;
use file_tree::Sink;

/// The number of the first directory and of the first file.
fn first_number(version: u16) -> u64
    ensures number { result ≡ first_number version }
    ensures small { result ≤ 1 }
{
    if version == 5 { 0 } else { 1 }
}

/// Prints the line of a directory.
#[tactic(auto, using(crate::proofs::PrintingLaws::line_laws))]
fn print_dir<O: Sink>(
    text: &mut String,
    out: &mut O,
    number: u64,
    path: &[u8],
) -> Result<(), ShowErr>
    ensures done { OnOk result (Printed (dir_line number path.now) (string_bytes text.old) (O.heard out.old) (O.heard out.new) (string_bytes text.new)) }
    ensures cut { IfErr result (Cut (string_bytes text.old ++ dir_line number path.now) (O.heard out.old) (O.heard out.new)) }
{
    push_dir(text, number, path)?;
    write_full(text, out)
}

/// Prints the lines of directories.
#[tactic(auto, using(crate::proofs::LoopLaws::dir_laws))]
pub(crate) fn print_dirs<O: Sink>(
    text: &mut String,
    out: &mut O,
    lists: &TableLists,
) -> Result<(), ShowErr>
    ensures done { OnOk result (Printed (dirs_text (first_number lists.now.version) (dir_texts lists.now.source lists.now.dirs)) (string_bytes text.old) (O.heard out.old) (O.heard out.new) (string_bytes text.new)) }
    ensures cut { IfErr result (Cut (string_bytes text.old ++ dirs_text (first_number lists.now.version) (dir_texts lists.now.source lists.now.dirs)) (O.heard out.old) (O.heard out.new)) }
{
    let first = first_number(lists.version);
    for (index, dir) in lists.dirs.iter().enumerate() {
        match print_dir(text, out, first + index as u64, lists.source.text(dir)) {
            Ok(()) => {}
            Err(e) => return Err(e),
        }
    }
    Ok(())
}

/// Prints the line of a file.
#[tactic(auto, using(crate::proofs::PrintingLaws::line_laws))]
fn print_file<O: Sink>(
    text: &mut String,
    out: &mut O,
    number: u64,
    dir: u64,
    path: &[u8],
) -> Result<(), ShowErr>
    ensures done { OnOk result (Printed (file_front number dir ++ path_line path.now) (string_bytes text.old) (O.heard out.old) (O.heard out.new) (string_bytes text.new)) }
    ensures cut { IfErr result (Cut (string_bytes text.old ++ (file_front number dir ++ path_line path.now)) (O.heard out.old) (O.heard out.new)) }
{
    push_file(text, number, dir, path)?;
    write_full(text, out)
}

/// Prints the lines of files.
#[tactic(auto, using(crate::proofs::LoopLaws::file_laws))]
pub(crate) fn print_files<O: Sink>(
    text: &mut String,
    out: &mut O,
    lists: &TableLists,
) -> Result<(), ShowErr>
    ensures done { OnOk result (Printed (files_text (first_number lists.now.version) (file_texts lists.now.source lists.now.files)) (string_bytes text.old) (O.heard out.old) (O.heard out.new) (string_bytes text.new)) }
    ensures cut { IfErr result (Cut (string_bytes text.old ++ files_text (first_number lists.now.version) (file_texts lists.now.source lists.now.files)) (O.heard out.old) (O.heard out.new)) }
{
    let first = first_number(lists.version);
    for (index, file) in lists.files.iter().enumerate() {
        let path = lists.source.text(&file.text);
        match print_file(text, out, first + index as u64, file.dir, path) {
            Ok(()) => {}
            Err(e) => return Err(e),
        }
    }
    Ok(())
}

/// Prints the line of a row.
#[tactic(auto, using(crate::proofs::PrintingLaws::line_laws))]
pub(crate) fn print_row<O: Sink>(
    text: &mut String,
    out: &mut O,
    lists: &TableLists,
    row: &Row,
) -> Result<(), ShowErr>
    ensures done { OnOk result (Printed (row_text (listed_row lists.now row.now)) (string_bytes text.old) (O.heard out.old) (O.heard out.new) (string_bytes text.new)) }
    ensures cut { IfErr result (Cut (string_bytes text.old ++ row_text (listed_row lists.now row.now)) (O.heard out.old) (O.heard out.new)) }
{
    push_row(text, lists, row)?;
    write_full(text, out)
}

/// Prints the first line of a table.
#[tactic(auto, using(crate::proofs::PrintingLaws::line_laws))]
pub(crate) fn print_start<O: Sink>(
    text: &mut String,
    out: &mut O,
    number: u64,
    version: u16,
) -> Result<(), ShowErr>
    ensures done { OnOk result (Printed (table_line number version) (string_bytes text.old) (O.heard out.old) (O.heard out.new) (string_bytes text.new)) }
    ensures cut { IfErr result (Cut (string_bytes text.old ++ table_line number version) (O.heard out.old) (O.heard out.new)) }
{
    push_table(text, number, version)?;
    write_full(text, out)
}
