//! The lines of a table in front of its rows.

ghost use Rattle.std.specs.Prelude.{◌≡◌, ◌++◌, OnOk, codes};
ghost use Rattle.std.specs.String.{string_bytes};
ghost use Rattle.dbg_show.specs.LineTexts.{dir_front, dir_line, file_front, path_line, table_line};

use crate::quoting::push_quoted;
use std::alloc::AllocError;

/// Appends a path, up to the end of the line.
#[tactic(auto, using(crate::proofs::RowTextLaws::piece_laws))]
fn push_path(text: &mut String, path: &[u8]) -> Result<(), AllocError>
    ensures text { OnOk result (string_bytes text.new ≡ string_bytes text.old ++ path_line path.now) }
{
    push_quoted(text, path)?;
    push_end(text)
}

/// Appends the end of a line.
fn push_end(text: &mut String) -> Result<(), AllocError>
    ensures text { OnOk result (string_bytes text.new ≡ string_bytes text.old ++ codes "\n") }
{
    text.push_str("\n")
}

/// Appends what stands in front of a directory.
#[tactic(auto, unfolding(crate::specs::LineTexts::dir_front))]
fn push_dir_front(text: &mut String, number: u64) -> Result<(), AllocError>
    ensures text { OnOk result (string_bytes text.new ≡ string_bytes text.old ++ dir_front number) }
{
    write!(text, "dir {number} ")
}

/// Appends the line of a directory.
#[tactic(auto, using(crate::proofs::RowTextLaws::piece_laws))]
pub(crate) fn push_dir(text: &mut String, number: u64, path: &[u8]) -> Result<(), AllocError>
    ensures text { OnOk result (string_bytes text.new ≡ string_bytes text.old ++ dir_line number path.now) }
{
    push_dir_front(text, number)?;
    push_path(text, path)
}

/// Appends what stands in front of a file.
#[tactic(auto, unfolding(crate::specs::LineTexts::file_front))]
fn push_file_front(text: &mut String, number: u64, dir: u64) -> Result<(), AllocError>
    ensures text { OnOk result (string_bytes text.new ≡ string_bytes text.old ++ file_front number dir) }
{
    write!(text, "file {number} dir {dir} ")
}

/// Appends the line of a file.
#[tactic(auto, using(crate::proofs::RowTextLaws::piece_laws))]
pub(crate) fn push_file(
    text: &mut String,
    number: u64,
    dir: u64,
    path: &[u8],
) -> Result<(), AllocError>
    ensures text { OnOk result (string_bytes text.new ≡ string_bytes text.old ++ (file_front number dir ++ path_line path.now)) }
{
    push_file_front(text, number, dir)?;
    push_path(text, path)
}

/// Appends the first line of a table.
#[tactic(auto, unfolding(crate::specs::LineTexts::table_line))]
pub(crate) fn push_table(text: &mut String, number: u64, version: u16) -> Result<(), AllocError>
    ensures text { OnOk result (string_bytes text.new ≡ string_bytes text.old ++ table_line number version) }
{
    write!(text, "lines {number} version {version}\n")
}
