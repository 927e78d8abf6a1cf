//! The lines of macro units and of their events.

ghost use Rattle.std.specs.Prelude.{◌≡◌, ◌++◌, OnOk};
ghost use Rattle.std.specs.String.{string_bytes};
ghost use Rattle.dbg_show.specs.MacroTexts.{define_front, end_line, import_line, macros_front, macros_line, quoted_line, start_line, table_said, undef_front};

use crate::quoting::push_quoted;
use crate::unit_texts::push_end;
use std::alloc::AllocError;

/// Appends what stands in front of the text of a definition.
#[tactic(auto, unfolding(crate::specs::MacroTexts::define_front))]
fn push_define_front(text: &mut String, line: u64) -> Result<(), AllocError>
    ensures text { OnOk result (string_bytes text.new ≡ string_bytes text.old ++ define_front line) }
{
    write!(text, "define {line} ")
}

/// The same of the end of a definition.
#[tactic(auto, unfolding(crate::specs::MacroTexts::undef_front))]
fn push_undef_front(text: &mut String, line: u64) -> Result<(), AllocError>
    ensures text { OnOk result (string_bytes text.new ≡ string_bytes text.old ++ undef_front line) }
{
    write!(text, "undef {line} ")
}

/// Appends a text in its quotes, up to the end of the line.
#[tactic(auto, using(crate::proofs::RowTextLaws::piece_laws))]
fn push_quoted_line(text: &mut String, bytes: &[u8]) -> Result<(), AllocError>
    ensures text { OnOk result (string_bytes text.new ≡ string_bytes text.old ++ quoted_line bytes.now) }
{
    push_quoted(text, bytes)?;
    push_end(text)
}

/// Appends the line of a definition.
#[tactic(auto, using(crate::proofs::RowTextLaws::piece_laws))]
pub(crate) fn push_define(text: &mut String, line: u64, bytes: &[u8]) -> Result<(), AllocError>
    ensures text { OnOk result (string_bytes text.new ≡ string_bytes text.old ++ (define_front line ++ quoted_line bytes.now)) }
{
    push_define_front(text, line)?;
    push_quoted_line(text, bytes)
}

/// Appends the line of the end of a definition.
#[tactic(auto, using(crate::proofs::RowTextLaws::piece_laws))]
pub(crate) fn push_undef(text: &mut String, line: u64, bytes: &[u8]) -> Result<(), AllocError>
    ensures text { OnOk result (string_bytes text.new ≡ string_bytes text.old ++ (undef_front line ++ quoted_line bytes.now)) }
{
    push_undef_front(text, line)?;
    push_quoted_line(text, bytes)
}

/// Appends the line of a file that begins.
#[tactic(auto, unfolding(crate::specs::MacroTexts::start_line))]
pub(crate) fn push_start(text: &mut String, line: u64, file: u64) -> Result<(), AllocError>
    ensures text { OnOk result (string_bytes text.new ≡ string_bytes text.old ++ start_line line file) }
{
    write!(text, "start {line} file {file}\n")
}

/// Appends the line of the end of a file.
#[tactic(auto, unfolding(crate::specs::MacroTexts::end_line))]
pub(crate) fn push_file_end(text: &mut String) -> Result<(), AllocError>
    ensures text { OnOk result (string_bytes text.new ≡ string_bytes text.old ++ end_line) }
{
    text.push_str("end\n")
}

/// Appends the line of a unit that is brought in, where one is named.
#[tactic(auto, unfolding(crate::specs::MacroTexts::import_line))]
pub(crate) fn push_import(text: &mut String, number: Option<u64>) -> Result<(), AllocError>
    ensures text { OnOk result (string_bytes text.new ≡ string_bytes text.old ++ import_line number) }
{
    match number {
        Some(number) => write!(text, "import {number}\n"),
        None => Ok(()),
    }
}

/// Appends number and version of a unit.
#[tactic(auto, unfolding(crate::specs::MacroTexts::macros_front))]
fn push_macros_front(text: &mut String, number: u64, version: u16) -> Result<(), AllocError>
    ensures text { OnOk result (string_bytes text.new ≡ string_bytes text.old ++ macros_front number version) }
{
    write!(text, "macros {number} version {version}")
}

/// Appends the line table of a unit, where it names one.
#[tactic(auto, unfolding(crate::specs::MacroTexts::table_said))]
fn push_table(text: &mut String, line: Option<u64>) -> Result<(), AllocError>
    ensures text { OnOk result (string_bytes text.new ≡ string_bytes text.old ++ table_said line) }
{
    match line {
        Some(number) => write!(text, " lines {number}"),
        None => Ok(()),
    }
}

/// Appends the first line of a unit.
#[tactic(auto, using(crate::proofs::RowTextLaws::piece_laws))]
pub(crate) fn push_macros(
    text: &mut String,
    number: u64,
    version: u16,
    line: Option<u64>,
) -> Result<(), AllocError>
    ensures text { OnOk result (string_bytes text.new ≡ string_bytes text.old ++ macros_line number version line) }
{
    push_macros_front(text, number, version)?;
    push_table(text, line)?;
    push_end(text)
}
