//! The lists of directories and files before version 5 (DWARF 4, 6.2.4): each ends with an empty text.
//!
//! This file promises: the lists that are given are those that stand at the place; they are refused only
//! where one of their items passes the end of the bytes.

ghost use Rattle.std.specs.Prelude.{◌≡◌, ◌+◌, ◌≤◌, ◌<◌, [], length, IfOk, IfErr};
ghost use Rattle.dw_base.specs.Refusals.{Blames};
ghost use Rattle.dw_base.specs.OldLineLists.{next_dir, next_file};
ghost use Rattle.dw_base.specs.Walks.{Breaks, ComesTo, Since};

use crate::texts::{file_numbers, inline_text};
use dw_base::{Fault, FilePlace, Refusal, TextPlace};
use std::alloc::Global;

/// The directories from a place on, and the place behind them. Refused by this refusal only where one
/// passes the end of the bytes.
#[tactic(auto, using(crate::proofs::OldListLaws::dir_laws))]
pub(crate) fn old_dirs(
    alloc: Global,
    section: u32,
    table: &[u8],
    start: u64,
    refusal: Refusal,
) -> Result<(Vec<TextPlace>, u64), Fault>
    ensures read { IfOk result (λ d. ComesTo (next_dir section table.now) ([], start) (d.0.items, d.1)) }
    ensures within { IfOk result (λ d. d.1 ≤ length table.now) }
    ensures refused { IfErr result (Blames (Since refusal (Breaks (next_dir section table.now) ([], start)))) }
{
    let mut dirs = Vec::new(alloc);
    let mut place = start;
    'dirs: loop {
        let Some(text) = inline_text(section, table, place) else {
            return Err(Fault::Refused(refusal));
        };
        let next = place + text.len + 1;
        if text.len == 0 {
            return Ok((dirs, next));
        }
        dirs.push(text)?;
        place = next;
    }
}

/// The files from a place on, and the place behind them. Refused by this refusal only where one passes
/// the end of the bytes.
#[tactic(auto, using(crate::proofs::OldListLaws::file_laws))]
pub(crate) fn old_files(
    alloc: Global,
    section: u32,
    table: &[u8],
    start: u64,
    refusal: Refusal,
) -> Result<(Vec<FilePlace>, u64), Fault>
    ensures read { IfOk result (λ f. ComesTo (next_file section table.now) ([], start) (f.0.items, f.1)) }
    ensures within { IfOk result (λ f. f.1 ≤ length table.now) }
    ensures refused { IfErr result (Blames (Since refusal (Breaks (next_file section table.now) ([], start)))) }
{
    let mut files = Vec::new(alloc);
    let mut place = start;
    'files: loop {
        let Some(text) = inline_text(section, table, place) else {
            return Err(Fault::Refused(refusal));
        };
        let next = place + text.len + 1;
        if text.len == 0 {
            return Ok((files, next));
        }
        let Some((dir, behind)) = file_numbers(table, next) else {
            return Err(Fault::Refused(refusal));
        };
        files.push(FilePlace { text, dir })?;
        place = behind;
    }
}
