//! The files that a line program defines (DWARF 4, 6.2.5.3).
//!
//! This file promises: the files that are given are those of the program, in the order of their places; the
//! program is refused only where one of its opcodes passes its end or can't be had.

ghost use Rattle.std.specs.Prelude.{◌≡◌, ◌+◌, ◌-◌, ◌≤◌, ◌^◌, [], length, IfOk, IfErr, IsTrue, OnOk};
ghost use Rattle.dw_base.specs.Refusals.{Blames};
ghost use Rattle.dw_base.specs.LineHeaders.{has_standard_operands};
ghost use Rattle.dw_base.specs.LinePrograms.{next_opcode, with_file};
ghost use Rattle.dw_base.specs.Walks.{Breaks, ComesTo, Since};
ghost use Rattle.dw_lines.specs.PlainOpcodes.{PassesPlain};

use crate::opcodes::{opcode_at, plain_next};
use dw_base::{Fault, FilePlace, LineHeader, Refusal};
use std::alloc::{AllocError, Global};

/// The files that the program of a table defines, the bytes up to the table's end. Refused by this refusal
/// only where an opcode passes that end or can't be had.
#[tactic(auto, using(crate::proofs::ProgramLaws::program_laws, crate::proofs::PlainLaws::defined_laws))]
pub(crate) fn defined_files(
    alloc: Global,
    section: u32,
    header: &LineHeader,
    table: &[u8],
    refusal: Refusal,
) -> Result<Vec<FilePlace>, Fault>
    requires small { length table.now ≤ 2 ^ 31 }
    requires standard { IsTrue (has_standard_operands table.now header.now) }
    requires operands { header.now.lists ≡ header.now.operands + (header.now.opcode_base - 1) }
    requires lists { header.now.lists ≤ length table.now }
    ensures read { IfOk result (λ files. ComesTo (next_opcode section header.now table.now) ([], header.now.program) files.items) }
    ensures refused { IfErr result (Blames (Since refusal (Breaks (next_opcode section header.now table.now) ([], header.now.program)))) }
{
    let mut files = Vec::new(alloc);
    let mut place = behind_plain(header, table, header.program);
    let end = table.len() as u64;
    'opcodes: while place < end {
        let Some(opcode) = opcode_at(section, header, table, place) else {
            return Err(Fault::Refused(refusal));
        };
        push_file(&mut files, opcode.file)?;
        place = behind_plain(header, table, opcode.next);
    }
    Ok(files)
}

/// Appends a file, where there is one.
fn push_file(files: &mut Vec<FilePlace>, file: Option<FilePlace>) -> Result<(), AllocError>
    ensures files { OnOk result (files.new.items ≡ with_file files.old.items file) }
{
    if let Some(file) = file {
        files.push(file)?;
    }
    Ok(())
}

/// The place behind plain opcodes that stand one after another from a place on. None are passed where the line range is 0: then no
/// special opcode can be had.
#[tactic(auto, using(crate::proofs::PlainLaws::run_laws))]
fn behind_plain(header: &LineHeader, table: &[u8], from: u64) -> u64
    requires small { length table.now ≤ 2 ^ 31 }
    requires standard { IsTrue (has_standard_operands table.now header.now) }
    requires operands { header.now.lists ≡ header.now.operands + (header.now.opcode_base - 1) }
    requires lists { header.now.lists ≤ length table.now }
    ensures passed { PassesPlain header.now table.now from result }
    ensures further { from ≤ result }
{
    if header.line_range == 0 {
        return from;
    }
    let end = table.len() as u64;
    let mut place = from;
    'opcodes: while place < end {
        let Some(next) = plain_next(header, table, place) else {
            return place;
        };
        place = next;
    }
    place
}
