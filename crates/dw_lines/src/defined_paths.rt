//! Whether a line program defines a file whose path a map changes (DWARF 4, 6.2.5.3).
//!
//! This file promises: a program is refused exactly where it does, at an opcode that defines such a file. The
//! program isn't run.

ghost use Rattle.std.specs.Prelude.{◌≡◌, ◌↔◌, ◌≢◌, ◌+◌, ◌-◌, ◌≤◌, ◌^◌, length, IsTrue, IfOk, IfErr, OnOk};
ghost use Rattle.dw_base.specs.Paths.{mapped_path};
ghost use Rattle.dw_base.specs.Refusals.{Blames};
ghost use Rattle.dw_base.specs.Texts.{same_text};
ghost use Rattle.dw_base.specs.declared.fault.Refusal.{Refusal as RefusalOf};
ghost use Rattle.dw_base.specs.LineWriteFails.{ProgramFails, changes_file, changes_path};
ghost use Rattle.dw_base.specs.WrittenLines.{bytes_at};

use crate::opcodes::opcode_at;
use crate::parts::bytes_at;
use dw_base::{Fault, FilePlace, Kind, LineHeader, NoMemory, Refusal};
use dw_paths::{Maps, map_path};
use std::alloc::Global;

/// Two paths are one.
#[tactic(auto, using(crate::proofs::DefinedLaws::same_laws))]
fn is_same(path: &[u8], mapped: &[u8]) -> bool
    ensures same { result ≡ same_text mapped.now path.now }
{
    mapped == path
}

/// The map changes the path at a place.
fn changes_path(
    alloc: Global,
    maps: &Maps,
    table: &[u8],
    at: u64,
    len: u64,
) -> Result<bool, NoMemory>
    ensures changes { IfOk result (λ changes. changes ≡ changes_path maps.now (bytes_at table.now at len)) }
{
    let path = bytes_at(table, at, len);
    let mapped = map_path(alloc, maps, path)?;
    Ok(!is_same(path, &mapped))
}

/// The map changes the path of a file, where there is one.
fn changes_file(
    alloc: Global,
    maps: &Maps,
    table: &[u8],
    file: Option<FilePlace>,
) -> Result<bool, NoMemory>
    ensures changes { IfOk result (λ changes. changes ≡ changes_file maps.now table.now file) }
{
    match file {
        Some(file) => changes_path(alloc, maps, table, file.text.at, file.text.len),
        None => Ok(false),
    }
}

/// Looks at the opcodes of the program of a table, whose bytes go up to the table's end. Refused as
/// `DefinedPath` exactly where one defines a file whose path the map changes, at that opcode.
#[tactic(auto, using(crate::proofs::DefinedLaws::defined_laws))]
pub(crate) fn check_opcodes(
    alloc: Global,
    maps: &Maps,
    section: u32,
    header: &LineHeader,
    table: &[u8],
) -> Result<(), Fault>
    requires small { length table.now ≤ 2 ^ 31 }
    requires operands { header.now.lists ≡ header.now.operands + (header.now.opcode_base - 1) }
    requires lists { header.now.lists ≤ length table.now }
    ensures none { OnOk result ((r : RefusalOf) → ProgramFails maps.now section header.now table.now r → ⊥) }
    ensures refused { IfErr result (Blames (ProgramFails maps.now section header.now table.now)) }
{
    let mut place = header.program;
    let end = table.len() as u64;
    'opcodes: while place < end {
        let Some(opcode) = opcode_at(section, header, table, place) else {
            return Ok(());
        };
        if changes_file(alloc, maps, table, opcode.file)? {
            return Err(Fault::Refused(Refusal::at(Kind::DefinedPath, section, place)));
        }
        place = opcode.next;
    }
    Ok(())
}
