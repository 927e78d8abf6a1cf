//! Line tables (DWARF 4, 6.2.4 and 6.2.5).

ghost use Rattle.std.specs.Prelude.{◌≡◌, ◌++◌, ◌≤◌, length, IfOk, OnOk};
ghost use Rattle.std.specs.String.{string_bytes};
ghost use Rattle.dbg_gen.specs.GeneratedLines.{line_header, line_lists, line_numbers, line_program, line_table, table_of};

use dw_base::line_numbers::{DW_LNE_end_sequence, DW_LNE_set_address};
use dw_base::{Order, push_long, push_word};
use std::alloc::{AllocError, Global};

/// The numbers of a header, from the smallest instruction length to the operand counts of the standard opcodes.
const NUMBERS: [u8; 18] = [1, 1, 1, 251, 14, 13, 0, 1, 1, 1, 1, 0, 0, 0, 1, 0, 0, 1];

/// Appends one directory, and one file of a name.
fn push_lists(alloc: Global, header: &mut Vec<u8>, unit: u32) -> Result<(), AllocError>
    ensures pushed { OnOk result (header.new.items ≡ header.old.items ++ line_lists unit) }
{
    let lists = format!(in alloc; "/build/p/inc\0\0u{unit}.c\0\0\0\0\0")?;
    header.extend_from_slice(lists.as_str().as_bytes())?;
    Ok(())
}

/// What stands behind the length of the header.
#[tactic(auto, unfolding(crate::specs::GeneratedLines::line_header))]
fn line_header(alloc: Global, unit: u32) -> Result<Vec<u8>, AllocError>
    ensures header { IfOk result (λ header. header.items ≡ line_header unit) }
{
    let mut header = Vec::from_slice(alloc, &NUMBERS)?;
    push_lists(alloc, &mut header, unit)?;
    Ok(header)
}

/// The address of a unit, a row for each variable, and the end of the sequence.
#[tactic(auto, unfolding(crate::specs::GeneratedLines::line_program))]
fn line_program(alloc: Global, unit: u32, count: u64) -> Result<Vec<u8>, AllocError>
    requires few { count ≤ 16 }
    ensures program { IfOk result (λ program. program.items ≡ line_program unit count) }
{
    let mut program = Vec::from_slice(alloc, &[0, 9, DW_LNE_set_address])?;
    push_long(&mut program, Order::Little, 4096 * (u64::from(unit) + 1))?;
    program.resize(program.len() + count as usize, 0x21)?;
    program.extend_from_slice(&[0, 1, DW_LNE_end_sequence])?;
    Ok(program)
}

/// Appends a table of a header and a program.
#[tactic(auto, unfolding(crate::specs::GeneratedLines::table_of))]
fn push_parts(lines: &mut Vec<u8>, header: &[u8], program: &[u8]) -> Result<(), AllocError>
    requires header { length header.now ≤ 50 }
    requires program { length program.now ≤ 30 }
    ensures pushed { OnOk result (lines.new.items ≡ lines.old.items ++ table_of header.now program.now) }
{
    push_word(
        lines,
        Order::Little,
        6 + (header.len() as u64 + program.len() as u64),
    )?;
    lines.extend_from_slice(&[4, 0])?;
    push_word(lines, Order::Little, header.len() as u64)?;
    lines.extend_from_slice(header)?;
    lines.extend_from_slice(program)?;
    Ok(())
}

/// Appends the line table of a unit with so many variables.
#[tactic(auto, using(crate::proofs::SizeLaws::line_sizes))]
pub(crate) fn push_line_table(
    alloc: Global,
    lines: &mut Vec<u8>,
    unit: u32,
    count: u64,
) -> Result<(), AllocError>
    requires few { count ≤ 16 }
    ensures pushed { OnOk result (lines.new.items ≡ lines.old.items ++ line_table unit count) }
{
    let header = line_header(alloc, unit)?;
    let program = line_program(alloc, unit, count)?;
    push_parts(lines, &header, &program)?;
    Ok(())
}
