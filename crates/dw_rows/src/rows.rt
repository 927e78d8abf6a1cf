//! The rows of a line table, as an iterator (DWARF 5, 6.2).
//!
//! This file promises: what a step gives is the first of the rows that are left (`rows_left` in
//! `specs/TableRows.antt`), and nothing where none is left. At the start those of the table are left.

ghost use Rattle.std.specs.Prelude.{◌≡◌, ◌+◌, ◌-◌, ◌<◌, ◌≤◌, ◌^◌, ◌∷◌, [], drop, length, take, IfNone, IfSome};
ghost use Rattle.std.specs.Iterator.{YieldsFirst, item_count};
ghost use Rattle.dw_base.specs.WrittenLines.{length_size};
ghost use Rattle.dw_rows.specs.ProgramPlaces.{StandsIn, cells_left};
ghost use Rattle.dw_rows.specs.TableRows.{IsTableIn, IsWhole, RowsFit, RowsState, counts_place, params_of, rows_from, rows_left, rows_start};

use crate::reading::operation_in;
use crate::registers::{behind_row, gives_row, moved, start_registers};
use dw_base::{LineParams, Order, Row, Width};
use dw_lines::LineTable;
use dw_view::View;
use std::marker::Model;

/// The rows of a table, in order: an iterator of `Row`.
#[derive(Drop)]
pub struct Rows<'v, 'f> {
    /// The view.
    view: &'v View<'f>,
    /// The number of the table's section.
    section: u32,
    /// The place of the next operation.
    place: u64,
    /// The numbers of the table.
    params: LineParams,
    /// The operand counts of its standard opcodes.
    counts: &'v [u8],
    /// What is left of its program.
    left: &'v [u8],
    /// The registers.
    registers: Row,
}

impl<'v, 'f> Model for Rows<'v, 'f> {
    ghost Value = { RowsState };

    ghost view = { λ s. record { params = s.params; counts = s.counts.now; left = cells_left s.view.now s.section s.place s.left.now; registers = s.registers } };

    ghost invariant = { λ s. RowsFit s.view.now s.section s.place s.left.now (record { params = s.params; counts = s.counts.now; left = cells_left s.view.now s.section s.place s.left.now; registers = s.registers }) };
}

/// A row, the registers behind it, and what is left of the program there, with its place.
#[derive(Drop)]
struct Step<'v> {
    row: Row,
    registers: Row,
    place: u64,
    left: &'v [u8],
}

/// The first row that is left, none where none is.
#[tactic(auto, using(crate::proofs::RowLaws::row_laws))]
fn next_row<'v>(
    view: &View,
    section: u32,
    start: u64,
    params: &LineParams,
    counts: &[u8],
    left: &'v [u8],
    registers: Row,
) -> Option<Step<'v>>
    requires stands { StandsIn view.now section start left.now }
    requires order { params.now.order ≡ view.now.order }
    requires counts { length counts.now ≡ params.now.opcode_base - 1 }
    requires some { 0 < params.now.max_ops }
    requires index { registers.op_index < params.now.max_ops }
    ensures row { IfSome result (λ s. rows_from params.now counts.now (cells_left view.now section start left.now) registers ≡ s.row ∷ rows_from params.now counts.now (cells_left view.now section s.place s.left.now) s.registers) }
    ensures none { IfNone result (rows_from params.now counts.now (cells_left view.now section start left.now) registers ≡ []) }
    ensures stands { IfSome result (λ s. StandsIn view.now section s.place s.left.now) }
    ensures index { IfSome result (λ s. s.registers.op_index < params.now.max_ops) }
    ensures shorter { IfSome result (λ s. length s.left.now < length left.now) }
{
    let mut rest = left;
    let mut place = start;
    let mut now = registers;
    'operations: while let Some((operation, size)) = operation_in(
        view, section, place, params, counts, rest,
    ) {
        let row = moved(params, operation, now);
        let (_, behind) = rest.split_at(size as usize);
        place += size;
        if gives_row(operation) {
            return Some(Step {
                row,
                registers: behind_row(params, row),
                place,
                left: behind,
            });
        }
        rest = behind;
        now = row;
    }
    None
}

/// Where the operand counts of the standard opcodes stand, for a table's start, width and version.
#[tactic(auto, unfolding(crate::specs::TableRows::counts_place, dw_base::specs::LineHeaders::length_place, dw_base::specs::LineHeaders::flags_place))]
fn counts_place(start: u64, width: Width, version: u16) -> u64
    requires small { start ≤ 2 ^ 31 }
    ensures place { result ≡ counts_place start width version }
{
    let at = start + width.length_size();
    let place = if version == 5 { at + 4 } else { at + 2 };
    let first = place
        + match width {
            Width::W32 => 4,
            Width::W64 => 8,
        };
    let flags = if version >= 4 { first + 2 } else { first + 1 };
    flags + 4
}

/// The numbers of a table on which its rows depend.
fn params_of(order: Order, table: &LineTable) -> LineParams
    ensures params { result ≡ params_of order table.now }
{
    LineParams {
        order,
        min_length: table.min_length,
        max_ops: table.max_ops,
        default_stmt: table.default_stmt,
        line_base: table.line_base,
        line_range: table.line_range,
        opcode_base: table.opcode_base,
    }
}

/// The operand counts of a table's standard opcodes, in the bytes of its section.
#[tactic(auto, using(crate::proofs::TableLaws::cut_laws))]
fn counts_in<'v>(bytes: &'v [u8], table: &LineTable) -> &'v [u8]
    requires start { table.now.start ≤ 2 ^ 31 }
    requires some { 0 < table.now.opcode_base }
    requires inside { counts_place table.now.start table.now.width table.now.version + (table.now.opcode_base - 1) ≤ length bytes.now }
    ensures counts { result.now ≡ take (table.now.opcode_base - 1) (drop (counts_place table.now.start table.now.width table.now.version) bytes.now) }
{
    let place = counts_place(table.start, table.width, table.version) as usize;
    &bytes[place..place + usize::from(table.opcode_base - 1)]
}

/// Where the program of a table starts.
fn program_place(table: &LineTable) -> u64
    ensures { result ≡ table.now.program }
{
    table.program
}

/// The program of a table, in the bytes of its section.
#[tactic(auto, using(crate::proofs::TableLaws::cut_laws))]
fn program_in<'v>(bytes: &'v [u8], table: &LineTable) -> &'v [u8]
    requires order { table.now.program ≤ table.now.end }
    requires inside { table.now.end ≤ length bytes.now }
    ensures program { result.now ≡ drop table.now.program (take table.now.end bytes.now) }
{
    &bytes[table.program as usize..table.end as usize]
}

/// The number of a table's section.
fn section_of(table: &LineTable) -> u32
    ensures { result ≡ table.now.section }
{
    table.section
}

impl<'v, 'f> Rows<'v, 'f> {
    /// The rows of a table that was read in the view, before the first. No step of the walk can fail: the
    /// program is operations that can be had, and nothing else.
    #[tactic(auto, using(crate::proofs::TableLaws::start_laws))]
    pub fn new(view: &'v View<'f>, table: &LineTable) -> Rows<'v, 'f>
        requires table { IsTableIn view.now table.now }
        ensures start { result ≡ rows_start view.now table.now }
        ensures whole { IsWhole result }
    {
        let section = section_of(table);
        let bytes = view.bytes(section);
        let params = params_of(view.order(), table);
        Rows {
            view,
            section,
            place: program_place(table),
            params,
            counts: counts_in(bytes, table),
            left: program_in(bytes, table),
            registers: start_registers(&params),
        }
    }
}

impl<'v, 'f> Iterator for Rows<'v, 'f> {
    type Item = Row;

    ghost next_gives = { YieldsFirst rows_left };

    ghost remaining = { item_count rows_left };

    fn next(&mut self) -> Option<Row> {
        match next_row(
            self.view,
            self.section,
            self.place,
            &self.params,
            self.counts,
            self.left,
            self.registers,
        ) {
            Some(step) => {
                self.place = step.place;
                self.left = step.left;
                self.registers = step.registers;
                Some(step.row)
            }
            None => None,
        }
    }
}
