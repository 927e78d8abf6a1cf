//! The registers of the line machine (DWARF 5, 6.2.2): what an operation makes of them.

ghost use Rattle.std.specs.Prelude.{◌≡◌, ◌<◌, ◌+◌, ◌*◌, ◌/◌, ◌%◌, ◌^◌};
ghost use Rattle.dw_base.specs.LineRegisters.{advanced, at_address, behind_row, gives_row, moved, on_line, start_registers};

use dw_base::{Field, LineParams, Operation, Row};

/// The registers where each sequence starts.
#[tactic(auto, unfolding(dw_base::specs::LineRegisters::start_registers))]
pub(crate) fn start_registers(params: &LineParams) -> Row
    ensures registers { result ≡ start_registers params.now }
    ensures index { result.op_index ≡ 0 }
{
    Row {
        symbol: None,
        address: 0,
        op_index: 0,
        file: 1,
        line: 1,
        column: 0,
        stmt: params.default_stmt,
        block: false,
        prologue_end: false,
        epilogue_begin: false,
        end: false,
        isa: 0,
        discriminator: 0,
    }
}

/// How many instructions further so many operations lead, modulo 2^64, from an operation of an instruction.
#[tactic(auto, using(crate::proofs::RegisterLaws::advance_laws))]
fn instructions(op_index: u64, operations: u64, max_ops: u64) -> u64
    requires some { 0 < max_ops }
    requires small { max_ops < 256 }
    requires index { op_index < max_ops }
    ensures { result ≡ (op_index + operations) / max_ops % 2 ^ 64 }
{
    let open = op_index + operations % max_ops;
    (operations / max_ops).wrapping_add(open / max_ops)
}

/// The operation of its instruction that is so many further.
#[tactic(auto, using(crate::proofs::RegisterLaws::advance_laws))]
fn index_behind(op_index: u64, operations: u64, max_ops: u64) -> u64
    requires some { 0 < max_ops }
    requires small { max_ops < 256 }
    requires index { op_index < max_ops }
    ensures value { result ≡ (op_index + operations) % max_ops }
    ensures index { result < max_ops }
{
    (op_index + operations % max_ops) % max_ops
}

/// An address so many instructions of a size further.
#[tactic(auto, using(crate::proofs::RegisterLaws::address_laws))]
fn address_behind(address: u64, min_length: u8, op_index: u64, operations: u64, max_ops: u64) -> u64
    requires some { 0 < max_ops }
    requires small { max_ops < 256 }
    requires index { op_index < max_ops }
    ensures { result ≡ (address + min_length * ((op_index + operations) / max_ops)) % 2 ^ 64 }
{
    let count = instructions(op_index, operations, max_ops);
    address.wrapping_add(u64::from(min_length).wrapping_mul(count))
}

/// So many operations further.
#[tactic(auto, unfolding(dw_base::specs::LineRegisters::advanced))]
fn advanced(params: &LineParams, operations: u64, row: Row) -> Row
    requires some { 0 < params.now.max_ops }
    requires index { row.op_index < params.now.max_ops }
    ensures registers { result ≡ advanced params.now operations row }
    ensures index { result.op_index < params.now.max_ops }
{
    let max_ops = u64::from(params.max_ops);
    Row {
        address: address_behind(
            row.address,
            params.min_length,
            row.op_index,
            operations,
            max_ops,
        ),
        op_index: index_behind(row.op_index, operations, max_ops),
        ..row
    }
}

/// A signed number is added to the line.
#[tactic(auto, unfolding(dw_base::specs::LineRegisters::on_line))]
fn on_line(lines: i64, row: Row) -> Row
    ensures registers { result ≡ on_line lines row }
    ensures index { result.op_index ≡ row.op_index }
{
    Row {
        line: row.line.wrapping_add_signed(lines),
        ..row
    }
}

/// At the first operation of the instruction at an address.
fn at_instruction(address: u64, row: Row) -> Row
    ensures registers { result ≡ record row { address = address; op_index = 0 } }
{
    Row {
        address,
        op_index: 0,
        ..row
    }
}

/// At an address, with the symbol of its relocation.
#[tactic(auto, unfolding(dw_base::specs::LineRegisters::at_address))]
fn at_address(address: Field, row: Row) -> Row
    ensures registers { result ≡ at_address address row }
    ensures index { result.op_index ≡ 0 }
{
    let (symbol, number) = match address {
        Field::Num(number) => (None, number),
        Field::Into { offset, .. } => (None, offset),
        Field::Sym {
            symbol,
            kind,
            addend,
        } => (Some((symbol, kind)), addend.cast_unsigned()),
    };
    at_instruction(number, Row { symbol, ..row })
}

/// The registers behind an operation, where a row of it shows them.
#[tactic(auto, unfolding(dw_base::specs::LineRegisters::moved))]
pub(crate) fn moved(params: &LineParams, operation: Operation, row: Row) -> Row
    requires some { 0 < params.now.max_ops }
    requires index { row.op_index < params.now.max_ops }
    ensures registers { result ≡ moved params.now operation row }
    ensures index { result.op_index < params.now.max_ops }
{
    match operation {
        Operation::Skip => row,
        Operation::Copy => row,
        Operation::Advance(operations) => advanced(params, operations, row),
        Operation::AddLine(lines) => on_line(lines, row),
        Operation::SetFile(file) => Row { file, ..row },
        Operation::SetColumn(column) => Row { column, ..row },
        Operation::NegateStmt => Row {
            stmt: !row.stmt,
            ..row
        },
        Operation::BeginBlock => Row { block: true, ..row },
        Operation::AddAddress(bytes) => at_instruction(row.address.wrapping_add(bytes), row),
        Operation::EndPrologue => Row {
            prologue_end: true,
            ..row
        },
        Operation::BeginEpilogue => Row {
            epilogue_begin: true,
            ..row
        },
        Operation::SetIsa(isa) => Row { isa, ..row },
        Operation::Special(operations, lines) => on_line(lines, advanced(params, operations, row)),
        Operation::EndSequence => Row { end: true, ..row },
        Operation::SetAddress(address) => at_address(address, row),
        Operation::SetDiscriminator(discriminator) => Row {
            discriminator,
            ..row
        },
    }
}

/// Whether an operation gives a row.
#[tactic(auto, unfolding(dw_base::specs::LineRegisters::gives_row))]
pub(crate) fn gives_row(operation: Operation) -> bool
    ensures { result ≡ gives_row operation }
{
    match operation {
        Operation::Copy => true,
        Operation::Special(_, _) => true,
        Operation::EndSequence => true,
        _ => false,
    }
}

/// The registers behind a row: as at the start behind the last of a sequence, else without what holds of the
/// row alone.
#[tactic(auto, unfolding(dw_base::specs::LineRegisters::behind_row))]
pub(crate) fn behind_row(params: &LineParams, row: Row) -> Row
    requires some { 0 < params.now.max_ops }
    requires index { row.op_index < params.now.max_ops }
    ensures registers { result ≡ behind_row params.now row }
    ensures index { result.op_index < params.now.max_ops }
{
    if row.end {
        return start_registers(params);
    }
    Row {
        block: false,
        prologue_end: false,
        epilogue_begin: false,
        discriminator: 0,
        ..row
    }
}
