//! The rows of line tables, and what gives them (DWARF 5, 6.2.2 and 6.2.5).

use crate::shared::Order;
use crate::view_fields::Field;

/// A row: the registers of the line machine where a program appends them.
#[derive(Clone, Copy, Debug, PartialEq, Eq)]
pub struct Row {
    /// Symbol and type of the relocation that gave the address, by their numbers; none where none did.
    pub symbol: Option<(u32, u32)>,
    /// The address, in bytes; above a symbol's value where there is one.
    pub address: u64,
    /// The operation in the instruction at the address, from 0.
    pub op_index: u64,
    /// The number of the file.
    pub file: u64,
    /// The line, from 1; 0 for none.
    pub line: u64,
    /// The column, from 1; 0 for the left edge.
    pub column: u64,
    /// Whether a statement begins here.
    pub stmt: bool,
    /// Whether a basic block begins here.
    pub block: bool,
    /// Whether a function's prologue ends here.
    pub prologue_end: bool,
    /// Whether a function's epilogue begins here.
    pub epilogue_begin: bool,
    /// Whether this is the first address behind a sequence.
    pub end: bool,
    /// The number of the instruction set.
    pub isa: u64,
    /// The block that the row belongs to, of those with the same file, line and column.
    pub discriminator: u64,
}

/// The numbers of a table's header on which its rows depend, and the byte order.
#[derive(Clone, Copy)]
pub struct LineParams {
    /// The byte order.
    pub order: Order,
    /// The size of the smallest instruction, in bytes.
    pub min_length: u8,
    /// How many operations an instruction has at most.
    pub max_ops: u8,
    /// Whether rows begin statements at first.
    pub default_stmt: bool,
    /// The smallest line advance of a special opcode.
    pub line_base: i8,
    /// How many line advances special opcodes have.
    pub line_range: u8,
    /// The first special opcode.
    pub opcode_base: u8,
}

/// What an opcode does to the registers.
#[derive(Clone, Copy)]
pub enum Operation {
    /// Nothing.
    Skip,
    /// Gives a row.
    Copy,
    /// Advances the address by operations.
    Advance(u64),
    /// Adds to the line.
    AddLine(i64),
    /// Sets the file.
    SetFile(u64),
    /// Sets the column.
    SetColumn(u64),
    /// Turns round whether rows begin statements.
    NegateStmt,
    /// Begins a basic block.
    BeginBlock,
    /// Adds to the address.
    AddAddress(u64),
    /// Ends a prologue.
    EndPrologue,
    /// Begins an epilogue.
    BeginEpilogue,
    /// Sets the instruction set.
    SetIsa(u64),
    /// Advances the address by operations, adds to the line, and gives a row.
    Special(u64, i64),
    /// Gives the last row of a sequence.
    EndSequence,
    /// Sets the address.
    SetAddress(Field),
    /// Sets the discriminator.
    SetDiscriminator(u64),
}
