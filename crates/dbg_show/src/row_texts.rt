//! The line of a row.

ghost use Rattle.std.specs.Prelude.{◌≡◌, ◌++◌, OnOk};
ghost use Rattle.std.specs.String.{string_bytes};
ghost use Rattle.dbg_show.specs.Rows.{address_text, flags_text, is_flagged, letter, letters, operation_text, place_text, row_back, row_front, set_text, symbol_text};

use dw_base::Row;
use std::alloc::AllocError;

/// Appends symbol and type of the relocation that gave an address.
#[tactic(auto, unfolding(crate::specs::Rows::symbol_text))]
fn push_symbol(text: &mut String, symbol: Option<(u32, u32)>) -> Result<(), AllocError>
    ensures text { OnOk result (string_bytes text.new ≡ string_bytes text.old ++ symbol_text symbol) }
{
    match symbol {
        Some((number, kind)) => write!(text, " symbol {number} type {kind}"),
        None => Ok(()),
    }
}

/// Appends the address of a row.
#[tactic(auto, unfolding(crate::specs::Rows::address_text))]
fn push_address(text: &mut String, address: u64) -> Result<(), AllocError>
    ensures text { OnOk result (string_bytes text.new ≡ string_bytes text.old ++ address_text address) }
{
    write!(text, "row 0x{address:x}")
}

/// Appends the operation of a row.
#[tactic(auto, unfolding(crate::specs::Rows::operation_text))]
fn push_operation(text: &mut String, index: u64) -> Result<(), AllocError>
    ensures text { OnOk result (string_bytes text.new ≡ string_bytes text.old ++ operation_text index) }
{
    write!(text, " op {index} file ")
}

/// Appends what stands in front of the file of a row.
#[tactic(auto, using(crate::proofs::RowTextLaws::piece_laws), unfolding(crate::specs::Rows::row_front))]
pub(crate) fn push_front(text: &mut String, row: &Row) -> Result<(), AllocError>
    ensures text { OnOk result (string_bytes text.new ≡ string_bytes text.old ++ row_front row.now) }
{
    push_address(text, row.address)?;
    push_symbol(text, row.symbol)?;
    push_operation(text, row.op_index)
}

/// Appends a letter where a flag is set.
fn push_letter(text: &mut String, flag: bool, name: &str) -> Result<(), AllocError>
    ensures text { OnOk result (string_bytes text.new ≡ string_bytes text.old ++ letter flag name.now) }
{
    if flag {
        return text.push_str(name);
    }
    Ok(())
}

/// Appends the letters of the flags of a row.
#[tactic(auto, using(crate::proofs::RowTextLaws::piece_laws), unfolding(crate::specs::Rows::letters))]
fn push_letters(text: &mut String, row: &Row) -> Result<(), AllocError>
    ensures text { OnOk result (string_bytes text.new ≡ string_bytes text.old ++ letters row.now) }
{
    push_letter(text, row.stmt, "s")?;
    push_letter(text, row.block, "b")?;
    push_letter(text, row.prologue_end, "p")?;
    push_letter(text, row.epilogue_begin, "e")?;
    push_letter(text, row.end, "x")
}

/// Whether some flag of a row is set.
#[tactic(auto, unfolding(crate::specs::Rows::is_flagged))]
fn is_flagged(row: &Row) -> bool
    ensures { result ≡ is_flagged row.now }
{
    row.stmt || row.block || row.prologue_end || row.epilogue_begin || row.end
}

/// Appends the flags of a row.
#[tactic(auto, unfolding(crate::specs::Rows::flags_text))]
fn push_flags(text: &mut String, row: &Row) -> Result<(), AllocError>
    ensures text { OnOk result (string_bytes text.new ≡ string_bytes text.old ++ flags_text row.now) }
{
    if is_flagged(row) {
        return push_letters(text, row);
    }
    text.push_str("-")
}

/// Appends line and column of a row.
#[tactic(auto, unfolding(crate::specs::Rows::place_text))]
fn push_place(text: &mut String, line: u64, column: u64) -> Result<(), AllocError>
    ensures text { OnOk result (string_bytes text.new ≡ string_bytes text.old ++ place_text line column) }
{
    write!(text, " line {line} column {column} flags ")
}

/// Appends instruction set and discriminator of a row, and the end of the line.
#[tactic(auto, unfolding(crate::specs::Rows::set_text))]
fn push_set(text: &mut String, isa: u64, discriminator: u64) -> Result<(), AllocError>
    ensures text { OnOk result (string_bytes text.new ≡ string_bytes text.old ++ set_text isa discriminator) }
{
    write!(text, " isa {isa} disc {discriminator}\n")
}

/// Appends what stands behind the file of a row.
#[tactic(auto, using(crate::proofs::RowTextLaws::piece_laws), unfolding(crate::specs::Rows::row_back))]
pub(crate) fn push_back(text: &mut String, row: &Row) -> Result<(), AllocError>
    ensures text { OnOk result (string_bytes text.new ≡ string_bytes text.old ++ row_back row.now) }
{
    push_place(text, row.line, row.column)?;
    push_flags(text, row)?;
    push_set(text, row.isa, row.discriminator)
}
