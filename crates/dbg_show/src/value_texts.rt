//! What values say.

ghost use Rattle.std.specs.Prelude.{◌≡◌, ◌++◌, OnOk};
ghost use Rattle.std.specs.String.{string_bytes};
ghost use Rattle.dbg_show.specs.UnitTexts.{address_said, byte_digits, bytes_digits, bytes_said, class_said, entry_said, field_said, flag_said, index_said, lines_said, macros_said, number_said, offset_said, relocation_said, saying_text, signature_said, signed_said, stray_said, text_said};
ghost use Rattle.dw_attrs.specs.Sayings.{saying};

use crate::quoting::push_quoted;
use dw_attrs::Said;
use dw_base::{Field, ValueClass};
use std::alloc::AllocError;

/// Appends a text.
#[tactic(auto, using(crate::proofs::RowTextLaws::piece_laws))]
pub(crate) fn push_text(text: &mut String, bytes: &[u8]) -> Result<(), AllocError>
    ensures text { OnOk result (string_bytes text.new ≡ string_bytes text.old ++ text_said bytes.now) }
{
    text.push_str("text ")?;
    push_quoted(text, bytes)
}

/// Appends a byte by two digits.
#[tactic(auto, unfolding(crate::specs::UnitTexts::byte_digits))]
fn push_byte(text: &mut String, byte: u8) -> Result<(), AllocError>
    ensures text { OnOk result (string_bytes text.new ≡ string_bytes text.old ++ byte_digits byte) }
{
    if byte < 0x10 {
        return write!(text, "0{byte:x}");
    }
    write!(text, "{byte:x}")
}

/// Appends the digits of bytes.
#[tactic(auto, using(crate::proofs::DigitLaws::digits_laws))]
fn push_digits(text: &mut String, bytes: &[u8]) -> Result<(), AllocError>
    ensures text { OnOk result (string_bytes text.new ≡ string_bytes text.old ++ bytes_digits bytes.now) }
{
    for &byte in bytes {
        push_byte(text, byte)?;
    }
    Ok(())
}

/// Appends bytes.
#[tactic(auto, using(crate::proofs::RowTextLaws::piece_laws))]
fn push_bytes(text: &mut String, bytes: &[u8]) -> Result<(), AllocError>
    ensures text { OnOk result (string_bytes text.new ≡ string_bytes text.old ++ bytes_said bytes.now) }
{
    text.push_str("bytes ")?;
    push_digits(text, bytes)
}

/// Appends a reference to an entry.
#[tactic(auto, unfolding(crate::specs::UnitTexts::entry_said))]
fn push_entry(text: &mut String, unit: u64, number: u64) -> Result<(), AllocError>
    ensures text { OnOk result (string_bytes text.new ≡ string_bytes text.old ++ entry_said unit number) }
{
    write!(text, "entry {unit}:{number}")
}

/// Appends an offset that names nothing.
#[tactic(auto, unfolding(crate::specs::UnitTexts::stray_said))]
pub(crate) fn push_stray(text: &mut String, offset: u64) -> Result<(), AllocError>
    ensures text { OnOk result (string_bytes text.new ≡ string_bytes text.old ++ stray_said offset) }
{
    write!(text, "stray {offset}")
}

/// Appends the number of a line table.
#[tactic(auto, unfolding(crate::specs::UnitTexts::lines_said))]
pub(crate) fn push_lines(text: &mut String, number: u64) -> Result<(), AllocError>
    ensures text { OnOk result (string_bytes text.new ≡ string_bytes text.old ++ lines_said number) }
{
    write!(text, "lines {number}")
}

/// Appends the number of a macro unit.
#[tactic(auto, unfolding(crate::specs::UnitTexts::macros_said))]
pub(crate) fn push_macros(text: &mut String, number: u64) -> Result<(), AllocError>
    ensures text { OnOk result (string_bytes text.new ≡ string_bytes text.old ++ macros_said number) }
{
    write!(text, "macros {number}")
}

/// Appends a signed number.
#[tactic(auto, unfolding(crate::specs::UnitTexts::signed_said))]
pub(crate) fn push_signed(text: &mut String, number: i64) -> Result<(), AllocError>
    ensures text { OnOk result (string_bytes text.new ≡ string_bytes text.old ++ signed_said number) }
{
    write!(text, "signed {number}")
}

/// Appends a number.
#[tactic(auto, unfolding(crate::specs::UnitTexts::number_said))]
fn push_number(text: &mut String, number: u64) -> Result<(), AllocError>
    ensures text { OnOk result (string_bytes text.new ≡ string_bytes text.old ++ number_said number) }
{
    write!(text, "number {number}")
}

/// Appends a flag.
#[tactic(auto, unfolding(crate::specs::UnitTexts::flag_said))]
fn push_flag(text: &mut String, number: u64) -> Result<(), AllocError>
    ensures text { OnOk result (string_bytes text.new ≡ string_bytes text.old ++ flag_said number) }
{
    if number == 0 {
        return text.push_str("flag 0");
    }
    text.push_str("flag 1")
}

/// Appends an address.
#[tactic(auto, unfolding(crate::specs::UnitTexts::address_said))]
fn push_address(text: &mut String, number: u64) -> Result<(), AllocError>
    ensures text { OnOk result (string_bytes text.new ≡ string_bytes text.old ++ address_said number) }
{
    write!(text, "address 0x{number:x}")
}

/// Appends an index.
#[tactic(auto, unfolding(crate::specs::UnitTexts::index_said))]
fn push_index(text: &mut String, number: u64) -> Result<(), AllocError>
    ensures text { OnOk result (string_bytes text.new ≡ string_bytes text.old ++ index_said number) }
{
    write!(text, "index {number}")
}

/// Appends a signature.
#[tactic(auto, unfolding(crate::specs::UnitTexts::signature_said))]
fn push_signature(text: &mut String, number: u64) -> Result<(), AllocError>
    ensures text { OnOk result (string_bytes text.new ≡ string_bytes text.old ++ signature_said number) }
{
    write!(text, "signature 0x{number:x}")
}

/// Appends an offset into another section.
#[tactic(auto, unfolding(crate::specs::UnitTexts::offset_said))]
fn push_offset(text: &mut String, number: u64) -> Result<(), AllocError>
    ensures text { OnOk result (string_bytes text.new ≡ string_bytes text.old ++ offset_said number) }
{
    write!(text, "offset {number}")
}

/// Appends symbol, type and addend of a relocation.
#[tactic(auto, unfolding(crate::specs::UnitTexts::relocation_said))]
fn push_relocation(text: &mut String, symbol: u32, kind: u32, addend: i64) -> Result<(), AllocError>
    ensures text { OnOk result (string_bytes text.new ≡ string_bytes text.old ++ relocation_said symbol kind addend) }
{
    write!(text, "symbol {symbol} type {kind} addend {addend}")
}

/// Appends a number of a class; what values of the last ones mean is said in other words.
#[tactic(auto, using(crate::proofs::AppendLaws::none_laws))]
fn push_number_of(text: &mut String, class: ValueClass, number: u64) -> Result<(), AllocError>
    ensures text { OnOk result (string_bytes text.new ≡ string_bytes text.old ++ class_said class number) }
{
    match class {
        ValueClass::Address => push_address(text, number),
        ValueClass::Number => push_number(text, number),
        ValueClass::Flag => push_flag(text, number),
        ValueClass::AddrIndex | ValueClass::ListIndex => push_index(text, number),
        ValueClass::Signature => push_signature(text, number),
        ValueClass::SecOffset => push_offset(text, number),
        ValueClass::Signed
        | ValueClass::Bytes
        | ValueClass::InlineText
        | ValueClass::StrOffset
        | ValueClass::LineStrOffset
        | ValueClass::StrIndex
        | ValueClass::LocalRef
        | ValueClass::GlobalRef => Ok(()),
    }
}

/// Appends what a field of a class says; of one into a section its offset there.
pub(crate) fn push_field(
    text: &mut String,
    class: ValueClass,
    field: Field,
) -> Result<(), AllocError>
    ensures text { OnOk result (string_bytes text.new ≡ string_bytes text.old ++ field_said class field) }
{
    match field {
        Field::Num(number) => push_number_of(text, class, number),
        Field::Into { section: _, offset } => push_number_of(text, class, offset),
        Field::Sym {
            symbol,
            kind,
            addend,
        } => push_relocation(text, symbol, kind, addend),
    }
}

/// Appends what is said of a value.
pub(crate) fn push_said(text: &mut String, said: &Said) -> Result<(), AllocError>
    ensures text { OnOk result (string_bytes text.new ≡ string_bytes text.old ++ saying_text (saying said.now)) }
{
    match said {
        Said::Text(bytes) => push_text(text, *bytes),
        Said::Entry { unit, number } => push_entry(text, *unit, *number),
        Said::Stray(offset) => push_stray(text, *offset),
        Said::Lines(number) => push_lines(text, *number),
        Said::Macros(number) => push_macros(text, *number),
        Said::Bytes(bytes) => push_bytes(text, *bytes),
        Said::Signed(number) => push_signed(text, *number),
        Said::Field { class, field } => push_field(text, *class, *field),
    }
}
