//! The lines of units, of entries and of attributes.

ghost use Rattle.std.specs.Prelude.{◌≡◌, ◌++◌, OnOk, codes};
ghost use Rattle.std.specs.String.{string_bytes};
ghost use Rattle.dbg_show.specs.UnitTexts.{attribute_front, entry_line, signature_text, unit_front, unit_line, unit_params, width_bits};

use dw_base::dwarf_numbers::DW_UT_type;
use dw_base::{UnitHeader, Width};
use std::alloc::AllocError;

/// How many bits the offsets of a unit have.
fn width_bits(width: Width) -> u8
    ensures { result ≡ width_bits width }
{
    match width {
        Width::W32 => 32,
        Width::W64 => 64,
    }
}

/// Appends what stands in front of the name of a unit's section.
#[tactic(auto, unfolding(crate::specs::UnitTexts::unit_front))]
fn push_unit_front(text: &mut String, number: u64) -> Result<(), AllocError>
    ensures text { OnOk result (string_bytes text.new ≡ string_bytes text.old ++ unit_front number) }
{
    write!(text, "unit {number} ")
}

/// Appends a text as it is.
fn push_str(text: &mut String, piece: &str) -> Result<(), AllocError>
    ensures text { OnOk result (string_bytes text.new ≡ string_bytes text.old ++ piece.now) }
{
    text.push_str(piece)
}

/// Appends what the values of a unit depend on.
#[tactic(auto, unfolding(crate::specs::UnitTexts::unit_params))]
fn push_params(text: &mut String, version: u16, bits: u8, address: u8) -> Result<(), AllocError>
    ensures text { OnOk result (string_bytes text.new ≡ string_bytes text.old ++ unit_params version bits address) }
{
    write!(text, " version {version} bits {bits} address {address}")
}

/// Appends the signature of a unit of a type.
#[tactic(auto, unfolding(crate::specs::UnitTexts::signature_text))]
fn push_signature(text: &mut String, kind: u8, signature: u64) -> Result<(), AllocError>
    ensures text { OnOk result (string_bytes text.new ≡ string_bytes text.old ++ signature_text kind signature) }
{
    if u64::from(kind) == DW_UT_type {
        return write!(text, " signature 0x{signature:x}");
    }
    Ok(())
}

/// Appends the first line of the unit of a number, in a section of a name.
#[tactic(auto, using(crate::proofs::RowTextLaws::piece_laws))]
pub(crate) fn push_unit(
    text: &mut String,
    number: u64,
    section: &str,
    unit: &UnitHeader,
) -> Result<(), AllocError>
    ensures text { OnOk result (string_bytes text.new ≡ string_bytes text.old ++ unit_line number section.now unit.now.params.version unit.now.params.width unit.now.params.address unit.now.kind unit.now.signature) }
{
    push_unit_front(text, number)?;
    push_str(text, section)?;
    let params = &unit.params;
    push_params(
        text,
        params.version,
        width_bits(params.width),
        params.address,
    )?;
    push_signature(text, unit.kind, unit.signature)?;
    push_end(text)
}

/// Appends the line of an entry.
#[tactic(auto, unfolding(crate::specs::UnitTexts::entry_line))]
pub(crate) fn push_entry(
    text: &mut String,
    number: u64,
    depth: u32,
    tag: u64,
) -> Result<(), AllocError>
    ensures text { OnOk result (string_bytes text.new ≡ string_bytes text.old ++ entry_line number depth tag) }
{
    write!(text, "entry {number} depth {depth} tag 0x{tag:x}\n")
}

/// Appends what stands in front of a value.
#[tactic(auto, unfolding(crate::specs::UnitTexts::attribute_front))]
pub(crate) fn push_attribute_front(text: &mut String, name: u64) -> Result<(), AllocError>
    ensures text { OnOk result (string_bytes text.new ≡ string_bytes text.old ++ attribute_front name) }
{
    write!(text, "attr 0x{name:x} ")
}

/// Appends the end of a line.
pub(crate) fn push_end(text: &mut String) -> Result<(), AllocError>
    ensures text { OnOk result (string_bytes text.new ≡ string_bytes text.old ++ codes "\n") }
{
    text.push_str("\n")
}
