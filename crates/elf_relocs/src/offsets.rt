//! How the field of a relocation comes to say an offset: by the addend of the record, or where that has none by the number in
//! the field (gABI ch. 4 "Relocation").
//!
//! Read first: `specs/FieldOffsets.antt`.

ghost use Rattle.std.specs.Prelude.{◌≡◌, ◌⊎◌, ◌==◌, ◌+ℤ◌, ◌-ℤ◌, pos, IfSome};
ghost use Rattle.std.specs.Int.{cast_signed, w64};
ghost use Rattle.std.specs.Int.RustNames.{FitsSigned};
ghost use Rattle.dw_base.specs.Cells.{wrapped};
ghost use Rattle.dw_base.specs.Elf.{word_size};
ghost use Rattle.dw_base.specs.Relocs.{word_width};
ghost use Rattle.dw_base.specs.SectionRelocations.{relocation_of, target_of};
ghost use Rattle.dw_base.specs.Symbols.{symbol_at};
ghost use Rattle.dw_base.specs.NewOffsets.{symbol_value};
ghost use Rattle.elf_relocs.specs.FieldOffsets.{addend_by, field_number, number_by, offset_addend};

use crate::source::RelocSource;
use crate::symbols::symbol_at;
use dw_base::{Class, Reloc, Symbol};

/// The number that a field of `size` bytes, 4 or 8, has to hold so that it says `offset` by its relocation: the one that it holds,
/// `number`, where the record has an addend, else the offset less the symbol's value.
#[tactic(auto, using(crate::proofs::OffsetLaws::number_rules))]
pub fn field_number(source: &RelocSource, reloc: &Reloc, size: u8, number: u64, offset: u64) -> u64
    requires size { (size ≡ 4) ⊎ (size ≡ 8) }
    ensures number { result ≡ field_number (relocation_of source.now reloc.now) size number offset }
{
    number_by(
        reloc.addend,
        symbol_value(source, reloc.symbol),
        size,
        number,
        offset,
    )
}

/// The same, from the addend of the record and the value of the symbol.
fn number_by(addend: Option<i64>, value: u64, size: u8, number: u64, offset: u64) -> u64
    requires size { (size ≡ 4) ⊎ (size ≡ 8) }
    ensures number { result ≡ number_by addend value size number offset }
{
    match addend {
        Some(_) => number,
        None => difference(offset, value, size),
    }
}

/// The addend of a record with which the field of `size` bytes, 4 or 8, says `offset` by its relocation: the one that it has, where
/// that makes it already. `None` exactly where the record has none. An addend fits a signed word of the class.
#[tactic(auto, using(crate::proofs::OffsetLaws::addend_rules))]
pub fn offset_addend(source: &RelocSource, reloc: &Reloc, size: u8, offset: u64) -> Option<i64>
    requires size { (size ≡ 4) ⊎ (size ≡ 8) }
    requires fits { IfSome reloc.now.addend (FitsSigned (word_width source.now.class)) }
    ensures addend { result ≡ offset_addend (relocation_of source.now reloc.now) size offset }
    ensures fits { IfSome result (FitsSigned (word_width source.now.class)) }
{
    let value = symbol_value(source, reloc.symbol);
    addend_by(source.class, reloc.addend, value, size, offset)
}

/// The same, from the addend of the record and the value of the symbol.
fn addend_by(class: Class, addend: Option<i64>, value: u64, size: u8, offset: u64) -> Option<i64>
    requires size { (size ≡ 4) ⊎ (size ≡ 8) }
    requires fits { IfSome addend (FitsSigned (word_width class)) }
    ensures addend { result ≡ addend_by class addend value size offset }
    ensures fits { IfSome result (FitsSigned (word_width class)) }
{
    match addend {
        Some(addend) => {
            if sum(value, addend, size) == offset {
                return Some(addend);
            }
            Some(moved_addend(class, value, offset))
        }
        None => None,
    }
}

/// Whether an addend can make an offset of the value of a symbol in a field of `size` bytes, 4 or 8: an addend is a signed word of the
/// class, so false comes only of a field of 8 bytes in a file of 32 bits.
pub fn addend_makes(class: Class, value: u64, size: u8, offset: u64) -> bool
    requires size { (size ≡ 4) ⊎ (size ≡ 8) }
    ensures makes { result ≡ (wrapped (pos value +ℤ cast_signed (word_width class) (wrapped (pos offset -ℤ pos value) (word_size class))) size == offset) }
{
    sum(value, moved_addend(class, value, offset), size) == offset
}

/// The addend that makes an offset of a symbol's value, as a signed word of the class.
fn moved_addend(class: Class, value: u64, offset: u64) -> i64
    ensures addend { result ≡ cast_signed (word_width class) (wrapped (pos offset -ℤ pos value) (word_size class)) }
    ensures fits { FitsSigned (word_width class) result }
{
    match class {
        Class::C32 => i64::from((difference(offset, value, 4) as u32).cast_signed()),
        Class::C64 => difference(offset, value, 8).cast_signed(),
    }
}

/// An offset less a value, in so many bytes.
#[tactic(auto, using(crate::proofs::OffsetLaws::difference_rules))]
fn difference(offset: u64, value: u64, size: u8) -> u64
    requires size { (size ≡ 4) ⊎ (size ≡ 8) }
    ensures difference { result ≡ wrapped (pos offset -ℤ pos value) size }
{
    let difference = offset.wrapping_sub(value);
    if size == 4 {
        return difference % 0x1_0000_0000;
    }
    difference
}

/// A value and an addend, in so many bytes.
#[tactic(auto, using(crate::proofs::OffsetLaws::sum_rules))]
fn sum(value: u64, addend: i64, size: u8) -> u64
    requires size { (size ≡ 4) ⊎ (size ≡ 8) }
    ensures sum { result ≡ wrapped (pos value +ℤ addend) size }
{
    let sum = value.wrapping_add(addend.cast_unsigned());
    if size == 4 {
        return sum % 0x1_0000_0000;
    }
    sum
}

/// The value of the symbol of a number; 0 where it isn't defined.
fn symbol_value(source: &RelocSource, symbol: u32) -> u64
    ensures value { result ≡ symbol_value (target_of (symbol_at source.now.class source.now.order source.now.symbols source.now.extended symbol)) }
{
    value_of(symbol_at(
        source.class,
        source.order,
        source.symbols,
        source.extended,
        symbol,
    ))
}

/// The value of a symbol; 0 where there is none, or it isn't defined.
fn value_of(symbol: Option<Symbol>) -> u64
    ensures value { result ≡ symbol_value (target_of symbol) }
{
    match symbol {
        Some(symbol) => { if symbol.defined { symbol.value } else { 0 } }
        None => 0,
    }
}
