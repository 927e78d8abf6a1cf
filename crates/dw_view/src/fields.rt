//! What fields read as, by the relocations that begin at them (gABI ch. 4 "Relocation").

ghost use Rattle.std.specs.Prelude.{◌≡◌, ◌⊎◌, ◌+◌, ◌%◌, ◌<◌, ◌≤◌, ◌^◌, ◌+ℤ◌, pos, length, Some, None, IfSome, IsTrue, ◌↔◌, option_map};
ghost use Rattle.std.specs.Int.{w64};
ghost use Rattle.std.specs.Int.RustNames.{FitsSigned};
ghost use Rattle.dw_base.specs.Symbols.{symbol_at};
ghost use Rattle.dw_base.specs.Cells.{addend_of, address_by, field_by, is_placed, shown_addend, symbol_field, targeted, wrapped};
ghost use Rattle.dw_base.specs.SectionRelocations.{records_in, relocation_of, target_of};
ghost use Rattle.dw_base.specs.declared.view_fields.Field.TheVariants.{Sym};
ghost use Rattle.dw_view.specs.Places.{added, record_of};
ghost use Rattle.dw_view.specs.Relocations.{relocation_value};

use dw_base::{Class, Field, Reloc, Symbol};
use elf_relocs::{RelocSource, absolute_size, record, symbol_at};

/// A relocation that begins at a field.
#[derive(Clone, Copy, Debug, PartialEq, Eq, Drop)]
pub struct Relocation {
    /// The class of its file.
    pub class: Class,
    /// The number of its symbol.
    pub symbol: u32,
    /// Its type.
    pub kind: u32,
    /// The size of the field of its type, in bytes. `None` where the type isn't an absolute one.
    pub size: Option<u8>,
    /// The addend of its record. `None` where the records have none (`SHT_REL`): the field has it.
    pub addend: Option<i64>,
    /// Where its symbol is defined: the number of the section, and the symbol's value there. `None` where it isn't.
    pub target: Option<(u32, u64)>,
}

/// The relocation of the record of a number.
#[tactic(auto, using(crate::proofs::FieldLaws::record_rules))]
pub fn relocation_of(source: &RelocSource, index: u64) -> Relocation
    requires there { index < length (records_in source.now) }
    ensures value { relocation_value result ≡ relocation_of source.now (record_of source.now index) }
    ensures sizes { IfSome result.size (λ n. (n ≡ 4) ⊎ (n ≡ 8)) }
{
    match record(source, index) {
        Some(reloc) => of_reloc(source, reloc),
        None => nothing(source.class),
    }
}

/// No relocation.
fn nothing(class: Class) -> Relocation
    ensures sizes { result.size ≡ None }
{
    Relocation {
        class,
        symbol: 0,
        kind: 0,
        size: None,
        addend: None,
        target: None,
    }
}

/// The relocation of a record.
#[tactic(auto, using(crate::proofs::FieldLaws::size_rules), unfolding(dw_base::specs::SectionRelocations::relocation_of))]
fn of_reloc(source: &RelocSource, reloc: Reloc) -> Relocation
    ensures value { relocation_value result ≡ relocation_of source.now reloc }
    ensures sizes { IfSome result.size (λ n. (n ≡ 4) ⊎ (n ≡ 8)) }
{
    Relocation {
        class: source.class,
        symbol: reloc.symbol,
        kind: reloc.kind,
        size: absolute_size(source.machine, reloc.kind),
        addend: reloc.addend,
        target: target(source, reloc.symbol),
    }
}

/// Where the symbol of a number is defined.
fn target(source: &RelocSource, symbol: u32) -> Option<(u32, u64)>
    ensures target { result ≡ target_of (symbol_at source.now.class source.now.order source.now.symbols source.now.extended symbol) }
{
    target_of(symbol_at(
        source.class,
        source.order,
        source.symbols,
        source.extended,
        symbol,
    ))
}

/// Where the symbol of the relocation of the record of a number is defined.
#[tactic(auto, using(crate::proofs::FieldLaws::symbol_rules))]
pub fn target_by(source: &RelocSource, index: u64) -> Option<(u32, u64)>
    requires there { index < length (records_in source.now) }
    ensures { result ≡ (relocation_of source.now (record_of source.now index)).target }
{
    match record(source, index) {
        Some(reloc) => target(source, reloc.symbol),
        None => None,
    }
}

/// Where a symbol is defined: the number of the section, and its value there.
fn target_of(symbol: Option<Symbol>) -> Option<(u32, u64)>
    ensures target { result ≡ target_of symbol }
{
    match symbol {
        Some(symbol) => {
            if symbol.defined {
                Some((symbol.section, symbol.value))
            } else {
                None
            }
        }
        None => None,
    }
}

/// What a field of `size` bytes with a number in it reads as, by the relocation that begins at it.
pub fn field_by(relocation: Option<Relocation>, size: u8, number: u64) -> Field
    requires sizes { IfSome relocation (λ r. IfSome r.size (λ n. (n ≡ 4) ⊎ (n ≡ 8))) }
    ensures value { result ≡ field_by (option_map relocation_value relocation) size number }
{
    match relocation {
        Some(relocation) => relocated(relocation, size, number),
        None => Field::Num(number),
    }
}

/// What an address with a number in it reads as, by the relocation that begins at it, whatever its type.
pub fn address_by(relocation: Option<Relocation>, number: u64) -> Field
    ensures value { result ≡ address_by (option_map relocation_value relocation) number }
{
    match relocation {
        Some(relocation) => of_symbol(relocation, number),
        None => Field::Num(number),
    }
}

/// A field is a number or a place, and not a symbol that has none.
pub fn is_placed(field: Field) -> bool
    ensures { result ≡ is_placed field }
{
    match field {
        Field::Num(_) => true,
        Field::Into { .. } => true,
        Field::Sym { .. } => false,
    }
}

/// What a field reads as by a relocation.
#[tactic(auto, using(crate::proofs::FieldLaws::field_rules))]
fn relocated(relocation: Relocation, size: u8, number: u64) -> Field
    requires sizes { IfSome relocation.size (λ n. (n ≡ 4) ⊎ (n ≡ 8)) }
    ensures value { result ≡ field_by (Some (relocation_value relocation)) size number }
{
    if is_own(relocation.size, size) {
        return targeted(relocation, size, number);
    }
    of_symbol(relocation, number)
}

/// Whether a relocation is one for fields of so many bytes.
fn is_own(own: Option<u8>, size: u8) -> bool
    ensures own { IsTrue result ↔ (own ≡ Some size) }
{
    match own {
        Some(own) => own == size,
        None => false,
    }
}

/// What a field of its size reads as, by where its symbol is defined.
#[tactic(auto, using(crate::proofs::FieldLaws::target_rules))]
fn targeted(relocation: Relocation, size: u8, number: u64) -> Field
    requires size { (size ≡ 4) ⊎ (size ≡ 8) }
    ensures value { result ≡ targeted relocation.target (relocation_value relocation) size number }
{
    match relocation.target {
        Some((section, value)) => Field::Into {
            section,
            offset: offset_of(relocation.addend, value, size, number),
        },
        None => of_symbol(relocation, number),
    }
}

/// A symbol's value with an addend, or the number in the field, in so many bytes.
#[tactic(auto, using(crate::proofs::FieldLaws::offset_rules))]
fn offset_of(addend: Option<i64>, value: u64, size: u8, number: u64) -> u64
    requires size { (size ≡ 4) ⊎ (size ≡ 8) }
    requires fits { IfSome addend (FitsSigned w64) }
    ensures offset { result ≡ wrapped (pos value +ℤ addend_of addend number) size }
{
    wrapped_sum(value, added(addend, number), size)
}

/// The symbol of a relocation, with what is added to its value.
fn of_symbol(relocation: Relocation, number: u64) -> Field
    ensures symbol { result ≡ Sym relocation.symbol relocation.kind (shown_addend relocation.addend number) }
{
    Field::Sym {
        symbol: relocation.symbol,
        kind: relocation.kind,
        addend: shown(relocation.addend, number),
    }
}

/// The addend of a record, or the number in the field.
fn shown(addend: Option<i64>, number: u64) -> i64
    ensures shown { result ≡ shown_addend addend number }
{
    match addend {
        Some(addend) => addend,
        None => number.cast_signed(),
    }
}

/// The same as a number that is added modulo 2^64.
fn added(addend: Option<i64>, number: u64) -> u64
    ensures added { result ≡ added addend number }
{
    match addend {
        Some(addend) => addend.cast_unsigned(),
        None => number,
    }
}

/// The sum of two numbers in so many bytes.
#[tactic(auto, using(crate::proofs::FieldLaws::sum_rules))]
fn wrapped_sum(value: u64, addend: u64, size: u8) -> u64
    requires size { (size ≡ 4) ⊎ (size ≡ 8) }
    ensures sum { result ≡ (value + addend) % 256 ^ size }
{
    let sum = value.wrapping_add(addend);
    if size == 4 { sum % 0x1_0000_0000 } else { sum }
}
