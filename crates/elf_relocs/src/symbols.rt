//! The symbols of a symbol table (gABI ch. 4 "Symbol Table").

ghost use Rattle.std.specs.Prelude.{◌≡◌, ◌+◌, ◌≤◌, ◌<◌, ◌^◌, ◌&&◌, nat_lt, length, IfSome};
ghost use Rattle.dw_base.specs.declared.elf_numbers.TheConstants.{SHN_LORESERVE};
ghost use Rattle.dw_base.specs.Symbols.{sym_size, symbol_in, symbol_by, plain_symbol, symbol_at};

use crate::records::record_place;
use dw_base::elf_numbers::{SHN_LORESERVE, SHN_XINDEX};
use dw_base::{Class, Order, Symbol, number_at, number_in};

/// Symbol `index`, counted from 0, of a symbol table; `extended` are the bytes of the table of section
/// numbers that goes with it (`SHT_SYMTAB_SHNDX`), or none. `None` exactly where the record doesn't
/// fit, or its number in the other table, where `st_shndx` asks for it, doesn't.
#[tactic(auto, unfolding(dw_base::specs::Symbols::symbol_at))]
pub fn symbol_at(
    class: Class,
    order: Order,
    table: &[u8],
    extended: &[u8],
    index: u32,
) -> Option<Symbol>
    ensures value { result ≡ symbol_at class order table.now extended.now index }
{
    match record_place(table, u64::from(index), sym_size(class)) {
        Some(place) => {
            let word = number_at(order, extended, u64::from(index) * 4, 4);
            symbol_in(class, order, table, place, word)
        }
        None => None,
    }
}

/// The size of a symbol, in bytes.
fn sym_size(class: Class) -> u8
    ensures value { result ≡ sym_size class }
{
    match class {
        Class::C32 => 16,
        Class::C64 => 24,
    }
}

/// The symbol at a place, with its number in the table of section numbers.
fn symbol_in(
    class: Class,
    order: Order,
    table: &[u8],
    place: u64,
    word: Option<u64>,
) -> Option<Symbol>
    requires inside { place + sym_size class ≤ length table.now }
    requires word { IfSome word (λ n. n < 256 ^ 4) }
    ensures value { result ≡ symbol_in class order table.now place word }
{
    match class {
        Class::C32 => symbol_by(
            number_in(order, table, place + 4, 4),
            number_in(order, table, place + 14, 2) as u16,
            word,
        ),
        Class::C64 => symbol_by(
            number_in(order, table, place + 8, 8),
            number_in(order, table, place + 6, 2) as u16,
            word,
        ),
    }
}

/// The symbol of this value and section number, with the number in the table of section numbers.
#[tactic(auto, unfolding(dw_base::specs::Symbols::symbol_by))]
fn symbol_by(value: u64, shndx: u16, word: Option<u64>) -> Option<Symbol>
    requires word { IfSome word (λ n. n < 256 ^ 4) }
    ensures value { result ≡ symbol_by value shndx word }
{
    if shndx != SHN_XINDEX {
        return Some(plain_symbol(value, shndx));
    }
    match word {
        Some(section) => Some(Symbol {
            value,
            section: section as u32,
            defined: true,
        }),
        None => None,
    }
}

/// The symbol of this value and section number of its own.
fn plain_symbol(value: u64, section: u16) -> Symbol
    ensures value { result ≡ plain_symbol value section }
{
    let defined = is_ordinary(section);
    Symbol {
        value,
        section: u32::from(section),
        defined,
    }
}

/// Whether a section number is one of a section: neither 0 nor reserved.
fn is_ordinary(section: u16) -> bool
    ensures value { result ≡ (nat_lt 0 section && nat_lt section SHN_LORESERVE) }
{
    0 < section && section < SHN_LORESERVE
}
