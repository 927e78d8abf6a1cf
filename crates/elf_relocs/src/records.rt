//! Where a record of a table stands, and words of the class at a place.

ghost use Rattle.std.specs.Prelude.{◌≡◌, ◌+◌, ◌*◌, ◌≤◌, ◌<◌, ◌^◌, false, true, length, MatchOption};
ghost use Rattle.dw_base.specs.Elf.{word_size};
ghost use Rattle.dw_base.specs.Numbers.{spelled, with_number};
ghost use Rattle.dw_base.specs.TableRecords.{has_record};

use dw_base::{Class, Order, number_in, put_number};

/// Where the record of this number stands, in bytes, in a table of records of this size.
/// `None` exactly where it doesn't fit.
pub fn record_place(table: &[u8], index: u64, size: u8) -> Option<u64>
    ensures place { MatchOption result (has_record table.now index size ≡ false)
        (λ place. (has_record table.now index size ≡ true) × (place ≡ index * size)) }
{
    let len = table.len() as u64;
    match index.checked_mul(u64::from(size)) {
        Some(place) => {
            if place > len {
                return None;
            }
            if u64::from(size) > len - place {
                return None;
            }
            Some(place)
        }
        None => None,
    }
}

/// The word of the class at a place.
pub fn class_word(class: Class, order: Order, table: &[u8], place: u64) -> u64
    requires inside { place + word_size class ≤ length table.now }
    ensures value { result ≡ spelled order table.now place (word_size class) }
    ensures fits { result < 256 ^ word_size class }
{
    match class {
        Class::C32 => number_in(order, table, place, 4),
        Class::C64 => number_in(order, table, place, 8),
    }
}

/// Puts a word of the class at a place.
pub fn put_class_word(class: Class, order: Order, table: &mut [u8], place: u64, value: u64)
    requires inside { place + word_size class ≤ length table.old }
    requires fits { value < 256 ^ word_size class }
    ensures put { table.new ≡ with_number order table.old place (word_size class) value }
{
    match class {
        Class::C32 => put_number(order, table, place, 4, value),
        Class::C64 => put_number(order, table, place, 8, value),
    };
}
