//! The relocations of a relocation section (gABI ch. 4 "Relocation"), read and written.

ghost use Rattle.std.specs.Prelude.{◌≡◌, ◌+◌, ◌≤◌, ◌<◌, ◌^◌, ◌↔◌, ◌≢◌, ℕ, length, option_map, Some, None, if◌then◌else◌, IsTrue, IfSome};
ghost use Rattle.std.specs.Bool.{OnTrue, OnFalse};
ghost use Rattle.std.specs.Int.{cast_signed, cast_unsigned};
ghost use Rattle.std.specs.Int.RustNames.{FitsSigned};
ghost use Rattle.dw_base.specs.Elf.{word_size};
ghost use Rattle.dw_base.specs.Numbers.{spelled};
ghost use Rattle.dw_base.specs.Relocs.{reloc_size, info_place, addend_place, word_width, r_addend, r_sym, r_type, reloc_in, reloc_at};
ghost use Rattle.dw_base.specs.RelocChanges.{RelocFits, written, with_word, with_reloc, moved};

use crate::records::{class_word, put_class_word, record_place};
use dw_base::{Class, Order, Reloc};

/// Relocation `index`, counted from 0, of a section with addends (`rela`; `SHT_RELA`) or without
/// (`SHT_REL`). `None` exactly where the record doesn't fit.
#[tactic(auto, unfolding(dw_base::specs::Relocs::reloc_at))]
pub fn reloc_at(class: Class, order: Order, rela: bool, table: &[u8], index: u64) -> Option<Reloc>
    ensures value { result ≡ reloc_at class order rela table.now index }
    ensures fits { IfSome result (λ r. IfSome r.addend (FitsSigned (word_width class))) }
{
    match record_place(table, index, reloc_size(class, rela)) {
        Some(place) => Some(reloc_in(class, order, rela, table, place)),
        None => None,
    }
}

/// The size of a relocation, in bytes.
fn reloc_size(class: Class, rela: bool) -> u8
    ensures value { result ≡ reloc_size class rela }
{
    match (class, rela) {
        (Class::C32, false) => 8,
        (Class::C32, true) => 12,
        (Class::C64, false) => 16,
        (Class::C64, true) => 24,
    }
}

/// The relocation at a place.
fn reloc_in(class: Class, order: Order, rela: bool, table: &[u8], place: u64) -> Reloc
    requires inside { place + reloc_size class rela ≤ length table.now }
    ensures value { result ≡ reloc_in class order rela table.now place }
    ensures fits { IfSome result.addend (FitsSigned (word_width class)) }
{
    let offset = class_word(class, order, table, place);
    let info = class_word(class, order, table, info_place(class, place));
    let (symbol, kind) = sym_and_type(class, info);
    let addend = addend_of(class, order, rela, table, place);
    Reloc {
        offset,
        symbol,
        kind,
        addend,
    }
}

/// The addend of the relocation at a place, where its record has one.
fn addend_of(class: Class, order: Order, rela: bool, table: &[u8], place: u64) -> Option<i64>
    requires inside { place + reloc_size class rela ≤ length table.now }
    ensures value { result ≡ (if rela then Some (r_addend class order table.now place) else None) }
    ensures fits { IfSome result (FitsSigned (word_width class)) }
{
    if !rela {
        return None;
    }
    Some(addend_in(class, order, table, addend_place(class, place)))
}

/// Where the second word of a record stands.
fn info_place(class: Class, place: u64) -> u64
    requires small { place < 2 ^ 63 }
    ensures value { result ≡ info_place class place }
{
    match class {
        Class::C32 => place + 4,
        Class::C64 => place + 8,
    }
}

/// Where the third word of a record stands.
fn addend_place(class: Class, place: u64) -> u64
    requires small { place < 2 ^ 63 }
    ensures value { result ≡ addend_place class place }
{
    match class {
        Class::C32 => place + 8,
        Class::C64 => place + 16,
    }
}

/// Symbol and type, of the second word (`ELF32_R_SYM` and its like).
fn sym_and_type(class: Class, info: u64) -> (u32, u32)
    requires fits { info < 256 ^ word_size class }
    ensures symbol { result.0 ≡ r_sym class info }
    ensures kind { result.1 ≡ r_type class info }
{
    match class {
        Class::C32 => ((info / 0x100) as u32, (info % 0x100) as u32),
        Class::C64 => ((info / 0x1_0000_0000) as u32, (info % 0x1_0000_0000) as u32),
    }
}

/// The signed word at a place.
fn addend_in(class: Class, order: Order, table: &[u8], at: u64) -> i64
    requires inside { at + word_size class ≤ length table.now }
    ensures value { result ≡ cast_signed (word_width class) (spelled order table.now at (word_size class)) }
    ensures fits { FitsSigned (word_width class) result }
{
    let word = class_word(class, order, table, at);
    match class {
        Class::C32 => i64::from((word as u32).cast_signed()),
        Class::C64 => word.cast_signed(),
    }
}

/// Writes place and addend of relocation `index`; the addend only in a section with addends, and only
/// where one is given. `false` exactly where the record doesn't fit, or a number that is written
/// doesn't fit its word; then nothing changes.
#[tactic(auto, using(dw_base::proofs::RelocLaws::set_rules))]
pub fn set_reloc(
    class: Class,
    order: Order,
    rela: bool,
    table: &mut [u8],
    index: u64,
    offset: u64,
    addend: Option<i64>,
) -> bool
    ensures fits { IsTrue result ↔ RelocFits class rela table.old index offset addend }
    ensures set { OnTrue result (table.new ≡ with_reloc class order rela table.old index offset addend) }
    ensures kept { OnFalse result (table.new ≡ table.old) }
    ensures reads_back { OnTrue result (reloc_at class order rela table.new index ≡ option_map (moved offset addend) (reloc_at class order rela table.old index)) }
    ensures others { (k : ℕ) → OnTrue result (k ≢ index → reloc_at class order rela table.new k ≡ reloc_at class order rela table.old k) }
{
    if !reloc_fits(class, rela, table, index, offset, addend) {
        return false;
    }
    put_reloc(class, order, rela, table, index, offset, addend);
    true
}

/// Whether a relocation can be written: its record is there, and each number that is written fits.
fn reloc_fits(
    class: Class,
    rela: bool,
    table: &[u8],
    index: u64,
    offset: u64,
    addend: Option<i64>,
) -> bool
    ensures fits { IsTrue result ↔ RelocFits class rela table.now index offset addend }
{
    if record_place(table, index, reloc_size(class, rela)).is_none() {
        return false;
    }
    if !word_fits(class, offset) {
        return false;
    }
    addend_fits(class, written(rela, addend))
}

/// The addend that is written.
fn written(rela: bool, addend: Option<i64>) -> Option<i64>
    ensures value { result ≡ written rela addend }
{
    if rela { addend } else { None }
}

/// Writes place and addend of a relocation.
#[tactic(auto, unfolding(dw_base::specs::RelocChanges::with_reloc))]
fn put_reloc(
    class: Class,
    order: Order,
    rela: bool,
    table: &mut [u8],
    index: u64,
    offset: u64,
    addend: Option<i64>,
)
    requires fits { RelocFits class rela table.old index offset addend }
    ensures set { table.new ≡ with_reloc class order rela table.old index offset addend }
{
    let place = index * u64::from(reloc_size(class, rela));
    put_class_word(class, order, table, place, offset);
    put_addend(
        class,
        order,
        table,
        addend_place(class, place),
        written(rela, addend),
    );
}

/// Whether a number fits a word of the class.
fn word_fits(class: Class, value: u64) -> bool
    ensures fits { IsTrue result ↔ (value < 256 ^ word_size class) }
{
    match class {
        Class::C32 => value < 0x1_0000_0000,
        Class::C64 => true,
    }
}

/// Whether an addend fits a signed word of the class, where there is one.
fn addend_fits(class: Class, addend: Option<i64>) -> bool
    ensures fits { IsTrue result ↔ IfSome addend (FitsSigned (word_width class)) }
{
    match addend {
        Some(addend) => signed_fits(class, addend),
        None => true,
    }
}

/// Whether a number fits a signed word of the class.
fn signed_fits(class: Class, value: i64) -> bool
    ensures fits { IsTrue result ↔ FitsSigned (word_width class) value }
{
    match class {
        Class::C32 => i32::try_from(value).is_ok(),
        Class::C64 => true,
    }
}

/// Puts an addend into the signed word at a place, where there is one.
fn put_addend(class: Class, order: Order, table: &mut [u8], at: u64, addend: Option<i64>)
    requires inside { IfSome addend (λ a. at + word_size class ≤ length table.old) }
    requires fits { IfSome addend (FitsSigned (word_width class)) }
    ensures put { table.new ≡ with_word class order table.old at addend }
{
    match addend {
        Some(addend) => {
            let word = unsigned_word(class, addend);
            put_class_word(class, order, table, at, word);
        }
        None => {}
    }
}

/// A signed word as one without a sign, in two's complement.
fn unsigned_word(class: Class, value: i64) -> u64
    requires fits { FitsSigned (word_width class) value }
    ensures value { result ≡ cast_unsigned (word_width class) value }
    ensures fits { result < 256 ^ word_size class }
{
    match class {
        Class::C32 => u64::from((value as i32).cast_unsigned()),
        Class::C64 => value.cast_unsigned(),
    }
}
