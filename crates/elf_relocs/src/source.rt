//! What the relocations of a section are read from, and its records one by one (gABI ch. 4 "Relocation").
//!
//! Read first: `dw_base/specs/SectionRelocations.antt`.

ghost use Rattle.std.specs.Prelude.{◌≡◌, ◌/◌, ◌<◌, length, IfSome};
ghost use Rattle.std.specs.Int.RustNames.{FitsSigned};
ghost use Rattle.dw_base.specs.AbsoluteTypes.{absolute_types};
ghost use Rattle.dw_base.specs.Relocs.{reloc_at, reloc_size, word_width};
ghost use Rattle.dw_base.specs.SectionRelocations.{RelocationSource, is_none_type, records_in};

use crate::absolute_types::is_listed;
use crate::relocs::reloc_at;
use dw_base::{Class, Order, Reloc};
use std::marker::Model;

/// What the relocations of a section are read from.
#[derive(Drop)]
pub struct RelocSource<'a> {
    /// The class of the file.
    pub class: Class,
    /// Its byte order.
    pub order: Order,
    /// `e_machine`.
    pub machine: u16,
    /// Whether the records have addends (`SHT_RELA`).
    pub rela: bool,
    /// The records.
    pub table: &'a [u8],
    /// The symbol table.
    pub symbols: &'a [u8],
    /// The table of section numbers that goes with it (`SHT_SYMTAB_SHNDX`), or none.
    pub extended: &'a [u8],
}

impl<'a> Model for RelocSource<'a> {
    ghost Value = { RelocationSource };

    ghost view = { λ s. record { class = s.class; order = s.order; machine = s.machine; rela = s.rela; table = s.table.now; symbols = s.symbols.now; extended = s.extended.now } };
}

/// How many whole records there are.
#[tactic(auto, using(crate::proofs::SourceLaws::count_rules))]
pub fn record_count(source: &RelocSource) -> u64
    ensures count { result ≡ length (records_in source.now) }
{
    count_in(source.table, record_size(source.class, source.rela))
}

/// How many records of a size, in bytes, a table has.
fn count_in(table: &[u8], size: u64) -> u64
    requires some { 0 < size }
    ensures count { result ≡ length table.now / size }
{
    table.len() as u64 / size
}

/// The size of a record, in bytes.
fn record_size(class: Class, rela: bool) -> u64
    ensures size { result ≡ reloc_size class rela }
    ensures some { 0 < result }
{
    match (class, rela) {
        (Class::C32, false) => 8,
        (Class::C32, true) => 12,
        (Class::C64, false) => 16,
        (Class::C64, true) => 24,
    }
}

/// The record of a number, counted from 0. `None` exactly where it isn't there.
pub fn record(source: &RelocSource, index: u64) -> Option<Reloc>
    ensures value { result ≡ reloc_at source.now.class source.now.order source.now.rela source.now.table index }
    ensures fits { IfSome result (λ r. IfSome r.addend (FitsSigned (word_width source.now.class))) }
{
    reloc_at(source.class, source.order, source.rela, source.table, index)
}

/// Whether a record of a type is no relocation: 0 of a machine that is listed.
#[tactic(auto, unfolding(dw_base::specs::SectionRelocations::is_none_type))]
pub fn is_none_type(source: &RelocSource, kind: u32) -> bool
    ensures value { result ≡ is_none_type source.now.machine kind }
{
    is_listed(source.machine) && kind == 0
}
