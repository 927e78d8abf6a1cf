//! Symbols and relocations (gABI ch. 4 "Symbol Table", "Relocation"), on the bytes of their sections.
//!
//! This layer promises: a symbol or a relocation is what the bytes of its record spell, in both classes
//! and byte orders, with and without addends, and `None` comes exactly where no whole record stands
//! there; a record that is written has the new place and addend, reads back, and no other byte
//! changes. No call takes memory, and each index is taken.
//! It does not promise: that a relocation's symbol is there, or that its place lies in a section.
//! Read first: in `dw_base`, `specs/Symbols.antt`, then `specs/Relocs.antt` and `specs/AbsoluteTypes.antt`.
//!
//! ```rust
//! use elf_relocs::relocation_numbers::EM_X86_64;
//! use elf_relocs::{Class, Order, Reloc, absolute_size, reloc_at, set_reloc};
//!
//! // `.debug_abbrev + 5` at 8, by R_X86_64_32 (type 10) and symbol 7.
//! let mut table = [8, 0, 0, 0, 0, 0, 0, 0, 10, 0, 0, 0, 7, 0, 0, 0, 5, 0, 0, 0, 0, 0, 0, 0];
//! let (class, order) = (Class::C64, Order::Little);
//! let reloc = Reloc { offset: 8, symbol: 7, kind: 10, addend: Some(5) };
//! assert_eq!(rt; reloc_at(class, order, true, &table, 0), Some(reloc));
//! assert_eq!(rt; absolute_size(EM_X86_64, reloc.kind), Some(4));
//! assert!(rt; set_reloc(class, order, true, &mut table, 0, 8, Some(-1)));
//! ```
#![tactic(auto)]

mod absolute_types;
mod offsets;
mod records;
mod relocs;
mod runs;
mod source;
mod symbols;

pub use absolute_types::absolute_size;
pub use dw_base::{Class, Order, Reloc, Symbol, relocation_numbers};
pub use offsets::{addend_makes, field_number, offset_addend};
pub use relocs::{reloc_at, set_reloc};
pub use runs::Run;
pub use source::{RelocSource, is_none_type, record, record_count};
pub use symbols::symbol_at;
