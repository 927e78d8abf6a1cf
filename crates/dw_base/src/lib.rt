//! What every crate above speaks of: shared types, numbers at places in a file, and the definitions.
//!
//! This layer promises: numbers, LEB128 values and initial lengths at a place are those that the
//! bytes spell (gABI ch. 4 "Data Representation"; DWARF 5, 7.4 and 7.6), and `None` comes exactly
//! where none stands there.
//! It does not promise: anything of whole files; the crates above state that, in the words of
//! `specs/`.
//! Read first: `specs/Numbers.antt`, then `specs/Elf.antt` and `specs/Forms.antt`.
//!
//! ```rust
//! let bytes = [0x0b, 0x00, 0x00, 0x00, 0xe5, 0x8e, 0x26];
//! assert_eq!(initial_length_at(Order::Little, &bytes, 0), Some((Width::W32, 11, 4)));
//! assert_eq!(uleb_at(&bytes, 4), Some((624485, 3)));
//! assert_eq!(number_at(Order::Big, &bytes, 6, 2), None);
//! ```
#![tactic(auto)]

mod debug_sections;
pub mod dwarf_numbers;
pub mod elf_numbers;
mod fault;
mod file_header;
mod lebs;
mod limits;
pub mod line_numbers;
mod line_rows;
pub mod line_tables;
pub mod macro_numbers;
pub mod macro_units;
mod name_tables;
mod numbers;
mod records;
pub mod relocation_numbers;
mod relocations;
mod shared;
mod string_offsets;
mod texts;
mod units;
mod values;
mod view_fields;

pub use debug_sections::{
    DebugRow, DebugSection, LISTED_COUNT, READ_SECTIONS, listed_number, moves,
};
pub use fault::{Fault, Kind, NoMemory, Refusal};
pub use lebs::{FIRST_RESERVED_LENGTH, initial_length_at, sleb_at, uleb_at};
pub use limits::{FILE_LIMIT, OUTPUT_LIMIT};
pub use line_rows::{LineParams, Operation, Row};
pub use line_tables::{FilePlace, LineHeader, LineText, TextPlace};
pub use macro_units::{MacroEvent, MacroHeader, MacroOperation, MacroUnit};
pub use name_tables::{NameCounts, NameTable};
pub use numbers::{fits_size, number_at, number_in, push_long, push_word, put_number};
pub use records::{FileKind, Section, Segment};
pub use relocations::{AbsoluteTypes, Reloc, Symbol};
pub use shared::{Class, Order, Params, Width};
pub use string_offsets::Contribution;
pub use texts::{TextField, TextSection, nul_end, nul_in};
pub use units::{Scanned, UnitHeader};
pub use values::{
    AttributeUse, Spec, Value, ValueClass, attribute_use, can_be_offset, is_base, is_macros,
    is_path, is_section_offset, is_start_form, is_start_name, is_unit_tag, own_form,
};
pub use view_fields::Field;
