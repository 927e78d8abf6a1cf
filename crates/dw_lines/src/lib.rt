//! Line tables of DWARF 2 to 5 (DWARF 5, 6.2.4).
//!
//! This layer promises: a table that is given is the one that stands at the place: the numbers of its header, its
//! directories and files, and the files that its program defines, each text where it is. It is refused exactly
//! where none can be read there: as `Line` at the table, as `StringOffset` at an offset that names no text, as `Relocation`
//! where a relocation lies on an offset only in part, or gives it no place. The tables
//! of a view are all that fill its section of line tables. The places of the offsets of a header are those of all its columns
//! by offset, in order. A table that is written with mapped paths is the defined
//! one, byte for byte, and is refused exactly where that can't be.
//! It does not promise: the rows of a program, which isn't run.
//! Read first: `LineTables`, `LineFails`, `LineFields`, `WrittenLines` and `LineWriteFails` in `dw_base/specs`, then
//! `specs/ViewSources.antt`, `specs/ViewTables.antt` and `specs/HeaderFields.antt`.
//!
//! ```
//! use dw_lines::line_tables;
//!
//! // Each line table of the file.
//! let tables = line_tables(rt.alloc(), &view)?;
//! for table in &tables {
//!     assert!(rt; table.version >= 2);
//! }
//! ```
#![tactic(auto)]

mod changes;
mod columns;
mod defined_paths;
mod entries;
mod fields;
mod formats;
mod header;
mod moves;
mod new_texts;
mod old_lists;
mod opcodes;
mod parts;
mod program;
mod table;
mod texts;
mod view_tables;
mod written;

pub use dw_base::{Fault, FilePlace, Kind, LineText, Refusal, TextPlace, Width};
pub use elf_relocs::Run;
pub use fields::HeaderFields;
pub use moves::NewFieldOffset;
pub use new_texts::{NewTexts, TextPlaces};
pub use table::LineTable;
pub use view_tables::line_tables;
pub use written::WrittenTable;
