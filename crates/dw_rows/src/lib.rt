//! The rows of line tables of DWARF 2 to 5 (DWARF 5, 6.2.2 and 6.2.5).
//!
//! This layer promises: the rows that are given are those of the table, in order: what the registers of the line
//! machine are, step by step, where its program appends them; an address that a relocation gives has its symbol and
//! type beside it. No step can fail on a table that was read, and none takes memory.
//! It does not promise: the texts of a row's file, which the table has.
//! Read first: `specs/TableRows.antt`, then `LineRegisters` and `LineOperations` in `dw_base/specs`.
//!
//! # Example
//!
//! ```
//! let table = LineTable::read(rt.alloc(), &view, section, 0)?;
//! for row in Rows::new(&view, &table) {
//!     assert!(rt; row.line < 0x1_0000);
//! }
//! ```
#![tactic(auto)]

mod reading;
mod registers;
mod rows;

pub use dw_base::Row;
pub use dw_lines::{FilePlace, LineTable, TextPlace};
pub use rows::Rows;
