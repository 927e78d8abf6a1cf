//! The text of `show`: what the debug data of a file say, line by line (this project's profile).
//!
//! This layer promises: what is written of a view is the text of its units, each with its entries and their attributes, of its line tables,
//! each with its directories, its files and its rows, and of its macro units, each with its events, byte for byte; before the first byte all
//! debug data are read, and a view is refused exactly where they can't be, at the place, with nothing written; the text goes out in pieces of a
//! few thousand bytes; a first part of it went out where the sink fails or memory is wanting.
//! A value or an address that a relocation gives is shown with its symbol, type and addend.
//! It does not promise: the names of symbols, and how much of the text is held.
//! Read first: `specs/Shows.antt`, then `specs/UnitTexts.antt`, `specs/LineTexts.antt`, `specs/Rows.antt`, `specs/MacroTexts.antt` and
//! `specs/Quoting.antt`.
//!
//! # Example
//!
//! ```
//! let elf = ElfFile::read(alloc, bytes)?;
//! let view = View::one(&elf)?;
//! show(alloc, &view, &mut out)?;
//! ```
#![tactic(auto)]

mod lists;
mod macro_lines;
mod macro_source;
mod macro_texts;
mod printing;
mod quoting;
mod row_texts;
mod show_err;
mod source;
mod table_lines;
mod table_texts;
mod unit_lines;
mod unit_texts;
mod value_texts;
mod view_text;

pub use show_err::ShowErr;
pub use view_text::show;
