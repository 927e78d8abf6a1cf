//! Whether a stripped file and its debug file carry the mapped meaning of a file: definitions and laws, and tests of some parts: texts,
//! values, macro units, bytes, what is loaded, and cells. No call tests all parts.
//!
//! This layer promises: of a file and a pair that can be read, either the pair's meaning is the file's with each path mapped and what is
//! loaded is the same, or there is exactly one first part that differs; when parts agree, item by item; whether a text is a path with the
//! map applied, a value means what another does with it, and paths of line tables agree; whether macro units mean the same, what is loaded
//! of two files is the same, and cells of two sections are; when a file, and two files that are a pair, have a view to be compared by.
//! It does not promise: anything of how debug data are read, nor which part is the first that differs.
//! Read first: `specs/Verdicts.antt`, `specs/Parts.antt`.
//!
//! ```
//! let maps = Maps::new(alloc, b"/build/p", b"/usr/src/debug/p")?.ok_or("no map")?;
//! let mapped = is_mapped(&maps, b"/build/p/a.c", b"/usr/src/debug/p/a.c"); // true
//! ```
#![tactic(auto)]

mod allocs;
mod cells;
mod holes;
mod left_out;
mod lines;
mod loaded;
mod macros;
mod paths;
mod reading;
mod segments;
#[cfg(test)]
mod tests;
mod texts;
mod values;
mod verdict;

pub use cells::{CellPlace, same_cells, same_stretch};
pub use holes::{Hole, Holes, same_bytes};
pub use lines::{dirs_agree, files_agree};
pub use loaded::same_loaded;
pub use macros::{MacroSide, first_other_macro_unit, same_macro_unit};
pub use paths::{is_mapped, is_mapped_inline};
pub use reading::{CheckErr, FileData, PairData, data_of, pair_of};
pub use values::{CellRun, MeantValue, TextHold, value_agrees};
pub use verdict::{Part, Verdict};
