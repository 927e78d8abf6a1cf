//! What the debug data of a view say of source paths: read whole, in one pass.
//!
//! This layer promises: where debug data are read, they can be read (each unit, entry, string offset, name table, line
//! table and macro unit, each offset of a text names one, each value by index a slot, and what is to say where a line table
//! or a macro unit starts says it), and what was found of paths is what they say; they are
//! refused only by a condition that holds in them, at its place. A map can be applied to the paths that were found, or a
//! condition says why it can't.
//! It does not promise: anything of what the paths are mapped to; rows of line tables.
//! Read first: `specs/ReadData.antt`, then `specs/FoundPaths.antt` and `specs/AllFields.antt`.
//!
//! # Example
//!
//! ```
//! let elf = ElfFile::read(alloc, bytes)?;
//! let view = View::one(&elf)?;
//! let (units, data) = read_data(alloc, &view)?;
//! ```
#![tactic(auto)]

mod all_fields;
mod lines;
mod macros;
mod map_checks;
mod paths;
mod reading;
mod rooms;

pub use all_fields::Fields;
pub use map_checks::check_map;
pub use reading::{DebugData, read_data, read_fields};
