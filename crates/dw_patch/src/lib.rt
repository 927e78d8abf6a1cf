//! New places in the fields of a section (DWARF 5, 7.4): first they are set, one by one, then they are
//! put into the section's bytes at once.
//!
//! This layer promises: after `apply`, and in the body that `onto` makes, each field that was set reads as its
//! new place, and every byte outside of those fields is as before; a field is refused only where its new place
//! doesn't fit it, and then what was set before stays. The records of a section's relocations move with its bytes, and have the addends that make the
//! offsets of its fields (gABI ch. 4 "Relocation").
//! It does not promise: that what is set into a field is what its relocation asks for. Who sets it has that number of the view.
//! Read first: `specs/Patching.antt`, then `specs/RecordMoves.antt`.
//!
//! # Example
//!
//! ```
//! let mut patches = Patches::new(alloc, &view, section)?;
//! patches.set(12, 4, NewPlace::Offset(0x2b))?;
//! patches.apply(&mut bytes);
//! ```
#![tactic(auto)]

mod offsets;
mod patches;
mod records;
mod runs;

pub use dw_base::{Fault, Kind, NoMemory, Order, Refusal};
pub use elf_relocs::{RelocSource, Run};
pub use offsets::Offsets;
pub use patches::{NewPlace, Patches};
pub use records::move_records;
