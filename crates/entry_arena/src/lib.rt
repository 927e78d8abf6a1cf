//! The entries of a unit linked by their numbers (DWARF 5, 2.3).
//!
//! This layer promises: the nodes of a unit are its entries in the order of their places, numbered from 0; each names its
//! parent, its first child and its next sibling, and these links spell the unit's forest; a parent's number is smaller than its
//! child's, and each node stands once in the chain of its parent's children, or of the nodes without a parent; a walk along
//! the links gives each number once, in preorder, with its depth; the number of a place is that of the entry that
//! starts there. A unit is refused only where a pass over its entries refuses it. Only reading takes memory.
//! It does not promise: anything of attributes.
//! Read first: `specs/Shapes.antt`, `specs/UnitArenas.antt`.
//!
//! ```
//! use entry_arena::EntryArena;
//!
//! let arena = EntryArena::read(alloc, &view, &unit, &table)?;
//! for number in arena.walk() {
//!     let tag = arena.node(number).tag;
//! }
//! let parent = arena.number_of(offset).and_then(|number| arena.node(number).parent);
//! ```
#![tactic(auto)]

mod arena;
mod linking;
mod scanning;
mod walking;

pub use arena::{EntryArena, EntryNode};
pub use dw_base::{Fault, Refusal, UnitHeader};
pub use walking::{Steps, Walk, WalkStep};
