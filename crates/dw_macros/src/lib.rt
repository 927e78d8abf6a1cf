//! Macro units (DWARF 5, 6.3): which a section has, the events of one, and its operations.
//!
//! This layer promises: the macro units of a section are given only where they fill it, and are refused only
//! where one of them can't be read, at that unit, at an operation that refers to a supplementary file, or at
//! the offset of a text that names none. The events of a unit that was read are an iterator that takes no
//! memory.
//! It does not promise: that a line table or a macro unit starts where one is named.
//! Read first: `MacroOperations`, then `MacroUnits` in `dw_base/specs`, then `specs/MacroEvents.antt`.
//!
//! # Example
//!
//! ```
//! for unit in macro_units(alloc, &view, section)?.iter() {
//!     for event in MacroEvents::new(&view, unit) {
//!         // a definition, a file that begins or ends, or another unit
//!     }
//! }
//! ```
#![tactic(auto)]

mod events;
mod header;
mod reading;
mod texts;
mod units;

pub use dw_base::{Fault, Kind, MacroEvent, MacroOperation, MacroUnit, Refusal, TextPlace, Width};
pub use events::MacroEvents;
pub use reading::operation_at;
pub use units::macro_units;
