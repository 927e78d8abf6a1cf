//! The core of a run over a build root that may be stopped at any moment, with no tree and no bytes.
//!
//! This layer promises: `Core::step` allows exactly the events of the table, and goes to the table's
//! next state. From any shape of a run, after any allowed events, any stop leaves a shape, and in
//! every shape each target is as it was at first, or whole.
//! It does not promise: that a tree is changed as the events say (the layer above makes the calls).
//!
//! ```
//! let mut core = Core::new(alloc, [2].to_vec(alloc)?)?;
//! let refused = core.step(Event::Adopt);
//! let proposed = core.step(Event::Propose) && core.step(Event::Settle) && core.step(Event::Adopt);
//! // refused is false, proposed is true, and core.phase() is Phase::Running
//! ```
//!
//! Read first: `specs/Table.antt`, then `specs/Shapes.antt`, `specs/Relation.antt`, `specs/Law.antt`.
#![tactic(auto)]

mod event;
mod law;
mod machine;
mod rules;

pub use event::{Event, JobState, Phase};
pub use law::{every_call, every_step, every_stop, targets_old_or_whole};
pub use machine::Core;
