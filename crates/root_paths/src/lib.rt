//! The paths of a build root, and new ones beside them (this project's profile).
//!
//! **This layer promises**: `walk` answers all paths below a root, in byte order, and says exactly why it
//! doesn't. `check_made` says whether new paths can be made where these stand, or which one is too long or
//! taken. Paths of a root are joined, and told apart by the folder that they lie in, as they are defined.
//! It does not promise: what stands at a path.
//! Read first: `specs/Roots.antt`, `specs/Walks.antt`, `specs/NewPaths.antt`.
//!
//! ```
//! let paths = walk(&mut tree, "root")?;
//! check_made(alloc, &paths, news)?;
//! ```
#![tactic(auto)]

mod looking;
mod names;
mod path_err;
mod taken;
mod walking;

pub use looking::{look_at_each, read};
pub use names::{Root, base_name, in_root, work_folder};
pub use path_err::PathErr;
pub use taken::{check_length, check_made};
pub use walking::walk;
