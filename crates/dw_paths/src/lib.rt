//! Paths: the prefix map from the paths of a build to the paths where its sources are installed, and
//! paths that are joined, cleaned and tested by their components.
//!
//! This layer promises: of the pairs of a map under whose base a path lies the one with the longest
//! counts, and the path becomes its destination and the rest; every other path stays; a pair is made
//! exactly of two words that may be base and destination, and up to 64 may be added, each with a base of
//! its own; an inline path keeps its length; a cleaned path is what the rule on components leaves.
//! It does not promise: which texts are paths; the crates above say that.
//! Read first: `dw_base/specs/Paths.antt`, then `specs/Components.antt` and `specs/CleanPaths.antt`.
//!
//! ```
//! let mut maps = Maps::new(alloc, b"/build/p", b"/usr/src/debug/p")?.ok_or("no map")?;
//! let added = maps.add(alloc, b"/build/p/gen", b"/usr/src/gen")?; // true
//! let joined = join_path(alloc, b"/build/p", b"../p/a.c")?; // /build/p/../p/a.c
//! let cleaned = clean_path(alloc, &joined)?; // /build/p/a.c
//! let mapped = map_path(alloc, &maps, &cleaned)?; // /usr/src/debug/p/a.c
//! ```
#![tactic(auto)]

mod clean;
mod inline;
mod join;
mod maps;
mod plain;
mod prefix;

pub use clean::clean_path;
pub use inline::map_inline;
pub use join::join_path;
pub use maps::{MapPair, Maps, counting, longest_of, map_len, map_path};
pub use plain::is_plain;
pub use prefix::{is_prefix, lies_under, without_slashes};
