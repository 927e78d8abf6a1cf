//! The contributions of string offsets as values (DWARF 5, 7.26).

use crate::shared::Width;

/// A contribution of string offsets, with all places in bytes from the section's start.
#[derive(Clone, Copy, Debug, PartialEq, Eq, Drop)]
pub struct Contribution {
    /// Where it starts.
    pub start: u64,
    /// Where its slots begin: what a unit names as its base.
    pub base: u64,
    /// Where it ends.
    pub end: u64,
    /// How wide its slots are.
    pub width: Width,
}
