//! Where the bytes of a section come to stand: runs of bytes that stay together.
//!
//! Read first: `specs/Runs.antt`.

/// Bytes that stay together: from `old` on they come to stand from `new` on, in bytes from the section's start, up to the next run.
#[derive(Clone, Copy, Debug, PartialEq, Eq, Drop)]
pub struct Run {
    /// Where the first of them stands.
    pub old: u64,
    /// Where it comes to stand.
    pub new: u64,
}
