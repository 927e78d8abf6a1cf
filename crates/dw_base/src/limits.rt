//! How long a file may be: this project's profile.

/// The longest file that is read, in bytes: `file_limit` of `specs/Layout.antt`.
pub const FILE_LIMIT: u64 = 0x4000_0000;

/// The longest file that is written, in bytes: `output_limit` of `specs/Layout.antt`.
pub const OUTPUT_LIMIT: u64 = 0x8000_0000;
