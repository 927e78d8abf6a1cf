//! How a stripped file and a debug file aren't a pair.

use dw_base::Fault;

/// Why two files aren't a pair.
#[derive(Debug, Drop)]
pub enum Mismatch {
    /// The stripped file has no link to a debug file that can be read.
    NoLink,
    /// The link names a file of another base name: the name that it has, and the one that was given.
    Name { named: Vec<u8>, found: Vec<u8> },
    /// The link has another sum than the debug file: the sum that it has, and that of the file.
    Sum { named: u32, found: u32 },
}

/// Why there is no view of a stripped file and a debug file.
#[derive(Debug, Drop)]
pub enum PairErr {
    /// The two aren't a pair.
    NotAPair(Mismatch),
    /// The stripped file is refused, or there was not enough memory.
    Stripped(Fault),
    /// The debug file is refused, or there was not enough memory.
    Debug(Fault),
}
