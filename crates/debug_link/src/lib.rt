//! The debug link of a stripped file, and the sum of the debug file that it names (GNU debugging
//! information in separate files, section `.gnu_debuglink`).
//!
//! This layer promises: a sum is that of the bitwise division by the polynomial of ISO 3309 and ITU-T
//! V.42; a link that is written has the defined bytes, and one that is read gives its name and sum;
//! none is read exactly where no NUL ends a name or the sum doesn't fit.
//! It does not promise: that a sum tells two files apart.
//! Read first: `specs/Sums.antt`, then `specs/Links.antt`.
//!
//! ```
//! let sum = crc32(&debug_file);
//! // crc32_of(&[front, back]) is the sum of a file in two pieces
//! let section = link_bytes(alloc, Order::Little, b"prog.debug", sum)?;
//! assert_eq!(read_link(Order::Little, &section), Some((b"prog.debug", sum)));
//! ```
#![tactic(auto)]

mod link;
mod sum;
mod table;

pub use dw_base::{NoMemory, Order};
pub use link::{link_bytes, read_link};
pub use sum::{crc32, crc32_of};
