//! Texts of string sections, and string tables that grow (DWARF 5, 7.26; gABI ch. 4 "String Table").
//!
//! This layer promises: a text is the bytes before the first NUL and is refused only where none
//! follows; a table that grows keeps its bytes and adds each new text once, with its NUL, and says
//! where each added text begins.
//! It does not promise: which texts are added, and in which order; the crates above say that.
//! Read first: `dw_base/specs/Texts.antt` and `dw_base/specs/StringTables.antt`.
//!
//! ```rust
//! let mut pool = Pool::new(alloc, b"a.c\0")?;
//! assert_eq!(pool.add(b"b.c")?, 4);
//! assert_eq!(pool.add(b"b.c")?, 4);
//! assert_eq!(text_at(3, pool.bytes(), 4), Ok(b"b.c".as_slice()));
//! ```
#![tactic(auto)]

mod lent_pool;
mod pool;
mod pools;
mod text;

pub use lent_pool::LentPool;
pub use pool::Pool;
pub use pools::Pools;
pub use text::text_at;
