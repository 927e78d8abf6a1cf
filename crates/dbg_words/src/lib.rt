//! The words of the program, and the command that they are.
//!
//! This layer promises: `Command::read` gives a command exactly where the words are one, for every
//! list of words: which words are options, values and paths, which options a command has, what a value
//! may be, how a path is cleaned, and that the paths of a command differ.
//! It does not promise: that a command can be carried out; the crates above do.
//! Read first: `specs/CommandLines.antt`, `specs/Words.antt`.
//!
//! ```
//! let words = vec![in alloc; String::from_str(alloc, "show")?, String::from_str(alloc, "./a.out")?]?;
//! match Command::read(alloc, words.as_slice())? {
//!     Some(Command::Show { file, debug: None }) => assert_eq!(rt; file.as_str(), "a.out"),
//!     _ => assert!(rt; false, "the words show a file"),
//! }
//! ```
#![tactic(auto)]

mod command;
mod dashes;
mod decimals;
mod line;
mod map_words;
mod matches;
mod named;
mod path_words;
mod settings;
mod several;

pub use command::Command;
