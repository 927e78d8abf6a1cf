//! The program: its words, the real file system and the standard streams, and the top call over them.
//!
//! It does not promise what the system does with files and streams; all else is `dbg_run`'s.
#![tactic(auto)]

use dbg_ends::{End, tell};
use dbg_run::run_words;
use os_tree::{OsSink, OsTree};
use std::process::ExitCode;
use std::rt::Env;
use std::{env, io};

/// The words behind the program's name.
fn words<R: Env + AllocGlobal>(rt: &R) -> io::Result<Vec<String>> {
    let mut words = Vec::new(rt.alloc());
    for word in env::args(rt)?.skip(1) {
        words.push(word)?;
    }
    Ok(words)
}

fn main(rt: HostRuntime) -> ExitCode {
    let alloc = rt.alloc();
    let mut out = OsSink::new(rt.stdout());
    let mut err = OsSink::new(rt.stderr());
    // A word that isn't UTF-8 is no word of a command: there are no words then, and the answer is `usage`.
    let words = match words(&rt) {
        Ok(words) => words,
        Err(e) if e.kind() == io::ErrorKind::OutOfMemory => {
            return ExitCode::from(tell(alloc, &End::NoMemory, &mut err));
        }
        Err(_) => Vec::new(alloc),
    };
    let mut tree = OsTree::new(&rt);
    ExitCode::from(run_words(alloc, words.as_slice(), &mut tree, &mut out, &mut err))
}
