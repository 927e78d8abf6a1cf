//! The command that words are.
ghost use Rattle.std.specs.Prelude.{◌≡◌, IfOk};
ghost use Rattle.std.specs.List.{list_any};
ghost use Rattle.dw_base.specs.Texts.{has_nul};
ghost use Rattle.dbg_words.specs.Words.{command, command_named, texts};

use crate::line::{Line, read_line};
use crate::named::{
    check_of, edit_of, exercise_of, gather_of, run_of, show_of, split_of, unstrip_of,
};
use dw_base::NoMemory;
use dw_paths::Maps;
use file_tree::Text;
use job_types::Options;
use std::alloc::Global;

/// A command, with what its words say.
#[derive(Drop)]
pub enum Command {
    /// The file at `input` is rewritten, and put at `output`; where `list` is given, the names of its
    /// sources go there.
    Edit {
        input: Text,
        output: Text,
        options: Options,
        list: Option<Text>,
    },
    /// The file at `input` is parted into one without its debug data and one with them.
    Split {
        input: Text,
        stripped: Text,
        debug: Text,
    },
    /// The files below `root` are rewritten, and parted where they are programs or shared objects; `jobs`
    /// of them are in work at a time.
    Run {
        root: Text,
        options: Options,
        jobs: u8,
    },
    /// What the debug data of a file mean is shown, or of a stripped file beside its debug file.
    Show {
        file: Text,
        debug: Option<Text>,
    },
    /// The file at `stripped` and the debug file that it names, at `debug`, are joined to one, which is put at `output`.
    Unstrip {
        stripped: Text,
        debug: Text,
        output: Text,
    },
    /// Whether the stripped file at `stripped` and its debug file at `debug` mean what the file at `input` means,
    /// with each source path mapped.
    Check {
        input: Text,
        stripped: Text,
        debug: Text,
        maps: Maps,
    },
    /// The sources that a run over `root` has listed are copied from the folder `from` into the root, below `dest`;
    /// `jobs` of them are in work at a time.
    Gather {
        root: Text,
        from: Text,
        dest: Text,
        jobs: u8,
    },
    /// A file is made of a seed, with so many units, rewritten, and counted.
    Exercise {
        seed: u64,
        units: u32,
    },
}

/// Whether a word has a NUL.
fn has_nul(word: &str) -> bool
    ensures value { result ≡ has_nul word.now }
{
    word.as_bytes().iter().any(|b| *b == 0)
}

/// Whether some word has a NUL.
fn have_nul(words: &[String]) -> bool
    ensures value { result ≡ list_any has_nul (texts words.now) }
{
    for word in words {
        if has_nul(word.as_str()) {
            return true;
        }
    }
    false
}

/// The command of a name.
#[tactic(auto, unfolding(crate::specs::Words::command_named))]
fn command_named(alloc: Global, name: &str, line: &Line<'_>) -> Result<Option<Command>, NoMemory>
    ensures value { IfOk result (λ c. c ≡ command_named name.now line.now) }
{
    if name == "edit" {
        return edit_of(alloc, line);
    }
    if name == "split" {
        return split_of(alloc, line);
    }
    if name == "run" {
        return run_of(alloc, line);
    }
    if name == "show" {
        return show_of(alloc, line);
    }
    if name == "unstrip" {
        return unstrip_of(alloc, line);
    }
    if name == "check" {
        return check_of(alloc, line);
    }
    if name == "gather" {
        return gather_of(alloc, line);
    }
    if name == "exercise" {
        return Ok(exercise_of(line));
    }
    Ok(None)
}

impl Command {
    /// The command that the words are, of which the first names it. `None` exactly where they are none.
    #[tactic(auto, using(crate::proofs::WordLaws::word_laws))]
    pub fn read(alloc: Global, words: &[String]) -> Result<Option<Command>, NoMemory>
        ensures command { IfOk result (λ c. c ≡ command (texts words.now)) }
    {
        if have_nul(words) {
            return Ok(None);
        }
        let [name, ..] = words else {
            return Ok(None);
        };
        match read_line(alloc, words)? {
            None => Ok(None),
            Some(line) => command_named(alloc, name.as_str(), &line),
        }
    }
}
