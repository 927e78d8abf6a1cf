//! The commands that are carried out.
ghost use Rattle.std.specs.Prelude.{◌≡◌, IfOk};
ghost use Rattle.dbg_words.specs.Words.{texts};
ghost use Rattle.dbg_run.specs.Built.{built, is_built};

use dbg_words::Command;
use dw_base::NoMemory;
use job_types::Options;
use std::alloc::Global;

/// Whether paths that would grow are to be moved.
fn moves_paths(options: &Options) -> bool
    ensures value { result ≡ options.now.grow_inline }
{
    options.grow_inline
}

/// Whether the command is carried out: an edit that moves no path which would grow, a split, a run over a build root, a
/// gathering of its sources, a showing, a joining, or an exercise.
fn is_built(command: &Command) -> bool
    ensures value { result ≡ is_built command.now }
{
    match command {
        Command::Edit { options, .. } => !moves_paths(options),
        Command::Split { .. } => true,
        Command::Run { .. } => true,
        Command::Show { .. } => true,
        Command::Unstrip { .. } => true,
        Command::Gather { .. } => true,
        Command::Exercise { .. } => true,
        _ => false,
    }
}

/// The command that the words are, where it is carried out.
#[tactic(auto, unfolding(crate::specs::Built::built))]
pub fn built(alloc: Global, words: &[String]) -> Result<Option<Command>, NoMemory>
    ensures command { IfOk result (λ c. c ≡ built (texts words.now)) }
{
    let Some(command) = Command::read(alloc, words)? else {
        return Ok(None);
    };
    if !is_built(&command) {
        return Ok(None);
    }
    Ok(Some(command))
}
