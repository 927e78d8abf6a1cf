//! The parser of the crate clap, told of the program's options, and what it finds in words.
ghost use Rattle.std.specs.Prelude.{◌≡◌, ◌≢◌, false, IfOk, None, [], option_map, unwrap_or, map, codes};
ghost use Rattle.clap.specs.Words.{app_of, found_of, rows_of, rule_of, first_of, all_of, kind_of};
ghost use Rattle.clap.specs.declared.error.kind.ErrorKind.TheVariants.{OutOfMemory};
ghost use Rattle.clap.specs.Simple.{new_app, with_rule};
ghost use Rattle.dbg_words.specs.Matches.{valued_arg, flag_arg, path_arg, without_help, edit_options_app, options_app, program_app, line_of_rows, is_true_text, taken_line};
ghost use Rattle.dbg_words.specs.Words.{texts};

use crate::line::Line;
use clap::builder::ValueParser;
use clap::error::ErrorKind;
use clap::{Arg, ArgAction, ArgMatches, Command, Error};
use dw_base::NoMemory;
use std::alloc::{AllocError, Global};

/// An option with a value that isn't empty.
fn valued<'a>(alloc: Global, name: &'a str) -> Arg<'a>
    ensures rule { rule_of result ≡ valued_arg name.now }
    ensures local { result.global ≡ false }
{
    Arg::new(alloc, name)
        .long(name)
        .action(ArgAction::Set)
        .value_parser(ValueParser::NonEmptyString)
}

/// An option without a value.
fn flag<'a>(alloc: Global, name: &'a str) -> Arg<'a>
    ensures rule { rule_of result ≡ flag_arg name.now }
    ensures local { result.global ≡ false }
{
    Arg::new(alloc, name).long(name).action(ArgAction::SetTrue)
}

/// The paths.
fn paths<'a>(alloc: Global) -> Arg<'a>
    ensures rule { rule_of result ≡ path_arg }
    ensures local { result.global ≡ false }
{
    Arg::new(alloc, "path").action(ArgAction::Append)
}

/// The program with one more option that takes a value.
fn with_valued<'a>(
    alloc: Global,
    command: Command<'a>,
    name: &'a str,
) -> Result<Command<'a>, AllocError>
    ensures app { IfOk result (λ c. app_of c ≡ with_rule (app_of command.entry) (valued_arg name.now)) }
{
    command.arg(valued(alloc, name))
}

/// The program with one more flag.
fn with_flag<'a>(
    alloc: Global,
    command: Command<'a>,
    name: &'a str,
) -> Result<Command<'a>, AllocError>
    ensures app { IfOk result (λ c. app_of c ≡ with_rule (app_of command.entry) (flag_arg name.now)) }
{
    command.arg(flag(alloc, name))
}

/// The program with its paths.
fn with_paths<'a>(alloc: Global, command: Command<'a>) -> Result<Command<'a>, AllocError>
    ensures app { IfOk result (λ c. app_of c ≡ with_rule (app_of command.entry) path_arg) }
{
    command.arg(paths(alloc))
}

/// The program with no options, and with no help.
fn bare<'a>(alloc: Global) -> Command<'a>
    ensures app { app_of result ≡ without_help (new_app (codes "deilmuko")) }
{
    Command::new(alloc, "deilmuko").disable_help_flag(true)
}

/// The program with the options of an edit's paths and build-id that take a value.
fn edit_options<'a>(alloc: Global) -> Result<Command<'a>, AllocError>
    ensures app { IfOk result (λ c. app_of c ≡ edit_options_app) }
{
    let command = with_valued(alloc, bare(alloc), "base-dir")?;
    let command = with_valued(alloc, command, "dest-dir")?;
    with_valued(alloc, command, "seed")
}

/// The program with the options that take a value.
fn options<'a>(alloc: Global) -> Result<Command<'a>, AllocError>
    ensures app { IfOk result (λ c. app_of c ≡ options_app) }
{
    let command = with_valued(alloc, edit_options(alloc)?, "list-file")?;
    let command = with_valued(alloc, command, "max-file")?;
    let command = with_valued(alloc, command, "jobs")?;
    with_valued(alloc, command, "more-maps")
}

/// The program with all its options.
fn program<'a>(alloc: Global) -> Result<Command<'a>, AllocError>
    ensures app { IfOk result (λ c. app_of c ≡ program_app) }
{
    let command = with_flag(alloc, options(alloc)?, "build-id")?;
    let command = with_flag(alloc, command, "skip-refused")?;
    let command = with_flag(alloc, command, "grow-inline")?;
    with_paths(alloc, command)
}

/// The value of an option.
#[tactic(auto, using(crate::proofs::ClapRules::clap_rules))]
fn value_of<'a>(matches: &ArgMatches<'a>, name: &str) -> Option<&'a str>
    ensures value { option_map (λ text. text.now) result ≡ first_of name.now (rows_of (found_of matches.now)) }
{
    matches.get_str(name)
}

/// Whether a flag is set.
fn is_set(matches: &ArgMatches<'_>, name: &str) -> bool
    ensures value { result ≡ is_true_text (first_of name.now (rows_of (found_of matches.now))) }
{
    match value_of(matches, name) {
        None => false,
        Some(text) => text == "true",
    }
}

/// The paths, in order.
#[tactic(auto, using(crate::proofs::ClapRules::clap_rules))]
fn paths_of<'a>(alloc: Global, matches: &ArgMatches<'a>) -> Result<Vec<&'a str>, AllocError>
    ensures value { IfOk result (λ v. map (λ text. text.now) v.items ≡ unwrap_or (all_of (codes "path") (rows_of (found_of matches.now))) []) }
{
    match matches.get_strs("path") {
        None => Ok(Vec::new(alloc)),
        Some(paths) => Vec::from_slice(alloc, paths),
    }
}

/// What the matches say of the paths and of each option.
fn line_of<'a>(alloc: Global, matches: &ArgMatches<'a>) -> Result<Line<'a>, AllocError>
    ensures value { IfOk result (λ line. line ≡ line_of_rows (rows_of (found_of matches.now))) }
{
    Ok(Line {
        paths: paths_of(alloc, matches)?,
        base_dir: value_of(matches, "base-dir"),
        dest_dir: value_of(matches, "dest-dir"),
        build_id: is_set(matches, "build-id"),
        seed: value_of(matches, "seed"),
        list_file: value_of(matches, "list-file"),
        max_file: value_of(matches, "max-file"),
        jobs: value_of(matches, "jobs"),
        more_maps: value_of(matches, "more-maps"),
        skip_refused: is_set(matches, "skip-refused"),
        grow_inline: is_set(matches, "grow-inline"),
    })
}

/// What an error of the parser says: that memory ran out, or that it doesn't take the words.
fn refused<'a>(error: &Error) -> Result<Option<Line<'a>>, NoMemory>
    ensures none { IfOk result (λ line. (line ≡ None) × (kind_of error.now ≢ OutOfMemory)) }
{
    if error.kind() == ErrorKind::OutOfMemory {
        return Err(NoMemory);
    }
    Ok(None)
}

/// What the parser finds in the words behind the first, where it takes them.
pub fn parsed<'a>(alloc: Global, words: &'a [String]) -> Result<Option<Line<'a>>, NoMemory>
    ensures value { IfOk result (λ line. line ≡ taken_line (texts words.now)) }
{
    match program(alloc)?.try_get_matches_from(words) {
        Ok(matches) => {
            let line = line_of(alloc, &matches)?;
            Ok(Some(line))
        }
        Err(error) => refused(&error),
    }
}
