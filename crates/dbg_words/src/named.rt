//! Each command, of the command line behind its name.
ghost use Rattle.std.specs.Prelude.{◌≡◌, ◌||◌, false, true, not, codes, IfOk, MatchOption, option_map, map};
ghost use Rattle.std.specs.Str.{is_utf8};
ghost use Rattle.dw_base.specs.Paths.{lies_under};
ghost use Rattle.dbg_words.specs.Words.{are_apart, check_mapped, check_named, check_of, check_paths, edit_listed, edit_named, edit_of, edit_paths, exercise_named, exercise_of, gather_into, gather_named, gather_of, gather_paths, has_dest_alone, has_no_job, is_bare, is_target, list_path, run_below, run_named, run_of, show_named, show_of, show_one, show_two, split_named, split_of, split_paths, target_named, target_of, two_of, unstrip_named, unstrip_of, unstrip_paths};

use crate::command::Command;
use crate::decimals::number_within;
use crate::line::Line;
use crate::path_words::{other_path, path_named, two_paths};
use crate::settings::{maps_of, number_or, settings_of};
use crate::several::{one_of, three_of, two_of};
use dw_base::NoMemory;
use dw_paths::{is_plain, is_prefix, lies_under, without_slashes};
use file_tree::Text;
use std::alloc::Global;

/// Whether no option is given.
fn is_bare(line: &Line<'_>) -> bool
    ensures value { result ≡ is_bare line.now }
{
    !(line.base_dir.is_some() || line.dest_dir.is_some() || line.build_id || line.seed.is_some())
        && !(line.list_file.is_some()
            || line.max_file.is_some()
            || line.jobs.is_some()
            || line.skip_refused)
        && !(line.more_maps.is_some() || line.grow_inline)
}

/// The path of a list, beside two paths, where it is given: `None` where the word names no other path.
fn list_path(
    alloc: Global,
    paths: &(Text, Text),
    word: Option<&str>,
) -> Result<Option<Option<Text>>, NoMemory>
    ensures value { IfOk result (λ o. o ≡ list_path paths.now (option_map (λ w. w.now) word.entry)) }
{
    let Some(word) = word else {
        return Ok(Some(None));
    };
    match other_path(alloc, &paths.0, &paths.1, word)? {
        None => Ok(None),
        Some(list) => Ok(Some(Some(list))),
    }
}

/// An edit with these paths.
fn edit_listed(
    alloc: Global,
    line: &Line<'_>,
    paths: (Text, Text),
    list: Option<Text>,
) -> Result<Option<Command>, NoMemory>
    ensures value { IfOk result (λ c. c ≡ edit_listed line.now paths list) }
{
    let Some(options) = settings_of(alloc, line)? else {
        return Ok(None);
    };
    let (input, output) = paths;
    Ok(Some(Command::Edit {
        input,
        output,
        options,
        list,
    }))
}

/// An edit from one path to another.
fn edit_paths(
    alloc: Global,
    line: &Line<'_>,
    paths: (Text, Text),
) -> Result<Option<Command>, NoMemory>
    ensures value { IfOk result (λ c. c ≡ edit_paths line.now paths) }
{
    match list_path(alloc, &paths, line.list_file)? {
        None => Ok(None),
        Some(list) => edit_listed(alloc, line, paths, list),
    }
}

/// An edit of two words.
fn edit_named(
    alloc: Global,
    line: &Line<'_>,
    words: (&str, &str),
) -> Result<Option<Command>, NoMemory>
    ensures value { IfOk result (λ c. c ≡ edit_named line.now (words.entry.0.now, words.entry.1.now)) }
{
    match two_paths(alloc, words.0, words.1)? {
        None => Ok(None),
        Some(paths) => edit_paths(alloc, line, paths),
    }
}

/// `edit INPUT OUTPUT`, with a base, a destination, and further options.
#[tactic(auto, unfolding(crate::specs::Words::edit_of))]
pub fn edit_of(alloc: Global, line: &Line<'_>) -> Result<Option<Command>, NoMemory>
    ensures value { IfOk result (λ c. c ≡ edit_of line.now) }
{
    if line.jobs.is_some() || line.skip_refused {
        return Ok(None);
    }
    match two_of(&line.paths) {
        None => Ok(None),
        Some(words) => edit_named(alloc, line, words),
    }
}

/// A split into two paths, and a third.
fn split_paths(alloc: Global, word: &str, paths: (Text, Text)) -> Result<Option<Command>, NoMemory>
    ensures value { IfOk result (λ c. c ≡ split_paths word.now paths) }
{
    let Some(debug) = other_path(alloc, &paths.0, &paths.1, word)? else {
        return Ok(None);
    };
    let (input, stripped) = paths;
    Ok(Some(Command::Split {
        input,
        stripped,
        debug,
    }))
}

/// A split of three words.
fn split_named(alloc: Global, words: (&str, &str, &str)) -> Result<Option<Command>, NoMemory>
    ensures value { IfOk result (λ c. c ≡ split_named (words.entry.0.now, words.entry.1.now, words.entry.2.now)) }
{
    match two_paths(alloc, words.0, words.1)? {
        None => Ok(None),
        Some(paths) => split_paths(alloc, words.2, paths),
    }
}

/// `split INPUT STRIPPED DEBUG`.
#[tactic(auto, unfolding(crate::specs::Words::split_of))]
pub fn split_of(alloc: Global, line: &Line<'_>) -> Result<Option<Command>, NoMemory>
    ensures value { IfOk result (λ c. c ≡ split_of line.now) }
{
    if !is_bare(line) {
        return Ok(None);
    }
    match three_of(&line.paths) {
        None => Ok(None),
        Some(words) => split_named(alloc, words),
    }
}

/// A run below a path.
fn run_below(alloc: Global, line: &Line<'_>, root: Text) -> Result<Option<Command>, NoMemory>
    ensures value { IfOk result (λ c. c ≡ run_below line.now root) }
{
    let Some(options) = settings_of(alloc, line)? else {
        return Ok(None);
    };
    let Some(jobs) = number_or(1, 64, 1, line.jobs) else {
        return Ok(None);
    };
    Ok(Some(Command::Run {
        root,
        options,
        jobs: jobs as u8,
    }))
}

/// A run of one word.
fn run_named(alloc: Global, line: &Line<'_>, word: &str) -> Result<Option<Command>, NoMemory>
    ensures value { IfOk result (λ c. c ≡ run_named line.now word.now) }
{
    match path_named(alloc, word)? {
        None => Ok(None),
        Some(root) => run_below(alloc, line, root),
    }
}

/// `run ROOT`, with a base, a destination, and further options.
#[tactic(auto, unfolding(crate::specs::Words::run_of))]
pub fn run_of(alloc: Global, line: &Line<'_>) -> Result<Option<Command>, NoMemory>
    ensures value { IfOk result (λ c. c ≡ run_of line.now) }
{
    if line.list_file.is_some() || line.grow_inline {
        return Ok(None);
    }
    match one_of(&line.paths) {
        None => Ok(None),
        Some(word) => run_named(alloc, line, word),
    }
}

/// What one word names is shown.
fn show_one(alloc: Global, word: &str) -> Result<Option<Command>, NoMemory>
    ensures value { IfOk result (λ c. c ≡ show_one word.now) }
{
    match path_named(alloc, word)? {
        None => Ok(None),
        Some(file) => Ok(Some(Command::Show { file, debug: None })),
    }
}

/// What two words name is shown.
fn show_two(alloc: Global, words: (&str, &str)) -> Result<Option<Command>, NoMemory>
    ensures value { IfOk result (λ c. c ≡ show_two (words.entry.0.now, words.entry.1.now)) }
{
    match two_paths(alloc, words.0, words.1)? {
        None => Ok(None),
        Some((file, debug)) => Ok(Some(Command::Show {
            file,
            debug: Some(debug),
        })),
    }
}

/// What the words name is shown.
fn show_named(alloc: Global, words: &[&str]) -> Result<Option<Command>, NoMemory>
    ensures value { IfOk result (λ c. c ≡ show_named (map (λ w. w.now) words.now) (two_of (map (λ w. w.now) words.now))) }
{
    if let Some(pair) = two_of(words) {
        return show_two(alloc, pair);
    }
    match one_of(words) {
        None => Ok(None),
        Some(word) => show_one(alloc, word),
    }
}

/// `show FILE`, and `show STRIPPED DEBUG`.
#[tactic(auto, unfolding(crate::specs::Words::show_of))]
pub fn show_of(alloc: Global, line: &Line<'_>) -> Result<Option<Command>, NoMemory>
    ensures value { IfOk result (λ c. c ≡ show_of line.now) }
{
    if !is_bare(line) {
        return Ok(None);
    }
    show_named(alloc, &line.paths)
}

/// Two paths joined, and a third for the file of both.
fn unstrip_paths(
    alloc: Global,
    word: &str,
    paths: (Text, Text),
) -> Result<Option<Command>, NoMemory>
    ensures value { IfOk result (λ c. c ≡ unstrip_paths word.now paths) }
{
    let Some(output) = other_path(alloc, &paths.0, &paths.1, word)? else {
        return Ok(None);
    };
    let (stripped, debug) = paths;
    Ok(Some(Command::Unstrip {
        stripped,
        debug,
        output,
    }))
}

/// A joining of three words.
fn unstrip_named(alloc: Global, words: (&str, &str, &str)) -> Result<Option<Command>, NoMemory>
    ensures value { IfOk result (λ c. c ≡ unstrip_named (words.entry.0.now, words.entry.1.now, words.entry.2.now)) }
{
    match two_paths(alloc, words.0, words.1)? {
        None => Ok(None),
        Some(paths) => unstrip_paths(alloc, words.2, paths),
    }
}

/// `unstrip STRIPPED DEBUG OUTPUT`.
#[tactic(auto, unfolding(crate::specs::Words::unstrip_of))]
pub fn unstrip_of(alloc: Global, line: &Line<'_>) -> Result<Option<Command>, NoMemory>
    ensures value { IfOk result (λ c. c ≡ unstrip_of line.now) }
{
    if !is_bare(line) {
        return Ok(None);
    }
    match three_of(&line.paths) {
        None => Ok(None),
        Some(words) => unstrip_named(alloc, words),
    }
}

/// Whether no option is given but those that make a map.
fn has_no_job(line: &Line<'_>) -> bool
    ensures value { result ≡ has_no_job line.now }
{
    !(line.build_id || line.seed.is_some() || line.list_file.is_some() || line.max_file.is_some())
        && !(line.jobs.is_some() || line.skip_refused || line.grow_inline)
}

/// A check of three paths.
fn check_mapped(
    alloc: Global,
    line: &Line<'_>,
    paths: (Text, Text),
    debug: Text,
) -> Result<Option<Command>, NoMemory>
    ensures value { IfOk result (λ c. c ≡ check_mapped line.now paths debug) }
{
    let Some(maps) = maps_of(alloc, line)? else {
        return Ok(None);
    };
    let (input, stripped) = paths;
    Ok(Some(Command::Check {
        input,
        stripped,
        debug,
        maps,
    }))
}

/// A check of two paths, and a third.
fn check_paths(
    alloc: Global,
    line: &Line<'_>,
    word: &str,
    paths: (Text, Text),
) -> Result<Option<Command>, NoMemory>
    ensures value { IfOk result (λ c. c ≡ check_paths line.now word.now paths) }
{
    match other_path(alloc, &paths.0, &paths.1, word)? {
        None => Ok(None),
        Some(debug) => check_mapped(alloc, line, paths, debug),
    }
}

/// A check of three words.
fn check_named(
    alloc: Global,
    line: &Line<'_>,
    words: (&str, &str, &str),
) -> Result<Option<Command>, NoMemory>
    ensures value { IfOk result (λ c. c ≡ check_named line.now (words.entry.0.now, words.entry.1.now, words.entry.2.now)) }
{
    match two_paths(alloc, words.0, words.1)? {
        None => Ok(None),
        Some(paths) => check_paths(alloc, line, words.2, paths),
    }
}

/// `check INPUT STRIPPED DEBUG`, with a base, a destination, and further pairs.
#[tactic(auto, unfolding(crate::specs::Words::check_of))]
pub fn check_of(alloc: Global, line: &Line<'_>) -> Result<Option<Command>, NoMemory>
    ensures value { IfOk result (λ c. c ≡ check_of line.now) }
{
    if !has_no_job(line) {
        return Ok(None);
    }
    match three_of(&line.paths) {
        None => Ok(None),
        Some(words) => check_named(alloc, line, words),
    }
}

/// Whether no option is given but a destination, and how many are in work at a time.
fn has_dest_alone(line: &Line<'_>) -> bool
    ensures value { result ≡ has_dest_alone line.now }
{
    !(line.base_dir.is_some() || line.more_maps.is_some() || line.build_id || line.seed.is_some())
        && !(line.list_file.is_some()
            || line.max_file.is_some()
            || line.skip_refused
            || line.grow_inline)
}

/// Whether a path, which is a destination without its first slash, lies in no work folder.
fn is_outside(path: &[u8]) -> bool
    ensures value { result ≡ not (lies_under (codes ".dbgsrc") path.now || lies_under (codes ".dbgwork") path.now) }
{
    !(lies_under(b".dbgsrc", path) || lies_under(b".dbgwork", path))
}

/// Whether a destination may be one below a root: without its first slash it is plain, and it doesn't lie in
/// a work folder.
#[tactic(auto, unfolding(crate::specs::Words::is_target))]
fn is_target(dest: &[u8]) -> bool
    ensures value { result ≡ is_target dest.now }
{
    match dest {
        [_, path @ ..] => is_plain(path) && is_outside(path),
        [] => is_plain(b"") && is_outside(b""),
    }
}

/// The text that the bytes are, where they are UTF-8.
#[tactic(auto, using(crate::proofs::Utf8Laws::utf8_rules))]
fn text_of(bytes: &[u8]) -> Option<&str>
    ensures value { MatchOption result (is_utf8 bytes.now ≡ false) (λ text. (text.now ≡ bytes.now) × (is_utf8 bytes.now ≡ true)) }
{
    match str::from_utf8(bytes) {
        Ok(text) => Some(text),
        Err(_) => None,
    }
}

/// The destination that a word names, without the slashes at its end.
fn target_named(alloc: Global, word: &[u8]) -> Result<Option<Text>, NoMemory>
    ensures value { IfOk result (λ o. o ≡ target_named word.now) }
{
    let dest = without_slashes(word);
    if !is_prefix(word) {
        return Ok(None);
    }
    if !is_target(dest) {
        return Ok(None);
    }
    let Some(text) = text_of(dest) else {
        return Ok(None);
    };
    let text = Text::copy_of(alloc, text)?;
    Ok(Some(text))
}

/// The same of a word that may be given.
fn target_of(alloc: Global, word: Option<&str>) -> Result<Option<Text>, NoMemory>
    ensures value { IfOk result (λ o. o ≡ target_of (option_map (λ w. w.now) word.entry)) }
{
    match word {
        None => Ok(None),
        Some(word) => target_named(alloc, word.as_bytes()),
    }
}

/// Whether neither path lies below the other.
fn are_apart(paths: &(Text, Text)) -> bool
    ensures value { result ≡ are_apart paths.now }
{
    let root = paths.0.as_str().as_bytes();
    let from = paths.1.as_str().as_bytes();
    !(lies_under(root, from) || lies_under(from, root))
}

/// Sources gathered below a destination.
fn gather_into(line: &Line<'_>, paths: (Text, Text), dest: Text) -> Option<Command>
    ensures value { result ≡ gather_into line.now paths dest }
{
    let jobs = number_or(1, 64, 1, line.jobs)?;
    let (root, from) = paths;
    Some(Command::Gather {
        root,
        from,
        dest,
        jobs: jobs as u8,
    })
}

/// Sources gathered from one path into another.
fn gather_paths(
    alloc: Global,
    line: &Line<'_>,
    paths: (Text, Text),
) -> Result<Option<Command>, NoMemory>
    ensures value { IfOk result (λ c. c ≡ gather_paths line.now paths) }
{
    if !are_apart(&paths) {
        return Ok(None);
    }
    match target_of(alloc, line.dest_dir)? {
        None => Ok(None),
        Some(dest) => Ok(gather_into(line, paths, dest)),
    }
}

/// Sources gathered, of two words.
fn gather_named(
    alloc: Global,
    line: &Line<'_>,
    words: (&str, &str),
) -> Result<Option<Command>, NoMemory>
    ensures value { IfOk result (λ c. c ≡ gather_named line.now (words.entry.0.now, words.entry.1.now)) }
{
    match two_paths(alloc, words.0, words.1)? {
        None => Ok(None),
        Some(paths) => gather_paths(alloc, line, paths),
    }
}

/// `gather ROOT SOURCE`, with a destination, and how many are in work at a time.
#[tactic(auto, unfolding(crate::specs::Words::gather_of))]
pub fn gather_of(alloc: Global, line: &Line<'_>) -> Result<Option<Command>, NoMemory>
    ensures value { IfOk result (λ c. c ≡ gather_of line.now) }
{
    if !has_dest_alone(line) {
        return Ok(None);
    }
    match two_of(&line.paths) {
        None => Ok(None),
        Some(words) => gather_named(alloc, line, words),
    }
}

/// An exercise of two words.
fn exercise_named(words: (&str, &str)) -> Option<Command>
    ensures value { result ≡ exercise_named (words.entry.0.now, words.entry.1.now) }
{
    let seed = number_within(0, u64::MAX, words.0)?;
    let units = number_within(1, 10_000, words.1)?;
    Some(Command::Exercise {
        seed,
        units: units as u32,
    })
}

/// `exercise SEED UNITS`.
#[tactic(auto, unfolding(crate::specs::Words::exercise_of))]
pub fn exercise_of(line: &Line<'_>) -> Option<Command>
    ensures value { result ≡ exercise_of line.now }
{
    if !is_bare(line) {
        return None;
    }
    exercise_named(two_of(&line.paths)?)
}
