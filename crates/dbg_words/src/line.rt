//! What the words behind a command's name say.
ghost use Rattle.std.specs.Prelude.{◌≡◌, ◌<◌, IfOk, drop, length, map, option_map};
ghost use Rattle.dbg_words.specs.CommandLines.{CommandLine, command_line};
ghost use Rattle.dbg_words.specs.Words.{texts};

use crate::dashes::has_stray_dash;
use crate::matches::parsed;
use dw_base::NoMemory;
use std::alloc::Global;
use std::marker::Model;

/// The paths of a command line, and what is given of each option.
#[derive(Drop)]
pub struct Line<'a> {
    /// The words that are neither options nor their values.
    pub paths: Vec<&'a str>,
    /// The value of `--base-dir`.
    pub base_dir: Option<&'a str>,
    /// The value of `--dest-dir`.
    pub dest_dir: Option<&'a str>,
    /// Whether `--build-id` is given.
    pub build_id: bool,
    /// The value of `--seed`.
    pub seed: Option<&'a str>,
    /// The value of `--list-file`.
    pub list_file: Option<&'a str>,
    /// The value of `--max-file`.
    pub max_file: Option<&'a str>,
    /// The value of `--jobs`.
    pub jobs: Option<&'a str>,
    /// The value of `--more-maps`.
    pub more_maps: Option<&'a str>,
    /// Whether `--skip-refused` is given.
    pub skip_refused: bool,
    /// Whether `--grow-inline` is given.
    pub grow_inline: bool,
}

impl<'a> Model for Line<'a> {
    ghost Value = { CommandLine };

    ghost view = { λ l. record {
      paths = map (λ word. word.now) l.paths.items;
      base_dir = option_map (λ word. word.now) l.base_dir;
      dest_dir = option_map (λ word. word.now) l.dest_dir;
      build_id = l.build_id;
      seed = option_map (λ word. word.now) l.seed;
      list_file = option_map (λ word. word.now) l.list_file;
      max_file = option_map (λ word. word.now) l.max_file;
      jobs = option_map (λ word. word.now) l.jobs;
      more_maps = option_map (λ word. word.now) l.more_maps;
      skip_refused = l.skip_refused;
      grow_inline = l.grow_inline;
    } };
}

/// The command line that the words behind the first spell, where they spell one.
#[tactic(auto, using(crate::proofs::LineLaws::line_laws))]
pub fn read_line<'a>(alloc: Global, words: &'a [String]) -> Result<Option<Line<'a>>, NoMemory>
    requires some { 0 < length words.now }
    ensures value { IfOk result (λ line. line ≡ command_line (drop 1 (texts words.now))) }
{
    let (_, rest) = words.split_at(1);
    if has_stray_dash(rest) {
        return Ok(None);
    }
    parsed(alloc, words)
}
