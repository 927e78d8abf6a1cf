//! What is wanted of files, as the options say it.
ghost use Rattle.std.specs.Prelude.{◌≡◌, ◌≤◌, IfOk, IfSome, option_map};
ghost use Rattle.dbg_words.specs.Words.{maps_named, maps_of, number_or, settings_mapped, settings_of};

use crate::decimals::number_within;
use crate::line::Line;
use crate::map_words::with_more;
use dw_base::NoMemory;
use dw_paths::Maps;
use file_tree::Blob;
use job_types::{MOST_FILE, Options};
use std::alloc::Global;

/// The map of a base and a destination, where both are given and may be ones.
fn maps_named(
    alloc: Global,
    base: Option<&str>,
    dest: Option<&str>,
) -> Result<Option<Maps>, NoMemory>
    ensures value { IfOk result (λ o. o ≡ maps_named (option_map (λ word. word.now) base.entry) (option_map (λ word. word.now) dest.entry)) }
{
    match (base, dest) {
        (Some(base), Some(dest)) => Maps::new(alloc, base.as_bytes(), dest.as_bytes()),
        _ => Ok(None),
    }
}

/// The same with further pairs, where they are given and may be added.
pub fn maps_of(alloc: Global, line: &Line<'_>) -> Result<Option<Maps>, NoMemory>
    ensures value { IfOk result (λ o. o ≡ maps_of line.now) }
{
    match maps_named(alloc, line.base_dir, line.dest_dir)? {
        None => Ok(None),
        Some(maps) => with_more(alloc, maps, line.more_maps),
    }
}

/// The number of an option within its limits, and another where the option isn't given.
pub fn number_or(least: u64, most: u64, other: u64, word: Option<&str>) -> Option<u64>
    ensures value { result ≡ number_or least most other (option_map (λ word. word.now) word.entry) }
    ensures within { least ≤ other → other ≤ most → IfSome result (λ n. (least ≤ n) × (n ≤ most)) }
{
    match word {
        None => Some(other),
        Some(word) => number_within(least, most, word),
    }
}

/// What is wanted of files with this map.
fn settings_mapped(alloc: Global, line: &Line<'_>, maps: Maps) -> Result<Option<Options>, NoMemory>
    ensures value { IfOk result (λ o. o ≡ settings_mapped line.now maps) }
{
    let Some(max_file) = number_or(1, MOST_FILE, MOST_FILE, line.max_file) else {
        return Ok(None);
    };
    let seed = Blob::from_slice(alloc, line.seed.unwrap_or("").as_bytes())?;
    Ok(Some(Options {
        maps,
        build_id: line.build_id,
        seed,
        skip: line.skip_refused,
        max_file,
        grow_inline: line.grow_inline,
    }))
}

/// What is wanted of files, where the options say it.
pub fn settings_of(alloc: Global, line: &Line<'_>) -> Result<Option<Options>, NoMemory>
    ensures value { IfOk result (λ o. o ≡ settings_of line.now) }
{
    match maps_of(alloc, line)? {
        None => Ok(None),
        Some(maps) => settings_mapped(alloc, line, maps),
    }
}
