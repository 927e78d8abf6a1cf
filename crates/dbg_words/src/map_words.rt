//! The value of `--more-maps`, and the map that it makes with the pair of `--base-dir` and `--dest-dir`.
ghost use Rattle.std.specs.Prelude.{◌≡◌, if◌then◌else◌, IfOk, None, Some, map, option_map};
ghost use Rattle.dw_base.specs.Paths.{may_add, with_pair};
ghost use Rattle.dbg_words.specs.MapWords.{items_of, sides_of, with_item, with_items, with_more, with_sides};

use dw_base::NoMemory;
use dw_paths::Maps;
use std::alloc::{AllocError, Global};

/// The items of a value: what stands between its colons.
fn items_of<'a>(alloc: Global, word: &'a str) -> Result<Vec<&'a str>, AllocError>
    ensures value { IfOk result (λ v. map (λ item. item.now) v.items ≡ items_of word.now) }
{
    word.split(':').collect(alloc)
}

/// What stands between the equals signs of an item.
fn sides_of<'a>(alloc: Global, item: &'a str) -> Result<Vec<&'a str>, AllocError>
    ensures value { IfOk result (λ v. map (λ side. side.now) v.items ≡ sides_of item.now) }
{
    item.split('=').collect(alloc)
}

/// The map with the pair of two sides, where it may be added.
fn with_pair(alloc: Global, maps: Maps, base: &str, dest: &str) -> Result<Option<Maps>, NoMemory>
    ensures value { IfOk result (λ o. o ≡ (if may_add maps base.now dest.now then Some (with_pair maps base.now dest.now) else None)) }
{
    let mut maps = maps;
    if maps.add(alloc, base.as_bytes(), dest.as_bytes())? {
        return Ok(Some(maps));
    }
    Ok(None)
}

/// The map with the pair of two sides, where there are just two, and their pair may be added.
fn with_sides(alloc: Global, maps: Maps, sides: &[&str]) -> Result<Option<Maps>, NoMemory>
    ensures value { IfOk result (λ o. o ≡ with_sides maps (map (λ side. side.now) sides.now)) }
{
    match sides {
        [base, dest] => with_pair(alloc, maps, *base, *dest),
        _ => Ok(None),
    }
}

/// The map with the pair of an item.
fn with_item(alloc: Global, maps: Maps, item: &str) -> Result<Option<Maps>, NoMemory>
    ensures value { IfOk result (λ o. o ≡ with_item item.now maps) }
{
    let sides = sides_of(alloc, item)?;
    with_sides(alloc, maps, &sides)
}

/// The map with the pair of each item.
fn with_items(alloc: Global, maps: Maps, items: &[&str]) -> Result<Option<Maps>, NoMemory>
    ensures value { IfOk result (λ o. o ≡ with_items (map (λ item. item.now) items.now) maps) }
{
    let mut made = maps;
    for item in items {
        let Some(more) = with_item(alloc, made, *item)? else {
            return Ok(None);
        };
        made = more;
    }
    Ok(Some(made))
}

/// The map with the pairs of a value, where it is given.
pub fn with_more(alloc: Global, maps: Maps, word: Option<&str>) -> Result<Option<Maps>, NoMemory>
    ensures value { IfOk result (λ o. o ≡ with_more (option_map (λ word. word.now) word.entry) maps) }
{
    match word {
        None => Ok(Some(maps)),
        Some(word) => {
            let items = items_of(alloc, word)?;
            with_items(alloc, maps, &items)
        }
    }
}
