//! The names of sources: those below a base of a prefix map; and which line tables' files are among them.

ghost use Rattle.std.specs.Prelude.{◌≡◌, [], option_map, IfOk, OnOk};
ghost use Rattle.dw_sources.specs.JoinedFiles.{Marks};
ghost use Rattle.dw_sources.specs.KeptNames.{behind_front, bytes_of, front_len, kept_name, with_kept};

use crate::fronts::Fronts;
use crate::name_set::NameSet;
use dw_base::NoMemory;
use dw_paths::clean_path;
use std::alloc::Global;
use std::collections::BTreeSet;

/// What was found so far.
#[derive(Drop)]
pub(crate) struct FoundNames {
    /// The names.
    pub names: NameSet,
    /// The start of each line table whose files are among them, with the folder that they were joined with.
    pub joined: BTreeSet<(u64, Vec<u8>)>,
}

/// Nothing yet.
pub(crate) fn none_found(alloc: Global) -> FoundNames
    ensures names { result.names ≡ [] }
    ensures joined { result.joined.keys ≡ [] }
{
    FoundNames {
        names: NameSet::new(alloc),
        joined: BTreeSet::new(alloc),
    }
}

/// Notes that the files of the table of a start are joined with a folder. Whether they weren't before.
#[tactic(auto, using(crate::proofs::JoinLaws::mark_rules))]
pub(crate) fn mark(
    alloc: Global,
    start: u64,
    folder: &[u8],
    joined: &mut BTreeSet<(u64, Vec<u8>)>,
) -> Result<bool, NoMemory>
    ensures marked { IfOk result (λ fresh. Marks joined.old.keys joined.new.keys start folder.now fresh) }
{
    let folder = Vec::from_slice(alloc, folder)?;
    Ok(joined.insert((start, folder))?)
}

/// A path without its longest front. `None` exactly where it begins with none.
fn behind_front<'p>(fronts: &Fronts, path: &'p [u8]) -> Option<&'p [u8]>
    ensures value { option_map (λ n. n.now) result ≡ behind_front path.now (front_len fronts.now path.now) }
{
    match fronts.len_in(path) {
        Some(len) => Some(&path[len..]),
        None => None,
    }
}

/// The name that is kept of a path, where one is.
#[tactic(auto, unfolding(crate::specs::KeptNames::kept_name))]
fn kept_name(alloc: Global, fronts: &Fronts, path: &[u8]) -> Result<Option<Vec<u8>>, NoMemory>
    ensures value { IfOk result (λ o. option_map bytes_of o ≡ kept_name fronts.now path.now) }
{
    let cleaned = clean_path(alloc, path)?;
    match behind_front(fronts, &cleaned) {
        Some(name) => Ok(Some(Vec::from_slice(alloc, name)?)),
        None => Ok(None),
    }
}

/// Adds the name that is kept of a path, where one is.
pub(crate) fn add_path(
    alloc: Global,
    fronts: &Fronts,
    path: &[u8],
    names: &mut NameSet,
) -> Result<(), NoMemory>
    ensures value { OnOk result (names.new ≡ with_kept names.old (kept_name fronts.now path.now)) }
{
    match kept_name(alloc, fronts, path)? {
        Some(name) => names.add(name)?,
        None => {}
    }
    Ok(())
}
