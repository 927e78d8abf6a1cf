//! What the listed names come to, one after another.
//!
//! Read first: `specs/Gathering.antt`, `specs/GatherEnds.antt`.
ghost use Rattle.std.specs.Prelude.{◌≡◌, ◌≤◌, ◌<◌, ◌-◌, ◌^◌, true, length, map, IfOk, IfErr, OnOk};
ghost use Rattle.std.specs.String.{string_bytes};
ghost use Rattle.file_tree.specs.Seen.{now_of};
ghost use Rattle.root_paths.specs.Looks.{Looked};
ghost use Rattle.root_paths.specs.Roots.{in_root};
ghost use Rattle.work_texts.specs.Lists.{bytes_of};
ghost use Rattle.src_gather.specs.Listed.{is_fit, copy_folder};
ghost use Rattle.src_gather.specs.Gathering.{Gathering, none_gathered, with_copy, with_missing, IsShort, FoundNoted, Noted, Gathers};
ghost use Rattle.src_gather.specs.GatherEnds.{NameEnds, NamesEnd, OrStopped, IsLongName, FoundEnds};

use crate::gather_err::GatherErr;
use crate::names::fit;
use crate::path_ends::check_short;
use file_tree::{Found, Text, Tree};
use root_paths::{in_root, read};
use root_plan::edited_job;
use std::alloc::{AllocError, Global};
use std::marker::Model;
use work_texts::{JobLine, TEXT_LIMIT};

/// What some names come to.
#[derive(Drop)]
pub(crate) struct Gathered {
    /// A job for each name that is gathered.
    pub(crate) jobs: Vec<JobLine>,
    /// How many names are missing.
    pub(crate) missing: u64,
}

impl Model for Gathered {
    ghost Value = { Gathering };

    ghost view = { λ g. record { jobs = g.jobs.items; missing = g.missing } };
}

/// The folder of the copies.
pub(crate) fn copy_folder(alloc: Global, root: &str, dest: &str) -> Result<String, AllocError>
    ensures value { IfOk result (λ s. string_bytes s ≡ copy_folder root.now dest.now) }
{
    format!(in alloc; "{root}{dest}")
}

impl Gathered {
    /// What no name comes to.
    pub(crate) fn new(alloc: Global) -> Gathered
        ensures value { result ≡ none_gathered }
    {
        Gathered {
            jobs: Vec::new(alloc),
            missing: 0,
        }
    }

    /// With a name more that is gathered, and its bytes.
    fn with_copy(self, alloc: Global, name: &str, bytes: &[u8]) -> Result<Gathered, AllocError>
        ensures value { IfOk result (λ g. g ≡ with_copy self name.now bytes.now) }
    {
        let Gathered { mut jobs, missing } = self;
        jobs.push(edited_job(alloc, name, bytes)?)?;
        Ok(Gathered { jobs, missing })
    }

    /// With a name more that is missing.
    fn with_missing(self) -> Gathered
        requires few { self.missing < 2 ^ 64 - 1 }
        ensures value { result ≡ with_missing self }
    {
        let Gathered { jobs, missing } = self;
        let missing = missing + 1;
        Gathered { jobs, missing }
    }
}

/// Whether the paths of a name's file and of its copy are within the limit; the first is answered.
fn short_paths(
    alloc: Global,
    root: &str,
    from: &str,
    dest: &str,
    name: &str,
) -> Result<String, GatherErr>
    ensures source { IfOk result (λ s. string_bytes s ≡ in_root from.now name.now) }
    ensures short { OnOk result (IsShort root.now from.now dest.now name.now) }
    ensures ends { IfErr result (IsLongName root.now from.now dest.now name.now) }
{
    let source = in_root(alloc, from, name)?;
    check_short(alloc, root, source.as_str())?;
    let folder = copy_folder(alloc, root, dest)?;
    let copy = in_root(alloc, folder.as_str(), name)?;
    check_short(alloc, root, copy.as_str())?;
    Ok(source)
}

/// What is found at the path of a name's file.
#[tactic(auto, using(crate::proofs::Rows::found_rows))]
fn note_found(
    alloc: Global,
    name: &str,
    source: &str,
    found: Found,
    gathered: Gathered,
) -> Result<Gathered, GatherErr>
    requires few { gathered.missing < 2 ^ 64 - 1 }
    ensures noted { IfOk result (FoundNoted name.now found gathered) }
    ensures ends { IfErr result (FoundEnds source.now found) }
{
    match found {
        Found::File { bytes, mode: _ } => {
            let gathered = gathered.with_copy(alloc, name, bytes.as_slice())?;
            Ok(gathered)
        }
        Found::TooLarge { size } => {
            let path = Text::copy_of(alloc, source)?;
            Err(GatherErr::FileTooLarge { path, size })
        }
        Found::Absent => Ok(gathered.with_missing()),
        Found::Folder => Ok(gathered.with_missing()),
        Found::Link { .. } => Ok(gathered.with_missing()),
    }
}

/// One name: what is found of it is added.
#[tactic(auto, using(crate::proofs::NoteLaws::name_rules))]
fn note_name<T: Tree>(
    alloc: Global,
    tree: &mut T,
    root: &str,
    from: &str,
    dest: &str,
    name: &[u8],
    gathered: Gathered,
) -> Result<Gathered, GatherErr>
    requires few { gathered.missing < 2 ^ 64 - 1 }
    ensures noted { IfOk result (Noted (now_of (T.seen tree.old)) root.now from.now dest.now name.now gathered) }
    ensures ends { IfErr result (OrStopped (NameEnds (now_of (T.seen tree.old)) root.now from.now dest.now name.now) (T.seen tree.old) (T.seen tree.new)) }
    ensures looked { Looked (T.seen tree.old) (T.seen tree.new) }
{
    let Some(text) = fit(name) else {
        return Ok(gathered.with_missing());
    };
    let source = short_paths(alloc, root, from, dest, text)?;
    let found = read(tree, source.as_str(), TEXT_LIMIT)?;
    let gathered = note_found(alloc, text, source.as_str(), found, gathered)?;
    Ok(gathered)
}

/// What the names of a list come to.
pub(crate) fn gather_names<T: Tree>(
    alloc: Global,
    tree: &mut T,
    root: &str,
    from: &str,
    dest: &str,
    names: &[Vec<u8>],
) -> Result<Gathered, GatherErr>
    ensures gathers { IfOk result (Gathers (now_of (T.seen tree.old)) root.now from.now dest.now (map bytes_of names.now)) }
    ensures ends { IfErr result (OrStopped (NamesEnd (now_of (T.seen tree.old)) root.now from.now dest.now (map bytes_of names.now)) (T.seen tree.old) (T.seen tree.new)) }
    ensures looked { Looked (T.seen tree.old) (T.seen tree.new) }
{
    let mut gathered = Gathered::new(alloc);
    for i in 0..names.len() {
        let name = names[i].as_slice();
        gathered = note_name(alloc, tree, root, from, dest, name, gathered)?;
    }
    Ok(gathered)
}
