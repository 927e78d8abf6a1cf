//! What is said of paths, as the end of a gather.
//!
//! Read first: `specs/Errors.antt`, `specs/GatherEnds.antt`.
ghost use Rattle.std.specs.Prelude.{◌≤◌, length, map, IfOk, IfErr, OnOk};
ghost use Rattle.std.specs.String.{string_bytes};
ghost use Rattle.file_tree.specs.Seen.{now_of};
ghost use Rattle.root_paths.specs.Looks.{Looked};
ghost use Rattle.root_paths.specs.NewPaths.{CanBeMade};
ghost use Rattle.root_paths.specs.Roots.{longest_path};
ghost use Rattle.root_paths.specs.Walks.{AreWalked};
ghost use Rattle.src_gather.specs.Errors.{IsPathEnd};
ghost use Rattle.src_gather.specs.GatherEnds.{IsAbsent, IsLong, CopyEnds, RootEnds};

use crate::gather_err::GatherErr;
use file_tree::{Text, Tree};
use root_paths::{PathErr, check_length, check_made, walk};
use std::alloc::Global;

/// A path that isn't there.
#[tactic(auto, using(crate::proofs::Rows::absent_rows))]
pub(crate) fn absent(alloc: Global, path: &str) -> GatherErr
    ensures ends { IsAbsent path.now result }
{
    match Text::copy_of(alloc, path) {
        Ok(path) => GatherErr::Absent(path),
        Err(_) => GatherErr::NoMemory,
    }
}

/// What is said of the paths of a root.
#[tactic(auto, using(crate::proofs::Rows::path_rows))]
fn path_end(alloc: Global, root: &str, e: PathErr) -> GatherErr
    ensures end { IsPathEnd root.now e result }
{
    match e {
        PathErr::Absent => absent(alloc, root),
        PathErr::Entries => GatherErr::Entries,
        PathErr::PathTooLong(path) => GatherErr::PathTooLong(path),
        PathErr::Taken(path) => GatherErr::Taken(path),
        PathErr::Tree => GatherErr::Tree,
        PathErr::NoMemory => GatherErr::NoMemory,
    }
}

/// All paths below the root.
#[tactic(auto, using(crate::proofs::PathLaws::walk_rules))]
pub(crate) fn walk_root<T: Tree>(
    alloc: Global,
    tree: &mut T,
    root: &str,
) -> Result<Vec<String>, GatherErr>
    ensures walked { IfOk result (λ v. AreWalked (now_of (T.seen tree.old)) root.now (map string_bytes v.items)) }
    ensures ends { IfErr result (RootEnds (T.seen tree.old) (T.seen tree.new) root.now) }
    ensures looked { Looked (T.seen tree.old) (T.seen tree.new) }
{
    match walk(tree, root) {
        Ok(paths) => Ok(paths),
        Err(e) => Err(path_end(alloc, root, e)),
    }
}

/// Whether a path below the root or the folder of the sources is within the limit; else it is named.
#[tactic(auto, using(crate::proofs::PathLaws::long_rules))]
pub(crate) fn check_short(alloc: Global, root: &str, path: &str) -> Result<(), GatherErr>
    ensures short { OnOk result (length path.now ≤ longest_path) }
    ensures long { IfErr result (IsLong path.now) }
{
    match check_length(alloc, path) {
        Ok(()) => Ok(()),
        Err(e) => Err(path_end(alloc, root, e)),
    }
}

/// Whether copies can be made where these paths stand.
#[tactic(auto, using(crate::proofs::PathLaws::copy_rules))]
pub(crate) fn check_copies(
    alloc: Global,
    root: &str,
    present: &[String],
    copies: Vec<String>,
) -> Result<(), GatherErr>
    ensures can { OnOk result (CanBeMade (map string_bytes present.now) (map string_bytes copies.items)) }
    ensures ends { IfErr result (CopyEnds (map string_bytes present.now) (map string_bytes copies.items)) }
{
    match check_made(alloc, present, copies) {
        Ok(()) => Ok(()),
        Err(e) => Err(path_end(alloc, root, e)),
    }
}
