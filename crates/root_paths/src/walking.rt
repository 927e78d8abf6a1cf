//! The paths of a build root.
//!
//! Read first: `specs/Walks.antt`.
ghost use Rattle.std.specs.Prelude.{IfOk, IfErr, map};
ghost use Rattle.std.specs.String.{string_bytes};
ghost use Rattle.file_tree.specs.Seen.{now_of};
ghost use Rattle.root_paths.specs.Looks.{Looked};
ghost use Rattle.root_paths.specs.Walks.{AreWalked, WalkEnds, OnlyStopped};

use crate::looking::list;
use crate::path_err::PathErr;
use file_tree::{Listed, Tree};

/// The most paths below a root.
const MOST_PATHS: u64 = 1_100_000;

/// The paths that a list of the root says.
#[tactic(auto, using(crate::proofs::WalkLaws::walk_rules))]
fn list_root<T: Tree>(tree: &mut T, root: &str) -> Result<Vec<String>, PathErr>
    ensures walked { IfOk result (λ v. AreWalked (now_of (T.seen tree.old)) root.now (map string_bytes v.items)) }
    ensures ends { IfErr result (WalkEnds (T.seen tree.old) (T.seen tree.new) root.now) }
    ensures looked { Looked (T.seen tree.old) (T.seen tree.new) }
{
    match list(tree, root, MOST_PATHS)? {
        Listed::TooMany => Err(PathErr::Entries),
        Listed::Paths(paths) => {
            if paths.len() == 0 {
                return Err(PathErr::Absent);
            }
            Ok(paths.into_vec())
        }
    }
}

/// All paths below the root, in byte order. `Absent` exactly where nothing lies below it, `Entries` exactly
/// where more than 1,100,000 paths do.
#[tactic(auto, using(crate::proofs::WalkLaws::stop_rules))]
pub fn walk<T: Tree>(tree: &mut T, root: &str) -> Result<Vec<String>, PathErr>
    ensures walked { IfOk result (λ v. AreWalked (now_of (T.seen tree.old)) root.now (map string_bytes v.items)) }
    ensures ends { IfErr result (WalkEnds (T.seen tree.old) (T.seen tree.new) root.now) }
    ensures looked { Looked (T.seen tree.old) (T.seen tree.new) }
    ensures whole { IfErr result (OnlyStopped (T.seen tree.old) root.now) }
{
    let paths = list_root(tree, root)?;
    Ok(paths)
}
