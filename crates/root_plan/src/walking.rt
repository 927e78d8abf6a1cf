//! The paths of a build root, or why it has no plan.
//!
//! Read first: `specs/Walks.antt`.
ghost use Rattle.std.specs.Prelude.{IfOk, IfErr, map};
ghost use Rattle.std.specs.String.{string_bytes};
ghost use Rattle.file_tree.specs.Seen.{now_of};
ghost use Rattle.root_paths.specs.Looks.{Looked};
ghost use Rattle.root_plan.specs.Walks.{AreWalked, WalkEnds, OnlyStopped};

use crate::plan_err::PlanErr;
use file_tree::Tree;

/// All paths below the root, in byte order. `Absent` exactly where nothing lies below it, `Entries` exactly
/// where more than 1,100,000 paths do.
pub fn walk<T: Tree>(tree: &mut T, root: &str) -> Result<Vec<String>, PlanErr>
    ensures walked { IfOk result (λ v. AreWalked (now_of (T.seen tree.old)) root.now (map string_bytes v.items)) }
    ensures ends { IfErr result (WalkEnds (T.seen tree.old) (T.seen tree.new) root.now) }
    ensures looked { Looked (T.seen tree.old) (T.seen tree.new) }
    ensures whole { IfErr result (OnlyStopped (T.seen tree.old) root.now) }
{
    let paths = root_paths::walk(tree, root)?;
    Ok(paths)
}
