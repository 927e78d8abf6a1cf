//! The look at a path.
ghost use Rattle.std.specs.Prelude.{◌≡◌, true, IfOk};
ghost use Rattle.file_tree.specs.Seen.{now_of};
ghost use Rattle.file_tree.specs.Causes.{HasCause, IsWithin, Stood, Calm};
ghost use Rattle.file_tree.specs.Moments.{LooksOnly};

use file_tree::{Found, Tree, TreeErr};

/// What is at the path; a file is given whole where it has at most `limit` bytes. The tree stays as it was, and nothing but a look is among its
/// calls.
#[tactic(auto, using(crate::proofs::LookLaws::look_rules))]
pub(crate) fn look<T: Tree>(path: &str, limit: u64, tree: &mut T) -> Result<Found, TreeErr>
    ensures told { IfOk result (Stood (now_of (T.seen tree.old)) path.now limit) }
    ensures within { IfOk result (IsWithin limit) }
    ensures looks { (T.seen tree.old).tells ≡ true → LooksOnly (T.seen tree.old).past (T.seen tree.new).past }
    ensures cause { HasCause (T.seen tree.old) (T.seen tree.new) result }
    ensures kept { Calm (T.seen tree.old) (T.seen tree.new) }
    ensures tells { (T.seen tree.new).tells ≡ (T.seen tree.old).tells }
{
    tree.read(path, limit)
}
