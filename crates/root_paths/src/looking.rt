//! Looks at a tree.
//!
//! Read first: `specs/Looks.antt`.
ghost use Rattle.std.specs.Prelude.{◌∷◌, [], map, IfOk, IsErrOf, OnOk};
ghost use Rattle.std.specs.String.{string_bytes};
ghost use Rattle.file_tree.specs.Seen.{now_of};
ghost use Rattle.file_tree.specs.Causes.{Stood, Lay, IsListed, IsWithin, Rose};
ghost use Rattle.file_tree.specs.declared.node.TreeErr.TheVariants.{Failed};
ghost use Rattle.root_paths.specs.Looks.{LookedAt, Looked};

use file_tree::{Found, Listed, Tree, TreeErr};

/// The paths below a folder.
#[tactic(auto, using(crate::proofs::LookLaws::look_rules))]
pub(crate) fn list<T: Tree>(tree: &mut T, folder: &str, limit: u64) -> Result<Listed, TreeErr>
    ensures told { IfOk result (Lay (now_of (T.seen tree.old)) folder.now limit) }
    ensures order { IfOk result (IsListed limit) }
    ensures failed { IsErrOf result Failed → Rose (T.seen tree.old).faults (T.seen tree.new).faults }
    ensures looked { Looked (T.seen tree.old) (T.seen tree.new) }
{
    tree.list(folder, limit)
}

/// What is at a path.
#[tactic(auto, using(crate::proofs::LookLaws::look_rules))]
pub fn read<T: Tree>(tree: &mut T, path: &str, limit: u64) -> Result<Found, TreeErr>
    ensures told { IfOk result (Stood (now_of (T.seen tree.old)) path.now limit) }
    ensures within { IfOk result (IsWithin limit) }
    ensures failed { IsErrOf result Failed → Rose (T.seen tree.old).faults (T.seen tree.new).faults }
    ensures looked { Looked (T.seen tree.old) (T.seen tree.new) }
    ensures each { OnOk result (LookedAt (T.seen tree.old) (T.seen tree.new) (path.now ∷ [])) }
{
    tree.read(path, limit)
}

/// Looks at each of these paths in turn, whatever is there.
#[tactic(auto, using(crate::proofs::EachLookLaws::each_rules))]
pub fn look_at_each<T: Tree>(tree: &mut T, paths: &[String]) -> Result<(), TreeErr>
    ensures failed { IsErrOf result Failed → Rose (T.seen tree.old).faults (T.seen tree.new).faults }
    ensures looked { Looked (T.seen tree.old) (T.seen tree.new) }
    ensures each { OnOk result (LookedAt (T.seen tree.old) (T.seen tree.new) (map string_bytes paths.now)) }
{
    for path in paths {
        read(tree, path.as_str(), 0)?;
    }
    Ok(())
}
