//! The trait of trees: a map from paths to files and symbolic links, as a program sees it.
//!
//! This layer promises: why each call fails, what each leaves, and, where a tree tells what it holds,
//! what each finds. A tree tells by its past, a list of all its calls with what they did; so what a
//! stop at any moment may leave is a matter of that list alone.
//! Read first: `specs/Seen.antt`, `specs/Causes.antt`; for stops `specs/Images.antt`.
ghost use Rattle.std.specs.Prelude.{◌≡◌, true, flat_map, IfOk, OnOk, IsErrOf, option_map};
ghost use Rattle.file_tree.specs.declared.node.Node.TheVariants as node;
ghost use Rattle.file_tree.specs.Trees.{with_node, without, moved};
ghost use Rattle.file_tree.specs.Seen.{Seen, now_of, adds};
ghost use Rattle.file_tree.specs.Causes.{HasCause, Stood, Lay, IsWithin, IsListed, OnlyAt, MadeOrNot, Fails, PutFails, MoveFails, TakeFails};

use crate::call::{Call, Change, Effect};
use crate::node::{Found, Listed, Node, TreeErr};

/// A tree of files and symbolic links. A path is a text; a folder is there where a path lies below it.
///
/// Each call answers `Failed` only where the tree's count of faults rose in it, and then its past has
/// the call with what it did; `NoMemory` changes nothing.
pub trait Tree {
    ghost seen: { Self → Seen };

    /// The paths below the folder, in byte order; `TooMany` exactly where there are more than `limit`.
    fn list(&mut self, folder: &str, limit: u64) -> Result<Listed, TreeErr>
        ensures done { (seen self.old).tells ≡ true → OnOk result ((seen self.new).past ≡ adds (seen self.old).past (Call.List folder.now) Effect.Same) }
        ensures failed { (seen self.old).tells ≡ true → IsErrOf result TreeErr.Failed → (seen self.new).past ≡ adds (seen self.old).past (Call.List folder.now) Effect.Same }
        ensures now { now_of (seen self.new) ≡ now_of (seen self.old) }
        ensures told { IfOk result (Lay (now_of (seen self.old)) folder.now limit) }
        ensures order { IfOk result (IsListed limit) }
        ensures cause { HasCause (seen self.old) (seen self.new) result }
        ensures tells { (seen self.new).tells ≡ (seen self.old).tells };

    /// What is at the path. A file is given whole where it has at most `limit` bytes.
    fn read(&mut self, path: &str, limit: u64) -> Result<Found, TreeErr>
        ensures done { (seen self.old).tells ≡ true → OnOk result ((seen self.new).past ≡ adds (seen self.old).past (Call.Read path.now) Effect.Same) }
        ensures failed { (seen self.old).tells ≡ true → IsErrOf result TreeErr.Failed → (seen self.new).past ≡ adds (seen self.old).past (Call.Read path.now) Effect.Same }
        ensures now { now_of (seen self.new) ≡ now_of (seen self.old) }
        ensures told { IfOk result (Stood (now_of (seen self.old)) path.now limit) }
        ensures within { IfOk result (IsWithin limit) }
        ensures cause { HasCause (seen self.old) (seen self.new) result }
        ensures tells { (seen self.new).tells ≡ (seen self.old).tells };

    /// Sets the path to the node. After `Failed` the path holds anything or nothing.
    fn put(&mut self, path: &str, node: &Node) -> Result<(), TreeErr>
        ensures done { (seen self.old).tells ≡ true → OnOk result ((seen self.new).past ≡ adds (seen self.old).past (Call.Put path.now) (Effect.Changed (Change.Put path.now node.now))) }
        ensures failed { (seen self.old).tells ≡ true → IsErrOf result TreeErr.Failed → Fails (seen self.old).past (seen self.new).past (Call.Put path.now) (PutFails path.now) }
        ensures now { OnOk result (now_of (seen self.new) ≡ option_map (with_node path.now node.now) (now_of (seen self.old))) }
        ensures others { OnlyAt path.now (now_of (seen self.old)) (now_of (seen self.new)) }
        ensures cause { HasCause (seen self.old) (seen self.new) result }
        ensures tells { (seen self.new).tells ≡ (seen self.old).tells };

    /// Sets the path to a file of this mode and of the bytes of these pieces, one behind another, as `put` sets it to a node.
    /// After `Failed` the path holds anything or nothing.
    fn put_pieces(&mut self, path: &str, pieces: &[&[u8]], mode: u32) -> Result<(), TreeErr>
        ensures done { (seen self.old).tells ≡ true → OnOk result ((seen self.new).past ≡ adds (seen self.old).past (Call.Put path.now) (Effect.Changed (Change.Put path.now (node.File (flat_map (λ piece. piece.now) pieces.now) mode)))) }
        ensures failed { (seen self.old).tells ≡ true → IsErrOf result TreeErr.Failed → Fails (seen self.old).past (seen self.new).past (Call.Put path.now) (PutFails path.now) }
        ensures now { OnOk result (now_of (seen self.new) ≡ option_map (with_node path.now (node.File (flat_map (λ piece. piece.now) pieces.now) mode)) (now_of (seen self.old))) }
        ensures others { OnlyAt path.now (now_of (seen self.old)) (now_of (seen self.new)) }
        ensures cause { HasCause (seen self.old) (seen self.new) result }
        ensures tells { (seen self.new).tells ≡ (seen self.old).tells };

    /// Moves the node at `from` to `to`, in place of what is there; where nothing is at `from`, nothing
    /// changes. After `Failed` the change is made or not.
    fn rename(&mut self, from: &str, to: &str) -> Result<(), TreeErr>
        ensures done { (seen self.old).tells ≡ true → OnOk result ((seen self.new).past ≡ adds (seen self.old).past (Call.Rename from.now to.now) (Effect.Changed (Change.Move from.now to.now))) }
        ensures failed { (seen self.old).tells ≡ true → IsErrOf result TreeErr.Failed → Fails (seen self.old).past (seen self.new).past (Call.Rename from.now to.now) (MoveFails from.now to.now) }
        ensures now { OnOk result (now_of (seen self.new) ≡ option_map (moved from.now to.now) (now_of (seen self.old))) }
        ensures others { MadeOrNot (moved from.now to.now) (now_of (seen self.old)) (now_of (seen self.new)) }
        ensures cause { HasCause (seen self.old) (seen self.new) result }
        ensures tells { (seen self.new).tells ≡ (seen self.old).tells };

    /// Takes the path away; where it isn't there, nothing changes. After `Failed` the change is made
    /// or not.
    fn remove(&mut self, path: &str) -> Result<(), TreeErr>
        ensures done { (seen self.old).tells ≡ true → OnOk result ((seen self.new).past ≡ adds (seen self.old).past (Call.Remove path.now) (Effect.Changed (Change.Take path.now))) }
        ensures failed { (seen self.old).tells ≡ true → IsErrOf result TreeErr.Failed → Fails (seen self.old).past (seen self.new).past (Call.Remove path.now) (TakeFails path.now) }
        ensures now { OnOk result (now_of (seen self.new) ≡ option_map (without path.now) (now_of (seen self.old))) }
        ensures others { MadeOrNot (without path.now) (now_of (seen self.old)) (now_of (seen self.new)) }
        ensures cause { HasCause (seen self.old) (seen self.new) result }
        ensures tells { (seen self.new).tells ≡ (seen self.old).tells };

    /// Stores all changes made so far. `Failed` stores none.
    fn settle(&mut self) -> Result<(), TreeErr>
        ensures done { (seen self.old).tells ≡ true → OnOk result ((seen self.new).past ≡ adds (seen self.old).past Call.Settle Effect.Settled) }
        ensures failed { (seen self.old).tells ≡ true → IsErrOf result TreeErr.Failed → (seen self.new).past ≡ adds (seen self.old).past Call.Settle Effect.Same }
        ensures now { now_of (seen self.new) ≡ now_of (seen self.old) }
        ensures cause { HasCause (seen self.old) (seen self.new) result }
        ensures tells { (seen self.new).tells ≡ (seen self.old).tells };
}
