//! The steps that look at an output's path and that write it.
ghost use Rattle.std.specs.Prelude.{◌≡◌, ◌≢◌, ◌≤◌, ◌⊎◌, [], ◌∷◌, true, flat_map, IfErr, OnOk, option_map};
ghost use Rattle.std.specs.Option.{ForSome};
ghost use Rattle.file_tree.specs.declared.node.Node.TheVariants as node;
ghost use Rattle.file_tree.specs.Seen.{now_of};
ghost use Rattle.file_tree.specs.Trees.{stands_at, with_node};
ghost use Rattle.file_tree.specs.Causes.{Rose, Calm, OnlyAt};
ghost use Rattle.file_tree.specs.Moments.{LooksOnly, adds_all};
ghost use Rattle.dbg_ends.specs.Ends.{status_of};
ghost use Rattle.dbg_ends.specs.Due.{OutputDue, IsCut, IsFree};
ghost use Rattle.dbg_ends.specs.Steps.{WayEnds, OutputTaken, OutputFree, OutputEnds, OutputsEnd, OnlyAtBoth, file_put, all_stored};

use crate::end::End;
use crate::looking::look;
use file_tree::{Blob, Found, Node, Text, Tree};
use std::alloc::Global;

/// Whether a file may be put where this was found: a folder or a symbolic link is in its way.
#[tactic(auto, using(crate::proofs::Rows::way_rows))]
fn check_free(alloc: Global, path: &str, what: Found) -> Result<(), End>
    ensures free { OnOk result (IsFree what) }
    ensures ends { IfErr result (WayEnds path.now what) }
{
    match what {
        Found::Absent => Ok(()),
        Found::File { .. } => Ok(()),
        Found::TooLarge { .. } => Ok(()),
        Found::Folder => Err(End::Taken {
            path: Text::copy_of(alloc, path)?,
        }),
        Found::Link { .. } => Err(End::Taken {
            path: Text::copy_of(alloc, path)?,
        }),
    }
}

/// Looks whether a file may be put at the path, or says why not.
fn look_free<T: Tree>(alloc: Global, path: &str, tree: &mut T) -> Result<(), End>
    ensures done { OnOk result (OutputFree (now_of (T.seen tree.old)) path.now) }
    ensures ends { IfErr result (OutputTaken path.now (T.seen tree.old) (T.seen tree.new)) }
    ensures kept { Calm (T.seen tree.old) (T.seen tree.new) }
    ensures looks { (T.seen tree.old).tells ≡ true → LooksOnly (T.seen tree.old).past (T.seen tree.new).past }
    ensures tells { (T.seen tree.new).tells ≡ (T.seen tree.old).tells }
{
    let found = look(path, 0, tree)?;
    check_free(alloc, path, found)
}

/// Looks whether a file may be put at the path: nothing is there, or a file. A folder or a symbolic link
/// there ends as `Taken`. The tree stays as it was, and no bytes of a file that is there are read.
pub fn free_output<T: Tree>(alloc: Global, path: &str, tree: &mut T) -> Result<(), End>
    ensures done { OnOk result (OutputFree (now_of (T.seen tree.old)) path.now) }
    ensures ends { IfErr result (OutputTaken path.now (T.seen tree.old) (T.seen tree.new)) }
    ensures due { IfErr result (λ e. ForSome (now_of (T.seen tree.old)) (λ t. OutputDue (stands_at t path.now 0) (status_of e) ⊥ ⊎ IsCut (status_of e))) }
    ensures not_done { IfErr result (λ e. 0 ≢ status_of e) }
    ensures not_usage { IfErr result (λ e. 2 ≢ status_of e) }
    ensures not_output { IfErr result (λ e. 7 ≢ status_of e) }
    ensures fault { IfErr result (λ e. status_of e ≡ 6 → Rose (T.seen tree.old).faults (T.seen tree.new).faults) }
    ensures kept { Calm (T.seen tree.old) (T.seen tree.new) }
    ensures looks { (T.seen tree.old).tells ≡ true → LooksOnly (T.seen tree.old).past (T.seen tree.new).past }
    ensures tells { (T.seen tree.new).tells ≡ (T.seen tree.old).tells }
{
    look_free(alloc, path, tree)
}

/// Sets the path to a file of these bytes and this mode, and then settles the tree.
#[tactic(auto, using(crate::proofs::Rows::output_rows))]
fn write_output<T: Tree>(path: &str, bytes: Vec<u8>, mode: u32, tree: &mut T) -> Result<(), End>
    ensures done { OnOk result (now_of (T.seen tree.new) ≡ option_map (with_node path.now (node.File bytes.items mode)) (now_of (T.seen tree.old))) }
    ensures ends { IfErr result (OutputEnds path.now (T.seen tree.old) (T.seen tree.new)) }
    ensures due { IfErr result (λ e. IsCut (status_of e)) }
    ensures calls { (T.seen tree.old).tells ≡ true → OnOk result ((T.seen tree.new).past ≡ adds_all (T.seen tree.old).past (file_put path.now bytes.items mode ∷ all_stored ∷ [])) }
    ensures not_done { IfErr result (λ e. 0 ≢ status_of e) }
    ensures not_usage { IfErr result (λ e. 2 ≢ status_of e) }
    ensures not_output { IfErr result (λ e. 7 ≢ status_of e) }
    ensures fault { IfErr result (λ e. status_of e ≡ 6 → Rose (T.seen tree.old).faults (T.seen tree.new).faults) }
    ensures others { OnlyAt path.now (now_of (T.seen tree.old)) (now_of (T.seen tree.new)) }
    ensures tells { (T.seen tree.new).tells ≡ (T.seen tree.old).tells }
{
    put_output(path, bytes, mode, tree)?;
    tree.settle()?;
    Ok(())
}

/// Sets the path to a file of these bytes and this mode.
#[tactic(auto, using(crate::proofs::Rows::output_rows))]
fn put_output<T: Tree>(path: &str, bytes: Vec<u8>, mode: u32, tree: &mut T) -> Result<(), End>
    ensures done { OnOk result (now_of (T.seen tree.new) ≡ option_map (with_node path.now (node.File bytes.items mode)) (now_of (T.seen tree.old))) }
    ensures ends { IfErr result (OutputEnds path.now (T.seen tree.old) (T.seen tree.new)) }
    ensures due { IfErr result (λ e. IsCut (status_of e)) }
    ensures calls { (T.seen tree.old).tells ≡ true → OnOk result ((T.seen tree.new).past ≡ adds_all (T.seen tree.old).past (file_put path.now bytes.items mode ∷ [])) }
    ensures not_done { IfErr result (λ e. 0 ≢ status_of e) }
    ensures not_usage { IfErr result (λ e. 2 ≢ status_of e) }
    ensures not_output { IfErr result (λ e. 7 ≢ status_of e) }
    ensures fault { IfErr result (λ e. status_of e ≡ 6 → Rose (T.seen tree.old).faults (T.seen tree.new).faults) }
    ensures later { (T.seen tree.old).faults ≤ (T.seen tree.new).faults }
    ensures others { OnlyAt path.now (now_of (T.seen tree.old)) (now_of (T.seen tree.new)) }
    ensures tells { (T.seen tree.new).tells ≡ (T.seen tree.old).tells }
{
    let node = Node::File {
        bytes: Blob::new(bytes),
        mode,
    };
    tree.put(path, &node)?;
    Ok(())
}

/// Sets the path to a file of the bytes of these pieces, one behind another, and this mode.
#[tactic(auto, using(crate::proofs::Rows::output_rows))]
fn put_pieces<T: Tree>(path: &str, pieces: &[&[u8]], mode: u32, tree: &mut T) -> Result<(), End>
    ensures done { OnOk result (now_of (T.seen tree.new) ≡ option_map (with_node path.now (node.File (flat_map (λ piece. piece.now) pieces.now) mode)) (now_of (T.seen tree.old))) }
    ensures ends { IfErr result (OutputEnds path.now (T.seen tree.old) (T.seen tree.new)) }
    ensures due { IfErr result (λ e. IsCut (status_of e)) }
    ensures calls { (T.seen tree.old).tells ≡ true → OnOk result ((T.seen tree.new).past ≡ adds_all (T.seen tree.old).past (file_put path.now (flat_map (λ piece. piece.now) pieces.now) mode ∷ [])) }
    ensures not_done { IfErr result (λ e. 0 ≢ status_of e) }
    ensures not_usage { IfErr result (λ e. 2 ≢ status_of e) }
    ensures not_output { IfErr result (λ e. 7 ≢ status_of e) }
    ensures fault { IfErr result (λ e. status_of e ≡ 6 → Rose (T.seen tree.old).faults (T.seen tree.new).faults) }
    ensures later { (T.seen tree.old).faults ≤ (T.seen tree.new).faults }
    ensures others { OnlyAt path.now (now_of (T.seen tree.old)) (now_of (T.seen tree.new)) }
    ensures tells { (T.seen tree.new).tells ≡ (T.seen tree.old).tells }
{
    tree.put_pieces(path, pieces, mode)?;
    Ok(())
}

/// Sets the path to a file of the bytes of these pieces, one behind another, and this mode, and then settles the tree.
#[tactic(auto, using(crate::proofs::Rows::output_rows))]
pub fn write_in_pieces<T: Tree>(
    path: &str,
    pieces: &[&[u8]],
    mode: u32,
    tree: &mut T,
) -> Result<(), End>
    ensures done { OnOk result (now_of (T.seen tree.new) ≡ option_map (with_node path.now (node.File (flat_map (λ piece. piece.now) pieces.now) mode)) (now_of (T.seen tree.old))) }
    ensures ends { IfErr result (OutputEnds path.now (T.seen tree.old) (T.seen tree.new)) }
    ensures due { IfErr result (λ e. IsCut (status_of e)) }
    ensures calls { (T.seen tree.old).tells ≡ true → OnOk result ((T.seen tree.new).past ≡ adds_all (T.seen tree.old).past (file_put path.now (flat_map (λ piece. piece.now) pieces.now) mode ∷ all_stored ∷ [])) }
    ensures not_done { IfErr result (λ e. 0 ≢ status_of e) }
    ensures not_usage { IfErr result (λ e. 2 ≢ status_of e) }
    ensures not_output { IfErr result (λ e. 7 ≢ status_of e) }
    ensures fault { IfErr result (λ e. status_of e ≡ 6 → Rose (T.seen tree.old).faults (T.seen tree.new).faults) }
    ensures others { OnlyAt path.now (now_of (T.seen tree.old)) (now_of (T.seen tree.new)) }
    ensures tells { (T.seen tree.new).tells ≡ (T.seen tree.old).tells }
{
    put_pieces(path, pieces, mode, tree)?;
    Ok(tree.settle()?)
}

/// Sets the path to a file of the bytes of these pieces, one behind another, and this mode, then a second path to a file of its
/// bytes and its mode, and then settles the tree.
#[tactic(auto, using(crate::proofs::Rows::outputs_rows))]
pub fn write_pieces<T: Tree>(
    path: &str,
    pieces: &[&[u8]],
    mode: u32,
    beside: &str,
    more: Vec<u8>,
    more_mode: u32,
    tree: &mut T,
) -> Result<(), End>
    ensures done { OnOk result (now_of (T.seen tree.new) ≡ option_map (with_node beside.now (node.File more.items more_mode)) (option_map (with_node path.now (node.File (flat_map (λ piece. piece.now) pieces.now) mode)) (now_of (T.seen tree.old)))) }
    ensures ends { IfErr result (OutputsEnd path.now beside.now (T.seen tree.old) (T.seen tree.new)) }
    ensures due { IfErr result (λ e. IsCut (status_of e)) }
    ensures calls { (T.seen tree.old).tells ≡ true → OnOk result ((T.seen tree.new).past ≡ adds_all (T.seen tree.old).past (file_put path.now (flat_map (λ piece. piece.now) pieces.now) mode ∷ file_put beside.now more.items more_mode ∷ all_stored ∷ [])) }
    ensures not_done { IfErr result (λ e. 0 ≢ status_of e) }
    ensures not_usage { IfErr result (λ e. 2 ≢ status_of e) }
    ensures not_output { IfErr result (λ e. 7 ≢ status_of e) }
    ensures fault { IfErr result (λ e. status_of e ≡ 6 → Rose (T.seen tree.old).faults (T.seen tree.new).faults) }
    ensures others { OnlyAtBoth path.now beside.now (now_of (T.seen tree.old)) (now_of (T.seen tree.new)) }
    ensures tells { (T.seen tree.new).tells ≡ (T.seen tree.old).tells }
{
    put_pieces(path, pieces, mode, tree)?;
    write_output(beside, more, more_mode, tree)?;
    Ok(())
}
