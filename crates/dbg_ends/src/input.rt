//! The step that reads an input.
ghost use Rattle.std.specs.Prelude.{◌≡◌, ◌≢◌, ◌≤◌, ◌⊎◌, true, length, IfOk, IfErr};
ghost use Rattle.std.specs.Option.{ForSome};
ghost use Rattle.file_tree.specs.declared.node.Found.TheVariants as found;
ghost use Rattle.file_tree.specs.Seen.{now_of};
ghost use Rattle.file_tree.specs.Trees.{stands_at};
ghost use Rattle.file_tree.specs.Causes.{Rose, Stood, Calm};
ghost use Rattle.file_tree.specs.Moments.{LooksOnly};
ghost use Rattle.dbg_ends.specs.Ends.{status_of};
ghost use Rattle.dbg_ends.specs.Due.{InputDue, IsCut};
ghost use Rattle.dbg_ends.specs.Steps.{FoundEnds, InputEnds};

use crate::end::End;
use crate::looking::look;
use file_tree::{Found, Text, Tree};
use std::alloc::Global;

/// The file that was found at a path, or how the reading of an input ends by what else was found there.
#[tactic(auto, using(crate::proofs::Rows::found_rows))]
fn file_found(alloc: Global, path: &str, what: Found) -> Result<(Vec<u8>, u32), End>
    ensures file { IfOk result (λ f. what ≡ found.File f.0.items f.1) }
    ensures ends { IfErr result (FoundEnds path.now what) }
{
    match what {
        Found::File { bytes, mode } => Ok((bytes.into_vec(), mode)),
        Found::Absent => Err(End::Absent {
            path: Text::copy_of(alloc, path)?,
        }),
        Found::Folder => Err(End::Folder {
            path: Text::copy_of(alloc, path)?,
        }),
        Found::Link { .. } => Err(End::Link {
            path: Text::copy_of(alloc, path)?,
        }),
        Found::TooLarge { size } => Err(End::Limit {
            path: Text::copy_of(alloc, path)?,
            size,
        }),
    }
}

/// Reads the file at the path, or says at which step the reading of an input ends.
fn read_file<T: Tree>(
    alloc: Global,
    path: &str,
    limit: u64,
    tree: &mut T,
) -> Result<(Vec<u8>, u32), End>
    ensures done { IfOk result (λ f. Stood (now_of (T.seen tree.old)) path.now limit (found.File f.0.items f.1)) }
    ensures small { IfOk result (λ f. length f.0.items ≤ limit) }
    ensures ends { IfErr result (InputEnds path.now limit (T.seen tree.old) (T.seen tree.new)) }
    ensures kept { Calm (T.seen tree.old) (T.seen tree.new) }
    ensures looks { (T.seen tree.old).tells ≡ true → LooksOnly (T.seen tree.old).past (T.seen tree.new).past }
    ensures tells { (T.seen tree.new).tells ≡ (T.seen tree.old).tells }
{
    let found = look(path, limit, tree)?;
    file_found(alloc, path, found)
}

/// The bytes and the mode of the file at the path, which has at most `limit` bytes. The tree stays as
/// it was. What else is at the path, or that nothing is, is the end; a file of more bytes ends as `Limit`,
/// with the number of its bytes.
pub fn read_input<T: Tree>(
    alloc: Global,
    path: &str,
    limit: u64,
    tree: &mut T,
) -> Result<(Vec<u8>, u32), End>
    ensures done { IfOk result (λ f. Stood (now_of (T.seen tree.old)) path.now limit (found.File f.0.items f.1)) }
    ensures small { IfOk result (λ f. length f.0.items ≤ limit) }
    ensures ends { IfErr result (InputEnds path.now limit (T.seen tree.old) (T.seen tree.new)) }
    ensures due { IfErr result (λ e. ForSome (now_of (T.seen tree.old)) (λ t. InputDue (stands_at t path.now limit) (status_of e) (λ _. ⊥) ⊎ IsCut (status_of e))) }
    ensures not_done { IfErr result (λ e. 0 ≢ status_of e) }
    ensures not_usage { IfErr result (λ e. 2 ≢ status_of e) }
    ensures not_output { IfErr result (λ e. 7 ≢ status_of e) }
    ensures fault { IfErr result (λ e. status_of e ≡ 6 → Rose (T.seen tree.old).faults (T.seen tree.new).faults) }
    ensures kept { Calm (T.seen tree.old) (T.seen tree.new) }
    ensures looks { (T.seen tree.old).tells ≡ true → LooksOnly (T.seen tree.old).past (T.seen tree.new).past }
    ensures tells { (T.seen tree.new).tells ≡ (T.seen tree.old).tells }
{
    read_file(alloc, path, limit, tree)
}
