//! Paths of the work folder taken away: before there is a plan, and at the end of a run.
//!
//! Read first: `specs/Runs.antt`.
ghost use Rattle.std.specs.Prelude.{◌≡◌, ◌++◌, ◌∷◌, [], ℕ, map, IfOk, OnOk, List, ⊤};
ghost use Rattle.std.specs.String.{string_bytes};
ghost use Rattle.file_tree.specs.Trees.{is_below};
ghost use Rattle.file_tree.specs.declared.node.TreeErr.TheVariants.{Failed};
ghost use Rattle.journal_core.specs.declared.event.Phase.TheVariants.{Empty};
ghost use Rattle.journal_core.specs.Cores.{core_of};
ghost use Rattle.work_journal.specs.Clearing.{AreGone};
ghost use Rattle.work_journal.specs.Spares.{InWork};
ghost use Rattle.work_journal.specs.Runs.{Came};

use crate::desk::Desk;
use file_tree::{Tree, TreeErr};
use std::alloc::{AllocError, Global};

/// The folder and a slash.
pub(crate) fn with_slash(alloc: Global, folder: &str) -> Result<String, AllocError>
    ensures { IfOk result (λ s. string_bytes s ≡ folder.now ++ 47 ∷ []) }
{
    let mut below = String::from_str(alloc, folder)?;
    below.push_str("/")?;
    Ok(below)
}

/// Whether the path lies below the folder.
pub(crate) fn lies_below(path: &str, below: &str) -> bool
    ensures { (folder : List ℕ) → below.now ≡ folder ++ 47 ∷ [] → result ≡ is_below folder path.now }
{
    path.as_bytes().starts_with(below.as_bytes())
}

/// Takes a path away, before there is a plan, if it lies below the work folder.
fn sweep_early<T: Tree>(
    desk: &mut Desk<T>,
    work: &str,
    below: &str,
    path: &str,
) -> Result<(), TreeErr>
    requires below { below.now ≡ work.now ++ 47 ∷ [] }
    requires phase { (core_of desk.old.core).phase ≡ Empty }
    ensures same_tree { desk.new.tree.ghost_name ≡ desk.old.tree.ghost_name }
    ensures core { core_of desk.new.core ≡ core_of desk.old.core }
    ensures gone { OnOk result (AreGone (is_below work.now) (path.now ∷ []) (T.seen desk.old.tree.now) (T.seen desk.new.tree.now)) }
    ensures came { Came Failed (InWork work.now) 0 work.now (λ w. ⊤) (core_of desk.old.core) (T.seen desk.old.tree.now) (core_of desk.new.core) (T.seen desk.new.tree.now) result }
{
    let _ = work;
    if !lies_below(path, below) {
        return Ok(());
    }
    desk.sweep(path)
}

/// Takes away each of the paths that lies below the work folder, before there is a plan.
pub(crate) fn sweep_all<T: Tree>(
    alloc: Global,
    desk: &mut Desk<T>,
    work: &str,
    present: &[String],
) -> Result<(), TreeErr>
    requires phase { (core_of desk.old.core).phase ≡ Empty }
    ensures same_tree { desk.new.tree.ghost_name ≡ desk.old.tree.ghost_name }
    ensures core { core_of desk.new.core ≡ core_of desk.old.core }
    ensures gone { OnOk result (AreGone (is_below work.now) (map string_bytes present.now) (T.seen desk.old.tree.now) (T.seen desk.new.tree.now)) }
    ensures came { Came Failed (InWork work.now) 0 work.now (λ w. ⊤) (core_of desk.old.core) (T.seen desk.old.tree.now) (core_of desk.new.core) (T.seen desk.new.tree.now) result }
{
    let below = with_slash(alloc, work)?;
    for i in 0..present.len() {
        sweep_early(desk, work, below.as_str(), present[i].as_str())?;
    }
    Ok(())
}
