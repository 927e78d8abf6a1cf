//! The work folder at the end of a run: all but the lists and the finished text is taken away.
//!
//! Read first: `specs/Finishing.antt`, `specs/Runs.antt`.
ghost use Rattle.std.specs.Prelude.{◌≡◌, ◌++◌, ◌∷◌, [], IfOk, IfErr, IsTrue, OnOk, map, ⊤};
ghost use Rattle.work_texts.specs.declared.journal_err.JournalErr.TheVariants.{Tree as tree_fault};
ghost use Rattle.work_journal.specs.Blames.{is_mild_run};
ghost use Rattle.std.specs.String.{string_bytes};
ghost use Rattle.file_tree.specs.declared.node.TreeErr.TheVariants.{Failed};
ghost use Rattle.journal_core.specs.declared.event.Phase.TheVariants.{Closed};
ghost use Rattle.journal_core.specs.Cores.{core_of};
ghost use Rattle.work_journal.specs.Clearing.{is_other, AreAll, AreGone, IsCleared};
ghost use Rattle.work_journal.specs.Finishing.{end_paths};
ghost use Rattle.work_journal.specs.Spares.{InWork};
ghost use Rattle.work_journal.specs.Runs.{Came};

use crate::desk::Desk;
use crate::job_err::stopped;
use crate::names::final_path;
use crate::opening::is_among;
use crate::sweeping::{lies_below, with_slash};
use file_tree::{Listed, Paths, Tree, TreeErr};
use std::alloc::{AllocError, Global};
use work_texts::JournalErr;

/// The paths of the three lists and of the finished text.
fn ends_of(alloc: Global, work: &str) -> Result<Vec<String>, AllocError>
    ensures paths { IfOk result (λ v. map string_bytes v.items ≡ end_paths work.now) }
{
    let mut ends = Vec::new(alloc);
    ends.push(final_path(alloc, work, 0)?)?;
    ends.push(final_path(alloc, work, 1)?)?;
    ends.push(final_path(alloc, work, 2)?)?;
    ends.push(final_path(alloc, work, 3)?)?;
    Ok(ends)
}

/// Takes a path away at the end of a run, if it lies below the work folder and is none of these ends.
fn sweep_late<T: Tree>(
    desk: &mut Desk<T>,
    work: &str,
    below: &str,
    ends: &[String],
    path: &str,
) -> Result<(), TreeErr>
    requires below { below.now ≡ work.now ++ 47 ∷ [] }
    requires ends { map string_bytes ends.now ≡ end_paths work.now }
    requires phase { (core_of desk.old.core).phase ≡ Closed }
    ensures same_tree { desk.new.tree.ghost_name ≡ desk.old.tree.ghost_name }
    ensures core { core_of desk.new.core ≡ core_of desk.old.core }
    ensures gone { OnOk result (AreGone (is_other work.now) (path.now ∷ []) (T.seen desk.old.tree.now) (T.seen desk.new.tree.now)) }
    ensures came { Came Failed (InWork work.now) 0 work.now (λ w. ⊤) (core_of desk.old.core) (T.seen desk.old.tree.now) (core_of desk.new.core) (T.seen desk.new.tree.now) result }
{
    let _ = work;
    if !lies_below(path, below) {
        return Ok(());
    }
    if is_among(ends, path) {
        return Ok(());
    }
    desk.sweep(path)
}

/// Takes all of these paths away that lie below the work folder, but for the ends.
fn sweep_ends<T: Tree>(
    alloc: Global,
    desk: &mut Desk<T>,
    work: &str,
    paths: &[String],
) -> Result<(), TreeErr>
    requires phase { (core_of desk.old.core).phase ≡ Closed }
    ensures same_tree { desk.new.tree.ghost_name ≡ desk.old.tree.ghost_name }
    ensures core { core_of desk.new.core ≡ core_of desk.old.core }
    ensures gone { OnOk result (AreGone (is_other work.now) (map string_bytes paths.now) (T.seen desk.old.tree.now) (T.seen desk.new.tree.now)) }
    ensures came { Came Failed (InWork work.now) 0 work.now (λ w. ⊤) (core_of desk.old.core) (T.seen desk.old.tree.now) (core_of desk.new.core) (T.seen desk.new.tree.now) result }
{
    let below = with_slash(alloc, work)?;
    let ends = ends_of(alloc, work)?;
    for i in 0..paths.len() {
        sweep_late(desk, work, below.as_str(), &ends, paths[i].as_str())?;
    }
    Ok(())
}

/// The paths below the work folder.
fn list_work<T: Tree>(desk: &mut Desk<T>, work: &str) -> Result<Paths, TreeErr>
    ensures same_tree { desk.new.tree.ghost_name ≡ desk.old.tree.ghost_name }
    ensures core { core_of desk.new.core ≡ core_of desk.old.core }
    ensures all { IfOk result (λ ps. AreAll work.now ps (T.seen desk.new.tree.now)) }
    ensures came { Came Failed (InWork work.now) 0 work.now (λ w. ⊤) (core_of desk.old.core) (T.seen desk.old.tree.now) (core_of desk.new.core) (T.seen desk.new.tree.now) result }
{
    match desk.list(work, u64::MAX)? {
        Listed::Paths(paths) => Ok(paths),
        Listed::TooMany => unreachable!(),
    }
}

/// All but the lists and the finished text is taken away, and that is stored.
fn clear_work<T: Tree>(alloc: Global, desk: &mut Desk<T>, work: &str) -> Result<(), TreeErr>
    requires phase { (core_of desk.old.core).phase ≡ Closed }
    ensures same_tree { desk.new.tree.ghost_name ≡ desk.old.tree.ghost_name }
    ensures closed { OnOk result ((core_of desk.new.core).phase ≡ Closed) }
    ensures cleared { OnOk result (IsCleared work.now (T.seen desk.new.tree.now)) }
    ensures came { Came Failed (InWork work.now) 1 work.now (λ w. ⊤) (core_of desk.old.core) (T.seen desk.old.tree.now) (core_of desk.new.core) (T.seen desk.new.tree.now) result }
{
    let paths = list_work(desk, work)?;
    sweep_ends(alloc, desk, work, paths.as_slice())?;
    desk.settle()?;
    Ok(())
}

/// Clears the work folder of a finished run: all that lies below it is taken away, but for the three lists
/// and the finished text, and that is stored. `Tree` comes only where the tree's count of faults rose.
pub fn clear<T: Tree>(alloc: Global, desk: &mut Desk<T>, work: &str) -> Result<(), JournalErr>
    requires phase { (core_of desk.old.core).phase ≡ Closed }
    ensures same_tree { desk.new.tree.ghost_name ≡ desk.old.tree.ghost_name }
    ensures closed { OnOk result ((core_of desk.new.core).phase ≡ Closed) }
    ensures mild { IfErr result (λ e. IsTrue (is_mild_run e)) }
    ensures cleared { OnOk result (IsCleared work.now (T.seen desk.new.tree.now)) }
    ensures came { Came tree_fault (InWork work.now) 1 work.now (λ w. ⊤) (core_of desk.old.core) (T.seen desk.old.tree.now) (core_of desk.new.core) (T.seen desk.new.tree.now) result }
{
    match clear_work(alloc, desk, work) {
        Ok(()) => Ok(()),
        Err(e) => Err(stopped(e)),
    }
}
