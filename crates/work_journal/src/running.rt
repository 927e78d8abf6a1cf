//! The jobs of a run, as a caller has them.
//!
//! This layer promises: at `Ok` each job is done; an error says what stood at a job's source, at entry too
//! where sources lie apart; and where the
//! tree and the core agree and the maker's files are wanted, there is none but want of memory and a fault
//! of the tree. Whatever is answered, every stop leaves the run partway.
//! Read first: `specs/Blames.antt`, `specs/Rounds.antt`, `specs/Runs.antt`.
ghost use Rattle.std.specs.Prelude.{◌≡◌, ◌≤◌, ◌<◌, true, IfErr, OnOk, IsTrue, length, List, ℕ, ⊤};
ghost use Rattle.dw_base.specs.declared.fault.Refusal.{Refusal};
ghost use Rattle.file_tree.specs.declared.node.Node.{Node};
ghost use Rattle.file_tree.specs.Images.{state_of};
ghost use Rattle.journal_core.specs.Cores.{core_of};
ghost use Rattle.work_texts.specs.declared.journal_err.JournalErr.TheVariants.{Tree as tree_fault};
ghost use Rattle.work_journal.specs.Blames.{RunBlames, is_mild_run};
ghost use Rattle.work_journal.specs.Files.{IsWanted};
ghost use Rattle.work_journal.specs.Keeps.{Keeps};
ghost use Rattle.work_journal.specs.Planned.{ArePlanned, AreSourcesApart};
ghost use Rattle.work_journal.specs.Rounds.{IsBegun, AreDone, rounds_of};
ghost use Rattle.work_journal.specs.Spares.{IsHit};
ghost use Rattle.work_journal.specs.Runs.{Came, IsGiven};
ghost use Rattle.work_journal.specs.Wanted.{Wanted};

use crate::desk::Desk;
use crate::job_err::named;
use crate::maker::Maker;
use crate::rounds::run_all;
use file_tree::Tree;
use std::alloc::Global;
use work_texts::JournalErr;

/// Brings each job of the run to its end, with up to so many in flight, 1 to 64: jobs that an earlier
/// start committed are moved first; of each other job the file is read, and its nodes made and put under
/// temporary names; then one settle serves the jobs of a round, which are committed and moved.
///
/// `Changed` and `Refused` name the job's file, which isn't the planned one, or of which this is refused;
/// `Tree` comes only where the tree's count of faults rose.
pub fn run_jobs<T: Tree, M: Maker>(
    alloc: Global,
    desk: &mut Desk<T>,
    work: &str,
    maker: &mut M,
    in_flight: u8,
) -> Result<(), JournalErr>
    requires some { 0 < in_flight }
    requires most { in_flight ≤ 64 }
    requires begun { IsBegun (M.view maker.old) (core_of desk.old.core) }
    ensures same_tree { desk.new.tree.ghost_name ≡ desk.old.tree.ghost_name }
    ensures same_view { M.view maker.new ≡ M.view maker.old }
    ensures kept_nodes { (j : ℕ) (b : List ℕ) (m : ℕ) (ns : List Node) → M.makes maker.old j b m ns → M.makes maker.new j b m ns }
    ensures same_refusals { (j : ℕ) (b : List ℕ) (r : Refusal) → M.refuses maker.new j b r → M.refuses maker.old j b r }
    ensures done { OnOk result (AreDone (M.view maker.old) (core_of desk.new.core)) }
    ensures met { OnOk result (AreSourcesApart work.now (M.view maker.old) → ArePlanned (M.view maker.old) (core_of desk.old.core) (T.seen desk.old.tree.now) (length (M.view maker.old).steps)) }
    ensures blame { IfErr result (RunBlames (M.view maker.old) (M.refuses maker.old) (T.seen desk.new.tree.now)) }
    ensures stays { AreSourcesApart work.now (M.view maker.old) → IfErr result (RunBlames (M.view maker.old) (M.refuses maker.old) (T.seen desk.old.tree.now)) }
    ensures mild { (w : Wanted) → IsGiven w work.now → IsWanted w (M.view maker.old) (M.makes maker.old) → (T.seen desk.old.tree.now).tells ≡ true → Keeps w (core_of desk.old.core) (state_of (T.seen desk.old.tree.now).past) → IfErr result (λ e. IsTrue (is_mild_run e)) }
    ensures came { Came tree_fault (IsHit work.now (M.view maker.old) (λ j. ⊤)) (rounds_of (length (M.view maker.old).steps) in_flight) work.now (λ w. IsWanted w (M.view maker.old) (M.makes maker.old)) (core_of desk.old.core) (T.seen desk.old.tree.now) (core_of desk.new.core) (T.seen desk.new.tree.now) result }
{
    match run_all(alloc, desk, work, maker, in_flight) {
        Ok(()) => Ok(()),
        Err(e) => Err(named(alloc, maker, e)),
    }
}
