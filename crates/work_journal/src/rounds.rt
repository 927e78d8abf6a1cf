//! All jobs of a run: those that an earlier start committed are moved, and the others taken in rounds
//! that share a settle.
//!
//! This layer promises: at `Ok` each job is done; whatever is answered, every stop leaves the run partway
//! where it was, for the files that the maker wants; and an error says what stood at a job's source.
//! Read first: `specs/Rounds.antt`, `specs/Files.antt`, `specs/Runs.antt`.
ghost use Rattle.std.specs.Prelude.{◌≡◌, ◌≤◌, ◌<◌, ◌+◌, ◌^◌, true, IfOk, IfErr, OnOk, IsTrue, length, List, ℕ, ⊤};
ghost use Rattle.file_tree.specs.declared.node.TreeErr.TheVariants.{Failed};
ghost use Rattle.dw_base.specs.declared.fault.Refusal.{Refusal};
ghost use Rattle.file_tree.specs.declared.node.Node.{Node};
ghost use Rattle.journal_core.specs.Cores.{core_of};
ghost use Rattle.work_journal.specs.declared.job_err.JobErr.TheVariants.{Tree as tree_fault};
ghost use Rattle.work_journal.specs.Groups.{IsGroup, IsMade};
ghost use Rattle.work_journal.specs.Files.{IsWanted};
ghost use Rattle.work_journal.specs.Spares.{IsHit};
ghost use Rattle.work_journal.specs.Runs.{Came, IsGiven};
ghost use Rattle.work_journal.specs.Planned.{HasPlanned, ArePlanned, AreSourcesApart};
ghost use Rattle.journal_core.specs.Calls.{is_uncommitted};
ghost use Rattle.journal_core.specs.Table.{state_of as state_at};
ghost use Rattle.work_journal.specs.Wanted.{Wanted};
ghost use Rattle.work_journal.specs.Keeps.{Keeps};
ghost use Rattle.work_journal.specs.Blames.{JobBlames, JobStood, IsOfJob, is_mild};
ghost use Rattle.file_tree.specs.Images.{state_of};
ghost use Rattle.work_journal.specs.Rounds.{IsMending, IsBegun, IsRound, IsMoving, AreCalm, AreLater, AreDone, rounds_of, settles_so_far, settles_of_one, IsCounted};

use crate::desk::Desk;
use crate::groups::flush_group;
use crate::job_err::JobErr;
use crate::jobs::move_job;
use crate::maker::Maker;
use crate::taking::take_job;
use file_tree::{Tree, TreeErr};
use journal_core::JobState;
use std::alloc::Global;

/// The jobs since the last settle: those from `first` on, of which so many were taken.
#[derive(Clone, Copy)]
pub(crate) struct Round {
    pub first: u32,
    pub taken: u8,
}

/// Moves what is left of a committed job; another job stays.
fn mend_job<T: Tree, M: Maker>(
    alloc: Global,
    desk: &mut Desk<T>,
    work: &str,
    maker: &M,
    job: u32,
) -> Result<(), TreeErr>
    requires there { job < length (M.view maker.now).steps }
    requires mending { IsMending (M.view maker.now) (core_of desk.old.core) job }
    ensures same_tree { desk.new.tree.ghost_name ≡ desk.old.tree.ghost_name }
    ensures mending { OnOk result (IsMending (M.view maker.now) (core_of desk.new.core) (job + 1)) }
    ensures calm { OnOk result (AreCalm (core_of desk.old.core) (core_of desk.new.core)) }
    ensures came { Came Failed (IsHit work.now (M.view maker.now) (IsMoving (core_of desk.old.core))) 0 work.now (λ w. IsMade w (M.view maker.now)) (core_of desk.old.core) (T.seen desk.old.tree.now) (core_of desk.new.core) (T.seen desk.new.tree.now) result }
{
    match desk.core().job(job) {
        JobState::Going { moved } => {
            move_job(alloc, desk, work, maker, job, moved)?;
            Ok(())
        }
        _ => Ok(()),
    }
}

/// Moves what is left of each committed job.
fn mend_all<T: Tree, M: Maker>(
    alloc: Global,
    desk: &mut Desk<T>,
    work: &str,
    maker: &M,
) -> Result<(), TreeErr>
    requires begun { IsBegun (M.view maker.now) (core_of desk.old.core) }
    ensures same_tree { desk.new.tree.ghost_name ≡ desk.old.tree.ghost_name }
    ensures group { OnOk result (IsGroup (M.view maker.now) (core_of desk.new.core) 0 0) }
    ensures calm { OnOk result (AreCalm (core_of desk.old.core) (core_of desk.new.core)) }
    ensures came { Came Failed (IsHit work.now (M.view maker.now) (IsMoving (core_of desk.old.core))) 0 work.now (λ w. IsMade w (M.view maker.now)) (core_of desk.old.core) (T.seen desk.old.tree.now) (core_of desk.new.core) (T.seen desk.new.tree.now) result }
{
    for job in 0..maker.jobs() {
        mend_job(alloc, desk, work, maker, job)?;
    }
    Ok(())
}

/// Takes a job that isn't done into the round; a round that is full is settled, committed and moved.
fn take_one<T: Tree, M: Maker>(
    alloc: Global,
    desk: &mut Desk<T>,
    work: &str,
    maker: &mut M,
    in_flight: u8,
    round: Round,
    job: u32,
) -> Result<Round, JobErr>
    requires there { job < length (M.view maker.old).steps }
    requires next { job + 1 < 2 ^ 32 }
    requires most { in_flight ≤ 64 }
    requires round { IsRound (M.view maker.old) (core_of desk.old.core) round job in_flight }
    ensures same_tree { desk.new.tree.ghost_name ≡ desk.old.tree.ghost_name }
    ensures same_view { M.view maker.new ≡ M.view maker.old }
    ensures kept_nodes { (j : ℕ) (b : List ℕ) (m : ℕ) (ns : List Node) → M.makes maker.old j b m ns → M.makes maker.new j b m ns }
    ensures same_refusals { (j : ℕ) (b : List ℕ) (r : Refusal) → M.refuses maker.new j b r → M.refuses maker.old j b r }
    ensures round { IfOk result (λ r. IsRound (M.view maker.old) (core_of desk.new.core) r (job + 1) in_flight) }
    ensures counted { IfOk result (λ s. IsCounted round s in_flight) }
    ensures later { IfOk result (λ s. AreLater (core_of desk.old.core) (core_of desk.new.core) (job + 1)) }
    ensures met { IfOk result (λ s. IsTrue (is_uncommitted (state_at (core_of desk.old.core) job)) → HasPlanned (M.view maker.old) (T.seen desk.old.tree.now) job) }
    ensures blame { IfErr result (JobBlames (M.view maker.old) (M.refuses maker.old) (T.seen desk.new.tree.now)) }
    ensures stands { IfErr result (JobStood (M.view maker.old) (M.refuses maker.old) (core_of desk.old.core) (T.seen desk.old.tree.now)) }
    ensures of_job { IfErr result (IsOfJob job) }
    ensures mild { (w : Wanted) → IsGiven w work.now → IsWanted w (M.view maker.old) (M.makes maker.old) → (T.seen desk.old.tree.now).tells ≡ true → Keeps w (core_of desk.old.core) (state_of (T.seen desk.old.tree.now).past) → IfErr result (λ e. IsTrue (is_mild e)) }
    ensures came { Came tree_fault (IsHit work.now (M.view maker.old) (λ j. j < job + 1)) (settles_of_one round result) work.now (λ w. IsWanted w (M.view maker.old) (M.makes maker.old)) (core_of desk.old.core) (T.seen desk.old.tree.now) (core_of desk.new.core) (T.seen desk.new.tree.now) result }
{
    let is_done = desk.core().job(job) == JobState::Done;
    if is_done {
        return Ok(round);
    }
    take_job(alloc, desk, work, maker, job)?;
    let taken = round.taken + 1;
    if taken < in_flight {
        return Ok(Round {
            first: round.first,
            taken,
        });
    }
    flush_group(alloc, desk, work, maker, round.first, job + 1)?;
    Ok(Round {
        first: job + 1,
        taken: 0,
    })
}

/// Takes all jobs, in rounds of so many.
fn take_all<T: Tree, M: Maker>(
    alloc: Global,
    desk: &mut Desk<T>,
    work: &str,
    maker: &mut M,
    in_flight: u8,
) -> Result<Round, JobErr>
    requires some { 0 < in_flight }
    requires most { in_flight ≤ 64 }
    requires group { IsGroup (M.view maker.old) (core_of desk.old.core) 0 0 }
    ensures same_tree { desk.new.tree.ghost_name ≡ desk.old.tree.ghost_name }
    ensures same_view { M.view maker.new ≡ M.view maker.old }
    ensures kept_nodes { (j : ℕ) (b : List ℕ) (m : ℕ) (ns : List Node) → M.makes maker.old j b m ns → M.makes maker.new j b m ns }
    ensures same_refusals { (j : ℕ) (b : List ℕ) (r : Refusal) → M.refuses maker.new j b r → M.refuses maker.old j b r }
    ensures round { IfOk result (λ r. IsRound (M.view maker.old) (core_of desk.new.core) r (length (M.view maker.old).steps) in_flight) }
    ensures met { IfOk result (λ r. AreSourcesApart work.now (M.view maker.old) → ArePlanned (M.view maker.old) (core_of desk.old.core) (T.seen desk.old.tree.now) (length (M.view maker.old).steps)) }
    ensures blame { IfErr result (JobBlames (M.view maker.old) (M.refuses maker.old) (T.seen desk.new.tree.now)) }
    ensures stands { AreSourcesApart work.now (M.view maker.old) → IfErr result (JobStood (M.view maker.old) (M.refuses maker.old) (core_of desk.old.core) (T.seen desk.old.tree.now)) }
    ensures mild { (w : Wanted) → IsGiven w work.now → IsWanted w (M.view maker.old) (M.makes maker.old) → (T.seen desk.old.tree.now).tells ≡ true → Keeps w (core_of desk.old.core) (state_of (T.seen desk.old.tree.now).past) → IfErr result (λ e. IsTrue (is_mild e)) }
    ensures came { Came tree_fault (IsHit work.now (M.view maker.old) (λ j. ⊤)) (settles_so_far (length (M.view maker.old).steps) in_flight result) work.now (λ w. IsWanted w (M.view maker.old) (M.makes maker.old)) (core_of desk.old.core) (T.seen desk.old.tree.now) (core_of desk.new.core) (T.seen desk.new.tree.now) result }
{
    let jobs = maker.jobs();
    let mut round = Round { first: 0, taken: 0 };
    for job in 0..jobs {
        round = take_one(alloc, desk, work, maker, in_flight, round, job)?;
    }
    Ok(round)
}

/// Brings each job of the run to its end: those that an earlier start committed, and then the others.
pub(crate) fn run_all<T: Tree, M: Maker>(
    alloc: Global,
    desk: &mut Desk<T>,
    work: &str,
    maker: &mut M,
    in_flight: u8,
) -> Result<(), JobErr>
    requires some { 0 < in_flight }
    requires most { in_flight ≤ 64 }
    requires begun { IsBegun (M.view maker.old) (core_of desk.old.core) }
    ensures same_tree { desk.new.tree.ghost_name ≡ desk.old.tree.ghost_name }
    ensures same_view { M.view maker.new ≡ M.view maker.old }
    ensures kept_nodes { (j : ℕ) (b : List ℕ) (m : ℕ) (ns : List Node) → M.makes maker.old j b m ns → M.makes maker.new j b m ns }
    ensures same_refusals { (j : ℕ) (b : List ℕ) (r : Refusal) → M.refuses maker.new j b r → M.refuses maker.old j b r }
    ensures done { OnOk result (AreDone (M.view maker.old) (core_of desk.new.core)) }
    ensures met { OnOk result (AreSourcesApart work.now (M.view maker.old) → ArePlanned (M.view maker.old) (core_of desk.old.core) (T.seen desk.old.tree.now) (length (M.view maker.old).steps)) }
    ensures blame { IfErr result (JobBlames (M.view maker.old) (M.refuses maker.old) (T.seen desk.new.tree.now)) }
    ensures stands { AreSourcesApart work.now (M.view maker.old) → IfErr result (JobStood (M.view maker.old) (M.refuses maker.old) (core_of desk.old.core) (T.seen desk.old.tree.now)) }
    ensures mild { (w : Wanted) → IsGiven w work.now → IsWanted w (M.view maker.old) (M.makes maker.old) → (T.seen desk.old.tree.now).tells ≡ true → Keeps w (core_of desk.old.core) (state_of (T.seen desk.old.tree.now).past) → IfErr result (λ e. IsTrue (is_mild e)) }
    ensures came { Came tree_fault (IsHit work.now (M.view maker.old) (λ j. ⊤)) (rounds_of (length (M.view maker.old).steps) in_flight) work.now (λ w. IsWanted w (M.view maker.old) (M.makes maker.old)) (core_of desk.old.core) (T.seen desk.old.tree.now) (core_of desk.new.core) (T.seen desk.new.tree.now) result }
{
    mend_all(alloc, desk, work, maker)?;
    let round = take_all(alloc, desk, work, maker, in_flight)?;
    if round.taken == 0 {
        return Ok(());
    }
    flush_group(alloc, desk, work, maker, round.first, maker.jobs())?;
    Ok(())
}
