//! A job taken: its file read, its nodes made and staged.
//!
//! Read first: `specs/Files.antt`, `specs/Runs.antt`.
ghost use Rattle.std.specs.Prelude.{◌≡◌, ◌<◌, ◌≤◌, true, IfOk, IfErr, OnOk, IsTrue, length, get_or, ⊤, List, ℕ};
ghost use Rattle.work_journal.specs.declared.job_err.JobErr.TheVariants.{Tree as tree_fault};
ghost use Rattle.dw_base.specs.Layout.{file_limit};
ghost use Rattle.dw_base.specs.declared.fault.Refusal.{Refusal};
ghost use Rattle.file_tree.specs.declared.node.Node.{Node};
ghost use Rattle.journal_core.specs.declared.event.JobState.TheVariants.{Staged};
ghost use Rattle.journal_core.specs.Table.{with_state, state_of as job_state};
ghost use Rattle.journal_core.specs.Cores.{core_of};
ghost use Rattle.work_journal.specs.Jobs.{MayStage};
ghost use Rattle.work_journal.specs.Files.{FileStands, IsWanted};
ghost use Rattle.work_journal.specs.Spares.{InWork};
ghost use Rattle.work_journal.specs.Runs.{Came, IsGiven};
ghost use Rattle.work_journal.specs.Planned.{HasPlanned};
ghost use Rattle.work_journal.specs.Wanted.{Wanted};
ghost use Rattle.work_journal.specs.Keeps.{Keeps};
ghost use Rattle.work_journal.specs.Blames.{JobBlames, JobStood, IsOfJob, MakeBlames, is_mild};
ghost use Rattle.journal_core.specs.Calls.{is_uncommitted};
ghost use Rattle.file_tree.specs.Images.{state_of};

use crate::desk::Desk;
use crate::job_err::{JobErr, unmade};
use crate::jobs::stage_job;
use crate::maker::Maker;
use dw_base::FILE_LIMIT;
use file_tree::{Blob, Found, Node, Tree};
use std::alloc::Global;

/// Reads a job's file: its bytes and its mode.
fn read_job<T: Tree, M: Maker>(
    alloc: Global,
    desk: &mut Desk<T>,
    work: &str,
    maker: &M,
    job: u32,
) -> Result<(Blob, u32), JobErr>
    requires there { job < length (M.view maker.now).steps }
    ensures same_tree { desk.new.tree.ghost_name ≡ desk.old.tree.ghost_name }
    ensures core { core_of desk.new.core ≡ core_of desk.old.core }
    ensures few { IfOk result (λ p. length p.0 ≤ file_limit) }
    ensures found { IfOk result (λ p. FileStands (T.seen desk.new.tree.now) ((M.view maker.now).source job) p.0 p.1) }
    ensures stood { IfOk result (λ p. FileStands (T.seen desk.old.tree.now) ((M.view maker.now).source job) p.0 p.1) }
    ensures blame { IfErr result (JobBlames (M.view maker.now) (M.refuses maker.now) (T.seen desk.new.tree.now)) }
    ensures stands { IfErr result (JobBlames (M.view maker.now) (M.refuses maker.now) (T.seen desk.old.tree.now)) }
    ensures of_job { IfErr result (IsOfJob job) }
    ensures mild { (w : Wanted) → IsGiven w work.now → IsWanted w (M.view maker.now) (M.makes maker.now) → (T.seen desk.old.tree.now).tells ≡ true → Keeps w (core_of desk.old.core) (state_of (T.seen desk.old.tree.now).past) → IsTrue (is_uncommitted (job_state (core_of desk.old.core) job)) → IfErr result (λ e. IsTrue (is_mild e)) }
    ensures came { Came tree_fault (InWork work.now) 0 work.now (λ w. ⊤) (core_of desk.old.core) (T.seen desk.old.tree.now) (core_of desk.new.core) (T.seen desk.new.tree.now) result }
{
    let _ = work;
    let path = maker.source(alloc, job)?;
    match desk.read(path.as_str(), FILE_LIMIT)? {
        Found::File { bytes, mode } => Ok((bytes, mode)),
        _ => Err(JobErr::Changed {
            job,
            planned: maker.planned(job),
            found: None,
        }),
    }
}

/// The nodes that the maker makes of a job's file.
fn make_nodes<M: Maker>(
    alloc: Global,
    maker: &mut M,
    job: u32,
    bytes: Blob,
    mode: u32,
) -> Result<Vec<Node>, JobErr>
    requires there { job < length (M.view maker.old).steps }
    requires small { length bytes ≤ file_limit }
    ensures same_view { M.view maker.new ≡ M.view maker.old }
    ensures kept_nodes { (j : ℕ) (b : List ℕ) (m : ℕ) (ns : List Node) → M.makes maker.old j b m ns → M.makes maker.new j b m ns }
    ensures same_refusals { (j : ℕ) (b : List ℕ) (r : Refusal) → M.refuses maker.new j b r → M.refuses maker.old j b r }
    ensures made { IfOk result (λ v. M.makes maker.old job bytes mode v.items) }
    ensures blame { IfErr result (MakeBlames (M.view maker.old) (M.makes maker.old) (M.refuses maker.old) job bytes mode) }
{
    match maker.make(alloc, job, bytes, mode) {
        Ok(nodes) => Ok(nodes),
        Err(e) => Err(unmade(job, e)),
    }
}

/// Reads a job's file, makes its nodes, and puts them under their temporary names.
pub(crate) fn take_job<T: Tree, M: Maker>(
    alloc: Global,
    desk: &mut Desk<T>,
    work: &str,
    maker: &mut M,
    job: u32,
) -> Result<(), JobErr>
    requires there { job < length (M.view maker.old).steps }
    requires may { MayStage (core_of desk.old.core) job (get_or (M.view maker.old).steps job 0) }
    ensures same_tree { desk.new.tree.ghost_name ≡ desk.old.tree.ghost_name }
    ensures same_view { M.view maker.new ≡ M.view maker.old }
    ensures kept_nodes { (j : ℕ) (b : List ℕ) (m : ℕ) (ns : List Node) → M.makes maker.old j b m ns → M.makes maker.new j b m ns }
    ensures same_refusals { (j : ℕ) (b : List ℕ) (r : Refusal) → M.refuses maker.new j b r → M.refuses maker.old j b r }
    ensures core { OnOk result (core_of desk.new.core ≡ with_state (core_of desk.old.core) job Staged) }
    ensures met { OnOk result (HasPlanned (M.view maker.old) (T.seen desk.old.tree.now) job) }
    ensures blame { IfErr result (JobBlames (M.view maker.old) (M.refuses maker.old) (T.seen desk.new.tree.now)) }
    ensures stands { IfErr result (JobStood (M.view maker.old) (M.refuses maker.old) (core_of desk.old.core) (T.seen desk.old.tree.now)) }
    ensures of_job { IfErr result (IsOfJob job) }
    ensures mild { (w : Wanted) → IsGiven w work.now → IsWanted w (M.view maker.old) (M.makes maker.old) → (T.seen desk.old.tree.now).tells ≡ true → Keeps w (core_of desk.old.core) (state_of (T.seen desk.old.tree.now).past) → IfErr result (λ e. IsTrue (is_mild e)) }
    ensures came { Came tree_fault (InWork work.now) 0 work.now (λ w. IsWanted w (M.view maker.old) (M.makes maker.old)) (core_of desk.old.core) (T.seen desk.old.tree.now) (core_of desk.new.core) (T.seen desk.new.tree.now) result }
{
    let (bytes, mode) = read_job(alloc, desk, work, maker, job)?;
    let nodes = make_nodes(alloc, maker, job, bytes, mode)?;
    stage_job(alloc, desk, work, job, &nodes)?;
    Ok(())
}
