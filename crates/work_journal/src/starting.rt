//! The core that a start begins with: what the names in its work folder show.
//!
//! This layer promises: a job is as at first where its commit mark isn't there, done where it is and no
//! temporary name of its steps, and else moved up to the first that is there.
//! Read first: `specs/Begun.antt`, and `specs/Work.antt` for the paths.
ghost use Rattle.std.specs.Prelude.{◌≡◌, IfOk, List, ℕ, false, if◌then◌else◌, length, map};
ghost use Rattle.std.specs.String.{string_bytes};
ghost use Rattle.std.specs.Str.{bytes_eq};
ghost use Rattle.std.specs.List.{list_any};
ghost use Rattle.journal_core.specs.Cores.{core_of};
ghost use Rattle.journal_core.specs.Starts.{shown_states};
ghost use Rattle.journal_core.specs.Table.{new_core, resumed_core, closed_core, old_core};
ghost use Rattle.work_journal.specs.Finishing.{IsStart};
ghost use Rattle.work_journal.specs.Beginning.{core_by};
ghost use Rattle.work_journal.specs.Begun.{state_by, AreShown};
ghost use Rattle.work_journal.specs.Rounds.{IsBegun};
ghost use Rattle.work_journal.specs.Work.{has_path, presence};

use crate::maker::Maker;
use crate::names::{commit_path, temp_path};
use crate::opening::Opened;
use journal_core::{Core, JobState};
use std::alloc::{AllocError, Global};
use std::collections::HashSet;

/// The paths, each found by its text at once.
#[derive(Drop)]
struct PathSet<'a> {
    paths: HashSet<&'a str>,
}

impl<'a> PathSet<'a> {
    /// The set of these paths.
    fn new(alloc: Global, paths: &'a [String]) -> Result<PathSet<'a>, AllocError>
        ensures has { IfOk result (λ s. (q : List ℕ) → list_any (λ k. bytes_eq q k.now) s.paths.keys ≡ has_path (map string_bytes paths.now) q) }
    {
        let mut set = HashSet::new(alloc);
        for i in 0..paths.len() {
            set.insert(paths[i].as_str())?;
        }
        Ok(PathSet { paths: set })
    }

    /// Whether the path is among them.
    fn has(&self, path: &str) -> bool
        ensures value { result ≡ list_any (λ k. bytes_eq path.now k.now) self.now.paths.keys }
    {
        self.paths.contains(path)
    }
}

/// The state that a job of so many steps shows.
fn shown_job(
    alloc: Global,
    work: &str,
    paths: &PathSet,
    job: u32,
    steps: u8,
) -> Result<JobState, AllocError>
    ensures state { (present : List (List ℕ)) → ((q : List ℕ) → list_any (λ k. bytes_eq q k.now) paths.now.paths.keys ≡ has_path present q) → IfOk result (λ s. s ≡ state_by work.now present job steps) }
{
    let mark = commit_path(alloc, work, job)?;
    if !paths.has(mark.as_str()) {
        return Ok(JobState::Fresh { staged: 0 });
    }
    for step in 0..steps {
        let temp = temp_path(alloc, work, job, step)?;
        if paths.has(temp.as_str()) {
            return Ok(JobState::Going { moved: step });
        }
    }
    Ok(JobState::Done)
}

/// The numbers of steps of all jobs, and the states that they show.
fn shown_jobs<M: Maker>(
    alloc: Global,
    work: &str,
    present: &[String],
    maker: &M,
) -> Result<(Vec<u8>, Vec<JobState>), AllocError>
    ensures shown { IfOk result (λ p. AreShown work.now (map string_bytes present.now) (M.view maker.now).steps p.0.items p.1.items (length (M.view maker.now).steps)) }
{
    let paths = PathSet::new(alloc, present)?;
    let mut steps = Vec::new(alloc);
    let mut states = Vec::new(alloc);
    for job in 0..maker.jobs() {
        let count = maker.steps(job);
        let state = shown_job(alloc, work, &paths, job, count)?;
        steps.push(count)?;
        states.push(state)?;
    }
    Ok((steps, states))
}

/// The core of a run whose plan is there, as these paths show it: a job without its commit mark is as at
/// first, one with it and no temporary name is done, and another is moved up to its least temporary name.
pub fn shown<M: Maker>(
    alloc: Global,
    work: &str,
    present: &[String],
    maker: &M,
) -> Result<Core, AllocError>
    ensures core { IfOk result (λ c. core_of c ≡ resumed_core (M.view maker.now).steps (shown_states (M.view maker.now).steps (presence false work.now (map string_bytes present.now)))) }
    ensures begun { IfOk result (λ c. IsBegun (M.view maker.now) (core_of c)) }
{
    let (steps, states) = shown_jobs(alloc, work, present, maker)?;
    Core::resumed(steps, states)
}

/// The numbers of steps of all jobs.
fn steps_of<M: Maker>(alloc: Global, maker: &M) -> Result<Vec<u8>, AllocError>
    ensures steps { IfOk result (λ v. v.items ≡ (M.view maker.now).steps) }
{
    let mut steps = Vec::new(alloc);
    for job in 0..maker.jobs() {
        steps.push(maker.steps(job))?;
    }
    Ok(steps)
}

/// The core of a run before there is a plan.
fn new_run<M: Maker>(alloc: Global, maker: &M) -> Result<Core, AllocError>
    ensures core { IfOk result (λ c. core_of c ≡ new_core (M.view maker.now).steps) }
{
    let steps = steps_of(alloc, maker)?;
    Core::new(alloc, steps)
}

/// The core of a run that is finished; where an earlier program wrote so its text is put anew first.
fn ended_core(alloc: Global, old: bool) -> Core
    ensures core { core_of result ≡ (if old then old_core else closed_core) }
{
    if old {
        return Core::old(alloc);
    }
    Core::closed(alloc)
}

/// The core that a start begins with: of a work folder that holds neither text, of one with a plan as
/// `shown` says, or of a run that is finished.
#[tactic(auto, using(crate::proofs::FinishLaws::ended_start))]
pub fn start_core<M: Maker>(
    alloc: Global,
    opened: &Opened,
    work: &str,
    present: &[String],
    maker: &M,
) -> Result<Core, AllocError>
    ensures core { IfOk result (λ c. core_of c ≡ core_by opened.now work.now (map string_bytes present.now) (M.view maker.now).steps) }
    ensures start { IfOk result (λ c. IsStart (M.view maker.now) (core_of c)) }
{
    match opened {
        Opened::Empty => new_run(alloc, maker),
        Opened::Resumed(_) => shown(alloc, work, present, maker),
        Opened::Finished { report: _, old } => Ok(ended_core(alloc, *old)),
    }
}
