//! The core of a run: what has come so far, and which event may come next.
//!
//! It holds no tree and no bytes. Each event is tried by `step`, which answers by the table of
//! events, and changes the core exactly where the table allows the event.
//! Read first: `specs/Table.antt`.

ghost use Rattle.std.specs.Prelude.{◌≡◌, ◌<◌, IsTrue, length, IfOk, IsOkAnd};
ghost use Rattle.journal_core.specs.Fit.{are_fit};
ghost use Rattle.journal_core.specs.Span.{SpanHas};

use crate::event::{Event, JobState, Phase};
use crate::rules::{
    after_close, after_move, after_stage, allows_close, allows_finish, allows_renew,
    allows_replace, are_done, settle_jobs, settle_phase, stands_fresh, stands_going, widened,
};
use std::alloc::{AllocError, Global};

/// A run as its events have left it.
#[derive(Drop)]
pub struct Core {
    phase: Phase,
    steps: Vec<u8>,
    states: Vec<JobState>,
    // the span of the jobs that were staged since the last settle
    first: usize,
    end: usize,
    // each job has a step, and a state that goes with the number of its steps
    ghost fit: { IsTrue (are_fit steps.items states.items) },
    // all that are staged are in the span
    ghost span: { SpanHas first end states.items },
}

impl Core {
    ghost use Rattle.journal_core.specs.Cores.{core_of};
    ghost use Rattle.journal_core.specs.Fit.{AreFit};
    ghost use Rattle.journal_core.specs.Names.{EachHasStep};
    ghost use Rattle.journal_core.specs.Table.{allows, after, next_of, new_core, resumed_core, closed_core, old_core, state_of, is_fresh, is_ready, is_going};

    /// A run before its plan is put, of jobs with these numbers of steps.
    #[tactic(auto, using(crate::proofs::Fits::core_laws, crate::proofs::SpanLaws::span_laws))]
    pub fn new(alloc: Global, steps: Vec<u8>) -> Result<Core, AllocError>
        requires steps { EachHasStep steps.items }
        ensures new { IfOk result (λ c. core_of c ≡ new_core steps.items) }
    {
        let states = vec![in alloc; JobState::Fresh { staged: 0 }; steps.len()]?;
        Ok(Core {
            phase: Phase::Empty,
            steps,
            states,
            first: 0,
            end: 0,
        })
    }

    /// A run whose plan is at its name, with the states that the names in its work folder show.
    #[tactic(auto, using(crate::proofs::Fits::core_laws, crate::proofs::SpanLaws::span_laws))]
    pub fn resumed(steps: Vec<u8>, states: Vec<JobState>) -> Result<Core, AllocError>
        requires fit { AreFit steps.items states.items }
        ensures resumed { IsOkAnd result (λ c. core_of c ≡ resumed_core steps.items states.items) }
    {
        let end = states.len();
        Ok(Core {
            phase: Phase::Running,
            steps,
            states,
            first: 0,
            end,
        })
    }

    /// A run that is finished already. It takes no memory.
    #[tactic(auto, using(crate::proofs::SpanLaws::span_laws))]
    pub fn closed(alloc: Global) -> Core
        ensures closed { core_of result ≡ closed_core }
    {
        Core {
            phase: Phase::Closed,
            steps: Vec::new(alloc),
            states: Vec::new(alloc),
            first: 0,
            end: 0,
        }
    }

    /// A run that an earlier program finished. It takes no memory.
    #[tactic(auto, using(crate::proofs::SpanLaws::span_laws))]
    pub fn old(alloc: Global) -> Core
        ensures old { core_of result ≡ old_core }
    {
        Core {
            phase: Phase::Renewing {
                put: false,
                settled: false,
            },
            steps: Vec::new(alloc),
            states: Vec::new(alloc),
            first: 0,
            end: 0,
        }
    }

    /// The phase.
    pub fn phase(&self) -> Phase
        ensures phase { result ≡ (core_of self.now).phase }
    {
        self.phase
    }

    /// The state of a job.
    pub fn job(&self, job: u32) -> JobState
        requires there { job < length (core_of self.now).states }
        ensures state { result ≡ state_of (core_of self.now) job }
    {
        self.states[job as usize]
    }

    /// Tries an event: true exactly where the table allows it, and then the core is the table's
    /// next one. Else nothing changes.
    pub fn step(&mut self, event: Event) -> bool
        ensures allowed { result ≡ allows (core_of self.old) event }
        ensures next { core_of self.new ≡ next_of (core_of self.old) event }
    {
        if !self.allows(event) {
            return false;
        }
        match event {
            Event::Propose => self.phase = Phase::Proposed { settled: false },
            Event::Adopt => self.phase = Phase::Running,
            Event::Stage { job, step } => self.stage(job, step),
            Event::Settle => self.settle(),
            Event::Commit { job } => self.commit(job),
            Event::Move { job, step } => self.move_step(job, step),
            Event::Finish { part } => self.phase = Phase::Finishing {
                put: part + 1,
                settled: false,
            },
            Event::Close { part } => self.phase = after_close(part),
            Event::Clear => {}
            Event::Renew => self.phase = Phase::Renewing {
                put: true,
                settled: false,
            },
            Event::Replace => self.phase = Phase::Closed,
        }
        true
    }

    /// Whether the table allows an event now.
    fn allows(&self, event: Event) -> bool
        ensures { result ≡ allows (core_of self.now) event }
    {
        match event {
            Event::Propose => self.phase == Phase::Empty,
            Event::Adopt => self.phase == Phase::Proposed { settled: true },
            Event::Stage { job, step } => self.phase == Phase::Running
                && stands_fresh(self.state_at(job), step),
            Event::Settle => true,
            Event::Commit { job } => self.state_at(job) == JobState::Ready,
            Event::Move { job, step } => stands_going(self.state_at(job), step),
            Event::Finish { part } => allows_finish(self.phase, are_done(&self.states), part),
            Event::Close { part } => allows_close(self.phase, part),
            Event::Clear => self.phase == Phase::Closed,
            Event::Renew => allows_renew(self.phase),
            Event::Replace => allows_replace(self.phase),
        }
    }

    /// The state of a job; one that isn't there counts as done.
    fn state_at(&self, job: u32) -> JobState
        ensures { result ≡ state_of (core_of self.now) job }
    {
        self.states
            .get(job as usize)
            .copied()
            .unwrap_or(JobState::Done)
    }

    /// One more step of a job is put.
    #[tactic(auto, using(crate::proofs::Fits::core_laws, crate::proofs::SpanLaws::span_laws))]
    fn stage(&mut self, job: u32, step: u8)
        requires { IsTrue (is_fresh (state_of (core_of self.old) job) step) }
        ensures { core_of self.new ≡ after (core_of self.old) (Event.Stage job step) }
    {
        let state = after_stage(step, self.steps[job as usize]);
        let (first, end) = widened(self.first, self.end, job);
        self.first = first;
        self.end = end;
        self.states[job as usize] = state;
    }

    /// A job is committed.
    #[tactic(auto, using(crate::proofs::Fits::core_laws, crate::proofs::SpanLaws::span_laws))]
    fn commit(&mut self, job: u32)
        requires { IsTrue (is_ready (state_of (core_of self.old) job)) }
        ensures { core_of self.new ≡ after (core_of self.old) (Event.Commit job) }
    {
        self.states[job as usize] = JobState::Going { moved: 0 };
    }

    /// One more step of a job is moved to its target.
    #[tactic(auto, using(crate::proofs::Fits::core_laws, crate::proofs::SpanLaws::span_laws))]
    fn move_step(&mut self, job: u32, step: u8)
        requires { IsTrue (is_going (state_of (core_of self.old) job) step) }
        ensures { core_of self.new ≡ after (core_of self.old) (Event.Move job step) }
    {
        let state = after_move(step, self.steps[job as usize]);
        self.states[job as usize] = state;
    }

    /// All that came so far is settled.
    #[tactic(auto, using(crate::proofs::Fits::core_laws, crate::proofs::SpanLaws::span_laws))]
    fn settle(&mut self)
        ensures { core_of self.new ≡ after (core_of self.old) Event.Settle }
    {
        self.phase = settle_phase(self.phase);
        settle_jobs(&mut self.states, self.first, self.end);
        self.first = 0;
        self.end = 0;
    }
}
