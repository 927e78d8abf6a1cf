//! The events of a run, the states of a job, and the phases of the run.
//!
//! One event is one call on the tree below the work folder. Which event may come when is the table
//! in `specs/Table.antt`.

/// What a run does next. `job` counts from 0 in the order of the plan, `step` from 0 in its job.
#[derive(Clone, Copy, Debug, PartialEq, Eq)]
pub enum Event {
    /// The plan is put under its temporary name.
    Propose,
    /// The proposed plan is renamed to its name.
    Adopt,
    /// The output of one step is put under its temporary name.
    Stage { job: u32, step: u8 },
    /// All that was put or renamed so far is made to last.
    Settle,
    /// The job's commit mark is put: from here on its outputs are moved, and it isn't made again.
    Commit { job: u32 },
    /// The output of one step is renamed from its temporary name to its target.
    Move { job: u32, step: u8 },
    /// One of the four texts of the end is put under its temporary name: parts 0 to 2 are the
    /// lists, and part 3 is the finished text.
    Finish { part: u8 },
    /// One of these four is renamed to its name.
    Close { part: u8 },
    /// One path of the work folder that is not among these four is removed.
    Clear,
    /// The finished text that an earlier program wrote is put anew, under its temporary name.
    Renew,
    /// The new one takes its place.
    Replace,
}

/// How far a job has come.
#[derive(Clone, Copy, Debug, PartialEq, Eq)]
pub enum JobState {
    /// Its first `staged` steps are put.
    Fresh { staged: u8 },
    /// All its steps are put.
    Staged,
    /// All its steps are put and settled.
    Ready,
    /// It is committed, and its first `moved` steps are at their targets.
    Going { moved: u8 },
    /// All its steps are at their targets.
    Done,
}

/// How far the run as a whole has come.
#[derive(Clone, Copy, Debug, PartialEq, Eq)]
pub enum Phase {
    /// There is no plan yet.
    Empty,
    /// The plan is put, and settled or not.
    Proposed { settled: bool },
    /// The plan is adopted: jobs are staged, committed and moved.
    Running,
    /// All jobs are done, and the first `put` of the four texts of the end are put.
    Finishing { put: u8, settled: bool },
    /// The first `moved` of these four are at their names.
    Closing { moved: u8 },
    /// The finished text is at its name.
    Closed,
    /// The finished text that an earlier program wrote is at its name; a new one is put or not, and settled or not.
    Renewing { put: bool, settled: bool },
}
