//! What the texts `plan` and `finished` of a work folder say (this project's profile).
ghost use Rattle.std.specs.Prelude.{◌≡◌, List, ℕ, map, length};
ghost use Rattle.work_texts.specs.declared.plan.JobLine.{JobLine};
ghost use Rattle.work_texts.specs.Lists.{bytes_of};

use crate::key::RunKey;
use file_tree::{Blob, Text};
use std::marker::Model;

/// One file that the run rewrites.
#[derive(Drop, Debug)]
pub struct JobLine {
    /// Whether the file is split in two; else it is only edited.
    pub split: bool,
    /// The file, below the build root.
    pub path: Text,
    /// The SHA-1 digest of the file before the run.
    pub digest: [u8; 20],
    /// The build-id that its links are named by, empty where there are none.
    pub id: Blob,
    /// Which of the files with this build-id it is, counted from 0.
    pub number: u32,
}

/// The jobs of a plan, in their order.
#[derive(Drop, Debug)]
pub struct Jobs {
    jobs: Vec<JobLine>,
}

impl Model for Jobs {
    ghost Value = { List JobLine };

    ghost view = { λ j. j.jobs.items };
}

impl Jobs {
    /// These jobs.
    pub fn new(jobs: Vec<JobLine>) -> Jobs
        ensures value { result ≡ jobs.items }
    {
        Jobs { jobs }
    }

    /// The jobs, as a vector.
    pub fn into_vec(self) -> Vec<JobLine>
        ensures value { result.items ≡ self }
    {
        let Jobs { jobs } = self;
        jobs
    }

    /// The jobs.
    pub fn as_slice(&self) -> &[JobLine]
        ensures value { result.now ≡ self.now }
    {
        self.jobs.as_slice()
    }

    /// How many jobs there are.
    pub fn len(&self) -> usize
        ensures value { result ≡ length self.now }
    {
        self.jobs.len()
    }
}

/// The names of sources, in their order.
#[derive(Drop, Debug)]
pub struct PlannedSources {
    names: Vec<Vec<u8>>,
}

impl Model for PlannedSources {
    ghost Value = { List (List ℕ) };

    ghost view = { λ s. map bytes_of s.names.items };
}

impl PlannedSources {
    /// These names.
    pub fn new(names: Vec<Vec<u8>>) -> PlannedSources
        ensures value { result ≡ map bytes_of names.items }
    {
        PlannedSources { names }
    }

    /// The names, as a vector.
    pub fn into_vec(self) -> Vec<Vec<u8>>
        ensures value { map bytes_of result.items ≡ self }
    {
        let PlannedSources { names } = self;
        names
    }

    /// The names.
    pub fn as_slice(&self) -> &[Vec<u8>]
        ensures value { map bytes_of result.now ≡ self.now }
    {
        self.names.as_slice()
    }

    /// How many names there are.
    pub fn len(&self) -> usize
        ensures value { result ≡ length self.now }
    {
        self.names.len()
    }
}

/// What the text `plan` says.
#[derive(Drop, Debug)]
pub struct PlanData {
    /// The options of the run.
    pub key: RunKey,
    /// What the run prints in the end.
    pub report: Blob,
    /// The files that the run rewrites, in byte order of their paths.
    pub jobs: Jobs,
    /// The sources that the files name, in byte order.
    pub sources: PlannedSources,
}

/// What a text `plan` says, and in which version.
#[derive(Drop, Debug)]
pub(crate) struct VersionedPlan {
    /// Whether the text has version 1.
    pub old: bool,
    /// What it says.
    pub plan: PlanData,
}

impl VersionedPlan {
    /// What the text says.
    pub(crate) fn into_plan(self) -> PlanData
        ensures value { result ≡ self.plan }
    {
        let VersionedPlan { old: _, plan } = self;
        plan
    }
}

/// What the text `finished` says, and in which version.
#[derive(Drop, Debug)]
pub struct FinishedData {
    /// Whether the text has version 1.
    pub old: bool,
    /// The options of the run.
    pub key: RunKey,
    /// What the run prints.
    pub report: Blob,
}
