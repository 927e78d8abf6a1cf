//! What the files of a build root come to, one after another.
//!
//! Read first: `specs/Tallies.antt`.
ghost use Rattle.std.specs.Prelude.{◌≡◌, ◌≢◌, ◌+◌, ◌-◌, ◌<◌, ◌^◌, ◌==◌, map, length, true, if◌then◌else◌, IfOk, OnOk};
ghost use Rattle.sha1.specs.Sha1.{sha1};
ghost use Rattle.work_texts.specs.Lists.{bytes_of};
ghost use Rattle.root_plan.specs.Counted.{count_in, AreCounted, CountsOneMore};
ghost use Rattle.root_plan.specs.Verdicts.{id_of};
ghost use Rattle.root_plan.specs.Tallies.{Tally, empty_tally, with_source, with_sources, with_job, with_left, with_skipped, with_verdict, split_job, edited_job};

use crate::refused::Skipped;
use dw_base::Refusal;
use file_tree::{Blob, Text};
use indexmap::IndexMap;
use job_types::Verdict;
use sha1::Sha1;
use std::alloc::{AllocError, Global};
use std::collections::BTreeSet;
use std::marker::Model;
use work_texts::JobLine;

/// What some files come to.
#[derive(Drop)]
pub(crate) struct Survey {
    /// A job for each file that is edited or split.
    pub(crate) jobs: Vec<JobLine>,
    /// How many of the jobs have each build-id.
    numbers: IndexMap<Vec<u8>, u32>,
    /// How many files are left as they are.
    pub(crate) left: u64,
    /// The files that are refused.
    pub(crate) skipped: Vec<Skipped>,
    /// The names of the sources of all jobs.
    pub(crate) sources: BTreeSet<Vec<u8>>,
}

impl Model for Survey {
    ghost Value = { Tally };

    ghost view = { λ s. record {
      jobs = s.jobs.items;
      left = s.left;
      skipped = s.skipped.items;
      sources = map bytes_of s.sources.keys;
    } };

    ghost invariant = { λ s. AreCounted s.numbers.entries s.jobs.items };
}

/// How many files with this build-id came so far.
fn count_of(numbers: &IndexMap<Vec<u8>, u32>, id: &[u8]) -> u32
    ensures value { result ≡ count_in numbers.now.entries id.now }
{
    numbers.get(id).copied().unwrap_or(0)
}

/// Counts one file more with this build-id.
#[tactic(auto, using(crate::proofs::CountLaws::count_rules))]
fn count_one(
    alloc: Global,
    numbers: &mut IndexMap<Vec<u8>, u32>,
    id: &[u8],
) -> Result<(), AllocError>
    requires room { count_in numbers.old.entries id.now < 2 ^ 32 - 1 }
    ensures counts { OnOk result (CountsOneMore numbers.old.entries numbers.new.entries id.now) }
{
    let count = count_of(numbers, id) + 1;
    let key = Vec::from_slice(alloc, id)?;
    numbers.insert(key, count)?;
    Ok(())
}

/// The number of the next file with this build-id, which is counted; a file without one has number 0.
#[tactic(auto, using(crate::proofs::CountLaws::count_rules))]
fn next_number(
    alloc: Global,
    numbers: &mut IndexMap<Vec<u8>, u32>,
    id: &[u8],
) -> Result<u32, AllocError>
    requires room { length id.now ≢ 0 → count_in numbers.old.entries id.now < 2 ^ 32 - 1 }
    ensures number { IfOk result (λ n. n ≡ (if length id.now == 0 then 0 else count_in numbers.old.entries id.now)) }
    ensures counts { OnOk result (CountsOneMore numbers.old.entries numbers.new.entries id.now) }
{
    if id.len() == 0 {
        return Ok(0);
    }
    let number = count_of(numbers, id);
    count_one(alloc, numbers, id)?;
    Ok(number)
}

/// Adds the name of a source.
#[tactic(auto, using(crate::proofs::SourceLaws::source_rules))]
fn add_source(sources: &mut BTreeSet<Vec<u8>>, name: Vec<u8>) -> Result<(), AllocError>
    ensures value { OnOk result (map bytes_of sources.new.keys ≡ with_source (map bytes_of sources.old.keys) name.items) }
{
    sources.insert(name)?;
    Ok(())
}

/// Adds the names of the sources of a file.
#[tactic(auto, using(crate::proofs::SourceLaws::source_rules))]
fn add_sources(sources: &mut BTreeSet<Vec<u8>>, names: Vec<Vec<u8>>) -> Result<(), AllocError>
    ensures value { OnOk result (map bytes_of sources.new.keys ≡ with_sources (map bytes_of sources.old.keys) (map bytes_of names.items)) }
{
    for name in names {
        add_source(sources, name)?;
    }
    Ok(())
}

/// The job of a file that is edited.
pub fn edited_job(alloc: Global, path: &str, bytes: &[u8]) -> Result<JobLine, AllocError>
    ensures value { IfOk result (λ job. job ≡ edited_job path.now bytes.now) }
{
    let path = Text::copy_of(alloc, path)?;
    Ok(JobLine {
        split: false,
        path,
        digest: Sha1::digest(bytes),
        id: Blob::new(Vec::new(alloc)),
        number: 0,
    })
}

/// The job of a file that is split.
fn split_job(
    alloc: Global,
    path: &str,
    bytes: &[u8],
    id: Blob,
    number: u32,
) -> Result<JobLine, AllocError>
    ensures value { IfOk result (λ job. job ≡ record { split = true; path = path.now; digest = sha1 bytes.now; id = id; number = number }) }
{
    let path = Text::copy_of(alloc, path)?;
    Ok(JobLine {
        split: true,
        path,
        digest: Sha1::digest(bytes),
        id,
        number,
    })
}

/// The build-id that links are named by, empty where there is none.
fn id_or_empty(alloc: Global, id: Option<Blob>) -> Blob
    ensures value { result ≡ id_of id }
{
    match id {
        Some(id) => id,
        None => Blob::new(Vec::new(alloc)),
    }
}

impl Survey {
    /// No files yet.
    #[tactic(auto, using(crate::proofs::CountLaws::none_counted))]
    pub(crate) fn new(alloc: Global) -> Survey
        ensures value { result ≡ empty_tally }
    {
        Survey {
            jobs: Vec::new(alloc),
            numbers: IndexMap::new(alloc),
            left: 0,
            skipped: Vec::new(alloc),
            sources: BTreeSet::new(alloc),
        }
    }

    /// With a file that is left as it is.
    fn with_left(self) -> Survey
        requires few { self.left < 2 ^ 32 }
        ensures value { result ≡ with_left self }
    {
        let Survey {
            jobs,
            numbers,
            left,
            skipped,
            sources,
        } = self;
        let left = left + 1;
        Survey {
            jobs,
            numbers,
            left,
            skipped,
            sources,
        }
    }

    /// With a file that is edited.
    #[tactic(auto, using(crate::proofs::CountLaws::job_rules))]
    fn with_edited(
        self,
        alloc: Global,
        path: &str,
        bytes: &[u8],
        names: Vec<Vec<u8>>,
    ) -> Result<Survey, AllocError>
        ensures value { IfOk result (λ s. s ≡ with_job self (edited_job path.now bytes.now) (map bytes_of names.items)) }
    {
        let Survey {
            mut jobs,
            numbers,
            left,
            skipped,
            mut sources,
        } = self;
        jobs.push(edited_job(alloc, path, bytes)?)?;
        add_sources(&mut sources, names)?;
        Ok(Survey {
            jobs,
            numbers,
            left,
            skipped,
            sources,
        })
    }

    /// With a file that is split.
    #[tactic(auto, using(crate::proofs::CountLaws::job_rules))]
    fn with_split(
        self,
        alloc: Global,
        path: &str,
        bytes: &[u8],
        id: Blob,
        names: Vec<Vec<u8>>,
    ) -> Result<Survey, AllocError>
        requires few { length self.jobs < 2 ^ 32 - 1 }
        ensures value { IfOk result (λ s. s ≡ with_job self (split_job self.jobs path.now bytes.now id) (map bytes_of names.items)) }
    {
        let Survey {
            mut jobs,
            mut numbers,
            left,
            skipped,
            mut sources,
        } = self;
        let number = next_number(alloc, &mut numbers, id.as_slice())?;
        jobs.push(split_job(alloc, path, bytes, id, number)?)?;
        add_sources(&mut sources, names)?;
        Ok(Survey {
            jobs,
            numbers,
            left,
            skipped,
            sources,
        })
    }

    /// With a file of which this is said, by its path below the root and its bytes.
    pub(crate) fn with_verdict(
        self,
        alloc: Global,
        path: &str,
        bytes: &[u8],
        verdict: Verdict,
    ) -> Result<Survey, AllocError>
        requires few { length self.jobs < 2 ^ 32 - 1 }
        requires few_left { self.left < 2 ^ 32 }
        ensures value { IfOk result (λ s. s ≡ with_verdict self path.now bytes.now verdict) }
    {
        match verdict {
            Verdict::Left(_) => Ok(self.with_left()),
            Verdict::Edited { sources } => {
                self.with_edited(alloc, path, bytes, sources.into_vec())
            }
            Verdict::Split { id, sources } => {
                let id = id_or_empty(alloc, id);
                self.with_split(alloc, path, bytes, id, sources.into_vec())
            }
        }
    }

    /// With a file that is refused, by its path below the root.
    pub(crate) fn with_skipped(
        self,
        alloc: Global,
        path: &str,
        refusal: Refusal,
    ) -> Result<Survey, AllocError>
        ensures value { IfOk result (λ s. s ≡ with_skipped self path.now refusal) }
    {
        let Survey {
            jobs,
            numbers,
            left,
            mut skipped,
            sources,
        } = self;
        let path = Text::copy_of(alloc, path)?;
        skipped.push(Skipped { path, refusal })?;
        Ok(Survey {
            jobs,
            numbers,
            left,
            skipped,
            sources,
        })
    }
}
