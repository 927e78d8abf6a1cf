//! The texts of the work folder, read field by field (this project's profile).
//!
//! Read first: `specs/Reading.antt`.
ghost use Rattle.std.specs.Prelude.{◌≡◌, ◌≤◌, ◌<◌, ◌+◌, IfOk, IsTrue, None, OnOk, length, map};
ghost use Rattle.dw_base.specs.Paths.{is_prefix, may_add, path_map, with_pair};
ghost use Rattle.work_texts.specs.Lists.{bytes_of};
ghost use Rattle.work_texts.specs.Rules.{path_of, number_limit};
ghost use Rattle.work_texts.specs.Reading.{Gives, added_at, pairs_at, maps_at, key_at, job_at, source_at, many_at, last_text, itself, plan_at, finished_at};

use crate::digits::{digest, id};
use crate::fields::{any_text, choice, word};
use crate::key::RunKey;
use crate::numbers::number;
use crate::paths::{base_behind, path, side, source};
use crate::plan::{FinishedData, JobLine, Jobs, PlanData, PlannedSources, VersionedPlan};
use crate::stop::Stop;
use dw_base::NoMemory;
use dw_paths::Maps;
use file_tree::Blob;
use std::alloc::Global;

/// The longest text, in bytes, and the longest file that a run may be told to read.
pub const TEXT_LIMIT: u64 = 1 << 30;

/// The most jobs, and the most sources.
const MOST: u64 = 0xffff_ffff;

/// The most pairs of a map behind the first.
const MOST_MORE: u64 = 63;

/// The map of a base and a destination.
fn map_of(alloc: Global, base: &[u8], dest: &[u8]) -> Result<Maps, NoMemory>
    requires base { IsTrue (is_prefix base.now) }
    requires dest { IsTrue (is_prefix dest.now) }
    ensures value { IfOk result (λ m. m ≡ path_map base.now dest.now) }
{
    match Maps::new(alloc, base, dest)? {
        Some(maps) => Ok(maps),
        None => unreachable!(),
    }
}

/// Adds a pair that may be added.
fn add_pair(alloc: Global, maps: &mut Maps, base: &[u8], dest: &[u8]) -> Result<(), NoMemory>
    requires may { IsTrue (may_add maps.old base.now dest.now) }
    ensures value { OnOk result (maps.new ≡ with_pair maps.old base.now dest.now) }
{
    if maps.add(alloc, base, dest)? {
        return Ok(());
    }
    unreachable!()
}

/// A map with the pair more that these fields say.
#[tactic(auto, using(crate::proofs::PairLoops::room_rules), unfolding(crate::specs::Reading::added_at, crate::specs::Reading::pair_at, dw_base::specs::Paths::with_pair))]
fn added(alloc: Global, maps: Maps, bytes: &[u8]) -> Result<(Maps, &[u8]), Stop>
    requires room { length maps.pairs < 64 }
    ensures value { Gives (λ r. (r.0, r.1.now)) result (added_at maps bytes.now) }
{
    let (base, rest) = base_behind(alloc, &maps, bytes)?;
    let (dest, rest) = side(alloc, rest)?;
    let mut more = maps;
    add_pair(alloc, &mut more, base.as_slice(), dest.as_slice())?;
    Ok((more, rest))
}

/// A map with so many pairs more.
fn pairs(alloc: Global, maps: Maps, count: u64, bytes: &[u8]) -> Result<(Maps, &[u8]), Stop>
    requires room { length maps.pairs + count ≤ 64 }
    ensures value { Gives (λ r. (r.0, r.1.now)) result (pairs_at count maps bytes.now) }
{
    let mut so_far = maps;
    let mut rest = bytes;
    'pairs: for _ in 0..count {
        let (next, after) = added(alloc, so_far, rest)?;
        so_far = next;
        rest = after;
    }
    Ok((so_far, rest))
}

/// A map with the pairs that a text has behind the first. An old text, which has version 1, has none.
#[tactic(auto, unfolding(crate::specs::Reading::maps_at))]
fn all_maps(alloc: Global, old: bool, first: Maps, bytes: &[u8]) -> Result<(Maps, &[u8]), Stop>
    requires one { length first.pairs ≡ 1 }
    ensures value { Gives (λ r. (r.0, r.1.now)) result (maps_at old first bytes.now) }
{
    if old {
        return Ok((first, bytes));
    }
    let (count, rest) = number(bytes, 0, MOST_MORE)?;
    pairs(alloc, first, count, rest)
}

/// The fields of a key in a text that is old, which has version 1, or isn't.
#[tactic(auto, unfolding(crate::specs::Reading::key_at, dw_base::specs::Paths::path_map))]
fn key(alloc: Global, old: bool, bytes: &[u8]) -> Result<(RunKey, &[u8]), Stop>
    ensures value { Gives (λ r. (r.0, r.1.now)) result (key_at old bytes.now) }
{
    let (base, rest) = side(alloc, bytes)?;
    let (dest, rest) = side(alloc, rest)?;
    let first = map_of(alloc, base.as_slice(), dest.as_slice())?;
    let (build_id, rest) = choice(rest, b"0", b"1")?;
    let (seed, rest) = any_text(alloc, rest)?;
    let (skip, rest) = choice(rest, b"0", b"1")?;
    let (max_file, rest) = number(rest, 1, TEXT_LIMIT)?;
    let (maps, rest) = all_maps(alloc, old, first, rest)?;
    let key = RunKey {
        maps,
        build_id,
        seed,
        skip,
        max_file,
    };
    Ok((key, rest))
}

/// The highest number of a job with this id.
fn number_limit(id: &Blob) -> u64
    ensures value { result ≡ number_limit id.now }
    ensures within { result ≤ 4294967295 }
{
    if id.len() == 0 { 0 } else { MOST }
}

/// The fields of a job behind these.
#[tactic(auto, unfolding(crate::specs::Reading::job_at))]
fn job<'a>(alloc: Global, before: &[JobLine], bytes: &'a [u8]) -> Result<(JobLine, &'a [u8]), Stop>
    ensures value { Gives (λ r. (r.0, r.1.now)) result (job_at (last_text path_of before.now) bytes.now) }
{
    let (split, rest) = choice(bytes, b"E", b"S")?;
    let (path, rest) = path(alloc, before, rest)?;
    let (digest, rest) = digest(alloc, rest)?;
    let (id, rest) = id(alloc, split, rest)?;
    let (number, rest) = number(rest, 0, number_limit(&id))?;
    let number = number as u32;
    let job = JobLine {
        split,
        path,
        digest,
        id,
        number,
    };
    Ok((job, rest))
}

/// So many jobs.
fn jobs(alloc: Global, count: u64, bytes: &[u8]) -> Result<(Vec<JobLine>, &[u8]), Stop>
    ensures value { Gives (λ r. (r.0.items, r.1.now)) result (many_at job_at path_of count None bytes.now) }
{
    let mut jobs = Vec::new(alloc);
    let mut rest = bytes;
    'jobs: for _ in 0..count {
        let (next, after) = job(alloc, &jobs, rest)?;
        jobs.push(next)?;
        rest = after;
    }
    Ok((jobs, rest))
}

/// So many names of sources.
fn sources(alloc: Global, count: u64, bytes: &[u8]) -> Result<(Vec<Vec<u8>>, &[u8]), Stop>
    ensures value { Gives (λ r. (map bytes_of r.0.items, r.1.now)) result (many_at source_at itself count None bytes.now) }
{
    let mut names = Vec::new(alloc);
    let mut rest = bytes;
    'names: for _ in 0..count {
        let (name, after) = source(alloc, &names, rest)?;
        names.push(name)?;
        rest = after;
    }
    Ok((names, rest))
}

/// The text `plan` of either version, and what follows it.
#[tactic(auto, unfolding(crate::specs::Reading::plan_at))]
pub(crate) fn plan(alloc: Global, bytes: &[u8]) -> Result<(VersionedPlan, &[u8]), Stop>
    ensures value { Gives (λ r. (r.0, r.1.now)) result (plan_at bytes.now) }
{
    let (old, rest) = choice(bytes, b"dbgplan 2", b"dbgplan 1")?;
    let (key, rest) = key(alloc, old, rest)?;
    let (report, rest) = any_text(alloc, rest)?;
    let (job_count, rest) = number(rest, 0, MOST)?;
    let (jobs, rest) = jobs(alloc, job_count, rest)?;
    let (source_count, rest) = number(rest, 0, MOST)?;
    let (sources, rest) = sources(alloc, source_count, rest)?;
    let (_, rest) = word(rest, b"end")?;
    let plan = PlanData {
        key,
        report,
        jobs: Jobs::new(jobs),
        sources: PlannedSources::new(sources),
    };
    Ok((VersionedPlan { old, plan }, rest))
}

/// The text `finished` of either version, and what follows it.
#[tactic(auto, unfolding(crate::specs::Reading::finished_at))]
pub(crate) fn finished(alloc: Global, bytes: &[u8]) -> Result<(FinishedData, &[u8]), Stop>
    ensures value { Gives (λ r. (r.0, r.1.now)) result (finished_at bytes.now) }
{
    let (old, rest) = choice(bytes, b"dbgfinished 2", b"dbgfinished 1")?;
    let (key, rest) = key(alloc, old, rest)?;
    let (report, rest) = any_text(alloc, rest)?;
    Ok((FinishedData { old, key, report }, rest))
}
