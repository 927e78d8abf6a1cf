//! What a run prints in the end.
//!
//! Read first: `specs/Reports.antt`.
ghost use Rattle.std.specs.Prelude.{◌≡◌, IfOk};
ghost use Rattle.std.specs.String.{string_bytes};
ghost use Rattle.root_plan.specs.Reports.{split_count, edited_count, link_count, job_counts, other_counts, count_line, skipped_line, report_text};

use crate::refused::Skipped;
use crate::targets::has_links;
use job_types::kind_name;
use std::alloc::{AllocError, Global};
use work_texts::JobLine;

/// How many jobs are split.
fn split_count(jobs: &[JobLine]) -> usize
    ensures value { result ≡ split_count jobs.now }
{
    jobs.iter().filter(|job| job.split).count()
}

/// How many jobs are only edited.
fn edited_count(jobs: &[JobLine]) -> usize
    ensures value { result ≡ edited_count jobs.now }
{
    jobs.iter().filter(|job| !job.split).count()
}

/// How many links lead to the files of the jobs.
fn link_count(jobs: &[JobLine]) -> usize
    ensures value { result ≡ link_count jobs.now }
{
    2 * jobs.iter().filter(|job| has_links(job)).count()
}

/// The numbers of jobs.
#[tactic(auto, unfolding(crate::specs::Reports::job_counts))]
fn job_counts(alloc: Global, split: usize, edited: usize) -> Result<String, AllocError>
    ensures text { IfOk result (λ s. string_bytes s ≡ job_counts split edited) }
{
    format!(in alloc; "split {split}, edited {edited}")
}

/// The other numbers.
#[tactic(auto, unfolding(crate::specs::Reports::other_counts))]
fn other_counts(
    alloc: Global,
    left: u64,
    skipped: usize,
    links: usize,
    sources: usize,
) -> Result<String, AllocError>
    ensures text { IfOk result (λ s. string_bytes s ≡ other_counts left skipped links sources) }
{
    format!(in alloc; ", left {left}, skipped {skipped}, links {links}, sources {sources}\n")
}

/// The line of numbers.
fn count_line(
    alloc: Global,
    jobs: &[JobLine],
    left: u64,
    skipped: usize,
    sources: usize,
) -> Result<String, AllocError>
    ensures text { IfOk result (λ s. string_bytes s ≡ count_line jobs.now left skipped sources) }
{
    let mut text = job_counts(alloc, split_count(jobs), edited_count(jobs))?;
    let others = other_counts(alloc, left, skipped, link_count(jobs), sources)?;
    text.push_str(others.as_str())?;
    Ok(text)
}

/// The line of a file that is passed over.
#[tactic(auto, unfolding(crate::specs::Reports::skipped_line))]
fn skipped_line(alloc: Global, file: &Skipped) -> Result<String, AllocError>
    ensures text { IfOk result (λ s. string_bytes s ≡ skipped_line file.now) }
{
    let path = file.path.as_str();
    let kind = kind_name(file.refusal.kind);
    let section = file.refusal.section;
    let offset = file.refusal.offset;
    format!(in alloc; "skipped {path}: {kind} section {section} offset {offset}\n")
}

/// The report of these jobs, of files that are left or passed over, and of so many sources.
#[tactic(auto, using(crate::proofs::TargetLaws::report_rules), unfolding(crate::specs::Reports::report_text))]
pub(crate) fn report(
    alloc: Global,
    jobs: &[JobLine],
    left: u64,
    skipped: &[Skipped],
    sources: usize,
) -> Result<String, AllocError>
    ensures text { IfOk result (λ s. string_bytes s ≡ report_text jobs.now left skipped.now sources) }
{
    let mut text = count_line(alloc, jobs, left, skipped.len(), sources)?;
    for file in skipped {
        let line = skipped_line(alloc, file)?;
        text.push_str(line.as_str())?;
    }
    Ok(text)
}
