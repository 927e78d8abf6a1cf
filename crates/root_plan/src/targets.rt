//! Where the outputs of jobs come to stand.
//!
//! Read first: `specs/Targets.antt`.
ghost use Rattle.std.specs.Prelude.{◌≡◌, ◌<◌, ◌++◌, map, length, IfOk, OnOk};
ghost use Rattle.std.specs.String.{string_bytes};
ghost use Rattle.root_paths.specs.Roots.{in_root};
ghost use Rattle.root_plan.specs.Targets.{debug_path, debug_name, file_link, debug_link, link_target, has_links, links_of, new_paths_of, new_paths};

use root_paths::{base_name, in_root};
use std::alloc::{AllocError, Global};
use work_texts::JobLine;

/// The debug file of the file at a path.
#[tactic(auto, unfolding(crate::specs::Targets::debug_path))]
pub(crate) fn debug_path(alloc: Global, path: &str) -> Result<String, AllocError>
    ensures value { IfOk result (λ s. string_bytes s ≡ debug_path path.now) }
{
    format!(in alloc; "usr/lib/debug/{path}.debug")
}

/// The name of the debug file of the file at a path below the root.
#[tactic(auto, unfolding(crate::specs::Targets::debug_name))]
pub(crate) fn debug_name(alloc: Global, path: &[u8]) -> Result<Vec<u8>, AllocError>
    ensures value { IfOk result (λ name. name.items ≡ debug_name path.now) }
{
    let mut name = Vec::from_slice(alloc, base_name(path))?;
    name.extend_from_slice(b".debug")?;
    Ok(name)
}

/// What a link to a path leads to.
pub(crate) fn link_target(alloc: Global, path: &str) -> Result<String, AllocError>
    ensures value { IfOk result (λ s. string_bytes s ≡ link_target path.now) }
{
    format!(in alloc; "../../../../../{path}")
}

/// Whether links lead to the files of a job.
pub(crate) fn has_links(job: &JobLine) -> bool
    ensures value { result ≡ has_links job.now }
{
    job.split && !(job.id.len() == 0)
}

/// The link to the file of a job.
#[tactic(auto, using(crate::proofs::TargetLaws::link_rules))]
pub(crate) fn file_link(alloc: Global, job: &JobLine) -> Result<String, AllocError>
    requires some { 0 < length job.now.id }
    ensures value { IfOk result (λ s. string_bytes s ≡ file_link job.now) }
{
    let (first, rest) = job.id.as_slice().split_at(1);
    let folder = hex::encode(alloc, first)?;
    let folder = folder.as_str();
    let name = hex::encode(alloc, rest)?;
    let name = name.as_str();
    let number = job.number;
    if number == 0 {
        let link = format!(in alloc; "usr/lib/debug/.build-id/{folder}/{name}")?;
        return Ok(link);
    }
    let link = format!(in alloc; "usr/lib/debug/.build-id/{folder}/{name}.{number}")?;
    Ok(link)
}

/// The link to the debug file of a job.
#[tactic(auto, unfolding(crate::specs::Targets::debug_link))]
pub(crate) fn debug_link(alloc: Global, job: &JobLine) -> Result<String, AllocError>
    requires some { 0 < length job.now.id }
    ensures value { IfOk result (λ s. string_bytes s ≡ debug_link job.now) }
{
    let link = file_link(alloc, job)?;
    let link = link.as_str();
    format!(in alloc; "{link}.debug")
}

/// Adds the links of a job that has them.
#[tactic(auto, using(crate::proofs::TargetLaws::push_rules))]
fn push_links(
    alloc: Global,
    root: &str,
    job: &JobLine,
    paths: &mut Vec<String>,
) -> Result<(), AllocError>
    ensures value { OnOk result (map string_bytes paths.new.items ≡ map string_bytes paths.old.items ++ map (in_root root.now) (links_of job.now)) }
{
    if !has_links(job) {
        return Ok(());
    }
    let link = file_link(alloc, job)?;
    let link = in_root(alloc, root, link.as_str())?;
    paths.push(link)?;
    let link = debug_link(alloc, job)?;
    let link = in_root(alloc, root, link.as_str())?;
    paths.push(link)?;
    Ok(())
}

/// Adds the new paths that a job makes.
#[tactic(auto, using(crate::proofs::TargetLaws::push_rules))]
pub(crate) fn push_paths(
    alloc: Global,
    root: &str,
    job: &JobLine,
    paths: &mut Vec<String>,
) -> Result<(), AllocError>
    ensures value { OnOk result (map string_bytes paths.new.items ≡ map string_bytes paths.old.items ++ map (in_root root.now) (new_paths_of job.now)) }
{
    if !job.split {
        return Ok(());
    }
    let path = debug_path(alloc, job.path.as_str())?;
    let path = in_root(alloc, root, path.as_str())?;
    paths.push(path)?;
    push_links(alloc, root, job, paths)?;
    Ok(())
}

/// The new paths that these jobs make.
#[tactic(auto, using(crate::proofs::TargetLaws::path_rules))]
pub(crate) fn new_paths(
    alloc: Global,
    root: &str,
    jobs: &[JobLine],
) -> Result<Vec<String>, AllocError>
    ensures value { IfOk result (λ v. map string_bytes v.items ≡ new_paths root.now jobs.now) }
{
    let mut paths = Vec::new(alloc);
    for job in jobs {
        push_paths(alloc, root, job, &mut paths)?;
    }
    Ok(paths)
}
