//! The three lists that a run leaves: sources, debug files and links.
//!
//! Read first: `specs/Lists.antt`.
ghost use Rattle.std.specs.Prelude.{◌≡◌, ◌<◌, ◌++◌, ◌∷◌, [], map, length, OnOk, IfOk};
ghost use Rattle.dw_base.specs.Texts.{laid_texts};
ghost use Rattle.work_texts.specs.Lists.{bytes_of};
ghost use Rattle.root_plan.specs.Targets.{file_link, debug_link, debug_path, link_target};
ghost use Rattle.root_plan.specs.Lists.{source_list, debug_names_of, debug_file_list, link_names_of, link_list};

use crate::targets::{debug_link, debug_path, file_link, has_links, link_target};
use std::alloc::{AllocError, Global};
use work_texts::JobLine;

/// Adds a name and its NUL.
fn push_name(out: &mut Vec<u8>, name: &[u8]) -> Result<(), AllocError>
    ensures value { OnOk result (out.new.items ≡ out.old.items ++ (name.now ++ 0 ∷ [])) }
{
    out.extend_from_slice(name)?;
    out.push(0)?;
    Ok(())
}

/// Adds a path below the root, behind a slash, and its NUL.
#[tactic(auto, using(crate::proofs::ListLaws::push_rules))]
fn push_path(out: &mut Vec<u8>, path: &str) -> Result<(), AllocError>
    ensures value { OnOk result (out.new.items ≡ out.old.items ++ 47 ∷ (path.now ++ 0 ∷ [])) }
{
    out.push(b'/')?;
    push_name(out, path.as_bytes())?;
    Ok(())
}

/// The list of the sources.
#[tactic(auto, using(crate::proofs::ListLaws::list_rules))]
pub fn source_list(alloc: Global, names: &[Vec<u8>]) -> Result<Vec<u8>, AllocError>
    ensures value { IfOk result (λ v. v.items ≡ source_list (map bytes_of names.now)) }
{
    let mut out = Vec::new(alloc);
    for name in names {
        push_name(&mut out, name)?;
    }
    Ok(out)
}

/// Adds the debug file of a job that has one.
#[tactic(auto, using(crate::proofs::ListLaws::push_rules))]
fn push_debug_file(alloc: Global, out: &mut Vec<u8>, job: &JobLine) -> Result<(), AllocError>
    ensures value { OnOk result (out.new.items ≡ out.old.items ++ laid_texts (debug_names_of job.now)) }
{
    if !job.split {
        return Ok(());
    }
    let path = debug_path(alloc, job.path.as_str())?;
    push_path(out, path.as_str())?;
    Ok(())
}

/// The list of the debug files.
#[tactic(auto, using(crate::proofs::ListLaws::list_rules))]
pub(crate) fn debug_file_list(alloc: Global, jobs: &[JobLine]) -> Result<Vec<u8>, AllocError>
    ensures value { IfOk result (λ v. v.items ≡ debug_file_list jobs.now) }
{
    let mut out = Vec::new(alloc);
    for job in jobs {
        push_debug_file(alloc, &mut out, job)?;
    }
    Ok(out)
}

/// Adds the link to the file of a job that has an id, and what it leads to.
fn push_file_link(alloc: Global, out: &mut Vec<u8>, job: &JobLine) -> Result<(), AllocError>
    requires some { 0 < length job.now.id }
    ensures value { OnOk result (out.new.items ≡ out.old.items ++ laid_texts ((47 ∷ file_link job.now) ∷ link_target job.now.path ∷ [])) }
{
    let link = file_link(alloc, job)?;
    push_path(out, link.as_str())?;
    let target = link_target(alloc, job.path.as_str())?;
    push_name(out, target.as_str().as_bytes())?;
    Ok(())
}

/// Adds the link to the debug file of a job that has an id, and what it leads to.
fn push_debug_link(alloc: Global, out: &mut Vec<u8>, job: &JobLine) -> Result<(), AllocError>
    requires some { 0 < length job.now.id }
    ensures value { OnOk result (out.new.items ≡ out.old.items ++ laid_texts ((47 ∷ debug_link job.now) ∷ link_target (debug_path job.now.path) ∷ [])) }
{
    let link = debug_link(alloc, job)?;
    push_path(out, link.as_str())?;
    let path = debug_path(alloc, job.path.as_str())?;
    let target = link_target(alloc, path.as_str())?;
    push_name(out, target.as_str().as_bytes())?;
    Ok(())
}

/// Adds the links of a job that has them, each with what it leads to.
#[tactic(auto, using(crate::proofs::ListLaws::push_rules))]
fn push_links(alloc: Global, out: &mut Vec<u8>, job: &JobLine) -> Result<(), AllocError>
    ensures value { OnOk result (out.new.items ≡ out.old.items ++ laid_texts (link_names_of job.now)) }
{
    if !has_links(job) {
        return Ok(());
    }
    push_file_link(alloc, out, job)?;
    push_debug_link(alloc, out, job)?;
    Ok(())
}

/// The list of the links.
#[tactic(auto, using(crate::proofs::ListLaws::list_rules))]
pub(crate) fn link_list(alloc: Global, jobs: &[JobLine]) -> Result<Vec<u8>, AllocError>
    ensures value { IfOk result (λ v. v.items ≡ link_list jobs.now) }
{
    let mut out = Vec::new(alloc);
    for job in jobs {
        push_links(alloc, &mut out, job)?;
    }
    Ok(out)
}
