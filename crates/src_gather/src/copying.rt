//! The jobs of a gather's plan, as a maker of a journal: one copy each.
//!
//! Read first: `specs/Makers.antt`.
ghost use Rattle.std.specs.Prelude.{◌≡◌, ◌<◌, ◌^◌, length, map, IfOk, IfErr};
ghost use Rattle.std.specs.String.{string_bytes};
ghost use Rattle.work_texts.specs.Lists.{bytes_of};
ghost use Rattle.src_gather.specs.Makers.{CopyFails, IsCopied, lists_of};

use dw_base::NoMemory;
use file_tree::{Blob, Node};
use root_paths::in_root;
use root_plan::{digest_of, has_digest, job_of, source_list};
use std::alloc::{AllocError, Global};
use work_journal::{MakeErr, Maker};
use work_texts::{JobLine, PlanData};

/// The jobs of a plan of a gather.
#[derive(Drop)]
pub(crate) struct CopyMaker {
    /// The folder of the copies.
    folder: String,
    /// The folder of the sources.
    from: String,
    plan: PlanData,
    ghost few: { length plan.jobs < 2 ^ 32 },
}

/// The copy of a job's file, if it is the planned one.
#[tactic(auto, using(crate::proofs::CopyLaws::copy_rules))]
fn copy_nodes(alloc: Global, job: &JobLine, bytes: Blob) -> Result<Vec<Node>, MakeErr>
    ensures made { IfOk result (λ v. IsCopied job.now bytes v.items) }
    ensures ends { IfErr result (CopyFails job.now bytes) }
{
    if !has_digest(&bytes, &job.digest) {
        return Err(MakeErr::Changed {
            planned: job.digest,
            found: digest_of(&bytes),
        });
    }
    let mut nodes = Vec::new(alloc);
    nodes.push(Node::File { bytes, mode: 0o644 })?;
    Ok(nodes)
}

impl CopyMaker {
    /// The maker of a plan's jobs.
    pub(crate) fn new(
        alloc: Global,
        folder: String,
        from: &str,
        plan: PlanData,
    ) -> Result<CopyMaker, NoMemory>
        requires few { length plan.jobs < 2 ^ 32 }
        ensures folder { IfOk result (λ m. m.folder ≡ folder) }
        ensures from { IfOk result (λ m. string_bytes m.from ≡ from.now) }
        ensures plan { IfOk result (λ m. m.plan ≡ plan) }
    {
        let from = String::from_str(alloc, from)?;
        Ok(CopyMaker { folder, from, plan })
    }

    /// The list of sources, and two empty ones.
    pub(crate) fn lists(&self, alloc: Global) -> Result<[Vec<u8>; 3], NoMemory>
        ensures value { IfOk result (λ l. map bytes_of l ≡ lists_of self.now.plan) }
    {
        let sources = source_list(alloc, self.plan.sources.as_slice())?;
        Ok([sources, Vec::new(alloc), Vec::new(alloc)])
    }
}

#[tactic(auto, using(crate::proofs::CopyLaws::view_rules))]
impl Maker for CopyMaker {
    ghost use Rattle.std.specs.String.{string_bytes};
    ghost use Rattle.src_gather.specs.Makers.{copy_view, copy_makes};
    ghost use Rattle.src_gather.specs.Fits.{copy_fits};

    ghost view = { λ m. copy_view (string_bytes m.folder) (string_bytes m.from) m.plan.jobs };

    ghost makes = { λ m. copy_makes m.plan.jobs };

    ghost refuses = { λ m j bytes r. ⊥ };

    fn jobs(&self) -> u32 {
        self.plan.jobs.len() as u32
    }

    fn steps(&self, _job: u32) -> u8 {
        1
    }

    fn source(&self, alloc: Global, job: u32) -> Result<String, AllocError> {
        let path = job_of(&self.plan, job).path.as_str();
        in_root(alloc, self.from.as_str(), path)
    }

    fn target(&self, alloc: Global, job: u32, _step: u8) -> Result<String, AllocError> {
        let path = job_of(&self.plan, job).path.as_str();
        in_root(alloc, self.folder.as_str(), path)
    }

    fn planned(&self, job: u32) -> [u8; 20] {
        job_of(&self.plan, job).digest
    }

    fn make(
        &mut self,
        alloc: Global,
        job: u32,
        bytes: Blob,
        _mode: u32,
    ) -> Result<Vec<Node>, MakeErr> {
        let line = job_of(&self.plan, job);
        copy_nodes(alloc, line, bytes)
    }

    ghost fits = { λ m. copy_fits (string_bytes m.folder) (string_bytes m.from) m.plan.jobs };
}
