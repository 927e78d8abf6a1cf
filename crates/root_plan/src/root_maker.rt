//! The jobs of a plan, as a maker of a journal.
//!
//! Read first: `specs/Makers.antt`.
ghost use Rattle.std.specs.Prelude.{◌≡◌, ◌<◌, ◌^◌, ◌∷◌, [], map, length, IfOk};
ghost use Rattle.std.specs.String.{string_bytes};
ghost use Rattle.work_texts.specs.Lists.{bytes_of};
ghost use Rattle.root_plan.specs.Lists.{source_list, debug_file_list, link_list};
ghost use Rattle.root_plan.specs.Makers.{job_at};

use crate::judge::Judge;
use crate::lists::{debug_file_list, link_list, source_list};
use crate::nodes::{make_nodes, step_count, target};
use dw_base::NoMemory;
use file_tree::{Blob, Node};
use root_paths::in_root;
use std::alloc::{AllocError, Global};
use work_journal::{MakeErr, Maker};
use work_texts::{JobLine, PlanData};

/// The jobs of a plan of a build root.
#[derive(Drop)]
pub struct RootMaker<J> {
    root: String,
    plan: PlanData,
    judge: J,
    ghost few: { length plan.jobs < 2 ^ 32 },
}

/// The job of a number.
#[tactic(auto, using(crate::proofs::MakerLaws::view_rules))]
pub fn job_of(plan: &PlanData, job: u32) -> &JobLine
    requires there { job < length plan.now.jobs }
    ensures value { result.now ≡ job_at plan.now.jobs job }
{
    &plan.jobs.as_slice()[job as usize]
}

impl<J: Judge + Drop> RootMaker<J> {
    /// The maker of a plan's jobs.
    pub fn new(
        alloc: Global,
        root: &str,
        plan: PlanData,
        judge: J,
    ) -> Result<RootMaker<J>, NoMemory>
        requires few { length plan.jobs < 2 ^ 32 }
        ensures root { IfOk result (λ m. string_bytes m.root ≡ root.now) }
        ensures plan { IfOk result (λ m. m.plan ≡ plan) }
        ensures judge { IfOk result (λ m. m.judge ≡ judge) }
    {
        let root = String::from_str(alloc, root)?;
        Ok(RootMaker { root, plan, judge })
    }

    /// The plan.
    pub fn plan(&self) -> &PlanData
        ensures value { result.now ≡ self.now.plan }
    {
        &self.plan
    }

    /// The lists of sources, debug files and links.
    pub fn lists(&self, alloc: Global) -> Result<[Vec<u8>; 3], NoMemory>
        ensures value { IfOk result (λ l. map bytes_of l ≡ source_list self.now.plan.sources ∷ debug_file_list self.now.plan.jobs ∷ link_list self.now.plan.jobs ∷ []) }
    {
        let sources = source_list(alloc, self.plan.sources.as_slice())?;
        let debug_files = debug_file_list(alloc, self.plan.jobs.as_slice())?;
        let links = link_list(alloc, self.plan.jobs.as_slice())?;
        Ok([sources, debug_files, links])
    }
}

#[tactic(auto, using(crate::proofs::MakerLaws::view_rules))]
impl<J: Judge + Drop> Maker for RootMaker<J> {
    ghost use Rattle.std.specs.String.{string_bytes};
    ghost use Rattle.root_plan.specs.Makers.{plan_view, plan_makes, IsJobRefused, job_at};
    ghost use Rattle.root_plan.specs.Fits.{plan_fits};

    ghost view = { λ m. plan_view (string_bytes m.root) m.plan.jobs };

    ghost makes = { λ m. plan_makes m.plan.jobs (J.view m.judge) };

    ghost refuses = { λ m j bytes r. IsJobRefused (J.view m.judge) (J.edit_fails m.judge) (J.split_fails m.judge) (job_at m.plan.jobs j) bytes r };

    fn jobs(&self) -> u32 {
        self.plan.jobs.len() as u32
    }

    fn steps(&self, job: u32) -> u8 {
        step_count(job_of(&self.plan, job))
    }

    fn source(&self, alloc: Global, job: u32) -> Result<String, AllocError> {
        let path = job_of(&self.plan, job).path.as_str();
        in_root(alloc, self.root.as_str(), path)
    }

    fn target(&self, alloc: Global, job: u32, step: u8) -> Result<String, AllocError> {
        target(alloc, self.root.as_str(), job_of(&self.plan, job), step)
    }

    fn planned(&self, job: u32) -> [u8; 20] {
        job_of(&self.plan, job).digest
    }

    fn make(
        &mut self,
        alloc: Global,
        job: u32,
        bytes: Blob,
        mode: u32,
    ) -> Result<Vec<Node>, MakeErr> {
        let line = job_of(&self.plan, job);
        make_nodes(alloc, &self.judge, line, bytes, mode)
    }

    ghost fits = { λ m. plan_fits (string_bytes m.root) m.plan.jobs (J.view m.judge) (J.makes m.judge) };
}
