//! All paths of a build root, one after another.
//!
//! Read first: `specs/Plans.antt`.
ghost use Rattle.std.specs.Prelude.{◌≡◌, ◌≤◌, map, IfOk, IfErr, OnOk};
ghost use Rattle.std.specs.String.{string_bytes};
ghost use Rattle.file_tree.specs.Seen.{now_of};
ghost use Rattle.root_paths.specs.Looks.{Looked};
ghost use Rattle.root_paths.specs.Roots.{count_outside, most_outside};
ghost use Rattle.root_plan.specs.Tallies.{Tallies};
ghost use Rattle.root_plan.specs.Plans.{PlanEnds, AreMany};

use crate::judge::Judge;
use crate::noting::note_path;
use crate::plan_err::PlanErr;
use crate::survey::Survey;
use file_tree::Tree;
use job_types::Options;
use root_paths::Root;
use std::alloc::Global;

/// The most paths outside the work folder.
const MOST_OUTSIDE: usize = 200_000;

/// How many of the paths lie outside the work folder.
#[tactic(auto, using(crate::proofs::SurveyLaws::outside_rules))]
fn count_outside(root: &Root, present: &[String]) -> usize
    ensures value { result ≡ count_outside root.now (map string_bytes present.now) }
{
    let count = present
        .iter()
        .filter(|path| root.is_outside(path.as_str()))
        .count();
    count
}

/// Whether few enough paths lie outside the work folder.
pub(crate) fn check_count(root: &Root, present: &[String]) -> Result<(), PlanErr>
    ensures few { OnOk result (count_outside root.now (map string_bytes present.now) ≤ most_outside) }
    ensures many { IfErr result (AreMany root.now (map string_bytes present.now)) }
{
    if count_outside(root, present) > MOST_OUTSIDE {
        return Err(PlanErr::Entries);
    }
    Ok(())
}

/// What all paths of the root come to.
#[tactic(auto, using(crate::proofs::SurveyLaws::survey_rules))]
pub(crate) fn survey_paths<T: Tree, J: Judge>(
    alloc: Global,
    tree: &mut T,
    root: &Root,
    present: &[String],
    options: &Options,
    judge: &J,
) -> Result<Survey, PlanErr>
    requires few { count_outside root.now (map string_bytes present.now) ≤ most_outside }
    ensures tallies { IfOk result (Tallies (now_of (T.seen tree.old)) root.now options.now (J.view judge.now) (J.fails judge.now) (map string_bytes present.now)) }
    ensures ends { IfErr result (PlanEnds (T.seen tree.old) (T.seen tree.new) root.now (map string_bytes present.now) options.now (J.view judge.now) (J.fails judge.now)) }
    ensures looked { Looked (T.seen tree.old) (T.seen tree.new) }
{
    let mut survey = Survey::new(alloc);
    for i in 0..present.len() {
        let path = present[i].as_str();
        survey = note_path(alloc, tree, root, path, options, judge, survey)?;
    }
    Ok(survey)
}
