//! The plan of a gather.
//!
//! Read first: `specs/Gathering.antt`, `specs/GatherEnds.antt`.
ghost use Rattle.std.specs.Prelude.{◌≡◌, ◌≤◌, ◌<◌, ◌^◌, map, length, true, false, IfOk, IfErr, IsTrue, OnOk};
ghost use Rattle.std.specs.String.{string_bytes};
ghost use Rattle.dw_base.specs.Paths.{is_prefix, path_map};
ghost use Rattle.file_tree.specs.Seen.{now_of};
ghost use Rattle.work_texts.specs.Rules.{text_limit};
ghost use Rattle.work_texts.specs.Lists.{bytes_of};
ghost use Rattle.root_paths.specs.Looks.{Looked};
ghost use Rattle.root_paths.specs.NewPaths.{CanBeMade};
ghost use Rattle.root_paths.specs.Roots.{in_root};
ghost use Rattle.src_gather.specs.Listed.{IsBytesOf, IsFileAt, IsNoFileAt, IsListText, end_path, list_path};
ghost use Rattle.src_gather.specs.Gathering.{IsGathering, IsGatherPlan, gather_key, names_of, report_text, plan_of, plan_length, copy_paths};
ghost use Rattle.src_gather.specs.GatherEnds.{CopyEnds, IsLongPlan, ListEnds, ListFound, NamingEnds, OrStopped, PlanEnds};

use crate::gather_err::GatherErr;
use crate::names::listed_names;
use crate::noting::{Gathered, copy_folder, gather_names};
use crate::path_ends::{absent, check_copies};
use dw_base::NoMemory;
use dw_paths::Maps;
use file_tree::{Blob, Found, Text, Tree};
use root_paths::{in_root, read, work_folder};
use std::alloc::{AllocError, Global};
use work_texts::{JobLine, Jobs, PlanData, PlannedSources, RunKey, TEXT_LIMIT, write_plan};

/// The map of the destination to itself.
fn dest_map(alloc: Global, dest: &str) -> Result<Maps, NoMemory>
    requires dest { IsTrue (is_prefix dest.now) }
    ensures value { IfOk result (λ m. m ≡ path_map dest.now dest.now) }
{
    match Maps::new(alloc, dest.as_bytes(), dest.as_bytes())? {
        Some(maps) => Ok(maps),
        None => unreachable!(),
    }
}

/// The key of a gather: the destination as its one pair, the folder of sources as its seed.
pub(crate) fn gather_key(alloc: Global, from: &str, dest: &str) -> Result<RunKey, NoMemory>
    requires dest { IsTrue (is_prefix dest.now) }
    ensures value { IfOk result (λ key. key ≡ gather_key from.now dest.now) }
{
    let maps = dest_map(alloc, dest)?;
    let seed = Blob::from_slice(alloc, from.as_bytes())?;
    Ok(RunKey {
        maps,
        build_id: false,
        seed,
        skip: false,
        max_file: TEXT_LIMIT,
    })
}

/// The report.
#[tactic(auto, unfolding(crate::specs::Gathering::report_text))]
fn report(alloc: Global, gathered: usize, missing: u64) -> Result<String, AllocError>
    ensures text { IfOk result (λ s. string_bytes s ≡ report_text gathered missing) }
{
    format!(in alloc; "gathered {gathered}, missing {missing}\n")
}

/// The report, as the plan keeps it.
fn kept_report(alloc: Global, gathered: usize, missing: u64) -> Result<Blob, AllocError>
    ensures text { IfOk result (λ b. b ≡ report_text gathered missing) }
{
    let text = report(alloc, gathered, missing)?;
    let kept = Blob::from_slice(alloc, text.as_str().as_bytes())?;
    Ok(kept)
}

/// Whether a file stands at the path, of whatever length.
#[tactic(auto, using(crate::proofs::Rows::file_rows))]
fn is_file<T: Tree>(tree: &mut T, path: &str) -> Result<bool, GatherErr>
    ensures there { IfOk result (λ b. b ≡ true → IsFileAt (now_of (T.seen tree.old)) path.now) }
    ensures not { IfOk result (λ b. b ≡ false → IsNoFileAt (now_of (T.seen tree.old)) path.now) }
    ensures ends { IfErr result (OrStopped (λ _. ⊥) (T.seen tree.old) (T.seen tree.new)) }
    ensures looked { Looked (T.seen tree.old) (T.seen tree.new) }
{
    match read(tree, path, 0)? {
        Found::File { .. } => Ok(true),
        Found::TooLarge { .. } => Ok(true),
        Found::Absent => Ok(false),
        Found::Folder => Ok(false),
        Found::Link { .. } => Ok(false),
    }
}

/// The bytes of the list, by what was found at its path.
#[tactic(auto, using(crate::proofs::Rows::list_rows))]
fn list_in(alloc: Global, path: &str, found: Found) -> Result<Blob, GatherErr>
    ensures bytes { IfOk result (IsBytesOf found) }
    ensures ends { IfErr result (ListFound path.now found) }
{
    match found {
        Found::File { bytes, mode: _ } => Ok(bytes),
        Found::TooLarge { size } => {
            let path = Text::copy_of(alloc, path)?;
            Err(GatherErr::FileTooLarge { path, size })
        }
        Found::Absent => Err(absent(alloc, path)),
        Found::Folder => Err(absent(alloc, path)),
        Found::Link { .. } => Err(absent(alloc, path)),
    }
}

/// The paths of the text that tells that the run over the root is done, and of its list of sources.
fn run_paths(alloc: Global, root: &str) -> Result<(String, String), AllocError>
    ensures end { IfOk result (λ r. string_bytes r.0 ≡ end_path root.now) }
    ensures list { IfOk result (λ r. string_bytes r.1 ≡ list_path root.now) }
{
    let work = work_folder(alloc, root)?;
    let end = in_root(alloc, work.as_str(), "finished")?;
    let list = in_root(alloc, work.as_str(), "sources")?;
    Ok((end, list))
}

/// The list of a run that is done.
#[tactic(auto, using(crate::proofs::ListLaws::list_rules))]
fn read_list<T: Tree>(alloc: Global, tree: &mut T, root: &str) -> Result<Blob, GatherErr>
    ensures list { IfOk result (IsListText (now_of (T.seen tree.old)) root.now) }
    ensures ends { IfErr result (OrStopped (ListEnds (now_of (T.seen tree.old)) root.now) (T.seen tree.old) (T.seen tree.new)) }
    ensures looked { Looked (T.seen tree.old) (T.seen tree.new) }
{
    let (end, list) = run_paths(alloc, root)?;
    if !is_file(tree, end.as_str())? {
        return Err(absent(alloc, end.as_str()));
    }
    let found = read(tree, list.as_str(), TEXT_LIMIT)?;
    let bytes = list_in(alloc, list.as_str(), found)?;
    Ok(bytes)
}

/// What the list of a run that is done comes to.
fn gather_list<T: Tree>(
    alloc: Global,
    tree: &mut T,
    root: &str,
    from: &str,
    dest: &str,
) -> Result<Gathered, GatherErr>
    ensures gathers { IfOk result (IsGathering (now_of (T.seen tree.old)) root.now from.now dest.now) }
    ensures ends { IfErr result (OrStopped (NamingEnds (now_of (T.seen tree.old)) root.now from.now dest.now) (T.seen tree.old) (T.seen tree.new)) }
    ensures looked { Looked (T.seen tree.old) (T.seen tree.new) }
{
    let list = read_list(alloc, tree, root)?;
    let names = listed_names(alloc, list.as_slice())?;
    let gathered = gather_names(alloc, tree, root, from, dest, &names)?;
    Ok(gathered)
}

/// Where the copies come to stand.
#[tactic(auto, using(crate::proofs::LoopLaws::path_rules))]
fn copies_of(alloc: Global, folder: &str, jobs: &[JobLine]) -> Result<Vec<String>, AllocError>
    ensures value { IfOk result (λ v. map string_bytes v.items ≡ map (λ job. in_root folder.now job.path) jobs.now) }
{
    let mut paths = Vec::new(alloc);
    for job in jobs {
        let path = in_root(alloc, folder, job.path.as_str())?;
        paths.push(path)?;
    }
    Ok(paths)
}

/// The name of a job.
fn name_of(alloc: Global, job: &JobLine) -> Result<Vec<u8>, AllocError>
    ensures value { IfOk result (λ v. v.items ≡ job.now.path) }
{
    Vec::from_slice(alloc, job.path.as_str().as_bytes())
}

/// The names of the jobs.
#[tactic(auto, using(crate::proofs::LoopLaws::name_rules))]
fn names_of(alloc: Global, jobs: &[JobLine]) -> Result<Vec<Vec<u8>>, AllocError>
    ensures value { IfOk result (λ v. map bytes_of v.items ≡ names_of jobs.now) }
{
    let mut names = Vec::new(alloc);
    for job in jobs {
        let name = name_of(alloc, job)?;
        names.push(name)?;
    }
    Ok(names)
}

/// Whether the copies of these jobs can be made where these paths stand.
fn check_new(
    alloc: Global,
    root: &str,
    dest: &str,
    present: &[String],
    jobs: &[JobLine],
) -> Result<(), GatherErr>
    ensures can { OnOk result (CanBeMade (map string_bytes present.now) (copy_paths root.now dest.now jobs.now)) }
    ensures ends { IfErr result (CopyEnds (map string_bytes present.now) (copy_paths root.now dest.now jobs.now)) }
{
    let folder = copy_folder(alloc, root, dest)?;
    let copies = copies_of(alloc, folder.as_str(), jobs)?;
    check_copies(alloc, root, present, copies)?;
    Ok(())
}

/// The plan of what was gathered.
fn plan_of(alloc: Global, from: &str, dest: &str, gathered: Gathered) -> Result<PlanData, NoMemory>
    requires dest { IsTrue (is_prefix dest.now) }
    ensures value { IfOk result (λ plan. plan ≡ plan_of from.now dest.now gathered) }
{
    let key = gather_key(alloc, from, dest)?;
    let Gathered { jobs, missing } = gathered;
    let names = names_of(alloc, &jobs)?;
    let report = kept_report(alloc, jobs.len(), missing)?;
    Ok(PlanData {
        key,
        report,
        jobs: Jobs::new(jobs),
        sources: PlannedSources::new(names),
    })
}

/// Whether the text of a plan is within its limit.
#[tactic(auto, using(crate::proofs::TextLaws::text_rules))]
fn check_text(alloc: Global, plan: &PlanData) -> Result<(), GatherErr>
    ensures within { OnOk result (plan_length plan.now ≤ text_limit) }
    ensures long { IfErr result (IsLongPlan plan.now) }
{
    let text = write_plan(alloc, plan)?;
    if text.len() as u64 > TEXT_LIMIT {
        return Err(GatherErr::PlanTooLarge);
    }
    Ok(())
}

/// The plan of a root below which these paths stand, for a run that is done: what it listed is gathered.
pub(crate) fn plan_gather<T: Tree>(
    alloc: Global,
    tree: &mut T,
    root: &str,
    from: &str,
    dest: &str,
    present: &[String],
) -> Result<PlanData, GatherErr>
    requires dest { IsTrue (is_prefix dest.now) }
    ensures plan { IfOk result (IsGatherPlan (now_of (T.seen tree.old)) root.now from.now dest.now (map string_bytes present.now)) }
    ensures few { IfOk result (λ plan. length plan.jobs < 2 ^ 32) }
    ensures ends { IfErr result (OrStopped (PlanEnds (now_of (T.seen tree.old)) root.now from.now dest.now (map string_bytes present.now)) (T.seen tree.old) (T.seen tree.new)) }
    ensures looked { Looked (T.seen tree.old) (T.seen tree.new) }
{
    let gathered = gather_list(alloc, tree, root, from, dest)?;
    check_new(alloc, root, dest, present, &gathered.jobs)?;
    let plan = plan_of(alloc, from, dest, gathered)?;
    check_text(alloc, &plan)?;
    Ok(plan)
}
