//! A start of a gather: what it finds, and how it goes on from there.
//!
//! This layer promises: the tree is settled, then looked at, and changed by a journal alone.
//! Read first: `specs/Starts.antt`.
ghost use Rattle.std.specs.Prelude.{◌≡◌, ◌<◌, ◌≤◌, ◌^◌, length, map, true, Ok, IfOk, IfErr, IsTrue};
ghost use Rattle.std.specs.String.{string_bytes};
ghost use Rattle.dw_base.specs.Paths.{is_prefix};
ghost use Rattle.journal_core.specs.Cores.{core_of};
ghost use Rattle.work_texts.specs.Lists.{bytes_of};
ghost use Rattle.work_journal.specs.Finishing.{IsStart};
ghost use Rattle.work_journal.specs.declared.opening.Opened.TheVariants as opened;
ghost use Rattle.root_run.specs.Starts.{AreRunTexts, FewJobs, core_from};
ghost use Rattle.src_gather.specs.Listed.{copy_folder};
ghost use Rattle.src_gather.specs.Makers.{copy_view, gather_folder, lists_of};
ghost use Rattle.src_gather.specs.Starts.{ClearEnded, CopyWent, EndsEarly, FolderEnds, FolderLooked, HasOpened, OpenedWent, StartRan, copy_steps, report_of};
ghost use Rattle.src_gather.specs.Gathering.{gather_key};

use crate::copying::CopyMaker;
use crate::gather_err::GatherErr;
use crate::noting::copy_folder;
use crate::path_ends::walk_root;
use crate::planning::{gather_key, plan_gather};
use file_tree::{Blob, Tree};
use journal_core::Core;
use root_run::{Texts, clear_finished, first_core, renew_finished, texts_of};
use std::alloc::{AllocError, Global};
use work_journal::{JournalErr, Opened, finish, open_work};
use work_texts::{PlanData, RunKey, write_finished};

/// What a start finds.
#[derive(Drop)]
struct Start {
    /// All paths below the root.
    present: Vec<String>,
    /// The work folder.
    work: String,
    /// The key of a gather of these words.
    key: RunKey,
    /// What the work folder holds of one.
    opened: Opened,
}

/// The folder of a gather's own files.
#[tactic(auto, unfolding(crate::specs::Makers::gather_folder))]
fn gather_folder(alloc: Global, root: &str) -> Result<String, AllocError>
    ensures value { IfOk result (λ s. string_bytes s ≡ gather_folder root.now) }
{
    format!(in alloc; "{root}/.dbgsrc")
}

/// The answer of a gather with this report whose journal ended so.
fn report_end(ended: Result<(), JournalErr>, report: Blob) -> Result<Blob, GatherErr>
    ensures value { result ≡ report_of ended report }
{
    match ended {
        Ok(()) => Ok(report),
        Err(e) => Err(GatherErr::from(e)),
    }
}

/// The work folder of a root below which these paths stand, the key of a gather of these words, and what the folder holds
/// of one.
fn open_folder<T: Tree>(
    alloc: Global,
    tree: &mut T,
    root: &str,
    from: &str,
    dest: &str,
    present: &[String],
) -> Result<(String, RunKey, Opened), GatherErr>
    requires dest { IsTrue (is_prefix dest.now) }
    ensures work { IfOk result (λ r. string_bytes r.0 ≡ gather_folder root.now) }
    ensures key { IfOk result (λ r. r.1 ≡ gather_key from.now dest.now) }
    ensures opened { IfOk result (λ r. FolderLooked root.now from.now dest.now (map string_bytes present.now) (T.seen tree.old) (T.seen tree.new) (Ok r.2)) }
    ensures ends { IfErr result (FolderEnds root.now from.now dest.now (map string_bytes present.now) (T.seen tree.old) (T.seen tree.new)) }
{
    let work = gather_folder(alloc, root)?;
    let key = gather_key(alloc, from, dest)?;
    let opened = open_work(alloc, tree, work.as_str(), present, &key)?;
    Ok((work, key, opened))
}

/// Stores what an earlier start left, and looks what the root holds.
fn open_root<T: Tree>(
    alloc: Global,
    tree: &mut T,
    root: &str,
    from: &str,
    dest: &str,
) -> Result<Start, GatherErr>
    requires dest { IsTrue (is_prefix dest.now) }
    ensures opened { IfOk result (λ found. HasOpened root.now from.now dest.now (map string_bytes found.present.items) found.opened (T.seen tree.old) (T.seen tree.new)) }
    ensures work { IfOk result (λ found. string_bytes found.work ≡ gather_folder root.now) }
    ensures key { IfOk result (λ found. found.key ≡ gather_key from.now dest.now) }
    ensures early { IfErr result (EndsEarly root.now from.now dest.now (T.seen tree.old) (T.seen tree.new)) }
{
    tree.settle()?;
    let present = walk_root(alloc, tree, root)?;
    let (work, key, opened) = open_folder(alloc, tree, root, from, dest, &present)?;
    Ok(Start {
        present,
        work,
        key,
        opened,
    })
}

/// Ends a gather that an earlier program finished, with its report: its finished text is put anew first.
fn renewed_gather<T: Tree>(
    alloc: Global,
    tree: &mut T,
    work: &str,
    key: &RunKey,
    report: Blob,
) -> Result<Blob, GatherErr>
    ensures ended { ClearEnded work.now key.now report (T.seen tree.old) (T.seen tree.new) result true }
{
    let text = write_finished(alloc, key, report.as_slice())?;
    let renewed = renew_finished(alloc, tree, work, &text);
    report_end(renewed, report)
}

/// Ends a gather that is over, with its report.
fn finished_gather<T: Tree>(
    alloc: Global,
    tree: &mut T,
    work: &str,
    key: &RunKey,
    report: Blob,
    old: bool,
) -> Result<Blob, GatherErr>
    ensures ended { ClearEnded work.now key.now report (T.seen tree.old) (T.seen tree.new) result old }
{
    if old {
        return renewed_gather(alloc, tree, work, key, report);
    }
    let cleared = clear_finished(alloc, tree, work);
    report_end(cleared, report)
}

/// Carries out the plan of a maker by a journal, from this core on.
fn carry_out<T: Tree>(
    alloc: Global,
    tree: &mut T,
    core: Core,
    work: &str,
    present: &[String],
    maker: CopyMaker,
    jobs: u8,
    texts: Texts,
    lists: [Vec<u8>; 3],
) -> Result<Blob, GatherErr>
    requires some { 0 < jobs }
    requires most { jobs ≤ 64 }
    requires start { IsStart (copy_view (string_bytes maker.folder) (string_bytes maker.from) maker.plan.jobs) (core_of core) }
    requires texts { AreRunTexts maker.plan texts.plan.items texts.finished.items texts.report }
    requires lists { map bytes_of lists ≡ lists_of maker.plan }
    ensures went { CopyWent (string_bytes maker.folder) (string_bytes maker.from) work.now maker.plan jobs (core_of core) (T.seen tree.old) (T.seen tree.new) result }
{
    let mut maker = maker;
    let ended = finish(
        alloc,
        tree,
        core,
        work,
        present,
        &mut maker,
        jobs,
        texts.plan,
        lists,
        &texts.finished,
    );
    report_end(ended, texts.report)
}

/// Carries out a plan, one that was just made or one that was there, by a journal.
fn run_plan<T: Tree>(
    alloc: Global,
    tree: &mut T,
    root: &str,
    from: &str,
    dest: &str,
    work: &str,
    present: &[String],
    fresh: bool,
    plan: PlanData,
    jobs: u8,
) -> Result<Blob, GatherErr>
    requires some { 0 < jobs }
    requires most { jobs ≤ 64 }
    requires few { length plan.jobs < 2 ^ 32 }
    ensures went { CopyWent (copy_folder root.now dest.now) from.now work.now plan jobs (core_from fresh work.now (map string_bytes present.now) (copy_steps plan)) (T.seen tree.old) (T.seen tree.new) result }
{
    let texts = texts_of(alloc, &plan)?;
    let folder = copy_folder(alloc, root, dest)?;
    let maker = CopyMaker::new(alloc, folder, from, plan)?;
    let lists = maker.lists(alloc)?;
    let core = first_core(alloc, fresh, work, present, &maker)?;
    carry_out(alloc, tree, core, work, present, maker, jobs, texts, lists)
}

/// Plans a root that has no plan yet, and carries that out.
fn new_gather<T: Tree>(
    alloc: Global,
    tree: &mut T,
    root: &str,
    from: &str,
    dest: &str,
    work: &str,
    present: &[String],
    jobs: u8,
) -> Result<Blob, GatherErr>
    requires some { 0 < jobs }
    requires most { jobs ≤ 64 }
    requires dest { IsTrue (is_prefix dest.now) }
    ensures went { OpenedWent root.now from.now dest.now work.now jobs (map string_bytes present.now) (T.seen tree.old) (T.seen tree.new) result opened.Empty }
{
    let plan = plan_gather(alloc, tree, root, from, dest, present)?;
    run_plan(
        alloc, tree, root, from, dest, work, present, true, plan, jobs,
    )
}

/// Goes on from what a start found.
fn go_on<T: Tree>(
    alloc: Global,
    tree: &mut T,
    root: &str,
    from: &str,
    dest: &str,
    jobs: u8,
    found: Start,
) -> Result<Blob, GatherErr>
    requires some { 0 < jobs }
    requires most { jobs ≤ 64 }
    requires dest { IsTrue (is_prefix dest.now) }
    requires few { FewJobs found.opened }
    requires key { found.key ≡ gather_key from.now dest.now }
    ensures went { OpenedWent root.now from.now dest.now (string_bytes found.work) jobs (map string_bytes found.present.items) (T.seen tree.old) (T.seen tree.new) result found.opened }
{
    let Start {
        present,
        work,
        key,
        opened,
    } = found;
    let work = work.as_str();
    match opened {
        Opened::Finished { report, old } => {
            finished_gather(alloc, tree, work, &key, report, old)
        }
        Opened::Resumed(plan) => run_plan(
            alloc, tree, root, from, dest, work, &present, false, plan, jobs,
        ),
        Opened::Empty => new_gather(alloc, tree, root, from, dest, work, &present, jobs),
    }
}

/// A start of a gather, by what it finds.
pub(crate) fn start_gather<T: Tree>(
    alloc: Global,
    tree: &mut T,
    root: &str,
    from: &str,
    dest: &str,
    jobs: u8,
) -> Result<Blob, GatherErr>
    requires some { 0 < jobs }
    requires most { jobs ≤ 64 }
    requires dest { IsTrue (is_prefix dest.now) }
    ensures ran { StartRan root.now from.now dest.now jobs (T.seen tree.old) (T.seen tree.new) result }
{
    let found = open_root(alloc, tree, root, from, dest)?;
    go_on(alloc, tree, root, from, dest, jobs, found)
}
