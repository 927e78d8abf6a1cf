//! What a work folder holds of a run: nothing, a plan, or that the run is finished.
//!
//! This layer promises: the tree is only looked at; a text is read exactly where it is one of this program,
//! and the run is taken up exactly where its key is the given one. Else the first bad field is named, or
//! the first field of the key that differs.
//! Read first: `specs/Opening.antt`.
ghost use Rattle.std.specs.Prelude.{◌≡◌, IfOk, IfErr, map};
ghost use Rattle.std.specs.String.{string_bytes};
ghost use Rattle.journal_core.specs.Names.{plan, final};
ghost use Rattle.work_journal.specs.Opening.{IsFileOf, IsBadFound, TextStands, TextBlames, PlanKept, FinishedKept, Opens, Looked};
ghost use Rattle.work_journal.specs.Work.{work_path, has_path};

use crate::job_err::stopped;
use crate::names::{final_path, plan_path};
use file_tree::{Blob, Found, Tree};
use std::alloc::Global;
use work_texts::{
    JournalErr, PlanData, RunKey, TEXT_LIMIT, WorkFile, check_key, read_finished, read_plan,
};

/// What a work folder holds of a run.
#[derive(Drop, Debug)]
pub enum Opened {
    /// Neither text is there.
    Empty,
    /// The plan of a run that isn't finished.
    Resumed(PlanData),
    /// The run is finished: what it prints, and whether an earlier program wrote that it is.
    Finished { report: Blob, old: bool },
}

/// The bytes of a text that was read. One that is no file, or too long, is a bad text.
fn text_in(found: Found, file: WorkFile) -> Result<Blob, JournalErr>
    ensures bytes { IfOk result (IsFileOf found) }
    ensures bad { IfErr result (IsBadFound found file) }
{
    match found {
        Found::File { bytes, mode: _ } => Ok(bytes),
        Found::TooLarge { size: _ } => Err(JournalErr::PlanText {
            file,
            at: TEXT_LIMIT,
        }),
        _ => Err(JournalErr::PlanText { file, at: 0 }),
    }
}

/// The bytes of a text.
fn work_text<T: Tree>(tree: &mut T, path: &str, file: WorkFile) -> Result<Blob, JournalErr>
    ensures stands { IfOk result (λ b. TextStands (T.seen tree.old) path.now b) }
    ensures blame { IfErr result (TextBlames (T.seen tree.old) path.now file) }
    ensures looked { Looked (T.seen tree.old) (T.seen tree.new) result }
{
    match tree.read(path, TEXT_LIMIT) {
        Ok(found) => text_in(found, file),
        Err(e) => Err(stopped(e)),
    }
}

/// The plan that is kept, if its key is this one.
fn open_plan<T: Tree>(
    alloc: Global,
    tree: &mut T,
    work: &str,
    key: &RunKey,
) -> Result<Opened, JournalErr>
    ensures kept { PlanKept (T.seen tree.old) (work_path work.now plan) key.now result }
    ensures looked { Looked (T.seen tree.old) (T.seen tree.new) result }
{
    let path = plan_path(alloc, work)?;
    let text = work_text(tree, path.as_str(), WorkFile::Plan)?;
    let plan = read_plan(alloc, text.as_slice())?;
    check_key(alloc, &plan.key, key)?;
    Ok(Opened::Resumed(plan))
}

/// The report of a run that is finished, if its key is this one.
fn open_finished<T: Tree>(
    alloc: Global,
    tree: &mut T,
    work: &str,
    key: &RunKey,
) -> Result<Opened, JournalErr>
    ensures kept { FinishedKept (T.seen tree.old) (work_path work.now (final 3)) key.now result }
    ensures looked { Looked (T.seen tree.old) (T.seen tree.new) result }
{
    let path = final_path(alloc, work, 3)?;
    let text = work_text(tree, path.as_str(), WorkFile::Finished)?;
    let done = read_finished(alloc, text.as_slice())?;
    check_key(alloc, &done.key, key)?;
    Ok(Opened::Finished {
        report: done.report,
        old: done.old,
    })
}

/// Whether the path is one of these.
pub(crate) fn is_among(paths: &[String], path: &str) -> bool
    ensures value { result ≡ has_path (map string_bytes paths.now) path.now }
{
    for i in 0..paths.len() {
        if path == paths[i].as_str() {
            return true;
        }
    }
    false
}

/// What the work folder, of which these paths are there, holds of a run with this key: `Empty` exactly
/// where neither of its two texts is among the paths; else the text `finished` counts before `plan`.
///
/// `PlanText` says where a text that is read has its first bad field, and `OtherRun` which field of its
/// key is the first that differs. `Tree` comes only where the tree's count of faults rose.
pub fn open_work<T: Tree>(
    alloc: Global,
    tree: &mut T,
    work: &str,
    present: &[String],
    key: &RunKey,
) -> Result<Opened, JournalErr>
    ensures opens { Opens work.now (map string_bytes present.now) key.now (T.seen tree.old) result }
    ensures looked { Looked (T.seen tree.old) (T.seen tree.new) result }
{
    let finished = final_path(alloc, work, 3)?;
    if is_among(present, finished.as_str()) {
        return open_finished(alloc, tree, work, key);
    }
    let plan = plan_path(alloc, work)?;
    if is_among(present, plan.as_str()) {
        return open_plan(alloc, tree, work, key);
    }
    Ok(Opened::Empty)
}
