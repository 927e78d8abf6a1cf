//! What a start of a run finds: the paths of its root, and what the work folder holds.
//!
//! This layer promises: the tree is settled and then only looked at.
//! Read first: `specs/Starts.antt`.
ghost use Rattle.std.specs.Prelude.{◌≡◌, map, Ok, IfOk, IfErr};
ghost use Rattle.std.specs.String.{string_bytes};
ghost use Rattle.root_plan.specs.Roots.{work_folder};
ghost use Rattle.root_run.specs.Starts.{HasOpened, EndsEarly, FolderLooked, FolderEnds};

use crate::run_err::RunErr;
use file_tree::Tree;
use job_types::Options;
use root_plan::{run_key, walk, work_folder};
use std::alloc::Global;
use work_journal::{Opened, open_work};

/// What a start finds.
#[derive(Drop)]
pub(crate) struct Start {
    /// All paths below the root.
    pub(crate) present: Vec<String>,
    /// The work folder.
    pub(crate) work: String,
    /// What it holds of a run.
    pub(crate) opened: Opened,
}

/// The work folder of a root below which these paths stand, and what it holds of a run.
fn open_folder<T: Tree>(
    alloc: Global,
    tree: &mut T,
    root: &str,
    present: &[String],
    options: &Options,
) -> Result<(String, Opened), RunErr>
    ensures work { IfOk result (λ r. string_bytes r.0 ≡ work_folder root.now) }
    ensures opened { IfOk result (λ r. FolderLooked root.now options.now (map string_bytes present.now) (T.seen tree.old) (T.seen tree.new) (Ok r.1)) }
    ensures ends { IfErr result (FolderEnds root.now options.now (map string_bytes present.now) (T.seen tree.old) (T.seen tree.new)) }
{
    let work = work_folder(alloc, root)?;
    let key = run_key(alloc, options)?;
    let opened = open_work(alloc, tree, work.as_str(), present, &key)?;
    Ok((work, opened))
}

/// Stores what an earlier start left, and looks what the root holds.
pub(crate) fn open_root<T: Tree>(
    alloc: Global,
    tree: &mut T,
    root: &str,
    options: &Options,
) -> Result<Start, RunErr>
    ensures opened { IfOk result (λ found. HasOpened root.now options.now (map string_bytes found.present.items) found.opened (T.seen tree.old) (T.seen tree.new)) }
    ensures work { IfOk result (λ found. string_bytes found.work ≡ work_folder root.now) }
    ensures early { IfErr result (EndsEarly root.now options.now (T.seen tree.old) (T.seen tree.new)) }
{
    tree.settle()?;
    let present = walk(tree, root)?;
    let (work, opened) = open_folder(alloc, tree, root, &present, options)?;
    Ok(Start {
        present,
        work,
        opened,
    })
}
