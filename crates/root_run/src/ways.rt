//! How a start goes on from what it finds: a run is over, goes on, or is planned.
//!
//! This layer promises: the tree is changed by a journal alone.
//! Read first: `specs/Starts.antt`.
ghost use Rattle.std.specs.Prelude.{◌≡◌, ◌∷◌, [], ◌<◌, ◌≤◌, ◌^◌, true, false, map, length, IfErr, IfOk, IsTrue, OnOk, ⊤};
ghost use Rattle.std.specs.String.{string_bytes};
ghost use Rattle.journal_core.specs.declared.event.Phase.TheVariants.{Closed, Renewing};
ghost use Rattle.journal_core.specs.Cores.{core_of};
ghost use Rattle.journal_core.specs.Names.{fresh};
ghost use Rattle.journal_core.specs.Table.{closed_core, old_core};
ghost use Rattle.work_journal.specs.Blames.{is_mild_run};
ghost use Rattle.work_journal.specs.Clearing.{IsCleared};
ghost use Rattle.work_journal.specs.Ending.{text_file};
ghost use Rattle.work_journal.specs.Finishing.{IsStart};
ghost use Rattle.work_journal.specs.Runs.{Came};
ghost use Rattle.work_journal.specs.Spares.{InWork};
ghost use Rattle.work_journal.specs.declared.opening.Opened.TheVariants as opened;
ghost use Rattle.work_texts.specs.Lists.{bytes_of};
ghost use Rattle.root_plan.specs.Makers.{plan_view};
ghost use Rattle.root_plan.specs.Plans.{key_of};
ghost use Rattle.work_texts.specs.declared.journal_err.JournalErr.TheVariants as journal;
ghost use Rattle.root_run.specs.Wholes.{steps_of, lists_of};
ghost use Rattle.root_run.specs.Starts.{AreRunTexts, ClearEnded, ClearRan, OpenedWent, PlanWent, core_from, end_text, report_of};

use crate::run_err::RunErr;
use dw_base::NoMemory;
use file_tree::{Blob, Tree};
use job_types::Options;
use journal_core::Core;
use root_plan::{Judge, RootMaker, make_plan, run_key};
use std::alloc::{AllocError, Global};
use work_journal::{Desk, JournalErr, Maker, Opened, clear, finish, renew, shown, start_core};
use work_texts::{PlanData, write_finished, write_plan};

/// Clears the work folder of a run that is over.
pub fn clear_finished<T: Tree>(alloc: Global, tree: &mut T, work: &str) -> Result<(), JournalErr>
    ensures ran { ClearRan work.now (λ w. ⊤) 1 closed_core (T.seen tree.old) (T.seen tree.new) result }
{
    let mut desk = Desk::new(tree, Core::closed(alloc));
    let cleared = clear(alloc, &mut desk, work);
    let _tree = desk.into_tree();
    cleared
}

/// Puts the finished text of a run anew, and clears its work folder.
fn renew_at<T: Tree>(
    alloc: Global,
    desk: &mut Desk<T>,
    work: &str,
    text: &[u8],
) -> Result<(), JournalErr>
    requires phase { (core_of desk.old.core).phase ≡ Renewing false false }
    ensures same_tree { desk.new.tree.ghost_name ≡ desk.old.tree.ghost_name }
    ensures closed { OnOk result ((core_of desk.new.core).phase ≡ Closed) }
    ensures mild { IfErr result (λ e. IsTrue (is_mild_run e)) }
    ensures cleared { OnOk result (IsCleared work.now (T.seen desk.new.tree.now)) }
    ensures came { Came journal.Tree (InWork work.now) 2 work.now (λ w. w.node (fresh 3) ≡ text_file text.now) (core_of desk.old.core) (T.seen desk.old.tree.now) (core_of desk.new.core) (T.seen desk.new.tree.now) result }
{
    renew(alloc, desk, work, text)?;
    clear(alloc, desk, work)?;
    Ok(())
}

/// Does that for a run that an earlier program finished.
pub fn renew_finished<T: Tree>(
    alloc: Global,
    tree: &mut T,
    work: &str,
    text: &[u8],
) -> Result<(), JournalErr>
    ensures ran { ClearRan work.now (λ w. w.node (fresh 3) ≡ text_file text.now) 2 old_core (T.seen tree.old) (T.seen tree.new) result }
{
    let mut desk = Desk::new(tree, Core::old(alloc));
    let renewed = renew_at(alloc, &mut desk, work, text);
    let _tree = desk.into_tree();
    renewed
}

/// The answer of a run with this report whose journal ended so.
fn report_end(ended: Result<(), JournalErr>, report: Blob) -> Result<Blob, RunErr>
    ensures value { result ≡ report_of ended report }
{
    match ended {
        Ok(()) => Ok(report),
        Err(e) => Err(RunErr::Journal(e)),
    }
}

/// The texts of a plan's run.
#[derive(Drop)]
pub struct Texts {
    /// The plan.
    pub plan: Vec<u8>,
    /// The text that tells its end.
    pub finished: Vec<u8>,
    /// Its report.
    pub report: Blob,
}

/// The plan as a text, the text that tells its end, and its report.
pub fn texts_of(alloc: Global, plan: &PlanData) -> Result<Texts, NoMemory>
    ensures are { IfOk result (λ t. AreRunTexts plan.now t.plan.items t.finished.items t.report) }
{
    let text = write_plan(alloc, plan)?;
    let finished = write_finished(alloc, &plan.key, plan.report.as_slice())?;
    let report = plan.report.copied(alloc)?;
    Ok(Texts {
        plan: text,
        finished,
        report,
    })
}

/// The core of a start by a plan: of one that was just made, or of one that was there.
pub fn first_core<M: Maker>(
    alloc: Global,
    fresh: bool,
    work: &str,
    present: &[String],
    maker: &M,
) -> Result<Core, AllocError>
    ensures core { IfOk result (λ c. core_of c ≡ core_from fresh work.now (map string_bytes present.now) (M.view maker.now).steps) }
    ensures start { IfOk result (λ c. IsStart (M.view maker.now) (core_of c)) }
{
    if fresh {
        return start_core(alloc, &Opened::Empty, work, present, maker);
    }
    shown(alloc, work, present, maker)
}

/// Carries out the plan of a maker by a journal, from this core on.
fn carry_out<T: Tree, J: Judge + Drop>(
    alloc: Global,
    tree: &mut T,
    core: Core,
    work: &str,
    present: &[String],
    maker: RootMaker<J>,
    jobs: u8,
    texts: Texts,
    lists: [Vec<u8>; 3],
) -> Result<Blob, RunErr>
    requires some { 0 < jobs }
    requires most { jobs ≤ 64 }
    requires start { IsStart (plan_view (string_bytes maker.root) maker.plan.jobs) (core_of core) }
    requires texts { AreRunTexts maker.plan texts.plan.items texts.finished.items texts.report }
    requires lists { map bytes_of lists ≡ lists_of maker.plan }
    ensures went { PlanWent (string_bytes maker.root) work.now (J.view maker.judge) (J.edit_fails maker.judge) (J.split_fails maker.judge) maker.plan jobs (core_of core) (T.seen tree.old) (T.seen tree.new) result }
{
    let mut maker = maker;
    let ended = finish(
        alloc,
        tree,
        core,
        work,
        present,
        &mut maker,
        jobs,
        texts.plan,
        lists,
        &texts.finished,
    );
    report_end(ended, texts.report)
}

/// Carries out a plan, one that was just made or one that was there, by a journal.
pub(crate) fn run_plan<T: Tree, J: Judge + Drop>(
    alloc: Global,
    tree: &mut T,
    root: &str,
    work: &str,
    present: &[String],
    fresh: bool,
    plan: PlanData,
    judge: J,
    jobs: u8,
) -> Result<Blob, RunErr>
    requires some { 0 < jobs }
    requires most { jobs ≤ 64 }
    requires few { length plan.jobs < 2 ^ 32 }
    ensures went { PlanWent root.now work.now (J.view judge) (J.edit_fails judge) (J.split_fails judge) plan jobs (core_from fresh work.now (map string_bytes present.now) (steps_of plan)) (T.seen tree.old) (T.seen tree.new) result }
{
    let texts = texts_of(alloc, &plan)?;
    let maker = RootMaker::new(alloc, root, plan, judge)?;
    let lists = maker.lists(alloc)?;
    let core = first_core(alloc, fresh, work, present, &maker)?;
    carry_out(alloc, tree, core, work, present, maker, jobs, texts, lists)
}

/// Plans a root that has no plan yet, and carries that out.
pub(crate) fn new_run<T: Tree, J: Judge + Drop>(
    alloc: Global,
    tree: &mut T,
    root: &str,
    work: &str,
    present: &[String],
    options: &Options,
    judge: J,
    jobs: u8,
) -> Result<Blob, RunErr>
    requires some { 0 < jobs }
    requires most { jobs ≤ 64 }
    ensures went { OpenedWent root.now work.now options.now (J.view judge) (J.fails judge) (J.edit_fails judge) (J.split_fails judge) jobs (map string_bytes present.now) (T.seen tree.old) (T.seen tree.new) result opened.Empty }
{
    let plan = make_plan(alloc, tree, root, present, options, &judge)?;
    run_plan(alloc, tree, root, work, present, true, plan, judge, jobs)
}

/// The text that tells the end of a run of these words, with this report.
fn end_of(alloc: Global, options: &Options, report: &Blob) -> Result<Vec<u8>, NoMemory>
    ensures text { IfOk result (λ text. text.items ≡ end_text (key_of options.now) report.now) }
{
    let key = run_key(alloc, options)?;
    write_finished(alloc, &key, report.as_slice())
}

/// Ends a run that an earlier program finished, with its report: its finished text is put anew first.
fn renewed_run<T: Tree>(
    alloc: Global,
    tree: &mut T,
    work: &str,
    options: &Options,
    report: Blob,
) -> Result<Blob, RunErr>
    ensures ended { ClearEnded work.now (key_of options.now) report (T.seen tree.old) (T.seen tree.new) result true }
{
    let text = end_of(alloc, options, &report)?;
    let renewed = renew_finished(alloc, tree, work, &text);
    report_end(renewed, report)
}

/// Ends a run that is over, with its report.
pub(crate) fn finished_run<T: Tree>(
    alloc: Global,
    tree: &mut T,
    work: &str,
    options: &Options,
    report: Blob,
    old: bool,
) -> Result<Blob, RunErr>
    ensures ended { ClearEnded work.now (key_of options.now) report (T.seen tree.old) (T.seen tree.new) result old }
{
    if old {
        return renewed_run(alloc, tree, work, options, report);
    }
    let cleared = clear_finished(alloc, tree, work);
    report_end(cleared, report)
}
