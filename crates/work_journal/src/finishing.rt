//! A run from its start to its end: the plan put, its jobs done, its texts put, and its work cleared.
//!
//! This layer promises: whatever core a start begins with, at `Ok` the run is over, and for the files that
//! the maker wants all outputs and texts are there; whatever is answered, every stop leaves the run partway.
//! Read first: `specs/Finishing.antt`, `specs/Blames.antt`, `specs/Runs.antt`.
ghost use Rattle.std.specs.Prelude.{◌≡◌, ◌≢◌, ◌≤◌, ◌<◌, ◌+◌, true, false, IfErr, OnOk, IsTrue, length, map, List, ℕ, ⊤};
ghost use Rattle.dw_base.specs.declared.fault.Refusal.{Refusal};
ghost use Rattle.file_tree.specs.declared.node.Node.{Node};
ghost use Rattle.file_tree.specs.Images.{state_of};
ghost use Rattle.std.specs.String.{string_bytes};
ghost use Rattle.journal_core.specs.declared.event.Phase.TheVariants.{Empty, Closed, Renewing};
ghost use Rattle.journal_core.specs.Cores.{core_of};
ghost use Rattle.journal_core.specs.Names.{plan_new};
ghost use Rattle.work_texts.specs.Lists.{bytes_of};
ghost use Rattle.work_texts.specs.declared.journal_err.JournalErr.TheVariants.{Tree as tree_fault};
ghost use Rattle.work_journal.specs.Blames.{RunBlames, is_mild_run};
ghost use Rattle.work_journal.specs.Clearing.{AreAll, IsCleared};
ghost use Rattle.work_journal.specs.Settling.{HasPlanAlone, BeganAlone};
ghost use Rattle.work_journal.specs.Ending.{end_nodes, text_file};
ghost use Rattle.work_journal.specs.Finishing.{IsStart, IsPlanned, AreJobs, AreTold, IsRun, FinishRan};
ghost use Rattle.work_journal.specs.Keeps.{Keeps};
ghost use Rattle.work_journal.specs.Planned.{ArePlanned, AreSourcesApart};
ghost use Rattle.work_journal.specs.Rounds.{IsBegun, rounds_of};
ghost use Rattle.work_journal.specs.Spares.{InWork, IsHit};
ghost use Rattle.work_journal.specs.Runs.{Came, IsGiven};
ghost use Rattle.work_journal.specs.Wanted.{Wanted};

use crate::clearing::clear;
use crate::closing::{close_run, end_nodes};
use crate::desk::Desk;
use crate::job_err::stopped;
use crate::maker::Maker;
use crate::planning::put_node;
use crate::renewing::put_node_over;
use crate::running::run_jobs;
use crate::steps::text_node;
use file_tree::{Node, Tree};
use journal_core::{Core, Phase};
use std::alloc::Global;
use work_texts::JournalErr;

/// Does the jobs of a run whose plan is there, and then puts its four texts.
fn jobs_and_texts<T: Tree, M: Maker>(
    alloc: Global,
    desk: &mut Desk<T>,
    work: &str,
    maker: &mut M,
    in_flight: u8,
    texts: &[Node; 4],
) -> Result<(), JournalErr>
    requires some { 0 < in_flight }
    requires most { in_flight ≤ 64 }
    requires begun { IsBegun (M.view maker.old) (core_of desk.old.core) }
    ensures same_tree { desk.new.tree.ghost_name ≡ desk.old.tree.ghost_name }
    ensures same_view { M.view maker.new ≡ M.view maker.old }
    ensures kept_nodes { (j : ℕ) (b : List ℕ) (m : ℕ) (ns : List Node) → M.makes maker.old j b m ns → M.makes maker.new j b m ns }
    ensures same_refusals { (j : ℕ) (b : List ℕ) (r : Refusal) → M.refuses maker.new j b r → M.refuses maker.old j b r }
    ensures closed { OnOk result ((core_of desk.new.core).phase ≡ Closed) }
    ensures met { OnOk result (AreSourcesApart work.now (M.view maker.old) → ArePlanned (M.view maker.old) (core_of desk.old.core) (T.seen desk.old.tree.now) (length (M.view maker.old).steps)) }
    ensures blame { IfErr result (RunBlames (M.view maker.old) (M.refuses maker.old) (T.seen desk.new.tree.now)) }
    ensures stays { AreSourcesApart work.now (M.view maker.old) → IfErr result (RunBlames (M.view maker.old) (M.refuses maker.old) (T.seen desk.old.tree.now)) }
    ensures mild { (w : Wanted) → IsGiven w work.now → AreJobs w (M.view maker.old) (M.makes maker.old) texts.now → (T.seen desk.old.tree.now).tells ≡ true → Keeps w (core_of desk.old.core) (state_of (T.seen desk.old.tree.now).past) → IfErr result (λ e. IsTrue (is_mild_run e)) }
    ensures came { Came tree_fault (IsHit work.now (M.view maker.old) (λ j. ⊤)) (rounds_of (length (M.view maker.old).steps) in_flight + 1) work.now (λ w. AreJobs w (M.view maker.old) (M.makes maker.old) texts.now) (core_of desk.old.core) (T.seen desk.old.tree.now) (core_of desk.new.core) (T.seen desk.new.tree.now) result }
{
    run_jobs(alloc, desk, work, maker, in_flight)?;
    match close_run(alloc, desk, work, texts) {
        Ok(()) => Ok(()),
        Err(e) => Err(stopped(e)),
    }
}

/// Brings a run whose plan is there to its end: its jobs, as `run_jobs` says, and then its four texts, the
/// lists of sources, of debug files and of links and the finished text, put under temporary names, settled,
/// and renamed, the finished text last.
pub fn resume<T: Tree, M: Maker>(
    alloc: Global,
    desk: &mut Desk<T>,
    work: &str,
    maker: &mut M,
    in_flight: u8,
    lists: [Vec<u8>; 3],
    finished: &[u8],
) -> Result<(), JournalErr>
    requires some { 0 < in_flight }
    requires most { in_flight ≤ 64 }
    requires begun { IsBegun (M.view maker.old) (core_of desk.old.core) }
    ensures same_tree { desk.new.tree.ghost_name ≡ desk.old.tree.ghost_name }
    ensures same_view { M.view maker.new ≡ M.view maker.old }
    ensures kept_nodes { (j : ℕ) (b : List ℕ) (m : ℕ) (ns : List Node) → M.makes maker.old j b m ns → M.makes maker.new j b m ns }
    ensures same_refusals { (j : ℕ) (b : List ℕ) (r : Refusal) → M.refuses maker.new j b r → M.refuses maker.old j b r }
    ensures closed { OnOk result ((core_of desk.new.core).phase ≡ Closed) }
    ensures met { OnOk result (AreSourcesApart work.now (M.view maker.old) → ArePlanned (M.view maker.old) (core_of desk.old.core) (T.seen desk.old.tree.now) (length (M.view maker.old).steps)) }
    ensures blame { IfErr result (RunBlames (M.view maker.old) (M.refuses maker.old) (T.seen desk.new.tree.now)) }
    ensures stays { AreSourcesApart work.now (M.view maker.old) → IfErr result (RunBlames (M.view maker.old) (M.refuses maker.old) (T.seen desk.old.tree.now)) }
    ensures mild { (w : Wanted) → IsGiven w work.now → AreJobs w (M.view maker.old) (M.makes maker.old) (end_nodes (map bytes_of lists) finished.now) → (T.seen desk.old.tree.now).tells ≡ true → Keeps w (core_of desk.old.core) (state_of (T.seen desk.old.tree.now).past) → IfErr result (λ e. IsTrue (is_mild_run e)) }
    ensures came { Came tree_fault (IsHit work.now (M.view maker.old) (λ j. ⊤)) (rounds_of (length (M.view maker.old).steps) in_flight + 1) work.now (λ w. AreJobs w (M.view maker.old) (M.makes maker.old) (end_nodes (map bytes_of lists) finished.now)) (core_of desk.old.core) (T.seen desk.old.tree.now) (core_of desk.new.core) (T.seen desk.new.tree.now) result }
{
    let texts = end_nodes(alloc, lists, finished)?;
    jobs_and_texts(alloc, desk, work, maker, in_flight, &texts)
}

/// Puts the plan, if there is none yet.
#[tactic(auto, using(crate::proofs::FinishLaws::start_planned))]
fn plan_first<T: Tree, M: Maker>(
    alloc: Global,
    desk: &mut Desk<T>,
    work: &str,
    present: &[String],
    maker: &M,
    plan: Node,
) -> Result<(), JournalErr>
    requires start { IsStart (M.view maker.now) (core_of desk.old.core) }
    requires own { (core_of desk.old.core).phase ≢ Renewing false false }
    ensures same_tree { desk.new.tree.ghost_name ≡ desk.old.tree.ghost_name }
    ensures planned { OnOk result (IsPlanned (M.view maker.now) (core_of desk.new.core)) }
    ensures alone { (core_of desk.old.core).phase ≡ Empty → OnOk result (AreAll work.now (map string_bytes present.now) (T.seen desk.old.tree.now) → HasPlanAlone work.now plan (T.seen desk.new.tree.now)) }
    ensures blame { IfErr result (RunBlames (M.view maker.now) (M.refuses maker.now) (T.seen desk.new.tree.now)) }
    ensures mild { IfErr result (λ e. IsTrue (is_mild_run e)) }
    ensures came { Came tree_fault (InWork work.now) 1 work.now (λ w. w.node plan_new ≡ plan) (core_of desk.old.core) (T.seen desk.old.tree.now) (core_of desk.new.core) (T.seen desk.new.tree.now) result }
{
    let _ = maker;
    let is_new = desk.core().phase() == Phase::Empty;
    if !is_new {
        return Ok(());
    }
    put_node(alloc, desk, work, present, &plan)
}

/// Puts the plan, if there is none yet; where an earlier program wrote that the run is finished, that text is replaced.
fn told_first<T: Tree, M: Maker>(
    alloc: Global,
    desk: &mut Desk<T>,
    work: &str,
    present: &[String],
    maker: &M,
    plan: Node,
    texts: &[Node; 4],
) -> Result<(), JournalErr>
    requires start { IsStart (M.view maker.now) (core_of desk.old.core) }
    ensures same_tree { desk.new.tree.ghost_name ≡ desk.old.tree.ghost_name }
    ensures planned { OnOk result (IsPlanned (M.view maker.now) (core_of desk.new.core)) }
    ensures alone { (core_of desk.old.core).phase ≡ Empty → OnOk result (AreAll work.now (map string_bytes present.now) (T.seen desk.old.tree.now) → HasPlanAlone work.now plan (T.seen desk.new.tree.now)) }
    ensures blame { IfErr result (RunBlames (M.view maker.now) (M.refuses maker.now) (T.seen desk.new.tree.now)) }
    ensures mild { IfErr result (λ e. IsTrue (is_mild_run e)) }
    ensures came { Came tree_fault (InWork work.now) 1 work.now (λ w. AreTold w plan texts.now) (core_of desk.old.core) (T.seen desk.old.tree.now) (core_of desk.new.core) (T.seen desk.new.tree.now) result }
{
    let is_old = desk.core().phase()
        == Phase::Renewing {
            put: false,
            settled: false,
        };
    if is_old {
        return put_node_over(alloc, desk, work, &texts[3]);
    }
    plan_first(alloc, desk, work, present, maker, plan)
}

/// Does the jobs of a run that isn't over, and puts its texts.
#[tactic(auto, using(crate::proofs::FinishLaws::planned_begun))]
fn jobs_next<T: Tree, M: Maker>(
    alloc: Global,
    desk: &mut Desk<T>,
    work: &str,
    maker: &mut M,
    in_flight: u8,
    texts: &[Node; 4],
) -> Result<(), JournalErr>
    requires some { 0 < in_flight }
    requires most { in_flight ≤ 64 }
    requires planned { IsPlanned (M.view maker.old) (core_of desk.old.core) }
    ensures same_tree { desk.new.tree.ghost_name ≡ desk.old.tree.ghost_name }
    ensures same_view { M.view maker.new ≡ M.view maker.old }
    ensures kept_nodes { (j : ℕ) (b : List ℕ) (m : ℕ) (ns : List Node) → M.makes maker.old j b m ns → M.makes maker.new j b m ns }
    ensures same_refusals { (j : ℕ) (b : List ℕ) (r : Refusal) → M.refuses maker.new j b r → M.refuses maker.old j b r }
    ensures closed { OnOk result ((core_of desk.new.core).phase ≡ Closed) }
    ensures blame { IfErr result (RunBlames (M.view maker.old) (M.refuses maker.old) (T.seen desk.new.tree.now)) }
    ensures stays { AreSourcesApart work.now (M.view maker.old) → IfErr result (RunBlames (M.view maker.old) (M.refuses maker.old) (T.seen desk.old.tree.now)) }
    ensures mild { (w : Wanted) → IsGiven w work.now → AreJobs w (M.view maker.old) (M.makes maker.old) texts.now → (T.seen desk.old.tree.now).tells ≡ true → Keeps w (core_of desk.old.core) (state_of (T.seen desk.old.tree.now).past) → IfErr result (λ e. IsTrue (is_mild_run e)) }
    ensures came { Came tree_fault (IsHit work.now (M.view maker.old) (λ j. ⊤)) (rounds_of (length (M.view maker.old).steps) in_flight + 1) work.now (λ w. AreJobs w (M.view maker.old) (M.makes maker.old) texts.now) (core_of desk.old.core) (T.seen desk.old.tree.now) (core_of desk.new.core) (T.seen desk.new.tree.now) result }
{
    let is_over = desk.core().phase() == Phase::Closed;
    if is_over {
        return Ok(());
    }
    jobs_and_texts(alloc, desk, work, maker, in_flight, texts)
}

/// The whole of it, at a desk.
fn finish_at<T: Tree, M: Maker>(
    alloc: Global,
    desk: &mut Desk<T>,
    work: &str,
    present: &[String],
    maker: &mut M,
    in_flight: u8,
    plan: Node,
    texts: &[Node; 4],
) -> Result<(), JournalErr>
    requires some { 0 < in_flight }
    requires most { in_flight ≤ 64 }
    requires start { IsStart (M.view maker.old) (core_of desk.old.core) }
    ensures same_tree { desk.new.tree.ghost_name ≡ desk.old.tree.ghost_name }
    ensures same_view { M.view maker.new ≡ M.view maker.old }
    ensures kept_nodes { (j : ℕ) (b : List ℕ) (m : ℕ) (ns : List Node) → M.makes maker.old j b m ns → M.makes maker.new j b m ns }
    ensures same_refusals { (j : ℕ) (b : List ℕ) (r : Refusal) → M.refuses maker.new j b r → M.refuses maker.old j b r }
    ensures closed { OnOk result ((core_of desk.new.core).phase ≡ Closed) }
    ensures blame { IfErr result (RunBlames (M.view maker.old) (M.refuses maker.old) (T.seen desk.new.tree.now)) }
    ensures stays { AreSourcesApart work.now (M.view maker.old) → IfErr result (RunBlames (M.view maker.old) (M.refuses maker.old) (T.seen desk.old.tree.now)) }
    ensures mild { (w : Wanted) → IsGiven w work.now → IsRun w (M.view maker.old) (M.makes maker.old) plan texts.now → (T.seen desk.old.tree.now).tells ≡ true → Keeps w (core_of desk.old.core) (state_of (T.seen desk.old.tree.now).past) → IfErr result (λ e. IsTrue (is_mild_run e)) }
    ensures cleared { OnOk result (IsCleared work.now (T.seen desk.new.tree.now)) }
    ensures alone { (core_of desk.old.core).phase ≡ Empty → (T.seen desk.old.tree.now).tells ≡ true → OnOk result (AreAll work.now (map string_bytes present.now) (T.seen desk.old.tree.now) → BeganAlone work.now plan (T.seen desk.old.tree.now) (T.seen desk.new.tree.now)) }
    ensures came { Came tree_fault (IsHit work.now (M.view maker.old) (λ j. ⊤)) (rounds_of (length (M.view maker.old).steps) in_flight + 3) work.now (λ w. IsRun w (M.view maker.old) (M.makes maker.old) plan texts.now) (core_of desk.old.core) (T.seen desk.old.tree.now) (core_of desk.new.core) (T.seen desk.new.tree.now) result }
{
    told_first(alloc, desk, work, present, maker, plan, texts)?;
    jobs_next(alloc, desk, work, maker, in_flight, texts)?;
    clear(alloc, desk, work)?;
    Ok(())
}

/// The whole of it, over a tree.
fn finish_over<T: Tree, M: Maker>(
    alloc: Global,
    tree: &mut T,
    core: Core,
    work: &str,
    present: &[String],
    maker: &mut M,
    in_flight: u8,
    plan: Node,
    texts: &[Node; 4],
) -> Result<(), JournalErr>
    requires some { 0 < in_flight }
    requires most { in_flight ≤ 64 }
    requires start { IsStart (M.view maker.old) (core_of core) }
    ensures same_view { M.view maker.new ≡ M.view maker.old }
    ensures kept_nodes { (j : ℕ) (b : List ℕ) (m : ℕ) (ns : List Node) → M.makes maker.old j b m ns → M.makes maker.new j b m ns }
    ensures same_refusals { (j : ℕ) (b : List ℕ) (r : Refusal) → M.refuses maker.new j b r → M.refuses maker.old j b r }
    ensures blame { IfErr result (RunBlames (M.view maker.old) (M.refuses maker.old) (T.seen tree.new)) }
    ensures stays { AreSourcesApart work.now (M.view maker.old) → IfErr result (RunBlames (M.view maker.old) (M.refuses maker.old) (T.seen tree.old)) }
    ensures mild { (w : Wanted) → IsGiven w work.now → IsRun w (M.view maker.old) (M.makes maker.old) plan texts.now → (T.seen tree.old).tells ≡ true → Keeps w (core_of core) (state_of (T.seen tree.old).past) → IfErr result (λ e. IsTrue (is_mild_run e)) }
    ensures cleared { OnOk result (IsCleared work.now (T.seen tree.new)) }
    ensures alone { (core_of core).phase ≡ Empty → (T.seen tree.old).tells ≡ true → OnOk result (AreAll work.now (map string_bytes present.now) (T.seen tree.old) → BeganAlone work.now plan (T.seen tree.old) (T.seen tree.new)) }
    ensures ran { FinishRan (IsHit work.now (M.view maker.old) (λ j. ⊤)) (rounds_of (length (M.view maker.old).steps) in_flight + 3) work.now (λ w. IsRun w (M.view maker.old) (M.makes maker.old) plan texts.now) (core_of core) (T.seen tree.old) (T.seen tree.new) result }
{
    let mut desk = Desk::new(tree, core);
    let ended = finish_at(
        alloc, &mut desk, work, present, maker, in_flight, plan, texts,
    );
    let _tree = desk.into_tree();
    ended
}

/// Brings a run to its end from wherever a start finds it, by the core of the start: before there is a
/// plan, the work folder is cleared of the present paths and the plan's text is put; then come the jobs,
/// with up to so many in flight, 1 to 64, and then the lists of sources, of debug files and of links and the
/// finished text; at last the work folder is cleared of all else.
///
/// Where an earlier program wrote that the run is finished, that text is replaced first.
///
/// A run that is finished needs no maker: it goes by a desk over `Core::closed`, and `clear`; one that an earlier program
/// finished by a desk over `Core::old`, `renew`, and `clear`.
///
/// `Changed` and `Refused` name the job's file, which isn't the planned one, or of which this is refused;
/// `Tree` comes only where the tree's count of faults rose. After an error the run is started again.
pub fn finish<T: Tree, M: Maker>(
    alloc: Global,
    tree: &mut T,
    core: Core,
    work: &str,
    present: &[String],
    maker: &mut M,
    in_flight: u8,
    plan: Vec<u8>,
    lists: [Vec<u8>; 3],
    finished: &[u8],
) -> Result<(), JournalErr>
    requires some { 0 < in_flight }
    requires most { in_flight ≤ 64 }
    requires start { IsStart (M.view maker.old) (core_of core) }
    ensures same_view { M.view maker.new ≡ M.view maker.old }
    ensures kept_nodes { (j : ℕ) (b : List ℕ) (m : ℕ) (ns : List Node) → M.makes maker.old j b m ns → M.makes maker.new j b m ns }
    ensures same_refusals { (j : ℕ) (b : List ℕ) (r : Refusal) → M.refuses maker.new j b r → M.refuses maker.old j b r }
    ensures blame { IfErr result (RunBlames (M.view maker.old) (M.refuses maker.old) (T.seen tree.new)) }
    ensures stays { AreSourcesApart work.now (M.view maker.old) → IfErr result (RunBlames (M.view maker.old) (M.refuses maker.old) (T.seen tree.old)) }
    ensures mild { (w : Wanted) → IsGiven w work.now → IsRun w (M.view maker.old) (M.makes maker.old) (text_file plan.items) (end_nodes (map bytes_of lists) finished.now) → (T.seen tree.old).tells ≡ true → Keeps w (core_of core) (state_of (T.seen tree.old).past) → IfErr result (λ e. IsTrue (is_mild_run e)) }
    ensures cleared { OnOk result (IsCleared work.now (T.seen tree.new)) }
    ensures alone { (core_of core).phase ≡ Empty → (T.seen tree.old).tells ≡ true → OnOk result (AreAll work.now (map string_bytes present.now) (T.seen tree.old) → BeganAlone work.now (text_file plan.items) (T.seen tree.old) (T.seen tree.new)) }
    ensures ran { FinishRan (IsHit work.now (M.view maker.old) (λ j. ⊤)) (rounds_of (length (M.view maker.old).steps) in_flight + 3) work.now (λ w. IsRun w (M.view maker.old) (M.makes maker.old) (text_file plan.items) (end_nodes (map bytes_of lists) finished.now)) (core_of core) (T.seen tree.old) (T.seen tree.new) result }
{
    let plan = text_node(plan);
    let texts = end_nodes(alloc, lists, finished)?;
    finish_over(
        alloc, tree, core, work, present, maker, in_flight, plan, &texts,
    )
}
