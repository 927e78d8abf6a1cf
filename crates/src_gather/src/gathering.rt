//! A gather, from a start to its report.
//!
//! Read first: `specs/Partways.antt`, `specs/GatherEnds.antt`.
ghost use Rattle.std.specs.FinMap as fin;
ghost use Rattle.std.specs.Prelude.{◌≡◌, ◌<◌, ◌≤◌, ℕ, List, Some, true, false, IfOk, IfErr, IsTrue};
ghost use Rattle.file_tree.specs.Causes.{Rose};
ghost use Rattle.file_tree.specs.Seen.{Seen, map_now, now_of};
ghost use Rattle.file_tree.specs.Trees.{TreeMap, is_below};
ghost use Rattle.journal_core.specs.Table.{CoreState};
ghost use Rattle.root_run.specs.Cores.{LeadsTo};
ghost use Rattle.root_run.specs.RunEnds.{IsSame};
ghost use Rattle.src_gather.specs.declared.gather_err.GatherErr.TheVariants as err;
ghost use Rattle.src_gather.specs.Asked.{IsAsked};
ghost use Rattle.src_gather.specs.Cores.{SettlesFew, ShowsCore};
ghost use Rattle.src_gather.specs.Dues.{AnswersDue};
ghost use Rattle.src_gather.specs.Errors.{is_mild};
ghost use Rattle.src_gather.specs.GatherEnds.{GatherEnds, IsExact, IsNeverRefused, is_due};
ghost use Rattle.src_gather.specs.Makers.{gather_folder};
ghost use Rattle.src_gather.specs.Partways.{IsUnderway, StaysPartway, IsDone, IsUnopposed};

use crate::gather_err::GatherErr;
use crate::starting::start_gather;
use file_tree::{Blob, Tree};
use std::alloc::Global;

/// Gathers the sources that a run over a build root listed, or goes on with a gather that was stopped: its report.
///
/// Up to so many copies, 1 to 64, are in flight between two settles. After an error the gather is started again by the same words.
pub fn gather<T: Tree>(
    alloc: Global,
    tree: &mut T,
    root: &str,
    from: &str,
    dest: &str,
    jobs: u8,
) -> Result<Blob, GatherErr>
    requires some { 0 < jobs }
    requires most { jobs ≤ 64 }
    requires asked { IsAsked root.now from.now dest.now }
    // over a gather that is underway: what a stop leaves, what is done at `Ok`, the steps that are made, how often it is stored
    ensures images { (start : TreeMap) → IsUnderway start root.now from.now dest.now (T.seen tree.old) → StaysPartway start root.now from.now dest.now (T.seen tree.old) (T.seen tree.new) }
    ensures done { (start : TreeMap) → IsUnderway start root.now from.now dest.now (T.seen tree.old) → IfOk result (λ report. IsDone start root.now from.now dest.now report (T.seen tree.new)) }
    ensures steps { (start : TreeMap) → IsUnderway start root.now from.now dest.now (T.seen tree.old) → (c : CoreState) → ShowsCore start root.now from.now dest.now (map_now (T.seen tree.old).past) c → LeadsTo (gather_folder root.now) c (T.seen tree.old).past (T.seen tree.new).past result }
    ensures settles { (start : TreeMap) → IsUnderway start root.now from.now dest.now (T.seen tree.old) → SettlesFew start root.now from.now dest.now jobs (T.seen tree.old).past (T.seen tree.new).past }
    ensures mild { (start : TreeMap) → IsUnderway start root.now from.now dest.now (T.seen tree.old) → IfErr result (λ e. IsTrue (is_mild e)) }
    // why there is no report
    ensures ends { IfErr result (GatherEnds root.now from.now dest.now (T.seen tree.old) (T.seen tree.new)) }
    ensures due { (t : TreeMap) → now_of (T.seen tree.old) ≡ Some t → AnswersDue root.now from.now dest.now t result }
    ensures exact { IsExact root.now from.now dest.now (T.seen tree.old) result }
    ensures never { IfErr result IsNeverRefused }
    ensures fault { IfErr result (λ e. e ≡ err.Tree → Rose (T.seen tree.old).faults (T.seen tree.new).faults) }
    ensures kept { IfErr result (λ e. is_due e ≡ true → IsSame (T.seen tree.old) (T.seen tree.new)) }
    ensures completes { (start : TreeMap) → IsUnderway start root.now from.now dest.now (T.seen tree.old) → IsUnopposed start root.now from.now dest.now (T.seen tree.old) → (Rose (T.seen tree.old).faults (T.seen tree.new).faults → ⊥) → IfErr result (λ e. e ≡ err.NoMemory) }
    // what stays
    ensures tells { (T.seen tree.new).tells ≡ (T.seen tree.old).tells }
    ensures later { (T.seen tree.old).faults ≤ (T.seen tree.new).faults }
    ensures below { (T.seen tree.old).tells ≡ true → (q : List ℕ) → is_below root.now q ≡ false → fin.get (map_now (T.seen tree.new).past) q ≡ fin.get (map_now (T.seen tree.old).past) q }
{
    start_gather(alloc, tree, root, from, dest, jobs)
}
