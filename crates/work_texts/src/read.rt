//! The texts `plan` and `finished`, read as a whole (this project's profile).
//!
//! **This layer promises**: bytes are read exactly where they are the text of a value that meets the
//! rules, and then as that value; else the place of the first bad field is told.
//! Read first: `specs/Fields.antt`, `specs/Rules.antt`, `specs/BadFields.antt`.
ghost use Rattle.std.specs.Prelude.{◌≡◌, ◌≤◌, ◌⊎◌, IfOk, IfErr, length};
ghost use Rattle.work_texts.specs.declared.plan.PlanData.{PlanData};
ghost use Rattle.work_texts.specs.declared.plan.VersionedPlan.{VersionedPlan};
ghost use Rattle.work_texts.specs.declared.plan.FinishedData.{FinishedData};
ghost use Rattle.work_texts.specs.Fields.{plan_text_fields, finished_fields};
ghost use Rattle.work_texts.specs.Rules.{IsVersionedPlan, IsFinished, IsPlanText, IsFinishedText, text_limit};
ghost use Rattle.work_texts.specs.BadFields.{PlanBlames, FinishedBlames};
ghost use Rattle.work_texts.specs.Reading.{Gives, plan_at, finished_at};
ghost use Rattle.work_texts.specs.Whole.{IsWhole, StopBlames, all_of};

use crate::journal_err::{JournalErr, WorkFile};
use crate::plan::{FinishedData, PlanData, VersionedPlan};
use crate::reading::{TEXT_LIMIT, finished, plan};
use crate::stop::Stop;
use std::alloc::Global;

/// The text `plan` of either version, with nothing behind it.
fn all_plan(alloc: Global, bytes: &[u8]) -> Result<VersionedPlan, Stop>
    ensures gives { Gives (λ x. x) result (all_of (plan_at bytes.now)) }
{
    let (plan, rest) = plan(alloc, bytes)?;
    if !rest.is_empty() {
        return Err(Stop::Field { left: rest.len() });
    }
    Ok(plan)
}

/// The text `plan`, of any length.
fn whole_plan(alloc: Global, bytes: &[u8]) -> Result<VersionedPlan, Stop>
    ensures found { IfOk result (λ text. IsWhole plan_text_fields IsVersionedPlan bytes.now text) }
    ensures only { (text : VersionedPlan) → IsWhole plan_text_fields IsVersionedPlan bytes.now text → (result ≡ Ok text) ⊎ (result ≡ Err Stop.NoMemory) }
    ensures bad { IfErr result (λ stop. StopBlames plan_text_fields IsVersionedPlan bytes.now stop) }
{
    all_plan(alloc, bytes)
}

/// The plan that the text says, which is no longer than a text may be.
fn plan_of(alloc: Global, bytes: &[u8]) -> Result<PlanData, Stop>
    requires within { length bytes.now ≤ text_limit }
    ensures found { IfOk result (λ plan. IsPlanText bytes.now plan) }
    ensures only { (plan : PlanData) → IsPlanText bytes.now plan → (result ≡ Ok plan) ⊎ (result ≡ Err Stop.NoMemory) }
    ensures bad { IfErr result (λ stop. StopBlames plan_text_fields IsVersionedPlan bytes.now stop) }
{
    let text = whole_plan(alloc, bytes)?;
    Ok(text.into_plan())
}

/// Reads the text `plan` of either version. It is read exactly where it is the text of a plan that meets the rules.
/// Else the answer is `PlanText` with the place of the first bad field, or want of memory.
pub fn read_plan(alloc: Global, bytes: &[u8]) -> Result<PlanData, JournalErr>
    ensures found { IfOk result (λ plan. IsPlanText bytes.now plan) }
    ensures only { (plan : PlanData) → IsPlanText bytes.now plan → (result ≡ Ok plan) ⊎ (result ≡ Err JournalErr.NoMemory) }
    ensures blame { IfErr result (λ e. PlanBlames bytes.now e) }
{
    let file = WorkFile::Plan;
    if bytes.len() as u64 > TEXT_LIMIT {
        let at = TEXT_LIMIT;
        return Err(JournalErr::PlanText { file, at });
    }
    match plan_of(alloc, bytes) {
        Ok(plan) => Ok(plan),
        Err(Stop::NoMemory) => Err(JournalErr::NoMemory),
        Err(Stop::Field { left }) => {
            let at = (bytes.len() - left) as u64;
            Err(JournalErr::PlanText { file, at })
        }
    }
}

/// The text `finished`, with nothing behind it.
fn all_finished(alloc: Global, bytes: &[u8]) -> Result<FinishedData, Stop>
    ensures gives { Gives (λ x. x) result (all_of (finished_at bytes.now)) }
{
    let (finished, behind) = finished(alloc, bytes)?;
    if !behind.is_empty() {
        return Err(Stop::Field { left: behind.len() });
    }
    Ok(finished)
}

/// The text `finished`, of any length.
fn whole_finished(alloc: Global, bytes: &[u8]) -> Result<FinishedData, Stop>
    ensures found { IfOk result (λ done. IsWhole finished_fields IsFinished bytes.now done) }
    ensures only { (done : FinishedData) → IsWhole finished_fields IsFinished bytes.now done → (result ≡ Ok done) ⊎ (result ≡ Err Stop.NoMemory) }
    ensures bad { IfErr result (λ stop. StopBlames finished_fields IsFinished bytes.now stop) }
{
    all_finished(alloc, bytes)
}

/// Reads the text `finished` of either version. It is read exactly where it is the text of a key and a report that meet
/// the rules. Else the answer is `PlanText` with the place of the first bad field, or want of memory.
pub fn read_finished(alloc: Global, bytes: &[u8]) -> Result<FinishedData, JournalErr>
    ensures found { IfOk result (λ done. IsFinishedText bytes.now done) }
    ensures only { (done : FinishedData) → IsFinishedText bytes.now done → (result ≡ Ok done) ⊎ (result ≡ Err JournalErr.NoMemory) }
    ensures blame { IfErr result (λ e. FinishedBlames bytes.now e) }
{
    let file = WorkFile::Finished;
    if bytes.len() as u64 > TEXT_LIMIT {
        let at = TEXT_LIMIT;
        return Err(JournalErr::PlanText { file, at });
    }
    match whole_finished(alloc, bytes) {
        Ok(done) => Ok(done),
        Err(Stop::NoMemory) => Err(JournalErr::NoMemory),
        Err(Stop::Field { left }) => {
            let at = (bytes.len() - left) as u64;
            Err(JournalErr::PlanText { file, at })
        }
    }
}
