//! Laws of the definitions: a text has one value, or one first bad field; and `finished` is no longer than its plan.
ghost use Rattle.std.specs.Prelude.{◌≡◌, ◌≤◌, ℕ, List, false, true, length};
ghost use Rattle.work_texts.specs.declared.plan.PlanData.{PlanData};
ghost use Rattle.work_texts.specs.declared.plan.FinishedData.{FinishedData};
ghost use Rattle.work_texts.specs.Fields.{plan_fields, plan_text_fields, finished_fields, text_of};
ghost use Rattle.work_texts.specs.Rules.{IsPlan, IsVersionedPlan, IsFinished, IsPlanText, IsFinishedText, text_limit};
ghost use Rattle.work_texts.specs.BadFields.{IsBadAt};

/// Of the texts `plan`: where the first bad field stands is fixed by the bytes, and bytes that have
/// one are no plan's text.
pub fn plan_places()
    ensures one { (bytes : List ℕ) (at other : ℕ) → IsBadAt plan_text_fields IsVersionedPlan bytes at → IsBadAt plan_text_fields IsVersionedPlan bytes other → at ≡ other }
    ensures no_text { (bytes : List ℕ) (at : ℕ) (plan : PlanData) → IsBadAt plan_text_fields IsVersionedPlan bytes at → IsPlanText bytes plan → ⊥ }
{}

/// The same of the texts `finished`.
pub fn finished_places()
    ensures one { (bytes : List ℕ) (at other : ℕ) → IsBadAt finished_fields IsFinished bytes at → IsBadAt finished_fields IsFinished bytes other → at ≡ other }
    ensures no_text { (bytes : List ℕ) (at : ℕ) (done : FinishedData) → IsBadAt finished_fields IsFinished bytes at → IsFinishedText bytes done → ⊥ }
{}

/// A plan that meets the rules has the text that is written, and where its map has one pair that of version 1.
pub fn plan_texts()
    ensures written { (plan : PlanData) → IsPlan plan → length (text_of (plan_fields plan)) ≤ text_limit → IsPlanText (text_of (plan_fields plan)) plan }
    ensures earlier { (plan : PlanData) → IsPlan plan → length plan.key.maps.pairs ≡ 1 → length (text_of (plan_text_fields (record { old = true; plan = plan }))) ≤ text_limit → IsPlanText (text_of (plan_text_fields (record { old = true; plan = plan }))) plan }
{}

/// A text `plan` has one value.
pub fn plan_values()
    ensures one { (bytes : List ℕ) (plan other : PlanData) → IsPlanText bytes plan → IsPlanText bytes other → plan ≡ other }
{}

/// A text `finished` has one value.
pub fn finished_values()
    ensures one { (bytes : List ℕ) (done other : FinishedData) → IsFinishedText bytes done → IsFinishedText bytes other → done ≡ other }
{}

/// The text `finished` with the key and the report of a plan is no longer than the plan's text.
pub fn finished_shorter()
    ensures no_longer { (plan : PlanData) → length (text_of (finished_fields (record { old = false; key = plan.key; report = plan.report }))) ≤ length (text_of (plan_fields plan)) }
{}
