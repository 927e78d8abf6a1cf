//! What is said of a file of a build root, and what is made of it.
//!
//! This layer promises, of every judge: it answers by a file's bytes and the name of its debug file alone and in one way, it
//! refuses only with a refusal that holds, and whatever it says of a file it can make.
//! Read first: `specs/Verdicts.antt`.
ghost use Rattle.std.specs.Prelude.{◌≤◌, ℕ, List, length, IfOk, IfErr, IsOkUnless};
ghost use Rattle.dw_base.specs.declared.fault.Refusal.{Refusal};
ghost use Rattle.dw_base.specs.Layout.{file_limit, output_limit};
ghost use Rattle.dw_base.specs.declared.fault.Fault.TheVariants.{NoMemory};
ghost use Rattle.dw_base.specs.Refusals.{Blames};
ghost use Rattle.job_types.specs.declared.outcome.Verdict.{Verdict as VerdictOf};
ghost use Rattle.root_plan.specs.Verdicts.{JudgeView, IsJudge, Pair};

use dw_base::Fault;
use job_types::Verdict;
use std::alloc::Global;

/// A stripped file and its debug file.
#[derive(Drop)]
pub struct Parts {
    pub stripped: Vec<u8>,
    pub debug: Vec<u8>,
}

/// Says what becomes of files, and makes it.
pub trait Judge {
    ghost view: { Self → JudgeView };
    // what refuses a file, by its bytes and the name of its debug file: as a whole, to be edited, and to be split
    ghost fails: { Self → List ℕ → List ℕ → Refusal → Type 0 };

    ghost edit_fails: { Self → List ℕ → Refusal → Type 0 };

    ghost split_fails: { Self → List ℕ → List ℕ → Refusal → Type 0 };

    /// What is said of a file.
    fn verdict(&self, alloc: Global, bytes: &[u8], debug_name: &[u8]) -> Result<Verdict, Fault>
        requires small { length bytes.now ≤ file_limit }
        ensures said { IfOk result ((view self.now).says bytes.now debug_name.now) }
        ensures refused { IfErr result (Blames (fails self.now bytes.now debug_name.now)) }
        ensures whole { (x : VerdictOf) → (view self.now).says bytes.now debug_name.now x → IsOkUnless result NoMemory };

    /// The edited file.
    fn edited(&self, alloc: Global, bytes: &[u8]) -> Result<Vec<u8>, Fault>
        requires small { length bytes.now ≤ file_limit }
        ensures made { IfOk result (λ file. (view self.now).edits bytes.now file.items) }
        ensures small { IfOk result (λ file. length file.items ≤ output_limit) }
        ensures refused { IfErr result (Blames (edit_fails self.now bytes.now)) }
        ensures whole { (file : List ℕ) → (view self.now).edits bytes.now file → IsOkUnless result NoMemory };

    /// The pair of an edited file that is split.
    fn split(&self, alloc: Global, bytes: &[u8], debug_name: &[u8]) -> Result<Parts, Fault>
        requires small { length bytes.now ≤ output_limit }
        ensures made { IfOk result (λ p. (view self.now).pairs bytes.now debug_name.now (record { stripped = p.stripped.items; debug = p.debug.items })) }
        ensures refused { IfErr result (Blames (split_fails self.now bytes.now debug_name.now)) }
        ensures whole { (pair : Pair) → (view self.now).pairs bytes.now debug_name.now pair → IsOkUnless result NoMemory };

    // whatever is said of a file can be made
    ghost makes: { (j : Self) → IsJudge (view j) };
}
