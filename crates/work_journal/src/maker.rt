//! The trait of makers: what the outputs of a run are.
//!
//! This layer promises, of every maker: it has the same jobs all along, a job's nodes are made only of
//! the planned file, one a step and in one way, and it answers by what it holds alone.
//! Read first: `specs/Views.antt`.
ghost use Rattle.std.specs.Prelude.{◌≡◌, ◌<◌, ◌≤◌, ℕ, List, length, get_or, IfOk, IsOkUnless, Err};
ghost use Rattle.std.specs.String.{string_bytes};
ghost use Rattle.file_tree.specs.declared.node.Node.{Node};
ghost use Rattle.dw_base.specs.Layout.{file_limit};
ghost use Rattle.dw_base.specs.declared.fault.Refusal.{Refusal};
ghost use Rattle.work_journal.specs.Views.{MakerView, Makes, IsMaker, IsChange};

use dw_base::Refusal;
use file_tree::{Blob, Node};
use std::alloc::{AllocError, AllocFailed, Global};

/// Why a job's nodes aren't made.
#[derive(Drop, Debug)]
pub enum MakeErr {
    /// The file isn't the planned one, by its digest.
    Changed { planned: [u8; 20], found: [u8; 20] },
    /// The file is refused.
    Refused(Refusal),
    /// There was not enough memory.
    NoMemory,
}

impl From<AllocError> for MakeErr {
    ghost use Rattle.work_journal.specs.declared.maker.MakeErr.TheVariants.{NoMemory};

    ghost from_gives = { λ _ e. e ≡ NoMemory };

    fn from(_e: AllocError) -> MakeErr {
        MakeErr::NoMemory
    }
}

impl<T: Drop> From<AllocFailed<T>> for MakeErr {
    ghost use Rattle.work_journal.specs.declared.maker.MakeErr.TheVariants.{NoMemory};

    ghost from_gives = { λ _ e. e ≡ NoMemory };

    fn from(_e: AllocFailed<T>) -> MakeErr {
        MakeErr::NoMemory
    }
}

/// The jobs of a run: each makes the nodes of its targets, one a step, of the file at its source.
pub trait Maker {
    ghost view: { Self → MakerView };
    // which nodes a job makes of a file
    ghost makes: { Self → Makes };
    // what is refused of a job's file
    ghost refuses: { Self → ℕ → List ℕ → Refusal → Type 0 };

    /// How many jobs there are.
    fn jobs(&self) -> u32
        ensures count { result ≡ length (view self.now).steps };

    /// How many steps the job has, 1 to 4.
    fn steps(&self, job: u32) -> u8
        requires there { job < length (view self.now).steps }
        ensures count { result ≡ get_or (view self.now).steps job 0 };

    /// The path of the job's file.
    fn source(&self, alloc: Global, job: u32) -> Result<String, AllocError>
        requires there { job < length (view self.now).steps }
        ensures path { IfOk result (λ s. string_bytes s ≡ (view self.now).source job) };

    /// Where the node of a step comes to stand.
    fn target(&self, alloc: Global, job: u32, step: u8) -> Result<String, AllocError>
        requires there { job < length (view self.now).steps }
        requires step_there { step < get_or (view self.now).steps job 0 }
        ensures path { IfOk result (λ s. string_bytes s ≡ (view self.now).target job step) };

    /// The digest of the file that was planned.
    fn planned(&self, job: u32) -> [u8; 20]
        requires there { job < length (view self.now).steps }
        ensures digest { result ≡ (view self.now).planned job };

    /// The nodes of the job's file, which is given over, so that it needn't be held any longer than it is read: `Changed`
    /// exactly where its digest isn't the planned one, `Refused` only with a refusal that holds of it.
    fn make(
        &mut self,
        alloc: Global,
        job: u32,
        bytes: Blob,
        mode: u32,
    ) -> Result<Vec<Node>, MakeErr>
        requires there { job < length (view self.old).steps }
        requires small { length bytes ≤ file_limit }
        ensures same { view self.new ≡ view self.old }
        ensures kept_nodes { (j : ℕ) (b : List ℕ) (m : ℕ) (ns : List Node) → makes self.old j b m ns → makes self.new j b m ns }
        ensures same_refusals { (j : ℕ) (b : List ℕ) (r : Refusal) → refuses self.new j b r → refuses self.old j b r }
        ensures made { IfOk result (λ v. makes self.old job bytes mode v.items) }
        ensures changed { (p f : List ℕ) → result ≡ Err (MakeErr.Changed p f) → IsChange (view self.old) job bytes p f }
        ensures refused { (r : Refusal) → result ≡ Err (MakeErr.Refused r) → refuses self.old job bytes r }
        ensures planned { (r : Refusal) → result ≡ Err (MakeErr.Refused r) → (view self.old).digest bytes ≡ (view self.old).planned job }
        ensures whole { (ns : List Node) → makes self.old job bytes mode ns → IsOkUnless result MakeErr.NoMemory };

    // what each maker holds is fit
    ghost fits: { (m : Self) → IsMaker (view m) (makes m) };
}
