//! Laws of the definitions: a file has one outcome, which keeps what the file means and what is loaded of it.
//!
//! Read first: `specs/Outcomes.antt`.

ghost use Rattle.std.specs.Prelude.{◌≡◌, ℕ, List, Some};
ghost use Rattle.dw_base.specs.declared.fault.Refusal.{Refusal};
ghost use Rattle.dw_sources.specs.KeptNames.{HaveNoNul};
ghost use Rattle.file_tree.specs.Causes.{AreInOrder};
ghost use Rattle.job_types.specs.Settings.{Settings};
ghost use Rattle.job_types.specs.declared.outcome.Outcome.{Outcome};
ghost use Rattle.job_types.specs.declared.outcome.Outcome.TheVariants as outcome;
ghost use Rattle.dbg_job.specs.EditedFiles.{IsEdited};
ghost use Rattle.dbg_job.specs.Outcomes.{IsIdBytes, IsMade, IsOutcome, OutcomeFails, OutcomeKeeps, names_of};

/// Of what becomes of files, whenever it was made: a file has one edited file, and one outcome; what was made of it is
/// that, and then no condition refuses the file, and the outputs mean what it means, with each source path mapped once,
/// and keep what is loaded of it. A build-id that it names has 2 to 20 bytes, and the names of its sources are in byte
/// order, each once, and none has a NUL.
pub fn outcome_laws()
    ensures edited { (s : Settings) (b file other : List ℕ) → IsEdited s b file → IsEdited s b other → file ≡ other }
    ensures one { (s : Settings) (b name : List ℕ) (o p : Outcome) → IsOutcome s b name o → IsOutcome s b name p → o ≡ p }
    ensures made { (s : Settings) (b name : List ℕ) (o : Outcome) → IsMade s b name o → IsOutcome s b name o }
    ensures keeps { (s : Settings) (b name : List ℕ) (o : Outcome) → IsMade s b name o → OutcomeKeeps s.maps b name o }
    ensures excludes { (s : Settings) (b name : List ℕ) (o : Outcome) (r : Refusal) → IsMade s b name o → OutcomeFails s b name r → ⊥ }
    ensures ids { (s : Settings) (b name stripped debug id : List ℕ) (names : List (List ℕ)) → IsMade s b name (outcome.Split stripped debug (Some id) names) → IsIdBytes id }
    ensures names { (s : Settings) (b name : List ℕ) (o : Outcome) → IsMade s b name o → AreInOrder (names_of o) }
    ensures texts { (s : Settings) (b name : List ℕ) (o : Outcome) → IsMade s b name o → HaveNoNul (names_of o) }
{}
