//! Laws of the judge of files: it is one, and the nodes that its jobs make keep what their file means.
//!
//! Read first: `specs/KeptNodes.antt`.

ghost use Rattle.std.specs.Prelude.{◌≡◌, ℕ, List, false, IsTrue};
ghost use Rattle.dw_base.specs.Texts.{has_nul};
ghost use Rattle.file_tree.specs.declared.node.Node.{Node};
ghost use Rattle.job_types.specs.Settings.{Settings};
ghost use Rattle.work_texts.specs.Rules.{is_job_path};
ghost use Rattle.work_texts.specs.declared.plan.JobLine.{JobLine};
ghost use Rattle.root_plan.specs.Makers.{NodesOf};
ghost use Rattle.root_plan.specs.Targets.{debug_name};
ghost use Rattle.root_plan.specs.Verdicts.{IsJudge};
ghost use Rattle.file_judge.specs.FileJudges.{file_view};
ghost use Rattle.file_judge.specs.KeptNodes.{NodesKeep};

/// Of the judge of files with any settings: whatever it says of a file can be made, and it says and makes one thing alone. The
/// nodes that a job makes of a file, whenever they were made, mean what the file means, with each source path mapped, and keep what is
/// loaded of it. The name of the debug file of a job's path has no NUL, since the path has none.
pub fn judge_laws()
    ensures judge { (s : Settings) → IsJudge (file_view s) }
    ensures keeps { (s : Settings) (job : JobLine) (b : List ℕ) (mode : ℕ) (nodes : List Node) → has_nul job.path ≡ false → NodesOf (file_view s) job b mode nodes → NodesKeep s.maps job b mode nodes }
    ensures names { (path : List ℕ) → has_nul path ≡ false → has_nul (debug_name path) ≡ false }
    ensures paths { (path : List ℕ) → IsTrue (is_job_path path) → has_nul path ≡ false }
{}
