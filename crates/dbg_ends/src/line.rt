//! The lines of ends.
ghost use Rattle.std.specs.Prelude.{◌≡◌, IfOk};
ghost use Rattle.std.specs.String.{string_bytes};
ghost use Rattle.dbg_ends.specs.declared.end.End.TheVariants as end;
ghost use Rattle.dbg_ends.specs.Ends.{field_text, line_of, mismatch_text, work_file_text};

use crate::end::End;
use dw_base::Refusal;
use dw_view::Mismatch;
use job_types::kind_name;
use std::alloc::{AllocError, Global};
use work_texts::WorkFile;

/// The line of a refusal of the file at the path.
#[tactic(auto, unfolding(crate::specs::Ends::line_of))]
fn refused_line(alloc: Global, path: &str, refusal: Refusal) -> Result<String, AllocError>
    ensures text { IfOk result (λ s. string_bytes s ≡ line_of (end.Refused path.now refusal)) }
{
    let kind = kind_name(refusal.kind);
    let section = refusal.section;
    let offset = refusal.offset;
    format!(in alloc; "refused: {path}: {kind} section {section} offset {offset}\n")
}

/// The line of a file at the path that has `size` bytes, more than may be read.
#[tactic(auto, unfolding(crate::specs::Ends::line_of))]
fn limit_line(alloc: Global, path: &str, size: u64) -> Result<String, AllocError>
    ensures text { IfOk result (λ s. string_bytes s ≡ line_of (end.Limit path.now size)) }
{
    format!(in alloc; "limit: file {path} {size}\n")
}

/// How two files aren't a pair, as it is printed.
#[tactic(auto, unfolding(crate::specs::Ends::mismatch_text))]
fn mismatch_name(mismatch: &Mismatch) -> &'static str
    ensures text { result.now ≡ mismatch_text mismatch.now }
{
    match mismatch {
        Mismatch::NoLink => "no link",
        Mismatch::Name { .. } => "name",
        Mismatch::Sum { .. } => "sum",
    }
}

/// The option of the field of this number in a run's key, as it is printed; nothing where there is no such field.
#[tactic(auto, using(crate::proofs::LineLaws::field_rules))]
fn field_name(field: u8) -> &'static str
    ensures text { result.now ≡ field_text field }
{
    match field {
        0 => "base-dir",
        1 => "dest-dir",
        2 => "build-id",
        3 => "seed",
        4 => "skip-refused",
        5 => "max-file",
        6 => "more-maps",
        _ => "",
    }
}

/// The line of a work folder of a run with another key.
#[tactic(auto, unfolding(crate::specs::Ends::line_of))]
fn other_run_line(alloc: Global, field: u8) -> Result<String, AllocError>
    ensures text { IfOk result (λ s. string_bytes s ≡ line_of (end.OtherRun field)) }
{
    let option = field_name(field);
    format!(in alloc; "other run: {option}\n")
}

/// The name of a text of the work folder.
#[tactic(auto, unfolding(crate::specs::Ends::work_file_text))]
fn work_file_name(file: WorkFile) -> &'static str
    ensures text { result.now ≡ work_file_text file }
{
    match file {
        WorkFile::Plan => "plan",
        WorkFile::Finished => "finished",
    }
}

/// The line of a text of the work folder that has its first bad field at this place.
#[tactic(auto, unfolding(crate::specs::Ends::line_of))]
fn plan_text_line(alloc: Global, file: WorkFile, at: u64) -> Result<String, AllocError>
    ensures text { IfOk result (λ s. string_bytes s ≡ line_of (end.PlanText file at)) }
{
    let name = work_file_name(file);
    format!(in alloc; "plan text: {name} offset {at}\n")
}

/// The line of two files whose sections differ at this place.
#[tactic(auto, unfolding(crate::specs::Ends::line_of))]
fn unmatched_line(alloc: Global, place: u32) -> Result<String, AllocError>
    ensures text { IfOk result (λ s. string_bytes s ≡ line_of (end.Unmatched place)) }
{
    format!(in alloc; "unmatched: section {place}\n")
}

/// The line of a fault of the output.
#[tactic(auto, unfolding(crate::specs::Ends::line_of))]
pub(crate) fn output_fault_line() -> &'static str
    ensures text { result.now ≡ line_of end.OutputFault }
{
    "output fault\n"
}

/// The line where there was not enough memory.
#[tactic(auto, unfolding(crate::specs::Ends::line_of))]
pub(crate) fn no_memory_line() -> &'static str
    ensures text { result.now ≡ line_of end.NoMemory }
{
    "no memory\n"
}

/// The line of an end; nothing where the command is done.
#[tactic(auto, unfolding(crate::specs::Ends::line_of))]
pub fn line(alloc: Global, end: &End) -> Result<String, AllocError>
    ensures text { IfOk result (λ s. string_bytes s ≡ line_of end.now) }
{
    match end {
        End::Done => Ok(String::new(alloc)),
        End::Usage => String::from_str(alloc, "usage\n"),
        End::Refused { path, refusal } => refused_line(alloc, path.as_str(), *refusal),
        End::Absent { path } => {
            let path = path.as_str();
            format!(in alloc; "absent: {path}\n")
        }
        End::Folder { path } => {
            let path = path.as_str();
            format!(in alloc; "folder: {path}\n")
        }
        End::Link { path } => {
            let path = path.as_str();
            format!(in alloc; "link: {path}\n")
        }
        End::Taken { path } => {
            let path = path.as_str();
            format!(in alloc; "taken: {path}\n")
        }
        End::Limit { path, size } => limit_line(alloc, path.as_str(), *size),
        End::Entries => String::from_str(alloc, "limit: entries\n"),
        End::LongPath { path } => {
            let path = path.as_str();
            format!(in alloc; "limit: path {path}\n")
        }
        End::LongPlan => String::from_str(alloc, "limit: plan\n"),
        End::OtherRun { field } => other_run_line(alloc, *field),
        End::Changed { path } => {
            let path = path.as_str();
            format!(in alloc; "changed: {path}\n")
        }
        End::PlanText { file, at } => plan_text_line(alloc, *file, *at),
        End::NotAPair(mismatch) => {
            let why = mismatch_name(mismatch);
            format!(in alloc; "not a pair: {why}\n")
        }
        End::Unmatched { place } => unmatched_line(alloc, *place),
        End::TreeFault => String::from_str(alloc, "tree fault\n"),
        End::OutputFault => String::from_str(alloc, output_fault_line()),
        End::NoMemory => String::from_str(alloc, no_memory_line()),
    }
}
