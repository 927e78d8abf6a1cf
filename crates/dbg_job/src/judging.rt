//! What becomes of a file of a build root, before its outputs are made: it is left, edited, or edited to be split (this
//! project's profile).
//!
//! Read first: `specs/Leaving.antt`, then `specs/Judged.antt`.

ghost use Rattle.std.specs.Prelude.{◌≡◌, ◌≤◌, length, true, false, IfErr, IfOk};
ghost use Rattle.dw_base.specs.ElfFails.{ElfReads};
ghost use Rattle.dw_base.specs.Layout.{is_loaded_kind, output_limit};
ghost use Rattle.dw_base.specs.Refusals.{Blames};
ghost use Rattle.dbg_job.specs.Judged.{IsJudged, JudgedFails};
ghost use Rattle.dbg_job.specs.Leaving.{IsTaken};

use crate::editing::edited;
use crate::leaving::{begins_as_elf, why_left};
use crate::naming::source_names;
use crate::new_ids::{id_bytes, id_fits};
use dw_base::Fault;
use dw_rewrite::Rewritten;
use elf_file::ElfFile;
use elf_layout::Pieces;
use file_tree::Blob;
use job_types::{LeftWhy, Options, Sources};
use std::alloc::Global;

/// What becomes of a file, with the edited file that its outputs are made of.
#[derive(Drop)]
pub enum Judged<'a> {
    /// It is edited to be split: the edited file in one piece, its build-id, if there is one, and the names of the sources.
    Split {
        file: Blob,
        id: Option<Blob>,
        sources: Sources,
    },
    /// It is edited and not split: the edited file, of which the file lends most bytes, and the names of the sources.
    Edited {
        file: Pieces<'a>,
        sources: Sources,
    },
    /// It stays as it is.
    Left(LeftWhy),
}

/// What becomes of a file that is taken and isn't one that is loaded: it is edited.
#[tactic(auto, using(crate::proofs::JudgedLaws::edited_rules))]
fn judge_edited<'a>(
    alloc: Global,
    elf: &ElfFile<'a>,
    options: &Options,
) -> Result<Judged<'a>, Fault>
    requires taken { IsTaken elf.now.bytes.now }
    requires free { is_loaded_kind elf.now.bytes.now ≡ false }
    ensures judged { IfOk result (IsJudged options.now elf.now.bytes.now) }
    ensures refused { IfErr result (Blames (JudgedFails options.now elf.now.bytes.now)) }
{
    let out = edited(alloc, elf.bytes, options)?;
    let Rewritten { file, tables } = out;
    let sources = source_names(alloc, elf.bytes, &options.maps, tables)?;
    Ok(Judged::Edited { file, sources })
}

/// What becomes of one that is loaded: it is edited to be split.
#[tactic(auto, using(crate::proofs::JudgedLaws::split_rules))]
fn judge_split<'a>(alloc: Global, elf: &ElfFile<'a>, options: &Options) -> Result<Judged<'a>, Fault>
    requires taken { IsTaken elf.now.bytes.now }
    requires loaded { is_loaded_kind elf.now.bytes.now ≡ true }
    ensures judged { IfOk result (IsJudged options.now elf.now.bytes.now) }
    ensures refused { IfErr result (Blames (JudgedFails options.now elf.now.bytes.now)) }
{
    id_fits(elf)?;
    let out = edited(alloc, elf.bytes, options)?;
    let Rewritten { file, tables } = out;
    let file = file.joined(alloc)?;
    let id = id_bytes(alloc, file.as_slice())?;
    let sources = source_names(alloc, elf.bytes, &options.maps, tables)?;
    let file = Blob::new(file);
    Ok(Judged::Split { file, id, sources })
}

/// What becomes of a file that is taken.
fn judge_taken<'a>(alloc: Global, elf: &ElfFile<'a>, options: &Options) -> Result<Judged<'a>, Fault>
    requires taken { IsTaken elf.now.bytes.now }
    ensures judged { IfOk result (IsJudged options.now elf.now.bytes.now) }
    ensures refused { IfErr result (Blames (JudgedFails options.now elf.now.bytes.now)) }
{
    if elf.is_loaded_kind() {
        return judge_split(alloc, elf, options);
    }
    judge_edited(alloc, elf, options)
}

/// What becomes of a file whose records were read.
#[tactic(auto, using(crate::proofs::JudgedLaws::read_rules))]
fn judge_read<'a>(alloc: Global, elf: &ElfFile<'a>, options: &Options) -> Result<Judged<'a>, Fault>
    requires reads { ElfReads elf.now.bytes.now }
    ensures judged { IfOk result (IsJudged options.now elf.now.bytes.now) }
    ensures refused { IfErr result (Blames (JudgedFails options.now elf.now.bytes.now)) }
{
    match why_left(alloc, elf)? {
        Some(why) => Ok(Judged::Left(why)),
        None => judge_taken(alloc, elf, options),
    }
}

/// What becomes of a file, before its outputs are made. Refused only by a condition that holds: where its records can't be read;
/// where it isn't left, by those of `edited`, and, of one that is to be split, by those of its build-id.
#[tactic(auto, using(crate::proofs::JudgedLaws::whole_rules))]
pub fn judge_file<'a>(
    alloc: Global,
    bytes: &'a [u8],
    options: &Options,
) -> Result<Judged<'a>, Fault>
    requires small { length bytes.now ≤ output_limit }
    ensures judged { IfOk result (IsJudged options.now bytes.now) }
    ensures refused { IfErr result (Blames (JudgedFails options.now bytes.now)) }
{
    if !begins_as_elf(bytes) {
        return Ok(Judged::Left(LeftWhy::NoElf));
    }
    let elf = ElfFile::read(alloc, bytes)?;
    let judged = judge_read(alloc, &elf, options)?;
    Ok(judged)
}
