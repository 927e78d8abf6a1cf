//! The edited file: with mapped source paths and, where it is asked for, a new build-id.
//!
//! Read first: `specs/EditedFiles.antt`.

ghost use Rattle.std.specs.Prelude.{◌≡◌, ◌≤◌, ℕ, List, length, true, false, IfErr, IfOk, OnOk};
ghost use Rattle.dw_base.specs.FileViews.{view_of};
ghost use Rattle.dw_base.specs.Layout.{output_limit};
ghost use Rattle.dw_base.specs.Refusals.{Blames};
ghost use Rattle.dw_base.specs.declared.fault.Refusal.{Refusal};
ghost use Rattle.dw_lines.specs.ViewTables.{TablesFound};
ghost use Rattle.dw_meaning.specs.EditRows.{EditFails};
ghost use Rattle.dw_meaning.specs.FileMeanings.{IsOutput, MeaningKept, file_data};
ghost use Rattle.dw_meaning.specs.Leavings.{NoLeavings};
ghost use Rattle.dw_meaning.specs.Loaded.{LoadedKept};
ghost use Rattle.dbg_job.specs.EditedFiles.{EditedFails, IdRefuses, IsAnew, IsEditOf, IsEditable, IsEdited, IsMapped};
ghost use Rattle.dbg_job.specs.SameSections.{SameSections};
ghost use Rattle.dbg_job.specs.NewIds.{IdFits, with_new_id};

use crate::new_ids::{id_fits, with_new_id};
use dw_base::Fault;
use dw_paths::Maps;
use dw_rewrite::{Rewritten, rewrite};
use elf_file::ElfFile;
use job_types::Options;
use std::alloc::Global;

/// The file with each source path mapped, and what is known of it.
#[tactic(auto, using(crate::proofs::EditedLaws::mapped_rules))]
fn mapped_file<'a>(alloc: Global, bytes: &'a [u8], maps: &Maps) -> Result<Rewritten<'a>, Fault>
    requires small { length bytes.now ≤ output_limit }
    ensures mapped { IfOk result (λ out. IsMapped maps.now bytes.now out.file) }
    ensures only { IfOk result (λ out. (o : List ℕ) → IsOutput maps.now bytes.now o → o ≡ out.file) }
    ensures meaning { IfOk result (λ out. MeaningKept maps.now bytes.now out.file) }
    ensures loaded { IfOk result (λ out. LoadedKept bytes.now out.file) }
    ensures leavings { IfOk result (λ out. NoLeavings (file_data out.file)) }
    ensures tables { IfOk result (λ out. TablesFound (view_of bytes.now) out.tables.items) }
    ensures refused { IfErr result (Blames (EditFails maps.now bytes.now)) }
{
    // What a map obeys is known where one of its fields is used.
    let _ = &maps.pairs;
    let out = rewrite(alloc, bytes, maps)?;
    Ok(out)
}

/// Nothing is wrong with the build-id of the file.
#[tactic(auto, using(crate::proofs::EditedLaws::id_rules))]
fn id_fits_in(alloc: Global, bytes: &[u8]) -> Result<(), Fault>
    requires small { length bytes.now ≤ output_limit }
    ensures fits { OnOk result (IdFits bytes.now) }
    ensures refused { IfErr result (Blames (IdRefuses bytes.now)) }
{
    let elf = ElfFile::read(alloc, bytes)?;
    id_fits(&elf)?;
    Ok(())
}

/// The file with each source path mapped, and a new build-id made of a seed.
#[tactic(auto, using(crate::proofs::EditedLaws::anew_rules))]
fn mapped_anew<'a>(
    alloc: Global,
    bytes: &'a [u8],
    maps: &Maps,
    seed: &[u8],
) -> Result<Rewritten<'a>, Fault>
    requires small { length bytes.now ≤ output_limit }
    requires fits { IdFits bytes.now }
    ensures edited { IfOk result (λ new. IsAnew maps.now seed.now bytes.now new.file) }
    ensures meaning { IfOk result (λ new. MeaningKept maps.now bytes.now new.file) }
    ensures loaded { IfOk result (λ new. LoadedKept bytes.now new.file) }
    ensures leavings { IfOk result (λ new. NoLeavings (file_data new.file)) }
    ensures fits { IfOk result (λ new. IdFits new.file) }
    ensures sections { IfOk result (λ new. SameSections bytes.now new.file) }
    ensures tables { IfOk result (λ new. TablesFound (view_of bytes.now) new.tables.items) }
    ensures refused { IfErr result (Blames (EditFails maps.now bytes.now)) }
{
    let out = mapped_file(alloc, bytes, maps)?;
    let Rewritten { file, tables } = out;
    let new = with_new_id(alloc, bytes, file, seed)?;
    Ok(Rewritten { file: new, tables })
}

/// The edited file where build-ids stay.
#[tactic(auto, using(crate::proofs::EditedLaws::plain_rules))]
fn edited_plain<'a>(
    alloc: Global,
    bytes: &'a [u8],
    options: &Options,
) -> Result<Rewritten<'a>, Fault>
    requires small { length bytes.now ≤ output_limit }
    requires plain { options.now.build_id ≡ false }
    ensures accepted { OnOk result (IsEditable options.now bytes.now) }
    ensures edited { IfOk result (λ out. IsEdited options.now bytes.now out.file) }
    ensures only { IfOk result (λ out. (o : List ℕ) → IsEdited options.now bytes.now o → o ≡ out.file) }
    ensures meaning { IfOk result (λ out. MeaningKept options.now.maps bytes.now out.file) }
    ensures loaded { IfOk result (λ out. LoadedKept bytes.now out.file) }
    ensures leavings { IfOk result (λ out. NoLeavings (file_data out.file)) }
    ensures small { IfOk result (λ out. length out.file ≤ output_limit) }
    ensures fits { IfOk result (λ out. IdFits bytes.now → IdFits out.file) }
    ensures sections { IfOk result (λ out. SameSections bytes.now out.file) }
    ensures tables { IfOk result (λ out. TablesFound (view_of bytes.now) out.tables.items) }
    ensures made { IfOk result (λ out. IsEditOf options.now bytes.now out.file) }
    ensures none { OnOk result ((r : Refusal) → EditedFails options.now bytes.now r → ⊥) }
    ensures refused { IfErr result (Blames (EditedFails options.now bytes.now)) }
{
    let out = mapped_file(alloc, bytes, &options.maps)?;
    Ok(out)
}

/// The edited file where they are made anew.
#[tactic(auto, using(crate::proofs::EditedLaws::edited_rules))]
fn edited_anew<'a>(
    alloc: Global,
    bytes: &'a [u8],
    options: &Options,
) -> Result<Rewritten<'a>, Fault>
    requires small { length bytes.now ≤ output_limit }
    requires anew { options.now.build_id ≡ true }
    ensures accepted { OnOk result (IsEditable options.now bytes.now) }
    ensures edited { IfOk result (λ out. IsEdited options.now bytes.now out.file) }
    ensures only { IfOk result (λ out. (o : List ℕ) → IsEdited options.now bytes.now o → o ≡ out.file) }
    ensures meaning { IfOk result (λ out. MeaningKept options.now.maps bytes.now out.file) }
    ensures loaded { IfOk result (λ out. LoadedKept bytes.now out.file) }
    ensures leavings { IfOk result (λ out. NoLeavings (file_data out.file)) }
    ensures small { IfOk result (λ out. length out.file ≤ output_limit) }
    ensures fits { IfOk result (λ out. IdFits bytes.now → IdFits out.file) }
    ensures sections { IfOk result (λ out. SameSections bytes.now out.file) }
    ensures tables { IfOk result (λ out. TablesFound (view_of bytes.now) out.tables.items) }
    ensures made { IfOk result (λ out. IsEditOf options.now bytes.now out.file) }
    ensures none { OnOk result ((r : Refusal) → EditedFails options.now bytes.now r → ⊥) }
    ensures refused { IfErr result (Blames (EditedFails options.now bytes.now)) }
{
    id_fits_in(alloc, bytes)?;
    let out = mapped_anew(alloc, bytes, &options.maps, options.seed.as_slice())?;
    Ok(out)
}

/// The edited file: each source path is mapped, and where build-ids are made anew, its build-id is the first bytes of
/// the SHA-1 of the seed and of the whole file with the bytes of the id as zeros; a file without the note of a
/// build-id gets none. Refused only by a condition that holds in the file, at its place: by those of a rewriting,
/// and, where build-ids are made anew, as `BuildId` at (the section of the note, 0) where the note doesn't fit, its
/// id has not 2 to 20 bytes, or these bytes belong to something else too. Where none holds, it is edited, or there
/// was not enough memory. What it means is what the file means, with each source path mapped, what is loaded of it is
/// as it was, and no text is left in it that none of its fields names. It isn't too long to be read, nothing is wrong with its build-id where nothing is wrong with that
/// of the file, and it has the file's sections, but for place, size and contents. Beside it stand the line tables of
/// the file as it was, which were read for it. It comes in pieces, of which the file lends those that stay.
pub fn edited<'a>(alloc: Global, bytes: &'a [u8], options: &Options) -> Result<Rewritten<'a>, Fault>
    requires small { length bytes.now ≤ output_limit }
    ensures accepted { OnOk result (IsEditable options.now bytes.now) }
    ensures edited { IfOk result (λ out. IsEdited options.now bytes.now out.file) }
    ensures only { IfOk result (λ out. (o : List ℕ) → IsEdited options.now bytes.now o → o ≡ out.file) }
    ensures meaning { IfOk result (λ out. MeaningKept options.now.maps bytes.now out.file) }
    ensures loaded { IfOk result (λ out. LoadedKept bytes.now out.file) }
    ensures leavings { IfOk result (λ out. NoLeavings (file_data out.file)) }
    ensures small { IfOk result (λ out. length out.file ≤ output_limit) }
    ensures fits { IfOk result (λ out. IdFits bytes.now → IdFits out.file) }
    ensures sections { IfOk result (λ out. SameSections bytes.now out.file) }
    ensures tables { IfOk result (λ out. TablesFound (view_of bytes.now) out.tables.items) }
    ensures made { IfOk result (λ out. IsEditOf options.now bytes.now out.file) }
    ensures none { OnOk result ((r : Refusal) → EditedFails options.now bytes.now r → ⊥) }
    ensures refused { IfErr result (Blames (EditedFails options.now bytes.now)) }
{
    if options.build_id {
        return edited_anew(alloc, bytes, options);
    }
    edited_plain(alloc, bytes, options)
}
