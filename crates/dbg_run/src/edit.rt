//! The command `edit`: a file with each source path in its debug data mapped, and the list of its sources where one
//! is asked for.
ghost use Rattle.std.specs.Prelude.{◌≡◌, ◌≢◌, ◌⊎◌, ◌≤◌, ℕ, List, [], ◌∷◌, true, length, option_map, IfOk, IfErr, OnOk};
ghost use Rattle.std.specs.Option.{ForSome};
ghost use Rattle.dw_base.specs.FileViews.{view_of};
ghost use Rattle.dw_base.specs.Layout.{output_limit};
ghost use Rattle.dw_lines.specs.ViewTables.{TablesFound};
ghost use Rattle.dw_base.specs.declared.fault.Refusal.{Refusal};
ghost use Rattle.dbg_job.specs.EditedFiles.{EditedFails, IsEditable, IsEdited};
ghost use Rattle.file_tree.specs.Seen.{now_of};
ghost use Rattle.file_tree.specs.declared.node.Node.TheVariants as node;
ghost use Rattle.file_tree.specs.Trees.{stands_at, with_node};
ghost use Rattle.file_tree.specs.Causes.{Rose, OnlyAt};
ghost use Rattle.file_tree.specs.Moments.{adds_all};
ghost use Rattle.dbg_ends.specs.Ends.{status_of};
ghost use Rattle.dbg_ends.specs.Due.{IsCut, IsRefusal};
ghost use Rattle.dbg_ends.specs.Steps.{OnlyAtBoth, OutputEnds, OutputsEnd, all_stored, file_put};
ghost use Rattle.dbg_run.specs.Edits.{Keeps, RewriteEnds, EditDone, EditEnds, EditDue, ListedDone, ListedEnds, ListedDue, list_mode};

use crate::sources::list_text;
use dbg_ends::{End, free_output, read_input, write_in_pieces, write_pieces};
use dbg_job::{Rewritten, edited};
use dw_base::Fault;
use elf_layout::Pieces;
use file_tree::{Text, Tree};
use job_types::Options;
use std::alloc::Global;

/// The mode of a list: its owner may write it, and all may read it.
const LIST_MODE: u32 = 0o644;

/// The bytes of the file at the path with each source path mapped, and with a new build-id where one is asked for,
/// and the line tables of the file as it was. Refused only where a condition holds of the file, or of its output, of
/// that kind and at that place.
#[tactic(auto, using(crate::proofs::Rows::rewrite_rows))]
fn edited_bytes<'a>(
    alloc: Global,
    path: &str,
    bytes: &'a Vec<u8>,
    options: &Options,
) -> Result<Rewritten<'a>, End>
    requires small { length bytes.now.items ≤ output_limit }
    ensures accepted { OnOk result (IsEditable options.now bytes.now.items) }
    ensures output { IfOk result (λ out. IsEdited options.now bytes.now.items out.file) }
    ensures only { IfOk result (λ out. (o : List ℕ) → IsEdited options.now bytes.now.items o → o ≡ out.file) }
    ensures keeps { IfOk result (λ out. Keeps options.now.maps bytes.now.items out.file) }
    ensures tables { IfOk result (λ out. TablesFound (view_of bytes.now.items) out.tables.items) }
    ensures none { OnOk result ((r : Refusal) → EditedFails options.now bytes.now.items r → ⊥) }
    ensures ends { IfErr result (RewriteEnds path.now options.now bytes.now.items) }
{
    match edited(alloc, bytes.as_slice(), options) {
        Ok(out) => Ok(out),
        Err(Fault::Refused(refusal)) => Err(End::Refused {
            path: Text::copy_of(alloc, path)?,
            refusal,
        }),
        Err(Fault::NoMemory) => Err(End::NoMemory),
    }
}

/// Sets a path to a file of these pieces, one behind another, and this mode, and then settles the tree.
pub(crate) fn write_file<T: Tree>(
    alloc: Global,
    path: &str,
    file: &Pieces,
    mode: u32,
    tree: &mut T,
) -> Result<(), End>
    ensures done { OnOk result (now_of (T.seen tree.new) ≡ option_map (with_node path.now (node.File file.now mode)) (now_of (T.seen tree.old))) }
    ensures ends { IfErr result (OutputEnds path.now (T.seen tree.old) (T.seen tree.new)) }
    ensures calls { (T.seen tree.old).tells ≡ true → OnOk result ((T.seen tree.new).past ≡ adds_all (T.seen tree.old).past (file_put path.now file.now mode ∷ all_stored ∷ [])) }
    ensures tells { (T.seen tree.new).tells ≡ (T.seen tree.old).tells }
{
    let slices = file.slices(alloc)?;
    write_in_pieces(path, &slices, mode, tree)?;
    Ok(())
}

/// Sets a path to a file of these pieces and this mode, then a second path to a list, and then settles the tree.
fn write_listed<T: Tree>(
    alloc: Global,
    path: &str,
    file: &Pieces,
    mode: u32,
    list: &str,
    names: Vec<u8>,
    tree: &mut T,
) -> Result<(), End>
    ensures done { OnOk result (now_of (T.seen tree.new) ≡ option_map (with_node list.now (node.File names.items list_mode)) (option_map (with_node path.now (node.File file.now mode)) (now_of (T.seen tree.old)))) }
    ensures ends { IfErr result (OutputsEnd path.now list.now (T.seen tree.old) (T.seen tree.new)) }
    ensures calls { (T.seen tree.old).tells ≡ true → OnOk result ((T.seen tree.new).past ≡ adds_all (T.seen tree.old).past (file_put path.now file.now mode ∷ file_put list.now names.items list_mode ∷ all_stored ∷ [])) }
    ensures tells { (T.seen tree.new).tells ≡ (T.seen tree.old).tells }
{
    let slices = file.slices(alloc)?;
    write_pieces(path, &slices, mode, list, names, LIST_MODE, tree)?;
    Ok(())
}

/// Reads the input, looks whether the output may be put, rewrites the input, and writes the output.
fn edit_steps<T: Tree>(
    alloc: Global,
    input: &str,
    output: &str,
    options: &Options,
    limit: u64,
    tree: &mut T,
) -> Result<(), End>
    requires limit { limit ≤ output_limit }
    ensures done { OnOk result (EditDone input.now output.now options.now limit (T.seen tree.old) (T.seen tree.new)) }
    ensures ends { IfErr result (EditEnds input.now output.now options.now limit (T.seen tree.old) (T.seen tree.new)) }
    ensures tells { (T.seen tree.new).tells ≡ (T.seen tree.old).tells }
{
    let (bytes, mode) = read_input(alloc, input, limit, tree)?;
    free_output(alloc, output, tree)?;
    let out = edited_bytes(alloc, input, &bytes, options)?;
    write_file(alloc, output, &out.file, mode, tree)?;
    Ok(())
}

/// How the edit ends. The output is set to the rewritten input, with the input's mode.
pub fn edit<T: Tree>(
    alloc: Global,
    input: &str,
    output: &str,
    options: &Options,
    tree: &mut T,
) -> End
    ensures ends { EditEnds input.now output.now options.now options.now.max_file (T.seen tree.old) (T.seen tree.new) result }
    ensures done { 0 ≡ status_of result → EditDone input.now output.now options.now options.now.max_file (T.seen tree.old) (T.seen tree.new) }
    ensures due { ForSome (now_of (T.seen tree.old)) (λ t. EditDue options.now (stands_at t input.now options.now.max_file) (stands_at t output.now 0) (status_of result) ⊎ IsCut (status_of result)) }
    ensures not_usage { 2 ≢ status_of result }
    ensures not_output { 7 ≢ status_of result }
    ensures fault { status_of result ≡ 6 → Rose (T.seen tree.old).faults (T.seen tree.new).faults }
    ensures kept { IsRefusal (status_of result) → now_of (T.seen tree.new) ≡ now_of (T.seen tree.old) }
    ensures others { OnlyAt output.now (now_of (T.seen tree.old)) (now_of (T.seen tree.new)) }
    ensures tells { (T.seen tree.new).tells ≡ (T.seen tree.old).tells }
{
    match edit_steps(alloc, input, output, options, options.max_file, tree) {
        Ok(()) => End::Done,
        Err(end) => end,
    }
}

/// Reads the input, looks whether the output and the list may be put, rewrites the input, lists its sources, and writes both.
fn listed_steps<T: Tree>(
    alloc: Global,
    input: &str,
    output: &str,
    list: &str,
    options: &Options,
    limit: u64,
    tree: &mut T,
) -> Result<(), End>
    requires limit { limit ≤ output_limit }
    ensures done { OnOk result (ListedDone input.now output.now list.now options.now limit (T.seen tree.old) (T.seen tree.new)) }
    ensures ends { IfErr result (ListedEnds input.now output.now list.now options.now limit (T.seen tree.old) (T.seen tree.new)) }
    ensures tells { (T.seen tree.new).tells ≡ (T.seen tree.old).tells }
{
    let (file, mode) = read_input(alloc, input, limit, tree)?;
    free_output(alloc, output, tree)?;
    free_output(alloc, list, tree)?;
    let rewritten = edited_bytes(alloc, input, &file, options)?;
    let Rewritten { file: out, tables } = rewritten;
    let names = list_text(alloc, &file, options, tables)?;
    write_listed(alloc, output, &out, mode, list, names, tree)?;
    Ok(())
}

/// How the edit with a list of sources ends. The output is set to the rewritten input, with the input's mode, and
/// then the list's path to the list.
pub fn edit_listed<T: Tree>(
    alloc: Global,
    input: &str,
    output: &str,
    list: &str,
    options: &Options,
    tree: &mut T,
) -> End
    ensures ends { ListedEnds input.now output.now list.now options.now options.now.max_file (T.seen tree.old) (T.seen tree.new) result }
    ensures done { 0 ≡ status_of result → ListedDone input.now output.now list.now options.now options.now.max_file (T.seen tree.old) (T.seen tree.new) }
    ensures due { ForSome (now_of (T.seen tree.old)) (λ t. ListedDue options.now (stands_at t input.now options.now.max_file) (stands_at t output.now 0) (stands_at t list.now 0) (status_of result) ⊎ IsCut (status_of result)) }
    ensures not_usage { 2 ≢ status_of result }
    ensures not_output { 7 ≢ status_of result }
    ensures fault { status_of result ≡ 6 → Rose (T.seen tree.old).faults (T.seen tree.new).faults }
    ensures kept { IsRefusal (status_of result) → now_of (T.seen tree.new) ≡ now_of (T.seen tree.old) }
    ensures others { OnlyAtBoth output.now list.now (now_of (T.seen tree.old)) (now_of (T.seen tree.new)) }
    ensures tells { (T.seen tree.new).tells ≡ (T.seen tree.old).tells }
{
    match listed_steps(alloc, input, output, list, options, options.max_file, tree) {
        Ok(()) => End::Done,
        Err(end) => end,
    }
}
