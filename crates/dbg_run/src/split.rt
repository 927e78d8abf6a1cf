//! The command `split`: a file in two, one without debug data and symbols that still runs, and a debug file to which it links.
ghost use Rattle.std.specs.Prelude.{◌≡◌, ◌≢◌, ◌⊎◌, ◌≤◌, [], ◌∷◌, true, false, length, IfOk, IfErr, OnOk, option_map};
ghost use Rattle.std.specs.Option.{ForSome};
ghost use Rattle.dw_base.specs.Layout.{output_limit};
ghost use Rattle.dw_base.specs.Texts.{has_nul};
ghost use Rattle.dbg_split.specs.DebugFile.{debug_file};
ghost use Rattle.dbg_split.specs.SplitFails.{SplitFails};
ghost use Rattle.dbg_split.specs.StrippedFile.{stripped_file};
ghost use Rattle.job_types.specs.Modes.{not_executable};
ghost use Rattle.job_types.specs.Settings.{most_file};
ghost use Rattle.file_tree.specs.Seen.{now_of};
ghost use Rattle.file_tree.specs.declared.node.Node.TheVariants as node;
ghost use Rattle.file_tree.specs.Trees.{stands_at, with_node};
ghost use Rattle.file_tree.specs.Causes.{Rose};
ghost use Rattle.file_tree.specs.Moments.{adds_all};
ghost use Rattle.dbg_ends.specs.Ends.{status_of};
ghost use Rattle.dbg_ends.specs.Due.{IsCut, IsRefusal};
ghost use Rattle.dbg_ends.specs.Steps.{BlamesAt, OnlyAtBoth, OutputsEnd, all_stored, file_put};
ghost use Rattle.dbg_run.specs.Shows.{base_name};
ghost use Rattle.dbg_run.specs.Splits.{IsSplittable, Parts, SplitDone, SplitDue, SplitEnds};

use crate::views::base_name;
use dbg_ends::{End, fault_end, free_output, read_input, write_pieces};
use dbg_split::{Pair, split as split_bytes};
use file_tree::Tree;
use job_types::{MOST_FILE, not_executable};
use std::alloc::Global;

/// The two files into which the file at the path is split, of which the second is to be put at this path. Refused only where a
/// condition holds of the file, of that kind and at that place.
#[tactic(auto, using(crate::proofs::Rows::parting_rows))]
fn split_file<'a>(
    alloc: Global,
    path: &str,
    bytes: &'a Vec<u8>,
    debug: &str,
) -> Result<Pair<'a>, End>
    requires small { length bytes.now.items ≤ output_limit }
    requires plain { has_nul (base_name debug.now) ≡ false }
    ensures splittable { OnOk result (IsSplittable bytes.now.items (base_name debug.now)) }
    ensures stripped { IfOk result (λ pair. pair.stripped.items ≡ stripped_file bytes.now.items (base_name debug.now)) }
    ensures debug { IfOk result (λ pair. pair.debug ≡ debug_file bytes.now.items) }
    ensures parts { IfOk result (λ pair. Parts bytes.now.items (base_name debug.now) pair.stripped.items pair.debug) }
    ensures ends { IfErr result (BlamesAt (SplitFails bytes.now.items (base_name debug.now)) path.now) }
{
    match split_bytes(alloc, bytes.as_slice(), base_name(debug).as_bytes()) {
        Ok(pair) => Ok(pair),
        Err(fault) => Err(fault_end(alloc, path, fault)),
    }
}

/// Sets a path to the debug file of a pair, with this mode, then a second one to its stripped file, with its mode,
/// and then settles the tree.
fn write_pair<T: Tree>(
    alloc: Global,
    pair: Pair,
    debug: &str,
    debug_mode: u32,
    stripped: &str,
    mode: u32,
    tree: &mut T,
) -> Result<(), End>
    ensures done { OnOk result (now_of (T.seen tree.new) ≡ option_map (with_node stripped.now (node.File pair.entry.stripped.items mode)) (option_map (with_node debug.now (node.File pair.entry.debug debug_mode)) (now_of (T.seen tree.old)))) }
    ensures ends { IfErr result (OutputsEnd debug.now stripped.now (T.seen tree.old) (T.seen tree.new)) }
    ensures calls { (T.seen tree.old).tells ≡ true → OnOk result ((T.seen tree.new).past ≡ adds_all (T.seen tree.old).past (file_put debug.now pair.entry.debug debug_mode ∷ file_put stripped.now pair.entry.stripped.items mode ∷ all_stored ∷ [])) }
    ensures tells { (T.seen tree.new).tells ≡ (T.seen tree.old).tells }
{
    let Pair {
        stripped: bytes,
        debug: pieces,
    } = pair;
    let slices = pieces.slices(alloc)?;
    write_pieces(debug, &slices, debug_mode, stripped, bytes, mode, tree)?;
    Ok(())
}

/// Reads the input, looks whether the two files may be put, splits the input, and writes the debug file and then the
/// stripped file. No word of a command has a NUL, so neither does a name of one.
fn split_steps<T: Tree>(
    alloc: Global,
    input: &str,
    stripped: &str,
    debug: &str,
    tree: &mut T,
) -> Result<(), End>
    requires plain { has_nul (base_name debug.now) ≡ false }
    ensures done { OnOk result (SplitDone input.now stripped.now debug.now (T.seen tree.old) (T.seen tree.new)) }
    ensures ends { IfErr result (SplitEnds input.now stripped.now debug.now (T.seen tree.old) (T.seen tree.new)) }
    ensures tells { (T.seen tree.new).tells ≡ (T.seen tree.old).tells }
{
    let (bytes, mode) = read_input(alloc, input, MOST_FILE, tree)?;
    free_output(alloc, stripped, tree)?;
    free_output(alloc, debug, tree)?;
    let pair = split_file(alloc, input, &bytes, debug)?;
    write_pair(
        alloc,
        pair,
        debug,
        not_executable(mode),
        stripped,
        mode,
        tree,
    )?;
    Ok(())
}

/// How the split ends. The debug file's path is set to the debug file, with the input's mode but for the bits by
/// which a file may be executed, and then the stripped file's to the stripped file, with the input's mode.
pub fn split<T: Tree>(alloc: Global, input: &str, stripped: &str, debug: &str, tree: &mut T) -> End
    requires plain { has_nul (base_name debug.now) ≡ false }
    ensures ends { SplitEnds input.now stripped.now debug.now (T.seen tree.old) (T.seen tree.new) result }
    ensures done { 0 ≡ status_of result → SplitDone input.now stripped.now debug.now (T.seen tree.old) (T.seen tree.new) }
    ensures due { ForSome (now_of (T.seen tree.old)) (λ t. SplitDue (base_name debug.now) (stands_at t input.now most_file) (stands_at t stripped.now 0) (stands_at t debug.now 0) (status_of result) ⊎ IsCut (status_of result)) }
    ensures not_usage { 2 ≢ status_of result }
    ensures not_output { 7 ≢ status_of result }
    ensures fault { status_of result ≡ 6 → Rose (T.seen tree.old).faults (T.seen tree.new).faults }
    ensures kept { IsRefusal (status_of result) → now_of (T.seen tree.new) ≡ now_of (T.seen tree.old) }
    ensures others { OnlyAtBoth debug.now stripped.now (now_of (T.seen tree.old)) (now_of (T.seen tree.new)) }
    ensures tells { (T.seen tree.new).tells ≡ (T.seen tree.old).tells }
{
    match split_steps(alloc, input, stripped, debug, tree) {
        Ok(()) => End::Done,
        Err(end) => end,
    }
}
