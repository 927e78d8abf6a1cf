//! The command `unstrip`: a stripped file and the debug file that it names, joined to one.
ghost use Rattle.std.specs.Prelude.{◌≡◌, ◌≢◌, ◌⊎◌, ◌≤◌, [], ◌∷◌, true, length, option_map, IfErr, IfOk, OnOk};
ghost use Rattle.std.specs.Option.{ForSome};
ghost use Rattle.dw_base.specs.ElfFails.{DebugReads, ElfReads};
ghost use Rattle.dw_base.specs.Layout.{output_limit};
ghost use Rattle.dbg_unstrip.specs.Joined.{joined};
ghost use Rattle.job_types.specs.Settings.{most_file};
ghost use Rattle.file_tree.specs.declared.node.Node.TheVariants as node;
ghost use Rattle.file_tree.specs.Seen.{now_of};
ghost use Rattle.file_tree.specs.Trees.{stands_at, with_node};
ghost use Rattle.file_tree.specs.Causes.{Rose, OnlyAt};
ghost use Rattle.file_tree.specs.Moments.{adds_all};
ghost use Rattle.dbg_ends.specs.Ends.{status_of};
ghost use Rattle.dbg_ends.specs.Due.{IsCut, IsRefusal};
ghost use Rattle.dbg_ends.specs.Steps.{all_stored, file_put};
ghost use Rattle.dbg_run.specs.Shows.{base_name};
ghost use Rattle.dbg_run.specs.Unstrips.{CanJoin, ComesBack, JoiningEnds, Unjoined, UnstripDone, UnstripDue, UnstripEnds};

use crate::edit::write_file;
use crate::show::{read_debug, read_elf};
use crate::views::base_name;
use dbg_ends::{End, fault_end, free_output, read_input};
use dbg_unstrip::{UnstripErr, unstrip as joined_file};
use dw_base::Fault;
use elf_file::ElfFile;
use elf_layout::Pieces;
use file_tree::Tree;
use job_types::MOST_FILE;
use std::alloc::Global;

/// The file of the stripped file and the debug file at the paths, in pieces.
#[tactic(auto, using(crate::proofs::UnstripLaws::join_laws))]
fn join_files<'a>(
    alloc: Global,
    path: &str,
    stripped: &ElfFile<'a>,
    debug_path: &str,
    debug: &ElfFile<'a>,
) -> Result<Pieces<'a>, End>
    requires stripped { ElfReads stripped.now.bytes.now }
    requires debug { DebugReads debug.now.bytes.now }
    ensures file { IfOk result (λ file. file ≡ joined stripped.now.bytes.now debug.now.bytes.now) }
    ensures can { OnOk result (CanJoin stripped.now.bytes.now debug.now.bytes.now (base_name debug_path.now)) }
    ensures back { OnOk result (ComesBack stripped.now.bytes.now debug.now.bytes.now (base_name debug_path.now)) }
    ensures ends { IfErr result (Unjoined path.now stripped.now.bytes.now debug_path.now debug.now.bytes.now) }
{
    match joined_file(alloc, stripped, debug, base_name(debug_path).as_bytes()) {
        Ok(file) => Ok(file),
        Err(UnstripErr::NotAPair(mismatch)) => Err(End::NotAPair(mismatch)),
        Err(UnstripErr::Unmatched { place }) => Err(End::Unmatched { place }),
        Err(UnstripErr::Refused(refusal)) => Err(fault_end(alloc, path, Fault::Refused(refusal))),
        Err(UnstripErr::NoMemory) => Err(End::NoMemory),
    }
}

/// Joins the stripped file and the debug file at the paths, which have these bytes, and sets a third path to the file
/// of both, with this mode; then settles the tree.
fn write_joined<T: Tree>(
    alloc: Global,
    path: &str,
    bytes: &[u8],
    debug_path: &str,
    debug_bytes: &[u8],
    output: &str,
    mode: u32,
    tree: &mut T,
) -> Result<(), End>
    requires small { length bytes.now ≤ output_limit }
    requires debug_small { length debug_bytes.now ≤ output_limit }
    ensures can { OnOk result (CanJoin bytes.now debug_bytes.now (base_name debug_path.now)) }
    ensures back { OnOk result (ComesBack bytes.now debug_bytes.now (base_name debug_path.now)) }
    ensures done { OnOk result (now_of (T.seen tree.new) ≡ option_map (with_node output.now (node.File (joined bytes.now debug_bytes.now) mode)) (now_of (T.seen tree.old))) }
    ensures calls { (T.seen tree.old).tells ≡ true → OnOk result ((T.seen tree.new).past ≡ adds_all (T.seen tree.old).past (file_put output.now (joined bytes.now debug_bytes.now) mode ∷ all_stored ∷ [])) }
    ensures ends { IfErr result (JoiningEnds path.now bytes.now debug_path.now debug_bytes.now output.now (T.seen tree.old) (T.seen tree.new)) }
    ensures tells { (T.seen tree.new).tells ≡ (T.seen tree.old).tells }
{
    let stripped = read_elf(alloc, path, bytes)?;
    let debug = read_debug(alloc, debug_path, debug_bytes)?;
    let file = join_files(alloc, path, &stripped, debug_path, &debug)?;
    write_file(alloc, output, &file, mode, tree)?;
    Ok(())
}

/// Reads the stripped file and then the debug file, looks whether the output may be put, joins the two, and writes the
/// output.
fn unstrip_steps<T: Tree>(
    alloc: Global,
    stripped: &str,
    debug: &str,
    output: &str,
    tree: &mut T,
) -> Result<(), End>
    ensures done { OnOk result (UnstripDone stripped.now debug.now output.now (T.seen tree.old) (T.seen tree.new)) }
    ensures ends { IfErr result (UnstripEnds stripped.now debug.now output.now (T.seen tree.old) (T.seen tree.new)) }
    ensures tells { (T.seen tree.new).tells ≡ (T.seen tree.old).tells }
{
    let (bytes, mode) = read_input(alloc, stripped, MOST_FILE, tree)?;
    let (debug_bytes, _debug_mode) = read_input(alloc, debug, MOST_FILE, tree)?;
    free_output(alloc, output, tree)?;
    write_joined(
        alloc,
        stripped,
        bytes.as_slice(),
        debug,
        debug_bytes.as_slice(),
        output,
        mode,
        tree,
    )?;
    Ok(())
}

/// How the joining ends. The output's path is set to the file of both, with the stripped file's mode.
pub fn unstrip<T: Tree>(
    alloc: Global,
    stripped: &str,
    debug: &str,
    output: &str,
    tree: &mut T,
) -> End
    ensures ends { UnstripEnds stripped.now debug.now output.now (T.seen tree.old) (T.seen tree.new) result }
    ensures done { 0 ≡ status_of result → UnstripDone stripped.now debug.now output.now (T.seen tree.old) (T.seen tree.new) }
    ensures due { ForSome (now_of (T.seen tree.old)) (λ t. UnstripDue (base_name debug.now) (stands_at t stripped.now most_file) (stands_at t debug.now most_file) (stands_at t output.now 0) (status_of result) ⊎ IsCut (status_of result)) }
    ensures not_usage { 2 ≢ status_of result }
    ensures not_output { 7 ≢ status_of result }
    ensures fault { status_of result ≡ 6 → Rose (T.seen tree.old).faults (T.seen tree.new).faults }
    ensures kept { IsRefusal (status_of result) → now_of (T.seen tree.new) ≡ now_of (T.seen tree.old) }
    ensures others { OnlyAt output.now (now_of (T.seen tree.old)) (now_of (T.seen tree.new)) }
    ensures tells { (T.seen tree.new).tells ≡ (T.seen tree.old).tells }
{
    match unstrip_steps(alloc, stripped, debug, output, tree) {
        Ok(()) => End::Done,
        Err(end) => end,
    }
}
