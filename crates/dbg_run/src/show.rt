//! The command `show`: the text of what the debug data of a file mean, or of a stripped file and its debug file.
ghost use Rattle.std.specs.Prelude.{◌≡◌, ◌≢◌, ◌≤◌, ◌⊎◌, Some, None, length, IfErr, IfOk, OnOk};
ghost use Rattle.std.specs.Option.{ForSome};
ghost use Rattle.dw_base.specs.ElfFails.{DebugFails, DebugReads, ElfFails, ElfReads};
ghost use Rattle.dw_base.specs.Layout.{output_limit};
ghost use Rattle.dbg_show.specs.Shows.{IsShown};
ghost use Rattle.file_tree.specs.Causes.{Rose};
ghost use Rattle.file_tree.specs.Seen.{now_of};
ghost use Rattle.dbg_ends.specs.Due.{IsCut};
ghost use Rattle.dbg_ends.specs.Ends.{status_of};
ghost use Rattle.dbg_ends.specs.Steps.{BlamesAt};
ghost use Rattle.dbg_run.specs.Shows.{HasBegun, ShowDone, ShowDue, ShowEnds, TextEnds, TextShown, ViewEnds};
ghost use Rattle.dbg_run.specs.Shows.Subject.{of_file, of_pair};

use crate::views::{file_view, pair_view};
use dbg_ends::{End, fault_end, read_input};
use dbg_show::{ShowErr, show as show_view};
use dw_view::View;
use elf_file::ElfFile;
use file_tree::{Sink, Text, Tree};
use job_types::MOST_FILE;
use std::alloc::Global;

/// The records of the file at the path.
#[tactic(auto, using(crate::proofs::ShowLaws::elf_laws))]
pub(crate) fn read_elf<'a>(alloc: Global, path: &str, bytes: &'a [u8]) -> Result<ElfFile<'a>, End>
    requires small { length bytes.now ≤ output_limit }
    ensures reads { OnOk result (ElfReads bytes.now) }
    ensures bytes { IfOk result (λ elf. elf.bytes.now ≡ bytes.now) }
    ensures refused { IfErr result (BlamesAt (ElfFails bytes.now) path.now) }
{
    match ElfFile::read(alloc, bytes) {
        Ok(elf) => Ok(elf),
        Err(fault) => Err(fault_end(alloc, path, fault)),
    }
}

/// The records of the debug file at the path.
#[tactic(auto, using(crate::proofs::ShowLaws::elf_laws))]
pub(crate) fn read_debug<'a>(alloc: Global, path: &str, bytes: &'a [u8]) -> Result<ElfFile<'a>, End>
    requires small { length bytes.now ≤ output_limit }
    ensures reads { OnOk result (DebugReads bytes.now) }
    ensures bytes { IfOk result (λ elf. elf.bytes.now ≡ bytes.now) }
    ensures refused { IfErr result (BlamesAt (DebugFails bytes.now) path.now) }
{
    match ElfFile::read_debug(alloc, bytes) {
        Ok(elf) => Ok(elf),
        Err(fault) => Err(fault_end(alloc, path, fault)),
    }
}

/// The text of a view goes to the output. The path is that of the file that has the numbers of its sections.
#[tactic(auto, using(crate::proofs::ShowLaws::view_laws))]
fn write_view<O: Sink>(alloc: Global, path: &str, view: &View, out: &mut O) -> Result<(), End>
    ensures shown { OnOk result (IsShown view.now (O.heard out.old) (O.heard out.new)) }
    ensures ends { IfErr result (ViewEnds path.now view.now (O.heard out.old) (O.heard out.new)) }
{
    match show_view(alloc, view, out) {
        Ok(()) => Ok(()),
        Err(ShowErr::Sink) => Err(End::OutputFault),
        Err(ShowErr::Fault(fault)) => Err(fault_end(alloc, path, fault)),
    }
}

/// The text of the file at the path, which has these bytes, goes to the output. Refused before its first byte does.
fn write_file<O: Sink>(alloc: Global, path: &str, bytes: &[u8], out: &mut O) -> Result<(), End>
    requires small { length bytes.now ≤ output_limit }
    ensures shown { OnOk result (TextShown (of_file path.now bytes.now) (O.heard out.old) (O.heard out.new)) }
    ensures ends { IfErr result (TextEnds (of_file path.now bytes.now) (O.heard out.old) (O.heard out.new)) }
{
    let elf = read_elf(alloc, path, bytes)?;
    let view = file_view(alloc, path, &elf)?;
    write_view(alloc, path, &view, out)?;
    Ok(())
}

/// The text of the stripped file and the debug file at the paths, which have these bytes, goes to the output. Refused
/// before its first byte does.
fn write_pair<O: Sink>(
    alloc: Global,
    path: &str,
    bytes: &[u8],
    debug_path: &str,
    debug_bytes: &[u8],
    out: &mut O,
) -> Result<(), End>
    requires small { length bytes.now ≤ output_limit }
    requires debug_small { length debug_bytes.now ≤ output_limit }
    ensures shown { OnOk result (TextShown (of_pair path.now bytes.now debug_path.now debug_bytes.now) (O.heard out.old) (O.heard out.new)) }
    ensures ends { IfErr result (TextEnds (of_pair path.now bytes.now debug_path.now debug_bytes.now) (O.heard out.old) (O.heard out.new)) }
{
    let stripped = read_elf(alloc, path, bytes)?;
    let debug = read_debug(alloc, debug_path, debug_bytes)?;
    let view = pair_view(alloc, path, &stripped, debug_path, &debug)?;
    write_view(alloc, debug_path, &view, out)?;
    Ok(())
}

/// Reads the file, and writes its text.
fn file_steps<T: Tree, O: Sink>(
    alloc: Global,
    file: &str,
    tree: &mut T,
    out: &mut O,
) -> Result<(), End>
    ensures done { OnOk result (ShowDone file.now None (T.seen tree.old) (T.seen tree.new) (O.heard out.old) (O.heard out.new)) }
    ensures ends { IfErr result (ShowEnds file.now None (T.seen tree.old) (T.seen tree.new) (O.heard out.old) (O.heard out.new)) }
    ensures tells { (T.seen tree.new).tells ≡ (T.seen tree.old).tells }
{
    let (bytes, _mode) = read_input(alloc, file, MOST_FILE, tree)?;
    write_file(alloc, file, bytes.as_slice(), out)?;
    Ok(())
}

/// Reads the stripped file and then the debug file, and writes their text.
fn pair_steps<T: Tree, O: Sink>(
    alloc: Global,
    stripped: &str,
    debug: &str,
    tree: &mut T,
    out: &mut O,
) -> Result<(), End>
    ensures done { OnOk result (ShowDone stripped.now (Some debug.now) (T.seen tree.old) (T.seen tree.new) (O.heard out.old) (O.heard out.new)) }
    ensures ends { IfErr result (ShowEnds stripped.now (Some debug.now) (T.seen tree.old) (T.seen tree.new) (O.heard out.old) (O.heard out.new)) }
    ensures tells { (T.seen tree.new).tells ≡ (T.seen tree.old).tells }
{
    let (bytes, _mode) = read_input(alloc, stripped, MOST_FILE, tree)?;
    let (debug_bytes, _debug_mode) = read_input(alloc, debug, MOST_FILE, tree)?;
    write_pair(
        alloc,
        stripped,
        bytes.as_slice(),
        debug,
        debug_bytes.as_slice(),
        out,
    )?;
    Ok(())
}

/// Reads what is shown, and writes its text.
fn show_steps<T: Tree, O: Sink>(
    alloc: Global,
    file: &str,
    debug: &Option<Text>,
    tree: &mut T,
    out: &mut O,
) -> Result<(), End>
    ensures done { OnOk result (ShowDone file.now debug.now (T.seen tree.old) (T.seen tree.new) (O.heard out.old) (O.heard out.new)) }
    ensures ends { IfErr result (ShowEnds file.now debug.now (T.seen tree.old) (T.seen tree.new) (O.heard out.old) (O.heard out.new)) }
    ensures tells { (T.seen tree.new).tells ≡ (T.seen tree.old).tells }
{
    match debug {
        None => file_steps(alloc, file, tree, out),
        Some(debug) => pair_steps(alloc, file, debug.as_str(), tree, out),
    }
}

/// How the showing of the file ends, or that of the stripped file with its debug file. The tree stays as it was.
pub fn show<T: Tree, O: Sink>(
    alloc: Global,
    file: &str,
    debug: &Option<Text>,
    tree: &mut T,
    out: &mut O,
) -> End
    ensures ends { ShowEnds file.now debug.now (T.seen tree.old) (T.seen tree.new) (O.heard out.old) (O.heard out.new) result }
    ensures done { 0 ≡ status_of result → ShowDone file.now debug.now (T.seen tree.old) (T.seen tree.new) (O.heard out.old) (O.heard out.new) }
    ensures due { ForSome (now_of (T.seen tree.old)) (λ t. ShowDue file.now debug.now t (status_of result) ⊎ (IsCut (status_of result) ⊎ (status_of result ≡ 7))) }
    ensures not_usage { 2 ≢ status_of result }
    ensures fault { status_of result ≡ 6 → Rose (T.seen tree.old).faults (T.seen tree.new).faults }
    ensures output_fault { status_of result ≡ 7 → Rose (O.heard out.old).faults (O.heard out.new).faults }
    ensures silent { (HasBegun (status_of result) → ⊥) → O.heard out.new ≡ O.heard out.old }
    ensures kept { now_of (T.seen tree.new) ≡ now_of (T.seen tree.old) }
    ensures tells { (T.seen tree.new).tells ≡ (T.seen tree.old).tells }
{
    match show_steps(alloc, file, debug, tree, out) {
        Ok(()) => End::Done,
        Err(end) => end,
    }
}
