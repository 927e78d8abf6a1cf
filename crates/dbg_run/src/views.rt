//! The view of what is shown: of one file, or of a stripped file and its debug file.
ghost use Rattle.std.specs.Prelude.{◌≡◌, IfErr, IfOk, OnOk};
ghost use Rattle.dw_base.specs.ElfFails.{DebugReads, ElfReads};
ghost use Rattle.dw_base.specs.FileViews.{view_of};
ghost use Rattle.dw_view.specs.PairViews.{pair_view};
ghost use Rattle.dbg_run.specs.Shows.{IsSeen, Unseen, base_name};
ghost use Rattle.dbg_run.specs.Shows.Subject.{of_file, of_pair};

use dbg_ends::{End, fault_end};
use dw_view::{PairErr, View};
use elf_file::ElfFile;
use std::alloc::Global;
use std::path::Path;

/// The name of the file at a path.
#[tactic(auto, unfolding(crate::specs::Shows::base_name))]
pub(crate) fn base_name(path: &str) -> &str
    ensures value { result.now ≡ base_name path.now }
{
    match Path::new(path).file_name() {
        Some(name) => name,
        None => path,
    }
}

/// The view of the file at the path.
#[tactic(auto, using(crate::proofs::ViewLaws::file_laws))]
pub(crate) fn file_view<'a>(
    alloc: Global,
    path: &str,
    elf: &'a ElfFile<'a>,
) -> Result<View<'a>, End>
    requires elf { ElfReads elf.now.bytes.now }
    ensures seen { OnOk result (IsSeen (of_file path.now elf.now.bytes.now)) }
    ensures view { IfOk result (λ view. view ≡ view_of elf.now.bytes.now) }
    ensures refused { IfErr result (Unseen (of_file path.now elf.now.bytes.now)) }
{
    match View::one(elf) {
        Ok(view) => Ok(view),
        Err(fault) => Err(fault_end(alloc, path, fault)),
    }
}

/// The view of the stripped file and the debug file at the paths.
#[tactic(auto, using(crate::proofs::ViewLaws::pair_laws))]
pub(crate) fn pair_view<'a>(
    alloc: Global,
    path: &str,
    stripped: &'a ElfFile<'a>,
    debug_path: &str,
    debug: &'a ElfFile<'a>,
) -> Result<View<'a>, End>
    requires stripped { ElfReads stripped.now.bytes.now }
    requires debug { DebugReads debug.now.bytes.now }
    ensures seen { OnOk result (IsSeen (of_pair path.now stripped.now.bytes.now debug_path.now debug.now.bytes.now)) }
    ensures view { IfOk result (λ view. view ≡ pair_view debug.now.bytes.now stripped.now.bytes.now) }
    ensures refused { IfErr result (Unseen (of_pair path.now stripped.now.bytes.now debug_path.now debug.now.bytes.now)) }
{
    match View::pair(stripped, debug, base_name(debug_path).as_bytes()) {
        Ok(view) => Ok(view),
        Err(PairErr::NotAPair(mismatch)) => Err(End::NotAPair(mismatch)),
        Err(PairErr::Stripped(fault)) => Err(fault_end(alloc, path, fault)),
        Err(PairErr::Debug(fault)) => Err(fault_end(alloc, debug_path, fault)),
    }
}
