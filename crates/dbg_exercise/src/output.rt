//! The output of a file that an edit takes.

ghost use Rattle.std.specs.Prelude.{◌≡◌, ◌≤◌, length, IfOk};
ghost use Rattle.dw_base.specs.Layout.{output_limit};
ghost use Rattle.dw_meaning.specs.EditRows.{IsAccepted};
ghost use Rattle.dw_meaning.specs.FileMeanings.{IsOutput, MeaningKept};
ghost use Rattle.dbg_exercise.specs.Exercises.{exercise_map};

use dw_base::{Fault, NoMemory};
use dw_paths::Maps;
use dw_rewrite::{Rewritten, rewrite};
use elf_layout::Pieces;
use std::alloc::Global;

/// The map of an exercise.
#[tactic(auto, using(crate::proofs::OutputLaws::map_laws))]
pub(crate) fn exercise_map(alloc: Global) -> Result<Maps, NoMemory>
    ensures map { IfOk result (λ maps. maps ≡ exercise_map) }
{
    match Maps::new(alloc, b"/build/p", b"/usr/src/debug/p")? {
        Some(maps) => Ok(maps),
        None => unreachable!(),
    }
}

/// A file with each source path mapped, which an edit takes.
#[tactic(auto, using(crate::proofs::OutputLaws::taken_laws))]
fn mapped_file<'a>(alloc: Global, bytes: &'a [u8], maps: &Maps) -> Result<Pieces<'a>, NoMemory>
    requires small { length bytes.now ≤ output_limit }
    requires accepted { IsAccepted maps.now bytes.now }
    ensures output { IfOk result (λ out. IsOutput maps.now bytes.now out) }
    ensures meaning { IfOk result (λ out. MeaningKept maps.now bytes.now out) }
{
    match rewrite(alloc, bytes, maps) {
        Ok(Rewritten { file, tables: _ }) => Ok(file),
        Err(Fault::NoMemory) => Err(NoMemory),
        Err(Fault::Refused(_)) => unreachable!(),
    }
}

/// The same in one piece.
#[tactic(auto, using(crate::proofs::OutputLaws::taken_laws))]
pub(crate) fn output_of(alloc: Global, bytes: &[u8], maps: &Maps) -> Result<Vec<u8>, NoMemory>
    requires small { length bytes.now ≤ output_limit }
    requires accepted { IsAccepted maps.now bytes.now }
    ensures output { IfOk result (λ out. IsOutput maps.now bytes.now out.items) }
    ensures meaning { IfOk result (λ out. MeaningKept maps.now bytes.now out.items) }
    ensures small { IfOk result (λ out. length out.items ≤ output_limit) }
{
    let file = mapped_file(alloc, bytes, maps)?;
    let bytes = file.joined(alloc)?;
    Ok(bytes)
}
