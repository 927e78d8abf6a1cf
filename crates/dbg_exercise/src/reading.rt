//! A file that can be read, and how much it means.

ghost use Rattle.std.specs.Prelude.{◌≡◌, ◌≤◌, length, IfOk};
ghost use Rattle.dw_base.specs.ElfFails.{ElfReads};
ghost use Rattle.dw_base.specs.FileViews.{view_of};
ghost use Rattle.dw_base.specs.Layout.{output_limit};
ghost use Rattle.dw_base.specs.ViewData.{Meaning, debug_data};
ghost use Rattle.dw_base.specs.ViewFails.{ViewReads};
ghost use Rattle.dw_base.specs.declared.debug_sections.DebugSection.TheVariants.{Info};
ghost use Rattle.dw_read.specs.ReadData.{IsDebugData};
ghost use Rattle.dw_meaning.specs.FileMeanings.{Means, ViewMeans};
ghost use Rattle.dw_units.specs.UnitLists.{ListsAll};
ghost use Rattle.dbg_exercise.specs.ViewCounts.{AreCounts, IsCountableFile, IsCountable};

use crate::counting::{entry_count, row_count};
use crate::counts::Counts;
use dw_base::{Fault, NoMemory};
use dw_read::{DebugData, read_data};
use dw_units::Units;
use dw_view::View;
use elf_file::ElfFile;
use std::alloc::Global;

/// The units of a view whose debug data can be read, with their tables of abbreviations, and all else of these.
#[tactic(auto, using(crate::proofs::ReadingLaws::data_laws))]
fn data_in<'v>(alloc: Global, view: &'v View) -> Result<(Units<'v>, DebugData), NoMemory>
    requires countable { IsCountable view.now }
    ensures units { IfOk result (λ r. ListsAll (debug_data view.now) r.0.tables ((debug_data view.now).found Info) r.0.units) }
    ensures data { IfOk result (λ r. IsDebugData view.now r.1) }
{
    match read_data(alloc, view) {
        Ok(read) => Ok(read),
        Err(Fault::NoMemory) => Err(NoMemory),
        Err(Fault::Refused(_)) => unreachable!(),
    }
}

/// How much a view means whose debug data can be read.
fn view_counts(alloc: Global, view: &View) -> Result<Counts, NoMemory>
    requires countable { IsCountable view.now }
    ensures counts { IfOk result (λ c. (x : Meaning) → ViewMeans view.now x → AreCounts x c) }
{
    let (units, data) = data_in(alloc, view)?;
    let entries = entry_count(alloc, view, &units, units.all())?;
    let rows = row_count(view, data.lines.as_slice());
    Ok(Counts {
        units: units.all().len() as u64,
        entries,
        rows,
    })
}

/// The records of a file that can be read.
#[tactic(auto, using(crate::proofs::ReadingLaws::file_laws))]
fn records_of(alloc: Global, bytes: &[u8]) -> Result<ElfFile<'_>, NoMemory>
    requires small { length bytes.now ≤ output_limit }
    requires reads { ElfReads bytes.now }
    ensures bytes { IfOk result (λ elf. elf.bytes.now ≡ bytes.now) }
{
    match ElfFile::read(alloc, bytes) {
        Ok(elf) => Ok(elf),
        Err(Fault::NoMemory) => Err(NoMemory),
        Err(Fault::Refused(_)) => unreachable!(),
    }
}

/// Its view.
#[tactic(auto, using(crate::proofs::ReadingLaws::file_laws))]
fn viewed<'a>(elf: &'a ElfFile<'a>) -> Result<View<'a>, NoMemory>
    requires reads { ViewReads elf.now.bytes.now }
    ensures view { IfOk result (λ view. view ≡ view_of elf.now.bytes.now) }
{
    match View::one(elf) {
        Ok(view) => Ok(view),
        Err(Fault::NoMemory) => Err(NoMemory),
        Err(Fault::Refused(_)) => unreachable!(),
    }
}

/// How much a file means that can be read: all its debug data are read for that.
#[tactic(auto, using(crate::proofs::ReadingLaws::file_laws))]
pub(crate) fn file_counts(alloc: Global, bytes: &[u8]) -> Result<Counts, NoMemory>
    requires small { length bytes.now ≤ output_limit }
    requires countable { IsCountableFile bytes.now }
    ensures counts { IfOk result (λ c. (x : Meaning) → Means bytes.now x → AreCounts x c) }
{
    let elf = records_of(alloc, bytes)?;
    let view = viewed(&elf)?;
    let counts = view_counts(alloc, &view)?;
    Ok(counts)
}
