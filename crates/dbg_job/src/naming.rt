//! The names of the sources of a file that is edited.

ghost use Rattle.std.specs.Prelude.{◌≡◌, ◌≤◌, length, map, IfErr, IfOk};
ghost use Rattle.dw_base.specs.FileViews.{view_of};
ghost use Rattle.dw_base.specs.Layout.{output_limit};
ghost use Rattle.dw_base.specs.declared.fault.Fault.TheVariants as fault;
ghost use Rattle.dw_lines.specs.ViewTables.{TablesFound};
ghost use Rattle.dw_meaning.specs.EditRows.{IsAccepted};
ghost use Rattle.dw_meaning.specs.FileMeanings.{file_data};
ghost use Rattle.dw_sources.specs.KeptNames.{bytes_of};
ghost use Rattle.dw_sources.specs.Sources.{AreSources};

use dw_base::{Fault, NoMemory};
use dw_lines::LineTable;
use dw_paths::Maps;
use dw_sources::sources_by_tables;
use dw_view::View;
use elf_file::ElfFile;
use job_types::Sources;
use std::alloc::Global;

/// The names of the sources of a file that is taken with a prefix map: those below the map's bases that its debug data name,
/// before they are mapped, with the longest such base cut off, in byte order and each once. The line tables of the file are those that
/// `edited` gives beside its output; they aren't read again. Want of memory alone is in the way.
pub fn source_names(
    alloc: Global,
    bytes: &[u8],
    maps: &Maps,
    tables: Vec<LineTable>,
) -> Result<Sources, NoMemory>
    requires small { length bytes.now ≤ output_limit }
    requires accepted { IsAccepted maps.now bytes.now }
    requires tables { TablesFound (view_of bytes.now) tables.items }
    ensures sources { IfOk result (λ names. AreSources (file_data bytes.now) maps.now names) }
{
    match names_below(alloc, bytes, maps, tables) {
        Ok(names) => Ok(Sources::new(names)),
        Err(_) => Err(NoMemory),
    }
}

/// These names in a vector.
#[tactic(auto, using(crate::proofs::SourceLaws::name_rules))]
fn names_below(
    alloc: Global,
    bytes: &[u8],
    maps: &Maps,
    tables: Vec<LineTable>,
) -> Result<Vec<Vec<u8>>, Fault>
    requires small { length bytes.now ≤ output_limit }
    requires accepted { IsAccepted maps.now bytes.now }
    requires tables { TablesFound (view_of bytes.now) tables.items }
    ensures sources { IfOk result (λ names. AreSources (file_data bytes.now) maps.now (map bytes_of names.items)) }
    ensures memory { IfErr result (λ f. f ≡ fault.NoMemory) }
{
    let elf = ElfFile::read(alloc, bytes)?;
    let view = View::one(&elf)?;
    let names = sources_by_tables(alloc, &view, maps, tables)?;
    Ok(names)
}
