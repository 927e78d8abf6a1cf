//! The sources of a file's debug data.

ghost use Rattle.std.specs.Prelude.{map, IfErr, IfOk, OnOk};
ghost use Rattle.dw_base.specs.Refusals.{Blames};
ghost use Rattle.dw_base.specs.ViewData.{debug_data};
ghost use Rattle.dw_base.specs.declared.fault.Refusal.{Refusal as RefusalOf};
ghost use Rattle.dw_lines.specs.ViewTables.{TablesFound};
ghost use Rattle.dw_sources.specs.KeptNames.{bytes_of};
ghost use Rattle.dw_sources.specs.Sources.{AreSources, IsWant, SourcesFail};

use crate::fronts::Fronts;
use crate::names::none_found;
use crate::tables::tables_by_start;
use crate::units::add_all;
use dw_base::Fault;
use dw_lines::{LineTable, line_tables};
use dw_offsets::contributions;
use dw_paths::Maps;
use dw_view::View;
use std::alloc::Global;

/// The names of the sources below the bases of a prefix map.
#[tactic(auto, using(crate::proofs::SourceLaws::source_rules))]
fn names_below(alloc: Global, view: &View, maps: &Maps) -> Result<Vec<Vec<u8>>, Fault>
    ensures sources { IfOk result (λ names. AreSources (debug_data view.now) maps.now (map bytes_of names.items)) }
    ensures refused { IfErr result (Blames (SourcesFail (debug_data view.now))) }
{
    let tables = line_tables(alloc, view)?;
    let names = names_by_tables(alloc, view, maps, tables)?;
    Ok(names)
}

/// The same by the view's line tables.
#[tactic(auto, using(crate::proofs::SourceLaws::source_rules))]
fn names_by_tables(
    alloc: Global,
    view: &View,
    maps: &Maps,
    tables: Vec<LineTable>,
) -> Result<Vec<Vec<u8>>, Fault>
    requires tables { TablesFound view.now tables.items }
    ensures sources { IfOk result (λ names. AreSources (debug_data view.now) maps.now (map bytes_of names.items)) }
    ensures refused { IfErr result (Blames (SourcesFail (debug_data view.now))) }
{
    let fronts = Fronts::new(alloc, maps)?;
    let list = contributions(alloc, view)?;
    let tables = tables_by_start(alloc, view, tables)?;
    let mut found = none_found(alloc);
    add_all(alloc, view, &list, &tables, &fronts, &mut found)?;
    let names = found.names.in_order(alloc)?;
    Ok(names)
}

/// The sources below the bases of a prefix map that the debug data of a view name: the names and the files of
/// units, joined with the folder in which the unit was compiled, cleaned, and with the longest cleaned base
/// that they begin with and a slash cut off; in byte order and each once, from texts that aren't mapped. A unit
/// or a file whose own text begins with `<` isn't among them.
/// Refused exactly where a condition of `SourcesFail` holds, at its place: by the units and their abbreviations,
/// by the contributions of string offsets as `StringTable`, and by the line tables as `Line` and `StringOffset`.
/// Where all debug data can be read, there is no refusal.
#[tactic(auto, using(crate::proofs::ExcludeLaws::want_rules))]
pub fn sources(alloc: Global, view: &View, maps: &Maps) -> Result<Vec<Vec<u8>>, Fault>
    ensures sources { IfOk result (λ names. AreSources (debug_data view.now) maps.now (map bytes_of names.items)) }
    ensures none { OnOk result ((r : RefusalOf) → SourcesFail (debug_data view.now) r → ⊥) }
    ensures refused { IfErr result (Blames (SourcesFail (debug_data view.now))) }
    ensures completes { IfErr result (IsWant (debug_data view.now)) }
{
    match names_below(alloc, view, maps) {
        Ok(names) => Ok(names),
        Err(fault) => Err(fault),
    }
}

/// The sources that `sources` gives, by the line tables of the view (`dw_lines::line_tables`), which a caller has read: they aren't
/// read again. Refused as `sources` is.
#[tactic(auto, using(crate::proofs::ExcludeLaws::want_rules))]
pub fn sources_by_tables(
    alloc: Global,
    view: &View,
    maps: &Maps,
    tables: Vec<LineTable>,
) -> Result<Vec<Vec<u8>>, Fault>
    requires tables { TablesFound view.now tables.items }
    ensures sources { IfOk result (λ names. AreSources (debug_data view.now) maps.now (map bytes_of names.items)) }
    ensures none { OnOk result ((r : RefusalOf) → SourcesFail (debug_data view.now) r → ⊥) }
    ensures refused { IfErr result (Blames (SourcesFail (debug_data view.now))) }
    ensures completes { IfErr result (IsWant (debug_data view.now)) }
{
    match names_by_tables(alloc, view, maps, tables) {
        Ok(names) => Ok(names),
        Err(fault) => Err(fault),
    }
}
