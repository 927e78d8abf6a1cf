//! The paths that a unit names, added to the names of sources (DWARF 5, 3.1.1 and 6.2.4).
//!
//! Read first: `specs/UnitPaths.antt`.

ghost use Rattle.std.specs.Prelude.{◌≡◌, ◌≤◌, length, nat_eq, option_map, OnOk};
ghost use Rattle.std.specs.HashMap.{get};
ghost use Rattle.dw_base.specs.DebugData.{line_source};
ghost use Rattle.dw_base.specs.FileViews.{section_bytes};
ghost use Rattle.dw_base.specs.LineMeanings.{item_at};
ghost use Rattle.dw_base.specs.ViewData.{debug_data};
ghost use Rattle.dw_entries.specs.Fronts.{IsOfView};
ghost use Rattle.dw_entries.specs.ViewUnits.{unit_section_at};
ghost use Rattle.dw_sources.specs.JoinedFiles.{AreJoined};
ghost use Rattle.dw_sources.specs.KeptNames.{with_paths};
ghost use Rattle.dw_sources.specs.UnitPaths.{dir_place, dir_text, file_path, files_paths, folder_of, is_made_up, lines_paths, listed, paths_in, root_paths, table_paths, unit_path};
ghost use Rattle.dw_paths.specs.CleanPaths.{joined_path};

use crate::fronts::Fronts;
use crate::name_set::NameSet;
use crate::names::{FoundNames, add_path, mark};
use crate::offsets::root_offset;
use crate::roots::Root;
use crate::texts::{place_text, value_text};
use dw_base::{DebugSection, FilePlace, NoMemory, TextPlace};
use dw_lines::LineTable;
use dw_offsets::ContributionList;
use dw_paths::join_path;
use dw_view::View;
use std::alloc::Global;
use std::collections::HashMap;

/// A text that names no file, as `<built-in>`.
fn is_made_up(text: &[u8]) -> bool
    ensures value { result ≡ is_made_up text.now }
{
    text.starts_with(b"<")
}

/// Adds the path of a name in a folder, but for a name that is made up.
#[tactic(auto, using(crate::proofs::PathLaws::named_rules))]
fn add_named(
    alloc: Global,
    fronts: &Fronts,
    folder: &[u8],
    name: &[u8],
    names: &mut NameSet,
) -> Result<(), NoMemory>
    ensures value { OnOk result (names.new ≡ with_paths fronts.now names.old (listed name.now (joined_path folder.now name.now))) }
{
    if is_made_up(name) {
        return Ok(());
    }
    let path = join_path(alloc, folder, name)?;
    add_path(alloc, fronts, &path, names)?;
    Ok(())
}

/// Adds the path of a unit, where it has a name.
fn add_unit_path(
    alloc: Global,
    fronts: &Fronts,
    folder: &[u8],
    name: Option<&[u8]>,
    names: &mut NameSet,
) -> Result<(), NoMemory>
    ensures value { OnOk result (names.new ≡ with_paths fronts.now names.old (unit_path folder.now (option_map (λ t. t.now) name.entry))) }
{
    match name {
        Some(name) => add_named(alloc, fronts, folder, name, names),
        None => Ok(()),
    }
}

/// The place of a number in a list, where it has one.
#[tactic(auto, using(crate::proofs::PathLaws::item_rules))]
fn item_at(places: &[TextPlace], number: u64) -> Option<TextPlace>
    ensures value { result ≡ item_at places.now number }
{
    if number >= places.len() as u64 {
        return None;
    }
    Some(places[number as usize])
}

/// Where the text of a directory of a table stands; none where the table hasn't one of this number.
fn dir_place(table: &LineTable, number: u64) -> Option<TextPlace>
    ensures value { result ≡ dir_place table.now.version table.now.dirs number }
{
    if table.version == 5 {
        return item_at(&table.dirs, number);
    }
    item_at(&table.dirs, number.saturating_sub(1))
}

/// The text of a directory of a table, which is empty for the folder itself.
fn dir_text<'v>(view: &'v View, table: &LineTable, number: u64) -> Option<&'v [u8]>
    ensures value { option_map (λ t. t.now) result ≡ dir_text (line_source (debug_data view.now)) table.now.version table.now.dirs number }
{
    if table.version != 5 && number == 0 {
        return Some(b"");
    }
    match dir_place(table, number) {
        Some(place) => Some(place_text(view, &place)),
        None => None,
    }
}

/// Adds the path of a file of a table, of a unit that was compiled in a folder.
fn add_file(
    alloc: Global,
    view: &View,
    fronts: &Fronts,
    folder: &[u8],
    table: &LineTable,
    file: &FilePlace,
    names: &mut NameSet,
) -> Result<(), NoMemory>
    ensures value { OnOk result (names.new ≡ with_paths fronts.now names.old (file_path (line_source (debug_data view.now)) folder.now table.now file.now)) }
{
    let Some(dir) = dir_text(view, table, file.dir) else {
        return Ok(());
    };
    let dir = join_path(alloc, folder, dir)?;
    add_named(alloc, fronts, &dir, place_text(view, &file.text), names)?;
    Ok(())
}

/// Adds the paths of files of a table.
#[tactic(auto, using(crate::proofs::PathLaws::files_rules))]
fn add_files(
    alloc: Global,
    view: &View,
    fronts: &Fronts,
    folder: &[u8],
    table: &LineTable,
    files: &[FilePlace],
    names: &mut NameSet,
) -> Result<(), NoMemory>
    ensures value { OnOk result (names.new ≡ with_paths fronts.now names.old (files_paths (line_source (debug_data view.now)) folder.now table.now files.now)) }
{
    for file in files {
        add_file(alloc, view, fronts, folder, table, file, names)?;
    }
    Ok(())
}

/// Adds those of the table that a unit names, where it names one, and they weren't joined with its folder before.
#[tactic(auto, using(crate::proofs::JoinLaws::lines_rules))]
fn add_lines(
    alloc: Global,
    view: &View,
    tables: &HashMap<u64, LineTable>,
    fronts: &Fronts,
    folder: &[u8],
    lines: Option<u64>,
    found: &mut FoundNames,
) -> Result<(), NoMemory>
    requires joined { AreJoined (debug_data view.now) (λ at. get nat_eq tables.now at) fronts.now found.old.names found.old.joined.keys }
    ensures joined { OnOk result (AreJoined (debug_data view.now) (λ at. get nat_eq tables.now at) fronts.now found.new.names found.new.joined.keys) }
    ensures value { OnOk result (found.new.names ≡ with_paths fronts.now found.old.names (lines_paths (line_source (debug_data view.now)) (λ at. get nat_eq tables.now at) folder.now lines)) }
{
    let Some(start) = lines else {
        return Ok(());
    };
    let Some(table) = tables.get(&start) else {
        return Ok(());
    };
    if mark(alloc, start, folder, &mut found.joined)? {
        add_files(
            alloc,
            view,
            fronts,
            folder,
            table,
            &table.files,
            &mut found.names,
        )?;
    }
    Ok(())
}

/// The folder of a unit: empty where it says none.
fn folder_of<'t>(folder: Option<&'t [u8]>) -> &'t [u8]
    ensures value { result.now ≡ folder_of (option_map (λ t. t.now) folder.entry) }
{
    match folder {
        Some(folder) => folder,
        None => b"",
    }
}

/// Adds the paths of a unit, compiled in a folder, with a name and a line table.
#[tactic(auto, using(crate::proofs::PathLaws::unit_rules))]
fn add_paths(
    alloc: Global,
    view: &View,
    tables: &HashMap<u64, LineTable>,
    fronts: &Fronts,
    folder: &[u8],
    name: Option<&[u8]>,
    lines: Option<u64>,
    found: &mut FoundNames,
) -> Result<(), NoMemory>
    requires joined { AreJoined (debug_data view.now) (λ at. get nat_eq tables.now at) fronts.now found.old.names found.old.joined.keys }
    ensures joined { OnOk result (AreJoined (debug_data view.now) (λ at. get nat_eq tables.now at) fronts.now found.new.names found.new.joined.keys) }
    ensures value { OnOk result (found.new.names ≡ with_paths fronts.now found.old.names (paths_in (debug_data view.now) (λ at. get nat_eq tables.now at) folder.now (option_map (λ t. t.now) name.entry) lines)) }
{
    add_unit_path(alloc, fronts, folder, name, &mut found.names)?;
    add_lines(alloc, view, tables, fronts, folder, lines, found)?;
    Ok(())
}

/// Adds the paths of a unit whose first entry says this, of a section, and which has these bytes up to its end.
#[tactic(auto, using(crate::proofs::PathLaws::root_rules))]
pub(crate) fn add_root(
    alloc: Global,
    view: &View,
    list: &ContributionList,
    tables: &HashMap<u64, LineTable>,
    fronts: &Fronts,
    section: u32,
    bytes: &[u8],
    root: Root,
    found: &mut FoundNames,
) -> Result<(), NoMemory>
    requires unit { IsOfView view.now section (unit_section_at view.now section) }
    requires inside { length bytes.now ≤ length (section_bytes view.now section) }
    requires joined { AreJoined (debug_data view.now) (λ at. get nat_eq tables.now at) fronts.now found.old.names found.old.joined.keys }
    ensures joined { OnOk result (AreJoined (debug_data view.now) (λ at. get nat_eq tables.now at) fronts.now found.new.names found.new.joined.keys) }
    ensures value { OnOk result (found.new.names ≡ with_paths fronts.now found.old.names (root_paths (debug_data view.now) list.now (λ at. get nat_eq tables.now at) (unit_section_at view.now section) bytes.now root)) }
{
    let base = root_offset(view, section, bytes, DebugSection::StrOffsets, root.base);
    let lines = root_offset(view, section, bytes, DebugSection::Line, root.lines);
    let folder = folder_of(value_text(view, list, section, bytes, base, root.comp_dir));
    let name = value_text(view, list, section, bytes, base, root.name);
    add_paths(alloc, view, tables, fronts, folder, name, lines, found)?;
    Ok(())
}
