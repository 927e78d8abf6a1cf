//! Directories and files of line tables compared, with a map applied to their paths (DWARF 5, 6.2.4).

ghost use Rattle.std.specs.Prelude.{◌≡◌, ◌↔◌, length, IsTrue};
ghost use Rattle.dw_macros.specs.EventMeanings.{text_bytes};
ghost use Rattle.dbg_check.specs.Parts.{AgreeAll};
ghost use Rattle.dbg_check.specs.Tables.{FileAgrees, PathAgrees, dirs_said, file_said, files_said};

use crate::paths::is_mapped;
use crate::texts::text_of;
use dw_base::{FilePlace, TextPlace};
use dw_paths::Maps;
use dw_view::View;

/// Whether the path at a place, with the map applied, is the one at another.
#[tactic(auto, using(crate::proofs::LineListLaws::path_laws))]
fn path_agrees(maps: &Maps, old: &View, new: &View, path: &TextPlace, other: &TextPlace) -> bool
    ensures value { IsTrue result ↔ PathAgrees maps.now (text_bytes old.now path.now) (text_bytes new.now other.now) }
{
    is_mapped(maps, text_of(old, *path), text_of(new, *other))
}

/// Whether the path of a file, with the map applied, is that of another, and their directories have the same number.
#[tactic(auto, using(crate::proofs::LineListLaws::file_laws))]
fn file_agrees(maps: &Maps, old: &View, new: &View, file: &FilePlace, other: &FilePlace) -> bool
    ensures value { IsTrue result ↔ FileAgrees maps.now (file_said old.now file.now) (file_said new.now other.now) }
{
    if file.dir != other.dir {
        return false;
    }
    path_agrees(maps, old, new, &file.text, &other.text)
}

/// Whether the path of each directory of as many agrees.
fn all_dirs(maps: &Maps, old: &View, new: &View, dirs: &[TextPlace], others: &[TextPlace]) -> bool
    requires long { length dirs.now ≡ length others.now }
    ensures value { IsTrue result ↔ AgreeAll (PathAgrees maps.now) (dirs_said old.now dirs.now) (dirs_said new.now others.now) }
{
    for (number, dir) in dirs.iter().enumerate() {
        if !path_agrees(maps, old, new, dir, &others[number]) {
            return false;
        }
    }
    true
}

/// Whether there are as many directories, and the path of each, with the map applied, is that of the other of its number.
#[tactic(auto, using(crate::proofs::ListLaws::long_laws))]
pub fn dirs_agree(
    maps: &Maps,
    old: &View,
    new: &View,
    dirs: &[TextPlace],
    others: &[TextPlace],
) -> bool
    ensures value { IsTrue result ↔ AgreeAll (PathAgrees maps.now) (dirs_said old.now dirs.now) (dirs_said new.now others.now) }
{
    if dirs.len() != others.len() {
        return false;
    }
    all_dirs(maps, old, new, dirs, others)
}

/// Whether each file of as many agrees.
fn all_files(maps: &Maps, old: &View, new: &View, files: &[FilePlace], others: &[FilePlace]) -> bool
    requires long { length files.now ≡ length others.now }
    ensures value { IsTrue result ↔ AgreeAll (FileAgrees maps.now) (files_said old.now files.now) (files_said new.now others.now) }
{
    for (number, file) in files.iter().enumerate() {
        if !file_agrees(maps, old, new, file, &others[number]) {
            return false;
        }
    }
    true
}

/// Whether there are as many files, and each has, with the map applied, the path of the other of its number, and the number of its directory.
#[tactic(auto, using(crate::proofs::ListLaws::long_laws))]
pub fn files_agree(
    maps: &Maps,
    old: &View,
    new: &View,
    files: &[FilePlace],
    others: &[FilePlace],
) -> bool
    ensures value { IsTrue result ↔ AgreeAll (FileAgrees maps.now) (files_said old.now files.now) (files_said new.now others.now) }
{
    if files.len() != others.len() {
        return false;
    }
    all_files(maps, old, new, files, others)
}
