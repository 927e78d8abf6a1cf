//! What a read or a list of the real file system finds, for `OsTree`. Neither follows a link at the
//! end of a path, nor below the root one on the way.
//!
//! This layer promises: they are safe and return, and what they find is within the limits. What the
//! system does isn't proved.
ghost use Rattle.std.specs.Prelude.{IfOk, IsTrue};
ghost use Rattle.file_tree.specs.Causes.{IsWithin, IsListed, AreInOrder};

use crate::folders::Folders;
use crate::stores::Unstored;
use file_tree::{Blob, Found, Listed, Paths, Text};
use std::alloc::Global;
use std::cmp::Ordering;
use std::fs::{Metadata, OpenFile};
use std::io::{ErrorKind, Read};
use std::os::unix::fs::{MetadataExt, PermissionsExt};
use std::rt::Files;
use std::{fs, io};

/// The 12 bits of a mode that a chmod sets.
const MODE_BITS: u32 = 0o7777;

/// A file is read so many bytes at a time.
const CHUNK: usize = 64 * 1024;

/// Who owns a file.
#[derive(Clone, Copy)]
pub(crate) struct Owner {
    pub(crate) user: u32,
    pub(crate) group: u32,
}

/// What stands at the path itself, if anything does.
pub(crate) fn what_stands<R: Files>(rt: &R, path: &str) -> io::Result<Option<Metadata>> {
    match fs::symlink_metadata(rt, path) {
        Ok(found) => Ok(Some(found)),
        Err(e) => match e.kind() {
            ErrorKind::NotFound | ErrorKind::NotADirectory => Ok(None),
            _ => Err(e),
        },
    }
}

/// Whether it is a file or a link.
pub(crate) fn is_node(found: &Metadata) -> bool {
    found.is_file() || found.is_symlink()
}

/// Whether a file or a link lies in the folder, not below those in it. These are added to the ones that are to be
/// searched.
fn has_node<R: Files + AllocGlobal + Clone + Drop>(
    rt: &R,
    folder: &str,
    to_search: &mut Vec<String>,
) -> io::Result<bool> {
    for entry in fs::read_dir(rt, folder)? {
        let entry = entry?;
        let found = entry.metadata()?;
        if is_node(&found) {
            return Ok(true);
        }
        if found.is_dir() {
            let name = entry.file_name();
            to_search.push(format!(in rt.alloc(); "{folder}/{name}")?)?;
        }
    }
    Ok(false)
}

/// Whether a file or a link lies below the folder, at any depth.
fn has_node_below<R: Files + AllocGlobal + Clone + Drop>(rt: &R, folder: &str) -> io::Result<bool> {
    let mut to_search = Vec::new(rt.alloc());
    to_search.push(String::from_str(rt.alloc(), folder)?)?;
    for _ in 0..u64::MAX {
        match to_search.pop() {
            None => break,
            Some(next) => {
                if has_node(rt, next.as_str(), &mut to_search)? {
                    return Ok(true);
                }
            }
        }
    }
    Ok(false)
}

/// What a read meets at a path below the root. What can't become a file is no answer there: what is
/// neither a file, a link nor a folder, a folder with no file and no link below it, which is none to a tree,
/// and a name that is too long, also where its folder isn't there yet.
fn stands_below_root<R: Files + AllocGlobal + Clone + Drop>(
    rt: &R,
    path: &str,
    folders: &mut Folders,
) -> io::Result<Option<Metadata>> {
    let folder = folders.find(rt, path)?;
    match what_stands(rt, path)? {
        None => {
            if folder.is_none() {
                folders.try_long_names(rt, path)?;
            }
            Ok(None)
        }
        Some(found) => {
            if is_node(&found) || found.is_dir() && has_node_below(rt, path)? {
                Ok(Some(found))
            } else {
                Err(io::Error::from(ErrorKind::AlreadyExists))
            }
        }
    }
}

/// What a read meets at any other path. No file has a name that is too long.
fn stands_elsewhere<R: Files>(rt: &R, path: &str) -> io::Result<Option<Metadata>> {
    match what_stands(rt, path) {
        Ok(found) => Ok(found),
        Err(e) => match e.kind() {
            ErrorKind::InvalidFilename => Ok(None),
            _ => Err(e),
        },
    }
}

/// Appends all that a reader gives, up to `chunk` bytes at a time. They are read to one place and copied from there: a place of
/// their own for each read would have to be filled with zeros first, which takes longer than the copy.
fn read_rest<R: Read>(
    alloc: Global,
    reader: &mut R,
    chunk: usize,
    bytes: &mut Vec<u8>,
) -> io::Result<()> {
    let mut place = Vec::new(alloc);
    place.resize(chunk, 0)?;
    for _ in 0..u64::MAX {
        match reader.read(&mut place) {
            Ok(0) => return Ok(()),
            Ok(n) => bytes.extend_from_slice(&place[..n])?,
            Err(e) => {
                if e.kind() != ErrorKind::Interrupted {
                    return Err(e);
                }
            }
        }
    }
    Err(io::Error::from(ErrorKind::InvalidData))
}

/// Reads a file that has at most `limit` bytes. Length, owner and mode are those of the file that was opened: it
/// fails where that is no plain file any more. The owner is kept where the file is given whole; with a limit of 0
/// it is only looked at.
fn read_file<R: Files + AllocGlobal>(
    rt: &R,
    path: &str,
    limit: u64,
    owner: &mut Option<Owner>,
) -> io::Result<Found>
    ensures { IfOk result (IsWithin limit) }
{
    let file = fs::open(rt, path)?;
    let found = file.metadata()?;
    if !found.is_file() {
        return Err(io::Error::from(ErrorKind::InvalidInput));
    }
    if found.len() > limit {
        return Ok(Found::TooLarge { size: found.len() });
    }
    // A byte more than the file has: there is room for one where it has none, and its end is met by a read that gives nothing.
    let room = (found.len() as usize).saturating_add(1);
    let mut bytes = Vec::with_capacity(rt.alloc(), room)?;
    let mut rest = file.take(limit.saturating_add(1));
    read_rest(rt.alloc(), &mut rest, room.min(CHUNK), &mut bytes)?;
    if bytes.len() as u64 > limit {
        let size = bytes.len() as u64;
        return Ok(Found::TooLarge { size });
    }
    if limit > 0 {
        *owner = Some(Owner {
            user: found.uid(),
            group: found.gid(),
        });
    }
    let mode = found.permissions().mode() & MODE_BITS;
    Ok(Found::File {
        bytes: Blob::new(bytes),
        mode,
    })
}

/// What is at the path where this stands. A file that is too large isn't opened, so that a look at one needs no
/// leave to read it.
fn read_found<R: Files + AllocGlobal>(
    rt: &R,
    path: &str,
    found: &Metadata,
    limit: u64,
    owner: &mut Option<Owner>,
) -> io::Result<Found>
    ensures { IfOk result (IsWithin limit) }
{
    if found.is_dir() {
        Ok(Found::Folder)
    } else if found.is_symlink() {
        let target = fs::read_link(rt, path)?;
        let target = Text::copy_of(rt.alloc(), target.as_str())?;
        Ok(Found::Link { target })
    } else if found.is_file() {
        if found.len() > limit {
            return Ok(Found::TooLarge { size: found.len() });
        }
        read_file(rt, path, limit, owner)
    } else {
        Ok(Found::Absent)
    }
}

/// What is at the path.
pub(crate) fn read_at<R: Files + AllocGlobal + Clone + Drop>(
    rt: &R,
    path: &str,
    limit: u64,
    folders: &mut Folders,
    owner: &mut Option<Owner>,
) -> io::Result<Found>
    ensures { IfOk result (IsWithin limit) }
{
    let stands = if folders.is_below_root(path) {
        stands_below_root(rt, path, folders)?
    } else {
        stands_elsewhere(rt, path)?
    };
    match stands {
        None => Ok(Found::Absent),
        Some(found) => {
            if is_node(&found) {
                folders.note_read(rt, path)?;
            }
            read_found(rt, path, &found, limit, owner)
        }
    }
}

/// Adds what lies in the folder: files and links to the paths, folders to those that are to be listed,
/// which are met by that.
fn list_folder<R: Files + AllocGlobal + Clone + Drop>(
    rt: &R,
    folder: &str,
    paths: &mut Vec<String>,
    to_list: &mut Vec<String>,
    folders: &mut Folders,
) -> io::Result<()> {
    for entry in fs::read_dir(rt, folder)? {
        let entry = entry?;
        let name = entry.file_name();
        let path = format!(in rt.alloc(); "{folder}/{name}")?;
        let found = entry.metadata()?;
        if found.is_dir() {
            folders.know(rt.alloc(), path.as_str(), &found, true)?;
            to_list.push(path)?;
        } else if is_node(&found) {
            paths.push(path)?;
        }
    }
    Ok(())
}

/// The folder alone, if it is there: the first that a list of it walks.
fn first_to_list<R: Files + AllocGlobal>(
    rt: &R,
    folder: &str,
    folders: &mut Folders,
    unstored: &mut Unstored<R>,
) -> io::Result<Vec<String>> {
    let mut to_list = Vec::new(rt.alloc());
    folders.find(rt, folder)?;
    if what_stands(rt, folder)?.is_some_and(|found| found.is_dir()) {
        folders.make(rt, folder, unstored)?;
        to_list.push(String::from_str(rt.alloc(), folder)?)?;
    }
    Ok(to_list)
}

/// All paths below the folder, up to some more than the limit. Each folder that is walked is noted: a
/// process that was killed may have left names in it that aren't stored.
fn paths_below<R: Files + AllocGlobal + Clone + Drop>(
    rt: &R,
    folder: &str,
    limit: u64,
    folders: &mut Folders,
    unstored: &mut Unstored<R>,
) -> io::Result<Vec<String>> {
    let mut paths = Vec::new(rt.alloc());
    let mut to_list = first_to_list(rt, folder, folders, unstored)?;
    for _ in 0..u64::MAX {
        if paths.len() as u64 > limit {
            break;
        }
        match to_list.pop() {
            None => break,
            Some(next) => {
                unstored.note_seen(rt.alloc(), next.as_str())?;
                list_folder(rt, next.as_str(), &mut paths, &mut to_list, folders)?;
            }
        }
    }
    Ok(paths)
}

/// Whether each path is above the one before it, in byte order.
#[tactic(auto, using(crate::proofs::RisingLaws::rising_laws))]
fn are_rising(paths: &Paths) -> bool
    ensures { IsTrue result → AreInOrder paths.now }
{
    let texts = paths.as_slice();
    for i in 1..texts.len() {
        let above = texts[i].as_str();
        match texts[i - 1].as_str().cmp(&above) {
            Ordering::Less => {}
            _ => return false,
        }
    }
    true
}

/// The paths of files and links below the folder.
pub(crate) fn list_at<R: Files + AllocGlobal + Clone + Drop>(
    rt: &R,
    folder: &str,
    limit: u64,
    folders: &mut Folders,
    unstored: &mut Unstored<R>,
) -> io::Result<Listed>
    ensures { IfOk result (IsListed limit) }
{
    folders.take_root(rt.alloc(), folder)?;
    let mut paths = paths_below(rt, folder, limit, folders, unstored)?;
    paths.sort_unstable();
    paths.dedup();
    let paths = Paths::new(paths);
    if paths.len() as u64 > limit {
        return Ok(Listed::TooMany);
    }
    if are_rising(&paths) {
        Ok(Listed::Paths(paths))
    } else {
        Err(io::Error::from(ErrorKind::InvalidData))
    }
}
