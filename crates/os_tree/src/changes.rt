//! The changes of the real file system, for `OsTree`. None follows a link at the end of a path, and
//! none takes away what is neither a file nor a link.
//!
//! This layer promises: they are safe and return. What the system does isn't proved.
use crate::folders::Folders;
use crate::looks::{Owner, is_node, what_stands};
use crate::stores::Unstored;
use file_tree::Node;
use std::fs::{OpenFile, OpenOptions, Permissions};
use std::io::{ErrorKind, Write};
use std::os::unix::fs::{MetadataExt, OpenOptionsExt, PermissionsExt, lchown, symlink};
use std::rt::Files;
use std::{fs, io};

/// The bits of a mode by which a program runs as its file's owner or group.
const SET_ID_BITS: u32 = 0o6000;

/// What a change finds at a path.
#[derive(Clone, Copy)]
enum Occupant {
    Nothing,
    /// A file or a link.
    Node,
    /// A folder, a device, a pipe or a socket.
    Other,
}

/// What is at the path itself.
fn occupant_of<R: Files>(rt: &R, path: &str) -> io::Result<Occupant> {
    match what_stands(rt, path)? {
        None => Ok(Occupant::Nothing),
        Some(found) => {
            if is_node(&found) {
                Ok(Occupant::Node)
            } else {
                Ok(Occupant::Other)
            }
        }
    }
}

/// The error where a path holds what no change may take away.
fn in_the_way() -> io::Error {
    io::Error::from(ErrorKind::AlreadyExists)
}

/// Takes away the file or the link at the path, if there is one. Where anything else is there, it fails.
fn clear_path<R: Files>(rt: &R, path: &str) -> io::Result<()> {
    match occupant_of(rt, path)? {
        Occupant::Nothing => Ok(()),
        Occupant::Node => fs::remove_file(rt, path),
        Occupant::Other => Err(in_the_way()),
    }
}

/// Whether the file belongs to this owner.
fn belongs_to(file: &impl OpenFile, owner: Owner) -> io::Result<bool> {
    let found = file.metadata()?;
    Ok(found.uid() == owner.user && found.gid() == owner.group)
}

/// Gives the file to the owner: it fails where the system doesn't let one.
fn give_to<R: Files>(rt: &R, path: &str, file: &R::File, owner: Owner) -> io::Result<()> {
    if belongs_to(file, owner)? {
        return Ok(());
    }
    lchown(rt, path, Some(owner.user), Some(owner.group))?;
    if belongs_to(file, owner)? {
        Ok(())
    } else {
        Err(io::Error::from(ErrorKind::PermissionDenied))
    }
}

/// Sets exactly this mode. A file that is to run as its owner or its group is given to the owner before; it fails
/// where none is known.
fn set_mode<R: Files>(
    rt: &R,
    path: &str,
    file: &R::File,
    mode: u32,
    owner: Option<Owner>,
) -> io::Result<()> {
    if mode & SET_ID_BITS != 0 {
        match owner {
            None => return Err(io::Error::from(ErrorKind::PermissionDenied)),
            Some(owner) => give_to(rt, path, file, owner)?,
        }
    }
    file.set_permissions(Permissions::from_mode(mode))
}

/// Writes the pieces to a new file, one behind another.
fn write_pieces(file: &mut impl Write, pieces: &[&[u8]]) -> io::Result<()> {
    for piece in pieces {
        file.write_all(piece)?;
    }
    Ok(())
}

/// Fills the new file with these pieces and sets its mode.
fn fill_file<R: Files>(
    rt: &R,
    path: &str,
    file: &mut R::File,
    pieces: &[&[u8]],
    mode: u32,
    owner: Option<Owner>,
) -> io::Result<()> {
    write_pieces(file, pieces)?;
    set_mode(rt, path, file, mode, owner)
}

/// Makes a new file of these pieces, with exactly this mode. It isn't stored yet. Where that fails, there is none.
fn make_file<R: Files>(
    rt: &R,
    path: &str,
    pieces: &[&[u8]],
    mode: u32,
    owner: Option<Owner>,
) -> io::Result<R::File> {
    let mut file = OpenOptions::new()
        .write(true)
        .create_new(true)
        .mode(0o600)
        .open(rt, path)?;
    match fill_file(rt, path, &mut file, pieces, mode, owner) {
        Ok(()) => Ok(file),
        Err(e) => {
            let _ = fs::remove_file(rt, path);
            Err(e)
        }
    }
}

/// Sets the path to the node, in a folder that is there.
pub(crate) fn put_at<R: Files>(
    rt: &R,
    path: &str,
    node: &Node,
    owner: Option<Owner>,
    unstored: &mut Unstored<R>,
) -> io::Result<()> {
    match node {
        Node::File { bytes, mode } => {
            put_file_at(rt, path, &[bytes.as_slice()], *mode, owner, unstored)
        }
        Node::Link { target } => {
            clear_path(rt, path)?;
            symlink(rt, target.as_str(), path)
        }
    }
}

/// Sets the path to a file of these pieces, in a folder that is there.
pub(crate) fn put_file_at<R: Files>(
    rt: &R,
    path: &str,
    pieces: &[&[u8]],
    mode: u32,
    owner: Option<Owner>,
    unstored: &mut Unstored<R>,
) -> io::Result<()> {
    clear_path(rt, path)?;
    unstored.add_file(make_file(rt, path, pieces, mode, owner)?)
}

/// Gets ready for a put at the path: makes the folders in which it lies, and notes that its name changes.
pub(crate) fn ready_to_put<R: Files + AllocGlobal>(
    rt: &R,
    path: &str,
    folders: &mut Folders,
    unstored: &mut Unstored<R>,
) -> io::Result<()> {
    folders.make_for(rt, path, unstored)?;
    unstored.note_name(rt.alloc(), path)?;
    Ok(())
}

/// Whether a file or a link is at the path, whose folder is looked at. It fails where the path lies below the root
/// and what is no folder and no file is on the way to it.
fn holds_node<R: Files + AllocGlobal>(
    rt: &R,
    path: &str,
    folders: &mut Folders,
) -> io::Result<bool> {
    folders.find(rt, path)?;
    Ok(matches!(occupant_of(rt, path)?, Occupant::Node))
}

/// Gets ready to move what is at the one path to the other; whether a file or a link is there to be moved. Where
/// anything but a file or a link is at the other, it fails.
pub(crate) fn ready_to_move<R: Files + AllocGlobal>(
    rt: &R,
    from: &str,
    to: &str,
    folders: &mut Folders,
    unstored: &mut Unstored<R>,
) -> io::Result<bool> {
    unstored.note_name(rt.alloc(), from)?;
    if !holds_node(rt, from, folders)? {
        return Ok(false);
    }
    ready_to_put(rt, to, folders, unstored)?;
    let is_blocked = matches!(occupant_of(rt, to)?, Occupant::Other);
    if is_blocked {
        return Err(in_the_way());
    }
    Ok(true)
}

/// Gets ready to take away what is at the path; whether a file or a link is there.
pub(crate) fn ready_to_remove<R: Files + AllocGlobal>(
    rt: &R,
    path: &str,
    folders: &mut Folders,
    unstored: &mut Unstored<R>,
) -> io::Result<bool> {
    unstored.note_name(rt.alloc(), path)?;
    holds_node(rt, path, folders)
}
