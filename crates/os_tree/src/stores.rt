//! What the next settle of the real file system has to store: files that were put, held open, and
//! folders in which names changed.
//!
//! This layer promises: it is safe and returns. What the system stores isn't proved.
use crate::folders::folder_of;
use std::alloc::{AllocError, Global};
use std::collections::BTreeSet;
use std::fs::OpenFile;
use std::io::ErrorKind;
use std::rt::Files;
use std::{fs, io};

/// At most so many files are held open: a process may have 1024 on a usual system.
const MOST_OPEN: usize = 64;

/// Files and folders that aren't stored yet.
#[derive(Drop)]
pub(crate) struct Unstored<R: Files> {
    files: Vec<R::File>,
    // the folders in which this process changed names, in the order of the first change, and as a set
    changed: Vec<String>,
    changed_set: BTreeSet<String>,
    // the folders in which another process may have changed names before this one began
    seen: BTreeSet<String>,
    // the system failed to store a file or a folder, and may say of it later that it is stored
    lost: bool,
}

/// Opens a folder in which this process changed names; one that isn't there has none.
fn open_changed<R: Files>(rt: &R, folder: &str) -> io::Result<Option<R::File>> {
    match fs::open(rt, folder) {
        Ok(open) => Ok(Some(open)),
        Err(e) => match e.kind() {
            ErrorKind::NotFound => Ok(None),
            _ => Err(e),
        },
    }
}

/// Opens a folder in which another process may have changed names, where the system lets it.
fn open_seen<R: Files>(rt: &R, folder: &str) -> io::Result<Option<R::File>> {
    match open_changed(rt, folder) {
        Ok(open) => Ok(open),
        Err(e) => match e.kind() {
            ErrorKind::PermissionDenied => Ok(None),
            _ => Err(e),
        },
    }
}

impl<R: Files> Unstored<R> {
    /// Nothing.
    pub(crate) fn new(alloc: Global) -> Unstored<R> {
        Unstored {
            files: Vec::new(alloc),
            changed: Vec::new(alloc),
            changed_set: BTreeSet::new(alloc),
            seen: BTreeSet::new(alloc),
            lost: false,
        }
    }

    /// Notes that the path's name changes.
    pub(crate) fn note_name(&mut self, alloc: Global, path: &str) -> Result<(), AllocError> {
        let folder = folder_of(path);
        if self.changed_set.contains(folder) {
            return Ok(());
        }
        self.changed.push(String::from_str(alloc, folder)?)?;
        self.changed_set.insert(String::from_str(alloc, folder)?)?;
        Ok(())
    }

    /// Notes that names in the folder may have changed before this process began.
    pub(crate) fn note_seen(&mut self, alloc: Global, folder: &str) -> Result<(), AllocError> {
        self.seen.insert(String::from_str(alloc, folder)?)?;
        Ok(())
    }

    /// Takes a file that was written. Where as many are held as may be, those are stored first.
    pub(crate) fn add_file(&mut self, file: R::File) -> io::Result<()> {
        if self.files.len() >= MOST_OPEN {
            self.store_files()?;
        }
        self.files.push(file)?;
        Ok(())
    }

    /// Stores the bytes and modes of the files.
    fn store_files(&mut self) -> io::Result<()> {
        for file in self.files.iter() {
            let stored = file.sync_all();
            if stored.is_err() {
                self.lost = true;
                return stored;
            }
        }
        self.files.clear();
        Ok(())
    }

    /// Stores the names in the folders that this process changed, in the order of the first change: a
    /// system that stores them one by one then has no later change without an earlier one.
    fn store_changed(&mut self, rt: &R) -> io::Result<()> {
        for folder in &self.changed {
            if let Some(open) = open_changed(rt, folder.as_str())? {
                let stored = open.sync_all();
                if stored.is_err() {
                    self.lost = true;
                    return stored;
                }
            }
        }
        Ok(())
    }

    /// Stores the names in the other folders.
    fn store_seen(&mut self, rt: &R) -> io::Result<()> {
        for folder in &self.seen {
            if self.changed_set.contains(folder.as_str()) {
                continue;
            }
            if let Some(open) = open_seen(rt, folder.as_str())? {
                let stored = open.sync_all();
                if stored.is_err() {
                    self.lost = true;
                    return stored;
                }
            }
        }
        Ok(())
    }

    /// Stores all: the files, and then the names in the folders.
    pub(crate) fn store(&mut self, rt: &R) -> io::Result<()> {
        if self.lost {
            return Err(io::Error::from(ErrorKind::Other));
        }
        self.store_files()?;
        self.store_changed(rt)?;
        self.store_seen(rt)?;
        self.changed.clear();
        self.changed_set.clear();
        self.seen.clear();
        Ok(())
    }
}
