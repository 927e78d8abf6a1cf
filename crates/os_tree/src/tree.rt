//! The real file system as a tree. It tells nothing of what it holds.
//!
//! This layer promises: a call fails only where the count of faults rose, and what it finds is within
//! the limits and in order. It does not promise what the system keeps: that is trusted.
ghost use Rattle.std.specs.Prelude.{◌≡◌, ◌≤◌, ◌+◌, ◌↔◌, false, IfOk, IsOk, OnOk, Ok, IsErrOf};
ghost use Rattle.file_tree.specs.Seen.{no_past};
ghost use Rattle.file_tree.specs.Causes.{Rose};

use crate::changes::{put_at, put_file_at, ready_to_move, ready_to_put, ready_to_remove};
use crate::folders::Folders;
use crate::looks::{Owner, list_at, read_at};
use crate::stores::Unstored;
use file_tree::{Found, Listed, Node, Tree, TreeErr};
use std::rt::Files;
use std::{fs, io};

/// A tree over the file system of a runtime.
#[derive(Drop)]
pub struct OsTree<R: Files> {
    rt: R,
    faults: u64,
    unstored: Unstored<R>,
    folders: Folders,
    // of the last file that a read gave whole
    owner: Option<Owner>,
}

impl<R: Files + AllocGlobal + Clone + Drop> OsTree<R> {
    /// The file system of the runtime.
    pub fn new(rt: R) -> OsTree<R>
        ensures seen { ⟦<OsTree<R> as Tree>⟧.seen result ≡ record { tells = false; past = no_past; faults = 0 } }
    {
        let unstored = Unstored::new(rt.alloc());
        let folders = Folders::new(rt.alloc());
        OsTree {
            rt,
            faults: 0,
            unstored,
            folders,
            owner: None,
        }
    }

    /// The answer of a call that failed.
    fn fault(&mut self) -> TreeErr
        ensures answer { result ≡ TreeErr.Failed }
        ensures later { self.old.faults ≤ self.new.faults }
        ensures rose { Rose self.old.faults self.new.faults }
    {
        self.faults = self.faults.saturating_add(1);
        TreeErr::Failed
    }

    /// The answer of a call or of a part of it that changes no path: want of memory is no fault.
    fn answered<T: Drop>(&mut self, given: io::Result<T>) -> Result<T, TreeErr>
        ensures same { IfOk result (λ v. given ≡ Ok v) }
        ensures gives { OnOk given (IsOk result) }
        ensures well { OnOk result (self.new.faults ≡ self.old.faults) }
        ensures later { self.old.faults ≤ self.new.faults }
        ensures failed { IsErrOf result TreeErr.Failed → Rose self.old.faults self.new.faults }
        ensures no_memory { IsErrOf result TreeErr.NoMemory → self.new.faults ≡ self.old.faults }
    {
        match given {
            Ok(found) => Ok(found),
            Err(e) => match e.kind() {
                io::ErrorKind::OutOfMemory => Err(TreeErr::NoMemory),
                _ => Err(self.fault()),
            },
        }
    }

    /// The answer of a call that may have changed something.
    fn done(&mut self, given: io::Result<()>) -> Result<(), TreeErr>
        ensures same { IsOk result ↔ IsOk given }
        ensures well { OnOk result (self.new.faults ≡ self.old.faults) }
        ensures later { self.old.faults ≤ self.new.faults }
        ensures failed { IsErrOf result TreeErr.Failed → Rose self.old.faults self.new.faults }
        ensures no_memory { IsErrOf result TreeErr.NoMemory → self.new.faults ≡ self.old.faults }
    {
        match given {
            Ok(()) => Ok(()),
            Err(_) => Err(self.fault()),
        }
    }
}

impl<R: Files + AllocGlobal + Clone + Drop> Tree for OsTree<R> {
    ghost seen = { λ s. record { tells = false; past = no_past; faults = s.faults } };

    fn list(&mut self, folder: &str, limit: u64) -> Result<Listed, TreeErr> {
        let listed = list_at(
            &self.rt,
            folder,
            limit,
            &mut self.folders,
            &mut self.unstored,
        );
        self.answered(listed)
    }

    fn read(&mut self, path: &str, limit: u64) -> Result<Found, TreeErr> {
        let found = read_at(&self.rt, path, limit, &mut self.folders, &mut self.owner);
        self.answered(found)
    }

    fn put(&mut self, path: &str, node: &Node) -> Result<(), TreeErr> {
        let ready = ready_to_put(&self.rt, path, &mut self.folders, &mut self.unstored);
        self.answered(ready)?;
        let put = put_at(&self.rt, path, node, self.owner, &mut self.unstored);
        self.done(put)
    }

    fn put_pieces(&mut self, path: &str, pieces: &[&[u8]], mode: u32) -> Result<(), TreeErr> {
        let ready = ready_to_put(&self.rt, path, &mut self.folders, &mut self.unstored);
        self.answered(ready)?;
        let put = put_file_at(&self.rt, path, pieces, mode, self.owner, &mut self.unstored);
        self.done(put)
    }

    fn rename(&mut self, from: &str, to: &str) -> Result<(), TreeErr> {
        let ready = ready_to_move(&self.rt, from, to, &mut self.folders, &mut self.unstored);
        if !self.answered(ready)? {
            return Ok(());
        }
        let renamed = fs::rename(&self.rt, from, to);
        if renamed.is_ok() {
            self.folders.forget_moved(from, to);
        }
        self.done(renamed)
    }

    fn remove(&mut self, path: &str) -> Result<(), TreeErr> {
        let ready = ready_to_remove(&self.rt, path, &mut self.folders, &mut self.unstored);
        if !self.answered(ready)? {
            return Ok(());
        }
        let removed = fs::remove_file(&self.rt, path);
        if removed.is_ok() {
            self.folders.forget(path);
        }
        self.done(removed)
    }

    fn settle(&mut self) -> Result<(), TreeErr> {
        let stored = self.unstored.store(&self.rt);
        self.done(stored)
    }
}
