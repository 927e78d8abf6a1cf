//! The folders that the real tree has looked at, and the files in them that it has read or put.
//!
//! A file is known by the device and the inode of its folder and by its name there, so that one file
//! under two spellings is told. Below the root, the folder of the tree's first list, no link on the way
//! to a path is followed: each folder there is looked at once.
//!
//! This layer promises: it is safe and returns. What the system answers isn't proved.
use crate::looks::what_stands;
use crate::stores::Unstored;
use std::alloc::{AllocError, Global};
use std::collections::BTreeMap;
use std::fs::Metadata;
use std::io::ErrorKind;
use std::os::unix::fs::MetadataExt;
use std::rt::Files;
use std::{fs, io};

/// Every file system in use takes names of so many bytes: most take up to 255, but eCryptfs up to 143.
const SURE_LEN: usize = 143;

/// A folder that is there.
#[derive(Clone, Copy)]
pub(crate) struct Folder {
    device: u64,
    inode: u64,
    // the number of the spelling under which it was met
    spelling: u64,
    // whether the names of it and of the folders above it are noted to be stored
    is_noted: bool,
    // whether it was met before the root was known, when links on the way to any path were followed
    is_early: bool,
}

/// Under which spellings of its folder a file was met.
#[derive(Clone, Copy)]
enum MetUnder {
    /// The one with this number.
    One(u64),
    /// More than one.
    Various,
}

/// The folders that were met, and the names of the files in them that were read or put.
#[derive(Drop)]
pub(crate) struct Folders {
    root: Option<String>,
    known: BTreeMap<String, Folder>,
    files: BTreeMap<(u64, u64), BTreeMap<String, MetUnder>>,
}

/// The folder in which the path lies, as the path spells it, and the path's name there. The folder is
/// empty where the path has no slash.
fn cut(path: &str) -> (&str, &str) {
    match path.rsplit_once('/') {
        None => ("", path),
        Some((folder, name)) => {
            if folder.is_empty() {
                ("/", name)
            } else {
                (folder, name)
            }
        }
    }
}

/// The folder as the system takes it.
fn as_path(folder: &str) -> &str {
    if folder.is_empty() { "." } else { folder }
}

/// The folder in which the path lies, as the system takes it.
pub(crate) fn folder_of(path: &str) -> &str {
    as_path(cut(path).0)
}

/// What the folder's spelling leads to, if to anything.
fn what_is_led_to<R: Files>(rt: &R, folder: &str) -> io::Result<Option<Metadata>> {
    match fs::metadata(rt, as_path(folder)) {
        Ok(found) => Ok(Some(found)),
        Err(e) => match e.kind() {
            ErrorKind::NotFound | ErrorKind::NotADirectory => Ok(None),
            _ => Err(e),
        },
    }
}

/// Makes the folder, unless another process just made it.
fn make_folder<R: Files>(rt: &R, folder: &str) -> io::Result<()> {
    match fs::create_dir(rt, folder) {
        Ok(()) => Ok(()),
        Err(e) => match e.kind() {
            ErrorKind::AlreadyExists => Ok(()),
            _ => Err(e),
        },
    }
}

/// The answer where no folder can be: something else is there.
fn no_folder<T>() -> io::Result<T> {
    Err(io::Error::from(ErrorKind::NotADirectory))
}

/// Whether a file that was met so was met under this spelling alone.
fn is_met_under(met: MetUnder, spelling: u64) -> bool {
    match met {
        MetUnder::One(first) => first == spelling,
        MetUnder::Various => false,
    }
}

/// Notes the name under this spelling of its folder; whether it was met under no other one.
fn note_in(
    alloc: Global,
    names: &mut BTreeMap<String, MetUnder>,
    name: &str,
    spelling: u64,
) -> Result<bool, AllocError> {
    match names.get_mut(name) {
        Some(met) => {
            if is_met_under(*met, spelling) {
                return Ok(true);
            }
            *met = MetUnder::Various;
            return Ok(false);
        }
        None => {}
    }
    names.insert(String::from_str(alloc, name)?, MetUnder::One(spelling))?;
    Ok(true)
}

impl Folders {
    /// None yet.
    pub(crate) fn new(alloc: Global) -> Folders {
        Folders {
            root: None,
            known: BTreeMap::new(alloc),
            files: BTreeMap::new(alloc),
        }
    }

    /// Takes the folder of a list as the root, if it is the first.
    pub(crate) fn take_root(&mut self, alloc: Global, folder: &str) -> Result<(), AllocError> {
        if self.root.is_none() {
            self.root = Some(String::from_str(alloc, folder)?);
        }
        Ok(())
    }

    /// Whether the path lies below the root.
    pub(crate) fn is_below_root(&self, path: &str) -> bool {
        match &self.root {
            None => false,
            Some(root) => match path.strip_prefix(root.as_str()) {
                None => false,
                Some(rest) => rest.starts_with('/'),
            },
        }
    }

    /// The folder, if it was met. Below the root what was met before the root was known doesn't count: links
    /// may be on the way to it.
    fn met(&self, folder: &str) -> Option<Folder> {
        match self.known.get(folder) {
            None => None,
            Some(known) => {
                if known.is_early && self.is_below_root(folder) {
                    None
                } else {
                    Some(*known)
                }
            }
        }
    }

    /// Tries those names of the path that a file system may not take, in the root: it fails where they are too
    /// long.
    pub(crate) fn try_long_names<R: Files + AllocGlobal>(
        &self,
        rt: &R,
        path: &str,
    ) -> io::Result<()> {
        if let Some(root) = &self.root {
            for name in path.split('/') {
                if name.len() > SURE_LEN {
                    let tried = format!(in rt.alloc(); "{root}/{name}")?;
                    what_stands(rt, tried.as_str())?;
                }
            }
        }
        Ok(())
    }

    /// Keeps what was found of the folder. A spelling keeps its number.
    pub(crate) fn know(
        &mut self,
        alloc: Global,
        folder: &str,
        found: &Metadata,
        is_noted: bool,
    ) -> Result<Folder, AllocError> {
        let spelling = match self.known.get(folder) {
            Some(known) => known.spelling,
            None => self.known.len() as u64,
        };
        let folder_found = Folder {
            device: found.dev(),
            inode: found.ino(),
            spelling,
            is_noted,
            is_early: self.root.is_none(),
        };
        self.known
            .insert(String::from_str(alloc, folder)?, folder_found)?;
        Ok(folder_found)
    }

    /// Looks at the folder: nothing where none is there. Below the root it fails where what is there is no
    /// folder and no file, as a link, a pipe or a device.
    fn look<R: Files + AllocGlobal>(&mut self, rt: &R, folder: &str) -> io::Result<Option<Folder>> {
        let stands = if self.is_below_root(folder) {
            what_stands(rt, folder)?
        } else {
            what_is_led_to(rt, folder)?
        };
        match stands {
            None => Ok(None),
            Some(found) => {
                if found.is_dir() {
                    Ok(Some(self.know(rt.alloc(), folder, &found, false)?))
                } else if self.is_below_root(folder) && !found.is_file() {
                    no_folder()
                } else {
                    Ok(None)
                }
            }
        }
    }

    /// The folder, if it was met or is there now.
    fn met_or_look<R: Files + AllocGlobal>(
        &mut self,
        rt: &R,
        folder: &str,
    ) -> io::Result<Option<Folder>> {
        if let Some(known) = self.met(folder) {
            return Ok(Some(known));
        }
        self.look(rt, folder)
    }

    /// The folder, if it is there, with a look at each one on the way to it that lies below the root.
    fn find_below_root<R: Files + AllocGlobal>(
        &mut self,
        rt: &R,
        folder: &str,
    ) -> io::Result<Option<Folder>> {
        let mut found = None;
        let mut so_far = String::new(rt.alloc());
        for part in folder.split('/') {
            so_far.push_str(part)?;
            if self.is_below_root(so_far.as_str()) {
                found = self.met_or_look(rt, so_far.as_str())?;
                if found.is_none() {
                    return Ok(None);
                }
            }
            so_far.push_str("/")?;
        }
        Ok(found)
    }

    /// The folder in which the path lies, if it is there. It fails where the path lies below the root and
    /// what is no folder and no file is on the way.
    pub(crate) fn find<R: Files + AllocGlobal>(
        &mut self,
        rt: &R,
        path: &str,
    ) -> io::Result<Option<Folder>> {
        let folder = cut(path).0;
        if let Some(known) = self.met(folder) {
            return Ok(Some(known));
        }
        if self.is_below_root(folder) {
            self.find_below_root(rt, folder)
        } else {
            self.look(rt, folder)
        }
    }

    /// Makes a folder that isn't there.
    fn make_new<R: Files + AllocGlobal>(
        &mut self,
        rt: &R,
        folder: &str,
        unstored: &mut Unstored<R>,
    ) -> io::Result<Folder> {
        unstored.note_name(rt.alloc(), folder)?;
        make_folder(rt, folder)?;
        match self.look(rt, folder)? {
            Some(made) => Ok(made),
            None => no_folder(),
        }
    }

    /// The folder right below `above`, made if it isn't there. Its name is noted to be stored: another
    /// process may have made it and been killed. What stands on another device was made by none.
    fn make_below<R: Files + AllocGlobal>(
        &mut self,
        rt: &R,
        above: Folder,
        folder: &str,
        unstored: &mut Unstored<R>,
    ) -> io::Result<Folder> {
        if let Some(known) = self.met(folder) {
            if known.is_noted {
                return Ok(known);
            }
        }
        let made = match self.look(rt, folder)? {
            None => self.make_new(rt, folder, unstored)?,
            Some(found) => {
                if found.device == above.device {
                    unstored.note_seen(rt.alloc(), folder_of(folder))?;
                }
                found
            }
        };
        if let Some(known) = self.known.get_mut(folder) {
            known.is_noted = true;
        }
        Ok(made)
    }

    /// The folder, made with those above it that aren't there. All their names are noted to be stored.
    pub(crate) fn make<R: Files + AllocGlobal>(
        &mut self,
        rt: &R,
        folder: &str,
        unstored: &mut Unstored<R>,
    ) -> io::Result<Folder> {
        if let Some(known) = self.met(folder) {
            if known.is_noted {
                return Ok(known);
            }
        }
        let first = if folder.starts_with('/') { "/" } else { "" };
        let mut above = match self.met_or_look(rt, first)? {
            Some(found) => found,
            None => return no_folder(),
        };
        let mut so_far = String::new(rt.alloc());
        for part in folder.split('/') {
            so_far.push_str(part)?;
            if !part.is_empty() {
                above = self.make_below(rt, above, so_far.as_str(), unstored)?;
            }
            so_far.push_str("/")?;
        }
        Ok(above)
    }

    /// Makes the folder in which the path lies, with those above it, and notes the path as one that is put.
    /// It fails where the path's file was met under another spelling.
    pub(crate) fn make_for<R: Files + AllocGlobal>(
        &mut self,
        rt: &R,
        path: &str,
        unstored: &mut Unstored<R>,
    ) -> io::Result<()> {
        let (folder, name) = cut(path);
        let made = self.make(rt, folder, unstored)?;
        if self.note(rt.alloc(), made, name)? {
            Ok(())
        } else {
            Err(io::Error::from(ErrorKind::AlreadyExists))
        }
    }

    /// Notes the path as one that is read.
    pub(crate) fn note_read<R: Files + AllocGlobal>(
        &mut self,
        rt: &R,
        path: &str,
    ) -> io::Result<()> {
        if let Some(folder) = self.find(rt, path)? {
            self.note(rt.alloc(), folder, cut(path).1)?;
        }
        Ok(())
    }

    /// Forgets the name of a file that was taken away, where its folder was met.
    pub(crate) fn forget(&mut self, path: &str) {
        let (folder, name) = cut(path);
        if let Some(folder) = self.met(folder) {
            if let Some(names) = self.files.get_mut(&(folder.device, folder.inode)) {
                names.remove(name);
            }
        }
    }

    /// Whether both paths are one name in one folder, which was met.
    fn are_one(&self, path: &str, other: &str) -> bool {
        let ((folder, name), (other_folder, other_name)) = (cut(path), cut(other));
        match (self.met(folder), self.met(other_folder)) {
            (Some(one), Some(two)) => {
                one.device == two.device && one.inode == two.inode && name == other_name
            }
            _ => false,
        }
    }

    /// Forgets the name of a file that was moved, unless the file still has it.
    pub(crate) fn forget_moved(&mut self, from: &str, to: &str) {
        if !self.are_one(from, to) {
            self.forget(from);
        }
    }

    /// Notes the file of this name in the folder; whether it was met under no other spelling.
    fn note(&mut self, alloc: Global, folder: Folder, name: &str) -> Result<bool, AllocError> {
        let key = (folder.device, folder.inode);
        match self.files.get_mut(&key) {
            Some(names) => return note_in(alloc, names, name, folder.spelling),
            None => {}
        }
        let mut names = BTreeMap::new(alloc);
        names.insert(
            String::from_str(alloc, name)?,
            MetUnder::One(folder.spelling),
        )?;
        self.files.insert(key, names)?;
        Ok(true)
    }
}
