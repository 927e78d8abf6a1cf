//! Files of the system with two oddities, which the real tree has to meet as other systems have them.
use std::alloc::{Allocator, Global};
use std::fs::{Files, Metadata, OpenOptions};
use std::io;
use std::io::ErrorKind;
use std::path::PathBuf;

/// A name has at most so many bytes, as on eCryptfs.
const MOST: usize = 143;

/// The files of the system, where a longer name is refused, and where a look at what stands at `swapped` itself, in any
/// folder, finds what `looked` leads to there: as if the one took the other's place before it is opened.
#[derive(Clone, Copy)]
pub(crate) struct OddFiles<'a> {
    pub(crate) files: &'a HostRuntime,
}

/// Whether a name of the path is too long.
fn is_refused(path: &str) -> bool {
    for name in path.split('/') {
        if name.len() > MOST {
            return true;
        }
    }
    false
}

impl Alloc for OddFiles<'_> {
    type A = Global;

    fn alloc(&self) -> Global {
        self.files.alloc()
    }
}

impl Files for OddFiles<'_> {
    type File = <HostRuntime as Files>::File;

    type Dir = <HostRuntime as Files>::Dir;

    fn open_file(&self, how: &OpenOptions, path: &str) -> io::Result<Self::File> {
        self.files.open_file(how, path)
    }

    fn open_dir(&self, path: &str) -> io::Result<Self::Dir> {
        self.files.open_dir(path)
    }

    fn metadata(&self, path: &str) -> io::Result<Metadata> {
        self.files.metadata(path)
    }

    fn symlink_metadata(&self, path: &str) -> io::Result<Metadata> {
        if is_refused(path) {
            return Err(io::Error::from(ErrorKind::InvalidFilename));
        }
        match path.strip_suffix("/swapped") {
            None => self.files.symlink_metadata(path),
            Some(folder) => {
                let looked = format!(in self.alloc(); "{folder}/looked")?;
                self.files.metadata(looked.as_str())
            }
        }
    }

    fn copy(&self, from: &str, to: &str) -> io::Result<u64> {
        self.files.copy(from, to)
    }

    fn rename(&self, from: &str, to: &str) -> io::Result<()> {
        self.files.rename(from, to)
    }

    fn remove_file(&self, path: &str) -> io::Result<()> {
        self.files.remove_file(path)
    }

    fn create_dir(&self, path: &str) -> io::Result<()> {
        self.files.create_dir(path)
    }

    fn remove_dir(&self, path: &str) -> io::Result<()> {
        self.files.remove_dir(path)
    }

    fn remove_dir_all<B: Allocator>(&self, alloc: B, path: &str) -> io::Result<()> {
        self.files.remove_dir_all(alloc, path)
    }

    fn lchown(&self, path: &str, uid: Option<u32>, gid: Option<u32>) -> io::Result<()> {
        self.files.lchown(path, uid, gid)
    }
}
