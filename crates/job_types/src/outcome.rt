//! What becomes of one file of a build root.
ghost use Rattle.std.specs.Prelude.{◌≡◌, ℕ, List, map};

use file_tree::Blob;
use std::marker::Model;

/// Why a file is left as it is.
#[derive(Clone, Copy, Debug, PartialEq, Eq)]
pub enum LeftWhy {
    /// It doesn't begin as an ELF file does.
    NoElf,
    /// Its type is neither a relocatable file nor a program nor a shared object.
    OtherType,
    /// It has a debug link.
    AlreadyLinked,
    /// It has no section that a debug file takes.
    NothingToStrip,
}

/// Names of source files, each as bytes.
#[derive(Drop)]
pub struct Sources {
    names: Vec<Vec<u8>>,
}

impl Model for Sources {
    ghost Value = { List (List ℕ) };

    ghost view = { λ s. map (λ name. name.items) s.names.items };
}

impl Sources {
    /// These names.
    pub fn new(names: Vec<Vec<u8>>) -> Sources
        ensures value { result ≡ map (λ name. name.items) names.items }
    {
        Sources { names }
    }

    /// The names, as a vector.
    pub fn into_vec(self) -> Vec<Vec<u8>>
        ensures value { map (λ name. name.items) result.items ≡ self }
    {
        let Sources { names } = self;
        names
    }

    /// The names.
    pub fn as_slice(&self) -> &[Vec<u8>]
        ensures value { map (λ name. name.items) result.now ≡ self.now }
    {
        self.names.as_slice()
    }
}

/// What a job makes of a file.
#[derive(Drop)]
pub enum Outcome {
    /// A stripped file and its debug file, with the build-id that names them, if there is one, and the
    /// names of the sources.
    Split {
        stripped: Blob,
        debug: Blob,
        id: Option<Blob>,
        sources: Sources,
    },
    /// A rewritten file that is not split, and the names of its sources.
    Edited {
        bytes: Blob,
        sources: Sources,
    },
    /// The file stays as it is.
    Left(LeftWhy),
}

/// What is said of a file before its outputs are made.
#[derive(Drop)]
pub enum Verdict {
    /// It is edited and split: its build-id, if there is one, and the names of its sources.
    Split { id: Option<Blob>, sources: Sources },
    /// It is edited and not split: the names of its sources.
    Edited { sources: Sources },
    /// It stays as it is.
    Left(LeftWhy),
}
