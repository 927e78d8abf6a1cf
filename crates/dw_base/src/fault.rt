//! Refusals, each a kind and a place, and want of memory.

ghost use Rattle.std.specs.Prelude.{◌≡◌};
ghost use Rattle.dw_base.specs.Refusals.{at};
ghost use Rattle.dw_base.specs.declared.fault.Fault.TheVariants.{NoMemory as no_memory, Refused as refused};

use std::alloc::{AllocError, AllocFailed};

/// Why a file is refused.
#[derive(Clone, Copy, Debug, PartialEq, Eq)]
pub enum Kind {
    /// The file header is none, or its numbers don't fit one another.
    Header,
    /// A table, a segment, a section or a name passes the end of what it lies in.
    Range,
    /// A section that would change, or lies across it, is in the part of the file that stays.
    Fixed,
    /// A compressed debug section.
    Compressed,
    /// A supplementary file, or a value that refers to one.
    Supplementary,
    /// Split DWARF: `.dwo` sections, package indexes, skeleton and split units.
    SplitDwarf,
    /// A section named `.debug_..` that isn't listed.
    UnknownDebug,
    /// Two sections of one listed name.
    Twice,
    /// A unit header, or its range.
    Unit,
    /// A table of abbreviations.
    Abbreviation,
    /// A form that isn't listed.
    Form,
    /// An entry, or a value that passes its unit's end.
    Entry,
    /// An offset of a text where no text stands.
    StringOffset,
    /// A contribution of string offsets, or an index into one.
    StringTable,
    /// A slot that names a path and another text.
    SharedIndex,
    /// A line table.
    Line,
    /// An offset of a line table or a macro unit where none starts.
    Stray,
    /// A macro unit.
    Macro,
    /// A path that stands inline and would grow.
    InlineGrows,
    /// A relocation that can't be followed.
    Relocation,
    /// A new offset or length that doesn't fit its field.
    TooWide,
    /// A build-id note.
    BuildId,
    /// A name table.
    NameTable,
    /// An output file over its limit.
    TooLarge,
    /// A path that a line program defines.
    DefinedPath,
    /// A type of file that isn't handled.
    FileType,
}

/// A refusal: its kind, and the place that it speaks of.
#[derive(Clone, Copy, Debug, PartialEq, Eq)]
pub struct Refusal {
    /// Why.
    pub kind: Kind,
    /// The section, counted from 0; 0 also stands for the whole file.
    pub section: u32,
    /// In bytes from the section's start, or from the file's.
    pub offset: u64,
}

impl Refusal {
    /// The refusal of this kind at this place.
    pub fn at(kind: Kind, section: u32, offset: u64) -> Refusal
        ensures { result ≡ at kind section offset }
    {
        Refusal {
            kind,
            section,
            offset,
        }
    }

    /// The refusal of this kind of the whole file.
    pub fn of_file(kind: Kind) -> Refusal
        ensures { result ≡ at kind 0 0 }
    {
        Refusal::at(kind, 0, 0)
    }
}

/// There was not enough memory.
#[derive(Clone, Copy, Debug, PartialEq, Eq)]
pub struct NoMemory;

/// Why a call that reads or writes a file gives no value.
#[derive(Clone, Copy, Debug, PartialEq, Eq)]
pub enum Fault {
    /// The file is refused.
    Refused(Refusal),
    /// There was not enough memory.
    NoMemory,
}

impl From<AllocError> for NoMemory {
    fn from(_e: AllocError) -> NoMemory {
        NoMemory
    }
}

impl<T: Drop> From<AllocFailed<T>> for NoMemory {
    fn from(_e: AllocFailed<T>) -> NoMemory {
        NoMemory
    }
}

impl From<Refusal> for Fault {
    ghost from_gives = { λ r f. f ≡ refused r };

    fn from(r: Refusal) -> Fault {
        Fault::Refused(r)
    }
}

impl From<NoMemory> for Fault {
    ghost from_gives = { λ _ f. f ≡ no_memory };

    fn from(_e: NoMemory) -> Fault {
        Fault::NoMemory
    }
}

impl From<AllocError> for Fault {
    ghost from_gives = { λ _ f. f ≡ no_memory };

    fn from(_e: AllocError) -> Fault {
        Fault::NoMemory
    }
}

impl<T: Drop> From<AllocFailed<T>> for Fault {
    ghost from_gives = { λ _ f. f ≡ no_memory };

    fn from(_e: AllocFailed<T>) -> Fault {
        Fault::NoMemory
    }
}
