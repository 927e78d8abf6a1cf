//! What is left out of what is loaded of a file: its build-id, and three fields of its header (gABI ch. 4 "ELF Header").

ghost use Rattle.std.specs.Prelude.{◌≡◌, ◌+◌, ◌<◌, ◌^◌, IfSome};
ghost use Rattle.dw_base.specs.Notes.{build_id_of};
ghost use Rattle.dbg_check.specs.Images.{AreSmall, file_holes, holes_by, id_hole, lone_hole, no_hole, own_hole};
ghost use Rattle.dbg_check.specs.Loads.{as_id};

use crate::holes::{Hole, Holes};
use build_ident::{SectionId, section_id};
use dw_base::Class;
use elf_file::ElfFile;

/// A hole of no bytes.
fn no_hole() -> Hole
    ensures value { result ≡ no_hole }
{
    Hole { at: 0, len: 0 }
}

/// Where the build-id lies in the file.
#[tactic(auto, using(crate::proofs::LeftOutLaws::id_laws))]
fn id_hole(elf: &ElfFile) -> Hole
    ensures value { result ≡ id_hole elf.now.bytes.now (build_id_of elf.now.bytes.now) }
    ensures small { result.at + result.len < 2 ^ 64 }
{
    match section_id(elf) {
        Some(field) => Hole {
            at: elf.section(field.section).offset + field.place,
            len: field.size,
        },
        None => no_hole(),
    }
}

/// Where the build-id lies in the section of a number.
pub(crate) fn own_hole(id: Option<SectionId>, section: u32) -> Hole
    requires small { IfSome id (λ f. f.place + f.size < 2 ^ 64) }
    ensures value { result ≡ own_hole section (as_id id) }
    ensures small { result.at + result.len < 2 ^ 64 }
{
    let Some(field) = id else {
        return no_hole();
    };
    if section != field.section {
        return no_hole();
    }
    Hole {
        at: field.place,
        len: field.size,
    }
}

/// What is left out of a file of a class that is loaded as it stands, with this for its build-id.
fn holes_by(class: Class, id: Hole) -> Holes
    requires small { id.at + id.len < 2 ^ 64 }
    ensures value { result ≡ holes_by class id }
    ensures small { AreSmall result }
{
    match class {
        Class::C32 => Holes {
            shoff: Hole { at: 32, len: 4 },
            shnum: Hole { at: 48, len: 2 },
            shstrndx: Hole { at: 50, len: 2 },
            id,
        },
        Class::C64 => Holes {
            shoff: Hole { at: 40, len: 8 },
            shnum: Hole { at: 60, len: 2 },
            shstrndx: Hole { at: 62, len: 2 },
            id,
        },
    }
}

/// What is left out of a file that is loaded as it stands.
pub(crate) fn file_holes(elf: &ElfFile) -> Holes
    ensures value { result ≡ file_holes elf.now.bytes.now }
    ensures small { AreSmall result }
{
    holes_by(elf.class, id_hole(elf))
}

/// What is left out of a section: its build-id alone.
pub(crate) fn lone_hole(id: Hole) -> Holes
    requires small { id.at + id.len < 2 ^ 64 }
    ensures value { result ≡ lone_hole id }
    ensures small { AreSmall result }
{
    Holes {
        shoff: no_hole(),
        shnum: no_hole(),
        shstrndx: no_hole(),
        id,
    }
}
