//! The records of an ELF file as values (gABI ch. 4 "ELF Header", "Sections"; ch. 5 "Program Header").

ghost use Rattle.std.specs.Prelude.{◌≡◌};
ghost use Rattle.dw_base.specs.Elf.{is_empty_kind};
ghost use Rattle.dw_base.specs.Layout.{is_alloc};

use crate::elf_numbers::{SHF_ALLOC, SHT_NOBITS, SHT_NULL};

/// What a file is (`e_type`).
#[derive(Clone, Copy, Debug, PartialEq, Eq)]
pub enum FileKind {
    /// A relocatable file (`ET_REL`).
    Rel,
    /// An executable file (`ET_EXEC`).
    Exec,
    /// A shared object file (`ET_DYN`).
    Dyn,
    /// Another number.
    Other(u16),
}

/// One entry of the section header table.
#[derive(Clone, Copy, Debug, PartialEq, Eq)]
pub struct Section {
    /// `sh_name`: in bytes from the start of the section name table.
    pub name: u32,
    /// `sh_type`.
    pub kind: u32,
    /// `sh_flags`.
    pub flags: u64,
    /// `sh_addr`.
    pub addr: u64,
    /// `sh_offset`: in bytes from the start of the file.
    pub offset: u64,
    /// `sh_size`, in bytes.
    pub size: u64,
    /// `sh_link`.
    pub link: u32,
    /// `sh_info`.
    pub info: u32,
    /// `sh_addralign`, in bytes.
    pub align: u64,
    /// `sh_entsize`, in bytes.
    pub entry_size: u64,
}

impl Section {
    /// The section takes no room in the file: it is of type NULL or NOBITS.
    pub fn takes_no_room(&self) -> bool
        ensures { result ≡ is_empty_kind self.now }
    {
        self.kind == SHT_NULL || self.kind == SHT_NOBITS
    }

    /// The flag ALLOC is set: the section is in the image of the running program.
    pub fn is_alloc(&self) -> bool
        ensures { result ≡ is_alloc self.now }
    {
        self.flags & SHF_ALLOC != 0
    }
}

/// One entry of the program header table.
#[derive(Clone, Copy, Debug, PartialEq, Eq)]
pub struct Segment {
    /// `p_type`.
    pub kind: u32,
    /// `p_flags`.
    pub flags: u32,
    /// `p_offset`: in bytes from the start of the file.
    pub offset: u64,
    /// `p_vaddr`.
    pub vaddr: u64,
    /// `p_paddr`.
    pub paddr: u64,
    /// `p_filesz`, in bytes.
    pub filesz: u64,
    /// `p_memsz`, in bytes.
    pub memsz: u64,
    /// `p_align`, in bytes.
    pub align: u64,
}
