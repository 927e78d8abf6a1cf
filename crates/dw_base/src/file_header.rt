//! Sizes of records and places of fields, by the class of a file (gABI ch. 4 "ELF Header", "Sections";
//! ch. 5 "Program Header").

ghost use Rattle.std.specs.Prelude.{◌≡◌, ◌+◌, ◌*◌, ◌≤◌, ◌<◌, ◌^◌, ◌↔◌, IsTrue};
ghost use Rattle.std.specs.Bool.{OnTrue};
ghost use Rattle.dw_base.specs.Elf.{word_size, ehdr_size, phdr_size, shdr_size, phoff_place, shoff_place, phentsize_place, phnum_place, shentsize_place, shnum_place, shstrndx_place};

use crate::shared::Class;

impl Class {
    /// The size of an address or an offset, in bytes.
    pub fn word_size(self) -> u8
        ensures { result ≡ word_size self }
    {
        match self {
            Class::C32 => 4,
            Class::C64 => 8,
        }
    }

    /// The size of the file header, in bytes.
    pub fn file_header_size(self) -> u64
        ensures { result ≡ ehdr_size self }
    {
        match self {
            Class::C32 => 52,
            Class::C64 => 64,
        }
    }

    /// The size of a section header, in bytes.
    pub fn section_header_size(self) -> u16
        ensures { result ≡ shdr_size self }
    {
        match self {
            Class::C32 => 40,
            Class::C64 => 64,
        }
    }

    /// The size of a program header, in bytes.
    pub fn program_header_size(self) -> u16
        ensures { result ≡ phdr_size self }
    {
        match self {
            Class::C32 => 32,
            Class::C64 => 56,
        }
    }

    /// The place of section header `index` in a table at `start`, both in bytes from the start of the file.
    pub fn section_header_place(self, start: u64, index: u64) -> u64
        requires { start + index * shdr_size self < 2 ^ 64 }
        ensures { result ≡ start + index * shdr_size self }
    {
        match self {
            Class::C32 => start + index * 40,
            Class::C64 => start + index * 64,
        }
    }

    /// The place of program header `index` in a table at `start`, both in bytes from the start of the file.
    pub fn program_header_place(self, start: u64, index: u64) -> u64
        requires { start + index * phdr_size self < 2 ^ 64 }
        ensures { result ≡ start + index * phdr_size self }
    {
        match self {
            Class::C32 => start + index * 32,
            Class::C64 => start + index * 56,
        }
    }

    /// `count` section headers from `start` lie in a file of `len` bytes.
    pub fn holds_section_headers(self, start: u64, count: u64, len: u64) -> bool
        ensures lies { IsTrue result ↔ (start + count * shdr_size self ≤ len) }
        ensures few { OnTrue result (count ≤ len) }
    {
        if start > len {
            return false;
        }
        match self {
            Class::C32 => count <= (len - start) / 40,
            Class::C64 => count <= (len - start) / 64,
        }
    }

    /// `count` program headers from `start` lie in a file of `len` bytes.
    pub fn holds_program_headers(self, start: u64, count: u64, len: u64) -> bool
        ensures lies { IsTrue result ↔ (start + count * phdr_size self ≤ len) }
    {
        if start > len {
            return false;
        }
        match self {
            Class::C32 => count <= (len - start) / 32,
            Class::C64 => count <= (len - start) / 56,
        }
    }

    /// The place of `e_phoff` in the file header.
    pub fn phoff_place(self) -> u64
        ensures { result ≡ phoff_place self }
    {
        match self {
            Class::C32 => 28,
            Class::C64 => 32,
        }
    }

    /// The place of `e_shoff` in the file header.
    pub fn shoff_place(self) -> u64
        ensures { result ≡ shoff_place self }
    {
        match self {
            Class::C32 => 32,
            Class::C64 => 40,
        }
    }

    /// The place of `e_phentsize` in the file header.
    pub fn phentsize_place(self) -> u64
        ensures { result ≡ phentsize_place self }
    {
        match self {
            Class::C32 => 42,
            Class::C64 => 54,
        }
    }

    /// The place of `e_phnum` in the file header.
    pub fn phnum_place(self) -> u64
        ensures { result ≡ phnum_place self }
    {
        match self {
            Class::C32 => 44,
            Class::C64 => 56,
        }
    }

    /// The place of `e_shentsize` in the file header.
    pub fn shentsize_place(self) -> u64
        ensures { result ≡ shentsize_place self }
    {
        match self {
            Class::C32 => 46,
            Class::C64 => 58,
        }
    }

    /// The place of `e_shnum` in the file header.
    pub fn shnum_place(self) -> u64
        ensures { result ≡ shnum_place self }
    {
        match self {
            Class::C32 => 48,
            Class::C64 => 60,
        }
    }

    /// The place of `e_shstrndx` in the file header.
    pub fn shstrndx_place(self) -> u64
        ensures { result ≡ shstrndx_place self }
    {
        match self {
            Class::C32 => 50,
            Class::C64 => 62,
        }
    }
}
