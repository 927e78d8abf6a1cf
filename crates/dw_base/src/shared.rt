//! The byte order, the class of a file, and the two formats of DWARF.

ghost use Rattle.std.specs.Prelude.{◌≡◌, ◌<◌, ◌≤◌};
ghost use Rattle.dw_base.specs.Forms.{width_size};
ghost use Rattle.dw_base.specs.WrittenLines.{length_size};

/// In which order the bytes of a number stand (`e_ident[EI_DATA]`; gABI ch. 4 "ELF Identification").
#[derive(Clone, Copy, Debug, PartialEq, Eq)]
pub enum Order {
    /// The lowest byte first (`ELFDATA2LSB`).
    Little,
    /// The highest byte first (`ELFDATA2MSB`).
    Big,
}

/// How wide a file's addresses and offsets are (`e_ident[EI_CLASS]`; gABI ch. 4 "ELF Identification").
#[derive(Clone, Copy, Debug, PartialEq, Eq)]
pub enum Class {
    /// 32 bits (`ELFCLASS32`).
    C32,
    /// 64 bits (`ELFCLASS64`).
    C64,
}

/// How wide the offsets of a unit are (DWARF 5, 7.4).
#[derive(Clone, Copy, Debug, PartialEq, Eq)]
pub enum Width {
    /// 32-bit DWARF: offsets of 4 bytes.
    W32,
    /// 64-bit DWARF: offsets of 8 bytes.
    W64,
}

impl Width {
    /// How many bytes an offset has.
    pub fn offset_size(self) -> u8
        ensures size { result ≡ width_size self }
        ensures some { 0 < result }
        ensures wide { result ≤ 8 }
    {
        match self {
            Width::W32 => 4,
            Width::W64 => 8,
        }
    }

    /// How many bytes the length of a unit or a table has.
    pub fn length_size(self) -> u64
        ensures size { result ≡ length_size self }
        ensures small { result ≤ 12 }
    {
        match self {
            Width::W32 => 4,
            Width::W64 => 12,
        }
    }
}

/// What the values of a unit depend on, beside their forms (DWARF 5, 7.5.1).
#[derive(Clone, Copy, Debug, PartialEq, Eq)]
pub struct Params {
    /// The byte order of the file.
    pub order: Order,
    /// The width of offsets.
    pub width: Width,
    /// The version of DWARF.
    pub version: u16,
    /// The size of an address, in bytes.
    pub address: u8,
}
