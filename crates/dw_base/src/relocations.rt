//! Symbols and relocations as values (gABI ch. 4 "Symbol Table", "Relocation").

/// A symbol, by what relocations ask of it.
#[derive(Clone, Copy, Debug, PartialEq, Eq)]
pub struct Symbol {
    /// `st_value`.
    pub value: u64,
    /// `st_shndx`, or the number in the table of section numbers where `st_shndx` is `SHN_XINDEX`.
    pub section: u32,
    /// Whether the symbol is defined in the section of that number.
    pub defined: bool,
}

/// A relocation.
#[derive(Clone, Copy, Debug, PartialEq, Eq)]
pub struct Reloc {
    /// `r_offset`: in a relocatable file, in bytes from the start of the section that it changes.
    pub offset: u64,
    /// The number of the symbol, in `r_info`.
    pub symbol: u32,
    /// The type, in `r_info`.
    pub kind: u32,
    /// `r_addend`. `None` where the section is one without addends (`SHT_REL`).
    pub addend: Option<i64>,
}

/// The absolute types of a machine.
#[derive(Clone, Copy, Debug, PartialEq, Eq)]
pub struct AbsoluteTypes {
    /// The type for a field of 4 bytes.
    pub four: u32,
    /// The type for a field of 8 bytes, where there is one.
    pub eight: Option<u32>,
}
