//! The numbers of a file header as a value (gABI ch. 4 "ELF Header").

use dw_base::{Class, Order};

/// The numbers of a file header that the records stand on.
#[derive(Clone, Copy, Debug, PartialEq, Eq)]
pub struct FileHeader {
    /// `e_ident[EI_CLASS]`.
    pub class: Class,
    /// `e_ident[EI_DATA]`.
    pub order: Order,
    /// `e_type`.
    pub kind: u16,
    /// `e_machine`.
    pub machine: u16,
    /// `e_phoff`: in bytes from the start of the file.
    pub phoff: u64,
    /// `e_shoff`: in bytes from the start of the file.
    pub shoff: u64,
    /// `e_phentsize`, in bytes.
    pub phentsize: u16,
    /// `e_phnum`.
    pub phnum: u16,
    /// `e_shentsize`, in bytes.
    pub shentsize: u16,
    /// `e_shnum`.
    pub shnum: u16,
    /// `e_shstrndx`.
    pub shstrndx: u16,
}
