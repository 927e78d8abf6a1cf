//! The numbers of the ELF format, in the standard's own spelling (gABI ch. 4 and 5).

/// Where `e_ident` has the class.
pub const EI_CLASS: u64 = 4;
/// Where `e_ident` has the byte order.
pub const EI_DATA: u64 = 5;
/// Where `e_ident` has its version.
pub const EI_VERSION: u64 = 6;

/// `e_ident[EI_MAG0]` to `e_ident[EI_MAG3]`, 0x7f and "ELF", as a number with the lowest byte first.
pub const ELFMAG: u64 = 0x464c457f;
/// `e_ident[EI_CLASS]`: 32 bits.
pub const ELFCLASS32: u64 = 1;
/// `e_ident[EI_CLASS]`: 64 bits.
pub const ELFCLASS64: u64 = 2;
/// `e_ident[EI_DATA]`: the lowest byte first.
pub const ELFDATA2LSB: u64 = 1;
/// `e_ident[EI_DATA]`: the highest byte first.
pub const ELFDATA2MSB: u64 = 2;
/// `e_ident[EI_VERSION]`: the one version.
pub const EV_CURRENT: u64 = 1;

/// `e_type`: a relocatable file.
pub const ET_REL: u16 = 1;
/// `e_type`: an executable file.
pub const ET_EXEC: u16 = 2;
/// `e_type`: a shared object file.
pub const ET_DYN: u16 = 3;

/// `sh_type`: an inactive header.
pub const SHT_NULL: u32 = 0;
/// `sh_type`: bytes whose meaning is the program's own.
pub const SHT_PROGBITS: u32 = 1;
/// `sh_type`: a symbol table.
pub const SHT_SYMTAB: u32 = 2;
/// `sh_type`: a string table.
pub const SHT_STRTAB: u32 = 3;
/// `sh_type`: relocations with addends.
pub const SHT_RELA: u32 = 4;
/// `sh_type`: notes.
pub const SHT_NOTE: u32 = 7;
/// `sh_type`: a section that takes no room in the file.
pub const SHT_NOBITS: u32 = 8;
/// `sh_type`: relocations without addends.
pub const SHT_REL: u32 = 9;
/// `sh_type`: the section numbers of symbols that don't fit the symbol table.
pub const SHT_SYMTAB_SHNDX: u32 = 18;

/// `sh_flags`: the section is in the image of the running program.
pub const SHF_ALLOC: u64 = 0x2;
/// `sh_flags`: the info field is the number of a section.
pub const SHF_INFO_LINK: u64 = 0x40;
/// `sh_flags`: the section's bytes are compressed.
pub const SHF_COMPRESSED: u64 = 0x800;

/// The first of the reserved section numbers.
pub const SHN_LORESERVE: u16 = 0xff00;
/// The section number that stands for one kept elsewhere.
pub const SHN_XINDEX: u16 = 0xffff;
/// The number of program headers that stands for one kept elsewhere.
pub const PN_XNUM: u16 = 0xffff;

/// `p_type`: a segment that is loaded.
pub const PT_LOAD: u32 = 1;

/// The type of the note with the build-id, under the name `GNU`.
pub const NT_GNU_BUILD_ID: u32 = 3;
