//! The machines and their absolute relocations, in the spelling of the processor supplements
//! (gABI ch. 4 "Relocation Types"): psABI of i386, PowerPC, 64-bit PowerPC, s390, ARM, x86-64, AArch64.

/// `e_machine`: Intel 80386.
pub const EM_386: u16 = 3;
/// `e_machine`: PowerPC.
pub const EM_PPC: u16 = 20;
/// `e_machine`: 64-bit PowerPC.
pub const EM_PPC64: u16 = 21;
/// `e_machine`: IBM System/390 and z/Architecture.
pub const EM_S390: u16 = 22;
/// `e_machine`: ARM, 32 bits.
pub const EM_ARM: u16 = 40;
/// `e_machine`: AMD x86-64.
pub const EM_X86_64: u16 = 62;
/// `e_machine`: ARM, 64 bits.
pub const EM_AARCH64: u16 = 183;

/// The value in 4 bytes, on Intel 80386.
pub const R_386_32: u32 = 1;
/// The value in 4 bytes, on PowerPC.
pub const R_PPC_ADDR32: u32 = 1;
/// The value in 4 bytes, on 64-bit PowerPC.
pub const R_PPC64_ADDR32: u32 = 1;
/// The value in 8 bytes, on 64-bit PowerPC.
pub const R_PPC64_ADDR64: u32 = 38;
/// The value in 4 bytes, on s390.
pub const R_390_32: u32 = 4;
/// The value in 8 bytes, on s390.
pub const R_390_64: u32 = 22;
/// The value in 4 bytes, on ARM.
pub const R_ARM_ABS32: u32 = 2;
/// The value in 8 bytes, on x86-64.
pub const R_X86_64_64: u32 = 1;
/// The value in 4 bytes, on x86-64.
pub const R_X86_64_32: u32 = 10;
/// The value in 8 bytes, on AArch64.
pub const R_AARCH64_ABS64: u32 = 257;
/// The value in 4 bytes, on AArch64.
pub const R_AARCH64_ABS32: u32 = 258;
