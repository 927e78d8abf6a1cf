//! The file header: it is there, its identification is ELF's, and its numbers fit one another
//! (gABI ch. 4 "ELF Header", "ELF Identification").

ghost use Rattle.std.specs.Prelude.{◌≡◌, ◌≢◌, ◌≤◌, ◌||◌, ◌==◌, length, IsTrue, IfOk, OnOk, IfErr};
ghost use Rattle.dw_base.specs.Elf.{class_of, order_of, ehdr_size};
ghost use Rattle.dw_base.specs.ElfFails.{ident_byte, HeaderFails, HeaderReads, ShapeFails, ShapeReads};
ghost use Rattle.dw_base.specs.Numbers.{spelled};
ghost use Rattle.dw_base.specs.Refusals.{at};
ghost use Rattle.elf_file.specs.FileHeader.{file_header};

use crate::records::FileHeader;
use crate::slots::file_header_in;
use dw_base::elf_numbers::{
    EI_CLASS, EI_DATA, EI_VERSION, ELFCLASS32, ELFCLASS64, ELFDATA2LSB, ELFDATA2MSB, ELFMAG,
    ET_REL, EV_CURRENT, PN_XNUM,
};
use dw_base::{Class, Kind, Order, Refusal, number_in};

/// The class of a file. Refused as `Header` at (0, 4) exactly where it is neither.
#[tactic(auto, using(crate::proofs::Rows::header_rows), unfolding(dw_base::specs::Elf::class_of))]
fn class_in(bytes: &[u8]) -> Result<Class, Refusal>
    requires { 52 ≤ length bytes.now }
    ensures value { IfOk result (λ class. class ≡ class_of bytes.now) }
    ensures class { OnOk result (IsTrue (ident_byte bytes.now EI_CLASS == ELFCLASS32 || ident_byte bytes.now EI_CLASS == ELFCLASS64)) }
    ensures refused { IfErr result (HeaderFails bytes.now) }
{
    match number_in(Order::Little, bytes, EI_CLASS, 1) {
        ELFCLASS32 => Ok(Class::C32),
        ELFCLASS64 => Ok(Class::C64),
        _ => Err(Refusal::at(Kind::Header, 0, EI_CLASS)),
    }
}

/// The byte order of a file. Refused as `Header` at (0, 5) exactly where it is neither.
#[tactic(auto, using(crate::proofs::Rows::header_rows), unfolding(dw_base::specs::Elf::order_of))]
fn order_in(bytes: &[u8]) -> Result<Order, Refusal>
    requires { 52 ≤ length bytes.now }
    ensures value { IfOk result (λ order. order ≡ order_of bytes.now) }
    ensures order { OnOk result (IsTrue (ident_byte bytes.now EI_DATA == ELFDATA2LSB || ident_byte bytes.now EI_DATA == ELFDATA2MSB)) }
    ensures refused { IfErr result (HeaderFails bytes.now) }
{
    match number_in(Order::Little, bytes, EI_DATA, 1) {
        ELFDATA2LSB => Ok(Order::Little),
        ELFDATA2MSB => Ok(Order::Big),
        _ => Err(Refusal::at(Kind::Header, 0, EI_DATA)),
    }
}

/// The file header. Refused as `Header` exactly where the file is shorter than it, or its first
/// bytes, class, order or version are wrong: at the first place where one of these is.
#[tactic(auto, using(crate::proofs::Rows::header_rows))]
pub fn checked_header(bytes: &[u8]) -> Result<FileHeader, Refusal>
    ensures value { IfOk result (λ header. header ≡ file_header bytes.now) }
    ensures reads { OnOk result (HeaderReads bytes.now) }
    ensures refused { IfErr result (HeaderFails bytes.now) }

    // Other bytes at the front are told before all else that is wrong.
    ensures magic { spelled Order.Little bytes.now 0 4 ≢ ELFMAG → IfErr result (λ r. r ≡ at Kind.Header 0 0) }
{
    let len = bytes.len() as u64;
    if len < Class::C32.file_header_size() {
        return Err(Refusal::of_file(Kind::Header));
    }
    if number_in(Order::Little, bytes, 0, 4) != ELFMAG {
        return Err(Refusal::of_file(Kind::Header));
    }
    let class = class_in(bytes)?;
    if len < class.file_header_size() {
        return Err(Refusal::of_file(Kind::Header));
    }
    let order = order_in(bytes)?;
    if number_in(Order::Little, bytes, EI_VERSION, 1) != EV_CURRENT {
        return Err(Refusal::at(Kind::Header, 0, EI_VERSION));
    }
    Ok(file_header_in(class, order, bytes))
}

/// The sizes and places of the two tables. Refused as `Header` at the field that doesn't fit.
#[tactic(auto, using(crate::proofs::Rows::shape_rows), unfolding(crate::specs::FileHeader::file_header))]
pub fn shape_fits(bytes: &[u8], header: &FileHeader) -> Result<(), Refusal>
    requires { header.now ≡ file_header bytes.now }
    ensures reads { OnOk result (ShapeReads bytes.now) }
    ensures refused { IfErr result (ShapeFails bytes.now) }
{
    if header.phnum == PN_XNUM {
        return Err(Refusal::at(Kind::Header, 0, header.class.phnum_place()));
    }
    if header.kind == ET_REL && header.phnum != 0 {
        return Err(Refusal::at(Kind::Header, 0, header.class.phnum_place()));
    }
    if header.phnum != 0 && header.phentsize != header.class.program_header_size() {
        return Err(Refusal::at(Kind::Header, 0, header.class.phentsize_place()));
    }
    if header.shoff != 0 && header.shentsize != header.class.section_header_size() {
        return Err(Refusal::at(Kind::Header, 0, header.class.shentsize_place()));
    }
    if header.shoff != 0 && header.phnum != 0 && header.phoff < header.class.file_header_size() {
        return Err(Refusal::at(Kind::Header, 0, header.class.phoff_place()));
    }
    Ok(())
}
