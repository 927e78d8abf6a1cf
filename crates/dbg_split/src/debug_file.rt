//! The debug file: all sections under their numbers, of which those that the stripped file keeps have no
//! bytes (gABI ch. 4 "ELF Header", "Sections"; ch. 5 "Program Header"; this project's profile).

ghost use Rattle.std.specs.Prelude.{◌≡◌, ◌+◌, ◌++◌, ◌*◌, ◌<◌, ◌≤◌, ◌^◌, ◌≢◌, length, vec_len, IfOk, OnOk, IfErr};
ghost use Rattle.dw_base.specs.Elf.{e_phnum, e_phoff, e_shoff, ehdr_size, phdr_size, phoff_place, section_count, word_size};
ghost use Rattle.dw_base.specs.Layout.{output_limit, extended, laid, new_head, new_heads};
ghost use Rattle.dw_base.specs.LayoutFails.{TooLong};
ghost use Rattle.dw_base.specs.Lists.{tabulate};
ghost use Rattle.dw_base.specs.Numbers.{with_number};
ghost use Rattle.dw_base.specs.Refusals.{Blames};
ghost use Rattle.dw_base.specs.declared.fault.Refusal.{Refusal};
ghost use Rattle.dbg_split.specs.DebugFile.{becomes_nobits, debug_file, debug_front, debug_head, debug_header, debug_part, filesz_place, phdr_table, phoff_of_debug, without_bytes};
ghost use Rattle.dbg_split.specs.Droppable.{is_droppable};

use dw_base::elf_numbers::{SHT_NOBITS, SHT_NOTE, SHT_NULL};
use dw_base::{Class, Fault, Order, Section, number_in, put_number};
use elf_file::ElfFile;
use elf_layout::{Pieces, join_table, lay_lent};
use std::alloc::{AllocError, Global};

/// The place of `p_filesz` in a program header.
fn filesz_place(class: Class) -> u64
    ensures { result ≡ filesz_place class }
{
    match class {
        Class::C32 => 16,
        Class::C64 => 32,
    }
}

/// The place of the program headers in the debug file: behind the file header, 0 where there are none.
fn debug_phoff(elf: &ElfFile) -> u64
    ensures value { result ≡ phoff_of_debug elf.now.bytes.now }
    ensures few { result < 256 }
{
    if elf.segments.is_empty() {
        return 0;
    }
    elf.class.file_header_size()
}

/// Puts the place of the program headers into a file header.
fn put_phoff(header: &mut [u8], class: Class, order: Order, place: u64)
    requires whole { ehdr_size class ≤ length header.old }
    requires few { place < 256 }
    ensures { header.new ≡ with_number order header.old (phoff_place class) (word_size class) place }
{
    let fits = put_number(order, header, class.phoff_place(), class.word_size(), place);
    prove!(fits);
}

/// The file header of the debug file.
#[tactic(auto, unfolding(crate::specs::DebugFile::debug_header), using(crate::proofs::DebugFileLaws::header_laws))]
fn debug_header(alloc: Global, elf: &ElfFile) -> Result<Vec<u8>, AllocError>
    ensures header { IfOk result (λ header. header.items ≡ debug_header elf.now.bytes.now) }
    ensures len { IfOk result (λ header. vec_len header ≡ ehdr_size elf.now.class) }
{
    let mut header = Vec::from_slice(alloc, &elf.bytes[..elf.class.file_header_size() as usize])?;
    put_phoff(&mut header, elf.class, elf.order, debug_phoff(elf));
    Ok(header)
}

/// Where the program headers stand in a file that is split.
#[tactic(auto, unfolding(dw_base::specs::Elf::e_phoff), using(crate::proofs::DebugFileLaws::header_laws))]
fn phoff(elf: &ElfFile) -> u64
    ensures { result ≡ e_phoff elf.now.bytes.now }
{
    number_in(
        elf.order,
        elf.bytes,
        elf.class.phoff_place(),
        elf.class.word_size(),
    )
}

/// The program headers of a file.
#[tactic(auto, using(crate::proofs::DebugFileLaws::table_laws))]
fn phdr_table<'a>(elf: &'a ElfFile) -> &'a [u8]
    requires some { e_shoff elf.now.bytes.now ≢ 0 }
    ensures table { result.now ≡ phdr_table elf.now.bytes.now }
    ensures len { length result.now ≡ e_phnum elf.now.bytes.now * phdr_size elf.now.class }
    ensures behind { ehdr_size elf.now.class + length result.now ≤ length elf.now.bytes.now }
{
    if elf.segments.is_empty() {
        return &elf.bytes[..0];
    }
    let place = phoff(elf);
    let end = elf
        .class
        .program_header_place(place, elf.segments.len() as u64);
    &elf.bytes[place as usize..end as usize]
}

/// Sets the size in the file of the segment of a number to 0.
fn put_no_bytes(table: &mut [u8], class: Class, order: Order, index: usize)
    requires there { index * phdr_size class + phdr_size class ≤ length table.old }
    requires small { length table.old < 2 ^ 32 }
    ensures { table.new ≡ with_number order table.old (index * phdr_size class + filesz_place class) (word_size class) 0 }
{
    let place = class.program_header_place(0, index as u64) + filesz_place(class);
    let fits = put_number(order, table, place, class.word_size(), 0);
    prove!(fits);
}

/// Sets the sizes in the file of all segments of a table to 0.
#[tactic(auto, using(crate::proofs::DebugFileLaws::emptied_laws))]
fn empty_all(table: &mut [u8], class: Class, order: Order, count: usize)
    requires len { length table.old ≡ count * phdr_size class }
    requires small { length table.old < 2 ^ 32 }
    ensures { table.new ≡ without_bytes class order count table.old }
{
    for index in 0..count {
        put_no_bytes(table, class, order, index);
    }
}

/// The front of the debug file.
#[tactic(auto, unfolding(crate::specs::DebugFile::debug_front), using(crate::proofs::DebugFileLaws::front_laws))]
fn debug_front(alloc: Global, elf: &ElfFile) -> Result<Vec<u8>, AllocError>
    requires some { e_shoff elf.now.bytes.now ≢ 0 }
    ensures front { IfOk result (λ front. front.items ≡ debug_front elf.now.bytes.now) }
    ensures header { IfOk result (λ front. ehdr_size elf.now.class ≤ vec_len front) }
    ensures small { IfOk result (λ front. vec_len front ≤ output_limit) }
{
    let mut front = debug_header(alloc, elf)?;
    let mut table = Vec::from_slice(alloc, phdr_table(elf))?;
    empty_all(&mut table, elf.class, elf.order, elf.segments.len());
    front.extend_from_slice(&table)?;
    Ok(front)
}

/// A section has no bytes in the debug file; `dropped` says that the stripped file doesn't keep it.
#[tactic(auto, unfolding(crate::specs::DebugFile::becomes_nobits))]
fn becomes_nobits(elf: &ElfFile, section: u32, dropped: bool) -> bool
    requires there { section < section_count elf.now.bytes.now }
    requires dropped { dropped ≡ is_droppable elf.now.bytes.now section }
    ensures { result ≡ becomes_nobits elf.now.bytes.now section }
{
    let head = elf.section(section);
    !dropped
        && head.kind != SHT_NULL
        && section != elf.names
        && !(head.is_alloc() && head.kind == SHT_NOTE)
}

/// The header of a section in the debug file, but for its place.
#[tactic(auto, unfolding(crate::specs::DebugFile::debug_head))]
fn debug_head(elf: &ElfFile, section: u32, dropped: bool) -> Section
    requires there { section < section_count elf.now.bytes.now }
    requires dropped { dropped ≡ is_droppable elf.now.bytes.now section }
    ensures { result ≡ debug_head elf.now.bytes.now section }
{
    let head = elf.section(section);
    if becomes_nobits(elf, section, dropped) {
        return Section {
            kind: SHT_NOBITS,
            ..head
        };
    }
    head
}

/// Lays out a section of the debug file behind its front and the pieces so far, where it has bytes there; its new header.
#[tactic(auto, unfolding(crate::specs::DebugFile::debug_part))]
fn lay_section<'a>(
    alloc: Global,
    elf: &ElfFile<'a>,
    section: u32,
    dropped: bool,
    front: &[u8],
    out: &mut Pieces<'a>,
) -> Result<Section, Fault>
    requires there { section < section_count elf.now.bytes.now }
    requires dropped { dropped ≡ is_droppable elf.now.bytes.now section }
    requires small { length front.now + length out.old ≤ output_limit }
    ensures laid { OnOk result (front.now ++ out.new ≡ extended (front.now ++ out.old) (debug_part elf.now.bytes.now section)) }
    ensures head { IfOk result (λ head. head ≡ new_head (length (front.now ++ out.old)) (debug_part elf.now.bytes.now section)) }
    ensures small { OnOk result (length front.now + length out.new ≤ output_limit) }
    ensures refused { IfErr result (Blames (TooLong (length (extended (front.now ++ out.old) (debug_part elf.now.bytes.now section))))) }
{
    let head = debug_head(elf, section, dropped);
    let moves = !head.takes_no_room();
    lay_lent(alloc, front, out, &head, moves, elf.contents(section))
}

/// The sections of the debug file, laid out behind its front, and the new headers of all.
#[tactic(auto, using(crate::proofs::Rows::section_rows))]
fn lay_sections<'a>(
    alloc: Global,
    elf: &ElfFile<'a>,
    dropped: &[bool],
    front: &[u8],
) -> Result<(Pieces<'a>, Vec<Section>), Fault>
    requires dropped { dropped.now ≡ tabulate (is_droppable elf.now.bytes.now) (section_count elf.now.bytes.now) }
    requires small { length front.now ≤ output_limit }
    ensures laid { IfOk result (λ l. front.now ++ l.0 ≡ laid front.now (tabulate (debug_part elf.now.bytes.now) (section_count elf.now.bytes.now))) }
    ensures heads { IfOk result (λ l. l.1.items ≡ new_heads front.now (tabulate (debug_part elf.now.bytes.now) (section_count elf.now.bytes.now))) }
    ensures small { IfOk result (λ l. length front.now + length l.0 ≤ output_limit) }
    ensures refused { IfErr result (Blames (TooLong (length (laid front.now (tabulate (debug_part elf.now.bytes.now) (section_count elf.now.bytes.now)))))) }
{
    let mut out = Pieces::new(alloc);
    let mut heads = Vec::with_capacity(alloc, elf.sections.len())?;
    for section in 0..elf.section_count() {
        let drops = dropped[section as usize];
        heads.push(lay_section(alloc, elf, section, drops, front, &mut out)?)?;
    }
    Ok((out, heads))
}

/// The debug file, of which the sections lend their bytes; `dropped` says which sections the stripped file doesn't
/// keep. Refused as `TooLarge` only where it would pass the limit.
#[tactic(auto, unfolding(crate::specs::DebugFile::debug_file, dw_base::specs::Layout::laid_out), using(elf_layout::proofs::PartRows::file_rows))]
pub fn debug_file<'a>(
    alloc: Global,
    elf: &ElfFile<'a>,
    dropped: &[bool],
) -> Result<Pieces<'a>, Fault>
    requires some { e_shoff elf.now.bytes.now ≢ 0 }
    requires dropped { dropped.now ≡ tabulate (is_droppable elf.now.bytes.now) (section_count elf.now.bytes.now) }
    ensures file { IfOk result (λ file. file ≡ debug_file elf.now.bytes.now) }
    ensures none { OnOk result ((r : Refusal) → TooLong (length (debug_file elf.now.bytes.now)) r → ⊥) }
    ensures refused { IfErr result (Blames (TooLong (length (debug_file elf.now.bytes.now)))) }
{
    let front = debug_front(alloc, elf)?;
    let (behind, heads) = lay_sections(alloc, elf, dropped, &front)?;
    let file = join_table(alloc, front, behind, elf.class, elf.order, &heads)?;
    Ok(file)
}
