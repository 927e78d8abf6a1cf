//! Whether a file of a front and parts would be too long, found without a copy of the front: this project's profile.

ghost use Rattle.std.specs.Prelude.{◌≡◌, ◌+◌, ◌≤◌, ◌++◌, ℕ, length, take, vec_len, IfOk, OnOk, IfErr};
ghost use Rattle.dw_base.specs.Elf.{ehdr_size};
ghost use Rattle.dw_base.specs.Layout.{output_limit, extended, laid};
ghost use Rattle.dw_base.specs.LayoutFails.{TooLong};
ghost use Rattle.dw_base.specs.Parts.{parts_file};
ghost use Rattle.dw_base.specs.Refusals.{Blames};
ghost use Rattle.dw_base.specs.declared.fault.Refusal.{Refusal};
ghost use Rattle.elf_layout.specs.PartsGiven.{part_given, parts_given};

use dw_base::{Fault, NoMemory, Section};
use elf_file::ElfFile;
use elf_layout::{Part, Pieces, join_table, lay_lent};
use std::alloc::Global;

/// Lays out a part behind a front and the pieces so far, where it is neither kept nor of type NULL or NOBITS; its new
/// header.
fn lay_part<'a>(
    alloc: Global,
    part: &'a Part,
    front: &[u8],
    out: &mut Pieces<'a>,
) -> Result<Section, Fault>
    requires small { length front.now + length out.old ≤ output_limit }
    ensures laid { OnOk result (front.now ++ out.new ≡ extended (front.now ++ out.old) (part_given part.now)) }
    ensures small { OnOk result (length front.now + length out.new ≤ output_limit) }
    ensures refused { IfErr result (Blames (TooLong (length (extended (front.now ++ out.old) (part_given part.now))))) }
{
    let moves = !part.kept && !part.head.takes_no_room();
    match &part.body {
        Some(body) => lay_lent(alloc, front, out, &part.head, moves, body.as_slice()),
        None => lay_lent(alloc, front, out, &part.head, moves, &[]),
    }
}

/// Lays out parts behind a front and the pieces so far; their new headers.
fn lay_parts<'a>(
    alloc: Global,
    parts: &'a [Part],
    front: &[u8],
    out: &mut Pieces<'a>,
) -> Result<Vec<Section>, Fault>
    requires small { length front.now + length out.old ≤ output_limit }
    ensures laid { OnOk result (front.now ++ out.new ≡ laid (front.now ++ out.old) (parts_given parts.now)) }
    ensures count { IfOk result (λ heads. vec_len heads ≡ length parts.now) }
    ensures small { OnOk result (length front.now + length out.new ≤ output_limit) }
    ensures refused { IfErr result (Blames (TooLong (length (laid (front.now ++ out.old) (parts_given parts.now))))) }
{
    let mut heads = Vec::with_capacity(alloc, parts.len())?;
    for part in parts {
        heads.push(lay_part(alloc, part, front, out)?)?;
    }
    Ok(heads)
}

/// The part of a file before its fixed end: the file header, and what stands behind it, lent.
fn front_of<'a>(
    alloc: Global,
    elf: &'a ElfFile,
    end: u64,
) -> Result<(Vec<u8>, Pieces<'a>), NoMemory>
    requires header { ehdr_size elf.now.class ≤ end }
    requires within { end ≤ length elf.now.bytes.now }
    requires small { end ≤ output_limit }
    ensures front { IfOk result (λ f. f.0.items ++ f.1 ≡ take end elf.now.bytes.now) }
    ensures header { IfOk result (λ f. vec_len f.0 ≡ ehdr_size elf.now.class) }
{
    let size = elf.class.file_header_size() as usize;
    let header = Vec::from_slice(alloc, &elf.bytes[..size])?;
    let mut behind = Pieces::new(alloc);
    behind.push(Vec::new(alloc), &elf.bytes[size..end as usize])?;
    Ok((header, behind))
}

/// The file of the part before the fixed end and of parts isn't too long, as `write_parts` makes it, whatever the number of its
/// section name table. Refused as `TooLarge` exactly where it is.
pub fn check_parts(alloc: Global, elf: &ElfFile, end: u64, parts: &[Part]) -> Result<(), Fault>
    requires header { ehdr_size elf.now.class ≤ end }
    requires within { end ≤ length elf.now.bytes.now }
    requires small { end ≤ output_limit }
    ensures none { OnOk result ((names : ℕ) (r : Refusal)
        → TooLong (length (parts_file elf.now.class elf.now.order (take end elf.now.bytes.now) (parts_given parts.now) names)) r → ⊥) }
    ensures refused { IfErr result (λ f. (names : ℕ)
        → Blames (TooLong (length (parts_file elf.now.class elf.now.order (take end elf.now.bytes.now) (parts_given parts.now) names))) f) }
{
    let (header, mut out) = front_of(alloc, elf, end)?;
    let heads = lay_parts(alloc, parts, &header, &mut out)?;
    join_table(alloc, header, out, elf.class, elf.order, &heads)?;
    Ok(())
}
