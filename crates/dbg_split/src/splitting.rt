//! A file split in two: this project's profile.

ghost use Rattle.std.specs.Prelude.{◌≡◌, ◌<◌, ◌≤◌, ℕ, false, length, slice_index, IfOk, OnOk, IfErr};
ghost use Rattle.dw_base.specs.ElfFails.{ElfReads};
ghost use Rattle.dw_base.specs.Layout.{output_limit};
ghost use Rattle.dw_base.specs.Refusals.{Blames};
ghost use Rattle.dw_base.specs.Texts.{has_nul};
ghost use Rattle.dw_base.specs.declared.fault.Refusal.{Refusal};
ghost use Rattle.debug_link.specs.Sums.{crc32};
ghost use Rattle.dw_meaning.specs.Loaded.{LoadedKept};
ghost use Rattle.dw_view.specs.Pairs.{IsPaired};
ghost use Rattle.dbg_split.specs.DebugFile.{debug_file};
ghost use Rattle.dbg_split.specs.DebugFileReads.{ReadsDebug};
ghost use Rattle.dbg_split.specs.KeptFront.{KeepsFront};
ghost use Rattle.dbg_split.specs.PairMeanings.{MeansAsOne, ReadApart};
ghost use Rattle.dbg_split.specs.PairViews.{JoinsTo};
ghost use Rattle.dbg_split.specs.SplitFails.{SplitFails};
ghost use Rattle.dbg_split.specs.StrippedFile.{stripped_file};
ghost use Rattle.dbg_split.specs.StrippedReads.{ReadsStripped};

use crate::debug_file::debug_file;
use crate::judging::dropped_sections;
use crate::stripping::{check_stripped, stripped_file};
use debug_link::{crc32_of, link_bytes};
use dw_base::{Fault, NoMemory};
use elf_file::ElfFile;
use elf_layout::Pieces;
use std::alloc::Global;

/// The two files that a file is split into.
#[derive(Debug, Drop)]
pub struct Pair<'a> {
    /// The file without debug data and symbols, with a link to the debug file.
    pub stripped: Vec<u8>,
    /// The debug file, of which the file that is split lends the sections.
    pub debug: Pieces<'a>,
}

/// The CRC-32 of bytes in pieces.
fn sum_of(alloc: Global, pieces: &Pieces) -> Result<u32, NoMemory>
    ensures value { IfOk result (λ sum. sum ≡ crc32 pieces.now) }
{
    let slices = pieces.slices(alloc)?;
    Ok(crc32_of(&slices))
}

/// The two files of a file that was read.
#[tactic(auto, using(crate::proofs::Rows::shape_rows))]
fn split_file<'a>(alloc: Global, elf: &ElfFile<'a>, debug_name: &[u8]) -> Result<Pair<'a>, Fault>
    requires reads { ElfReads elf.now.bytes.now }
    ensures debug { IfOk result (λ pair. pair.debug ≡ debug_file elf.now.bytes.now) }
    ensures stripped { IfOk result (λ pair. pair.stripped.items ≡ stripped_file elf.now.bytes.now debug_name.now) }
    ensures none { OnOk result ((r : Refusal) → SplitFails elf.now.bytes.now debug_name.now r → ⊥) }
    ensures refused { IfErr result (Blames (SplitFails elf.now.bytes.now debug_name.now)) }
{
    let dropped = dropped_sections(alloc, elf)?;
    let debug = debug_file(alloc, elf, &dropped)?;
    let link = link_bytes(alloc, elf.order, debug_name, sum_of(alloc, &debug)?)?;
    let stripped = stripped_file(alloc, elf, elf.fixed_end(), &dropped, link)?;
    Ok(Pair { stripped, debug })
}

/// A file that was read can be split.
#[tactic(auto, using(crate::proofs::Rows::shape_rows))]
fn check_file(alloc: Global, elf: &ElfFile, debug_name: &[u8]) -> Result<(), Fault>
    requires reads { ElfReads elf.now.bytes.now }
    requires small { length elf.now.bytes.now ≤ output_limit }
    ensures none { OnOk result ((r : Refusal) → SplitFails elf.now.bytes.now debug_name.now r → ⊥) }
    ensures refused { IfErr result (Blames (SplitFails elf.now.bytes.now debug_name.now)) }
{
    let dropped = dropped_sections(alloc, elf)?;
    debug_file(alloc, elf, &dropped)?;
    // A link is as long with any sum.
    let link = link_bytes(alloc, elf.order, debug_name, 0)?;
    check_stripped(alloc, elf, elf.fixed_end(), &dropped, link)?;
    Ok(())
}

/// What `split` gives, byte for byte, and what is known of the file then.
#[tactic(auto, using(crate::proofs::Rows::split_rows, crate::proofs::KeptLaws::kept_rules))]
fn split_bytes<'a>(alloc: Global, bytes: &'a [u8], debug_name: &[u8]) -> Result<Pair<'a>, Fault>
    requires small { length bytes.now ≤ output_limit }
    ensures debug { IfOk result (λ pair. pair.debug ≡ debug_file bytes.now) }
    ensures stripped { IfOk result (λ pair. pair.stripped.items ≡ stripped_file bytes.now debug_name.now) }
    ensures kept { IfOk result (λ pair. KeepsFront bytes.now pair.stripped.items) }
    ensures reads { OnOk result (ElfReads bytes.now) }
    ensures bytes { OnOk result ((k : ℕ) → slice_index bytes.now k < 256) }
    ensures none { OnOk result ((r : Refusal) → SplitFails bytes.now debug_name.now r → ⊥) }
    ensures refused { IfErr result (Blames (SplitFails bytes.now debug_name.now)) }
{
    let elf = ElfFile::read(alloc, bytes)?;
    let pair = split_file(alloc, &elf, debug_name)?;
    Ok(pair)
}

/// The two files that a file of type EXEC or DYN is split into: the stripped file, with a link to a debug file of
/// this base name, and that debug file, in pieces, of which the file lends those that stay. Refused as `Header` or
/// `Range` where the file can't be read, or has no sections or no section name table; as `FileType` at (0, 16) where
/// it is of another type; as `Fixed` at (a section, 0) where that section lies across the fixed end, begins in the
/// file header, would change and can't, is read for debug data and ALLOC, or is ALLOC and stands behind a droppable
/// one; as `Twice` at (a section, 0) where that is a debug link; as `TooLarge` where one of the two would pass the
/// limit; and only so. Where none of these holds it is split, or memory is short. What is loaded is kept: the program
/// headers and the bytes of each segment are as they were in the stripped file, and so is each byte before the fixed
/// end, but in `e_shoff`, `e_shnum` and `e_shstrndx`. The stripped file reads as an ELF file, and has each section
/// that isn't droppable, with its name and contents, and the link behind them. The debug file reads as one of debug
/// data, and has each section under its number, with its name, and with its contents but for those that the stripped
/// file keeps. Together they have each section of the file, with its name and contents, of ALLOC sections with bytes
/// the name alone: the k-th section of a name without bytes in the debug file is the k-th of that name in the
/// stripped one. So the debug data of the two are those of the file, and they mean what the file means, wherever it
/// means something. They are a pair by that name, where it has no NUL, and each can be read for its sections where
/// the file can.
pub fn split<'a>(alloc: Global, bytes: &'a [u8], debug_name: &[u8]) -> Result<Pair<'a>, Fault>
    requires small { length bytes.now ≤ output_limit }
    ensures debug { IfOk result (λ pair. pair.debug ≡ debug_file bytes.now) }
    ensures stripped { IfOk result (λ pair. pair.stripped.items ≡ stripped_file bytes.now debug_name.now) }
    ensures kept { IfOk result (λ pair. KeepsFront bytes.now pair.stripped.items) }
    ensures debug_reads { IfOk result (λ pair. ReadsDebug bytes.now pair.debug) }
    ensures stripped_reads { IfOk result (λ pair. ReadsStripped bytes.now debug_name.now pair.stripped.items) }
    ensures joins { IfOk result (λ pair. JoinsTo bytes.now pair.debug pair.stripped.items) }
    ensures meaning { IfOk result (λ pair. MeansAsOne bytes.now pair.debug pair.stripped.items) }
    ensures paired { has_nul debug_name.now ≡ false → IfOk result (λ pair. IsPaired pair.stripped.items pair.debug debug_name.now) }
    ensures reads { IfOk result (λ pair. ReadApart bytes.now pair.debug pair.stripped.items) }
    ensures loaded { IfOk result (λ pair. LoadedKept bytes.now pair.stripped.items) }
    ensures bytes { OnOk result ((k : ℕ) → slice_index bytes.now k < 256) }
    ensures none { OnOk result ((r : Refusal) → SplitFails bytes.now debug_name.now r → ⊥) }
    ensures refused { IfErr result (Blames (SplitFails bytes.now debug_name.now)) }
{
    let pair = split_bytes(alloc, bytes, debug_name)?;
    Ok(pair)
}

/// A file can be split: `split` makes the two files of it, or memory is short. Refused exactly where `split` refuses, and as
/// that does. None of the two is made: no sum is taken, and what stays at its place isn't copied.
#[tactic(auto, using(crate::proofs::Rows::split_rows))]
pub fn check_split(alloc: Global, bytes: &[u8], debug_name: &[u8]) -> Result<(), Fault>
    requires small { length bytes.now ≤ output_limit }
    ensures bytes { OnOk result ((k : ℕ) → slice_index bytes.now k < 256) }
    ensures none { OnOk result ((r : Refusal) → SplitFails bytes.now debug_name.now r → ⊥) }
    ensures refused { IfErr result (Blames (SplitFails bytes.now debug_name.now)) }
{
    let elf = ElfFile::read(alloc, bytes)?;
    check_file(alloc, &elf, debug_name)?;
    Ok(())
}
