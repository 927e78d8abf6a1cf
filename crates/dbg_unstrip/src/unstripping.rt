//! A stripped file and its debug file joined to one: this project's profile.

ghost use Rattle.std.specs.Prelude.{◌≡◌, ◌<◌, ◌≤◌, ℕ, List, length, slice_index, IfErr, IfOk, OnOk};
ghost use Rattle.dw_base.specs.ElfFails.{SegmentsRead};
ghost use Rattle.dw_base.specs.Layout.{output_limit};
ghost use Rattle.dbg_unstrip.specs.Joined.{joined};
ghost use Rattle.dbg_unstrip.specs.Matching.{Differ, DontMatch};
ghost use Rattle.dbg_unstrip.specs.Rejoined.{IsRejoined, WasSplit};
ghost use Rattle.dbg_unstrip.specs.UnstripFails.{AreJoinable, AreMatched, CanMatch, UnstripBlames, UnstripFails};
ghost use Rattle.dbg_unstrip.specs.declared.unstrip_err.UnstripErr.{UnstripErr};

use crate::joining::joined;
use crate::matching::match_all;
use crate::pairing::is_pair;
use crate::unstrip_err::UnstripErr;
use dw_base::{Kind, Refusal};
use elf_file::ElfFile;
use elf_layout::Pieces;
use std::alloc::Global;

/// Where a file header has `e_type`, in bytes (gABI ch. 4 "ELF Header").
pub const TYPE_PLACE: u64 = 16;

/// The two are a pair by this name, and the stripped file is one that is loaded as it stands.
#[tactic(auto, using(crate::proofs::UnstripRows::can_rows))]
fn can_match(
    alloc: Global,
    stripped: &ElfFile,
    debug: &ElfFile,
    name: &[u8],
) -> Result<(), UnstripErr>
    ensures can { OnOk result (CanMatch stripped.now.bytes.now debug.now.bytes.now name.now) }
    ensures refused { IfErr result (UnstripBlames stripped.now.bytes.now debug.now.bytes.now name.now) }
{
    is_pair(alloc, stripped, debug, name)?;
    if !stripped.is_loaded_kind() {
        return Err(UnstripErr::Refused(Refusal::at(Kind::FileType, 0, TYPE_PLACE)));
    }
    Ok(())
}

/// The two match; else the answer at which place they don't.
#[tactic(auto, using(crate::proofs::UnstripRows::match_rows))]
fn matched(stripped: &ElfFile, debug: &ElfFile, name: &[u8]) -> Result<(), UnstripErr>
    requires can { CanMatch stripped.now.bytes.now debug.now.bytes.now name.now }
    ensures none { OnOk result ((place : ℕ) → DontMatch stripped.now.bytes.now debug.now.bytes.now place → ⊥) }
    ensures lists { OnOk result ((n : ℕ) → Differ stripped.now.bytes.now debug.now.bytes.now n → ⊥) }
    ensures refused { IfErr result (UnstripBlames stripped.now.bytes.now debug.now.bytes.now name.now) }
{
    match match_all(stripped, debug) {
        Ok(()) => Ok(()),
        Err(place) => Err(UnstripErr::Unmatched { place }),
    }
}

/// What `unstrip` gives, byte for byte, and what is known of the bytes of the two files then.
#[tactic(auto, using(crate::proofs::UnstripRows::unstrip_rows))]
fn unstrip_bytes<'a>(
    alloc: Global,
    stripped_bytes: &[u8],
    debug_bytes: &[u8],
    stripped: &ElfFile<'a>,
    debug: &ElfFile<'a>,
    name: &[u8],
) -> Result<Pieces<'a>, UnstripErr>
    requires stripped { stripped_bytes.now ≡ stripped.now.bytes.now }
    requires debug { debug_bytes.now ≡ debug.now.bytes.now }
    requires segments { SegmentsRead stripped.now.bytes.now }
    ensures file { IfOk result (λ file. file ≡ joined stripped.now.bytes.now debug.now.bytes.now) }
    ensures joinable { OnOk result (AreJoinable stripped.now.bytes.now debug.now.bytes.now name.now) }
    ensures stripped_bytes { (k : ℕ) → slice_index stripped_bytes.now k < 256 }
    ensures debug_bytes { (k : ℕ) → slice_index debug_bytes.now k < 256 }
    ensures refused { IfErr result (UnstripBlames stripped.now.bytes.now debug.now.bytes.now name.now) }
{
    can_match(alloc, stripped, debug, name)?;
    matched(stripped, debug, name)?;
    let file = joined(alloc, stripped, debug)?;
    Ok(file)
}

/// The file of a stripped file and the debug file that it names, whose base name is `name`, in pieces, of which the two lend most
/// bytes: the sections of the debug file, of which those that the stripped file has kept have their bytes, and their place where they
/// stay, from there. `NotAPair` exactly where the stripped file has no link that can be read, or the link has another name or another
/// sum, with both values; else `Refused` as `FileType` at (0, 16) exactly where the stripped file is neither of type EXEC nor DYN; else
/// `Unmatched` exactly where the two don't match: at place 0 where class, byte order, type or machine differ, where the debug file
/// has no sections, where the last section of the stripped file isn't the link, or where one of its sections begins in its file
/// header; else at the first place at which the kept sections of the debug file and the sections of the stripped file differ; else
/// `Refused` as `TooLarge` at (0, 0) exactly where the file would pass the limit; or for want of memory. Where the two are those of a
/// file that was split, whatever is answered, nothing but want of room keeps them from being joined; and the file of both has the
/// sections of that one by number, name, header and contents, but for their places, means what that means, and has what is loaded of
/// it.
pub fn unstrip<'a>(
    alloc: Global,
    stripped: &ElfFile<'a>,
    debug: &ElfFile<'a>,
    name: &[u8],
) -> Result<Pieces<'a>, UnstripErr>
    requires segments { SegmentsRead stripped.now.bytes.now }
    ensures file { IfOk result (λ file. file ≡ joined stripped.now.bytes.now debug.now.bytes.now) }
    ensures joinable { OnOk result (AreJoinable stripped.now.bytes.now debug.now.bytes.now name.now) }
    ensures none { OnOk result ((e : UnstripErr) → UnstripFails stripped.now.bytes.now debug.now.bytes.now name.now e → ⊥) }
    ensures refused { IfErr result (UnstripBlames stripped.now.bytes.now debug.now.bytes.now name.now) }
    ensures matched { (b : List ℕ) → WasSplit b name.now stripped.now.bytes.now debug.now.bytes.now → AreMatched stripped.now.bytes.now debug.now.bytes.now name.now }
    ensures back { (b : List ℕ) → WasSplit b name.now stripped.now.bytes.now debug.now.bytes.now → length (joined stripped.now.bytes.now debug.now.bytes.now) ≤ output_limit → IsRejoined b (joined stripped.now.bytes.now debug.now.bytes.now) }
{
    let file = unstrip_bytes(alloc, stripped.bytes, debug.bytes, stripped, debug, name)?;
    Ok(file)
}
