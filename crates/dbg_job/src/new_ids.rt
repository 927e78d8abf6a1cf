//! The build-id of a file: whether it can be made anew, the file with a new one, and its bytes (the GNU build-id note;
//! this project's profile).

ghost use Rattle.std.specs.Prelude.{◌≡◌, ◌<◌, ◌≤◌, ◌+◌, ◌++◌, drop, length, replicate, take, IfErr, IfNone, IfOk, IfSome, OnOk, None};
ghost use Rattle.sha1.specs.Sha1.{sha1};
ghost use Rattle.dw_base.specs.ElfFails.{ElfReads, SegmentsRead};
ghost use Rattle.dw_base.specs.Layout.{output_limit};
ghost use Rattle.build_ident.specs.IdFails.{IdFails, IsIdPlace, id_section};
ghost use Rattle.dbg_job.specs.NewIds.{IdFits, KeepsId, id_bytes, with_new_id};

use build_ident::{IdPlace, digest_of_pieces, find_id, set_id};
use dw_base::{NoMemory, Refusal};
use elf_file::ElfFile;
use elf_layout::Pieces;
use file_tree::Blob;
use std::alloc::Global;

/// Nothing is wrong with the build-id of a file. Refused as `BuildId` at (the section of the note, 0) exactly where
/// something is.
#[tactic(auto, using(crate::proofs::IdPlaceLaws::fit_rules))]
pub(crate) fn id_fits(elf: &ElfFile) -> Result<(), Refusal>
    ensures fits { OnOk result (IdFits elf.now.bytes.now) }
    ensures refused { IfErr result (IdFails elf.now.bytes.now) }
{
    find_id(elf)?;
    Ok(())
}

/// The place of the build-id of a file whose records can be read, and with whose build-id nothing is wrong.
#[tactic(auto, using(crate::proofs::IdPlaceLaws::place_rules))]
fn place_in(alloc: Global, bytes: &[u8]) -> Result<Option<IdPlace>, NoMemory>
    requires small { length bytes.now ≤ output_limit }
    requires reads { ElfReads bytes.now }
    requires fits { IdFits bytes.now }
    ensures absent { IfOk result (λ o. IfNone o (id_section bytes.now ≡ None)) }
    ensures place { IfOk result (λ o. IfSome o (λ place. IsIdPlace bytes.now place.at place.len)) }
    ensures inside { IfOk result (λ o. IfSome o (λ place. place.at + place.len ≤ length bytes.now)) }
    ensures some { IfOk result (λ o. IfSome o (λ place. 2 ≤ place.len)) }
    ensures wide { IfOk result (λ o. IfSome o (λ place. place.len ≤ 20)) }
{
    match ElfFile::read(alloc, bytes) {
        Ok(elf) => Ok(place_of(&elf)),
        Err(_) => Err(NoMemory),
    }
}

/// The same, of a file whose records were read.
#[tactic(auto, using(crate::proofs::IdPlaceLaws::place_rules))]
fn place_of(elf: &ElfFile) -> Option<IdPlace>
    requires fits { IdFits elf.now.bytes.now }
    ensures absent { IfNone result (id_section elf.now.bytes.now ≡ None) }
    ensures place { IfSome result (λ place. IsIdPlace elf.now.bytes.now place.at place.len) }
    ensures inside { IfSome result (λ place. place.at + place.len ≤ length elf.now.bytes.now) }
    ensures some { IfSome result (λ place. 2 ≤ place.len) }
    ensures wide { IfSome result (λ place. place.len ≤ 20) }
{
    match find_id(elf) {
        Ok(place) => place,
        Err(_) => unreachable!(),
    }
}

/// The output of a file with a new build-id, made of a seed and of the output; one that has none stays as it is. Where the id lies in the
/// part that stays, nothing is copied.
pub(crate) fn with_new_id<'a>(
    alloc: Global,
    bytes: &[u8],
    file: Pieces<'a>,
    seed: &[u8],
) -> Result<Pieces<'a>, NoMemory>
    requires file_small { length bytes.now ≤ output_limit }
    requires file_reads { ElfReads bytes.now }
    requires file_fits { IdFits bytes.now }
    requires kept { KeepsId bytes.now file }
    requires small { length file ≤ output_limit }
    requires reads { ElfReads file }
    requires fits { IdFits file }
    ensures value { IfOk result (λ new. new ≡ with_new_id seed.now file.entry) }
    ensures long { IfOk result (λ new. length new ≡ length file.entry) }
{
    match ElfFile::read(alloc, bytes) {
        Ok(elf) => with_id_of(alloc, &elf, file, seed),
        Err(_) => Err(NoMemory),
    }
}

/// The same, of a file whose records were read.
#[tactic(auto, using(crate::proofs::IdPlaceLaws::new_id_rules, crate::proofs::StayingIdLaws::kept_rules))]
fn with_id_of<'a>(
    alloc: Global,
    elf: &ElfFile,
    file: Pieces<'a>,
    seed: &[u8],
) -> Result<Pieces<'a>, NoMemory>
    requires segments { SegmentsRead elf.now.bytes.now }
    requires file_fits { IdFits elf.now.bytes.now }
    requires kept { KeepsId elf.now.bytes.now file }
    requires small { length file ≤ output_limit }
    requires reads { ElfReads file }
    requires fits { IdFits file }
    ensures value { IfOk result (λ new. new ≡ with_new_id seed.now file.entry) }
    ensures long { IfOk result (λ new. length new ≡ length file.entry) }
{
    match place_of(elf) {
        Some(place) => with_id_at(alloc, place, elf.fixed_end(), file, seed),
        None => Ok(file),
    }
}

/// The same, where the file has its id at a place, and the part of it that stays ends at `end`.
#[tactic(auto, using(crate::proofs::StayingIdLaws::place_rules))]
fn with_id_at<'a>(
    alloc: Global,
    place: IdPlace,
    end: u64,
    file: Pieces<'a>,
    seed: &[u8],
) -> Result<Pieces<'a>, NoMemory>
    requires stays { place.at < end → IsIdPlace file place.at place.len }
    requires some { 2 ≤ place.len }
    requires wide { place.len ≤ 20 }
    requires small { length file ≤ output_limit }
    requires reads { ElfReads file }
    requires fits { IdFits file }
    ensures value { IfOk result (λ new. new ≡ with_new_id seed.now file.entry) }
    ensures long { IfOk result (λ new. length new ≡ length file.entry) }
{
    if place.at < end {
        return put_in_pieces(alloc, place, file, seed);
    }
    joined_with_id(alloc, &file, seed)
}

/// A file with its new build-id at a place.
#[tactic(auto, using(crate::proofs::IdPlaceLaws::piece_rules))]
fn put_in_pieces<'a>(
    alloc: Global,
    place: IdPlace,
    file: Pieces<'a>,
    seed: &[u8],
) -> Result<Pieces<'a>, NoMemory>
    requires place { IsIdPlace file place.at place.len }
    requires inside { place.at + place.len ≤ length file }
    requires wide { place.len ≤ 20 }
    ensures value { IfOk result (λ new. new ≡ with_new_id seed.now file.entry) }
    ensures long { IfOk result (λ new. length new ≡ length file.entry) }
{
    let mut new = file;
    let zeros = zeros_of(alloc, place.len)?;
    new.put(alloc, place.at, &zeros)?;
    let digest = digest_of(alloc, &new, seed)?;
    let id = first_bytes(&digest, place.len);
    new.put(alloc, place.at, id)?;
    Ok(new)
}

/// So many zeros.
fn zeros_of(alloc: Global, count: u8) -> Result<Vec<u8>, NoMemory>
    ensures value { IfOk result (λ zeros. zeros.items ≡ replicate count 0) }
{
    let mut zeros = Vec::new(alloc);
    zeros.resize(usize::from(count), 0)?;
    Ok(zeros)
}

/// The SHA-1 of a seed and a file.
fn digest_of(alloc: Global, file: &Pieces, seed: &[u8]) -> Result<[u8; 20], NoMemory>
    ensures value { IfOk result (λ digest. digest ≡ sha1 (seed.now ++ file.now)) }
{
    let slices = file.slices(alloc)?;
    Ok(digest_of_pieces(seed, &slices))
}

/// The first bytes of a digest, which are an id.
fn first_bytes(digest: &[u8; 20], len: u8) -> &[u8]
    requires wide { len ≤ 20 }
    ensures value { result.now ≡ take len digest.now }
    ensures long { length result.now ≡ len }
{
    &digest[..usize::from(len)]
}

/// A file with a new build-id, wherever it lies: its bytes are copied, and it is looked for.
#[tactic(auto, using(crate::proofs::IdPlaceLaws::joined_rules))]
fn joined_with_id<'a>(alloc: Global, file: &Pieces, seed: &[u8]) -> Result<Pieces<'a>, NoMemory>
    requires small { length file.now ≤ output_limit }
    requires reads { ElfReads file.now }
    requires fits { IdFits file.now }
    ensures value { IfOk result (λ new. new ≡ with_new_id seed.now file.now) }
    ensures long { IfOk result (λ new. length new ≡ length file.now) }
{
    let bytes = file.joined(alloc)?;
    let new = with_id_in(alloc, bytes, seed)?;
    let mut pieces = Pieces::new(alloc);
    pieces.push(new, &[])?;
    Ok(pieces)
}

/// The bytes of a file with a new build-id, made of a seed and of the file; one that has none stays as it is.
#[tactic(auto, using(crate::proofs::IdPlaceLaws::new_id_rules))]
fn with_id_in(alloc: Global, mut file: Vec<u8>, seed: &[u8]) -> Result<Vec<u8>, NoMemory>
    requires small { length file.items ≤ output_limit }
    requires reads { ElfReads file.items }
    requires fits { IdFits file.items }
    ensures value { IfOk result (λ new. new.items ≡ with_new_id seed.now file.items) }
    ensures long { IfOk result (λ new. length new.items ≡ length file.items) }
{
    match place_in(alloc, file.as_slice())? {
        Some(place) => {
            put_id(file.as_mut_slice(), place, seed);
            Ok(file)
        }
        None => Ok(file),
    }
}

/// Puts the new build-id of a file at its place.
#[tactic(auto, using(crate::proofs::IdPlaceLaws::new_id_rules))]
fn put_id(file: &mut [u8], place: IdPlace, seed: &[u8])
    requires place { IsIdPlace file.old place.at place.len }
    requires inside { place.at + place.len ≤ length file.old }
    requires some { 2 ≤ place.len }
    requires wide { place.len ≤ 20 }
    ensures value { file.new ≡ with_new_id seed.now file.old }
    ensures long { length file.new ≡ length file.old }
{
    set_id(file, place, seed);
}

/// The bytes of the build-id of a file, none where it has none.
#[tactic(auto, using(crate::proofs::IdPlaceLaws::bytes_rules))]
pub(crate) fn id_bytes(alloc: Global, file: &[u8]) -> Result<Option<Blob>, NoMemory>
    requires small { length file.now ≤ output_limit }
    requires reads { ElfReads file.now }
    requires fits { IdFits file.now }
    ensures value { IfOk result (λ id. id ≡ id_bytes file.now) }
{
    match place_in(alloc, file)? {
        Some(place) => {
            let id = bytes_at(alloc, file, place)?;
            Ok(Some(id))
        }
        None => Ok(None),
    }
}

/// The bytes at the place of a build-id.
fn bytes_at(alloc: Global, file: &[u8], place: IdPlace) -> Result<Blob, NoMemory>
    requires inside { place.at + place.len ≤ length file.now }
    ensures value { IfOk result (λ id. id ≡ take place.len (drop place.at file.now)) }
{
    let start = place.at as usize;
    let end = start + usize::from(place.len);
    let id = Blob::from_slice(alloc, &file[start..end])?;
    Ok(id)
}
