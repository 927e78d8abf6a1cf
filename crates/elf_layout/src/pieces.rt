//! A file in pieces: bytes that are new, and bytes that the file lends of which it is made. So what stays as it was isn't copied.

ghost use Rattle.std.specs.Prelude.{◌≡◌, ◌+◌, ◌++◌, ◌≤◌, ℕ, List, [], flat_map, length, vec_len, IfOk, OnOk};
ghost use Rattle.std.specs.Bool.{OnFalse, OnTrue};
ghost use Rattle.std.specs.List.{concat};
ghost use Rattle.dw_base.specs.Layout.{output_limit};
ghost use Rattle.elf_layout.specs.Patched.{put_at};

use dw_base::NoMemory;
use std::alloc::{AllocError, Global};
use std::marker::Model;

/// New bytes, and bytes of a file behind them.
#[derive(Debug, Drop)]
struct Piece<'a> {
    made: Vec<u8>,
    lent: &'a [u8],
}

impl<'a> Model for Piece<'a> {
    ghost Value = { List ℕ };

    ghost view = { λ p. p.made.items ++ p.lent.now };
}

impl<'a> Piece<'a> {
    /// Appends its bytes to others, as two slices.
    fn push_slices<'p>(&'p self, slices: &mut Vec<&'p [u8]>) -> Result<(), AllocError>
        ensures pushed { OnOk result (flat_map (λ s. s.now) slices.new.items ≡ flat_map (λ s. s.now) slices.old.items ++ self.now) }
    {
        slices.push(self.made.as_slice())?;
        slices.push(self.lent)?;
        Ok(())
    }

    /// Puts bytes at a place among those that were made; `false` where they don't lie there, and nothing changes.
    #[tactic(auto, using(crate::proofs::PieceLaws::put_rules))]
    fn put(&mut self, place: u64, bytes: &[u8]) -> bool
        ensures inside { OnTrue result (place + length bytes.now ≤ length self.old) }
        ensures put { OnTrue result (self.new ≡ put_at place bytes.now self.old) }
        ensures kept { OnFalse result (self.new ≡ self.old) }
    {
        let len = self.made.len() as u64;
        if place > len {
            return false;
        }
        if bytes.len() as u64 > len - place {
            return false;
        }
        put_in_vec(&mut self.made, place, bytes);
        true
    }

    /// Appends its bytes to others.
    fn push_bytes(&self, bytes: &mut Vec<u8>) -> Result<(), AllocError>
        ensures pushed { OnOk result (bytes.new.items ≡ bytes.old.items ++ self.now) }
    {
        bytes.extend_from_slice(&self.made)?;
        bytes.extend_from_slice(self.lent)?;
        Ok(())
    }
}

/// The bytes of a file, in pieces, one behind another.
#[derive(Debug, Drop)]
pub struct Pieces<'a> {
    pieces: Vec<Piece<'a>>,
    len: u64,
}

impl<'a> Model for Pieces<'a> {
    ghost Value = { List ℕ };

    ghost view = { λ p. concat p.pieces.items };

    ghost invariant = { λ p. p.len ≡ length (concat p.pieces.items) };
}

impl<'a> Pieces<'a> {
    /// No bytes.
    pub fn new(alloc: Global) -> Pieces<'a>
        ensures value { result ≡ [] }
    {
        Pieces {
            pieces: Vec::new(alloc),
            len: 0,
        }
    }

    /// How many bytes there are.
    pub fn len(&self) -> u64
        ensures value { result ≡ length self.now }
    {
        self.len
    }

    /// Appends new bytes, and bytes of the file behind them. After an error nothing is known of the pieces.
    #[tactic(auto, using(crate::proofs::PieceLaws::push_rules))]
    pub fn push(&mut self, made: Vec<u8>, lent: &'a [u8]) -> Result<(), NoMemory>
        requires room { length self.old + vec_len made + length lent.now ≤ output_limit }
        ensures pushed { OnOk result (self.new ≡ self.old ++ (made.items ++ lent.now)) }
    {
        let len = made.len() as u64 + lent.len() as u64;
        self.pieces.push(Piece { made, lent })?;
        self.len += len;
        Ok(())
    }

    /// Puts new bytes in front of all. After an error nothing is known of the pieces.
    #[tactic(auto, using(crate::proofs::PieceLaws::push_rules))]
    pub fn put_front(&mut self, front: Vec<u8>) -> Result<(), NoMemory>
        requires room { vec_len front + length self.old ≤ output_limit }
        ensures put { OnOk result (self.new ≡ front.items ++ self.old) }
    {
        let len = front.len() as u64;
        let made = front;
        self.pieces.insert(0, Piece { made, lent: &[] })?;
        self.len += len;
        Ok(())
    }

    /// Puts bytes at a place, in bytes from the start. Where it is among the new bytes in front of all, nothing is copied but they;
    /// else all is copied once.
    #[tactic(auto, using(crate::proofs::PieceLaws::put_rules))]
    pub fn put(&mut self, alloc: Global, place: u64, bytes: &[u8]) -> Result<(), NoMemory>
        requires inside { place + length bytes.now ≤ length self.old }
        ensures put { OnOk result (self.new ≡ put_at place bytes.now self.old) }
    {
        if put_in_first(&mut self.pieces, place, bytes) {
            return Ok(());
        }
        self.pieces = one_with(alloc, self.pieces.as_slice(), self.len, place, bytes)?;
        Ok(())
    }

    /// The bytes, as slices that stand one behind another; some of them are empty.
    pub fn slices(&self, alloc: Global) -> Result<Vec<&[u8]>, AllocError>
        ensures value { IfOk result (λ slices. flat_map (λ s. s.now) slices.items ≡ self.now) }
    {
        let slices = slices_of(alloc, self.pieces.as_slice())?;
        Ok(slices)
    }

    /// The bytes, copied into one vector.
    pub fn joined(&self, alloc: Global) -> Result<Vec<u8>, AllocError>
        ensures value { IfOk result (λ bytes. bytes.items ≡ self.now) }
    {
        let bytes = joined_of(alloc, self.pieces.as_slice(), self.len)?;
        Ok(bytes)
    }
}

/// The bytes of pieces, as slices.
#[tactic(auto, using(crate::proofs::PieceLaws::all_rules))]
fn slices_of<'p>(alloc: Global, pieces: &'p [Piece<'_>]) -> Result<Vec<&'p [u8]>, AllocError>
    ensures value { IfOk result (λ slices. flat_map (λ s. s.now) slices.items ≡ concat pieces.now) }
{
    let mut slices = Vec::new(alloc);
    'pieces: for piece in pieces {
        piece.push_slices(&mut slices)?;
    }
    Ok(slices)
}

/// The bytes of pieces, in a vector made for so many.
#[tactic(auto, using(crate::proofs::PieceLaws::all_rules))]
fn joined_of(alloc: Global, pieces: &[Piece<'_>], len: u64) -> Result<Vec<u8>, AllocError>
    ensures value { IfOk result (λ bytes. bytes.items ≡ concat pieces.now) }
{
    let mut bytes = Vec::with_capacity(alloc, len as usize)?;
    'pieces: for piece in pieces {
        piece.push_bytes(&mut bytes)?;
    }
    Ok(bytes)
}

/// Puts other bytes at a place.
#[tactic(auto, using(crate::proofs::PieceLaws::put_rules))]
fn put_in_vec(bytes: &mut Vec<u8>, place: u64, more: &[u8])
    requires inside { place + length more.now ≤ vec_len bytes.old }
    ensures put { bytes.new.items ≡ put_at place more.now bytes.old.items }
    ensures long { vec_len bytes.new ≡ vec_len bytes.old }
{
    put_bytes(bytes, place, more);
}

/// The same of a slice.
#[tactic(auto, using(crate::proofs::PieceLaws::put_rules))]
fn put_bytes(bytes: &mut [u8], place: u64, more: &[u8])
    requires inside { place + length more.now ≤ length bytes.old }
    ensures put { bytes.new ≡ put_at place more.now bytes.old }
    ensures long { length bytes.new ≡ length bytes.old }
{
    let start = place as usize;
    bytes[start..start + more.len()].copy_from_slice(more);
}

/// Puts bytes at a place among those that were made for the first piece; `false` where they don't lie there, and nothing changes.
#[tactic(auto, using(crate::proofs::PieceLaws::put_rules))]
fn put_in_first(pieces: &mut Vec<Piece<'_>>, place: u64, bytes: &[u8]) -> bool
    ensures put { OnTrue result (concat pieces.new.items ≡ put_at place bytes.now (concat pieces.old.items)) }
    ensures long { length (concat pieces.new.items) ≡ length (concat pieces.old.items) }
    ensures kept { OnFalse result (concat pieces.new.items ≡ concat pieces.old.items) }
{
    if pieces.is_empty() {
        return false;
    }
    let first = &mut pieces[0];
    first.put(place, bytes)
}

/// One piece of the bytes of pieces, so many, with others at a place.
#[tactic(auto, using(crate::proofs::PieceLaws::put_rules))]
fn one_with<'a>(
    alloc: Global,
    pieces: &[Piece<'_>],
    len: u64,
    place: u64,
    bytes: &[u8],
) -> Result<Vec<Piece<'a>>, AllocError>
    requires inside { place + length bytes.now ≤ length (concat pieces.now) }
    ensures put { IfOk result (λ one. concat one.items ≡ put_at place bytes.now (concat pieces.now)) }
    ensures long { IfOk result (λ one. length (concat one.items) ≡ length (concat pieces.now)) }
{
    let made = joined_with(alloc, pieces, len, place, bytes)?;
    let mut one = Vec::new(alloc);
    one.push(Piece { made, lent: &[] })?;
    Ok(one)
}

/// The bytes of pieces, so many, with others at a place.
fn joined_with(
    alloc: Global,
    pieces: &[Piece<'_>],
    len: u64,
    place: u64,
    bytes: &[u8],
) -> Result<Vec<u8>, AllocError>
    requires inside { place + length bytes.now ≤ length (concat pieces.now) }
    ensures put { IfOk result (λ made. made.items ≡ put_at place bytes.now (concat pieces.now)) }
    ensures long { IfOk result (λ made. vec_len made ≡ length (concat pieces.now)) }
{
    let mut made = joined_of(alloc, pieces, len)?;
    put_in_vec(&mut made, place, bytes);
    Ok(made)
}
