//! Digests and ids as fields: lower-case hexadecimal digits (this project's profile).
//!
//! Read first: `specs/Reading.antt`.
ghost use Rattle.std.specs.Prelude.{◌≡◌, ℕ, List, length, IfOk, IfErr, option_map};
ghost use Rattle.hex.specs.Hex.{decode_of, encode_lower};
ghost use Rattle.dw_base.specs.Texts.{same_text};
ghost use Rattle.work_texts.specs.Lists.{bytes_of};
ghost use Rattle.work_texts.specs.Rules.{may_have_id};
ghost use Rattle.work_texts.specs.Reading.{Gives, value_at, digest_in, id_in, lower_hex};

use crate::fields::field;
use crate::stop::Stop;
use file_tree::Blob;
use hex::{FromHex, FromHexError};
use std::alloc::Global;

/// The longest id, in digits.
const ID_DIGITS: usize = 40;

/// A field that is a SHA-1 digest.
#[tactic(auto, unfolding(crate::specs::Reading::value_at))]
pub(crate) fn digest(alloc: Global, bytes: &[u8]) -> Result<([u8; 20], &[u8]), Stop>
    ensures value { Gives (λ r. (r.0, r.1.now)) result (value_at digest_in bytes.now) }
{
    let (text, rest) = field(bytes)?;
    match digest_of(alloc, text)? {
        Some(digest) => Ok((digest, rest)),
        None => Err(Stop::Field { left: bytes.len() }),
    }
}

/// The digest that forty digits write.
#[tactic(auto, unfolding(crate::specs::Reading::digest_in))]
fn digest_of(alloc: Global, text: &[u8]) -> Result<Option<[u8; 20]>, Stop>
    ensures value { Gives (λ o. o) result (Ok (digest_in text.now)) }
{
    let Ok(digest) = <[u8; 20] as FromHex>::from_hex(text) else {
        return Ok(None);
    };
    if !is_written(alloc, digest.as_slice(), text)? {
        return Ok(None);
    }
    Ok(Some(digest))
}

/// A field that is the id of a file, which is split or only edited.
#[tactic(auto, unfolding(crate::specs::Reading::value_at))]
pub(crate) fn id(alloc: Global, split: bool, bytes: &[u8]) -> Result<(Blob, &[u8]), Stop>
    ensures value { Gives (λ r. (r.0, r.1.now)) result (value_at (id_in split) bytes.now) }
{
    let (text, rest) = field(bytes)?;
    match id_of(alloc, split, text)? {
        Some(id) => Ok((id, rest)),
        None => Err(Stop::Field { left: bytes.len() }),
    }
}

/// The id that these digits write.
#[tactic(auto, using(crate::proofs::DigitLaws::id_rules), unfolding(crate::specs::Reading::id_in))]
fn id_of(alloc: Global, split: bool, text: &[u8]) -> Result<Option<Blob>, Stop>
    ensures value { Gives (λ o. o) result (Ok (id_in split text.now)) }
{
    if text.len() > ID_DIGITS {
        return Ok(None);
    }
    match lower_hex(alloc, text)? {
        Some(id) if may_have_id(split, id.len()) => Ok(Some(Blob::new(id))),
        _ => Ok(None),
    }
}

/// Whether a file that is split, or only edited, may have an id of this length.
fn may_have_id(split: bool, len: usize) -> bool
    ensures value { (id : List ℕ) → length id ≡ len → result ≡ may_have_id split id }
{
    len == 0 || (split && 2 <= len && len <= 20)
}

/// The bytes that lower-case digits stand for.
fn lower_hex(alloc: Global, text: &[u8]) -> Result<Option<Vec<u8>>, Stop>
    ensures value { Gives (λ o. option_map bytes_of o) result (Ok (lower_hex text.now (decode_of text.now))) }
{
    let bytes = match hex::decode(alloc, text) {
        Ok(bytes) => bytes,
        Err(FromHexError::OutOfMemory) => return Err(Stop::NoMemory),
        Err(_) => return Ok(None),
    };
    if !is_written(alloc, bytes.as_slice(), text)? {
        return Ok(None);
    }
    Ok(Some(bytes))
}

/// Whether these bytes are written so: with lower-case digits.
fn is_written(alloc: Global, bytes: &[u8], text: &[u8]) -> Result<bool, Stop>
    ensures value { IfOk result (λ b. b ≡ same_text (encode_lower bytes.now) text.now) }
    ensures memory { IfErr result (λ e. e ≡ Stop.NoMemory) }
{
    let digits = hex::encode(alloc, bytes)?;
    Ok(digits.as_str().as_bytes() == text)
}
