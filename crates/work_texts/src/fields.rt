//! One field of a text of the work folder, and its value (this project's profile).
//!
//! **This layer promises**: each reader answers the value of the first field and the bytes behind it,
//! or how many bytes are left at the field that is bad.
//! Read first: `specs/Reading.antt`.
ghost use Rattle.std.specs.Prelude.{◌≡◌, ◌==◌, position};
ghost use Rattle.work_texts.specs.Reading.{Gives, field_at, value_at, word_in, choice_in, text_in};

use crate::stop::Stop;
use file_tree::Blob;
use std::alloc::Global;

/// The first field, and the bytes behind its NUL.
#[tactic(auto, using(crate::proofs::FieldRules::field_rules))]
pub(crate) fn field(bytes: &[u8]) -> Result<(&[u8], &[u8]), Stop>
    ensures value { Gives (λ r. (r.0.now, r.1.now)) result (field_at bytes.now) }
{
    match nul_in(bytes) {
        Some(len) => Ok((&bytes[..len], &bytes[len + 1..])),
        None => Err(Stop::Field { left: bytes.len() }),
    }
}

/// Where the first NUL stands.
fn nul_in(bytes: &[u8]) -> Option<usize>
    ensures value { result ≡ position (λ b. b == 0) bytes.now }
{
    bytes.iter().position(|b| *b == 0)
}

/// A field that is this word.
#[tactic(auto, unfolding(crate::specs::Reading::value_at))]
pub(crate) fn word<'a>(bytes: &'a [u8], wanted: &[u8]) -> Result<((), &'a [u8]), Stop>
    ensures value { Gives (λ r. (r.0, r.1.now)) result (value_at (word_in wanted.now) bytes.now) }
{
    let (text, rest) = field(bytes)?;
    if text != wanted {
        return Err(Stop::Field { left: bytes.len() });
    }
    Ok(((), rest))
}

/// Whether a field is the second of two words; it is one of them.
#[tactic(auto, unfolding(crate::specs::Reading::value_at))]
pub(crate) fn choice<'a>(bytes: &'a [u8], off: &[u8], on: &[u8]) -> Result<(bool, &'a [u8]), Stop>
    ensures value { Gives (λ r. (r.0, r.1.now)) result (value_at (choice_in off.now on.now) bytes.now) }
{
    let (text, rest) = field(bytes)?;
    if text == off {
        return Ok((false, rest));
    }
    if text == on {
        return Ok((true, rest));
    }
    Err(Stop::Field { left: bytes.len() })
}

/// A field of any bytes.
#[tactic(auto, unfolding(crate::specs::Reading::value_at))]
pub(crate) fn any_text(alloc: Global, bytes: &[u8]) -> Result<(Blob, &[u8]), Stop>
    ensures value { Gives (λ r. (r.0, r.1.now)) result (value_at text_in bytes.now) }
{
    let (text, rest) = field(bytes)?;
    let text = Blob::from_slice(alloc, text)?;
    Ok((text, rest))
}
