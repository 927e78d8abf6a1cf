//! Numbers as fields: decimal digits, with no zero in front (this project's profile).
//!
//! Read first: `specs/Reading.antt`.
ghost use Rattle.std.specs.Prelude.{◌≡◌, ◌≤◌, ◌^◌, true, IfOk, IfSome, nat_lt};
ghost use Rattle.std.specs.Str.Parse.{digits_value};
ghost use Rattle.std.specs.Char.{is_ascii_digit};
ghost use Rattle.std.specs.List.{list_all};
ghost use Rattle.work_texts.specs.Reading.{Gives, value_at, is_numeral, number_in, when};

use crate::fields::field;
use crate::stop::Stop;

/// A field that is a number of these limits, both included.
#[tactic(auto, unfolding(crate::specs::Reading::value_at))]
pub(crate) fn number(bytes: &[u8], low: u64, high: u64) -> Result<(u64, &[u8]), Stop>
    ensures value { Gives (λ r. (r.0, r.1.now)) result (value_at (number_in low high) bytes.now) }
    ensures within { IfOk result (λ r. r.0 ≤ high) }
{
    let (text, rest) = field(bytes)?;
    match number_of(text, low, high) {
        Some(value) => Ok((value, rest)),
        None => Err(Stop::Field { left: bytes.len() }),
    }
}

/// The number that these digits write, where it is within the limits.
#[tactic(auto, using(crate::proofs::Numerals::numeral_rules), unfolding(crate::specs::Reading::number_in))]
fn number_of(text: &[u8], low: u64, high: u64) -> Option<u64>
    ensures value { result ≡ number_in low high text.now }
    ensures within { IfSome result (λ n. n ≤ high) }
{
    if !is_numeral(text) {
        return None;
    }
    let Some(value) = value_of(text) else {
        return None;
    };
    if value < low {
        return None;
    }
    if value > high {
        return None;
    }
    Some(value)
}

/// The value of some digits, where it fits 64 bits.
#[tactic(auto, using(crate::proofs::Numerals::parse_rules))]
fn value_of(text: &[u8]) -> Option<u64>
    requires { is_numeral text.now ≡ true }
    ensures { result ≡ when (nat_lt (digits_value 10 text.now) (2 ^ 64)) (digits_value 10 text.now) }
{
    match str::from_utf8(text) {
        Ok(text) => text.parse().ok(),
        Err(_) => None,
    }
}

/// Whether a field has digits alone, at least one, and no zero in front of others.
fn is_numeral(text: &[u8]) -> bool
    ensures value { result ≡ is_numeral text.now }
{
    has_digits_alone(text) && !text.is_empty() && (text.len() == 1 || !text.starts_with(b"0"))
}

/// Whether each byte is a decimal digit.
fn has_digits_alone(text: &[u8]) -> bool
    ensures value { result ≡ list_all is_ascii_digit text.now }
{
    text.iter().all(|b| b.is_ascii_digit())
}
