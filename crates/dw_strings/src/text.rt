//! The text at a place of a string section (DWARF 5, 7.5.5, class string; 7.26).

ghost use Rattle.std.specs.Prelude.{◌≡◌, ◌↔◌, true, false, IsErr, IfErr, IfOk, OnOk, MatchOption};
ghost use Rattle.dw_base.specs.Texts.{has_nul, text, text_in, ends_in};

use dw_base::{Kind, Refusal, nul_in};

/// The text at `at`, in bytes from the section's start: the bytes before the first NUL from there on.
/// Refused as `StringOffset` at (`section`, `at`) exactly where no NUL follows.
#[tactic(auto, unfolding(dw_base::specs::Texts::text_in, dw_base::specs::Texts::ends_in))]
pub fn text_at(section: u32, bytes: &[u8], at: u64) -> Result<&[u8], Refusal>
    ensures text { IfOk result (λ read. read.now ≡ text_in bytes.now at) }
    ensures ends { OnOk result (ends_in bytes.now at ≡ true) }
    ensures refused { IsErr result ↔ (ends_in bytes.now at ≡ false) }
    ensures place { IfErr result (λ r. r ≡ record { kind = Kind.StringOffset; section = section; offset = at }) }
{
    if at <= bytes.len() as u64 {
        if let Some(text) = front_text(&bytes[at as usize..]) {
            return Ok(text);
        }
    }
    Err(Refusal::at(Kind::StringOffset, section, at))
}

/// The text at the front.
#[tactic(auto, using(crate::proofs::Rules::text_rules))]
fn front_text(rest: &[u8]) -> Option<&[u8]>
    ensures value { MatchOption result (has_nul rest.now ≡ false) (λ read. (read.now ≡ text rest.now) × (has_nul rest.now ≡ true)) }
{
    match nul_in(rest) {
        Some(len) => Some(&rest[..len]),
        None => None,
    }
}
