//! Texts and numbers as they are printed.

ghost use Rattle.std.specs.Prelude.{◌≡◌, ◌++◌, ◌∷◌, ◌<◌, [], true, OnOk};
ghost use Rattle.std.specs.String.{string_bytes};
ghost use Rattle.dbg_show.specs.Quoting.{byte_text, bytes_text, escaped, is_plain, quoted};

use std::alloc::AllocError;

/// Whether a byte stands for itself.
#[tactic(auto, unfolding(crate::specs::Quoting::is_plain))]
fn is_plain(byte: u8) -> bool
    ensures test { result ≡ is_plain byte }
    ensures ascii { result ≡ true → byte < 128 }
{
    byte >= 0x20 && byte <= 0x7e && byte != b'"' && byte != b'\\'
}

/// Appends a byte by two digits.
#[tactic(auto, unfolding(crate::specs::Quoting::escaped))]
fn push_escaped(text: &mut String, byte: u8) -> Result<(), AllocError>
    ensures text { OnOk result (string_bytes text.new ≡ string_bytes text.old ++ escaped byte) }
{
    if byte < 0x10 {
        return write!(text, "\\x0{byte:x}");
    }
    write!(text, "\\x{byte:x}")
}

/// Appends a printable byte.
fn push_own(text: &mut String, byte: u8) -> Result<(), AllocError>
    requires ascii { byte < 128 }
    ensures text { OnOk result (string_bytes text.new ≡ string_bytes text.old ++ byte ∷ []) }
{
    text.push(char::from(byte))
}

/// Appends a byte as it is printed.
#[tactic(auto, using(crate::proofs::QuotingLaws::byte_laws))]
fn push_byte(text: &mut String, byte: u8) -> Result<(), AllocError>
    ensures text { OnOk result (string_bytes text.new ≡ string_bytes text.old ++ byte_text byte) }
{
    if is_plain(byte) {
        return push_own(text, byte);
    }
    push_escaped(text, byte)
}

/// Appends the bytes of a text as they are printed.
#[tactic(auto, using(crate::proofs::QuotingLaws::bytes_laws))]
fn push_bytes(text: &mut String, bytes: &[u8]) -> Result<(), AllocError>
    ensures text { OnOk result (string_bytes text.new ≡ string_bytes text.old ++ bytes_text bytes.now) }
{
    for &byte in bytes {
        push_byte(text, byte)?;
    }
    Ok(())
}

/// Appends a text in its quotes.
#[tactic(auto, using(crate::proofs::QuotingLaws::quoted_laws))]
pub(crate) fn push_quoted(text: &mut String, bytes: &[u8]) -> Result<(), AllocError>
    ensures text { OnOk result (string_bytes text.new ≡ string_bytes text.old ++ quoted bytes.now) }
{
    text.push_str("\"")?;
    push_bytes(text, bytes)?;
    text.push_str("\"")
}
