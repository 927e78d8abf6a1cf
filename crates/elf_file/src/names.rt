//! Texts in a string table (gABI ch. 4 "String Table").

ghost use Rattle.std.specs.Prelude.{◌≡◌, ◌≤◌, length, take};
ghost use Rattle.dw_base.specs.Texts.{text, text_in};

/// How many bytes stand before the first NUL.
#[tactic(auto, using(crate::proofs::TextLaws::text_laws))]
fn text_len(bytes: &[u8]) -> usize
    ensures short { result ≤ length bytes.now }
    ensures text { take result bytes.now ≡ text bytes.now }
{
    for i in 0..bytes.len() {
        if bytes[i] == 0 {
            return i;
        }
    }
    bytes.len()
}

/// The text at a place, in bytes from the start of the table: the bytes before the next NUL.
#[tactic(auto, using(crate::proofs::TextLaws::text_laws), unfolding(dw_base::specs::Texts::text_in))]
pub fn text_in(table: &[u8], place: u64) -> &[u8]
    ensures { result.now ≡ text_in table.now place }
{
    if place >= table.len() as u64 {
        return &table[..0];
    }
    let rest = &table[place as usize..];
    &rest[..text_len(rest)]
}
