//! A part of bytes.

ghost use Rattle.std.specs.Prelude.{◌≡◌, drop, take};

/// So many bytes at a place, as far as they are there.
#[tactic(auto, using(crate::proofs::PartLaws::part_laws))]
pub fn part(bytes: &[u8], at: u64, len: u64) -> &[u8]
    ensures bytes { result.now ≡ take len (drop at bytes.now) }
{
    let from = at.min(bytes.len() as u64);
    let (_, rest) = bytes.split_at(from as usize);
    let to = len.min(rest.len() as u64);
    let (text, _) = rest.split_at(to as usize);
    text
}
