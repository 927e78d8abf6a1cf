//! What a build-id is: the first bytes of the SHA-1 of a seed and the file (this project's profile).
//!
//! `set_id` puts the defined id and takes no memory; `digest_of_pieces` is what it is made of, for a file in pieces. `id_text` prints an id.

ghost use Rattle.std.specs.Prelude.{◌≡◌, ◌≤◌, ◌+◌, ◌++◌, flat_map, length, IfOk};
ghost use Rattle.std.specs.String.{string_bytes};
ghost use Rattle.hex.specs.Hex.{encode_lower};
ghost use Rattle.sha1.specs.Sha1.{sha1};
ghost use Rattle.dw_base.specs.Notes.{zeroed};
ghost use Rattle.build_ident.specs.Ids.{with_id};

use crate::place::IdPlace;
use dw_base::NoMemory;
use sha1::Sha1;
use std::alloc::Global;

/// Puts the build-id of a file into it: the first bytes of the SHA-1 of the seed and the file, in which
/// the bytes of the id count as zeros. Nothing else changes.
#[tactic(auto, using(crate::proofs::IdLaws::id_rules), unfolding(crate::specs::Ids::with_id, crate::specs::Ids::id_of))]
pub fn set_id(bytes: &mut [u8], place: IdPlace, seed: &[u8])
    requires inside { place.at + place.len ≤ length bytes.old }
    requires some { 2 ≤ place.len }
    requires wide { place.len ≤ 20 }
    ensures value { bytes.new ≡ with_id seed.now bytes.old place.at place.len }
{
    let start = place.at as usize;
    let end = start + usize::from(place.len);
    bytes[start..end].fill(0);
    let digest = digest_of(seed, bytes);
    bytes[start..end].copy_from_slice(&digest[..usize::from(place.len)]);
}

/// The SHA-1 of a seed and a file.
fn digest_of(seed: &[u8], bytes: &[u8]) -> [u8; 20]
    ensures value { result ≡ sha1 (seed.now ++ bytes.now) }
{
    let mut hasher = Sha1::new();
    hasher.update(seed);
    hasher.update(bytes);
    hasher.finalize()
}

/// The SHA-1 of a seed and of the bytes of some pieces, one behind another. The first bytes of it are the build-id of a file of these pieces, in
/// which the bytes of the id are zeros.
#[tactic(auto, using(crate::proofs::PieceLaws::piece_rules))]
pub fn digest_of_pieces(seed: &[u8], pieces: &[&[u8]]) -> [u8; 20]
    ensures value { result ≡ sha1 (seed.now ++ flat_map (λ piece. piece.now) pieces.now) }
{
    let mut hasher = Sha1::new();
    hasher.update(seed);
    'pieces: for piece in pieces {
        hasher.update(piece);
    }
    hasher.finalize()
}

/// A build-id in lower-case hexadecimal digits, two for a byte.
pub fn id_text(alloc: Global, id: &[u8]) -> Result<String, NoMemory>
    ensures value { IfOk result (λ text. string_bytes text ≡ encode_lower id.now) }
{
    let text = hex::encode(alloc, id)?;
    Ok(text)
}
