//! The size of a value whose form says it, as the forms of most values do (DWARF 5, 7.5.6).

ghost use Rattle.std.specs.Prelude.{◌≡◌, ◌≤◌, ◌+◌, length, IfSome};
ghost use Rattle.dw_entries.specs.Passes.{plain_len, HasSize};

use dw_base::{Params, Spec};
use dw_forms::plain_size;

/// How many bytes the value of an attribute takes at a place of the bytes up to its unit's end, where its form is one of most values
/// (`dw_forms::plain_size`). `None` of every other form, and where so many bytes don't stand there.
#[tactic(auto, using(crate::proofs::SizedLaws::plain_rules))]
pub fn plain_len(params: &Params, bytes: &[u8], spec: &Spec, place: u64) -> Option<u64>
    requires inside { place ≤ length bytes.now }
    ensures value { result ≡ plain_len params.now spec.now bytes.now place }
    ensures size { IfSome result (HasSize params.now spec.now bytes.now place) }
    ensures within { IfSome result (λ n. place + n ≤ length bytes.now) }
{
    let size = plain_size(params, spec.form)?;
    if size > bytes.len() as u64 - place {
        return None;
    }
    Some(size)
}
