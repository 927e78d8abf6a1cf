//! How many bytes the value of an attribute takes, up to the end of its unit (DWARF 5, 7.5.5 and 7.5.6).
//!
//! A value whose form stands in front of it takes one step more: the form is read, and its kind is
//! neither such a form again nor a number of the abbreviation.

ghost use Rattle.std.specs.Prelude.{◌≡◌, ◌≢◌, ◌+◌, ◌≤◌, None, Some, length, take, IfErr, IfOk, IsTrue, OnErr, OnOk};
ghost use Rattle.dw_base.specs.Forms.{form_in_front, kind_in};
ghost use Rattle.dw_base.specs.FormFails.{FormFails, KindFails};
ghost use Rattle.dw_base.specs.Values.{value_at, value_of, value_size};
ghost use Rattle.dw_base.specs.declared.fault.Refusal.{Refusal as RefusalOf};
ghost use Rattle.dw_base.specs.UnitHeaders.{is_address_size};
ghost use Rattle.dw_forms.specs.Kinds.{as_kind, HasFields};

use crate::kind_sizes::size_of_kind;
use crate::kinds::{FormKind, form_kind, refused_kind};
use dw_base::{Kind, Params, Refusal, Spec, uleb_at};

/// The size of the value of a kind at `place`, in a value that starts at `start`.
#[tactic(auto, using(crate::proofs::KindLaws::size_laws))]
fn size_of_own(
    kind: FormKind,
    spec: &Spec,
    params: &Params,
    section: u32,
    bytes: &[u8],
    start: u64,
    place: u64,
) -> Result<u64, Refusal>
    requires address { IsTrue (is_address_size params.now.address) }
    requires fields { HasFields kind }
    requires other { as_kind params.now kind ≢ form_in_front }
    ensures size { IfOk result (λ n. value_size (value_of (as_kind params.now kind) params.now.order bytes.now place spec.now.implicit) ≡ Some n) }
    ensures inside { IfOk result (λ n. place + n ≤ length bytes.now) }
    ensures refused { IfErr result (KindFails params.now spec.now bytes.now section start (as_kind params.now kind) place) }
{
    match size_of_kind(kind, params, bytes, place, spec.implicit) {
        Some(size) => Ok(size),
        None => Err(Refusal::at(refused_kind(kind, params), section, start)),
    }
}

/// The size of the value at a place whose form stands in front of it.
#[tactic(auto, using(crate::proofs::KindLaws::front_laws))]
fn size_behind(
    spec: &Spec,
    params: &Params,
    section: u32,
    bytes: &[u8],
    at: u64,
) -> Result<u64, Refusal>
    requires address { IsTrue (is_address_size params.now.address) }
    requires front { kind_in params.now spec.now.form ≡ form_in_front }
    ensures size { IfOk result (λ n. value_size (value_at params.now spec.now bytes.now at) ≡ Some n) }
    ensures refused { IfErr result (FormFails params.now spec.now bytes.now section at) }
{
    let Some((form, size)) = uleb_at(bytes, at) else {
        return Err(Refusal::at(Kind::Entry, section, at));
    };
    let kind = form_kind(form);
    match kind {
        FormKind::FormInFront => Err(Refusal::at(Kind::Form, section, at)),
        FormKind::InAbbreviation => Err(Refusal::at(Kind::Form, section, at)),
        _ => {
            let behind = size_of_own(kind, spec, params, section, bytes, at, at + size)?;
            Ok(size + behind)
        }
    }
}

/// The size of the value at a place of the bytes up to the end of the unit.
#[tactic(auto, using(crate::proofs::KindLaws::own_laws))]
fn size_in(
    spec: &Spec,
    params: &Params,
    section: u32,
    bytes: &[u8],
    at: u64,
) -> Result<u64, Refusal>
    requires address { IsTrue (is_address_size params.now.address) }
    ensures size { IfOk result (λ n. value_size (value_at params.now spec.now bytes.now at) ≡ Some n) }
    ensures refused { IfErr result (FormFails params.now spec.now bytes.now section at) }
{
    let kind = form_kind(spec.form);
    match kind {
        FormKind::FormInFront => size_behind(spec, params, section, bytes, at),
        _ => {
            let size = size_of_own(kind, spec, params, section, bytes, at, at)?;
            Ok(size)
        }
    }
}

/// How many bytes the value at `at` takes, as `value_at` reads it, and refused as it is, without the value.
#[tactic(auto, using(crate::proofs::KindLaws::public_laws))]
pub fn size_at(
    spec: &Spec,
    params: &Params,
    section: u32,
    bytes: &[u8],
    at: u64,
    end: u64,
) -> Result<u64, Refusal>
    requires end { end ≤ length bytes.now }
    requires address { IsTrue (is_address_size params.now.address) }
    ensures size { IfOk result (λ n. value_size (value_at params.now spec.now (take end bytes.now) at) ≡ Some n) }
    ensures none { OnErr result (value_at params.now spec.now (take end bytes.now) at ≡ None) }
    ensures fits { OnOk result ((r : RefusalOf) → FormFails params.now spec.now (take end bytes.now) section at r → ⊥) }
    ensures refused { IfErr result (FormFails params.now spec.now (take end bytes.now) section at) }
{
    size_in(spec, params, section, &bytes[..end as usize], at)
}
