//! The value of an attribute, up to the end of its unit (DWARF 5, 7.5.5 and 7.5.6).
//!
//! A value whose form stands in front of it takes one step more: the form is read, and its kind is
//! neither such a form again nor a number of the abbreviation.

ghost use Rattle.std.specs.Prelude.{◌≡◌, ◌≢◌, ◌+◌, ◌≤◌, None, Some, length, take, IfErr, IfOk, IsTrue, OnErr, OnOk};
ghost use Rattle.dw_base.specs.Forms.{form_in_front, kind_in};
ghost use Rattle.dw_base.specs.FormFails.{FormFails, KindFails};
ghost use Rattle.dw_base.specs.Values.{value_at, value_of};
ghost use Rattle.dw_base.specs.declared.fault.Refusal.{Refusal as RefusalOf};
ghost use Rattle.dw_base.specs.UnitHeaders.{is_address_size};
ghost use Rattle.dw_forms.specs.Kinds.{as_kind, HasFields};

use crate::kind_values::value_of_kind;
use crate::kinds::{FormKind, form_kind, refused_kind};
use dw_base::{Kind, Params, Refusal, Spec, Value, uleb_at};

/// The value of a kind at `place`, in a value that starts at `start`.
#[tactic(auto, using(crate::proofs::KindLaws::kind_laws))]
fn value_of_own(
    kind: FormKind,
    spec: &Spec,
    params: &Params,
    section: u32,
    bytes: &[u8],
    start: u64,
    place: u64,
) -> Result<Value, Refusal>
    requires address { IsTrue (is_address_size params.now.address) }
    requires fields { HasFields kind }
    requires other { as_kind params.now kind ≢ form_in_front }
    ensures value { IfOk result (λ v. value_of (as_kind params.now kind) params.now.order bytes.now place spec.now.implicit ≡ Some v) }
    ensures inside { IfOk result (λ v. place + v.size ≤ length bytes.now) }
    ensures refused { IfErr result (KindFails params.now spec.now bytes.now section start (as_kind params.now kind) place) }
{
    match value_of_kind(kind, params, bytes, place, spec.implicit) {
        Some(value) => Ok(value),
        None => Err(Refusal::at(refused_kind(kind, params), section, start)),
    }
}

/// The value at a place whose form stands in front of it.
#[tactic(auto, using(crate::proofs::KindLaws::front_laws))]
fn value_behind(
    spec: &Spec,
    params: &Params,
    section: u32,
    bytes: &[u8],
    at: u64,
) -> Result<Value, Refusal>
    requires address { IsTrue (is_address_size params.now.address) }
    requires front { kind_in params.now spec.now.form ≡ form_in_front }
    ensures value { IfOk result (λ v. value_at params.now spec.now bytes.now at ≡ Some v) }
    ensures refused { IfErr result (FormFails params.now spec.now bytes.now section at) }
{
    let Some((form, size)) = uleb_at(bytes, at) else {
        return Err(Refusal::at(Kind::Entry, section, at));
    };
    let kind = form_kind(form);
    match kind {
        FormKind::FormInFront => Err(Refusal::at(Kind::Form, section, at)),
        FormKind::InAbbreviation => Err(Refusal::at(Kind::Form, section, at)),
        _ => {
            let value = value_of_own(kind, spec, params, section, bytes, at, at + size)?;
            Ok(Value {
                size: size + value.size,
                ..value
            })
        }
    }
}

/// The value at a place of the bytes up to the end of the unit.
#[tactic(auto, using(crate::proofs::KindLaws::own_laws))]
fn value_in(
    spec: &Spec,
    params: &Params,
    section: u32,
    bytes: &[u8],
    at: u64,
) -> Result<Value, Refusal>
    requires address { IsTrue (is_address_size params.now.address) }
    ensures value { IfOk result (λ v. value_at params.now spec.now bytes.now at ≡ Some v) }
    ensures refused { IfErr result (FormFails params.now spec.now bytes.now section at) }
{
    let kind = form_kind(spec.form);
    match kind {
        FormKind::FormInFront => value_behind(spec, params, section, bytes, at),
        _ => {
            let value = value_of_own(kind, spec, params, section, bytes, at, at)?;
            Ok(value)
        }
    }
}

/// The value of an attribute at `at`, in bytes from the section's start, which ends in the bytes before
/// `end`, the end of its unit. Refused at (`section`, `at`): as `Form` exactly where its form isn't
/// listed, or leads to a form in front again or to a number of the abbreviation; as `Supplementary` where
/// it refers to another file; as `Entry` where it passes `end`.
#[tactic(auto, using(crate::proofs::KindLaws::public_laws))]
pub fn value_at(
    spec: &Spec,
    params: &Params,
    section: u32,
    bytes: &[u8],
    at: u64,
    end: u64,
) -> Result<Value, Refusal>
    requires end { end ≤ length bytes.now }
    requires address { IsTrue (is_address_size params.now.address) }
    ensures value { IfOk result (λ v. value_at params.now spec.now (take end bytes.now) at ≡ Some v) }
    ensures none { OnErr result (value_at params.now spec.now (take end bytes.now) at ≡ None) }
    ensures fits { OnOk result ((r : RefusalOf) → FormFails params.now spec.now (take end bytes.now) section at r → ⊥) }
    ensures refused { IfErr result (FormFails params.now spec.now (take end bytes.now) section at) }
{
    value_in(spec, params, section, &bytes[..end as usize], at)
}
