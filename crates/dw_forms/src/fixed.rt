//! The size of values by their forms alone, where they take as many bytes everywhere, so that the size of
//! an entry of such forms is found once (DWARF 5, 7.5.5 and 7.5.6).
//!
//! This file promises: a size that was found of attributes is that of their values in every unit, whatever
//! its width, version and address size.

ghost use Rattle.std.specs.Prelude.{◌≡◌, ◌+◌, ◌*◌, ◌^◌, ◌<◌, ◌≤◌, drop, length, IfNone, IfSome, IsTrue};
ghost use Rattle.dw_base.specs.Forms.{kind_in};
ghost use Rattle.dw_base.specs.UnitHeaders.{is_address_size};
ghost use Rattle.dw_forms.specs.Fixed.{Adds, AddsNone, bytes_in, field_parts, fixed_parts, fixed_size, HasNoSize, IsFixedSize, IsSizeOf};

use crate::kinds::{FieldSize, FormKind, form_kind, reference_size};
use dw_base::{Params, Spec};

/// How many bytes values take whose forms say it, by what that depends on.
#[derive(Clone, Copy, Debug, PartialEq, Eq)]
pub struct FixedSize {
    /// So many bytes.
    pub bytes: u32,
    /// And so many addresses.
    pub addresses: u32,
    /// And so many offsets.
    pub offsets: u32,
    /// And so many references into other units.
    pub references: u32,
}

/// No bytes.
const NOTHING: FixedSize = FixedSize {
    bytes: 0,
    addresses: 0,
    offsets: 0,
    references: 0,
};

/// So many fields of a size, in bytes.
fn fields_size(count: u32, size: u8) -> u64
    ensures product { result ≡ count * size }
    ensures small { result < 2 ^ 40 }
{
    u64::from(count) * u64::from(size)
}

/// The size of a field.
fn field_parts(size: FieldSize) -> FixedSize
    ensures parts { result ≡ field_parts size }
{
    match size {
        FieldSize::Bytes(size) => FixedSize {
            bytes: u32::from(size),
            ..NOTHING
        },
        FieldSize::Address => FixedSize {
            addresses: 1,
            ..NOTHING
        },
        FieldSize::Offset => FixedSize {
            offsets: 1,
            ..NOTHING
        },
        FieldSize::Reference => FixedSize {
            references: 1,
            ..NOTHING
        },
    }
}

/// How many bytes each value of a kind takes.
fn fixed_parts(kind: FormKind) -> Option<FixedSize>
    ensures parts { result ≡ fixed_parts kind }
{
    match kind {
        FormKind::Number(_, size) => Some(field_parts(size)),
        FormKind::Block(size) => Some(field_parts(FieldSize::Bytes(size))),
        FormKind::StrOffset | FormKind::LineStrOffset => Some(field_parts(FieldSize::Offset)),
        FormKind::Present | FormKind::InAbbreviation => Some(NOTHING),
        _ => None,
    }
}

/// The sum of two sizes. `None` only where one of its numbers passes 32 bits.
fn sum_of(a: FixedSize, b: FixedSize) -> Option<FixedSize>
    ensures sum { IfSome result (λ s. s ≡ record { bytes = a.bytes + b.bytes; addresses = a.addresses + b.addresses; offsets = a.offsets + b.offsets; references = a.references + b.references }) }
    ensures large { IfNone result (2 ^ 32 ≤ a.bytes + b.bytes + (a.addresses + b.addresses) + (a.offsets + b.offsets) + (a.references + b.references)) }
{
    let bytes = a.bytes.checked_add(b.bytes)?;
    let addresses = a.addresses.checked_add(b.addresses)?;
    let offsets = a.offsets.checked_add(b.offsets)?;
    let references = a.references.checked_add(b.references)?;
    Some(FixedSize {
        bytes,
        addresses,
        offsets,
        references,
    })
}

/// The size with that of a value more.
#[tactic(auto, using(crate::proofs::FixedLaws::form_laws))]
fn with_form(size: FixedSize, form: u64) -> Option<FixedSize>
    ensures more { IfSome result (Adds size form) }
    ensures none { IfNone result (AddsNone size form) }
{
    match fixed_parts(form_kind(form)) {
        Some(value) => sum_of(size, value),
        None => None,
    }
}

impl FixedSize {
    /// How many bytes the values of attributes take together. `None` exactly where a form doesn't say it,
    /// or they are 2^32 or more.
    #[tactic(auto, using(crate::proofs::FixedLaws::list_laws))]
    pub fn of(specs: &[Spec]) -> Option<FixedSize>
        ensures size { IfSome result (IsSizeOf specs.now) }
        ensures none { IfNone result (HasNoSize specs.now) }
    {
        let mut size = NOTHING;
        for spec in specs {
            size = with_form(size, spec.form)?;
        }
        Some(size)
    }

    /// How many bytes the values of attributes from one on take together, by how many those behind it take.
    #[tactic(auto, using(crate::proofs::FixedLaws::before_laws))]
    pub fn before(specs: &[Spec], at: usize, behind: Option<FixedSize>) -> Option<FixedSize>
        requires inside { at < length specs.now }
        requires size { IfSome behind (IsSizeOf (drop (at + 1) specs.now)) }
        requires none { IfNone behind (HasNoSize (drop (at + 1) specs.now)) }
        ensures size { IfSome result (IsSizeOf (drop at specs.now)) }
        ensures none { IfNone result (HasNoSize (drop at specs.now)) }
    {
        match behind {
            Some(size) => with_form(size, specs[at].form),
            None => None,
        }
    }

    /// How many bytes that are in a unit of these parameters.
    pub fn bytes_in(&self, params: &Params) -> u64
        requires address { IsTrue (is_address_size params.now.address) }
        ensures bytes { result ≡ bytes_in params.now self.now }
    {
        u64::from(self.bytes)
            + fields_size(self.addresses, params.address)
            + fields_size(self.offsets, params.width.offset_size())
            + fields_size(self.references, reference_size(params))
    }
}

/// How many bytes each value of the attribute takes in a unit of these parameters: wherever so many are
/// left stands one, and nowhere else. `None` exactly where its form doesn't say it.
#[tactic(auto, using(crate::proofs::FixedLaws::fixed_laws))]
pub fn fixed_size(spec: &Spec, params: &Params) -> Option<u64>
    requires address { IsTrue (is_address_size params.now.address) }
    ensures size { result ≡ fixed_size (kind_in params.now spec.now.form) }
    ensures fixed { IfSome result (IsFixedSize params.now spec.now) }
{
    match fixed_parts(form_kind(spec.form)) {
        Some(size) => Some(size.bytes_in(params)),
        None => None,
    }
}
