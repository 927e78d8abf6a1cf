//! A pass over the fields of an entry's values.
//!
//! Read first: `specs/UnitFields.antt`, then `specs/FieldForms.antt`.

ghost use Rattle.std.specs.Prelude.{[], ◌∷◌, ◌≡◌, ◌+◌, ◌<◌, ◌≤◌, ◌^◌, Ok, Some, true, is_some, length, IfSome, IsTrue};
ghost use Rattle.dw_base.specs.FileViews.{kind_at, section_bytes, view_cells};
ghost use Rattle.dw_base.specs.Forms.{kind_in};
ghost use Rattle.dw_base.specs.RelocationRows.{field_place, plain_field};
ghost use Rattle.dw_base.specs.UnitHeaders.{is_address_size};
ghost use Rattle.dw_base.specs.Values.{value_at, value_size};
ghost use Rattle.dw_relocs.specs.FieldForms.{IsStill, fields_by, form_end, is_front as is_front_kind};
ghost use Rattle.dw_relocs.specs.FieldWalks.{Goes, StandsAt, ground_of};
ghost use Rattle.dw_relocs.specs.UnitFields.{fields_of_kind, values_fields};
ghost use Rattle.dw_relocs.specs.UnitPasses.{ValuePassed};
ghost use Rattle.dw_meaning.specs.PieceRuns.{values_end};

use crate::forms::{FieldForm, field_form, is_followed, is_front, is_number_form};
use crate::marks::{Marks, pass_number, pass_offset, place_before};
use dw_base::{Params, Refusal, Spec, is_section_offset, uleb_at};
use dw_entries::plain_len;
use dw_forms::{form_kind, size_at};
use dw_view::View;

/// A pass over the field at a place, where there is one.
#[tactic(auto, using(crate::proofs::ValueFieldLaws::form_rules))]
fn pass_form(
    view: &View,
    section: u32,
    pass: Result<Marks, Refusal>,
    form: Option<FieldForm>,
    place: u64,
) -> Result<Marks, Refusal>
    requires there { section < length view.now.sections }
    requires read { is_some (kind_at view.now section) ≡ true }
    requires stands { StandsAt (view_cells view.now section) place pass }
    requires some { IfSome form (λ f. 0 < f.size) }
    requires few { IfSome form (λ f. f.size ≤ 8) }
    requires inside { form_end place form ≤ length (section_bytes view.now section) }
    requires small { length (section_bytes view.now section) ≤ 2 ^ 31 }
    ensures goes { Goes (ground_of view.now section) place (form_end place form) (fields_by place form) pass result }
{
    match form {
        None => pass,
        Some(form) => {
            if form.offset {
                return pass_offset(view, section, pass, place, form.size);
            }
            pass_number(view, section, pass, place, u64::from(form.size))
        }
    }
}

/// A pass over the field of a value at a place, of so many bytes with the form that may stand in front of it.
#[tactic(auto, using(crate::proofs::ValueFieldLaws::value_rules))]
fn pass_value(
    view: &View,
    section: u32,
    pass: Result<Marks, Refusal>,
    params: &Params,
    bytes: &[u8],
    start: bool,
    spec: &Spec,
    place: u64,
    size: u64,
) -> Result<Marks, Refusal>
    requires there { section < length view.now.sections }
    requires read { is_some (kind_at view.now section) ≡ true }
    requires stands { StandsAt (view_cells view.now section) place pass }
    requires address { IsTrue (is_address_size params.now.address) }
    requires value { value_size (value_at params.now spec.now bytes.now place) ≡ Some size }
    requires whole { length bytes.now ≤ length (section_bytes view.now section) }
    requires small { length (section_bytes view.now section) ≤ 2 ^ 31 }
    ensures goes { Goes (ground_of view.now section) place (place + size) (fields_of_kind (kind_in params.now spec.now.form) params.now bytes.now start place) pass result }
{
    let kind = form_kind(spec.form);
    if is_front(params, kind) {
        return pass_chosen(view, section, pass, params, bytes, start, spec, place, size);
    }
    let form = field_form(params, kind, start);
    pass_form(view, section, pass, form, place)
}

/// The same of a value whose form stands in front of it.
#[tactic(auto, using(crate::proofs::ValueFieldLaws::chosen_rules))]
fn pass_chosen(
    view: &View,
    section: u32,
    pass: Result<Marks, Refusal>,
    params: &Params,
    bytes: &[u8],
    start: bool,
    spec: &Spec,
    place: u64,
    size: u64,
) -> Result<Marks, Refusal>
    requires there { section < length view.now.sections }
    requires read { is_some (kind_at view.now section) ≡ true }
    requires stands { StandsAt (view_cells view.now section) place pass }
    requires address { IsTrue (is_address_size params.now.address) }
    requires front { is_front_kind (kind_in params.now spec.now.form) ≡ true }
    requires value { value_size (value_at params.now spec.now bytes.now place) ≡ Some size }
    requires whole { length bytes.now ≤ length (section_bytes view.now section) }
    requires small { length (section_bytes view.now section) ≤ 2 ^ 31 }
    ensures goes { Goes (ground_of view.now section) place (place + size) (fields_of_kind (kind_in params.now spec.now.form) params.now bytes.now start place) pass result }
{
    let Some((number, front)) = uleb_at(bytes, place) else {
        unreachable!()
    };
    let kind = form_kind(number);
    let form = field_form(params, kind, start);
    pass_form(view, section, pass, form, place + front)
}

/// How many bytes the value takes that stands at a place.
#[tactic(auto, using(crate::proofs::StillLaws::len_rules))]
fn value_len(params: &Params, section: u32, bytes: &[u8], spec: &Spec, place: u64) -> u64
    requires address { IsTrue (is_address_size params.now.address) }
    requires inside { place ≤ length bytes.now }
    requires there { is_some (value_at params.now spec.now bytes.now place) ≡ true }
    ensures value { value_size (value_at params.now spec.now bytes.now place) ≡ Some result }
{
    if let Some(size) = plain_len(params, bytes, spec, place) {
        return size;
    }
    let end = bytes.len() as u64;
    let Ok(size) = size_at(spec, params, section, bytes, place, end) else {
        unreachable!()
    };
    size
}

/// How many bytes the value of an attribute takes at a place, where its form is one of most values and it holds no offset into another
/// section. `None` of most others.
#[inline(always)]
#[tactic(auto, using(crate::proofs::StillLaws::still_rules))]
fn still_len(params: &Params, bytes: &[u8], start: bool, spec: &Spec, place: u64) -> Option<u64>
    requires inside { place ≤ length bytes.now }
    ensures value { IfSome result (λ n. value_size (value_at params.now spec.now bytes.now place) ≡ Some n) }
    ensures still { IfSome result (λ n. IsStill place n (fields_of_kind (kind_in params.now spec.now.form) params.now bytes.now start place)) }
    ensures within { IfSome result (λ n. place + n ≤ length bytes.now) }
{
    if is_followed(start, spec.form) {
        return None;
    }
    plain_len(params, bytes, spec, place)
}

/// The marks behind a value at a place, where it holds no offset and no relocation begins in front of its end. `None` also of other values.
#[inline(always)]
#[tactic(auto, using(crate::proofs::StillLaws::marks_rules))]
fn still_marks(
    view: &View,
    section: u32,
    pass: Result<Marks, Refusal>,
    params: &Params,
    bytes: &[u8],
    start: bool,
    spec: &Spec,
    place: u64,
) -> Option<Marks>
    requires there { section < length view.now.sections }
    requires stands { StandsAt (view_cells view.now section) place pass }
    requires inside { place ≤ length bytes.now }
    ensures passed { IfSome result (λ m. ValuePassed (ground_of view.now section) params.now spec.now bytes.now start place m.place pass (Ok m)) }
{
    let Ok(marks) = pass else {
        return None;
    };
    let Some(size) = still_len(params, bytes, start, spec, place) else {
        return None;
    };
    let to = place + size;
    if place_before(marks.next, to).is_some() {
        return None;
    }
    Some(Marks {
        place: to,
        next: marks.next,
    })
}

/// How many bytes the value of an attribute takes at a place, where its form is one of most values that are numbers and it holds no offset
/// into another section. `None` of most others.
#[tactic(auto, using(crate::proofs::StillLaws::number_rules))]
fn number_len(params: &Params, bytes: &[u8], start: bool, spec: &Spec, place: u64) -> Option<u64>
    requires inside { place ≤ length bytes.now }
    ensures value { IfSome result (λ n. value_size (value_at params.now spec.now bytes.now place) ≡ Some n) }
    ensures some { IfSome result (λ n. 0 < n) }
    ensures field { IfSome result (λ n. fields_of_kind (kind_in params.now spec.now.form) params.now bytes.now start place ≡ field_place place n plain_field ∷ []) }
    ensures within { IfSome result (λ n. place + n ≤ length bytes.now) }
{
    if is_followed(start, spec.form) {
        return None;
    }
    if is_number_form(spec.form) {
        return plain_len(params, bytes, spec, place);
    }
    None
}

/// A pass over the field of a value at a place, by what is read of the value; and where it ends. A number that holds no offset is one field
/// without more being asked of its form.
#[inline(never)]
#[tactic(auto, using(crate::proofs::StillLaws::read_rules))]
fn pass_read(
    view: &View,
    section: u32,
    pass: Result<Marks, Refusal>,
    params: &Params,
    bytes: &[u8],
    start: bool,
    spec: &Spec,
    place: u64,
) -> (Result<Marks, Refusal>, u64)
    requires there { section < length view.now.sections }
    requires read { is_some (kind_at view.now section) ≡ true }
    requires stands { StandsAt (view_cells view.now section) place pass }
    requires address { IsTrue (is_address_size params.now.address) }
    requires value { is_some (value_at params.now spec.now bytes.now place) ≡ true }
    requires whole { length bytes.now ≤ length (section_bytes view.now section) }
    requires small { length (section_bytes view.now section) ≤ 2 ^ 31 }
    ensures passed { ValuePassed (ground_of view.now section) params.now spec.now bytes.now start place result.1 pass result.0 }
{
    if let Some(size) = number_len(params, bytes, start, spec, place) {
        let next = pass_number(view, section, pass, place, size);
        return (next, place + size);
    }
    let size = value_len(params, section, bytes, spec, place);
    let next = pass_value(view, section, pass, params, bytes, start, spec, place, size);
    (next, place + size)
}

/// The same; a value of a form of most values that holds no offset takes one comparison, where no relocation begins in front of its end.
#[inline(always)]
#[tactic(auto, using(crate::proofs::StillLaws::next_rules))]
fn pass_next(
    view: &View,
    section: u32,
    pass: Result<Marks, Refusal>,
    params: &Params,
    bytes: &[u8],
    start: bool,
    spec: &Spec,
    place: u64,
) -> (Result<Marks, Refusal>, u64)
    requires there { section < length view.now.sections }
    requires read { is_some (kind_at view.now section) ≡ true }
    requires stands { StandsAt (view_cells view.now section) place pass }
    requires address { IsTrue (is_address_size params.now.address) }
    requires value { is_some (value_at params.now spec.now bytes.now place) ≡ true }
    requires whole { length bytes.now ≤ length (section_bytes view.now section) }
    requires small { length (section_bytes view.now section) ≤ 2 ^ 31 }
    ensures passed { ValuePassed (ground_of view.now section) params.now spec.now bytes.now start place result.1 pass result.0 }
{
    match still_marks(view, section, pass, params, bytes, start, spec, place) {
        Some(marks) => (Ok(marks), marks.place),
        None => pass_read(view, section, pass, params, bytes, start, spec, place),
    }
}

/// A pass over the fields of the values of entry `number`, of a tag and with these attributes, that stand from a place up to another of the
/// bytes up to the unit's end.
#[tactic(auto, using(crate::proofs::ValueFieldLaws::values_rules))]
pub(crate) fn pass_values(
    view: &View,
    section: u32,
    pass: Result<Marks, Refusal>,
    params: &Params,
    bytes: &[u8],
    number: u64,
    tag: u64,
    specs: &[Spec],
    from: u64,
    after: u64,
) -> Result<Marks, Refusal>
    requires there { section < length view.now.sections }
    requires read { is_some (kind_at view.now section) ≡ true }
    requires stands { StandsAt (view_cells view.now section) from pass }
    requires address { IsTrue (is_address_size params.now.address) }
    requires values { values_end params.now bytes.now specs.now from ≡ Some after }
    requires whole { length bytes.now ≤ length (section_bytes view.now section) }
    requires small { length (section_bytes view.now section) ≤ 2 ^ 31 }
    ensures goes { Goes (ground_of view.now section) from after (values_fields params.now bytes.now number tag specs.now from) pass result }
{
    let mut now = pass;
    let mut place = from;
    for spec in specs {
        let start = is_section_offset(number, tag, spec.name);
        let step = pass_next(view, section, now, params, bytes, start, spec, place);
        now = step.0;
        place = step.1;
    }
    now
}
