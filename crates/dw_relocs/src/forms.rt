//! The field of a value of a form: how many bytes it has, and whether it is an offset into another section (DWARF 5, 7.5.5).

ghost use Rattle.std.specs.Prelude.{◌≡◌, ◌<◌, ◌≤◌, IfSome, IsTrue, true};
ghost use Rattle.dw_base.specs.Forms.{width_size};
ghost use Rattle.dw_base.specs.RelocationRows.{use_of_number};
ghost use Rattle.dw_base.specs.UnitHeaders.{is_address_size};
ghost use Rattle.dw_relocs.specs.FieldForms.{form_by_use, form_of, is_followed, is_front, is_number_form};
ghost use Rattle.dw_forms.specs.Kinds.{HasFields, as_kind};

use dw_abbrev::is_text_form;
use dw_base::dwarf_numbers::{
    DW_FORM_data1, DW_FORM_data2, DW_FORM_data4, DW_FORM_data8, DW_FORM_flag, DW_FORM_ref4,
    DW_FORM_sec_offset,
};
use dw_base::{Params, ValueClass, Width, can_be_offset};
use dw_forms::FormKind;

/// The field of a value.
#[derive(Clone, Copy, Drop)]
pub(crate) struct FieldForm {
    /// How many bytes it has.
    pub size: u8,
    /// Whether it is an offset into another section, and no number that is meant as it stands.
    pub offset: bool,
}

/// The field of a text's offset, which is as wide as the unit's offsets (DWARF 5, 7.4).
fn text_form(width: Width) -> FieldForm
    ensures size { result.size ≡ width_size width }
    ensures offset { result.offset ≡ true }
    ensures some { 0 < result.size }
    ensures few { result.size ≤ 8 }
{
    let size = match width {
        Width::W32 => 4,
        Width::W64 => 8,
    };
    FieldForm { size, offset: true }
}

/// The field of a number of a class, in so many bytes.
#[tactic(auto, using(crate::proofs::FormFieldLaws::number_rules))]
fn number_form(class: ValueClass, size: u8, start: bool) -> Option<FieldForm>
    ensures form { result ≡ form_by_use size (use_of_number class size start) }
    ensures size { IfSome result (λ f. f.size ≡ size) }
{
    match class {
        ValueClass::Address => None,
        ValueClass::GlobalRef => Some(FieldForm { size, offset: true }),
        _ => Some(FieldForm {
            size,
            offset: start && can_be_offset(class, u64::from(size)),
        }),
    }
}

/// A value of a form of most values may be an offset into another section: that of a text, and one of an attribute that says where
/// something starts.
pub(crate) fn is_followed(start: bool, form: u64) -> bool
    ensures { result ≡ is_followed start form }
{
    start || is_text_form(form)
}

/// A form is one of most values that are numbers, but for addresses.
#[tactic(auto, unfolding(crate::specs::FieldForms::is_number_form, crate::specs::FieldForms::number_forms))]
pub(crate) fn is_number_form(form: u64) -> bool
    ensures { result ≡ is_number_form form }
{
    match form {
        DW_FORM_data1
        | DW_FORM_flag
        | DW_FORM_data2
        | DW_FORM_data4
        | DW_FORM_ref4
        | DW_FORM_data8
        | DW_FORM_sec_offset => true,
        _ => false,
    }
}

/// A form of a kind stands in front of a value.
#[tactic(auto, using(crate::proofs::FormFieldLaws::front_rules))]
pub(crate) fn is_front(params: &Params, kind: FormKind) -> bool
    ensures { result ≡ is_front (as_kind params.now kind) }
{
    match kind {
        FormKind::FormInFront => true,
        _ => false,
    }
}

/// The field of a value of a kind, in a unit of these parameters, where its attribute says where something starts, or doesn't: none of an
/// address, a block, a text, a number in LEB128.
#[tactic(auto, using(crate::proofs::FormFieldLaws::form_rules))]
pub(crate) fn field_form(params: &Params, kind: FormKind, start: bool) -> Option<FieldForm>
    requires address { IsTrue (is_address_size params.now.address) }
    requires fields { HasFields kind }
    ensures form { result ≡ form_of (as_kind params.now kind) start }
    ensures some { IfSome result (λ f. 0 < f.size) }
    ensures few { IfSome result (λ f. f.size ≤ 8) }
{
    match kind {
        FormKind::Number(class, size) => number_form(class, size.bytes(params), start),
        FormKind::StrOffset => Some(text_form(params.width)),
        FormKind::LineStrOffset => Some(text_form(params.width)),
        FormKind::LebNumber(_) => None,
        FormKind::SignedLeb => None,
        FormKind::Block(_) => None,
        FormKind::Counted(_) => None,
        FormKind::CountedLeb => None,
        FormKind::InlineText => None,
        FormKind::Present => None,
        FormKind::InAbbreviation => None,
        FormKind::FormInFront => None,
        FormKind::Supplementary => None,
        FormKind::Unlisted => None,
    }
}
