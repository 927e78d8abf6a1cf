//! What a value of a form is: the table of forms (DWARF 5, table 7.6), each form once, and the sizes of the forms of most values.

ghost use Rattle.std.specs.Prelude.{◌≡◌, ◌<◌, ◌≤◌, IsTrue};
ghost use Rattle.dw_base.specs.Forms.{kind_in, reference_size};
ghost use Rattle.dw_base.specs.UnitHeaders.{is_address_size};
ghost use Rattle.dw_base.specs.declared.shared.Params.{Params as ParamsOf};
ghost use Rattle.dw_forms.specs.Fixed.{plain_size};
ghost use Rattle.dw_forms.specs.Kinds.{as_kind, field_size, refused_as, HasFields, HasRoom};

use dw_base::dwarf_numbers::{
    DW_FORM_GNU_ref_alt, DW_FORM_GNU_strp_alt, DW_FORM_addr, DW_FORM_addrx, DW_FORM_addrx1,
    DW_FORM_addrx2, DW_FORM_addrx3, DW_FORM_addrx4, DW_FORM_block, DW_FORM_block1, DW_FORM_block2,
    DW_FORM_block4, DW_FORM_data1, DW_FORM_data2, DW_FORM_data4, DW_FORM_data8, DW_FORM_data16,
    DW_FORM_exprloc, DW_FORM_flag, DW_FORM_flag_present, DW_FORM_implicit_const, DW_FORM_indirect,
    DW_FORM_line_strp, DW_FORM_loclistx, DW_FORM_ref_addr, DW_FORM_ref_sig8, DW_FORM_ref_sup4,
    DW_FORM_ref_sup8, DW_FORM_ref_udata, DW_FORM_ref1, DW_FORM_ref2, DW_FORM_ref4, DW_FORM_ref8,
    DW_FORM_rnglistx, DW_FORM_sdata, DW_FORM_sec_offset, DW_FORM_string, DW_FORM_strp,
    DW_FORM_strp_sup, DW_FORM_strx, DW_FORM_strx1, DW_FORM_strx2, DW_FORM_strx3, DW_FORM_strx4,
    DW_FORM_udata,
};
use dw_base::{Kind, Params, ValueClass};

/// The size of a number's field, by what it depends on.
#[derive(Clone, Copy)]
pub enum FieldSize {
    /// So many bytes.
    Bytes(u8),
    /// That of an address.
    Address,
    /// That of an offset.
    Offset,
    /// That of a reference into another unit.
    Reference,
}

/// What a value of a form is.
#[derive(Clone, Copy)]
pub enum FormKind {
    /// A number of a class, in a field of this size.
    Number(ValueClass, FieldSize),
    /// A number of a class, in LEB128.
    LebNumber(ValueClass),
    /// A signed number, in LEB128.
    SignedLeb,
    /// So many bytes.
    Block(u8),
    /// Bytes behind their count, which has so many bytes.
    Counted(u8),
    /// Bytes behind their count in LEB128.
    CountedLeb,
    /// A text with its NUL.
    InlineText,
    /// An offset into `.debug_str`.
    StrOffset,
    /// An offset into `.debug_line_str`.
    LineStrOffset,
    /// A flag that is set, without bytes.
    Present,
    /// A number that stands in the abbreviation.
    InAbbreviation,
    /// A value behind its own form.
    FormInFront,
    /// A value of a supplementary file.
    Supplementary,
    /// Of a form that isn't listed.
    Unlisted,
}

/// The size of a reference into another unit, in bytes: that of an address in version 2 (DWARF 2, 7.5.4).
pub(crate) fn reference_size(params: &Params) -> u8
    ensures size { result ≡ reference_size params.now }
{
    if params.version == 2 {
        params.address
    } else {
        params.width.offset_size()
    }
}

impl FieldSize {
    /// The size in a unit of these parameters, in bytes: 1 to 8.
    pub fn bytes(self, params: &Params) -> u8
        requires address { IsTrue (is_address_size params.now.address) }
        requires room { HasRoom self }
        ensures size { result ≡ field_size params.now self }
        ensures some { 0 < result }
        ensures few { result ≤ 8 }
    {
        match self {
            FieldSize::Bytes(size) => size,
            FieldSize::Address => params.address,
            FieldSize::Offset => params.width.offset_size(),
            FieldSize::Reference => reference_size(params),
        }
    }
}

/// What a value of a form is, in every unit, by the table of forms (DWARF 5, table 7.6); `Unlisted` of a form that it doesn't have.
#[rattlefmt::skip]
#[tactic(auto, unfolding(dw_base::specs::Forms::kind_in, dw_base::specs::Forms::form_rows))]
pub fn form_kind(form: u64) -> FormKind
    ensures kind { (params : ParamsOf) → as_kind params result ≡ kind_in params form }
    ensures fields { HasFields result }
{
    match form {
        DW_FORM_addr => FormKind::Number(ValueClass::Address, FieldSize::Address),
        DW_FORM_block2 => FormKind::Counted(2),
        DW_FORM_block4 => FormKind::Counted(4),
        DW_FORM_data2 => FormKind::Number(ValueClass::Number, FieldSize::Bytes(2)),
        DW_FORM_data4 => FormKind::Number(ValueClass::Number, FieldSize::Bytes(4)),
        DW_FORM_data8 => FormKind::Number(ValueClass::Number, FieldSize::Bytes(8)),
        DW_FORM_string => FormKind::InlineText,
        DW_FORM_block => FormKind::CountedLeb,
        DW_FORM_block1 => FormKind::Counted(1),
        DW_FORM_data1 => FormKind::Number(ValueClass::Number, FieldSize::Bytes(1)),
        DW_FORM_flag => FormKind::Number(ValueClass::Flag, FieldSize::Bytes(1)),
        DW_FORM_sdata => FormKind::SignedLeb,
        DW_FORM_strp => FormKind::StrOffset,
        DW_FORM_udata => FormKind::LebNumber(ValueClass::Number),
        DW_FORM_ref_addr => FormKind::Number(ValueClass::GlobalRef, FieldSize::Reference),
        DW_FORM_ref1 => FormKind::Number(ValueClass::LocalRef, FieldSize::Bytes(1)),
        DW_FORM_ref2 => FormKind::Number(ValueClass::LocalRef, FieldSize::Bytes(2)),
        DW_FORM_ref4 => FormKind::Number(ValueClass::LocalRef, FieldSize::Bytes(4)),
        DW_FORM_ref8 => FormKind::Number(ValueClass::LocalRef, FieldSize::Bytes(8)),
        DW_FORM_ref_udata => FormKind::LebNumber(ValueClass::LocalRef),
        DW_FORM_indirect => FormKind::FormInFront,
        DW_FORM_sec_offset => FormKind::Number(ValueClass::SecOffset, FieldSize::Offset),
        DW_FORM_exprloc => FormKind::CountedLeb,
        DW_FORM_flag_present => FormKind::Present,
        DW_FORM_strx => FormKind::LebNumber(ValueClass::StrIndex),
        DW_FORM_addrx => FormKind::LebNumber(ValueClass::AddrIndex),
        DW_FORM_ref_sup4 => FormKind::Supplementary,
        DW_FORM_strp_sup => FormKind::Supplementary,
        DW_FORM_data16 => FormKind::Block(16),
        DW_FORM_line_strp => FormKind::LineStrOffset,
        DW_FORM_ref_sig8 => FormKind::Number(ValueClass::Signature, FieldSize::Bytes(8)),
        DW_FORM_implicit_const => FormKind::InAbbreviation,
        DW_FORM_loclistx => FormKind::LebNumber(ValueClass::ListIndex),
        DW_FORM_rnglistx => FormKind::LebNumber(ValueClass::ListIndex),
        DW_FORM_ref_sup8 => FormKind::Supplementary,
        DW_FORM_strx1 => FormKind::Number(ValueClass::StrIndex, FieldSize::Bytes(1)),
        DW_FORM_strx2 => FormKind::Number(ValueClass::StrIndex, FieldSize::Bytes(2)),
        DW_FORM_strx3 => FormKind::Number(ValueClass::StrIndex, FieldSize::Bytes(3)),
        DW_FORM_strx4 => FormKind::Number(ValueClass::StrIndex, FieldSize::Bytes(4)),
        DW_FORM_addrx1 => FormKind::Number(ValueClass::AddrIndex, FieldSize::Bytes(1)),
        DW_FORM_addrx2 => FormKind::Number(ValueClass::AddrIndex, FieldSize::Bytes(2)),
        DW_FORM_addrx3 => FormKind::Number(ValueClass::AddrIndex, FieldSize::Bytes(3)),
        DW_FORM_addrx4 => FormKind::Number(ValueClass::AddrIndex, FieldSize::Bytes(4)),
        DW_FORM_GNU_ref_alt => FormKind::Supplementary,
        DW_FORM_GNU_strp_alt => FormKind::Supplementary,
        _ => FormKind::Unlisted,
    }
}

/// As what a value of a kind is refused where none stands.
pub(crate) fn refused_kind(kind: FormKind, params: &Params) -> Kind
    ensures kind { result ≡ refused_as (as_kind params.now kind) }
{
    match kind {
        FormKind::Unlisted => Kind::Form,
        FormKind::Supplementary => Kind::Supplementary,
        _ => Kind::Entry,
    }
}

/// How many bytes a value of a form takes in a unit of these parameters (DWARF 5, 7.5.6), for the forms of most values: their form
/// alone says it. `None` of every other form, also where it says a size (`fixed_size` has them all).
#[tactic(auto, unfolding(dw_base::specs::Forms::kind_in, dw_base::specs::Forms::form_rows, crate::specs::Fixed::is_plain_form, crate::specs::Fixed::plain_forms))]
pub fn plain_size(params: &Params, form: u64) -> Option<u64>
    ensures size { result ≡ plain_size params.now form }
{
    match form {
        DW_FORM_flag_present | DW_FORM_implicit_const => Some(0),
        DW_FORM_data1 | DW_FORM_flag => Some(1),
        DW_FORM_data2 => Some(2),
        DW_FORM_data4 | DW_FORM_ref4 => Some(4),
        DW_FORM_data8 => Some(8),
        DW_FORM_strp | DW_FORM_sec_offset => Some(u64::from(params.width.offset_size())),
        DW_FORM_addr => Some(u64::from(params.address)),
        _ => None,
    }
}
