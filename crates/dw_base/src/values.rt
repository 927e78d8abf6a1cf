//! What an attribute has: its name and form, as an abbreviation declares them, and its value, as a
//! form reads it (DWARF 5, 7.5.3 to 7.5.6).

ghost use Rattle.std.specs.Prelude.{◌≡◌};
ghost use Rattle.dw_base.specs.RelocationRows.{can_be_offset, is_section_offset, names_start};
ghost use Rattle.dw_base.specs.Roles.{is_macros, is_path, is_start_name, is_unit_tag, use_of};
ghost use Rattle.dw_base.specs.TableStarts.{is_start_form, own_form};
ghost use Rattle.dw_base.specs.TextIndexes.{is_base};

use crate::dwarf_numbers::{
    DW_AT_GNU_macros, DW_AT_comp_dir, DW_AT_macros, DW_AT_name, DW_AT_stmt_list,
    DW_AT_str_offsets_base, DW_FORM_data4, DW_FORM_data8, DW_FORM_indirect, DW_FORM_sec_offset,
    DW_TAG_compile_unit, DW_TAG_partial_unit, DW_TAG_type_unit,
};
use crate::lebs::uleb_at;

/// An attribute of an abbreviation (DWARF 5, 7.5.3).
#[derive(Clone, Copy, Debug, PartialEq, Eq)]
pub struct Spec {
    /// The attribute's name, `DW_AT_..`.
    pub name: u64,
    /// The form of its value, `DW_FORM_..`.
    pub form: u64,
    /// The value, where the form is `DW_FORM_implicit_const`, else 0.
    pub implicit: i64,
}

/// What a value is (DWARF 5, 7.5.5).
#[derive(Clone, Copy, Debug, PartialEq, Eq)]
pub enum ValueClass {
    /// An address.
    Address,
    /// A number.
    Number,
    /// A signed number.
    Signed,
    /// A block, an expression or 16 bytes.
    Bytes,
    /// A flag.
    Flag,
    /// A text that stands in the value.
    InlineText,
    /// An offset of a text in `.debug_str`.
    StrOffset,
    /// An offset of a text in `.debug_line_str`.
    LineStrOffset,
    /// The number of a string offset of the unit.
    StrIndex,
    /// The number of an address.
    AddrIndex,
    /// The number of a location list or range list.
    ListIndex,
    /// A reference to an entry, from the unit's start.
    LocalRef,
    /// A reference to an entry of `.debug_info`.
    GlobalRef,
    /// The signature of a type unit.
    Signature,
    /// An offset into another section.
    SecOffset,
}

/// A value of an attribute.
#[derive(Clone, Copy, Debug, PartialEq, Eq)]
pub struct Value {
    /// What it is.
    pub class: ValueClass,
    /// Its number: of `Signed` the 64-bit two's complement; 1 for `DW_FORM_flag_present`; 0 of `Bytes`
    /// and `InlineText`.
    pub number: u64,
    /// Where its field stands, or the bytes of its block, or its text; in bytes from the section's start.
    pub at: u64,
    /// How many bytes these are; of a text those before its NUL.
    pub len: u64,
    /// How many bytes the whole value takes.
    pub size: u64,
}

/// What an attribute says, as far as an edit goes by it (DWARF 5, 3.1.1).
#[derive(Clone, Copy, Debug, PartialEq, Eq)]
pub enum AttributeUse {
    /// A source path, where its value is a text.
    NamesPath,
    /// Where a line table starts.
    NamesLineTable,
    /// Where a macro unit starts.
    NamesMacroUnit,
    /// Something else.
    NamesOther,
}

/// A unit's own tag (DWARF 5, 3.1.1 and 3.1.4).
pub fn is_unit_tag(tag: u64) -> bool
    ensures { result ≡ is_unit_tag tag }
{
    tag == DW_TAG_compile_unit || tag == DW_TAG_partial_unit || tag == DW_TAG_type_unit
}

/// An attribute that holds a path: name or comp_dir of the first entry of a unit whose tag is a unit's
/// (DWARF 5, 3.1.1).
pub fn is_path(number: u64, tag: u64, name: u64) -> bool
    ensures { result ≡ is_path number tag name }
{
    number == 0 && is_unit_tag(tag) && (name == DW_AT_name || name == DW_AT_comp_dir)
}

/// An attribute of a name that says where a macro unit starts (DWARF 5, 3.1.1).
pub fn is_macros(name: u64) -> bool
    ensures { result ≡ is_macros name }
{
    name == DW_AT_macros || name == DW_AT_GNU_macros
}

/// One that says where a line table or a macro unit starts.
pub fn is_start_name(name: u64) -> bool
    ensures { result ≡ is_start_name name }
{
    name == DW_AT_stmt_list || is_macros(name)
}

/// What an attribute of entry `number` of a unit, of a tag, says.
pub fn attribute_use(number: u64, tag: u64, name: u64) -> AttributeUse
    ensures { result ≡ use_of number tag name }
{
    if is_path(number, tag, name) {
        AttributeUse::NamesPath
    } else if name == DW_AT_stmt_list {
        AttributeUse::NamesLineTable
    } else if is_macros(name) {
        AttributeUse::NamesMacroUnit
    } else {
        AttributeUse::NamesOther
    }
}

/// It says where a line table or a macro unit starts.
fn names_start(what: AttributeUse) -> bool
    ensures { result ≡ names_start what }
{
    match what {
        AttributeUse::NamesLineTable | AttributeUse::NamesMacroUnit => true,
        _ => false,
    }
}

/// An attribute of entry `number`, of a tag, says where something of another section starts: a line table, a macro unit, the unit's
/// slots.
pub fn is_section_offset(number: u64, tag: u64, name: u64) -> bool
    ensures { result ≡ is_section_offset number tag name }
{
    names_start(attribute_use(number, tag, name)) || is_base(number, name)
}

/// A number of a class, in so many bytes, can be an offset into another section (DWARF 5, 7.5.5); before version 4 it is a number of 4
/// or 8 bytes.
pub fn can_be_offset(class: ValueClass, size: u64) -> bool
    ensures { result ≡ can_be_offset class size }
{
    match class {
        ValueClass::SecOffset => true,
        ValueClass::Number => size == 4 || size == 8,
        _ => false,
    }
}

/// A form that can say where a line table or a macro unit starts (DWARF 5, 3.1.1); before version 4 it is a number of 4 or 8 bytes.
pub fn is_start_form(form: u64) -> bool
    ensures { result ≡ is_start_form form }
{
    form == DW_FORM_sec_offset || form == DW_FORM_data4 || form == DW_FORM_data8
}

/// The form of a value at a place: its attribute's, or the one in front of it (DWARF 5, 7.5.3).
pub fn own_form(spec: &Spec, bytes: &[u8], place: u64) -> u64
    ensures { result ≡ own_form spec.now bytes.now place }
{
    if spec.form != DW_FORM_indirect {
        return spec.form;
    }
    match uleb_at(bytes, place) {
        Some((form, _)) => form,
        None => 0,
    }
}

/// An attribute that says the base of its unit's texts by index (DWARF 5, 3.1.1).
pub fn is_base(number: u64, name: u64) -> bool
    ensures { result ≡ is_base number name }
{
    number == 0 && name == DW_AT_str_offsets_base
}
