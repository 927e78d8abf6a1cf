//! What the first entry of a unit says of its sources (DWARF 5, 3.1.1).
//!
//! Read first: `specs/RootValues.antt`.

ghost use Rattle.std.specs.Prelude.{◌≡◌, ◌≤◌, ◌+◌, length, IfSome, IsTrue};
ghost use Rattle.dw_base.specs.AbbreviationTables.{abbreviation_of};
ghost use Rattle.dw_base.specs.Values.{value_at};
ghost use Rattle.dw_base.specs.UnitHeaders.{is_address_size};
ghost use Rattle.dw_sources.specs.RootValues.{first_code, is_base_class, is_text, no_root, or_this, root_at, root_behind, root_of, with_value, with_values};

use dw_abbrev::AbbrevTable;
use dw_base::dwarf_numbers::{DW_AT_comp_dir, DW_AT_name, DW_AT_stmt_list, DW_AT_str_offsets_base};
use dw_base::{Params, Spec, Value, ValueClass, can_be_offset, is_unit_tag, uleb_at};
use dw_forms::value_at;

/// What the first entry of a unit says.
#[derive(Clone, Copy)]
pub(crate) struct Root {
    /// Its name.
    pub name: Option<Value>,
    /// The folder in which it was compiled.
    pub comp_dir: Option<Value>,
    /// The value that says where its line table starts.
    pub lines: Option<Value>,
    /// The value that says the base of its texts by index.
    pub base: Option<Value>,
}

/// A code, and the place behind it.
#[derive(Clone, Copy)]
struct Code {
    code: u64,
    behind: u64,
}

/// A value that holds a text.
fn is_text(class: ValueClass) -> bool
    ensures value { result ≡ is_text class }
{
    match class {
        ValueClass::InlineText => true,
        ValueClass::StrOffset => true,
        ValueClass::LineStrOffset => true,
        ValueClass::StrIndex => true,
        _ => false,
    }
}

/// A value that holds the base of texts by index.
fn is_base_class(class: ValueClass) -> bool
    ensures value { result ≡ is_base_class class }
{
    match class {
        ValueClass::Number => true,
        ValueClass::SecOffset => true,
        _ => false,
    }
}

/// The value that was found before, or else this one, where it is wanted.
fn or_value(found: Option<Value>, wanted: bool, value: Value) -> Option<Value>
    ensures value { result ≡ or_this found wanted value }
{
    match found {
        Some(old) => Some(old),
        None => {
            if wanted {
                return Some(value);
            }
            None
        }
    }
}

/// What is said with one value more, of an attribute of a name in an entry of a tag.
fn with_value(tag: u64, root: Root, name: u64, value: &Value) -> Root
    ensures value { result ≡ with_value tag root name value.now }
{
    let is_path = is_unit_tag(tag);
    let text = is_text(value.class);
    Root {
        name: or_value(root.name, is_path && name == DW_AT_name && text, *value),
        comp_dir: or_value(
            root.comp_dir,
            is_path && name == DW_AT_comp_dir && text,
            *value,
        ),
        lines: or_value(
            root.lines,
            name == DW_AT_stmt_list && can_be_offset(value.class, value.len),
            *value,
        ),
        base: or_value(
            root.base,
            name == DW_AT_str_offsets_base && is_base_class(value.class),
            *value,
        ),
    }
}

/// Nothing was found.
fn no_root() -> Root
    ensures value { result ≡ no_root }
{
    Root {
        name: None,
        comp_dir: None,
        lines: None,
        base: None,
    }
}

/// The first code from a place on that isn't 0.
#[tactic(auto, using(crate::proofs::RootLaws::code_rules))]
fn first_code(bytes: &[u8], from: u64) -> Option<Code>
    ensures value { result ≡ first_code bytes.now from }
{
    let mut place = from;
    'codes: loop {
        let Some((code, size)) = uleb_at(bytes, place) else {
            return None;
        };
        if code != 0 {
            return Some(Code {
                code,
                behind: place + size,
            });
        }
        place += size;
    }
}

/// The value of an attribute at a place of the bytes up to the unit's end; none where there is none.
#[tactic(auto, using(crate::proofs::RootLaws::value_rules))]
fn value_in(params: &Params, bytes: &[u8], spec: &Spec, place: u64) -> Option<Value>
    requires address { IsTrue (is_address_size params.now.address) }
    ensures value { result ≡ value_at params.now spec.now bytes.now place }
    ensures within { IfSome result (λ v. place + v.size ≤ length bytes.now) }
{
    match value_at(spec, params, 0, bytes, place, bytes.len() as u64) {
        Ok(value) => Some(value),
        Err(_) => None,
    }
}

/// What the values say of attributes that stand one after another from a place on, in an entry of a tag.
#[tactic(auto, using(crate::proofs::RootLaws::values_rules))]
fn with_values(params: &Params, bytes: &[u8], tag: u64, specs: &[Spec], from: u64) -> Root
    requires address { IsTrue (is_address_size params.now.address) }
    ensures value { result ≡ with_values params.now bytes.now tag specs.now no_root from }
{
    let mut root = no_root();
    let mut place = from;
    for spec in specs {
        let Some(value) = value_in(params, bytes, spec, place) else {
            return root;
        };
        root = with_value(tag, root, spec.name, &value);
        place += value.size;
    }
    root
}

/// What an entry says whose code this is.
#[tactic(auto, using(crate::proofs::RootLaws::behind_rules))]
fn root_behind(params: &Params, table: &AbbrevTable, bytes: &[u8], code: Code) -> Root
    requires address { IsTrue (is_address_size params.now.address) }
    ensures value { result ≡ root_behind params.now bytes.now code.behind (abbreviation_of table.now code.code) }
{
    match table.get(code.code) {
        Some(abbrev) => {
            let specs = abbrev.specs.as_slice();
            with_values(params, bytes, abbrev.tag, specs, code.behind)
        }
        None => no_root(),
    }
}

/// The same, where there is an entry.
fn root_of(params: &Params, table: &AbbrevTable, bytes: &[u8], code: Option<Code>) -> Root
    requires address { IsTrue (is_address_size params.now.address) }
    ensures value { result ≡ root_of params.now table.now bytes.now code }
{
    match code {
        Some(code) => root_behind(params, table, bytes, code),
        None => no_root(),
    }
}

/// What the first entry says of those that stand from a place on.
#[tactic(auto, unfolding(crate::specs::RootValues::root_at))]
pub(crate) fn root_at(params: &Params, table: &AbbrevTable, bytes: &[u8], from: u64) -> Root
    requires address { IsTrue (is_address_size params.now.address) }
    ensures value { result ≡ root_at params.now table.now bytes.now from }
{
    root_of(params, table, bytes, first_code(bytes, from))
}
