//! Values of entries that aren't their unit's first, and that aren't read: most are offsets of names in `.debug_str`, which have to
//! name texts and are noted, and of others, which are passed by the size that their form says, nothing is.
//!
//! Read first: `specs/LaterValues.antt`.

ghost use Rattle.std.specs.Prelude.{◌≡◌, ◌≤◌, ◌+◌, Some, length, IfErr, IfNone, IfOk, IfSome};
ghost use Rattle.dw_base.specs.Forms.{width_size};
ghost use Rattle.dw_base.specs.Refusals.{Blames};
ghost use Rattle.dw_base.specs.declared.dwarf_numbers.TheConstants.{DW_FORM_strp};
ghost use Rattle.dw_unit_fields.specs.EntryTexts.{OneRefuses};
ghost use Rattle.dw_unit_fields.specs.LaterValues.{IsLater, IsNamed};

use crate::found::{FoundTexts, SectionTexts};
use crate::texts::{field_of, offset_names};
use dw_abbrev::is_text_form;
use dw_base::dwarf_numbers::DW_FORM_strp;
use dw_base::{Fault, Params, Spec, UnitHeader, Value, ValueClass, is_start_name};
use dw_entries::plain_len;

/// How many bytes the value of an attribute takes at a place, in an entry that isn't its unit's first, where it can be passed
/// without being read; an offset into `.debug_str` is noted. `None` where it has to be read. Refused where it is an offset that
/// names no text.
#[tactic(auto, using(crate::proofs::LaterLaws::later_rules))]
pub(crate) fn later_len(
    texts: &SectionTexts,
    unit: &UnitHeader,
    bytes: &[u8],
    spec: &Spec,
    place: u64,
    found: &mut FoundTexts,
) -> Result<Option<u64>, Fault>
    requires inside { place ≤ length bytes.now }
    requires within { length bytes.now ≤ length texts.now.cells }
    ensures later { IfOk result (λ o. IfSome o (λ n. IsLater texts.now unit.now.params bytes.now spec.now place n found.old found.new)) }
    ensures none { IfOk result (λ o. IfNone o (found.new ≡ found.old)) }
    ensures within { IfOk result (λ o. IfSome o (λ n. place + n ≤ length bytes.now)) }
    ensures refused { IfErr result (Blames (OneRefuses texts.now unit.now.params bytes.now unit.now.section place spec.now)) }
{
    if is_start_name(spec.name) {
        return Ok(None);
    }
    if spec.form == DW_FORM_strp {
        let len = named_len(texts, unit, bytes, spec, place, found)?;
        return Ok(len);
    }
    if is_text_form(spec.form) {
        return Ok(None);
    }
    Ok(plain_len(&unit.params, bytes, spec, place))
}

/// The same of an offset of a text in `.debug_str`.
#[tactic(auto, using(crate::proofs::LaterLaws::named_rules))]
fn named_len(
    texts: &SectionTexts,
    unit: &UnitHeader,
    bytes: &[u8],
    spec: &Spec,
    place: u64,
    found: &mut FoundTexts,
) -> Result<Option<u64>, Fault>
    requires form { spec.now.form ≡ DW_FORM_strp }
    requires inside { place ≤ length bytes.now }
    requires within { length bytes.now ≤ length texts.now.cells }
    ensures named { IfOk result (λ o. IfSome o (λ n. IsNamed texts.now unit.now.params bytes.now place n found.old found.new)) }
    ensures none { IfOk result (λ o. IfNone o (found.new ≡ found.old)) }
    ensures within { IfOk result (λ o. IfSome o (λ n. place + n ≤ length bytes.now)) }
    ensures refused { IfErr result (Blames (OneRefuses texts.now unit.now.params bytes.now unit.now.section place spec.now)) }
{
    let size = str_size(&unit.params);
    if size > bytes.len() as u64 - place {
        return Ok(None);
    }
    // Its number isn't looked at.
    let field = Value {
        class: ValueClass::StrOffset,
        number: 0,
        at: place,
        len: size,
        size,
    };
    offset_names(texts, texts.str(), &field)?;
    found.push_str(field_of(&field, false))?;
    Ok(Some(size))
}

/// How many bytes an offset of a text takes.
fn str_size(params: &Params) -> u64
    ensures size { result ≡ width_size params.now.width }
{
    u64::from(params.width.offset_size())
}
