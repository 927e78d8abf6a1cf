//! Attributes behind which none says anything of texts, line tables or macros.
//!
//! Read first: `specs/QuietSpecs.antt`.

ghost use Rattle.std.specs.Prelude.{◌≡◌, ◌≤◌, length, drop};
ghost use Rattle.dw_abbrev.specs.QuietSpecs.{AllQuiet, is_quiet, is_text_form};

use dw_base::dwarf_numbers::{
    DW_FORM_indirect, DW_FORM_line_strp, DW_FORM_strp, DW_FORM_strx, DW_FORM_strx1, DW_FORM_strx2,
    DW_FORM_strx3, DW_FORM_strx4,
};
use dw_base::{Spec, is_start_name};

/// How many of these attributes stand up to the last that isn't quiet.
#[tactic(auto, using(crate::proofs::QuietSpecLaws::from_rules))]
pub(crate) fn quiet_from(specs: &[Spec]) -> usize
    ensures within { result ≤ length specs.now }
    ensures quiet { AllQuiet (drop result specs.now) }
{
    let mut count = specs.len();
    'specs: while count > 0 {
        if !is_quiet(&specs[count - 1]) {
            return count;
        }
        count -= 1;
    }
    count
}

/// An attribute that says nothing of texts, line tables and macros, but in a unit's first entry.
fn is_quiet(spec: &Spec) -> bool
    ensures value { result ≡ is_quiet spec.now }
{
    !is_text_form(spec.form) && !is_start_name(spec.name)
}

/// A form whose values name texts, or stand behind their own form.
pub fn is_text_form(form: u64) -> bool
    ensures value { result ≡ is_text_form form }
{
    form == DW_FORM_strp
        || form == DW_FORM_line_strp
        || form == DW_FORM_indirect
        || form == DW_FORM_strx
        || form == DW_FORM_strx1
        || form == DW_FORM_strx2
        || form == DW_FORM_strx3
        || form == DW_FORM_strx4
}
