//! The formats of directories and files in version 5 (DWARF 5, 6.2.4 and 6.2.4.1).
//!
//! This file promises: a format that is given stands at the place and each of its columns may stand by its
//! form; a format is refused only where none stands there.

ghost use Rattle.std.specs.Prelude.{◌≡◌, ◌≤◌, ◌<◌, Some, None, length, IfSome, IfOk, IfErr};
ghost use Rattle.dw_base.specs.Refusals.{Blames};
ghost use Rattle.dw_base.specs.LineFormats.{format_at, is_column, is_column_form, is_index_form, is_text_form, spec_at};
ghost use Rattle.dw_base.specs.Walks.{Since};

use crate::columns::is_text_form;
use dw_base::dwarf_numbers::{
    DW_FORM_block, DW_FORM_data1, DW_FORM_data2, DW_FORM_data4, DW_FORM_data8, DW_FORM_data16,
    DW_FORM_udata,
};
use dw_base::line_numbers::{DW_LNCT_directory_index, DW_LNCT_path};
use dw_base::{Fault, Refusal, Spec, uleb_at};
use std::alloc::Global;

/// A form by which the number of a directory may stand.
fn is_index_form(form: u64) -> bool
    ensures form { result ≡ is_index_form form }
{
    form == DW_FORM_udata
        || form == DW_FORM_data1
        || form == DW_FORM_data2
        || form == DW_FORM_data4
        || form == DW_FORM_data8
}

/// A form by which any column may stand.
fn is_column_form(form: u64) -> bool
    ensures form { result ≡ is_column_form form }
{
    is_text_form(form) || is_index_form(form) || form == DW_FORM_data16 || form == DW_FORM_block
}

/// A column may stand by its form.
#[tactic(auto, unfolding(dw_base::specs::LineFormats::is_column))]
fn is_column(spec: &Spec) -> bool
    ensures column { result ≡ is_column spec.now }
{
    if spec.name == DW_LNCT_path {
        return is_text_form(spec.form);
    }
    if spec.name == DW_LNCT_directory_index {
        return is_index_form(spec.form);
    }
    is_column_form(spec.form)
}

/// The column at a place, and the place behind it. `None` exactly where one of its numbers passes the end.
#[tactic(auto, unfolding(dw_base::specs::LineFormats::spec_at))]
fn spec_at(table: &[u8], place: u64) -> Option<(Spec, u64)>
    ensures spec { result ≡ spec_at table.now place }
    ensures behind { IfSome result (λ s. place < s.1) }
    ensures within { IfSome result (λ s. s.1 ≤ length table.now) }
{
    let Some((name, name_size)) = uleb_at(table, place) else {
        return None;
    };
    let Some((form, form_size)) = uleb_at(table, place + name_size) else {
        return None;
    };
    let spec = Spec {
        name,
        form,
        implicit: 0,
    };
    Some((spec, place + name_size + form_size))
}

/// The format at a place, and the place behind it. Refused by this refusal only where none stands there.
#[tactic(auto, using(crate::proofs::FormatLaws::format_laws))]
pub(crate) fn format_at(
    alloc: Global,
    table: &[u8],
    place: u64,
    refusal: Refusal,
) -> Result<(Vec<Spec>, u64), Fault>
    ensures read { IfOk result (λ f. format_at table.now place ≡ Some (f.0.items, f.1)) }
    ensures within { IfOk result (λ f. f.1 ≤ length table.now) }
    ensures refused { IfErr result (Blames (Since refusal (format_at table.now place ≡ None))) }
{
    if place >= table.len() as u64 {
        return Err(Fault::Refused(refusal));
    }
    let mut specs = Vec::new(alloc);
    let mut left = table[place as usize];
    let mut next = place + 1;
    'columns: while left > 0 {
        let Some((spec, behind)) = spec_at(table, next) else {
            return Err(Fault::Refused(refusal));
        };
        if !is_column(&spec) {
            return Err(Fault::Refused(refusal));
        }
        specs.push(spec)?;
        next = behind;
        left -= 1;
    }
    Ok((specs, next))
}
