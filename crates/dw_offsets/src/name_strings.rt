//! The fields of the string offsets of name tables (DWARF 5, 6.1.1.4.6).
//!
//! This file promises: the fields are those of the tables' string offsets, one a name, in the order of their places.
//! Read first: `specs/NameFields.antt`.

ghost use Rattle.std.specs.Prelude.{◌≡◌, ◌+◌, ◌*◌, ◌^◌, ◌≤◌, ◌++◌, IfOk, OnOk};
ghost use Rattle.dw_base.specs.Forms.{width_size};
ghost use Rattle.dw_offsets.specs.NameFields.{AllFit, fields_of_names, string_fields};

use crate::fields::OffsetField;
use crate::name_lists::NameTableList;
use crate::name_texts::string_place;
use dw_base::NameTable;
use std::alloc::{AllocError, Global};

/// The fields of the string offsets of name tables, in the order of their places. No one names a path.
#[tactic(auto, using(crate::proofs::NameStringLaws::slice_laws))]
pub fn name_fields(alloc: Global, tables: &NameTableList) -> Result<Vec<OffsetField>, AllocError>
    ensures fields { IfOk result (λ fields. fields.items ≡ fields_of_names tables.now) }
{
    let fields = fields_of(alloc, tables.as_slice())?;
    Ok(fields)
}

/// Those of tables of which each lies in so many bytes as a file may have.
#[tactic(auto, using(crate::proofs::NameStringLaws::tables_laws))]
fn fields_of(alloc: Global, tables: &[NameTable]) -> Result<Vec<OffsetField>, AllocError>
    requires fit { AllFit (2 ^ 31) tables.now }
    ensures fields { IfOk result (λ fields. fields.items ≡ fields_of_names tables.now) }
{
    let mut fields = Vec::new(alloc);
    for table in tables {
        push_fields(table, &mut fields)?;
    }
    Ok(fields)
}

/// Appends those of one table.
fn push_fields(table: &NameTable, fields: &mut Vec<OffsetField>) -> Result<(), AllocError>
    requires small { table.now.strings + table.now.names * width_size table.now.width ≤ 2 ^ 31 }
    ensures fields { OnOk result (fields.new.items ≡ fields.old.items ++ string_fields table.now.width table.now.names table.now.strings) }
{
    let size = table.width.offset_size();
    for i in 0..table.names {
        let at = string_place(table, i);
        fields.push(OffsetField {
            at,
            size,
            path: false,
        })?;
    }
    Ok(())
}
