//! Fields that hold offsets, noted in half the space: where one stands takes four bytes, up to the first that stands behind 2^32.

ghost use Rattle.std.specs.Prelude.{◌≡◌, ◌∷◌, ◌++◌, ◌<◌, ◌^◌, [], List, IfOk, OnOk};
ghost use Rattle.std.specs.Bool.{OnTrue};
ghost use Rattle.dw_offsets.specs.declared.fields.OffsetField.{OffsetField as FieldOf};

use dw_offsets::OffsetField;
use std::alloc::{AllocError, Global};
use std::marker::Model;

/// The first place that takes more than four bytes.
const FAR: u64 = 4_294_967_296;

/// A field that stands in front of `FAR`.
#[derive(Clone, Copy)]
struct NearField {
    /// Where it stands, in bytes from the section's start.
    at: u32,
    /// How many bytes it has.
    size: u8,
    /// It names a path.
    path: bool,
}

impl Model for NearField {
    ghost Value = { FieldOf };

    ghost view = { λ f. record { at = f.at; size = f.size; path = f.path } };

    ghost inverse = { λ f. record { at = f.at; size = f.size; path = f.path } };
}

impl NearField {
    /// A field that stands in front of `FAR`.
    fn new(field: OffsetField) -> NearField
        requires near { field.at < 2 ^ 32 }
        ensures { result ≡ field }
    {
        NearField {
            at: field.at as u32,
            size: field.size,
            path: field.path,
        }
    }

    /// The field.
    fn whole(&self) -> OffsetField
        ensures { result ≡ self.now }
    {
        OffsetField {
            at: u64::from(self.at),
            size: self.size,
            path: self.path,
        }
    }
}

/// Fields, in the order in which they were noted.
#[derive(Drop)]
pub(crate) struct FieldList {
    /// Those in front of the first that stands behind `FAR`.
    near: Vec<NearField>,
    /// The others.
    others: Vec<OffsetField>,
}

impl Model for FieldList {
    ghost Value = { List FieldOf };

    ghost view = { λ l. l.near.items ++ l.others.items };
}

impl FieldList {
    /// No field was noted yet.
    pub(crate) fn new(alloc: Global) -> FieldList
        ensures { result ≡ [] }
    {
        FieldList {
            near: Vec::new(alloc),
            others: Vec::new(alloc),
        }
    }

    /// Notes a field behind the others.
    pub(crate) fn push(&mut self, field: OffsetField) -> Result<(), AllocError>
        ensures { OnOk result (self.new ≡ self.old ++ field ∷ []) }
    {
        push_either(&mut self.near, &mut self.others, field)?;
        Ok(())
    }

    /// The fields.
    pub(crate) fn fields(&self, alloc: Global) -> Result<Vec<OffsetField>, AllocError>
        ensures { IfOk result (λ fields. fields.items ≡ self.now) }
    {
        let fields = both(alloc, self.near.as_slice(), self.others.as_slice())?;
        Ok(fields)
    }
}

/// Notes a field behind those that are near and others: near, where all are and it is.
#[tactic(auto, using(crate::proofs::NearFieldLaws::push_rules))]
fn push_either(
    near: &mut Vec<NearField>,
    others: &mut Vec<OffsetField>,
    field: OffsetField,
) -> Result<(), AllocError>
    ensures { OnOk result (near.new.items ++ others.new.items ≡ (near.old.items ++ others.old.items) ++ field ∷ []) }
{
    if field.at >= FAR {
        others.push(field)?;
        return Ok(());
    }
    if !is_none(others.as_slice()) {
        others.push(field)?;
        return Ok(());
    }
    near.push(NearField::new(field))?;
    Ok(())
}

/// There is no field.
#[tactic(auto, using(crate::proofs::NearFieldLaws::none_rules))]
fn is_none(fields: &[OffsetField]) -> bool
    ensures none { OnTrue result (fields.now ≡ []) }
{
    fields.is_empty()
}

/// Fields that are near, and others behind them.
#[tactic(auto, using(crate::proofs::NearFieldLaws::both_rules))]
fn both(
    alloc: Global,
    near: &[NearField],
    others: &[OffsetField],
) -> Result<Vec<OffsetField>, AllocError>
    ensures { IfOk result (λ fields. fields.items ≡ near.now ++ others.now) }
{
    let mut fields = Vec::with_capacity(alloc, near.len())?;
    push_near(near, &mut fields)?;
    fields.extend_from_slice(others)?;
    Ok(fields)
}

/// Puts fields behind others.
#[tactic(auto, using(crate::proofs::NearFieldLaws::item_rules))]
fn push_near(near: &[NearField], fields: &mut Vec<OffsetField>) -> Result<(), AllocError>
    ensures { OnOk result (fields.new.items ≡ fields.old.items ++ near.now) }
{
    for one in near {
        fields.push(one.whole())?;
    }
    Ok(())
}
