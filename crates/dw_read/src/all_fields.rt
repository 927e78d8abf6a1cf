//! What the debug data of a view say of texts, kind by kind, in the order in which they are mentioned.
//!
//! Read first: `specs/AllFields.antt`.

ghost use Rattle.std.specs.Prelude.{◌≡◌, IfOk};
ghost use Rattle.dw_read.specs.AllFields.{Fields as FieldsOf};

use dw_unit_fields::{FoundFields, SectionFields};
use std::alloc::{AllocError, Global};
use std::marker::Model;

/// What was found of the sections of debug data, that of unit sections as it was found.
#[derive(Drop)]
pub(crate) struct FoundAll {
    /// Of the unit sections, in the order of their numbers.
    units: Vec<FoundFields>,
    /// Of the section of string offsets, where there is one.
    slots: Vec<SectionFields>,
    /// Of the section of line tables, where there is one.
    lines: Vec<SectionFields>,
    /// Of the sections of macro units, in the order of their numbers.
    macros: Vec<SectionFields>,
    /// Of the section of name tables, where there is one.
    names: Vec<SectionFields>,
}

impl Model for FoundAll {
    ghost Value = { FieldsOf };

    ghost view = { λ f. record { units = f.units.items; slots = f.slots.items; lines = f.lines.items; macros = f.macros.items; names = f.names.items } };
}

impl FoundAll {
    /// What was found of all.
    pub(crate) fn new(
        units: Vec<FoundFields>,
        slots: Vec<SectionFields>,
        lines: Vec<SectionFields>,
        macros: Vec<SectionFields>,
        names: Vec<SectionFields>,
    ) -> FoundAll
        ensures { result ≡ record { units = units.items; slots = slots.items; lines = lines.items; macros = macros.items; names = names.items } }
    {
        FoundAll {
            units,
            slots,
            lines,
            macros,
            names,
        }
    }

    /// The same, as it is given.
    pub(crate) fn given(self, alloc: Global) -> Result<Fields, AllocError>
        ensures { IfOk result (λ fields. fields ≡ self) }
    {
        let FoundAll {
            units,
            slots,
            lines,
            macros,
            names,
        } = self;
        let units = given_units(alloc, units.as_slice())?;
        Ok(Fields {
            units,
            slots,
            lines,
            macros,
            names,
        })
    }
}

/// What was found of unit sections, as it is given.
#[tactic(auto, using(dw_unit_fields::proofs::NearFieldLaws::item_rules))]
fn given_units(alloc: Global, found: &[FoundFields]) -> Result<Vec<SectionFields>, AllocError>
    ensures { IfOk result (λ units. units.items ≡ found.now) }
{
    let mut units = Vec::with_capacity(alloc, found.len())?;
    for section in found {
        let one = section.given(alloc)?;
        units.push(one)?;
    }
    Ok(units)
}

/// What was found of the sections of debug data.
#[derive(Drop)]
pub struct Fields {
    /// Of the unit sections, in the order of their numbers.
    units: Vec<SectionFields>,
    /// Of the section of string offsets, where there is one.
    slots: Vec<SectionFields>,
    /// Of the section of line tables, where there is one.
    lines: Vec<SectionFields>,
    /// Of the sections of macro units, in the order of their numbers.
    macros: Vec<SectionFields>,
    /// Of the section of name tables, where there is one.
    names: Vec<SectionFields>,
}

impl Model for Fields {
    ghost Value = { FieldsOf };

    ghost view = { λ f. record { units = f.units.items; slots = f.slots.items; lines = f.lines.items; macros = f.macros.items; names = f.names.items } };
}

impl Fields {
    /// That of the unit sections.
    pub fn units(&self) -> &[SectionFields]
        ensures { result.now ≡ self.now.units }
    {
        self.units.as_slice()
    }

    /// That of the section of string offsets.
    pub fn slots(&self) -> &[SectionFields]
        ensures { result.now ≡ self.now.slots }
    {
        self.slots.as_slice()
    }

    /// That of the section of line tables.
    pub fn lines(&self) -> &[SectionFields]
        ensures { result.now ≡ self.now.lines }
    {
        self.lines.as_slice()
    }

    /// That of the sections of macro units.
    pub fn macros(&self) -> &[SectionFields]
        ensures { result.now ≡ self.now.macros }
    {
        self.macros.as_slice()
    }

    /// That of the section of name tables.
    pub fn names(&self) -> &[SectionFields]
        ensures { result.now ≡ self.now.names }
    {
        self.names.as_slice()
    }
}
