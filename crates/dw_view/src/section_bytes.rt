//! A section as one that offsets are into (DWARF 5, 7.4 and 7.5.5; gABI ch. 4 "Relocation").
//!
//! This file promises: the offset that a field says into a section, where one into another section counts as past it.
//! Read first: `Located` and `offset_into` of `dw_base/specs/Cells.antt`.

ghost use Rattle.std.specs.Prelude.{◌≡◌};
ghost use Rattle.dw_base.specs.Cells.{Located as LocatedOf, offset_into};

use dw_base::Field;
use std::marker::Model;

/// A section: its number and its bytes; 0 and none where there is no such section.
#[derive(Drop)]
pub struct SectionBytes<'v> {
    /// The section's number.
    pub number: u32,
    /// Its bytes.
    pub bytes: &'v [u8],
}

impl<'v> Model for SectionBytes<'v> {
    ghost Value = { LocatedOf };

    ghost view = { λ z. record { number = z.number; bytes = z.bytes.now } };
}

impl<'v> SectionBytes<'v> {
    /// The offset that a field says into the section: one into another section counts as past it.
    pub fn offset(&self, field: Field) -> u64
        ensures offset { result ≡ offset_into self.now field }
    {
        offset_by(self.number, self.bytes, field)
    }
}

/// The same of the section of a number with these bytes.
fn offset_by(number: u32, bytes: &[u8], field: Field) -> u64
    ensures { result ≡ offset_into (record { number = number; bytes = bytes.now }) field }
{
    match field {
        Field::Num(offset) => offset,
        Field::Into { section, offset } => {
            if section == number {
                offset
            } else {
                bytes.len() as u64
            }
        }
        Field::Sym { .. } => bytes.len() as u64,
    }
}
