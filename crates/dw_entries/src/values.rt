//! The values of an entry's attributes, as an iterator (DWARF 5, 7.5.3 to 7.5.6).
//!
//! This file promises: what a step gives is the next attribute with the value that stands at the place
//! that was reached, a refusal for which a reason holds, or that no attribute is left (`GivesNext` in
//! `specs/ValueWalks.antt`). After a refusal the walk is over.

ghost use Rattle.std.specs.Prelude.{◌≡◌, ◌≤◌, ◌+◌, Some, length, IfErr, IfOk, IsTrue};
ghost use Rattle.std.specs.Iterator.{at_most};
ghost use Rattle.dw_base.specs.FormFails.{FormFails};
ghost use Rattle.dw_base.specs.UnitHeaders.{is_address_size};
ghost use Rattle.dw_base.specs.Values.{value_at};
ghost use Rattle.dw_entries.specs.ValueWalks.{GivesNext, WalkFits, WalkState};

use dw_base::{Params, Refusal, Spec, Value};
use dw_forms::value_at;
use std::marker::Model;

/// The values of an entry's attributes, in order.
#[derive(Drop)]
pub struct EntryValues<'v, 't> {
    /// What the values depend on.
    params: Params,
    /// The number of the section.
    section: u32,
    /// The bytes of the section up to the unit's end.
    bytes: &'v [u8],
    /// The attributes whose values are left.
    left: &'t [Spec],
    /// Where the first of these stands.
    place: u64,
}

impl<'v, 't> Model for EntryValues<'v, 't> {
    ghost Value = { WalkState };

    ghost view = { λ w. record { params = w.params; section = w.section; bytes = w.bytes.now; left = w.left.now; place = w.place } };

    ghost invariant = { λ w. WalkFits (record { params = w.params; section = w.section; bytes = w.bytes.now; left = w.left.now; place = w.place }) };
}

impl<'v, 't> EntryValues<'v, 't> {
    /// The walk over the values of attributes that stand from `place` on, in the bytes of the section of a
    /// number up to the unit's end.
    pub fn new(
        params: Params,
        section: u32,
        bytes: &'v [u8],
        specs: &'t [Spec],
        place: u64,
    ) -> EntryValues<'v, 't>
        requires address { IsTrue (is_address_size params.address) }
        requires inside { place ≤ length bytes.now }
        ensures start { result ≡ record { params = params; section = section; bytes = bytes.now; left = specs.now; place = place } }
    {
        EntryValues {
            params,
            section,
            bytes,
            left: specs,
            place,
        }
    }
}

/// The value of an attribute at a place of the bytes up to the unit's end.
#[tactic(auto, using(crate::proofs::ValueLaws::read_rules))]
fn value_in(
    params: &Params,
    section: u32,
    bytes: &[u8],
    spec: &Spec,
    place: u64,
) -> Result<Value, Refusal>
    requires address { IsTrue (is_address_size params.now.address) }
    ensures value { IfOk result (λ v. value_at params.now spec.now bytes.now place ≡ Some v) }
    ensures within { IfOk result (λ v. place + v.size ≤ length bytes.now) }
    ensures refused { IfErr result (FormFails params.now spec.now bytes.now section place) }
{
    let value = value_at(spec, params, section, bytes, place, bytes.len() as u64)?;
    Ok(value)
}

impl<'v, 't> Iterator for EntryValues<'v, 't> {
    type Item = Result<(Spec, Value), Refusal>;

    ghost next_gives = { GivesNext };

    ghost remaining = { λ w. at_most (length w.left) };

    fn next(&mut self) -> Option<Result<(Spec, Value), Refusal>> {
        let (spec, rest) = self.left.split_first()?;
        match value_in(&self.params, self.section, self.bytes, spec, self.place) {
            Ok(value) => {
                self.left = rest;
                self.place += value.size;
                Some(Ok((*spec, value)))
            }
            Err(refusal) => {
                self.left = &[];
                Some(Err(refusal))
            }
        }
    }
}
