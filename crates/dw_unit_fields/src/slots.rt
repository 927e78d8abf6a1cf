//! The slots that values by index name (DWARF 5, 7.26 and 7.5.5, class string).
//!
//! Read first: `specs/NamedSlots.antt`.

ghost use Rattle.std.specs.Prelude.{◌≡◌, ◌∷◌, [], length, None, Some};
ghost use Rattle.dw_base.specs.Refusals.{at};
ghost use Rattle.dw_offsets.specs.NamedPlaces.{place_by};
ghost use Rattle.dw_unit_fields.specs.NamedSlots.{LieWithin, Slots, TakesIndexes, first_refusal};

use crate::fields::TextIndex;
use dw_base::{Kind, Refusal};
use dw_offsets::{ContributionList, SlotMarks, slot_place};
use std::marker::Model;

/// The slots that values by index name, and the first such value that names none.
#[derive(Drop)]
pub struct NamedSlots<'a> {
    /// The contributions of the section of string offsets.
    contributions: &'a ContributionList,
    /// Which of their slots are named.
    pub marks: SlotMarks,
    /// What refuses the first value that names no slot.
    missing: Option<Refusal>,
}

impl<'a> Model for NamedSlots<'a> {
    ghost Value = { Slots };

    ghost view = { λ s. record { list = s.contributions.now; marks = s.marks; missing = s.missing } };

    ghost invariant = { λ s. LieWithin s.contributions.now (length s.marks) };
}

impl<'a> NamedSlots<'a> {
    /// The slots of these contributions, with the marks that were made, a mark for each byte of their section (DWARF 5, 7.26).
    pub fn new(contributions: &'a ContributionList, marks: SlotMarks) -> NamedSlots<'a>
        requires within { LieWithin contributions.now (length marks) }
        ensures { result ≡ record { list = contributions.now; marks = marks; missing = None } }
    {
        NamedSlots {
            contributions,
            marks,
            missing: None,
        }
    }

    /// What refuses the first value that named no slot.
    pub(crate) fn missing(&self) -> Option<Refusal>
        ensures { result ≡ self.now.missing }
    {
        self.missing
    }

    /// Marks the slots that the values of a unit of a section name by its base.
    pub(crate) fn take(&mut self, section: u32, base: Option<u64>, indexes: &[TextIndex])
        ensures { TakesIndexes section base indexes.now self.old self.new }
    {
        take_all(
            self.contributions,
            &mut self.marks,
            &mut self.missing,
            section,
            base,
            indexes,
        );
    }
}

/// The same, from the parts.
#[tactic(auto, using(crate::proofs::SlotRunLaws::all_rules))]
fn take_all(
    contributions: &ContributionList,
    marks: &mut SlotMarks,
    missing: &mut Option<Refusal>,
    section: u32,
    base: Option<u64>,
    indexes: &[TextIndex],
)
    requires within { LieWithin contributions.now (length marks.old) }
    ensures size { length marks.new ≡ length marks.old }
    ensures taken { TakesIndexes section base indexes.now (record { list = contributions.now; marks = marks.old; missing = missing.old }) (record { list = contributions.now; marks = marks.new; missing = missing.new }) }
{
    for index in indexes {
        take_one(contributions, marks, missing, section, base, index);
    }
}

/// Marks the slot that a value names, or keeps what refuses it.
#[tactic(auto, using(crate::proofs::SlotRunLaws::one_rules))]
fn take_one(
    contributions: &ContributionList,
    marks: &mut SlotMarks,
    missing: &mut Option<Refusal>,
    section: u32,
    base: Option<u64>,
    index: &TextIndex,
)
    requires within { LieWithin contributions.now (length marks.old) }
    ensures size { length marks.new ≡ length marks.old }
    ensures taken { TakesIndexes section base (index.now ∷ []) (record { list = contributions.now; marks = marks.old; missing = missing.old }) (record { list = contributions.now; marks = marks.new; missing = missing.new }) }
{
    match place_by(contributions, base, index.index) {
        Some(place) => marks.mark(place, index.path),
        None => keep_first(missing, no_slot(section, index.place)),
    }
}

/// The place of the slot of an index in the contribution of a base.
fn place_by(contributions: &ContributionList, base: Option<u64>, index: u64) -> Option<u64>
    ensures { result ≡ place_by base contributions.now index }
{
    match base {
        Some(base) => slot_place(contributions, base, index),
        None => None,
    }
}

/// Keeps a refusal, where there is none yet.
fn keep_first(missing: &mut Option<Refusal>, refusal: Refusal)
    ensures { missing.new ≡ first_refusal missing.old (Some refusal) }
{
    if missing.is_none() {
        *missing = Some(refusal);
    }
}

/// A value that names no slot.
fn no_slot(section: u32, place: u64) -> Refusal
    ensures { result ≡ at Kind.StringTable section place }
{
    Refusal::at(Kind::StringTable, section, place)
}
