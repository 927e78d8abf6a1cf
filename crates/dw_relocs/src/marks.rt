//! A pass over the fields of a section and the relocations that stand there.
//!
//! Read first: `specs/FieldWalks.antt`.

ghost use Rattle.std.specs.Prelude.{[], ◌∷◌, ◌≡◌, ◌+◌, ◌<◌, ◌≤◌, ◌^◌, true, is_some, length, IfErr, IfOk, IfSome, MatchOption, OnOk, Ok};
ghost use Rattle.dw_base.specs.FileViews.{kind_at, section_bytes, view_cells};
ghost use Rattle.dw_base.specs.RelocationRows.{OffsetFails, OffsetReads, field_place, moving_sections, offset_field, plain_field};
ghost use Rattle.dw_relocs.specs.FieldWalks.{AllRead, AreMarks, FieldFails, FieldPassed, Goes, OneFails, OneMoves, Passed, Stands, StandsAt, Walked, ground_of, place_before};

use crate::relocations::{next_relocation, relocation_moves};
use dw_base::{Kind, Refusal};
use dw_view::View;

/// How far a pass over the relocations of a section has come.
#[derive(Clone, Copy, Drop)]
pub(crate) struct Marks {
    /// Where it is.
    pub place: u64,
    /// The first place from there on at which a relocation begins.
    pub next: Option<u64>,
}

/// A pass that is at a place.
#[tactic(auto, using(crate::proofs::MarkLaws::from_rules))]
pub(crate) fn marks_from(view: &View, section: u32, place: u64) -> Marks
    requires there { section < length view.now.sections }
    requires read { is_some (kind_at view.now section) ≡ true }
    ensures marks { AreMarks (view_cells view.now section) result }
    ensures place { result.place ≡ place }
    ensures small { IfSome result.next (λ p. p < 2 ^ 31) }
{
    Marks {
        place,
        next: next_relocation(view, section, place),
    }
}

/// The next place, if it lies before another.
pub(crate) fn place_before(next: Option<u64>, to: u64) -> Option<u64>
    ensures { result ≡ place_before next to }
{
    match next {
        Some(place) if place < to => Some(place),
        _ => None,
    }
}

/// Passes the relocations before a place. Refused as `Relocation` at one that names a place in a section whose places change.
#[tactic(auto, using(crate::proofs::MarkLaws::pass_rules))]
fn passed(view: &View, section: u32, marks: Marks, to: u64) -> Result<Marks, Refusal>
    requires there { section < length view.now.sections }
    requires read { is_some (kind_at view.now section) ≡ true }
    requires marks { AreMarks (view_cells view.now section) marks }
    requires small { IfSome marks.next (λ p. p < 2 ^ 31) }
    requires before { marks.place ≤ to }
    ensures passed { IfOk result (Passed (ground_of view.now section) marks.place to) }
    ensures refused { IfErr result (OneMoves (ground_of view.now section) marks.place to) }
{
    let mut at = marks;
    while let Some(place) = place_before(at.next, to) {
        if relocation_moves(view, section, place) {
            return Err(Refusal::at(Kind::Relocation, section, place));
        }
        at = marks_from(view, section, place + 1);
    }
    Ok(Marks {
        place: to,
        next: at.next,
    })
}

/// The marks behind a field in which no relocation begins but at its start.
#[tactic(auto, using(crate::proofs::MarkLaws::behind_rules))]
fn behind(view: &View, section: u32, marks: Marks, to: u64) -> Marks
    requires there { section < length view.now.sections }
    requires read { is_some (kind_at view.now section) ≡ true }
    requires marks { AreMarks (view_cells view.now section) marks }
    requires small { IfSome marks.next (λ p. p < 2 ^ 31) }
    requires before { marks.place ≤ to }
    ensures marks { AreMarks (view_cells view.now section) result }
    ensures place { result.place ≡ to }
    ensures small { IfSome result.next (λ p. p < 2 ^ 31) }
{
    if place_before(marks.next, to).is_some() {
        return marks_from(view, section, to);
    }
    Marks {
        place: to,
        next: marks.next,
    }
}

/// The field of an offset can be read.
#[tactic(auto, using(crate::proofs::OffsetLaws::check_rules))]
fn check_offset(view: &View, section: u32, place: u64, size: u8) -> Result<(), Refusal>
    requires there { section < length view.now.sections }
    requires read { is_some (kind_at view.now section) ≡ true }
    requires some { 0 < size }
    requires wide { size ≤ 8 }
    requires inside { place + size ≤ length (section_bytes view.now section) }
    ensures reads { OnOk result (OffsetReads view.now.order (view_cells view.now section) (field_place place size offset_field)) }
    ensures refused { IfErr result (OffsetFails view.now.order section (view_cells view.now section) (field_place place size offset_field)) }
{
    match view.offset(section, place, size) {
        Ok(_) => Ok(()),
        Err(refusal) => Err(refusal),
    }
}

/// Passes the field of an offset, and the relocations in front of it.
#[tactic(auto, using(crate::proofs::MarkLaws::offset_rules))]
fn offset_passed(
    view: &View,
    section: u32,
    marks: Marks,
    place: u64,
    size: u8,
) -> Result<Marks, Refusal>
    requires there { section < length view.now.sections }
    requires read { is_some (kind_at view.now section) ≡ true }
    requires marks { AreMarks (view_cells view.now section) marks }
    requires small { IfSome marks.next (λ p. p < 2 ^ 31) }
    requires before { marks.place ≤ place }
    requires some { 0 < size }
    requires wide { size ≤ 8 }
    requires inside { place + size ≤ length (section_bytes view.now section) }
    requires few { place + size < 2 ^ 63 }
    ensures passed { IfOk result (FieldPassed (ground_of view.now section) marks.place (field_place place size offset_field)) }
    ensures refused { IfErr result (FieldFails (ground_of view.now section) marks.place (field_place place size offset_field)) }
{
    let marks = passed(view, section, marks, place)?;
    check_offset(view, section, place, size)?;
    let to = place + u64::from(size);
    Ok(behind(view, section, marks, to))
}

/// Passes the field of a number that is meant as it stands, and the relocations in front of it.
#[tactic(auto, using(crate::proofs::MarkLaws::number_rules))]
fn number_passed(
    view: &View,
    section: u32,
    marks: Marks,
    place: u64,
    size: u64,
) -> Result<Marks, Refusal>
    requires there { section < length view.now.sections }
    requires read { is_some (kind_at view.now section) ≡ true }
    requires marks { AreMarks (view_cells view.now section) marks }
    requires small { IfSome marks.next (λ p. p < 2 ^ 31) }
    requires before { marks.place ≤ place }
    requires some { 0 < size }
    requires inside { place + size ≤ length (section_bytes view.now section) }
    requires few { place + size < 2 ^ 63 }
    ensures passed { IfOk result (FieldPassed (ground_of view.now section) marks.place (field_place place size plain_field)) }
    ensures refused { IfErr result (FieldFails (ground_of view.now section) marks.place (field_place place size plain_field)) }
{
    let to = place + size;
    let marks = passed(view, section, marks, place + 1)?;
    if let Some(inside) = place_before(marks.next, to) {
        return Err(Refusal::at(Kind::Relocation, section, inside));
    }
    Ok(Marks {
        place: to,
        next: marks.next,
    })
}

/// A pass at the start of the section of a number that is read.
#[tactic(auto, using(crate::proofs::WalkLaws::start_rules))]
pub(crate) fn pass_start(view: &View, section: u32) -> Result<Marks, Refusal>
    requires there { section < length view.now.sections }
    requires read { is_some (kind_at view.now section) ≡ true }
    ensures stands { StandsAt (view_cells view.now section) 0 result }
    ensures walked { Walked (ground_of view.now section) [] 0 result }
{
    Ok(marks_from(view, section, 0))
}

/// A pass over the field of an offset.
#[tactic(auto, using(crate::proofs::WalkLaws::field_rules))]
pub(crate) fn pass_offset(
    view: &View,
    section: u32,
    pass: Result<Marks, Refusal>,
    place: u64,
    size: u8,
) -> Result<Marks, Refusal>
    requires there { section < length view.now.sections }
    requires read { is_some (kind_at view.now section) ≡ true }
    requires stands { StandsAt (view_cells view.now section) place pass }
    requires some { 0 < size }
    requires wide { size ≤ 8 }
    requires inside { place + size ≤ length (section_bytes view.now section) }
    requires few { place + size < 2 ^ 63 }
    ensures goes { Goes (ground_of view.now section) place (place + size) (field_place place size offset_field ∷ []) pass result }
{
    match pass {
        Ok(marks) => offset_from(view, section, marks, place, size),
        Err(refusal) => Err(refusal),
    }
}

/// The same from marks on.
#[tactic(auto, using(crate::proofs::WalkLaws::from_rules))]
fn offset_from(
    view: &View,
    section: u32,
    marks: Marks,
    place: u64,
    size: u8,
) -> Result<Marks, Refusal>
    requires there { section < length view.now.sections }
    requires read { is_some (kind_at view.now section) ≡ true }
    requires stands { Stands (view_cells view.now section) place marks }
    requires some { 0 < size }
    requires wide { size ≤ 8 }
    requires inside { place + size ≤ length (section_bytes view.now section) }
    requires few { place + size < 2 ^ 63 }
    ensures goes { Goes (ground_of view.now section) place (place + size) (field_place place size offset_field ∷ []) (Ok marks) result }
{
    offset_passed(view, section, marks, place, size)
}

/// A pass over the field of a number that is meant as it stands.
#[tactic(auto, using(crate::proofs::WalkLaws::field_rules))]
pub(crate) fn pass_number(
    view: &View,
    section: u32,
    pass: Result<Marks, Refusal>,
    place: u64,
    size: u64,
) -> Result<Marks, Refusal>
    requires there { section < length view.now.sections }
    requires read { is_some (kind_at view.now section) ≡ true }
    requires stands { StandsAt (view_cells view.now section) place pass }
    requires some { 0 < size }
    requires inside { place + size ≤ length (section_bytes view.now section) }
    requires few { place + size < 2 ^ 63 }
    ensures goes { Goes (ground_of view.now section) place (place + size) (field_place place size plain_field ∷ []) pass result }
{
    match pass {
        Ok(marks) => number_from(view, section, marks, place, size),
        Err(refusal) => Err(refusal),
    }
}

/// The same from marks on.
#[tactic(auto, using(crate::proofs::WalkLaws::from_rules))]
fn number_from(
    view: &View,
    section: u32,
    marks: Marks,
    place: u64,
    size: u64,
) -> Result<Marks, Refusal>
    requires there { section < length view.now.sections }
    requires read { is_some (kind_at view.now section) ≡ true }
    requires stands { Stands (view_cells view.now section) place marks }
    requires some { 0 < size }
    requires inside { place + size ≤ length (section_bytes view.now section) }
    requires few { place + size < 2 ^ 63 }
    ensures goes { Goes (ground_of view.now section) place (place + size) (field_place place size plain_field ∷ []) (Ok marks) result }
{
    number_passed(view, section, marks, place, size)
}

/// The end of a pass, at the end of its section: whether all fields that it came by, and all relocations, are ones that may stand there.
#[tactic(auto, using(crate::proofs::WalkLaws::end_rules))]
pub(crate) fn pass_end(
    view: &View,
    section: u32,
    pass: Result<Marks, Refusal>,
    end: u64,
) -> Result<(), Refusal>
    requires there { section < length view.now.sections }
    requires read { is_some (kind_at view.now section) ≡ true }
    requires end { end ≡ length (section_bytes view.now section) }
    requires stands { StandsAt (view_cells view.now section) (length (section_bytes view.now section)) pass }
    ensures reads { OnOk result (AllRead (ground_of view.now section) pass) }
    ensures refused { IfErr result (OneFails (ground_of view.now section) pass) }
{
    match pass {
        Ok(marks) => end_from(view, section, marks, end),
        Err(refusal) => Err(refusal),
    }
}

/// The same from marks on.
#[tactic(auto, using(crate::proofs::WalkLaws::last_rules))]
fn end_from(view: &View, section: u32, marks: Marks, end: u64) -> Result<(), Refusal>
    requires there { section < length view.now.sections }
    requires read { is_some (kind_at view.now section) ≡ true }
    requires end { end ≡ length (section_bytes view.now section) }
    requires stands { Stands (view_cells view.now section) (length (section_bytes view.now section)) marks }
    ensures reads { OnOk result (AllRead (ground_of view.now section) (Ok marks)) }
    ensures refused { IfErr result (OneFails (ground_of view.now section) (Ok marks)) }
{
    match passed(view, section, marks, end) {
        Ok(_) => Ok(()),
        Err(refusal) => Err(refusal),
    }
}
