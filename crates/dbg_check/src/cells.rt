//! Cells of two sections compared: their bytes, and the relocations that begin in them (gABI ch. 4 "Relocation").

ghost use Rattle.std.specs.Prelude.{◌≡◌, ◌↔◌, ◌+◌, ◌^◌, ◌<◌, ◌≤◌, true, false, is_some, length, option_map, IfNone, IfSome, IsTrue, MatchOption};
ghost use Rattle.dw_base.specs.FileViews.{kind_at, section_bytes, view_cells};
ghost use Rattle.dw_base.specs.RelocationFields.{relocation_at};
ghost use Rattle.dw_base.specs.Texts.{same_text};
ghost use Rattle.dw_base.specs.WrittenLines.{cells_part, part};
ghost use Rattle.dw_view.specs.Relocations.{relocation_value};
ghost use Rattle.dbg_check.specs.CellRuns.{NextBegins, NoneBegins, RelocationsAgree, RunsAgree};

use dw_base::Class;
use dw_view::{Relocation, View};

/// Where a run of cells begins.
#[derive(Clone, Copy, Debug, PartialEq, Eq)]
pub struct CellPlace {
    /// The number of the section.
    pub section: u32,
    /// In bytes from its start.
    pub at: u64,
}

/// Whether two sizes of fields are the same.
fn same_size(one: Option<u8>, other: Option<u8>) -> bool
    ensures value { IsTrue result ↔ (one ≡ other) }
{
    match (one, other) {
        (Some(one), Some(other)) => one == other,
        (None, None) => true,
        _ => false,
    }
}

/// Whether two addends are the same.
fn same_addend(one: Option<i64>, other: Option<i64>) -> bool
    ensures value { IsTrue result ↔ (one ≡ other) }
{
    match (one, other) {
        (Some(one), Some(other)) => one == other,
        (None, None) => true,
        _ => false,
    }
}

/// Whether two places of symbols are the same.
fn same_target(one: Option<(u32, u64)>, other: Option<(u32, u64)>) -> bool
    ensures value { IsTrue result ↔ (one ≡ other) }
{
    match (one, other) {
        (Some(one), Some(other)) => one.0 == other.0 && one.1 == other.1,
        (None, None) => true,
        _ => false,
    }
}

/// Whether two classes are the same.
fn same_class(one: Class, other: Class) -> bool
    ensures value { IsTrue result ↔ (one ≡ other) }
{
    match (one, other) {
        (Class::C32, Class::C32) | (Class::C64, Class::C64) => true,
        _ => false,
    }
}

/// Whether two relocations are the same.
#[tactic(auto, using(crate::proofs::CellLaws::one_laws))]
fn same_relocation(one: Relocation, other: Relocation) -> bool
    ensures value { IsTrue result ↔ (relocation_value one ≡ relocation_value other) }
{
    if !same_class(one.class, other.class) {
        return false;
    }
    if one.symbol != other.symbol {
        return false;
    }
    if one.kind != other.kind {
        return false;
    }
    if !same_size(one.size, other.size) {
        return false;
    }
    if !same_addend(one.addend, other.addend) {
        return false;
    }
    same_target(one.target, other.target)
}

/// The same of two, of which each may be none.
#[tactic(auto, using(crate::proofs::CellLaws::option_laws))]
fn same_option(one: Option<Relocation>, other: Option<Relocation>) -> bool
    ensures value { IsTrue result ↔ (option_map relocation_value one ≡ option_map relocation_value other) }
{
    match (one, other) {
        (Some(one), Some(other)) => same_relocation(one, other),
        (None, None) => true,
        _ => false,
    }
}

/// Whether the same relocation begins at two places, or none at either.
#[tactic(auto, using(crate::proofs::CellLaws::place_laws))]
fn same_at(old: &View, new: &View, here: CellPlace, there: CellPlace, number: u64) -> bool
    requires section { here.section < length old.now.sections }
    requires section_there { there.section < length new.now.sections }
    requires inside { here.at + number < length (section_bytes old.now here.section) }
    requires inside_there { there.at + number < length (section_bytes new.now there.section) }
    requires small { here.at + number < 2 ^ 63 }
    requires small_there { there.at + number < 2 ^ 63 }
    ensures value { IsTrue result ↔ (relocation_at (view_cells old.now here.section) (here.at + number) ≡ relocation_at (view_cells new.now there.section) (there.at + number)) }
{
    let one = old.relocation(here.section, here.at + number);
    let other = new.relocation(there.section, there.at + number);
    same_option(one, other)
}

/// Of so many cells from a place on the first from a number on at which a relocation begins.
#[tactic(auto, using(crate::proofs::CellLaws::next_laws))]
fn next_begin(view: &View, place: CellPlace, from: u64, size: u64) -> Option<u64>
    requires section { place.section < length view.now.sections }
    requires read { is_some (kind_at view.now place.section) ≡ true }
    requires order { from ≤ size }
    requires inside { place.at + size ≤ length (section_bytes view.now place.section) }
    requires small { place.at + size < 2 ^ 63 }
    ensures next { MatchOption result (NoneBegins (view_cells view.now place.section) place.at from size) (NextBegins (view_cells view.now place.section) place.at from size) }
{
    let Some(next) = view.next_relocation(place.section, place.at + from) else {
        return None;
    };
    let number = next - place.at;
    if number >= size {
        return None;
    }
    Some(number)
}

/// The number behind that of two relocations, where both have the same number and are the same.
#[tactic(auto, using(crate::proofs::CellLaws::both_laws))]
fn behind_both(
    old: &View,
    new: &View,
    here: CellPlace,
    there: CellPlace,
    from: u64,
    size: u64,
    one: u64,
    other: u64,
) -> Option<u64>
    requires section { here.section < length old.now.sections }
    requires section_there { there.section < length new.now.sections }
    requires inside { here.at + size ≤ length (section_bytes old.now here.section) }
    requires inside_there { there.at + size ≤ length (section_bytes new.now there.section) }
    requires small { here.at + size < 2 ^ 63 }
    requires small_there { there.at + size < 2 ^ 63 }
    requires one { NextBegins (view_cells old.now here.section) here.at from size one }
    requires other { NextBegins (view_cells new.now there.section) there.at from size other }
    ensures same { IfSome result (RelocationsAgree (view_cells old.now here.section) (view_cells new.now there.section) here.at there.at from) }
    ensures past { IfSome result (λ k. from < k) }
    ensures within { IfSome result (λ k. k ≤ size) }
    ensures other { IfNone result (RelocationsAgree (view_cells old.now here.section) (view_cells new.now there.section) here.at there.at from size → ⊥) }
{
    if one != other {
        return None;
    }
    if !same_at(old, new, here, there, one) {
        return None;
    }
    Some(one + 1)
}

/// The number behind the next relocation, where it is the same in both; their size where none begins any more in either.
#[tactic(auto, using(crate::proofs::CellLaws::step_laws))]
fn behind_next(
    old: &View,
    new: &View,
    here: CellPlace,
    there: CellPlace,
    from: u64,
    size: u64,
) -> Option<u64>
    requires section { here.section < length old.now.sections }
    requires section_there { there.section < length new.now.sections }
    requires read { is_some (kind_at old.now here.section) ≡ true }
    requires read_there { is_some (kind_at new.now there.section) ≡ true }
    requires inside { here.at + size ≤ length (section_bytes old.now here.section) }
    requires inside_there { there.at + size ≤ length (section_bytes new.now there.section) }
    requires small { here.at + size < 2 ^ 63 }
    requires small_there { there.at + size < 2 ^ 63 }
    requires order { from < size }
    ensures same { IfSome result (RelocationsAgree (view_cells old.now here.section) (view_cells new.now there.section) here.at there.at from) }
    ensures past { IfSome result (λ k. from < k) }
    ensures within { IfSome result (λ k. k ≤ size) }
    ensures other { IfNone result (RelocationsAgree (view_cells old.now here.section) (view_cells new.now there.section) here.at there.at from size → ⊥) }
{
    let first = next_begin(old, here, from, size);
    let second = next_begin(new, there, from, size);
    match first {
        Some(one) => match second {
            Some(other) => behind_both(old, new, here, there, from, size, one, other),
            None => None,
        },
        None => match second {
            Some(_) => None,
            None => Some(size),
        },
    }
}

/// Whether the same relocations begin in so many cells of two sections that are read.
#[tactic(auto, using(crate::proofs::CellLaws::loop_laws))]
fn same_relocations(old: &View, new: &View, here: CellPlace, there: CellPlace, size: u64) -> bool
    requires section { here.section < length old.now.sections }
    requires section_there { there.section < length new.now.sections }
    requires read { is_some (kind_at old.now here.section) ≡ true }
    requires read_there { is_some (kind_at new.now there.section) ≡ true }
    requires inside { here.at + size ≤ length (section_bytes old.now here.section) }
    requires inside_there { there.at + size ≤ length (section_bytes new.now there.section) }
    requires small { here.at + size < 2 ^ 63 }
    requires small_there { there.at + size < 2 ^ 63 }
    ensures same { IsTrue result → RelocationsAgree (view_cells old.now here.section) (view_cells new.now there.section) here.at there.at 0 size }
    ensures other { result ≡ false → RelocationsAgree (view_cells old.now here.section) (view_cells new.now there.section) here.at there.at 0 size → ⊥ }
{
    let mut number = 0;
    'numbers: while number < size {
        let Some(behind) = behind_next(old, new, here, there, number, size) else {
            return false;
        };
        number = behind;
    }
    true
}

/// Whether so many bytes from two places are the same.
fn same_run(old: &[u8], new: &[u8], from: u64, at: u64, size: u64) -> bool
    requires inside { from + size ≤ length old.now }
    requires inside_there { at + size ≤ length new.now }
    ensures value { result ≡ same_text (part old.now from (from + size)) (part new.now at (at + size)) }
{
    let first = &old[from as usize..(from + size) as usize];
    let second = &new[at as usize..(at + size) as usize];
    first == second
}

/// Whether so many cells of two sections that are read are the same.
#[tactic(auto, using(crate::proofs::CellLaws::cell_laws))]
pub fn same_cells(old: &View, new: &View, here: CellPlace, there: CellPlace, size: u64) -> bool
    requires section { here.section < length old.now.sections }
    requires section_there { there.section < length new.now.sections }
    requires read { is_some (kind_at old.now here.section) ≡ true }
    requires read_there { is_some (kind_at new.now there.section) ≡ true }
    requires inside { here.at + size ≤ length (section_bytes old.now here.section) }
    requires inside_there { there.at + size ≤ length (section_bytes new.now there.section) }
    ensures same { IsTrue result → RunsAgree old.now new.now here there size }
    ensures other { result ≡ false → RunsAgree old.now new.now here there size → ⊥ }
{
    let one = old.bytes(here.section);
    let two = new.bytes(there.section);
    if !same_run(one, two, here.at, there.at, size) {
        return false;
    }
    same_relocations(old, new, here, there, size)
}

/// Whether the cells of two sections that are read are the same, from a place up to another in each.
#[tactic(auto, using(crate::proofs::CellLaws::stretch_laws))]
pub fn same_stretch(
    old: &View,
    new: &View,
    here: CellPlace,
    there: CellPlace,
    end: u64,
    other: u64,
) -> bool
    requires section { here.section < length old.now.sections }
    requires section_there { there.section < length new.now.sections }
    requires read { is_some (kind_at old.now here.section) ≡ true }
    requires read_there { is_some (kind_at new.now there.section) ≡ true }
    requires order { here.at ≤ end }
    requires order_there { there.at ≤ other }
    requires inside { end ≤ length (section_bytes old.now here.section) }
    requires inside_there { other ≤ length (section_bytes new.now there.section) }
    ensures same { IsTrue result → cells_part (view_cells old.now here.section) here.at end ≡ cells_part (view_cells new.now there.section) there.at other }
    ensures other { result ≡ false → cells_part (view_cells old.now here.section) here.at end ≡ cells_part (view_cells new.now there.section) there.at other → ⊥ }
{
    let size = end - here.at;
    if size != other - there.at {
        return false;
    }
    same_cells(old, new, here, there, size)
}
