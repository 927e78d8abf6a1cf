//! The pass over the entries of a unit, as an iterator (DWARF 5, 7.5.2 and 7.5.3).
//!
//! This file promises: what a step gives is the next entry, a refusal for which a reason holds, or that the
//! entries so far are those of the whole unit (`Gives` in `specs/ScanStates.antt`). After a refusal the
//! pass is over. With each entry it can give what it read of its code (`HasCode` in `specs/CodedEntries.antt`), so that
//! whoever looks at the values reads no code and looks up no abbreviation again.

ghost use Rattle.std.specs.Prelude.{◌≡◌, []};
ghost use Rattle.std.specs.Iterator.{at_most};
ghost use Rattle.dw_base.specs.EntryValues.{HasUnit, bytes_up_to};
ghost use Rattle.dw_base.specs.ViewData.{debug_data};
ghost use Rattle.dw_entries.specs.CodedEntries.{GivesCoded};
ghost use Rattle.dw_entries.specs.ScanStates.{Gives, HasGiven, ScanFits, ScanState, scan_start, steps_left};
ghost use Rattle.dw_entries.specs.ViewUnits.{unit_section_at};

use crate::step::{Stand, next_step};
use dw_abbrev::AbbrevTable;
use dw_base::{Refusal, Scanned, UnitHeader};
use dw_view::View;
use std::marker::Model;

/// An entry that a pass met, with what it read of its code.
#[derive(Clone, Copy, Debug, PartialEq, Eq)]
pub struct Coded {
    /// The entry.
    pub entry: Scanned,
    /// The number of its abbreviation in the table, from 0 on.
    pub index: usize,
    /// Where its values begin, in bytes from the section's start.
    pub from: u64,
}

/// A pass over the entries of a unit, in the order of their places, each with what was read of its code. It is an iterator
/// of entries and refusals, and ends after a refusal: `Entry` at the entry, value or unit's end, `Form` and `Supplementary`
/// at the value, `SplitDwarf` at the first entry.
#[derive(Drop)]
pub struct CodedScan<'v, 't> {
    /// The unit.
    unit: UnitHeader,
    /// Its abbreviations.
    table: &'t AbbrevTable,
    /// The bytes of its section up to its end.
    bytes: &'v [u8],
    /// The place that was reached.
    place: u64,
    /// How many lists of children are open there.
    depth: u32,
    /// How many entries were given.
    number: u64,
    /// Whether the pass is over.
    over: bool,
}

impl<'v, 't> Model for CodedScan<'v, 't> {
    ghost Value = { ScanState };

    ghost view = { λ s. record { unit = s.unit; table = s.table.now; bytes = s.bytes.now; place = s.place; depth = s.depth; number = s.number; over = s.over } };

    ghost invariant = { λ s. ScanFits (record { unit = s.unit; table = s.table.now; bytes = s.bytes.now; place = s.place; depth = s.depth; number = s.number; over = s.over }) };
}

impl<'v, 't> CodedScan<'v, 't> {
    /// The pass over a unit of the view before its first entry, with the table at the unit's `abbrevs`.
    pub fn new<'f>(
        view: &'v View<'f>,
        unit: &UnitHeader,
        table: &'t AbbrevTable,
    ) -> CodedScan<'v, 't>
        requires unit { HasUnit (debug_data view.now) (unit_section_at view.now unit.now.section) unit.now }
        ensures start { result ≡ scan_start unit.now table.now (bytes_up_to (unit_section_at view.now unit.now.section) unit.now) }
        ensures given { HasGiven result [] }
    {
        let bytes = &view.bytes(unit.section)[..unit.end as usize];
        CodedScan {
            unit: *unit,
            table,
            bytes,
            place: unit.first,
            depth: 0,
            number: 0,
            over: false,
        }
    }
}

impl<'v, 't> Iterator for CodedScan<'v, 't> {
    type Item = Result<Coded, Refusal>;

    ghost next_gives = { GivesCoded };

    ghost remaining = { λ s. at_most (steps_left s) };

    #[inline(always)]
    #[tactic(auto, using(crate::proofs::ScanLaws::scan_rules, crate::proofs::CodeLaws::scan_rules))]
    fn next(&mut self) -> Option<Result<Coded, Refusal>> {
        if self.over {
            return None;
        }
        let here = Stand {
            place: self.place,
            depth: self.depth,
            number: self.number,
        };
        match next_step(&self.unit, self.table, self.bytes, here) {
            Ok(Some(step)) => {
                self.place = step.coded.entry.after;
                self.depth = step.depth;
                self.number += 1;
                Some(Ok(step.coded))
            }
            Ok(None) => {
                self.over = true;
                None
            }
            Err(refusal) => {
                self.over = true;
                Some(Err(refusal))
            }
        }
    }
}

/// The same pass, of entries alone.
#[derive(Drop)]
pub struct EntryScan<'v, 't> {
    /// The pass.
    scan: CodedScan<'v, 't>,
}

impl<'v, 't> Model for EntryScan<'v, 't> {
    ghost Value = { ScanState };

    ghost view = { λ s. s.scan };
}

impl<'v, 't> EntryScan<'v, 't> {
    /// The pass over a unit of the view before its first entry, with the table at the unit's `abbrevs`.
    pub fn new<'f>(
        view: &'v View<'f>,
        unit: &UnitHeader,
        table: &'t AbbrevTable,
    ) -> EntryScan<'v, 't>
        requires unit { HasUnit (debug_data view.now) (unit_section_at view.now unit.now.section) unit.now }
        ensures start { result ≡ scan_start unit.now table.now (bytes_up_to (unit_section_at view.now unit.now.section) unit.now) }
        ensures given { HasGiven result [] }
    {
        let scan = CodedScan::new(view, unit, table);
        EntryScan { scan }
    }
}

impl<'v, 't> Iterator for EntryScan<'v, 't> {
    type Item = Result<Scanned, Refusal>;

    ghost next_gives = { Gives };

    ghost remaining = { λ s. at_most (steps_left s) };

    #[tactic(auto, using(crate::proofs::CodeLaws::alone_rules))]
    fn next(&mut self) -> Option<Result<Scanned, Refusal>> {
        match self.scan.next() {
            Some(Ok(coded)) => Some(Ok(coded.entry)),
            Some(Err(refusal)) => Some(Err(refusal)),
            None => None,
        }
    }
}
