//! A table of abbreviations (DWARF 5, 7.5.3), and the abbreviation of a code.
//!
//! A table has its abbreviations for itself, but where many overlap: then those at its end may be the rests of others that were read once.

ghost use Rattle.std.specs.Prelude.{◌≡◌, ◌++◌, ◌<◌, List, get_or, length, option_copied, IfSome, IfOk, IfErr, OnOk};
ghost use Rattle.dw_base.specs.AbbreviationTables.{Abbreviation, abbreviation_of, IsTable};
ghost use Rattle.dw_base.specs.AbbreviationFails.{AbbreviationFails};
ghost use Rattle.dw_base.specs.Refusals.{Blames};
ghost use Rattle.dw_base.specs.declared.fault.Refusal.{Refusal as RefusalOf};
ghost use Rattle.dw_abbrev.specs.Coded.{index_of_code};
ghost use Rattle.dw_abbrev.specs.Spelled.{StopsFor, TableFails};

use crate::abbrev::Abbrev;
use crate::rests::Rests;
use crate::run::{Run, run_at};
use crate::stopped::Stopped;
use dw_base::{Fault, Kind, Refusal};
use std::alloc::Global;
use std::marker::Model;

/// A table of abbreviations, in the order in which they stand.
#[derive(Drop)]
pub struct AbbrevTable {
    /// Those that it doesn't share.
    own: Run,
    /// Those behind, which it shares with other tables.
    behind: Rests,
}

impl Model for AbbrevTable {
    ghost Value = { List Abbreviation };

    ghost view = { λ t. t.own ++ t.behind };
}

/// The table of these abbreviations, and of those behind them.
pub(crate) fn joined(own: Run, behind: Rests) -> AbbrevTable
    ensures value { result ≡ own ++ behind }
{
    AbbrevTable { own, behind }
}

/// The table at a place. Stopped only where something else than an abbreviation or the end stands behind some of them, or for want
/// of memory.
#[tactic(auto, using(crate::proofs::JoinLaws::table_rules))]
fn table_at(alloc: Global, bytes: &[u8], at: u64) -> Result<AbbrevTable, Stopped>
    ensures table { IfOk result (IsTable bytes.now at) }
    ensures stopped { IfErr result (StopsFor (TableFails bytes.now at)) }
{
    let run = run_at(alloc, bytes, at)?;
    Ok(joined(run, Rests::none(alloc)))
}

/// The fault of the table at a place.
#[tactic(auto, using(crate::proofs::Rows::fault_rows))]
fn fault_of(bytes: &[u8], section: u32, at: u64, stopped: Stopped) -> Fault
    requires stopped { StopsFor (TableFails bytes.now at) stopped }
    ensures fault { Blames (AbbreviationFails bytes.now section at) result }
{
    match stopped {
        Stopped::Unspelled => Fault::Refused(Refusal::at(Kind::Abbreviation, section, at)),
        Stopped::NoMemory => Fault::NoMemory,
    }
}

/// The abbreviation of a number among these and those behind them.
#[tactic(auto, using(crate::proofs::JoinLaws::at_rules))]
fn joined_at<'t>(own: &'t [Abbrev], behind: &'t Rests, index: usize) -> &'t Abbrev
    requires inside { index < length (own.now ++ behind.now) }
    ensures value { result.now ≡ get_or (own.now ++ behind.now) index result.now }
{
    if index < own.len() {
        return &own[index];
    }
    behind.at(index - own.len())
}

impl AbbrevTable {
    /// Reads the table at `at`, in bytes from the start of the section. Refused as `Abbreviation` at
    /// (`section`, `at`) exactly where the bytes spell no table there: a number passes their end, a flag
    /// for children is neither 0 nor 1, a pair has one zero, or a code stands twice.
    pub fn read(alloc: Global, section: u32, bytes: &[u8], at: u64) -> Result<AbbrevTable, Fault>
        ensures table { IfOk result (IsTable bytes.now at) }
        ensures none { OnOk result ((r : RefusalOf) → AbbreviationFails bytes.now section at r → ⊥) }
        ensures refused { IfErr result (Blames (AbbreviationFails bytes.now section at)) }
    {
        match table_at(alloc, bytes, at) {
            Ok(table) => Ok(table),
            Err(stopped) => Err(fault_of(bytes, section, at, stopped)),
        }
    }

    /// How many abbreviations there are.
    pub fn len(&self) -> usize
        ensures value { result ≡ length self.now }
    {
        self.own.as_slice().len() + self.behind.len()
    }

    /// The abbreviation of a number, from 0 on, in the order in which they stand.
    pub fn abbrev(&self, index: usize) -> &Abbrev
        requires inside { index < length self.now }
        ensures value { result.now ≡ get_or self.now index result.now }
    {
        joined_at(self.own.as_slice(), &self.behind, index)
    }

    /// Where the abbreviation of a code stands among them, from 0 on. `None` exactly where the table
    /// hasn't the code.
    #[tactic(auto, using(crate::proofs::JoinLaws::index_rules))]
    pub fn index_of(&self, code: u64) -> Option<usize>
        ensures value { result ≡ index_of_code self.now code }
        ensures within { IfSome result (λ i. i < length self.now) }
    {
        if let Some(index) = self.own.index_of(code) {
            return Some(index);
        }
        let Some(index) = self.behind.index_of(code) else {
            return None;
        };
        Some(self.own.as_slice().len() + index)
    }

    /// The abbreviation of a code. `None` exactly where the table hasn't the code.
    #[tactic(auto, using(crate::proofs::CodedLaws::get_laws))]
    pub fn get(&self, code: u64) -> Option<&Abbrev>
        ensures value { option_copied result ≡ abbreviation_of self.now code }
    {
        match self.index_of(code) {
            Some(index) => Some(self.abbrev(index)),
            None => None,
        }
    }
}
