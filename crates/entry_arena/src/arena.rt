//! The entries of a unit as nodes, and what can be asked of them.
//!
//! Read first: `specs/Shapes.antt`, `specs/UnitArenas.antt`.

ghost use Rattle.std.specs.Prelude.{◌≡◌, ◌<◌, ◌≤◌, ◌^◌, List, ℕ, length, IfErr, IfOk, IfSome, OnOk};
ghost use Rattle.dw_base.specs.EntryScans.{EntryFails};
ghost use Rattle.dw_base.specs.EntryValues.{HasUnit, bytes_up_to};
ghost use Rattle.dw_base.specs.Refusals.{Blames};
ghost use Rattle.dw_base.specs.ViewData.{debug_data};
ghost use Rattle.dw_base.specs.declared.fault.Refusal.{Refusal as RefusalOf};
ghost use Rattle.dw_entries.specs.ViewUnits.{unit_section_at};
ghost use Rattle.entry_arena.specs.declared.arena.EntryNode.{EntryNode as EntryNodeOf};
ghost use Rattle.entry_arena.specs.Shapes.{StandsOnce, chain_start, node_at};
ghost use Rattle.entry_arena.specs.UnitArenas.{ArenaFits, IsArenaOf, IsGapAt, NodesRise, StartsAt};

use crate::linking::linked_nodes;
use crate::scanning::scanned_nodes;
use crate::walking::{Steps, Walk};
use dw_abbrev::AbbrevTable;
use dw_base::{Fault, UnitHeader};
use dw_entries::CodedScan;
use dw_view::View;
use std::alloc::Global;
use std::marker::Model;

/// An entry of a unit (DWARF 5, 2.1), with the numbers of the entries around it (2.3).
#[derive(Clone, Copy, Debug, PartialEq, Eq)]
pub struct EntryNode {
    /// Where it starts, in bytes from the section's start.
    pub offset: u64,
    /// Its tag.
    pub tag: u64,
    /// The code of its abbreviation.
    pub code: u64,
    /// The number of the entry in whose list of children it stands.
    pub parent: Option<u32>,
    /// The number of the first of its children.
    pub first_child: Option<u32>,
    /// The number of the next entry in the list in which it stands.
    pub next_sibling: Option<u32>,
}

/// The entries of a unit, in the order of their places.
#[derive(Drop)]
pub struct EntryArena {
    /// The entries.
    nodes: Vec<EntryNode>,
}

impl Model for EntryArena {
    ghost Value = { List EntryNodeOf };

    ghost view = { λ a. a.nodes.items };

    ghost invariant = { λ a. ArenaFits a.nodes.items };
}

/// Which node starts at a place, or where it would stand.
fn with_offset(nodes: &[EntryNode], offset: u64) -> Result<usize, usize>
    requires rises { NodesRise nodes.now }
    ensures found { IfOk result (StartsAt nodes.now offset) }
    ensures absent { IfErr result (IsGapAt nodes.now offset) }
{
    nodes.binary_search_by_key(&offset, |node| node.offset)
}

/// The number of the node that starts at a place.
#[tactic(auto, using(crate::proofs::NumberLaws::number_laws))]
fn number_in(nodes: &[EntryNode], offset: u64) -> Option<u32>
    requires rises { NodesRise nodes.now }
    requires small { length nodes.now ≤ 2 ^ 31 }
    ensures found { IfSome result (StartsAt nodes.now offset) }
    ensures inverse { (k : ℕ) → StartsAt nodes.now offset k → result ≡ Some k }
{
    match with_offset(nodes, offset) {
        Ok(number) => Some(number as u32),
        Err(_) => None,
    }
}

/// The node of a number.
fn node_in(nodes: &[EntryNode], number: usize) -> &EntryNode
    requires below { number < length nodes.now }
    ensures node { result.now ≡ node_at nodes.now number }
{
    &nodes[number]
}

impl EntryArena {
    /// Reads the entries of a unit of the view, with the table at the unit's `abbrevs`. Refused as a pass over them is:
    /// `Entry` at the entry, value or unit's end, `Form` and `Supplementary` at the value, `SplitDwarf` at the first entry.
    pub fn read(
        alloc: Global,
        view: &View,
        unit: &UnitHeader,
        table: &AbbrevTable,
    ) -> Result<EntryArena, Fault>
        requires unit { HasUnit (debug_data view.now) (unit_section_at view.now unit.now.section) unit.now }
        ensures arena { IfOk result (IsArenaOf unit.now table.now (bytes_up_to (unit_section_at view.now unit.now.section) unit.now)) }
        ensures none { OnOk result ((r : RefusalOf) → EntryFails unit.now table.now (bytes_up_to (unit_section_at view.now unit.now.section) unit.now) r → ⊥) }
        ensures refused { IfErr result (Blames (EntryFails unit.now table.now (bytes_up_to (unit_section_at view.now unit.now.section) unit.now))) }
    {
        EntryArena::read_counted(alloc, view, unit, table, 0)
    }

    /// The same, where so many entries were counted: these take no more memory than they fill.
    #[tactic(auto, using(crate::proofs::ScanLaws::arena_laws))]
    pub fn read_counted(
        alloc: Global,
        view: &View,
        unit: &UnitHeader,
        table: &AbbrevTable,
        count: usize,
    ) -> Result<EntryArena, Fault>
        requires unit { HasUnit (debug_data view.now) (unit_section_at view.now unit.now.section) unit.now }
        ensures arena { IfOk result (IsArenaOf unit.now table.now (bytes_up_to (unit_section_at view.now unit.now.section) unit.now)) }
        ensures none { OnOk result ((r : RefusalOf) → EntryFails unit.now table.now (bytes_up_to (unit_section_at view.now unit.now.section) unit.now) r → ⊥) }
        ensures refused { IfErr result (Blames (EntryFails unit.now table.now (bytes_up_to (unit_section_at view.now unit.now.section) unit.now))) }
    {
        let scan = CodedScan::new(view, unit, table);
        let scanned = scanned_nodes(alloc, scan, table, count)?;
        let nodes = linked_nodes(alloc, scanned)?;
        Ok(EntryArena { nodes })
    }

    /// How many entries there are.
    pub fn len(&self) -> u32
        ensures len { result ≡ length self.now }
    {
        self.nodes.len() as u32
    }

    /// The entry of a number.
    pub fn node(&self, number: u32) -> &EntryNode
        requires below { number < length self.now }
        ensures node { result.now ≡ node_at self.now number }
        ensures parent { IfSome result.now.parent (λ p. p < number) }
        ensures once { StandsOnce (node_at self.now) (chain_start (node_at self.now) result.now.parent) number }
    {
        node_in(self.nodes.as_slice(), number as usize)
    }

    /// The number of the entry that starts at a place. `None` exactly where none starts there.
    pub fn number_of(&self, offset: u64) -> Option<u32>
        ensures found { IfSome result (StartsAt self.now offset) }
        ensures inverse { (k : ℕ) → StartsAt self.now offset k → result ≡ Some k }
    {
        number_in(self.nodes.as_slice(), offset)
    }

    /// The numbers of the entries, as the links lead from one to the next: each entry before its children, and these before
    /// its siblings.
    pub fn walk(&self) -> Walk<'_>
        ensures start { result ≡ record { nodes = self.now; number = 0 } }
    {
        Walk {
            steps: self.steps(),
        }
    }

    /// The same, each number with the depth of its entry.
    pub fn steps(&self) -> Steps<'_>
        ensures start { result ≡ record { nodes = self.now; number = 0 } }
    {
        Steps::new(self.nodes.as_slice())
    }
}
