//! The entries that a pass over a unit gives, as nodes that know their parents.
//!
//! Read first: `specs/LinkedNodes.antt`.

ghost use Rattle.std.specs.Prelude.{◌≡◌, ◌<◌, ◌≤◌, ◌^◌, length, IfErr, IfOk};
ghost use Rattle.dw_base.specs.AbbreviationTables.{abbreviation_of};
ghost use Rattle.dw_base.specs.EntryScans.{EntryFails};
ghost use Rattle.dw_base.specs.Refusals.{Blames};
ghost use Rattle.dw_entries.specs.ScanStates.{scan_start};
ghost use Rattle.entry_arena.specs.LinkedNodes.{Begun, last_of, new_node, tag_in, with_entry};
ghost use Rattle.entry_arena.specs.ScannedNodes.{IsBegun};

use crate::arena::EntryNode;
use dw_abbrev::AbbrevTable;
use dw_base::{Fault, Scanned};
use dw_entries::CodedScan;
use std::alloc::{AllocError, Global};
use std::marker::Model;

/// Nodes that know their parents, how deep each stands, and the number of the last one behind those of the nodes above it,
/// the outermost first.
#[derive(Drop)]
pub(crate) struct ScannedNodes {
    /// The nodes.
    pub(crate) nodes: Vec<EntryNode>,
    /// In how many entries each stands.
    pub(crate) depths: Vec<u32>,
    /// The last one and those above it.
    pub(crate) above: Vec<u32>,
}

impl Model for ScannedNodes {
    ghost Value = { Begun };

    ghost view = { λ s. record { nodes = s.nodes.items; depths = s.depths.items; above = s.above.items } };
}

/// The tag that a code has in a table.
fn tag_of(table: &AbbrevTable, code: u64) -> u64
    ensures tag { result ≡ tag_in (abbreviation_of table.now code) }
{
    match table.get(code) {
        Some(abbrev) => abbrev.tag,
        None => 0,
    }
}

/// The node of an entry below a parent, before it is linked.
fn new_node(table: &AbbrevTable, entry: &Scanned, parent: Option<u32>) -> EntryNode
    ensures node { result ≡ new_node table.now parent entry.now }
{
    EntryNode {
        offset: entry.offset,
        tag: tag_of(table, entry.code),
        code: entry.code,
        parent,
        first_child: None,
        next_sibling: None,
    }
}

/// The last of some numbers.
#[tactic(auto, using(crate::proofs::ScanLaws::last_laws))]
fn last_of(numbers: &[u32]) -> Option<u32>
    ensures last { result ≡ last_of numbers.now }
{
    if numbers.is_empty() {
        return None;
    }
    Some(numbers[numbers.len() - 1])
}

/// The nodes with one more entry behind them.
fn with_entry(
    scanned: ScannedNodes,
    table: &AbbrevTable,
    entry: &Scanned,
) -> Result<ScannedNodes, AllocError>
    requires few { length scanned.nodes < 2 ^ 32 }
    ensures more { IfOk result (λ s. s ≡ with_entry table.now scanned entry.now) }
{
    let ScannedNodes {
        mut nodes,
        mut depths,
        mut above,
    } = scanned;
    let number = nodes.len() as u32;
    above.truncate(entry.depth as usize);
    nodes.push(new_node(table, entry, last_of(above.as_slice())))?;
    depths.push(entry.depth)?;
    above.push(number)?;
    Ok(ScannedNodes {
        nodes,
        depths,
        above,
    })
}

/// The nodes of the entries that a pass gives, with room for so many.
#[tactic(auto, using(crate::proofs::ScanLaws::scan_rules))]
pub(crate) fn scanned_nodes(
    alloc: Global,
    scan: CodedScan,
    table: &AbbrevTable,
    count: usize,
) -> Result<ScannedNodes, Fault>
    requires start { scan ≡ scan_start scan.unit table.now scan.bytes }
    requires small { length scan.bytes ≤ 2 ^ 31 }
    ensures begun { IfOk result (IsBegun scan.entry.unit table.now scan.entry.bytes) }
    ensures few { IfOk result (λ s. length s.nodes ≤ 2 ^ 31) }
    ensures refused { IfErr result (Blames (EntryFails scan.entry.unit table.now scan.entry.bytes)) }
{
    let mut scanned = ScannedNodes {
        nodes: Vec::with_capacity(alloc, count)?,
        depths: Vec::with_capacity(alloc, count)?,
        above: Vec::new(alloc),
    };
    for coded in scan {
        let coded = coded?;
        scanned = with_entry(scanned, table, &coded.entry)?;
    }
    Ok(scanned)
}
