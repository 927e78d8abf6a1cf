//! Where the line tables and macro units of a view start (DWARF 5, 6.2.4 and 6.3), and which one an offset names. It is found in a time that grows with the logarithm of their number.
//!
//! Read first: `specs/LineStarts.antt`.

ghost use Rattle.std.specs.Prelude.{◌≡◌, ◌<◌, length, IfErr, IfOk};
ghost use Rattle.std.specs.Option.{ForSome};
ghost use Rattle.dw_base.specs.DebugData.{start_number};
ghost use Rattle.dw_base.specs.Refusals.{at};
ghost use Rattle.dw_starts.specs.LineStarts.{HasStart, IsStartGap, Rises, starts_of};

use dw_base::{Kind, Refusal};
use dw_lines::LineTable;
use std::alloc::{AllocError, Global};

/// The number of the line table or macro unit that starts at a place, among starts that rise: bytes from the start of the section of
/// line tables, or a section and a place in it as one number (`place_key`). `None` exactly where none does.
#[tactic(auto, using(crate::proofs::StartSearchLaws::number_rules))]
pub fn start_number(starts: &[u64], start: u64) -> Option<usize>
    requires rises { Rises starts.now }
    ensures value { result ≡ start_number 0 starts.now start }
    ensures inside { ForSome result (λ number. number < length starts.now) }
{
    match with_start(starts, start) {
        Ok(number) => Some(number),
        Err(_) => None,
    }
}

/// Which of these starts, which rise, is one: `Ok` with its number, or `Err` with the number at which it would stand.
pub fn with_start(starts: &[u64], start: u64) -> Result<usize, usize>
    requires rises { Rises starts.now }
    ensures found { IfOk result (HasStart starts.now start) }
    ensures absent { IfErr result (IsStartGap starts.now start) }
{
    starts.binary_search(&start)
}

/// The refusal of what is to say where a line table or a macro unit starts, in a section, at a place in bytes from its start, and says
/// none: `Stray` (DWARF 5, 3.1.1 and 6.3).
pub fn stray(section: u32, place: u64) -> Refusal
    ensures { result ≡ at Kind.Stray section place }
{
    Refusal::at(Kind::Stray, section, place)
}

/// Where a table starts.
fn start_of(table: &LineTable) -> u64
    ensures { result ≡ table.now.start }
{
    table.start
}

/// Where the tables start, in their order, each in bytes from its section's start (DWARF 5, 6.2.4). Only memory can be wanting.
#[tactic(auto, using(crate::proofs::TableStartLaws::start_rules))]
pub fn starts_of(alloc: Global, tables: &[LineTable]) -> Result<Vec<u64>, AllocError>
    ensures { IfOk result (λ starts. starts.items ≡ starts_of tables.now) }
{
    let mut starts = Vec::with_capacity(alloc, tables.len())?;
    for table in tables {
        starts.push(start_of(table))?;
    }
    Ok(starts)
}
