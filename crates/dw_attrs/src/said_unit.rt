//! A unit whose values are said: its number, header, abbreviations and bytes, the base of its texts by index, and its entries, linked.
//!
//! Read first: `specs/UnitValues.antt` and `specs/ArenaEntries.antt`.

ghost use Rattle.std.specs.Prelude.{◌≡◌};
ghost use Rattle.entry_arena.specs.UnitArenas.{IsArenaOf};
ghost use Rattle.dw_attrs.specs.ArenaEntries.{HasArena, IsNumbered};
ghost use Rattle.dw_attrs.specs.UnitReads.{CanRead, SourceFits, UnitFits};
ghost use Rattle.dw_attrs.specs.UnitValues.{SaidUnit as SaidUnitOf, said_unit, unit_bytes};

use crate::unit_bases::unit_base;
use crate::unit_source::UnitSource;
use dw_abbrev::AbbrevTable;
use dw_base::UnitHeader;
use entry_arena::EntryArena;
use std::marker::Model;

/// A unit whose values are said.
#[derive(Drop)]
pub struct SaidUnit<'v, 'f, 'u, 's> {
    /// What it is read by.
    pub source: &'s UnitSource<'v, 'f, 'u>,
    /// Its number among all units.
    pub number: u64,
    /// Its header.
    pub header: &'s UnitHeader,
    /// Its abbreviations.
    pub table: &'s AbbrevTable,
    /// The bytes of its section up to its end.
    pub bytes: &'v [u8],
    /// The base of its texts by index.
    pub base: Option<u64>,
    /// Its entries.
    pub arena: &'s EntryArena,
}

impl<'v, 'f, 'u, 's> Model for SaidUnit<'v, 'f, 'u, 's> {
    ghost Value = { SaidUnitOf };

    ghost view = { λ u. record { source = u.source.now; number = u.number; header = u.header.now; table = u.table.now; bytes = u.bytes.now; base = u.base } };

    ghost invariant = { λ u. HasArena (record { source = u.source.now; number = u.number; header = u.header.now; table = u.table.now; bytes = u.bytes.now; base = u.base }) u.arena.now };
}

impl<'v, 'f, 'u, 's> SaidUnit<'v, 'f, 'u, 's> {
    /// The unit of a number, with its header, its table and its entries.
    #[tactic(auto, using(crate::proofs::SaidUnitLaws::with_laws))]
    pub fn new(
        source: &'s UnitSource<'v, 'f, 'u>,
        number: u64,
        header: &'s UnitHeader,
        table: &'s AbbrevTable,
        arena: &'s EntryArena,
    ) -> SaidUnit<'v, 'f, 'u, 's>
        requires fits { SourceFits source.now }
        requires reads { CanRead source.now.view header.now table.now }
        requires numbered { IsNumbered source.now number header.now table.now }
        requires arena { IsArenaOf header.now table.now (unit_bytes source.now.view header.now) arena.now }
        ensures unit { result ≡ said_unit source.now number header.now table.now }
        ensures fits { UnitFits result }
    {
        let bytes = &source.view.bytes(header.section)[..header.end as usize];
        SaidUnit {
            source,
            number,
            header,
            table,
            bytes,
            base: unit_base(source.view, header, table, bytes),
            arena,
        }
    }
}
