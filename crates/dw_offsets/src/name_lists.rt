//! Name tables (DWARF 5, 6.1.1.4): where each is, and where its string offsets are.
//!
//! This file promises: the tables that are given fill the section, in the order of their places, and each of
//! their string offsets names a text; they are refused only where a table can't be read, at that table, where a
//! string offset names no text, at its field, or where a relocation refuses one.

ghost use Rattle.std.specs.Prelude.{◌≡◌, ◌^◌, ◌<◌, List, length, IfOk, IfErr, OnOk};
ghost use Rattle.dw_base.specs.FileViews.{section_bytes};
ghost use Rattle.dw_base.specs.Refusals.{Blames};
ghost use Rattle.dw_base.specs.declared.fault.Refusal.{Refusal as RefusalOf};
ghost use Rattle.dw_base.specs.NameTables.{AreNameTables};
ghost use Rattle.dw_base.specs.NameOffsets.{AreRead, NamesRefuse, ReadUpTo, TablesRefuse};
ghost use Rattle.dw_base.specs.declared.name_tables.NameTable.{NameTable as NameTableOf};
ghost use Rattle.dw_offsets.specs.NameFields.{AllFit};

use crate::name_texts::{named_table_at, texts_of};
use dw_base::{DebugSection, Fault, NameTable, Width};
use dw_view::View;
use std::alloc::Global;
use std::marker::Model;

/// The name tables of a file, in the order of their places. Their string offsets lie in as many bytes as a file may have.
#[derive(Drop, Debug)]
pub struct NameTableList {
    list: Vec<NameTable>,
}

impl Model for NameTableList {
    ghost Value = { List NameTableOf };

    ghost view = { λ t. t.list.items };

    ghost invariant = { λ t. AllFit (2 ^ 31) t.list.items };
}

impl NameTableList {
    /// The tables.
    pub fn as_slice(&self) -> &[NameTable]
        ensures value { result.now ≡ self.now }
        ensures fits { AllFit (2 ^ 31) result.now }
    {
        self.list.as_slice()
    }
}

/// The tables of `.debug_names`; none where there is no such section. Refused exactly where they don't
/// fill it or a string offset names no text: as `NameTable` at the first table whose length can't be read
/// or passes the section's end, whose version isn't 5, or whose parts don't fit; as `StringOffset` at a
/// string offset behind which no text that ends begins in `.debug_str`; as `Relocation` at a relocation that lies
/// on a string offset only in part, or at a string offset whose relocation gives no place.
#[tactic(auto, using(crate::proofs::NameViewLaws::section_laws))]
pub fn name_tables(alloc: Global, view: &View) -> Result<NameTableList, Fault>
    ensures read { IfOk result (AreNameTables view.now) }
    ensures offsets { IfOk result (AreRead view.now) }
    ensures none { OnOk result ((r : RefusalOf) → NamesRefuse view.now r → ⊥) }
    ensures refused { IfErr result (Blames (NamesRefuse view.now)) }
{
    let Some(section) = view.first(DebugSection::Names) else {
        return Ok(NameTableList {
            list: Vec::new(alloc),
        });
    };
    let list = tables_in(alloc, view, section)?;
    Ok(NameTableList { list })
}

/// The tables that fill the section of a number.
#[tactic(auto, using(crate::proofs::NameListLaws::list_laws))]
fn tables_in(alloc: Global, view: &View, section: u32) -> Result<Vec<NameTable>, Fault>
    requires there { section < length view.now.sections }
    ensures read { IfOk result (λ list. ReadUpTo view.now section (section_bytes view.now section) list.items (length (section_bytes view.now section))) }
    ensures fits { IfOk result (λ list. AllFit (2 ^ 31) list.items) }
    ensures refused { IfErr result (Blames (TablesRefuse view.now section (section_bytes view.now section))) }
{
    let texts = texts_of(view);
    let len = view.bytes(section).len() as u64;
    let mut list = Vec::new(alloc);
    let mut start = 0;
    'tables: while start < len {
        let table = named_table_at(view, section, &texts, start)?;
        start = table.end;
        list.push(table)?;
    }
    Ok(list)
}
