//! An abbreviation: what its entries have (DWARF 5, 7.5.3).

ghost use Rattle.dw_base.specs.AbbreviationTables.{Abbreviation};

use crate::attributes::Specs;
use std::marker::Model;

/// An abbreviation: what each entry of its code has.
#[derive(Drop, Debug)]
pub struct Abbrev {
    /// The code by which entries name it, not 0.
    pub code: u64,
    /// The tag of its entries, `DW_TAG_..`.
    pub tag: u64,
    /// Whether children follow its entries.
    pub children: bool,
    /// The attributes of its entries, in order.
    pub specs: Specs,
}

impl Model for Abbrev {
    ghost Value = { Abbreviation };

    ghost view = { λ a. record { code = a.code; tag = a.tag; children = a.children; specs = a.specs } };
}
