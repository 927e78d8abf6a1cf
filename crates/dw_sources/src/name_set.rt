//! A set of names: it finds a name by its hash, and its names are put in byte order once, at the end.

ghost use Rattle.std.specs.Prelude.{◌≡◌, ℕ, List, [], map, IfOk, OnOk};
ghost use Rattle.std.specs.List.{IsDistinct};
ghost use Rattle.dw_sources.specs.KeptNames.{bytes_of, names_of, same_bytes, with_name};

use dw_base::NoMemory;
use indexmap::IndexSet;
use std::alloc::Global;
use std::marker::Model;

/// Names, each once.
#[derive(Drop)]
pub(crate) struct NameSet {
    names: IndexSet<Vec<u8>>,
}

impl Model for NameSet {
    ghost Value = { List (List ℕ) };

    ghost view = { λ s. names_of s.names.keys };
}

/// The names of a set, in the order in which they came.
fn listed(alloc: Global, names: IndexSet<Vec<u8>>) -> Result<Vec<Vec<u8>>, NoMemory>
    ensures value { IfOk result (λ list. list.items ≡ names.keys) }
    ensures apart { IfOk result (λ list. IsDistinct same_bytes list.items) }
{
    let mut list = Vec::with_capacity(alloc, names.len())?;
    for name in names {
        list.push(name)?;
    }
    Ok(list)
}

impl NameSet {
    /// No names.
    pub(crate) fn new(alloc: Global) -> NameSet
        ensures none { result ≡ [] }
    {
        NameSet {
            names: IndexSet::new(alloc),
        }
    }

    /// Adds a name.
    #[tactic(auto, using(crate::proofs::NameLaws::added_rules))]
    pub(crate) fn add(&mut self, name: Vec<u8>) -> Result<(), NoMemory>
        ensures value { OnOk result (self.new ≡ with_name self.old name.items) }
    {
        self.names.insert(name)?;
        Ok(())
    }

    /// The names, in byte order.
    #[tactic(auto, using(crate::proofs::NameLaws::order_rules))]
    pub(crate) fn in_order(self, alloc: Global) -> Result<Vec<Vec<u8>>, NoMemory>
        ensures value { IfOk result (λ list. map bytes_of list.items ≡ self) }
    {
        let NameSet { names } = self;
        let mut list = listed(alloc, names)?;
        list.sort()?;
        Ok(list)
    }
}
