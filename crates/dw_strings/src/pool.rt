//! A string table that grows: its bytes, and where each added text begins.

ghost use Rattle.std.specs.Prelude.{◌≡◌, ◌+◌, ◌≤◌, [], false, Some, None, length, IfOk, OnOk, OnErr, vec_len, vec_capacity, ◌++◌, ◌∷◌};
ghost use Rattle.dw_base.specs.Texts.{has_nul, is_in, text_in};
ghost use Rattle.dw_base.specs.StringTables.{TextTable, table_bytes, text_place, with_added};
ghost use Rattle.dw_strings.specs.Pool.{IsPool, pool_table, place_of, AddsEntry};

use dw_base::NoMemory;
use indexmap::IndexMap;
use std::alloc::Global;
use std::marker::Model;

/// A string table that grows.
#[derive(Drop)]
pub struct Pool {
    /// How many bytes it began with.
    kept: usize,
    /// All bytes, each added text with its NUL.
    bytes: Vec<u8>,
    /// Where each added text begins.
    places: IndexMap<Vec<u8>, u64>,
}

impl Model for Pool {
    ghost Value = { TextTable };

    ghost view = { λ p. pool_table p.kept p.bytes.items p.places.entries };

    ghost invariant = { λ p. IsPool p.kept p.bytes.items p.places.entries };
}

impl Pool {
    /// A table of these bytes, to which nothing was added yet.
    pub fn new(alloc: Global, old: &[u8]) -> Result<Pool, NoMemory>
        ensures value { IfOk result (λ pool. pool ≡ record { kept = old.now; texts = [] }) }
    {
        let bytes = Vec::from_slice(alloc, old)?;
        let kept = old.len();
        Ok(Pool {
            kept,
            bytes,
            places: IndexMap::new(alloc),
        })
    }

    /// The table's bytes: those that it began with, then each added text with its NUL.
    pub fn bytes(&self) -> &[u8]
        ensures value { result.now ≡ table_bytes self.now }
    {
        &self.bytes
    }

    /// The table's bytes, taken out of it.
    pub fn into_bytes(self) -> Vec<u8>
        ensures value { result.items ≡ table_bytes self }
    {
        let Pool {
            kept: _,
            bytes,
            places: _,
        } = self;
        bytes
    }

    /// Where a text that was added begins. `None` exactly where it wasn't.
    pub fn place(&self, text: &[u8]) -> Option<u64>
        ensures value { result ≡ text_place self.now text.now }
    {
        self.places.get(text).copied()
    }

    /// The place of a text, which is appended with its NUL if it wasn't added before. After `NoMemory`
    /// the table is as it was.
    pub fn add(&mut self, text: &[u8]) -> Result<u64, NoMemory>
        requires no_nul { has_nul text.now ≡ false }
        ensures table { OnOk result (self.new ≡ with_added self.old text.now) }
        ensures place { IfOk result (λ at. text_place self.new text.now ≡ Some at) }
        ensures reads { IfOk result (λ at. text_in (table_bytes self.new) at ≡ text.now) }
        ensures err { OnErr result (self.new ≡ self.old) }
    {
        match self.place(text) {
            Some(place) => Ok(place),
            None => self.add_new(text),
        }
    }

    /// Appends a text that wasn't added before.
    #[tactic(auto, using(crate::proofs::PoolLaws::pool_rules))]
    fn add_new(&mut self, text: &[u8]) -> Result<u64, NoMemory>
        requires absent { is_in self.old.texts text.now ≡ false }
        ensures table { OnOk result (self.new ≡ record { kept = self.old.kept; texts = self.old.texts ++ text.now ∷ [] }) }
        ensures place { IfOk result (λ at. at ≡ length (table_bytes self.old)) }
        ensures err { OnErr result (self.new ≡ self.old) }
    {
        let place = append_text(&mut self.bytes, &mut self.places, text)?;
        Ok(place)
    }
}

/// Appends a text that wasn't added before, and gives its place.
fn append_text(
    bytes: &mut Vec<u8>,
    places: &mut IndexMap<Vec<u8>, u64>,
    text: &[u8],
) -> Result<u64, NoMemory>
    requires absent { place_of places.old.entries text.now ≡ None }
    ensures bytes { OnOk result (bytes.new.items ≡ bytes.old.items ++ (text.now ++ 0 ∷ [])) }
    ensures place { IfOk result (λ at. at ≡ length bytes.old.items) }
    ensures entry { IfOk result (AddsEntry places.old.entries places.new.entries text.now) }
    ensures err { OnErr result (bytes.new.items ≡ bytes.old.items) }
    ensures err_places { OnErr result (places.new.entries ≡ places.old.entries) }
{
    let place = bytes.len() as u64;
    let alloc = *bytes.allocator();
    bytes.reserve(text.len() + 1)?;
    let key = Vec::from_slice(alloc, text)?;
    places.insert(key, place)?;
    append(bytes, text);
    Ok(place)
}

/// Appends a text and its NUL, where there is room for both.
fn append(bytes: &mut Vec<u8>, text: &[u8])
    requires room { vec_len bytes.old + (length text.now + 1) ≤ vec_capacity bytes.old }
    ensures value { bytes.new.items ≡ bytes.old.items ++ (text.now ++ 0 ∷ []) }
{
    match bytes.extend_from_slice(text) {
        Ok(()) => {}
        Err(_) => unreachable!(),
    }
    match bytes.push(0) {
        Ok(()) => {}
        Err(_) => unreachable!(),
    }
}
