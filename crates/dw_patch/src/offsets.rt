//! The offsets that fields of a section are to say, for the records of its relocations (gABI ch. 4 "Relocation").
//!
//! This file promises: fields are added in any order, and the records are those of the table in which each field says its offset. The
//! fields are put in order once.
//! Read first: `specs/RecordMoves.antt`, then `specs/OffsetLists.antt`.

ghost use Rattle.std.specs.Prelude.{[], ◌≡◌, ◌⊎◌, ◌∷◌, ◌++◌, List, None, OnErr, OnOk};
ghost use Rattle.std.specs.List.Sorted.{IsNonDecreasingBy, IsPermutation};
ghost use Rattle.dw_patch.specs.OffsetLists.{OffsetsFit};
ghost use Rattle.dw_patch.specs.RecordMoves.{PlacesFit, field_start, moved_table, patch_for};
ghost use Rattle.elf_relocs.specs.Runs.{RunsRise};
ghost use Rattle.elf_layout.specs.declared.patch.Patch.{Patch as PatchOf};

use crate::records::move_records;
use dw_base::NoMemory;
use elf_layout::Patch;
use elf_relocs::{RelocSource, Run};
use std::alloc::Global;
use std::marker::Model;

/// Fields of a section, each with the offset that it is to say.
#[derive(Drop, Debug)]
pub struct Offsets {
    /// The fields in the order in which they were added.
    list: Vec<Patch>,
}

impl Model for Offsets {
    ghost Value = { List PatchOf };

    ghost view = { λ o. o.list.items };

    ghost invariant = { λ o. OffsetsFit o.list.items };
}

impl Offsets {
    /// No fields.
    #[tactic(auto, using(crate::proofs::OffsetListLaws::new_rules))]
    pub fn new(alloc: Global) -> Offsets
        ensures none { result ≡ [] }
    {
        Offsets {
            list: Vec::new(alloc),
        }
    }

    /// Adds a field of `size` bytes, 4 or 8, at `at`, in bytes from the section's start, with the offset that it is to say. No other
    /// was added there. After an error the fields are as before.
    pub fn add(&mut self, at: u64, size: u8, offset: u64) -> Result<(), NoMemory>
        requires size { (size ≡ 4) ⊎ (size ≡ 8) }
        requires other { patch_for self.old at ≡ None }
        ensures added { OnOk result (self.new ≡ self.old ++ record { at = at; size = size; value = offset } ∷ []) }
        ensures kept { OnErr result (self.new ≡ self.old) }
    {
        push_field(&mut self.list, at, size, offset)?;
        Ok(())
    }

    /// Puts into `out`, which is a copy of the table of the relocations of the section, the records as they are when the section's bytes
    /// have moved by these runs, and the fields say their offsets.
    pub fn move_records(self, source: &RelocSource, runs: &[Run], out: &mut [u8])
        requires start { out.old ≡ source.now.table }
        requires runs { RunsRise runs.now }
        requires places { PlacesFit source.now runs.now }
        ensures moved { out.new ≡ moved_table source.now runs.now self }
    {
        let mut list = self.list;
        move_sorted(&mut list, source, runs, out);
    }
}

/// Adds a field where none begins.
#[tactic(auto, using(crate::proofs::OffsetListLaws::add_rules))]
fn push_field(list: &mut Vec<Patch>, at: u64, size: u8, value: u64) -> Result<(), NoMemory>
    requires fit { OffsetsFit list.old.items }
    requires size { (size ≡ 4) ⊎ (size ≡ 8) }
    requires other { patch_for list.old.items at ≡ None }
    ensures added { OnOk result (list.new.items ≡ list.old.items ++ record { at = at; size = size; value = value } ∷ []) }
    ensures kept { OnErr result (list.new.items ≡ list.old.items) }
    ensures fit { OffsetsFit list.new.items }
{
    list.push(Patch { at, size, value })?;
    Ok(())
}

/// Puts fields in order, and the records into `out`.
fn move_sorted(list: &mut Vec<Patch>, source: &RelocSource, runs: &[Run], out: &mut [u8])
    requires fit { OffsetsFit list.old.items }
    requires start { out.old ≡ source.now.table }
    requires runs { RunsRise runs.now }
    requires places { PlacesFit source.now runs.now }
    ensures moved { out.new ≡ moved_table source.now runs.now list.old.items }
{
    sort(list);
    move_records(source, runs, list, out);
}

/// Puts fields in order of their places.
fn sort(list: &mut Vec<Patch>)
    ensures permutation { IsPermutation list.old.items list.new.items }
    ensures sorted { IsNonDecreasingBy field_start list.new.items }
{
    list.sort_unstable_by_key(|f| f.at);
}
