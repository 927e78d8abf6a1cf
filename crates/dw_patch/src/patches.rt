//! The patches of a section: fields, each with its new place (DWARF 5, 7.4).
//!
//! This file promises: setting a field takes the same time however many are set, and all are put in one pass
//! that takes no memory.

ghost use Rattle.std.specs.Prelude.{◌≡◌, ◌+◌, ◌^◌, ◌≤◌, ◌<◌, length, IfErr, IfOk, OnErr, OnOk};
ghost use Rattle.dw_base.specs.FileViews.{section_bytes};
ghost use Rattle.dw_base.specs.Refusals.{Blames};
ghost use Rattle.elf_layout.specs.Given.{body_bytes};
ghost use Rattle.elf_layout.specs.Patched.{PatchesFit, with_patches};
ghost use Rattle.dw_patch.specs.Patching.{IsFree, IsPatched, PatchList, SetFails, no_patches, number_of, patches_of, with_patch};

use dw_base::{Fault, Kind, NoMemory, Order, Refusal, fits_size};
use dw_view::View;
use elf_layout::{NewBody, Patch, put_patches};
use std::alloc::Global;
use std::marker::Model;

/// What a field is to say.
#[derive(Clone, Copy, Debug, PartialEq, Eq)]
pub enum NewPlace {
    /// A place, in bytes from the start of the section that the field is of.
    Offset(u64),
}

/// The patches of a section.
#[derive(Drop, Debug)]
pub struct Patches {
    /// The byte order of the file.
    order: Order,
    /// The section's number.
    section: u32,
    /// How many bytes the section has.
    size: u64,
    /// The fields that are set.
    list: Vec<Patch>,
}

impl Model for Patches {
    ghost Value = { PatchList };

    ghost view = { λ p. patches_of p.order p.section p.size p.list.items };

    ghost invariant = { λ p. PatchesFit p.size p.list.items };
}

impl Patches {
    /// No patches of the section of a number of a view.
    #[tactic(auto, using(crate::proofs::PatchLaws::new_laws))]
    pub fn new(alloc: Global, view: &View, section: u32) -> Result<Patches, NoMemory>
        requires there { section < length view.now.sections }
        ensures none { IfOk result (λ p. p ≡ no_patches view.now.order section (length (section_bytes view.now section))) }
    {
        Ok(Patches {
            order: view.order(),
            section,
            size: view.bytes(section).len() as u64,
            list: Vec::new(alloc),
        })
    }

    /// Sets a field of `size` bytes at `at`, in bytes from the section's start. It lies in the section, and
    /// overlaps none that was set. Refused as `TooWide` at the field exactly where the new place doesn't fit it. After
    /// an error the patches are as before.
    #[tactic(auto, using(crate::proofs::PatchLaws::set_laws))]
    pub fn set(&mut self, at: u64, size: u8, new: NewPlace) -> Result<(), Fault>
        requires some { 0 < size }
        requires wide { size ≤ 8 }
        requires inside { at + size ≤ self.old.size }
        requires free { IsFree self.old.list at size }
        ensures set { OnOk result (self.new ≡ with_patch self.old at size (number_of new)) }
        ensures fits { OnOk result (number_of new < 256 ^ size) }
        ensures kept { OnErr result (self.new ≡ self.old) }
        ensures refused { IfErr result (Blames (SetFails self.old.section at size (number_of new))) }
    {
        let NewPlace::Offset(value) = new;
        if !fits_size(value, size) {
            return Err(Refusal::at(Kind::TooWide, self.section, at).into());
        }
        self.list.push(Patch { at, size, value })?;
        Ok(())
    }

    /// Puts the new places into the bytes of the section. Takes no memory.
    #[tactic(auto, using(crate::proofs::PatchLaws::apply_laws))]
    pub fn apply(&self, bytes: &mut [u8])
        requires size { length bytes.old ≡ self.now.size }
        ensures patched { IsPatched self.now bytes.old bytes.new }
        ensures put { bytes.new ≡ with_patches self.now.order bytes.old self.now.list }
        ensures long { length bytes.new ≡ length bytes.old }
    {
        put_patches(self.order, &self.list, bytes);
    }

    /// The new body of the section with these bytes, which aren't copied. Takes no memory.
    #[tactic(auto, using(crate::proofs::PatchLaws::apply_laws))]
    pub fn onto<'a>(self, bytes: &'a [u8]) -> NewBody<'a>
        requires size { length bytes.now ≡ self.size }
        ensures bytes { body_bytes result ≡ with_patches self.order bytes.now self.list }
    {
        let Patches { order, list, .. } = self;
        NewBody::patched(bytes, order, list)
    }
}
