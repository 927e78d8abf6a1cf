//! Fields of a section that get new numbers (gABI ch. 4 "Data Representation").
//!
//! This file promises: all new numbers are put in one pass that takes no memory.

ghost use Rattle.std.specs.Prelude.{◌≡◌, length};
ghost use Rattle.dw_base.specs.Numbers.{with_number};
ghost use Rattle.elf_layout.specs.Patched.{PatchFits, PatchedUpTo, PatchesFit, with_patches};

use dw_base::{Order, put_number};

/// A field of a section, and its new number.
#[derive(Clone, Copy, Debug, PartialEq, Eq, Drop)]
pub struct Patch {
    /// Where the field is, in bytes from the section's start.
    pub at: u64,
    /// How many bytes it has.
    pub size: u8,
    /// What it is to read as.
    pub value: u64,
}

/// Puts the new numbers of fields into the bytes of their section, one after another. Takes no memory.
#[tactic(auto, using(crate::proofs::PatchLaws::put_laws))]
pub fn put_patches(order: Order, list: &[Patch], bytes: &mut [u8])
    requires fit { PatchesFit (length bytes.old) list.now }
    ensures patched { PatchedUpTo order list.now (length list.now) bytes.old bytes.new }
    ensures put { bytes.new ≡ with_patches order bytes.old list.now }
    ensures long { length bytes.new ≡ length bytes.old }
{
    for patch in list {
        put(order, patch, bytes);
    }
}

/// Puts the new number of a field into bytes.
fn put(order: Order, patch: &Patch, bytes: &mut [u8])
    requires fits { PatchFits (length bytes.old) patch.now }
    ensures put { bytes.new ≡ with_number order bytes.old patch.now.at patch.now.size patch.now.value }
{
    let Patch { at, size, value } = *patch;
    let _put = put_number(order, bytes, at, size, value);
}
