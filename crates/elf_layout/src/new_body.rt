//! New bodies of sections: bytes of their own, or the old ones with new numbers in some of their fields.
//!
//! This file promises: old bytes with new numbers aren't copied before they are written.

ghost use Rattle.std.specs.Prelude.{◌≡◌, ◌+◌, ◌++◌, ◌≤◌, length, vec_len, IfOk, OnOk};
ghost use Rattle.dw_base.specs.Layout.{output_limit};
ghost use Rattle.elf_layout.specs.Given.{NewBody as BodyOf, body_bytes, body_of};
ghost use Rattle.elf_layout.specs.Patched.{PatchesFit, with_patches};

use crate::patch::{Patch, put_patches};
use crate::patched::push_patched;
use crate::pieces::Pieces;
use dw_base::{NoMemory, Order};
use std::alloc::{AllocError, Global};
use std::marker::Model;

/// What the bytes of a new body are made of.
#[derive(Debug, Drop)]
pub(crate) enum Source<'a> {
    /// Bytes of its own.
    Whole(Vec<u8>),
    /// Old bytes, and the new numbers of some of their fields.
    Patched {
        /// The old bytes.
        old: &'a [u8],
        /// The byte order of the new numbers.
        order: Order,
        /// The fields that have new numbers.
        fields: Vec<Patch>,
    },
}

/// A new body of a section.
#[derive(Debug, Drop)]
pub struct NewBody<'a> {
    source: Source<'a>,
}

impl<'a> Model for NewBody<'a> {
    ghost Value = { BodyOf };

    ghost view = { λ b. body_of b.source };

    ghost invariant = { λ b. PatchesFit (length (body_of b.source).start) (body_of b.source).fields };
}

impl<'a> NewBody<'a> {
    /// The body of these bytes.
    #[tactic(auto, using(crate::proofs::NewBodyLaws::whole_rules))]
    pub fn whole(bytes: Vec<u8>) -> NewBody<'a>
        ensures bytes { body_bytes result ≡ bytes.items }
    {
        NewBody {
            source: Source::Whole(bytes),
        }
    }

    /// The body of old bytes with the new numbers of some of their fields.
    pub fn patched(old: &'a [u8], order: Order, fields: Vec<Patch>) -> NewBody<'a>
        requires fit { PatchesFit (length old.now) fields.items }
        ensures bytes { body_bytes result ≡ with_patches order old.now fields.items }
    {
        NewBody {
            source: Source::Patched { old, order, fields },
        }
    }

    /// How many bytes it has.
    pub(crate) fn len(&self) -> u64
        ensures len { result ≡ length (body_bytes self.now) }
    {
        self.start().len() as u64
    }

    /// Appends bytes that were made, and its own behind them; those that are old and far from all new numbers are lent.
    pub(crate) fn push_onto(
        self,
        alloc: Global,
        made: Vec<u8>,
        out: &mut Pieces<'a>,
    ) -> Result<(), NoMemory>
        requires room { length out.old + vec_len made + length (body_bytes self) ≤ output_limit }
        ensures pushed { OnOk result (out.new ≡ out.old ++ (made.items ++ body_bytes self.entry)) }
    {
        match self.source {
            Source::Whole(bytes) => push_own(out, made, bytes),
            Source::Patched { old, order, fields } => push_patched(
                alloc, out, made, old, order, fields,
            ),
        }
    }

    /// Its bytes before the new numbers are put.
    fn start(&self) -> &[u8]
        ensures bytes { result.now ≡ self.now.start }
        ensures long { length (body_bytes self.now) ≡ length self.now.start }
    {
        match &self.source {
            Source::Whole(bytes) => bytes.as_slice(),
            Source::Patched { old, .. } => *old,
        }
    }

    /// Puts the new numbers into these bytes.
    fn put(&self, bytes: &mut [u8])
        requires start { bytes.old ≡ self.now.start }
        ensures put { bytes.new ≡ body_bytes self.now }
        ensures long { length bytes.new ≡ length bytes.old }
    {
        if let Source::Patched { order, fields, .. } = &self.source {
            put_patches(*order, fields, bytes);
        }
    }

    /// Its bytes.
    pub(crate) fn to_vec(&self, alloc: Global) -> Result<Vec<u8>, AllocError>
        ensures bytes { IfOk result (λ v. v.items ≡ body_bytes self.now) }
    {
        let mut bytes = Vec::from_slice(alloc, self.start())?;
        self.put(&mut bytes);
        Ok(bytes)
    }
}

/// Appends bytes that were made, and others behind them.
#[tactic(auto, using(crate::proofs::NewBodyLaws::own_rules))]
fn push_own(out: &mut Pieces, made: Vec<u8>, bytes: Vec<u8>) -> Result<(), NoMemory>
    requires room { length out.old + vec_len made + vec_len bytes ≤ output_limit }
    ensures pushed { OnOk result (out.new ≡ out.old ++ (made.items ++ bytes.items)) }
{
    out.push(made, &[])?;
    out.push(bytes, &[])?;
    Ok(())
}
