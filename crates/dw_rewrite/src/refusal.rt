//! The refusals of an edit that are made here, each a kind and a place.

ghost use Rattle.std.specs.Prelude.{◌≡◌};
ghost use Rattle.dw_base.specs.Refusals.{at};

use dw_base::{Kind, Refusal};

/// The file would be longer than one that is written.
pub(crate) fn too_large() -> Refusal
    ensures { result ≡ at Kind.TooLarge 0 0 }
{
    Refusal::of_file(Kind::TooLarge)
}

/// The section of a number stays where it is.
pub(crate) fn fixed(section: u32) -> Refusal
    ensures { result ≡ at Kind.Fixed section 0 }
{
    Refusal::at(Kind::Fixed, section, 0)
}
