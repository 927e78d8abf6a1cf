//! How far the values of an entry are looked at: behind the last attribute that may say something of texts, line tables or macros no
//! value is read.
//!
//! Read first: `specs/QuietValues.antt`.

ghost use Rattle.std.specs.Prelude.{◌≡◌, Some};
ghost use Rattle.dw_abbrev.specs.Coded.{index_of_code};
ghost use Rattle.dw_abbrev.specs.QuietSpecs.{HasFront};
ghost use Rattle.dw_unit_fields.specs.QuietValues.{AreLooked};

use dw_abbrev::{Abbrev, AbbrevTable};
use dw_base::Spec;
use dw_entries::Coded;

/// The tag of an entry that a pass gave, entry `number` of its unit, and its attributes whose values are looked at: in a
/// unit's first entry all.
#[tactic(auto, using(crate::proofs::QuietLaws::look_rules))]
pub(crate) fn look<'t>(table: &'t AbbrevTable, entry: &Coded, number: u64) -> (u64, &'t [Spec])
    requires listed { index_of_code table.now entry.now.entry.code ≡ Some entry.now.index }
    ensures looked { AreLooked table.now entry.now.entry.code number result.0 result.1.now }
{
    let abbrev = table.abbrev(entry.index);
    if number == 0 {
        return (tag_of(abbrev), specs_of(abbrev));
    }
    (tag_of(abbrev), front_of(abbrev))
}

/// The tag of an abbreviation.
fn tag_of(abbreviation: &Abbrev) -> u64
    ensures value { result ≡ abbreviation.now.tag }
{
    abbreviation.tag
}

/// All attributes of an abbreviation.
fn specs_of(abbreviation: &Abbrev) -> &[Spec]
    ensures value { result.now ≡ abbreviation.now.specs }
{
    abbreviation.specs.as_slice()
}

/// The attributes of an abbreviation up to the last that isn't quiet.
fn front_of(abbreviation: &Abbrev) -> &[Spec]
    ensures front { HasFront abbreviation.now.specs result.now }
{
    abbreviation.specs.front()
}
