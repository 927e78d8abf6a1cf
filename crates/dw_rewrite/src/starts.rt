//! Where line tables start anew (DWARF 5, 3.1.1).
//!
//! Read first: `specs/NewStarts.antt`.

ghost use Rattle.std.specs.Prelude.{false, ◌≡◌, ◌<◌, ◌^◌};
ghost use Rattle.std.specs.Option.{ForSome};
ghost use Rattle.dw_base.specs.DebugData.{start_number};
ghost use Rattle.dw_rewrite.specs.NewStarts.{StartChange, StartsFit, known_starts};

use dw_starts::start_number;
use std::marker::Model;

/// Where line tables started, and where they start anew, by their numbers.
#[derive(Drop)]
pub(crate) struct NewStarts<'a> {
    /// Where each started.
    old: &'a [u64],
    /// Where each starts anew.
    new: &'a [u64],
}

impl<'a> Model for NewStarts<'a> {
    ghost Value = { StartChange };

    ghost view = { λ s. record { old = s.old.now; new = s.new.now } };

    ghost invariant = { λ s. StartsFit (record { old = s.old.now; new = s.new.now }) };
}

impl<'a> NewStarts<'a> {
    /// These starts.
    pub(crate) fn new(old: &'a [u64], new: &'a [u64]) -> NewStarts<'a>
        requires fit { StartsFit (record { old = old.now; new = new.now }) }
        ensures { result ≡ record { old = old.now; new = new.now } }
    {
        NewStarts { old, new }
    }

    /// Where the table that started at a place starts anew. `None` exactly where none started there.
    pub(crate) fn get(&self, start: u64) -> Option<u64>
        ensures value { result ≡ known_starts self.now false start }
        ensures fits { ForSome result (λ place. place < 2 ^ 32) }
    {
        start_among(self.old, self.new, start)
    }
}

/// The same, from the parts.
#[tactic(auto, using(crate::proofs::NewStartLaws::among_rules))]
fn start_among(old: &[u64], new: &[u64], start: u64) -> Option<u64>
    requires fit { StartsFit (record { old = old.now; new = new.now }) }
    ensures value { result ≡ known_starts (record { old = old.now; new = new.now }) false start }
    ensures fits { ForSome result (λ place. place < 2 ^ 32) }
{
    match start_number(old, start) {
        Some(number) => Some(new[number]),
        None => None,
    }
}
