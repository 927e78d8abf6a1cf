//! The rest of abbreviations that were read once, which tables share (DWARF 5, 7.5.3).

ghost use Rattle.std.specs.Prelude.{◌≡◌, ◌^◌, ◌<◌, ◌≤◌, List, drop, get_or, length, IfOk, IfSome};
ghost use Rattle.dw_base.specs.AbbreviationTables.{Abbreviation};
ghost use Rattle.dw_abbrev.specs.Coded.{index_of_code};

use crate::abbrev::Abbrev;
use crate::run::Run;
use std::alloc::AllocError;
use std::marker::Model;
use std::rc::Rc;

/// Abbreviations of a run from one on.
#[derive(Drop)]
pub(crate) struct Rest {
    /// All abbreviations.
    run: Rc<Run>,
    /// How many aren't of the rest.
    from: usize,
}

impl Model for Rest {
    ghost Value = { List Abbreviation };

    ghost view = { λ r. drop r.from r.run.value };

    ghost invariant = { λ r. r.from ≤ length r.run.value };
}

impl Rest {
    /// Those of a run from one on.
    pub(crate) fn of(run: &Rc<Run>, from: usize) -> Result<Rest, AllocError>
        requires inside { from ≤ length run.now.value }
        ensures value { IfOk result (λ r. r ≡ drop from run.now.value) }
    {
        let run = run.clone()?;
        Ok(Rest { run, from })
    }

    /// The same once more.
    pub(crate) fn again(&self) -> Result<Rest, AllocError>
        ensures value { IfOk result (λ r. r ≡ self.now) }
    {
        Rest::of(&self.run, self.from)
    }

    /// How many there are.
    pub(crate) fn len(&self) -> usize
        ensures value { result ≡ length self.now }
        ensures few { result < 2 ^ 63 }
    {
        self.run.as_ref().as_slice().len() - self.from
    }

    /// The abbreviation of a number, from 0 on.
    #[tactic(auto, using(crate::proofs::RestLaws::at_rules))]
    pub(crate) fn at(&self, index: usize) -> &Abbrev
        requires inside { index < length self.now }
        ensures value { result.now ≡ get_or self.now index result.now }
    {
        let (_, rest) = self.run.as_ref().as_slice().split_at(self.from);
        &rest[index]
    }

    /// Where the abbreviation of a code stands among them, from 0 on. `None` exactly where none has the code.
    pub(crate) fn index_of(&self, code: u64) -> Option<usize>
        ensures value { result ≡ index_of_code self.now code }
        ensures within { IfSome result (λ i. i < length self.now) }
        ensures few { IfSome result (λ i. i < 2 ^ 63) }
    {
        let _ = self.len();
        self.run.as_ref().index_behind(self.from, code)
    }
}
