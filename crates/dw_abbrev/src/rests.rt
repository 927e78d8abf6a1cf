//! Rests of abbreviations that were read once, one behind another: a table that goes on as another has them behind its own
//! (DWARF 5, 7.5.3).

ghost use Rattle.std.specs.Prelude.{◌≡◌, ◌^◌, ◌++◌, ◌<◌, ◌≤◌, List, [], drop, get_or, length, IfOk, IfSome};
ghost use Rattle.dw_base.specs.AbbreviationTables.{Abbreviation};
ghost use Rattle.dw_abbrev.specs.Coded.{index_of_code};
ghost use Rattle.dw_abbrev.specs.Rests.{all_of};

use crate::abbrev::Abbrev;
use crate::rest::Rest;
use crate::run::Run;
use std::alloc::{AllocError, Global};
use std::marker::Model;
use std::rc::Rc;

/// More abbreviations than there may be.
const TOO_MANY: usize = 0x4000_0000_0000_0000;

/// Rests, one behind another.
#[derive(Drop)]
pub(crate) struct Rests {
    rests: Vec<Rest>,
    /// How many abbreviations there are.
    len: usize,
}

impl Model for Rests {
    ghost Value = { List Abbreviation };

    ghost view = { λ r. all_of r.rests.items };

    ghost invariant = { λ r. (r.len ≡ length (all_of r.rests.items)) × (r.len < 2 ^ 62) };
}

/// How many abbreviations rests have together, if they aren't too many.
#[tactic(auto, using(crate::proofs::RestsLaws::len_rules))]
fn len_of(rests: &[Rest]) -> Option<usize>
    ensures len { IfSome result (λ n. n ≡ length (all_of rests.now)) }
    ensures few { IfSome result (λ n. n < 2 ^ 62) }
{
    let mut len = 0;
    for rest in rests {
        len += rest.len();
        if len >= TOO_MANY {
            return None;
        }
    }
    Some(len)
}

/// Where the abbreviation of a code stands among those of rests, from 0 on. `None` exactly where none has the code.
#[tactic(auto, using(crate::proofs::RestsLaws::index_rules))]
fn index_in(rests: &[Rest], code: u64) -> Option<usize>
    requires few { length (all_of rests.now) < 2 ^ 62 }
    ensures value { result ≡ index_of_code (all_of rests.now) code }
    ensures within { IfSome result (λ i. i < length (all_of rests.now)) }
{
    let mut before = 0;
    for rest in rests {
        if let Some(index) = rest.index_of(code) {
            return Some(before + index);
        }
        before += rest.len();
    }
    None
}

/// The abbreviation of a number among those of rests.
#[tactic(auto, using(crate::proofs::RestsLaws::at_rules))]
fn at_in<'r>(rests: &'r [Rest], index: usize) -> &'r Abbrev
    requires inside { index < length (all_of rests.now) }
    ensures value { result.now ≡ get_or (all_of rests.now) index result.now }
{
    let mut before = 0;
    for rest in rests {
        if index - before < rest.len() {
            return rest.at(index - before);
        }
        before += rest.len();
    }
    unreachable!()
}

/// Some rests, and behind them the same as others once more.
#[tactic(auto, using(crate::proofs::RestsLaws::push_rules))]
fn with_all(mut all: Vec<Rest>, rests: &[Rest]) -> Result<Vec<Rest>, AllocError>
    ensures all { IfOk result (λ a. a.items ≡ all.items ++ rests.now) }
{
    for rest in rests {
        let again = rest.again()?;
        all.push(again)?;
    }
    Ok(all)
}

impl Rests {
    /// No abbreviation.
    pub(crate) fn none(alloc: Global) -> Rests
        ensures value { result ≡ [] }
    {
        Rests {
            rests: Vec::new(alloc),
            len: 0,
        }
    }

    /// These rests, if they haven't too many abbreviations.
    fn of(rests: Vec<Rest>) -> Option<Rests>
        ensures value { IfSome result (λ r. r ≡ all_of rests.items) }
    {
        match len_of(rests.as_slice()) {
            Some(len) => Some(Rests { rests, len }),
            None => None,
        }
    }

    /// The abbreviations of a run from one on, and these behind them. `None` where they are too many.
    #[tactic(auto, using(crate::proofs::RestsLaws::behind_rules))]
    pub(crate) fn behind(
        &self,
        alloc: Global,
        run: &Rc<Run>,
        from: usize,
    ) -> Result<Option<Rests>, AllocError>
        requires inside { from ≤ length run.now.value }
        ensures value { IfOk result (λ o. IfSome o (λ r. r ≡ drop from run.now.value ++ self.now)) }
    {
        let first = Rest::of(run, from)?;
        let mut all = Vec::new(alloc);
        all.push(first)?;
        let all = with_all(all, self.rests.as_slice())?;
        Ok(Rests::of(all))
    }

    /// The same once more.
    #[tactic(auto, using(crate::proofs::RestsLaws::again_rules))]
    pub(crate) fn again(&self, alloc: Global) -> Result<Rests, AllocError>
        ensures value { IfOk result (λ r. r ≡ self.now) }
    {
        let rests = with_all(Vec::new(alloc), self.rests.as_slice())?;
        Ok(Rests {
            rests,
            len: self.len,
        })
    }

    /// How many there are.
    pub(crate) fn len(&self) -> usize
        ensures value { result ≡ length self.now }
        ensures few { result < 2 ^ 62 }
    {
        self.len
    }

    /// The abbreviation of a number, from 0 on.
    pub(crate) fn at(&self, index: usize) -> &Abbrev
        requires inside { index < length self.now }
        ensures value { result.now ≡ get_or self.now index result.now }
    {
        at_in(self.rests.as_slice(), index)
    }

    /// Where the abbreviation of a code stands among them, from 0 on. `None` exactly where none has the code.
    pub(crate) fn index_of(&self, code: u64) -> Option<usize>
        ensures value { result ≡ index_of_code self.now code }
        ensures within { IfSome result (λ i. i < length self.now) }
        ensures few { IfSome result (λ i. i < 2 ^ 62) }
    {
        let _ = self.len();
        index_in(self.rests.as_slice(), code)
    }
}
