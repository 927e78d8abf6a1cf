//! The walk along the links of nodes, as an iterator.
//!
//! Read first: `specs/Walks.antt`.

ghost use Rattle.std.specs.Prelude.{◌≡◌, ◌+◌, ◌<◌, ◌≤◌, ◌^◌, length, IfSome};
ghost use Rattle.std.specs.Iterator.{at_most};
ghost use Rattle.entry_arena.specs.Shapes.{IsLinked};
ghost use Rattle.entry_arena.specs.Walks.{Gives, GivesNumber, IsDue, IsOver, StepsFit, WalkFits, WalkState, next_number, numbers_left};

use crate::arena::EntryNode;
use std::marker::Model;

/// A step of a walk: an entry's number, and in how many entries it stands.
#[derive(Clone, Copy, Debug, PartialEq, Eq)]
pub struct WalkStep {
    /// The number of the entry.
    pub number: u32,
    /// In how many entries it stands.
    pub depth: u32,
}

/// A walk that gives each number with its depth.
#[derive(Drop)]
pub struct Steps<'a> {
    /// The nodes.
    nodes: &'a [EntryNode],
    /// What comes next.
    next: Option<WalkStep>,
}

impl<'a> Model for Steps<'a> {
    ghost Value = { WalkState };

    ghost view = { λ s. record { nodes = s.nodes.now; number = next_number (length s.nodes.now) s.next } };

    ghost invariant = { λ s. StepsFit s.nodes.now s.next };
}

/// The first step of a walk.
#[tactic(auto, using(crate::proofs::WalkLaws::walk_laws))]
fn first_step(nodes: &[EntryNode]) -> Option<WalkStep>
    requires linked { IsLinked nodes.now }
    ensures fits { WalkFits nodes.now result }
    ensures first { next_number (length nodes.now) result ≡ 0 }
{
    if nodes.is_empty() {
        return None;
    }
    Some(WalkStep {
        number: 0,
        depth: 0,
    })
}

/// The step behind all that stands below an entry: to the next sibling of the entry, or of the nearest above it that has one.
#[tactic(auto, using(crate::proofs::WalkLaws::walk_laws))]
fn step_over(nodes: &[EntryNode], from: WalkStep) -> Option<WalkStep>
    requires over { IsOver nodes.now (from.number + 1) from }
    ensures fits { WalkFits nodes.now result }
    ensures next { next_number (length nodes.now) result ≡ from.number + 1 }
{
    let mut here = from;
    'up: loop {
        let node = nodes[here.number as usize];
        if let Some(number) = node.next_sibling {
            return Some(WalkStep {
                number,
                depth: here.depth,
            });
        }
        match node.parent {
            Some(number) => {
                here = WalkStep {
                    number,
                    depth: here.depth - 1,
                }
            }
            None => return None,
        }
    }
}

/// The step behind an entry: to its first child, or over it.
#[tactic(auto, using(crate::proofs::WalkLaws::walk_laws))]
fn step_behind(nodes: &[EntryNode], here: WalkStep) -> Option<WalkStep>
    requires due { IsDue nodes.now here }
    requires small { length nodes.now ≤ 2 ^ 31 }
    ensures fits { WalkFits nodes.now result }
    ensures next { next_number (length nodes.now) result ≡ here.number + 1 }
{
    match nodes[here.number as usize].first_child {
        Some(number) => Some(WalkStep {
            number,
            depth: here.depth + 1,
        }),
        None => step_over(nodes, here),
    }
}

impl<'a> Steps<'a> {
    /// The walk over nodes before its first step.
    pub(crate) fn new(nodes: &'a [EntryNode]) -> Steps<'a>
        requires linked { IsLinked nodes.now }
        requires small { length nodes.now ≤ 2 ^ 31 }
        ensures start { result ≡ record { nodes = nodes.now; number = 0 } }
    {
        Steps {
            nodes,
            next: first_step(nodes),
        }
    }
}

impl<'a> Iterator for Steps<'a> {
    type Item = WalkStep;

    ghost next_gives = { Gives };

    ghost remaining = { λ s. at_most (numbers_left s) };

    #[tactic(auto, using(crate::proofs::StepLaws::step_laws))]
    fn next(&mut self) -> Option<WalkStep> {
        match self.next {
            Some(here) => {
                self.next = step_behind(self.nodes, here);
                Some(here)
            }
            None => None,
        }
    }
}

/// A walk of numbers alone.
#[derive(Drop)]
pub struct Walk<'a> {
    /// The walk.
    pub(crate) steps: Steps<'a>,
}

impl<'a> Model for Walk<'a> {
    ghost Value = { WalkState };

    ghost view = { λ w. w.steps };
}

impl<'a> Iterator for Walk<'a> {
    type Item = u32;

    ghost next_gives = { GivesNumber };

    ghost remaining = { λ s. at_most (numbers_left s) };

    #[tactic(auto, using(crate::proofs::StepLaws::number_laws))]
    fn next(&mut self) -> Option<u32> {
        match self.steps.next() {
            Some(step) => Some(step.number),
            None => None,
        }
    }
}
