//! The laws of a tree's moments: what a stop may leave, and what calls make of it.
//!
//! These functions compute nothing: each one's clauses state facts of every past. Read first:
//! `specs/Images.antt`, `specs/Moments.antt`.
ghost use Rattle.std.specs.Prelude.{◌≡◌};
ghost use Rattle.file_tree.specs.Seen.{Past, map_now, adds};
ghost use Rattle.file_tree.specs.Trees.{TreeMap};
ghost use Rattle.file_tree.specs.Images.{Image, state_of};
ghost use Rattle.file_tree.specs.Moments.{EveryCallSteps, EveryLogSteps, EveryChangeLeaves, EveryPathLeft, EveryLookCalm, EverySpanJoins, EverySpanEnds};

use crate::call::{Call, Effect};

/// The laws of what a stop may leave: the map now, and after a settle nothing else.
#[tactic(auto, using(crate::proofs::ImageLaws::image_laws))]
pub fn image_laws()
    ensures now { (p : Past) → Image (state_of p) (map_now p) }
    ensures settled { (p : Past) (u : TreeMap) → Image (state_of (adds p Call.Settle Effect.Settled)) u → u ≡ map_now p }
    ensures moment { (p : Past) → (state_of p).now ≡ map_now p }
{}

/// The laws of a moment after more calls, for layers above, which step them.
#[tactic(auto, using(crate::proofs::MomentLaws::moment_laws))]
pub fn moment_laws()
    // The moment after one more call, and after more.
    ensures call { EveryCallSteps }
    ensures log { EveryLogSteps }

    // What a stop may leave after one more change, and which paths a stop leaves that keeps all.
    ensures change { EveryChangeLeaves }
    ensures paths { EveryPathLeft }

    // Looks change nothing of it.
    ensures looks { EveryLookCalm }

    // What holds of all that a stop leaves, over spans of calls.
    ensures joins { EverySpanJoins }
    ensures ends { EverySpanEnds }
{}
