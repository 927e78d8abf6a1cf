//! The laws that tie the core of a run to the calls of a tree.
//!
//! These functions compute nothing: each one's clauses state facts of every run. Read first:
//! `specs/Wanted.antt`, `specs/Keeps.antt`, `specs/Laws.antt`.
ghost use Rattle.work_journal.specs.Targets.{EveryTargetApart};
ghost use Rattle.work_journal.specs.Laws.{EveryCallKept, EveryStepKept, EveryFailurePartway, EveryLookLeaves, EveryLookRuns, EveryPartJoins, EveryEndWhole, EveryStartKeeps, EveryPresentKeeps, EveryOpenedShown, EveryRunOne};

/// What the calls of a run keep.
pub fn bridge_laws()
    // A call that is a step of the core keeps the relation of core and tree, in whatever order of jobs.
    ensures call { EveryCallKept }
    ensures step { EveryStepKept }

    // A call that failed, whatever it did, leaves the run partway at every moment.
    ensures failure { EveryFailurePartway }

    // Looks change nothing: neither what a stop leaves, nor a core. And spans of calls join.
    ensures looks { EveryLookLeaves }
    ensures looks_run { EveryLookRuns }
    ensures joins { EveryPartJoins }

    // A run whose core is closed has ended: all outputs are there. And what a stop left partway is taken
    // up by the core that its names show.
    ensures whole { EveryEndWhole }
    ensures start { EveryStartKeeps }

    // So is it by the core that the paths of its work folder show, which is the one of a start.
    ensures present { EveryPresentKeeps }
    ensures opened { EveryOpenedShown }

    // Names are told apart by their paths where the targets differ and lie outside of the work folder.
    ensures apart { EveryTargetApart }

    // The calls that a run made lead its core to one core alone.
    ensures one { EveryRunOne }
{}
