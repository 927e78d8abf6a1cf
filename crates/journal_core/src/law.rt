//! The laws of a run that may be stopped at any moment.
//!
//! These functions compute nothing: each one's clauses state facts of the table of events and of
//! markings, for every run. The statements stand in `specs/Law.antt`, over the shapes of
//! `specs/Shapes.antt` and the relation of `specs/Relation.antt`.

ghost use Rattle.journal_core.specs.Law.{
  EveryStop,
  EveryRunShows,
  EverySettledWhole,
  EveryEventKept,
  EverySettleKept,
  WiderShown,
  EveryStartShown,
  EveryTornHasShape,
};
ghost use Rattle.journal_core.specs.Calls.{EveryPutNamed, EveryMoveNamed, EverySourceWhole, EveryPutUndone, EveryUncommittedOld};
ghost use Rattle.journal_core.specs.Marks.{EveryMarkHere, EveryMarkOther};
ghost use Rattle.journal_core.specs.Shapes.{TargetsOldOrWhole};
ghost use Rattle.journal_core.specs.Starts.{EveryShapeShown, EveryShownSettled, EveryShownFit, EverySameShown, EveryWorkOwn};

/// From a marking of one of the three shapes, with the core that it shows, and after any events
/// that the table allows, in any interleaving of jobs, with each staging of one of the first 64
/// jobs that aren't done: a stop leaves a marking that has one of the shapes. It keeps any prefix of
/// the changes since the last settle, and what was put since then may hold anything, also after a
/// rename.
pub fn every_stop()
    ensures leaves_a_shape { EveryStop }

    // And whole is then what was put before the last settle: the temporary names of a ready job,
    // those that a committed job hasn't moved, a settled plan, and the settled texts of the end.
    ensures leaves_settled_whole { EverySettledWhole }

    // What the core's state says of the marks holds all along, of what is there, and of what a stop
    // may leave that keeps all changes.
    ensures shows_the_core { EveryRunShows }
{}

/// In every shape each target is as it was at first, or whole.
pub fn targets_old_or_whole()
    ensures old_or_whole { TargetsOldOrWhole }
{}

/// The steps of the law, for a caller whose runs are traces of tree calls.
pub fn every_step()
    // Each shape shows one core, and the relation holds there, in every reading.
    ensures shown { EveryShapeShown }
    ensures start { EveryStartShown }

    // A settle changes nothing of that core, a core of a plan can be resumed, and which core it is
    // hangs on the names that are there alone.
    ensures calm { EveryShownSettled }
    ensures fit { EveryShownFit }
    ensures same { EverySameShown }
    ensures own { EveryWorkOwn }

    // Each event but a settle keeps the relation, in either reading. A settle keeps it as it reads
    // what is there, and that reading implies what a stop may leave.
    ensures event { EveryEventKept }
    ensures settle { EverySettleKept }
    ensures wider { WiderShown }

    // And what a stop may leave has a shape.
    ensures shape { EveryTornHasShape }
{}

/// What the relation says of the names that a call writes.
pub fn every_call()
    // A name that is marked has the mark, and the others have theirs.
    ensures here { EveryMarkHere }
    ensures other { EveryMarkOther }

    // What an allowed event puts or renames is a name of the run, and what it renames is whole.
    ensures put_named { EveryPutNamed }
    ensures move_named { EveryMoveNamed }
    ensures source_whole { EverySourceWhole }

    // Where a put leaves nothing at its name, the core from before it is still shown.
    ensures put_undone { EveryPutUndone }

    // A job that isn't committed has its targets as they were at first, so what it read is still there.
    ensures uncommitted_old { EveryUncommittedOld }
{}
