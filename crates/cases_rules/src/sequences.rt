//! Supervisors and their sequences.

ghost use Rattle.cases_rules.specs.SequenceCases.{OneSupervisorEach, PartitionsOfGroups, StartsWhereStored, TasksOfSequence, PausesOnTime, LateOnTime, LaterClosedGoesToo, LateBeforePaused, TickAndClock, GoesOnFromLastClosed, StartsWherePublished};

/// A source has one supervisor.
pub fn one_supervisor_each()
    ensures { OneSupervisorEach }
{}

/// Partitions are dealt to the groups in turn, and a group without any is passed over.
pub fn partitions_of_groups()
    ensures { PartitionsOfGroups }
{}

/// A first sequence starts at the stored offsets, and at 0 where none is stored.
pub fn starts_where_stored()
    ensures { StartsWhereStored }
{}

/// The tasks of a sequence.
pub fn tasks_of_sequence()
    ensures { TasksOfSequence }
{}

/// A sequence pauses when its time is over and not before.
pub fn pauses_on_time()
    ensures { PausesOnTime }
{}

/// A closed sequence is late when its time is over and not before.
pub fn late_on_time()
    ensures { LateOnTime }
{}

/// A later sequence that is closed goes with an earlier one that is late.
pub fn later_closed_goes_too()
    ensures { LaterClosedGoesToo }
{}

/// What is late is abandoned before anything pauses.
pub fn late_before_paused()
    ensures { LateBeforePaused }
{}

/// A tick counts from the book's clock where that is later, and sets it.
pub fn tick_and_clock()
    ensures { TickAndClock }
{}

/// A sequence goes on from the last closed one, and they are published in turn.
pub fn goes_on_from_last_closed()
    ensures { GoesOnFromLastClosed }
{}

/// After a late sequence the next starts where the last published one ended.
pub fn starts_where_published()
    ensures { StartsWherePublished }
{}
