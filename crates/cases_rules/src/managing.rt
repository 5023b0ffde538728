//! Managing: which waiting tasks start, in which order, and with which locks.

ghost use Rattle.cases_rules.specs.ManageCases.{InSubmitOrder, LaterTaskRevokes, RefusedTaskTakesNothing, WantsInOrder, OwnWantsInTheWay, GroupStartsTogether, ClockGivesVersion, WaitsAtLastVersion, WaitsWithoutNumber, StartTakesPendings};

/// The task that was submitted first gets the lock, and the other one when it is free; one that has ended isn't started.
pub fn in_submit_order()
    ensures { InSubmitOrder }
{}

/// A later task of higher priority starts too, and revokes what the earlier one got just before.
pub fn later_task_revokes()
    ensures { LaterTaskRevokes }
{}

/// A task that doesn't get its locks takes no number and no version from the next one.
pub fn refused_task_takes_nothing()
    ensures { RefusedTaskTakesNothing }
{}

/// Wants have locks of their own in their order, each but the appending one a new version; one within an earlier one of its type shares that one's.
pub fn wants_in_order()
    ensures { WantsInOrder }
{}

/// A task whose own wants are in each other's way waits, and only the clock has changed.
pub fn own_wants_in_the_way()
    ensures { OwnWantsInTheWay }
{}

/// The second task of a group joins the lock that the first one got.
pub fn group_starts_together()
    ensures { GroupStartsTogether }
{}

/// A moment before the clock counts as the clock, also for the versions.
pub fn clock_gives_version()
    ensures { ClockGivesVersion }
{}

/// Where the versions end within a task's wants it waits, and gives the last version back.
pub fn waits_at_last_version()
    ensures { WaitsAtLastVersion }
{}

/// A task for whose lock there is no number left waits.
pub fn waits_without_number()
    ensures { WaitsWithoutNumber }
{}

/// A task that starts takes away what was allocated in the lock that it revokes; the chunk stays.
pub fn start_takes_pendings()
    ensures { StartTakesPendings }
{}
