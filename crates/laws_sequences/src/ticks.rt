//! What a step of the clock adds to the tasks.

ghost use Rattle.laws_sequences.specs.TickLaws.{SoundHasOwnIds, SoundTickAddsRows, TickKeepsSoundLocks, TickedIdsAreNew, TickedTasksAreRows};

/// Where sequences are counted and their tasks are their own, the ids of the tasks that a tick adds
/// are distinct from each other, and of no task that is there.
pub fn ticked_ids_are_new()
    ensures { TickedIdsAreNew }
{}

/// There the tasks and those that a tick adds are within their limits and of distinct ids.
pub fn ticked_tasks_are_rows()
    ensures { TickedTasksAreRows }
{}

/// A sound book has what this needs.
pub fn sound_has_own_ids()
    ensures { SoundHasOwnIds }
{}

/// So in a sound book a tick adds tasks that may be added.
pub fn sound_tick_adds_rows()
    ensures { SoundTickAddsRows }
{}

/// So a tick keeps there the shape of tasks and locks, and that valid locks are compatible.
pub fn tick_keeps_sound_locks()
    ensures { TickKeepsSoundLocks }
{}
