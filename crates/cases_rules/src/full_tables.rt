//! Limits of the tables of tasks and publications.

ghost use Rattle.cases_rules.specs.FullCases.{LastTask, FullTasks, TakenBeforeFull, LastDrop, FullDrop, LastInsert, FullInsert, RepeatBeforeFull, LockedBeforeFull};

/// Beside 262,143 tasks one more is submitted.
pub fn last_task()
    ensures { LastTask }
{}

/// Beside 262,144 tasks none is.
pub fn full_tasks()
    ensures { FullTasks }
{}

/// That the id is taken is told before that the table is full.
pub fn taken_before_full()
    ensures { TakenBeforeFull }
{}

/// After 262,143 publications a drop is let through.
pub fn last_drop()
    ensures { LastDrop }
{}

/// After 262,144 publications none is.
pub fn full_drop()
    ensures { FullDrop }
{}

/// After 262,143 publications, none of which it repeats, an insert is let through.
pub fn last_insert()
    ensures { LastInsert }
{}

/// After 262,144 publications none is.
pub fn full_insert()
    ensures { FullInsert }
{}

/// A repeat is answered also where the table is full.
pub fn repeat_before_full()
    ensures { RepeatBeforeFull }
{}

/// A lock in the way of a drop is told before that the table is full.
pub fn locked_before_full()
    ensures { LockedBeforeFull }
{}
