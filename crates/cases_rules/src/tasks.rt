//! Tasks: submitting, starting and ending.

ghost use Rattle.cases_rules.specs.TaskCases.{TaskEnds, AllLocksOrNone, ManageSetsClock, ClockNeverFalls, TasksAreShown, TaskLinesWellFormed};

/// A task ends once, and a repeated end is answered as the first.
pub fn task_ends()
    ensures { TaskEnds }
{}

/// A waiting task gets all its locks or none.
pub fn all_locks_or_none()
    ensures { AllLocksOrNone }
{}

/// A `manage` that starts nothing changes the book: it sets the clock.
pub fn manage_sets_clock()
    ensures { ManageSetsClock }
{}

/// The clock never falls.
pub fn clock_never_falls()
    ensures { ClockNeverFalls }
{}

/// Tasks are shown in submit order.
pub fn tasks_are_shown()
    ensures { TasksAreShown }
{}

/// The commands of the first case keep their form.
pub fn task_lines_keep_form()
    ensures { TaskLinesWellFormed }
{}
