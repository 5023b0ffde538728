//! Ending: once, with all locks left; and what a task that isn't there or doesn't run may ask.

ghost use Rattle.cases_rules.specs.EndCases.{EndsOnce, EndSetsStatus, EndLeavesLocks, LastMemberTakesLock, OnlyRunningTasks, AskedInVain};

/// A task ends once: the same end is answered again, the other one is refused, and neither changes anything.
pub fn ends_once()
    ensures { EndsOnce }
{}

/// An end sets the status, and moves no clock.
pub fn end_sets_status()
    ensures { EndSetsStatus }
{}

/// A task that ends leaves all its locks, the revoked ones too, and no other task's.
pub fn end_leaves_locks()
    ensures { EndLeavesLocks }
{}

/// A lock and its pendings stay with the members that are left, and go with the last one.
pub fn last_member_takes_lock()
    ensures { LastMemberTakesLock }
{}

/// A task that isn't there is told so, whatever it asks; one that waits or has ended gets nothing, and has no lock to leave.
pub fn only_running_tasks()
    ensures { OnlyRunningTasks }
{}

/// What is asked in vain changes nothing.
pub fn asked_in_vain()
    ensures { AskedInVain }
{}
