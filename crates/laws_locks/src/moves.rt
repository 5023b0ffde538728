//! What the small changes of a book keep, of which the commands are made.

ghost use Rattle.laws_locks.specs.Moves.{FailKeepsLocks, GrantKeepsLocks, LeaveKeepsLocks, ShapeHasLockShape};

/// The shape of a whole book holds that of its tasks and locks.
pub fn shape_has_lock_shape()
    ensures { ShapeHasLockShape }
{}

/// A task that leaves one lock keeps tasks and locks in shape, and valid locks compatible.
pub fn leave_keeps_locks()
    ensures { LeaveKeepsLocks }
{}

/// So does a task that leaves all its locks and gets another status, whichever; it is a member of no
/// lock after it.
pub fn fail_keeps_locks()
    ensures { FailKeepsLocks }
{}

/// So do locks that are granted to a running task, those in the way revoked, where there is room for
/// them.
pub fn grant_keeps_locks()
    ensures { GrantKeepsLocks }
{}
