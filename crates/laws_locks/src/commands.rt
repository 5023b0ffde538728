//! What each command that keeps its form keeps of tasks and locks.

ghost use Rattle.laws_locks.specs.Commands.{AllocateKeepsLocks, EndKeepsLocks, LockKeepsLocks, ManageKeepsLocks, OthersKeepLocks, SubmitKeepsLocks, TickKeepsLocks, UnlockKeepsLocks};

/// Submitting a task keeps the shape of tasks and locks, and that valid locks are compatible.
pub fn submit_keeps_locks()
    ensures { SubmitKeepsLocks }
{}

/// Starting the waiting tasks keeps this shape, and that valid locks are compatible.
pub fn manage_keeps_locks()
    ensures { ManageKeepsLocks }
{}

/// Asking for a lock keeps this shape, and that valid locks are compatible.
pub fn lock_keeps_locks()
    ensures { LockKeepsLocks }
{}

/// Leaving a lock keeps this shape, and that valid locks are compatible.
pub fn unlock_keeps_locks()
    ensures { UnlockKeepsLocks }
{}

/// Ending a task keeps them, with what its end makes of a supervisor's sequences.
pub fn end_keeps_locks()
    ensures { EndKeepsLocks }
{}

/// Publishing, resetting, supervising, reporting and asking keep them.
pub fn others_keep_locks()
    ensures { OthersKeepLocks }
{}

/// Allocating an id keeps them, where the ids of the book are within their limits, and each pending
/// has its root and a valid lock of its source that contains the root's span.
pub fn allocate_keeps_locks()
    ensures { AllocateKeepsLocks }
{}

/// A step of the clock keeps them, where the tasks that it adds are within their limits and of ids of
/// their own.
pub fn tick_keeps_locks()
    ensures { TickKeepsLocks }
{}
