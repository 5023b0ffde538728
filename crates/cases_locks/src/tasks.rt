//! Worked cases: in each the premises of some laws are met, and what the laws say is seen.

ghost use Rattle.cases_locks.specs.TaskCases.{ALateReplicaFails, AReplicaIsAdded, AnIdIsAllocated, BothAreCompatible, LocksAreGranted, LocksAreLeft, MovesAreMade, OddStaysCompatible, ShapeIsMet, TwoAreGranted};

/// Tasks are started; one gets the lock that it wants and loses it to a higher priority, another joins
/// the lock that revoked it, and a last task is submitted.
pub fn locks_are_granted()
    ensures { LocksAreGranted }
{}

/// A task leaves its revoked lock, which ends, and a task ends, whose lock another keeps.
pub fn locks_are_left()
    ensures { LocksAreLeft }
{}

/// A task leaves one of its locks, which another keeps; and a task fails, and is a member of none.
pub fn moves_are_made()
    ensures { MovesAreMade }
{}

/// Two wants are granted at once, and the lock in the way is revoked.
pub fn two_are_granted()
    ensures { TwoAreGranted }
{}

/// A book with two locks has the whole shape, and so the shape of tasks and locks.
pub fn shape_is_met()
    ensures { ShapeIsMet }
{}

/// An id is allocated in a book with a pending, and a lock comes with it.
pub fn an_id_is_allocated()
    ensures { AnIdIsAllocated }
{}

/// A tick adds a replica, which gets a lock; a reset fails it, or it ends by itself, and its lock ends with it.
pub fn a_replica_is_added()
    ensures { AReplicaIsAdded }
{}

/// A tick fails the replica of a sequence that isn't published in time, so that its lock ends, and adds the next one.
pub fn a_late_replica_fails()
    ensures { ALateReplicaFails }
{}

/// A book whose two locks have one number stays compatible.
pub fn odd_stays_compatible()
    ensures { OddStaysCompatible }
{}

/// Two valid locks overlap and are compatible; a revoked one isn't compatible with a valid one.
pub fn both_are_compatible()
    ensures { BothAreCompatible }
{}
