//! Allocation: known sequences, and the place of a new id.

ghost use Rattle.cases_rules.specs.AllocationCases.{SameRequestSameId, RepeatChangesNothing, DayThenHour, IntoVisibleChunk, FinerBucket, PlaceBeforeLock, PartsGoOn};

/// A repeated request has the same id, and another one of its sequence is refused.
pub fn same_request_same_id()
    ensures { SameRequestSameId }
{}

/// A repeated request changes nothing.
pub fn repeat_changes_nothing()
    ensures { RepeatChangesNothing }
{}

/// An hour is inserted over a part of a day.
pub fn day_then_hour()
    ensures { DayThenHour }
{}

/// An id goes into the chunk that is visible, unless a greater version cuts it.
pub fn into_visible_chunk()
    ensures { IntoVisibleChunk }
{}

/// Where the bucket asked for is taken, the finer ones are tried.
pub fn finer_bucket()
    ensures { FinerBucket }
{}

/// The place is found before the lock is asked for, and stays though the lock takes away the pending that gave it.
pub fn place_before_lock()
    ensures { PlaceBeforeLock }
{}

/// A part is never given twice, though its task has left the lock.
pub fn parts_go_on()
    ensures { PartsGoOn }
{}
