//! Which inserts are refused, fault by fault and in the order of the faults.

ghost use Rattle.cases_rules.specs.InsertFaults.{SpansOverlap, IdOfNoSpan, PartsWithoutGap, OneTombstone, LostOrMissing, LostWithinHeld, NoOtherLock, OwnLocksVersion, VersionHasChunk, FirstPendingIsTold};

/// The first span that overlaps one before it is told; spans that touch do not overlap.
pub fn spans_overlap()
    ensures { SpansOverlap }
{}

/// An id of no listed span is told by its own span, before a span that has no ids.
pub fn id_of_no_span()
    ensures { IdOfNoSpan }
{}

/// Each span has its parts from 0 without a gap, or it is told: the first such.
pub fn parts_without_gap()
    ensures { PartsWithoutGap }
{}

/// A span has ids or one tombstone, of part 0: not both, not two.
pub fn one_tombstone()
    ensures { OneTombstone }
{}

/// The least lost lock that overlaps a span is told; span by span a lost lock or a missing one, the first of all.
pub fn lost_or_missing()
    ensures { LostOrMissing }
{}

/// A lost lock refuses where it was, also a task that has joined a valid lock around it.
pub fn lost_within_held()
    ensures { LostWithinHeld }
{}

/// No lock but an exclusive one that contains the span and has the task as a member lets it insert.
pub fn no_other_lock()
    ensures { NoOtherLock }
{}

/// Each id has the version of its own span's lock, or the first that hasn't is told, a tombstone too.
pub fn own_locks_version()
    ensures { OwnLocksVersion }
{}

/// A span over which the lock's version has a chunk is told, the first such; touching chunks are none.
pub fn version_has_chunk()
    ensures { VersionHasChunk }
{}

/// Of the pendings that overlap a span the first in the order of rows is told; those that touch a span do not overlap it.
pub fn first_pending_is_told()
    ensures { FirstPendingIsTold }
{}
