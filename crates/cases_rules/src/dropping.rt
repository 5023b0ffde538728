//! Dropping: what refuses it, what goes out of use, and that it is never a repeat.

ghost use Rattle.cases_rules.specs.DropCases.{LeastLockRefuses, RevokedDropsNot, FirstPartialIsTold, LockBeforePartial, TombstoneReachesOut, DroppedRows, NeverRepeat, DropOfSource, AllVersionsDropped};

/// The least lock that overlaps the span refuses a drop, of whatever type, and one that touches it doesn't.
pub fn least_lock_refuses()
    ensures { LeastLockRefuses }
{}

/// A revoked lock doesn't refuse, though its task hasn't left it.
pub fn revoked_drops_not()
    ensures { RevokedDropsNot }
{}

/// Of the segments in use that reach out of the span the first in the order of rows is told; one that only touches it doesn't.
pub fn first_partial_is_told()
    ensures { FirstPartialIsTold }
{}

/// A lock is told before a segment that reaches out.
pub fn lock_before_partial()
    ensures { LockBeforePartial }
{}

/// A tombstone reaches out like any other segment, and a drop takes it out of use.
pub fn tombstone_reaches_out()
    ensures { TombstoneReachesOut }
{}

/// The segments within the span go out of use; the publication is of no group and has the span, and nothing else changes.
pub fn dropped_rows()
    ensures { DroppedRows }
{}

/// A drop of nothing is a change, and so is the same drop again; a refused one changes nothing.
pub fn never_repeat()
    ensures { NeverRepeat }
{}

/// A drop is of one source: no lock and no segment of another one matters to it.
pub fn drop_of_source()
    ensures { DropOfSource }
{}

/// Segments of all versions within the span are dropped; a chunk that was dropped goes on with its next part.
pub fn all_versions_dropped()
    ensures { AllVersionsDropped }
{}
