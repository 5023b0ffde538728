//! What a task is refused while it is a member of a revoked lock.

ghost use Rattle.laws_revocation.specs.LostLocks.{AppendIsRefused, ForeignIdChangesNothing, InsertIsRefused, KnownIdIsRefused, LockIsRefused, LostSpanChangesNothing, NewIdIsRefused, NotPendingIsNotAllocated, ReplaceIsRefused, SpanIsRefused, ToReplaceIsRefused};

/// The check of a span that a lost lock overlaps answers the least such lock, whatever kind of lock
/// is wanted there.
pub fn span_is_refused()
    ensures { SpanIsRefused }
{}

/// A running task that asks for a lock there is refused by the least revoked lock there of which it is
/// a member.
pub fn lock_is_refused()
    ensures { LockIsRefused }
{}

/// So it is where it asks again for an id that is known and fits the request, in the span of that id.
pub fn known_id_is_refused()
    ensures { KnownIdIsRefused }
{}

/// And where it asks for a new id, in the span of its place.
pub fn new_id_is_refused()
    ensures { NewIdIsRefused }
{}

/// And where it asks what a replacement there has to read.
pub fn to_replace_is_refused()
    ensures { ToReplaceIsRefused }
{}

/// An insert that gets as far as the locks of such a span is refused by the least of them.
pub fn insert_is_refused()
    ensures { InsertIsRefused }
{}

/// So is a replacement.
pub fn replace_is_refused()
    ensures { ReplaceIsRefused }
{}

/// Whatever else speaks against it, an insert or a replacement with such a span changes nothing.
pub fn lost_span_changes_nothing()
    ensures { LostSpanChangesNothing }
{}

/// An append that gets as far as its ids is refused by its first id that isn't the task's, as one that isn't allocated.
pub fn append_is_refused()
    ensures { AppendIsRefused }
{}

/// An id that no pending has is no task's.
pub fn not_pending_is_not_allocated()
    ensures { NotPendingIsNotAllocated }
{}

/// Whatever else speaks against it, an append of an id that isn't the task's changes nothing.
pub fn foreign_id_changes_nothing()
    ensures { ForeignIdChangesNothing }
{}
