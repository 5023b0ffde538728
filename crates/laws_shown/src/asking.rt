//! What a task is answered that asks what its replacement has to read.

ghost use Rattle.laws_shown.specs.Asking.{AnsweredIsReading, AskingChangesNothing, AskingIsAnswered, OneLockIsAsked};

/// In a sound book `to_replace` answers a list of roots only to a running task that is a member of no
/// revoked lock of its source that overlaps the span, and of a valid replacing lock of its source
/// that contains it. The list has, in id order, the roots that the contents have at some instant of
/// that lock's span and that were added before the lock was made.
pub fn answered_is_reading()
    ensures { AnsweredIsReading }
{}

/// To such a task it answers a list of roots, in any book.
pub fn asking_is_answered()
    ensures { AskingIsAnswered }
{}

/// In a sound book such a task has one such lock for a span that isn't empty.
pub fn one_lock_is_asked()
    ensures { OneLockIsAsked }
{}

/// `to_replace` changes nothing.
pub fn asking_changes_nothing()
    ensures { AskingChangesNothing }
{}
