//! What becomes of pendings that are appended.

ghost use Rattle.laws_shown.specs.Appended.{AllocatedIsPending, AppendedIsShown, PendingIsNotRefused, PendingMayBeAppended};

/// An allocated id is that of a root pending of the lock that is answered with it.
pub fn allocated_is_pending()
    ensures { AllocatedIsPending }
{}

/// The check of ids lets a root pending through for each member of its lock.
pub fn pending_may_be_appended()
    ensures { PendingMayBeAppended }
{}

/// No append by a member of its lock is refused for it as for an id that isn't allocated.
pub fn pending_is_not_refused()
    ensures { PendingIsNotRefused }
{}

/// Once appended, it is shown at each instant of its span, by one row, in each later book that is sound, until a
/// publication takes it away.
pub fn appended_is_shown()
    ensures { AppendedIsShown }
{}
