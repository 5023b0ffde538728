//! Locks: revoking, conflicts, what goes together, and versions.

ghost use Rattle.cases_rules.specs.LockCases.{RevokedAndRefused, LostUntilLeft, AppendsInside, AppendsAcross, ClockEnds, OwnLockInTheWay, GrantedAgain};

/// A lock of lower priority is revoked, and one of equal priority refuses.
pub fn lower_is_revoked_and_equal_refuses()
    ensures { RevokedAndRefused }
{}

/// What a revoked lock held is gone, and its member gets no lock there until it has left it.
pub fn lost_until_left()
    ensures { LostUntilLeft }
{}

/// An appending lock goes with a replacing one that contains it.
pub fn append_inside_replace()
    ensures { AppendsInside }
{}

/// An appending lock goes with no replacing one that it reaches out of.
pub fn append_across_replace()
    ensures { AppendsAcross }
{}

/// After the last instant there is no version for a lock but an appending one, and no bucket.
pub fn clock_ends()
    ensures { ClockEnds }
{}

/// A task's own lock can be in its way, and a wider one of the kind is joined.
pub fn own_lock_in_the_way()
    ensures { OwnLockInTheWay }
{}

/// A lock that the task holds already is granted again, and sets the clock.
pub fn granted_again()
    ensures { GrantedAgain }
{}
