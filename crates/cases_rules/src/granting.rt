//! How a request for a lock is decided: a lost lock, one to join, one in the way, those revoked, and the version.

ghost use Rattle.cases_rules.specs.GrantCases.{LeastLostIsTold, LostOnlyThere, LostBeforeJoining, LeastIsJoined, OnlyLikeIsJoined, NotJoined, LeastNotLower, AllLowerRevoked, OnlyInTheWayRevoked, PriorityDecides};

/// The least revoked lock of the task that overlaps the span is told, whatever type is asked for; where none does, the lock in the way is told.
pub fn least_lost_is_told()
    ensures { LeastLostIsTold }
{}

/// A lost lock stands in the way of its members alone, and only where it was.
pub fn lost_only_there()
    ensures { LostOnlyThere }
{}

/// The lost lock is told before a lock is joined; once it is left, the other is joined.
pub fn lost_before_joining()
    ensures { LostBeforeJoining }
{}

/// The least lock that contains the span is joined, by who isn't a member yet.
pub fn least_is_joined()
    ensures { LeastIsJoined }
{}

/// A lock of another group or priority isn't joined, though it goes with the new one.
pub fn only_like_is_joined()
    ensures { OnlyLikeIsJoined }
{}

/// A lock of another type or of a narrower span isn't joined: it goes with the new one, or is in its way.
pub fn not_joined()
    ensures { NotJoined }
{}

/// Where one lock in the way isn't lower, the least such is told, and the lower ones stay.
pub fn least_not_lower()
    ensures { LeastNotLower }
{}

/// Where all are lower, all are revoked, and told in ascending order.
pub fn all_lower_revoked()
    ensures { AllLowerRevoked }
{}

/// A lower lock that goes with the new one isn't revoked.
pub fn only_in_the_way_revoked()
    ensures { OnlyInTheWayRevoked }
{}

/// One point of priority decides, and an equal one refuses, also within a group.
pub fn priority_decides()
    ensures { PriorityDecides }
{}
