//! What a replacement has to read.

ghost use Rattle.cases_rules.specs.AskedCases.{OnlyReplacingAsks, AskingLeavesBook, RootsOfCopies, HiddenIsNotAsked, HourOfDayIsReplaced, HiddenInItsOwnSpan, NothingIsAsked, AskedSinceTheStart, MembersAskAlike};

/// Only a running task with a replacing lock asks.
pub fn only_replacing_asks()
    ensures { OnlyReplacingAsks }
{}

/// Asking changes nothing.
pub fn asking_leaves_book()
    ensures { AskingLeavesBook }
{}

/// Of a copy its root is asked for, and nothing of what the lock itself published.
pub fn roots_of_copies()
    ensures { RootsOfCopies }
{}

/// What is hidden within the lock's span isn't asked for.
pub fn hidden_is_not_asked()
    ensures { HiddenIsNotAsked }
{}

/// A day that shows in the lock's hour is asked for, and its other hours stay.
pub fn hour_of_day_is_replaced()
    ensures { HourOfDayIsReplaced }
{}

/// A root that is hidden in its own span isn't asked for.
pub fn hidden_in_its_own_span()
    ensures { HiddenInItsOwnSpan }
{}

/// Of a tombstone nothing is asked for.
pub fn nothing_is_asked()
    ensures { NothingIsAsked }
{}

/// A lock that came when the task started counts from then.
pub fn asked_since_the_start()
    ensures { AskedSinceTheStart }
{}

/// A task that joins the lock asks and replaces like the one that made it.
pub fn members_ask_alike()
    ensures { MembersAskAlike }
{}
