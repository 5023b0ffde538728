//! Which locks go together: each type with each, on one span, on spans that meet in part or not at all, and in two sources.

ghost use Rattle.cases_rules.specs.CompatibleCases.{PairByPair, DayAndHour, ReplaceAroundAppend, AppendToTheEdges, LocksTouch, TwoSources};

/// An exclusive lock goes with none, a shared one with a shared one, an appending one with a replacing and an appending one, a replacing one with an appending one.
pub fn pair_by_pair()
    ensures { PairByPair }
{}

/// A day and an hour of it meet as one span does: exclusive, shared and replacing locks, in both orders.
pub fn day_and_hour()
    ensures { DayAndHour }
{}

/// A replacing lock comes around an appending one; where the appending one reaches out of it they don't go together, in either order.
pub fn replace_around_append()
    ensures { ReplaceAroundAppend }
{}

/// An appending lock may end or begin where the replacing one does, and reaches no further.
pub fn append_to_the_edges()
    ensures { AppendToTheEdges }
{}

/// Locks go together where one begins as the other ends, and one shared millisecond is enough for a conflict, at the start and at the end.
pub fn locks_touch()
    ensures { LocksTouch }
{}

/// Locks of two sources never meet.
pub fn two_sources()
    ensures { TwoSources }
{}
