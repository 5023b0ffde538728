//! Requests that are known: the same sequence and previous id again, what differs, and when they are forgotten.

ghost use Rattle.cases_rules.specs.RequestCases.{SequenceAndPrevious, WithinItsSpan, OtherTypeOrTask, SequenceOfSource, LostBeforeKnown, JoinsByAsking, ForgottenWhenAppended, ForgottenWhenRevoked, ForgottenWhenEnded};

/// A sequence and a previous id are known together, and no previous id is like none.
pub fn sequence_and_previous()
    ensures { SequenceAndPrevious }
{}

/// The granularity doesn't matter, and the time only in so far as the id's span has it.
pub fn within_its_span()
    ensures { WithinItsSpan }
{}

/// A request of another type, group or priority than the lock of the known id is refused.
pub fn other_type_or_task()
    ensures { OtherTypeOrTask }
{}

/// A sequence of another source is another one.
pub fn sequence_of_source()
    ensures { SequenceOfSource }
{}

/// A task that lost a lock there isn't given the known id until it has left that lock; a mismatch is told before.
pub fn lost_before_known()
    ensures { LostBeforeKnown }
{}

/// A task of the group that asks the same joins the lock, which sets the clock and makes no id; a member that asks again changes nothing.
pub fn joins_by_asking()
    ensures { JoinsByAsking }
{}

/// A sequence is forgotten once its id is appended: the next id has the next part.
pub fn forgotten_when_appended()
    ensures { ForgottenWhenAppended }
{}

/// A sequence is forgotten with its revoked lock, and its member gets no id there until it has left.
pub fn forgotten_when_revoked()
    ensures { ForgottenWhenRevoked }
{}

/// A sequence is forgotten with its task's end, and another group may use its name.
pub fn forgotten_when_ended()
    ensures { ForgottenWhenEnded }
{}
