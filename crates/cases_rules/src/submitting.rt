//! Submitting: what a new task has, and that an id is taken for good.

ghost use Rattle.cases_rules.specs.SubmitCases.{DefaultPriorities, SubmittedWaits, SubmittedLast, IdIsTaken};

/// Each kind of task has its own priority, where none is named.
pub fn default_priorities()
    ensures { DefaultPriorities }
{}

/// A submitted task waits with all that it was given, and nothing else of the book changes.
pub fn submitted_waits()
    ensures { SubmittedWaits }
{}

/// Tasks stand in the order in which they were submitted, those that run or have ended too.
pub fn submitted_last()
    ensures { SubmittedLast }
{}

/// An id is taken for good, also by a task that has ended, and whatever else the new one has.
pub fn id_is_taken()
    ensures { IdIsTaken }
{}
