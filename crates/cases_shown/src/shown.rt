//! More worked cases of the laws: in each what a law asks for is there, and what it says is seen.

ghost use Rattle.cases_shown.specs.ShownCases.{AllInstants, AskingOfTheDay, CountedWhereDistinct, HourInTheDay, MemberAppends, NewPendingOfTheHour, PrintedAtInstants, PrintedInOrder, PublicationsOfTheHour, PutInTheHour, ReadInOrder, SeenInTheDay, TestsTellAnInstant};

/// Whether an instant is in the hour holds somewhere in the day, and not throughout it.
pub fn hour_in_the_day()
    ensures { HourInTheDay }
{}

/// A test that holds at all instants, and one that fails at one.
pub fn all_instants()
    ensures { AllInstants }
{}

/// Where a test of the rules fails, the counts differ at an instant.
pub fn tests_tell_an_instant()
    ensures { TestsTellAnInstant }
{}

/// A row is seen in the day until the day is replaced.
pub fn seen_in_the_day()
    ensures { SeenInTheDay }
{}

/// A root that was put and not taken away, and one that was taken away.
pub fn put_in_the_hour()
    ensures { PutInTheHour }
{}

/// Where no id is added twice a root is counted once; where one is, twice.
pub fn counted_where_distinct()
    ensures { CountedWhereDistinct }
{}

/// What is visible at instants of the printed parts, and beside them.
pub fn printed_at_instants()
    ensures { PrintedAtInstants }
{}

/// Ids in order, and parts that ascend and differ where they touch.
pub fn printed_in_order()
    ensures { PrintedInOrder }
{}

/// What is read stands in order, each once.
pub fn read_in_order()
    ensures { ReadInOrder }
{}

/// A task with a replacing lock is answered for the lock's whole span.
pub fn asking_of_the_day()
    ensures { AskingOfTheDay }
{}

/// Publications stand behind those that are there.
pub fn publications_of_the_hour()
    ensures { PublicationsOfTheHour }
{}

/// A new id is that of a new pending.
pub fn new_pending_of_the_hour()
    ensures { NewPendingOfTheHour }
{}

/// A member of the lock may append the pending's id; where another id stands beside it that isn't
/// allocated, that one is named.
pub fn member_appends()
    ensures { MemberAppends }
{}
