//! Worked cases of the laws: their premises can be met, and they tell right from wrong.

ghost use Rattle.cases_shown.specs.ShownDay.{AppendOfTheHour, CarriedOfTheDay, CountsOfTheDay, EndsOfAll, EndsOfTheDay, PendingOfTheHour, PrintedDay, TestsOfTheDay};

/// The ends within a day are its start and those of the hour.
pub fn ends_of_the_day()
    ensures { EndsOfTheDay }
{}

/// The ends of a day and of its hour, and an instant before both.
pub fn ends_of_all()
    ensures { EndsOfAll }
{}

/// The tests pass on a replacement, and fail without its copy or its upgrade row.
pub fn tests_of_the_day()
    ensures { TestsOfTheDay }
{}

/// A root is in the contents where it is counted once and shown once.
pub fn counts_of_the_day()
    ensures { CountsOfTheDay }
{}

/// The timeline and the contents after a replacement.
pub fn printed_day()
    ensures { PrintedDay }
{}

/// What was there before the lock is read, and what came since has an upgrade row.
pub fn carried_of_the_day()
    ensures { CarriedOfTheDay }
{}

/// An appended pending is shown in its span and not beside it.
pub fn append_of_the_hour()
    ensures { AppendOfTheHour }
{}

/// A pending waits until it is appended or its lock ends.
pub fn pending_of_the_hour()
    ensures { PendingOfTheHour }
{}
