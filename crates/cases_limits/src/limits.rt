//! Worked cases: what the laws suppose is met, and what they say is so.

ghost use Rattle.cases_limits.specs.LimitCases.{AllIsLimited, AllocatedIsLimited, AppendedIsLimited, EachKindIsLimited, FullDayHasRoom, LastPartHasRoom, MovedAreLimited, NumbersStayInRoom, OpenedAreLimited, ReplacedIsLimited, SupervisorIsLimited, TasksStayInRoom};

/// A lock gets the last number there is, and the next one none.
pub fn numbers_stay_in_room()
    ensures { NumbersStayInRoom }
{}

/// Where numbers are too great already, a task is added still, and the tasks stay in room.
pub fn tasks_stay_in_room()
    ensures { TasksStayInRoom }
{}

/// A chunk gives the last part there is, and then none; no table is too full before and after.
pub fn last_part_has_room()
    ensures { LastPartHasRoom }
{}

/// After commands that put rows into every table none is too full.
pub fn full_day_has_room()
    ensures { FullDayHasRoom }
{}

/// A publication of each kind that a command adds to a sound book is within its limits.
pub fn each_kind_is_limited()
    ensures { EachKindIsLimited }
{}

/// So is a supervisor.
pub fn supervisor_is_limited()
    ensures { SupervisorIsLimited }
{}

/// So are a chunk and a pending of an allocation.
pub fn allocated_is_limited()
    ensures { AllocatedIsLimited }
{}

/// So are a segment and an upgrade row of an append.
pub fn appended_is_limited()
    ensures { AppendedIsLimited }
{}

/// So are a chunk, its segments and a copied pending of a replace.
pub fn replaced_is_limited()
    ensures { ReplacedIsLimited }
{}

/// So are the sequences that a tick opens.
pub fn opened_are_limited()
    ensures { OpenedAreLimited }
{}

/// Sequences of reached books that pause, close, are published or abandoned stay within their limits.
pub fn moved_are_limited()
    ensures { MovedAreLimited }
{}

/// An append leads from a sound book to one in which all these tables have room and keep their limits.
pub fn all_is_limited()
    ensures { AllIsLimited }
{}
