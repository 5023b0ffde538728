//! Worked cases of the law: an id from its allocation on, and one whose lock has ended.

ghost use Rattle.cases_shown.specs.AllocatedCases.{AllocatedDay, LostDay};

/// An id from its allocation to what is shown.
pub fn allocated_day()
    ensures { AllocatedDay }
{}

/// An id whose lock has ended.
pub fn lost_day()
    ensures { LostDay }
{}
