//! What is shown.

ghost use Rattle.cases_rules.specs.ShownCases.{ShowingLeavesBook, TasksOfEachStatus, LocksAndMembers, IdsByPart, TouchingChunks, HiddenHourCutsNothing, SourcesAreApart};

/// The empty book shows nothing, and showing changes nothing.
pub fn showing_leaves_book()
    ensures { ShowingLeavesBook }
{}

/// Tasks are shown in the order in which they were submitted.
pub fn tasks_of_each_status()
    ensures { TasksOfEachStatus }
{}

/// Locks are shown by number with their members, revoked ones too.
pub fn locks_and_members()
    ensures { LocksAndMembers }
{}

/// The timeline has the ids of a chunk by part.
pub fn ids_by_part()
    ensures { IdsByPart }
{}

/// Chunks that touch are parts of their own.
pub fn touching_chunks()
    ensures { TouchingChunks }
{}

/// Pieces that touch and agree are joined.
pub fn hidden_hour_cuts_nothing()
    ensures { HiddenHourCutsNothing }
{}

/// Each source has a timeline and contents of its own.
pub fn sources_are_apart()
    ensures { SourcesAreApart }
{}
