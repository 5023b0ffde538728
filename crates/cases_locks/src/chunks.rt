//! Worked cases: in each the premises of some laws are met, and what the laws say is seen.

ghost use Rattle.cases_locks.specs.Day.{DayIsDone, PremisesAreMet};
ghost use Rattle.cases_locks.specs.LockCases.{LocksAreGained, LocksAreLost, OthersAreChanged};
ghost use Rattle.cases_locks.specs.PlaceCases.{AnIdIsAllocated, IdsAreAllotted, PlacesAreOpen, PlacesStayOpen};
ghost use Rattle.cases_locks.specs.PublishCases.{AppendsAreDone, InsertsAreDone, ReplacesAreDone, RowsAreGone};
ghost use Rattle.cases_locks.specs.MeaningCases.{RootsAreCarried, RootsAreCounted, RootsAreShown, TextsAreMet, UnderIsSound};

/// A worked day: its append leaves an upgrade row, its replacement copies that and a pending, and its drop leaves no
/// used segment.
pub fn day_is_done()
    ensures { DayIsDone }
{}

/// In the books of that day the premises of an append with an upgrade row, of a replacement with copies and of a drop
/// with rows are met.
pub fn premises_are_met()
    ensures { PremisesAreMet }
{}

/// Locks are revoked and left: their pendings and upgrade rows go with them.
pub fn locks_are_lost()
    ensures { LocksAreLost }
{}

/// A lock is joined, one is granted beside others, and requests of a higher priority are granted, which revoke both
/// locks.
pub fn locks_are_gained()
    ensures { LocksAreGained }
{}

/// The clock and the tasks change, and the rules hold on.
pub fn others_are_changed()
    ensures { OthersAreChanged }
{}

/// An id's place is open in each of three ways: by a used segment, by a pending, and in a bucket.
pub fn places_are_open()
    ensures { PlacesAreOpen }
{}

/// An open place stays open where locks are revoked, joined and granted.
pub fn places_stay_open()
    ensures { PlacesStayOpen }
{}

/// A chunk and a pending come; and ids are allocated, one at an open place and one in a span that nothing live
/// meets.
pub fn ids_are_allotted()
    ensures { IdsAreAllotted }
{}

/// A granted allocation in the chunk of a used segment, with a lock that the task holds.
pub fn an_id_is_allocated()
    ensures { AnIdIsAllocated }
{}

/// A publication begins and grows by a root with its upgrade row; and a whole append of two roots.
pub fn appends_are_done()
    ensures { AppendsAreDone }
{}

/// One span is inserted; and a whole insert of an id and a tombstone, which its check lets through.
pub fn inserts_are_done()
    ensures { InsertsAreDone }
{}

/// One span is replaced with copies; and the whole replacement, which its check lets through, as a command too.
pub fn replaces_are_done()
    ensures { ReplacesAreDone }
{}

/// Segments stand in another order; a drop leaves no used one; and the unused ones are removed beside a used one.
pub fn rows_are_gone()
    ensures { RowsAreGone }
{}

/// A root is counted where it is put: twice where it is added twice, once where it is added once, and not where a drop
/// took it away.
pub fn roots_are_counted()
    ensures { RootsAreCounted }
{}

/// A replaced root is shown by its copy alone, and is of the contents.
pub fn roots_are_shown()
    ensures { RootsAreShown }
{}

/// A book with locks, a segment, a pending and an upgrade row is sound by all rules, and shows the root that it contains.
pub fn under_is_sound()
    ensures { UnderIsSound }
{}

/// What was appended under a replacing lock is carried, and what is only pending isn't.
pub fn roots_are_carried()
    ensures { RootsAreCarried }
{}

/// The rules on live chunks hold of a book, said of ids and said of rows.
pub fn texts_are_met()
    ensures { TextsAreMet }
{}
