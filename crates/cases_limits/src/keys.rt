//! Worked cases: what the laws suppose is met, and what they say is so.

ghost use Rattle.cases_limits.specs.KeyCases.{CommitsAreBounded, CopiesAreNoRequests, EmptiedIsKeyed, IdsAreDistinct, IdsAreInChunks, NewLockCountsAll, RequestsAreDistinct, RootsArePublished, SecondIsDistinct, SequencesAreDistinct, SupervisorsAreDistinct, TombstonesAreInChunks, UpgradesAreDistinct};

/// After a replace each commit is below the number of publications, and no lock or span counts more.
pub fn commits_are_bounded()
    ensures { CommitsAreBounded }
{}

/// A new lock counts all publications.
pub fn new_lock_counts_all()
    ensures { NewLockCountsAll }
{}

/// An append adds an upgrade row of the same lock and of another root.
pub fn upgrades_are_distinct()
    ensures { UpgradesAreDistinct }
{}

/// Another sequence gets another pending, and the same one the pending that is there.
pub fn requests_are_distinct()
    ensures { RequestsAreDistinct }
{}

/// A copy is of its root's request, but no root pending itself.
pub fn copies_are_no_requests()
    ensures { CopiesAreNoRequests }
{}

/// After a replace the ids of segments and pendings and those that are added have their chunks.
pub fn ids_are_in_chunks()
    ensures { IdsAreInChunks }
{}

/// After a replacement by a tombstone so has the tombstone.
pub fn tombstones_are_in_chunks()
    ensures { TombstonesAreInChunks }
{}

/// After a replace no two segments or pendings have one id.
pub fn ids_are_distinct()
    ensures { IdsAreDistinct }
{}

/// A tombstone is its publication's, and an earlier publication adds the root of a copy.
pub fn roots_are_published()
    ensures { RootsArePublished }
{}

/// Another source gets a supervisor, and the same one no second.
pub fn supervisors_are_distinct()
    ensures { SupervisorsAreDistinct }
{}

/// A tick opens a sequence of each group, and the groups differ.
pub fn sequences_are_distinct()
    ensures { SequencesAreDistinct }
{}

/// Where the first sequence of a group of a reached book is closed, a tick opens one of the next index.
pub fn second_is_distinct()
    ensures { SecondIsDistinct }
{}

/// A replacement by a tombstone leads from a sound book to one of which all that the laws say of keys holds.
pub fn emptied_is_keyed()
    ensures { EmptiedIsKeyed }
{}
