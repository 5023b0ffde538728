//! Rules on locks, live chunks and what stands under them.

ghost use Rattle.cases_unsound.specs.ChunkCases.{ChunksOfOneVersion, ChunksUnderLocks, CopiesOfPendings, CoresOfChunks, CoresOfShared, CoresOfUpperChunks, LocksInConflict, LocksOfUpgrades, RootsOfPendings};

/// Two valid locks that aren't compatible.
pub fn locks_in_conflict()
    ensures { LocksInConflict }
{}

/// Two live chunks of one version that overlap.
pub fn chunks_of_one_version()
    ensures { ChunksOfOneVersion }
{}

/// A live chunk above a lock that it overlaps.
pub fn chunks_under_locks()
    ensures { ChunksUnderLocks }
{}

/// Pendings of another root or lock, and copies in chunks that can't have them.
pub fn roots_of_pendings()
    ensures { RootsOfPendings }
{}

/// Upgrade rows of a lock that they can't be of.
pub fn locks_of_upgrades()
    ensures { LocksOfUpgrades }
{}

/// Cores of which a part is missing, and cores that their locks don't allow.
pub fn cores_of_chunks()
    ensures { CoresOfChunks }
{}

/// Chunks of shared locks: with a core, and beside the lock.
pub fn cores_of_shared()
    ensures { CoresOfShared }
{}

/// An upper chunk with one copy of a pending, none, and two.
pub fn copies_of_pendings()
    ensures { CopiesOfPendings }
{}

/// An upper chunk without a core.
pub fn cores_of_upper_chunks()
    ensures { CoresOfUpperChunks }
{}
