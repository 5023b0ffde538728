//! The shape: keys, versions, members, chunks of ids, commits and roots.

ghost use Rattle.cases_unsound.specs.KeyCases.{ChunksOfIds, CommitsToCome, IdsOnce, KeysOfChunksAndIds, KeysOfRequests, KeysOfStreams, KeysOfTasksAndLocks, MembersOfLocks, RootsOfSegments, TombstonesOfPublications, VersionsOfRows};

/// Two tasks of one id, locks of one number or out of order, and a number that isn't given yet.
pub fn keys_of_tasks_and_locks()
    ensures { KeysOfTasksAndLocks }
{}

/// Two chunks, ids or upgrade rows that are one.
pub fn keys_of_chunks_and_ids()
    ensures { KeysOfChunksAndIds }
{}

/// Offsets out of order, and two supervisors or sequences that are one.
pub fn keys_of_streams()
    ensures { KeysOfStreams }
{}

/// Two root pendings of one request.
pub fn keys_of_requests()
    ensures { KeysOfRequests }
{}

/// An id that is added twice, is still pending, or is a tombstone too.
pub fn ids_once()
    ensures { IdsOnce }
{}

/// Versions above the last one, of the wrong type of lock, and of two locks.
pub fn versions_of_rows()
    ensures { VersionsOfRows }
{}

/// Members that aren't running tasks of the lock's group, source and priority.
pub fn members_of_locks()
    ensures { MembersOfLocks }
{}

/// Ids without a chunk row with a greater next part.
pub fn chunks_of_ids()
    ensures { ChunksOfIds }
{}

/// Publications that aren't there.
pub fn commits_to_come()
    ensures { CommitsToCome }
{}

/// Tombstones that aren't one of their publication's.
pub fn tombstones_of_publications()
    ensures { TombstonesOfPublications }
{}

/// Roots that no publication up to the row's own added.
pub fn roots_of_segments()
    ensures { RootsOfSegments }
{}
