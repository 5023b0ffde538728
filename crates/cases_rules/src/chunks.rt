//! Chunks that ids go into: by visibility, by pendings, by the version of the lock; their parts and rows.

ghost use Rattle.cases_rules.specs.ChunkCases.{VisibleEdges, FirstCutIsTold, CutBeforeLock, VisibleBeforePending, PendingEdges, IntoOthersChunk, FirstPendingsChunk, VersionOfLock, NoVersionNoId, AllocatedRows, RefusedMakesNoChunk, PartsEnd};

/// A used segment gives its chunk from its start up to its end.
pub fn visible_edges()
    ensures { VisibleEdges }
{}

/// Of the segments that cut a chunk the first in the order of rows is told, and the greater chunks are whole.
pub fn first_cut_is_told()
    ensures { FirstCutIsTold }
{}

/// A cut chunk is told before a lock in the way and before a lost one.
pub fn cut_before_lock()
    ensures { CutBeforeLock }
{}

/// A replacement is visible before the pending under it, which its request still has.
pub fn visible_before_pending()
    ensures { VisibleBeforePending }
{}

/// A pending gives its chunk from its start up to its end, whatever granularity is asked for.
pub fn pending_edges()
    ensures { PendingEdges }
{}

/// An id goes into the chunk of another task's pending, in a lock of its own.
pub fn into_others_chunk()
    ensures { IntoOthersChunk }
{}

/// Of two pendings that have the time the first in the order of rows gives its chunk.
pub fn first_pendings_chunk()
    ensures { FirstPendingsChunk }
{}

/// A new chunk has the version of the lock that is granted, also of a wider one that is joined, and of the clock where that is later.
pub fn version_of_lock()
    ensures { VersionOfLock }
{}

/// Where the versions have ended, an appending lock alone gives an id.
pub fn no_version_no_id()
    ensures { NoVersionNoId }
{}

/// The first id makes its chunk, without a core, and its pending; the next one moves the next part, remembers the previous id, and sets the clock.
pub fn allocated_rows()
    ensures { AllocatedRows }
{}

/// A refused allocation leaves no chunk and no lock behind.
pub fn refused_makes_no_chunk()
    ensures { RefusedMakesNoChunk }
{}

/// A chunk gives a million parts and no more; its full chunk doesn't send an id elsewhere.
pub fn parts_end()
    ensures { PartsEnd }
{}
