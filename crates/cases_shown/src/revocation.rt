//! Worked cases of the laws: in each the premises are met, and what the law says is seen.

ghost use Rattle.cases_shown.specs.RevocationCases.{AppendIsLost, AppendUnderLock, CopyIsGivenOnce, IdIsGivenOnce, InsertIsLost, KnownIdIsLost, LockComesAndGoes, LockIsLost, NewIdIsLost, PendingComesAndGoes, ReplaceIsLost, SpansUnderLocks, VersionIsLost};
ghost use Rattle.cases_shown.specs.IdCases.{ChunkGoesOn, DroppedRowWasThere, GivenIdIsInsertedByNone, KnownIdIsAnswered, LostCopyIsPutByNone, LostIdIsNowhere, LostIdIsPutByNone};
ghost use Rattle.cases_shown.specs.LockCases.{IdsUnderLocks, LeastIsNamed, LockIsRevokedForGood, NumberIsOver, SoundBookWithPendings, ToReplaceIsLost};

/// A lock is revoked by the command that makes another, goes with its member, and no later lock gets
/// its number.
pub fn lock_comes_and_goes()
    ensures { LockComesAndGoes }
{}

/// Its pending goes by the command that revokes it.
pub fn pending_comes_and_goes()
    ensures { PendingComesAndGoes }
{}

/// An id that is lost is given still, and the next one has the next part.
pub fn id_is_given_once()
    ensures { IdIsGivenOnce }
{}

/// A copy goes with its root, and its id is given once too.
pub fn copy_is_given_once()
    ensures { CopyIsGivenOnce }
{}

/// A task that lost a lock gets none there.
pub fn lock_is_lost()
    ensures { LockIsLost }
{}

/// Nor a new id.
pub fn new_id_is_lost()
    ensures { NewIdIsLost }
{}

/// Nor one that is known, of a lock that it has still.
pub fn known_id_is_lost()
    ensures { KnownIdIsLost }
{}

/// Its insert into a span that it has still and one that it lost is refused for the second.
pub fn insert_is_lost()
    ensures { InsertIsLost }
{}

/// So is its replacement.
pub fn replace_is_lost()
    ensures { ReplaceIsLost }
{}

/// Its append of an id that it has still and of one that it lost is refused for the second.
pub fn append_is_lost()
    ensures { AppendIsLost }
{}

/// An append publishes under the lock of its pending, until that is revoked.
pub fn append_under_lock()
    ensures { AppendUnderLock }
{}

/// An id of the lost lock's version is inserted by nobody, and one of the valid lock's is.
pub fn version_is_lost()
    ensures { VersionIsLost }
{}

/// An insert and a replacement publish under the locks of their spans.
pub fn spans_under_locks()
    ensures { SpansUnderLocks }
{}

/// A sound book in which an id and its copy wait: the numbers of its locks, whose pendings they are,
/// and that both ids were given.
pub fn sound_book_with_pendings()
    ensures { SoundBookWithPendings }
{}

/// A lock that is revoked is there as it was, and stays revoked.
pub fn lock_is_revoked_for_good()
    ensures { LockIsRevokedForGood }
{}

/// Its number is over from then on, also where it is gone, and nothing is published under it.
pub fn number_is_over()
    ensures { NumberIsOver }
{}

/// The ids of an insert and of a replacement are of the versions of their locks.
pub fn ids_under_locks()
    ensures { IdsUnderLocks }
{}

/// A task that lost a lock isn't answered what a replacement there has to read.
pub fn to_replace_is_lost()
    ensures { ToReplaceIsLost }
{}

/// Where it lost two locks, the least that overlaps the span is named.
pub fn least_is_named()
    ensures { LeastIsNamed }
{}

/// A chunk's row stays, and its next part grows.
pub fn chunk_goes_on()
    ensures { ChunkGoesOn }
{}

/// An id that is known is answered again, by the pending that was there.
pub fn known_id_is_answered()
    ensures { KnownIdIsAnswered }
{}

/// An id of a lost lock isn't answered again; an append, inserts and a replacement of it are refused.
pub fn lost_id_is_put_by_none()
    ensures { LostIdIsPutByNone }
{}

/// After its lock was taken, and after an insert of another id, no row has it or is a copy of it, and
/// no publication lists it.
pub fn lost_id_is_nowhere()
    ensures { LostIdIsNowhere }
{}

/// A lost copy isn't put either by the task whose lock has its version: there is a chunk of that.
pub fn lost_copy_is_put_by_none()
    ensures { LostCopyIsPutByNone }
{}

/// An id that was inserted is inserted no more, alone as a repeat, and with another one as one whose
/// version is used.
pub fn given_id_is_inserted_by_none()
    ensures { GivenIdIsInsertedByNone }
{}

/// After a drop the row of an id is the one that was there, no longer used.
pub fn dropped_row_was_there()
    ensures { DroppedRowWasThere }
{}
