//! What each small change of a book keeps: the rules on chunks, pendings, upgrade rows and what is shown.

ghost use Rattle.laws_chunks.specs.Appending.{AppendKeeps};
ghost use Rattle.laws_chunks.specs.ChunksSound.{SoundHasSoundChunks};
ghost use Rattle.laws_chunks.specs.Covering.{InsertKeeps, ReplaceKeeps};
ghost use Rattle.laws_chunks.specs.Dropping.{DropKeeps};
ghost use Rattle.laws_chunks.specs.Growing.{PushKeeps};
ghost use Rattle.laws_chunks.specs.LockMoves.{GrantKeeps, JoinKeeps, LeaveKeeps, RevokeKeeps};
ghost use Rattle.laws_chunks.specs.Openings.{AllotmentKeeps, ChunkKeeps};
ghost use Rattle.laws_chunks.specs.OtherTables.{OthersKeep};
ghost use Rattle.laws_chunks.specs.RowOrder.{RemovedAreUnused, SameUsedKeeps};

/// The rules on chunks, and the part of the shape that they need, hold of a sound book.
pub fn sound_has_sound_chunks()
    ensures { SoundHasSoundChunks }
{}

/// Revoking locks, whichever, with what they hold, keeps the rules.
pub fn revoke_keeps()
    ensures { RevokeKeeps }
{}

/// A task that leaves a lock, which ends where it was the last member, keeps the rules.
pub fn leave_keeps()
    ensures { LeaveKeeps }
{}

/// A task that joins locks keeps the rules.
pub fn join_keeps()
    ensures { JoinKeeps }
{}

/// Granting a lock that goes with each valid one, with the next number and a new version (or 0 for an appending one),
/// keeps the rules.
pub fn grant_keeps()
    ensures { GrantKeeps }
{}

/// A new chunk without core, of version 0 or of the version of a valid lock, not a replacing one, that contains it,
/// keeps the rules.
pub fn chunk_keeps()
    ensures { ChunkKeeps }
{}

/// A root pending at an open place, with the next part of its chunk, under a valid lock of its source that contains its
/// span, keeps the rules.
pub fn allotment_keeps()
    ensures { AllotmentKeeps }
{}

/// A publication without ids, tombstones and spans keeps the rules.
pub fn push_keeps()
    ensures { PushKeeps }
{}

/// Appending one root pending, with its copies and its upgrade row, keeps the rules, where no valid lock is newer than
/// the publication.
pub fn append_keeps()
    ensures { AppendKeeps }
{}

/// Inserting one span, with its ids or its tombstone, keeps the rules, under a valid exclusive lock that has no chunk
/// there, where no pending is.
pub fn insert_keeps()
    ensures { InsertKeeps }
{}

/// Replacing one span, with the copies that it carries, keeps the rules, under a valid replacing lock that has no chunk
/// there, where what meets the span lies within it.
pub fn replace_keeps()
    ensures { ReplaceKeeps }
{}

/// Dropping a span that no valid lock overlaps and that cuts no used segment keeps the rules.
pub fn drop_keeps()
    ensures { DropKeeps }
{}

/// Putting segments in another order, or removing unused ones, keeps the rules.
pub fn same_used_keeps()
    ensures { SameUsedKeeps }
{}

/// Removing unused segments leaves the used ones.
pub fn removed_are_unused()
    ensures { RemovedAreUnused }
{}

/// Changes of the clock, tasks, offsets, supervisors and sequences keep the rules.
pub fn others_keep()
    ensures { OthersKeep }
{}
