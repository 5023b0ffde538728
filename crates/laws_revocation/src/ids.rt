//! Ids are given once: what was allocated under a lock that is revoked is allocated no more, and comes into no segment.

ghost use Rattle.laws_revocation.specs.GivenIds.{AllocateAnswers, AllocatedOnce, ChunksGoOn, GivenIdsComeNoMore, GivenPendingsStay, GivenStays, NextPartsGrow, ReachedHasGivenPendings, SoundHasGivenPendings};
ghost use Rattle.laws_revocation.specs.LostIds.{GivenIdsAreInsertedByNone, GivenIdsArePutByNone, GivenIdsArePutNoMore, LostIdsAreLost, LostPendingsAreNowhere, ReachedLostPendingsAreNowhere};

/// After any commands each chunk row is there, with a next part that isn't less.
pub fn chunks_go_on()
    ensures { ChunksGoOn }
{}

/// The next part of an id's chunk never falls.
pub fn next_parts_grow()
    ensures { NextPartsGrow }
{}

/// So an id that was given is given after any commands.
pub fn given_stays()
    ensures { GivenStays }
{}

/// In a sound book each pending's id was given, and no two pendings have one id.
pub fn sound_has_given_pendings()
    ensures { SoundHasGivenPendings }
{}

/// Commands that keep their form keep that each pending's id was given, and that no two pendings
/// have one id, where locks have numbers of their own.
pub fn given_pendings_stay()
    ensures { GivenPendingsStay }
{}

/// So it is in each book that such commands reach from the one without rows.
pub fn reached_has_given_pendings()
    ensures { ReachedHasGivenPendings }
{}

/// A pending whose id was given before such commands was a pending before them.
pub fn given_ids_come_no_more()
    ensures { GivenIdsComeNoMore }
{}

/// What allocate answers is the id and the lock of a pending after it: one that was there before, or
/// one of an id that wasn't given before.
pub fn allocate_answers()
    ensures { AllocateAnswers }
{}

/// An id that was given, and that no pending has any more, is no pending's again, and is answered by
/// no allocate, after any commands that keep their form.
pub fn allocated_once()
    ensures { AllocatedOnce }
{}

/// Where locks have numbers of their own, no insert and no replacement that keeps its form, with an id
/// that was given among its ids or tombstones, changes the book.
pub fn given_ids_are_inserted_by_none()
    ensures { GivenIdsAreInsertedByNone }
{}

/// There, after a command that keeps its form, each segment of an id that was given and that no
/// pending had, and each publication that lists it, was there before, the segment the same but for
/// being used.
pub fn given_ids_are_put_by_none()
    ensures { GivenIdsArePutByNone }
{}

/// So it is over any such commands.
pub fn given_ids_are_put_no_more()
    ensures { GivenIdsArePutNoMore }
{}

/// In a sound book, by commands that keep their form: once the lock of a pending is revoked or gone, no
/// pending has its id, no allocate answers it, and no append of it changes the book, nor does an insert
/// or a replacement that keeps its form and lists it. After such a command each segment of it, and each
/// publication that lists it, was there before.
pub fn lost_ids_are_lost()
    ensures { LostIdsAreLost }
{}

/// In a sound book: where a command that keeps its form revokes or ends a lock, the id of each of the
/// lock's pendings is nowhere after it and after any such commands: no segment has it or is a copy of
/// it, and no publication lists it.
pub fn lost_pendings_are_nowhere()
    ensures { LostPendingsAreNowhere }
{}

/// So it is from the book without rows on.
pub fn reached_lost_pendings_are_nowhere()
    ensures { ReachedLostPendingsAreNowhere }
{}
