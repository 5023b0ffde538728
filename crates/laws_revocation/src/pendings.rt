//! Pendings are of valid locks: those of a lock that is revoked or ends go with it.

ghost use Rattle.laws_revocation.specs.HeldPendings.{EndingTakesPendings, HeldPendingsStay, NoPendingComes, ReachedHasHeldPendings, RevokingTakesPendings, SoundHasHeldPendings};

/// In a sound book each pending is of a valid lock.
pub fn sound_has_held_pendings()
    ensures { SoundHasHeldPendings }
{}

/// So it is in each book that any commands reach from the one without rows.
pub fn reached_has_held_pendings()
    ensures { ReachedHasHeldPendings }
{}

/// Any commands keep that each pending is of a valid lock.
pub fn held_pendings_stay()
    ensures { HeldPendingsStay }
{}

/// After the command by which a lock is revoked no pending is of its number.
pub fn revoking_takes_pendings()
    ensures { RevokingTakesPendings }
{}

/// Nor after the command by which it ends.
pub fn ending_takes_pendings()
    ensures { EndingTakesPendings }
{}

/// After any commands no pending is of the number of a lock that was revoked or gone before them.
pub fn no_pending_comes()
    ensures { NoPendingComes }
{}
