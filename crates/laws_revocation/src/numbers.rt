//! Numbers of locks: each is given once, and a lock that is revoked is revoked until it is gone.

ghost use Rattle.laws_revocation.specs.LockNumbers.{LocksGoOn, NumbersGivenOnce, OverStays, ReachedHasNumbers, RevokedForGood, RevokedIsOver, SoundHasNumbers};

/// In a sound book no two locks have one number, and each number is below the next one.
pub fn sound_has_numbers()
    ensures { SoundHasNumbers }
{}

/// So it is in each book that any commands reach from the one without rows.
pub fn reached_has_numbers()
    ensures { ReachedHasNumbers }
{}

/// Each lock after any commands was there before them, the same but for its members and for being
/// revoked since, or has a number that wasn't given before them.
pub fn locks_go_on()
    ensures { LocksGoOn }
{}

/// After any commands the lock of a revoked lock's number is that lock still, and revoked.
pub fn revoked_for_good()
    ensures { RevokedForGood }
{}

/// A number that was given, and that no lock has any more, is given to none after any commands.
pub fn numbers_given_once()
    ensures { NumbersGivenOnce }
{}

/// The number of a revoked lock is over: it was given, and no valid lock has it.
pub fn revoked_is_over()
    ensures { RevokedIsOver }
{}

/// A number that is over is over after any commands.
pub fn over_stays()
    ensures { OverStays }
{}
