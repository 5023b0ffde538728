use crate::OutOfMemory;
use book_rows::Table;

/// Why requests for locks aren't granted.
#[derive(Clone, Copy, Debug, PartialEq, Eq)]
pub enum LockFault {
    /// The task is a member of this revoked lock, which overlaps the span; it is the least one.
    Revoked(u64),
    /// This valid lock is in the way, and its priority isn't lower; it is the least one.
    Conflict(u64),
    /// The last version is the last instant, and a new lock would need a later one.
    ClockEnd,
    /// There would be too many locks, or too great a lock number.
    Full(Table),
    /// Memory ran out.
    OutOfMemory,
}

impl From<OutOfMemory> for LockFault {
    ghost use Rattle.std.specs.Prelude.{◌≡◌};
    ghost use Rattle.lockbox.specs.declared.fault.LockFault.TheVariants.{OutOfMemory};

    ghost from_gives = { λ _ fault. fault ≡ OutOfMemory };

    fn from(_error: OutOfMemory) -> LockFault {
        LockFault::OutOfMemory
    }
}
