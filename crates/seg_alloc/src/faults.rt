//! Why an id isn't allocated.

use crate::OutOfMemory;
use book_rows::Table;
use seg_names::SegId;

/// Why there is no place for an instant.
#[derive(Debug, PartialEq, Eq, Drop)]
pub enum PlaceFault {
    /// This segment, of a greater version, overlaps the chunk that is visible at the instant; it is
    /// the first one.
    Cut(SegId),
    /// No bucket that has the instant is free.
    NoBucket,
    /// Memory ran out.
    OutOfMemory,
}

impl From<OutOfMemory> for PlaceFault {
    ghost use Rattle.std.specs.Prelude.{◌≡◌};
    ghost use Rattle.seg_alloc.specs.declared.faults.PlaceFault.TheVariants.{OutOfMemory};

    ghost from_gives = { λ _ fault. fault ≡ OutOfMemory };

    fn from(_error: OutOfMemory) -> PlaceFault {
        PlaceFault::OutOfMemory
    }
}

/// Why the id that a request is known by isn't answered.
#[derive(Debug, PartialEq, Eq, Drop)]
pub enum KnownFault {
    /// The id's span hasn't the instant, or its lock is of another type, group or priority.
    Mismatch(SegId),
    /// The task is a member of this revoked lock, which overlaps the id's span; it is the least one.
    Revoked(u64),
    /// Memory ran out.
    OutOfMemory,
}

impl From<OutOfMemory> for KnownFault {
    ghost use Rattle.std.specs.Prelude.{◌≡◌};
    ghost use Rattle.seg_alloc.specs.declared.faults.KnownFault.TheVariants.{OutOfMemory};

    ghost from_gives = { λ _ fault. fault ≡ OutOfMemory };

    fn from(_error: OutOfMemory) -> KnownFault {
        KnownFault::OutOfMemory
    }
}

/// Why a new id isn't added.
#[derive(Clone, Copy, Debug, PartialEq, Eq)]
pub enum AllotFault {
    /// There would be too many chunks or pendings, or the chunk has all its parts.
    Full(Table),
    /// Memory ran out.
    OutOfMemory,
}

impl From<OutOfMemory> for AllotFault {
    ghost use Rattle.std.specs.Prelude.{◌≡◌};
    ghost use Rattle.seg_alloc.specs.declared.faults.AllotFault.TheVariants.{OutOfMemory};

    ghost from_gives = { λ _ fault. fault ≡ OutOfMemory };

    fn from(_error: OutOfMemory) -> AllotFault {
        AllotFault::OutOfMemory
    }
}
