//! Why a run stops.
ghost use Rattle.std.specs.Prelude.{◌≡◌};
ghost use Rattle.machine_run.specs.declared.stop.Stop.TheVariants.{StoreFault, NoMemory as MemoryStop};

use host_desk::{Failed, OutOfMemory};

/// Why a run ended before its input did.
#[derive(Clone, Copy, Debug, PartialEq, Eq)]
pub enum Stop {
    /// A call on the files failed.
    StoreFault,
    /// The files aren't a store: a file and the place of its first fault in bytes.
    StoreCorrupt { file: usize, at: u64 },
    /// A read of the source failed.
    InputFault,
    /// A reply could not be put out.
    OutputFault,
    /// No memory was left.
    NoMemory,
    /// With the next record the log would be longer than its limit. The length is the log's, up to its closed gate and
    /// with it; 0 where the store was to be made.
    StoreFull { length: u64 },
    /// As much of the source was read as may be, and its end wasn't seen.
    InputTooLong,
}

/// How long a log may be, and how many items are stored at a time.
#[derive(Clone, Copy, Debug, PartialEq, Eq)]
pub struct Bounds {
    /// The bytes that a log may have, up to its closed gate and with it.
    pub log: u64,
    /// The items of a batch, at the most; at least 1.
    pub batch: u64,
}

// A call on the files failed. Where a reply can't be put out the caller says so itself.
impl From<Failed> for Stop {
    ghost from_gives = { λ _ stop. stop ≡ StoreFault };

    fn from(_: Failed) -> Stop {
        Stop::StoreFault
    }
}

impl From<OutOfMemory> for Stop {
    ghost from_gives = { λ _ stop. stop ≡ MemoryStop };

    fn from(_: OutOfMemory) -> Stop {
        Stop::NoMemory
    }
}
