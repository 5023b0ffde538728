//! Why bytes gave no book.
ghost use Rattle.std.specs.Prelude.{◌≡◌};
ghost use Rattle.snap_codec.specs.declared.fault.ReadFault.TheVariants.{OutOfMemory};

use crate::OutOfMemory;
use std::alloc::AllocFailed;

// Why nothing was read.
#[derive(Clone, Copy)]
pub enum ReadFault {
    // A field doesn't read. So many bytes are left from its first on.
    Bad { left: usize },
    // Memory ran out.
    OutOfMemory,
}

impl From<OutOfMemory> for ReadFault {
    ghost from_gives = { λ _ e. e ≡ OutOfMemory };

    fn from(_e: OutOfMemory) -> ReadFault {
        ReadFault::OutOfMemory
    }
}

impl<T: Drop> From<AllocFailed<T>> for ReadFault {
    ghost from_gives = { λ _ e. e ≡ OutOfMemory };

    fn from(_e: AllocFailed<T>) -> ReadFault {
        ReadFault::OutOfMemory
    }
}

/// Why bytes gave no book.
#[derive(Clone, Copy, Debug, PartialEq, Eq)]
pub enum SnapFault {
    /// They are no book's. `at` is the place of the first field that doesn't read, as the number
    /// of bytes before it, or the length of the book's bytes where more bytes follow them.
    BadSnapshot { at: usize },
    /// Memory ran out.
    OutOfMemory,
}
