// Why a call on a log fails.
ghost use Rattle.std.specs.Prelude.{◌≡◌};
ghost use Rattle.gate_log.specs.declared.fault.LogFault.TheVariants.{Failed as DeviceFailed, OutOfMemory as NoMemory};

use host_desk::Failed;
use std::alloc::{AllocError, AllocFailed};

/// No memory was left.
pub type OutOfMemory = AllocError;

/// Why a call on a log answers an error.
#[derive(Clone, Copy, Debug, PartialEq, Eq)]
pub enum LogFault {
    /// A call on the host failed.
    Failed,
    /// The file isn't a log: its header or a record is wrong at this byte.
    Corrupt { at: u64 },
    /// There is no log in the file.
    Absent,
    /// A log of this length has no room for what was to be added within its limit. It is 0 for a file to be made.
    Full { length: u64 },
    /// No memory was left.
    OutOfMemory,
}

impl From<Failed> for LogFault {
    ghost from_gives = { λ _ e. e ≡ DeviceFailed };

    fn from(_: Failed) -> Self {
        LogFault::Failed
    }
}

impl From<AllocError> for LogFault {
    ghost from_gives = { λ _ e. e ≡ NoMemory };

    fn from(_: AllocError) -> Self {
        LogFault::OutOfMemory
    }
}

impl<T: Drop> From<AllocFailed<T>> for LogFault {
    ghost from_gives = { λ _ e. e ≡ NoMemory };

    fn from(_: AllocFailed<T>) -> Self {
        LogFault::OutOfMemory
    }
}
