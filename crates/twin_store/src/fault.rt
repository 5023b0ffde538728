// Why a call on a store fails.
ghost use Rattle.std.specs.Prelude.{◌≡◌};
ghost use Rattle.twin_store.specs.declared.fault.StoreFault.TheVariants.{Failed as DeviceFailed};

use host_desk::Failed;

/// No memory was left.
pub type OutOfMemory = std::alloc::AllocError;

/// Why a call on a store answers an error.
#[derive(Clone, Copy, Debug, PartialEq, Eq)]
pub enum StoreFault {
    /// A call on the host failed.
    Failed,
    /// The files aren't a store: one of them, by its number on the host, is wrong at this byte.
    Corrupt { file: usize, at: u64 },
    /// A log of this length has no room for what was to be added within its limit. It is 0 for a file to be made.
    Full { length: u64 },
    /// No memory was left.
    OutOfMemory,
}

impl From<Failed> for StoreFault {
    ghost from_gives = { λ _ e. e ≡ DeviceFailed };

    fn from(_: Failed) -> Self {
        StoreFault::Failed
    }
}
