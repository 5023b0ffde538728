//! Why bytes gave no command.
ghost use Rattle.std.specs.Prelude.{◌≡◌};
ghost use Rattle.cmd_codec.specs.declared.fault.ReadFault.TheVariants.{Bad, OutOfMemory};
ghost use Rattle.cmd_codec.specs.Faults.{fault_of_name};

use crate::OutOfMemory;
use seg_names::NameFault;
use std::alloc::AllocFailed;
use wire_fields::Short;

// Why nothing was read.
#[derive(Clone, Copy)]
pub enum ReadFault {
    // The bytes are no spelling of the value.
    Bad,
    // Memory ran out.
    OutOfMemory,
}

impl From<OutOfMemory> for ReadFault {
    ghost from_gives = { λ _ e. e ≡ OutOfMemory };

    fn from(_e: OutOfMemory) -> ReadFault {
        ReadFault::OutOfMemory
    }
}

impl<T: Drop> From<AllocFailed<T>> for ReadFault {
    ghost from_gives = { λ _ e. e ≡ OutOfMemory };

    fn from(_e: AllocFailed<T>) -> ReadFault {
        ReadFault::OutOfMemory
    }
}

impl From<Short> for ReadFault {
    ghost from_gives = { λ _ e. e ≡ Bad };

    fn from(_e: Short) -> ReadFault {
        ReadFault::Bad
    }
}

impl From<NameFault> for ReadFault {
    ghost from_gives = { λ f e. e ≡ fault_of_name f };

    fn from(fault: NameFault) -> ReadFault {
        match fault {
            NameFault::BadName => ReadFault::Bad,
            NameFault::OutOfMemory => ReadFault::OutOfMemory,
        }
    }
}

/// Why a record gave no commands.
#[derive(Clone, Copy, Debug, PartialEq, Eq)]
pub enum CodecFault {
    /// The body isn't one command or more to its end. `at` is the place of the first command that
    /// doesn't read, as the number of bytes before it; it is 0 in an empty body.
    BadRecord { at: usize },
    /// Memory ran out.
    OutOfMemory,
}

impl<T: Drop> From<AllocFailed<T>> for CodecFault {
    ghost use Rattle.std.specs.Prelude.{◌≡◌};
    ghost use Rattle.cmd_codec.specs.declared.fault.CodecFault.TheVariants.{OutOfMemory};

    ghost from_gives = { λ _ e. e ≡ OutOfMemory };

    fn from(_e: AllocFailed<T>) -> CodecFault {
        CodecFault::OutOfMemory
    }
}
