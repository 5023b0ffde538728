//! Why a line gave no command.
ghost use Rattle.std.specs.Prelude.{◌≡◌};
ghost use Rattle.cmd_words.specs.declared.fault.LineFault.TheVariants.{BadCommand, OutOfMemory};
ghost use Rattle.cmd_words.specs.Faults.{fault_of_id, fault_of_name};

use crate::OutOfMemory;
use seg_names::{NameFault, SegFault};
use std::alloc::AllocFailed;

/// Why a line gave no command.
#[derive(Clone, Copy, Debug, PartialEq, Eq)]
pub enum LineFault {
    /// The line is no command.
    BadCommand,
    /// Memory ran out.
    OutOfMemory,
}

impl From<OutOfMemory> for LineFault {
    ghost from_gives = { λ _ e. e ≡ OutOfMemory };

    fn from(_e: OutOfMemory) -> LineFault {
        LineFault::OutOfMemory
    }
}

impl<T: Drop> From<AllocFailed<T>> for LineFault {
    ghost from_gives = { λ _ e. e ≡ OutOfMemory };

    fn from(_e: AllocFailed<T>) -> LineFault {
        LineFault::OutOfMemory
    }
}

impl From<NameFault> for LineFault {
    ghost from_gives = { λ f e. e ≡ fault_of_name f };

    fn from(fault: NameFault) -> LineFault {
        match fault {
            NameFault::BadName => LineFault::BadCommand,
            NameFault::OutOfMemory => LineFault::OutOfMemory,
        }
    }
}

impl From<SegFault> for LineFault {
    ghost from_gives = { λ f e. e ≡ fault_of_id f };

    fn from(fault: SegFault) -> LineFault {
        match fault {
            SegFault::BadSegId => LineFault::BadCommand,
            SegFault::OutOfMemory => LineFault::OutOfMemory,
        }
    }
}
