//! What a reader of lines answers.
ghost use Rattle.std.specs.Prelude.{◌≡◌};
ghost use Rattle.input_lines.specs.declared.found.ReadFault.TheVariants.{Failed as SourceFailed, OutOfMemory};

use host_desk::{Failed, OutOfMemory};

/// What was found at the front of the input.
#[derive(Clone, Copy, Debug, PartialEq, Eq)]
pub enum Found {
    /// A line, without its byte 10.
    Line,
    /// A line above the limit of a line, of so many bytes without its byte 10. It was skipped.
    LongLine { size: u64 },
    /// The end of the input.
    End,
}

/// Why no line was found.
#[derive(Clone, Copy, Debug, PartialEq, Eq)]
pub enum ReadFault {
    /// A read of the source failed.
    Failed,
    /// As many bytes were read as may be, and the end wasn't seen.
    TooLong,
    /// No memory for the line.
    OutOfMemory,
}

impl From<OutOfMemory> for ReadFault {
    ghost from_gives = { λ _ e. e ≡ OutOfMemory };

    fn from(_e: OutOfMemory) -> ReadFault {
        ReadFault::OutOfMemory
    }
}

impl From<Failed> for ReadFault {
    ghost from_gives = { λ _ e. e ≡ SourceFailed };

    fn from(_e: Failed) -> ReadFault {
        ReadFault::Failed
    }
}
