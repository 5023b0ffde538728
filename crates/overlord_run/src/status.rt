//! How a call of the program ends.
ghost use Rattle.std.specs.Prelude.{◌≡◌};
ghost use Rattle.overlord_run.specs.Statuses.{status_by};

use machine_run::Stop;

/// How a call ended.
#[derive(Clone, Copy, Debug, PartialEq, Eq)]
pub enum Status {
    /// The input was read to its end, and every line has its reply put out whole.
    Done,
    /// The words are of no form. No call of the host or the source was made.
    Usage,
    /// A call on the files failed.
    StoreFault,
    /// The files aren't a store: a file of the pair, 0 or 1, and the place in bytes of its first fault.
    StoreCorrupt { file: usize, at: u64 },
    /// A read of the source failed.
    InputFault,
    /// A reply could not be put out.
    OutputFault,
    /// No memory was left.
    NoMemory,
    /// With the next record the log would be longer than its limit. The length is the log's, up to its closed gate and
    /// with it; 0 where the store was to be made.
    StoreFull { length: u64 },
    /// As many bytes of the input were read as may be, and its end wasn't seen.
    InputTooLong,
}

/// How long the log and the input may be, in bytes, and how long a log may get before a new file takes its place.
#[derive(Clone, Copy, Debug, PartialEq, Eq)]
pub struct Limits {
    /// The greatest length of a log's file.
    pub log: u64,
    /// The least length of an input that is too long: a shorter one is read to its end.
    pub input: u64,
    /// How many bytes of records may follow a file's header before another file is made. It isn't used yet.
    pub turn: u64,
}

/// The status of a run that ended so.
pub fn status_of(outcome: Result<(), Stop>) -> Status
    ensures { result ≡ status_by outcome }
{
    match outcome {
        Ok(()) => Status::Done,
        Err(Stop::StoreFault) => Status::StoreFault,
        Err(Stop::StoreCorrupt { file, at }) => Status::StoreCorrupt { file, at },
        Err(Stop::InputFault) => Status::InputFault,
        Err(Stop::OutputFault) => Status::OutputFault,
        Err(Stop::NoMemory) => Status::NoMemory,
        Err(Stop::StoreFull { length }) => Status::StoreFull { length },
        Err(Stop::InputTooLong) => Status::InputTooLong,
    }
}
