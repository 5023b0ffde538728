// Why a run ended before the end of its input: the number and the line that a status stands for outside the program.
ghost use Rattle.std.specs.Prelude.{◌≡◌, ◌↔◌, IsNone};
ghost use Rattle.overlord_run.specs.declared.Status.TheVariants.{Done};
ghost use Rattle.overlord_cli.specs.Statuses.{number_of};

use overlord_run::Status;
use thiserror::Error;

/// The line on standard error, for each status but that of a run to the end of its input.
#[derive(Debug, Drop, Error)]
pub enum Fault {
    #[error("overlord: usage")]
    Usage,
    #[error("overlord: store fault")]
    StoreFault,
    #[error("overlord: store corrupt, file {file} at {at}")]
    StoreCorrupt { file: usize, at: u64 },
    #[error("overlord: input fault")]
    InputFault,
    #[error("overlord: output fault")]
    OutputFault,
    #[error("overlord: no memory")]
    NoMemory,
    #[error("overlord: store full at {length}")]
    StoreFull { length: u64 },
    #[error("overlord: input too long")]
    InputTooLong,
}

impl Fault {
    /// The fault of a status, from the status alone.
    pub fn of(status: &Status) -> Option<Fault>
        ensures { IsNone result ↔ (status.now ≡ Done) }
    {
        match *status {
            Status::Done => None,
            Status::Usage => Some(Fault::Usage),
            Status::StoreFault => Some(Fault::StoreFault),
            Status::StoreCorrupt { file, at } => Some(Fault::StoreCorrupt { file, at }),
            Status::InputFault => Some(Fault::InputFault),
            Status::OutputFault => Some(Fault::OutputFault),
            Status::NoMemory => Some(Fault::NoMemory),
            Status::StoreFull { length } => Some(Fault::StoreFull { length }),
            Status::InputTooLong => Some(Fault::InputTooLong),
        }
    }
}

/// The number that the program ends with.
pub fn number(status: &Status) -> u8
    ensures { result ≡ number_of status.now }
{
    match *status {
        Status::Done => 0,
        Status::Usage => 2,
        Status::StoreFault => 3,
        Status::StoreCorrupt { .. } => 4,
        Status::InputFault => 5,
        Status::OutputFault => 6,
        Status::NoMemory => 7,
        Status::StoreFull { .. } => 8,
        Status::InputTooLong => 9,
    }
}
