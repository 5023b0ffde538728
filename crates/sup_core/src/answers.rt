use crate::OutOfMemory;
use book_rows::{SeqState, Table};

/// Why a call on supervisors is refused.
#[derive(Clone, Copy, Debug, PartialEq, Eq)]
pub enum SupFault {
    /// The source has a supervisor.
    Exists,
    /// The sequence doesn't take the report in this state.
    State(SeqState),
    /// The task's group names no sequence.
    NoSequence,
    /// This is the least partition that is missing, foreign to the group, or told below its start.
    BadRange(u32),
    /// The publish isn't that of the first unpublished sequence of its group.
    NotAssigned,
    /// There would be too many rows of this table.
    Full(Table),
    /// Memory ran out.
    OutOfMemory,
}

impl From<OutOfMemory> for SupFault {
    ghost use Rattle.std.specs.Prelude.{◌≡◌};
    ghost use Rattle.sup_core.specs.declared.answers.SupFault.TheVariants.{OutOfMemory};

    ghost from_gives = { λ _ fault. fault ≡ OutOfMemory };

    fn from(_error: OutOfMemory) -> SupFault {
        SupFault::OutOfMemory
    }
}
