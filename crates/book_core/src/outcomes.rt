//! What a command comes to.
ghost use Rattle.std.specs.Prelude.{◌≡◌, IfOk, false, true};
ghost use Rattle.book_core.specs.Refused.{IsKnownRefusal, IsLockRefusal, IsPlaceRefusal, IsQueueRefusal, IsSupRefusal};

use crate::OutOfMemory;
use book_rows::{Refusal, Reply, Twin};
use lockbox::LockFault;
use seg_alloc::{KnownFault, PlaceFault};
use seg_names::Name;
use std::alloc::{AllocError, Global};
use sup_core::SupFault;
use task_queue::QueueFault;

/// What a command comes to: the reply, and whether it changed the book.
#[derive(Drop)]
pub struct Outcome {
    /// What the command is answered.
    pub reply: Reply,
    /// Whether the book is another one after it: then the command has to be kept.
    pub changes: bool,
}

/// A refusal, which leaves the book.
pub fn refused(why: Refusal) -> Outcome
    ensures { result ≡ record { reply = Reply.Refused why; changes = false } }
{
    Outcome {
        reply: Reply::Refused(why),
        changes: false,
    }
}

/// The answer to what was done before, which leaves the book.
pub fn repeated(reply: Reply) -> Outcome
    ensures { result ≡ record { reply = reply; changes = false } }
{
    Outcome {
        reply,
        changes: false,
    }
}

/// The answer to what changed the book.
pub fn changed(reply: Reply) -> Outcome
    ensures { result ≡ record { reply = reply; changes = true } }
{
    Outcome {
        reply,
        changes: true,
    }
}

/// The refusal of a task that may not be submitted, or may not end.
pub fn queue_refused(fault: QueueFault) -> Result<Outcome, OutOfMemory>
    ensures { IfOk result (λ o. IsQueueRefusal fault o) }
{
    match fault {
        QueueFault::Unknown => Ok(refused(Refusal::TaskUnknown)),
        QueueFault::Exists => Ok(refused(Refusal::TaskExists)),
        QueueFault::NotRunning(status) => Ok(refused(Refusal::TaskNotRunning { status })),
        QueueFault::Ended(status) => Ok(refused(Refusal::TaskEnded { status })),
        QueueFault::Full(table) => Ok(refused(Refusal::TableFull { table })),
        QueueFault::OutOfMemory => Err(AllocError),
    }
}

/// Why a lock isn't granted. The error is want of memory.
pub fn lock_refusal(fault: LockFault) -> Result<Refusal, OutOfMemory>
    ensures { IfOk result (λ why. IsLockRefusal fault why) }
{
    match fault {
        LockFault::Revoked(by) => Ok(Refusal::LockRevoked { by }),
        LockFault::Conflict(by) => Ok(Refusal::LockConflict { by }),
        LockFault::ClockEnd => Ok(Refusal::ClockEnd),
        LockFault::Full(table) => Ok(Refusal::TableFull { table }),
        LockFault::OutOfMemory => Err(AllocError),
    }
}

/// Why an id that is known isn't answered. The error is want of memory.
pub fn known_refusal(fault: KnownFault) -> Result<Refusal, OutOfMemory>
    ensures { IfOk result (λ why. IsKnownRefusal fault why) }
{
    match fault {
        KnownFault::Mismatch(id) => Ok(Refusal::SequenceMismatch { id }),
        KnownFault::Revoked(by) => Ok(Refusal::LockRevoked { by }),
        KnownFault::OutOfMemory => Err(AllocError),
    }
}

/// Why there is no place for an id at the instant. The error is want of memory.
pub fn place_refusal(fault: PlaceFault, at: i64) -> Result<Refusal, OutOfMemory>
    ensures { IfOk result (λ why. IsPlaceRefusal at fault why) }
{
    match fault {
        PlaceFault::Cut(id) => Ok(Refusal::ChunkCut { id }),
        PlaceFault::NoBucket => Ok(Refusal::NoBucket { at }),
        PlaceFault::OutOfMemory => Err(AllocError),
    }
}

/// Why a command on the supervisor of a source is refused. The error is want of memory.
pub fn sup_refusal(alloc: Global, fault: SupFault, source: &Name) -> Result<Refusal, OutOfMemory>
    ensures { IfOk result (λ why. IsSupRefusal source.now fault why) }
{
    match fault {
        SupFault::Exists => Ok(Refusal::SupervisorExists {
            source: source.twin(alloc)?,
        }),
        SupFault::State(state) => Ok(Refusal::SequenceState { state: Some(state) }),
        SupFault::NoSequence => Ok(Refusal::SequenceState { state: None }),
        SupFault::BadRange(partition) => Ok(Refusal::BadRange { partition }),
        SupFault::NotAssigned => Ok(Refusal::RangeNotAssigned {
            source: source.twin(alloc)?,
        }),
        SupFault::Full(table) => Ok(Refusal::TableFull { table }),
        SupFault::OutOfMemory => Err(AllocError),
    }
}
