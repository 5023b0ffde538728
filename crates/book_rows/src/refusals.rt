//! The numbers of refusals, and their twins: a function for each one that owns an id or a name.
ghost use Rattle.std.specs.Prelude.{◌≡◌, IfOk};
ghost use Rattle.book_rows.specs.Numbers.{refusal_number};
ghost use Rattle.book_rows.specs.declared.replies.Refusal.TheVariants.{ChunkCut, SequenceMismatch, NotAllocated, WrongVersion, PendingOverlap, Granularity, DropPartial, RangeNotAssigned, SupervisorExists};

use crate::OutOfMemory;
use crate::items::Twin;
use crate::replies::Refusal;
use seg_names::{Name, SegId};
use std::alloc::Global;

impl Refusal {
    /// The number of the refusal's code.
    pub fn number(&self) -> u16
        ensures { result ≡ refusal_number self.now }
    {
        match self {
            Refusal::BadCommand => 1,
            Refusal::LineTooLong => 2,
            Refusal::TaskUnknown => 3,
            Refusal::TaskExists => 4,
            Refusal::TaskNotRunning { .. } => 5,
            Refusal::TaskEnded { .. } => 6,
            Refusal::LockRevoked { .. } => 7,
            Refusal::LockConflict { .. } => 8,
            Refusal::LockMissing { .. } => 9,
            Refusal::ClockEnd => 10,
            Refusal::TableFull { .. } => 11,
            Refusal::ChunkCut { .. } => 12,
            Refusal::NoBucket { .. } => 13,
            Refusal::SequenceMismatch { .. } => 14,
            Refusal::NotAllocated { .. } => 15,
            Refusal::BadSpan { .. } => 16,
            Refusal::WrongVersion { .. } => 17,
            Refusal::VersionUsed { .. } => 18,
            Refusal::PendingOverlap { .. } => 19,
            Refusal::Granularity { .. } => 20,
            Refusal::DropLocked { .. } => 21,
            Refusal::DropPartial { .. } => 22,
            Refusal::OffsetMismatch { .. } => 23,
            Refusal::BadRange { .. } => 24,
            Refusal::RangeNotAssigned { .. } => 25,
            Refusal::SupervisorExists { .. } => 26,
            Refusal::SequenceState { .. } => 27,
        }
    }
}

fn chunk_cut_twin(alloc: Global, id: &SegId) -> Result<Refusal, OutOfMemory>
    ensures { IfOk result (λ twin. twin ≡ ChunkCut id.now) }
{
    let id = id.twin(alloc)?;
    Ok(Refusal::ChunkCut { id })
}

fn sequence_mismatch_twin(alloc: Global, id: &SegId) -> Result<Refusal, OutOfMemory>
    ensures { IfOk result (λ twin. twin ≡ SequenceMismatch id.now) }
{
    let id = id.twin(alloc)?;
    Ok(Refusal::SequenceMismatch { id })
}

fn not_allocated_twin(alloc: Global, id: &SegId) -> Result<Refusal, OutOfMemory>
    ensures { IfOk result (λ twin. twin ≡ NotAllocated id.now) }
{
    let id = id.twin(alloc)?;
    Ok(Refusal::NotAllocated { id })
}

fn wrong_version_twin(alloc: Global, id: &SegId) -> Result<Refusal, OutOfMemory>
    ensures { IfOk result (λ twin. twin ≡ WrongVersion id.now) }
{
    let id = id.twin(alloc)?;
    Ok(Refusal::WrongVersion { id })
}

fn pending_overlap_twin(alloc: Global, id: &SegId) -> Result<Refusal, OutOfMemory>
    ensures { IfOk result (λ twin. twin ≡ PendingOverlap id.now) }
{
    let id = id.twin(alloc)?;
    Ok(Refusal::PendingOverlap { id })
}

fn granularity_twin(alloc: Global, id: &SegId) -> Result<Refusal, OutOfMemory>
    ensures { IfOk result (λ twin. twin ≡ Granularity id.now) }
{
    let id = id.twin(alloc)?;
    Ok(Refusal::Granularity { id })
}

fn drop_partial_twin(alloc: Global, id: &SegId) -> Result<Refusal, OutOfMemory>
    ensures { IfOk result (λ twin. twin ≡ DropPartial id.now) }
{
    let id = id.twin(alloc)?;
    Ok(Refusal::DropPartial { id })
}

fn range_not_assigned_twin(alloc: Global, source: &Name) -> Result<Refusal, OutOfMemory>
    ensures { IfOk result (λ twin. twin ≡ RangeNotAssigned source.now) }
{
    let source = source.twin(alloc)?;
    Ok(Refusal::RangeNotAssigned { source })
}

fn supervisor_exists_twin(alloc: Global, source: &Name) -> Result<Refusal, OutOfMemory>
    ensures { IfOk result (λ twin. twin ≡ SupervisorExists source.now) }
{
    let source = source.twin(alloc)?;
    Ok(Refusal::SupervisorExists { source })
}

impl Twin for Refusal {
    fn twin(&self, alloc: Global) -> Result<Refusal, OutOfMemory> {
        match self {
            Refusal::BadCommand => Ok(Refusal::BadCommand),
            Refusal::LineTooLong => Ok(Refusal::LineTooLong),
            Refusal::TaskUnknown => Ok(Refusal::TaskUnknown),
            Refusal::TaskExists => Ok(Refusal::TaskExists),
            Refusal::TaskNotRunning { status } => Ok(Refusal::TaskNotRunning { status: *status }),
            Refusal::TaskEnded { status } => Ok(Refusal::TaskEnded { status: *status }),
            Refusal::LockRevoked { by } => Ok(Refusal::LockRevoked { by: *by }),
            Refusal::LockConflict { by } => Ok(Refusal::LockConflict { by: *by }),
            Refusal::LockMissing { span } => Ok(Refusal::LockMissing { span: *span }),
            Refusal::ClockEnd => Ok(Refusal::ClockEnd),
            Refusal::TableFull { table } => Ok(Refusal::TableFull { table: *table }),
            Refusal::ChunkCut { id } => chunk_cut_twin(alloc, id),
            Refusal::NoBucket { at } => Ok(Refusal::NoBucket { at: *at }),
            Refusal::SequenceMismatch { id } => sequence_mismatch_twin(alloc, id),
            Refusal::NotAllocated { id } => not_allocated_twin(alloc, id),
            Refusal::BadSpan { span } => Ok(Refusal::BadSpan { span: *span }),
            Refusal::WrongVersion { id } => wrong_version_twin(alloc, id),
            Refusal::VersionUsed { span } => Ok(Refusal::VersionUsed { span: *span }),
            Refusal::PendingOverlap { id } => pending_overlap_twin(alloc, id),
            Refusal::Granularity { id } => granularity_twin(alloc, id),
            Refusal::DropLocked { by } => Ok(Refusal::DropLocked { by: *by }),
            Refusal::DropPartial { id } => drop_partial_twin(alloc, id),
            Refusal::OffsetMismatch { partition, stored } => Ok(Refusal::OffsetMismatch {
                partition: *partition,
                stored: *stored,
            }),
            Refusal::BadRange { partition } => Ok(Refusal::BadRange {
                partition: *partition,
            }),
            Refusal::RangeNotAssigned { source } => range_not_assigned_twin(alloc, source),
            Refusal::SupervisorExists { source } => supervisor_exists_twin(alloc, source),
            Refusal::SequenceState { state } => Ok(Refusal::SequenceState { state: *state }),
        }
    }
}
