//! The rows that `show` lists: tasks, locks, stored offsets and sequences, each in the order of its table.
ghost use Rattle.std.specs.Prelude.{◌<◌, ◌≡◌, IfOk, Some, bytes_eq, filter, length, map, slice_get};
ghost use Rattle.book_rows.specs.ShowSteps.{lock_line, offset_line, sequence_line, task_line};

use book_core::OutOfMemory;
use book_rows::{LockLine, OffsetLine, OffsetRow, PosseRow, SequenceLine, TaskLine, TaskRow, Twin};
use lock_posse::Posses;
use seg_names::Name;
use std::alloc::Global;
use sup_core::Supervisors;
use tab_sequences::Sequence;
use tab_streams::Streams;
use tab_tasks::Tasks;

fn task_line(alloc: Global, row: &TaskRow) -> Result<TaskLine, OutOfMemory>
    ensures { IfOk result (λ line. line ≡ task_line row.now) }
{
    Ok(TaskLine {
        group: row.group.twin(alloc)?,
        priority: row.priority,
        source: row.source.twin(alloc)?,
        status: row.status,
        task: row.task.twin(alloc)?,
    })
}

fn task_at(tasks: &Tasks, place: usize) -> &TaskRow
    requires { place < length tasks.now }
    ensures { slice_get tasks.now place ≡ Some result.now }
{
    match tasks.row(place) {
        Some(row) => row,
        None => unreachable!(),
    }
}

/// The tasks, in submit order. The error is want of memory.
pub fn task_lines(alloc: Global, tasks: &Tasks) -> Result<Vec<TaskLine>, OutOfMemory>
    ensures { IfOk result (λ lines. lines.items ≡ map task_line tasks.now) }
{
    let mut lines = Vec::new(alloc);
    for place in 0..tasks.count() {
        lines.push(task_line(alloc, task_at(tasks, place))?)?;
    }
    Ok(lines)
}

fn lock_line(alloc: Global, row: &PosseRow) -> Result<LockLine, OutOfMemory>
    ensures { IfOk result (λ line. line ≡ lock_line row.now) }
{
    Ok(LockLine {
        group: row.group.twin(alloc)?,
        lock: row.number,
        members: row.members.twin(alloc)?,
        priority: row.priority,
        revoked: row.revoked,
        source: row.source.twin(alloc)?,
        span: row.span,
        lock_kind: row.lock_kind,
        version: row.version,
    })
}

/// The locks, in row order. The error is want of memory.
pub fn lock_lines(alloc: Global, posses: &Posses) -> Result<Vec<LockLine>, OutOfMemory>
    ensures { IfOk result (λ lines. lines.items ≡ map lock_line posses.now) }
{
    let mut lines = Vec::new(alloc);
    for lock in posses.iter() {
        lines.push(lock_line(alloc, &lock.row)?)?;
    }
    Ok(lines)
}

fn offset_line(row: OffsetRow) -> OffsetLine
    ensures { result ≡ offset_line row }
{
    OffsetLine {
        offset: row.offset,
        partition: row.partition,
        stream: row.stream,
    }
}

/// The stored offsets of a source, by stream and partition. The error is want of memory.
pub fn offset_lines(
    alloc: Global,
    streams: &Streams,
    source: &Name,
) -> Result<Vec<OffsetLine>, OutOfMemory>
    ensures { IfOk result (λ lines. lines.items ≡ map offset_line (filter (λ r. bytes_eq r.source source.now) streams.now.offsets)) }
{
    let rows = streams.offsets_of(alloc, source)?;
    let mut lines = Vec::new(alloc);
    for row in rows {
        lines.push(offset_line(row))?;
    }
    Ok(lines)
}

fn sequence_line(alloc: Global, sequence: &Sequence) -> Result<SequenceLine, OutOfMemory>
    ensures { IfOk result (λ line. line ≡ sequence_line sequence.now) }
{
    Ok(SequenceLine {
        ends: sequence.row.ends.twin(alloc)?,
        name: sequence.name.twin(alloc)?,
        starts: sequence.row.starts.twin(alloc)?,
        state: sequence.row.state,
    })
}

/// The sequences of a source, in row order. The error is want of memory.
pub fn sequence_lines(
    alloc: Global,
    supervisors: &Supervisors,
    source: &Name,
) -> Result<Vec<SequenceLine>, OutOfMemory>
    ensures { IfOk result (λ lines. lines.items ≡ map sequence_line (filter (λ u. bytes_eq u.source source.now) supervisors.now.sequences)) }
{
    let mut lines = Vec::new(alloc);
    for sequence in supervisors.sequences() {
        if sequence.row.source == *source {
            lines.push(sequence_line(alloc, sequence)?)?;
        }
    }
    Ok(lines)
}
