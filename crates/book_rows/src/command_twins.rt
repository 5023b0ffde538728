//! Twins of commands: a function for each command that owns names or lists.
ghost use Rattle.std.specs.Prelude.{◌≡◌, IfOk};
ghost use Rattle.book_rows.specs.declared.commands.Command.TheVariants.{Submit, Lock, Unlock, Allocate, Append, Insert, Replace, End, Drop, Reset, Supervise, Paused, Checkpoint, ToReplace, Show};

use crate::OutOfMemory;
use crate::commands::{Command, What};
use crate::items::{Items, Twin, twin_both};
use crate::kinds::{LockKind, TaskKind, TaskStatus};
use crate::rows::{Offset, Ranges, Want};
use iv_span::Span;
use iv_time::Granularity;
use seg_names::{Name, SegId, TaskId};
use std::alloc::Global;

fn submit_twin(
    alloc: Global,
    task: &TaskId,
    group: &TaskId,
    source: &Name,
    kind: TaskKind,
    priority: u32,
    locks: &Items<Want>,
) -> Result<Command, OutOfMemory>
    ensures { IfOk result (λ twin. twin ≡ Submit task.now group.now source.now kind priority locks.now) }
{
    let (task, group) = twin_both(alloc, task, group)?;
    let (source, locks) = twin_both(alloc, source, locks)?;
    Ok(Command::Submit {
        task,
        group,
        source,
        kind,
        priority,
        locks,
    })
}

fn lock_twin(
    alloc: Global,
    task: &TaskId,
    lock_kind: LockKind,
    span: Span,
    now: i64,
) -> Result<Command, OutOfMemory>
    ensures { IfOk result (λ twin. twin ≡ Lock task.now lock_kind span now) }
{
    let task = task.twin(alloc)?;
    Ok(Command::Lock {
        task,
        lock_kind,
        span,
        now,
    })
}

fn unlock_twin(alloc: Global, task: &TaskId, lock: u64) -> Result<Command, OutOfMemory>
    ensures { IfOk result (λ twin. twin ≡ Unlock task.now lock) }
{
    let task = task.twin(alloc)?;
    Ok(Command::Unlock { task, lock })
}

fn allocate_twin(
    alloc: Global,
    task: &TaskId,
    lock_kind: LockKind,
    sequence: &Name,
    previous: &Option<SegId>,
    at: i64,
    granularity: Granularity,
    now: i64,
) -> Result<Command, OutOfMemory>
    ensures { IfOk result (λ twin. twin ≡ Allocate task.now lock_kind sequence.now previous.now at granularity now) }
{
    let (task, sequence) = twin_both(alloc, task, sequence)?;
    let previous = previous.twin(alloc)?;
    Ok(Command::Allocate {
        task,
        lock_kind,
        sequence,
        previous,
        at,
        granularity,
        now,
    })
}

fn append_twin(
    alloc: Global,
    task: &TaskId,
    ids: &Items<SegId>,
    ranges: &Option<Ranges>,
) -> Result<Command, OutOfMemory>
    ensures { IfOk result (λ twin. twin ≡ Append task.now ids.now ranges.now) }
{
    let (task, ids) = twin_both(alloc, task, ids)?;
    let ranges = ranges.twin(alloc)?;
    Ok(Command::Append { task, ids, ranges })
}

fn insert_twin(
    alloc: Global,
    task: &TaskId,
    spans: &Items<Span>,
    ids: &Items<SegId>,
    tombstones: &Items<SegId>,
    ranges: &Option<Ranges>,
) -> Result<Command, OutOfMemory>
    ensures { IfOk result (λ twin. twin ≡ Insert task.now spans.now ids.now tombstones.now ranges.now) }
{
    let (task, ranges) = twin_both(alloc, task, ranges)?;
    let (ids, tombstones) = twin_both(alloc, ids, tombstones)?;
    let spans = spans.twin(alloc)?;
    Ok(Command::Insert {
        task,
        spans,
        ids,
        tombstones,
        ranges,
    })
}

fn replace_twin(
    alloc: Global,
    task: &TaskId,
    spans: &Items<Span>,
    ids: &Items<SegId>,
    tombstones: &Items<SegId>,
    ranges: &Option<Ranges>,
) -> Result<Command, OutOfMemory>
    ensures { IfOk result (λ twin. twin ≡ Replace task.now spans.now ids.now tombstones.now ranges.now) }
{
    let (task, ranges) = twin_both(alloc, task, ranges)?;
    let (ids, tombstones) = twin_both(alloc, ids, tombstones)?;
    let spans = spans.twin(alloc)?;
    Ok(Command::Replace {
        task,
        spans,
        ids,
        tombstones,
        ranges,
    })
}

fn end_twin(alloc: Global, task: &TaskId, status: TaskStatus) -> Result<Command, OutOfMemory>
    ensures { IfOk result (λ twin. twin ≡ End task.now status) }
{
    let task = task.twin(alloc)?;
    Ok(Command::End { task, status })
}

fn drop_twin(alloc: Global, source: &Name, span: Span) -> Result<Command, OutOfMemory>
    ensures { IfOk result (λ twin. twin ≡ Drop source.now span) }
{
    let source = source.twin(alloc)?;
    Ok(Command::Drop { source, span })
}

fn reset_twin(
    alloc: Global,
    source: &Name,
    stream: &Name,
    offsets: &Items<Offset>,
) -> Result<Command, OutOfMemory>
    ensures { IfOk result (λ twin. twin ≡ Reset source.now stream.now offsets.now) }
{
    let (source, stream) = twin_both(alloc, source, stream)?;
    let offsets = offsets.twin(alloc)?;
    Ok(Command::Reset {
        source,
        stream,
        offsets,
    })
}

fn supervise_twin(
    alloc: Global,
    source: &Name,
    stream: &Name,
    partitions: u32,
    task_count: u32,
    replicas: u32,
    task_duration: i64,
    completion_timeout: i64,
) -> Result<Command, OutOfMemory>
    ensures { IfOk result (λ twin. twin ≡ Supervise source.now stream.now partitions task_count replicas task_duration completion_timeout) }
{
    let (source, stream) = twin_both(alloc, source, stream)?;
    Ok(Command::Supervise {
        source,
        stream,
        partitions,
        task_count,
        replicas,
        task_duration,
        completion_timeout,
    })
}

fn paused_twin(
    alloc: Global,
    task: &TaskId,
    offsets: &Items<Offset>,
) -> Result<Command, OutOfMemory>
    ensures { IfOk result (λ twin. twin ≡ Paused task.now offsets.now) }
{
    let (task, offsets) = twin_both(alloc, task, offsets)?;
    Ok(Command::Paused { task, offsets })
}

fn checkpoint_twin(
    alloc: Global,
    task: &TaskId,
    offsets: &Items<Offset>,
) -> Result<Command, OutOfMemory>
    ensures { IfOk result (λ twin. twin ≡ Checkpoint task.now offsets.now) }
{
    let (task, offsets) = twin_both(alloc, task, offsets)?;
    Ok(Command::Checkpoint { task, offsets })
}

fn to_replace_twin(alloc: Global, task: &TaskId, span: Span) -> Result<Command, OutOfMemory>
    ensures { IfOk result (λ twin. twin ≡ ToReplace task.now span) }
{
    let task = task.twin(alloc)?;
    Ok(Command::ToReplace { task, span })
}

fn show_twin(alloc: Global, what: &What) -> Result<Command, OutOfMemory>
    ensures { IfOk result (λ twin. twin ≡ Show what.now) }
{
    let what = what.twin(alloc)?;
    Ok(Command::Show { what })
}

impl Twin for Command {
    fn twin(&self, alloc: Global) -> Result<Command, OutOfMemory> {
        match self {
            Command::Submit {
                task,
                group,
                source,
                kind,
                priority,
                locks,
            } => submit_twin(alloc, task, group, source, *kind, *priority, locks),
            Command::Manage { now } => Ok(Command::Manage { now: *now }),
            Command::Lock {
                task,
                lock_kind,
                span,
                now,
            } => lock_twin(alloc, task, *lock_kind, *span, *now),
            Command::Unlock { task, lock } => unlock_twin(alloc, task, *lock),
            Command::Allocate {
                task,
                lock_kind,
                sequence,
                previous,
                at,
                granularity,
                now,
            } => allocate_twin(
                alloc,
                task,
                *lock_kind,
                sequence,
                previous,
                *at,
                *granularity,
                *now,
            ),
            Command::Append { task, ids, ranges } => append_twin(alloc, task, ids, ranges),
            Command::Insert {
                task,
                spans,
                ids,
                tombstones,
                ranges,
            } => insert_twin(alloc, task, spans, ids, tombstones, ranges),
            Command::Replace {
                task,
                spans,
                ids,
                tombstones,
                ranges,
            } => replace_twin(alloc, task, spans, ids, tombstones, ranges),
            Command::End { task, status } => end_twin(alloc, task, *status),
            Command::Drop { source, span } => drop_twin(alloc, source, *span),
            Command::Reset {
                source,
                stream,
                offsets,
            } => reset_twin(alloc, source, stream, offsets),
            Command::Supervise {
                source,
                stream,
                partitions,
                task_count,
                replicas,
                task_duration,
                completion_timeout,
            } => supervise_twin(
                alloc,
                source,
                stream,
                *partitions,
                *task_count,
                *replicas,
                *task_duration,
                *completion_timeout,
            ),
            Command::Tick { now } => Ok(Command::Tick { now: *now }),
            Command::Paused { task, offsets } => paused_twin(alloc, task, offsets),
            Command::Checkpoint { task, offsets } => checkpoint_twin(alloc, task, offsets),
            Command::ToReplace { task, span } => to_replace_twin(alloc, task, *span),
            Command::Show { what } => show_twin(alloc, what),
        }
    }
}

impl Twin for What {
    fn twin(&self, alloc: Global) -> Result<What, OutOfMemory> {
        match self {
            What::Tasks => Ok(What::Tasks),
            What::Locks => Ok(What::Locks),
            What::Timeline(source) => Ok(What::Timeline(source.twin(alloc)?)),
            What::Contents(source) => Ok(What::Contents(source.twin(alloc)?)),
            What::Offsets(source) => Ok(What::Offsets(source.twin(alloc)?)),
            What::Sequences(source) => Ok(What::Sequences(source.twin(alloc)?)),
        }
    }
}
