//! Writing commands: a function for each command that has a tag.
ghost use Rattle.std.specs.Prelude.{◌≡◌, ◌++◌, ◌<◌, ◌^◌, length, true, OnOk, OnErr, option_map};
ghost use Rattle.book_rows.specs.Form.{keeps_form, are_lists, are_ranges_of};
ghost use Rattle.book_rows.specs.declared.commands.Command.TheVariants.{Submit, Manage, Lock, Unlock, Allocate, Append, Insert, Replace, End, Drop, Reset, Supervise, Tick, Paused, Checkpoint};
ghost use Rattle.cmd_codec.specs.Spelling.{spelling, has_tag};

use crate::OutOfMemory;
use crate::fields::{
    Write, put_asked, put_kind, put_list, put_lock_kind, put_name, put_overwrite, put_ranges,
    put_short, put_signed, put_status, put_stream, put_supervision, put_task, tag_of_overwrite,
};
use book_rows::{Command, Items, LockKind, Offset, Ranges, TaskKind, TaskStatus, Want};
use iv_span::Span;
use iv_time::Granularity;
use seg_names::{Name, SegId, TaskId};
use std::alloc::Global;
use wire_fields::{put_u8, put_u64};

fn put_submit(
    task: &TaskId,
    group: &TaskId,
    source: &Name,
    kind: TaskKind,
    priority: u32,
    locks: &Items<Want>,
    out: &mut Vec<u8>,
) -> Result<(), OutOfMemory>
    requires { length locks.now < 2 ^ 16 }
    ensures { OnOk result (out.new.items ≡ out.old.items ++ spelling (Submit task.now group.now source.now kind priority locks.now)) }
{
    put_u8(1, out)?;
    put_task(task, out)?;
    put_task(group, out)?;
    put_name(source, out)?;
    put_kind(kind, out)?;
    put_short(priority, out)?;
    put_list(locks.as_slice(), out)
}

fn put_manage(now: i64, out: &mut Vec<u8>) -> Result<(), OutOfMemory>
    ensures { OnOk result (out.new.items ≡ out.old.items ++ spelling (Manage now)) }
{
    put_u8(2, out)?;
    put_signed(now, out)
}

fn put_lock(
    task: &TaskId,
    lock_kind: LockKind,
    span: &Span,
    now: i64,
    out: &mut Vec<u8>,
) -> Result<(), OutOfMemory>
    ensures { OnOk result (out.new.items ≡ out.old.items ++ spelling (Lock task.now lock_kind span.now now)) }
{
    put_u8(3, out)?;
    put_task(task, out)?;
    put_lock_kind(lock_kind, out)?;
    span.put(out)?;
    put_signed(now, out)
}

fn put_unlock(task: &TaskId, lock: u64, out: &mut Vec<u8>) -> Result<(), OutOfMemory>
    ensures { OnOk result (out.new.items ≡ out.old.items ++ spelling (Unlock task.now lock)) }
{
    put_u8(4, out)?;
    put_task(task, out)?;
    put_u64(lock, out)
}

fn put_allocate(
    task: &TaskId,
    lock_kind: LockKind,
    sequence: &Name,
    previous: &Option<SegId>,
    at: i64,
    granularity: Granularity,
    now: i64,
    out: &mut Vec<u8>,
) -> Result<(), OutOfMemory>
    ensures { OnOk result (out.new.items ≡ out.old.items ++ spelling (Allocate task.now lock_kind sequence.now previous.now at granularity now)) }
{
    put_u8(5, out)?;
    put_task(task, out)?;
    put_lock_kind(lock_kind, out)?;
    put_asked(sequence, previous.as_ref(), at, granularity, now, out)
}

fn put_append(
    task: &TaskId,
    ids: &Items<SegId>,
    ranges: &Option<Ranges>,
    out: &mut Vec<u8>,
) -> Result<(), OutOfMemory>
    requires ids { length ids.now < 2 ^ 16 }
    requires ranges { are_ranges_of ranges.now ≡ true }
    ensures { OnOk result (out.new.items ≡ out.old.items ++ spelling (Append task.now ids.now ranges.now)) }
{
    put_u8(6, out)?;
    put_task(task, out)?;
    put_list(ids.as_slice(), out)?;
    put_ranges(ranges.as_ref(), out)
}

fn put_insert(
    task: &TaskId,
    spans: &Items<Span>,
    ids: &Items<SegId>,
    tombstones: &Items<SegId>,
    ranges: &Option<Ranges>,
    out: &mut Vec<u8>,
) -> Result<(), OutOfMemory>
    requires { are_lists spans.now ids.now tombstones.now ranges.now ≡ true }
    ensures { OnOk result (out.new.items ≡ out.old.items ++ spelling (Insert task.now spans.now ids.now tombstones.now ranges.now)) }
{
    put_u8(tag_of_overwrite(7, 16, tombstones), out)?;
    put_overwrite(task, spans, ids, tombstones, ranges, out)
}

fn put_replace(
    task: &TaskId,
    spans: &Items<Span>,
    ids: &Items<SegId>,
    tombstones: &Items<SegId>,
    ranges: &Option<Ranges>,
    out: &mut Vec<u8>,
) -> Result<(), OutOfMemory>
    requires { are_lists spans.now ids.now tombstones.now ranges.now ≡ true }
    ensures { OnOk result (out.new.items ≡ out.old.items ++ spelling (Replace task.now spans.now ids.now tombstones.now ranges.now)) }
{
    put_u8(tag_of_overwrite(8, 17, tombstones), out)?;
    put_overwrite(task, spans, ids, tombstones, ranges, out)
}

fn put_end(task: &TaskId, status: TaskStatus, out: &mut Vec<u8>) -> Result<(), OutOfMemory>
    ensures { OnOk result (out.new.items ≡ out.old.items ++ spelling (End task.now status)) }
{
    put_u8(9, out)?;
    put_task(task, out)?;
    put_status(status, out)
}

fn put_drop(source: &Name, span: &Span, out: &mut Vec<u8>) -> Result<(), OutOfMemory>
    ensures { OnOk result (out.new.items ≡ out.old.items ++ spelling (Drop source.now span.now)) }
{
    put_u8(10, out)?;
    put_name(source, out)?;
    span.put(out)
}

fn put_reset(
    source: &Name,
    stream: &Name,
    offsets: &Items<Offset>,
    out: &mut Vec<u8>,
) -> Result<(), OutOfMemory>
    requires { length offsets.now < 2 ^ 16 }
    ensures { OnOk result (out.new.items ≡ out.old.items ++ spelling (Reset source.now stream.now offsets.now)) }
{
    put_u8(11, out)?;
    put_name(source, out)?;
    put_name(stream, out)?;
    put_list(offsets.as_slice(), out)
}

fn put_supervise(
    source: &Name,
    stream: &Name,
    partitions: u32,
    task_count: u32,
    replicas: u32,
    task_duration: &i64,
    completion_timeout: &i64,
    out: &mut Vec<u8>,
) -> Result<(), OutOfMemory>
    ensures { OnOk result (out.new.items ≡ out.old.items ++ spelling (Supervise source.now stream.now partitions task_count replicas task_duration.now completion_timeout.now)) }
{
    put_stream(source, stream, out)?;
    put_supervision(
        partitions,
        task_count,
        replicas,
        task_duration,
        completion_timeout,
        out,
    )
}

fn put_tick(now: i64, out: &mut Vec<u8>) -> Result<(), OutOfMemory>
    ensures { OnOk result (out.new.items ≡ out.old.items ++ spelling (Tick now)) }
{
    put_u8(13, out)?;
    put_signed(now, out)
}

fn put_paused(task: &TaskId, offsets: &Items<Offset>, out: &mut Vec<u8>) -> Result<(), OutOfMemory>
    requires { length offsets.now < 2 ^ 16 }
    ensures { OnOk result (out.new.items ≡ out.old.items ++ spelling (Paused task.now offsets.now)) }
{
    put_u8(14, out)?;
    put_task(task, out)?;
    put_list(offsets.as_slice(), out)
}

fn put_checkpoint(
    task: &TaskId,
    offsets: &Items<Offset>,
    out: &mut Vec<u8>,
) -> Result<(), OutOfMemory>
    requires { length offsets.now < 2 ^ 16 }
    ensures { OnOk result (out.new.items ≡ out.old.items ++ spelling (Checkpoint task.now offsets.now)) }
{
    put_u8(15, out)?;
    put_task(task, out)?;
    put_list(offsets.as_slice(), out)
}

/// Puts the one spelling of a command at the end of the bytes. The error is want of memory, and
/// leaves them as they were.
pub fn encode(alloc: Global, command: &Command, out: &mut Vec<u8>) -> Result<(), OutOfMemory>
    requires form { keeps_form command.now ≡ true }
    requires tag { has_tag command.now ≡ true }
    ensures ok { OnOk result (out.new.items ≡ out.old.items ++ spelling command.now) }
    ensures err { OnErr result (out.new.items ≡ out.old.items) }
{
    let mut bytes = Vec::new(alloc);
    put(command, &mut bytes)?;
    out.extend_from_slice(&bytes)
}

fn put(command: &Command, out: &mut Vec<u8>) -> Result<(), OutOfMemory>
    requires form { keeps_form command.now ≡ true }
    requires tag { has_tag command.now ≡ true }
    ensures { OnOk result (out.new.items ≡ out.old.items ++ spelling command.now) }
{
    match command {
        Command::Submit {
            task,
            group,
            source,
            kind,
            priority,
            locks,
        } => put_submit(task, group, source, *kind, *priority, locks, out),
        Command::Manage { now } => put_manage(*now, out),
        Command::Lock {
            task,
            lock_kind,
            span,
            now,
        } => put_lock(task, *lock_kind, span, *now, out),
        Command::Unlock { task, lock } => put_unlock(task, *lock, out),
        Command::Allocate {
            task,
            lock_kind,
            sequence,
            previous,
            at,
            granularity,
            now,
        } => put_allocate(
            task,
            *lock_kind,
            sequence,
            previous,
            *at,
            *granularity,
            *now,
            out,
        ),
        Command::Append { task, ids, ranges } => put_append(task, ids, ranges, out),
        Command::Insert {
            task,
            spans,
            ids,
            tombstones,
            ranges,
        } => put_insert(task, spans, ids, tombstones, ranges, out),
        Command::Replace {
            task,
            spans,
            ids,
            tombstones,
            ranges,
        } => put_replace(task, spans, ids, tombstones, ranges, out),
        Command::End { task, status } => put_end(task, *status, out),
        Command::Drop { source, span } => put_drop(source, span, out),
        Command::Reset {
            source,
            stream,
            offsets,
        } => put_reset(source, stream, offsets, out),
        Command::Supervise {
            source,
            stream,
            partitions,
            task_count,
            replicas,
            task_duration,
            completion_timeout,
        } => put_supervise(
            source,
            stream,
            *partitions,
            *task_count,
            *replicas,
            task_duration,
            completion_timeout,
            out,
        ),
        Command::Tick { now } => put_tick(*now, out),
        Command::Paused { task, offsets } => put_paused(task, offsets, out),
        Command::Checkpoint { task, offsets } => put_checkpoint(task, offsets, out),
        // These two only ask, and have no tag.
        Command::ToReplace { .. } | Command::Show { .. } => Ok(()),
    }
}
