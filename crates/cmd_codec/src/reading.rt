//! Reading commands.
ghost use Rattle.std.specs.Prelude.{◌≡◌};
ghost use Rattle.book_rows.specs.declared.commands.Command.TheVariants.{Insert, Replace};
ghost use Rattle.cmd_codec.specs.Outcomes.{Gives};
ghost use Rattle.cmd_codec.specs.Reading.{code_at, tag_of, submit_at, manage_at, lock_at, unlock_at, allocate_at, append_at, plain_at, marked_at, end_at, drop_at, reset_at, supervise_at, tick_at, paused_at, checkpoint_at, values_at, command_at};

use crate::fault::ReadFault;
use crate::tag::Tag;
use crate::values::{Read, Tombstones};
use book_rows::{Command, Items, LockKind, Offset, Ranges, TaskKind, TaskStatus, Want};
use command_forms::keeps_form;
use iv_span::Span;
use iv_time::Granularity;
use seg_names::{Name, SegId, TaskId};
use std::alloc::Global;
use wire_fields::Cursor;

#[tactic(auto, using(crate::proofs::Rows::submit))]
fn submit(alloc: Global, cursor: &mut Cursor<'_>) -> Result<Command, ReadFault>
    ensures { Gives (submit_at cursor.old.rest) result cursor.old cursor.new }
{
    let (task, (group, (source, (kind, (priority, locks))))): (
        TaskId,
        (TaskId, (Name, (TaskKind, (u32, Items<Want>)))),
    ) = Read::read(alloc, cursor)?;
    Ok(Command::Submit {
        task,
        group,
        source,
        kind,
        priority,
        locks,
    })
}

#[tactic(auto, unfolding(crate::specs::Reading::manage_at))]
fn manage(cursor: &mut Cursor<'_>) -> Result<Command, ReadFault>
    ensures { Gives (manage_at cursor.old.rest) result cursor.old cursor.new }
{
    let now = cursor.i64()?;
    Ok(Command::Manage { now })
}

#[tactic(auto, using(crate::proofs::Rows::lock))]
fn lock(alloc: Global, cursor: &mut Cursor<'_>) -> Result<Command, ReadFault>
    ensures { Gives (lock_at cursor.old.rest) result cursor.old cursor.new }
{
    let (task, (lock_kind, (span, now))): (TaskId, (LockKind, (Span, i64))) = Read::read(
        alloc, cursor,
    )?;
    Ok(Command::Lock {
        task,
        lock_kind,
        span,
        now,
    })
}

#[tactic(auto, using(crate::proofs::Rows::unlock))]
fn unlock(alloc: Global, cursor: &mut Cursor<'_>) -> Result<Command, ReadFault>
    ensures { Gives (unlock_at cursor.old.rest) result cursor.old cursor.new }
{
    let (task, lock): (TaskId, u64) = Read::read(alloc, cursor)?;
    Ok(Command::Unlock { task, lock })
}

#[tactic(auto, using(crate::proofs::Rows::allocate))]
fn allocate(alloc: Global, cursor: &mut Cursor<'_>) -> Result<Command, ReadFault>
    ensures { Gives (allocate_at cursor.old.rest) result cursor.old cursor.new }
{
    let (task, (lock_kind, (sequence, (previous, (at, (granularity, now)))))): (
        TaskId,
        (LockKind, (Name, (Option<SegId>, (i64, (Granularity, i64))))),
    ) = Read::read(alloc, cursor)?;
    Ok(Command::Allocate {
        task,
        lock_kind,
        sequence,
        previous,
        at,
        granularity,
        now,
    })
}

#[tactic(auto, using(crate::proofs::Rows::append))]
fn append(alloc: Global, cursor: &mut Cursor<'_>) -> Result<Command, ReadFault>
    ensures { Gives (append_at cursor.old.rest) result cursor.old cursor.new }
{
    let (task, (ids, ranges)): (TaskId, (Items<SegId>, Option<Ranges>)) = Read::read(
        alloc, cursor,
    )?;
    Ok(Command::Append { task, ids, ranges })
}

#[tactic(auto, using(crate::proofs::Rows::plain))]
fn plain_insert(alloc: Global, cursor: &mut Cursor<'_>) -> Result<Command, ReadFault>
    ensures { Gives (plain_at Insert cursor.old.rest) result cursor.old cursor.new }
{
    let (task, (spans, (ids, ranges))): (TaskId, (Items<Span>, (Items<SegId>, Option<Ranges>))) =
        Read::read(alloc, cursor)?;
    let tombstones = Items::new(alloc);
    Ok(Command::Insert {
        task,
        spans,
        ids,
        tombstones,
        ranges,
    })
}

#[tactic(auto, using(crate::proofs::Rows::plain))]
fn plain_replace(alloc: Global, cursor: &mut Cursor<'_>) -> Result<Command, ReadFault>
    ensures { Gives (plain_at Replace cursor.old.rest) result cursor.old cursor.new }
{
    let (task, (spans, (ids, ranges))): (TaskId, (Items<Span>, (Items<SegId>, Option<Ranges>))) =
        Read::read(alloc, cursor)?;
    let tombstones = Items::new(alloc);
    Ok(Command::Replace {
        task,
        spans,
        ids,
        tombstones,
        ranges,
    })
}

#[tactic(auto, using(crate::proofs::Rows::marked))]
fn marked_insert(alloc: Global, cursor: &mut Cursor<'_>) -> Result<Command, ReadFault>
    ensures { Gives (marked_at Insert cursor.old.rest) result cursor.old cursor.new }
{
    let (task, (spans, (ids, (ranges, tombstones)))): (
        TaskId,
        (Items<Span>, (Items<SegId>, (Option<Ranges>, Tombstones))),
    ) = Read::read(alloc, cursor)?;
    let tombstones = tombstones.ids;
    Ok(Command::Insert {
        task,
        spans,
        ids,
        tombstones,
        ranges,
    })
}

#[tactic(auto, using(crate::proofs::Rows::marked))]
fn marked_replace(alloc: Global, cursor: &mut Cursor<'_>) -> Result<Command, ReadFault>
    ensures { Gives (marked_at Replace cursor.old.rest) result cursor.old cursor.new }
{
    let (task, (spans, (ids, (ranges, tombstones)))): (
        TaskId,
        (Items<Span>, (Items<SegId>, (Option<Ranges>, Tombstones))),
    ) = Read::read(alloc, cursor)?;
    let tombstones = tombstones.ids;
    Ok(Command::Replace {
        task,
        spans,
        ids,
        tombstones,
        ranges,
    })
}

#[tactic(auto, using(crate::proofs::Rows::end))]
fn end(alloc: Global, cursor: &mut Cursor<'_>) -> Result<Command, ReadFault>
    ensures { Gives (end_at cursor.old.rest) result cursor.old cursor.new }
{
    let (task, status): (TaskId, TaskStatus) = Read::read(alloc, cursor)?;
    Ok(Command::End { task, status })
}

#[tactic(auto, using(crate::proofs::Rows::drop))]
fn drop_span(alloc: Global, cursor: &mut Cursor<'_>) -> Result<Command, ReadFault>
    ensures { Gives (drop_at cursor.old.rest) result cursor.old cursor.new }
{
    let (source, span): (Name, Span) = Read::read(alloc, cursor)?;
    Ok(Command::Drop { source, span })
}

#[tactic(auto, using(crate::proofs::Rows::reset))]
fn reset(alloc: Global, cursor: &mut Cursor<'_>) -> Result<Command, ReadFault>
    ensures { Gives (reset_at cursor.old.rest) result cursor.old cursor.new }
{
    let (source, (stream, offsets)): (Name, (Name, Items<Offset>)) = Read::read(alloc, cursor)?;
    Ok(Command::Reset {
        source,
        stream,
        offsets,
    })
}

#[tactic(auto, using(crate::proofs::Rows::supervise))]
fn supervise(alloc: Global, cursor: &mut Cursor<'_>) -> Result<Command, ReadFault>
    ensures { Gives (supervise_at cursor.old.rest) result cursor.old cursor.new }
{
    let (
        source,
        (stream, (partitions, (task_count, (replicas, (task_duration, completion_timeout))))),
    ): (Name, (Name, (u32, (u32, (u32, (i64, i64)))))) = Read::read(alloc, cursor)?;
    Ok(Command::Supervise {
        source,
        stream,
        partitions,
        task_count,
        replicas,
        task_duration,
        completion_timeout,
    })
}

#[tactic(auto, unfolding(crate::specs::Reading::tick_at))]
fn tick(cursor: &mut Cursor<'_>) -> Result<Command, ReadFault>
    ensures { Gives (tick_at cursor.old.rest) result cursor.old cursor.new }
{
    let now = cursor.i64()?;
    Ok(Command::Tick { now })
}

#[tactic(auto, using(crate::proofs::Rows::paused))]
fn paused(alloc: Global, cursor: &mut Cursor<'_>) -> Result<Command, ReadFault>
    ensures { Gives (paused_at cursor.old.rest) result cursor.old cursor.new }
{
    let (task, offsets): (TaskId, Items<Offset>) = Read::read(alloc, cursor)?;
    Ok(Command::Paused { task, offsets })
}

#[tactic(auto, using(crate::proofs::Rows::checkpoint))]
fn checkpoint(alloc: Global, cursor: &mut Cursor<'_>) -> Result<Command, ReadFault>
    ensures { Gives (checkpoint_at cursor.old.rest) result cursor.old cursor.new }
{
    let (task, offsets): (TaskId, Items<Offset>) = Read::read(alloc, cursor)?;
    Ok(Command::Checkpoint { task, offsets })
}

#[tactic(auto, unfolding(crate::specs::Reading::code_at))]
fn tag(cursor: &mut Cursor<'_>) -> Result<Tag, ReadFault>
    ensures { Gives (code_at tag_of cursor.old.rest) result cursor.old cursor.new }
{
    match cursor.u8()? {
        1 => Ok(Tag::Submit),
        2 => Ok(Tag::Manage),
        3 => Ok(Tag::Lock),
        4 => Ok(Tag::Unlock),
        5 => Ok(Tag::Allocate),
        6 => Ok(Tag::Append),
        7 => Ok(Tag::Insert),
        8 => Ok(Tag::Replace),
        9 => Ok(Tag::End),
        10 => Ok(Tag::Drop),
        11 => Ok(Tag::Reset),
        12 => Ok(Tag::Supervise),
        13 => Ok(Tag::Tick),
        14 => Ok(Tag::Paused),
        15 => Ok(Tag::Checkpoint),
        16 => Ok(Tag::MarkedInsert),
        17 => Ok(Tag::MarkedReplace),
        _ => Err(ReadFault::Bad),
    }
}

fn values(tag: Tag, alloc: Global, cursor: &mut Cursor<'_>) -> Result<Command, ReadFault>
    ensures { Gives (values_at tag cursor.old.rest) result cursor.old cursor.new }
{
    match tag {
        Tag::Submit => submit(alloc, cursor),
        Tag::Manage => manage(cursor),
        Tag::Lock => lock(alloc, cursor),
        Tag::Unlock => unlock(alloc, cursor),
        Tag::Allocate => allocate(alloc, cursor),
        Tag::Append => append(alloc, cursor),
        Tag::Insert => plain_insert(alloc, cursor),
        Tag::Replace => plain_replace(alloc, cursor),
        Tag::End => end(alloc, cursor),
        Tag::Drop => drop_span(alloc, cursor),
        Tag::Reset => reset(alloc, cursor),
        Tag::Supervise => supervise(alloc, cursor),
        Tag::Tick => tick(cursor),
        Tag::Paused => paused(alloc, cursor),
        Tag::Checkpoint => checkpoint(alloc, cursor),
        Tag::MarkedInsert => marked_insert(alloc, cursor),
        Tag::MarkedReplace => marked_replace(alloc, cursor),
    }
}

// The command at the cursor, which keeps its form.
#[tactic(auto, unfolding(crate::specs::Reading::command_at))]
pub fn read_command(alloc: Global, cursor: &mut Cursor<'_>) -> Result<Command, ReadFault>
    ensures { Gives (command_at cursor.old.rest) result cursor.old cursor.new }
{
    let tag = tag(cursor)?;
    let command = values(tag, alloc, cursor)?;
    if !keeps_form(&command) {
        drop(command);
        return Err(ReadFault::Bad);
    }
    Ok(command)
}
