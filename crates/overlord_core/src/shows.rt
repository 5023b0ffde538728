//! `to_replace` and `show`, which change nothing.
ghost use Rattle.std.specs.Prelude.{◌≡◌, IfOk};
ghost use Rattle.book_rows.specs.Carried.{to_replace};
ghost use Rattle.book_rows.specs.Outcome as rules;
ghost use Rattle.book_rows.specs.Outcome.{running, task_of};
ghost use Rattle.book_rows.specs.Over.{held_for};
ghost use Rattle.book_rows.specs.PublishSteps.{asked, told_of};
ghost use Rattle.book_rows.specs.ShowSteps.{shown_of};
ghost use Rattle.book_rows.specs.Sound.{Sound};
ghost use Rattle.book_rows.specs.declared.commands.What.TheVariants as Whats;
ghost use Rattle.book_rows.specs.declared.kinds.LockKind.TheVariants as LockKinds;
ghost use Rattle.publish_core.specs.Answers.{IsHeld};
ghost use Rattle.book_core.specs.Done.{IsDone};

use crate::rows_shown::{lock_lines, offset_lines, sequence_lines, task_lines};
use book_core::{Core, OutOfMemory, Outcome, publish_refusal, refused, repeated};
use book_rows::{Items, LockKind, PosseRow, Refusal, Reply, TaskRow, TaskStatus, What};
use iv_span::Span;
use publish_core::{PublishFault, lock_for};
use seg_names::{Name, SegId, TaskId};
use std::alloc::Global;
use timeline_view::to_replace;

// ---- to_replace

fn replacing_lock<'a>(
    core: &'a Core,
    row: &TaskRow,
    span: Span,
) -> Result<&'a PosseRow, PublishFault>
    ensures { IsHeld result (held_for core.now.posses row.now LockKinds.Replace span) }
{
    lock_for(&core.posses, row, LockKind::Replace, span)
}

fn roots_to_replace(core: &Core, alloc: Global, lock: &PosseRow) -> Result<Vec<SegId>, OutOfMemory>
    ensures { IfOk result (λ ids. ids.items ≡ to_replace core.now.segments core.now.publications lock.now) }
{
    to_replace(alloc, &core.segments, &core.streams, lock)
}

// The answer is for the whole span of the lock.
fn told_of(core: &Core, alloc: Global, lock: &PosseRow) -> Result<Outcome, OutOfMemory>
    ensures { IfOk result (λ o. IsDone o core.now (told_of core.now lock.now)) }
{
    let ids = Items::from_vec(roots_to_replace(core, alloc, lock)?);
    Ok(repeated(Reply::ToReplace { ids }))
}

fn asked(core: &Core, alloc: Global, row: &TaskRow, span: Span) -> Result<Outcome, OutOfMemory>
    ensures { IfOk result (λ o. IsDone o core.now (asked core.now span row.now)) }
{
    match replacing_lock(core, row, span) {
        Ok(lock) => told_of(core, alloc, lock),
        Err(fault) => Ok(refused(publish_refusal(fault)?)),
    }
}

/// Tells a task what its replacement has to read, under the lock that it holds for the span.
pub fn ask(core: &Core, alloc: Global, task: &TaskId, span: Span) -> Result<Outcome, OutOfMemory>
    ensures { IfOk result (λ o. IsDone o core.now (running (task_of task.now core.now.tasks) core.now (asked core.now span))) }
{
    let Some(row) = core.task(task) else {
        return Ok(refused(Refusal::TaskUnknown));
    };
    if row.status != TaskStatus::Running {
        return Ok(refused(Refusal::TaskNotRunning { status: row.status }));
    }
    asked(core, alloc, row, span)
}

// ---- show

fn tasks(core: &Core, alloc: Global) -> Result<Reply, OutOfMemory>
    ensures { IfOk result (λ reply. reply ≡ shown_of core.now Whats.Tasks) }
{
    Ok(Reply::Tasks {
        tasks: Items::from_vec(task_lines(alloc, &core.tasks)?),
    })
}

fn locks(core: &Core, alloc: Global) -> Result<Reply, OutOfMemory>
    ensures { IfOk result (λ reply. reply ≡ shown_of core.now Whats.Locks) }
{
    Ok(Reply::Locks {
        locks: Items::from_vec(lock_lines(alloc, &core.posses)?),
    })
}

fn timeline(core: &Core, alloc: Global, source: &Name) -> Result<Reply, OutOfMemory>
    requires { Sound core.now }
    ensures { IfOk result (λ reply. reply ≡ shown_of core.now (Whats.Timeline source.now)) }
{
    Ok(Reply::Timeline {
        parts: Items::from_vec(timeline_view::timeline(alloc, &core.segments, source)?),
        source: source.twin(alloc)?,
    })
}

fn contents(core: &Core, alloc: Global, source: &Name) -> Result<Reply, OutOfMemory>
    ensures { IfOk result (λ reply. reply ≡ shown_of core.now (Whats.Contents source.now)) }
{
    Ok(Reply::Contents {
        parts: Items::from_vec(timeline_view::contents(alloc, &core.segments, source)?),
        source: source.twin(alloc)?,
    })
}

fn offsets(core: &Core, alloc: Global, source: &Name) -> Result<Reply, OutOfMemory>
    ensures { IfOk result (λ reply. reply ≡ shown_of core.now (Whats.Offsets source.now)) }
{
    Ok(Reply::Offsets {
        offsets: Items::from_vec(offset_lines(alloc, &core.streams, source)?),
        source: source.twin(alloc)?,
    })
}

fn sequences(core: &Core, alloc: Global, source: &Name) -> Result<Reply, OutOfMemory>
    ensures { IfOk result (λ reply. reply ≡ shown_of core.now (Whats.Sequences source.now)) }
{
    Ok(Reply::Sequences {
        sequences: Items::from_vec(sequence_lines(alloc, &core.supervisors, source)?),
        source: source.twin(alloc)?,
    })
}

fn shown_of(core: &Core, alloc: Global, what: &What) -> Result<Reply, OutOfMemory>
    requires { Sound core.now }
    ensures { IfOk result (λ reply. reply ≡ shown_of core.now what.now) }
{
    match what {
        What::Tasks => tasks(core, alloc),
        What::Locks => locks(core, alloc),
        What::Timeline(source) => timeline(core, alloc, source),
        What::Contents(source) => contents(core, alloc, source),
        What::Offsets(source) => offsets(core, alloc, source),
        What::Sequences(source) => sequences(core, alloc, source),
    }
}

/// What is shown of the book.
pub fn show(core: &Core, alloc: Global, what: &What) -> Result<Outcome, OutOfMemory>
    requires { Sound core.now }
    ensures { IfOk result (λ o. IsDone o core.now (rules.repeated core.now (shown_of core.now what.now))) }
{
    Ok(repeated(shown_of(core, alloc, what)?))
}
