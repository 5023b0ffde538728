//! A replica ends.
ghost use Rattle.std.specs.Prelude.{◌≡◌, ◌++◌, IfOk, OnErr, OnOk, map};
ghost use Rattle.std.specs.Option.{option_copied};
ghost use Rattle.book_rows.specs.Reports.{ended};
ghost use Rattle.book_rows.specs.Sequences.{open_rows};
ghost use Rattle.sup_core.specs.Endings.{are_done, ending_of, is_alone, is_deserted, is_done, left_live, may_close, others_from, others_of, row_ending};

use crate::OutOfMemory;
use crate::offsets::ends_told;
use crate::reports::has_reported;
use book_rows::{Items, Report, SeqState, SequenceRow, TaskRow};
use seg_names::{Name, TaskId};
use std::alloc::Global;
use tab_sequences::{Closing, Sequence, Sequences, is_unpublished};

/// What becomes of a sequence as a replica ends.
#[derive(Drop)]
pub enum Ending {
    /// Nothing.
    Stays,
    /// It and the later unpublished ones of its group are abandoned.
    Abandons { source: Name, group: u32, from: u32 },
    /// It closes.
    Closes(Closing),
}

// Whether none of these but this task is there.
fn is_alone(live: &[TaskId], task: &TaskId) -> bool
    ensures { result ≡ is_alone task.now live.now }
{
    live.iter().all(|other| *other == *task)
}

// Whether the sequence is unpublished and has no live replica but this task.
fn is_deserted(row: &SequenceRow, task: &TaskId) -> bool
    ensures { result ≡ is_deserted task.now row.now }
{
    is_unpublished(row.state) && is_alone(row.live.as_slice(), task)
}

// Whether the replica is this task, or has reported.
fn is_done(reports: &[Report], live: &TaskId, task: &TaskId) -> bool
    ensures { result ≡ is_done task.now reports.now live.now }
{
    *live == *task || has_reported(reports, live)
}

fn are_done(reports: &[Report], live: &[TaskId], task: &TaskId) -> bool
    ensures { result ≡ are_done task.now reports.now live.now }
{
    live.iter().all(|other| is_done(reports, other, task))
}

// Whether the sequence is paused and each live replica but this task has reported.
fn may_close(row: &SequenceRow, task: &TaskId) -> bool
    ensures { result ≡ may_close task.now row.now }
{
    row.state == SeqState::Paused && are_done(row.reports.as_slice(), row.live.as_slice(), task)
}

// What becomes of the sequence. The error is want of memory.
fn row_ending(
    alloc: Global,
    row: &SequenceRow,
    task: &TaskId,
    clock: i64,
) -> Result<Ending, OutOfMemory>
    ensures { IfOk result (λ e. e ≡ row_ending task.now clock row.now) }
{
    if is_deserted(row, task) {
        return Ok(Ending::Abandons {
            source: row.source.twin(alloc)?,
            group: row.group,
            from: row.index,
        });
    }
    if !may_close(row, task) {
        return Ok(Ending::Stays);
    }
    Ok(Ending::Closes(Closing {
        at: clock,
        ends: Items::from_vec(ends_told(alloc, row.starts.as_slice(), row.reports.as_slice())?),
    }))
}

// What becomes of the sequence that the task's group names, where it names one. The error is want of
// memory.
fn ending_of(
    alloc: Global,
    named: Option<&SequenceRow>,
    task: &TaskId,
    clock: i64,
) -> Result<Ending, OutOfMemory>
    ensures { IfOk result (λ e. e ≡ ending_of (option_copied named.entry) task.now clock) }
{
    match named {
        Some(row) => row_ending(alloc, row, task, clock),
        None => Ok(Ending::Stays),
    }
}

// Puts the live replicas but this task behind these.
fn push_others(
    alloc: Global,
    tasks: &mut Vec<TaskId>,
    live: &[TaskId],
    task: &TaskId,
) -> Result<(), OutOfMemory>
    ensures { OnOk result (tasks.new.items ≡ tasks.old.items ++ left_live task.now live.now) }
{
    for other in live {
        if *other != *task {
            tasks.push(other.twin(alloc)?)?;
        }
    }
    Ok(())
}

// Puts the live replicas of the sequence but this task behind these, where it has at least that index.
fn push_from(
    alloc: Global,
    tasks: &mut Vec<TaskId>,
    row: &SequenceRow,
    from: u32,
    task: &TaskId,
) -> Result<(), OutOfMemory>
    ensures { OnOk result (tasks.new.items ≡ tasks.old.items ++ others_of from task.now row.now) }
{
    if from <= row.index {
        push_others(alloc, tasks, row.live.as_slice(), task)?;
    }
    Ok(())
}

// The live replicas of those of these sequences that have at least that index, but for this task.
fn others_from(
    alloc: Global,
    open: &[&Sequence],
    from: u32,
    task: &TaskId,
) -> Result<Vec<TaskId>, OutOfMemory>
    ensures { IfOk result (λ tasks. tasks.items ≡ others_from from task.now (map (λ u. u.now) open.now)) }
{
    let mut tasks = Vec::new(alloc);
    for sequence in open {
        push_from(alloc, &mut tasks, &sequence.row, from, task)?;
    }
    Ok(tasks)
}

// Those of the unpublished sequences of a group, from an index on.
fn others_in(
    alloc: Global,
    sequences: &Sequences,
    source: &Name,
    group: u32,
    from: u32,
    task: &TaskId,
) -> Result<Vec<TaskId>, OutOfMemory>
    ensures { IfOk result (λ tasks. tasks.items ≡ others_from from task.now (open_rows source.now group sequences.now)) }
{
    let open = sequences.open_in(alloc, source, group)?;
    others_from(alloc, open.as_slice(), from, task)
}

/// A task of the group of a sequence ends. Answers the tasks that are to fail with the sequences that
/// are abandoned. The error is want of memory.
pub fn end(
    alloc: Global,
    sequences: &mut Sequences,
    task: &TaskRow,
    clock: i64,
) -> Result<Vec<TaskId>, OutOfMemory>
    ensures tasks { IfOk result (λ tasks. tasks.items ≡ (ended task.now.group task.now.task clock sequences.old).tasks) }
    ensures rows { OnOk result (sequences.new ≡ (ended task.now.group task.now.task clock sequences.old).sequences) }
    ensures err { OnErr result (sequences.new ≡ sequences.old) }
{
    match ending_of(alloc, sequences.named(&task.group), &task.task, clock)? {
        Ending::Stays => {
            sequences.leave(&task.task);
            Ok(Vec::new(alloc))
        }
        Ending::Abandons {
            source,
            group,
            from,
        } => {
            let tasks = others_in(alloc, sequences, &source, group, from, &task.task)?;
            sequences.leave(&task.task);
            sequences.abandon(&source, group, from);
            Ok(tasks)
        }
        Ending::Closes(closing) => {
            sequences.tell(&task.group, None, Some(closing))?;
            sequences.leave(&task.task);
            Ok(Vec::new(alloc))
        }
    }
}
