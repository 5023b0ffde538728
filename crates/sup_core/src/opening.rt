//! A sequence is opened.
ghost use Rattle.std.specs.Prelude.{◌≡◌, ◌<◌, IfOk, false, length, map, nat_lt, true, ℕ};
ghost use Rattle.book_rows.specs.Names.{replica_name};
ghost use Rattle.book_rows.specs.Outcome.{row_limit};
ghost use Rattle.laws_sequences.specs.Links.{AreCounted};
ghost use Rattle.book_rows.specs.Ticks.{of_group, replica_row, replicas_of};
ghost use Rattle.seg_names.specs.Names.{is_task_id};
ghost use Rattle.sup_core.specs.Ticking.{new_row};

use crate::OutOfMemory;
use crate::ids::{replica_id, sequence_id};
use crate::sizes::size_of;
use crate::starts::starts;
use book_rows::{Items, SeqState, SequenceRow, SupervisorRow, TaskKind, TaskRow, TaskStatus};
use seg_names::TaskId;
use std::alloc::Global;
use tab_sequences::{Sequence, Sequences};
use tab_streams::Streams;

// The ids of the replicas of the sequence of this id.
fn replicas_of(alloc: Global, name: &TaskId, replicas: u32) -> Result<Items<TaskId>, OutOfMemory>
    requires { (k : ℕ) → k < replicas → is_task_id (replica_name name.now k) ≡ true }
    ensures { IfOk result (λ live. live ≡ replicas_of name.now replicas) }
{
    let mut live = Items::new(alloc);
    for number in 0..replicas {
        live.push(replica_id(alloc, name, number)?)?;
    }
    Ok(live)
}

/// A task of the sequence. The error is want of memory.
pub fn replica_row(
    alloc: Global,
    sequence: &Sequence,
    task: &TaskId,
) -> Result<TaskRow, OutOfMemory>
    ensures { IfOk result (λ row. row ≡ replica_row sequence.now task.now) }
{
    Ok(TaskRow {
        task: task.twin(alloc)?,
        group: sequence.name.twin(alloc)?,
        source: sequence.row.source.twin(alloc)?,
        kind: TaskKind::Realtime,
        priority: 75,
        status: TaskStatus::Waiting,
        wants: Items::new(alloc),
    })
}

/// A new sequence of a group, with its name: those of these that stay are before it. The error is want
/// of memory.
pub fn open_sequence(
    alloc: Global,
    sequences: &Sequences,
    streams: &Streams,
    row: &SupervisorRow,
    group: u32,
    moment: i64,
    open: &[&Sequence],
    late: Option<u32>,
) -> Result<Sequence, OutOfMemory>
    requires group { group < row.now.task_count }
    requires counted { AreCounted sequences.now }
    requires room { nat_lt row_limit (length sequences.now) ≡ false }
    ensures { IfOk result (λ u. u ≡ new_row streams.now.offsets row.now group moment (length (of_group row.now group sequences.now)) late (map (λ u. u.now) open.now)) }
{
    let _source = row.source.bytes();
    let index = size_of(sequences, &row.source, group);
    let name = sequence_id(alloc, &row.source, group, index)?;
    let live = replicas_of(alloc, &name, row.replicas)?;
    let starts = starts(alloc, streams, row, group, open, late)?;
    Ok(Sequence {
        row: SequenceRow {
            source: row.source.twin(alloc)?,
            group,
            index,
            state: SeqState::Reading,
            opened: moment,
            closed: 0,
            starts,
            ends: Items::new(alloc),
            live,
            reports: Items::new(alloc),
        },
        name,
    })
}
