//! Where a new sequence starts.
ghost use Rattle.std.specs.Prelude.{◌%◌, ◌++◌, ◌<◌, ◌==◌, ◌≡◌, ◌∷◌, IfOk, OnOk, [], cond, map};
ghost use Rattle.std.specs.Option.{option_copied};
ghost use Rattle.book_rows.specs.Sequences.{offset_at, partitions_of, positions};
ghost use Rattle.sup_core.specs.Ticking.{ends_or, is_from, last_closed, stays_closed};

use crate::OutOfMemory;
use crate::telling::is_from;
use book_rows::{Items, Offset, SeqState, SequenceRow, SupervisorRow, Twin};
use std::alloc::Global;
use tab_sequences::Sequence;
use tab_streams::Streams;

// Where a partition stands: at the stored offset, or at 0.
fn offset_at(streams: &Streams, row: &SupervisorRow, partition: u32) -> Offset
    ensures { result ≡ offset_at streams.now.offsets row.now.source row.now.stream partition }
{
    let offset = match streams.stored(&row.source, &row.stream, partition) {
        Some(offset) => offset,
        None => 0,
    };
    Offset { partition, offset }
}

// Puts where the partition stands behind these, where it is one of the group's.
fn push_where(
    made: &mut Vec<Offset>,
    streams: &Streams,
    row: &SupervisorRow,
    group: u32,
    partition: u32,
) -> Result<(), OutOfMemory>
    requires { group < row.now.task_count }
    ensures { OnOk result (made.new.items ≡ made.old.items ++ cond ((partition % row.now.task_count) == group) (offset_at streams.now.offsets row.now.source row.now.stream partition ∷ []) []) }
{
    if partition % row.task_count == group {
        made.push(offset_at(streams, row, partition))?;
    }
    Ok(())
}

// Where the partitions of a group stand.
fn positions(
    alloc: Global,
    streams: &Streams,
    row: &SupervisorRow,
    group: u32,
) -> Result<Vec<Offset>, OutOfMemory>
    requires { group < row.now.task_count }
    ensures { IfOk result (λ made. made.items ≡ positions streams.now.offsets row.now.source row.now.stream (partitions_of row.now group)) }
{
    let mut made = Vec::new(alloc);
    for partition in 0..row.partitions {
        push_where(&mut made, streams, row, group, partition)?;
    }
    Ok(made)
}

// Whether the sequence is closed and stays.
fn stays_closed(row: &SequenceRow, late: Option<u32>) -> bool
    ensures { result ≡ stays_closed late row.now }
{
    !is_from(late, row) && row.state == SeqState::Closed
}

// The last of those.
fn last_closed<'a>(open: &[&'a Sequence], late: Option<u32>) -> Option<&'a SequenceRow>
    ensures { option_copied result ≡ last_closed late (map (λ u. u.now) open.now) }
{
    let mut last = None;
    for sequence in open {
        if stays_closed(&sequence.row, late) {
            last = Some(&sequence.row);
        }
    }
    last
}

/// Where the last closed one of these that stay ends, or else where the partitions of the group
/// stand. The error is want of memory.
pub fn starts(
    alloc: Global,
    streams: &Streams,
    row: &SupervisorRow,
    group: u32,
    open: &[&Sequence],
    late: Option<u32>,
) -> Result<Items<Offset>, OutOfMemory>
    requires { group < row.now.task_count }
    ensures { IfOk result (λ made. made ≡ ends_or (positions streams.now.offsets row.now.source row.now.stream (partitions_of row.now group)) (last_closed late (map (λ u. u.now) open.now))) }
{
    match last_closed(open, late) {
        Some(last) => last.ends.twin(alloc),
        None => Ok(Items::from_vec(positions(alloc, streams, row, group)?)),
    }
}
