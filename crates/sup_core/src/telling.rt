//! What a tick tells of the unpublished sequences of a group.
ghost use Rattle.std.specs.Prelude.{◌≡◌, ◌++◌, ◌∷◌, OnOk, [], map};
ghost use Rattle.book_rows.specs.Sequences.{name_of};
ghost use Rattle.sup_core.specs.Ticking.{is_done_reading, is_from, is_late_closed, is_past, is_staying, late_index, stays_active, told_all, told_one};

use crate::OutOfMemory;
use book_rows::{Items, SeqState, SequenceRow, SupervisorRow, Ticked};
use seg_names::TaskId;
use std::alloc::Global;
use tab_sequences::{Sequence, is_active};

/// Whether a span of time that began at this instant is over at that moment.
fn is_past(begun: i64, duration: i64, moment: i64) -> bool
    ensures { result ≡ is_past begun duration moment }
{
    match begun.checked_add(duration) {
        Some(end) => end <= moment,
        None => duration < 0,
    }
}

fn is_late(row: &SequenceRow, supervisor: &SupervisorRow, moment: i64) -> bool
    ensures { result ≡ is_late_closed supervisor.now.timeout moment row.now }
{
    row.state == SeqState::Closed && is_past(row.closed, supervisor.timeout, moment)
}

/// The index of the first closed one that isn't published in time.
pub fn late_index(open: &[&Sequence], supervisor: &SupervisorRow, moment: i64) -> Option<u32>
    ensures { result ≡ late_index supervisor.now.timeout moment (map (λ u. u.now) open.now) }
{
    for sequence in open {
        if is_late(&sequence.row, supervisor, moment) {
            return Some(sequence.row.index);
        }
    }
    None
}

/// Whether the sequence has at least this index, where there is one.
pub fn is_from(late: Option<u32>, row: &SequenceRow) -> bool
    ensures { result ≡ is_from late row.now }
{
    match late {
        Some(index) => index <= row.index,
        None => false,
    }
}

fn is_done_reading(row: &SequenceRow, supervisor: &SupervisorRow, moment: i64) -> bool
    ensures { result ≡ is_done_reading supervisor.now.duration moment row.now }
{
    row.state == SeqState::Reading && is_past(row.opened, supervisor.duration, moment)
}

fn push_name(
    alloc: Global,
    names: &mut Items<TaskId>,
    sequence: &Sequence,
) -> Result<(), OutOfMemory>
    ensures { OnOk result (names.new ≡ names.old ++ name_of sequence.now ∷ []) }
{
    names.push(sequence.name.twin(alloc)?)
}

fn push_live(alloc: Global, tasks: &mut Items<TaskId>, live: &[TaskId]) -> Result<(), OutOfMemory>
    ensures { OnOk result (tasks.new ≡ tasks.old ++ live.now) }
{
    for task in live {
        tasks.push(task.twin(alloc)?)?;
    }
    Ok(())
}

// It is abandoned, and its live replicas end.
fn tell_abandoned(alloc: Global, told: &mut Ticked, sequence: &Sequence) -> Result<(), OutOfMemory>
    ensures { OnOk result (told.new ≡ record told.old { abandoned = told.old.abandoned ++ name_of sequence.now ∷ []; ended = told.old.ended ++ sequence.now.live }) }
{
    push_name(alloc, &mut told.abandoned, sequence)?;
    push_live(alloc, &mut told.ended, sequence.row.live.as_slice())
}

fn tell_one(
    alloc: Global,
    told: &mut Ticked,
    sequence: &Sequence,
    late: Option<u32>,
    supervisor: &SupervisorRow,
    moment: i64,
) -> Result<(), OutOfMemory>
    ensures { OnOk result (told.new ≡ told_one late supervisor.now.duration moment told.old sequence.now) }
{
    if is_from(late, &sequence.row) {
        return tell_abandoned(alloc, told, sequence);
    }
    if is_done_reading(&sequence.row, supervisor, moment) {
        push_name(alloc, &mut told.paused, sequence)?;
    }
    Ok(())
}

/// Tells which of these are abandoned, from an index on, and which pause. The error is want of memory.
pub fn tell_all(
    alloc: Global,
    told: &mut Ticked,
    open: &[&Sequence],
    late: Option<u32>,
    supervisor: &SupervisorRow,
    moment: i64,
) -> Result<(), OutOfMemory>
    ensures { OnOk result (told.new ≡ told_all late supervisor.now.duration moment told.old (map (λ u. u.now) open.now)) }
{
    for sequence in open {
        tell_one(alloc, told, sequence, late, supervisor, moment)?;
    }
    Ok(())
}

fn is_staying(row: &SequenceRow, late: Option<u32>) -> bool
    ensures { result ≡ is_staying late row.now }
{
    !is_from(late, row) && is_active(row.state)
}

/// Whether one of those that stay reads, or waits for reports.
pub fn stays_active(open: &[&Sequence], late: Option<u32>) -> bool
    ensures { result ≡ stays_active late (map (λ u. u.now) open.now) }
{
    for sequence in open {
        if is_staying(&sequence.row, late) {
            return true;
        }
    }
    false
}
