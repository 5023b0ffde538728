//! A replica reports how far it has read.
ghost use Rattle.std.specs.Prelude.{◌≡◌, ◌⊎◌, IfErr, IfOk, None, OnErr, OnOk, Some};
ghost use Rattle.book_rows.specs.Reports.{all_reported, has_reported, kept, told_again};
ghost use Rattle.book_rows.specs.Sequences.{is_closed, sequence_named};
ghost use Rattle.sup_core.specs.Reports.{closing_after, closing_reply, closed_reply, told_fault, told_reply, row_fault, rows_after, state_fault};
ghost use Rattle.sup_core.specs.declared.answers.SupFault.TheVariants.{OutOfMemory};

use crate::OutOfMemory;
use crate::answers::SupFault;
use crate::offsets::{both_told, ends_told, first_bad};
use book_rows::{Items, Offset, Report, Reported, SeqState, SequenceRow, TaskRow, Twin};
use seg_names::TaskId;
use std::alloc::Global;
use tab_sequences::{Closing, Sequences};

/// Whether a task is among those that have reported.
pub fn has_reported(reports: &[Report], task: &TaskId) -> bool
    ensures { result ≡ has_reported reports.now task.now }
{
    reports.iter().any(|report| report.task == *task)
}

fn all_reported(reports: &[Report], live: &[TaskId]) -> bool
    ensures { result ≡ all_reported reports.now live.now }
{
    live.iter().all(|task| has_reported(reports, task))
}

// The report, with what is told now where it is this task's.
fn told_again(
    alloc: Global,
    report: &Report,
    task: &TaskId,
    offsets: &[Offset],
) -> Result<Report, OutOfMemory>
    ensures { IfOk result (λ made. made ≡ told_again (record { task = task.now; offsets = offsets.now }) report.now) }
{
    if report.task == *task {
        Ok(Report {
            task: report.task.twin(alloc)?,
            offsets: Items::from_vec(both_told(alloc, report.offsets.as_slice(), offsets)?),
        })
    } else {
        report.twin(alloc)
    }
}

// The reports, with what this replica tells.
fn kept(
    alloc: Global,
    reports: &[Report],
    task: &TaskId,
    offsets: &[Offset],
) -> Result<Vec<Report>, OutOfMemory>
    ensures { IfOk result (λ made. made.items ≡ kept (record { task = task.now; offsets = offsets.now }) reports.now) }
{
    let mut made = Vec::new(alloc);
    if has_reported(reports, task) {
        for report in reports {
            made.push(told_again(alloc, report, task, offsets)?)?;
        }
    } else {
        for report in reports {
            made.push(report.twin(alloc)?)?;
        }
        made.push(Report {
            task: task.twin(alloc)?,
            offsets: Items::twin_of(alloc, offsets)?,
        })?;
    }
    Ok(made)
}

// How the sequence closes, where each live replica has reported.
fn closing_after(
    alloc: Global,
    row: &SequenceRow,
    reports: &[Report],
    clock: i64,
) -> Result<Option<Closing>, OutOfMemory>
    ensures { IfOk result (λ made. made ≡ closing_after row.now reports.now clock) }
{
    if !all_reported(reports, row.live.as_slice()) {
        return Ok(None);
    }
    Ok(Some(Closing {
        at: clock,
        ends: Items::from_vec(ends_told(alloc, row.starts.as_slice(), reports)?),
    }))
}

// What is answered where the sequence closes so, or pauses.
fn closing_reply(alloc: Global, closing: &Option<Closing>) -> Result<Reported, OutOfMemory>
    ensures { IfOk result (λ reply. reply ≡ closing_reply closing.now) }
{
    match closing {
        Some(closing) => Ok(Reported {
            state: SeqState::Closed,
            ends: closing.ends.twin(alloc)?,
            changed: true,
        }),
        None => Ok(Reported {
            state: SeqState::Paused,
            ends: Items::new(alloc),
            changed: true,
        }),
    }
}

fn is_closed(row: &SequenceRow) -> bool
    ensures { result ≡ is_closed row.now }
{
    row.state == SeqState::Closed
}

fn state_fault(state: SeqState, begin: bool) -> Option<SupFault>
    ensures { result ≡ state_fault state begin }
{
    match state {
        SeqState::Reading => {
            if begin {
                None
            } else {
                Some(SupFault::State(SeqState::Reading))
            }
        }
        SeqState::Paused | SeqState::Closed => None,
        SeqState::Published => Some(SupFault::State(SeqState::Published)),
        SeqState::Abandoned => Some(SupFault::State(SeqState::Abandoned)),
    }
}

// Why the sequence doesn't take the report.
fn row_fault(row: &SequenceRow, offsets: &[Offset], begin: bool) -> Option<SupFault>
    ensures { result ≡ row_fault begin row.now offsets.now }
{
    let fault = state_fault(row.state, begin);
    if fault.is_some() {
        return fault;
    }
    if is_closed(row) {
        return None;
    }
    match first_bad(row.starts.as_slice(), offsets) {
        Some(partition) => Some(SupFault::BadRange(partition)),
        None => None,
    }
}

// A closed sequence answers its ends, and nothing changes.
fn closed_reply(alloc: Global, row: &SequenceRow) -> Result<Reported, OutOfMemory>
    ensures { IfOk result (λ reply. reply ≡ closed_reply row.now) }
{
    Ok(Reported {
        state: SeqState::Closed,
        ends: row.ends.twin(alloc)?,
        changed: false,
    })
}

/// Keeps what the task tells of the sequence that its group names, which closes where each live
/// replica has reported.
pub fn report(
    alloc: Global,
    sequences: &mut Sequences,
    task: &TaskRow,
    offsets: &[Offset],
    clock: i64,
    begin: bool,
) -> Result<Reported, SupFault>
    ensures passes { IfOk result (λ _. told_fault begin (sequence_named task.now.group sequences.old) offsets.now ≡ None) }
    ensures reply { IfOk result (λ reply. told_reply (sequence_named task.now.group sequences.old) (record { task = task.now.task; offsets = offsets.now }) clock ≡ Some reply) }
    ensures rows { OnOk result (sequences.new ≡ rows_after (sequence_named task.now.group sequences.old) task.now.group (record { task = task.now.task; offsets = offsets.now }) clock sequences.old) }
    ensures refused { IfErr result (λ why. (why ≡ OutOfMemory) ⊎ (told_fault begin (sequence_named task.now.group sequences.old) offsets.now ≡ Some why)) }
    ensures err { OnErr result (sequences.new ≡ sequences.old) }
{
    let Some(row) = sequences.named(&task.group) else {
        return Err(SupFault::NoSequence);
    };
    if let Some(fault) = row_fault(row, offsets, begin) {
        return Err(fault);
    }
    if is_closed(row) {
        return Ok(closed_reply(alloc, row)?);
    }
    let reports = kept(alloc, row.reports.as_slice(), &task.task, offsets)?;
    let closing = closing_after(alloc, row, reports.as_slice(), clock)?;
    let reply = closing_reply(alloc, &closing)?;
    sequences.tell(&task.group, Some(Items::from_vec(reports)), closing)?;
    Ok(reply)
}
