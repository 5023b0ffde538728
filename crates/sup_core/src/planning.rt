//! What a tick will make of the sequences is told, group by group, before anything changes.
//!
//! It is told from the sequences as they stand: what happens to one group leaves those of the others.
ghost use Rattle.std.specs.Prelude.{◌≡◌, ◌<◌, ◌++◌, IfOk, OnOk, cond, false, length, map, nat_lt};
ghost use Rattle.book_rows.specs.Outcome.{row_limit};
ghost use Rattle.laws_sequences.specs.Links.{AreCounted};
ghost use Rattle.book_rows.specs.Ticks.{groups_of, has_partitions, of_group, replica_row};
ghost use Rattle.sup_core.specs.Planning.{nothing_planned, planned_all, planned_by, planned_group, planned_groups, with_opening};

use crate::OutOfMemory;
use crate::opening::{open_sequence, replica_row};
use crate::supervising::Supervisor;
use crate::telling::{late_index, stays_active, tell_all};
use book_rows::{Items, SupervisorRow, TaskRow, Ticked};
use std::alloc::Global;
use std::marker::Model;
use tab_sequences::{Sequence, Sequences};
use tab_streams::Streams;

/// What a tick tells, and the sequences that it opens.
#[derive(Drop)]
pub struct Plan {
    pub told: Ticked,
    pub opened: Vec<Sequence>,
}

impl Model for Plan {
    ghost use Rattle.sup_core.specs.Planning.{Planning};

    ghost Value = { Planning };

    ghost view = { λ p. record { told = p.told; opened = p.opened.items } };
}

fn nothing_planned(alloc: Global) -> Plan
    ensures { result ≡ nothing_planned }
{
    Plan {
        told: Ticked {
            abandoned: Items::new(alloc),
            paused: Items::new(alloc),
            opened: Items::new(alloc),
            ended: Items::new(alloc),
            submitted: Items::new(alloc),
        },
        opened: Vec::new(alloc),
    }
}

// Puts the tasks of the sequence behind these.
fn submit_live(
    alloc: Global,
    submitted: &mut Items<TaskRow>,
    sequence: &Sequence,
) -> Result<(), OutOfMemory>
    ensures { OnOk result (submitted.new ≡ submitted.old ++ map (replica_row sequence.now) sequence.now.live) }
{
    let live = sequence.row.live.as_slice();
    for task in live {
        submitted.push(replica_row(alloc, sequence, task)?)?;
    }
    Ok(())
}

// The sequence opens, and its replicas are submitted.
fn plan_opening(alloc: Global, plan: &mut Plan, sequence: Sequence) -> Result<(), OutOfMemory>
    ensures { OnOk result (plan.new ≡ with_opening sequence plan.old) }
{
    plan.told.opened.push(sequence.name.twin(alloc)?)?;
    submit_live(alloc, &mut plan.told.submitted, &sequence)?;
    plan.opened.push(sequence)?;
    Ok(())
}

// A group with these unpublished sequences.
fn plan_by(
    alloc: Global,
    plan: &mut Plan,
    sequences: &Sequences,
    streams: &Streams,
    row: &SupervisorRow,
    group: u32,
    moment: i64,
    open: &[&Sequence],
) -> Result<(), OutOfMemory>
    requires group { group < row.now.task_count }
    requires counted { AreCounted sequences.now }
    requires room { nat_lt row_limit (length sequences.now) ≡ false }
    ensures { OnOk result (plan.new ≡ planned_by streams.now.offsets row.now moment group (length (of_group row.now group sequences.now)) (map (λ u. u.now) open.now) plan.old) }
{
    let late = late_index(open, row, moment);
    tell_all(alloc, &mut plan.told, open, late, row, moment)?;
    if stays_active(open, late) {
        return Ok(());
    }
    let opened = open_sequence(alloc, sequences, streams, row, group, moment, open, late)?;
    plan_opening(alloc, plan, opened)
}

fn plan_group(
    alloc: Global,
    plan: &mut Plan,
    sequences: &Sequences,
    streams: &Streams,
    row: &SupervisorRow,
    group: u32,
    moment: i64,
) -> Result<(), OutOfMemory>
    requires group { group < row.now.task_count }
    requires counted { AreCounted sequences.now }
    requires room { nat_lt row_limit (length sequences.now) ≡ false }
    ensures { OnOk result (plan.new ≡ planned_group streams.now.offsets row.now moment sequences.now group plan.old) }
{
    let open = sequences.open_in(alloc, &row.source, group)?;
    plan_by(
        alloc,
        plan,
        sequences,
        streams,
        row,
        group,
        moment,
        open.as_slice(),
    )
}

// A group, where it has partitions.
fn plan_where(
    alloc: Global,
    plan: &mut Plan,
    sequences: &Sequences,
    streams: &Streams,
    row: &SupervisorRow,
    group: u32,
    moment: i64,
) -> Result<(), OutOfMemory>
    requires group { group < row.now.task_count }
    requires counted { AreCounted sequences.now }
    requires room { nat_lt row_limit (length sequences.now) ≡ false }
    ensures { OnOk result (plan.new ≡ cond (has_partitions row.now group) (planned_group streams.now.offsets row.now moment sequences.now group plan.old) plan.old) }
{
    if group < row.partitions {
        plan_group(alloc, plan, sequences, streams, row, group, moment)?;
    }
    Ok(())
}

// All groups with partitions, ascending.
fn plan_groups(
    alloc: Global,
    plan: &mut Plan,
    sequences: &Sequences,
    streams: &Streams,
    row: &SupervisorRow,
    moment: i64,
) -> Result<(), OutOfMemory>
    requires counted { AreCounted sequences.now }
    requires room { nat_lt row_limit (length sequences.now) ≡ false }
    ensures { OnOk result (plan.new ≡ planned_groups streams.now.offsets row.now moment sequences.now (groups_of row.now) plan.old) }
{
    for group in 0..row.task_count {
        plan_where(alloc, plan, sequences, streams, row, group, moment)?;
    }
    Ok(())
}

// All groups of these supervisors.
fn plan_each(
    alloc: Global,
    plan: &mut Plan,
    supervisors: &[Supervisor],
    sequences: &Sequences,
    streams: &Streams,
    moment: i64,
) -> Result<(), OutOfMemory>
    requires counted { AreCounted sequences.now }
    requires room { nat_lt row_limit (length sequences.now) ≡ false }
    ensures { OnOk result (plan.new ≡ planned_all streams.now.offsets moment sequences.now supervisors.now plan.old) }
{
    for supervisor in supervisors {
        plan_groups(alloc, plan, sequences, streams, &supervisor.row, moment)?;
    }
    Ok(())
}

/// What a tick at this moment will make of all sequences. The error is want of memory.
pub fn plan_all(
    alloc: Global,
    supervisors: &[Supervisor],
    sequences: &Sequences,
    streams: &Streams,
    moment: i64,
) -> Result<Plan, OutOfMemory>
    requires counted { AreCounted sequences.now }
    requires room { nat_lt row_limit (length sequences.now) ≡ false }
    ensures { IfOk result (λ plan. plan ≡ planned_all streams.now.offsets moment sequences.now supervisors.now nothing_planned) }
{
    let mut plan = nothing_planned(alloc);
    plan_each(alloc, &mut plan, supervisors, sequences, streams, moment)?;
    Ok(plan)
}
